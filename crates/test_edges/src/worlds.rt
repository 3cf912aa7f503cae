// A context with the memory that is lent to it, as one value: a call takes one and answers the next, so the one before stays to compare
// with.
ghost use Rattle.std.specs.Prelude.{◌<◌, ◌≤◌};

use context::choice::Turn;
use context::{Controller, choice, entry, look, start};
use rules::verdict::{Answer, Refusal, number_of};
use sender::{Ack, Loss, Nack, Send};
use window::Settings;

// The memory has room for nine flows, one more than a context may have, and for a ring of 64 slots for each.
pub const FLOWS_MOST: usize = 9;

pub const TABLE_MOST: usize = 36;

pub const WORDS_MOST: usize = 9;

pub const SLOTS_MOST: usize = 576;

// The EV times, which are all lent.
pub const EVS: usize = 256;

// The slots of a ring that is not wide.
pub const RING: usize = 64;

// An element of the memory; 0 past its end.
pub(crate) fn at<T: Copy + Default>(xs: &[T], k: usize) -> T {
    xs.get(k).copied().unwrap_or_default()
}

// Writes one; past the end there is none.
pub(crate) fn put<T: Copy>(xs: &mut [T], k: usize, x: T) {
    if k < xs.len() {
        xs[k] = x;
    }
}

// The first `table` words of `flows` are lent, and so much of the other memory as these flows have rings: of 64 slots, or one of 128
// where it is wide. `flow` is the one that the case is at, `outcome` what the last call answered, with whom it named.
#[derive(Clone, Copy)]
pub struct World {
    pub flows: [u64; TABLE_MOST],
    pub evs: [u64; EVS],
    pub outstanding: [u64; WORDS_MOST],
    pub marked: [u64; WORDS_MOST],
    pub sizes: [u32; SLOTS_MOST],
    pub sent: [u64; SLOTS_MOST],
    pub table: usize,
    pub wide: bool,
    pub flow: u64,
    pub outcome: Result<Option<Turn>, Refusal>,
    pub state: Controller,
}

// An entry point, with what is handed to it: a value, and no closure, since a case's text says which it is, and closures of several calls
// would be one type in a box alone, on the heap.
#[derive(Clone, Copy)]
pub enum Call {
    SetUp(Settings),
    NewData(u64),
    Send(Send),
    Ack(Ack),
    Nack(Nack),
    Loss(Loss),
    Path,
    Choose,
}

// What a call answered; only a choice names anybody.
type Got = Answer<Controller, Option<Turn>>;

// The answer of any other call. `test_lengths` has this and the next two too: each of the two programs stands alone, and a crate between
// them would be longer than what they share.
fn unnamed<T: Copy>(answer: Answer<Controller, T>) -> Got {
    Answer {
        state: answer.state,
        outcome: answer.outcome.map(|_| None),
    }
}

// What is lent to a call.
#[derive(Drop)]
struct Lent<'a> {
    flows: &'a mut [u64],
    outstanding: &'a mut [u64],
    marked: &'a mut [u64],
    sizes: &'a mut [u32],
    sent: &'a mut [u64],
    evs: &'a mut [u64],
}

impl Lent<'_> {
    // What a call answers, of a flow and at a time where it is an event.
    fn answer(self, call: Call, c: Controller, at: u64, k: usize) -> Got {
        let Lent {
            flows,
            outstanding: out,
            marked,
            sizes,
            sent,
            evs,
        } = self;
        match call {
            Call::SetUp(s) => { unnamed(start::set_up(s, flows, out, marked, sizes, sent, evs)) }
            Call::NewData(n) => {
                unnamed(entry::new_data(c, flows, out, marked, sizes, sent, evs, at, k, n))
            }
            Call::Send(a) => {
                unnamed(entry::send(c, flows, out, marked, sizes, sent, evs, at, k, a))
            }
            Call::Ack(a) => {
                unnamed(entry::ack(c, flows, out, marked, sizes, sent, evs, at, k, a))
            }
            Call::Nack(a) => {
                unnamed(entry::nack(c, flows, out, marked, sizes, sent, evs, at, k, a))
            }
            Call::Loss(a) => {
                unnamed(entry::loss(c, flows, out, marked, sizes, sent, evs, at, k, a))
            }
            Call::Path => unnamed(entry::path(c, flows, out, marked, sizes, sent, evs, at, k)),
            Call::Choose => choice::choose(c, flows, out, marked, sizes, sent, evs),
        }
    }
}

// The same, only looked at.
#[derive(Clone, Copy)]
struct Shown<'a> {
    flows: &'a [u64],
    outstanding: &'a [u64],
    marked: &'a [u64],
    sizes: &'a [u32],
    sent: &'a [u64],
    evs: &'a [u64],
}

impl World {
    // The number that the last call answered.
    pub(crate) fn number(&self) -> u32 {
        number_of(self.outcome)
    }

    // How many flows are lent.
    pub(crate) fn flow_count(&self) -> usize {
        self.table / flow_table::FLOW_WORDS
    }

    // The capacity of each ring.
    pub(crate) fn capacity(&self) -> usize
        ensures { (0 < result) × (result ≤ 128) }
    {
        if self.wide & (self.flow_count() < 2) {
            2 * RING
        } else {
            RING
        }
    }

    // The words of each kind of bits that are lent: one for each flow, and with no flow still one ring.
    fn word_count(&self) -> usize
        ensures { result ≤ 9 }
    {
        let least = if self.wide { 2 } else { 1 };
        self.flow_count().max(least).min(WORDS_MOST)
    }

    // The slots that are lent.
    pub(crate) fn slot_count(&self) -> usize
        ensures { result ≤ 576 }
    {
        RING * self.word_count()
    }

    // The world after a call on the part of the memory that is lent.
    pub(crate) fn after(mut self, time: u64, call: Call) -> World {
        let table = self.table.min(TABLE_MOST);
        let words = self.word_count();
        let slots = self.slot_count();
        let lent = Lent {
            flows: &mut self.flows[..table],
            outstanding: &mut self.outstanding[..words],
            marked: &mut self.marked[..words],
            sizes: &mut self.sizes[..slots],
            sent: &mut self.sent[..slots],
            evs: &mut self.evs,
        };
        let got = lent.answer(call, self.state, time, self.flow as usize);
        self.state = got.state;
        self.outcome = got.outcome;
        self
    }

    // The part of the memory that is lent.
    fn shown(&self) -> Shown<'_> {
        let words = self.word_count();
        let slots = self.slot_count();
        Shown {
            flows: &self.flows[..self.table.min(TABLE_MOST)],
            outstanding: &self.outstanding[..words],
            marked: &self.marked[..words],
            sizes: &self.sizes[..slots],
            sent: &self.sent[..slots],
            evs: &self.evs,
        }
    }

    // The status of a PSN.
    pub(crate) fn status_of(&self, psn: u32) -> Result<u32, Refusal> {
        let Shown {
            flows,
            outstanding,
            marked,
            sizes,
            sent,
            evs,
        } = self.shown();
        let k = self.flow as usize;
        look::status(
            self.state,
            flows,
            outstanding,
            marked,
            sizes,
            sent,
            evs,
            k,
            psn,
        )
    }

    // The first marked PSN from one on.
    pub(crate) fn next_marked(&self, psn: u32) -> Result<u32, Refusal> {
        let Shown {
            flows,
            outstanding,
            marked,
            sizes,
            sent,
            evs,
        } = self.shown();
        let k = self.flow as usize;
        look::next_marked(
            self.state,
            flows,
            outstanding,
            marked,
            sizes,
            sent,
            evs,
            k,
            psn,
        )
    }

    // Whether state, table, rings and EV times are those of another. What the last call answered is no part of it, so no derive serves.
    pub(crate) fn is_as(&self, other: &World) -> bool {
        (self.state == other.state)
            & (self.flows == other.flows)
            & (self.outstanding == other.outstanding)
            & (self.marked == other.marked)
            & (self.sizes == other.sizes)
            & (self.sent == other.sent)
            & (self.evs == other.evs)
    }
}
