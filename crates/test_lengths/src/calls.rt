// Every entry point on lent slices of any lengths.
use crate::make;
use crate::make::{Given, TABLE};
use context::choice::Turn;
use context::{Controller, choice, entry, look, start};
use rules::verdict::{Answer, Refusal};
use sender::{Ack, Loss, Nack, Send};
use window::Settings;

// An entry point; the events are calls on empty rings that no row but 2, 10 or, by its EV, 23 or, by its flow, 25 refuses, and a choice is
// refused by 2 alone. A value, and no closure: a line goes through the events one after another, a call says what it must leave, and a
// closure that takes what is lent gets no proof, since it can't pass on what holds a `&mut [T]`.
#[derive(Clone, Copy)]
pub enum Call {
    SetUp(Settings),
    NewData,
    Send,
    Ack,
    Nack,
    Loss,
    Path,
    Choose,
}

impl Call {
    // The events, in the order in which a line has them.
    pub const EVENTS: [Call; 6] = [
        Call::NewData,
        Call::Send,
        Call::Ack,
        Call::Nack,
        Call::Loss,
        Call::Path,
    ];
}

// What a call answered; only a choice names anybody.
pub type Got = Answer<Controller, Option<Turn>>;

// The answer of any other call. `test_edges` has this and the next two too: each of the two programs stands alone, and a crate between
// them would be longer than what they share.
fn unnamed<T: Copy>(answer: Answer<Controller, T>) -> Got {
    Answer {
        state: answer.state,
        outcome: answer.outcome.map(|_| None),
    }
}

// What is lent to a call.
#[derive(Drop)]
pub struct Lent<'a> {
    pub flows: &'a mut [u64],
    pub outstanding: &'a mut [u64],
    pub marked: &'a mut [u64],
    pub sizes: &'a mut [u32],
    pub sent: &'a mut [u64],
    pub evs: &'a mut [u64],
}

// The same, only looked at.
#[derive(Clone, Copy)]
pub struct Shown<'a> {
    pub flows: &'a [u64],
    pub outstanding: &'a [u64],
    pub marked: &'a [u64],
    pub sizes: &'a [u32],
    pub sent: &'a [u64],
    pub evs: &'a [u64],
}

// What the two looks answered.
#[derive(Clone, Copy)]
pub struct Looks {
    pub status: Result<u32, Refusal>,
    pub next_marked: Result<u32, Refusal>,
}

// A new packet of 41 bytes.
fn a_send() -> Send {
    Send {
        psn: 5,
        size: 41,
        resend: false,
    }
}

// An ACK of the packet before low, with the held count: nothing new.
fn an_ack(ev: u32) -> Ack {
    Ack {
        cum: 4,
        map: 0,
        trigger: 4,
        count: 7,
        service: 0,
        ev,
        marked: false,
        retx: false,
    }
}

fn a_nack(ev: u32) -> Nack {
    Nack {
        psn: 5,
        ev,
        reason: 2,
        marked: false,
        retx: false,
    }
}

fn a_loss(ev: u32) -> Loss {
    Loss { psn: 5, ev }
}

impl Lent<'_> {
    // What a call answers: of an event, of the given flow at the clock.
    pub(crate) fn answer(self, call: Call, e: Given) -> Got {
        let Lent {
            flows,
            outstanding: out,
            marked,
            sizes,
            sent,
            evs,
        } = self;
        let Given { flow: k, ev, .. } = e;
        let c = make::empty(e);
        let at = c.clock;
        match call {
            Call::SetUp(s) => { unnamed(start::set_up(s, flows, out, marked, sizes, sent, evs)) }
            Call::NewData => {
                unnamed(entry::new_data(c, flows, out, marked, sizes, sent, evs, at, k, 1))
            }
            Call::Send => {
                unnamed(entry::send(c, flows, out, marked, sizes, sent, evs, at, k, a_send()))
            }
            Call::Ack => {
                unnamed(entry::ack(c, flows, out, marked, sizes, sent, evs, at, k, an_ack(ev)))
            }
            Call::Nack => {
                unnamed(entry::nack(c, flows, out, marked, sizes, sent, evs, at, k, a_nack(ev)))
            }
            Call::Loss => {
                unnamed(entry::loss(c, flows, out, marked, sizes, sent, evs, at, k, a_loss(ev)))
            }
            Call::Path => unnamed(entry::path(c, flows, out, marked, sizes, sent, evs, at, k)),
            Call::Choose => choice::choose(c, flows, out, marked, sizes, sent, evs),
        }
    }
}

// Whether every element of a slice is one number.
fn all<T: PartialEq>(xs: &[T], fill: &T) -> bool {
    xs.iter().all(|x| x == fill)
}

impl Shown<'_> {
    // The two looks, at low.
    pub(crate) fn looks(self, e: Given) -> Looks {
        let Shown {
            flows,
            outstanding,
            marked,
            sizes,
            sent,
            evs,
        } = self;
        let c = make::empty(e);
        let k = e.flow;
        let low = make::LOW;
        Looks {
            status: look::status(c, flows, outstanding, marked, sizes, sent, evs, k, low),
            next_marked: look::next_marked(c, flows, outstanding, marked, sizes, sent, evs, k, low),
        }
    }

    // Whether state and memory are what a call must leave, accepted or refused: memory held one number before, and an accepted setting up
    // clears it.
    pub(crate) fn is_left(self, call: Call, e: Given, fill: u32, got: Got) -> bool {
        let accepted = got.outcome.is_ok();
        let fill = if accepted { 0 } else { fill };
        let wide = fill as u64;
        (got.state == wanted(call, e, accepted))
            & table_after(call, e, fill, accepted).starts_with(self.flows)
            & all(self.outstanding, &wide)
            & all(self.marked, &wide)
            & all(self.sizes, &fill)
            & all(self.sent, &wide)
            & all(self.evs, &wide)
    }
}

// The table that is lent to a call: to setting up, memory that held one number.
pub(crate) fn table_before(call: Call, e: Given, fill: u32) -> [u64; TABLE] {
    let Call::SetUp(_) = call else {
        return make::empty_table(e);
    };
    [fill as u64; TABLE]
}

// The table that a call must leave: where an event is accepted any will do.
pub(crate) fn table_after(call: Call, e: Given, fill: u32, accepted: bool) -> [u64; TABLE] {
    let Call::SetUp(settings) = call else {
        return make::empty_table(e);
    };
    if accepted {
        return make::fresh_table(settings);
    }
    [fill as u64; TABLE]
}

// The state that a call must answer: where an event is accepted any will do.
pub(crate) fn wanted(call: Call, e: Given, accepted: bool) -> Controller {
    let Call::SetUp(settings) = call else {
        return make::empty(e);
    };
    if accepted {
        return make::fresh(settings);
    }
    make::no_state()
}
