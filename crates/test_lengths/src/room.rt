// Memory to lend parts of, and what became of it.
ghost use Rattle.std.specs.Prelude.{◌≤◌};

use crate::calls::{Call, Lent, Looks, Shown};
use crate::make::{Given, TABLE};
use crate::{calls, make};
use context::choice::Turn;
use rules::verdict::{Refusal, number_of};
use std::fmt;

// The room that words of bits and EV times are lent of.
const WORDS: usize = 8192;

// That of slots has ten times 4,096: eight of the largest rings, and more.
const SLOTS: usize = 40960;

// The lengths of what is lent: words of the table, of outstanding and of marked bits, sizes, send times, EV times.
#[derive(Clone, Copy)]
pub struct Lengths {
    pub flows: usize,
    pub outstanding: usize,
    pub marked: usize,
    pub sizes: usize,
    pub sent: usize,
    pub evs: usize,
}

impl Lengths {
    // Slots for all, as many as there are whole words of bits for.
    pub(crate) fn even(flows: usize, slots: usize, evs: usize) -> Lengths {
        let words = slots / 64;
        Lengths {
            flows,
            outstanding: words,
            marked: words,
            sizes: slots,
            sent: slots,
            evs,
        }
    }
}

// What a call answered, with whom it named, and whether state and lent memory are what it must leave.
#[derive(Clone, Copy)]
pub struct Verdict {
    pub outcome: Result<Option<Turn>, Refusal>,
    pub as_wanted: bool,
}

// The number, and of a refusal whether state and lent memory are as they were.
impl fmt::Display for Verdict {
    fn fmt<W: fmt::Write>(&self, f: &mut fmt::Formatter<W>) -> fmt::Result {
        let number = number_of(self.outcome);
        match (self.outcome, self.as_wanted) {
            (Ok(_), _) => write!(f, "{number}"),
            (Err(_), true) => write!(f, "{number} same"),
            (Err(_), false) => write!(f, "{number} CHANGED"),
        }
    }
}

// So many, of those that there is room for.
fn cut(n: usize, room: usize) -> usize
    ensures { result ≤ room }
{
    n.min(room)
}

// So much of a slice's front, of what there is.
fn front<T>(xs: &[T], n: usize) -> &[T] {
    &xs[..cut(n, xs.len())]
}

fn front_mut<T>(xs: &mut [T], n: usize) -> &mut [T] {
    let end = cut(n, xs.len());
    &mut xs[..end]
}

// The two looks on empty rings of these lengths.
pub(crate) fn look(e: Given, k: Lengths) -> Looks {
    let flows = make::empty_table(e);
    let outstanding = [0; WORDS];
    let marked = [0; WORDS];
    let sizes = [0; SLOTS];
    let sent = [0; SLOTS];
    let evs = [0; WORDS];
    let shown = Shown {
        flows: front(&flows, k.flows),
        outstanding: front(&outstanding, k.outstanding),
        marked: front(&marked, k.marked),
        sizes: front(&sizes, k.sizes),
        sent: front(&sent, k.sent),
        evs: front(&evs, k.evs),
    };
    shown.looks(e)
}

// A call on fresh memory of these lengths. Parts are lent of arrays that stand alone, here and above: a struct of them is made of copies,
// which took 2.6 times the instructions, and 4.4 times where a function made it.
pub(crate) fn lend(call: Call, e: Given, fill: u32, k: Lengths) -> Verdict {
    let wide = fill as u64;
    let mut flows = calls::table_before(call, e, fill);
    let mut outstanding = [wide; WORDS];
    let mut marked = [wide; WORDS];
    let mut sizes = [fill; SLOTS];
    let mut sent = [wide; SLOTS];
    let mut evs = [wide; WORDS];
    let lent = Lent {
        flows: front_mut(&mut flows, k.flows),
        outstanding: front_mut(&mut outstanding, k.outstanding),
        marked: front_mut(&mut marked, k.marked),
        sizes: front_mut(&mut sizes, k.sizes),
        sent: front_mut(&mut sent, k.sent),
        evs: front_mut(&mut evs, k.evs),
    };
    let got = lent.answer(call, e);
    let shown = Shown {
        flows: front(&flows, k.flows),
        outstanding: front(&outstanding, k.outstanding),
        marked: front(&marked, k.marked),
        sizes: front(&sizes, k.sizes),
        sent: front(&sent, k.sent),
        evs: front(&evs, k.evs),
    };
    Verdict {
        outcome: got.outcome,
        as_wanted: shown.is_left(call, e, fill, got),
    }
}
