// A flow's ledger as it is written: what a call answered, low, next, the totals of flying packets, marked packets and marked bytes; then
// its ring from low on, slot by slot, equal ones together with their number: f flying, m marked, d done, e empty, x what no slot may be.
use crate::slots::is_set;
use crate::worlds::{RING, World, at};
use ledger::{Flow, Totals};
use std::{fmt, io};

// What a slot holds.
#[derive(Clone, Copy, PartialEq, Eq)]
enum Kind {
    Flying,
    Marked,
    Done,
    Empty,
    // What no slot may be.
    Neither,
}

impl fmt::Display for Kind {
    fn fmt<W: fmt::Write>(&self, f: &mut fmt::Formatter<W>) -> fmt::Result {
        f.write_str(match self {
            Kind::Flying => "f",
            Kind::Marked => "m",
            Kind::Done => "d",
            Kind::Empty => "e",
            Kind::Neither => "x",
        })
    }
}

// A slot with neither bit is done where it has a number or a time, and else empty.
fn kind_of(w: &World, slot: usize) -> Kind {
    match (is_set(&w.outstanding, slot), is_set(&w.marked, slot)) {
        (true, true) => Kind::Marked,
        (true, false) => Kind::Flying,
        (false, true) => Kind::Neither,
        (false, false) if (at(&w.sizes, slot) == 0) & (at(&w.sent, slot) == 0) => Kind::Empty,
        (false, false) => Kind::Done,
    }
}

// The slot k after low: of several flows each has 64 slots, and one that the memory has not has none.
fn slot_after(w: &World, k: usize) -> usize {
    let low = w.record().low as usize;
    let start = (w.flow as usize).saturating_mul(RING);
    start.saturating_add(low.wrapping_add(k) % w.capacity())
}

// Slots of one kind.
#[derive(Clone, Copy)]
struct Run {
    kind: Kind,
    count: u64,
}

impl Run {
    fn write(self, out: &impl Print) -> io::Result<()> {
        let Run { kind, count } = self;
        print!(out; " {kind}{count}")
    }

    // The run with a slot more, or a new one where the slot is of another kind.
    fn next(self, out: &impl Print, kind: Kind) -> io::Result<Run> {
        if self.kind == kind {
            let count = self.count.wrapping_add(1);
            return Ok(Run { kind, count });
        }
        self.write(out)?;
        Ok(Run { kind, count: 1 })
    }
}

fn slots(out: &impl Print, w: &World) -> io::Result<()> {
    let mut run = Run {
        kind: kind_of(w, slot_after(w, 0)),
        count: 0,
    };
    for k in 0..w.capacity() {
        run = run.next(out, kind_of(w, slot_after(w, k)))?;
    }
    run.write(out)
}

pub(crate) fn write(out: &impl Print, w: &World) -> io::Result<()> {
    let Totals {
        flying,
        marked,
        marked_bytes,
        ..
    } = w.state.totals;
    let Flow { low, next, .. } = w.record();
    let number = w.number();
    print!(out; " {number} {low} {next} {flying} {marked} {marked_bytes}")?;
    slots(out, w)
}
