// The lines of a case: setting up, every event, the looks, a choice.
use crate::calls::Call;
use crate::make::{EVS, Given, USUAL};
use crate::room::Lengths;
use crate::{make, room, say};
use rules::verdict::number_of;
use std::io;
use window::Settings;

// What memory holds before it is set up; the rings of the other calls are empty, zeros.
const OLD: u32 = 7;

// The last flow of a table of so many words, and 0 where it has none.
fn last_flow(words: usize) -> usize {
    (words / flow_table::FLOW_WORDS).saturating_sub(1)
}

// Memory that held sevens is cleared, or where setting up is refused left alone.
pub(crate) fn set_up(
    out: &impl Print,
    label: &str,
    settings: Settings,
    k: Lengths,
) -> io::Result<()> {
    let v = room::lend(Call::SetUp(settings), USUAL, OLD, k);
    let number = number_of(v.outcome);
    let what = match (v.outcome, v.as_wanted) {
        (Ok(_), true) => "fresh",
        (Err(_), true) => "same",
        (_, false) => "CHANGED",
    };
    println!(out; "{label}: {number} {what}")
}

// Every event, to the end of the line.
pub(crate) fn events(out: &impl Print, label: &str, e: Given, k: Lengths) -> io::Result<()> {
    print!(out; "{label}:")?;
    for call in Call::EVENTS {
        let v = room::lend(call, e, 0, k);
        print!(out; " {v}")?;
    }
    println!(out; "")
}

// The two looks: the number that each answers, and what it finds.
pub(crate) fn looks(out: &impl Print, label: &str, e: Given, k: Lengths) -> io::Result<()> {
    let v = room::look(e, k);
    print!(out; "{label}:")?;
    say::look(out, v.status)?;
    say::look(out, v.next_marked)?;
    println!(out; "")
}

// A choice: the number that it answers, and whom it names. The flow that has the backlog is ready, and no other.
pub(crate) fn choice(out: &impl Print, label: &str, e: Given, k: Lengths) -> io::Result<()> {
    let v = room::lend(Call::Choose, e, 0, k);
    print!(out; "{label}: {v}")?;
    if let Ok(Some(turn)) = v.outcome {
        say::named(out, turn)?;
    }
    println!(out; "")
}

// Setting up with a number of EVs, every event and the looks of the last flow, which has the backlog, and a choice: four lines.
pub(crate) fn counted(out: &impl Print, label: &str, count: u64, k: Lengths) -> io::Result<()> {
    let flow = last_flow(k.flows);
    let last = Given {
        count,
        flow,
        owner: flow,
        ..USUAL
    };
    print!(out; "2 set up ")?;
    set_up(out, label, make::settings(4096, count), k)?;
    print!(out; "2 lengths ")?;
    events(out, label, last, k)?;
    print!(out; "2 looks ")?;
    looks(out, label, last, k)?;
    print!(out; "2 choice ")?;
    choice(out, label, last, k)
}

// With the words of the table, of outstanding and of marked bits, sizes and send times, of each its own number.
pub(crate) fn uneven(out: &impl Print, label: &str, lengths: [usize; 5]) -> io::Result<()> {
    let [flows, outstanding, marked, sizes, sent] = lengths;
    let k = Lengths {
        flows,
        outstanding,
        marked,
        sizes,
        sent,
        evs: 256,
    };
    counted(out, label, EVS, k)
}
