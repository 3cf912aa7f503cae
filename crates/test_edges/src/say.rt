// What the program writes.
use crate::worlds::World;
use context::choice::Turn;
use rules::verdict::{Refusal, number_of};
use std::io;

// The words of a record, as they are written.
const RECORD: [usize; 4] = [
    flow_table::LOW,
    flow_table::NEXT,
    flow_table::HELD,
    flow_table::BACKLOG,
];

// A space and a number.
fn also(out: &impl Print, n: u64) -> io::Result<()> {
    print!(out; " {n}")
}

// The name of a state.
pub(crate) fn name_of(phase: u32) -> &'static str {
    match phase {
        sender::IDLE => "IDLE",
        sender::PENDING => "PENDING",
        sender::READY => "READY",
        _ => "ACTIVE",
    }
}

// Whether two worlds are the same.
pub(crate) fn comparison(out: &impl Print, before: &World, after: &World) -> io::Result<()> {
    let what = if before.is_as(after) {
        "same"
    } else {
        "CHANGED"
    };
    print!(out; " {what}")
}

// Low, next, the held count and the backlog of the flow that the case is at.
pub(crate) fn record(out: &impl Print, w: &World) -> io::Result<()> {
    for word in RECORD {
        also(out, w.word_at(word))?;
    }
    Ok(())
}

// The number that a look answered, and what it found: a refusal finds 0.
pub(crate) fn look(out: &impl Print, found: Result<u32, Refusal>) -> io::Result<()> {
    also(out, number_of(found) as u64)?;
    also(out, found.unwrap_or_default() as u64)
}

// The number that a call answered; where it is a refusal, whether state and lent memory are as they were.
pub(crate) fn answer(out: &impl Print, before: &World, after: &World) -> io::Result<()> {
    let number = after.number();
    print!(out; " {number}")?;
    if after.outcome.is_ok() {
        return Ok(());
    }
    comparison(out, before, after)
}

// The flow that a choice names, and its packet: a new one, or a marked one again.
fn named(out: &impl Print, t: Turn) -> io::Result<()> {
    let Turn { flow, psn, resend } = t;
    let packet = if resend { "again" } else { "new" };
    print!(out; " flow {flow} {packet} {psn}")
}

// What a choice answered, and whom it names: a refusal names nobody, and says no more.
pub(crate) fn choice(out: &impl Print, before: &World, after: &World) -> io::Result<()> {
    answer(out, before, after)?;
    match after.outcome {
        Ok(Some(turn)) => named(out, turn),
        Ok(None) => print!(out; " nobody"),
        Err(_) => Ok(()),
    }
}
