// What a case writes when its call is made.
use crate::bench::Bench;
use crate::words::Word;
use crate::worlds::World;
use crate::{events, make, ring, say};
use ledger::Totals;
use std::io;

// A line of document 01's worked example: none of its records leaves in-flight below zero.
fn row(out: &impl Print, w: &World) -> io::Result<()> {
    let Totals {
        flying,
        marked,
        backlog,
        in_flight,
        ..
    } = w.state.totals;
    let bytes = u64::try_from(in_flight).unwrap_or(u64::MAX);
    let number = w.number();
    let cwnd = w.state.window.cwnd;
    let name = say::name_of(w.state.phase);
    print!(out; " {number} {bytes} {cwnd} {flying} {marked} {backlog} {name}")
}

// The number; then `fresh` or `same`, where the world is what setting up must leave.
fn set_up(out: &impl Print, before: &World, after: &World) -> io::Result<()> {
    let number = after.number();
    let (what, left) = match after.outcome {
        Ok(_) => ("fresh", make::fresh(before.state.settings, after.table)),
        Err(_) => ("same", make::unset(after.table)),
    };
    print!(out; " {number} {what}")?;
    if !left.is_as(after) {
        print!(out; " CHANGED")?;
    }
    Ok(())
}

// By the last word of a case.
pub(crate) fn write(out: &impl Print, word: Word, bench: &Bench) -> io::Result<()> {
    let after = &bench.world;
    match word {
        Word::Event(_) => say::answer(out, &bench.before, after),
        Word::SetUp => set_up(out, &bench.before, after),
        Word::Events => events::each(out, after, bench.time),
        Word::Row => row(out, after),
        Word::Ledger => ring::write(out, after),
        // These have written what they say.
        Word::Compare | Word::StatusOf | Word::NextMarked | Word::Record | Word::Choose => Ok(()),
        _ => print!(out; " unknown"),
    }
}
