// What the program writes.
use context::choice::Turn;
use rules::verdict::{Refusal, number_of};
use std::io;

// A space and a number.
fn also(out: &impl Print, n: u32) -> io::Result<()> {
    print!(out; " {n}")
}

// The number that a look answered, and what it found: a refusal finds 0.
pub(crate) fn look(out: &impl Print, found: Result<u32, Refusal>) -> io::Result<()> {
    also(out, number_of(found))?;
    also(out, found.unwrap_or_default())
}

// The flow that a choice names, and its packet: a new one, or a marked one again.
pub(crate) fn named(out: &impl Print, t: Turn) -> io::Result<()> {
    let Turn { flow, psn, resend } = t;
    let packet = if resend { "again" } else { "new" };
    print!(out; " flow {flow} {packet} {psn}")
}
