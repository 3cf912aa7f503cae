// Lends slices of every wrong length to every entry point of a context and writes what it is answered, one case a line.
#![tactic(auto)]

mod calls;
mod cases;
mod lines;
mod make;
mod room;
mod say;
mod tables;

use std::io;

fn main(rt: HostRuntime) -> io::Result<()> {
    cases::run(&rt)?;
    tables::run(&rt)
}
