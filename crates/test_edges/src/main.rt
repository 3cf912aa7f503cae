// Makes the calls that its standard input asks for, at every edge of document 01, and writes what each is answered. A line is a case: its
// name, a refusal's number first, and in parentheses the call in words and numbers (`words`). Output is that line, a colon and the answer.
#![tactic(auto)]

mod bench;
mod calls;
mod cases;
mod events;
mod fields;
mod flows;
mod make;
mod phrase;
mod read;
mod report;
mod ring;
mod say;
mod slots;
mod words;
mod worlds;

use std::io;

// Room for the cases.
const CASES_MOST: usize = 64 << 10;

fn main(rt: HostRuntime) -> io::Result<()> {
    let mut buffer = [0u8; CASES_MOST];
    let n = read::full(&mut rt.reader(), &mut buffer)?;
    cases::run(&rt, &buffer[..n])
}
