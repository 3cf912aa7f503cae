// The cases, a line each.
use crate::bench::Bench;
use crate::phrase::Phrase;
use crate::words::Word;
use crate::{read, report, words};
use std::io;

// The phrase that goes on after a part of the line: a number joins the word before it, and a word is acted on when the next one comes.
fn with_part(
    out: &impl Print,
    bench: &mut Bench,
    phrase: Phrase,
    part: &[u8],
) -> io::Result<Phrase> {
    if read::is_number(part) {
        return Ok(phrase.with_number(read::number(part)));
    }
    bench.act(out, phrase)?;
    Ok(Phrase::new(words::word_of(part)))
}

// One case: what stands before the parenthesis is its name, and no phrase.
fn case(out: &impl Print, line: &[u8]) -> io::Result<()> {
    let mut bench = Bench::start();
    let mut phrase = None;
    for piece in line.split_inclusive(|b| read::is_stop(*b)) {
        let (part, stop) = read::part_of(piece);
        if let Some(before) = phrase {
            phrase = Some(with_part(out, &mut bench, before, part)?);
        }
        if stop == b'(' {
            phrase = Some(Phrase::new(Word::Nothing));
        }
    }
    let last = phrase.unwrap_or(Phrase::new(Word::Nothing));
    bench.act(out, last)?;
    report::write(out, last.word, &bench)
}

pub(crate) fn run(out: &impl Print, s: &[u8]) -> io::Result<()> {
    for piece in s.split_inclusive(|b| *b == b'\n') {
        let line = piece.strip_suffix(b"\n").unwrap_or(piece);
        out.write_all(line)?;
        print!(out; ":")?;
        case(out, line)?;
        println!(out; "")?;
    }
    Ok(())
}
