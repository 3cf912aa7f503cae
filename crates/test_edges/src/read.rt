// Words and numbers in the text of the cases.
ghost use Rattle.std.specs.Prelude.{◌≤◌, length, IfOk};

use std::io;
use std::io::Read;

// Reads until buf is full or the input ends, and answers how many bytes it put at buf's front. The loop stands written out since
// std fills a buffer whole or not at all (`read_exact`), or one on the heap, and memory is fixed here.
pub(crate) fn full<R: Read>(input: &mut R, buf: &mut [u8]) -> io::Result<usize>
    ensures { IfOk result (λ n. n ≤ length buf.new) }
{
    let mut done = 0;
    while done < buf.len() {
        let got = input.read(&mut buf[done..])?;
        if got == 0 {
            break;
        }
        done += got;
    }
    Ok(done)
}

// A byte that ends a word or a number.
pub(crate) fn is_stop(b: u8) -> bool {
    matches!(b, b' ' | b'(' | b')')
}

// A piece of a line without the byte that ends it, and that byte; where the line ends, the end of a line.
pub(crate) fn part_of(piece: &[u8]) -> (&[u8], u8) {
    match piece.split_last() {
        Some((last, part)) if is_stop(*last) => (part, *last),
        _ => (piece, b'\n'),
    }
}

// A number begins with a digit or with a minus.
pub(crate) fn is_number(part: &[u8]) -> bool {
    matches!(part, [b'0'..=b'9' | b'-', ..])
}

// A number without its sign.
#[derive(Clone, Copy)]
enum Term {
    Number(u64),
    // Two to the power of a number.
    Power(u64),
}

impl Term {
    // 2^64 wraps to 0.
    fn value(self) -> u64 {
        match self {
            Term::Number(n) => n,
            Term::Power(n) if n < 64 => 1 << n,
            Term::Power(_) => 0,
        }
    }

    fn with_digit(self, digit: u8) -> Term {
        let append = |n: u64| n.wrapping_mul(10).wrapping_add(u64::from(digit));
        match self {
            Term::Number(n) => Term::Number(append(n)),
            Term::Power(n) => Term::Power(append(n)),
        }
    }

    // Only of 2 powers are written.
    fn raised(self) -> Option<Term> {
        match self {
            Term::Number(2) | Term::Power(2) => Some(Term::Power(0)),
            _ => None,
        }
    }
}

// A number as far as it is read: what stands before the last sign, that sign, and what follows it.
#[derive(Clone, Copy)]
struct Sum {
    total: u64,
    minus: bool,
    term: Term,
}

impl Sum {
    fn value(self) -> u64 {
        let term = self.term.value();
        if self.minus {
            return self.total.wrapping_sub(term);
        }
        self.total.wrapping_add(term)
    }

    fn with_term(self, term: Term) -> Sum {
        Sum { term, ..self }
    }

    fn with_sign(self, minus: bool) -> Sum {
        Sum {
            total: self.value(),
            minus,
            term: Term::Number(0),
        }
    }

    // With a byte more, where cases write numbers so.
    fn next(self, b: u8) -> Option<Sum> {
        match b {
            b'0'..=b'9' => Some(self.with_term(self.term.with_digit(b - b'0'))),
            b'^' => Some(self.with_term(self.term.raised()?)),
            b'-' | b'+' => Some(self.with_sign(b == b'-')),
            _ => None,
        }
    }
}

// A number as the cases write it: decimals and powers of two with signs between, as `2^48-1` and `-2^24`. It wraps at 64 bits. None where
// it is written otherwise.
pub(crate) fn number(part: &[u8]) -> Option<u64> {
    let mut sum = Sum {
        total: 0,
        minus: false,
        term: Term::Number(0),
    };
    for b in part {
        sum = sum.next(*b)?;
    }
    Some(sum.value())
}
