// A word of a case with the numbers that follow it.
use crate::words::Word;

// The most numbers that a word takes.
const MOST: usize = 8;

pub type Numbers = [u64; MOST];

// A number that is left out is 0. The count stands beside the room since memory is fixed here: a Vec would take the heap.
#[derive(Clone, Copy)]
pub struct Phrase {
    pub word: Word,
    pub numbers: Numbers,
    count: usize,
}

impl Phrase {
    pub(crate) fn new(word: Word) -> Phrase {
        Phrase {
            word,
            numbers: [0; MOST],
            count: 0,
        }
    }

    // With a number more; one that can't be read, or is too many, leaves no word.
    pub(crate) fn with_number(mut self, number: Option<u64>) -> Phrase {
        match number {
            Some(n) if self.count < MOST => {
                self.numbers[self.count] = n;
                self.count += 1;
                self
            }
            _ => Phrase::new(Word::Unknown),
        }
    }
}
