// The words of the command line: what is asked for, and of which log.
use replay_stream::Task;
use std::env::{Env, FillError};

// No word that is looked at is longer.
pub(crate) const WORD_MOST: usize = 4096;

// What a word says.
#[derive(Clone, Copy)]
enum Word {
    Progress,
    Report,
    Status,
    Help,
    Version,
    // What comes behind it is no option.
    End,
    // The name of a log, or `-`.
    Log,
    // It begins with `-` and is no option: such a word is not taken for a log.
    Unknown,
}

// What the words say of the log. A word is told by its index.
#[derive(Clone, Copy, Default)]
pub(crate) enum Log {
    // No word names one: standard input gives it.
    #[default]
    Unnamed,
    Named(usize),
    // More words than one name a log.
    Several,
}

// What the words say.
#[derive(Clone, Copy, Default)]
pub(crate) struct Options {
    // Progress is told, a report made in place of lines, and how it ended written to descriptor 3.
    pub progress: bool,
    pub report: bool,
    pub status: bool,
    pub help: bool,
    pub version: bool,
    // The options have ended.
    pub ended: bool,
    pub log: Log,
    // The last word that is no option and no log.
    pub unknown: Option<usize>,
}

// What a word of two bytes or more that begins with `-` says.
fn option_of(word: &[u8]) -> Word {
    match word {
        b"-p" | b"--progress" => Word::Progress,
        b"-r" | b"--report" => Word::Report,
        b"-h" | b"--help" => Word::Help,
        b"--version" => Word::Version,
        b"--status" => Word::Status,
        b"--" => Word::End,
        _ => Word::Unknown,
    }
}

// What a word says, where the options have ended or not.
fn word_of(word: &[u8], ended: bool) -> Word {
    match word {
        [b'-', _, ..] if !ended => option_of(word),
        _ => Word::Log,
    }
}

impl Options {
    // Takes in a word more, which stands at an index.
    fn hear(&mut self, word: Word, index: usize) {
        match word {
            Word::Progress => self.progress = true,
            Word::Report => self.report = true,
            Word::Status => self.status = true,
            Word::Help => self.help = true,
            Word::Version => self.version = true,
            Word::End => self.ended = true,
            Word::Log => self.log = self.log.and(index),
            Word::Unknown => self.unknown = Some(index),
        }
    }

    // What is made of a log.
    pub(crate) fn task(&self) -> Task {
        let progress = self.progress;
        if self.report {
            return Task::Report { progress };
        }
        Task::Lines { progress }
    }
}

impl Log {
    // With one word more that names a log.
    fn and(self, index: usize) -> Log {
        match self {
            Log::Unnamed => Log::Named(index),
            _ => Log::Several,
        }
    }
}

// What the word at an index says, if there is one. A word that is too long is no option.
fn word_at(rt: &impl Env, index: usize, ended: bool) -> Option<Word> {
    let mut word = [0u8; WORD_MOST];
    match rt.arg(index, &mut word) {
        Ok(length) => Some(word_of(&word[..length], ended)),
        Err(FillError::TooLong) => Some(Word::Log),
        Err(FillError::NotPresent) => None,
    }
}

// What the words of the command line say. They are asked for by their index since an iterator over them (`env::args`) takes the heap.
pub(crate) fn read(rt: &impl Env) -> Options {
    let mut options = Options::default();
    for index in 1..usize::MAX {
        let Some(word) = word_at(rt, index, options.ended) else {
            break;
        };
        options.hear(word, index);
    }
    options
}
