// Replays an event log: `nscc LOG`, or `nscc` with the log on standard input; `nscc --help` says what else there is. Messages go to
// standard error and begin with the program's name. It ends with how that went as its exit status, and with `--status` writes that to
// descriptor 3 too.
#![tactic(auto)]

mod options;

use crate::options::{Log, Options, WORD_MOST};
use replay_stream::{Task, Trouble};
use std::env::Env;
use std::fs::OpenOptions;
use std::io::{Cursor, ErrorKind, Read, Write};
use std::process::ExitCode;
use std::rt::Files;
use std::{fs, io};

// Why not all is written, by the exit status that says so.
#[derive(Clone, Copy)]
enum Failure {
    // A log could not be read, or what is made of it not written, to the end.
    Failed = 1,
    // A wrong usage.
    Misused = 2,
}

// The exit status of a run that has written all.
const DONE: u8 = 0;

// What a usage is: the first line of the help, and what a wrong usage is told.
const USAGE: &[u8] = b"usage: nscc [-p] [-r] [--] [LOG]\n";

const HELP: [&[u8]; 7] = [
    USAGE,
    b"Replays an event log, of standard input where LOG is - or is not there, and writes a line for each record.\n",
    b"  -p, --progress  tells on standard error how many records are done\n",
    b"  -r, --report    writes a report of the run in place of its lines\n",
    b"  -h, --help      writes this\n",
    b"      --version   writes the version\n",
    b"      --          what follows is no option\n",
];

// Where `--status` has it written: descriptor 3, whose permissions are those that it was opened with.
const STATUS_NAME: &str = "/dev/fd/3";

// Room for the longest reason.
const REASON_MOST: usize = 320;

// The system's number of a name that is too long.
const NAME_TOO_LONG: i32 = 36;

// Writes to standard error, whose own failures nobody could be told. A message is written in pieces of bytes, with no format: a log's name
// need not be text.
fn say(messages: &impl Print, text: &[u8]) {
    let _ = messages.write_all(text);
}

// Begins a message.
fn name_itself(messages: &impl Print) {
    say(messages, b"nscc: ");
}

// The end of a message: why something failed, in the system's words, without the number that stands behind them.
fn say_why(messages: &impl Print, why: io::Error) {
    let mut room = [0u8; REASON_MOST];
    let mut text = Cursor::new(&mut room[..]);
    let _ = write!(text, "{why}");
    let length = (text.position() as usize).min(REASON_MOST);
    if let Ok(reason) = std::str::from_utf8(&room[..length]) {
        let words = reason.split_once(" (os error ");
        let _ = messages.println(words.map_or(reason, |(words, _)| words));
    }
}

// A message: what failed, and why.
fn tell_failed(messages: &impl Print, what: &[u8], why: io::Error) -> Failure {
    name_itself(messages);
    say(messages, what);
    say(messages, b": ");
    say_why(messages, why);
    Failure::Failed
}

// Says what a usage is.
fn tell_usage(messages: &impl Print) -> Failure {
    name_itself(messages);
    say(messages, USAGE);
    Failure::Misused
}

// Says that a log is too long.
fn tell_long(messages: &impl Print, name: &[u8]) -> Failure {
    name_itself(messages);
    say(messages, name);
    say(messages, b": reaches 2^48 bytes\n");
    Failure::Failed
}

// Says why a text was not written.
fn tell_unwritten(messages: &impl Print, why: io::Error) -> Failure {
    tell_failed(messages, b"standard output", why)
}

// Says why a log was not replayed to its end.
fn tell_trouble(messages: &impl Print, trouble: Trouble, name: &[u8]) -> Failure {
    match trouble {
        Trouble::Long => tell_long(messages, name),
        Trouble::Failed(why) => tell_failed(messages, name, why),
        Trouble::Unwritten(why) => tell_unwritten(messages, why),
    }
}

// Writes each line, whether those before are written or not, and answers whether all are: if not, why the last that is not was not.
fn write_help(rt: &impl Print) -> io::Result<()> {
    let mut done = Ok(());
    for line in HELP {
        done = rt.write_all(line).and(done);
    }
    done
}

// Replays the log that a reader gives, here and below with the handles that it takes and no others: a struct of the two would ask each
// function for the bounds of all. It says why it did not come to its end where it did not.
fn replay_log<L: Read, R: Print + Eprint>(
    rt: &R,
    messages: &impl Print,
    log: &mut L,
    name: &[u8],
    task: Task,
) -> Result<(), Failure> {
    let replayed = replay_stream::replay_from(rt, log, task);
    replayed
        .ended
        .map_err(|trouble| tell_trouble(messages, trouble, name))
}

// Replays the log that standard input gives.
fn replay_input<R: Print + Eprint + Input>(
    rt: &R,
    messages: &impl Print,
    task: Task,
) -> Result<(), Failure> {
    replay_log(rt, messages, &mut rt.reader(), b"standard input", task)
}

// Opens the file that a word names. A name is text.
fn open<R: Files>(rt: &R, word: &[u8]) -> io::Result<R::File> {
    let name = std::str::from_utf8(word).map_err(|_| io::Error::new(
        ErrorKind::InvalidInput,
        "its name is not UTF-8",
    ))?;
    fs::open(rt, name)
}

// Opens the log that a word names, and replays it.
fn open_and_replay<R: Print + Eprint + Files>(
    rt: &R,
    messages: &impl Print,
    word: &[u8],
    task: Task,
) -> Result<(), Failure> {
    match open(rt, word) {
        Ok(mut log) => replay_log(rt, messages, &mut log, word, task),
        Err(why) => Err(tell_failed(messages, word, why)),
    }
}

// Replays the log of the word at an index; `-` is standard input.
fn replay_named<R: Print + Eprint + Input + Files + Env>(
    rt: &R,
    messages: &impl Print,
    index: usize,
    task: Task,
) -> Result<(), Failure> {
    let mut word = [0u8; WORD_MOST];
    let Ok(length) = rt.arg(index, &mut word) else {
        let why = io::Error::from_raw_os_error(NAME_TOO_LONG);
        return Err(tell_failed(messages, b"LOG", why));
    };
    match &word[..length] {
        b"-" => replay_input(rt, messages, task),
        name => open_and_replay(rt, messages, name, task),
    }
}

// Says which word is no option.
fn tell_unknown(rt: &impl Env, messages: &impl Print, index: usize) -> Failure {
    let mut word = [0u8; WORD_MOST];
    name_itself(messages);
    if let Ok(length) = rt.arg(index, &mut word) {
        say(messages, &word[..length]);
    }
    say(messages, b": no such option\n");
    tell_usage(messages)
}

// Does what is asked for, and answers how that ended.
fn perform<R: Print + Eprint + Input + Files + Env>(
    rt: &R,
    messages: &impl Print,
    o: Options,
) -> Result<(), Failure> {
    if let Some(index) = o.unknown {
        return Err(tell_unknown(rt, messages, index));
    }
    if o.help {
        return write_help(rt).map_err(|why| tell_unwritten(messages, why));
    }
    if o.version {
        return rt
            .write_all(b"nscc 1.0.0\n")
            .map_err(|why| tell_unwritten(messages, why));
    }
    match o.log {
        Log::Unnamed => replay_input(rt, messages, o.task()),
        Log::Named(index) => replay_named(rt, messages, index, o.task()),
        Log::Several => Err(tell_usage(messages)),
    }
}

// Writes a status to descriptor 3, behind what is there, as a digit, where that is open for writing.
fn put_status(rt: &impl Files, status: u8) -> io::Result<()> {
    let there = fs::symlink_metadata(rt, STATUS_NAME)?;
    if there.permissions().readonly() {
        return Ok(());
    }
    let mut file = OpenOptions::new().append(true).open(rt, STATUS_NAME)?;
    write!(file, "{status}")
}

fn main(rt: HostRuntime) -> ExitCode {
    let o = options::read(&rt);
    let status = match perform(&rt, &rt.stderr(), o) {
        Ok(()) => DONE,
        Err(failure) => failure as u8,
    };
    if o.status {
        // Where it can't be written nobody could be told.
        let _ = put_status(&rt, status);
    }
    ExitCode::from(status)
}
