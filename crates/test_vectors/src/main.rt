// Replays the bundled logs, which its arguments name, one after another, and writes each back from its records (request M-110).
#![tactic(auto)]

ghost use Rattle.std.specs.Prelude.{◌≤◌, length, IfOk};

use log_records::back::write_back;
use replay_stream::{Task, Trouble};
use std::env::{Env, FillError};
use std::io::{ErrorKind, Read};
use std::rt::Files;
use std::{fs, io};

// No log's name is longer.
const NAME_MOST: usize = 4096;

// Room for a log that is written back.
const LOG_MOST: usize = 64 << 10;

// What stands behind the lines of a log that was not replayed to its end.
fn complain(rt: &impl Print, trouble: Trouble) -> io::Result<()> {
    match trouble {
        Trouble::Long => println!(rt; "reaches 2^48 bytes"),
        Trouble::Failed(_) => println!(rt; "not read"),
        Trouble::Unwritten(why) => Err(why),
    }
}

// Reads until buf is full or the input ends, and answers how many bytes it put at buf's front. The loop stands written out since
// std fills a buffer whole or not at all (`read_exact`), or one on the heap, and memory is fixed here.
fn read_full<L: Read>(log: &mut L, buf: &mut [u8]) -> io::Result<usize>
    ensures { IfOk result (λ n. n ≤ length buf.new) }
{
    let mut done = 0;
    while done < buf.len() {
        let got = log.read(&mut buf[done..])?;
        if got == 0 {
            break;
        }
        done += got;
    }
    Ok(done)
}

// Opens the log of this name. A name is text.
fn open<R: Files>(rt: &R, name: &[u8]) -> io::Result<R::File> {
    let path = std::str::from_utf8(name).map_err(|_| io::Error::from(ErrorKind::InvalidInput))?;
    fs::open(rt, path)
}

// Reads the log of this name into buf, and answers how many bytes that are; none where there is no such log.
fn read_log<R: Files>(rt: &R, name: &[u8], buf: &mut [u8]) -> io::Result<usize>
    ensures { IfOk result (λ n. n ≤ length buf.new) }
{
    let Ok(mut log) = open(rt, name) else {
        return Ok(0);
    };
    read_full(&mut log, buf)
}

// Reads a log's file again, and writes it back from the records that it is read as.
fn back_one<R: Print + Files>(rt: &R, name: &[u8]) -> io::Result<()> {
    let mut log = [0u8; LOG_MOST];
    let mut room = [0u8; LOG_MOST];
    let length = read_log(rt, name, &mut log)?;
    if length == log.len() {
        return println!(rt; "not written back: longer than its room");
    }
    let count = write_back(&log[..length], &mut room).count;
    if log[..count] != room[..count] {
        return println!(rt; "written back with another byte");
    }
    println!(rt; "back {count} of {length}")
}

// Replays a log, writes its lines, and says where it did not come to its end.
fn replay_lines<L: Read, R: Print + Eprint>(rt: &R, log: &mut L) -> io::Result<()> {
    let replayed = replay_stream::replay_from(rt, log, Task::Lines { progress: false });
    replayed.ended.or_else(|trouble| complain(rt, trouble))
}

// One log: its name, what its replay writes, and how much of it is written back. One that can't be opened has the header only, and is not
// read.
fn replay_one<R: Print + Eprint + Files>(rt: &R, name: &[u8]) -> io::Result<()> {
    print!(rt; "log ")?;
    rt.write_all(name)?;
    println!(rt; "")?;
    match open(rt, name) {
        Ok(mut log) => replay_lines(rt, &mut log)?,
        Err(why) => {
            replay_lines(rt, &mut io::empty())?;
            complain(rt, Trouble::Failed(why))?;
        }
    }
    back_one(rt, name)
}

// The name that the argument at an index is, where there is one, in a lent room. No log has a name that is longer than its room.
fn name_at<'a>(rt: &impl Env, index: usize, room: &'a mut [u8; NAME_MOST]) -> Option<&'a [u8]> {
    match rt.arg(index, room) {
        Ok(length) => Some(&room[..length]),
        Err(FillError::TooLong) => Some(b""),
        Err(FillError::NotPresent) => None,
    }
}

// The names are asked for by their index since an iterator over them (`env::args`) takes the heap.
fn main(rt: HostRuntime) -> io::Result<()> {
    for index in 1..usize::MAX {
        let mut room = [0u8; NAME_MOST];
        let Some(name) = name_at(&rt, index, &mut room) else {
            break;
        };
        replay_one(&rt, name)?;
    }
    Ok(())
}
