// What the programs write: progress to standard error; header, lines and report to standard output, where each write's answer is looked at.
use crate::{Task, Trouble};
use replay::Place;
use report_text::SHEET_MOST;
use std::io;

// How many records are done, on standard error. Whether that is written is not looked at.
fn tell(rt: &impl Eprint, place: Place) {
    let _ = eprintln!(rt; "nscc: {} records", place.done);
}

// Behind each part of a report that brought bytes; those of lines are told as they are written.
pub(crate) fn tell_counted(
    rt: &impl Eprint,
    task: Task,
    over: Option<Result<(), Trouble>>,
    place: Place,
) {
    let Task::Report { progress } = task else {
        return;
    };
    if progress && over.is_none() {
        tell(rt, place);
    }
}

// Writes lines, unless a write before failed, and answers whether all are written.
pub(crate) fn put_lines<R: Print + Eprint>(
    rt: &R,
    written: io::Result<()>,
    text: &[u8],
    place: Place,
    progress: bool,
) -> io::Result<()> {
    written?;
    rt.write_all(text)?;
    if progress {
        tell(rt, place);
    }
    Ok(())
}

// The header of the lines.
fn write_header(rt: &impl Print) -> io::Result<()> {
    let mut out = [0u8; replay_lines::HEADER];
    let n = replay_lines::header(&mut out);
    rt.write_all(&out[..n])
}

// What is written before the log is read: lines have a header. Answers whether it is written.
pub(crate) fn write_first(rt: &impl Print, task: Task) -> io::Result<()> {
    match task {
        Task::Lines { .. } => write_header(rt),
        Task::Report { .. } => Ok(()),
    }
}

// The report.
fn write_sheet(rt: &impl Print, figures: &[u64]) -> io::Result<()> {
    let mut out = [0u8; SHEET_MOST];
    let n = report_text::sheet(figures, &mut out);
    rt.write_all(&out[..n])
}

// What is written behind it, where all before was written: a report.
pub(crate) fn write_last(
    rt: &impl Print,
    written: io::Result<()>,
    task: Task,
    figures: &[u64],
) -> io::Result<()> {
    let Task::Report { .. } = task else {
        return written;
    };
    written?;
    write_sheet(rt, figures)
}
