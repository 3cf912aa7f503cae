// The run report of request M-105 as text, put into a lent buffer: a line for each figure.
#![tactic(auto)]

pub mod places;

ghost use Rattle.std.specs.Prelude.{◌≡◌, ◌+◌, ◌*◌, ◌≤◌, length};
ghost use Rattle.text.specs.Counts.{IsPrefixLen};
ghost use Rattle.text.specs.Decimal.{Put};
ghost use Rattle.report_text.specs.Places.{figure_count};
ghost use Rattle.report_text.specs.Sheet.{figure_line, count_line, count_lines, answer_lines, kind_lines, sample_lines, byte_lines};
ghost use Rattle.report_text.specs.Sheet.{sheet_text};
ghost use Rattle.report_text.specs.Sheet.{label_most, line_most, answers_most, kinds_most, samples_most, bytes_most, sheet_most, sheeted};

use crate::places::{
    AGAIN_AT, AMBIGUOUS_AT, BUCKETS, BUCKETS_AT, CUT_AT, FIGURES, GONE_AT, GREATEST_AT, LEAST_AT,
    NEW_AT, NOT_POSITIVE_AT, TAKEN_AT,
};
use text::{put, put_column};

// The numbers of refusals go from 1 to 28.
const REFUSALS: usize = 28;

// No line is longer: the longest label, two numbers of at most 20 bytes, a space before each and the end of the line.
const LINE_MOST: usize = 55;

// No report is longer: a line for each figure.
pub const SHEET_MOST: usize = FIGURES * LINE_MOST;

// A label and a figure.
fn put_figure(out: &mut [u8], at: usize, label: &[u8], n: u64) -> usize
    requires { (length label.now ≤ label_most) × (at + line_most ≤ length out.old) }
    ensures { Put out.old at (figure_line label.now n) out.new result × (result ≤ at + line_most) }
{
    let p = put(out, at, label);
    let p = put_column(out, p, n);
    put(out, p, b"\n")
}

// A label, a number and how many there are of it, where there are some.
fn put_count(out: &mut [u8], at: usize, label: &[u8], number: u64, n: u64) -> usize
    requires { (length label.now ≤ label_most) × (at + line_most ≤ length out.old) }
    ensures { Put out.old at (count_line label.now number n) out.new result × (result ≤ at + line_most) }
{
    if n == 0 {
        return at;
    }
    let p = put(out, at, label);
    let p = put_column(out, p, number);
    let p = put_column(out, p, n);
    put(out, p, b"\n")
}

// So many counts, which stand in the figures from a place on, and whose numbers go up from one.
fn put_counts(
    out: &mut [u8],
    at: usize,
    label: &[u8],
    number: usize,
    place: usize,
    figures: &[u64],
    count: usize,
) -> usize
    requires { (length label.now ≤ label_most)
        × (at + count * line_most ≤ length out.old)
        × (number ≤ place)
        × (place + count ≤ length figures.now) }
    ensures { Put out.old at (count_lines label.now number place figures.now count) out.new
        result
        × (result ≤ at + count * line_most) }
{
    let mut p = at;
    for k in 0..count {
        p = put_count(out, p, label, (number + k) as u64, figures[place + k]);
    }
    p
}

// The records accepted, and those refused by number.
fn put_answers(out: &mut [u8], at: usize, figures: &[u64]) -> usize
    requires { (length figures.now ≡ figure_count) × (at + answers_most ≤ length out.old) }
    ensures { Put out.old at (answer_lines figures.now) out.new result × (result ≤ at + answers_most) }
{
    let p = put_figure(out, at, b"accepted", figures[0]);
    put_counts(out, p, b"refused", 1, 1, figures, REFUSALS)
}

// The samples by their kinds.
fn put_kinds(out: &mut [u8], at: usize, figures: &[u64]) -> usize
    requires { (length figures.now ≡ figure_count) × (at + kinds_most ≤ length out.old) }
    ensures { Put out.old at (kind_lines figures.now) out.new result × (result ≤ at + kinds_most) }
{
    let p = put_figure(out, at, b"taken", figures[TAKEN_AT]);
    let p = put_figure(out, p, b"cut", figures[CUT_AT]);
    let p = put_figure(out, p, b"gone", figures[GONE_AT]);
    let p = put_figure(out, p, b"ambiguous", figures[AMBIGUOUS_AT]);
    put_figure(out, p, b"not-positive", figures[NOT_POSITIVE_AT])
}

// The least and the greatest sample, and the buckets.
fn put_samples(out: &mut [u8], at: usize, figures: &[u64]) -> usize
    requires { (length figures.now ≡ figure_count) × (at + samples_most ≤ length out.old) }
    ensures { Put out.old at (sample_lines figures.now) out.new result × (result ≤ at + samples_most) }
{
    let p = put_figure(out, at, b"least", figures[LEAST_AT]);
    let p = put_figure(out, p, b"greatest", figures[GREATEST_AT]);
    put_counts(out, p, b"bucket", 0, BUCKETS_AT, figures, BUCKETS)
}

// The bytes sent new and sent again.
fn put_bytes(out: &mut [u8], at: usize, figures: &[u64]) -> usize
    requires { (length figures.now ≡ figure_count) × (at + bytes_most ≤ length out.old) }
    ensures { Put out.old at (byte_lines figures.now) out.new result × (result ≤ at + bytes_most) }
{
    let p = put_figure(out, at, b"new", figures[NEW_AT]);
    put_figure(out, p, b"again", figures[AGAIN_AT])
}

// The report where there are as many figures and as much room: an inner step.
fn put_sheet(out: &mut [u8], figures: &[u64]) -> usize
    requires { (length figures.now ≡ figure_count) × (sheet_most ≤ length out.old) }
    ensures { Put out.old 0 (sheet_text figures.now) out.new result × (result ≤ sheet_most) }
{
    let p = put_answers(out, 0, figures);
    let p = put_kinds(out, p, figures);
    let p = put_samples(out, p, figures);
    put_bytes(out, p, figures)
}

// Puts the report at the buffer's front, and answers its bytes; 0, and nothing is put, where the figures are not 70 or the buffer
// has no room for a longest report.
pub fn sheet(figures: &[u64], out: &mut [u8]) -> usize
    ensures out_after { (result, out.new) ≡ sheeted figures.now out.old }
    ensures prefix_len { IsPrefixLen result out.new }
{
    if figures.len() != FIGURES {
        return 0;
    }
    if out.len() < SHEET_MOST {
        return 0;
    }
    put_sheet(out, figures)
}
