// The ledger's refusals, each event's in document 01's order: the first that applies, or accepted. Nothing is changed.
// Inner steps: the caller proves that the ledger holds together.
ghost use Rattle.std.specs.Prelude.{◌≡◌, ◌*◌, ◌^◌, ◌<◌, pos, ◌-ℤ◌};
ghost use Rattle.rules.specs.Rows.{first_of};
ghost use Rattle.rules.specs.Verdict.{number_of};
ghost use Rattle.ledger.specs.Lent.{memory_of};
ghost use Rattle.ledger.specs.Memory.{shown};
ghost use Rattle.ledger.specs.Bounds.{sinks, Flown};
ghost use Rattle.ledger.specs.Sound.{Lengths};
ghost use Rattle.ledger.specs.Steps.{newly_of};
ghost use Rattle.ledger.specs.Rows.{new_rows, resend_rows, ack_rows, mark_rows};

use crate::ring::Ring;
use crate::slots::{find, long};
use crate::{Books, Flow};
use rules::verdict::{Refusal, Verdict};

// Bytes that an ACK newly reports.
pub fn newly(count: u32, held: u64) -> u64
    ensures { (result ≡ newly_of count held) × (result < 2 ^ 31) }
{
    crate::UNIT * serial::forward(count, held)
}

// In-flight, lower by some bytes.
pub(crate) fn less(in_flight: i64, bytes: u64) -> i64
    requires flown { Flown (2 ^ 26) in_flight }
    requires bytes_bound { bytes < 2 ^ 32 }
    ensures { result ≡ in_flight -ℤ pos bytes }
{
    in_flight - bytes as i64
}

// Whether in-flight would fall below -2^24.
fn would_sink(in_flight: i64, bytes: u64) -> bool
    requires flown { Flown (2 ^ 26) in_flight }
    requires bytes_bound { bytes < 2 ^ 32 }
    ensures { result ≡ sinks in_flight bytes }
{
    less(in_flight, bytes) < crate::IN_FLIGHT_LEAST
}

// A new packet: 8, 5, 7.
pub fn judge_new(flow: Flow, cap: usize, psn: u32, size: u32) -> Verdict
    ensures { number_of result ≡ first_of (new_rows flow cap psn size) }
{
    if psn != flow.next {
        return Err(Refusal::WrongPsn);
    }
    if flow.backlog < size as u64 {
        return Err(Refusal::Backlog);
    }
    if long(flow) as usize == cap {
        return Err(Refusal::RingFull);
    }
    Ok(())
}

// A resend: 8.
pub fn judge_resend(flow: Flow, ring: Ring<'_>, psn: u32, bytes: u32) -> Verdict
    requires { Lengths (memory_of ring) }
    ensures { number_of result
        ≡ first_of (resend_rows flow (shown flow.low flow.next (memory_of ring.entry)) psn bytes) }
{
    let x = find(flow, ring, psn);
    if (x.status != crate::MARKED) | (bytes != x.size) {
        return Err(Refusal::WrongPsn);
    }
    Ok(())
}

// An ACK: 9, 11.
pub fn judge_ack(books: Books, cum: u32, map: u64, count: u32) -> Verdict
    requires { Flown (2 ^ 26) books.totals.in_flight }
    ensures { number_of result ≡ first_of (ack_rows books.flow books.totals.in_flight cum map count) }
{
    if serial::unsent_or_old(books.flow.next, cum, map) {
        return Err(Refusal::UnsentOrOld);
    }
    if would_sink(books.totals.in_flight, newly(count, books.flow.held)) {
        return Err(Refusal::Sinks);
    }
    Ok(())
}

// A NACK or a loss: 10, 11.
pub fn judge_mark(books: Books, ring: Ring<'_>, psn: u32) -> Verdict
    requires lengths { Lengths (memory_of ring) }
    requires flown { Flown (2 ^ 26) books.totals.in_flight }
    ensures { number_of result ≡ first_of (mark_rows books.flow books.totals.in_flight
        (shown books.flow.low books.flow.next (memory_of ring.entry)) psn) }
{
    let x = find(books.flow, ring, psn);
    if x.status != crate::FLYING {
        return Err(Refusal::NotFlying);
    }
    if would_sink(books.totals.in_flight, x.size as u64) {
        return Err(Refusal::Sinks);
    }
    Ok(())
}
