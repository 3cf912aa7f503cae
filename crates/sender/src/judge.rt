// Which refusal past 2 an event meets first, in document 01's order, or accepted where it meets none. Nothing is changed.
// Inner steps: the caller proves that state and buffers hold together.
ghost use Rattle.std.specs.Prelude.{◌≡◌, ◌||◌, ltb, leb};
ghost use Rattle.rules.specs.Rows.{first_of};
ghost use Rattle.rules.specs.Verdict.{number_of};
ghost use Rattle.ledger.specs.Lent.{memory_of};
ghost use Rattle.ledger.specs.Memory.{shown};
ghost use Rattle.ledger.specs.Sound.{Lengths};
ghost use Rattle.ledger.specs.Rows.{send_rows};
ghost use Rattle.window.specs.Limits.{time_end};
ghost use Rattle.sender.specs.Bounds.{Bounded};
ghost use Rattle.sender.specs.Rows.{new_data_rows, send_all_rows, ack_all_rows, nack_all_rows, loss_all_rows, path_rows};

use crate::naming::has_room;
use crate::{Ack, Controller, Loss, Nack, Send};
use ledger::ring::Ring;
use ledger::{Books, Flow};
use rules::verdict::{Refusal, Verdict};

// Refusal 3: a time before the held clock, or 2^48 or more.
fn bad_time(time: u64, clock: u64) -> bool
    ensures { result ≡ (ltb time clock || leb time_end time) }
{
    (time < clock) | (crate::TIME_END <= time)
}

// New data: 3, 20.
pub(crate) fn judge_new_data(c: Controller, time: u64, bytes: u64) -> Verdict
    requires { Bounded c }
    ensures { number_of result ≡ first_of (new_data_rows time bytes c) }
{
    if bad_time(time, c.clock) {
        return Err(Refusal::Time);
    }
    if (bytes == 0) | (ledger::BACKLOG_MOST - c.flow.backlog < bytes) {
        return Err(Refusal::Bytes);
    }
    Ok(())
}

// What the ledger refuses of a send: 8, 5, 7.
fn judge_packet(flow: Flow, ring: Ring<'_>, a: Send) -> Verdict
    requires { Lengths (memory_of ring) }
    ensures { number_of result ≡ first_of (send_rows flow
        (shown flow.low flow.next (memory_of ring.entry)) a.psn a.size a.resend) }
{
    if a.resend {
        return ledger::judge::judge_resend(flow, ring, a.psn, a.size);
    }
    ledger::judge::judge_new(flow, ring.sent.len(), a.psn, a.size)
}

// A send: 3, 4, 8, 5, 7, 6.
pub(crate) fn judge_send(c: Controller, ring: Ring<'_>, time: u64, a: Send) -> Verdict
    requires bounded { Bounded c }
    requires lengths { Lengths (memory_of ring) }
    ensures { number_of result ≡ first_of (send_all_rows time a c
        (shown c.flow.low c.flow.next (memory_of ring.entry))) }
{
    if bad_time(time, c.clock) {
        return Err(Refusal::Time);
    }
    if !rules::within(ledger::SIZE_LEAST as u64, a.size as u64, c.settings.mtu) {
        return Err(Refusal::Size);
    }
    judge_packet(c.flow, ring, a)?;
    if has_room(c.settings.mtu, c.window.cwnd, c.totals.in_flight) {
        return Ok(());
    }
    Err(Refusal::WindowFull)
}

// An ACK: 3, 21, 23, 24, 9, 11.
pub(crate) fn judge_ack(c: Controller, time: u64, a: Ack) -> Verdict
    requires { Bounded c }
    ensures { number_of result ≡ first_of (ack_all_rows time a c) }
{
    let Controller { flow, totals, .. } = c;
    if bad_time(time, c.clock) {
        return Err(Refusal::Time);
    }
    if serial::COUNTS <= a.count as u64 {
        return Err(Refusal::Count);
    }
    if c.settings.ev_count <= a.ev as u64 {
        return Err(Refusal::Ev);
    }
    if !serial::covers(a.cum, a.map, a.trigger) {
        return Err(Refusal::Trigger);
    }
    ledger::judge::judge_ack(Books { flow, totals }, a.cum, a.map, a.count)
}

// A NACK: 3, 22, 23, 10, 11.
pub(crate) fn judge_nack(c: Controller, ring: Ring<'_>, time: u64, a: Nack) -> Verdict
    requires bounded { Bounded c }
    requires lengths { Lengths (memory_of ring) }
    ensures { number_of result ≡ first_of (nack_all_rows time a c
        (shown c.flow.low c.flow.next (memory_of ring.entry))) }
{
    let Controller { flow, totals, .. } = c;
    if bad_time(time, c.clock) {
        return Err(Refusal::Time);
    }
    if crate::REASON_MOST < a.reason {
        return Err(Refusal::Reason);
    }
    if c.settings.ev_count <= a.ev as u64 {
        return Err(Refusal::Ev);
    }
    ledger::judge::judge_mark(Books { flow, totals }, ring, a.psn)
}

// A loss: 3, 23, 10, 11.
pub(crate) fn judge_loss(c: Controller, ring: Ring<'_>, time: u64, a: Loss) -> Verdict
    requires bounded { Bounded c }
    requires lengths { Lengths (memory_of ring) }
    ensures { number_of result ≡ first_of (loss_all_rows time a c
        (shown c.flow.low c.flow.next (memory_of ring.entry))) }
{
    let Controller { flow, totals, .. } = c;
    if bad_time(time, c.clock) {
        return Err(Refusal::Time);
    }
    if c.settings.ev_count <= a.ev as u64 {
        return Err(Refusal::Ev);
    }
    ledger::judge::judge_mark(Books { flow, totals }, ring, a.psn)
}

// A path choice: 3.
pub(crate) fn judge_path(c: Controller, time: u64) -> Verdict
    ensures { number_of result ≡ first_of (path_rows time c) }
{
    if bad_time(time, c.clock) {
        return Err(Refusal::Time);
    }
    Ok(())
}
