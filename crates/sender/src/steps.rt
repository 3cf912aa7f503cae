// What each accepted event does. Inner steps: the caller proves that state and buffers hold together and that no row refuses the event.
// Each keeps them together (proofs/Kept).
ghost use Rattle.std.specs.Prelude.{◌≡◌, true, ◌<◌, ◌≤◌, ◌^◌, length};
ghost use Rattle.rules.specs.Rows.{first_of};
ghost use Rattle.window.specs.Delays.{sampling_of};
ghost use Rattle.ledger.specs.Lent.{memory_of_mut, memory_of_marks, IsSameLoan, IsSameMarks};
ghost use Rattle.ledger.specs.Packets.{is_out};
ghost use Rattle.sender.specs.World.{world, ring_of, view_of, world_of};
ghost use Rattle.sender.specs.Sound.{times_ok, Holds};
ghost use Rattle.sender.specs.Rows.{new_data_rows, send_all_rows, ack_all_rows, nack_all_rows, loss_all_rows};
ghost use Rattle.paths.specs.Path.{choice};
ghost use Rattle.window.specs.Limits.{time_end};
ghost use Rattle.sender.specs.Bounds.{Bounded};
ghost use Rattle.sender.specs.Steps.{avoided_in, new_data_state, send_step, ack_sampling, ack_step, nack_sampling, nack_step, loss_step};
ghost use Rattle.sender.specs.Steps.{path_state};

use crate::naming::state_of;
use crate::{Ack, Controller, Loss, Nack, Send};
use ledger::ring::{RingMarks, RingMut};
use ledger::{Books, Packet};
use window::Sampling;
use window::delay::sample_in;

// What a step leaves that gives something beside the state: an ACK's or a NACK's sample as the sample step says it, a path choice's EV.
#[derive(Clone, Copy)]
pub(crate) struct Step<T> {
    pub state: Controller,
    pub gives: T,
}

// What the sample step says of a packet as it stands.
fn sampled(x: Packet, retx: bool, time: u64, service: u64) -> Sampling
    ensures { result ≡ sampling_of (is_out x) x.resent retx time x.sent service }
{
    let outstanding = (x.status == ledger::FLYING) | (x.status == ledger::MARKED);
    window::delay::sampling(outstanding, x.resent as u64, retx, time, x.sent, service)
}

// Where feedback says so, an EV is avoided until now and the base.
fn avoid(on: bool, ev: u32, time: u64, base: u64, evs: &mut [u64])
    requires { (ev < length evs.old) × (time < 2 ^ 48) × (base ≤ 2 ^ 14) }
    ensures { evs.new ≡ avoided_in on ev time base evs.old }
{
    if on {
        paths::avoid_until(evs, ev as usize, time + base);
    }
}

// New data.
pub(crate) fn new_data(c: Controller, time: u64, bytes: u64) -> Controller
    requires bounded { Bounded c }
    requires c_value { first_of (new_data_rows time bytes c) ≡ 0 }
    ensures { result ≡ new_data_state time bytes c }
{
    let Controller { flow, totals, .. } = c;
    let Books { flow, totals } = ledger::send::supply(bytes, Books { flow, totals });
    state_of(c.settings, flow, totals, c.window, time, c.cursor)
}

// A new packet or a resend.
pub(crate) fn send(
    c: Controller,
    ring: &mut RingMut<'_>,
    evs: &[u64],
    time: u64,
    a: Send,
) -> Controller
    requires holds { Holds (world c (memory_of_mut ring.old) evs.now) }
    requires evs_value { first_of (send_all_rows time a c (ring_of (world c (memory_of_mut ring.old) evs.now))) ≡ 0 }
    ensures same_loan { IsSameLoan ring.old ring.new }
    ensures left { world result (memory_of_mut ring.new) evs.now
        ≡ world_of (send_step time a (view_of (world c (memory_of_mut ring.old) evs.now))) }
{
    let Controller { flow, totals, .. } = c;
    let books = Books { flow, totals };
    if a.resend {
        let Books { flow, totals } = ledger::send::resend(time, a.psn, books, ring);
        return state_of(c.settings, flow, totals, c.window, time, c.cursor);
    }
    let Books { flow, totals } = ledger::send::push(time, a.size, books, ring);
    state_of(c.settings, flow, totals, c.window, time, c.cursor)
}

// An ACK: the sample is read before the ledger's step, and the window's rules come after it.
pub(crate) fn ack(
    c: Controller,
    ring: &mut RingMut<'_>,
    evs: &mut [u64],
    time: u64,
    a: Ack,
) -> Step<Sampling>
    requires holds { Holds (world c (memory_of_mut ring.old) evs.old) }
    requires c_value { first_of (ack_all_rows time a c) ≡ 0 }
    ensures same_loan { IsSameLoan ring.old ring.new }
    ensures evs_value { world result.state (memory_of_mut ring.new) evs.new
        ≡ world_of (ack_step time a (view_of (world c (memory_of_mut ring.old) evs.old))) }
    ensures sampling_value { result.gives ≡ ack_sampling time a (view_of (world c (memory_of_mut ring.old) evs.old)) }
{
    let Controller { flow, totals, .. } = c;
    let settings = c.settings;
    let window = c.window;
    let newly = ledger::judge::newly(a.count, flow.held);
    let x = ledger::slots::find(flow, ring.look(), a.trigger);
    let sampling = sampled(x, a.retx, time, a.service as u64);
    let sample = sample_in(sampling);
    let books = Books { flow, totals };
    let Books { flow: f, totals: t } = ledger::deliver::acknowledge(
        a.cum, a.map, a.count, books, ring,
    );
    let w = window::events::ack(settings, time, newly, a.marked, sample, t.in_flight, window);
    avoid(a.marked, a.ev, time, window.base, evs);
    let state = state_of(settings, f, t, w, time, c.cursor);
    Step {
        state,
        gives: sampling,
    }
}

// A NACK.
pub(crate) fn nack(
    c: Controller,
    ring: &mut RingMarks<'_>,
    evs: &mut [u64],
    time: u64,
    a: Nack,
) -> Step<Sampling>
    requires holds { Holds (world c (memory_of_marks ring.old) evs.old) }
    requires evs_value { first_of (nack_all_rows time a c (ring_of (world c (memory_of_marks ring.old) evs.old))) ≡ 0 }
    ensures same_loan { IsSameMarks ring.old ring.new }
    ensures evs_value_2 { world result.state (memory_of_marks ring.new) evs.new
        ≡ world_of (nack_step time a (view_of (world c (memory_of_marks ring.old) evs.old))) }
    ensures sampling_value { result.gives ≡ nack_sampling time a (view_of (world c (memory_of_marks ring.old) evs.old)) }
{
    let Controller { flow, totals, .. } = c;
    let x = ledger::slots::find(flow, ring.look(), a.psn);
    let sampling = sampled(x, a.retx, time, 0);
    let sample = sample_in(sampling);
    let books = Books { flow, totals };
    let Books { flow, totals } = ledger::mark::mark(a.psn, books, ring);
    let w = window::events::nack(
        c.settings,
        time,
        x.size as u64,
        a.reason as u64,
        sample,
        totals.in_flight,
        c.window,
    );
    avoid(a.marked | (a.reason == 0), a.ev, time, c.window.base, evs);
    let state = state_of(c.settings, flow, totals, w, time, c.cursor);
    Step {
        state,
        gives: sampling,
    }
}

// A loss.
pub(crate) fn loss(
    c: Controller,
    ring: &mut RingMarks<'_>,
    evs: &mut [u64],
    time: u64,
    a: Loss,
) -> Controller
    requires holds { Holds (world c (memory_of_marks ring.old) evs.old) }
    requires evs_value { first_of (loss_all_rows time a c (ring_of (world c (memory_of_marks ring.old) evs.old))) ≡ 0 }
    ensures same_loan { IsSameMarks ring.old ring.new }
    ensures left { world result (memory_of_marks ring.new) evs.new
        ≡ world_of (loss_step time a (view_of (world c (memory_of_marks ring.old) evs.old))) }
{
    let Controller { flow, totals, .. } = c;
    let x = ledger::slots::find(flow, ring.look(), a.psn);
    let books = Books { flow, totals };
    let Books { flow, totals } = ledger::mark::mark(a.psn, books, ring);
    let w = window::events::loss(c.settings, time, x.size as u64, totals.in_flight, c.window);
    avoid(true, a.ev, time, c.window.base, evs);
    state_of(c.settings, flow, totals, w, time, c.cursor)
}

// The next path.
pub(crate) fn path(c: Controller, evs: &[u64], time: u64) -> Step<u32>
    requires bounded { Bounded c }
    requires evs_len { (length evs.now ≡ c.settings.ev_count) × (c.cursor < c.settings.ev_count) }
    requires evs_value { (times_ok evs.now ≡ true) × (time < time_end) }
    ensures { (result.state ≡ path_state time (choice time c.cursor evs.now).cursor c)
        × (result.gives ≡ (choice time c.cursor evs.now).ev) }
{
    let taken = paths::choose(evs, c.cursor as usize, time);
    let cursor = taken.cursor as u32;
    let state = state_of(c.settings, c.flow, c.totals, c.window, time, cursor);
    Step {
        state,
        gives: taken.ev as u32,
    }
}
