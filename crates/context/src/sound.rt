// Refusal 2 over a context in full: whether the shared state, the table of flows and the ring buffer hold together. Request M-107:
// "Refusal 2 tests every flow and the number of flows".
ghost use Rattle.std.specs.Prelude.{◌≡◌, ◌+◌, ◌<◌, ◌≤◌, ◌^◌};
ghost use Rattle.ledger.specs.Lent.{memory_given, memory_before};
ghost use Rattle.ledger.specs.Sound.{all_to};
ghost use Rattle.flow_table.specs.Words.{flows_most, count_of};
ghost use Rattle.context.specs.Lent.{context_before};
ghost use Rattle.context.specs.Sound.{is_cut, sound_context};
ghost use Rattle.context.specs.Walk.{stands_on, tally_at, tally_to, Parted, Standing, flows_ok};

use crate::Controller;
use crate::join::{Cut, cut_at, share};
use ledger::ring::Ring;
use ledger::sound::Tally;

// Whether the ring buffer is n rings of `cap` slots, end to end.
pub(crate) fn is_cut<'a>(
    n: usize,
    cap: usize,
    outstanding: &'a [u64],
    marked: &'a [u64],
    sizes: &'a [u32],
    sent: &'a [u64],
) -> bool
    requires { n ≤ flows_most }
    ensures { result ≡ is_cut n cap (memory_before outstanding.now marked.now sizes.now sent.now) }
{
    if !ledger::sound::is_capacity(cap) {
        return false;
    }
    let words = n * (cap / bits::WORD_BITS);
    let slots = n * cap;
    (outstanding.len() == words)
        & (marked.len() == words)
        & (sizes.len() == slots)
        & (sent.len() == slots)
}

// Whether flow k and its ring hold together. A low or a next of 2^32 or more is no PSN.
fn stands_at<'a>(
    cap: usize,
    k: usize,
    flows: &'a [u64],
    outstanding: &'a [u64],
    marked: &'a [u64],
    sizes: &'a [u32],
    sent: &'a [u64],
    mtu: u64,
    clock: u64,
) -> bool
    requires { (k < count_of flows.now) × Parted cap flows.now (memory_given outstanding.now marked.now sizes.now sent.now) }
    ensures { result ≡ stands_on mtu clock cap flows.now (memory_before outstanding.now marked.now sizes.now sent.now) k }
{
    if !flow_table::fits_at(flows, k) {
        return false;
    }
    let flow = flow_table::flow_at(flows, k);
    let Cut { from, end, at, to } = cut_at(cap, k);
    let ring = Ring {
        outstanding: &outstanding[from..end],
        marked: &marked[from..end],
        sizes: &sizes[at..to],
        sent: &sent[at..to],
    };
    ledger::sound::stands(flow, ring, mtu, clock)
}

// Whether each of the n flows and its ring hold together.
fn all_stand<'a>(
    n: usize,
    cap: usize,
    flows: &'a [u64],
    outstanding: &'a [u64],
    marked: &'a [u64],
    sizes: &'a [u32],
    sent: &'a [u64],
    mtu: u64,
    clock: u64,
) -> bool
    requires { (n ≡ count_of flows.now) × Parted cap flows.now (memory_given outstanding.now marked.now sizes.now sent.now) }
    ensures { result ≡ all_to (stands_on mtu clock cap flows.now (memory_before outstanding.now marked.now sizes.now sent.now))
        (count_of flows.now) }
{
    for k in 0..n {
        if !stands_at(cap, k, flows, outstanding, marked, sizes, sent, mtu, clock) {
            return false;
        }
    }
    true
}

// What flow k adds to the totals: at most 4,096 packets of 2^16 bytes, and its backlog.
fn tally_at<'a>(
    cap: usize,
    k: usize,
    flows: &'a [u64],
    outstanding: &'a [u64],
    marked: &'a [u64],
    sizes: &'a [u32],
    sent: &'a [u64],
) -> Tally
    requires { (k < count_of flows.now) × Standing cap flows.now (memory_given outstanding.now marked.now sizes.now sent.now) }
    ensures { (result ≡ tally_at cap flows.now (memory_before outstanding.now marked.now sizes.now sent.now) k)
        × (result.outstanding ≤ 2 ^ 40) × (result.marked ≤ 2 ^ 40) × (result.marked_bytes ≤ 2 ^ 40) × (result.backlog ≤ 2 ^ 40) }
{
    let flow = flow_table::flow_at(flows, k);
    let Cut { from, end, at, to } = cut_at(cap, k);
    let ring = Ring {
        outstanding: &outstanding[from..end],
        marked: &marked[from..end],
        sizes: &sizes[at..to],
        sent: &sent[at..to],
    };
    ledger::sound::tally_of(flow, ring)
}

// Two tallies in one.
fn plus(a: Tally, b: Tally) -> Tally
    requires outstanding_bound { (a.outstanding ≤ 2 ^ 50) × (a.marked ≤ 2 ^ 50) × (a.marked_bytes ≤ 2 ^ 50) × (a.backlog ≤ 2 ^ 50) }
    requires outstanding_bound_2 { (b.outstanding ≤ 2 ^ 40) × (b.marked ≤ 2 ^ 40) × (b.marked_bytes ≤ 2 ^ 40) × (b.backlog ≤ 2 ^ 40) }
    ensures { (result.outstanding ≡ a.outstanding + b.outstanding) × (result.marked ≡ a.marked + b.marked)
        × (result.marked_bytes ≡ a.marked_bytes + b.marked_bytes) × (result.backlog ≡ a.backlog + b.backlog) }
{
    Tally {
        outstanding: a.outstanding + b.outstanding,
        marked: a.marked + b.marked,
        marked_bytes: a.marked_bytes + b.marked_bytes,
        backlog: a.backlog + b.backlog,
    }
}

// What the n flows add up to.
fn tally_all<'a>(
    n: usize,
    cap: usize,
    flows: &'a [u64],
    outstanding: &'a [u64],
    marked: &'a [u64],
    sizes: &'a [u32],
    sent: &'a [u64],
) -> Tally
    requires { (n ≡ count_of flows.now) × Standing cap flows.now (memory_given outstanding.now marked.now sizes.now sent.now) }
    ensures { result ≡ tally_to cap flows.now (memory_before outstanding.now marked.now sizes.now sent.now) (count_of flows.now) }
{
    let mut all = Tally {
        outstanding: 0,
        marked: 0,
        marked_bytes: 0,
        backlog: 0,
    };
    for k in 0..n {
        let one = tally_at(cap, k, flows, outstanding, marked, sizes, sent);
        all = plus(all, one);
    }
    all
}

// Whether the table, the ring buffer and the totals over all flows hold together. What is added up is what stands.
fn flows_ok<'a>(
    c: Controller,
    flows: &'a [u64],
    outstanding: &'a [u64],
    marked: &'a [u64],
    sizes: &'a [u32],
    sent: &'a [u64],
) -> bool
    ensures { result ≡ flows_ok c flows.now (memory_before outstanding.now marked.now sizes.now sent.now) }
{
    if !flow_table::is_table(flows) {
        return false;
    }
    let n = flow_table::count(flows);
    let cap = share(sizes.len(), n);
    if !is_cut(n, cap, outstanding, marked, sizes, sent) {
        return false;
    }
    if !all_stand(
        n,
        cap,
        flows,
        outstanding,
        marked,
        sizes,
        sent,
        c.settings.mtu,
        c.clock,
    ) {
        return false;
    }
    let all = tally_all(n, cap, flows, outstanding, marked, sizes, sent);
    ledger::sound::totals_ok(c.totals, all)
        & ledger::sound::in_bounds(c.settings.maxwnd, c.totals.in_flight)
}

// Whether state, table and buffers hold together.
pub fn is_sound<'a>(
    c: Controller,
    flows: &'a [u64],
    outstanding: &'a [u64],
    marked: &'a [u64],
    sizes: &'a [u32],
    sent: &'a [u64],
    evs: &'a [u64],
) -> bool
    ensures { result ≡ sound_context (context_before c flows.now outstanding.now marked.now sizes.now sent.now evs.now) }
{
    if !window::bounds::in_range(c.settings) {
        return false;
    }
    if !window::bounds::is_sound(c.settings, c.clock, c.window) {
        return false;
    }
    if !flows_ok(c, flows, outstanding, marked, sizes, sent) {
        return false;
    }
    (c.clock < sender::TIME_END)
        & (evs.len() as u64 == c.settings.ev_count)
        & sender::sound::times_ok(evs)
        & ((c.cursor as u64) < c.settings.ev_count)
        & (c.turn < flow_table::count(flows) as u64)
        & (c.phase == sender::naming::phase_of(c.settings.mtu, c.window.cwnd, c.totals))
}
