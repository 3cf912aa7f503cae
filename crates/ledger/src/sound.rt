// Whether the ledger holds together: its part of refusal 2.
ghost use Rattle.std.specs.Prelude.{◌≡◌, ◌*◌, ◌%◌, ◌^◌, ◌≤◌, true, ◌||◌, length, ◌==◌};
ghost use Rattle.bits.specs.Bits.{word_bits, bit_at};
ghost use Rattle.ledger.specs.Lent.{memory_of};
ghost use Rattle.ledger.specs.Bounds.{in_bounds};
ghost use Rattle.ledger.specs.Memory.{shown};
ghost use Rattle.ledger.specs.Sound.{all_to, is_capacity, is_even, Lengths};
ghost use Rattle.ledger.specs.Sound.{stands as Sound·stands};
ghost use Rattle.ledger.specs.Stretch.{all_in, live_at, zero_at, slot_at, tally_of, totals_ok};

use crate::ring::Ring;
use crate::slots::{long, place};
use crate::stretch::{
    all_are, marked_sum, marks_within, none_set, ones, sizes_within, times_until,
};
use crate::{Flow, Totals};

// Whether a length is a capacity.
pub fn is_capacity(n: usize) -> bool
    ensures { result ≡ is_capacity n }
{
    (n == 64) | (n == 128) | (n == 256) | (n == 512) | (n == 1024) | (n == 2048) | (n == 4096)
}

// Whether the four slices go together: a number and a time for each bit, and as many as a capacity.
fn is_ring(ring: Ring<'_>) -> bool
    ensures { result ≡ is_even (memory_of ring.entry) }
{
    let cap = ring.sizes.len();
    let words = cap / bits::WORD_BITS;
    is_capacity(cap)
        & (ring.outstanding.len() == words)
        & (ring.marked.len() == words)
        & (ring.sent.len() == cap)
}

// The slots from..to-1 of packets: whether sizes, resend counts and send times are in their bounds. This and the next take the slices that
// they look at: the compiler keeps the next as a call, and with a ring, which goes through memory, number 2's test takes 1.05 times as long.
fn live_run<'a>(
    sizes: &'a [u32],
    sent: &'a [u64],
    mtu: u64,
    clock: u64,
    from: usize,
    to: usize,
) -> bool
    requires { (from ≤ to) × (to ≤ length sizes.now) × (to ≤ length sent.now) }
    ensures { result ≡ all_in (live_at mtu clock sizes.now sent.now) from to }
{
    sizes_within(sizes, crate::SIZE_LEAST, mtu, crate::RESENT_MOST, from, to)
        & times_until(sent, clock, from, to)
}

// Whether the slots from..to-1 are all zero, but for the marked bits.
fn zero_run<'a>(
    outstanding: &'a [u64],
    sizes: &'a [u32],
    sent: &'a [u64],
    from: usize,
    to: usize,
) -> bool
    requires from_le_to { (from ≤ to) × (to ≤ length outstanding.now * word_bits) × (length outstanding.now ≤ word_bits) }
    requires to_in_bounds { (to ≤ length sizes.now) × (to ≤ length sent.now) }
    ensures { result ≡ all_in (zero_at outstanding.now sizes.now sent.now) from to }
{
    none_set(outstanding, from, to) & all_are(sizes, 0, from, to) & all_are(sent, 0, from, to)
}

// Every slot, but for the marked bits: those of the n packets from low on are one run, or one up to the ring's end and one from its start
// on; and so are the others.
fn slots_ok(ring: Ring<'_>, mtu: u64, clock: u64, low: u32, n: u32) -> bool
    requires sizes_value { (is_capacity (length ring.sizes.now) ≡ true) × (n ≤ length ring.sizes.now) }
    requires word_bits_len { (length ring.outstanding.now * word_bits ≡ length ring.sizes.now)
        × (length ring.sent.now ≡ length ring.sizes.now) }
    ensures { result ≡ all_to (slot_at mtu clock ring.entry.outstanding.now ring.entry.sizes.now ring.entry.sent.now
        (length ring.entry.sizes.now) low n) (length ring.entry.sizes.now) }
{
    let cap = ring.sizes.len();
    let i = place(cap, low);
    let end = i + n as usize;
    if end <= cap {
        return live_run(ring.sizes, ring.sent, mtu, clock, i, end)
            & zero_run(ring.outstanding, ring.sizes, ring.sent, end, cap)
            & zero_run(ring.outstanding, ring.sizes, ring.sent, 0, i);
    }
    zero_run(ring.outstanding, ring.sizes, ring.sent, end - cap, i)
        & live_run(ring.sizes, ring.sent, mtu, clock, i, cap)
        & live_run(ring.sizes, ring.sent, mtu, clock, 0, end - cap)
}

// Whether low is not done while low and next differ: done is a packet with neither bit.
fn head_ok(ring: Ring<'_>, cap: usize, low: u32, n: u32) -> bool
    requires { (is_capacity cap ≡ true) × (length ring.outstanding.now * word_bits ≡ cap) × (length ring.marked.now * word_bits ≡ cap) }
    ensures { result ≡ (n == 0 || bit_at ring.entry.outstanding.now (low % cap) || bit_at ring.entry.marked.now (low % cap)) }
{
    let i = place(cap, low);
    (n == 0) | bits::is_set(ring.outstanding, i) | bits::is_set(ring.marked, i)
}

// What a flow adds to the totals over all flows (request M-107): its outstanding and its marked packets, the bytes of these, its backlog.
#[derive(Clone, Copy)]
pub struct Tally {
    pub outstanding: u64,
    pub marked: u64,
    pub marked_bytes: u64,
    pub backlog: u64,
}

// The tally of a flow and its ring. An inner step: the caller proves that the slices go together.
pub fn tally_of(flow: Flow, ring: Ring<'_>) -> Tally
    requires { Lengths (memory_of ring) }
    ensures { (result ≡ tally_of flow (memory_of ring.entry))
        × (result.outstanding ≤ 4096) × (result.marked ≤ 4096) × (result.marked_bytes ≤ 2 ^ 28) }
{
    Tally {
        outstanding: ones(ring.outstanding) as u64,
        marked: ones(ring.marked) as u64,
        marked_bytes: marked_sum(ring.marked, ring.sizes),
        backlog: flow.backlog,
    }
}

// Whether the totals are those of a tally: what is outstanding flies or is marked.
pub fn totals_ok(totals: Totals, all: Tally) -> bool
    ensures { result ≡ totals_ok totals all }
{
    (totals.flying as u64 + totals.marked as u64 == all.outstanding)
        & (totals.marked as u64 == all.marked)
        & (totals.marked_bytes == all.marked_bytes)
        & (totals.backlog == all.backlog)
}

// Whether in-flight is in its bounds.
pub fn in_bounds(maxwnd: u64, in_flight: i64) -> bool
    ensures { result ≡ in_bounds maxwnd in_flight }
{
    if in_flight < 0 {
        return crate::IN_FLIGHT_LEAST <= in_flight;
    }
    in_flight as u64 <= maxwnd
}

// Whether a flow and its ring hold together.
pub fn stands(flow: Flow, ring: Ring<'_>, mtu: u64, clock: u64) -> bool
    ensures { result ≡ Sound·stands mtu clock flow (shown flow.low flow.next (memory_of ring.entry)) }
{
    if !is_ring(ring) {
        return false;
    }
    let cap = ring.sizes.len();
    let n = long(flow);
    if cap < n as usize {
        return false;
    }
    marks_within(ring.outstanding, ring.marked)
        & slots_ok(ring, mtu, clock, flow.low, n)
        & head_ok(ring, cap, flow.low, n)
        & (flow.held < serial::COUNTS)
        & (flow.backlog <= crate::BACKLOG_MOST)
}
