// An ACK's ledger step: what it covers is done, done packets at the front leave the ring, the count is taken in. The packets that it can
// cover are looked at 64 at a time, those of one word of the bits.
ghost use Rattle.std.specs.Prelude.{◌≡◌, ◌+◌, ◌-◌, ◌*◌, ◌<◌, ◌≤◌, length, set, slice_index, slice_set};
ghost use Rattle.rules.specs.Rows.{first_of};
ghost use Rattle.bits.specs.Bits.{word_bits, without};
ghost use Rattle.serial.specs.Psn.{plus};
ghost use Rattle.ledger.specs.Lent.{memory_given, memory_before, memory_after, memory_of_mut, IsSameLoan};
ghost use Rattle.ledger.specs.Packets.{done_run};
ghost use Rattle.ledger.specs.Memory.{shown, ledger_shown, kept, kept_of};
ghost use Rattle.ledger.specs.Ring.{queue_of, long_of};
ghost use Rattle.ledger.specs.Sound.{SoundLedger};
ghost use Rattle.ledger.specs.Steps.{held_of, acknowledge_of};
ghost use Rattle.ledger.specs.Rows.{ack_rows};
ghost use Rattle.ledger.specs.Delivery.{lessened, Counted, Standing, Reached, Covered, Retired};

use crate::judge::{less, newly};
use crate::ring::RingMut;
use crate::slots::{long, place};
use crate::stretch::bytes_in;
use crate::{Books, Flow, Totals};

// The packets of word q that the mask covers are done, and have left the totals. Mostly none of them is marked: then there is neither
// a marked bit to clear nor a byte to add up.
fn cover_word<'a, 'b, 'c>(
    outstanding: &'a mut [u64],
    marked: &'b mut [u64],
    sizes: &'c [u32],
    q: usize,
    mask: u64,
    totals: Totals,
) -> Totals
    requires q_in_bounds { (q < length outstanding.old) × (q < length marked.old) × ((q + 1) * word_bits ≤ length sizes.now) × (q < word_bits) }
    requires counted { Counted (slice_index outstanding.old q) (slice_index marked.old q) mask sizes.now q totals }
    ensures outstanding_after { (outstanding.new ≡ slice_set outstanding.old q (without (slice_index outstanding.old q) mask))
        × (marked.new ≡ slice_set marked.old q (without (slice_index marked.old q) mask)) }
    ensures value { result ≡ lessened (slice_index outstanding.old q) (slice_index marked.old q) mask sizes.now q
        totals }
{
    let out = outstanding[q];
    let mark = marked[q];
    outstanding[q] = bits::clear(out, mask);
    if mark & mask == 0 {
        return Totals {
            flying: totals.flying - bits::count(out, mask),
            ..totals
        };
    }
    let waiting = bits::count(mark, mask);
    marked[q] = bits::clear(mark, mask);
    Totals {
        flying: totals.flying - (bits::count(out, mask) - waiting),
        marked: totals.marked - waiting,
        marked_bytes: totals.marked_bytes - bytes_in(sizes, q, mark & mask),
        ..totals
    }
}

// The first `far` packets from low on are looked at, a word at a time; the ACK covers none beyond. What is covered leaves the totals. This
// and the two below take the slices by themselves: so their types say which each may write, the bits here and the numbers there.
fn cover<'a, 'b, 'c>(
    outstanding: &'a mut [u64],
    marked: &'b mut [u64],
    sizes: &'c [u32],
    sent: &'c [u64],
    flow: Flow,
    far: u32,
    cum: u32,
    map: u64,
    totals: Totals,
) -> Totals
    requires standing { Standing (memory_given outstanding.old marked.old sizes.now sent.now) flow }
    requires reached { Reached (memory_given outstanding.old marked.old sizes.now sent.now) flow totals far cum map }
    ensures standing_2 { Standing (memory_after outstanding.new marked.new sizes.now sent.now) flow }
    ensures covered { Covered (ledger_shown flow totals (memory_before outstanding.old marked.old sizes.now sent.now)) cum map result
        (shown flow.low flow.next (memory_after outstanding.new marked.new sizes.now sent.now)) }
{
    let cap = sent.len();
    let mut left = totals;
    let mut k: u32 = 0;
    // A `while`: k goes on by what is left of low's word first, and by whole words after it, which no range does.
    while k < far {
        let psn = serial::psn_plus(flow.low, k);
        let i = place(cap, psn);
        let r = i % bits::WORD_BITS;
        let mask = serial::covered_word(cum, map, psn) << r;
        left = cover_word(outstanding, marked, sizes, i / bits::WORD_BITS, mask, left);
        k += (bits::WORD_BITS - r) as u32;
    }
    left
}

// The done packets at the front leave the ring, at most n; how many. Mostly one or two do, so they are looked at one by one.
fn retire<'a, 'b, 'c>(
    outstanding: &'a [u64],
    marked: &'a [u64],
    sizes: &'b mut [u32],
    sent: &'c mut [u64],
    flow: Flow,
    n: u32,
) -> u32
    requires n_value { n ≡ long_of flow }
    requires standing { Standing (memory_given outstanding.now marked.now sizes.old sent.old) flow }
    ensures { Retired (shown flow.low flow.next (memory_before outstanding.now marked.now sizes.old sent.old)) flow.low n result
        (shown (plus flow.low result) flow.next (memory_after outstanding.now marked.now sizes.new sent.new)) }
{
    let cap = sent.len();
    for gone in 0..n {
        let i = place(cap, serial::psn_plus(flow.low, gone));
        if bits::is_set(outstanding, i) {
            return gone;
        }
        sizes[i] = 0;
        sent[i] = 0;
    }
    n
}

// The same after an ACK that covers none beyond the first `far`. One that reaches no packet leaves low where it is: in a ledger that holds
// together low is not done, so there is nothing to look for.
fn retire_reached<'a, 'b, 'c>(
    outstanding: &'a [u64],
    marked: &'a [u64],
    sizes: &'b mut [u32],
    sent: &'c mut [u64],
    flow: Flow,
    n: u32,
    far: u32,
) -> u32
    requires n_value { n ≡ long_of flow }
    requires standing { Standing (memory_given outstanding.now marked.now sizes.old sent.old) flow }
    requires n_value_2 { far ≡ 0
        → done_run (queue_of (shown flow.low flow.next (memory_given outstanding.now marked.now sizes.old sent.old)) flow.low n) ≡ 0 }
    ensures { Retired (shown flow.low flow.next (memory_before outstanding.now marked.now sizes.old sent.old)) flow.low n result
        (shown (plus flow.low result) flow.next (memory_after outstanding.now marked.now sizes.new sent.new)) }
{
    if far == 0 {
        return 0;
    }
    retire(outstanding, marked, sizes, sent, flow, n)
}

// How many packets from low on an ACK can cover: none beyond the one of its highest set bit.
fn reach(n: u32, back: u32, span: u32) -> u32
    requires { (n ≤ 4096) × (span ≤ 64) }
    ensures { result ≡ n + span - back }
{
    if n + span <= back {
        return 0;
    }
    n + span - back
}

// The held count after a count came in.
fn held_after(count: u32, held: u64) -> u64
    ensures { result ≡ held_of count held }
{
    if serial::is_old(count, held) {
        return held;
    }
    count as u64
}

// The ledger after an ACK. An inner step: the caller proves that the ledger holds together and that no row refuses the ACK.
pub fn acknowledge(cum: u32, map: u64, count: u32, books: Books, ring: &mut RingMut<'_>) -> Books
    requires sound_ledger { SoundLedger (ledger_shown books.flow books.totals (memory_of_mut ring.old)) }
    requires count_value { first_of (ack_rows books.flow books.totals.in_flight cum map count) ≡ 0 }
    ensures same_loan { IsSameLoan ring.old ring.new }
    ensures kept { kept result.flow result.totals (memory_of_mut ring.new)
        ≡ kept_of (acknowledge_of cum map count (ledger_shown books.flow books.totals (memory_of_mut ring.old))) }
{
    let outstanding: &mut [u64] = ring.outstanding;
    let marked: &mut [u64] = ring.marked;
    let sizes: &mut [u32] = ring.sizes;
    let sent: &mut [u64] = ring.sent;
    let Books { flow, totals } = books;
    let n = long(flow);
    let far = reach(n, serial::back(flow.next, cum), serial::span(map));
    let left = cover(
        outstanding,
        marked,
        sizes,
        sent,
        flow,
        far,
        cum,
        map,
        totals,
    );
    let gone = retire_reached(outstanding, marked, sizes, sent, flow, n, far);
    Books {
        flow: Flow {
            low: serial::psn_plus(flow.low, gone),
            held: held_after(count, flow.held),
            ..flow
        },
        totals: Totals {
            in_flight: less(left.in_flight, newly(count, flow.held)),
            ..left
        },
    }
}
