// Tests and sums over slots that lie beside each other, from..to-1, and over whole words of bits: what number 2's test is made of. Each
// looks at one of the ring's slices, so that the compiler takes as many elements at a time as their width allows. Inner steps: the caller
// proves that there are the slots.
ghost use Rattle.std.specs.Prelude.{◌≡◌, ◌+◌, ◌-◌, ◌*◌, ◌^◌, ◌<◌, ◌≤◌, min, length, ◌==◌, nat_le, nat_lt, slice_index_or};
ghost use Rattle.bits.specs.Bits.{word_bits, bit, word_of};
ghost use Rattle.ledger.specs.Memory.{AreWords};
ghost use Rattle.ledger.specs.Sound.{all_to};
ghost use Rattle.ledger.specs.Delivery.{sizes_of};
ghost use Rattle.ledger.specs.Stretch.{Joined, all_in, sized_in, sized_at, timed_at, clear_at, mark_ok, ones_of, bytes_of};

use crate::slots::size_in;
use std::ops::BitOr;

// The top bit of a time.
const TOP: u64 = 1 << 63;

// The number, or the largest of 32 bits where it is larger.
fn top_of(n: u64) -> u32
    ensures { result ≡ min n (2 ^ 32 - 1) }
{
    if n < u32::MAX as u64 {
        return n as u32;
    }
    u32::MAX
}

// Whether a slot's number has a size in low..high and at most `most` resends; it has 32 bits.
fn is_within(w: u32, low: u32, high: u32, most: u32) -> bool
    ensures { (result ≡ sized_in low high most w) × (w < 2 ^ 32) }
{
    let size = w % crate::SIZE_END;
    (low <= size) & (size <= high) & (w / crate::SIZE_END <= most)
}

// Whether every slot's number has a size in low..high and at most `most` resends.
pub(crate) fn sizes_within(
    sizes: &[u32],
    low: u32,
    high: u64,
    most: u32,
    from: usize,
    to: usize,
) -> bool
    requires { (from ≤ to) × (to ≤ length sizes.now) }
    ensures { result ≡ all_in (sized_at low high most sizes.now) from to }
{
    let top = top_of(high);
    let mut all = true;
    for &w in &sizes[from..to] {
        all = all & is_within(w, low, top, most);
    }
    all
}

// Whether every slot's number is `zero`: all of them together are.
fn run_is<T: Copy + PartialEq + BitOr<Output = T>>(
    slots: &[T],
    zero: T,
    from: usize,
    to: usize,
) -> bool
    requires span { (from ≤ to) × (to ≤ length slots.now) }
    requires joined { Joined T.eq T.can_bitor T.bitor_gives zero }
    ensures { result ≡ all_in (λ i. T.eq (slice_index_or slots.now i zero) zero) from to }
{
    let mut any = zero;
    for &x in &slots[from..to] {
        any = any | x;
    }
    any == zero
}

// The same, as many slots at a time as a word has bits: of a loop whose number of turns it knows the compiler makes straight code. A slot
// that is not `zero` ends the walk at its block.
pub(crate) fn all_are<T: Copy + PartialEq + BitOr<Output = T>>(
    slots: &[T],
    zero: T,
    from: usize,
    to: usize,
) -> bool
    requires span { (from ≤ to) × (to ≤ length slots.now) }
    requires joined { Joined T.eq T.can_bitor T.bitor_gives zero }
    ensures { result ≡ all_in (λ i. T.eq (slice_index_or slots.now i zero) zero) from to }
{
    let blocks = (to - from) / bits::WORD_BITS;
    for block in 0..blocks {
        let at = from + block * bits::WORD_BITS;
        if !run_is(slots, zero, at, at + bits::WORD_BITS) {
            return false;
        }
    }
    run_is(slots, zero, from + blocks * bits::WORD_BITS, to)
}

// 1 for a time past `most`.
fn one_late(x: u64, most: u64) -> u64
    ensures { ((result == 0) ≡ nat_le x most) × (result ≤ 1) }
{
    if x > most { 1 } else { 0 }
}

// Whether no time is past `most`: those past it are counted, at the width of a time, so that nothing is narrowed and no turn ends the loop.
fn times_counted(sent: &[u64], most: u64, from: usize, to: usize) -> bool
    requires { (from ≤ to) × (to ≤ length sent.now) }
    ensures { result ≡ all_in (timed_at most sent.now) from to }
{
    let mut late: u64 = 0;
    for &x in &sent[from..to] {
        late += one_late(x, most);
    }
    late == 0
}

// The same below the top bit: a time has it, or `most` less the time has it, exactly if the time is past `most`.
fn times_below_top(sent: &[u64], most: u64, from: usize, to: usize) -> bool
    requires { (from ≤ to) × (to ≤ length sent.now) × (most < 2 ^ 63) }
    ensures { result ≡ all_in (timed_at most sent.now) from to }
{
    let mut late: u64 = 0;
    for &x in &sent[from..to] {
        late = late | (x | std::num::wrapping_sub_u64(most, x));
    }
    late < TOP
}

// Whether no time is past `most`.
pub(crate) fn times_until(sent: &[u64], most: u64, from: usize, to: usize) -> bool
    requires { (from ≤ to) × (to ≤ length sent.now) }
    ensures { result ≡ all_in (timed_at most sent.now) from to }
{
    if most < TOP {
        return times_below_top(sent, most, from, to);
    }
    times_counted(sent, most, from, to)
}

// The bits of word q whose slots come before slot k.
fn below(k: usize, q: usize) -> u64
    requires { q < word_bits }
    ensures { result ≡ word_of (λ j. nat_lt (q * word_bits + j) k) }
{
    let at = q * bits::WORD_BITS;
    if k <= at {
        return 0;
    }
    let r = k - at;
    if r < bits::WORD_BITS {
        return (1 << r) - 1;
    }
    u64::MAX
}

// Whether no bit is set at the slots: a word at a time, the bits of other slots left out.
fn none_in(words: &[u64], from: usize, to: usize) -> bool
    requires { (from ≤ to) × (to ≤ length words.now * word_bits) × (length words.now ≤ word_bits) }
    ensures { result ≡ all_in (clear_at words.now) from to }
{
    let mut all = true;
    for q in from / bits::WORD_BITS..to.div_ceil(bits::WORD_BITS) {
        let others = bits::clear(words[q], below(from, q));
        all = all & (others & below(to, q) == 0);
    }
    all
}

// Whether no bit is set in the words: all of them together are 0.
fn none_whole(words: &[u64], from: usize, to: usize) -> bool
    requires { (from ≤ to) × (to ≤ length words.now) }
    ensures { result ≡ all_in (clear_at words.now) (from * word_bits) (to * word_bits) }
{
    let mut any: u64 = 0;
    for &w in &words[from..to] {
        any = any | w;
    }
    any == 0
}

// Whether no bit is set at the slots: those of whole words together, with no bits to leave out, and those before and behind them.
pub(crate) fn none_set(words: &[u64], from: usize, to: usize) -> bool
    requires { (from ≤ to) × (to ≤ length words.now * word_bits) × (length words.now ≤ word_bits) }
    ensures { result ≡ all_in (clear_at words.now) from to }
{
    let first = (from + bits::WORD_BITS - 1) / bits::WORD_BITS;
    let end = to / bits::WORD_BITS;
    if end < first {
        return none_in(words, from, to);
    }
    none_in(words, from, first * bits::WORD_BITS)
        & none_whole(words, first, end)
        & none_in(words, end * bits::WORD_BITS, to)
}

// Whether every marked bit is outstanding too. That the words have 64 bits is known here, of the slices, and not of a ring's fields.
pub(crate) fn marks_within<'a>(outstanding: &'a [u64], marked: &'a [u64]) -> bool
    requires { length marked.now ≡ length outstanding.now }
    ensures within { result ≡ all_to (mark_ok outstanding.now marked.now) (length outstanding.now * word_bits) }
    ensures words { AreWords outstanding.now × AreWords marked.now }
{
    let mut all = true;
    for (q, &out) in outstanding.iter().enumerate() {
        all = all & (bits::clear(marked[q], out) == 0);
    }
    all
}

// How many bits are set. A word with none is passed over: a test takes less time than a count.
pub(crate) fn ones(words: &[u64]) -> u32
    requires { length words.now ≤ word_bits }
    ensures { (result ≡ ones_of words.now) × (result ≤ 4096) }
{
    let mut count: u32 = 0;
    for &w in words {
        if w != 0 {
            count += bits::count(w, w);
        }
    }
    count
}

// The sizes of a word's slots whose bits are set in `hit`, added up: one turn a set bit.
pub(crate) fn bytes_in(sizes: &[u32], q: usize, hit: u64) -> u64
    requires { ((q + 1) * word_bits ≤ length sizes.now) × (q < word_bits) }
    ensures { (result ≡ sizes_of (bit hit) sizes.now q) × (result < 2 ^ 22) }
{
    let mut left = hit;
    let mut bytes: u64 = 0;
    while left != 0 {
        let j = bits::first(left);
        bytes += size_in(sizes[q * bits::WORD_BITS + j as usize]) as u64;
        left = bits::clear(left, 1 << j);
    }
    bytes
}

// What the sizes of marked slots add up to.
pub(crate) fn marked_sum<'a>(marked: &'a [u64], sizes: &'a [u32]) -> u64
    requires { (length marked.now * word_bits ≤ length sizes.now) × (length marked.now ≤ word_bits) }
    ensures { (result ≡ bytes_of marked.now sizes.now) × (result ≤ 2 ^ 28) }
{
    let mut bytes: u64 = 0;
    for (q, &hit) in marked.iter().enumerate() {
        bytes += bytes_in(sizes, q, hit);
    }
    bytes
}
