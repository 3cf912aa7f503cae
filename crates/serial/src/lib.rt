// Wrapped numbers: packet sequence numbers (32 bits), received counts (24 bits), and what an ACK covers.
// Document 01, "The ledger". Each function answers for every argument.
#![tactic(auto)]

ghost use Rattle.std.specs.Prelude.{◌≡◌, ◌+◌, ◌≤◌, ◌⊎◌};
ghost use Rattle.serial.specs.Wrap.{minus};
ghost use Rattle.bits.specs.Bits.{word_bits, word_of};
ghost use Rattle.serial.specs.Psn.{psns, reach, plus, bit_of, covered, back_of, span_of, unsent_or_old};
ghost use Rattle.serial.specs.Count.{ahead_of, gap_of, is_old, forward_of};

// How far behind a PSN may lie and still be covered: 2^30.
pub const REACH: u32 = 1073741824;

// The received counts that there are: 2^24.
pub const COUNTS: u64 = 16777216;

// From this difference on a count is old: 2^23.
pub const HALF: u64 = 8388608;

// The PSN k after p.
pub fn psn_plus(p: u32, k: u32) -> u32
    ensures { result ≡ plus p k }
{
    std::num::wrapping_add_u32(p, k)
}

// a - b, modulo 2^32.
pub fn psn_minus(a: u32, b: u32) -> u32
    ensures { result ≡ minus psns a b }
{
    std::num::wrapping_sub_u32(a, b)
}

// Whether bit i of a map is set; a map has bits 0 to 63.
pub fn bit_of(map: u64, i: u32) -> bool
    ensures { result ≡ bit_of map i }
{
    if i < 64 {
        return (map >> i) % 2 == 1;
    }
    false
}

// Whether an ACK covers a PSN: it lies at most 2^30 behind cum, or its bit is set.
pub fn covers(cum: u32, map: u64, psn: u32) -> bool
    ensures { result ≡ covered cum map psn }
{
    if psn_minus(cum, psn) <= REACH {
        return true;
    }
    bit_of(map, psn_minus(psn, psn_plus(cum, 1)))
}

// What an ACK covers of the 64 PSNs from psn on: bit j tells of the PSN j after psn. An inner step: the caller proves that they do not
// come into cum's reach from behind, as PSNs a quarter of the ring of numbers and more away do.
pub fn covered_word(cum: u32, map: u64, psn: u32) -> u64
    requires { (minus psns cum psn ≤ reach) ⊎ (reach + word_bits ≤ minus psns cum psn) }
    ensures { result ≡ word_of (λ j. covered cum map (plus psn j)) }
{
    let behind = psn_minus(cum, psn);
    if behind <= REACH {
        if 63 <= behind {
            return u64::MAX;
        }
        return ((1 << (behind + 1)) - 1) | (map << (behind + 1));
    }
    let ahead = psn_minus(psn, psn_plus(cum, 1));
    if ahead < 64 {
        return map >> ahead;
    }
    0
}

// back: how far cum lies behind the last PSN sent.
pub fn back(next: u32, cum: u32) -> u32
    ensures { result ≡ back_of next cum }
{
    psn_minus(psn_minus(next, 1), cum)
}

// How many bits of a map there are up to its highest set one: the furthest PSN that an ACK names is cum + span.
pub fn span(map: u64) -> u32
    ensures { result ≡ span_of map }
{
    64 - u64::leading_zeros(map)
}

// Refusal 9: the ACK names an unsent packet, or is too old.
pub fn unsent_or_old(next: u32, cum: u32, map: u64) -> bool
    ensures { result ≡ unsent_or_old next cum map }
{
    let back = back(next, cum);
    if REACH < back {
        return true;
    }
    back < span(map)
}

// count - held, modulo 2^24.
fn ahead(count: u32, held: u64) -> u64
    ensures { result ≡ ahead_of count held }
{
    std::num::wrapping_sub_u64(count as u64, held) % COUNTS
}

// How many units a count lies ahead of the held one, as a signed number: below zero where the count is old.
pub fn gap(count: u32, held: u64) -> i64
    ensures { result ≡ gap_of count held }
{
    let units = ahead(count, held);
    if units < HALF {
        return units as i64;
    }
    (units as i64) - (COUNTS as i64)
}

// Whether a count is old.
pub fn is_old(count: u32, held: u64) -> bool
    ensures { result ≡ is_old count held }
{
    gap(count, held) < 0
}

// Forward units: how far a count lies ahead of the held one, and 0 where it is old.
pub fn forward(count: u32, held: u64) -> u64
    ensures { result ≡ forward_of count held }
{
    let units = gap(count, held);
    if units < 0 {
        return 0;
    }
    units as u64
}
