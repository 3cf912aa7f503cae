// Packets looked for by their bits, a word at a time. Inner steps: the caller proves that the ledger holds together.
ghost use Rattle.std.specs.Prelude.{◌≡◌, ◌*◌, ◌≤◌, true, length};
ghost use Rattle.bits.specs.Bits.{word_bits, bit_at, lowest};
ghost use Rattle.ledger.specs.Lent.{memory_of};
ghost use Rattle.ledger.specs.Memory.{shown, ledger_shown};
ghost use Rattle.ledger.specs.Ring.{place_of};
ghost use Rattle.ledger.specs.Seek.{next_marked_of};
ghost use Rattle.ledger.specs.Sound.{is_capacity, SoundLedger};

use crate::Books;
use crate::ring::Ring;
use crate::slots::{long, place};

// How many of the n packets from low on stand before the first whose bit is set.
pub(crate) fn front(words: &[u64], low: u32, n: u32) -> u32
    requires word_bits_value { is_capacity (length words.now * word_bits) ≡ true }
    requires n_in_bounds { n ≤ length words.now * word_bits }
    ensures { (result ≡ lowest (λ k. bit_at words.now (place_of (length words.now * word_bits) low k)) n) × (result ≤ n) }
{
    let cap = words.len() * bits::WORD_BITS;
    let mut k: u32 = 0;
    // A `while`: k goes on by what is left of low's word first, and by whole words after it, which no range does.
    while k < n {
        let i = place(cap, serial::psn_plus(low, k));
        let r = i % bits::WORD_BITS;
        let j = bits::first(words[i / bits::WORD_BITS] >> r);
        if j < bits::WORD_BITS as u32 {
            let at = k + j;
            if at < n {
                return at;
            }
            return n;
        }
        k += (bits::WORD_BITS - r) as u32;
    }
    n
}

// The first marked PSN from psn on; next where there is none, or where psn is not one of low..next-1.
pub fn next_marked(books: Books, ring: Ring<'_>, psn: u32) -> u32
    requires { SoundLedger (ledger_shown books.flow books.totals (memory_of ring)) }
    ensures { result ≡ next_marked_of books.flow
        (shown books.flow.low books.flow.next (memory_of ring.entry)) psn }
{
    let n = long(books.flow);
    let offset = serial::psn_minus(psn, books.flow.low);
    if offset < n {
        return serial::psn_plus(psn, front(ring.marked, psn, n - offset));
    }
    books.flow.next
}
