// Bits of 64-bit words, one bit a slot: "slot i's bit is bit i mod 64 of word i/64". Request M-109. Inner steps: the caller proves that
// there is the bit, or the word.
#![tactic(auto)]

ghost use Rattle.std.specs.Prelude.{◌≡◌, ◌*◌, ◌≤◌, ◌<◌, length};
ghost use Rattle.bits.specs.Bits.{word_bits, bit, bit_at, put_bit, without, count_in, lowest};

// The bits of a word.
pub const WORD_BITS: usize = 64;

// Whether bit i is set.
pub fn is_set(words: &[u64], i: usize) -> bool
    requires { i < length words.now * word_bits }
    ensures { result ≡ bit_at words.now i }
{
    let w = words[i / WORD_BITS];
    (w >> (i % WORD_BITS)) % 2 == 1
}

// Bit i becomes b, with no branch.
pub fn put(words: &mut [u64], i: usize, b: bool)
    requires { i < length words.old * word_bits }
    ensures { words.new ≡ put_bit words.old i b }
{
    let q = i / WORD_BITS;
    let r = i % WORD_BITS;
    let w = words[q];
    words[q] = (w & !(1 << r)) | ((b as u64) << r);
}

// The word without the mask's bits.
pub fn clear(word: u64, mask: u64) -> u64
    ensures { result ≡ without word mask }
{
    word & !mask
}

// How many of the mask's bits are set in the word.
pub fn count(word: u64, mask: u64) -> u32
    ensures { (result ≡ count_in word mask) × (result ≤ word_bits) }
{
    u64::count_ones(word & mask)
}

// The lowest set bit; 64 where none is set.
pub fn first(word: u64) -> u32
    ensures { (result ≡ lowest (bit word) word_bits) × (result ≤ word_bits) }
{
    u64::trailing_zeros(word)
}
