// Refusal 2 of the EV times: "an EV time of 2^49 or more".
ghost use Rattle.std.specs.Prelude.{◌≡◌};
ghost use Rattle.sender.specs.Sound.{times_ok};

// How many EV times a block has.
const BLOCK: usize = 64;

// Whether no EV time of a block is 2^49 or more: all of them together have a bit from there on exactly if one has. Every time is looked at:
// without a way out of the loop the compiler takes several at once.
fn block_ok(block: &[u64]) -> bool
    ensures { result ≡ times_ok block.now }
{
    let mut all: u64 = 0;
    for &time in block {
        all |= time;
    }
    all < window::LATER_END
}

// Whether no EV time is 2^49 or more: block by block, since of a loop whose number of turns it knows the compiler makes straight code.
pub fn times_ok(evs: &[u64]) -> bool
    ensures { result ≡ times_ok evs.now }
{
    let (blocks, rest) = evs.as_chunks::<BLOCK>();
    for block in blocks {
        if !block_ok(block) {
            return false;
        }
    }
    block_ok(rest)
}
