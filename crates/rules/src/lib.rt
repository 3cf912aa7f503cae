// Choices by a test: the lesser and the greater of two numbers, whether a number lies in a range, and modes; and what a judge answers.
#![tactic(auto)]

pub mod verdict;

ghost use Rattle.std.specs.Prelude.{◌≡◌, min, max};
ghost use Rattle.rules.specs.Test.{inside};
ghost use Rattle.rules.specs.Mode.{is_on, is_mode, mode_of};

// A mode of the state. It is a number of 32 bits, and two stand beside each other, so that the state has no gaps: docs/PERFORMANCE.md,
// "A state with no gaps".
pub const OFF: u32 = 0;

pub const ON: u32 = 1;

// The lesser of two.
pub fn least(a: u64, b: u64) -> u64
    ensures { result ≡ min a b }
{
    if a < b { a } else { b }
}

// The greater of two.
pub fn most(a: u64, b: u64) -> u64
    ensures { result ≡ max a b }
{
    if a < b { b } else { a }
}

// Whether x lies in low..high, both ends included.
pub fn within(low: u64, x: u64, high: u64) -> bool
    ensures { result ≡ inside low x high }
{
    (low <= x) & (x <= high)
}

// Whether a mode is on.
pub fn is_on(mode: u32) -> bool
    ensures { result ≡ is_on mode }
{
    mode == ON
}

// Whether a number is a mode at all, on or off.
pub fn is_mode(mode: u32) -> bool
    ensures { result ≡ is_mode mode }
{
    mode <= ON
}

// A mode by a test.
pub fn mode_of(on: bool) -> u32
    ensures { result ≡ mode_of on }
{
    if on { ON } else { OFF }
}
