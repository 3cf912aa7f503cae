// The ring of a flow, as it is lent (request M-109): to be read, to be changed, or to have its marked bits changed.
ghost use Rattle.std.specs.Prelude.{◌≡◌};
ghost use Rattle.ledger.specs.Lent.{memory_of, memory_of_mut, memory_of_marks};

// A bit a slot of those outstanding and one of those marked, in words of 64; a slot's size and resend count in one number; its send time.
// That the slices go together is no part of the type: `sound::stands` finds out, and each step says what it needs.
#[derive(Clone, Copy)]
pub struct Ring<'a> {
    pub outstanding: &'a [u64],
    pub marked: &'a [u64],
    pub sizes: &'a [u32],
    pub sent: &'a [u64],
}

// The same, to be changed.
#[derive(Drop)]
pub struct RingMut<'a> {
    pub outstanding: &'a mut [u64],
    pub marked: &'a mut [u64],
    pub sizes: &'a mut [u32],
    pub sent: &'a mut [u64],
}

impl RingMut<'_> {
    // As it stands, to be read.
    pub fn look(&self) -> Ring<'_>
        ensures { memory_of result ≡ memory_of_mut self.now }
    {
        Ring {
            outstanding: self.outstanding,
            marked: self.marked,
            sizes: self.sizes,
            sent: self.sent,
        }
    }
}

// The same, of which the marked bits alone may be changed: all that a NACK and a loss write.
#[derive(Drop)]
pub struct RingMarks<'a> {
    pub outstanding: &'a [u64],
    pub marked: &'a mut [u64],
    pub sizes: &'a [u32],
    pub sent: &'a [u64],
}

impl RingMarks<'_> {
    // As it stands, to be read.
    pub fn look(&self) -> Ring<'_>
        ensures { memory_of result ≡ memory_of_marks self.now }
    {
        let marked: &[u64] = self.marked;
        Ring {
            outstanding: self.outstanding,
            marked,
            sizes: self.sizes,
            sent: self.sent,
        }
    }
}
