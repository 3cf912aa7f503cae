// One slot of a world changed, by its word. Slot i has bit i mod 64 of word i/64 of each kind; its size and its resend count are the lower
// and the upper half of one number.
use crate::fields::narrow;
use crate::words::Slot;
use crate::worlds::{World, at, put};

// The lower half of a slot's number.
const HALF: u32 = 65535;

// Where a slot's bit stands in its word.
fn bit(slot: usize) -> u64 {
    1 << (slot % 64)
}

fn set_bit(bits: &mut [u64], slot: usize, on: bool) {
    let word = at(bits, slot / 64);
    let word = if on {
        word | bit(slot)
    } else {
        word & !bit(slot)
    };
    put(bits, slot / 64, word);
}

pub(crate) fn is_set(bits: &[u64], slot: usize) -> bool {
    at(bits, slot / 64) & bit(slot) != 0
}

impl World {
    // The bits of a status: 1 is flying, 2 marked; 3, done, has neither, as an empty slot.
    fn set_status(&mut self, slot: usize, n: u64) {
        set_bit(&mut self.outstanding, slot, (n == 1) | (n == 2));
        set_bit(&mut self.marked, slot, n == 2);
    }

    // A slot with a packet that was never resent.
    pub(crate) fn set_flying(&mut self, slot: usize, size: u32, sent: u64) {
        put(&mut self.sizes, slot, size);
        put(&mut self.sent, slot, sent);
        set_bit(&mut self.outstanding, slot, true);
    }

    // A slot as it is where there is no packet.
    pub(crate) fn clear(&mut self, slot: usize) {
        put(&mut self.sizes, slot, 0);
        put(&mut self.sent, slot, 0);
        self.set_status(slot, 0);
    }

    // A slot's bit or number, or an EV's time.
    pub(crate) fn set_slot(&mut self, word: Slot, slot: u64, n: u64) {
        let k = slot as usize;
        let number = at(&self.sizes, k);
        match word {
            Slot::Status => self.set_status(k, n),
            Slot::Size => put(&mut self.sizes, k, (number & !HALF) | (narrow(n) & HALF)),
            Slot::Sent => put(&mut self.sent, k, n),
            Slot::Resent => put(&mut self.sizes, k, (number & HALF) | (narrow(n) << 16)),
            Slot::OutstandingBit => set_bit(&mut self.outstanding, k, n != 0),
            Slot::MarkedBit => set_bit(&mut self.marked, k, n != 0),
            Slot::Number => put(&mut self.sizes, k, narrow(n)),
            Slot::EvTime => put(&mut self.evs, k, n),
        }
    }
}
