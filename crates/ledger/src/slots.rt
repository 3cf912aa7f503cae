// Slots of the ring: where a PSN lives, what its slot shows. Inner steps: the caller proves that the slices' lengths go together.
ghost use Rattle.std.specs.Prelude.{◌≡◌, ◌*◌, ◌%◌, ◌<◌, ◌≤◌, true, false, length, slice_set};
ghost use Rattle.bits.specs.Bits.{word_bits, bit_at, put_bit};
ghost use Rattle.ledger.specs.Bounds.{resent_most};
ghost use Rattle.ledger.specs.Lent.{memory_of, memory_of_mut, IsSameLoan};
ghost use Rattle.ledger.specs.Memory.{memory, AreWords, shown, status_of, size_end, packed, size_in, resent_in};
ghost use Rattle.ledger.specs.Ring.{long_of, packet_of};
ghost use Rattle.ledger.specs.Sound.{is_capacity, Lengths};

use crate::ring::{Ring, RingMut};
use crate::{Flow, Packet};

// The slot of a PSN: "capacity a power of two", so that the remainder is a mask.
pub(crate) fn place(cap: usize, psn: u32) -> usize
    requires { is_capacity cap ≡ true }
    ensures { (result ≡ psn % cap) × (result < cap) }
{
    psn as usize & (cap - 1)
}

// next - low: how many packets the ledger has.
pub(crate) fn long(flow: Flow) -> u32
    ensures { result ≡ long_of flow }
{
    serial::psn_minus(flow.next, flow.low)
}

// The status that the two bits of a slot in low..next-1 show.
fn status_of(out: bool, mark: bool) -> u8
    ensures { result ≡ status_of true out mark }
{
    if out {
        if mark {
            return crate::MARKED;
        }
        return crate::FLYING;
    }
    if mark {
        return crate::NO_STATUS;
    }
    crate::DONE
}

// The status of slot i, which is one of low..next-1. That the words have 64 bits is known here, of the slices, and not of a ring's fields.
fn status_at(outstanding: &[u64], marked: &[u64], i: usize) -> u8
    requires { (i < length outstanding.now * word_bits) × (length marked.now ≡ length outstanding.now) }
    ensures status { result ≡ status_of true (bit_at outstanding.now i) (bit_at marked.now i) }
    ensures words { AreWords outstanding.now × AreWords marked.now }
{
    status_of(bits::is_set(outstanding, i), bits::is_set(marked, i))
}

// The size of a slot's number.
pub(crate) fn size_in(w: u32) -> u32
    ensures { (result ≡ size_in w) × (result < size_end) }
{
    w % crate::SIZE_END
}

// The resend count of a slot's number.
fn resent_in(w: u32) -> u32
    ensures { result ≡ resent_in w }
{
    w / crate::SIZE_END
}

// The packet of a PSN; all zero outside low..next-1.
pub fn find(flow: Flow, ring: Ring<'_>, psn: u32) -> Packet
    requires { Lengths (memory_of ring) }
    ensures { result ≡ packet_of flow (shown flow.low flow.next (memory_of ring.entry)) psn }
{
    let offset = serial::psn_minus(psn, flow.low);
    if offset < long(flow) {
        let i = place(ring.sent.len(), psn);
        let status = status_at(ring.outstanding, ring.marked, i);
        let w = ring.sizes[i];
        return Packet {
            status,
            size: size_in(w),
            sent: ring.sent[i],
            resent: resent_in(w),
        };
    }
    Packet {
        status: crate::EMPTY,
        size: 0,
        sent: 0,
        resent: 0,
    }
}

// Slot i holds a packet that flies: outstanding and not marked.
pub(crate) fn fly(ring: &mut RingMut<'_>, i: usize, bytes: u32, resent: u32, time: u64)
    requires lengths { Lengths (memory_of_mut ring.old) }
    requires i_in_bounds { (i < length ring.old.outstanding.now * word_bits) × (bytes < size_end) × (resent ≤ resent_most) }
    ensures same_loan { IsSameLoan ring.old ring.new }
    ensures memory { memory_of_mut ring.new
        ≡ memory (put_bit ring.old.outstanding.now i true) (put_bit ring.old.marked.now i false)
        (slice_set ring.old.sizes.now i (packed bytes resent)) (slice_set ring.old.sent.now i time) }
{
    bits::put(ring.outstanding, i, true);
    bits::put(ring.marked, i, false);
    ring.sizes[i] = bytes + crate::SIZE_END * resent;
    ring.sent[i] = time;
}
