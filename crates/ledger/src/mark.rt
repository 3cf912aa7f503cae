// A NACK or a loss: the packet leaves the flying ones and waits to be sent again. An inner step: the caller proves that the ledger holds
// together and that the packet flies.
ghost use Rattle.std.specs.Prelude.{◌≡◌, true};
ghost use Rattle.ledger.specs.Lent.{memory_of_marks, IsSameMarks};
ghost use Rattle.ledger.specs.Memory.{shown, ledger_shown, kept, kept_of};
ghost use Rattle.ledger.specs.Packets.{is_flying};
ghost use Rattle.ledger.specs.Ring.{packet_of};
ghost use Rattle.ledger.specs.Sound.{SoundLedger};
ghost use Rattle.ledger.specs.Steps.{mark_of};

use crate::judge::less;
use crate::ring::RingMarks;
use crate::slots::{find, place};
use crate::{Books, Totals};

// Flying becomes marked; in-flight falls by the recorded size.
pub fn mark(psn: u32, books: Books, ring: &mut RingMarks<'_>) -> Books
    requires sound_ledger { SoundLedger (ledger_shown books.flow books.totals (memory_of_marks ring.old)) }
    requires psn_value { is_flying (packet_of books.flow (shown books.flow.low books.flow.next (memory_of_marks ring.old)) psn) ≡ true }
    ensures same_loan { IsSameMarks ring.old ring.new }
    ensures kept { kept result.flow result.totals (memory_of_marks ring.new)
        ≡ kept_of (mark_of psn (ledger_shown books.flow books.totals (memory_of_marks ring.old))) }
{
    let Books { flow, totals } = books;
    let x = find(flow, ring.look(), psn);
    let bytes = x.size as u64;
    let i = place(ring.sent.len(), psn);
    bits::put(ring.marked, i, true);
    Books {
        flow,
        totals: Totals {
            flying: totals.flying - 1,
            marked: totals.marked + 1,
            marked_bytes: totals.marked_bytes + bytes,
            in_flight: less(totals.in_flight, bytes),
            ..totals
        },
    }
}
