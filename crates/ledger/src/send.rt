// New data, a new packet, and a resend. Inner steps: the caller proves that the ledger holds together and that no row refuses the event.
ghost use Rattle.std.specs.Prelude.{◌≡◌, ◌+◌, ◌^◌, ◌<◌, ◌≤◌, min, true, pos, ◌+ℤ◌};
ghost use Rattle.ledger.specs.Lent.{memory_of_mut, IsSameLoan};
ghost use Rattle.ledger.specs.Memory.{size_end, slots_of, shown, ledger_shown, kept, kept_of};
ghost use Rattle.ledger.specs.Packets.{is_marked};
ghost use Rattle.ledger.specs.Bounds.{backlog_most, resent_most, Flown};
ghost use Rattle.ledger.specs.Ring.{long_of, packet_of};
ghost use Rattle.ledger.specs.Sound.{SoundLedger};
ghost use Rattle.ledger.specs.Steps.{supplied, supplied_totals, push_of, resend_of};

use crate::ring::RingMut;
use crate::slots::{find, fly, place};
use crate::{Books, Flow, Totals};

// New data: the backlog rises, and the total over all flows with it.
pub fn supply(bytes: u64, books: Books) -> Books
    requires { (books.flow.backlog + bytes ≤ backlog_most) × (books.totals.backlog < 2 ^ 62) }
    ensures { (result.flow ≡ supplied bytes books.flow) × (result.totals ≡ supplied_totals bytes books.totals) }
{
    let Books { flow, totals } = books;
    Books {
        flow: Flow {
            backlog: flow.backlog + bytes,
            ..flow
        },
        totals: Totals {
            backlog: totals.backlog + bytes,
            ..totals
        },
    }
}

// In-flight, higher by some bytes.
fn more(in_flight: i64, bytes: u64) -> i64
    requires flown { Flown (2 ^ 26) in_flight }
    requires bytes_bound { bytes < 2 ^ 32 }
    ensures { result ≡ in_flight +ℤ pos bytes }
{
    in_flight + bytes as i64
}

// A new packet behind the others.
pub fn push(time: u64, bytes: u32, books: Books, ring: &mut RingMut<'_>) -> Books
    requires sound_ledger { SoundLedger (ledger_shown books.flow books.totals (memory_of_mut ring.old)) }
    requires bytes_le_backlog { (bytes ≤ books.flow.backlog) × (bytes < size_end) }
    requires flow_bound { long_of books.flow < slots_of (memory_of_mut ring.old) }
    ensures same_loan { IsSameLoan ring.old ring.new }
    ensures kept { kept result.flow result.totals (memory_of_mut ring.new)
        ≡ kept_of (push_of time bytes (ledger_shown books.flow books.totals (memory_of_mut ring.old))) }
{
    let Books { flow, totals } = books;
    let i = place(ring.sent.len(), flow.next);
    fly(ring, i, bytes, 0, time);
    Books {
        flow: Flow {
            next: serial::psn_plus(flow.next, 1),
            backlog: flow.backlog - bytes as u64,
            ..flow
        },
        totals: Totals {
            flying: totals.flying + 1,
            backlog: totals.backlog - bytes as u64,
            in_flight: more(totals.in_flight, bytes as u64),
            ..totals
        },
    }
}

// The resend count, up by one and stopping at 2.
fn once_more(resent: u32) -> u32
    requires { resent ≤ resent_most }
    ensures { result ≡ min (resent + 1) resent_most }
{
    if resent < crate::RESENT_MOST {
        return resent + 1;
    }
    crate::RESENT_MOST
}

// A marked packet flies again.
pub fn resend(time: u64, psn: u32, books: Books, ring: &mut RingMut<'_>) -> Books
    requires sound_ledger { SoundLedger (ledger_shown books.flow books.totals (memory_of_mut ring.old)) }
    requires psn_value { is_marked (packet_of books.flow (shown books.flow.low books.flow.next
        (memory_of_mut ring.old)) psn)
        ≡ true }
    ensures same_loan { IsSameLoan ring.old ring.new }
    ensures kept { kept result.flow result.totals (memory_of_mut ring.new)
        ≡ kept_of (resend_of time psn (ledger_shown books.flow books.totals (memory_of_mut ring.old))) }
{
    let Books { flow, totals } = books;
    let x = find(flow, ring.look(), psn);
    let bytes = x.size as u64;
    let i = place(ring.sent.len(), psn);
    fly(ring, i, x.size, once_more(x.resent), time);
    Books {
        flow,
        totals: Totals {
            flying: totals.flying + 1,
            marked: totals.marked - 1,
            marked_bytes: totals.marked_bytes - bytes,
            in_flight: more(totals.in_flight, bytes),
            ..totals
        },
    }
}
