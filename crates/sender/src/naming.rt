// The state's name.
ghost use Rattle.std.specs.Prelude.{◌≡◌, ◌≤◌, ◌^◌};
ghost use Rattle.ledger.specs.Bounds.{Flown};
ghost use Rattle.sender.specs.Named.{has_room, phase_of};
ghost use Rattle.sender.specs.Steps.{state_of};

use crate::Controller;
use ledger::{Flow, Totals};
use window::{Settings, Window};

// Whether in-flight + MTU is at most cwnd. An inner step: the caller proves the bounds.
pub fn has_room(mtu: u64, cwnd: u64, in_flight: i64) -> bool
    requires flown { Flown (2 ^ 26) in_flight }
    requires mtu_bound { (mtu ≤ 2 ^ 14) × (cwnd ≤ 2 ^ 26) }
    ensures { result ≡ has_room mtu cwnd in_flight }
{
    in_flight + mtu as i64 <= cwnd as i64
}

// The name that the rule gives, over the totals of all flows: READY or ACTIVE where something waits, else IDLE or PENDING, and the second
// of the two where there is no room, or where something flies. Without a branch a replay can leave it out of its loop (docs/DECISIONS.md).
// An inner step: the caller proves the bounds.
pub fn phase_of(mtu: u64, cwnd: u64, totals: Totals) -> u32
    requires flown { Flown (2 ^ 26) totals.in_flight }
    requires mtu_bound { (mtu ≤ 2 ^ 14) × (cwnd ≤ 2 ^ 26) }
    ensures { result ≡ phase_of mtu cwnd totals }
{
    let waits = (totals.backlog != 0) | (totals.marked != 0);
    let room = has_room(mtu, cwnd, totals.in_flight);
    let second = (waits & !room) | (!waits & (totals.flying != 0));
    crate::READY * rules::mode_of(waits) + rules::mode_of(second)
}

// The state at a time, named.
pub(crate) fn state_of(
    settings: Settings,
    flow: Flow,
    totals: Totals,
    window: Window,
    time: u64,
    cursor: u32,
) -> Controller
    requires flown { Flown (2 ^ 26) totals.in_flight }
    requires mtu_bound { (settings.mtu ≤ 2 ^ 14) × (window.cwnd ≤ 2 ^ 26) }
    ensures { result ≡ state_of settings flow totals window time cursor }
{
    let phase = phase_of(settings.mtu, window.cwnd, totals);
    Controller {
        settings,
        flow,
        totals,
        window,
        clock: time,
        cursor,
        phase,
    }
}
