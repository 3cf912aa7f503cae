// What an ACK, a NACK and a loss do to the window. Inner steps: the caller shows that the settings are in range and the window is sound at
// the event's time, and what the ledger's step gives (newly below 2^31, in-flight at most MaxWnd, a packet's size at most MTU).
ghost use Rattle.std.specs.Prelude.{◌≡◌, ◌≤◌, ◌<◌};
ghost use Rattle.window.specs.Limits.{time_end, newly_end};
ghost use Rattle.window.specs.Range.{InRange};
ghost use Rattle.window.specs.Sound.{SoundWindow, Kept};
ghost use Rattle.window.specs.Delays.{Sampled};
ghost use Rattle.window.specs.Quick.{above_zero};
ghost use Rattle.window.specs.Events.{ack_of, shrink_of, loss_of, is_trimmed, nack_of};

use crate::adjust::adjust;
use crate::cases::{add_to_tally, count_newly, respond};
use crate::delay::{measure, update_base_rtt, update_delay};
use crate::quick::quick_adapt;
use crate::{Adapted, Settings, Window};
use rules::{ON, most};

// The window after an ACK that brings newly bytes: the tallies, the sample and the filter, quick adapt, and unless it fired the four cases
// and the adjustment. UET 3.6.13.5, OnACK.
pub fn ack(
    s: Settings,
    time: u64,
    newly: u64,
    marked: bool,
    sample: Option<u64>,
    in_flight: i64,
    w: Window,
) -> Window
    requires in_range { InRange s }
    requires sound_window { SoundWindow s time w }
    requires sampled { Sampled sample }
    requires newly_lt_newly_end { (newly < newly_end) × (time < time_end) × (above_zero in_flight ≤ s.maxwnd) }
    ensures { Kept s time (ack_of s time newly marked sample in_flight w) result }
{
    let d = measure(s, marked, sample, count_newly(newly, w));
    let delay = d.delay;
    let v = d.window;
    let a = quick_adapt(s, time, false, marked, delay, in_flight, v);
    let u = a.window;
    if a.fired {
        return u;
    }
    adjust(s, time, respond(s, time, newly, marked, delay, u))
}

// cwnd = max(cwnd - size, MTU), unless quick adapt fired.
fn shrink(s: Settings, size: u64, a: Adapted) -> Window
    requires { size ≤ a.window.cwnd }
    ensures { result ≡ shrink_of s size a }
{
    let w = a.window;
    if a.fired {
        return w;
    }
    Window {
        cwnd: most(w.cwnd - size, s.mtu),
        ..w
    }
}

// The window after the loss of a packet of size bytes, or once it is trimmed: ignored += size, trigger on, quick adapt, and unless it fired
// cwnd falls by the size. UET 3.6.13.5, OnInferredLoss and OnNACK.
pub fn loss(s: Settings, time: u64, size: u64, in_flight: i64, w: Window) -> Window
    requires in_range { InRange s }
    requires sound_window { SoundWindow s time w }
    requires size_le_mtu { (size ≤ s.mtu) × (time < time_end) × (above_zero in_flight ≤ s.maxwnd) }
    ensures { Kept s time (loss_of s time size in_flight w) result }
{
    let n = Window {
        ignored: add_to_tally(w.ignored, size),
        trigger: ON,
        ..w
    };
    shrink(s, size, quick_adapt(s, time, true, true, 0, in_flight, n))
}

// A reason of 0, trimmed, or 1, trimmed at the last hop.
fn is_trimmed(reason: u64) -> bool
    ensures { result ≡ is_trimmed reason }
{
    reason <= crate::TRIMMED_LAST_HOP
}

// The window after a NACK of a packet of size bytes: the sample and the base; where it was trimmed, config_base_rtt is fed, and the rest
// is as of a loss. UET 3.6.13.5, OnNACK.
pub fn nack(
    s: Settings,
    time: u64,
    size: u64,
    reason: u64,
    sample: Option<u64>,
    in_flight: i64,
    w: Window,
) -> Window
    requires in_range { InRange s }
    requires sound_window { SoundWindow s time w }
    requires sampled { Sampled sample }
    requires size_le_mtu { (size ≤ s.mtu) × (time < time_end) × (above_zero in_flight ≤ s.maxwnd) }
    ensures { Kept s time (nack_of s time size reason sample in_flight w) result }
{
    let v = update_base_rtt(s, sample, w);
    if is_trimmed(reason) {
        let n = Window {
            avg: update_delay(v.avg, s.config_base_rtt),
            ..v
        };
        return loss(s, time, size, in_flight, n);
    }
    v
}
