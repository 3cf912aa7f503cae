// Quick adapt, as this house has it (H). UET 3.6.13.6, quick_adapt.
ghost use Rattle.std.specs.Prelude.{◌≡◌, ◌≤◌, ◌<◌};
ghost use Rattle.window.specs.Limits.{delay_most, time_end};
ghost use Rattle.window.specs.Quick.{above_zero, fires_of, fire_of, restart_of, quick_adapt_of};

use crate::{Adapted, Settings, Window};
use rules::{OFF, is_on, most};

// max(in-flight, 0).
fn above_zero(in_flight: i64) -> u64
    ensures { result ≡ above_zero in_flight }
{
    if in_flight < 0 {
        return 0;
    }
    in_flight as u64
}

// end ≠ 0, M set, trigger or loss or delay > qa_threshold, and achieved < cwnd.
fn fires(s: Settings, loss: bool, marked: bool, delay: u64, w: Window) -> bool
    ensures { result ≡ fires_of s loss marked delay w }
{
    let triggered = is_on(w.trigger);
    (w.qa_end != 0) & marked & (triggered | loss | (delay > s.qa_threshold)) & (w.achieved < w.cwnd)
}

// cwnd = max(achieved, MTU), bytes_to_ignore = max(in-flight, 0), ignored 0, trigger off, mode off, fi_count 0.
fn fire(s: Settings, in_flight: i64, w: Window) -> Window
    ensures { result ≡ fire_of s in_flight w }
{
    Window {
        cwnd: most(w.achieved, s.mtu),
        bytes_to_ignore: above_zero(in_flight),
        ignored: 0,
        trigger: OFF,
        fast: OFF,
        fi_count: 0,
        ..w
    }
}

// achieved 0, end = now + base + target: the next round.
fn restart(s: Settings, time: u64, w: Window) -> Window
    requires { (time < time_end) × (w.base ≤ delay_most) × (s.target_qdelay ≤ delay_most) }
    ensures { result ≡ restart_of s time w }
{
    Window {
        achieved: 0,
        qa_end: time + w.base + s.target_qdelay,
        ..w
    }
}

// Nothing if disabled or now < end; else it fires or not, and starts its next round. On a loss or not, with the M flag and the delay.
pub(crate) fn quick_adapt(
    s: Settings,
    time: u64,
    loss: bool,
    marked: bool,
    delay: u64,
    in_flight: i64,
    w: Window,
) -> Adapted
    requires { (time < time_end) × (w.base ≤ delay_most) × (s.target_qdelay ≤ delay_most) }
    ensures { result ≡ quick_adapt_of s time loss marked delay in_flight w }
{
    if is_on(s.quick_adapt_off) | (time < w.qa_end) {
        return Adapted {
            window: w,
            fired: false,
        };
    }
    if fires(s, loss, marked, delay, w) {
        return Adapted {
            window: restart(s, time, fire(s, in_flight, w)),
            fired: true,
        };
    }
    Adapted {
        window: restart(s, time, w),
        fired: false,
    }
}
