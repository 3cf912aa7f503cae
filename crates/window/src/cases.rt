// The four cases by M flag and delay, and the tallies that come before them. The rules bear their names in UET 3.6.13.6.
ghost use Rattle.std.specs.Prelude.{◌≡◌, ◌≤◌, ◌<◌};
ghost use Rattle.window.specs.Limits.{parts, window_most, avg_most, tally_stop, inc_stop, newly_end};
ghost use Rattle.window.specs.Range.{InRange};
ghost use Rattle.window.specs.Sound.{SoundWindow};
ghost use Rattle.window.specs.Cases.{add_to_tally_of, count_newly_of, leave_fast_mode_of, raise_cwnd_of, is_near, fast_increase_of};
ghost use Rattle.window.specs.Cases.{add_inc_bytes_of, proportional_increase_of, fair_increase_of};
ghost use Rattle.window.specs.Cases.{factor_of, may_decrease, multiplicative_decrease_of, respond_of};

use crate::bounds::max_wnd;
use crate::delay::avg_delay;
use crate::{Settings, Window};
use rules::{OFF, ON, is_on, least, most};

// A tally and n bytes more, stopping at 2^40.
pub(crate) fn add_to_tally(x: u64, n: u64) -> u64
    requires { (x ≤ tally_stop) × (n < newly_end) }
    ensures { result ≡ add_to_tally_of x n }
{
    least(x + n, crate::TALLY_STOP)
}

// ignored, received and achieved += newly. UET 3.6.13.5, the start of OnACK.
pub(crate) fn count_newly(newly: u64, w: Window) -> Window
    requires { (w.ignored ≤ tally_stop) × (w.received ≤ tally_stop) × (w.achieved ≤ tally_stop) × (newly < newly_end) }
    ensures { result ≡ count_newly_of newly w }
{
    Window {
        ignored: add_to_tally(w.ignored, newly),
        received: add_to_tally(w.received, newly),
        achieved: add_to_tally(w.achieved, newly),
        ..w
    }
}

// Fast mode off, fi_count 0.
fn leave_fast_mode(w: Window) -> Window
    ensures { result ≡ leave_fast_mode_of w }
{
    Window {
        fast: OFF,
        fi_count: 0,
        ..w
    }
}

// cwnd += newly, up to max_wnd.
fn raise_cwnd(s: Settings, newly: u64, w: Window) -> Window
    requires in_range { InRange s }
    requires cwnd_le_window_most { (w.cwnd ≤ window_most) × (newly < newly_end) × (w.base ≤ s.config_base_rtt) }
    ensures { result ≡ raise_cwnd_of s newly w }
{
    Window {
        cwnd: least(w.cwnd + newly, max_wnd(s, w.base)),
        ..w
    }
}

// delay ≤ base/8.
fn is_near(delay: u64, base: u64) -> bool
    ensures { result ≡ is_near delay base }
{
    delay <= base / crate::NEAR_PART
}

// Near and fast mode on: cwnd += newly. Near and off: fi_count += newly; if above cwnd, mode on and cwnd += newly.
// Not near: mode off, fi_count 0. UET 3.6.13.6, fast_increase.
fn fast_increase(s: Settings, newly: u64, delay: u64, w: Window) -> Window
    requires in_range { InRange s }
    requires cwnd_le_window_most { (w.cwnd ≤ window_most) × (newly < newly_end) × (w.fi_count ≤ tally_stop) × (w.base ≤ s.config_base_rtt) }
    ensures { result ≡ fast_increase_of s newly delay w }
{
    if is_near(delay, w.base) {
        if is_on(w.fast) {
            return raise_cwnd(s, newly, w);
        }
        let more = add_to_tally(w.fi_count, newly);
        if more > w.cwnd {
            return Window {
                fi_count: more,
                fast: ON,
                ..raise_cwnd(s, newly, w)
            };
        }
        return Window {
            fi_count: more,
            ..w
        };
    }
    leave_fast_mode(w)
}

// inc_bytes += n, stopping at 2^60.
fn add_inc_bytes(n: u64, w: Window) -> Window
    requires { (w.inc_bytes ≤ inc_stop) × (n ≤ inc_stop) }
    ensures { result ≡ add_inc_bytes_of n w }
{
    Window {
        inc_bytes: least(w.inc_bytes + n, crate::INC_STOP),
        ..w
    }
}

// Fast increase; then, where the mode is off, inc_bytes += alpha·newly·(target - delay).
// UET 3.6.13.6, proportional_increase.
fn proportional_increase(s: Settings, newly: u64, delay: u64, w: Window) -> Window
    requires in_range { InRange s }
    requires cwnd_le_window_most { (w.cwnd ≤ window_most) × (newly < newly_end) × (w.fi_count ≤ tally_stop) × (w.base ≤ s.config_base_rtt)
        × (w.inc_bytes ≤ inc_stop) × (delay < s.target_qdelay) }
    ensures { result ≡ proportional_increase_of s newly delay w }
{
    let v = fast_increase(s, newly, delay, w);
    if is_on(v.fast) {
        return v;
    }
    add_inc_bytes(s.alpha * newly * (s.target_qdelay - delay), v)
}

// Mode off, fi_count 0; inc_bytes += fi·newly. UET 3.6.13.6, fair_increase.
fn fair_increase(s: Settings, newly: u64, w: Window) -> Window
    requires in_range { InRange s }
    requires inc_bytes_bound { (w.inc_bytes ≤ inc_stop) × (newly < newly_end) }
    ensures { result ≡ fair_increase_of s newly w }
{
    add_inc_bytes(s.fi * newly, leave_fast_mode(w))
}

// max(1,024 - gamma·(avg - target)/avg, max_md_jump): how many parts of 1,024 a cut leaves of the window.
fn factor(s: Settings, avg: u64) -> u64
    requires { (s.gamma ≤ parts) × (s.target_qdelay < avg) × (avg ≤ avg_most) }
    ensures { result ≡ factor_of s avg }
{
    most(
        crate::PARTS - s.gamma * (avg - s.target_qdelay) / avg,
        s.max_md_jump,
    )
}

// Not ignored < bytes_to_ignore, and avg > target, and now - last_dec > base.
fn may_decrease(s: Settings, time: u64, w: Window) -> bool
    requires { w.last_dec ≤ time }
    ensures { result ≡ may_decrease s time w }
{
    !(w.ignored < w.bytes_to_ignore)
        & (avg_delay(w.avg) > s.target_qdelay)
        & (time - w.last_dec > w.base)
}

// Mode off, fi_count 0; then, if the window may decrease, cwnd = max(cwnd·factor/1,024, MTU), last_dec = now.
// UET 3.6.13.6, multiplicative_decrease.
fn multiplicative_decrease(s: Settings, time: u64, w: Window) -> Window
    requires in_range { InRange s }
    requires sound_window { SoundWindow s time w }
    ensures { result ≡ multiplicative_decrease_of s time w }
{
    let n = leave_fast_mode(w);
    if may_decrease(s, time, w) {
        let left = factor(s, avg_delay(w.avg));
        return Window {
            cwnd: most(w.cwnd * left / crate::PARTS, s.mtu),
            last_dec: time,
            ..n
        };
    }
    n
}

// The four cases: M clear, and M set; in each delay < target, and delay ≥ target. UET 3.6.13.5, OnACK.
pub(crate) fn respond(
    s: Settings,
    time: u64,
    newly: u64,
    marked: bool,
    delay: u64,
    w: Window,
) -> Window
    requires in_range { InRange s }
    requires sound_window { SoundWindow s time w }
    requires newly_lt_newly_end { newly < newly_end }
    ensures { result ≡ respond_of s time newly marked delay w }
{
    let target = s.target_qdelay;
    if !marked {
        if delay < target {
            return proportional_increase(s, newly, delay, w);
        }
        return fair_increase(s, newly, w);
    }
    if delay < target {
        return leave_fast_mode(w);
    }
    multiplicative_decrease(s, time, w)
}
