// The ranges of the settings, the bounds of the window's numbers, and the fresh window.
ghost use Rattle.std.specs.Prelude.{◌≡◌, ◌≤◌};
ghost use Rattle.window.specs.Limits.{max_wnd_of};
ghost use Rattle.window.specs.Range.{is_ev_count, in_range, InRange};
ghost use Rattle.window.specs.Sound.{sound_window, fresh_of};

use crate::{Settings, Window};
use rules::{OFF, is_mode, most, within};

// max(MTU, MaxWnd·base/config_base_rtt): max_wnd at a base round trip, by request M-101. UET 3.6.13.6, update_base_rtt.
// An inner step: in these bounds the product does not overflow.
pub(crate) fn max_wnd(s: Settings, base: u64) -> u64
    requires in_range { InRange s }
    requires base_bound { base ≤ s.config_base_rtt }
    ensures { result ≡ max_wnd_of s base }
{
    most(s.mtu, s.maxwnd * base / s.config_base_rtt)
}

// Whether a number of EVs is allowed, by request M-110.
fn is_ev_count(n: u64) -> bool
    ensures { result ≡ is_ev_count n }
{
    (n == 256) | (n == 512) | (n == 1024) | (n == 2048) | (n == 4096)
}

// Whether every setting is in its range; where not, setting up is refused with 1.
pub fn in_range(s: Settings) -> bool
    ensures { result ≡ in_range s }
{
    within(crate::MTU_LEAST, s.mtu, crate::MTU_MOST)
        & within(s.mtu, s.maxwnd, crate::WINDOW_MOST)
        & within(1, s.config_base_rtt, crate::DELAY_MOST)
        & within(1, s.target_qdelay, crate::DELAY_MOST)
        & within(0, s.fi, crate::GAIN_MOST)
        & within(0, s.eta, crate::GAIN_MOST)
        & within(0, s.alpha, crate::ALPHA_MOST)
        & within(0, s.gamma, crate::PARTS)
        & within(0, s.max_md_jump, crate::PARTS)
        & within(1, s.adjust_period, crate::PERIOD_MOST)
        & within(1, s.adjust_bytes, crate::WINDOW_MOST)
        & within(0, s.qa_threshold, crate::THRESHOLD_MOST)
        & is_mode(s.quick_adapt_off)
        & is_ev_count(s.ev_count)
}

// Whether the window is sound at a clock, every number in its bounds: the window's part of refusal 2. An inner step: the settings are in
// range. The base is tested first, as max_wnd is worked out with it.
pub fn is_sound(s: Settings, clock: u64, w: Window) -> bool
    requires { InRange s }
    ensures { result ≡ sound_window s clock w }
{
    if !within(1, w.base, s.config_base_rtt) {
        return false;
    }
    within(s.mtu, w.cwnd, max_wnd(s, w.base))
        & within(0, w.avg, crate::AVG_MOST)
        & within(0, w.inc_bytes, crate::INC_STOP)
        & within(0, w.received, crate::TALLY_STOP)
        & within(0, w.achieved, crate::TALLY_STOP)
        & within(0, w.ignored, crate::TALLY_STOP)
        & within(0, w.bytes_to_ignore, s.maxwnd)
        & within(0, w.fi_count, crate::TALLY_STOP)
        & within(0, w.qa_end, crate::LATER_END - 1)
        & within(0, w.last_adjust, clock)
        & within(0, w.last_dec, clock)
        & is_mode(w.fast)
        & is_mode(w.trigger)
}

// The window of a fresh state.
pub fn fresh(s: Settings) -> Window
    ensures { result ≡ fresh_of s }
{
    Window {
        cwnd: s.maxwnd,
        base: s.config_base_rtt,
        avg: 0,
        inc_bytes: 0,
        received: 0,
        achieved: 0,
        ignored: 0,
        bytes_to_ignore: 0,
        fi_count: 0,
        fast: OFF,
        trigger: OFF,
        qa_end: 0,
        last_adjust: 0,
        last_dec: 0,
    }
}
