// The adjustment of the window by what was gathered in inc_bytes.
ghost use Rattle.std.specs.Prelude.{◌≡◌, ◌≤◌, ◌<◌};
ghost use Rattle.window.specs.Limits.{window_most, gain_most, inc_stop};
ghost use Rattle.window.specs.Range.{InRange};
ghost use Rattle.window.specs.Adjust.{enough_received, period_passed, fulfill_adjustment_of, adjust_of};

use crate::bounds::max_wnd;
use crate::{Settings, Window};
use rules::least;

// received ≥ adjust_bytes.
fn enough_received(s: Settings, w: Window) -> bool
    ensures { result ≡ enough_received s w }
{
    w.received >= s.adjust_bytes
}

// now - last_adjust ≥ adjust_period.
fn period_passed(s: Settings, time: u64, w: Window) -> bool
    requires { w.last_adjust ≤ time }
    ensures { result ≡ period_passed s time w }
{
    time - w.last_adjust >= s.adjust_period
}

// cwnd += inc_bytes/cwnd + extra, up to max_wnd; inc_bytes and received 0.
// UET 3.6.13.6, fulfill_adjustment; extra is eta where the period has passed.
fn fulfill_adjustment(s: Settings, extra: u64, w: Window) -> Window
    requires in_range { InRange s }
    requires cwnd_nonzero { (0 < w.cwnd) × (w.cwnd ≤ window_most) × (w.inc_bytes ≤ inc_stop) × (extra ≤ gain_most)
        × (w.base ≤ s.config_base_rtt) }
    ensures { result ≡ fulfill_adjustment_of s extra w }
{
    Window {
        cwnd: least(w.cwnd + w.inc_bytes / w.cwnd + extra, max_wnd(s, w.base)),
        inc_bytes: 0,
        received: 0,
        ..w
    }
}

// If received ≥ adjust_bytes or now - last_adjust ≥ adjust_period, fulfil the adjustment; if the period has passed, with eta,
// and last_adjust = now. UET 3.6.13.5, the end of OnACK.
pub(crate) fn adjust(s: Settings, time: u64, w: Window) -> Window
    requires in_range { InRange s }
    requires last_adjust_bound { (w.last_adjust ≤ time) × (0 < w.cwnd) × (w.cwnd ≤ window_most) × (w.inc_bytes ≤ inc_stop)
        × (w.base ≤ s.config_base_rtt) }
    ensures { result ≡ adjust_of s time w }
{
    let passed = period_passed(s, time, w);
    if enough_received(s, w) | passed {
        if passed {
            return Window {
                last_adjust: time,
                ..fulfill_adjustment(s, s.eta, w)
            };
        }
        return fulfill_adjustment(s, 0, w);
    }
    w
}
