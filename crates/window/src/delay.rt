// Samples and delay. The rules bear their names in UET 3.6.13.6.
ghost use Rattle.std.specs.Prelude.{◌≡◌, ◌≤◌};
ghost use Rattle.window.specs.Limits.{delay_most, sample_most, avg_most, max_wnd_of};
ghost use Rattle.window.specs.Range.{InRange};
ghost use Rattle.window.specs.Delays.{one_send, take_sample_of, sampling_of, sample_in, Sampled};
ghost use Rattle.window.specs.Delays.{avg_delay_of, update_delay_of, feed_of, update_base_rtt_of, measure_of};

use crate::bounds::max_wnd;
use crate::{Delayed, Sampling, Settings, Window};
use rules::least;

// Whether a resend count and a retx flag tell which copy of the packet an answer is to.
fn one_send(resent: u64, retx: bool) -> bool
    ensures { result ≡ one_send resent retx }
{
    if retx {
        return resent == 1;
    }
    resent == 0
}

// A sample of so many ticks, cut to 2^20 where it is above.
fn take_sample(ticks: u64) -> Sampling
    ensures { result ≡ take_sample_of ticks }
{
    if crate::SAMPLE_MOST < ticks {
        return Sampling::Cut;
    }
    Sampling::Taken(ticks)
}

// now - sent - service, the round-trip sample of an ACK, or of a NACK with service 0; or why there is none.
// `outstanding`: the packet is flying or marked. UET 3.6.13.6, calculate_rtt.
pub fn sampling(
    outstanding: bool,
    resent: u64,
    retx: bool,
    time: u64,
    sent: u64,
    service: u64,
) -> Sampling
    ensures { result ≡ sampling_of outstanding resent retx time sent service }
{
    if !outstanding {
        return Sampling::Gone;
    }
    if !one_send(resent, retx) {
        return Sampling::Ambiguous;
    }
    if time <= sent {
        return Sampling::NotPositive;
    }
    if time - sent <= service {
        return Sampling::NotPositive;
    }
    take_sample(time - sent - service)
}

// The sample that the window's rules use of it: how many ticks, or none.
pub fn sample_in(sampling: Sampling) -> Option<u64>
    ensures { result ≡ sample_in sampling }
{
    match sampling {
        Sampling::Taken(t) => Some(t),
        Sampling::Cut => Some(crate::SAMPLE_MOST),
        Sampling::Gone => None,
        Sampling::Ambiguous => None,
        Sampling::NotPositive => None,
    }
}

// avg/1,024, the average in whole ticks. UET 3.6.13.6, get_avg_delay.
pub(crate) fn avg_delay(avg: u64) -> u64
    ensures { result ≡ avg_delay_of avg }
{
    avg / crate::PARTS
}

// avg = (79·avg + 1,024·x)/80, one step of the filter. UET 3.6.13.6, update_delay.
pub(crate) fn update_delay(avg: u64, x: u64) -> u64
    requires { (avg ≤ avg_most) × (x ≤ sample_most) }
    ensures { result ≡ update_delay_of avg x }
{
    (crate::AVG_KEEPS * avg + crate::PARTS * x) / crate::AVG_SHARES
}

// x = delay, but x = base/4 when unmarked and target < delay ≤ 5·base: what the filter is fed of an ACK.
fn feed(target: u64, base: u64, marked: bool, delay: u64) -> u64
    requires { base ≤ delay_most }
    ensures { result ≡ feed_of target base marked delay }
{
    if !marked & (target < delay) & (delay <= crate::FEED_REACH * base) {
        return base / crate::FEED_PART;
    }
    delay
}

// base = min(base, sample), and cwnd = min(cwnd, max_wnd) at that base. UET 3.6.13.6, update_base_rtt. In a window that holds together cwnd
// is at most max_wnd at the held base, so a sample that does not lower the base leaves all as it was.
pub(crate) fn update_base_rtt(s: Settings, sample: Option<u64>, w: Window) -> Window
    requires in_range { InRange s }
    requires base_bound { (w.base ≤ s.config_base_rtt) × (w.cwnd ≤ max_wnd_of s w.base) }
    ensures { result ≡ update_base_rtt_of s sample w }
{
    let Some(t) = sample else {
        return w;
    };
    if w.base <= t {
        return w;
    }
    Window {
        base: t,
        cwnd: least(w.cwnd, max_wnd(s, t)),
        ..w
    }
}

// Sample and filter of an ACK: delay = sample - base. Without a sample the delay is the average, and the filter is not fed (H).
// UET 3.6.13.5, OnACK.
pub(crate) fn measure(s: Settings, marked: bool, sample: Option<u64>, w: Window) -> Delayed
    requires in_range { InRange s }
    requires sampled { Sampled sample }
    requires base_bound { (w.base ≤ s.config_base_rtt) × (w.cwnd ≤ max_wnd_of s w.base) × (w.avg ≤ avg_most) }
    ensures { result ≡ measure_of s marked sample w }
{
    let Some(t) = sample else {
        return Delayed {
            window: w,
            delay: avg_delay(w.avg),
        };
    };
    let v = update_base_rtt(s, sample, w);
    let delay = t - v.base;
    let window = Window {
        avg: update_delay(w.avg, feed(s.target_qdelay, v.base, marked, delay)),
        ..v
    };
    Delayed { window, delay }
}
