// The NSCC window: document 01, "Samples and delay" and "The window, in order". A rule bears its name in UET 3.6.13.6.
// Everything goes by value. The ledger's step comes first and is not here: it hands in what it found (newly, in-flight).
#![tactic(auto)]

pub mod adjust;
pub mod bounds;
pub mod cases;
pub mod delay;
pub mod events;
pub mod quick;

// Document 01, "Numbers and their bounds": the ranges of the settings.
pub const MTU_LEAST: u64 = 1024;

pub const MTU_MOST: u64 = 16384;

pub const WINDOW_MOST: u64 = 1 << 26;

pub const DELAY_MOST: u64 = 1 << 14;

pub const GAIN_MOST: u64 = 1 << 20;

pub const ALPHA_MOST: u64 = 1 << 14;

pub const PARTS: u64 = 1024;

pub const PERIOD_MOST: u64 = 1 << 20;

pub const THRESHOLD_MOST: u64 = 1 << 20;

// "Quick-adapt end or an EV time of 2^49 or more" does not hold together.
pub const LATER_END: u64 = 1 << 49;

// "A sample above 2^20 counts as 2^20."
pub const SAMPLE_MOST: u64 = 1 << 20;

// "Delay average over 2^30", in 1/1,024 tick, does not hold together.
pub const AVG_MOST: u64 = 1 << 30;

// "Received, achieved and ignored bytes and fi_count stop at 2^40."
pub const TALLY_STOP: u64 = 1 << 40;

// "inc_bytes stops at 2^60."
pub const INC_STOP: u64 = 1 << 60;

// "NACK reasons: 0 trimmed, 1 trimmed at the last hop, 2 other."
pub const TRIMMED_LAST_HOP: u64 = 1;

// "Near means delay ≤ base/8."
pub const NEAR_PART: u64 = 8;

// "Fed x: avg = (79·avg + 1,024·x) / 80": of 80 shares the old average keeps 79.
pub const AVG_KEEPS: u64 = 79;

pub const AVG_SHARES: u64 = 80;

// "x = base/4 when unmarked and target < delay ≤ 5·base."
pub const FEED_PART: u64 = 4;

pub const FEED_REACH: u64 = 5;

// The settings, in document 01's order. Quick adapt is off by a mode.
#[derive(Clone, Copy, PartialEq, Eq)]
pub struct Settings {
    pub mtu: u64,
    pub maxwnd: u64,
    pub config_base_rtt: u64,
    pub target_qdelay: u64,
    pub fi: u64,
    pub eta: u64,
    pub alpha: u64,
    pub gamma: u64,
    pub max_md_jump: u64,
    pub adjust_period: u64,
    pub adjust_bytes: u64,
    pub qa_threshold: u64,
    pub first_psn: u32,
    pub quick_adapt_off: u32,
    // Request M-110: how many EVs there are.
    pub ev_count: u64,
}

// What the window rules hold between events. `avg` is in 1/1,024 tick; `qa_end` is quick adapt's end; `fast` is fast mode.
// Modes are `rules::ON` or `rules::OFF`.
#[derive(Clone, Copy, PartialEq, Eq)]
pub struct Window {
    pub cwnd: u64,
    pub base: u64,
    pub avg: u64,
    pub inc_bytes: u64,
    pub received: u64,
    pub achieved: u64,
    pub ignored: u64,
    pub bytes_to_ignore: u64,
    pub fi_count: u64,
    pub fast: u32,
    pub trigger: u32,
    pub qa_end: u64,
    pub last_adjust: u64,
    pub last_dec: u64,
}

// What the sample step says, by request M-103. The last three, in the order in which they are tested, say why there is no sample.
#[derive(Clone, Copy)]
pub enum Sampling {
    // A sample of so many ticks.
    Taken(u64),
    // A sample above 2^20, cut to it.
    Cut,
    // The packet is neither flying nor marked.
    Gone,
    // A resend: it can't be told which copy of the packet is answered.
    Ambiguous,
    // What is left of the round trip without service is not positive.
    NotPositive,
}

// A window once the sample is taken and the filter fed, and the delay that the rules go on with.
#[derive(Clone, Copy)]
pub struct Delayed {
    pub window: Window,
    pub delay: u64,
}

// A window after quick adapt, and whether it fired.
#[derive(Clone, Copy)]
pub struct Adapted {
    pub window: Window,
    pub fired: bool,
}
