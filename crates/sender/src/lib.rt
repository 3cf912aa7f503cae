// The sender: what one flow's event does to its own record and ring and to what all flows share. `rely` has the events past number 2;
// `context` tests number 2 over all flows and has the entry points.
#![tactic(auto)]

mod judge;
pub mod naming;
pub mod rely;
pub mod sound;
pub mod start;
mod steps;

use ledger::{Flow, Totals};
use window::{Settings, Window};

// "Time is in ticks of 128 ns, below 2^48."
pub const TIME_END: u64 = 1 << 48;

// The largest NACK reason: 0 trimmed, 1 trimmed at the last hop, 2 other.
pub const REASON_MOST: u32 = 2;

// The state's name, as a number.
pub const IDLE: u32 = 0;

pub const PENDING: u32 = 1;

pub const READY: u32 = 2;

pub const ACTIVE: u32 = 3;

// One flow's record beside what all flows share: what its step works on. Numbers of 32 bits stand in pairs, here and in its parts, so that
// it has no gaps: docs/DECISIONS.md, "A state with no gaps".
#[derive(Clone, Copy)]
pub struct Controller {
    pub settings: Settings,
    pub flow: Flow,
    pub totals: Totals,
    pub window: Window,
    pub clock: u64,
    pub cursor: u32,
    pub phase: u32,
}

// Events, with fields wide enough for what firmware hands in wrongly. An ACK's map stands behind what a send and a NACK have: an event of
// any kind is kept in the same bytes, and what would stand over the map's would cut it in pieces (docs/PERFORMANCE.md).
#[derive(Clone, Copy)]
pub struct Send {
    pub psn: u32,
    pub size: u32,
    pub resend: bool,
}

#[derive(Clone, Copy)]
pub struct Ack {
    pub cum: u32,
    pub trigger: u32,
    pub count: u32,
    pub service: u32,
    pub map: u64,
    pub ev: u32,
    pub marked: bool,
    pub retx: bool,
}

#[derive(Clone, Copy)]
pub struct Nack {
    pub psn: u32,
    pub ev: u32,
    pub reason: u32,
    pub marked: bool,
    pub retx: bool,
}

#[derive(Clone, Copy)]
pub struct Loss {
    pub psn: u32,
    pub ev: u32,
}
