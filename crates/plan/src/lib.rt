// Planned sends (request M-111). A plan is up to 64 sends for one instant, lent as numbers of 32 bits, four a send. The judge tells whether
// each of them, made in that order at that time, would be accepted; the planner writes a plan that is. Both only read state, table, ring
// buffer and EV times, and keep what the sends would change by value.
#![tactic(auto)]

mod ahead;
mod course;
pub mod judge;
pub mod planner;
pub mod words;

use sender::Send;

// The numbers of a send, and their places: the flow, 0 for a new packet and any other for a resend, the PSN, the size.
pub const SEND_WORDS: usize = 4;

pub const FLOW: usize = 0;

pub const RESEND: usize = 1;

pub const PSN: usize = 2;

pub const SIZE: usize = 3;

// "up to 64 sends"
pub const SENDS_MOST: usize = 64;

// One send of a plan.
#[derive(Clone, Copy)]
pub struct Planned {
    pub flow: usize,
    pub send: Send,
}
