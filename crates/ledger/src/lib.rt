// The ledger of sent packets: document 01, "The ledger". The ring is lent as four slices (request M-109), which `ring` holds together.
// PSN p lives at p mod capacity.
#![tactic(auto)]

pub mod deliver;
pub mod judge;
pub mod mark;
pub mod ring;
pub mod seek;
pub mod send;
pub mod slots;
pub mod sound;
mod stretch;

// The status that a slot shows.
pub const EMPTY: u8 = 0;

pub const FLYING: u8 = 1;

pub const MARKED: u8 = 2;

pub const DONE: u8 = 3;

// A marked bit without an outstanding one: no slot's status.
pub const NO_STATUS: u8 = 4;

// A slot's size and resend count are one number: size + 2^16 · resends.
pub const SIZE_END: u32 = 65536;

// "Size outside 41..MTU": the smallest packet.
pub const SIZE_LEAST: u32 = 41;

// "A resend count over 2" does not hold together: the count stops at 2.
pub const RESENT_MOST: u32 = 2;

// "Backlog at most 2^40."
pub const BACKLOG_MOST: u64 = 1 << 40;

// "In-flight is signed, from -2^24 up to MaxWnd."
pub const IN_FLIGHT_LEAST: i64 = -16777216;

// The bytes of a unit of the received count.
pub const UNIT: u64 = 256;

// What each connection has of its own: the ledger's packets are low..next-1, `held` is the held count.
#[derive(Clone, Copy)]
pub struct Flow {
    pub low: u32,
    pub next: u32,
    pub held: u64,
    pub backlog: u64,
}

// What is held once, over the packets and the backlogs of all flows (request M-107).
#[derive(Clone, Copy, PartialEq, Eq)]
pub struct Totals {
    pub flying: u32,
    pub marked: u32,
    pub marked_bytes: u64,
    pub backlog: u64,
    pub in_flight: i64,
}

// The ledger but for the ring.
#[derive(Clone, Copy)]
pub struct Books {
    pub flow: Flow,
    pub totals: Totals,
}

// What a slot says of a packet; all zero where the slot is empty.
#[derive(Clone, Copy)]
pub struct Packet {
    pub status: u8,
    pub size: u32,
    pub sent: u64,
    pub resent: u32,
}
