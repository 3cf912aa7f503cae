// Where each number of a state stands among its words: the order of include/nscc.h.

// The settings: the twelve numbers in the order of document 01.
pub const MTU: usize = 0;

pub const MAXWND: usize = 1;

pub const CONFIG_BASE_RTT: usize = 2;

pub const TARGET_QDELAY: usize = 3;

pub const FI: usize = 4;

pub const ETA: usize = 5;

pub const ALPHA: usize = 6;

pub const GAMMA: usize = 7;

pub const MAX_MD_JUMP: usize = 8;

pub const ADJUST_PERIOD: usize = 9;

pub const ADJUST_BYTES: usize = 10;

pub const QA_THRESHOLD: usize = 11;

// The first PSN, and the flag that disables quick adapt.
pub const FIRST_PSN: usize = 12;

pub const QUICK_ADAPT_OFF: usize = 13;

// The totals, over all flows; in-flight has 2^24 added.
pub const BACKLOG: usize = 14;

pub const FLYING: usize = 15;

pub const MARKED: usize = 16;

pub const MARKED_BYTES: usize = 17;

pub const IN_FLIGHT: usize = 18;

// The window.
pub const CWND: usize = 19;

pub const BASE: usize = 20;

pub const AVG: usize = 21;

pub const INC_BYTES: usize = 22;

pub const RECEIVED: usize = 23;

pub const ACHIEVED: usize = 24;

pub const IGNORED: usize = 25;

pub const BYTES_TO_IGNORE: usize = 26;

pub const FI_COUNT: usize = 27;

pub const FAST: usize = 28;

pub const TRIGGER: usize = 29;

pub const QA_END: usize = 30;

pub const LAST_ADJUST: usize = 31;

pub const LAST_DEC: usize = 32;

// The clock, the path cursor and the state's name.
pub const CLOCK: usize = 33;

pub const CURSOR: usize = 34;

pub const PHASE: usize = 35;

// The number of EVs, request M-110.
pub const EV_COUNT: usize = 36;

// The held turn, request M-108.
pub const TURN: usize = 37;
