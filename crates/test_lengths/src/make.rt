// Settings, states and tables, each written out by hand and not made by calls.
use context::Controller;
use ledger::{Flow, Totals};
use window::{Settings, Window};

// The clock of the empty ledgers.
const CLOCK: u64 = 1000;

// Their low and next.
pub const LOW: u32 = 5;

// The backlog of all flows, which one flow has alone.
const BACKLOG: u64 = 8192;

// The words that a table is lent of: sixteen flows, twice as many as are allowed.
pub const TABLE: usize = 64;

// How many EVs the settings have where nothing else is said.
pub const EVS: u64 = 256;

// What a case says but for lengths: how many EVs the settings have, where the cursor stands, the EV of feedback, the flow that is called,
// the one that has the backlog, and the held turn.
#[derive(Clone, Copy)]
pub struct Given {
    pub count: u64,
    pub cursor: u32,
    pub ev: u32,
    pub flow: usize,
    pub owner: usize,
    pub turn: u64,
}

// What a case says where it says nothing else.
pub const USUAL: Given = Given {
    count: EVS,
    cursor: 0,
    ev: 0,
    flow: 0,
    owner: 0,
    turn: 0,
};

// Settings E of document 01, with an MTU and a number of EVs; and a first PSN that no cleared memory shows.
pub(crate) fn settings(mtu: u64, ev_count: u64) -> Settings {
    Settings {
        mtu,
        maxwnd: 614400,
        config_base_rtt: 96,
        target_qdelay: 72,
        fi: 4096,
        eta: 1024,
        alpha: 224,
        gamma: 819,
        max_md_jump: 512,
        adjust_period: 96,
        adjust_bytes: 32768,
        qa_threshold: 288,
        first_psn: 4294967290,
        quick_adapt_off: rules::OFF,
        ev_count,
    }
}

// These and the window are written out in `test_edges` too: a test says its values itself, and takes no default for them.
fn no_settings() -> Settings {
    Settings {
        mtu: 0,
        maxwnd: 0,
        config_base_rtt: 0,
        target_qdelay: 0,
        fi: 0,
        eta: 0,
        alpha: 0,
        gamma: 0,
        max_md_jump: 0,
        adjust_period: 0,
        adjust_bytes: 0,
        qa_threshold: 0,
        first_psn: 0,
        quick_adapt_off: rules::OFF,
        ev_count: 0,
    }
}

// A window of zeros but for cwnd and base.
fn quiet_window(cwnd: u64, base: u64) -> Window {
    Window {
        cwnd,
        base,
        avg: 0,
        inc_bytes: 0,
        received: 0,
        achieved: 0,
        ignored: 0,
        bytes_to_ignore: 0,
        fi_count: 0,
        fast: rules::OFF,
        trigger: rules::OFF,
        qa_end: 0,
        last_adjust: 0,
        last_dec: 0,
    }
}

// No packet flying or marked, and the window that settings start with.
fn quiet(
    settings: Settings,
    backlog: u64,
    clock: u64,
    cursor: u32,
    phase: u32,
    turn: u64,
) -> Controller {
    let window = quiet_window(settings.maxwnd, settings.config_base_rtt);
    Controller {
        settings,
        totals: Totals {
            flying: 0,
            marked: 0,
            marked_bytes: 0,
            backlog,
            in_flight: 0,
        },
        window,
        clock,
        cursor,
        phase,
        turn,
    }
}

// What a fresh state is, by document 01; request M-108 starts its turns "at set-up from flow 0".
pub(crate) fn fresh(settings: Settings) -> Controller {
    quiet(settings, 0, 0, 0, sender::IDLE, 0)
}

// The state that a refused setting up answers.
pub(crate) fn no_state() -> Controller {
    fresh(no_settings())
}

// Empty ledgers with a backlog, named READY; their rings are zeros of whatever length is lent.
pub(crate) fn empty(e: Given) -> Controller {
    quiet(
        settings(4096, e.count),
        BACKLOG,
        CLOCK,
        e.cursor,
        sender::READY,
        e.turn,
    )
}

// The k-th word of a table whose every flow has the same record, but that one flow alone has the backlog.
fn word(f: Flow, owner: usize, k: usize) -> u64 {
    match k % flow_table::FLOW_WORDS {
        flow_table::LOW => f.low as u64,
        flow_table::NEXT => f.next as u64,
        flow_table::HELD => f.held,
        _ if k / flow_table::FLOW_WORDS == owner => f.backlog,
        _ => 0,
    }
}

fn table(f: Flow, owner: usize) -> [u64; TABLE] {
    std::array::from_fn(|k| word(f, owner, k))
}

// Request M-107: "every flow starts at the settings' first PSN".
pub(crate) fn fresh_table(settings: Settings) -> [u64; TABLE] {
    let f = Flow {
        low: settings.first_psn,
        next: settings.first_psn,
        held: 0,
        backlog: 0,
    };
    table(f, 0)
}

// The flows of the empty ledgers.
pub(crate) fn empty_table(e: Given) -> [u64; TABLE] {
    let f = Flow {
        low: LOW,
        next: LOW,
        held: 7,
        backlog: BACKLOG,
    };
    table(f, e.owner)
}
