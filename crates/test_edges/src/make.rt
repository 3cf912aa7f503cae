// Worlds to start from, each built by hand and not by calls.
use crate::worlds;
use crate::worlds::World;
use context::Controller;
use ledger::{Flow, Totals};
use window::{Settings, Window};

// The clock of the worlds here.
pub const CLOCK: u64 = 1000;

// A resend in a slot's number.
const RESEND: u32 = 65536;

// What memory holds before it is set up.
const OLD: u32 = 7;

// Settings E of document 01, and 256 EVs.
fn settings() -> Settings {
    Settings {
        mtu: 4096,
        maxwnd: 614400,
        config_base_rtt: 96,
        target_qdelay: 72,
        fi: 4096,
        eta: 1024,
        alpha: 224,
        gamma: 819,
        max_md_jump: 512,
        adjust_period: 96,
        adjust_bytes: 32768,
        qa_threshold: 288,
        first_psn: 0,
        quick_adapt_off: rules::OFF,
        ev_count: 256,
    }
}

// These and the window are written out in `test_lengths` too: a test says its values itself, and takes no default for them.
fn no_settings() -> Settings {
    Settings {
        mtu: 0,
        maxwnd: 0,
        config_base_rtt: 0,
        target_qdelay: 0,
        fi: 0,
        eta: 0,
        alpha: 0,
        gamma: 0,
        max_md_jump: 0,
        adjust_period: 0,
        adjust_bytes: 0,
        qa_threshold: 0,
        first_psn: 0,
        quick_adapt_off: rules::OFF,
        ev_count: 0,
    }
}

// A window of zeros but for cwnd and base.
fn quiet_window(cwnd: u64, base: u64) -> Window {
    Window {
        cwnd,
        base,
        avg: 0,
        inc_bytes: 0,
        received: 0,
        achieved: 0,
        ignored: 0,
        bytes_to_ignore: 0,
        fi_count: 0,
        fast: rules::OFF,
        trigger: rules::OFF,
        qa_end: 0,
        last_adjust: 0,
        last_dec: 0,
    }
}

// No packet flying or marked, the window that settings start with, and the turn of flow 0, which setting up leaves too (request M-108).
fn quiet(settings: Settings, backlog: u64, clock: u64, phase: u32) -> Controller {
    let window = quiet_window(settings.maxwnd, settings.config_base_rtt);
    Controller {
        settings,
        totals: Totals {
            flying: 0,
            marked: 0,
            marked_bytes: 0,
            backlog,
            in_flight: 0,
        },
        window,
        clock,
        cursor: 0,
        phase,
        turn: 0,
    }
}

// Memory that holds one number in each place, of which so much of the table is lent.
fn lend(state: Controller, fill: u32, table: usize, wide: bool) -> World {
    World {
        flows: [fill as u64; worlds::TABLE_MOST],
        outstanding: [fill as u64; worlds::WORDS_MOST],
        marked: [fill as u64; worlds::WORDS_MOST],
        sizes: [fill; worlds::SLOTS_MOST],
        sent: [fill as u64; worlds::SLOTS_MOST],
        evs: [fill as u64; worlds::EVS],
        table,
        wide,
        flow: 0,
        outcome: Ok(None),
        state,
    }
}

// What a fresh state is, by document 01.
fn fresh_state(settings: Settings) -> Controller {
    quiet(settings, 0, 0, sender::IDLE)
}

// What an accepted setting up must leave: zeros in every slot that is lent, every flow that is lent from the first PSN on, and no other.
pub(crate) fn fresh(settings: Settings, table: usize) -> World {
    let mut w = lend(fresh_state(settings), OLD, table, true);
    w.evs = [0; worlds::EVS];
    for slot in 0..w.slot_count() {
        w.clear(slot);
    }
    let flow = Flow {
        low: settings.first_psn,
        next: settings.first_psn,
        held: 0,
        backlog: 0,
    };
    for k in 0..w.flow_count().min(worlds::FLOWS_MOST) {
        w.flow = k as u64;
        w.set_flow(flow);
    }
    w
}

// No state, which a refused setting up answers too, and lent memory that holds whatever it held.
pub(crate) fn unset(table: usize) -> World {
    lend(fresh_state(no_settings()), OLD, table, true)
}

// An empty ring with a backlog, named READY.
pub(crate) fn empty(low: u32, next: u32) -> World {
    let flow = Flow {
        low,
        next,
        held: 7,
        backlog: 8192,
    };
    let state = quiet(settings(), flow.backlog, CLOCK, sender::READY);
    let mut w = lend(state, 0, flow_table::FLOW_WORDS, false);
    w.set_flow(flow);
    w
}

// Low 5, next 10: 5 flying, 6 marked, 7 done, 8 and 9 flying. Every event has one that is accepted here.
pub(crate) fn mixed() -> World {
    let mut w = empty(5, 10);
    w.state.totals.flying = 3;
    w.state.totals.marked = 1;
    w.state.totals.marked_bytes = 200;
    w.outstanding[0] = (1 << 5) | (1 << 6) | (1 << 8) | (1 << 9);
    w.marked[0] = 1 << 6;
    w.sizes[5] = 1024;
    w.sent[5] = 900;
    w.sizes[6] = 200 + RESEND;
    w.sent[6] = 910;
    w.sizes[7] = 300 + 2 * RESEND;
    w.sent[7] = 920;
    w.sizes[8] = 41;
    w.sent[8] = 930;
    w.sizes[9] = 1000;
    w.sent[9] = CLOCK;
    w
}

// Flow 0 is that of `mixed`. Flow 1 has low 20, next 23: 20 flying, 21 marked, 22 flying.
pub(crate) fn pair() -> World {
    let flow = Flow {
        low: 20,
        next: 23,
        held: 3,
        backlog: 1000,
    };
    let mut w = mixed();
    w.flow = 1;
    w.set_flow(flow);
    w.flow = 0;
    w.table = 2 * flow_table::FLOW_WORDS;
    w.state.totals.flying = 5;
    w.state.totals.marked = 2;
    w.state.totals.marked_bytes = 350;
    w.state.totals.backlog = 9192;
    w.set_flying(84, 100, 940);
    w.set_flying(85, 150 + RESEND, 950);
    w.set_flying(86, 250, 960);
    w.marked[1] = 1 << 21;
    w
}

// Low..next-1 fly, of 41 bytes each, sent at one time.
fn flying(low: u32, next: u32, sent: u64, wide: bool) -> World {
    let count = next.wrapping_sub(low);
    let mut w = empty(low, next);
    w.wide = wide;
    w.state.totals.flying = count;
    for slot in 0..w.capacity() {
        let age = slot.wrapping_sub(low as usize) % w.capacity();
        if age < count as usize {
            w.set_flying(slot, 41, sent);
        }
    }
    w
}

// Packets low..next-1 in a ring of 128 slots.
pub(crate) fn flown(low: u32, next: u32) -> World {
    flying(low, next, 900, true)
}

// A packet in every slot of 64: low 5, next 69.
pub(crate) fn full() -> World {
    flying(5, 69, 0, false)
}
