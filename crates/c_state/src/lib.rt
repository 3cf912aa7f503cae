// The shared state of a context as words, for callers that hold it as plain memory: 38 numbers of 64 bits each at its place in `places`.
// The flows' own records are words already, in a lent table (request M-107).
#![tactic(auto)]

pub mod places;

ghost use Rattle.std.specs.Prelude.{◌≡◌, ◌≤◌, length};
ghost use Rattle.c_state.specs.Layout.{word_count, settings_count, in_flight_word, state_words};
ghost use Rattle.c_state.specs.Layout.{settings_from, totals_from, window_from, state_from, words_ok, unpacked};
ghost use Rattle.c_state.specs.Statements.{WordsFacts};

use context::Controller;
use ledger::Totals;
use window::{Settings, Window};

// How many words a state has.
pub const WORDS: usize = 38;

// How many numbers the settings have, which come first.
pub const SETTINGS: usize = 12;

// In-flight is held with this much added, so that it is never below zero: "from -2^24 up to MaxWnd".
pub const IN_FLIGHT_ADDED: i64 = 1 << 24;

// In-flight is at most the largest MaxWnd.
pub const IN_FLIGHT_MOST: i64 = 1 << 26;

// One past the largest word of in-flight.
pub const IN_FLIGHT_END: u64 = (1 << 26) + (1 << 24) + 1;

// One past the largest number of a 32-bit field.
pub const FIELD_END: u64 = 1 << 32;

// A state, where the words are those of one; else a state of zeros. It is no Option: `unpack` promises a state either way, since a replay
// that has no record done starts from the one of zeros (`unpacked` in specs/Layout, `on_replay_words` of `c_api`).
#[derive(Clone, Copy)]
pub struct Unpacked {
    pub good: bool,
    pub state: Controller,
}

// In-flight's word; a number out of its range, which no state that holds together has, is cut to the range.
fn in_flight_word(z: i64) -> u64
    ensures { result ≡ in_flight_word z }
{
    (z.clamp(-IN_FLIGHT_ADDED, IN_FLIGHT_MOST) + IN_FLIGHT_ADDED) as u64
}

// A state's words. Neither their type nor the state's is this crate's: a function and no From, here and in `unpack`.
pub fn pack(state: Controller) -> [u64; WORDS]
    ensures { result ≡ state_words state }
{
    let Controller {
        settings: s,
        totals: t,
        window: w,
        clock,
        cursor,
        phase,
        turn,
    } = state;
    [
        s.mtu,
        s.maxwnd,
        s.config_base_rtt,
        s.target_qdelay,
        s.fi,
        s.eta,
        s.alpha,
        s.gamma,
        s.max_md_jump,
        s.adjust_period,
        s.adjust_bytes,
        s.qa_threshold,
        s.first_psn as u64,
        s.quick_adapt_off as u64,
        t.backlog,
        t.flying as u64,
        t.marked as u64,
        t.marked_bytes,
        in_flight_word(t.in_flight),
        w.cwnd,
        w.base,
        w.avg,
        w.inc_bytes,
        w.received,
        w.achieved,
        w.ignored,
        w.bytes_to_ignore,
        w.fi_count,
        w.fast as u64,
        w.trigger as u64,
        w.qa_end,
        w.last_adjust,
        w.last_dec,
        clock,
        cursor as u64,
        phase as u64,
        s.ev_count,
        turn,
    ]
}

// Whether words are those of a state.
fn words_ok(ws: &[u64]) -> bool
    ensures { result ≡ words_ok ws.now }
{
    if ws.len() != WORDS {
        return false;
    }
    (ws[places::FIRST_PSN] < FIELD_END)
        & (ws[places::QUICK_ADAPT_OFF] < FIELD_END)
        & (ws[places::FLYING] < FIELD_END)
        & (ws[places::MARKED] < FIELD_END)
        & (ws[places::IN_FLIGHT] < IN_FLIGHT_END)
        & (ws[places::FAST] < FIELD_END)
        & (ws[places::TRIGGER] < FIELD_END)
        & (ws[places::CURSOR] < FIELD_END)
        & (ws[places::PHASE] < FIELD_END)
}

// The settings: twelve numbers in document 01's order, the first PSN, the mode that disables quick adapt and the number of EVs. An inner
// step: the caller proves that there are twelve.
pub fn settings_of(ws: &[u64], first_psn: u32, quick_adapt_off: u32, ev_count: u64) -> Settings
    requires { settings_count ≤ length ws.now }
    ensures { result ≡ settings_from ws.now first_psn quick_adapt_off ev_count }
{
    Settings {
        mtu: ws[places::MTU],
        maxwnd: ws[places::MAXWND],
        config_base_rtt: ws[places::CONFIG_BASE_RTT],
        target_qdelay: ws[places::TARGET_QDELAY],
        fi: ws[places::FI],
        eta: ws[places::ETA],
        alpha: ws[places::ALPHA],
        gamma: ws[places::GAMMA],
        max_md_jump: ws[places::MAX_MD_JUMP],
        adjust_period: ws[places::ADJUST_PERIOD],
        adjust_bytes: ws[places::ADJUST_BYTES],
        qa_threshold: ws[places::QA_THRESHOLD],
        first_psn,
        quick_adapt_off,
        ev_count,
    }
}

// The other parts of a state from its words. Inner steps: the caller proves that the words are those of a state.
fn totals_from(ws: &[u64]) -> Totals
    requires { WordsFacts ws.now }
    ensures { result ≡ totals_from ws.now }
{
    Totals {
        flying: ws[places::FLYING] as u32,
        marked: ws[places::MARKED] as u32,
        marked_bytes: ws[places::MARKED_BYTES],
        backlog: ws[places::BACKLOG],
        in_flight: ws[places::IN_FLIGHT] as i64 - IN_FLIGHT_ADDED,
    }
}

fn window_from(ws: &[u64]) -> Window
    requires { WordsFacts ws.now }
    ensures { result ≡ window_from ws.now }
{
    Window {
        cwnd: ws[places::CWND],
        base: ws[places::BASE],
        avg: ws[places::AVG],
        inc_bytes: ws[places::INC_BYTES],
        received: ws[places::RECEIVED],
        achieved: ws[places::ACHIEVED],
        ignored: ws[places::IGNORED],
        bytes_to_ignore: ws[places::BYTES_TO_IGNORE],
        fi_count: ws[places::FI_COUNT],
        fast: ws[places::FAST] as u32,
        trigger: ws[places::TRIGGER] as u32,
        qa_end: ws[places::QA_END],
        last_adjust: ws[places::LAST_ADJUST],
        last_dec: ws[places::LAST_DEC],
    }
}

fn state_from(ws: &[u64]) -> Controller
    requires { WordsFacts ws.now }
    ensures { result ≡ state_from ws.now }
{
    Controller {
        settings: settings_of(
            ws,
            ws[places::FIRST_PSN] as u32,
            ws[places::QUICK_ADAPT_OFF] as u32,
            ws[places::EV_COUNT],
        ),
        totals: totals_from(ws),
        window: window_from(ws),
        clock: ws[places::CLOCK],
        cursor: ws[places::CURSOR] as u32,
        phase: ws[places::PHASE] as u32,
        turn: ws[places::TURN],
    }
}

// The state of words, or a state of zeros where they are no state's.
pub fn unpack(ws: &[u64]) -> Unpacked
    ensures { result ≡ unpacked ws.now }
{
    if !words_ok(ws) {
        return Unpacked {
            good: false,
            state: context::start::fresh(sender::start::no_settings()),
        };
    }
    Unpacked {
        good: true,
        state: state_from(ws),
    }
}

// Stores a state's words over those that were lent. An inner step: the caller proves that there are 38.
pub fn store(ws: &mut [u64], state: Controller)
    requires { length ws.old ≡ word_count }
    ensures { ws.new ≡ state_words state }
{
    ws.copy_from_slice(&pack(state));
}
