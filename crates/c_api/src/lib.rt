// The library for C: every event of a flow over lent words. Slices only: the state's 38 words (`c_state`), the table of flows
// (request M-107), the ring buffer's four slices, the EV times, a log's bytes. A call is a replay's batch of one event
// (`replay::once`), so that the archive has the rules once, in the replay's loop. No function has a `requires`; what no proof
// can see, that pointers and lengths are true and that nothing overlaps, is said in include/nscc.h.

#![tactic(auto)]

pub mod batch;
pub mod looks;
pub mod parts;
pub mod plans;
pub mod turns;

ghost use Rattle.std.specs.Prelude.{◌≡◌, length};
ghost use Rattle.rules.specs.Mode.{mode_of};
ghost use Rattle.ledger.specs.Lent.{memory_before};
ghost use Rattle.ledger.specs.Memory.{memory};
ghost use Rattle.context.specs.Events.{on_new_data, on_send, on_loss};
ghost use Rattle.c_state.specs.Layout.{word_count};
ghost use Rattle.c_api.specs.Calls.{called_after, words_after, on_event_words, on_words, ack_beside, nack_beside, path_beside};
ghost use Rattle.c_api.specs.Calls.{on_beside_words, on_set_up_words, send_by, ack_by, nack_by, loss_by};

use c_state::WORDS;
use context::Controller;
use replay::records::Event;
use replay::{ABOVE, Said};
use rules::verdict::{Refusal, number_of};
use sender::{Ack, Loss, Nack, Send};

// Stores the state's words where the event was accepted.
fn keep(state: &mut [u64], number: u64, after: Controller)
    requires { length state.old ≡ word_count }
    ensures { state.new ≡ words_after number state.old after }
{
    if number == 0 {
        c_state::store(state, after);
    }
}

// An event on the state that the words are: the number, and above its 32 bits the EV or the kind of a sample.
fn take<'a, 'b, 'c, 'd, 'e, 'f, 'g>(
    event: Event,
    state: &'a mut [u64],
    flows: &'b mut [u64],
    outstanding: &'c mut [u64],
    marked: &'d mut [u64],
    sizes: &'e mut [u32],
    sent: &'f mut [u64],
    evs: &'g mut [u64],
) -> u64
    ensures { called_after result state.new flows.new outstanding.new marked.new sizes.new sent.new evs.new
        ≡ on_event_words event state.old flows.old (memory_before outstanding.old marked.old sizes.old sent.old) evs.old }
{
    let given = c_state::unpack(state);
    if !given.good {
        return Refusal::Unsound as u64;
    }
    let Said { word, state: after } = replay::once(
        event,
        given.state,
        flows,
        outstanding,
        marked,
        sizes,
        sent,
        evs,
    );
    keep(state, word % ABOVE, after);
    word
}

// Setting up: the twelve settings, the first PSN, the flag that disables quick adapt, the number of EVs.
#[unsafe(no_mangle)]
pub extern "C" fn nscc_set_up(
    settings: &[u64],
    first_psn: u32,
    quick_adapt_off: bool,
    ev_count: u32,
    state: &mut [u64],
    flows: &mut [u64],
    outstanding: &mut [u64],
    marked: &mut [u64],
    sizes: &mut [u32],
    sent: &mut [u64],
    evs: &mut [u64],
) -> u32
    ensures { called_after result state.new flows.new outstanding.new marked.new sizes.new sent.new evs.new
        ≡ on_set_up_words settings.now first_psn (mode_of quick_adapt_off) ev_count state.old
        flows.old (memory_before outstanding.old marked.old sizes.old sent.old) evs.old }
{
    if settings.len() != c_state::SETTINGS {
        return Refusal::Unsound as u32;
    }
    let off = rules::mode_of(quick_adapt_off);
    let given = c_state::settings_of(settings, first_psn, off, ev_count as u64);
    if !window::bounds::in_range(given) {
        return Refusal::Setting as u32;
    }
    if state.len() != WORDS {
        return Refusal::Unsound as u32;
    }
    let answer = context::start::set_up(given, flows, outstanding, marked, sizes, sent, evs);
    let number = number_of(answer.outcome);
    keep(state, number as u64, answer.state);
    number
}

// New data in the backlog.
#[unsafe(no_mangle)]
pub extern "C" fn nscc_new_data(
    state: &mut [u64],
    flows: &mut [u64],
    outstanding: &mut [u64],
    marked: &mut [u64],
    sizes: &mut [u32],
    sent: &mut [u64],
    evs: &mut [u64],
    time: u64,
    flow: usize,
    bytes: u64,
) -> u32
    ensures { called_after result state.new flows.new outstanding.new marked.new sizes.new sent.new evs.new
        ≡ on_words state.old flows.old (memory_before outstanding.old marked.old sizes.old sent.old) evs.old
        (on_new_data time flow bytes) }
{
    take(
        Event::NewData(time, flow, bytes),
        state,
        flows,
        outstanding,
        marked,
        sizes,
        sent,
        evs,
    ) as u32
}

// A new packet, or a resend.
#[unsafe(no_mangle)]
pub extern "C" fn nscc_send(
    state: &mut [u64],
    flows: &mut [u64],
    outstanding: &mut [u64],
    marked: &mut [u64],
    sizes: &mut [u32],
    sent: &mut [u64],
    evs: &mut [u64],
    time: u64,
    flow: usize,
    psn: u32,
    bytes: u32,
    resend: bool,
) -> u32
    ensures { called_after result state.new flows.new outstanding.new marked.new sizes.new sent.new evs.new
        ≡ on_words state.old flows.old (memory_before outstanding.old marked.old sizes.old sent.old) evs.old
        (on_send time flow (send_by psn bytes resend)) }
{
    let a = Send {
        psn,
        size: bytes,
        resend,
    };
    take(
        Event::Send(time, flow, a),
        state,
        flows,
        outstanding,
        marked,
        sizes,
        sent,
        evs,
    ) as u32
}

// An ACK: the number, and above its 32 bits the kind of its sample.
#[unsafe(no_mangle)]
pub extern "C" fn nscc_ack(
    state: &mut [u64],
    flows: &mut [u64],
    outstanding: &mut [u64],
    marked: &mut [u64],
    sizes: &mut [u32],
    sent: &mut [u64],
    evs: &mut [u64],
    time: u64,
    flow: usize,
    cum: u32,
    map: u64,
    trigger: u32,
    count: u32,
    service: u32,
    ev: u32,
    m_flag: bool,
    retx: bool,
) -> u64
    ensures { called_after result state.new flows.new outstanding.new marked.new sizes.new sent.new evs.new
        ≡ on_beside_words state.old flows.old (memory_before outstanding.old marked.old sizes.old sent.old) evs.old
        (ack_beside time flow (ack_by cum map trigger count service ev m_flag retx)) }
{
    let a = Ack {
        cum,
        map,
        trigger,
        count,
        service,
        ev,
        marked: m_flag,
        retx,
    };
    take(
        Event::Ack(time, flow, a),
        state,
        flows,
        outstanding,
        marked,
        sizes,
        sent,
        evs,
    )
}

// A NACK: the same.
#[unsafe(no_mangle)]
pub extern "C" fn nscc_nack(
    state: &mut [u64],
    flows: &mut [u64],
    outstanding: &mut [u64],
    marked: &mut [u64],
    sizes: &mut [u32],
    sent: &mut [u64],
    evs: &mut [u64],
    time: u64,
    flow: usize,
    psn: u32,
    ev: u32,
    reason: u32,
    m_flag: bool,
    retx: bool,
) -> u64
    ensures { called_after result state.new flows.new outstanding.new marked.new sizes.new sent.new evs.new
        ≡ on_beside_words state.old flows.old (memory_before outstanding.old marked.old sizes.old sent.old) evs.old
        (nack_beside time flow (nack_by psn ev reason m_flag retx)) }
{
    let a = Nack {
        psn,
        ev,
        reason,
        marked: m_flag,
        retx,
    };
    take(
        Event::Nack(time, flow, a),
        state,
        flows,
        outstanding,
        marked,
        sizes,
        sent,
        evs,
    )
}

// A loss.
#[unsafe(no_mangle)]
pub extern "C" fn nscc_loss(
    state: &mut [u64],
    flows: &mut [u64],
    outstanding: &mut [u64],
    marked: &mut [u64],
    sizes: &mut [u32],
    sent: &mut [u64],
    evs: &mut [u64],
    time: u64,
    flow: usize,
    psn: u32,
    ev: u32,
) -> u32
    ensures { called_after result state.new flows.new outstanding.new marked.new sizes.new sent.new evs.new
        ≡ on_words state.old flows.old (memory_before outstanding.old marked.old sizes.old sent.old) evs.old
        (on_loss time flow (loss_by psn ev)) }
{
    take(
        Event::Loss(time, flow, Loss { psn, ev }),
        state,
        flows,
        outstanding,
        marked,
        sizes,
        sent,
        evs,
    ) as u32
}

// The next path: the number, and above its 32 bits the EV.
#[unsafe(no_mangle)]
pub extern "C" fn nscc_path(
    state: &mut [u64],
    flows: &mut [u64],
    outstanding: &mut [u64],
    marked: &mut [u64],
    sizes: &mut [u32],
    sent: &mut [u64],
    evs: &mut [u64],
    time: u64,
    flow: usize,
) -> u64
    ensures { called_after result state.new flows.new outstanding.new marked.new sizes.new sent.new evs.new
        ≡ on_beside_words state.old flows.old (memory_before outstanding.old marked.old sizes.old sent.old) evs.old
        (path_beside time flow) }
{
    take(
        Event::Path(time, flow),
        state,
        flows,
        outstanding,
        marked,
        sizes,
        sent,
        evs,
    )
}
