// A log's bytes in, answers out. Number 2 is tested once a call.
ghost use Rattle.std.specs.Prelude.{◌≡◌, length};
ghost use Rattle.rules.specs.Verdict.{number_of};
ghost use Rattle.c_state.specs.Layout.{word_count};
ghost use Rattle.ledger.specs.Lent.{memory_before, memory_after};
ghost use Rattle.c_api.specs.Batch.{place_count, place_words, place_from, lent_ok, place_then, words_then, replay_called, on_replay_words};

use c_state::WORDS;
use replay::{Batch, Place, Source};
use rules::verdict::{Refusal, number_of};

// The place's words: the offset of the next record, the records done, whether replay has stopped, and how many answers the last call gave.
pub const PLACE_WORDS: usize = 4;

// The flag that a replay has stopped is 0 or 1.
const FLAG_END: u64 = 2;

// Whether place and state have their words, and the place's flag is one.
fn is_lent<'a>(place: &'a [u64], state: &'a [u64]) -> bool
    ensures { result ≡ lent_ok place.now state.now }
{
    if place.len() != PLACE_WORDS {
        return false;
    }
    (state.len() == WORDS) & (place[2] < FLAG_END)
}

// The place of its words. An inner step: the caller proves that there are four. Neither type is this crate's, so it is no From.
fn place_of(ws: &[u64]) -> Place
    requires { length ws.now ≡ place_count }
    ensures { result ≡ place_from ws.now }
{
    Place {
        at: ws[0] as usize,
        done: ws[1],
        stopped: ws[2] == 1,
    }
}

// Stores the place's words. An inner step: the caller proves that there are four.
fn keep_place(ws: &mut [u64], place: Place, count: usize)
    requires { length ws.old ≡ place_count }
    ensures { ws.new ≡ place_words place count }
{
    let Place { at, done, stopped } = place;
    ws.copy_from_slice(&[at as u64, done, stopped as u64, count as u64]);
}

// Stores what a batch gave, unless it was refused, and answers its number. An inner step: the caller proves that there are the words.
fn keep_batch<'a, 'b>(place: &'a mut [u64], state: &'b mut [u64], batch: Batch) -> u32
    requires { (length place.old ≡ place_count) × (length state.old ≡ word_count) }
    ensures { (result ≡ number_of batch.verdict)
        × (place.new ≡ place_then (number_of batch.verdict) batch.place batch.count place.old)
        × (state.new ≡ words_then (number_of batch.verdict) batch.place batch.count batch.state state.old) }
{
    let Batch {
        verdict,
        count,
        place: after,
        state: now,
    } = batch;
    let number = number_of(verdict);
    if verdict.is_err() {
        return number;
    }
    keep_place(place, after, count);
    if (count != 0) & (after.done != 0) {
        c_state::store(state, now);
    }
    number
}

// Replays a log from a place on, until the answers' room is full, the log ends or replay stops.
#[unsafe(no_mangle)]
pub extern "C" fn nscc_replay(
    place: &mut [u64],
    state: &mut [u64],
    flows: &mut [u64],
    outstanding: &mut [u64],
    marked: &mut [u64],
    sizes: &mut [u32],
    sent: &mut [u64],
    evs: &mut [u64],
    log: &[u8],
    answers: &mut [u64],
) -> u32
    ensures { replay_called result place.new state.new
        flows.new (memory_after outstanding.new marked.new sizes.new sent.new) evs.new answers.new
        ≡ on_replay_words log.now place.old state.old
        flows.old (memory_before outstanding.old marked.old sizes.old sent.old) evs.old answers.old }
{
    if !is_lent(place, state) {
        return Refusal::Unsound as u32;
    }
    let from = place_of(place);
    let given = c_state::unpack(state);
    let batch = replay::replay(
        Source::Log,
        from,
        given.state,
        flows,
        outstanding,
        marked,
        sizes,
        sent,
        evs,
        log,
        answers,
    );
    keep_batch(place, state, batch)
}
