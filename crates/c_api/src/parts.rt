// A log's bytes in chunks, request M-104: answers out as records become whole. Number 2 is tested once a call.
ghost use Rattle.std.specs.Prelude.{◌≡◌, length};
ghost use Rattle.rules.specs.Verdict.{number_of};
ghost use Rattle.c_state.specs.Layout.{word_count};
ghost use Rattle.ledger.specs.Lent.{memory_before, memory_after};
ghost use Rattle.c_api.specs.Batch.{words_then};
ghost use Rattle.c_api.specs.Parts.{part_count, part_words, carry_from, part_ok, part_then, chunk_called, on_chunk_words};

use c_state::WORDS;
use replay::Place;
use replay_chunks::{Carry, Took};
use rules::verdict::{Refusal, number_of};

// What is carried between chunks: the offset of the next record, the records done, whether replay has stopped, the piece's length, how many
// answers the last call gave, and how many bytes of its chunk it took.
pub const PART_WORDS: usize = 6;

// The flag that a replay has stopped is 0 or 1.
const FLAG_END: u64 = 2;

// Whether what is carried and the state have their words, and the flag is one.
fn is_lent<'a>(part: &'a [u64], state: &'a [u64]) -> bool
    ensures { result ≡ part_ok part.now state.now }
{
    if part.len() != PART_WORDS {
        return false;
    }
    (state.len() == WORDS) & (part[2] < FLAG_END)
}

// What is carried, of its words. An inner step: the caller proves that there are six. Neither type is this crate's, so it is no From.
fn carry_of(ws: &[u64]) -> Carry
    requires { length ws.now ≡ part_count }
    ensures { result ≡ carry_from ws.now }
{
    Carry {
        length: ws[3] as usize,
        place: Place {
            at: ws[0] as usize,
            done: ws[1],
            stopped: ws[2] == 1,
        },
    }
}

// Stores the words of what is carried. An inner step: the caller proves that there are six.
fn keep_part(ws: &mut [u64], carry: Carry, count: usize, taken: usize)
    requires { length ws.old ≡ part_count }
    ensures { ws.new ≡ part_words carry count taken }
{
    let Carry { length, place } = carry;
    let Place { at, done, stopped } = place;
    ws.copy_from_slice(&[
        at as u64,
        done,
        stopped as u64,
        length as u64,
        count as u64,
        taken as u64,
    ]);
}

// Stores what a chunk gave, unless it was refused, and answers its number. An inner step: the caller proves that there are the words.
fn keep_took<'a, 'b>(part: &'a mut [u64], state: &'b mut [u64], took: Took) -> u32
    requires { (length part.old ≡ part_count) × (length state.old ≡ word_count) }
    ensures { (result ≡ number_of took.verdict)
        × (part.new ≡ part_then (number_of took.verdict) took.carry took.count took.taken part.old)
        × (state.new ≡ words_then (number_of took.verdict) took.carry.place took.count took.state
        state.old) }
{
    let Took {
        verdict,
        taken,
        count,
        carry,
        state: now,
    } = took;
    let number = number_of(verdict);
    if verdict.is_err() {
        return number;
    }
    keep_part(part, carry, count, taken);
    if (count != 0) & (carry.place.done != 0) {
        c_state::store(state, now);
    }
    number
}

// Replays a chunk of a log behind those before it, until the answers' room is full, no record is whole or replay stops.
// `ended`: the log ends with the chunk.
#[unsafe(no_mangle)]
pub extern "C" fn nscc_chunk(
    part: &mut [u64],
    piece: &mut [u8],
    state: &mut [u64],
    flows: &mut [u64],
    outstanding: &mut [u64],
    marked: &mut [u64],
    sizes: &mut [u32],
    sent: &mut [u64],
    evs: &mut [u64],
    chunk: &[u8],
    ended: bool,
    answers: &mut [u64],
) -> u32
    ensures { chunk_called result part.new piece.new state.new
        flows.new (memory_after outstanding.new marked.new sizes.new sent.new) evs.new answers.new
        ≡ on_chunk_words chunk.now ended part.old piece.old state.old
        flows.old (memory_before outstanding.old marked.old sizes.old sent.old) evs.old answers.old }
{
    if !is_lent(part, state) {
        return Refusal::Unsound as u32;
    }
    let carry = carry_of(part);
    let given = c_state::unpack(state);
    let took = replay_chunks::chunk(
        carry,
        given.state,
        flows,
        outstanding,
        marked,
        sizes,
        sent,
        evs,
        piece,
        chunk,
        ended,
        answers,
    );
    keep_took(part, state, took)
}
