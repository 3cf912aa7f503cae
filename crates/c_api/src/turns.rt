// Fair turns (request M-108): which flow sends next. Only the state's turn is moved; table, ring buffer and EV times are only read.
ghost use Rattle.std.specs.Prelude.{◌≡◌, length};
ghost use Rattle.rules.specs.Verdict.{number_of};
ghost use Rattle.ledger.specs.Lent.{memory_before};
ghost use Rattle.context.specs.Turns.{choice_of, named_in};
ghost use Rattle.c_api.specs.Turns.{turn_count, turn_words, turn_after, choosing_after, on_choose_words};

use crate::keep;
use context::choice::Turn;
use rules::verdict::{Answer, Refusal, number_of};

// The words of an answer: whether somebody is named, the flow, whether it sends a marked packet, and the PSN.
pub const TURN_WORDS: usize = 4;

// Who is named, as words: all 0 where nobody is.
fn words_of(choice: Option<Turn>) -> [u64; TURN_WORDS]
    ensures { result ≡ turn_words (choice_of choice) }
{
    match choice {
        Some(Turn { flow, psn, resend }) => [1, flow as u64, resend as u64, psn as u64],
        None => [0; TURN_WORDS],
    }
}

// Stores those words where the choice was accepted. An inner step: the caller proves that there are four.
fn keep_turn(turn: &mut [u64], outcome: Result<Option<Turn>, Refusal>)
    requires { length turn.old ≡ turn_count }
    ensures { turn.new ≡ turn_after (number_of outcome) turn.old (named_in outcome) }
{
    if let Ok(choice) = outcome {
        turn.copy_from_slice(&words_of(choice));
    }
}

// Which flow sends next, or nobody: 2 only.
#[unsafe(no_mangle)]
pub extern "C" fn nscc_choose<'a, 'b, 'c>(
    state: &'a mut [u64],
    flows: &'b [u64],
    outstanding: &'b [u64],
    marked: &'b [u64],
    sizes: &'b [u32],
    sent: &'b [u64],
    evs: &'b [u64],
    turn: &'c mut [u64],
) -> u32
    ensures { choosing_after result state.new turn.new
        ≡ on_choose_words state.old flows.now (memory_before outstanding.now marked.now sizes.now sent.now) evs.now
        turn.old }
{
    if turn.len() != TURN_WORDS {
        return Refusal::Unsound as u32;
    }
    let given = c_state::unpack(state);
    if !given.good {
        return Refusal::Unsound as u32;
    }
    let Answer {
        state: after,
        outcome,
    } = context::choice::choose(given.state, flows, outstanding, marked, sizes, sent, evs);
    let number = number_of(outcome);
    keep(state, number as u64, after);
    keep_turn(turn, outcome);
    number
}
