// Each event for a caller who knows that state and buffers hold together: the entry point without its test of number 2. A replay tests
// once; what an event leaves holds together again (proofs/Kept), whatever it answers. A NACK and a loss, which share their judge, have one
// answer for both cases: with two the compiler copies the state for every event (docs/PERFORMANCE.md).
ghost use Rattle.std.specs.Prelude.{◌≡◌};
ghost use Rattle.std.specs.Result.{result_unwrap_or};
ghost use Rattle.rules.specs.Verdict.{number_of};
ghost use Rattle.ledger.specs.Lent.{memory_of};
ghost use Rattle.sender.specs.World.{world, answered, routed};
ghost use Rattle.sender.specs.Lent.{world_given, world_before, answered_after};
ghost use Rattle.sender.specs.Sound.{Holds};
ghost use Rattle.sender.specs.Events.{says_of, past_new_data, past_send, past_ack, past_ack_says, past_nack, past_nack_says};
ghost use Rattle.sender.specs.Events.{past_loss, past_path};

use crate::{Ack, Controller, Loss, Nack, Send, judge, steps};
use ledger::ring::{Ring, RingMarks, RingMut};
use rules::verdict::Answer;
use window::Sampling;

// New data in the backlog. The ring and the EV times are lent for what is required of them.
pub fn new_data(
    c: Controller,
    ring: Ring<'_>,
    evs: &[u64],
    time: u64,
    bytes: u64,
) -> Answer<Controller, ()>
    requires { Holds (world c (memory_of ring) evs.now) }
    ensures { answered (number_of result.outcome) result.state (memory_of ring.entry) evs.now
        ≡ past_new_data time bytes (world c (memory_of ring.entry) evs.now) }
{
    match judge::judge_new_data(c, time, bytes) {
        Ok(()) => Answer {
            state: steps::new_data(c, time, bytes),
            outcome: Ok(()),
        },
        Err(refusal) => Answer {
            state: c,
            outcome: Err(refusal),
        },
    }
}

// A new packet or a resend. Here and in the three below the ring stays four slices: a context lends parts of its own, and of a part that a
// struct holds the proof keeps no more than the length.
pub fn send<'a, 'b, 'c, 'd, 'e>(
    c: Controller,
    outstanding: &'a mut [u64],
    marked: &'b mut [u64],
    sizes: &'c mut [u32],
    sent: &'d mut [u64],
    evs: &'e [u64],
    time: u64,
    a: Send,
) -> Answer<Controller, ()>
    requires { Holds (world_given c outstanding.old marked.old sizes.old sent.old evs.now) }
    ensures { answered_after (number_of result.outcome) result.state outstanding.new marked.new sizes.new sent.new evs.now
        ≡ past_send time a (world_before c outstanding.old marked.old sizes.old sent.old evs.now) }
{
    let ring = Ring {
        outstanding,
        marked,
        sizes,
        sent,
    };
    match judge::judge_send(c, ring, time, a) {
        Ok(()) => {
            let mut ring = RingMut {
                outstanding,
                marked,
                sizes,
                sent,
            };
            Answer {
                state: steps::send(c, &mut ring, evs, time, a),
                outcome: Ok(()),
            }
        }
        Err(refusal) => Answer {
            state: c,
            outcome: Err(refusal),
        },
    }
}

// An ACK.
pub fn ack<'a, 'b, 'c, 'd, 'e>(
    c: Controller,
    outstanding: &'a mut [u64],
    marked: &'b mut [u64],
    sizes: &'c mut [u32],
    sent: &'d mut [u64],
    evs: &'e mut [u64],
    time: u64,
    a: Ack,
) -> Answer<Controller, Sampling>
    requires { Holds (world_given c outstanding.old marked.old sizes.old sent.old evs.old) }
    ensures evs_value { answered_after (number_of result.outcome) result.state outstanding.new marked.new sizes.new sent.new evs.new
        ≡ past_ack time a (world_before c outstanding.old marked.old sizes.old sent.old evs.old) }
    ensures feedback_value { says_of result.outcome ≡ past_ack_says time a (world_before c outstanding.old marked.old sizes.old sent.old evs.old) }
{
    match judge::judge_ack(c, time, a) {
        Ok(()) => {
            let mut ring = RingMut {
                outstanding,
                marked,
                sizes,
                sent,
            };
            let step = steps::ack(c, &mut ring, evs, time, a);
            Answer {
                state: step.state,
                outcome: Ok(step.gives),
            }
        }
        Err(refusal) => Answer {
            state: c,
            outcome: Err(refusal),
        },
    }
}

// A NACK.
pub fn nack<'a, 'b, 'c>(
    c: Controller,
    outstanding: &'b [u64],
    marked: &'a mut [u64],
    sizes: &'b [u32],
    sent: &'b [u64],
    evs: &'c mut [u64],
    time: u64,
    a: Nack,
) -> Answer<Controller, Sampling>
    requires { Holds (world_given c outstanding.now marked.old sizes.now sent.now evs.old) }
    ensures evs_value { answered_after (number_of result.outcome) result.state outstanding.now marked.new sizes.now sent.now evs.new
        ≡ past_nack time a (world_before c outstanding.now marked.old sizes.now sent.now evs.old) }
    ensures feedback_value { says_of result.outcome ≡ past_nack_says time a (world_before c outstanding.now marked.old sizes.now sent.now evs.old) }
{
    let ring = Ring {
        outstanding,
        marked,
        sizes,
        sent,
    };
    let mut state = c;
    let outcome = match judge::judge_nack(c, ring, time, a) {
        Ok(()) => {
            let mut ring = RingMarks {
                outstanding,
                marked,
                sizes,
                sent,
            };
            let step = steps::nack(c, &mut ring, evs, time, a);
            state = step.state;
            Ok(step.gives)
        }
        Err(refusal) => Err(refusal),
    };
    Answer { state, outcome }
}

// A loss.
pub fn loss<'a, 'b, 'c>(
    c: Controller,
    outstanding: &'b [u64],
    marked: &'a mut [u64],
    sizes: &'b [u32],
    sent: &'b [u64],
    evs: &'c mut [u64],
    time: u64,
    a: Loss,
) -> Answer<Controller, ()>
    requires { Holds (world_given c outstanding.now marked.old sizes.now sent.now evs.old) }
    ensures { answered_after (number_of result.outcome) result.state outstanding.now marked.new sizes.now sent.now evs.new
        ≡ past_loss time a (world_before c outstanding.now marked.old sizes.now sent.now evs.old) }
{
    let ring = Ring {
        outstanding,
        marked,
        sizes,
        sent,
    };
    let outcome = judge::judge_loss(c, ring, time, a);
    let mut state = c;
    if outcome.is_ok() {
        let mut ring = RingMarks {
            outstanding,
            marked,
            sizes,
            sent,
        };
        state = steps::loss(c, &mut ring, evs, time, a);
    }
    Answer { state, outcome }
}

// The next path. The EV times are only read, the ring is lent for what is required of it.
pub fn path(c: Controller, ring: Ring<'_>, evs: &[u64], time: u64) -> Answer<Controller, u32>
    requires { Holds (world c (memory_of ring) evs.now) }
    ensures { routed (number_of result.outcome) (result_unwrap_or result.outcome 0) result.state (memory_of ring.entry) evs.now
        ≡ past_path time (world c (memory_of ring.entry) evs.now) }
{
    match judge::judge_path(c, time) {
        Ok(()) => {
            let step = steps::path(c, evs, time);
            Answer {
                state: step.state,
                outcome: Ok(step.gives),
            }
        }
        Err(refusal) => Answer {
            state: c,
            outcome: Err(refusal),
        },
    }
}
