// What firmware asks of a flow's ring, which it need not read itself: the status of a PSN, and the next marked one. Everything is only
// read.
ghost use Rattle.std.specs.Prelude.{◌≡◌, ◌+◌, ◌*◌, ◌^◌};
ghost use Rattle.std.specs.Result.{result_unwrap_or};
ghost use Rattle.rules.specs.Verdict.{number_of};
ghost use Rattle.ledger.specs.Lent.{memory_before};
ghost use Rattle.context.specs.Look.{on_status, on_next_marked};
ghost use Rattle.c_api.specs.Looks.{on_look_words};

use replay::ABOVE;
use rules::verdict::{Refusal, number_of};

// The number, and above its 32 bits what was found: 0 where the look is refused.
fn word_of(look: Result<u32, Refusal>) -> u64
    ensures { result ≡ 2 ^ 32 * result_unwrap_or look 0 + number_of look }
{
    match look {
        Ok(found) => ABOVE * found as u64,
        Err(_) => number_of(look) as u64,
    }
}

// What the flow's ring shows of a PSN: 0 where it is none of low..next-1, 1 flying, 2 marked, 3 done.
#[unsafe(no_mangle)]
pub extern "C" fn nscc_status<'a>(
    state: &'a [u64],
    flows: &'a [u64],
    outstanding: &'a [u64],
    marked: &'a [u64],
    sizes: &'a [u32],
    sent: &'a [u64],
    evs: &'a [u64],
    flow: usize,
    psn: u32,
) -> u64
    ensures { result
        ≡ on_look_words (on_status flow psn) state.now flows.now
        (memory_before outstanding.now marked.now sizes.now sent.now) evs.now }
{
    let given = c_state::unpack(state);
    if !given.good {
        return Refusal::Unsound as u64;
    }
    word_of(context::look::status(
        given.state,
        flows,
        outstanding,
        marked,
        sizes,
        sent,
        evs,
        flow,
        psn,
    ))
}

// The flow's first marked PSN from psn on; next where there is none, or where psn is none of low..next-1.
#[unsafe(no_mangle)]
pub extern "C" fn nscc_next_marked<'a>(
    state: &'a [u64],
    flows: &'a [u64],
    outstanding: &'a [u64],
    marked: &'a [u64],
    sizes: &'a [u32],
    sent: &'a [u64],
    evs: &'a [u64],
    flow: usize,
    psn: u32,
) -> u64
    ensures { result
        ≡ on_look_words (on_next_marked flow psn) state.now flows.now
        (memory_before outstanding.now marked.now sizes.now sent.now) evs.now }
{
    let given = c_state::unpack(state);
    if !given.good {
        return Refusal::Unsound as u64;
    }
    word_of(context::look::next_marked(
        given.state,
        flows,
        outstanding,
        marked,
        sizes,
        sent,
        evs,
        flow,
        psn,
    ))
}
