// Planned sends (request M-111): the judge of a plan, and the planner. State, table, ring buffer and EV times are only read.
ghost use Rattle.std.specs.Prelude.{◌≡◌};
ghost use Rattle.ledger.specs.Lent.{memory_before};
ghost use Rattle.c_api.specs.Plans.{on_judge_words, plan_called, on_plan_words};

use plan::SEND_WORDS;
use replay::ABOVE;
use rules::verdict::{Refusal, number_of};

// The judge: the number, and above its 32 bits the first send that fails. A plan that is not of whole sends is 2.
#[unsafe(no_mangle)]
pub extern "C" fn nscc_judge<'a>(
    state: &'a [u64],
    flows: &'a [u64],
    outstanding: &'a [u64],
    marked: &'a [u64],
    sizes: &'a [u32],
    sent: &'a [u64],
    evs: &'a [u64],
    time: u64,
    plan: &'a [u32],
) -> u64
    ensures { result
        ≡ on_judge_words time plan.now state.now flows.now
        (memory_before outstanding.now marked.now sizes.now sent.now) evs.now }
{
    if plan.len() % SEND_WORDS != 0 {
        return Refusal::Unsound as u64;
    }
    let given = c_state::unpack(state);
    if !given.good {
        return Refusal::Unsound as u64;
    }
    let judged = plan::judge::judge(
        given.state,
        flows,
        outstanding,
        marked,
        sizes,
        sent,
        evs,
        time,
        plan,
    );
    match judged {
        Ok(()) => 0,
        Err(unfit) => ABOVE * unfit.send as u64 + number_of::<()>(Err(unfit.refusal)) as u64,
    }
}

// The planner: the number, and above its 32 bits how many sends the plan has.
#[unsafe(no_mangle)]
pub extern "C" fn nscc_plan<'a, 'b>(
    state: &'a [u64],
    flows: &'a [u64],
    outstanding: &'a [u64],
    marked: &'a [u64],
    sizes: &'a [u32],
    sent: &'a [u64],
    evs: &'a [u64],
    time: u64,
    bytes: u32,
    plan: &'b mut [u32],
) -> u64
    ensures { plan_called result plan.new
        ≡ on_plan_words time bytes plan.old state.now flows.now
        (memory_before outstanding.now marked.now sizes.now sent.now) evs.now }
{
    let given = c_state::unpack(state);
    if !given.good {
        return Refusal::Unsound as u64;
    }
    let made = plan::planner::plan(
        given.state,
        flows,
        outstanding,
        marked,
        sizes,
        sent,
        evs,
        time,
        bytes,
        plan,
    );
    ABOVE * made.unwrap_or(0) as u64 + number_of(made) as u64
}
