// The judge of planned sends.
ghost use Rattle.std.specs.Prelude.{◌≡◌, true, ◌||◌, ltb, leb, ◌<◌, ◌≤◌};
ghost use Rattle.rules.specs.Verdict.{refused_number};
ghost use Rattle.window.specs.Limits.{time_end};
ghost use Rattle.context.specs.Lent.{context_given, context_before};
ghost use Rattle.context.specs.Sound.{sound_context};
ghost use Rattle.plan.specs.Plan.{plan_of};
ghost use Rattle.plan.specs.Judge.{judged, judgement_of, made_from, on_judge};

use crate::words::{count, send_at};
use crate::{SENDS_MOST, ahead};
use context::Controller;
use context::sound::is_sound;
use rules::verdict::Refusal;

// Why a plan is refused, and the first send that fails, from 0; 0 where none is named.
#[derive(Clone, Copy)]
pub struct Unfit {
    pub refusal: Refusal,
    pub send: usize,
}

// A time before the held clock, or 2^48 or more: 3.
pub(crate) fn is_late(time: u64, clock: u64) -> bool
    ensures { result ≡ (ltb time clock || leb time_end time) }
{
    (time < clock) | (sender::TIME_END <= time)
}

// No send is named.
#[tactic(auto, unfolding(crate::specs::Judge::judgement_of))]
fn no_send(refusal: Refusal) -> Result<(), Unfit>
    ensures { judgement_of result ≡ judged (refused_number refusal) 0 }
{
    Err(Unfit { refusal, send: 0 })
}

// Send by send, past 2, 3 and 27. An inner step: the caller proves that these are passed.
fn judge_each<'a>(
    c: Controller,
    flows: &'a [u64],
    outstanding: &'a [u64],
    marked: &'a [u64],
    sizes: &'a [u32],
    sent: &'a [u64],
    evs: &'a [u64],
    time: u64,
    plan: &'a [u32],
) -> Result<(), Unfit>
    requires evs_value { sound_context (context_given c flows.now outstanding.now marked.now sizes.now sent.now evs.now) ≡ true }
    requires clock_le_time { (c.clock ≤ time) × (time < time_end) }
    ensures { judgement_of result
        ≡ made_from time 0 (plan_of plan.now) (context_before c flows.now outstanding.now marked.now sizes.now sent.now evs.now) }
{
    let n = count(plan);
    let mut s = ahead::start(c, flows, outstanding, marked, sizes, sent, evs);
    for i in 0..n {
        let p = send_at(plan, i);
        let verdict = ahead::judge_next(
            c,
            flows,
            outstanding,
            marked,
            sizes,
            sent,
            evs,
            plan,
            i,
            s,
            p,
        );
        if let Err(refusal) = verdict {
            return Err(Unfit { refusal, send: i });
        }
        s = ahead::after(s, p);
    }
    Ok(())
}

// The judge: 2, 3, 27, then the first send that fails. Nothing is changed.
pub fn judge<'a>(
    c: Controller,
    flows: &'a [u64],
    outstanding: &'a [u64],
    marked: &'a [u64],
    sizes: &'a [u32],
    sent: &'a [u64],
    evs: &'a [u64],
    time: u64,
    plan: &'a [u32],
) -> Result<(), Unfit>
    ensures { judgement_of result
        ≡ on_judge time (plan_of plan.now) (context_before c flows.now outstanding.now marked.now sizes.now sent.now evs.now) }
{
    if !is_sound(c, flows, outstanding, marked, sizes, sent, evs) {
        return no_send(Refusal::Unsound);
    }
    if is_late(time, c.clock) {
        return no_send(Refusal::Time);
    }
    if SENDS_MOST < count(plan) {
        return no_send(Refusal::PlanTooLong);
    }
    judge_each(c, flows, outstanding, marked, sizes, sent, evs, time, plan)
}
