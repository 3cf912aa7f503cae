// Our own planner: the turns of request M-108, inside the planning only.
ghost use Rattle.std.specs.Prelude.{◌≡◌, true, ◌<◌, ◌≤◌, min, length};
ghost use Rattle.std.specs.Result.{result_unwrap_or};
ghost use Rattle.rules.specs.Verdict.{number_of};
ghost use Rattle.window.specs.Limits.{time_end};
ghost use Rattle.context.specs.Lent.{context_given, context_before};
ghost use Rattle.context.specs.Sound.{sound_context};
ghost use Rattle.plan.specs.Plan.{sends_most, send_count, written};
ghost use Rattle.plan.specs.Planner.{planned_from, proposal, proposed, on_plan};

use crate::ahead::judge_next;
use crate::judge::is_late;
use crate::words::{count, put_send};
use crate::{SENDS_MOST, course};
use context::Controller;
use context::sound::is_sound;
use rules::verdict::Refusal;

// How many sends there is room for, at most 64.
fn room(plan: &[u32]) -> usize
    ensures { result ≡ min (send_count plan.now) sends_most }
{
    count(plan).min(SENDS_MOST)
}

// Turn by turn, past 2 and 3: who is named sends, until nobody is, a send would be refused or the room is full. An inner step: the caller
// proves that these are passed, for some time, which no other test asks for.
fn plan_each<'a, 'b>(
    c: Controller,
    flows: &'a [u64],
    outstanding: &'a [u64],
    marked: &'a [u64],
    sizes: &'a [u32],
    sent: &'a [u64],
    evs: &'a [u64],
    time: u64,
    bytes: u32,
    plan: &'b mut [u32],
) -> usize
    requires evs_value { sound_context (context_given c flows.now outstanding.now marked.now sizes.now sent.now evs.now) ≡ true }
    requires clock_le_time { (c.clock ≤ time) × (time < time_end) }
    ensures { (result ≡ length (planned_from (min (send_count plan.old) sends_most) time bytes
        (context_before c flows.now outstanding.now marked.now sizes.now sent.now evs.now)))
        × (plan.new ≡ written plan.old 0 (planned_from (min (send_count plan.old) sends_most) time bytes
        (context_before c flows.now outstanding.now marked.now sizes.now sent.now evs.now))) }
{
    let n = flow_table::count(flows);
    let cap = sizes.len() / n;
    let most = room(plan);
    let mut s = course::start(c, flows, outstanding, marked, sizes, sent, evs);
    for i in 0..most {
        let Some(k) = course::named(c, cap, n, s) else {
            return i;
        };
        let p = course::send_of(c, flows, outstanding, marked, sizes, sent, evs, s, bytes, k);
        let verdict = judge_next(
            c,
            flows,
            outstanding,
            marked,
            sizes,
            sent,
            evs,
            plan,
            i,
            s.ahead,
            p,
        );
        if verdict.is_err() {
            return i;
        }
        put_send(plan, i, p);
        s = course::after(c, flows, outstanding, marked, sizes, sent, evs, s, p);
    }
    most
}

// The planner: 2, 3, which give no plan, or else how many sends the plan has. Only these are written.
pub fn plan<'a, 'b>(
    c: Controller,
    flows: &'a [u64],
    outstanding: &'a [u64],
    marked: &'a [u64],
    sizes: &'a [u32],
    sent: &'a [u64],
    evs: &'a [u64],
    time: u64,
    bytes: u32,
    plan: &'b mut [u32],
) -> Result<usize, Refusal>
    ensures { proposal (number_of result) (result_unwrap_or result 0) plan.new
        ≡ proposed plan.old
        (on_plan time bytes (send_count plan.old) (context_before c flows.now outstanding.now marked.now sizes.now sent.now evs.now)) }
{
    if !is_sound(c, flows, outstanding, marked, sizes, sent, evs) {
        return Err(Refusal::Unsound);
    }
    if is_late(time, c.clock) {
        return Err(Refusal::Time);
    }
    Ok(plan_each(
        c,
        flows,
        outstanding,
        marked,
        sizes,
        sent,
        evs,
        time,
        bytes,
        plan,
    ))
}
