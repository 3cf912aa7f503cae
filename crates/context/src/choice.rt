// Fair turns, request M-108: which flow sends next, or nobody. A choice has no time and tests number 2 only; it changes nothing but the
// held turn.
ghost use Rattle.std.specs.Prelude.{◌≡◌, true, ◌+◌, ◌-◌, ◌%◌, ◌<◌, ◌≤◌};
ghost use Rattle.std.proofs.Math.Option.{none, some};
ghost use Rattle.rules.specs.Branch.{if_so};
ghost use Rattle.rules.specs.Verdict.{number_of};
ghost use Rattle.flow_table.specs.Words.{count_of};
ghost use Rattle.context.specs.Lent.{context_given, context_before};
ghost use Rattle.context.specs.Sound.{sound_context};
ghost use Rattle.context.specs.Turns.{is_ready, numbers, first_ready, named_by, offered_by, choice_of, named_in, with_turn, chose, on_choose};

use crate::Controller;
use crate::join::share;
use crate::look::marked_from;
use crate::sound::is_sound;
use rules::verdict::{Answer, Refusal};

// What the flow that is named sends: its marked packet nearest to low, or else a new packet, whose PSN is next.
#[derive(Clone, Copy)]
pub struct Turn {
    pub flow: usize,
    pub psn: u32,
    pub resend: bool,
}

// What flow k sends if it is ready. The words of its marked bits tell whether it has a marked packet. Inner steps, this and the next two:
// the caller proves that state and buffers hold together, and that there are such flows.
fn offer<'a>(
    c: Controller,
    flows: &'a [u64],
    outstanding: &'a [u64],
    marked: &'a [u64],
    sizes: &'a [u32],
    sent: &'a [u64],
    evs: &'a [u64],
    k: usize,
) -> Option<Turn>
    requires evs_value { sound_context (context_given c flows.now outstanding.now marked.now sizes.now sent.now evs.now) ≡ true }
    requires k_bound { k < count_of flows.now }
    ensures { choice_of result ≡ offered_by (context_before c flows.now outstanding.now marked.now sizes.now sent.now evs.now)
        (if_so (is_ready (context_before c flows.now outstanding.now marked.now sizes.now sent.now evs.now) k) (some k) none) }
{
    let f = flow_table::flow_at(flows, k);
    let psn = marked_from(c, flows, outstanding, marked, sizes, sent, evs, k, f.low);
    let resend = psn != f.next;
    if resend {
        return Some(Turn {
            flow: k,
            psn,
            resend,
        });
    }
    let cap = share(sizes.len(), flow_table::count(flows));
    if (0 < f.backlog) & (serial::psn_minus(f.next, f.low) as usize != cap) {
        return Some(Turn {
            flow: k,
            psn,
            resend,
        });
    }
    None
}

// What the first ready flow of `from` to end - 1 sends.
fn first_ready<'a>(
    c: Controller,
    flows: &'a [u64],
    outstanding: &'a [u64],
    marked: &'a [u64],
    sizes: &'a [u32],
    sent: &'a [u64],
    evs: &'a [u64],
    from: usize,
    end: usize,
) -> Option<Turn>
    requires evs_value { sound_context (context_given c flows.now outstanding.now marked.now sizes.now sent.now evs.now) ≡ true }
    requires from_le_end { (from ≤ end) × (end ≤ count_of flows.now) }
    ensures { choice_of result ≡ offered_by (context_before c flows.now outstanding.now marked.now sizes.now sent.now evs.now)
        (first_ready (is_ready (context_before c flows.now outstanding.now marked.now sizes.now sent.now evs.now)) (numbers from (end - from))) }
{
    for k in from..end {
        let offered = offer(c, flows, outstanding, marked, sizes, sent, evs, k);
        if let Some(turn) = offered {
            return Some(turn);
        }
    }
    None
}

// Whom the round names: the flows from the held turn on, then those before it.
fn round<'a>(
    c: Controller,
    flows: &'a [u64],
    outstanding: &'a [u64],
    marked: &'a [u64],
    sizes: &'a [u32],
    sent: &'a [u64],
    evs: &'a [u64],
) -> Option<Turn>
    requires { sound_context (context_given c flows.now outstanding.now marked.now sizes.now sent.now evs.now) ≡ true }
    ensures { choice_of result ≡ offered_by (context_before c flows.now outstanding.now marked.now sizes.now sent.now evs.now)
        (named_by (context_before c flows.now outstanding.now marked.now sizes.now sent.now evs.now)) }
{
    if !sender::naming::has_room(c.settings.mtu, c.window.cwnd, c.totals.in_flight) {
        return None;
    }
    let turn = c.turn as usize;
    let n = flow_table::count(flows);
    let first = first_ready(c, flows, outstanding, marked, sizes, sent, evs, turn, n);
    if let Some(named) = first {
        return Some(named);
    }
    first_ready(c, flows, outstanding, marked, sizes, sent, evs, 0, turn)
}

// The flow after flow k, of n.
pub fn after(k: usize, n: usize) -> u64
    requires { k < n }
    ensures { result ≡ (k + 1) % n }
{
    if k + 1 < n {
        return (k + 1) as u64;
    }
    0
}

// The state with another turn.
fn with_turn(c: Controller, turn: u64) -> Controller
    ensures { result ≡ with_turn turn c }
{
    Controller { turn, ..c }
}

// Which flow sends next, and what; the turn moves to the flow after the one named, and stays where nobody is.
pub fn choose<'a>(
    c: Controller,
    flows: &'a [u64],
    outstanding: &'a [u64],
    marked: &'a [u64],
    sizes: &'a [u32],
    sent: &'a [u64],
    evs: &'a [u64],
) -> Answer<Controller, Option<Turn>>
    ensures { chose (number_of result.outcome) (named_in result.outcome)
        (context_before result.state flows.now outstanding.now marked.now sizes.now sent.now evs.now)
        ≡ on_choose (context_before c flows.now outstanding.now marked.now sizes.now sent.now evs.now) }
{
    if !is_sound(c, flows, outstanding, marked, sizes, sent, evs) {
        return Answer {
            state: c,
            outcome: Err(Refusal::Unsound),
        };
    }
    let choice = round(c, flows, outstanding, marked, sizes, sent, evs);
    let Some(turn) = choice else {
        return Answer {
            state: c,
            outcome: Ok(None),
        };
    };
    Answer {
        state: with_turn(c, after(turn.flow, flow_table::count(flows))),
        outcome: Ok(Some(turn)),
    }
}
