// One flow of a context: its record beside what is shared, and where its part of the ring buffer lies. Inner steps: the caller proves what
// each asks for.
ghost use Rattle.std.specs.Prelude.{◌≡◌, ◌+◌, ◌*◌, ◌/◌, ◌<◌, ◌≤◌, true, ◌||◌, ltb, leb};
ghost use Rattle.rules.specs.Branch.{if_so};
ghost use Rattle.rules.specs.Verdict.{number_of, refused_number};
ghost use Rattle.window.specs.Limits.{time_end};
ghost use Rattle.ledger.specs.Sound.{is_capacity};
ghost use Rattle.flow_table.specs.Parts.{words_in};
ghost use Rattle.flow_table.specs.Words.{flows_most, count_of, flow_at, with_flow, with_backlog, with_sent, with_acked};
ghost use Rattle.context.specs.Context.{joined_of, shared_of, Leaves};

use crate::Controller;
use ledger::Flow;
use rules::verdict::Refusal;
use window::Sampling;

// What is shared, with a flow's record: what the step of one flow works on.
pub(crate) fn joined(c: Controller, flow: Flow) -> sender::Controller
    ensures { result ≡ joined_of c flow }
{
    let Controller {
        settings,
        totals,
        window,
        clock,
        cursor,
        phase,
        turn: _,
    } = c;
    sender::Controller {
        settings,
        flow,
        totals,
        window,
        clock,
        cursor,
        phase,
    }
}

// And back: all but the flow's record, with the held turn, which no flow's step sees.
pub(crate) fn shared(turn: u64, s: sender::Controller) -> Controller
    ensures { result ≡ shared_of turn s }
{
    let sender::Controller {
        settings,
        flow: _,
        totals,
        window,
        clock,
        cursor,
        phase,
    } = s;
    Controller {
        settings,
        totals,
        window,
        clock,
        cursor,
        phase,
        turn,
    }
}

// Slots in equal shares. One and eight are what contexts mostly have; the compiler divides by these without a division.
pub(crate) fn share(slots: usize, n: usize) -> usize
    requires { 0 < n }
    ensures { result ≡ slots / n }
{
    if n == 1 {
        return slots;
    }
    if n == flow_table::FLOWS_MOST {
        return slots / flow_table::FLOWS_MOST;
    }
    slots / n
}

// Where flow k's part lies: its bits are the words from..end-1, its slots at..to-1.
#[derive(Clone, Copy)]
pub(crate) struct Cut {
    pub from: usize,
    pub end: usize,
    pub at: usize,
    pub to: usize,
}

// The cut of flow k, where the ring of each flow has `cap` slots.
pub(crate) fn cut_at(cap: usize, k: usize) -> Cut
    requires { (k < flows_most) × (cap ≤ 32768) }
    ensures { (result.from ≡ k * words_in cap) × (result.end ≡ k * words_in cap + words_in cap)
        × (result.at ≡ k * cap) × (result.to ≡ k * cap + cap) }
{
    let words = cap / bits::WORD_BITS;
    let from = k * words;
    let at = k * cap;
    Cut {
        from,
        end: from + words,
        at,
        to: at + cap,
    }
}

// How many slots each of n rings has that fill so many: a power of two, so the highest bits tell it. A division would wait for the test
// that there is a flow; this does not, and a replay works it out once and not for each record (docs/PERFORMANCE.md).
fn capacity(slots: usize, n: usize) -> usize
    requires { (0 < n) × (n ≤ flows_most) × (is_capacity (slots / n) ≡ true) × (slots ≡ n * (slots / n)) }
    ensures { result ≡ slots / n }
{
    1 << (usize::leading_zeros(n) - usize::leading_zeros(slots))
}

// The cut of flow k, of n flows whose rings fill so many slots.
pub(crate) fn cut_of(slots: usize, n: usize, k: usize) -> Cut
    requires { (k < n) × (n ≤ flows_most) × (is_capacity (slots / n) ≡ true) × (slots ≡ n * (slots / n)) }
    ensures { (result.from ≡ k * words_in (slots / n)) × (result.end ≡ k * words_in (slots / n) + words_in (slots / n))
        × (result.at ≡ k * (slots / n)) × (result.to ≡ k * (slots / n) + slots / n) }
{
    cut_at(capacity(slots, n), k)
}

// A flow out of range: 3, then 25.
pub(crate) fn no_flow(time: u64, clock: u64) -> Refusal
    ensures { refused_number result ≡ if_so (ltb time clock || leb time_end time) 3 25 }
{
    if (time < clock) | (sender::TIME_END <= time) {
        return Refusal::Time;
    }
    Refusal::Flow
}

// The record of flow k becomes f where its event was accepted; a refused one leaves it as it was. Behind a store that both make, the
// compiler would no longer know of any answer whether it is 0. Only the words that the event can change are stored (docs/DECISIONS.md).
// Inner steps: the caller proves that there is such a flow, and that f is what the event leaves of the record that stands there.

// After new data.
pub(crate) fn keep_backlog(flows: &mut [u64], k: usize, f: Flow, outcome: Result<(), Refusal>)
    requires k_bound { k < count_of flows.old }
    requires leaves { Leaves with_backlog (number_of outcome) (flow_at flows.old k) f }
    ensures { flows.new ≡ with_flow flows.old k f }
{
    if outcome.is_ok() {
        flow_table::put_backlog(flows, k, f);
    }
}

// After a send.
pub(crate) fn keep_sent(flows: &mut [u64], k: usize, f: Flow, outcome: Result<(), Refusal>)
    requires k_bound { k < count_of flows.old }
    requires leaves { Leaves with_sent (number_of outcome) (flow_at flows.old k) f }
    ensures { flows.new ≡ with_flow flows.old k f }
{
    if outcome.is_ok() {
        flow_table::put_sent(flows, k, f);
    }
}

// After an ACK.
pub(crate) fn keep_acked(flows: &mut [u64], k: usize, f: Flow, outcome: Result<Sampling, Refusal>)
    requires k_bound { k < count_of flows.old }
    requires leaves { Leaves with_acked (number_of outcome) (flow_at flows.old k) f }
    ensures { flows.new ≡ with_flow flows.old k f }
{
    if outcome.is_ok() {
        flow_table::put_acked(flows, k, f);
    }
}
