// Setting up a context.
ghost use Rattle.std.specs.Prelude.{◌≡◌, true};
ghost use Rattle.rules.specs.Verdict.{number_of};
ghost use Rattle.ledger.specs.Lent.{memory_before};
ghost use Rattle.flow_table.specs.Words.{is_table};
ghost use Rattle.sender.specs.Start.{no_settings};
ghost use Rattle.context.specs.Lent.{answered_after};
ghost use Rattle.context.specs.Start.{lengths_ok, fresh_state, fresh_table, on_set_up};

use crate::Controller;
use crate::join::{share, shared};
use crate::sound::is_cut;
use ledger::Flow;
use ledger::ring::RingMut;
use rules::verdict::{Answer, Refusal};
use window::Settings;

// Whether the lengths are those of a context: one to eight whole flows, and as many equal rings.
fn lengths_ok<'a>(
    flows: &'a [u64],
    outstanding: &'a [u64],
    marked: &'a [u64],
    sizes: &'a [u32],
    sent: &'a [u64],
) -> bool
    ensures { result ≡ lengths_ok flows.now (memory_before outstanding.now marked.now sizes.now sent.now) }
{
    if !flow_table::is_table(flows) {
        return false;
    }
    let n = flow_table::count(flows);
    let cap = share(sizes.len(), n);
    is_cut(n, cap, outstanding, marked, sizes, sent)
}

// Every flow from the same PSN on.
fn fresh_flows(flows: &mut [u64], psn: u32)
    requires { is_table flows.old ≡ true }
    ensures { flows.new ≡ fresh_table psn flows.old }
{
    let n = flow_table::count(flows);
    let f = Flow {
        low: psn,
        next: psn,
        held: 0,
        backlog: 0,
    };
    for k in 0..n {
        flow_table::put(flows, k, f);
    }
}

// What is shared of the fresh state.
pub fn fresh(settings: Settings) -> Controller
    ensures { result ≡ fresh_state settings }
{
    shared(0, sender::start::fresh(settings))
}

// A refused setting up: the state of zeros.
fn not_set_up(refusal: Refusal) -> Answer<Controller, ()>
    ensures { (result.state ≡ fresh_state no_settings) × (result.outcome ≡ Err refusal) }
{
    Answer {
        state: fresh(sender::start::no_settings()),
        outcome: Err(refusal),
    }
}

// Setting up: 1, then 2 on lengths only; else the fresh state, every flow at the first PSN, the ring buffer and the EV times cleared.
pub fn set_up<'a, 'b, 'c, 'd, 'e, 'f>(
    settings: Settings,
    flows: &'a mut [u64],
    outstanding: &'b mut [u64],
    marked: &'c mut [u64],
    sizes: &'d mut [u32],
    sent: &'e mut [u64],
    evs: &'f mut [u64],
) -> Answer<Controller, ()>
    ensures { answered_after (number_of result.outcome) result.state flows.new outstanding.new marked.new sizes.new sent.new evs.new
        ≡ on_set_up settings flows.old (memory_before outstanding.old marked.old sizes.old sent.old) evs.old }
{
    if !window::bounds::in_range(settings) {
        return not_set_up(Refusal::Setting);
    }
    if !(lengths_ok(flows, outstanding, marked, sizes, sent)
        & (evs.len() as u64 == settings.ev_count))
    {
        return not_set_up(Refusal::Unsound);
    }
    fresh_flows(flows, settings.first_psn);
    let mut ring = RingMut {
        outstanding,
        marked,
        sizes,
        sent,
    };
    sender::start::clear(&mut ring, evs);
    Answer {
        state: fresh(settings),
        outcome: Ok(()),
    }
}
