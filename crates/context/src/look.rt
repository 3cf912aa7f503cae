// What firmware asks of a flow's ring, which it need not read itself (request M-109). The context is tested for number 2, as by every call,
// then the flow for number 25 (request M-107), and nothing is changed.
ghost use Rattle.std.specs.Prelude.{◌≡◌, true, ◌<◌};
ghost use Rattle.std.specs.Result.{result_unwrap_or};
ghost use Rattle.rules.specs.Verdict.{number_of};
ghost use Rattle.sender.specs.Look.{looked};
ghost use Rattle.flow_table.specs.Words.{count_of};
ghost use Rattle.context.specs.Lent.{context_given, context_before};
ghost use Rattle.context.specs.Sound.{sound_context};
ghost use Rattle.context.specs.Look.{packet_in, on_status, marked_from, on_next_marked};

use crate::Controller;
use crate::join::{Cut, cut_of};
use crate::sound::is_sound;
use ledger::ring::Ring;
use ledger::{Books, Packet};
use rules::verdict::Refusal;

// The packet of a PSN of flow k, past both tests; all zero where it is none of low..next-1. An inner step, like the next but one: the
// caller proves that they are passed.
pub fn packet_at<'a>(
    c: Controller,
    flows: &'a [u64],
    outstanding: &'a [u64],
    marked: &'a [u64],
    sizes: &'a [u32],
    sent: &'a [u64],
    evs: &'a [u64],
    flow: usize,
    psn: u32,
) -> Packet
    requires evs_value { sound_context (context_given c flows.now outstanding.now marked.now sizes.now sent.now evs.now) ≡ true }
    requires flow_bound { flow < count_of flows.now }
    ensures { result ≡ packet_in flow psn (context_before c flows.now outstanding.now marked.now sizes.now sent.now evs.now) }
{
    let n = flow_table::count(flows);
    let Cut { from, end, at, to } = cut_of(sizes.len(), n, flow);
    let ring = Ring {
        outstanding: &outstanding[from..end],
        marked: &marked[from..end],
        sizes: &sizes[at..to],
        sent: &sent[at..to],
    };
    ledger::slots::find(flow_table::flow_at(flows, flow), ring, psn)
}

// The status that flow k's ring shows of a PSN: 0 where it is none of low..next-1.
pub fn status<'a>(
    c: Controller,
    flows: &'a [u64],
    outstanding: &'a [u64],
    marked: &'a [u64],
    sizes: &'a [u32],
    sent: &'a [u64],
    evs: &'a [u64],
    flow: usize,
    psn: u32,
) -> Result<u32, Refusal>
    ensures { looked (number_of result) (result_unwrap_or result 0)
        ≡ on_status flow psn (context_before c flows.now outstanding.now marked.now sizes.now sent.now evs.now) }
{
    if !is_sound(c, flows, outstanding, marked, sizes, sent, evs) {
        return Err(Refusal::Unsound);
    }
    if flow_table::count(flows) <= flow {
        return Err(Refusal::Flow);
    }
    let x = packet_at(c, flows, outstanding, marked, sizes, sent, evs, flow, psn);
    Ok(x.status as u32)
}

// Flow k's first marked PSN from psn on, past both tests.
pub fn marked_from<'a>(
    c: Controller,
    flows: &'a [u64],
    outstanding: &'a [u64],
    marked: &'a [u64],
    sizes: &'a [u32],
    sent: &'a [u64],
    evs: &'a [u64],
    flow: usize,
    psn: u32,
) -> u32
    requires evs_value { sound_context (context_given c flows.now outstanding.now marked.now sizes.now sent.now evs.now) ≡ true }
    requires flow_bound { flow < count_of flows.now }
    ensures { result ≡ marked_from flow psn (context_before c flows.now outstanding.now marked.now sizes.now sent.now evs.now) }
{
    let n = flow_table::count(flows);
    let Cut { from, end, at, to } = cut_of(sizes.len(), n, flow);
    let flow = flow_table::flow_at(flows, flow);
    let ring = Ring {
        outstanding: &outstanding[from..end],
        marked: &marked[from..end],
        sizes: &sizes[at..to],
        sent: &sent[at..to],
    };
    ledger::seek::next_marked(
        Books {
            flow,
            totals: c.totals,
        },
        ring,
        psn,
    )
}

// Flow k's first marked PSN from psn on; next where there is none, or where psn is none of low..next-1.
pub fn next_marked<'a>(
    c: Controller,
    flows: &'a [u64],
    outstanding: &'a [u64],
    marked: &'a [u64],
    sizes: &'a [u32],
    sent: &'a [u64],
    evs: &'a [u64],
    flow: usize,
    psn: u32,
) -> Result<u32, Refusal>
    ensures { looked (number_of result) (result_unwrap_or result 0)
        ≡ on_next_marked flow psn (context_before c flows.now outstanding.now marked.now sizes.now sent.now evs.now) }
{
    if !is_sound(c, flows, outstanding, marked, sizes, sent, evs) {
        return Err(Refusal::Unsound);
    }
    if flow_table::count(flows) <= flow {
        return Err(Refusal::Flow);
    }
    Ok(marked_from(c, flows, outstanding, marked, sizes, sent, evs, flow, psn))
}
