// What the judge keeps of a plan's first sends, by value: a send is judged by this and by the context as it was handed in, so no ring is
// copied. Inner steps: the caller proves that state and buffers hold together, and what is asked of the sends before.
ghost use Rattle.std.specs.Prelude.{◌≡◌, true, false, ◌<◌, ◌≤◌, ◌^◌, get_or};
ghost use Rattle.rules.specs.Branch.{if_so};
ghost use Rattle.rules.specs.Rows.{first_of};
ghost use Rattle.rules.specs.Verdict.{number_of};
ghost use Rattle.ledger.specs.Bounds.{Flown};
ghost use Rattle.ledger.specs.Rows.{new_rows};
ghost use Rattle.flow_table.specs.Words.{count_of, flows_most, no_flow};
ghost use Rattle.context.specs.Context.{cap_in};
ghost use Rattle.context.specs.Lent.{context_given, context_before};
ghost use Rattle.context.specs.Sound.{sound_context};
ghost use Rattle.plan.specs.Plan.{send_count};
ghost use Rattle.plan.specs.Ahead.{flow_by, ahead_of, pushed, flows_after, ahead_after, again_number, ahead_number};

use crate::Planned;
use crate::words::sent_again;
use context::Controller;
use flow_table::lent::{Flows, from_words, nth, with_record};
use ledger::Flow;
use rules::verdict::{Refusal, Verdict};
use sender::Send;

// The flows' records and in-flight, as a plan's first sends leave them.
#[derive(Clone, Copy)]
pub struct Ahead {
    pub flows: Flows,
    pub in_flight: i64,
}

// Before the first send.
pub(crate) fn start<'a>(
    c: Controller,
    flows: &'a [u64],
    outstanding: &'a [u64],
    marked: &'a [u64],
    sizes: &'a [u32],
    sent: &'a [u64],
    evs: &'a [u64],
) -> Ahead
    requires { sound_context (context_given c flows.now outstanding.now marked.now sizes.now sent.now evs.now) ≡ true }
    ensures { result ≡ ahead_of (context_before c flows.now outstanding.now marked.now sizes.now sent.now evs.now) }
{
    Ahead {
        flows: from_words(flow_table::count(flows), flows),
        in_flight: c.totals.in_flight,
    }
}

// A resend, send i of the plan: 8 unless it waits with that size, and no send before it has sent it again.
fn judge_again<'a>(
    c: Controller,
    flows: &'a [u64],
    outstanding: &'a [u64],
    marked: &'a [u64],
    sizes: &'a [u32],
    sent: &'a [u64],
    evs: &'a [u64],
    plan: &'a [u32],
    i: usize,
    k: usize,
    a: Send,
) -> Verdict
    requires evs_value { sound_context (context_given c flows.now outstanding.now marked.now sizes.now sent.now evs.now) ≡ true }
    requires k_bound { (k < count_of flows.now) × (i ≤ send_count plan.now) }
    ensures { number_of result
        ≡ again_number (context_before c flows.now outstanding.now marked.now sizes.now sent.now evs.now) plan.now i k a }
{
    let x = context::look::packet_at(c, flows, outstanding, marked, sizes, sent, evs, k, a.psn);
    if (x.status != ledger::MARKED) | (a.size != x.size) {
        return Err(Refusal::WrongPsn);
    }
    if sent_again(plan, i, k, a.psn) {
        return Err(Refusal::WrongPsn);
    }
    Ok(())
}

// What a send's own rows say of it: a resend's, 8, or a new packet's, 8, 5, 7.
fn judge_packet<'a>(
    c: Controller,
    flows: &'a [u64],
    outstanding: &'a [u64],
    marked: &'a [u64],
    sizes: &'a [u32],
    sent: &'a [u64],
    evs: &'a [u64],
    plan: &'a [u32],
    i: usize,
    s: Ahead,
    p: Planned,
) -> Verdict
    requires evs_value { sound_context (context_given c flows.now outstanding.now marked.now sizes.now sent.now evs.now) ≡ true }
    requires flow_bound { (p.flow < count_of flows.now) × (i ≤ send_count plan.now) }
    ensures { number_of result ≡ if_so p.send.resend
        (again_number (context_before c flows.now outstanding.now marked.now sizes.now sent.now evs.now) plan.now i p.flow p.send)
        (first_of (new_rows (flow_by s p.flow)
        (cap_in (context_before c flows.now outstanding.now marked.now sizes.now sent.now evs.now)) p.send.psn p.send.size)) }
{
    let Planned { flow, send } = p;
    if send.resend {
        return judge_again(
            c,
            flows,
            outstanding,
            marked,
            sizes,
            sent,
            evs,
            plan,
            i,
            flow,
            send,
        );
    }
    let cap = sizes.len() / flow_table::count(flows);
    ledger::judge::judge_new(nth(s.flows, flow), cap, send.psn, send.size)
}

// Send i of the plan, past 2, 3 and 27: 25, 4, 8, 5, 7, 6.
pub(crate) fn judge_next<'a>(
    c: Controller,
    flows: &'a [u64],
    outstanding: &'a [u64],
    marked: &'a [u64],
    sizes: &'a [u32],
    sent: &'a [u64],
    evs: &'a [u64],
    plan: &'a [u32],
    i: usize,
    s: Ahead,
    p: Planned,
) -> Verdict
    requires evs_value { sound_context (context_given c flows.now outstanding.now marked.now sizes.now sent.now evs.now) ≡ true }
    requires i_bound { (i ≤ send_count plan.now) × Flown (2 ^ 26) s.in_flight }
    ensures { number_of result
        ≡ ahead_number (context_before c flows.now outstanding.now marked.now sizes.now sent.now evs.now) plan.now i s p }
{
    if flow_table::count(flows) <= p.flow {
        return Err(Refusal::Flow);
    }
    if !rules::within(
        ledger::SIZE_LEAST as u64,
        p.send.size as u64,
        c.settings.mtu,
    ) {
        return Err(Refusal::Size);
    }
    judge_packet(
        c,
        flows,
        outstanding,
        marked,
        sizes,
        sent,
        evs,
        plan,
        i,
        s,
        p,
    )?;
    if sender::naming::has_room(c.settings.mtu, c.window.cwnd, s.in_flight) {
        return Ok(());
    }
    Err(Refusal::WindowFull)
}

// A flow's record once it sent a new packet.
fn push(f: Flow, bytes: u32) -> Flow
    requires { bytes ≤ f.backlog }
    ensures { result ≡ pushed bytes f }
{
    Flow {
        next: serial::psn_plus(f.next, 1),
        backlog: f.backlog - bytes as u64,
        ..f
    }
}

// The records after a send. The caller proves that there is the flow, and that a new packet is in its backlog.
fn flows_after(fs: Flows, p: Planned) -> Flows
    requires flow_lt_flows_most { p.flow < flows_most }
    requires size_bound { p.send.resend ≡ false → p.send.size ≤ (get_or fs.at p.flow no_flow).backlog }
    ensures { result ≡ flows_after fs p }
{
    let Planned { flow, send } = p;
    if send.resend {
        return fs;
    }
    with_record(fs, flow, push(nth(fs, flow), send.size))
}

// After send p, which was accepted.
pub(crate) fn after(s: Ahead, p: Planned) -> Ahead
    requires flow_lt_flows_most { (p.flow < flows_most) × (Flown (2 ^ 26) s.in_flight) }
    requires size_bound { p.send.resend ≡ false → p.send.size ≤ (flow_by s p.flow).backlog }
    ensures { result ≡ ahead_after s p }
{
    Ahead {
        flows: flows_after(s.flows, p),
        in_flight: s.in_flight + p.send.size as i64,
    }
}
