// What the planner keeps by value, and a choice and a send told by it: the turns of request M-108, on what the plan's first sends leave.
// Inner steps: the caller proves that state and buffers hold together, and that there are the flows.
ghost use Rattle.std.specs.Prelude.{◌≡◌, true, false, ◌<◌, ◌≤◌, ◌-◌, ◌^◌};
ghost use Rattle.ledger.specs.Bounds.{Flown};
ghost use Rattle.flow_table.specs.Words.{count_of, flows_most};
ghost use Rattle.context.specs.Context.{flow_count};
ghost use Rattle.context.specs.Lent.{context_given, context_before};
ghost use Rattle.context.specs.Sound.{sound_context};
ghost use Rattle.plan.specs.Ahead.{flow_by};
ghost use Rattle.plan.specs.Course.{waiting_from, waits_to, course_of, ready_by, first_from, flow_below, named_by, send_by};
ghost use Rattle.plan.specs.Course.{waits_after, course_after};

use crate::ahead::Ahead;
use crate::{Planned, ahead};
use context::Controller;
use flow_table::lent::{Flows, no_flows, nth, with_record};
use ledger::Flow;
use sender::Send;

// Beside what the judge keeps: the flows' records as they were handed in, each with low at its first packet that still waits to be sent
// again, at next where none does; and the turn, which moves here only.
#[derive(Clone, Copy)]
pub struct Course {
    pub ahead: Ahead,
    pub waits: Flows,
    pub turn: usize,
}

// Flow k's record, with low at its first marked packet from a PSN on.
fn waiting_from<'a>(
    c: Controller,
    flows: &'a [u64],
    outstanding: &'a [u64],
    marked: &'a [u64],
    sizes: &'a [u32],
    sent: &'a [u64],
    evs: &'a [u64],
    k: usize,
    psn: u32,
) -> Flow
    requires evs_value { sound_context (context_given c flows.now outstanding.now marked.now sizes.now sent.now evs.now) ≡ true }
    requires k_bound { k < count_of flows.now }
    ensures { result ≡ waiting_from k psn (context_before c flows.now outstanding.now marked.now sizes.now sent.now evs.now) }
{
    Flow {
        low: context::look::marked_from(c, flows, outstanding, marked, sizes, sent, evs, k, psn),
        ..flow_table::flow_at(flows, k)
    }
}

// Those of all flows, from low on.
fn all_waiting<'a>(
    c: Controller,
    flows: &'a [u64],
    outstanding: &'a [u64],
    marked: &'a [u64],
    sizes: &'a [u32],
    sent: &'a [u64],
    evs: &'a [u64],
) -> Flows
    requires { sound_context (context_given c flows.now outstanding.now marked.now sizes.now sent.now evs.now) ≡ true }
    ensures { result ≡ waits_to (context_before c flows.now outstanding.now marked.now sizes.now sent.now evs.now)
        (flow_count (context_before c flows.now outstanding.now marked.now sizes.now sent.now evs.now)) }
{
    let n = flow_table::count(flows);
    let mut fs = no_flows(n);
    for k in 0..n {
        let f = flow_table::flow_at(flows, k);
        let w = waiting_from(c, flows, outstanding, marked, sizes, sent, evs, k, f.low);
        fs = with_record(fs, k, w);
    }
    fs
}

// Before the first send.
pub(crate) fn start<'a>(
    c: Controller,
    flows: &'a [u64],
    outstanding: &'a [u64],
    marked: &'a [u64],
    sizes: &'a [u32],
    sent: &'a [u64],
    evs: &'a [u64],
) -> Course
    requires { sound_context (context_given c flows.now outstanding.now marked.now sizes.now sent.now evs.now) ≡ true }
    ensures { result ≡ course_of (context_before c flows.now outstanding.now marked.now sizes.now sent.now evs.now) }
{
    Course {
        ahead: ahead::start(c, flows, outstanding, marked, sizes, sent, evs),
        waits: all_waiting(c, flows, outstanding, marked, sizes, sent, evs),
        turn: c.turn as usize,
    }
}

// Whether flow k is ready, where the ring of each flow has `cap` slots. A packet that waits has its slot.
fn is_ready(s: Course, cap: usize, k: usize) -> bool
    requires { k < flows_most }
    ensures { result ≡ ready_by cap s k }
{
    let w = nth(s.waits, k);
    if w.low != w.next {
        return true;
    }
    let f = nth(s.ahead.flows, k);
    (0 < f.backlog) & (serial::psn_minus(f.next, f.low) as usize != cap)
}

// The first ready flow of from..end-1.
fn first_ready(s: Course, cap: usize, from: usize, end: usize) -> Option<usize>
    requires { (from ≤ end) × (end ≤ flows_most) }
    ensures { result ≡ flow_below end (first_from (ready_by cap s) from (end - from)) }
{
    for k in from..end {
        if is_ready(s, cap, k) {
            return Some(k);
        }
    }
    None
}

// Who is named of n flows, if somebody is.
pub(crate) fn named(c: Controller, cap: usize, n: usize, s: Course) -> Option<usize>
    requires turn_lt_n { (s.turn < n) × (n ≤ flows_most) }
    requires mtu_bound { (c.settings.mtu ≤ 2 ^ 14) × (c.window.cwnd ≤ 2 ^ 26) × Flown (2 ^ 26) s.ahead.in_flight }
    ensures { result ≡ flow_below n (named_by c cap n s) }
{
    if !sender::naming::has_room(c.settings.mtu, c.window.cwnd, s.ahead.in_flight) {
        return None;
    }
    if let Some(k) = first_ready(s, cap, s.turn, n) {
        return Some(k);
    }
    first_ready(s, cap, 0, s.turn)
}

// What flow k sends: its first packet that waits, with its size, or else a new one of the given size.
pub(crate) fn send_of<'a>(
    c: Controller,
    flows: &'a [u64],
    outstanding: &'a [u64],
    marked: &'a [u64],
    sizes: &'a [u32],
    sent: &'a [u64],
    evs: &'a [u64],
    s: Course,
    bytes: u32,
    k: usize,
) -> Planned
    requires evs_value { sound_context (context_given c flows.now outstanding.now marked.now sizes.now sent.now evs.now) ≡ true }
    requires k_bound { (k < count_of flows.now) × (k < flows_most) }
    ensures { result ≡ send_by (context_before c flows.now outstanding.now marked.now sizes.now sent.now evs.now) s bytes k }
{
    let w = nth(s.waits, k);
    if w.low == w.next {
        let f = nth(s.ahead.flows, k);
        let send = Send {
            psn: f.next,
            size: bytes,
            resend: false,
        };
        return Planned { flow: k, send };
    }
    let x = context::look::packet_at(c, flows, outstanding, marked, sizes, sent, evs, k, w.low);
    let send = Send {
        psn: w.low,
        size: x.size,
        resend: true,
    };
    Planned { flow: k, send }
}

// The packets that wait after send p.
fn waits_after<'a>(
    c: Controller,
    flows: &'a [u64],
    outstanding: &'a [u64],
    marked: &'a [u64],
    sizes: &'a [u32],
    sent: &'a [u64],
    evs: &'a [u64],
    fs: Flows,
    p: Planned,
) -> Flows
    requires evs_value { sound_context (context_given c flows.now outstanding.now marked.now sizes.now sent.now evs.now) ≡ true }
    requires flow_bound { (p.flow < count_of flows.now) × (p.flow < flows_most) }
    ensures { result ≡ waits_after (context_before c flows.now outstanding.now marked.now sizes.now sent.now evs.now) fs p }
{
    let Planned { flow, send } = p;
    if send.resend {
        let behind = serial::psn_plus(send.psn, 1);
        let w = waiting_from(
            c,
            flows,
            outstanding,
            marked,
            sizes,
            sent,
            evs,
            flow,
            behind,
        );
        return with_record(fs, flow, w);
    }
    fs
}

// After send p, which was accepted: the turn is the flow behind it.
pub(crate) fn after<'a>(
    c: Controller,
    flows: &'a [u64],
    outstanding: &'a [u64],
    marked: &'a [u64],
    sizes: &'a [u32],
    sent: &'a [u64],
    evs: &'a [u64],
    s: Course,
    p: Planned,
) -> Course
    requires evs_value { sound_context (context_given c flows.now outstanding.now marked.now sizes.now sent.now evs.now) ≡ true }
    requires flow_bound { (p.flow < count_of flows.now) × (p.flow < flows_most) × (Flown (2 ^ 26) s.ahead.in_flight) }
    requires size_bound { p.send.resend ≡ false → p.send.size ≤ (flow_by s.ahead p.flow).backlog }
    ensures { result ≡ course_after (context_before c flows.now outstanding.now marked.now sizes.now sent.now evs.now) s p }
{
    Course {
        ahead: ahead::after(s.ahead, p),
        waits: waits_after(c, flows, outstanding, marked, sizes, sent, evs, s.waits, p),
        turn: context::choice::after(p.flow, flow_table::count(flows)) as usize,
    }
}
