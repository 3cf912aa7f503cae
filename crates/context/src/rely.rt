// Each event of a flow for a caller who knows that state and buffers hold together: the sender's step on that flow's record and its part of
// the ring buffer. A replay tests once; what an event leaves holds together again, whatever it answers.
ghost use Rattle.std.specs.Prelude.{◌≡◌, true};
ghost use Rattle.std.specs.Result.{result_unwrap_or};
ghost use Rattle.rules.specs.Verdict.{number_of};
ghost use Rattle.sender.specs.Events.{says_of};
ghost use Rattle.context.specs.Lent.{context_given, context_before, answered_after, routed_after};
ghost use Rattle.context.specs.Sound.{sound_context};
ghost use Rattle.context.specs.Events.{past_new_data, past_send, past_ack, past_ack_says, past_nack, past_nack_says, past_loss, past_path};

use crate::Controller;
use crate::join::{Cut, cut_of, joined, keep_acked, keep_backlog, keep_sent, no_flow, shared};
use ledger::ring::Ring;
use rules::verdict::Answer;
use sender::{Ack, Loss, Nack, Send};
use window::Sampling;

// New data of a flow. Its ring and the EV times are lent for what the step requires of them.
pub fn new_data<'a, 'b>(
    c: Controller,
    flows: &'a mut [u64],
    outstanding: &'b [u64],
    marked: &'b [u64],
    sizes: &'b [u32],
    sent: &'b [u64],
    evs: &'b [u64],
    time: u64,
    flow: usize,
    bytes: u64,
) -> Answer<Controller, ()>
    requires { sound_context (context_given c flows.old outstanding.now marked.now sizes.now sent.now evs.now) ≡ true }
    ensures { answered_after (number_of result.outcome) result.state flows.new outstanding.now marked.now sizes.now sent.now evs.now
        ≡ past_new_data time flow bytes (context_before c flows.old outstanding.now marked.now sizes.now sent.now evs.now) }
{
    let n = flow_table::count(flows);
    if n <= flow {
        return Answer {
            state: c,
            outcome: Err(no_flow(time, c.clock)),
        };
    }
    let Cut { from, end, at, to } = cut_of(sizes.len(), n, flow);
    let s = joined(c, flow_table::flow_at(flows, flow));
    let ring = Ring {
        outstanding: &outstanding[from..end],
        marked: &marked[from..end],
        sizes: &sizes[at..to],
        sent: &sent[at..to],
    };
    let Answer {
        state: after,
        outcome,
    } = sender::rely::new_data(s, ring, evs, time, bytes);
    keep_backlog(flows, flow, after.flow, outcome);
    Answer {
        state: shared(c.turn, after),
        outcome,
    }
}

// A flow's new packet or resend.
pub fn send<'a, 'b, 'c, 'd, 'e, 'f>(
    c: Controller,
    flows: &'a mut [u64],
    outstanding: &'b mut [u64],
    marked: &'c mut [u64],
    sizes: &'d mut [u32],
    sent: &'e mut [u64],
    evs: &'f [u64],
    time: u64,
    flow: usize,
    a: Send,
) -> Answer<Controller, ()>
    requires { sound_context (context_given c flows.old outstanding.old marked.old sizes.old sent.old evs.now) ≡ true }
    ensures { answered_after (number_of result.outcome) result.state flows.new outstanding.new marked.new sizes.new sent.new evs.now
        ≡ past_send time flow a (context_before c flows.old outstanding.old marked.old sizes.old sent.old evs.now) }
{
    let n = flow_table::count(flows);
    if n <= flow {
        return Answer {
            state: c,
            outcome: Err(no_flow(time, c.clock)),
        };
    }
    let Cut { from, end, at, to } = cut_of(sizes.len(), n, flow);
    let s = joined(c, flow_table::flow_at(flows, flow));
    let Answer {
        state: after,
        outcome,
    } = sender::rely::send(
        s,
        &mut outstanding[from..end],
        &mut marked[from..end],
        &mut sizes[at..to],
        &mut sent[at..to],
        evs,
        time,
        a,
    );
    keep_sent(flows, flow, after.flow, outcome);
    Answer {
        state: shared(c.turn, after),
        outcome,
    }
}

// An ACK of a flow.
pub fn ack<'a, 'b, 'c, 'd, 'e, 'f>(
    c: Controller,
    flows: &'a mut [u64],
    outstanding: &'b mut [u64],
    marked: &'c mut [u64],
    sizes: &'d mut [u32],
    sent: &'e mut [u64],
    evs: &'f mut [u64],
    time: u64,
    flow: usize,
    a: Ack,
) -> Answer<Controller, Sampling>
    requires { sound_context (context_given c flows.old outstanding.old marked.old sizes.old sent.old evs.old) ≡ true }
    ensures evs_value { answered_after (number_of result.outcome) result.state flows.new outstanding.new marked.new sizes.new sent.new evs.new
        ≡ past_ack time flow a (context_before c flows.old outstanding.old marked.old sizes.old sent.old evs.old) }
    ensures feedback_value { says_of result.outcome ≡ past_ack_says time flow a (context_before c flows.old outstanding.old marked.old sizes.old sent.old evs.old) }
{
    let n = flow_table::count(flows);
    if n <= flow {
        return Answer {
            state: c,
            outcome: Err(no_flow(time, c.clock)),
        };
    }
    let Cut { from, end, at, to } = cut_of(sizes.len(), n, flow);
    let s = joined(c, flow_table::flow_at(flows, flow));
    let Answer {
        state: after,
        outcome,
    } = sender::rely::ack(
        s,
        &mut outstanding[from..end],
        &mut marked[from..end],
        &mut sizes[at..to],
        &mut sent[at..to],
        evs,
        time,
        a,
    );
    keep_acked(flows, flow, after.flow, outcome);
    Answer {
        state: shared(c.turn, after),
        outcome,
    }
}

// A NACK of a flow. It changes no flow's record: the table is only read.
pub fn nack<'a, 'b, 'c>(
    c: Controller,
    flows: &'a [u64],
    outstanding: &'a [u64],
    marked: &'b mut [u64],
    sizes: &'a [u32],
    sent: &'a [u64],
    evs: &'c mut [u64],
    time: u64,
    flow: usize,
    a: Nack,
) -> Answer<Controller, Sampling>
    requires { sound_context (context_given c flows.now outstanding.now marked.old sizes.now sent.now evs.old) ≡ true }
    ensures evs_value { answered_after (number_of result.outcome) result.state flows.now outstanding.now marked.new sizes.now sent.now evs.new
        ≡ past_nack time flow a (context_before c flows.now outstanding.now marked.old sizes.now sent.now evs.old) }
    ensures feedback_value { says_of result.outcome ≡ past_nack_says time flow a (context_before c flows.now outstanding.now marked.old sizes.now sent.now evs.old) }
{
    let n = flow_table::count(flows);
    if n <= flow {
        return Answer {
            state: c,
            outcome: Err(no_flow(time, c.clock)),
        };
    }
    let Cut { from, end, at, to } = cut_of(sizes.len(), n, flow);
    let s = joined(c, flow_table::flow_at(flows, flow));
    let Answer {
        state: after,
        outcome,
    } = sender::rely::nack(
        s,
        &outstanding[from..end],
        &mut marked[from..end],
        &sizes[at..to],
        &sent[at..to],
        evs,
        time,
        a,
    );
    Answer {
        state: shared(c.turn, after),
        outcome,
    }
}

// A loss of a flow. Like a NACK, it only reads the table.
pub fn loss<'a, 'b, 'c>(
    c: Controller,
    flows: &'a [u64],
    outstanding: &'a [u64],
    marked: &'b mut [u64],
    sizes: &'a [u32],
    sent: &'a [u64],
    evs: &'c mut [u64],
    time: u64,
    flow: usize,
    a: Loss,
) -> Answer<Controller, ()>
    requires { sound_context (context_given c flows.now outstanding.now marked.old sizes.now sent.now evs.old) ≡ true }
    ensures { answered_after (number_of result.outcome) result.state flows.now outstanding.now marked.new sizes.now sent.now evs.new
        ≡ past_loss time flow a (context_before c flows.now outstanding.now marked.old sizes.now sent.now evs.old) }
{
    let n = flow_table::count(flows);
    if n <= flow {
        return Answer {
            state: c,
            outcome: Err(no_flow(time, c.clock)),
        };
    }
    let Cut { from, end, at, to } = cut_of(sizes.len(), n, flow);
    let s = joined(c, flow_table::flow_at(flows, flow));
    let Answer {
        state: after,
        outcome,
    } = sender::rely::loss(
        s,
        &outstanding[from..end],
        &mut marked[from..end],
        &sizes[at..to],
        &sent[at..to],
        evs,
        time,
        a,
    );
    Answer {
        state: shared(c.turn, after),
        outcome,
    }
}

// A flow's next path. It changes no flow: all that is lent is only read.
pub fn path<'a>(
    c: Controller,
    flows: &'a [u64],
    outstanding: &'a [u64],
    marked: &'a [u64],
    sizes: &'a [u32],
    sent: &'a [u64],
    evs: &'a [u64],
    time: u64,
    flow: usize,
) -> Answer<Controller, u32>
    requires { sound_context (context_given c flows.now outstanding.now marked.now sizes.now sent.now evs.now) ≡ true }
    ensures { routed_after (number_of result.outcome) (result_unwrap_or result.outcome 0) result.state flows.now outstanding.now marked.now sizes.now sent.now evs.now
        ≡ past_path time flow (context_before c flows.now outstanding.now marked.now sizes.now sent.now evs.now) }
{
    let n = flow_table::count(flows);
    if n <= flow {
        return Answer {
            state: c,
            outcome: Err(no_flow(time, c.clock)),
        };
    }
    let Cut { from, end, at, to } = cut_of(sizes.len(), n, flow);
    let s = joined(c, flow_table::flow_at(flows, flow));
    let ring = Ring {
        outstanding: &outstanding[from..end],
        marked: &marked[from..end],
        sizes: &sizes[at..to],
        sent: &sent[at..to],
    };
    let Answer {
        state: after,
        outcome,
    } = sender::rely::path(s, ring, evs, time);
    Answer {
        state: shared(c.turn, after),
        outcome,
    }
}
