// Each event of a flow with its test of number 2, over the table's words: what C lends. No function has a `requires`: whatever is handed
// in, it ends, and answers by document 01's table.
ghost use Rattle.std.specs.Prelude.{◌≡◌};
ghost use Rattle.std.specs.Result.{result_unwrap_or};
ghost use Rattle.rules.specs.Verdict.{number_of};
ghost use Rattle.sender.specs.Events.{says_of};
ghost use Rattle.context.specs.Lent.{context_before, answered_after, routed_after};
ghost use Rattle.context.specs.Events.{on_new_data, on_send, on_ack, ack_says, on_nack, nack_says, on_loss, on_path};

use crate::sound::is_sound;
use crate::{Controller, rely};
use rules::verdict::{Answer, Refusal};
use sender::{Ack, Loss, Nack, Send};
use window::Sampling;

// There is more to send on a flow. 2, 3, 25, 20; else the backlogs rise.
pub fn new_data<'a, 'b>(
    c: Controller,
    flows: &'a mut [u64],
    outstanding: &'b [u64],
    marked: &'b [u64],
    sizes: &'b [u32],
    sent: &'b [u64],
    evs: &'b [u64],
    time: u64,
    flow: usize,
    bytes: u64,
) -> Answer<Controller, ()>
    ensures { answered_after (number_of result.outcome) result.state flows.new outstanding.now marked.now sizes.now sent.now evs.now
        ≡ on_new_data time flow bytes (context_before c flows.old outstanding.now marked.now sizes.now sent.now evs.now) }
{
    if !is_sound(c, flows, outstanding, marked, sizes, sent, evs) {
        return Answer {
            state: c,
            outcome: Err(Refusal::Unsound),
        };
    }
    rely::new_data(
        c,
        flows,
        outstanding,
        marked,
        sizes,
        sent,
        evs,
        time,
        flow,
        bytes,
    )
}

// A packet of a flow goes out, a new one or a marked one once more. 2, 3, 25, 4, 8, 5, 7, 6; else it flies.
pub fn send<'a, 'b, 'c, 'd, 'e, 'f>(
    c: Controller,
    flows: &'a mut [u64],
    outstanding: &'b mut [u64],
    marked: &'c mut [u64],
    sizes: &'d mut [u32],
    sent: &'e mut [u64],
    evs: &'f [u64],
    time: u64,
    flow: usize,
    a: Send,
) -> Answer<Controller, ()>
    ensures { answered_after (number_of result.outcome) result.state flows.new outstanding.new marked.new sizes.new sent.new evs.now
        ≡ on_send time flow a (context_before c flows.old outstanding.old marked.old sizes.old sent.old evs.now) }
{
    if !is_sound(c, flows, outstanding, marked, sizes, sent, evs) {
        return Answer {
            state: c,
            outcome: Err(Refusal::Unsound),
        };
    }
    rely::send(
        c,
        flows,
        outstanding,
        marked,
        sizes,
        sent,
        evs,
        time,
        flow,
        a,
    )
}

// An ACK of a flow came. 2, 3, 25, 21, 23, 24, 9, 11; else what it covers is delivered and its count taken in, then come the window's
// rules, and the EV's time where it is marked.
pub fn ack<'a, 'b, 'c, 'd, 'e, 'f>(
    c: Controller,
    flows: &'a mut [u64],
    outstanding: &'b mut [u64],
    marked: &'c mut [u64],
    sizes: &'d mut [u32],
    sent: &'e mut [u64],
    evs: &'f mut [u64],
    time: u64,
    flow: usize,
    a: Ack,
) -> Answer<Controller, Sampling>
    ensures evs_value { answered_after (number_of result.outcome) result.state flows.new outstanding.new marked.new sizes.new sent.new evs.new
        ≡ on_ack time flow a (context_before c flows.old outstanding.old marked.old sizes.old sent.old evs.old) }
    ensures feedback_value { says_of result.outcome ≡ ack_says time flow a (context_before c flows.old outstanding.old marked.old sizes.old sent.old evs.old) }
{
    if !is_sound(c, flows, outstanding, marked, sizes, sent, evs) {
        return Answer {
            state: c,
            outcome: Err(Refusal::Unsound),
        };
    }
    rely::ack(
        c,
        flows,
        outstanding,
        marked,
        sizes,
        sent,
        evs,
        time,
        flow,
        a,
    )
}

// A NACK of a flow came. 2, 3, 25, 22, 23, 10, 11; else its packet waits to be sent again, then come the window's rules, and the EV's time
// where it is marked or the packet was trimmed on its way.
pub fn nack<'a, 'b, 'c>(
    c: Controller,
    flows: &'a [u64],
    outstanding: &'a [u64],
    marked: &'b mut [u64],
    sizes: &'a [u32],
    sent: &'a [u64],
    evs: &'c mut [u64],
    time: u64,
    flow: usize,
    a: Nack,
) -> Answer<Controller, Sampling>
    ensures evs_value { answered_after (number_of result.outcome) result.state flows.now outstanding.now marked.new sizes.now sent.now evs.new
        ≡ on_nack time flow a (context_before c flows.now outstanding.now marked.old sizes.now sent.now evs.old) }
    ensures feedback_value { says_of result.outcome ≡ nack_says time flow a (context_before c flows.now outstanding.now marked.old sizes.now sent.now evs.old) }
{
    if !is_sound(c, flows, outstanding, marked, sizes, sent, evs) {
        return Answer {
            state: c,
            outcome: Err(Refusal::Unsound),
        };
    }
    rely::nack(
        c,
        flows,
        outstanding,
        marked,
        sizes,
        sent,
        evs,
        time,
        flow,
        a,
    )
}

// A packet of a flow is taken for lost. 2, 3, 25, 23, 10, 11; else it waits to be sent again, then come the window's rules, and the EV's
// time.
pub fn loss<'a, 'b, 'c>(
    c: Controller,
    flows: &'a [u64],
    outstanding: &'a [u64],
    marked: &'b mut [u64],
    sizes: &'a [u32],
    sent: &'a [u64],
    evs: &'c mut [u64],
    time: u64,
    flow: usize,
    a: Loss,
) -> Answer<Controller, ()>
    ensures { answered_after (number_of result.outcome) result.state flows.now outstanding.now marked.new sizes.now sent.now evs.new
        ≡ on_loss time flow a (context_before c flows.now outstanding.now marked.old sizes.now sent.now evs.old) }
{
    if !is_sound(c, flows, outstanding, marked, sizes, sent, evs) {
        return Answer {
            state: c,
            outcome: Err(Refusal::Unsound),
        };
    }
    rely::loss(
        c,
        flows,
        outstanding,
        marked,
        sizes,
        sent,
        evs,
        time,
        flow,
        a,
    )
}

// Which EV the next packet takes. 2, 3, 25; else the first from the cursor on that is not avoided, or the cursor itself where more than
// half are. All that is lent is only read.
pub fn path<'a>(
    c: Controller,
    flows: &'a [u64],
    outstanding: &'a [u64],
    marked: &'a [u64],
    sizes: &'a [u32],
    sent: &'a [u64],
    evs: &'a [u64],
    time: u64,
    flow: usize,
) -> Answer<Controller, u32>
    ensures { routed_after (number_of result.outcome) (result_unwrap_or result.outcome 0) result.state flows.now outstanding.now marked.now sizes.now sent.now evs.now
        ≡ on_path time flow (context_before c flows.now outstanding.now marked.now sizes.now sent.now evs.now) }
{
    if !is_sound(c, flows, outstanding, marked, sizes, sent, evs) {
        return Answer {
            state: c,
            outcome: Err(Refusal::Unsound),
        };
    }
    rely::path(c, flows, outstanding, marked, sizes, sent, evs, time, flow)
}
