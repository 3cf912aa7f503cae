// Every event on one world, each by itself: new data, send, ACK, NACK, loss, path; and a choice. In a world that holds together all seven
// are accepted, unless the world's own numbers leave a row that refuses one: none but 2 refuses a choice.
use crate::calls::{plain_ack, plain_nack};
use crate::fields::narrow;
use crate::say;
use crate::worlds::{Call, World};
use ledger::Flow;
use sender::{Ack, Loss, Send};
use std::io;

// A new packet of 41 bytes.
fn a_send(f: Flow) -> Send {
    Send {
        psn: f.next,
        size: 41,
        resend: false,
    }
}

// An ACK of the packet before low, with the held count: nothing new.
fn an_ack(f: Flow) -> Ack {
    let before = f.low.wrapping_sub(1);
    plain_ack(before, 0, before, narrow(f.held))
}

// Seven answers.
pub(crate) fn each(out: &impl Print, w: &World, time: u64) -> io::Result<()> {
    let flow = w.record();
    let psn = flow.low;
    let calls = [
        Call::NewData(1),
        Call::Send(a_send(flow)),
        Call::Ack(an_ack(flow)),
        Call::Nack(plain_nack(psn, 0, 2)),
        Call::Loss(Loss { psn, ev: 0 }),
        Call::Path,
        Call::Choose,
    ];
    for call in calls {
        say::answer(out, w, &w.after(time, call))?;
    }
    Ok(())
}
