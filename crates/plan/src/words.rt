// The sends of a plan's numbers. Inner steps: the caller proves that they are there.
ghost use Rattle.std.specs.Prelude.{◌≡◌, ◌<◌, ◌≤◌};
ghost use Rattle.flow_table.specs.Words.{flows_most};
ghost use Rattle.plan.specs.Plan.{send_count, planned_at, with_send};
ghost use Rattle.plan.specs.Ahead.{again_to};

use crate::{FLOW, PSN, Planned, RESEND, SEND_WORDS, SIZE};
use sender::Send;

// How many whole sends there are.
pub fn count(plan: &[u32]) -> usize
    ensures { result ≡ send_count plan.now }
{
    plan.len() / SEND_WORDS
}

// Send i.
pub fn send_at(plan: &[u32], i: usize) -> Planned
    requires { i < send_count plan.now }
    ensures { result ≡ planned_at plan.now i }
{
    let at = SEND_WORDS * i;
    Planned {
        flow: plan[at + FLOW] as usize,
        send: Send {
            psn: plan[at + PSN],
            size: plan[at + SIZE],
            resend: plan[at + RESEND] != 0,
        },
    }
}

// Send i becomes p.
pub fn put_send(plan: &mut [u32], i: usize, p: Planned)
    requires { (i < send_count plan.old) × (p.flow < flows_most) }
    ensures { plan.new ≡ with_send plan.old i p }
{
    let at = SEND_WORDS * i;
    let Planned { flow, send } = p;
    plan[at + FLOW] = flow as u32;
    plan[at + RESEND] = rules::mode_of(send.resend);
    plan[at + PSN] = send.psn;
    plan[at + SIZE] = send.size;
}

// Whether one of the first n sends sends this packet again.
pub fn sent_again(plan: &[u32], n: usize, flow: usize, psn: u32) -> bool
    requires { n ≤ send_count plan.now }
    ensures { result ≡ again_to plan.now n flow psn }
{
    for i in 0..n {
        let p = send_at(plan, i);
        if p.send.resend & (p.flow == flow) & (p.send.psn == psn) {
            return true;
        }
    }
    false
}
