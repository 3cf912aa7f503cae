// The calls by their words and numbers.
use crate::fields::narrow;
use crate::phrase::Numbers;
use crate::words::Event;
use crate::worlds::Call;
use sender::{Ack, Loss, Nack, Send};

fn a_send(n: Numbers, resend: bool) -> Send {
    Send {
        psn: narrow(n[0]),
        size: narrow(n[1]),
        resend,
    }
}

// An ACK by its cum and map, with a trigger and a count.
pub(crate) fn plain_ack(cum: u32, map: u64, trigger: u32, count: u32) -> Ack {
    Ack {
        cum,
        map,
        trigger,
        count,
        service: 0,
        ev: 0,
        marked: false,
        retx: false,
    }
}

// Cum, map, trigger and count; where a case has more, the EV, the M flag and the service time.
fn an_ack(n: Numbers) -> Ack {
    let mut a = plain_ack(narrow(n[0]), n[1], narrow(n[2]), narrow(n[3]));
    a.ev = narrow(n[4]);
    a.marked = n[5] != 0;
    a.service = narrow(n[6]);
    a
}

pub(crate) fn plain_nack(psn: u32, ev: u32, reason: u32) -> Nack {
    Nack {
        psn,
        ev,
        reason,
        marked: false,
        retx: false,
    }
}

fn a_nack(n: Numbers) -> Nack {
    plain_nack(narrow(n[0]), narrow(n[1]), narrow(n[2]))
}

fn a_loss(n: Numbers) -> Loss {
    Loss {
        psn: narrow(n[0]),
        ev: narrow(n[1]),
    }
}

pub(crate) fn call_of(event: Event, n: Numbers) -> Call {
    match event {
        Event::NewData => Call::NewData(n[0]),
        Event::Send => Call::Send(a_send(n, false)),
        Event::Resend => Call::Send(a_send(n, true)),
        Event::Ack => Call::Ack(an_ack(n)),
        Event::Nack => Call::Nack(a_nack(n)),
        Event::Loss => Call::Loss(a_loss(n)),
        Event::Path => Call::Path,
    }
}
