// A context: one to eight flows under one window (request M-107). The flows' records are a lent table, their rings the parts of one lent
// ring buffer; what is shared is the controller, by value. An event of flow k is the sender's step on flow k's ledger, every other flow
// as it was.
#![tactic(auto)]

pub mod choice;
pub mod entry;
mod join;
pub mod look;
pub mod rely;
pub mod sound;
pub mod start;
mod table;

ghost use Rattle.std.specs.Prelude.{◌≡◌};
ghost use Rattle.std.specs.Result.{result_unwrap_or};
ghost use Rattle.rules.specs.Verdict.{number_of};
ghost use Rattle.sender.specs.Events.{says_of};
ghost use Rattle.context.specs.Events.{on_new_data, on_send, on_ack, ack_says, on_nack, nack_says, on_loss, on_path};
ghost use Rattle.context.specs.Table.{words_before, tabled_after, in_records, route_answer};

use ledger::{Flow, Totals};
use rules::verdict::Answer;
use sender::{Ack, Loss, Nack, Send};
use window::{Sampling, Settings, Window};

// What all flows of a context share. Numbers of 32 bits stand in pairs, so that it has no gaps.
#[derive(Clone, Copy, PartialEq, Eq)]
pub struct Controller {
    pub settings: Settings,
    pub totals: Totals,
    pub window: Window,
    pub clock: u64,
    pub cursor: u32,
    pub phase: u32,
    // The flow from which the next round starts (request M-108).
    pub turn: u64,
}

// Each event as a method on the controller by value (document 01, "Form by location": "answers state and outcome"), over a lent table of
// records (request M-107): it loads the table, makes the step and stores the table; `entry` has the same events over the table's words. No
// event has a `requires`: whatever is handed in, it ends, and answers by document 01's table.
impl Controller {
    // There is more to send on a flow. What is lent but for the table is only read.
    pub fn new_data(
        self,
        table: &mut [Flow],
        outstanding: &mut [u64],
        marked: &mut [u64],
        sizes: &mut [u32],
        sent: &mut [u64],
        evs: &mut [u64],
        time: u64,
        flow: usize,
        bytes: u64,
    ) -> Answer<Controller, ()>
        ensures { tabled_after (number_of result.outcome) result.state table.new outstanding.new marked.new sizes.new sent.new evs.new
            ≡ in_records (on_new_data time flow bytes (words_before self table.old outstanding.old marked.old sizes.old sent.old evs.old)) }
    {
        let fs = flow_table::lent::load(table);
        let r = table::make_step(
            self,
            fs,
            outstanding,
            marked,
            sizes,
            sent,
            evs,
            |w, o, m, z, s, e| entry::new_data(self, w, o, m, z, s, e, time, flow, bytes),
        );
        flow_table::lent::save(table, r.flows);
        r.answer
    }

    // A packet of a flow goes out. The EV times are only read.
    pub fn send(
        self,
        table: &mut [Flow],
        outstanding: &mut [u64],
        marked: &mut [u64],
        sizes: &mut [u32],
        sent: &mut [u64],
        evs: &mut [u64],
        time: u64,
        flow: usize,
        a: Send,
    ) -> Answer<Controller, ()>
        ensures { tabled_after (number_of result.outcome) result.state table.new outstanding.new marked.new sizes.new sent.new evs.new
            ≡ in_records (on_send time flow a (words_before self table.old outstanding.old marked.old sizes.old sent.old evs.old)) }
    {
        let fs = flow_table::lent::load(table);
        let r = table::make_step(
            self,
            fs,
            outstanding,
            marked,
            sizes,
            sent,
            evs,
            |w, o, m, z, s, e| entry::send(self, w, o, m, z, s, e, time, flow, a),
        );
        flow_table::lent::save(table, r.flows);
        r.answer
    }

    // An ACK of a flow came.
    pub fn ack(
        self,
        table: &mut [Flow],
        outstanding: &mut [u64],
        marked: &mut [u64],
        sizes: &mut [u32],
        sent: &mut [u64],
        evs: &mut [u64],
        time: u64,
        flow: usize,
        a: Ack,
    ) -> Answer<Controller, Sampling>
        ensures { (tabled_after (number_of result.outcome) result.state table.new outstanding.new marked.new sizes.new sent.new evs.new
            ≡ in_records (on_ack time flow a (words_before self table.old outstanding.old marked.old sizes.old sent.old evs.old)))
            × (says_of result.outcome ≡ ack_says time flow a (words_before self table.old outstanding.old marked.old sizes.old sent.old evs.old)) }
    {
        let fs = flow_table::lent::load(table);
        let r = table::make_step(
            self,
            fs,
            outstanding,
            marked,
            sizes,
            sent,
            evs,
            |w, o, m, z, s, e| entry::ack(self, w, o, m, z, s, e, time, flow, a),
        );
        flow_table::lent::save(table, r.flows);
        r.answer
    }

    // A NACK of a flow came.
    pub fn nack(
        self,
        table: &mut [Flow],
        outstanding: &mut [u64],
        marked: &mut [u64],
        sizes: &mut [u32],
        sent: &mut [u64],
        evs: &mut [u64],
        time: u64,
        flow: usize,
        a: Nack,
    ) -> Answer<Controller, Sampling>
        ensures { (tabled_after (number_of result.outcome) result.state table.new outstanding.new marked.new sizes.new sent.new evs.new
            ≡ in_records (on_nack time flow a (words_before self table.old outstanding.old marked.old sizes.old sent.old evs.old)))
            × (says_of result.outcome ≡ nack_says time flow a (words_before self table.old outstanding.old marked.old sizes.old sent.old evs.old)) }
    {
        let fs = flow_table::lent::load(table);
        let r = table::make_step(
            self,
            fs,
            outstanding,
            marked,
            sizes,
            sent,
            evs,
            |w, o, m, z, s, e| entry::nack(self, w, o, m, z, s, e, time, flow, a),
        );
        flow_table::lent::save(table, r.flows);
        r.answer
    }

    // A packet of a flow is taken for lost.
    pub fn loss(
        self,
        table: &mut [Flow],
        outstanding: &mut [u64],
        marked: &mut [u64],
        sizes: &mut [u32],
        sent: &mut [u64],
        evs: &mut [u64],
        time: u64,
        flow: usize,
        a: Loss,
    ) -> Answer<Controller, ()>
        ensures { tabled_after (number_of result.outcome) result.state table.new outstanding.new marked.new sizes.new sent.new evs.new
            ≡ in_records (on_loss time flow a (words_before self table.old outstanding.old marked.old sizes.old sent.old evs.old)) }
    {
        let fs = flow_table::lent::load(table);
        let r = table::make_step(
            self,
            fs,
            outstanding,
            marked,
            sizes,
            sent,
            evs,
            |w, o, m, z, s, e| entry::loss(self, w, o, m, z, s, e, time, flow, a),
        );
        flow_table::lent::save(table, r.flows);
        r.answer
    }

    // Which EV the next packet takes. What is lent is only read.
    pub fn path(
        self,
        table: &mut [Flow],
        outstanding: &mut [u64],
        marked: &mut [u64],
        sizes: &mut [u32],
        sent: &mut [u64],
        evs: &mut [u64],
        time: u64,
        flow: usize,
    ) -> Answer<Controller, u32>
        ensures { (tabled_after (number_of result.outcome) result.state table.new outstanding.new marked.new sizes.new sent.new evs.new
            ≡ in_records (route_answer (on_path time flow (words_before self table.old outstanding.old marked.old sizes.old sent.old evs.old))))
            × (result_unwrap_or result.outcome 0 ≡ (on_path time flow (words_before self table.old outstanding.old marked.old sizes.old sent.old evs.old)).ev) }
    {
        let fs = flow_table::lent::load(table);
        let r = table::make_step(
            self,
            fs,
            outstanding,
            marked,
            sizes,
            sent,
            evs,
            |w, o, m, z, s, e| entry::path(self, w, o, m, z, s, e, time, flow),
        );
        flow_table::lent::save(table, r.flows);
        r.answer
    }
}
