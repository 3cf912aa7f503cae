// One number of a world changed, by its word.
use crate::words::{Number, Setting, Tally, Total};
use crate::worlds::World;
use ledger::Totals;
use window::{Settings, Window};

// One past the largest number of a field of 32 bits.
const FIELD_END: u64 = 1 << 32;

// A number in a field of 32 bits, where it wraps.
pub(crate) fn narrow(n: u64) -> u32 {
    (n % FIELD_END) as u32
}

fn set_setting(s: &mut Settings, setting: Setting, n: u64) {
    match setting {
        Setting::Mtu => s.mtu = n,
        Setting::MaxWnd => s.maxwnd = n,
        Setting::ConfigBaseRtt => s.config_base_rtt = n,
        Setting::TargetQdelay => s.target_qdelay = n,
        Setting::Fi => s.fi = n,
        Setting::Eta => s.eta = n,
        Setting::Alpha => s.alpha = n,
        Setting::Gamma => s.gamma = n,
        Setting::MaxMdJump => s.max_md_jump = n,
        Setting::AdjustPeriod => s.adjust_period = n,
        Setting::AdjustBytes => s.adjust_bytes = n,
        Setting::QaThreshold => s.qa_threshold = n,
        Setting::FirstPsn => s.first_psn = narrow(n),
        Setting::QuickAdaptOff => s.quick_adapt_off = narrow(n),
        Setting::EvCount => s.ev_count = n,
    }
}

// A number that was below zero before it wrapped is so again.
fn set_total(t: &mut Totals, total: Total, n: u64) {
    match total {
        Total::Backlog => t.backlog = n,
        Total::Flying => t.flying = narrow(n),
        Total::Marked => t.marked = narrow(n),
        Total::MarkedBytes => t.marked_bytes = n,
        Total::InFlight => t.in_flight = n.cast_signed(),
    }
}

fn set_tally(w: &mut Window, tally: Tally, n: u64) {
    match tally {
        Tally::Cwnd => w.cwnd = n,
        Tally::Base => w.base = n,
        Tally::Average => w.avg = n,
        Tally::IncBytes => w.inc_bytes = n,
        Tally::Received => w.received = n,
        Tally::Achieved => w.achieved = n,
        Tally::Ignored => w.ignored = n,
        Tally::BytesToIgnore => w.bytes_to_ignore = n,
        Tally::FiCount => w.fi_count = n,
        Tally::FastMode => w.fast = narrow(n),
        Tally::Trigger => w.trigger = narrow(n),
        Tally::QuickAdaptEnd => w.qa_end = n,
        Tally::LastAdjust => w.last_adjust = n,
        Tally::LastDecrease => w.last_dec = n,
    }
}

impl World {
    // A word of the flow that the case is at. The total backlog moves by what a flow's does.
    fn set_record(&mut self, word: usize, n: u64) {
        if word == flow_table::BACKLOG {
            let moved = n.wrapping_sub(self.word_at(word));
            let total = self.state.totals.backlog;
            self.state.totals.backlog = total.wrapping_add(moved);
        }
        self.set_word(word, n);
    }

    // A number of the state or of a flow, which flow the case is at, how much of the table is lent, or the state's name.
    pub(crate) fn set_number(&mut self, number: Number, n: u64) {
        match number {
            Number::Setting(setting) => set_setting(&mut self.state.settings, setting, n),
            Number::Record(word) => self.set_record(word, n),
            Number::Total(total) => set_total(&mut self.state.totals, total, n),
            Number::Tally(tally) => set_tally(&mut self.state.window, tally, n),
            Number::Clock => self.state.clock = n,
            Number::Cursor => self.state.cursor = narrow(n),
            Number::Turn => self.state.turn = n,
            Number::Flow => self.flow = n,
            Number::Table => self.table = n as usize,
            Number::Phase(phase) => self.state.phase = phase,
            Number::Time => {}
        }
    }
}
