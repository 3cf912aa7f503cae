// The records in a world's table, and the one of the flow that the case is at.
use crate::fields::narrow;
use crate::worlds::{World, at, put};
use flow_table::FLOW_WORDS;
use ledger::Flow;

impl World {
    // Where a word of the flow stands; past the table where the memory has no such flow.
    fn place_of(&self, word: usize) -> usize {
        let flow = self.flow as usize;
        flow.saturating_mul(FLOW_WORDS).saturating_add(word)
    }

    // A word of the flow that the case is at; 0 where the memory has no such flow.
    pub(crate) fn word_at(&self, word: usize) -> u64 {
        at(&self.flows, self.place_of(word))
    }

    // A low or a next of 2^32 or more, which no flow may have, is written as it is.
    pub(crate) fn set_word(&mut self, word: usize, n: u64) {
        let place = self.place_of(word);
        put(&mut self.flows, place, n);
    }

    // The record of the flow that the case is at.
    pub(crate) fn record(&self) -> Flow {
        Flow {
            low: narrow(self.word_at(flow_table::LOW)),
            next: narrow(self.word_at(flow_table::NEXT)),
            held: self.word_at(flow_table::HELD),
            backlog: self.word_at(flow_table::BACKLOG),
        }
    }

    // That record becomes f.
    pub(crate) fn set_flow(&mut self, f: Flow) {
        self.set_word(flow_table::LOW, f.low as u64);
        self.set_word(flow_table::NEXT, f.next as u64);
        self.set_word(flow_table::HELD, f.held);
        self.set_word(flow_table::BACKLOG, f.backlog);
    }
}
