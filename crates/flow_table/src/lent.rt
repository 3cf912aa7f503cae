// The table as a lent slice of records, and the same by value: the records are taken over by value, an event works on their words, and
// they are stored again.
ghost use Rattle.std.specs.Prelude.{◌≡◌, ◌*◌, ◌<◌, ◌≤◌, length, get_or};
ghost use Rattle.flow_table.specs.Words.{flow_words, flows_most, AllFit, no_flow};
ghost use Rattle.flow_table.specs.Lent.{room, loaded, saved, no_flows, with_record, value_words, value_from};

use crate::FLOWS_MOST;
use ledger::Flow;

// The words of eight flows.
pub const WORDS_MOST: usize = 32;

// The table by value: how many flows it has, and room for eight.
#[derive(Clone, Copy)]
pub struct Flows {
    pub n: usize,
    pub at: [Flow; 8],
}

// The record of flow k. An inner step: the caller proves that there is room for it.
pub fn nth(fs: Flows, k: usize) -> Flow
    requires { k < flows_most }
    ensures { result ≡ get_or fs.at k no_flow }
{
    fs.at[k]
}

// The record of flow k becomes f. An inner step: the caller proves that there is room for it.
pub fn with_record(fs: Flows, k: usize, f: Flow) -> Flows
    requires { k < flows_most }
    ensures { result ≡ with_record fs k f }
{
    let mut next = fs;
    next.at[k] = f;
    next
}

// Eight records of zeros, in a table of n.
pub fn no_flows(n: usize) -> Flows
    ensures { result ≡ no_flows n }
{
    let f = Flow {
        low: 0,
        next: 0,
        held: 0,
        backlog: 0,
    };
    Flows { n: n, at: [f; 8] }
}

// How many records of a table of n are taken over.
pub fn taken(n: usize) -> usize
    ensures { result ≡ room n }
{
    if n < FLOWS_MOST { n } else { FLOWS_MOST }
}

// The lent table, by value.
pub fn load(table: &mut [Flow]) -> Flows
    ensures { (result ≡ loaded table.old) × (table.new ≡ table.old) }
{
    let n = table.len();
    let m = taken(n);
    let mut at = no_flows(n).at;
    at[..m].copy_from_slice(&table[..m]);
    Flows { n, at }
}

// The table by value is stored in the lent one.
pub fn save(table: &mut [Flow], fs: Flows)
    ensures { table.new ≡ saved fs table.old }
{
    let m = taken(table.len());
    table[..m].copy_from_slice(&fs.at[..m]);
}

// The words of all eight records. Low and next of each are PSNs, as in the record.
pub fn to_words(fs: Flows) -> [u64; WORDS_MOST]
    ensures { (result ≡ value_words fs) × AllFit flows_most result }
{
    let mut words = [0u64; WORDS_MOST];
    for k in 0..FLOWS_MOST {
        crate::put(&mut words, k, nth(fs, k));
    }
    words
}

// The records of the first n flows' words, by value. An inner step: the caller proves that there are so many, at most eight, and that low
// and next of each are PSNs.
pub fn from_words(n: usize, words: &[u64]) -> Flows
    requires n_le_flows_most { (n ≤ flows_most) × (flow_words * n ≤ length words.now) }
    requires all_fit { AllFit n words.now }
    ensures { result ≡ value_from n words.now }
{
    let mut fs = no_flows(n);
    for k in 0..n {
        let f = crate::flow_at(words, k);
        fs = with_record(fs, k, f);
    }
    fs
}
