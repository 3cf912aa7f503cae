// The table of flow records (request M-107): "Each flow has its own ring, low, next, held count and backlog; they sit in a lent table of
// flow records, one to eight". Here it is lent as words of 64 bits, four a flow: low, next, the held count, the backlog. Inner steps: the
// caller proves that there is the flow.
#![tactic(auto)]

pub mod lent;

ghost use Rattle.std.specs.Prelude.{◌≡◌, ◌<◌};
ghost use Rattle.flow_table.specs.Words.{count_of, is_table, fits_at, Fits, flow_at, with_flow, with_backlog, with_sent, with_acked};

use ledger::Flow;

// The words of a flow.
pub const FLOW_WORDS: usize = 4;

// "one to eight"
pub const FLOWS_MOST: usize = 8;

// The places of a flow's words.
pub const LOW: usize = 0;

pub const NEXT: usize = 1;

pub const HELD: usize = 2;

pub const BACKLOG: usize = 3;

// One past the largest PSN: "PSN: 32 bits".
pub const PSN_END: u64 = 1 << 32;

// How many flows the table has.
pub fn count(words: &[u64]) -> usize
    ensures { result ≡ count_of words.now }
{
    words.len() / FLOW_WORDS
}

// Whether the words are those of a table: whole flows, one to eight.
pub fn is_table(words: &[u64]) -> bool
    ensures { result ≡ is_table words.now }
{
    let n = count(words);
    (words.len() == FLOW_WORDS * n) & (1 <= n) & (n <= FLOWS_MOST)
}

// Whether low and next of flow k are PSNs.
pub fn fits_at(words: &[u64], k: usize) -> bool
    requires { k < count_of words.now }
    ensures { result ≡ fits_at words.now k }
{
    let at = FLOW_WORDS * k;
    (words[at + LOW] < PSN_END) & (words[at + NEXT] < PSN_END)
}

// The record of flow k. The caller proves that its low and next are PSNs too.
pub fn flow_at(words: &[u64], k: usize) -> Flow
    requires k_bound { k < count_of words.now }
    requires fits { Fits words.now k }
    ensures { result ≡ flow_at words.now k }
{
    let at = FLOW_WORDS * k;
    Flow {
        low: words[at + LOW] as u32,
        next: words[at + NEXT] as u32,
        held: words[at + HELD],
        backlog: words[at + BACKLOG],
    }
}

// After an event only the words of flow k that it can change are stored, and the others stay. New data: the backlog.
pub fn put_backlog(words: &mut [u64], k: usize, f: Flow)
    requires { k < count_of words.old }
    ensures { words.new ≡ with_flow words.old k (with_backlog (flow_at words.old k) f) }
{
    let at = FLOW_WORDS * k;
    words[at + BACKLOG] = f.backlog;
}

// A send: next and the backlog.
pub fn put_sent(words: &mut [u64], k: usize, f: Flow)
    requires { k < count_of words.old }
    ensures { words.new ≡ with_flow words.old k (with_sent (flow_at words.old k) f) }
{
    let at = FLOW_WORDS * k;
    words[at + NEXT] = f.next as u64;
    words[at + BACKLOG] = f.backlog;
}

// An ACK: low and the held count.
pub fn put_acked(words: &mut [u64], k: usize, f: Flow)
    requires { k < count_of words.old }
    ensures { words.new ≡ with_flow words.old k (with_acked (flow_at words.old k) f) }
{
    let at = FLOW_WORDS * k;
    words[at + LOW] = f.low as u64;
    words[at + HELD] = f.held;
}

// The record of flow k becomes f, and no other changes: what a send can change and what an ACK can are all of its words.
pub fn put(words: &mut [u64], k: usize, f: Flow)
    requires { k < count_of words.old }
    ensures { words.new ≡ with_flow words.old k f }
{
    put_sent(words, k, f);
    put_acked(words, k, f);
}
