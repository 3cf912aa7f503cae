// Refusal 2 on the number of flows and on the rings of several flows (request M-107), refusal 25 on the flow that is called, and refusal 2
// on the held turn (request M-108).
use crate::lines::{choice, counted, events, looks, set_up, uneven};
use crate::make;
use crate::make::{EVS, Given, USUAL};
use crate::room::Lengths;
use std::io;

// Rings of 64 slots, as many as the table has whole flows unless the label says so: what is refused is the table. Its words, and the slots.
const WORDS_OF_TABLE: [(&str, usize, usize); 22] = [
    ("table of 0 words", 0, 64),
    ("table of 0 words, no ring", 0, 0),
    ("table of 1 word", 1, 64),
    ("table of 3 words", 3, 64),
    ("table of 4 words", 4, 64),
    ("table of 5 words", 5, 64),
    ("table of 5 words, 2 rings", 5, 128),
    ("table of 7 words, 2 rings", 7, 128),
    ("table of 8 words", 8, 128),
    ("table of 12 words", 12, 192),
    ("table of 16 words", 16, 256),
    ("table of 20 words", 20, 320),
    ("table of 24 words", 24, 384),
    ("table of 28 words", 28, 448),
    ("table of 31 words", 31, 448),
    ("table of 31 words, 8 rings", 31, 512),
    ("table of 32 words", 32, 512),
    ("table of 33 words", 33, 512),
    ("table of 36 words", 36, 576),
    ("table of 36 words, 8 rings", 36, 512),
    ("table of 40 words", 40, 640),
    ("table of 64 words, 16 rings", 64, 1024),
];

// What is refused is the rings: a flow's part is no power of two, under 64, over 4,096, or some slots are no flow's.
const SLOTS_OF_FLOWS: [(&str, usize, usize); 24] = [
    ("2 flows, no slots", 8, 0),
    ("2 flows of 32 slots", 8, 64),
    ("2 flows, 127 slots", 8, 127),
    ("2 flows, 129 slots", 8, 129),
    ("2 flows of 96 slots", 8, 192),
    ("2 flows of 128 slots", 8, 256),
    ("2 flows of 4096 slots", 8, 8192),
    ("2 flows of 8192 slots", 8, 16384),
    ("3 flows, 64 slots", 12, 64),
    ("3 flows, 128 slots", 12, 128),
    ("3 flows, 191 slots", 12, 191),
    ("3 flows, 193 slots", 12, 193),
    ("3 flows, 200 slots", 12, 200),
    ("3 flows, 256 slots", 12, 256),
    ("3 flows of 128 slots", 12, 384),
    ("7 flows, 512 slots", 28, 512),
    ("8 flows of 8 slots", 32, 64),
    ("8 flows of 32 slots", 32, 256),
    ("8 flows, 511 slots", 32, 511),
    ("8 flows, 519 slots", 32, 519),
    ("8 flows of 65 slots", 32, 520),
    ("8 flows of 4095 slots", 32, 32760),
    ("8 flows of 4096 slots", 32, 32768),
    ("8 flows of 4097 slots", 32, 32776),
];

// Words of bits: three flows of 64 slots have three of each kind, eight of 4,096 have 512. The words of the table, of outstanding and of
// marked bits, sizes and send times.
const DIFFERING_WORDS: [(&str, [usize; 5]); 17] = [
    ("3 flows, no outstanding", [12, 0, 3, 192, 192]),
    ("3 flows, outstanding of one", [12, 1, 3, 192, 192]),
    ("3 flows, outstanding shorter", [12, 2, 3, 192, 192]),
    ("3 flows, outstanding longer", [12, 4, 3, 192, 192]),
    ("3 flows, no marked", [12, 3, 0, 192, 192]),
    ("3 flows, marked of one", [12, 3, 1, 192, 192]),
    ("3 flows, marked shorter", [12, 3, 2, 192, 192]),
    ("3 flows, marked longer", [12, 3, 4, 192, 192]),
    ("3 flows, both words of one", [12, 1, 1, 192, 192]),
    ("3 flows, both words shorter", [12, 2, 2, 192, 192]),
    ("3 flows, both words longer", [12, 4, 4, 192, 192]),
    (
        "3 flows, outstanding shorter, marked longer",
        [12, 2, 4, 192, 192],
    ),
    ("8 flows, outstanding shorter", [32, 511, 512, 32768, 32768]),
    ("8 flows, outstanding longer", [32, 513, 512, 32768, 32768]),
    ("8 flows, marked shorter", [32, 512, 511, 32768, 32768]),
    ("8 flows, marked longer", [32, 512, 513, 32768, 32768]),
    ("8 flows, both words of one", [32, 64, 64, 32768, 32768]),
];

const DIFFERING_SLOTS: [(&str, [usize; 5]); 17] = [
    ("3 flows, no sizes", [12, 3, 3, 0, 192]),
    ("3 flows, sizes of one", [12, 3, 3, 64, 192]),
    ("3 flows, sizes shorter", [12, 3, 3, 191, 192]),
    ("3 flows, sizes longer", [12, 3, 3, 193, 192]),
    ("3 flows, sizes of 128 slots", [12, 3, 3, 384, 192]),
    ("3 flows, no sent", [12, 3, 3, 192, 0]),
    ("3 flows, sent of one", [12, 3, 3, 192, 64]),
    ("3 flows, sent shorter", [12, 3, 3, 192, 191]),
    ("3 flows, sent longer", [12, 3, 3, 192, 193]),
    ("3 flows, sent of 128 slots", [12, 3, 3, 192, 384]),
    ("3 flows, sizes and sent of one", [12, 3, 3, 64, 64]),
    ("3 flows, sizes and sent shorter", [12, 3, 3, 191, 191]),
    ("3 flows, sizes and sent longer", [12, 3, 3, 193, 193]),
    ("3 flows, sizes and sent of 128 slots", [12, 3, 3, 384, 384]),
    ("8 flows, sent of one", [32, 512, 512, 32768, 4096]),
    ("8 flows, sizes shorter", [32, 512, 512, 32767, 32768]),
    ("8 flows, sent longer", [32, 512, 512, 32768, 32769]),
];

// The EV times are shared: their number does not grow with the flows. How many EVs there are, and how many times are lent.
const TIMES: [(&str, u64, usize); 4] = [
    ("8 flows, 255 EV times", 256, 255),
    ("8 flows, 257 EV times", 256, 257),
    ("8 flows, 2048 EV times", 256, 2048),
    ("8 flows, 2048 EVs, 2048 times", 2048, 2048),
];

// "A flow out of range is refusal 25", and 2 comes before it. The flow that is called, the one that has the backlog, the words of the
// table, and the slots.
const CALLED: [(&str, usize, usize, usize, usize); 14] = [
    ("flow 0 of 1", 0, 0, 4, 64),
    ("flow 1 of 1", 1, 0, 4, 64),
    ("flow 7 of 1", 7, 0, 4, 64),
    ("flow 2 of 3", 2, 2, 12, 192),
    ("flow 3 of 3", 3, 2, 12, 192),
    ("flow 0 of 8", 0, 0, 32, 512),
    ("flow 6 of 8", 6, 6, 32, 512),
    ("flow 7 of 8", 7, 7, 32, 512),
    ("flow 8 of 8", 8, 7, 32, 512),
    ("flow 256 of 8", 256, 0, 32, 512),
    ("flow 4294967296 of 8", 4294967296, 0, 32, 512),
    ("order 2 25 table", 8, 0, 33, 512),
    ("order 2 25 rings", 3, 0, 12, 200),
    ("order 2 25 backlog", 8, 8, 32, 512),
];

// "A held turn that names no flow is refusal 2": for each number of flows the last turn that it allows, and one past it. The turn, the
// words of the table, and the slots.
const TURNS: [(&str, u64, usize, usize); 18] = [
    ("turn 0 of 1", 0, 4, 64),
    ("turn 1 of 1", 1, 4, 64),
    ("turn 1 of 2", 1, 8, 128),
    ("turn 2 of 2", 2, 8, 128),
    ("turn 2 of 3", 2, 12, 192),
    ("turn 3 of 3", 3, 12, 192),
    ("turn 3 of 4", 3, 16, 256),
    ("turn 4 of 4", 4, 16, 256),
    ("turn 4 of 5", 4, 20, 320),
    ("turn 5 of 5", 5, 20, 320),
    ("turn 5 of 6", 5, 24, 384),
    ("turn 6 of 6", 6, 24, 384),
    ("turn 6 of 7", 6, 28, 448),
    ("turn 7 of 7", 7, 28, 448),
    ("turn 7 of 8", 7, 32, 512),
    ("turn 8 of 8", 8, 32, 512),
    ("turn 4294967296 of 8", 4294967296, 32, 512),
    ("turn 2^64-1 of 8", u64::MAX, 32, 512),
];

// A table of so many words, as many slots in each slice, and 256 EV times.
fn shared(flows: usize, slots: usize) -> Lengths {
    Lengths::even(flows, slots, 256)
}

// Every event and the looks of one flow: two lines. Where there is no such flow, another has the backlog.
fn called(out: &impl Print, label: &str, flow: usize, owner: usize, k: Lengths) -> io::Result<()> {
    let e = Given {
        flow,
        owner,
        ..USUAL
    };
    print!(out; "25 events ")?;
    events(out, label, e, k)?;
    print!(out; "25 looks ")?;
    looks(out, label, e, k)
}

// Every event and the looks of flow 0, which has the backlog, and a choice, at a held turn: three lines.
fn held(out: &impl Print, label: &str, turn: u64, k: Lengths) -> io::Result<()> {
    let e = Given { turn, ..USUAL };
    print!(out; "2 events ")?;
    events(out, label, e, k)?;
    print!(out; "2 looks ")?;
    looks(out, label, e, k)?;
    print!(out; "2 choice ")?;
    choice(out, label, e, k)
}

// Refusal 1 comes before 2: an MTU of 1023, and a table or rings that are refused.
fn orders(out: &impl Print) -> io::Result<()> {
    let refused = make::settings(1023, EVS);
    set_up(out, "order 1 2 no flow", refused, shared(0, 64))?;
    set_up(out, "order 1 2 nine flows", refused, shared(36, 576))?;
    set_up(out, "order 1 2 rings", refused, shared(12, 200))
}

pub(crate) fn run(out: &impl Print) -> io::Result<()> {
    for (label, words, slots) in WORDS_OF_TABLE {
        counted(out, label, EVS, shared(words, slots))?;
    }
    for (label, words, slots) in SLOTS_OF_FLOWS {
        counted(out, label, EVS, shared(words, slots))?;
    }
    for (label, lengths) in DIFFERING_WORDS {
        uneven(out, label, lengths)?;
    }
    for (label, lengths) in DIFFERING_SLOTS {
        uneven(out, label, lengths)?;
    }
    for (label, count, evs) in TIMES {
        counted(out, label, count, Lengths::even(32, 512, evs))?;
    }
    for (label, flow, owner, words, slots) in CALLED {
        called(out, label, flow, owner, shared(words, slots))?;
    }
    for (label, turn, words, slots) in TURNS {
        held(out, label, turn, shared(words, slots))?;
    }
    orders(out)
}
