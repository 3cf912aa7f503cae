// Refusal 2 on lengths, with one flow: each slice too short, too long, or no power of two, to setting up, to every event, to the looks
// and to a choice.
use crate::lines::{counted, events, set_up, uneven};
use crate::make;
use crate::make::{EVS, Given, USUAL};
use crate::room::Lengths;
use std::io;

// The words of one flow's table.
const FLOW: usize = flow_table::FLOW_WORDS;

// As many slots in each slice, and so many EV times.
const CAPACITIES: [(&str, usize, usize); 16] = [
    ("0 slots", 0, 256),
    ("32 slots", 32, 256),
    ("63 slots", 63, 256),
    ("64 slots", 64, 256),
    ("65 slots", 65, 256),
    ("96 slots", 96, 256),
    ("128 slots", 128, 256),
    ("192 slots", 192, 256),
    ("4095 slots", 4095, 256),
    ("4096 slots", 4096, 256),
    ("4097 slots", 4097, 256),
    ("8192 slots", 8192, 256),
    ("0 EV times", 64, 0),
    ("255 EV times", 64, 255),
    ("257 EV times", 64, 257),
    ("512 EV times", 64, 512),
];

// Words of bits: a capacity of 128 has two of each kind, one of 4,096 has 64. The words of the table, of outstanding and of marked bits,
// sizes and send times.
const DIFFERING_WORDS: [(&str, [usize; 5]); 18] = [
    ("no outstanding", [4, 0, 2, 128, 128]),
    ("outstanding shorter", [4, 1, 2, 128, 128]),
    ("outstanding longer", [4, 3, 2, 128, 128]),
    ("outstanding 64 shorter", [4, 0, 64, 4096, 4096]),
    ("outstanding 64 longer", [4, 128, 64, 4096, 4096]),
    ("outstanding a word a slot", [4, 128, 2, 128, 128]),
    ("no marked", [4, 2, 0, 128, 128]),
    ("marked shorter", [4, 2, 1, 128, 128]),
    ("marked longer", [4, 2, 3, 128, 128]),
    ("marked 64 shorter", [4, 64, 0, 4096, 4096]),
    ("marked 64 longer", [4, 64, 128, 4096, 4096]),
    ("marked a word a slot", [4, 2, 128, 128, 128]),
    ("no words", [4, 0, 0, 128, 128]),
    ("both words shorter", [4, 1, 1, 128, 128]),
    ("both words longer", [4, 3, 3, 128, 128]),
    ("both words of 256 slots", [4, 4, 4, 128, 128]),
    ("both words, a word a slot", [4, 128, 128, 128, 128]),
    ("outstanding shorter, marked longer", [4, 1, 3, 128, 128]),
];

const DIFFERING_SLOTS: [(&str, [usize; 5]); 15] = [
    ("no sizes", [4, 2, 2, 0, 128]),
    ("sizes shorter", [4, 1, 1, 63, 64]),
    ("sizes longer", [4, 1, 1, 65, 64]),
    ("sizes 64 shorter", [4, 2, 2, 64, 128]),
    ("sizes 64 longer", [4, 1, 1, 128, 64]),
    ("no sent", [4, 1, 1, 64, 0]),
    ("sent shorter", [4, 1, 1, 64, 63]),
    ("sent longer", [4, 1, 1, 64, 65]),
    ("sent 64 shorter", [4, 2, 2, 128, 64]),
    ("sent 64 longer", [4, 1, 1, 64, 128]),
    ("sizes and sent shorter", [4, 2, 2, 127, 127]),
    ("sizes and sent longer", [4, 2, 2, 129, 129]),
    ("sizes and sent 64 shorter", [4, 2, 2, 64, 64]),
    ("sizes and sent 64 longer", [4, 2, 2, 192, 192]),
    ("sizes and sent of 256 slots", [4, 2, 2, 256, 256]),
];

// Numbers of EVs: one that is not allowed is refusal 1 of setting up, whatever is lent; of one that is allowed exactly so many times must
// be lent. How many there are, and how many times are lent.
const COUNTS: [(&str, u64, usize); 11] = [
    ("255 EVs, 255 times", 255, 255),
    ("256 EVs, 256 times", 256, 256),
    ("257 EVs, 257 times", 257, 257),
    ("512 EVs, 256 times", 512, 256),
    ("512 EVs, 511 times", 512, 511),
    ("512 EVs, 512 times", 512, 512),
    ("512 EVs, 513 times", 512, 513),
    ("4096 EVs, 4095 times", 4096, 4095),
    ("4096 EVs, 4096 times", 4096, 4096),
    ("4096 EVs, 4097 times", 4096, 4097),
    ("8192 EVs, 8192 times", 8192, 8192),
];

// Feedback's EV and the cursor, at the chosen number: how many EVs there are, the cursor, and the EV.
const CHOSEN: [(&str, usize, u32, u32); 6] = [
    ("23 EV 511 of 512", 512, 0, 511),
    ("23 EV 512 of 512", 512, 0, 512),
    ("23 EV 4095 of 4096", 4096, 0, 4095),
    ("23 EV 4096 of 4096", 4096, 0, 4096),
    ("2 cursor 511 of 512", 512, 511, 0),
    ("2 cursor 512 of 512", 512, 512, 0),
];

// One flow, as many slots in each slice, and a number of EV times.
fn even(slots: usize, evs: usize) -> Lengths {
    Lengths::even(FLOW, slots, evs)
}

// Refusal 1 comes before 2: an MTU of 1023, and lengths that are refused.
pub(crate) fn run(out: &impl Print) -> io::Result<()> {
    for (label, slots, evs) in CAPACITIES {
        counted(out, label, EVS, even(slots, evs))?;
    }
    for (label, lengths) in DIFFERING_WORDS {
        uneven(out, label, lengths)?;
    }
    for (label, lengths) in DIFFERING_SLOTS {
        uneven(out, label, lengths)?;
    }
    for (label, count, evs) in COUNTS {
        counted(out, label, count, even(64, evs))?;
    }
    for (label, evs, cursor, ev) in CHOSEN {
        let count = evs as u64;
        let given = Given {
            count,
            cursor,
            ev,
            ..USUAL
        };
        events(out, label, given, even(64, evs))?;
    }
    set_up(out, "order 1 2", make::settings(1023, 256), even(63, 255))?;
    set_up(
        out,
        "order 1 2 EVs",
        make::settings(4096, 8192),
        even(63, 255),
    )
}
