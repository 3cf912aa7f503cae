// The words of a case. Numbers follow a word; one that is left out is 0:
//   a setting or another number of the state, and its value; the state's name alone; `time`, of the calls that follow
//   `flow` K, of the words and calls that follow; `table` WORDS, how many of the table are lent: four a flow, and 4 where none is said
//   `low`, `next` and `held` of that flow; `backlog` of that flow, and the total moves with it; `backlog_total`, the total alone
//   `status` SLOT 1 flying, 2 marked, 3 done or 0 none: its two bits; `size`, `resent` or `sent` SLOT VALUE; `EV_time` EV TIME
//   `outstanding_bit` or `marked_bit` SLOT 0 or 1, each by itself; `number` SLOT VALUE, size and resend count as they are kept
//   a SLOT is one of the whole ring buffer, where flow 1 of two begins at 64
//   `full`; `empty` LOW NEXT; `flown` LOW NEXT, in a ring of 128 slots; `pair`, of two flows; where none is said it is `make::mixed`
//   `new_data` BYTES; `send` or `resend` PSN SIZE; `ack` CUM MAP TRIGGER COUNT EV M SERVICE; `nack` PSN EV REASON; `loss` PSN EV; `path`
//   `set_up`, with the world's settings; `events`, every event and a choice, each by itself; `row`, a line of the worked example
//   `ledger`, the flow's low, next and ring, and the totals; `record`, the flow's four words
//   `status_of` PSN and `next_marked` PSN, the two looks; `choose`, of no time and no flow: each is written as it is made
//   `compare`, with the world that the case began with or was told to `keep`

#[derive(Clone, Copy)]
pub enum Setting {
    Mtu,
    MaxWnd,
    ConfigBaseRtt,
    TargetQdelay,
    Fi,
    Eta,
    Alpha,
    Gamma,
    MaxMdJump,
    AdjustPeriod,
    AdjustBytes,
    QaThreshold,
    FirstPsn,
    QuickAdaptOff,
    EvCount,
}

// A number of the window's.
#[derive(Clone, Copy)]
pub enum Tally {
    Cwnd,
    Base,
    Average,
    IncBytes,
    Received,
    Achieved,
    Ignored,
    BytesToIgnore,
    FiCount,
    FastMode,
    Trigger,
    QuickAdaptEnd,
    LastAdjust,
    LastDecrease,
}

// A number that all flows share.
#[derive(Clone, Copy)]
pub enum Total {
    Backlog,
    Flying,
    Marked,
    MarkedBytes,
    InFlight,
}

// What takes one number, or is a state's name.
#[derive(Clone, Copy)]
pub enum Number {
    Setting(Setting),
    // A word of the flow's record, by its place there.
    Record(usize),
    Total(Total),
    Tally(Tally),
    Clock,
    Cursor,
    Turn,
    Flow,
    Table,
    Phase(u32),
    Time,
}

// What a slot has, or an EV.
#[derive(Clone, Copy)]
pub enum Slot {
    Status,
    Size,
    Sent,
    Resent,
    OutstandingBit,
    MarkedBit,
    Number,
    EvTime,
}

#[derive(Clone, Copy)]
pub enum Event {
    NewData,
    Send,
    Resend,
    Ack,
    Nack,
    Loss,
    Path,
}

#[derive(Clone, Copy)]
pub enum Word {
    Number(Number),
    Slot(Slot),
    Full,
    Empty,
    Flown,
    Pair,
    Keep,
    Compare,
    StatusOf,
    NextMarked,
    Record,
    Choose,
    Event(Event),
    SetUp,
    Events,
    Row,
    Ledger,
    // No word, and one that is not listed.
    Nothing,
    Unknown,
}

const SETTINGS: [(&str, Setting); 15] = [
    ("MTU", Setting::Mtu),
    ("MaxWnd", Setting::MaxWnd),
    ("config_base_rtt", Setting::ConfigBaseRtt),
    ("target_qdelay", Setting::TargetQdelay),
    ("fi", Setting::Fi),
    ("eta", Setting::Eta),
    ("alpha", Setting::Alpha),
    ("gamma", Setting::Gamma),
    ("max_md_jump", Setting::MaxMdJump),
    ("adjust_period", Setting::AdjustPeriod),
    ("adjust_bytes", Setting::AdjustBytes),
    ("qa_threshold", Setting::QaThreshold),
    ("first_PSN", Setting::FirstPsn),
    ("quick_adapt_off", Setting::QuickAdaptOff),
    ("EV_count", Setting::EvCount),
];

const RECORD: [(&str, usize); 4] = [
    ("low", flow_table::LOW),
    ("next", flow_table::NEXT),
    ("held", flow_table::HELD),
    ("backlog", flow_table::BACKLOG),
];

const TOTALS: [(&str, Total); 5] = [
    ("backlog_total", Total::Backlog),
    ("flying", Total::Flying),
    ("marked", Total::Marked),
    ("marked_bytes", Total::MarkedBytes),
    ("in_flight", Total::InFlight),
];

const TALLIES: [(&str, Tally); 14] = [
    ("cwnd", Tally::Cwnd),
    ("base", Tally::Base),
    ("average", Tally::Average),
    ("inc_bytes", Tally::IncBytes),
    ("received", Tally::Received),
    ("achieved", Tally::Achieved),
    ("ignored", Tally::Ignored),
    ("bytes_to_ignore", Tally::BytesToIgnore),
    ("fi_count", Tally::FiCount),
    ("fast_mode", Tally::FastMode),
    ("trigger", Tally::Trigger),
    ("quick_adapt_end", Tally::QuickAdaptEnd),
    ("last_adjust", Tally::LastAdjust),
    ("last_decrease", Tally::LastDecrease),
];

const PHASES: [(&str, u32); 4] = [
    ("IDLE", sender::IDLE),
    ("PENDING", sender::PENDING),
    ("READY", sender::READY),
    ("ACTIVE", sender::ACTIVE),
];

const NUMBERS: [(&str, Number); 6] = [
    ("clock", Number::Clock),
    ("cursor", Number::Cursor),
    ("turn", Number::Turn),
    ("flow", Number::Flow),
    ("table", Number::Table),
    ("time", Number::Time),
];

const SLOTS: [(&str, Slot); 8] = [
    ("status", Slot::Status),
    ("size", Slot::Size),
    ("sent", Slot::Sent),
    ("resent", Slot::Resent),
    ("outstanding_bit", Slot::OutstandingBit),
    ("marked_bit", Slot::MarkedBit),
    ("number", Slot::Number),
    ("EV_time", Slot::EvTime),
];

const EVENTS: [(&str, Event); 7] = [
    ("new_data", Event::NewData),
    ("send", Event::Send),
    ("resend", Event::Resend),
    ("ack", Event::Ack),
    ("nack", Event::Nack),
    ("loss", Event::Loss),
    ("path", Event::Path),
];

const WORDS: [(&str, Word); 14] = [
    ("full", Word::Full),
    ("empty", Word::Empty),
    ("flown", Word::Flown),
    ("pair", Word::Pair),
    ("keep", Word::Keep),
    ("compare", Word::Compare),
    ("status_of", Word::StatusOf),
    ("next_marked", Word::NextMarked),
    ("record", Word::Record),
    ("choose", Word::Choose),
    ("set_up", Word::SetUp),
    ("events", Word::Events),
    ("row", Word::Row),
    ("ledger", Word::Ledger),
];

// What is named so in a list.
fn find<T: Copy>(list: &[(&str, T)], part: &[u8]) -> Option<T> {
    let found = list.iter().find(|(name, _)| name.as_bytes() == part);
    found.map(|(_, named)| *named)
}

fn number_named(part: &[u8]) -> Option<Number> {
    find(&SETTINGS, part)
        .map(Number::Setting)
        .or_else(|| find(&RECORD, part).map(Number::Record))
        .or_else(|| find(&TOTALS, part).map(Number::Total))
        .or_else(|| find(&TALLIES, part).map(Number::Tally))
        .or_else(|| find(&PHASES, part).map(Number::Phase))
        .or_else(|| find(&NUMBERS, part))
}

// The word that is written so.
pub(crate) fn word_of(part: &[u8]) -> Word {
    number_named(part)
        .map(Word::Number)
        .or_else(|| find(&SLOTS, part).map(Word::Slot))
        .or_else(|| find(&EVENTS, part).map(Word::Event))
        .or_else(|| find(&WORDS, part))
        .unwrap_or(Word::Unknown)
}
