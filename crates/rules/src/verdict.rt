// What a judge answers: accepted, or the first row of document 01's table that applies, its field row told apart by request M-100. A
// verdict stays a Result up to where it is printed or handed to C; there `number_of` gives its number.
ghost use Rattle.std.specs.Prelude.{◌≡◌};
ghost use Rattle.rules.specs.Verdict.{number_of};

// The rows, each with its number.
#[derive(Clone, Copy, PartialEq, Eq)]
pub enum Refusal {
    // a setting is outside its range.
    Setting = 1,
    // state or buffers don't hold together.
    Unsound = 2,
    // time before the held clock, or 2^48 or more.
    Time = 3,
    // size outside 41..MTU on a send.
    Size = 4,
    // new packet larger than backlog.
    Backlog = 5,
    // in-flight + MTU > cwnd on a send.
    WindowFull = 6,
    // next - low = capacity on a new packet.
    RingFull = 7,
    // new packet's PSN is not next; or a resend's PSN is not marked, or its size differs from the record.
    WrongPsn = 8,
    // ACK names an unsent packet, or is too old.
    UnsentOrOld = 9,
    // NACK or loss of a packet not flying.
    NotFlying = 10,
    // in-flight would fall below -2^24.
    Sinks = 11,
    // log record malformed, read or to be written.
    Malformed = 12,
    // the writer's lent room is shorter than the record.
    NoRoom = 13,
    // 0 bytes or a sum over 2^40 on new data.
    Bytes = 20,
    // count 2^24 or more.
    Count = 21,
    // NACK reason over 2.
    Reason = 22,
    // an EV that is not below the number of EVs.
    Ev = 23,
    // ACK's trigger PSN not covered by that ACK.
    Trigger = 24,
    // a flow out of range (request M-107).
    Flow = 25,
    // a plan of more than 64 sends (request M-111).
    PlanTooLong = 27,
    // a chunk with which the log would reach 2^48 bytes (request M-104).
    LogTooLong = 28,
}

// Accepted, or refused.
pub type Verdict = Result<(), Refusal>;

// What an event answers: the whole state, and its outcome, which is what the event gives beside the state or why it is refused. A refused
// event leaves the state as it was given; a refused setting up answers a state of zeros.
#[derive(Clone, Copy)]
pub struct Answer<S, T> {
    pub state: S,
    pub outcome: Result<T, Refusal>,
}

// The number of an outcome: "Accepted is 0."
#[tactic(auto, unfolding(crate::specs::Verdict::number_of))]
pub fn number_of<T: Copy>(outcome: Result<T, Refusal>) -> u32
    ensures { result ≡ number_of outcome }
{
    match outcome {
        Ok(_) => 0,
        Err(refusal) => refusal as u32,
    }
}
