// Request M-105, "A run report for the data sheet": what a log's records were answered, in figures. It stands above the controller and
// reads only what a turn of a replay promises, and what stands in the log.
#![tactic(auto)]

pub mod figures;

ghost use Rattle.std.specs.Prelude.{◌≡◌, true, length};
ghost use Rattle.rules.specs.Verdict.{number_of};
ghost use Rattle.replay.specs.Places.{feed, sound_place};
ghost use Rattle.report_text.specs.Places.{figure_count};
ghost use Rattle.ledger.specs.Lent.{memory_after};
ghost use Rattle.context.specs.Lent.{context_given, context_before};
ghost use Rattle.replay_report.specs.Tallies.{tallying, tally_turns_of, tally_of};

use crate::figures::count;
use context::Controller;
use replay::turns::{is_sound, stands_at, turn};
use replay::{Place, Source};
use report_text::places::FIGURES;
use rules::verdict::{Refusal, Verdict};

// What a call answers: 2, or accepted. The figures are lent.
#[derive(Clone, Copy)]
pub struct Tallied {
    pub verdict: Verdict,
    pub place: Place,
    pub state: Controller,
}

// The turns where number 2 is known not to apply: an inner step. Each turn's record is looked up once more, for its bytes.
fn tally_turns<'a, 'b, 'c, 'd, 'e, 'f, 'g, 'h>(
    source: Source,
    place: Place,
    state: Controller,
    flows: &'a mut [u64],
    outstanding: &'b mut [u64],
    marked: &'c mut [u64],
    sizes: &'d mut [u32],
    sent: &'e mut [u64],
    evs: &'f mut [u64],
    log: &'g [u8],
    figures: &'h mut [u64],
) -> Tallied
    requires evs_value { sound_place place (context_given state flows.old outstanding.old marked.old sizes.old sent.old evs.old) ≡ true }
    requires figures_len { length figures.old ≡ figure_count }
    ensures { tallying (number_of result.verdict) result.place result.state
        flows.new (memory_after outstanding.new marked.new sizes.new sent.new) evs.new figures.new
        ≡ tally_turns_of (feed source log.now) place
        (context_before state flows.old outstanding.old marked.old sizes.old sent.old evs.old) figures.old }
{
    let mut place = place;
    let mut state = state;
    loop {
        let at = place.at;
        let t = turn(
            source,
            place,
            state,
            flows,
            outstanding,
            marked,
            sizes,
            sent,
            evs,
            log,
        );
        place = t.place;
        state = t.state;
        if t.ended {
            return Tallied {
                verdict: Ok(()),
                place,
                state,
            };
        }
        count(figures, stands_at(source, log, at), t.verdict, t.shown);
    }
}

// Makes all turns of a log from a place on, and adds each to the figures. A report over one log is the call from a replay's start with
// zeros; of a log in parts it is a call for each part, with the same figures. Number 2 is tested once, also where the figures are not 70.
pub fn tally<'a, 'b, 'c, 'd, 'e, 'f, 'g, 'h>(
    source: Source,
    place: Place,
    state: Controller,
    flows: &'a mut [u64],
    outstanding: &'b mut [u64],
    marked: &'c mut [u64],
    sizes: &'d mut [u32],
    sent: &'e mut [u64],
    evs: &'f mut [u64],
    log: &'g [u8],
    figures: &'h mut [u64],
) -> Tallied
    ensures { tallying (number_of result.verdict) result.place result.state
        flows.new (memory_after outstanding.new marked.new sizes.new sent.new) evs.new figures.new
        ≡ tally_of (feed source log.now) place
        (context_before state flows.old outstanding.old marked.old sizes.old sent.old evs.old) figures.old }
{
    let whole = is_sound(place, state, flows, outstanding, marked, sizes, sent, evs);
    if (figures.len() != FIGURES) | !whole {
        return Tallied {
            verdict: Err(Refusal::Unsound),
            place,
            state,
        };
    }
    tally_turns(
        source,
        place,
        state,
        flows,
        outstanding,
        marked,
        sizes,
        sent,
        evs,
        log,
        figures,
    )
}
