// The figures of a report, and what a record adds to them. Inner steps: the caller proves that there are 70.
ghost use Rattle.std.specs.Prelude.{◌≡◌, ◌+◌, ◌<◌, length};
ghost use Rattle.rules.specs.Verdict.{number_of};
ghost use Rattle.replay.specs.Batches.{kind_of};
ghost use Rattle.report_text.specs.Places.{figure_count, kinds_at};
ghost use Rattle.replay_report.specs.Figures.{added, raised, answer_counted, bucket_of, lesser, ticks_counted, sample_counted, sent_at};
ghost use Rattle.replay_report.specs.Figures.{event_counted, bytes_counted, counted};

use replay::Shown;
use replay::records::Event;
use replay::turns::Found;
use report_text::places::{
    AGAIN_AT, AMBIGUOUS_AT, ANSWERS, BUCKETS, BUCKETS_AT, CUT_AT, GONE_AT, GREATEST_AT, LEAST_AT,
    NEW_AT, NOT_POSITIVE_AT, TAKEN_AT,
};
use rules::verdict::{Verdict, number_of};
use sender::Send;
use window::Sampling;
use window::delay::sample_in;

// A sum that stops at the greatest word.
fn sum(a: u64, b: u64) -> u64
    ensures { result ≡ added a b }
{
    if u64::MAX - a < b {
        return u64::MAX;
    }
    a + b
}

// Adds to a figure.
fn add(figures: &mut [u64], at: usize, n: u64)
    requires { at < length figures.old }
    ensures { figures.new ≡ raised at n figures.old }
{
    figures[at] = sum(figures[at], n);
}

// One more record with this answer.
fn count_answer(figures: &mut [u64], verdict: Verdict)
    requires { length figures.old ≡ figure_count }
    ensures { figures.new ≡ answer_counted (number_of verdict) figures.old }
{
    let number = number_of(verdict);
    if number < ANSWERS {
        add(figures, number as usize, 1);
    }
}

// The figure that counts the samples of a kind.
fn kind_at(sampling: Sampling) -> usize
    ensures { result ≡ kinds_at + kind_of sampling }
{
    match sampling {
        Sampling::Taken(_) => TAKEN_AT,
        Sampling::Cut => CUT_AT,
        Sampling::Gone => GONE_AT,
        Sampling::Ambiguous => AMBIGUOUS_AT,
        Sampling::NotPositive => NOT_POSITIVE_AT,
    }
}

// The bucket of a sample: its highest set bit, and the last bucket for those above.
fn bucket(ticks: u64) -> usize
    ensures { result ≡ bucket_of ticks }
{
    if ticks == 0 {
        return 0;
    }
    let highest = ticks.ilog2() as usize;
    highest.min(BUCKETS - 1)
}

// The least sample with one more.
fn lesser_of(least: u64, ticks: u64) -> u64
    ensures { result ≡ lesser least ticks }
{
    if least == 0 {
        return ticks;
    }
    rules::least(least, ticks)
}

// One more sample of so many ticks.
fn count_ticks(figures: &mut [u64], sample: Option<u64>)
    requires { length figures.old ≡ figure_count }
    ensures { figures.new ≡ ticks_counted sample figures.old }
{
    let Some(ticks) = sample else {
        return;
    };
    figures[LEAST_AT] = lesser_of(figures[LEAST_AT], ticks);
    figures[GREATEST_AT] = rules::most(figures[GREATEST_AT], ticks);
    add(figures, BUCKETS_AT + bucket(ticks), 1);
}

// What the sample step said of a record.
fn count_sample(figures: &mut [u64], shown: Shown)
    requires { length figures.old ≡ figure_count }
    ensures { figures.new ≡ sample_counted shown figures.old }
{
    let Shown::Sample(sampling) = shown else {
        return;
    };
    add(figures, kind_at(sampling), 1);
    count_ticks(figures, sample_in(sampling));
}

// The figure of a send's bytes.
fn sent_at(resend: bool) -> usize
    ensures { result ≡ sent_at resend }
{
    if resend {
        return AGAIN_AT;
    }
    NEW_AT
}

// The bytes of an event that was accepted: only a send has some.
fn count_event(figures: &mut [u64], verdict: Verdict, event: Event)
    requires { length figures.old ≡ figure_count }
    ensures { figures.new ≡ event_counted (number_of verdict) event figures.old }
{
    let Event::Send(_, _, a) = event else {
        return;
    };
    if verdict.is_ok() {
        add(figures, sent_at(a.resend), a.size as u64);
    }
}

// The bytes of a record.
fn count_bytes(figures: &mut [u64], verdict: Verdict, stands: Found)
    requires { length figures.old ≡ figure_count }
    ensures { figures.new ≡ bytes_counted (number_of verdict) stands figures.old }
{
    let Found::Whole { event, .. } = stands else {
        return;
    };
    count_event(figures, verdict, event);
}

// One more record: what stands in the log, its verdict and what its line shows.
pub(crate) fn count(figures: &mut [u64], stands: Found, verdict: Verdict, shown: Shown)
    requires { length figures.old ≡ figure_count }
    ensures { figures.new ≡ counted stands (number_of verdict) shown figures.old }
{
    count_answer(figures, verdict);
    count_sample(figures, shown);
    count_bytes(figures, verdict, stands);
}
