// An event over the table by value: what a method over a lent table of records calls between loading and storing them (document 01,
// "Form by location": "taken apart and handed to the by-value ledger step"). The step has the records as words, lends the words of those
// that there are to the event, and reads the records that it leaves. There is room for eight: of more the number of flows alone refuses it
// (request M-107: "Refusal 2 tests every flow and the number of flows").
ghost use Rattle.std.specs.Prelude.{◌≡◌, ◌<◌, ◌≤◌};
ghost use Rattle.rules.specs.Verdict.{number_of};
ghost use Rattle.ledger.specs.Memory.{memory};
ghost use Rattle.flow_table.specs.Words.{flows_most};
ghost use Rattle.context.specs.Context.{context, answered};
ghost use Rattle.context.specs.Table.{Keeps, unsound, front_before, stepped, stepped_after, by_value};

use crate::Controller;
use flow_table::lent::Flows;
use rules::verdict::{Answer, Refusal};

// What a step leaves: the answer, and the table by value.
#[derive(Clone, Copy)]
pub(crate) struct Step<T> {
    pub answer: Answer<Controller, T>,
    pub flows: Flows,
}

// The event is called once, on the records' words and the buffers that were lent, and what it leaves of the words is records again. Of more
// than eight flows it is not called.
pub(crate) fn make_step<
    'a,
    'b,
    'c,
    'd,
    'e,
    T,
    F: FnOnce(
        &mut [u64],
        &mut [u64],
        &mut [u64],
        &mut [u32],
        &mut [u64],
        &mut [u64],
    ) -> Answer<Controller, T>,
>(
    c: Controller,
    fs: Flows,
    outstanding: &'a mut [u64],
    marked: &'b mut [u64],
    sizes: &'c mut [u32],
    sent: &'d mut [u64],
    evs: &'e mut [u64],
    event: F,
) -> Step<T>
    requires callable { F.IsAlwaysCallable event }
    requires keeps { (p o m z s e r p' o' m' z' s' e' : _) → F.post event p o m z s e r p' o' m' z' s' e' → Keeps p.now p'.now }
    ensures many { flows_most < fs.n → (result.answer.outcome ≡ unsound)
        × (stepped_after (number_of result.answer.outcome) result.answer.state result.flows outstanding.new marked.new sizes.new sent.new evs.new
        ≡ stepped 2 c fs (memory outstanding.old marked.old sizes.old sent.old) evs.old) }
    ensures called { fs.n ≤ flows_most → (p o m z s e p' o' m' z' s' e' : _) × F.post event p o m z s e result.answer p' o' m' z' s' e'
        × (context c p.now (memory o.now m.now z.now s.now) e.now ≡ front_before c fs outstanding.old marked.old sizes.old sent.old evs.old)
        × (stepped_after (number_of result.answer.outcome) result.answer.state result.flows outstanding.new marked.new sizes.new sent.new evs.new
        ≡ by_value fs.n (answered (number_of result.answer.outcome) result.answer.state p'.now (memory o'.now m'.now z'.now s'.now) e'.now)) }
{
    if flow_table::FLOWS_MOST < fs.n {
        let answer = Answer {
            state: c,
            outcome: Err(Refusal::Unsound),
        };
        return Step { answer, flows: fs };
    }
    let mut words = flow_table::lent::to_words(fs);
    let end = flow_table::FLOW_WORDS * fs.n;
    let answer = event(&mut words[0..end], outstanding, marked, sizes, sent, evs);
    let flows = flow_table::lent::from_words(fs.n, &words);
    Step { answer, flows }
}
