// What a word of a case does to its world.
use crate::fields::narrow;
use crate::phrase::Phrase;
use crate::words::{Number, Word};
use crate::worlds::{Call, World};
use crate::{calls, make, say};
use std::io;

// The world, the one before its last call or to compare it with, and the time of calls.
#[derive(Clone, Copy)]
pub struct Bench {
    pub before: World,
    pub world: World,
    pub time: u64,
}

impl Bench {
    fn at(world: World, time: u64) -> Bench {
        Bench {
            before: world,
            world,
            time,
        }
    }

    // Where every case begins.
    pub(crate) fn start() -> Bench {
        Bench::at(make::mixed(), make::CLOCK)
    }

    // The time of a call is as the word says, and the clock's where the clock is set.
    fn set_number(&mut self, number: Number, n: u64) {
        self.world.set_number(number, n);
        if matches!(number, Number::Time | Number::Clock) {
            self.time = n;
        }
    }

    // Another world, to compare with too.
    fn set_world(&mut self, world: World) {
        *self = Bench::at(world, make::CLOCK);
    }

    // Writes whether the world has changed, and turns back.
    fn compare(&mut self, out: &impl Print) -> io::Result<()> {
        say::comparison(out, &self.before, &self.world)?;
        self.world = self.before;
        Ok(())
    }

    fn call(&mut self, call: Call) {
        self.before = self.world;
        self.world = self.before.after(self.time, call);
    }

    // Setting up takes the world's settings, on memory that holds whatever it held, and starts a clock of its own.
    fn set_up(&mut self) {
        self.before = self.world;
        let settings = self.before.state.settings;
        self.world = make::unset(self.before.table).after(self.time, Call::SetUp(settings));
        self.time = self.world.state.clock;
    }

    // Writes what a choice answers, so that a case may have several.
    fn choose(&mut self, out: &impl Print) -> io::Result<()> {
        self.call(Call::Choose);
        say::choice(out, &self.before, &self.world)
    }

    pub(crate) fn act(&mut self, out: &impl Print, p: Phrase) -> io::Result<()> {
        let n = p.numbers;
        match p.word {
            Word::Number(number) => self.set_number(number, n[0]),
            Word::Slot(slot) => self.world.set_slot(slot, n[0], n[1]),
            Word::Full => self.set_world(make::full()),
            Word::Empty => self.set_world(make::empty(narrow(n[0]), narrow(n[1]))),
            Word::Flown => self.set_world(make::flown(narrow(n[0]), narrow(n[1]))),
            Word::Pair => self.set_world(make::pair()),
            Word::Keep => self.before = self.world,
            Word::Compare => self.compare(out)?,
            Word::StatusOf => say::look(out, self.world.status_of(narrow(n[0])))?,
            Word::NextMarked => say::look(out, self.world.next_marked(narrow(n[0])))?,
            Word::Record => say::record(out, &self.world)?,
            Word::Choose => self.choose(out)?,
            Word::Event(event) => self.call(calls::call_of(event, n)),
            Word::SetUp => self.set_up(),
            Word::Unknown => print!(out; " unknown")?,
            // These only say what is written at the end of the case.
            Word::Events | Word::Row | Word::Ledger | Word::Nothing => {}
        }
        Ok(())
    }
}
