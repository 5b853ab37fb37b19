//! How a run comes to its next record.
ghost use Rattle.std.specs.Prelude.{◌≡◌, ℕ, true, Option, is_some};
ghost use Rattle.rb_rules.specs.Book.{Record};
ghost use Rattle.rb_rules.specs.Lawful.{IsNodeOf};
ghost use Rattle.rb_rules.specs.WorldStep.{World as RunWorld, go_on};
ghost use Rattle.rb_laws_events.specs.Promise.{NodesKeepThePromise};
ghost use Rattle.rb_world_book.specs.declared.turn.Turn.{Turn};
ghost use Rattle.rb_world_book.specs.Records.{record_of};
ghost use Rattle.rb_world.specs.declared.ties.Ties.TheVariants.{First};
ghost use Rattle.rb_world.specs.Nexts.{GoesToNext, RunsOn, TakesStep, is_last};
ghost use Rattle.rb_world.specs.Numbering.{GoesInRounds};
ghost use Rattle.rb_world.specs.Observing.{TellsRunOn, TellsToNext};
ghost use Rattle.rb_world.specs.Turning.{Gives};
ghost use Rattle.rb_world.specs.Worlds.{Stands, last_of};

use crate::last::Last;
use crate::observing::{Nobody, Observer};
use crate::run::Setup;
use crate::taking::last_of;
use crate::ties::{Ties, choose};
use crate::trailing::run_ticks;
use crate::world::World;
use rb_base::NodeName;
use rb_gen::Draws;
use rb_port::Apps;
use rb_world_book::{Turn, Way};

// The last turn of a run, of which this is kept.
fn last_turn(last: Last) -> Turn
    ensures { (r : Option Record) → last ≡ last_of r → is_last r ≡ true → r ≡ record_of result }
{
    match last {
        Last::Breach(place, cause) => Turn::Breach(place, cause),
        _ => Turn::Ended,
    }
}

impl World {
    // Gives what needs no event, and after the last record that record again. The turn is `Quiet`
    // before, here and in what follows, and is written over if a record is given.
    fn go_on(&mut self, turn: &mut Turn)
        requires { turn.old ≡ Turn.Quiet }
        ensures world { (w : RunWorld) → Stands self.old w
            → Gives self.new turn.new (go_on self.old.bus w) }
        ensures bus { self.new.bus ≡ self.old.bus }
    {
        if self.run.scene.book.has_ended() {
            *turn = last_turn(self.last);
            return;
        }
        self.run.scene.book.settle_into(Way::ByItself, turn);
        self.last = last_of(turn);
    }

    // Takes one of the events that are due, and if none is, goes on without one.
    #[inline(never)]
    fn step_counted(&mut self, apps: &Apps, ties: Ties, draws: &mut Draws, turn: &mut Turn)
        requires { turn.old ≡ Turn.Quiet }
        ensures world { (w : RunWorld) → Stands self.old w
            → TakesStep ties draws.old.state draws.new.state self.old self.new turn.new w }
        ensures bus { self.new.bus ≡ self.old.bus }
    {
        let due = self.due();
        if due == 0 {
            self.go_on(turn);
            return;
        }
        let i = choose(ties, draws, due);
        self.take_into(apps, i, turn);
    }

    // Takes steps up to the next record. A run has fewer than 2^64 - 1 events.
    #[inline(never)]
    fn run_counted(&mut self, apps: &Apps, ties: Ties, draws: &mut Draws, turn: &mut Turn)
        requires stands { (w : RunWorld) × Stands self.old w }
        requires quiet { turn.old ≡ Turn.Quiet }
        ensures world { (w : RunWorld) → Stands self.old w
            → RunsOn ties draws.old.state draws.new.state self.old self.new turn.new w }
        ensures bus { self.new.bus ≡ self.old.bus }
    {
        for passed in 0..u64::MAX {
            self.step_counted(apps, ties, draws, turn);
            if let Turn::Quiet = turn {
                continue;
            }
            return;
        }
        unreachable!()
    }

    // The run goes on to its next record, from tick to tick. The first event that is due is taken
    // each time. The observer is told what the observed node is given on the way.
    #[inline(always)]
    fn run_first<T: Observer>(
        &mut self,
        apps: &Apps,
        turn: &mut Turn,
        observed: Option<NodeName>,
        observer: &mut T,
    )
        requires stands { (w : RunWorld) × Stands self.old w }
        requires quiet { turn.old ≡ Turn.Quiet }
        ensures world { (w : RunWorld) (state : ℕ) → Stands self.old w
            → RunsOn First state state self.old self.new turn.new w }
        ensures bus { self.new.bus ≡ self.old.bus }
        ensures told { TellsRunOn T.observes observed self.old self.new turn.new
            observer.old observer.new }
    {
        if self.run.scene.book.has_ended() {
            *turn = last_turn(self.last);
            return;
        }
        let setup = Setup {
            bus: &self.bus,
            apps,
            observed,
        };
        run_ticks(&setup, &mut self.run, turn, observer);
        self.last = last_of(turn);
    }

    // The run goes on to its next record, with no node observed. It is a call of its own, so that
    // the turn which `next` gives is made where it is wanted, and not copied.
    #[inline(never)]
    fn run_unobserved(&mut self, apps: &Apps, turn: &mut Turn)
        requires stands { (w : RunWorld) × Stands self.old w }
        requires quiet { turn.old ≡ Turn.Quiet }
        ensures world { (w : RunWorld) (state : ℕ) → Stands self.old w
            → RunsOn First state state self.old self.new turn.new w }
        ensures bus { self.new.bus ≡ self.old.bus }
    {
        self.run_first(apps, turn, None, &mut Nobody);
    }

    // The run goes on to its next record by any choices among the events that are due.
    #[inline(always)]
    fn run_on(&mut self, apps: &Apps, ties: Ties, draws: &mut Draws, turn: &mut Turn)
        requires stands { (w : RunWorld) × Stands self.old w }
        requires quiet { turn.old ≡ Turn.Quiet }
        ensures world { (w : RunWorld) → Stands self.old w
            → RunsOn ties draws.old.state draws.new.state self.old self.new turn.new w }
        ensures bus { self.new.bus ≡ self.old.bus }
    {
        match ties {
            Ties::First => self.run_unobserved(apps, turn),
            _ => self.run_counted(apps, ties, draws, turn),
        }
    }

    /// The next record: a record that needs no event is given by itself, else events that are due
    /// are taken, chosen by `ties`, until a record comes with one. After the last record, `Ended`
    /// or a breach, it is that record again. The turn is never `Quiet`.
    #[inline(always)]
    pub fn next(&mut self, apps: &Apps, ties: Ties) -> Turn
        ensures world { (w : RunWorld) → Stands self.old w
            → GoesToNext ties self.old self.new result w }
        ensures record { is_some (record_of result) ≡ true }
        ensures bus { self.new.bus ≡ self.old.bus }
        ensures rounds { (w : RunWorld) → Stands self.old w
            → GoesInRounds self.old self.new result w }
        ensures nodes { (w : RunWorld) → Stands self.new w → NodesKeepThePromise self.new.bus w }
    {
        let mut seeding = self.seeding.begin(ties);
        let mut turn = Turn::Quiet;
        self.run_on(apps, ties, &mut seeding.draws, &mut turn);
        self.seeding = seeding;
        turn
    }

    /// The next record by first choices, as `next` gives it. Up to its event, an observer is told
    /// one after another what a node of the bus is given: each event with the frame in which the
    /// node stood before it. What is given after the event of the record is told by the next call.
    /// After the last record nothing is told.
    pub fn next_observed<T: Observer>(
        &mut self,
        apps: &Apps,
        node: NodeName,
        observer: &mut T,
    ) -> Turn
        requires node { IsNodeOf self.old.bus.sizes node }
        ensures world { (w : RunWorld) → Stands self.old w
            → GoesToNext First self.old self.new result w }
        ensures told { (w : RunWorld) → Stands self.old w
            → TellsToNext T T.observes node observer.old observer.new self.old self.new result w }
        ensures record { is_some (record_of result) ≡ true }
        ensures bus { self.new.bus ≡ self.old.bus }
        ensures rounds { (w : RunWorld) → Stands self.old w
            → GoesInRounds self.old self.new result w }
    {
        let seeding = self.seeding.begin(Ties::First);
        let mut turn = Turn::Quiet;
        self.run_first(apps, &mut turn, Some(node), observer);
        self.seeding = seeding;
        turn
    }
}
