//! A run that is taken to its end, and what is told of it, written turn by turn.
ghost use Rattle.std.specs.Prelude.{◌≡◌, ◌++◌, ℕ, List, [], IfOk, OnErr, OnOk};
ghost use Rattle.std.specs.Option.{option_to_list};
ghost use Rattle.rb_outside.specs.Causes.{HasCause};
ghost use Rattle.rb_rules.specs.Book.{Record};
ghost use Rattle.rb_rules.specs.Goodness.{Scenario};
ghost use Rattle.rb_run.specs.Histories.{HasDriven, HasDrivenSome};
ghost use Rattle.rb_run.specs.Runs.{EndsWith, HasGivenNothing, WritesNext, WritesRun};
ghost use Rattle.rb_run.specs.Seen.{drive_over};
ghost use Rattle.rb_world_book.specs.Records.{record_of};

use crate::ending::{Ending, ending_at};
use rb_outside::{Failed, Sink};
use rb_port::Apps;
use rb_world::{Drive, World};
use rb_world_book::Turn;

/// Who tells something of a run: its report, its letters, or what it says of a group. A teller is
/// given the turns one after another, and writes what its text gets with each.
pub trait Teller {
    /// The text for these records of a run of this scenario.
    ghost says: { Self → Scenario → List Record → List ℕ };

    /// It has been given the turns of these records of a run of this scenario, and no others.
    ghost has_told: { Self → Scenario → List Record → Type 0 };

    /// Writes what the text gets with the next turn. `Failed` is the answer only if a write failed;
    /// a first part of it has then been written.
    fn tell<K: Sink>(&mut self, turn: &Turn, output: &mut K) -> Result<(), Failed>
        ensures written { (sc : Scenario) (records : List Record) → has_told self.old sc records
            → WritesNext (says self.old sc) records (record_of turn.now)
            K.held K.faults output.old output.new result }
        ensures told { OnOk result ((sc : Scenario) (records : List Record)
            → has_told self.old sc records
            → has_told self.new sc (records ++ option_to_list (record_of turn.now))) }
        ensures cause { HasCause (K.faults output.old) (K.faults output.new) result }
        ensures same { says self.new ≡ says self.old };

    /// Of no records there is nothing to say.
    ghost says_nothing: { (teller : Self) (sc : Scenario) → says teller sc [] ≡ [] };
}

/// Takes a run from its start to its end, and writes what the teller says of it as the drive gives
/// the turns: a line at a time, each write asking for the rest of one line. `Failed` is the answer
/// only if a write failed; a first part of the text has then been written. The world must be as
/// `World::open` gives it, and the teller must not have told anything yet.
pub fn tell_to_end<T: Teller, D: Drive, K: Sink>(
    world: &mut World,
    apps: &Apps,
    drive: &mut D,
    teller: &mut T,
    output: &mut K,
) -> Result<Ending, Failed>
    requires begun { HasGivenNothing world.old }
    requires fresh { T.has_told teller.old world.old.bus [] }
    ensures written { WritesRun (T.says teller.old world.old.bus) world.old.bus
        (drive_over D.is_plain D.told drive.old drive.new)
        K.held K.faults output.old output.new result }
    ensures ending { IfOk result (EndsWith world.old.bus) }
    ensures driven { OnOk result (HasDriven world.old.bus D.gives D.keeps drive.old drive.new) }
    ensures driven_in_part { OnErr result
        (HasDrivenSome world.old.bus D.gives D.keeps drive.old drive.new) }
    ensures bus { world.new.bus ≡ world.old.bus }
    ensures stays { D.is_plain drive.new ≡ D.is_plain drive.old }
{
    for passed in 0..u32::MAX {
        let turn = drive.next(world, apps);
        teller.tell(&turn, output)?;
        if let Some(ending) = ending_at(&turn) {
            return Ok(ending);
        }
    }
    unreachable!()
}
