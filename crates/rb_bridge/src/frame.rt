//! A bus of a bridge that goes through a frame, and one that runs out.
ghost use Rattle.std.specs.Prelude.{◌≡◌, ◌<◌, ℕ, Bool, true, false, Option, List};
ghost use Rattle.rb_rules.specs.Goodness.{Scenario};
ghost use Rattle.rb_rules.specs.Ports.{HandIn};
ghost use Rattle.rb_world_book.specs.Records.{record_of};
ghost use Rattle.rb_world_book.specs.declared.turn.Turn.{Turn};
ghost use Rattle.rb_world.specs.Nexts.{is_last};
ghost use Rattle.rb_run.specs.Seen.{drive_of};
ghost use Rattle.rb_bridge.specs.Passing.{IsOnItsWay};
ghost use Rattle.rb_bridge.specs.Running.{IsUnderWay};
ghost use Rattle.rb_rules_bridge.specs.Bridges.{Bridge};
ghost use Rattle.rb_rules_bridge.specs.declared.bank.Bank.{Bank};
ghost use Rattle.rb_bridge.specs.Sides.{AfterFrame, BeforeFrame, IsUp, RunsOut};

use crate::passing::pass_frame;
use crate::side::Side;
use rb_port::Apps;
use rb_world::Drive;
use rb_world_book::Turn;

// Whether a turn is the last of a run.
pub(crate) fn is_last(turn: &Turn) -> bool
    ensures { result ≡ is_last (record_of turn.now) }
{
    match turn {
        Turn::Ended => true,
        Turn::Breach(_, _) => true,
        _ => false,
    }
}

/// Takes a bus through the frame that it has begun, up to the first turn beyond it. If the run has
/// ended, nothing is asked of the drive: the breach of this frame was given in place of its start.
pub(crate) fn pass<D: Drive>(side: &mut Side, apps: &Apps, drive: &mut D)
    requires { is_last (record_of side.old.turn) ≡ false
        → IsOnItsWay (D.is_plain drive.old) (D.told drive.old) side.old.world side.old.terms
        side.old.passage }
    ensures passes { (b : Bridge) (bank : Bank) (frame : ℕ) (both : Bool) (told : Option (List Turn))
        → frame < b.left.frames → b.left.frames ≡ b.right.frames
        → (both ≡ true → D.is_plain drive.old ≡ true)
        → BeforeFrame b bank frame both
        (drive_of (D.is_plain drive.old) told (D.told drive.old)) side.old
        → AfterFrame b bank frame both
        (drive_of (D.is_plain drive.old) told (D.told drive.new)) side.new }
    ensures stays { D.is_plain drive.new ≡ D.is_plain drive.old }
{
    if is_last(&side.turn) {
        return;
    }
    side.turn = pass_frame(&mut side.world, apps, drive, &side.terms, &mut side.passage);
}

/// Asks a drive for all turns that are left.
pub(crate) fn finish<D: Drive>(side: &mut Side, apps: &Apps, drive: &mut D)
    requires { IsUp (D.is_plain drive.old) (D.told drive.old) side.old }
    ensures { (sc : Scenario) (handed : List HandIn) (told : Option (List Turn)) (turns : List Turn)
        → IsUnderWay sc handed (D.is_plain drive.old) told (D.told drive.old) side.old.world turns
        (is_last (record_of side.old.turn))
        → RunsOut sc handed (D.is_plain drive.old) told (D.told drive.new) }
{
    for passed in 0..u32::MAX {
        if is_last(&side.turn) {
            return;
        }
        side.turn = drive.next(&mut side.world, apps);
    }
    unreachable!()
}
