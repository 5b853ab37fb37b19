//! What two buses hand to each other between two frames.
ghost use Rattle.std.specs.Prelude.{◌≡◌, ◌<◌, ◌+◌, ◌++◌, ◌∷◌, [], ℕ, All, true, false, List};
ghost use Rattle.rb_world_book.specs.Records.{record_of};
ghost use Rattle.rb_world_book.specs.declared.turn.Turn.{Turn};
ghost use Rattle.rb_run.specs.Turns.{records_in};
ghost use Rattle.rb_world.specs.Nexts.{is_last};
ghost use Rattle.rb_bridge.specs.Passing.{HoldsPassage, is_over};
ghost use Rattle.rb_rules_bridge.specs.Bridges.{biu_on};
ghost use Rattle.rb_rules_bridge.specs.declared.bank.Bank.TheVariants.{Left, Right};
ghost use Rattle.rb_bridge.specs.Crossing.{AreReady, BridgeRun, HaveCrossed};
ghost use Rattle.rb_bridge.specs.Sides.{TurnsOver};

use crate::frame::is_last;
use crate::handing::hand_over;
use crate::passing::{Passage, Terms};
use crate::side::Side;
use crate::values::{no_values, note};
use rb_group_run::advance;
use rb_rules_bridge::{Bank, Pair};
use rb_world_book::Turn;

// A frame begins with a turn: what is kept is what that tells of it.
fn begin_frame(passage: &mut Passage, terms: &Terms, turn: &Turn)
    ensures { (turns : List Turn) → is_last (record_of turn.now) ≡ false
        → is_over terms.now.frames passage.old.ports.frame (record_of turn.now) ≡ true
        → HoldsPassage terms.now passage.old.ports.frame (records_in turns) passage.old
        → HoldsPassage terms.now passage.new.ports.frame (records_in (turns ++ turn.now ∷ []))
        passage.new }
{
    advance(&mut passage.ports, &terms.asked, terms.frames, turn);
    let frame = passage.ports.frame;
    passage.values = no_values();
    note(&mut passage.values, frame, terms.slot, turn);
}

// The next frame begins, unless the run has ended.
fn turn_over(passage: &mut Passage, terms: &Terms, turn: &Turn)
    ensures { TurnsOver terms.now turn.now passage.old passage.new }
{
    if is_last(turn) {
        return;
    }
    begin_frame(passage, terms, turn);
}

/// Hands to each bus what the other one carries over, and begins the next frame.
pub(crate) fn exchange(left: &mut Side, right: &mut Side, pairs: &[Pair])
    requires left { All (λ pair. biu_on Left pair < 16) pairs.now }
    requires right { All (λ pair. biu_on Right pair < 16) pairs.now }
    ensures { (x : BridgeRun) (frame : ℕ) → HaveCrossed x pairs.now frame left.old right.old
        → AreReady x (frame + 1) left.new right.new }
{
    hand_over(&mut left.world, Bank::Left, pairs, &right.passage.values);
    hand_over(&mut right.world, Bank::Right, pairs, &left.passage.values);
    turn_over(&mut left.passage, &left.terms, &left.turn);
    turn_over(&mut right.passage, &right.terms, &right.turn);
}
