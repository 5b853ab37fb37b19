//! A bus that is taken through one frame.
ghost use Rattle.std.specs.Prelude.{◌≡◌, ◌++◌, ◌∷◌, [], ℕ, Option, List, false};
ghost use Rattle.rb_rules.specs.Ports.{HandIn};
ghost use Rattle.rb_world_book.specs.Records.{record_of};
ghost use Rattle.rb_world_book.specs.declared.turn.Turn.{Turn};
ghost use Rattle.rb_run.specs.Turns.{records_in};
ghost use Rattle.rb_world.specs.Nexts.{is_last};
ghost use Rattle.rb_bridge.specs.Passing.{HoldsPassage, IsOnItsWay, PassesFrame, is_over};
ghost use Rattle.rb_bridge.specs.Running.{IsUnderWay};

use crate::values::{Values, note};
use rb_group_run::ports::frame_or;
use rb_group_run::{Asked, Ports, advance};
use rb_port::Apps;
use rb_world::{Drive, World};
use rb_world_book::Turn;

/// What is asked of a bus: the group whose value its receivers find, the slot that is carried over,
/// and the number of frames.
#[derive(Clone, Copy, Debug, PartialEq, Eq)]
pub struct Terms {
    pub asked: Asked,
    pub slot: u16,
    pub frames: u32,
}

/// A bus in one frame: what each port delivered in it, and the values of its carried slot.
#[derive(Drop)]
pub struct Passage {
    pub ports: Ports,
    pub values: Values,
}

// Whether a turn is the last record of a run.
fn is_last(turn: &Turn) -> bool
    ensures { result ≡ is_last (record_of turn.now) }
{
    match turn {
        Turn::Ended => true,
        Turn::Breach(_, _) => true,
        _ => false,
    }
}

// Whether a frame is over with a turn.
fn is_over(turn: &Turn, frames: u32, frame: u32) -> bool
    ensures { result ≡ is_over frames frame (record_of turn.now) }
{
    frame < frame_or(turn, frames, frame) || is_last(turn)
}

// What is kept of the frame after a turn of it.
fn keep(passage: &mut Passage, terms: &Terms, turn: &Turn)
    ensures { (frame : ℕ) (turns : List Turn)
        → is_over terms.now.frames frame (record_of turn.now) ≡ false
        → HoldsPassage terms.now frame (records_in turns) passage.old
        → HoldsPassage terms.now frame (records_in (turns ++ turn.now ∷ [])) passage.new }
{
    let frame = passage.ports.frame;
    advance(&mut passage.ports, &terms.asked, terms.frames, turn);
    note(&mut passage.values, frame, terms.slot, turn);
}

/// Takes a run on to the first turn of a later frame, or to its end, and gives that turn. What is
/// kept of the frame is then all that the turns before it tell. The run must not have ended.
pub(crate) fn pass_frame<D: Drive>(
    world: &mut World,
    apps: &Apps,
    drive: &mut D,
    terms: &Terms,
    passage: &mut Passage,
) -> Turn
    requires { IsOnItsWay (D.is_plain drive.old) (D.told drive.old) world.old terms.now
        passage.old }
    ensures passes { (handed : List HandIn) (told : Option (List Turn)) (before : List Turn)
        → IsUnderWay world.old.bus handed (D.is_plain drive.old) told (D.told drive.old) world.old
        before false
        → HoldsPassage terms.now passage.old.ports.frame (records_in before) passage.old
        → PassesFrame world.old.bus handed (D.is_plain drive.old) told (D.told drive.new) world.new before terms.now passage.old.ports.frame passage.new result }
    ensures bus { world.new.bus ≡ world.old.bus }
    ensures stays { D.is_plain drive.new ≡ D.is_plain drive.old }
{
    for passed in 0..u32::MAX {
        let turn = drive.next(world, apps);
        if is_over(&turn, terms.frames, passage.ports.frame) {
            return turn;
        }
        keep(passage, terms, &turn);
    }
    unreachable!()
}
