//! Who takes a world from record to record.
ghost use Rattle.std.specs.Prelude.{◌≡◌, ⊤, IsTrue, IfOk, [], Bool, List, None, Option, is_some, not, true};
ghost use Rattle.rb_rules.specs.WorldStep.{World as RunWorld};
ghost use Rattle.rb_world_book.specs.Records.{record_of};
ghost use Rattle.rb_world_book.specs.declared.turn.Turn.{Turn};
ghost use Rattle.rb_world.specs.declared.ties.Ties.TheVariants.{First};
ghost use Rattle.rb_world.specs.Driving.{GivesBy, GoesAlike, Keeps, Tells, given_for, masked, told_of};
ghost use Rattle.rb_world.specs.Nexts.{GoesToNext};
ghost use Rattle.rb_world.specs.Numbering.{GoesInRounds};
ghost use Rattle.rb_world.specs.Worlds.{Stands};

use crate::ties::Ties;
use crate::world::World;
use arrayvec::ArrayVec;
use rb_base::{Heard, OutOfMemory};
use rb_port::Apps;
use rb_world_book::{SlotLine, SlotRecord, Turn};
use std::alloc::Global;
use std::marker::Model;

/// A drive takes a world to its next record, by first choices, and gives a turn. A plain drive
/// gives that record. One that is not plain may give other ticks, times, masks, states, losses and
/// values in its lines.
pub trait Drive {
    /// Whether it gives the world's records as they are. No call changes that.
    ghost is_plain: { Self → Bool };

    /// The turns that the drive gave so far, if it tells them.
    ghost told: { Self → Option (List Turn) };

    /// Which turns it may give for a record of the world.
    ghost gives: { Self → Turn → Turn → Type 0 };

    /// What it was, what it may be after a call, and the turn that is given.
    ghost keeps: { Self → Self → Turn → Type 0 };

    /// The next turn. It is told with the others, or from here on nothing is told.
    fn next(&mut self, world: &mut World, apps: &Apps) -> Turn
        ensures plain { IsTrue (is_plain self.old) → (w : RunWorld) → Stands world.old w
            → GoesToNext First world.old world.new result w }
        ensures rounds { IsTrue (is_plain self.old) → (w : RunWorld) → Stands world.old w
            → GoesInRounds world.old world.new result w }
        ensures record { is_some (record_of result) ≡ true }
        ensures alike { (w : RunWorld) → Stands world.old w
            → GoesAlike world.old world.new result w }
        ensures bus { world.new.bus ≡ world.old.bus }
        ensures stays { is_plain self.new ≡ is_plain self.old }
        ensures told { Tells (told self.old) (told self.new) result }
        ensures gives { (w : RunWorld) → Stands world.old w
            → GivesBy (gives self.old) world.old world.new result w }
        ensures keeps { keeps self.old self.new result };
}

/// The plain drive that tells nothing.
#[derive(Clone, Copy, Debug, PartialEq, Eq)]
pub struct FirstDrive;

impl FirstDrive {
    /// A plain drive.
    pub fn new() -> FirstDrive {
        FirstDrive
    }
}

impl Drive for FirstDrive {
    ghost is_plain = { λ _. true };

    ghost told = { λ _. None };

    ghost gives = { λ _ turn given. given ≡ turn };

    ghost keeps = { λ _ _ _. ⊤ };

    #[inline(always)]
    fn next(&mut self, world: &mut World, apps: &Apps) -> Turn {
        world.next(apps, Ties::First)
    }
}

/// A drive that keeps the turns that it gave, and tells them as long as there is room for all. With
/// a mask it gives Fault in place of each value that a slot's record has, and is not plain.
#[derive(Drop)]
pub struct MemDrive {
    turns: Vec<Turn>,
    room: usize,
    telling: bool,
    mask: bool,
}

impl Model for MemDrive {
    ghost use Rattle.std.specs.Prelude.{◌≤◌, length, vec_capacity};
    ghost use Rattle.rb_world.specs.Driving.{KeptTurns};

    ghost Value = { KeptTurns };

    ghost view = { λ d. record {
      turns = d.turns.items;
      room = d.room;
      telling = d.telling;
      mask = d.mask;
    } };

    ghost invariant = { λ d. (length d.turns.items ≤ d.room) × (d.room ≤ vec_capacity d.turns) };
}

// The turn with Fault in place of each value.
fn masked(turn: Turn) -> Turn
    ensures { result ≡ masked turn }
{
    match turn {
        Turn::Slot(slot) => {
            let mut lines = ArrayVec::new();
            for line in slot.lines.as_slice() {
                lines.push(SlotLine {
                    value: Heard::Fault,
                    ..*line
                });
            }
            Turn::Slot(SlotRecord {
                frame: slot.frame,
                slot: slot.slot,
                lines,
            })
        }
        other => other,
    }
}

// The turn that is given for this one.
fn given(turn: Turn, mask: bool) -> Turn
    ensures { result ≡ given_for mask turn }
{
    if mask { masked(turn) } else { turn }
}

impl MemDrive {
    /// A drive that tells at most `room` turns. It takes memory for all of them here.
    pub fn new(alloc: Global, room: usize, mask: bool) -> Result<MemDrive, OutOfMemory>
        ensures { IfOk result (λ d. d
            ≡ record { turns = []; room = room; telling = true; mask = mask }) }
    {
        match Vec::with_capacity(alloc, room) {
            Ok(turns) => Ok(MemDrive {
                turns,
                room,
                telling: true,
                mask,
            }),
            Err(_) => Err(OutOfMemory),
        }
    }

    /// The turns that it gave, the first `room` of them.
    pub fn turns(&self) -> &[Turn]
        ensures { result.now ≡ self.now.turns }
    {
        self.turns.as_slice()
    }

    // Keeps a turn as long as there is room.
    fn keep(&mut self, turn: &Turn)
        ensures keeps { Keeps self.old self.new turn.now }
    {
        if self.turns.len() < self.room {
            let _ = self.turns.push(turn.clone().unwrap());
        } else {
            self.telling = false;
        }
    }
}

impl Drive for MemDrive {
    ghost is_plain = { λ d. not d.mask };

    ghost told = { told_of };

    ghost gives = { λ d turn given. given ≡ given_for d.mask turn };

    ghost keeps = { Keeps };

    fn next(&mut self, world: &mut World, apps: &Apps) -> Turn {
        let next = world.next(apps, Ties::First);
        let turn = given(next, self.mask);
        self.keep(&turn);
        turn
    }
}
