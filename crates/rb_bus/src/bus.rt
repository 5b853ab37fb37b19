//! A run of a bus to which a host hands words.
ghost use Rattle.std.specs.Prelude.{◌≡◌, IfErr, IfOk};
ghost use Rattle.rb_rules.specs.WorldStep.{frame_in};
ghost use Rattle.rb_scenario.specs.Acceptance.{IsRefused};
ghost use Rattle.rb_world_book.specs.Records.{record_of};
ghost use Rattle.rb_bus.specs.Buses.{Gives, Hands, KeepsItsPromise, Opens};

use crate::access::{Access, access_of, has_table, is_good_at_begin};
use rb_base::OutOfMemory;
use rb_port::Apps;
use rb_scenario::{Refusal, read};
use rb_world::{Ties, Turn, World};
use std::alloc::Global;

/// A run of a bus; the BIUs that may be handed words; and the frame that the last record began, if
/// it began one.
#[derive(Drop)]
pub struct Bus {
    pub world: World,
    pub access: Access,
    pub begun: Option<u32>,
}

/// Why a word is not handed in.
#[derive(Clone, Copy, Debug, PartialEq, Eq)]
pub enum NotHanded {
    /// The last record does not begin a frame.
    NoFrame,
    /// The bus has no such BIU, or the BIU is not good as the frame begins.
    NotGood,
    /// The application of the BIU is not a table.
    NoTable,
}

// The frame that a turn begins, if it begins one.
fn begun_by(turn: &Turn) -> Option<u32>
    ensures { result ≡ frame_in (record_of turn.now) }
{
    match turn {
        Turn::Quiet => None,
        Turn::Frame(frame) => Some(frame.frame),
        Turn::Slot(_) => None,
        Turn::Ended => None,
        Turn::Breach(_, _) => None,
    }
}

impl Bus {
    /// The bus of the scenario in `text`, before its first record, or the first rule of scenarios
    /// that the text breaks. The run takes all its memory here.
    pub fn open(alloc: Global, text: &[u8]) -> Result<Bus, Refusal>
        ensures opens { IfOk result (Opens text.now) }
        ensures refused { IfErr result (IsRefused text.now) }
    {
        let scenario = match read(alloc, text) {
            Ok(scenario) => scenario,
            Err(refusal) => return Err(refusal),
        };
        let access = access_of(&scenario);
        match World::open(alloc, scenario) {
            Ok(world) => Ok(Bus {
                world,
                access,
                begun: None,
            }),
            Err(OutOfMemory) => Err(Refusal::OutOfMemory),
        }
    }

    /// The next record of the run. Of several events that are due, the first is taken. After the
    /// last record that record comes again.
    pub fn next(&mut self, apps: &Apps) -> Turn
        ensures gives { Gives self.old self.new result }
        ensures promise { KeepsItsPromise self.new }
    {
        let turn = self.world.next(apps, Ties::First);
        self.begun = begun_by(&turn);
        turn
    }

    /// Hands a word to the table of a BIU. The BIU offers that word in each of its slots, from the
    /// frame that has just begun until it is handed another word. An error changes nothing.
    pub fn hand(&mut self, biu: u8, word: u32) -> Result<(), NotHanded>
        ensures { Hands biu word self.old self.new result }
    {
        let Some(frame) = self.begun else {
            return Err(NotHanded::NoFrame);
        };
        if !is_good_at_begin(&self.access, biu, frame) {
            return Err(NotHanded::NotGood);
        }
        if !has_table(&self.access, biu) {
            return Err(NotHanded::NoTable);
        }
        self.world.hand(biu, u64::from(word));
        Ok(())
    }
}
