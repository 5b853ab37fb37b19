//! The calls of a bus, over a handle of the host.
ghost use Rattle.std.specs.Prelude.{◌≡◌, IfErr, IsSomeAnd, None, OnErr, OnOk, is_some};
ghost use Rattle.rb_scenario.specs.Acceptance.{IsRefused};
ghost use Rattle.rb_bus.specs.Buses.{KeepsItsPromise, Opens};
ghost use Rattle.rb_bus.specs.Calls.{GivesShown, HandOf, IsOpened, NextOf, number_of, opening_of};
ghost use Rattle.rb_bus.specs.Handles.{bus_in};

use crate::bus::{Bus, NotHanded};
use crate::filling::show;
use crate::handle::{Handle, put, take};
use crate::record::HostRecord;
use rb_port::{Apps, applications};
use rb_scenario::Refusal;
use std::alloc::{AllocError, Global};

/// The answer to the text of a scenario. `status` is 0 if the text is accepted, 3 if it breaks a
/// rule and 7 if memory runs out. At 3 `code` is the rule's code, and `number` is the number that
/// follows the rule's name, if there is one. In every other case both are 0.
#[repr(C)]
#[derive(Clone, Copy, Debug, PartialEq, Eq)]
pub struct Opening {
    pub status: u8,
    pub code: u8,
    pub number: u64,
}

/// The status of a call that is done.
const DONE: u8 = 0;

/// The status of a text that breaks a rule.
const REFUSED: u8 = 3;

/// The status of a call for which memory runs out.
const NO_MEMORY: u8 = 7;

/// The status of a call on a handle without a bus.
const NO_BUS: u8 = 10;

// The answer as plain numbers.
fn opening_of(made: Result<(), Refusal>) -> Opening
    ensures { result ≡ opening_of made }
{
    match made {
        Ok(()) => Opening {
            status: DONE,
            code: 0,
            number: 0,
        },
        Err(Refusal::OutOfMemory) => Opening {
            status: NO_MEMORY,
            code: 0,
            number: 0,
        },
        Err(refusal) => Opening {
            status: REFUSED,
            code: refusal.code().unwrap_or(0),
            number: refusal.detail().unwrap_or(0),
        },
    }
}

// The status of an answer to a word that is handed in.
fn number_of(handed: Result<(), NotHanded>) -> u8
    ensures { result ≡ number_of handed }
{
    match handed {
        Ok(()) => DONE,
        Err(NotHanded::NoFrame) => 14,
        Err(NotHanded::NotGood) => 15,
        Err(NotHanded::NoTable) => 16,
    }
}

// Puts the bus of this text into the handle, before its first record.
fn make(alloc: Global, bus: &mut Handle, text: &[u8]) -> Result<(), Refusal>
    requires { bus_in bus.old ≡ None }
    ensures opens { OnOk result (IsSomeAnd (bus_in bus.new) (Opens text.now)) }
    ensures refused { IfErr result (IsRefused text.now) }
    ensures none { OnErr result (bus_in bus.new ≡ None) }
{
    let opened = match Bus::open(alloc, text) {
        Ok(opened) => opened,
        Err(refusal) => return Err(refusal),
    };
    match Box::new(alloc, opened) {
        Ok(whole) => {
            put(bus, whole);
            Ok(())
        }
        Err(_) => Err(Refusal::OutOfMemory),
    }
}

/// Frees the bus of the handle, if there is one, and puts the bus of the scenario in `text` into
/// the handle, before its first record. If no bus is made, the answer says why.
pub fn open(alloc: Global, bus: &mut Handle, text: &[u8]) -> Opening
    ensures { IsOpened text.now (bus_in bus.new) result }
{
    let _ = take(bus, alloc);
    opening_of(make(alloc, bus, text))
}

// Writes the next record into `shown`.
fn give(bus: &mut Bus, apps: &Apps, shown: &mut HostRecord)
    ensures gives { GivesShown bus.old bus.new shown.new }
    ensures promise { KeepsItsPromise bus.new }
{
    let turn = bus.next(apps);
    show(&turn, shown);
}

// Makes the applications and writes the next record into `shown`. If memory runs out for the
// applications, nothing changes.
fn give_with(alloc: Global, bus: &mut Bus, shown: &mut HostRecord) -> Result<(), AllocError>
    ensures gives { OnOk result (GivesShown bus.old bus.new shown.new) }
    ensures promise { OnOk result (KeepsItsPromise bus.new) }
    ensures bus { OnErr result (bus.new ≡ bus.old) }
    ensures shown { OnErr result (shown.new ≡ shown.old) }
{
    let apps = applications!(alloc);
    give(bus, &apps, shown);
    Ok(())
}

/// Writes the next record into `shown`. After the last record that record comes again. The status
/// is 0. If it is 7, out of memory, or 10, no bus, nothing changes.
pub fn next(alloc: Global, bus: &mut Handle, shown: &mut HostRecord) -> u8
    ensures { NextOf (bus_in bus.old) (bus_in bus.new) shown.old shown.new result }
{
    let Some(mut whole) = take(bus, alloc) else {
        return NO_BUS;
    };
    let given = give_with(alloc, &mut whole, shown);
    put(bus, whole);
    match given {
        Ok(()) => DONE,
        Err(_) => NO_MEMORY,
    }
}

/// Hands a word to the table of a BIU. The BIU offers that word in each of its slots, from the
/// frame that has just begun until it is handed another word. The status is 0, or says why nothing
/// changes: 10, there is no bus; 14, the last record does not begin a frame; 15, the bus has no
/// such BIU, or the BIU is not good as the frame begins; 16, the BIU's application is not a table.
pub fn hand(alloc: Global, bus: &mut Handle, biu: u8, word: u32) -> u8
    ensures { HandOf biu word (bus_in bus.old) (bus_in bus.new) result }
{
    let Some(mut whole) = take(bus, alloc) else {
        return NO_BUS;
    };
    let handed = whole.hand(biu, word);
    put(bus, whole);
    number_of(handed)
}

/// Frees the bus of the handle, which then has none. Returns whether there was one.
pub fn free(alloc: Global, bus: &mut Handle) -> bool
    ensures there { result ≡ is_some (bus_in bus.old) }
    ensures gone { bus_in bus.new ≡ None }
{
    take(bus, alloc).is_some()
}
