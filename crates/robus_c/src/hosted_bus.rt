//! A bus as calls for C, over a handle of the host: a run that gives one record after another and
//! takes the words that the BIUs offer from the host.
ghost use Rattle.std.specs.Prelude.{◌≡◌, None, is_some};
ghost use Rattle.rb_bus.specs.Calls.{HandOf, IsOpened, NextOf};
ghost use Rattle.rb_bus.specs.Handles.{bus_in};

use rb_bus::calls;
use rb_bus::calls::Opening;
use rb_bus::handle::Handle;
use rb_bus::record::HostRecord;
use std::alloc::Global;

/// Frees the bus of the handle, if there is one, and puts the bus of the scenario in `text` into
/// the handle, before its first record. If no bus is made, the answer says why.
#[unsafe(no_mangle)]
pub extern "C" fn robus_bus_open(alloc: Global, bus: &mut Handle, text: &[u8]) -> Opening
    ensures { IsOpened text.now (bus_in bus.new) result }
{
    calls::open(alloc, bus, text)
}

/// Writes the next record into `shown`. After the last record that record comes again. The status
/// is 0. If it is 7, out of memory, or 10, no bus, nothing changes.
#[unsafe(no_mangle)]
pub extern "C" fn robus_bus_next(alloc: Global, bus: &mut Handle, shown: &mut HostRecord) -> u8
    ensures { NextOf (bus_in bus.old) (bus_in bus.new) shown.old shown.new result }
{
    calls::next(alloc, bus, shown)
}

/// Hands a word to the table of a BIU. The BIU offers that word in each of its slots, from the
/// frame that has just begun until it is handed another word. The status is 0, or says why nothing
/// changes: 10, there is no bus; 14, the last record does not begin a frame; 15, the bus has no
/// such BIU, or the BIU is not good as the frame begins; 16, the BIU's application is not a table.
#[unsafe(no_mangle)]
pub extern "C" fn robus_bus_hand(alloc: Global, bus: &mut Handle, biu: u8, word: u32) -> u8
    ensures { HandOf biu word (bus_in bus.old) (bus_in bus.new) result }
{
    calls::hand(alloc, bus, biu, word)
}

/// Frees the bus of the handle, which then has none. Returns whether there was one.
#[unsafe(no_mangle)]
pub extern "C" fn robus_bus_free(alloc: Global, bus: &mut Handle) -> bool
    ensures there { result ≡ is_some (bus_in bus.old) }
    ensures gone { bus_in bus.new ≡ None }
{
    calls::free(alloc, bus)
}
