//! The memory in which a handle keeps its bus.
ghost use Rattle.std.specs.Prelude.{◌≡◌, IsSome, None, Some};
ghost use Rattle.rb_bus.specs.Owns.{Kept, held_owns, kept_coded};

use crate::bus::Bus;
use std::alloc::Global;
use std::marker::Model;

/// The pointer to a bus, with the memory that the bus is in; or nothing.
#[repr(C)]
#[derive(Drop)]
pub struct Held {
    at: *mut u8,
    pub ghost bus: { Kept } by { kept_coded },
}

impl Model for Held {
    ghost also_owns = { λ h. held_owns h.at h.bus };
}

/// Holds a boxed bus.
pub(crate) fn close(whole: Box<Bus, Global>) -> Held
    ensures { result.bus ≡ Some whole.value }
{
    let (at, _alloc) = Box::into_raw_with_allocator(whole);
    Held { at: at as *mut u8 }
}

/// The bus that is held, in its box.
pub(crate) fn open(held: Held, alloc: Global) -> Box<Bus, Global>
    requires { IsSome held.bus }
    ensures { held.bus ≡ Some result.value }
{
    let Held { at } = held;
    unsafe { Box::from_raw(alloc, at as *mut Bus) }
}

/// Holds nothing.
pub(crate) fn empty() -> Held
    ensures { result.bus ≡ None }
{
    Held {
        at: std::ptr::null_mut(),
    }
}
