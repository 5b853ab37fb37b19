//! A host's handle.
ghost use Rattle.std.specs.Prelude.{◌≡◌, IfNone, IfSome, None, Some, is_some};

use crate::bus::Bus;
use crate::held::{Held, close, empty, open};
use std::alloc::Global;

/// A bus in a host's hands, or none. The host keeps the struct where it likes and touches none of
/// its fields. In C a handle begins as zeros.
#[repr(C)]
#[derive(Drop)]
pub struct Handle {
    there: bool,
    pub(crate) held: Held,
    ghost known: { there ≡ is_some held.bus },
}

/// A handle with no bus.
pub fn vacant() -> Handle
    ensures { result.held.bus ≡ None }
{
    Handle {
        there: false,
        held: empty(),
    }
}

/// Takes the bus out of the handle, which then has none.
pub(crate) fn take(handle: &mut Handle, alloc: Global) -> Option<Box<Bus, Global>>
    ensures some { IfSome result (λ whole. handle.old.held.bus ≡ Some whole.value) }
    ensures none { IfNone result (handle.old.held.bus ≡ None) }
    ensures left { handle.new.held.bus ≡ None }
{
    let Handle { there, held } = std::mem::replace(handle, vacant());
    if there { Some(open(held, alloc)) } else { None }
}

/// Puts a bus into the handle, in place of what was there.
pub(crate) fn put(handle: &mut Handle, whole: Box<Bus, Global>)
    ensures { handle.new.held.bus ≡ Some whole.value }
{
    *handle = Handle {
        there: true,
        held: close(whole),
    };
}
