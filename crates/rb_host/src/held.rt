//! What holds a node for a host.
ghost use Rattle.std.specs.Prelude.{◌≡◌, IsSome, None, Some};
ghost use Rattle.rb_host.specs.Owns.{Kept, held_owns, kept_coded};

use crate::any_node::AnyNode;
use std::alloc::Global;
use std::marker::Model;

/// The pointer to a node in memory of its own, and that memory; or nothing.
#[repr(C)]
#[derive(Drop)]
pub struct Held {
    at: *mut u8,
    pub ghost node: { Kept } by { kept_coded },
}

impl Model for Held {
    ghost also_owns = { λ h. held_owns h.at h.node };
}

/// The boxed node is held.
pub(crate) fn close(whole: Box<AnyNode, Global>) -> Held
    ensures { result.node ≡ Some whole.value }
{
    let (at, _alloc) = Box::into_raw_with_allocator(whole);
    Held { at: at as *mut u8 }
}

/// The node that is held, in its box.
pub(crate) fn open(held: Held, alloc: Global) -> Box<AnyNode, Global>
    requires { IsSome held.node }
    ensures { held.node ≡ Some result.value }
{
    let Held { at } = held;
    unsafe { Box::from_raw(alloc, at as *mut AnyNode) }
}

/// Nothing is held.
pub(crate) fn empty() -> Held
    ensures { result.node ≡ None }
{
    Held {
        at: std::ptr::null_mut(),
    }
}
