//! A host's handle.
ghost use Rattle.std.specs.Prelude.{◌≡◌, IfNone, IfSome, None, Some, is_some};

use crate::any_node::AnyNode;
use crate::held::{Held, close, empty, open};
use std::alloc::Global;

/// A node in a host's hands, or none. A host keeps the struct where it likes and touches no field
/// of it. A handle in C begins as zeros.
#[repr(C)]
#[derive(Drop)]
pub struct Handle {
    there: bool,
    pub(crate) held: Held,
    ghost known: { there ≡ is_some held.node },
}

/// A handle with no node.
pub fn vacant() -> Handle
    ensures { result.held.node ≡ None }
{
    Handle {
        there: false,
        held: empty(),
    }
}

/// Takes the node out, and leaves none.
pub(crate) fn take(handle: &mut Handle, alloc: Global) -> Option<Box<AnyNode, Global>>
    ensures some { IfSome result (λ whole. handle.old.held.node ≡ Some whole.value) }
    ensures none { IfNone result (handle.old.held.node ≡ None) }
    ensures left { handle.new.held.node ≡ None }
{
    let Handle { there, held } = std::mem::replace(handle, vacant());
    if there { Some(open(held, alloc)) } else { None }
}

/// Puts a node in, in place of what was there.
pub(crate) fn put(handle: &mut Handle, whole: Box<AnyNode, Global>)
    ensures { handle.new.held.node ≡ Some whole.value }
{
    *handle = Handle {
        there: true,
        held: close(whole),
    };
}
