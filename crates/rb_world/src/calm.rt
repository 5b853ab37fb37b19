//! Nodes to which nothing new comes for some frames.
ghost use Rattle.std.specs.Prelude.{◌≡◌, ◌≤◌, length};
ghost use Rattle.rb_base.specs.Nodes.{side_of};
ghost use Rattle.rb_rules.specs.Slots.{count_of};
ghost use Rattle.rb_world.specs.Calm.{AreRestless, first_restless, is_outside, last_restless};

use crate::opening::name_of;
use rb_base::Kind;
use rb_world_traffic::Sayings;

/// The frames of a node, from the first to the last, in which it may not be good or something may
/// be said to it.
#[derive(Clone, Copy, Debug, PartialEq, Eq)]
pub struct Restless {
    pub first: u64,
    pub last: u64,
}

// By the node's onset, and by the frames of which the entries for it speak.
fn restless_in(onset: Option<(u32, u16)>, first: u64, last: u64) -> Restless
    ensures first { result.first ≡ first_restless onset first }
    ensures last { result.last ≡ last_restless onset last }
{
    match onset {
        Some(onset) => Restless {
            first: first.min(u64::from(onset.0)),
            last: u64::MAX,
        },
        None => Restless { first, last },
    }
}

/// For each of the first `count` nodes of a kind, at its number, the frames in which it may not be
/// good or something may be said to it.
pub(crate) fn restless_nodes<K: Kind>(
    count: u8,
    onsets: &[Option<(u32, u16)>; 16],
    sayings: &Sayings,
) -> [Restless; 16]
    requires count { count ≡ count_of (side_of K.CODE) sayings.now.faults.sizes }
    requires most { count ≤ 16 }
    ensures each { AreRestless onsets.now sayings.now (side_of K.CODE) count result }
    ensures len { length result ≡ 16 }
{
    let mut nodes = [Restless { first: 0, last: 0 }; 16];
    for i in 0..count {
        let (first, last) = sayings.frames(name_of::<K>(i));
        nodes[usize::from(i)] = restless_in(onsets[usize::from(i)], first, last);
    }
    nodes
}

/// Whether neither this frame nor the next is one of them.
#[inline(always)]
pub(crate) fn is_outside(restless: Restless, frame: u32) -> bool
    ensures { result ≡ is_outside restless.first restless.last frame }
{
    u64::from(frame) + 1 < restless.first || restless.last < u64::from(frame)
}
