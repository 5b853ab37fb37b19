//! What an engine keeps of one slot.
ghost use Rattle.std.specs.Prelude.{◌≡◌, ℕ, ◌<◌, false, IsTrue, List, get_or};
ghost use Rattle.rb_base.specs.Nodes.{Side, side_of};
ghost use Rattle.rb_base.specs.Sizes.{Sizes, sync_slot_of};
ghost use Rattle.rb_rules.specs.NodeState.{trusted_of};
ghost use Rattle.rb_rules.specs.Slots.{listens, role_of, sender_in};
ghost use Rattle.rb_slot.specs.KeptSlots.{IsKeptSlot, speaks_of};
ghost use Rattle.rb_slot.specs.Senders.{sender_of};

use crate::engine::{Engine, PASSIVE};
use crate::sender::Sender;
use crate::slots::{has_third_stage, listens, role_of, sends_first};
use rb_base::{Kind, Shape};
use rb_rules::Role;

// What is kept of one slot, so that it is not worked out again in each stage: what it is for, who
// sends in stage 1, and by stage whether this node speaks. This is the short cut "kept slot" of
// docs/PERFORMANCE.md.
#[derive(Clone, Copy)]
pub(crate) struct KeptSlot {
    pub(crate) slot: u16,
    pub(crate) role: Role,
    pub(crate) sender: Sender,
    pub(crate) spoken: [bool; 4],
}

// What is kept if there is no slot: that of a slot past all others, in which nobody speaks.
pub(crate) fn no_slot(shape: &Shape) -> KeptSlot
    ensures { (me : Side) (index near far : ℕ) (owners : List ℕ)
        → IsKeptSlot shape.now me index near far owners result }
{
    let _biu = shape.biu();
    KeptSlot {
        slot: 65535,
        role: Role::Sync,
        sender: Sender::EachTrusted,
        spoken: [false; 4],
    }
}

// Whether a stage is among those in which the node speaks.
#[inline(always)]
pub(crate) fn is_spoken(spoken: &[bool; 4], stage: u8) -> bool
    ensures { result ≡ get_or spoken.now stage false }
{
    if stage < 4 {
        spoken[usize::from(stage)]
    } else {
        false
    }
}

impl<K: Kind> Engine<K> {
    // By stage whether this node speaks in a slot below the sync slot. The kind that sends in stage
    // 1 sends in stage 3 too, the other kind in stage 2.
    #[inline(always)]
    fn stages_spoken(&self, role: Role, sender: Sender) -> [bool; 4]
        ensures { (stage : ℕ) → get_or result stage false
            ≡ speaks_of (side_of K.CODE) self.now.index role (sender_of sender) stage }
    {
        match sender {
            Sender::Node(index) if self.index < PASSIVE => {
                if sends_first(K::CODE, role) {
                    [false, self.index == index, false, has_third_stage(role)]
                } else {
                    [false, false, true, false]
                }
            }
            _ => [false; 4],
        }
    }

    // What is to be kept of a slot below the sync slot.
    #[inline(always)]
    fn slot_now(&self, slot: u16) -> KeptSlot
        requires { slot < sync_slot_of self.now.sizes }
        ensures { IsKeptSlot self.now.sizes (side_of K.CODE) self.now.index self.now.state.near
            self.now.state.far.trusted self.now.state.owners result }
    {
        let role = role_of(self.plan.shape(), slot);
        let sender = self.sender(role);
        KeptSlot {
            slot,
            role,
            sender,
            spoken: self.stages_spoken(role, sender),
        }
    }

    // Keeps this slot, if it is below the sync slot.
    #[inline(never)]
    pub(crate) fn keep_slot(&mut self, slot: u16)
        ensures { self.new ≡ self.old }
    {
        if slot < self.sync_slot() {
            self.kept = self.slot_now(slot);
        } else {
            self.kept = no_slot(self.plan.shape());
        }
    }

    // Whether it is known at once that this node does not listen in a stage.
    #[inline(always)]
    pub(crate) fn is_idle(&self, slot: u16, stage: u8) -> bool
        ensures { IsTrue result
            → listens (side_of K.CODE) (role_of self.now.sizes slot) stage ≡ false }
    {
        slot == self.kept.slot && !listens(K::CODE, self.kept.role, stage)
    }

    // At the close of the last stage of a slot the next one is kept.
    #[inline(always)]
    pub(crate) fn keep_next(&mut self, slot: u16, stage: u8)
        requires { slot < sync_slot_of self.old.sizes }
        ensures { self.new ≡ self.old }
    {
        self.bounds();
        if stage == 3 {
            self.keep_slot(slot + 1);
        }
    }

    // What a slot is for that is not kept.
    #[inline(never)]
    fn role_aside(&self, slot: u16) -> Role
        ensures { result ≡ role_of self.now.sizes slot }
    {
        role_of(self.plan.shape(), slot)
    }

    // What a slot is for.
    #[inline(always)]
    pub(crate) fn role_at(&self, slot: u16) -> Role
        ensures { result ≡ role_of self.now.sizes slot }
    {
        if slot == self.kept.slot {
            self.kept.role
        } else {
            self.role_aside(slot)
        }
    }

    // Who sends in stage 1 of a slot that is not kept.
    #[inline(never)]
    fn sender_aside(&self, role: Role) -> Sender
        ensures { sender_of result ≡ sender_in (trusted_of (side_of K.CODE) Side.Biu self.now.state)
            (trusted_of (side_of K.CODE) Side.Rmu self.now.state) self.now.state.owners role }
    {
        self.sender(role)
    }

    // Who sends in stage 1 of a slot.
    #[inline(always)]
    pub(crate) fn sender_at(&self, slot: u16, role: Role) -> Sender
        requires { role ≡ role_of self.now.sizes slot }
        ensures { sender_of result ≡ sender_in (trusted_of (side_of K.CODE) Side.Biu self.now.state)
            (trusted_of (side_of K.CODE) Side.Rmu self.now.state) self.now.state.owners role }
    {
        if slot == self.kept.slot {
            self.kept.sender
        } else {
            self.sender_aside(role)
        }
    }
}
