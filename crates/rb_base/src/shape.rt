//! The size of a bus.
ghost use Rattle.std.specs.Prelude.{◌≡◌, ◌≤◌, ◌↔◌, IsSome, IfSome};
ghost use Rattle.rb_base.specs.Sizes.{IsShape, Sizes, sync_slot_of};

use std::marker::Model;

/// How many bus interface units, redundancy management units and data slots a bus has.
#[derive(Clone, Copy, Debug, PartialEq, Eq)]
pub struct Shape {
    biu: u8,
    rmu: u8,
    slots: u16,
    // The number of the sync slot, which follows from the rest.
    sync: u16,
}

impl Model for Shape {
    ghost Value = { Sizes };

    ghost view = { λ s. record { bius = s.biu; rmus = s.rmu; data_slots = s.slots } };

    ghost invariant = { λ s. IsShape (record { bius = s.biu; rmus = s.rmu; data_slots = s.slots })
        × (s.sync ≡ sync_slot_of (record { bius = s.biu; rmus = s.rmu; data_slots = s.slots })) };

    ghost inverse = { λ v. record {
      biu = v.bius;
      rmu = v.rmus;
      slots = v.data_slots;
      sync = sync_slot_of v;
    } };
}

impl Shape {
    /// The shape with these numbers. `None` if and only if there are not 1 to 16 BIUs, 1 to 16 RMUs
    /// and 1 to 64 data slots.
    pub fn new(biu: u8, rmu: u8, slots: u16) -> Option<Shape>
        ensures range { IsSome result
            ↔ IsShape (record { bius = biu; rmus = rmu; data_slots = slots }) }
        ensures value { IfSome result (λ s. s
            ≡ record { bius = biu; rmus = rmu; data_slots = slots }) }
    {
        if (1..=16).contains(&biu) && (1..=16).contains(&rmu) && (1..=64).contains(&slots) {
            let sync = 2 * u16::from(biu) + u16::from(rmu) + slots;
            Some(Shape {
                biu,
                rmu,
                slots,
                sync,
            })
        } else {
            None
        }
    }

    /// The number of BIUs.
    pub fn biu(&self) -> u8
        ensures value { result ≡ self.now.bius }
        ensures shape { IsShape self.now }
    {
        self.biu
    }

    /// The number of RMUs.
    pub fn rmu(&self) -> u8
        ensures value { result ≡ self.now.rmus }
        ensures shape { IsShape self.now }
    {
        self.rmu
    }

    /// The number of data slots in a frame.
    pub fn slots(&self) -> u16
        ensures value { result ≡ self.now.data_slots }
        ensures shape { IsShape self.now }
    {
        self.slots
    }

    /// The number of the sync slot, at most 112: one schedule slot a BIU, the data slots and one
    /// diagnosis slot a node come before it.
    pub fn sync_slot(&self) -> u16
        ensures value { result ≡ sync_slot_of self.now }
        ensures most { result ≤ 112 }
    {
        self.sync
    }
}
