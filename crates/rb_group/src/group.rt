//! What a port has delivered of the members of a group.
ghost use Rattle.std.specs.Prelude.{◌≡◌, ◌<◌, ◌≤◌, ◌++◌, ◌∷◌, [], List, None, false, true, get_or, is_some, length};
ghost use Rattle.rb_base.specs.Nodes.{has};
ghost use Rattle.rb_base.specs.declared.values.Delivery.{Delivery};
ghost use Rattle.rb_rules.specs.ExactStage.{present};
ghost use Rattle.rb_group.specs.Groups.{values_of};
ghost use Rattle.rb_group.specs.Keeping.{HasHeard, with_first};

use arrayvec::ArrayVec;
use rb_base::{Biu, Delivery, Heard, NodeSet};
use std::marker::Model;

/// A group of BIUs at one port: the first value of each member that the port delivered since the
/// last `clear`.
#[derive(Clone, Copy, Debug, PartialEq, Eq)]
pub struct Group {
    members: NodeSet<Biu>,
    kept: [Option<Heard>; 16],
}

impl Model for Group {
    ghost use Rattle.std.specs.Prelude.{◌<◌, ◌^◌};
    ghost use Rattle.rb_group.specs.Keeping.{KeptGroup};

    ghost Value = { KeptGroup };

    ghost view = { λ g. record { members = g.members; kept = g.kept } };

    ghost invariant = { λ g. g.members < 2 ^ 16 };

    ghost inverse = { λ v. record { members = v.members; kept = v.kept } };
}

impl Group {
    /// A group of these BIUs, of which nothing has been delivered.
    pub fn new(members: NodeSet<Biu>) -> Group
        ensures members { result.members ≡ members }
        ensures nothing { HasHeard result [] }
    {
        Group {
            members: NodeSet::from_bits(members.bits()),
            kept: [None; 16],
        }
    }

    /// Keeps the value of a delivery if its sender is a member of which none is kept. Otherwise
    /// nothing changes.
    pub fn hear(&mut self, delivery: Delivery)
        ensures heard { (deliveries : List Delivery) → HasHeard self.old deliveries
            → HasHeard self.new (deliveries ++ delivery ∷ []) }
        ensures members { self.new.members ≡ self.old.members }
        ensures no_member { has self.old.members delivery.sender ≡ false → self.new ≡ self.old }
        ensures kept { is_some (get_or self.old.kept delivery.sender None) ≡ true
            → self.new ≡ self.old }
    {
        if delivery.sender < 16 && self.members.has(delivery.sender) {
            keep_first(&mut self.kept, delivery.sender, delivery.value);
        }
    }

    /// The values that are kept, by index of the member.
    pub fn values(&self) -> ArrayVec<Heard, 16>
        ensures { (deliveries : List Delivery) → HasHeard self.now deliveries
            → result.items ≡ values_of self.now.members deliveries }
    {
        present(&self.kept)
    }

    /// Forgets all values.
    pub fn clear(&mut self)
        ensures members { self.new.members ≡ self.old.members }
        ensures nothing { HasHeard self.new [] }
    {
        self.kept = [None; 16];
    }
}

// Keeps the value in this place, if none is there.
fn keep_first(kept: &mut [Option<Heard>; 16], place: u8, value: Heard)
    requires { place < 16 }
    ensures { kept.new ≡ with_first kept.old place value }
{
    let place = usize::from(place);
    if kept[place].is_none() {
        kept[place] = Some(value);
    }
}

// The values that there are.
fn present(kept: &[Option<Heard>; 16]) -> ArrayVec<Heard, 16>
    ensures { result.items ≡ present kept.now }
{
    let mut values = ArrayVec::new();
    for value in kept {
        add(&mut values, *value);
    }
    values
}

// Adds the value, if there is one.
fn add(values: &mut ArrayVec<Heard, 16>, kept: Option<Heard>)
    requires { length values.old.items < 16 }
    ensures { values.new.items ≡ values.old.items ++ present (kept ∷ []) }
{
    if let Some(value) = kept {
        values.push(value);
    }
}
