//! Who owns the data slots of a frame.
#![tactic(auto)]

ghost use Rattle.std.specs.Prelude.{◌≡◌, ℕ, [], ◌∷◌, ◌++◌, ◌<◌, ◌≤◌, nat_lt, length, take, slice_get, List};
ghost use Rattle.rb_rules.specs.Owners.{owners_of, owners_in_pass, owners_in_passes, request_in};
ghost use Rattle.rb_schedule.specs.Asking.{asks};

use arrayvec::ArrayVec;
use rb_base::{Biu, Heard, NodeSet, Shape};
use std::marker::Model;

/// The owners of a frame's data slots in order, at most 64: each the number of a BIU. A data slot
/// past their end has none.
#[derive(Clone, Debug, Drop)]
pub struct Owners {
    bius: ArrayVec<u8, 64>,
}

impl Model for Owners {
    ghost Value = { List ℕ };

    ghost view = { λ o. o.bius.items };
}

impl Owners {
    /// No data slot has an owner, as at the beginning of a frame.
    pub fn none() -> Owners
        ensures { result ≡ [] }
    {
        Owners {
            bius: ArrayVec::new(),
        }
    }

    /// The number of the BIU that owns the data slot with this number, counted from 0. `None` if
    /// and only if it has no owner.
    pub fn owner(&self, number: u16) -> Option<u8>
        ensures { result ≡ slice_get self.now number }
    {
        self.bius.as_slice().get(usize::from(number)).copied()
    }

    fn count(&self) -> usize
        ensures { result ≡ length self.now }
    {
        self.bius.len()
    }

    fn push(&mut self, index: u8)
        requires { length self.old < 64 }
        ensures { self.new ≡ self.old ++ index ∷ [] }
    {
        self.bius.push(index);
    }
}

// Whether a voted request asks for more slots than there were passes.
fn asks_more(request: Heard, pass: u32) -> bool
    ensures { result ≡ nat_lt pass (request_in request) }
{
    match request {
        Heard::Word(slots) => pass < slots,
        Heard::Fault => false,
    }
}

// Whether the BIU asks for a slot in this pass.
fn asks(requests: &[Heard; 16], trusted: NodeSet<Biu>, index: u8, pass: u32) -> bool
    requires { index < 16 }
    ensures { result ≡ asks trusted requests.now pass index }
{
    trusted.has(index) && asks_more(requests[usize::from(index)], pass)
}

// One slot for each trusted BIU that asks for more, while there are slots left.
fn add_pass(
    owners: &mut Owners,
    requests: &[Heard; 16],
    trusted: NodeSet<Biu>,
    shape: &Shape,
    pass: u32,
)
    requires { length owners.old ≤ shape.now.data_slots }
    ensures { owners.new ≡ take shape.now.data_slots
        (owners.old ++ owners_in_pass shape.now trusted requests.now pass) }
{
    let slots = usize::from(shape.slots());
    for index in 0..shape.biu() {
        if owners.count() == slots {
            return;
        }
        if asks(requests, trusted, index, pass) {
            owners.push(index);
        }
    }
}

/// The owners of the data slots by the voted requests, that of BIU i at index i. A word is the
/// number of slots that its BIU asks for, and Fault asks for none. The slots are given in passes:
/// in each pass every trusted BIU that has not as many as it asks for gets one, in order of the
/// BIUs, until all slots are given or nobody asks. More passes than slots change nothing.
pub fn owners_of(requests: &[Heard; 16], trusted: NodeSet<Biu>, shape: &Shape) -> Owners
    ensures owners { result ≡ owners_of shape.now trusted requests.now }
    ensures passes { (passes : ℕ) → shape.now.data_slots ≤ passes
        → result ≡ owners_in_passes shape.now trusted requests.now passes }
{
    let mut owners = Owners::none();
    for pass in 0..u32::from(shape.slots()) {
        let before = owners.count();
        add_pass(&mut owners, requests, trusted, shape, pass);
        if owners.count() == before {
            return owners;
        }
    }
    owners
}
