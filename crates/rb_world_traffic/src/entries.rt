//! The entries of a scenario on what is said, receiver by receiver.
ghost use Rattle.std.specs.Prelude.{◌≡◌, ℕ, ◌+◌, ◌<◌, ◌≤◌, ◌&&◌, ◌++◌, ◌∷◌, [], Some, IfOk, cond, filter, length, slice_get};
ghost use Rattle.rb_base.specs.Nodes.{other};
ghost use Rattle.rb_rules.specs.Lawful.{kind_of};
ghost use Rattle.rb_rules.specs.Links.{covers, name_of, same_node, stands_for};
ghost use Rattle.rb_world_traffic.specs.Saying.{AreFor, AreOfKind, entries_at, is_between};

use crate::arriving::receiver;
use rb_base::{NodeName, OutOfMemory, Place};
use rb_rules::{Pattern, Say};
use rb_scenario::SayList;
use std::alloc::Global;
use std::marker::Model;

/// The numbers of entries.
#[derive(Drop)]
pub(crate) struct Numbers {
    pub(crate) items: Vec<u16>,
}

impl Model for Numbers {
    ghost use Rattle.std.specs.Prelude.{ℕ, List};

    ghost Value = { List ℕ };

    ghost view = { λ n. n.items.items };
}

fn same_node(name: NodeName, node: NodeName) -> bool
    ensures { result ≡ same_node name node }
{
    match (name, node) {
        (NodeName::Biu(i), NodeName::Biu(j)) => i == j,
        (NodeName::Rmu(i), NodeName::Rmu(j)) => i == j,
        _ => false,
    }
}

fn stands_for(pattern: Pattern, node: NodeName) -> bool
    ensures { result ≡ stands_for pattern node }
{
    match pattern {
        Pattern::One(name) => same_node(name, node),
        Pattern::AllBiu => matches!(node, NodeName::Biu(_)),
        Pattern::AllRmu => matches!(node, NodeName::Rmu(_)),
    }
}

// Whether the entry is for this place.
pub(crate) fn covers(say: &Say, place: Place) -> bool
    ensures { result ≡ covers say.now.frames say.now.slots say.now.stages place }
{
    say.frames.0 <= place.frame
        && place.frame <= say.frames.1
        && say.slots.0 <= place.slot
        && place.slot <= say.slots.1
        && say.stages.0 <= place.stage
        && place.stage <= say.stages.1
}

// Whether the entry is what one node says to another.
fn is_between(say: &Say, from: NodeName, to: NodeName) -> bool
    ensures { result ≡ is_between from to say.now }
{
    same_node(say.from, from) && stands_for(say.to, to)
}

// The number comes behind those that are there, if its entry passes.
fn add_if(places: &mut Vec<u16>, passes: bool, number: u16) -> Result<(), OutOfMemory>
    ensures { IfOk result (λ _. places.new.items
        ≡ places.old.items ++ cond passes (number ∷ []) []) }
{
    if passes {
        return places.push(number).map_err(|_| OutOfMemory);
    }
    Ok(())
}

// The numbers of the entries that one node says to another come behind those that are there.
fn add_between(
    places: &mut Vec<u16>,
    says: &SayList,
    from: NodeName,
    to: NodeName,
) -> Result<(), OutOfMemory>
    requires { length says.now ≤ 65536 }
    ensures entries { IfOk result (λ _. entries_at says.now places.new.items
        ≡ entries_at says.now places.old.items ++ filter (is_between from to) says.now) }
    ensures many { IfOk result (λ _. length places.new.items
        ≡ length places.old.items + length (filter (is_between from to) says.now)) }
{
    for number in 0..says.len() {
        add_if(
            places,
            is_between(says.get(number), from, to),
            number as u16,
        )?;
    }
    Ok(())
}

// The numbers of the entries for a node, from the first `senders` nodes of the other kind.
fn numbers_to(
    alloc: Global,
    says: &SayList,
    to: NodeName,
    senders: u8,
) -> Result<Numbers, OutOfMemory>
    requires { length says.now ≤ 65536 }
    ensures { IfOk result (AreFor says.now to senders) }
{
    let mut items = Vec::new(alloc);
    for sender in 0..senders {
        add_between(&mut items, says, receiver(to, sender), to)?;
    }
    Ok(Numbers { items })
}

fn add_list(lists: &mut Vec<Numbers>, list: Numbers) -> Result<(), OutOfMemory>
    ensures { IfOk result (λ _. lists.new.items ≡ lists.old.items ++ list ∷ []) }
{
    lists.push(list).map_err(|_| OutOfMemory)
}

// For each of the first `count` nodes of the kind that `sender` sends to, the numbers of the
// entries for it, from the first `senders` nodes of `sender`'s kind.
pub(crate) fn lists_for(
    alloc: Global,
    says: &SayList,
    sender: NodeName,
    count: u8,
    senders: u8,
) -> Result<Vec<Numbers>, OutOfMemory>
    requires { length says.now ≤ 65536 }
    ensures { IfOk result (λ lists. AreOfKind says.now (other (kind_of sender)) count senders lists.items) }
{
    let mut lists = Vec::with_capacity(alloc, usize::from(count))?;
    for i in 0..count {
        let list = numbers_to(alloc, says, receiver(sender, i), senders)?;
        add_list(&mut lists, list)?;
    }
    Ok(lists)
}
