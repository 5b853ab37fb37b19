//! The group at each port, in the frame that the run has reached.
ghost use Rattle.std.specs.Prelude.{◌≡◌, ℕ, max, ◌<◌, ◌++◌, ◌∷◌, [], List};
ghost use Rattle.std.specs.Option.{option_to_list};
ghost use Rattle.rb_base.specs.declared.values.Delivery.{Delivery};
ghost use Rattle.rb_world_book.specs.Records.{record_of};
ghost use Rattle.rb_group.specs.Groups.{group_value};
ghost use Rattle.rb_group.specs.Portions.{deliveries_in, line_told, port_deliveries, told_of};
ghost use Rattle.rb_rules.specs.Book.{Record};
ghost use Rattle.rb_group_run.specs.Holding.{HoldPortions, HoldsFrame};
ghost use Rattle.rb_group_run.specs.Replies.{frame_or, told_in};

use crate::asked::Asked;
use rb_base::{Biu, Delivery, Heard, NodeSet};
use rb_group::{Group, Voters};
use rb_world_book::{SlotLine, SlotRecord, Turn};

/// The frame that a run has reached, and what each of the 16 ports that there may be delivered in
/// it.
#[derive(Drop)]
pub struct Ports {
    pub frame: u32,
    pub groups: [Group; 16],
}

// Groups of which nothing has been delivered.
fn fresh_groups(members: NodeSet<Biu>) -> [Group; 16]
    ensures { HoldPortions members (λ i. []) result }
{
    [Group::new(members); 16]
}

/// The ports at the start of a run.
pub fn first_ports(asked: &Asked) -> Ports
    ensures { (frames : ℕ) → HoldsFrame frames asked.now [] result }
{
    Ports {
        frame: 0,
        groups: fresh_groups(asked.members),
    }
}

// A port delivers what a line of a slot says.
fn hear_line(groups: &mut [Group; 16], frame: u32, slot: u16, line: &SlotLine)
    ensures { (members : ℕ) (told : ℕ → List Delivery) → HoldPortions members told groups.old
        → HoldPortions members (λ i. told i ++ line_told frame slot i line.now) groups.new }
{
    let receiver = usize::from(line.receiver);
    if receiver < 16 {
        let mut group = groups[receiver];
        group.hear(Delivery {
            frame,
            slot,
            sender: line.sender,
            value: line.value,
        });
        groups[receiver] = group;
    }
}

// The ports deliver what was delivered in a slot.
fn hear_slot(groups: &mut [Group; 16], frame: u32, slot: u16, lines: &[SlotLine])
    ensures { (members : ℕ) (told : ℕ → List Delivery) → HoldPortions members told groups.old
        → HoldPortions members (λ i. told i ++ deliveries_in frame slot i lines.now) groups.new }
{
    for line in lines {
        hear_line(groups, frame, slot, line);
    }
}

// The ports deliver what was delivered in a slot, if it is one of this frame.
fn hear_if_now(groups: &mut [Group; 16], frame: u32, slot: &SlotRecord)
    ensures { (members : ℕ) (told : ℕ → List Delivery) → HoldPortions members told groups.old
        → HoldPortions members (λ i. told i
        ++ told_of frame i (Record.Slot slot.now.frame slot.now.slot slot.now.lines.items))
        groups.new }
{
    if slot.frame == frame {
        hear_slot(groups, slot.frame, slot.slot, slot.lines.as_slice());
    }
}

// The ports deliver what a turn tells of a frame.
fn hear(groups: &mut [Group; 16], frame: u32, turn: &Turn)
    ensures { (members : ℕ) (told : ℕ → List Delivery) → HoldPortions members told groups.old
        → HoldPortions members (λ i. told i ++ told_in frame i (record_of turn.now)) groups.new }
{
    match turn {
        Turn::Slot(slot) => hear_if_now(groups, frame, slot),
        Turn::Quiet => {}
        Turn::Frame(_) => {}
        Turn::Ended => {}
        Turn::Breach(_, _) => {}
    }
}

/// The frame of a turn, if it has one, or else this one. That of the end is the one after all
/// `frames`.
pub fn frame_or(turn: &Turn, frames: u32, newest: u32) -> u32
    ensures { result ≡ frame_or frames newest (record_of turn.now) }
{
    match turn {
        Turn::Quiet => newest,
        Turn::Frame(block) => block.frame,
        Turn::Slot(slot) => slot.frame,
        Turn::Ended => frames,
        Turn::Breach(place, _) => place.frame,
    }
}

// The ports in a frame, which begins anew if it is a later one.
fn move_to(ports: &mut Ports, asked: &Asked, frame: u32)
    ensures frame { ports.new.frame ≡ max ports.old.frame frame }
    ensures groups { (frames : ℕ) (records : List Record)
        → HoldsFrame frames asked.now records ports.old
        → HoldPortions asked.now.members (λ i. port_deliveries ports.new.frame i records)
        ports.new.groups }
{
    if ports.frame < frame {
        ports.frame = frame;
        ports.groups = fresh_groups(asked.members);
    }
}

/// Advances the ports by a turn of a run of `frames` frames: the first turn of a later frame starts
/// the frame anew, and what a slot of this frame brought is delivered.
pub fn advance(ports: &mut Ports, asked: &Asked, frames: u32, turn: &Turn)
    ensures { (records : List Record) → HoldsFrame frames asked.now records ports.old
        → HoldsFrame frames asked.now (records ++ option_to_list (record_of turn.now)) ports.new }
{
    let next = frame_or(turn, frames, ports.frame);
    move_to(ports, asked, next);
    hear(&mut ports.groups, ports.frame, turn);
}

/// The value that a port, below 16, finds for the group in this frame.
pub fn find(groups: &[Group; 16], port: u8, voters: &Voters, asked: &Asked) -> Heard
    requires { port < 16 }
    ensures { (told : ℕ → List Delivery) → HoldPortions asked.now.members told groups.now
        → result ≡ group_value asked.now.which asked.now.members (told port) }
{
    voters.pick(asked.which, &groups[usize::from(port)].values())
}
