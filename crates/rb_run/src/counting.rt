//! The numbers of a run, counted as it goes on.
ghost use Rattle.std.specs.Prelude.{◌≡◌, ◌+◌, ◌^◌, ◌<◌, ◌≤◌};
ghost use Rattle.rb_base.specs.Nodes.{size};
ghost use Rattle.rb_world_book.specs.Records.{record_of};
ghost use Rattle.rb_run.specs.Histories.{HasDriven};
ghost use Rattle.rb_run.specs.Runs.{EndsWith, HasGivenNothing, TalliesAll};
ghost use Rattle.rb_run.specs.Seen.{drive_over};
ghost use Rattle.rb_run.specs.Tallies.{convicted_in_first, counted, differences_in, greatest};

use crate::ending::{Ending, ending_at};
use crate::totals::Totals;
use rb_base::{Biu, NodeSet, Rmu};
use rb_port::Apps;
use rb_world::{Drive, World};
use rb_world_book::{FrameRecord, NodeLine, Turn};

// How many nodes a line says are convicted.
fn convicted_by(line: &NodeLine) -> u8
    ensures { result ≡ size line.now.biu + size line.now.rmu }
{
    NodeSet::<Biu>::from_bits(line.biu).count() + NodeSet::<Rmu>::from_bits(line.rmu).count()
}

// How many nodes the first line says are convicted.
fn convicted(nodes: &[NodeLine]) -> u8
    ensures { result ≡ convicted_in_first nodes.now }
{
    match nodes.first() {
        Some(line) => convicted_by(line),
        None => 0,
    }
}

// The greatest difference of two times in a block.
fn spread(nodes: &[NodeLine]) -> u64
    ensures { result ≡ greatest (differences_in nodes.now) }
{
    let Some(first) = nodes.first() else {
        return 0;
    };
    let mut latest = first.time;
    let mut earliest = first.time;
    for node in nodes {
        latest = latest.max(node.time);
        earliest = earliest.min(node.time);
    }
    latest - earliest
}

// Counts what a turn says.
fn count(totals: &Totals, turn: &Turn) -> Totals
    requires { totals.now.deliveries + 16 < 2 ^ 64 }
    ensures counted { result ≡ counted totals.now (record_of turn.now) }
    ensures few { result.deliveries ≤ totals.now.deliveries + 16 }
{
    match turn {
        Turn::Frame(block) => Totals {
            frames: block.frame,
            deliveries: totals.deliveries,
            convicted: convicted(block.nodes.as_slice()),
            spread: totals.spread.max(spread(block.nodes.as_slice())),
        },
        Turn::Slot(slot) => Totals {
            deliveries: totals.deliveries + slot.lines.len() as u64,
            ..*totals
        },
        _ => *totals,
    }
}

/// Takes a run from its start to its end, and counts what the drive's turns say; nothing is kept of
/// them. The numbers of a run that ends with a breach are those up to it. The world must be as
/// `World::open` gives it.
pub fn tally<D: Drive>(world: &mut World, apps: &Apps, drive: &mut D) -> (Ending, Totals)
    requires { HasGivenNothing world.old }
    ensures totals { TalliesAll world.old.bus (drive_over D.is_plain D.told drive.old drive.new)
        result.1 }
    ensures ending { EndsWith world.old.bus result.0 }
    ensures driven { HasDriven world.old.bus D.gives D.keeps drive.old drive.new }
    ensures bus { world.new.bus ≡ world.old.bus }
    ensures stays { D.is_plain drive.new ≡ D.is_plain drive.old }
{
    let mut totals = Totals {
        frames: 0,
        deliveries: 0,
        convicted: 0,
        spread: 0,
    };
    for passed in 0..u32::MAX {
        let turn = drive.next(world, apps);
        totals = count(&totals, &turn);
        if let Some(ending) = ending_at(&turn) {
            return (ending, totals);
        }
    }
    unreachable!()
}
