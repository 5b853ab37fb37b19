//! Taking a run to its end, and writing what one node is given in it.
ghost use Rattle.std.specs.Prelude.{◌≡◌, IfOk, OnErr, OnOk};
ghost use Rattle.rb_log.specs.Header.{header_of};
ghost use Rattle.rb_outside.specs.Causes.{HasCause};
ghost use Rattle.rb_outside.specs.Writing.{Writes};
ghost use Rattle.rb_record.specs.Observing.{MayRecord, RecordsRun};
ghost use Rattle.rb_record.specs.Recording.{WritesAll, WritesPart, timetable_of};
ghost use Rattle.rb_rules.specs.Lawful.{IsNodeOf};
ghost use Rattle.rb_rules.specs.WorldStep.{first_world};
ghost use Rattle.rb_run.specs.Runs.{EndsWith};
ghost use Rattle.rb_world.specs.Worlds.{Stands};

use crate::recorder::Recorder;
use rb_base::NodeName;
use rb_log::header;
use rb_outside::{Failed, Sink, write_all};
use rb_port::Apps;
use rb_run::{Ending, ending_at};
use rb_world::{Turn, World};

// Writes the header.
fn write_header<K: Sink>(world: &World, node: NodeName, output: &mut K) -> Result<(), Failed>
    requires { IsNodeOf world.now.bus.sizes node }
    ensures { Writes K.held K.faults output.old output.new result
        (header_of (timetable_of world.now.bus) node) }
{
    let header = header(world.plan(), node);
    write_all(output, header.as_slice())
}

// Takes a run to its last record, and has written down what the node is given. A run has fewer than
// 2^64 - 1 records.
fn record_run<K: Sink>(
    world: &mut World,
    apps: &Apps,
    node: NodeName,
    recorder: &mut Recorder<'_, K>,
) -> Result<Ending, Failed>
    requires { MayRecord world.old node recorder.old }
    ensures { RecordsRun K.held K.faults node world.old world.new recorder.old recorder.new result }
{
    for passed in 0..u64::MAX {
        let turn = world.next_observed(apps, node, recorder);
        recorder.settle(&turn)?;
        if let Some(ending) = ending_at(&turn) {
            return Ok(ending);
        }
    }
    unreachable!()
}

/// Takes a run from its start to its end, each time the event that is due first, and writes the log
/// of what a node of the bus is given in it: the header, the records of the events, and the end.
/// What is complete of the log waits until a frame of the run begins, or until it is more than
/// 4,096 bytes, and is then written at once. The log has the node's events up to its first tick of
/// the frame after the last; with a breach, or at a node that turns faulty, those events end
/// earlier, and the log ends with the last of them. `Failed` is the answer only if a write failed;
/// a first part of the log has then been written. The world must be as `World::open` gives it.
/// Nothing is kept of what is written, and no memory is taken.
pub fn record<K: Sink>(
    world: &mut World,
    apps: &Apps,
    node: NodeName,
    output: &mut K,
) -> Result<Ending, Failed>
    requires begin { Stands world.old (first_world world.old.bus) }
    requires node { IsNodeOf world.old.bus.sizes node }
    ensures all { OnOk result
        (WritesAll world.old.bus node (K.held output.old) (K.held output.new)) }
    ensures part { OnErr result
        (WritesPart world.old.bus node (K.held output.old) (K.held output.new)) }
    ensures ending { IfOk result (EndsWith world.old.bus) }
    ensures cause { HasCause (K.faults output.old) (K.faults output.new) result }
    ensures bus { world.new.bus ≡ world.old.bus }
{
    write_header(world, node, output)?;
    let mut recorder = Recorder::new(output, world.frames());
    let ending = record_run(world, apps, node, &mut recorder)?;
    recorder.end()?;
    Ok(ending)
}
