//! A log that is given to a core again.
ghost use Rattle.std.specs.Prelude.{◌≡◌, ℕ, ◌+◌, ◌≤◌, ◌∷◌, ◌^◌, ◌<◌, IfOk, List, OnOk, [], length};
ghost use Rattle.rb_base.specs.Nodes.{side_of};
ghost use Rattle.rb_laws_logs.specs.Replays.{replay_text};
ghost use Rattle.rb_log.specs.Cursor.{shown};
ghost use Rattle.rb_node.specs.Cores.{IsCore, IsSameNode, arrive_of, passing_end, tick_of};
ghost use Rattle.rb_outside.specs.Causes.{HasCause};
ghost use Rattle.rb_outside.specs.Writing.{Writes};
ghost use Rattle.rb_rules.specs.Core.{Core};
ghost use Rattle.rb_rules.specs.Core.CoreEvent.{Tick};
ghost use Rattle.rb_replay.specs.Advancing.{AdvancesBy};
ghost use Rattle.rb_replay.specs.Replaying.{IsDue, TellsAct};

use crate::lines::{frames_by, write_step};
use rb_base::{Biu, Kind, MOST_TICKS, NodeName, Rmu};
use rb_log::{LogEvent, LogReader};
use rb_node::Node;
use rb_outside::{Failed, Sink, write_line};
use rb_report::end_line;

// How many quiet ticks may pass at the node.
fn quiet_ahead<K: Kind>(node: &Node<K>) -> u64
    ensures passing { node.now.had + result ≡ passing_end (side_of K.CODE) node.now }
    ensures most { node.now.had + result ≤ 2 ^ 31 }
{
    node.next_tick().unwrap_or(MOST_TICKS) - node.had()
}

// Passes the quiet ticks at the front of the log, at once.
fn pass_quiet<K: Kind>(node: &mut Node<K>, log: &mut LogReader<'_>)
    ensures due { (name : NodeName) (frames : ℕ) (due : List ℕ)
        → IsDue (side_of K.CODE) node.old name frames log.old.events due
        → IsDue (side_of K.CODE) node.new name frames log.new.events due }
    ensures most { node.new.had ≤ 2 ^ 31 }
    ensures shorter { length log.new.events ≤ length log.old.events }
{
    let passed = log.skip(quiet_ahead(node));
    node.pass(passed);
}

// Gives the node a tick and writes what it tells; gives the number of frames above 0 that start.
fn give_tick<K: Kind, S: Sink>(
    node: &mut Node<K>,
    name: NodeName,
    word: u32,
    output: &mut S,
) -> Result<u32, Failed>
    ensures told { (c : Core) → IsCore node.old c
        → TellsAct S.held S.faults name (tick_of (side_of K.CODE) node.old c word) node.new
        output.old output.new result }
    ensures most { IfOk result (λ n. n ≤ 1) }
    ensures cause { HasCause (S.faults output.old) (S.faults output.new) result }
    ensures same { IsSameNode node.old node.new }
{
    let step = node.step(word);
    write_step(name, &step, node.shown(), output)?;
    Ok(frames_by(step.epoch))
}

// Gives the node a tick and the quiet ticks that follow it in the log.
fn give_ticks<K: Kind, S: Sink>(
    node: &mut Node<K>,
    log: &mut LogReader<'_>,
    name: NodeName,
    word: u32,
    output: &mut S,
) -> Result<u32, Failed>
    ensures gives { (frames : ℕ) (due : List ℕ)
        → IsDue (side_of K.CODE) node.old name frames (Tick word ∷ log.old.events) due
        → AdvancesBy S.held
        (λ n. IsDue (side_of K.CODE) node.new name (frames + n) log.new.events) due
        output.old output.new result }
    ensures most { IfOk result (λ n. n ≤ 1) }
    ensures had { OnOk result (node.new.had ≤ 2 ^ 31) }
    ensures shorter { length log.new.events ≤ length log.old.events }
    ensures cause { HasCause (S.faults output.old) (S.faults output.new) result }
{
    let begun = give_tick(node, name, word, output)?;
    pass_quiet(node, log);
    Ok(begun)
}

// Gives the node the event that comes before those that are left in the log, and quiet ticks behind
// it, and writes what it tells; gives the number of frames above 0 that start.
fn give<K: Kind, S: Sink>(
    node: &mut Node<K>,
    log: &mut LogReader<'_>,
    name: NodeName,
    event: LogEvent<'_>,
    output: &mut S,
) -> Result<u32, Failed>
    ensures gives { (frames : ℕ) (due : List ℕ)
        → IsDue (side_of K.CODE) node.old name frames (shown event.entry ∷ log.old.events) due
        → AdvancesBy S.held
        (λ n. IsDue (side_of K.CODE) node.new name (frames + n) log.new.events) due
        output.old output.new result }
    ensures most { IfOk result (λ n. n ≤ 1) }
    ensures had { OnOk result (node.old.had ≤ 2 ^ 31 → node.new.had ≤ 2 ^ 31) }
    ensures shorter { length log.new.events ≤ length log.old.events }
    ensures cause { HasCause (S.faults output.old) (S.faults output.new) result }
{
    match event {
        LogEvent::Tick(word) => give_ticks(node, log, name, word, output),
        LogEvent::Arrive { from, bytes } => {
            node.arrive(from, bytes);
            Ok(0)
        }
    }
}

// Gives the node what is left of the log and writes what it tells, and then the end.
fn replay_at<K: Kind, S: Sink>(
    mut node: Node<K>,
    mut log: LogReader<'_>,
    output: &mut S,
) -> Result<(), Failed>
    requires { IsDue (side_of K.CODE) node log.node 0 log.events
        (replay_text log.timetable.sizes log.timetable.plan log.node log.events) }
    ensures { Writes S.held S.faults output.old output.new result
        (replay_text log.entry.timetable.sizes log.entry.timetable.plan log.entry.node
        log.entry.events) }
{
    let name = log.node();
    let _had = node.had();
    let mut frames = 0;
    'events: while let Some(event) = log.next() {
        frames += give(&mut node, &mut log, name, event, output)?;
    }
    write_line(output, &end_line(frames))
}

/// Gives what a log tells to the node whose log it is, from its first tick on, and writes what the
/// node tells, line by line, as it comes: for each frame that starts `e FRAME NODE TICK` and `c
/// FRAME NODE BIUS RMUS`, for each delivery `d FRAME SLOT NODE SENDER WORD`, and last `end FRAMES`,
/// the number of frames above 0 that began. `Failed` is the answer only if the sink failed, and
/// then a first part of the text was taken. Quiet ticks in a row are passed at once, however many.
pub fn replay<S: Sink>(log: LogReader<'_>, output: &mut S) -> Result<(), Failed>
    ensures { Writes S.held S.faults output.old output.new result
        (replay_text log.entry.timetable.sizes log.entry.timetable.plan log.entry.node
        log.entry.events) }
{
    match log.node() {
        NodeName::Biu(number) => replay_at(Node::<Biu>::new(log.plan(), number), log, output),
        NodeName::Rmu(number) => replay_at(Node::<Rmu>::new(log.plan(), number), log, output),
    }
}
