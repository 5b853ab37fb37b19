//! Commands that read a source: each is a word of the program as a call of its own.
ghost use Rattle.std.specs.Prelude.{◌≡◌, ◌↔◌, IsTrue};
ghost use Rattle.rb_group_run.specs.Members.{AreMembers};
ghost use Rattle.rb_run.specs.Seen.{drive_over, sink_over, source_over};
ghost use Rattle.rb_top.specs.Calls.{AnswersAlone, AnswersDriven, DrivesTheInput};
ghost use Rattle.rb_program.specs.Statuses.{HasEnded, RunsNothing, WritesNothing};
ghost use Rattle.rb_top.specs.declared.form.Form.TheVariants.{Check, Group, Letters, Listen, Record, Replay, Run};

use crate::checking::show_sides;
use crate::listening::listen_to;
use crate::reading::{read_log, read_scenario, refuse, refuse_member};
use crate::recording::{has_node, write_log};
use crate::replaying::replay_bytes;
use crate::running::tell;
use rb_base::NodeName;
use rb_group::Voters;
use rb_group_run::{Asked, GroupReport, Query, has_members, scope_of};
use rb_outside::{Sink, Source};
use rb_port::Apps;
use rb_program::Status;
use rb_run::Report;
use rb_scenario::{Refusal, Scenario};
use rb_world::Drive;
use std::alloc::Global;

/// `run`: reads a scenario, runs it and writes the report of the drive's turns, a line at a time.
///
/// Times in the report are in units, ticks are of a node's own clock. `Done`, and `Breach` if the
/// run ends with a breach of the fault premise: all is written. `Refused`: the input breaks a rule
/// of scenarios, and one line says which. `TooLong`: the source gave more than 4,194,304 bytes.
/// `ReadFault`, `WriteFault`: the source or the sink failed. `OutOfMemory`: an allocation failed
/// before anything was written. `Usage` is never the answer.
pub fn run<S: Source, K: Sink, D: Drive>(
    alloc: Global,
    input: &mut S,
    output: &mut K,
    apps: &Apps,
    drive: &mut D,
) -> Status
    ensures answers { AnswersDriven Run result
        (source_over S.left S.faults input.old input.new)
        (sink_over K.held K.faults output.old output.new)
        (drive_over D.is_plain D.told drive.old drive.new) }
    ensures unwritten { WritesNothing result → output.new ≡ output.old }
    ensures not_driven { RunsNothing result → drive.new ≡ drive.old }
    ensures driven { HasEnded result
        → DrivesTheInput (source_over S.left S.faults input.old input.new)
        D.gives D.keeps drive.old drive.new }
{
    match read_scenario(alloc, input, output) {
        Ok(scenario) => tell(
            alloc,
            scenario,
            &mut Report { newest: 0 },
            output,
            apps,
            drive,
        ),
        Err(status) => status,
    }
}

/// `check`: reads a scenario and writes both sides of the seven inequalities of its timing plan, in
/// units, a line each.
///
/// Answers come as those of `run`; `Breach` and `Usage` never come.
pub fn check<S: Source, K: Sink>(alloc: Global, input: &mut S, output: &mut K) -> Status
    ensures answers { AnswersAlone Check result
        (source_over S.left S.faults input.old input.new)
        (sink_over K.held K.faults output.old output.new) }
    ensures unwritten { WritesNothing result → output.new ≡ output.old }
{
    match read_scenario(alloc, input, output) {
        Ok(scenario) => show_sides(&scenario, output),
        Err(status) => status,
    }
}

/// `record NODE`: reads a scenario, runs it by first choices and writes the log of all that the
/// node is given.
///
/// `Done` and `Breach`: the log is written whole. `Refused`: the input breaks a rule of scenarios,
/// or its bus has no such node. Other answers come as those of `run`.
pub fn record<S: Source, K: Sink>(
    alloc: Global,
    node: NodeName,
    input: &mut S,
    output: &mut K,
    apps: &Apps,
) -> Status
    ensures answers { AnswersAlone (Record node) result
        (source_over S.left S.faults input.old input.new)
        (sink_over K.held K.faults output.old output.new) }
    ensures unwritten { WritesNothing result → output.new ≡ output.old }
{
    let scenario = match read_scenario(alloc, input, output) {
        Ok(scenario) => scenario,
        Err(status) => return status,
    };
    if !has_node(&scenario, node) {
        return refuse(Refusal::NoSuchNode, output);
    }
    write_log(alloc, scenario, node, output, apps)
}

/// `replay`: reads a log, gives it to its node and writes what that tells.
///
/// `Done`: all is written. `Refused`: the input spells no log, and one line says why and at which
/// byte. `TooLong`: the source gave more than 67,108,864 bytes. Other answers come as those of
/// `run`; `Breach` and `Usage` never come.
pub fn replay<S: Source, K: Sink>(alloc: Global, input: &mut S, output: &mut K) -> Status
    ensures answers { AnswersAlone Replay result
        (source_over S.left S.faults input.old input.new)
        (sink_over K.held K.faults output.old output.new) }
    ensures unwritten { WritesNothing result → output.new ≡ output.old }
{
    match read_log(alloc, input) {
        Ok(bytes) => replay_bytes(&bytes, output),
        Err(status) => status,
    }
}

/// `listen SKIP`: reads the log of a BIU, gives it to a passive listener from this tick of the
/// BIU's clock on and writes what that tells.
///
/// The answers are those of `replay`; the log of an RMU is `Refused` too.
pub fn listen<S: Source, K: Sink>(alloc: Global, skip: u32, input: &mut S, output: &mut K) -> Status
    ensures answers { AnswersAlone (Listen skip) result
        (source_over S.left S.faults input.old input.new)
        (sink_over K.held K.faults output.old output.new) }
    ensures unwritten { WritesNothing result → output.new ≡ output.old }
{
    match read_log(alloc, input) {
        Ok(bytes) => listen_to(&bytes, skip, output),
        Err(status) => status,
    }
}

/// `letters`: reads a scenario, runs it and writes each letter that a port receives whole in the
/// drive's turns, a line each.
///
/// Answers come as those of `run`.
pub fn letters<S: Source, K: Sink, D: Drive>(
    alloc: Global,
    input: &mut S,
    output: &mut K,
    apps: &Apps,
    drive: &mut D,
) -> Status
    ensures answers { AnswersDriven Letters result
        (source_over S.left S.faults input.old input.new)
        (sink_over K.held K.faults output.old output.new)
        (drive_over D.is_plain D.told drive.old drive.new) }
    ensures unwritten { WritesNothing result → output.new ≡ output.old }
    ensures not_driven { RunsNothing result → drive.new ≡ drive.old }
    ensures driven { HasEnded result
        → DrivesTheInput (source_over S.left S.faults input.old input.new)
        D.gives D.keeps drive.old drive.new }
{
    let scenario = match read_scenario(alloc, input, output) {
        Ok(scenario) => scenario,
        Err(status) => return status,
    };
    let mut teller = rb_long_run::Letters::new();
    tell(alloc, scenario, &mut teller, output, apps, drive)
}

// Whether the scenario's bus has all these members.
fn has_all(scenario: &Scenario, members: u16) -> bool
    ensures { IsTrue result ↔ AreMembers scenario.now.plan.sizes members }
{
    has_members(scenario.plan.shape(), members)
}

/// `group most MASK`, `group mid MASK`: reads a scenario, runs it and writes what the good BIUs
/// find for a group of replicas, by its voter, in each complete frame of the drive's turns.
///
/// `Refused`: the input breaks a rule of scenarios, or its bus lacks a member. Other answers come
/// as those of `run`.
pub fn group<S: Source, K: Sink, D: Drive>(
    alloc: Global,
    asked: &Asked,
    input: &mut S,
    output: &mut K,
    apps: &Apps,
    drive: &mut D,
    voters: &Voters,
) -> Status
    ensures answers { AnswersDriven (Group asked.now.which asked.now.members) result
        (source_over S.left S.faults input.old input.new)
        (sink_over K.held K.faults output.old output.new)
        (drive_over D.is_plain D.told drive.old drive.new) }
    ensures unwritten { WritesNothing result → output.new ≡ output.old }
    ensures not_driven { RunsNothing result → drive.new ≡ drive.old }
    ensures driven { HasEnded result
        → DrivesTheInput (source_over S.left S.faults input.old input.new)
        D.gives D.keeps drive.old drive.new }
{
    let scenario = match read_scenario(alloc, input, output) {
        Ok(scenario) => scenario,
        Err(status) => return status,
    };
    if !has_all(&scenario, asked.members.bits()) {
        return refuse_member(output);
    }
    let scope = scope_of(&scenario);
    let query = Query {
        scope: &scope,
        voters,
        asked,
    };
    tell(
        alloc,
        scenario,
        &mut GroupReport::new(query),
        output,
        apps,
        drive,
    )
}
