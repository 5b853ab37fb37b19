//! Reading a scenario or a log from a source.
ghost use Rattle.std.specs.Prelude.{◌≡◌, ◌≤◌, IfOk, IfErr};
ghost use Rattle.rb_outside.specs.Bytes.{Gave, ReadsToEnd};
ghost use Rattle.rb_run.specs.Seen.{sink_over, source_over};
ghost use Rattle.rb_program.specs.Outside.{IsUnreadOver, RefusesWith};
ghost use Rattle.rb_program.specs.Statuses.{IsNotRead, WritesNothing};
ghost use Rattle.rb_top.specs.Inputs.{HasCode, log_limit, member_text, rule_text};
ghost use Rattle.rb_top.specs.Reading.{ReadsNone, ReadsScenario};

use rb_outside::{Sink, Source};
use rb_program::{Status, read_within, refuse_with};
use rb_report::refused_line;
use rb_scenario::{Refusal, Scenario, read};
use std::alloc::Global;

/// The most bytes of a scenario.
const SCENARIO_LIMIT: usize = 4_194_304;

/// The most bytes of a log.
const LOG_LIMIT: usize = 67_108_864;

/// The code of a member that the bus has not.
const NO_SUCH_MEMBER: u8 = 14;

/// Refuses the input for a rule that it breaks.
pub(crate) fn refuse<K: Sink>(rule: Refusal, output: &mut K) -> Status
    requires { HasCode rule }
    ensures { RefusesWith (rule_text rule) result
        (sink_over K.held K.faults output.old output.new) }
{
    let line = refused_line(rule.code().unwrap_or(0), rule.detail(), false);
    refuse_with(&line, output)
}

/// Refuses the input for a member that its bus has not.
pub(crate) fn refuse_member<K: Sink>(output: &mut K) -> Status
    ensures { RefusesWith member_text result
        (sink_over K.held K.faults output.old output.new) }
{
    let line = refused_line(NO_SUCH_MEMBER, None, false);
    refuse_with(&line, output)
}

/// The scenario that the source has left, or the answer if there is none.
pub(crate) fn read_scenario<S: Source, K: Sink>(
    alloc: Global,
    input: &mut S,
    output: &mut K,
) -> Result<Scenario, Status>
    ensures scenario { IfOk result
        (ReadsScenario (source_over S.left S.faults input.old input.new)) }
    ensures none { IfErr result (λ status. ReadsNone status
        (source_over S.left S.faults input.old input.new)
        (sink_over K.held K.faults output.old output.new)) }
    ensures unwritten { IfOk result (λ _. output.new ≡ output.old) }
    ensures nothing { IfErr result (λ status. WritesNothing status → output.new ≡ output.old) }
{
    let bytes = read_within(alloc, input, SCENARIO_LIMIT)?;
    match read(alloc, &bytes) {
        Ok(scenario) => Ok(scenario),
        Err(Refusal::OutOfMemory) => Err(Status::OutOfMemory),
        Err(rule) => Err(refuse(rule, output)),
    }
}

/// The bytes of a log that the source has left, or the answer if they are too many or cannot be
/// had.
pub(crate) fn read_log<S: Source>(alloc: Global, input: &mut S) -> Result<Vec<u8>, Status>
    ensures whole { IfOk result (λ v. ReadsToEnd (S.left input.old) (S.left input.new) v.items) }
    ensures short_enough { IfOk result
        (λ _. Gave (S.left input.old) (S.left input.new) (λ n. n ≤ log_limit)) }
    ensures unread { IfErr result (λ status. IsUnreadOver log_limit status
        (source_over S.left S.faults input.old input.new)) }
    ensures one_of { IfErr result IsNotRead }
{
    read_within(alloc, input, LOG_LIMIT)
}
