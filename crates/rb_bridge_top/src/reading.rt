//! Reading a bridge from a source.
ghost use Rattle.std.specs.Prelude.{◌≡◌, IfOk, IfErr};
ghost use Rattle.rb_run.specs.Seen.{sink_over, source_over};
ghost use Rattle.rb_program.specs.Outside.{RefusesWith};
ghost use Rattle.rb_program.specs.Statuses.{WritesNothing};
ghost use Rattle.rb_bridge_top.specs.Inputs.{HasLine, ReadsBridge, ReadsNone, rule_text};

use rb_bridge::bridge_refused_line;
use rb_bridge_document::{Bridge, BridgeRefusal, read_bridge};
use rb_outside::{Sink, Source};
use rb_program::{Status, read_within, refuse_with};
use std::alloc::Global;

/// The most bytes of an input.
const INPUT_LIMIT: usize = 4_194_304;

// Refuses the input for a rule that it breaks.
fn refuse<K: Sink>(rule: BridgeRefusal, output: &mut K) -> Status
    requires { HasLine rule }
    ensures { RefusesWith (rule_text rule) result
        (sink_over K.held K.faults output.old output.new) }
{
    let line = bridge_refused_line(rule.code().unwrap_or(0), rule.detail());
    refuse_with(&line, output)
}

/// The bridge that the source has left, or the answer if there is none.
pub(crate) fn read_document<S: Source, K: Sink>(
    alloc: Global,
    input: &mut S,
    output: &mut K,
) -> Result<Bridge, Status>
    ensures bridge { IfOk result
        (ReadsBridge (source_over S.left S.faults input.old input.new)) }
    ensures none { IfErr result (λ status. ReadsNone status
        (source_over S.left S.faults input.old input.new)
        (sink_over K.held K.faults output.old output.new)) }
    ensures unwritten { IfOk result (λ _. output.new ≡ output.old) }
    ensures nothing { IfErr result (λ status. WritesNothing status → output.new ≡ output.old) }
{
    let bytes = read_within(alloc, input, INPUT_LIMIT)?;
    match read_bridge(alloc, &bytes) {
        Ok(bridge) => Ok(bridge),
        Err(BridgeRefusal::OutOfMemory) => Err(Status::OutOfMemory),
        Err(rule) => Err(refuse(rule, output)),
    }
}
