//! The text of a check.
ghost use Rattle.std.specs.Prelude.{◌≡◌, ◌<◌, ◌≤◌, ◌+◌};
ghost use Rattle.rb_outside.specs.Writing.{Writes};
ghost use Rattle.rb_run.specs.Seen.{sink_over};
ghost use Rattle.rb_top.specs.CheckText.{check_text, text_after};
ghost use Rattle.rb_program.specs.Outside.{WritesText};

use arrayvec::ArrayString;
use rb_outside::{Failed, Sink, write_line};
use rb_plan::{Feasible, sides};
use rb_program::Status;
use rb_report::side_line;
use rb_scenario::Scenario;

// The line of the inequality that comes after the first `before`.
fn line_after(plan: &Feasible, before: u8) -> ArrayString<96>
    requires { before < 7 }
    ensures { result.bytes ≡ text_after plan.now.sizes plan.now.plan before }
{
    let (left, right) = sides(plan.shape(), plan.plan(), before + 1);
    side_line(before + 1, left, right)
}

// Writes both sides of the seven inequalities, a line each.
fn write_check<K: Sink>(plan: &Feasible, output: &mut K) -> Result<(), Failed>
    ensures { Writes K.held K.faults output.old output.new result
        (check_text plan.now.sizes plan.now.plan) }
{
    for before in 0..7u8 {
        write_line(output, &line_after(plan, before))?;
    }
    Ok(())
}

/// Writes both sides of the seven inequalities of the scenario's plan.
pub(crate) fn show_sides<K: Sink>(scenario: &Scenario, output: &mut K) -> Status
    ensures { WritesText (check_text scenario.now.plan.sizes scenario.now.plan.plan) result
        (sink_over K.held K.faults output.old output.new) }
{
    match write_check(&scenario.plan, output) {
        Ok(()) => Status::Done,
        Err(Failed) => Status::WriteFault,
    }
}
