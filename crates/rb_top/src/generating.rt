//! The text of a generated scenario.
ghost use Rattle.std.specs.Prelude.{◌≡◌, ◌≤◌};
ghost use Rattle.std.specs.Io.KnownBytes.{Appends};
ghost use Rattle.std.specs.List.{flat_map};
ghost use Rattle.rb_outside.specs.Bytes.{AppendsPart};
ghost use Rattle.rb_outside.specs.Causes.{Rose};
ghost use Rattle.rb_outside.specs.Writing.{Writes};
ghost use Rattle.rb_scenario.specs.Acceptance.{as_scenario};
ghost use Rattle.rb_gen.specs.Generated.{IsGenerated};
ghost use Rattle.rb_gen.specs.Text.{lines_of};
ghost use Rattle.rb_top.specs.Serving.{IsOfText};
ghost use Rattle.rb_top.specs.Texts.{generated_text};
ghost use Rattle.rb_top.specs.Words.{AreNumbers};

use rb_base::OutOfMemory;
use rb_gen::line;
use rb_outside::{Failed, Sink, write_line};
use rb_program::Status;
use rb_scenario::Scenario;
use std::alloc::Global;

/// Writes the text of a generated scenario, line by line.
pub(crate) fn write_generated<K: Sink>(scenario: &Scenario, output: &mut K) -> Result<(), Failed>
    requires { IsGenerated (as_scenario scenario.now) }
    ensures { Writes K.held K.faults output.old output.new result
        (flat_map (λ text. text) (lines_of (as_scenario scenario.now))) }
{
    let mut next = 0;
    while let Some(text) = line(scenario, next) {
        write_line(output, &text)?;
        next += 1;
    }
    Ok(())
}

/// `gen SEED FRAMES`: writes the text of the scenario that a seed fixes, of 1 to 4096 frames, a
/// line at a time.
///
/// `Done`: all is written. `WriteFault`: the sink failed; what it took is a first part of the text.
/// `OutOfMemory`: an allocation failed, and nothing was written.
pub fn generate<K: Sink>(alloc: Global, seed: u64, frames: u32, output: &mut K) -> Status
    requires { AreNumbers seed frames }
    ensures done { result ≡ Status.Done
        → Appends (K.held output.old) (K.held output.new) (generated_text seed frames) }
    ensures part { result ≡ Status.WriteFault
        → AppendsPart (K.held output.old) (K.held output.new) (generated_text seed frames) }
    ensures cause { result ≡ Status.WriteFault → Rose (K.faults output.old) (K.faults output.new) }
    ensures unwritten { result ≡ Status.OutOfMemory → output.new ≡ output.old }
    ensures one_of { IsOfText result }
{
    let scenario = match rb_gen::generate(alloc, seed, frames) {
        Ok(scenario) => scenario,
        Err(OutOfMemory) => return Status::OutOfMemory,
    };
    match write_generated(&scenario, output) {
        Ok(()) => Status::Done,
        Err(Failed) => Status::WriteFault,
    }
}
