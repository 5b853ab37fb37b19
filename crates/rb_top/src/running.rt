//! Runs that are taken to their end: told by a teller, or as four numbers.
ghost use Rattle.std.specs.Prelude.{◌≡◌, ◌≤◌, IsTrue, []};
ghost use Rattle.rb_outside.specs.Writing.{Writes};
ghost use Rattle.rb_rules.specs.Entries.{IsListed};
ghost use Rattle.rb_rules.specs.Lawful.{IsLawful};
ghost use Rattle.rb_report.specs.Report.{summary_text};
ghost use Rattle.rb_scenario.specs.Acceptance.{as_scenario};
ghost use Rattle.rb_run.specs.Histories.{HasDriven};
ghost use Rattle.rb_run.specs.Seen.{drive_over, sink_over};
ghost use Rattle.rb_program.specs.Statuses.{HasEnded};
ghost use Rattle.rb_top.specs.Promise.{SumsTheHeadline};
ghost use Rattle.rb_top.specs.Serving.{Reports, Sums};
ghost use Rattle.rb_top.specs.Texts.{summary_of};
ghost use Rattle.rb_top.specs.Words.{AreNumbers};

use rb_base::OutOfMemory;
use rb_gen::generate;
use rb_outside::{Failed, Sink, write_line};
use rb_port::Apps;
use rb_program::{Status, status_of};
use rb_report::summary_line;
use rb_run::{Ending, Teller, Totals, tally, tell_to_end};
use rb_scenario::Scenario;
use rb_world::{Drive, World};
use std::alloc::Global;

/// Opens the run of a scenario and writes what the teller says of it. The teller must not have told
/// anything yet.
pub(crate) fn tell<K: Sink, D: Drive, T: Teller>(
    alloc: Global,
    scenario: Scenario,
    teller: &mut T,
    output: &mut K,
    apps: &Apps,
    drive: &mut D,
) -> Status
    requires lawful { IsLawful (as_scenario scenario) }
    requires listed { IsListed (as_scenario scenario) }
    requires fresh { T.has_told teller.old (as_scenario scenario) [] }
    ensures reports { Reports (T.says teller.old) scenario result
        (sink_over K.held K.faults output.old output.new)
        (drive_over D.is_plain D.told drive.old drive.new) }
    ensures driven { HasEnded result
        → HasDriven (as_scenario scenario) D.gives D.keeps drive.old drive.new }
    ensures unopened { result ≡ Status.OutOfMemory
        → (output.new ≡ output.old) × (drive.new ≡ drive.old) }
{
    let mut world = match World::open(alloc, scenario) {
        Ok(world) => world,
        Err(OutOfMemory) => return Status::OutOfMemory,
    };
    match tell_to_end(&mut world, apps, drive, teller, output) {
        Ok(ending) => status_of(ending),
        Err(Failed) => Status::WriteFault,
    }
}

// Writes one of the four numbers of a run.
fn write_number<K: Sink>(which: u8, value: u64, output: &mut K) -> Result<(), Failed>
    requires { which ≤ 3 }
    ensures { Writes K.held K.faults output.old output.new result (summary_text which value) }
{
    write_line(output, &summary_line(which, value))
}

// Writes the four numbers of a run, a line each.
fn write_summary<K: Sink>(totals: &Totals, output: &mut K) -> Result<(), Failed>
    ensures { Writes K.held K.faults output.old output.new result (summary_of totals.now) }
{
    write_number(0, totals.frames as u64, output)?;
    write_number(1, totals.deliveries, output)?;
    write_number(2, totals.convicted as u64, output)?;
    write_number(3, totals.spread, output)
}

/// `stress SEED FRAMES`: runs the scenario that a seed fixes, of 1 to 4096 frames, and writes four
/// numbers of the drive's turns, a line each: frames, deliveries, convictions and the greatest
/// spread, in units.
///
/// `Done`: all is written. `Breach`: the run ended with a breach of the fault premise, and nothing
/// was written. `WriteFault`: the sink failed. `OutOfMemory`: an allocation failed before the run.
pub fn stress<K: Sink, D: Drive>(
    alloc: Global,
    seed: u64,
    frames: u32,
    output: &mut K,
    apps: &Apps,
    drive: &mut D,
) -> Status
    requires { AreNumbers seed frames }
    ensures promise { IsTrue (D.is_plain drive.old) → HasEnded result
        → SumsTheHeadline seed frames result
        (sink_over K.held K.faults output.old output.new) }
    ensures sums { Sums seed frames result
        (sink_over K.held K.faults output.old output.new)
        (drive_over D.is_plain D.told drive.old drive.new) }
    ensures unopened { result ≡ Status.OutOfMemory
        → (output.new ≡ output.old) × (drive.new ≡ drive.old) }
    ensures breach { result ≡ Status.Breach → output.new ≡ output.old }
{
    let scenario = match generate(alloc, seed, frames) {
        Ok(scenario) => scenario,
        Err(OutOfMemory) => return Status::OutOfMemory,
    };
    let mut world = match World::open(alloc, scenario) {
        Ok(world) => world,
        Err(OutOfMemory) => return Status::OutOfMemory,
    };
    let (ending, totals) = tally(&mut world, apps, drive);
    match ending {
        Ending::Ended => match write_summary(&totals, output) {
            Ok(()) => Status::Done,
            Err(Failed) => Status::WriteFault,
        },
        Ending::Breach => Status::Breach,
    }
}
