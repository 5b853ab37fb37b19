//! The command that a form of words asks for.
ghost use Rattle.std.specs.Prelude.{ℕ, ◌≡◌, None};
ghost use Rattle.rb_run.specs.Seen.{drive_over, sink_over, source_over};
ghost use Rattle.rb_top.specs.declared.form.Form.TheVariants.{Stress};
ghost use Rattle.rb_top.specs.Answers.{CommandAnswers, command_of, limit_of};
ghost use Rattle.rb_program.specs.Statuses.{RunsNothing, WritesNothing};
ghost use Rattle.rb_top.specs.Words.{IsInRange};

use crate::commands::{check, group, letters, listen, record, replay, run};
use crate::form::Form;
use crate::generating::generate;
use crate::pages::write_page;
use crate::running::stress;
use crate::spelling::spell;
use rb_base::{Biu, NodeSet};
use rb_group::{Voters, Which};
use rb_group_run::Asked;
use rb_outside::{Sink, Source};
use rb_port::Apps;
use rb_program::Status;
use rb_world::Drive;
use std::alloc::Global;

// The group of these members, and its voter.
fn asked_of(which: Which, members: u16) -> Asked
    ensures { result ≡ record { which = which; members = members } }
{
    Asked {
        which,
        members: NodeSet::<Biu>::from_bits(members),
    }
}

/// Serves the form.
pub(crate) fn serve<S: Source, K: Sink, D: Drive>(
    alloc: Global,
    form: Form,
    input: &mut S,
    output: &mut K,
    apps: &Apps,
    drive: &mut D,
    voters: &Voters,
) -> Status
    requires { IsInRange form }
    ensures answers { CommandAnswers (command_of form) result
        (source_over S.left S.faults input.old input.new)
        (sink_over K.held K.faults output.old output.new)
        (drive_over D.is_plain D.told drive.old drive.new) }
    ensures without_input { limit_of form ≡ None → input.new ≡ input.old }
    ensures unwritten { WritesNothing result → output.new ≡ output.old }
    ensures stress_with_breach { (seed frames : ℕ) → form ≡ Stress seed frames
        → result ≡ Status.Breach → output.new ≡ output.old }
    ensures not_driven { RunsNothing result → drive.new ≡ drive.old }
{
    match form {
        Form::Run => run(alloc, input, output, apps, drive),
        Form::Check => check(alloc, input, output),
        Form::Gen(seed, frames) => generate(alloc, seed, frames, output),
        Form::Stress(seed, frames) => stress(alloc, seed, frames, output, apps, drive),
        Form::Record(node) => record(alloc, node, input, output, apps),
        Form::Replay => replay(alloc, input, output),
        Form::Listen(skip) => listen(alloc, skip, input, output),
        Form::Spell(letter) => spell(&letter, output),
        Form::Letters => letters(alloc, input, output, apps, drive),
        Form::Group(which, members) => group(
            alloc,
            &asked_of(which, members),
            input,
            output,
            apps,
            drive,
            voters,
        ),
        Form::Show(flag) => write_page(flag, output),
    }
}
