//! How a run ends.
ghost use Rattle.std.specs.Prelude.{◌≡◌};
ghost use Rattle.rb_world_book.specs.Records.{record_of};
ghost use Rattle.rb_run.specs.Runs.{end_at};

use rb_world_book::Turn;

/// How a run ends: after all its frames, or at the first stage at which the fault premise fails.
#[derive(Clone, Copy, Debug, PartialEq, Eq)]
pub enum Ending {
    Ended,
    Breach,
}

/// How the run ends with this turn, if it does.
pub fn ending_at(turn: &Turn) -> Option<Ending>
    ensures { result ≡ end_at (record_of turn.now) }
{
    match turn {
        Turn::Ended => Some(Ending::Ended),
        Turn::Breach(_, _) => Some(Ending::Breach),
        _ => None,
    }
}
