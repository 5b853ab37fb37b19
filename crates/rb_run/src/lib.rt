//! A run that is taken to its end by a drive: what is told of it, written a line at a time, such as
//! its report, or its four numbers.
#![tactic(auto)]

ghost use Rattle.rb_run.specs.Histories.{MemDrivesKeepTheRun};

mod counting;
pub mod ending;
pub mod report;
pub mod telling;
pub mod totals;

pub use counting::tally;
pub use ending::{Ending, ending_at};
pub use report::{Report, newest_block};
pub use telling::{Teller, tell_to_end};
pub use totals::Totals;

/// A drive that keeps its turns (`MemDrive`) and has room left for all turns of a run has, after
/// the run, exactly these behind the turns that it had before; with a mask, these with Fault in
/// place of each value. It still tells its turns if it did before.
pub fn mem_drives_keep_the_run()
    ensures { MemDrivesKeepTheRun }
{}
