//! Runs of a world, whose records are compared or counted.
ghost use Rattle.std.specs.Prelude.{IfSome};
ghost use Rattle.rb_run.specs.Runs.{HasGivenNothing};

use rb_port::Apps;
use rb_run::{Ending, Totals, tally};
use rb_scenario::read;
use rb_world::{FirstDrive, Ties, Turn, World};
use std::alloc::Global;

/// The run of a document before its first event, if it is no refused one.
pub(crate) fn opened(alloc: Global, document: &[u8]) -> Option<World>
    ensures { IfSome result HasGivenNothing }
{
    let Ok(scenario) = read(alloc, document) else {
        return None;
    };
    let Ok(world) = World::open(alloc, scenario) else {
        return None;
    };
    Some(world)
}

// How many records come up to the end of both runs, if they are the same.
fn same_records(first: &mut World, other: &mut World, apps: &Apps, ties: Ties) -> Option<u32> {
    for before in 0..u32::MAX {
        let turn = first.next(apps, Ties::First);
        if other.next(apps, ties) != turn {
            return None;
        }
        if turn == Turn::Ended {
            return Some(before + 1);
        }
    }
    None
}

/// How many records the document's run has, if they are the same by first choices and by these.
pub(crate) fn records_alike(
    alloc: Global,
    apps: &Apps,
    document: &[u8],
    ties: Ties,
) -> Option<u32> {
    let mut first = opened(alloc, document)?;
    let mut other = opened(alloc, document)?;
    same_records(&mut first, &mut other, apps, ties)
}

/// How the document's run ends, and its four numbers.
pub(crate) fn numbers_of(alloc: Global, apps: &Apps, document: &[u8]) -> Option<(Ending, Totals)> {
    let mut world = opened(alloc, document)?;
    Some(tally(&mut world, apps, &mut FirstDrive::new()))
}
