//! A bridge that is opened, and taken to its end.
ghost use Rattle.std.specs.Prelude.{◌≡◌};
ghost use Rattle.rb_outside.specs.Causes.{Rose};
ghost use Rattle.rb_rules_bridge.specs.Bridges.{IsBridge};
ghost use Rattle.rb_bridge_document.specs.Acceptance.{AreListed, as_bridge};
ghost use Rattle.rb_bridge.specs.Crossing.{drives_over};
ghost use Rattle.rb_run.specs.Seen.{sink_over};
ghost use Rattle.rb_bridge_top.specs.Answers.{Reports};
ghost use Rattle.rb_program.specs.Statuses.{IsOfRun};

use rb_base::OutOfMemory;
use rb_bridge::{cross, members_on, open_side};
use rb_bridge_document::Bridge;
use rb_outside::{Failed, Sink};
use rb_port::Apps;
use rb_program::{Status, status_of};
use rb_rules_bridge::Bank;
use rb_run::Ending;
use rb_world::Drive;
use std::alloc::Global;

/// Opens both buses of a bridge, and writes what is said of it.
pub(crate) fn report<K: Sink, D: Drive>(
    alloc: Global,
    bridge: Bridge,
    output: &mut K,
    apps: &Apps,
    left_drive: &mut D,
    right_drive: &mut D,
) -> Status
    requires bridge { IsBridge (as_bridge bridge) }
    requires listed { AreListed (as_bridge bridge) }
    ensures written { Reports (as_bridge bridge) (drives_over D.is_plain D.told
        left_drive.old left_drive.new right_drive.old right_drive.new) result
        (sink_over K.held K.faults output.old output.new) }
    ensures cause { result ≡ Status.WriteFault → Rose (K.faults output.old) (K.faults output.new) }
    ensures unopened { result ≡ Status.OutOfMemory
        → (output.new ≡ output.old)
        × ((left_drive.new ≡ left_drive.old) × (right_drive.new ≡ right_drive.old)) }
    ensures one_of { IsOfRun result }
{
    let Bridge {
        left,
        right,
        pairs,
        left_slot,
        right_slot,
    } = bridge;
    let frames = left.frames;
    let left_members = members_on(Bank::Left, pairs.as_slice());
    let right_members = members_on(Bank::Right, pairs.as_slice());
    let mut left = match open_side(alloc, left, left_members, left_slot) {
        Ok(side) => side,
        Err(OutOfMemory) => return Status::OutOfMemory,
    };
    let mut right = match open_side(alloc, right, right_members, right_slot) {
        Ok(side) => side,
        Err(OutOfMemory) => return Status::OutOfMemory,
    };
    match cross(
        &mut left,
        &mut right,
        pairs.as_slice(),
        frames,
        apps,
        left_drive,
        right_drive,
        output,
    ) {
        Ok(ending) => status_of(ending),
        Err(Failed) => Status::WriteFault,
    }
}
