//! Both buses of a bridge from frame to frame.
ghost use Rattle.std.specs.Prelude.{◌≡◌, option_map};
ghost use Rattle.rb_outside.specs.Causes.{HasCause};
ghost use Rattle.rb_bridge.specs.Crossing.{AtFrame, Crosses, GoThrough, MayBegin, MayCross, MayGoOn, Writes};
ghost use Rattle.rb_bridge.specs.Crossing.{drives_now, drives_over, run_after, shown};

use crate::exchanging::exchange;
use crate::frame::{finish, pass};
use crate::side::Side;
use crate::telling::{Breach, breach_at, tell, write_end};
use rb_outside::{Failed, Sink};
use rb_port::Apps;
use rb_rules_bridge::Pair;
use rb_run::Ending;
use rb_world::Drive;

// Takes both buses through a frame, the left one first, and gives its breach, if there is one.
// After a breach of the left bus the right one is not taken through.
fn pass_both<D: Drive>(
    left: &mut Side,
    right: &mut Side,
    frame: u32,
    apps: &Apps,
    left_drive: &mut D,
    right_drive: &mut D,
) -> Option<Breach>
    requires { MayGoOn (drives_now D.is_plain D.told left_drive.old right_drive.old)
        left.old right.old }
    ensures through { (x : AtFrame frame (drives_over D.is_plain D.told
        left_drive.old left_drive.new right_drive.old right_drive.new) left.old right.old)
        → GoThrough (run_after x) frame left.new right.new (option_map shown result) }
    ensures left_stays { D.is_plain left_drive.new ≡ D.is_plain left_drive.old }
    ensures right_stays { D.is_plain right_drive.new ≡ D.is_plain right_drive.old }
{
    pass(left, apps, left_drive);
    if let Some(breach) = breach_at(&left.turn, false, frame) {
        return Some(breach);
    }
    pass(right, apps, right_drive);
    breach_at(&right.turn, true, frame)
}

// Takes both buses through a frame, and writes what is said of it. Gives whether they go on: they
// do unless there was a breach.
fn cross_frame<K: Sink, D: Drive>(
    left: &mut Side,
    right: &mut Side,
    pairs: &[Pair],
    frame: u32,
    apps: &Apps,
    left_drive: &mut D,
    right_drive: &mut D,
    output: &mut K,
) -> Result<bool, Failed>
    requires { MayCross pairs.now frame
        (drives_now D.is_plain D.told left_drive.old right_drive.old) left.old right.old }
    ensures crosses { (x : MayCross pairs.now frame (drives_over D.is_plain D.told
        left_drive.old left_drive.new right_drive.old right_drive.new) left.old right.old)
        → Crosses (run_after x.run) frame (left.new, right.new)
        (K.held output.old) (K.held output.new) result }
    ensures cause { HasCause (K.faults output.old) (K.faults output.new) result }
    ensures left_stays { D.is_plain left_drive.new ≡ D.is_plain left_drive.old }
    ensures right_stays { D.is_plain right_drive.new ≡ D.is_plain right_drive.old }
{
    let breach = pass_both(left, right, frame, apps, left_drive, right_drive);
    tell(breach, frame, left, right, output)?;
    if breach.is_some() {
        return Ok(false);
    }
    exchange(left, right, pairs);
    Ok(true)
}

/// Takes both buses of a bridge from their start to their end, frame by frame, the left one first,
/// and writes what is said of the bridge. After each frame each bus is handed what the other one
/// carries over. From the second frame on there is a line for each BIU of the left bus, and then of
/// the right, that is good in the frame's last data slot: the word that it finds. The last line is
/// `end` or the first `breach`. At the end both drives are asked for their last turns; at a breach
/// that of the other bus may have been left on the way. `Failed` is the answer only if a write
/// failed; a first part of the text has then been written. The sides must be as `open_side` gives
/// them.
pub fn cross<K: Sink, D: Drive>(
    left: &mut Side,
    right: &mut Side,
    pairs: &[Pair],
    frames: u32,
    apps: &Apps,
    left_drive: &mut D,
    right_drive: &mut D,
    output: &mut K,
) -> Result<Ending, Failed>
    requires { MayBegin pairs.now frames left.old right.old }
    ensures written { (x : MayBegin pairs.now frames left.old right.old)
        → Writes x.b (drives_over D.is_plain D.told
        left_drive.old left_drive.new right_drive.old right_drive.new)
        (K.held output.old) (K.held output.new) result }
    ensures cause { HasCause (K.faults output.old) (K.faults output.new) result }
{
    for frame in 0..frames {
        let goes_on = cross_frame(
            left,
            right,
            pairs,
            frame,
            apps,
            left_drive,
            right_drive,
            output,
        )?;
        if !goes_on {
            return Ok(Ending::Breach);
        }
    }
    finish(left, apps, left_drive);
    finish(right, apps, right_drive);
    write_end(frames, output)?;
    Ok(Ending::Ended)
}
