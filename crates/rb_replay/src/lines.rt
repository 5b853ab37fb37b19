//! What a node or a listener tells, as lines.
ghost use Rattle.std.specs.Prelude.{◌≡◌, ◌≤◌, ◌++◌};
ghost use Rattle.rb_outside.specs.Causes.{HasCause};
ghost use Rattle.rb_outside.specs.Writing.{Writes};
ghost use Rattle.rb_laws_logs.specs.Given.{index_of};
ghost use Rattle.rb_laws_logs.specs.Replays.{act_lines, delivery_lines, epoch_lines, frames_with};
ghost use Rattle.rb_node.specs.Acts.{IsAct};
ghost use Rattle.rb_replay.specs.Overhearing.{begun_with, heed_lines};
ghost use Rattle.rb_rules.specs.Core.{Act};

use arrayvec::ArrayString;
use rb_base::{Delivery, NodeName};
use rb_listen::Heed;
use rb_node::{Epoch, Shown, Step};
use rb_outside::{Failed, Sink, write_line};
use rb_report::{convicted_line, delivery_line, epoch_line};

// Writes one line and then the other.
#[tactic(auto, using(crate::proofs::Written::in_turn))]
fn write_two<S: Sink>(
    first: &ArrayString<96>,
    second: &ArrayString<96>,
    output: &mut S,
) -> Result<(), Failed>
    ensures { Writes S.held
        S.faults output.old output.new result (first.now.bytes ++ second.now.bytes) }
{
    write_line(output, first)?;
    write_line(output, second)
}

// Writes the start of a frame, if one begins: its first tick, and whom the node or the listener
// holds convicted.
#[inline(always)]
fn write_epoch<S: Sink>(node: NodeName, epoch: Option<Epoch>, output: &mut S) -> Result<(), Failed>
    ensures { Writes S.held S.faults output.old output.new result (epoch_lines node epoch) }
{
    match epoch {
        Some(epoch) => {
            let first_tick = epoch_line(epoch.frame, node, epoch.tick, None);
            let convicted = convicted_line(epoch.frame, node, epoch.biu, epoch.rmu);
            write_two(&first_tick, &convicted, output)
        }
        None => Ok(()),
    }
}

// The number of the node among those of its kind.
fn number_of(node: NodeName) -> u8
    ensures { result ≡ index_of node }
{
    match node {
        NodeName::Biu(number) | NodeName::Rmu(number) => number,
    }
}

// Writes a delivery, if there is one.
#[inline(always)]
fn write_delivery<S: Sink>(
    node: NodeName,
    delivered: Option<Delivery>,
    output: &mut S,
) -> Result<(), Failed>
    ensures { Writes S.held
        S.faults output.old output.new result (delivery_lines node delivered) }
{
    match delivered {
        Some(d) => write_line(
            output,
            &delivery_line(d.frame, d.slot, number_of(node), d.sender, d.value),
        ),
        None => Ok(()),
    }
}

/// Writes what a node tells at a tick: the frame that starts, and what it delivers in the window
/// that it closes, which is `shown`.
#[tactic(auto, using(crate::proofs::Written::in_turn))]
#[inline(always)]
pub(crate) fn write_step<S: Sink>(
    node: NodeName,
    step: &Step,
    shown: &Shown,
    output: &mut S,
) -> Result<(), Failed>
    ensures writes { (x : Act) → IsAct shown.now step.now x
        → Writes S.held S.faults output.old output.new result (act_lines node x) }
    ensures cause { HasCause (S.faults output.old) (S.faults output.new) result }
{
    write_epoch(node, step.epoch, output)?;
    if step.closed {
        write_delivery(node, shown.delivered(), output)
    } else {
        Ok(())
    }
}

/// How many frames above 0 begin: 1 or none.
pub(crate) fn frames_by(epoch: Option<Epoch>) -> u32
    ensures value { result ≡ frames_with epoch }
    ensures most { result ≤ 1 }
{
    match epoch {
        Some(epoch) if epoch.frame > 0 => 1,
        _ => 0,
    }
}

/// Writes what a listener tells at a tick under the name of a node.
#[tactic(auto, using(crate::proofs::Written::in_turn))]
pub(crate) fn write_heed<S: Sink>(node: NodeName, heed: Heed, output: &mut S) -> Result<(), Failed>
    ensures { Writes S.held S.faults output.old output.new result (heed_lines node heed) }
{
    write_epoch(node, heed.epoch, output)?;
    write_delivery(node, heed.delivered, output)
}

/// How many frames begin: 1 or none.
pub(crate) fn begun_by(epoch: Option<Epoch>) -> u32
    ensures value { result ≡ begun_with epoch }
    ensures most { result ≤ 1 }
{
    match epoch {
        Some(_) => 1,
        None => 0,
    }
}
