//! What the receivers of a bus find for the words that crossed, written a line at a time.
ghost use Rattle.std.specs.Prelude.{◌≡◌, ◌<◌, ℕ, List};
ghost use Rattle.rb_base.specs.declared.values.Delivery.{Delivery};
ghost use Rattle.rb_outside.specs.Causes.{HasCause};
ghost use Rattle.rb_outside.specs.Writing.{Writes};
ghost use Rattle.rb_group_run.specs.Holding.{HoldPortions, IsScopeOf};
ghost use Rattle.rb_rules.specs.Goodness.{Scenario};
ghost use Rattle.rb_rules_bridge.specs.Texts.{cross_text};
ghost use Rattle.rb_bridge.specs.Receivers.{most_found, receiver_by, receivers_by};
ghost use Rattle.rb_bridge.specs.Refusals.{bank_of};

use crate::lines::cross_line;
use rb_base::Heard;
use rb_group::{Group, most_of};
use rb_group_run::{Ports, Scope};
use rb_outside::{Failed, Sink, write_line};

// The value that more than half of the first values are which a port delivered of the bridge's
// BIUs.
fn find(groups: &[Group; 16], port: u8) -> Heard
    requires { port < 16 }
    ensures { (members : ℕ) (told : ℕ → List Delivery) → HoldPortions members told groups.now
        → result ≡ most_found members told port }
{
    most_of(&groups[usize::from(port)].values())
}

// Writes the value that a port finds.
fn write_value<K: Sink>(ports: &Ports, right: bool, port: u8, output: &mut K) -> Result<(), Failed>
    requires { port < 16 }
    ensures writes { (members : ℕ) (told : ℕ → List Delivery)
        → HoldPortions members told ports.now.groups
        → Writes K.held K.faults output.old output.new result
        (cross_text ports.now.frame (bank_of right) port (most_found members told port)) }
    ensures cause { HasCause (K.faults output.old) (K.faults output.new) result }
{
    let value = find(&ports.groups, port);
    write_line(output, &cross_line(ports.frame, right, port, value))
}

// Writes it, if the BIU is good in the last data slot of the frame.
fn write_port<K: Sink>(
    ports: &Ports,
    right: bool,
    port: u8,
    scope: &Scope,
    output: &mut K,
) -> Result<(), Failed>
    requires { port < 16 }
    ensures writes { (sc : Scenario) (members : ℕ) (told : ℕ → List Delivery)
        → IsScopeOf sc scope.now → HoldPortions members told ports.now.groups
        → Writes K.held K.faults output.old output.new result
        (receiver_by sc ports.now.frame (bank_of right) (most_found members told) port) }
    ensures cause { HasCause (K.faults output.old) (K.faults output.new) result }
{
    if scope.is_good_at_last(ports.frame, port) {
        write_value(ports, right, port, output)
    } else {
        Ok(())
    }
}

/// Writes what the receivers of a bus find in the frame of its ports: for each BIU that is good in
/// the frame's last data slot the value that more than half of the first values are which it
/// delivered of the bridge's BIUs. Each write asks for the rest of one line. `Failed` is the answer
/// only if a write failed; a first part of the lines has then been written.
pub(crate) fn write_receivers<K: Sink>(
    ports: &Ports,
    right: bool,
    scope: &Scope,
    output: &mut K,
) -> Result<(), Failed>
    ensures writes { (sc : Scenario) (members : ℕ) (told : ℕ → List Delivery)
        → IsScopeOf sc scope.now → HoldPortions members told ports.now.groups
        → Writes K.held K.faults output.old output.new result
        (receivers_by sc ports.now.frame (bank_of right) (most_found members told)) }
    ensures cause { HasCause (K.faults output.old) (K.faults output.new) result }
{
    for port in 0..scope.shape.biu() {
        write_port(ports, right, port, scope, output)?;
    }
    Ok(())
}
