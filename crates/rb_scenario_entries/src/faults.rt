//! Fault entries: the frame and the slot from which on nodes are not good.
ghost use Rattle.std.specs.Prelude.{◌≡◌, true, codes, IfSome};
ghost use Rattle.std.specs.List.{list_all};
ghost use Rattle.toml.specs.View.{table_view};
ghost use Rattle.rb_base.specs.Nodes.{side_of};
ghost use Rattle.rb_base.specs.Sizes.{IsShape};
ghost use Rattle.rb_scenario_document.specs.Walk.{entries_at};
ghost use Rattle.rb_scenario_entries.specs.Faults.{has_faults, is_fault, onset_for, onset_of, onsets_of};

use crate::bus::{Bus, last_frame, sync_slot};
use crate::entries::{are_distinct, entry_for, name_of};
use rb_base::{Kind, NodeName};
use rb_scenario_document::names::node_at;
use rb_scenario_document::values::{has_number, number_at};
use rb_scenario_document::walk::{EntryTest, every_entry, member};
use toml::Table;

/// Whether a fault entry is for a node of the bus, from a slot of a frame on.
fn is_fault(bus: &Bus, entry: &Table) -> bool
    ensures { result ≡ is_fault bus.now (table_view entry.now) }
{
    node_at(&bus.shape, entry, "node").is_some()
        && has_number(entry, "frame", 0, last_frame(bus))
        && has_number(entry, "slot", 0, sync_slot(bus))
}

/// Fault entries in range.
#[derive(Clone, Copy)]
struct IsFault {
    bus: Bus,
}

impl EntryTest for IsFault {
    ghost use Rattle.rb_scenario_entries.specs.Faults.{is_fault};

    ghost holds = { λ f. is_fault f.bus };

    fn test(&self, entry: &Table) -> bool {
        is_fault(&self.bus, entry)
    }
}

/// Whether the fault entries are in range, and no two are for one node.
pub fn has_faults(bus: &Bus, table: &Table) -> bool
    requires { IsShape bus.now.shape }
    ensures { result ≡ has_faults bus.now (table_view table.now) }
{
    every_entry(&IsFault { bus: *bus }, member(table, "fault"))
        && are_distinct(&bus.shape, member(table, "fault"))
}

/// The frame and the slot of an entry.
fn onset_of(bus: &Bus, entry: &Table) -> (u32, u16)
    requires { is_fault bus.now (table_view entry.now) ≡ true }
    ensures { result ≡ onset_of (table_view entry.now) }
{
    let frame = number_at(entry, "frame", 0, last_frame(bus));
    let slot = number_at(entry, "slot", 0, sync_slot(bus));
    (frame as u32, slot as u16)
}

/// The frame and the slot from which on the node is not good, if it ever is not.
fn onset_for(bus: &Bus, table: &Table, name: NodeName) -> Option<(u32, u16)>
    requires { list_all (is_fault bus.now) (entries_at (codes "fault") (table_view table.now))
        ≡ true }
    ensures { result ≡ onset_for bus.now (table_view table.now) name }
{
    match entry_for(&bus.shape, member(table, "fault"), name) {
        Some(entry) => Some(onset_of(bus, entry)),
        None => None,
    }
}

/// The onsets of 16 nodes of a kind.
pub fn onsets_of<K: Kind>(bus: &Bus, table: &Table) -> [Option<(u32, u16)>; 16]
    requires { list_all (is_fault bus.now) (entries_at (codes "fault") (table_view table.now))
        ≡ true }
    ensures { result ≡ onsets_of (side_of K.CODE) bus.now (table_view table.now) }
{
    let mut onsets = [None; 16];
    for index in 0..16 {
        onsets[index] = onset_for(bus, table, name_of::<K>(index as u8));
    }
    onsets
}
