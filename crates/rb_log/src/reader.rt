//! Reading a log.
ghost use Rattle.std.specs.Prelude.{◌≡◌, ◌≤◌, ◌++◌, ◌<◌, drop, length, min, option_map, slice_get, Ok, Err, IfOk, IfErr};
ghost use Rattle.rb_rules.specs.Lawful.{IsNodeOf};
ghost use Rattle.std.proofs.Math.ListN.{replicate};
ghost use Rattle.rb_rules.specs.Core.{Tick};
ghost use Rattle.rb_log.specs.Cursor.{quiet_in_front, shown};
ghost use Rattle.rb_log.specs.Header.{header_in};
ghost use Rattle.rb_log.specs.LogText.{log_in, senders_of};

use crate::cursor::Cursor;
pub use crate::cursor::LogEvent;
use crate::entry::check_entries;
use crate::heading::{Header, header_in};
use crate::refusal::LogRefusal;
use rb_base::NodeName;
use rb_plan::Feasible;
use std::marker::Model;

// The number of nodes that may have sent what arrives at the node.
fn senders_of(plan: &Feasible, node: NodeName) -> u8
    ensures value { result ≡ senders_of plan.now node }
    ensures some { 1 ≤ result }
{
    match node {
        NodeName::Biu(_) => plan.shape().rmu(),
        NodeName::Rmu(_) => plan.shape().biu(),
    }
}

/// A log whose bytes were all looked at: the numbers of the bus, the node whose log it is, and the
/// events that are left.
#[derive(Drop)]
pub struct LogReader<'a> {
    plan: Feasible,
    node: NodeName,
    cursor: Cursor<'a>,
}

impl<'a> Model for LogReader<'a> {
    ghost use Rattle.rb_rules.specs.Lawful.{IsNodeOf};
    ghost use Rattle.rb_log.specs.Cursor.{IsSound, events_left};
    ghost use Rattle.rb_log.specs.Header.{header_in};
    ghost use Rattle.rb_log.specs.LogText.{Log};

    ghost Value = { Log };

    ghost view = { λ r. record {
      timetable = r.plan;
      node = r.node;
      events = events_left r.cursor;
    } };

    ghost invariant = { λ r. IsSound r.cursor × IsNodeOf r.plan.sizes r.node };
}

// Looks at the records behind a header.
fn open_behind<'a>(header: &Header, bytes: &'a [u8]) -> Result<LogReader<'a>, LogRefusal>
    requires header { Ok header.now ≡ header_in bytes.now }
    requires inside { header.now.size ≤ length bytes.now }
    requires node { IsNodeOf header.now.plan.sizes header.now.node }
    ensures log { IfOk result (λ log. log_in bytes.now ≡ Ok log) }
    ensures refused { IfErr result (λ fault. log_in bytes.now ≡ Err fault) }
{
    let senders = senders_of(&header.plan, header.node);
    if let Err(fault) = check_entries(senders, bytes, header.size) {
        return Err(fault);
    }
    Ok(LogReader {
        plan: header.plan,
        node: header.node,
        cursor: Cursor {
            bytes,
            place: header.size,
            ticks: 0,
            zeros: 0,
            senders,
        },
    })
}

impl<'a> LogReader<'a> {
    /// Looks at a whole log, from the front to its end, and gives its reader, or else the first
    /// fault and its place: BadMagic if the first four bytes are those of no log, BadField if a
    /// field that is there whole has a number that it may not have, Truncated if the bytes end too
    /// early, AfterEnd if a byte follows the end.
    pub fn open(bytes: &'a [u8]) -> Result<LogReader<'a>, LogRefusal>
        ensures log { IfOk result (λ log. log_in bytes.now ≡ Ok log) }
        ensures refused { IfErr result (λ fault. log_in bytes.now ≡ Err fault) }
    {
        match header_in(bytes) {
            Ok(header) => open_behind(&header, bytes),
            Err(fault) => Err(fault),
        }
    }

    /// The size and the plan of the bus.
    pub fn plan(&self) -> &Feasible
        ensures { result.now ≡ self.now.timetable }
    {
        &self.plan
    }

    /// The node whose log it is, which is one of the bus.
    pub fn node(&self) -> NodeName
        ensures value { result ≡ self.now.node }
        ensures inside { IsNodeOf self.now.timetable.sizes result }
    {
        self.node
    }

    /// The next event. None exactly after the last.
    pub fn next(&mut self) -> Option<LogEvent<'a>>
        ensures event { option_map shown result ≡ slice_get self.old.events 0 }
        ensures rest { self.new.events ≡ drop 1 self.old.events }
        ensures timetable { self.new.timetable ≡ self.old.timetable }
        ensures node { self.new.node ≡ self.old.node }
    {
        self.cursor.next()
    }

    /// Passes the ticks with word 0 that are in a row at the front of the events, at most `most` of
    /// them, and gives their number. It costs one step for each record, however many ticks the
    /// record tells of.
    pub fn skip(&mut self, most: u64) -> u64
        ensures value { result ≡ min most (quiet_in_front self.old.events) }
        ensures passed { self.old.events ≡ replicate result (Tick 0) ++ self.new.events }
        ensures timetable { self.new.timetable ≡ self.old.timetable }
        ensures node { self.new.node ≡ self.old.node }
    {
        self.cursor.skip(most)
    }
}
