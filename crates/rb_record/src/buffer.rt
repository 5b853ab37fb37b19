//! Bytes that wait to be written together.
ghost use Rattle.std.specs.Prelude.{◌≡◌, [], OnErr, OnOk};
ghost use Rattle.std.specs.Io.KnownBytes.{Appends};
ghost use Rattle.rb_outside.specs.Bytes.{AppendsPart};
ghost use Rattle.rb_outside.specs.Causes.{HasCause};
ghost use Rattle.rb_record.specs.Buffering.{PassesOn};

use arrayvec::ArrayVec;
use rb_outside::{Failed, Sink, write_all};
use std::marker::Model;

/// Bytes that wait to be written together, 4,096 at most.
#[derive(Drop)]
pub(crate) struct Buffer {
    bytes: ArrayVec<u8, 4096>,
}

impl Model for Buffer {
    ghost use Rattle.std.specs.Prelude.{ℕ, List};

    ghost Value = { List ℕ };

    ghost view = { λ b. b.bytes.items };
}

impl Buffer {
    /// One in which nothing waits.
    pub(crate) fn new() -> Buffer
        ensures { result ≡ [] }
    {
        Buffer {
            bytes: ArrayVec::new(),
        }
    }

    /// Writes what waits.
    pub(crate) fn flush<K: Sink>(&mut self, output: &mut K) -> Result<(), Failed>
        ensures all { OnOk result (Appends (K.held output.old) (K.held output.new) self.old) }
        ensures empty { OnOk result (self.new ≡ []) }
        ensures part { OnErr result (AppendsPart (K.held output.old) (K.held output.new) self.old) }
        ensures cause { HasCause (K.faults output.old) (K.faults output.new) result }
    {
        write_all(output, self.bytes.as_slice())?;
        self.bytes.clear();
        Ok(())
    }

    /// Puts bytes behind those that wait. If there is no room for them, what waits is written
    /// first.
    pub(crate) fn push<K: Sink>(
        &mut self,
        bytes: &ArrayVec<u8, 64>,
        output: &mut K,
    ) -> Result<(), Failed>
        ensures passes { OnOk result
            (PassesOn self.old self.new bytes.now.items (K.held output.old) (K.held output.new)) }
        ensures part { OnErr result (AppendsPart (K.held output.old) (K.held output.new) self.old) }
        ensures cause { HasCause (K.faults output.old) (K.faults output.new) result }
    {
        if bytes.len() > self.bytes.remaining_capacity() {
            self.flush(output)?;
        }
        let Ok(()) = self.bytes.try_extend_from_slice(bytes.as_slice()) else {
            unreachable!()
        };
        Ok(())
    }
}
