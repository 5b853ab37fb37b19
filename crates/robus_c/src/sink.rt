//! A sink over memory that grows.
ghost use Rattle.std.specs.Prelude.{◌≡◌, true, false, [], length, take, Some, IfOk, IsErr};
ghost use Rattle.std.specs.Io.{WritesAtMost};
ghost use Rattle.std.specs.Io.KnownBytes.{WriteAppends};
ghost use Rattle.rb_outside.specs.Causes.{HasCause, TakesSome};
ghost use Rattle.robus_c.specs.Held.{faults_of};

use rb_base::OutOfMemory;
use rb_outside::{Failed, Sink};
use std::alloc::Global;
use std::marker::Model;

/// A sink that holds all the bytes it is given. A call fails if there is no memory for more of
/// them; the sink then knows that one has failed.
#[derive(Drop)]
pub struct HeldSink {
    bytes: Vec<u8>,
    failed: bool,
}

impl Model for HeldSink {
    ghost use Rattle.robus_c.specs.Held.{Held};

    ghost Value = { Held };

    ghost view = { λ s. record { bytes = s.bytes.items; failed = s.failed } };
}

impl HeldSink {
    /// An empty sink. It takes memory for `room` bytes at once.
    pub fn new(alloc: Global, room: usize) -> Result<HeldSink, OutOfMemory>
        ensures { IfOk result (λ s. s ≡ record { bytes = []; failed = false }) }
    {
        let bytes = Vec::with_capacity(alloc, room)?;
        Ok(HeldSink {
            bytes,
            failed: false,
        })
    }

    /// The bytes taken.
    pub fn bytes(&self) -> &[u8]
        ensures { result.now ≡ self.now.bytes }
    {
        self.bytes.as_slice()
    }

    /// Whether a call has failed.
    pub fn has_failed(&self) -> bool
        ensures { result ≡ self.now.failed }
    {
        self.failed
    }
}

impl Sink for HeldSink {
    ghost held = { λ s. Some s.bytes };

    ghost faults = { faults_of };

    fn write(&mut self, from: &[u8]) -> Result<usize, Failed>
        ensures bound { WritesAtMost result from.now }
        ensures bytes { WriteAppends (Some self.old.bytes) (Some self.new.bytes) result from.now }
        ensures some { TakesSome result from.now }
        ensures cause { HasCause (faults_of self.old) (faults_of self.new) result }
        ensures all { IfOk result (λ n. n ≡ length from.now) }
        ensures failed { IsErr result → self.new.failed ≡ true }
    {
        match self.bytes.extend_from_slice(from) {
            Ok(()) => Ok(from.len()),
            Err(_) => {
                self.failed = true;
                Err(Failed)
            }
        }
    }
}
