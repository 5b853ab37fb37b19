//! Sinks in memory.
ghost use Rattle.std.specs.Prelude.{◌≡◌, ◌-◌, ◌<◌, ◌≤◌, ◌⊎◌, ◌↔◌, [], ◌++◌, length, take, min, Some, is_err, IsErr, IsTrue, IfOk};
ghost use Rattle.std.specs.Io.{WritesAtMost};
ghost use Rattle.std.specs.Io.KnownBytes.{WriteAppends};
ghost use Rattle.rb_outside.specs.Causes.{HasCause, TakesSome};
ghost use Rattle.rb_outside.specs.Memory.{HasNoRoom, IsNextListed, after_call, no_calls};

use crate::script::Script;
use crate::traits::{Failed, Sink};
use rb_base::OutOfMemory;
use std::alloc::Global;
use std::marker::Model;

/// Bytes with room for more, all of it taken from memory at the start.
#[derive(Drop)]
struct Store {
    bytes: Vec<u8>,
    room: usize,
}

impl Model for Store {
    ghost use Rattle.std.specs.Prelude.{◌≤◌, length, vec_capacity};
    ghost use Rattle.rb_outside.specs.Memory.{Room};

    ghost Value = { Room };

    ghost view = { λ s. record { held = s.bytes.items; room = s.room } };

    ghost invariant = { λ s. (length s.bytes.items ≤ s.room) × (s.room ≤ vec_capacity s.bytes) };
}

impl Store {
    fn new(alloc: Global, room: usize) -> Result<Store, OutOfMemory>
        ensures { IfOk result (λ s. s ≡ record { held = []; room = room }) }
    {
        let bytes = Vec::with_capacity(alloc, room)?;
        Ok(Store { bytes, room })
    }

    fn bytes(&self) -> &[u8]
        ensures { result.now ≡ self.now.held }
    {
        self.bytes.as_slice()
    }

    fn is_full(&self) -> bool
        ensures { IsTrue result ↔ (self.now.room ≤ length self.now.held) }
    {
        self.bytes.len() >= self.room
    }

    /// Takes as many bytes as there is room for.
    fn take(&mut self, from: &[u8]) -> usize
        ensures amount { result ≡ min (length from.now) (self.old.room - length self.old.held) }
        ensures after { self.new ≡ record {
          held = self.old.held ++ take result from.now;
          room = self.old.room;
        } }
    {
        let n = from.len().min(self.room - self.bytes.len());
        let _ = self.bytes.extend_from_slice(&from[..n]);
        n
    }
}

/// A sink in memory. It takes as many bytes as it has room for. Those of its calls fail whose
/// numbers, from 1, are listed, and those that bring bytes when the room is used up; a call after
/// call 2^64-1 has no number.
#[derive(Drop)]
pub struct MemSink {
    store: Store,
    script: Script,
}

impl Model for MemSink {
    ghost use Rattle.rb_outside.specs.Memory.{Output};

    ghost Value = { Output };

    ghost view = { λ s. record { held = s.store.held; room = s.store.room; calls = s.script } };
}

impl MemSink {
    /// An empty sink with room for `room` bytes, of whose calls the listed ones fail.
    pub fn new(alloc: Global, room: usize, failing: Vec<u64>) -> Result<MemSink, OutOfMemory>
        ensures { IfOk result (λ s. s ≡ record {
          held = [];
          room = room;
          calls = no_calls failing.items;
        }) }
    {
        let store = Store::new(alloc, room)?;
        let script = Script::new(failing);
        Ok(MemSink { store, script })
    }

    /// The bytes taken.
    pub fn bytes(&self) -> &[u8]
        ensures { result.now ≡ self.now.held }
    {
        self.store.bytes()
    }

    /// The number of calls had, failed ones among them. It stops at 2^64-1.
    pub fn calls(&self) -> u64
        ensures { result ≡ self.now.calls.had }
    {
        self.script.had()
    }
}

impl Sink for MemSink {
    ghost held = { λ s. Some s.held };

    ghost faults = { λ s. s.calls.faults };

    fn write(&mut self, from: &[u8]) -> Result<usize, Failed>
        ensures bound { WritesAtMost result from.now }
        ensures bytes { WriteAppends (Some self.old.held) (Some self.new.held) result from.now }
        ensures some { TakesSome result from.now }
        ensures cause { HasCause self.old.calls.faults self.new.calls.faults result }
        ensures fails { IsErr result
            ↔ (IsNextListed self.old.calls ⊎ HasNoRoom self.old.held self.old.room from.now) }
        ensures amount { IfOk result (λ n.
            n ≡ min (length from.now) (self.old.room - length self.old.held)) }
        ensures calls { self.new.calls ≡ after_call (is_err result) self.old.calls }
        ensures room { self.new.room ≡ self.old.room }
    {
        let is_listed = self.script.begin_call();
        if is_listed || (self.store.is_full() && !from.is_empty()) {
            return Err(self.script.fail());
        }
        Ok(self.store.take(from))
    }
}

/// A sink as `MemSink`, which takes at most `step` bytes a call.
#[derive(Drop)]
pub struct ShortSink {
    store: Store,
    step: usize,
    script: Script,
}

impl Model for ShortSink {
    ghost use Rattle.std.specs.Prelude.{◌<◌};
    ghost use Rattle.rb_outside.specs.Memory.{ShortOutput};

    ghost Value = { ShortOutput };

    ghost view = { λ s. record {
      step = s.step;
      held = s.store.held;
      room = s.store.room;
      calls = s.script;
    } };

    ghost invariant = { λ s. 0 < s.step };
}

impl ShortSink {
    /// An empty sink with room for `room` bytes, which accepts at most `step` of them in a call,
    /// and of whose calls the listed ones fail.
    pub fn new(
        alloc: Global,
        room: usize,
        step: usize,
        failing: Vec<u64>,
    ) -> Result<ShortSink, OutOfMemory>
        requires { 0 < step }
        ensures { IfOk result (λ s. s ≡ record {
          step = step;
          held = [];
          room = room;
          calls = no_calls failing.items;
        }) }
    {
        let store = Store::new(alloc, room)?;
        let script = Script::new(failing);
        Ok(ShortSink {
            store,
            step,
            script,
        })
    }

    /// The bytes taken.
    pub fn bytes(&self) -> &[u8]
        ensures { result.now ≡ self.now.held }
    {
        self.store.bytes()
    }

    /// The number of calls had, failed ones among them. It stops at 2^64-1.
    pub fn calls(&self) -> u64
        ensures { result ≡ self.now.calls.had }
    {
        self.script.had()
    }
}

impl Sink for ShortSink {
    ghost held = { λ s. Some s.held };

    ghost faults = { λ s. s.calls.faults };

    fn write(&mut self, from: &[u8]) -> Result<usize, Failed>
        ensures bound { WritesAtMost result from.now }
        ensures bytes { WriteAppends (Some self.old.held) (Some self.new.held) result from.now }
        ensures some { TakesSome result from.now }
        ensures cause { HasCause self.old.calls.faults self.new.calls.faults result }
        ensures fails { IsErr result
            ↔ (IsNextListed self.old.calls ⊎ HasNoRoom self.old.held self.old.room from.now) }
        ensures amount { IfOk result (λ n. n
            ≡ min (min (length from.now) self.old.step) (self.old.room - length self.old.held)) }
        ensures calls { self.new.calls ≡ after_call (is_err result) self.old.calls }
        ensures settings { (self.new.room ≡ self.old.room) × (self.new.step ≡ self.old.step) }
    {
        let is_listed = self.script.begin_call();
        if is_listed || (self.store.is_full() && !from.is_empty()) {
            return Err(self.script.fail());
        }
        let most = from.len().min(self.step);
        Ok(self.store.take(&from[..most]))
    }
}
