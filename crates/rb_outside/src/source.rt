//! Sources in memory.
ghost use Rattle.std.specs.Prelude.{◌≡◌, ◌<◌, ◌↔◌, length, take, drop, min, Some, is_err, IsErr, IsOk, IfOk};
ghost use Rattle.std.specs.Io.{ReadsAtMost};
ghost use Rattle.std.specs.Io.KnownBytes.{ReadConsumes};
ghost use Rattle.rb_outside.specs.Causes.{HasCause};
ghost use Rattle.rb_outside.specs.Memory.{IsNextListed, after_call, no_calls};

use crate::script::Script;
use crate::traits::{Failed, Source};
use std::marker::Model;

/// Bytes, of which a first part has been given.
#[derive(Drop)]
struct Supply {
    bytes: Vec<u8>,
    given: usize,
}

impl Model for Supply {
    ghost use Rattle.std.specs.Prelude.{ℕ, ◌≤◌, List, length, drop};

    ghost Value = { List ℕ };

    ghost view = { λ s. drop s.given s.bytes.items };

    ghost invariant = { λ s. s.given ≤ length s.bytes.items };
}

impl Supply {
    fn new(bytes: Vec<u8>) -> Supply
        ensures { result ≡ bytes.items }
    {
        Supply { bytes, given: 0 }
    }

    /// Gives as many bytes as there are and as fit.
    fn give(&mut self, into: &mut [u8]) -> usize
        ensures amount { result ≡ min (length into.old) (length self.old) }
        ensures given { take result into.new ≡ take result self.old }
        ensures rest { self.new ≡ drop result self.old }
    {
        let left = &self.bytes[self.given..];
        let n = left.len().min(into.len());
        into[..n].copy_from_slice(&left[..n]);
        self.given += n;
        n
    }
}

/// A source over bytes in memory. It gives as many bytes as there are and as fit. Those of its
/// calls fail whose numbers, from 1, are listed, and no others; a call after call 2^64-1 has no
/// number.
#[derive(Drop)]
pub struct MemSource {
    supply: Supply,
    script: Script,
}

impl Model for MemSource {
    ghost use Rattle.rb_outside.specs.Memory.{Input};

    ghost Value = { Input };

    ghost view = { λ s. record { left = s.supply; calls = s.script } };
}

impl MemSource {
    /// A source of these bytes, of whose calls the listed ones fail.
    pub fn new(bytes: Vec<u8>, failing: Vec<u64>) -> MemSource
        ensures { result ≡ record { left = bytes.items; calls = no_calls failing.items } }
    {
        MemSource {
            supply: Supply::new(bytes),
            script: Script::new(failing),
        }
    }
}

impl Source for MemSource {
    ghost left = { λ s. Some s.left };

    ghost faults = { λ s. s.calls.faults };

    fn read(&mut self, into: &mut [u8]) -> Result<usize, Failed>
        ensures bound { ReadsAtMost result into.new }
        ensures bytes { ReadConsumes (Some self.old.left) (Some self.new.left) result into.new }
        ensures cause { HasCause self.old.calls.faults self.new.calls.faults result }
        ensures fails { IsErr result ↔ IsNextListed self.old.calls }
        ensures amount { IfOk result (λ n. n ≡ min (length into.old) (length self.old.left)) }
        ensures calls { self.new.calls ≡ after_call (is_err result) self.old.calls }
    {
        if self.script.begin_call() {
            return Err(self.script.fail());
        }
        let given = self.supply.give(into);
        Ok(given)
    }
}

/// A source as `MemSource`, which gives at most `step` bytes a call.
#[derive(Drop)]
pub struct ShortSource {
    supply: Supply,
    step: usize,
    script: Script,
}

impl Model for ShortSource {
    ghost use Rattle.std.specs.Prelude.{◌<◌};
    ghost use Rattle.rb_outside.specs.Memory.{ShortInput};

    ghost Value = { ShortInput };

    ghost view = { λ s. record { step = s.step; left = s.supply; calls = s.script } };

    ghost invariant = { λ s. 0 < s.step };
}

impl ShortSource {
    /// A source of these bytes, at most `step` of them a call, of whose calls the listed ones fail.
    pub fn new(bytes: Vec<u8>, step: usize, failing: Vec<u64>) -> ShortSource
        requires { 0 < step }
        ensures { result ≡ record {
          step = step;
          left = bytes.items;
          calls = no_calls failing.items;
        } }
    {
        ShortSource {
            supply: Supply::new(bytes),
            step,
            script: Script::new(failing),
        }
    }
}

impl Source for ShortSource {
    ghost left = { λ s. Some s.left };

    ghost faults = { λ s. s.calls.faults };

    fn read(&mut self, into: &mut [u8]) -> Result<usize, Failed>
        ensures bound { ReadsAtMost result into.new }
        ensures bytes { ReadConsumes (Some self.old.left) (Some self.new.left) result into.new }
        ensures cause { HasCause self.old.calls.faults self.new.calls.faults result }
        ensures fails { IsErr result ↔ IsNextListed self.old.calls }
        ensures amount { IfOk result (λ n.
            n ≡ min (min (length into.old) self.old.step) (length self.old.left)) }
        ensures calls { self.new.calls ≡ after_call (is_err result) self.old.calls }
        ensures step { self.new.step ≡ self.old.step }
    {
        if self.script.begin_call() {
            return Err(self.script.fail());
        }
        let most = into.len().min(self.step);
        Ok(self.supply.give(&mut into[..most]))
    }
}

/// A source over bytes in memory that never fails.
#[derive(Drop)]
pub struct PlainSource {
    supply: Supply,
}

impl Model for PlainSource {
    ghost use Rattle.std.specs.Prelude.{ℕ, List};

    ghost Value = { List ℕ };

    ghost view = { λ s. s.supply };
}

impl PlainSource {
    /// A source of these bytes.
    pub fn new(bytes: Vec<u8>) -> PlainSource
        ensures { result ≡ bytes.items }
    {
        PlainSource {
            supply: Supply::new(bytes),
        }
    }
}

impl Source for PlainSource {
    ghost left = { λ s. Some s };

    ghost faults = { λ _. 0 };

    fn read(&mut self, into: &mut [u8]) -> Result<usize, Failed>
        ensures bound { ReadsAtMost result into.new }
        ensures bytes { ReadConsumes (Some self.old) (Some self.new) result into.new }
        ensures cause { HasCause 0 0 result }
        ensures never_fails { IsOk result }
        ensures amount { IfOk result (λ n. n ≡ min (length into.old) (length self.old)) }
    {
        Ok(self.supply.give(into))
    }
}
