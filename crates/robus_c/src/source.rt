//! A source over bytes in memory.
ghost use Rattle.std.specs.Prelude.{◌≡◌, length, take, drop, min, Some, Ok};
ghost use Rattle.std.specs.Io.{ReadsAtMost};
ghost use Rattle.std.specs.Io.KnownBytes.{ReadConsumes};
ghost use Rattle.rb_outside.specs.Causes.{HasCause};

use rb_outside::{Failed, Source};
use std::marker::Model;

/// A source over bytes in memory, of which a first part has been given. It gives as many bytes as
/// there are and as fit, and never fails.
#[derive(Drop)]
pub struct SliceSource<'a> {
    bytes: &'a [u8],
    given: usize,
}

impl<'a> Model for SliceSource<'a> {
    ghost use Rattle.std.specs.Prelude.{ℕ, ◌≤◌, List, length, drop};

    ghost Value = { List ℕ };

    ghost view = { λ s. drop s.given s.bytes.now };

    ghost invariant = { λ s. s.given ≤ length s.bytes.now };
}

impl<'a> SliceSource<'a> {
    /// A source of all these bytes.
    pub fn new(bytes: &'a [u8]) -> SliceSource<'a>
        ensures { result ≡ bytes.now }
    {
        SliceSource { bytes, given: 0 }
    }

    // Gives as many bytes as there are and as fit.
    fn give(&mut self, into: &mut [u8]) -> usize
        ensures amount { result ≡ min (length into.old) (length self.old) }
        ensures given { take result into.new ≡ take result self.old }
        ensures rest { self.new ≡ drop result self.old }
    {
        let left = &self.bytes[self.given..];
        let n = left.len().min(into.len());
        into[..n].copy_from_slice(&left[..n]);
        self.given += n;
        n
    }
}

impl Source for SliceSource<'_> {
    ghost left = { λ s. Some s };

    ghost faults = { λ _. 0 };

    fn read(&mut self, into: &mut [u8]) -> Result<usize, Failed>
        ensures bound { ReadsAtMost result into.new }
        ensures bytes { ReadConsumes (Some self.old) (Some self.new) result into.new }
        ensures cause { HasCause 0 0 result }
        ensures amount { result ≡ Ok (min (length into.old) (length self.old)) }
    {
        Ok(self.give(into))
    }
}
