//! What a source and a sink of bytes promise.
ghost use Rattle.std.specs.Prelude.{ℕ, List, Option};
ghost use Rattle.std.specs.Io.{ReadsAtMost, WritesAtMost};
ghost use Rattle.std.specs.Io.KnownBytes.{ReadConsumes, WriteAppends};
ghost use Rattle.rb_outside.specs.Causes.{HasCause, TakesSome};

/// A call of a source or a sink failed. The source or sink has counted it.
#[derive(Clone, Copy, Debug, PartialEq, Eq)]
pub struct Failed;

/// Bytes that come in, in order.
pub trait Source {
    /// The bytes still to come, if the source tells them.
    ghost left: { Self → Option (List ℕ) };

    /// How many calls have failed, up to 2^64-1.
    ghost faults: { Self → ℕ };

    /// Gives the next bytes. `Ok(n)` put n bytes, at most the slice's length, at the front of
    /// `into`; `Ok(0)` for a slice that is not empty is the end of the input. `Failed` is the
    /// answer only if the count of faults rose or is at 2^64-1, and nothing was given. The count
    /// never falls.
    fn read(&mut self, into: &mut [u8]) -> Result<usize, Failed>
        ensures bound { ReadsAtMost result into.new }
        ensures bytes { ReadConsumes (left self.old) (left self.new) result into.new }
        ensures cause { HasCause (faults self.old) (faults self.new) result };
}

/// Bytes that go out, in order.
pub trait Sink {
    /// The bytes accepted so far, if the sink tells them.
    ghost held: { Self → Option (List ℕ) };

    /// How many calls have failed, up to 2^64-1.
    ghost faults: { Self → ℕ };

    /// Accepts bytes. `Ok(n)` means that the first n bytes of `from` were accepted, and at least
    /// one if there is one. `Failed` is the answer only if the count of faults rose or is at
    /// 2^64-1, and nothing was accepted. The count never falls.
    fn write(&mut self, from: &[u8]) -> Result<usize, Failed>
        ensures bound { WritesAtMost result from.now }
        ensures bytes { WriteAppends (held self.old) (held self.new) result from.now }
        ensures some { TakesSome result from.now }
        ensures cause { HasCause (faults self.old) (faults self.new) result };
}
