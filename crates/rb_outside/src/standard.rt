//! The trusted edge: readers and writers of the standard library as sources and sinks.
ghost use Rattle.std.specs.Prelude.{◌≡◌, take, None, is_err, IfOk, OnErr, MatchResult};
ghost use Rattle.std.specs.Io.{ReadsAtMost, WritesAtMost};
ghost use Rattle.std.specs.Io.KnownBytes.{Keeps, Appends, ReadConsumes, WriteAppends};
ghost use Rattle.rb_outside.specs.Causes.{HasCause, TakesSome, faults_after};
ghost use Rattle.rb_outside.specs.Bytes.{AppendsPart};

use crate::faults::Faults;
use crate::traits::{Failed, Sink, Source};
use std::io::{ErrorKind, Read, Write};
use std::marker::Model;

/// One read, made again if a signal interrupts it, with at most 2^64-1 reads in all.
fn read_again<R: Read>(reader: &mut R, into: &mut [u8]) -> Result<usize, Failed>
    ensures bound { ReadsAtMost result into.new }
    ensures bytes { ReadConsumes (R.remaining reader.old) (R.remaining reader.new) result into.new }
{
    for _ in 0..u64::MAX {
        match reader.read(into) {
            Ok(count) => return Ok(count),
            Err(error) if error.kind() == ErrorKind::Interrupted => {}
            Err(_) => break,
        }
    }
    Err(Failed)
}

/// One write, made again if a signal interrupts it, with at most 2^64-1 writes in all.
fn write_again<W: Write>(writer: &mut W, from: &[u8]) -> Result<usize, Failed>
    ensures bound { WritesAtMost result from.now }
    ensures bytes { WriteAppends (W.contents writer.old) (W.contents writer.new) result from.now }
{
    for _ in 0..u64::MAX {
        match writer.write(from) {
            Ok(count) => return Ok(count),
            Err(error) if error.kind() == ErrorKind::Interrupted => {}
            Err(_) => break,
        }
    }
    Err(Failed)
}

/// A flush, made again if a signal interrupts it, with at most 2^64-1 flushes in all.
fn flush_again<W: Write>(writer: &mut W) -> Result<(), Failed>
    ensures { Keeps (W.contents writer.old) (W.contents writer.new) }
{
    for _ in 0..u64::MAX {
        match writer.flush() {
            Ok(()) => return Ok(()),
            Err(error) if error.kind() == ErrorKind::Interrupted => {}
            Err(_) => break,
        }
    }
    Err(Failed)
}

/// One write and then a flush. A writer that takes none of some bytes fails too.
#[tactic(auto, using(crate::proofs::Known::part_of_taken))]
fn write_through<W: Write>(writer: &mut W, from: &[u8]) -> Result<usize, Failed>
    ensures bound { WritesAtMost result from.now }
    ensures some { TakesSome result from.now }
    ensures taken { IfOk result (λ n.
        Appends (W.contents writer.old) (W.contents writer.new) (take n from.now)) }
    ensures part { OnErr result
        (AppendsPart (W.contents writer.old) (W.contents writer.new) from.now) }
{
    let count = write_again(writer, from)?;
    if count == 0 && !from.is_empty() {
        return Err(Failed);
    }
    flush_again(writer)?;
    Ok(count)
}

/// A source over a reader. It does not tell what is left. A read that a signal interrupts is made
/// again, as the standard library does; every other error of the reader is a fault.
#[derive(Drop)]
pub struct StdSource<R: Read> {
    inner: R,
    faults: Faults,
}

impl<R: Read> Model for StdSource<R> {
    ghost use Rattle.rb_outside.specs.Standard.{Edge};

    ghost Value = { Edge R };

    ghost view = { λ s. record { inner = s.inner; faults = s.faults } };
}

impl<R: Read> StdSource<R> {
    /// A source over this reader, with no fault so far.
    pub fn new(inner: R) -> StdSource<R>
        ensures { result ≡ record { inner = inner; faults = 0 } }
    {
        StdSource {
            inner,
            faults: Faults::new(),
        }
    }
}

impl<R: Read> Source for StdSource<R> {
    ghost left = { λ _. None };

    ghost faults = { λ s. s.faults };

    fn read(&mut self, into: &mut [u8]) -> Result<usize, Failed>
        ensures bound { ReadsAtMost result into.new }
        ensures bytes { ReadConsumes None None result into.new }
        ensures cause { HasCause self.old.faults self.new.faults result }
        ensures count { self.new.faults ≡ faults_after (is_err result) self.old.faults }

        // If the reader tells its bytes, these are the ones that come through, in order.
        ensures through { ReadConsumes (R.remaining self.old.inner) (R.remaining self.new.inner)
            result into.new }
    {
        match read_again(&mut self.inner, into) {
            Ok(count) => Ok(count),
            Err(_) => Err(self.faults.add()),
        }
    }
}

/// A sink over a writer. It does not tell what it holds. Each call flushes what it wrote, so no
/// fault is left for the end of the program; after a flush that failed the writer may have passed
/// on a part of the bytes. A write or a flush that a signal interrupts is made again, as the
/// standard library does; every other error of the writer is a fault, and so is a write that takes
/// none of some bytes.
#[derive(Drop)]
pub struct StdSink<W: Write> {
    inner: W,
    faults: Faults,
}

impl<W: Write> Model for StdSink<W> {
    ghost use Rattle.rb_outside.specs.Standard.{Edge};

    ghost Value = { Edge W };

    ghost view = { λ s. record { inner = s.inner; faults = s.faults } };
}

impl<W: Write> StdSink<W> {
    /// A sink over this writer, with no fault so far.
    pub fn new(inner: W) -> StdSink<W>
        ensures { result ≡ record { inner = inner; faults = 0 } }
    {
        StdSink {
            inner,
            faults: Faults::new(),
        }
    }
}

impl<W: Write> Sink for StdSink<W> {
    ghost held = { λ _. None };

    ghost faults = { λ s. s.faults };

    fn write(&mut self, from: &[u8]) -> Result<usize, Failed>
        ensures bound { WritesAtMost result from.now }
        ensures bytes { WriteAppends None None result from.now }
        ensures some { TakesSome result from.now }
        ensures cause { HasCause self.old.faults self.new.faults result }
        ensures count { self.new.faults ≡ faults_after (is_err result) self.old.faults }

        // If the writer tells its bytes, it has those that were taken, and after a fault a part.
        ensures through { MatchResult result
            (λ n. Appends (W.contents self.old.inner) (W.contents self.new.inner) (take n from.now))
            (λ _. AppendsPart (W.contents self.old.inner) (W.contents self.new.inner) from.now) }
    {
        match write_through(&mut self.inner, from) {
            Ok(count) => Ok(count),
            Err(_) => Err(self.faults.add()),
        }
    }
}
