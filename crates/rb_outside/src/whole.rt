//! All of some bytes out, and all of the input in.
ghost use Rattle.std.specs.Prelude.{◌^◌, ◌<◌};
ghost use Rattle.rb_outside.specs.Reading.{ReadsWithin};
ghost use Rattle.rb_outside.specs.Writing.{Writes};

use crate::traits::{Failed, Sink, Source};
use arrayvec::ArrayString;
use std::alloc::Global;

/// Writes all the bytes, each call asking for the rest of them. At a fault a first part of them has
/// been taken.
#[tactic(auto, using(crate::proofs::Known::part_of_taken))]
pub fn write_all<K: Sink>(output: &mut K, bytes: &[u8]) -> Result<(), Failed>
    ensures { Writes K.held K.faults output.old output.new result bytes.now }
{
    let mut at = 0;
    while at < bytes.len() {
        at += output.write(&bytes[at..])?;
    }
    Ok(())
}

/// Writes all bytes of the line. `Failed` is the answer only if the sink failed; a first part has
/// then been taken.
pub fn write_line<K: Sink, const N: usize>(
    output: &mut K,
    line: &ArrayString<N>,
) -> Result<(), Failed>
    ensures { Writes K.held K.faults output.old output.new result line.now.bytes }
{
    write_all(output, line.as_str().as_bytes())
}

/// Why the input was not read to its end.
#[derive(Clone, Copy, Debug, PartialEq, Eq)]
pub enum Unread {
    /// The source gave more bytes than the limit.
    TooLong,
    /// The source failed.
    Fault,
    /// An allocation failed.
    OutOfMemory,
}

/// How many bytes are asked for at a time.
const CHUNK: usize = 16_384;

/// Reads until the first of three: a fault, the end of the input, a byte past the limit. Gives all
/// the bytes read, at most `limit` of them.
pub fn read_all<S: Source>(alloc: Global, input: &mut S, limit: usize) -> Result<Vec<u8>, Unread>
    requires { limit < 2 ^ 32 }
    ensures { ReadsWithin S.left S.faults limit input.old input.new result }
{
    let mut bytes = Vec::new(alloc);
    let mut chunk = [0u8; CHUNK];
    'reads: loop {
        let room = (limit - bytes.len() + 1).min(CHUNK);
        let Ok(count) = input.read(&mut chunk[..room]) else {
            return Err(Unread::Fault);
        };
        if count == 0 {
            return Ok(bytes);
        }
        if count > limit - bytes.len() {
            return Err(Unread::TooLong);
        }
        let Ok(()) = bytes.extend_from_slice(&chunk[..count]) else {
            return Err(Unread::OutOfMemory);
        };
    }
}
