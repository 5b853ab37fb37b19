//! Reading all that a source has left, within a limit.
ghost use Rattle.std.specs.Prelude.{◌<◌, ◌≤◌, ◌^◌, IfOk, IfErr};
ghost use Rattle.rb_outside.specs.Bytes.{Gave, ReadsToEnd};
ghost use Rattle.rb_program.specs.Outside.{IsUnreadOver};
ghost use Rattle.rb_program.specs.Statuses.{IsNotRead};
ghost use Rattle.rb_run.specs.Seen.{source_over};

use crate::status::Status;
use rb_outside::{Source, Unread, read_all};
use std::alloc::Global;

/// The bytes that the source has left, or the answer if there are more than `limit` or they cannot
/// be had: `TooLong`, `ReadFault` or `OutOfMemory`.
pub fn read_within<S: Source>(alloc: Global, input: &mut S, limit: usize) -> Result<Vec<u8>, Status>
    requires { limit < 2 ^ 32 }
    ensures whole { IfOk result (λ v. ReadsToEnd (S.left input.old) (S.left input.new) v.items) }
    ensures short_enough { IfOk result
        (λ _. Gave (S.left input.old) (S.left input.new) (λ n. n ≤ limit)) }
    ensures unread { IfErr result (λ status. IsUnreadOver limit status
        (source_over S.left S.faults input.old input.new)) }
    ensures one_of { IfErr result IsNotRead }
{
    match read_all(alloc, input, limit) {
        Ok(bytes) => Ok(bytes),
        Err(Unread::TooLong) => Err(Status::TooLong),
        Err(Unread::Fault) => Err(Status::ReadFault),
        Err(Unread::OutOfMemory) => Err(Status::OutOfMemory),
    }
}
