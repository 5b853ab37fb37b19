//! `robus_picture` over bytes in memory.
ghost use Rattle.std.specs.Prelude.{◌≡◌, false, [], map, string_bytes};
ghost use Rattle.robus_c.specs.Picture.{Says, number_of};

use crate::program::Program;
use crate::sink::HeldSink;
use crate::source::SliceSource;
use rb_picture::Status;
use rb_picture::draw::draw;
use std::alloc::{AllocError, Global};

/// `robus_picture`.
pub(crate) struct RobusPicture;

// The number of a status.
fn number_of(status: Status) -> u8
    ensures { result ≡ number_of status }
{
    status as u8
}

// The top call over these bytes, into an empty sink.
fn run_over(alloc: Global, words: &[String], input: &[u8], sink: &mut HeldSink) -> u8
    requires { sink.old ≡ record { bytes = []; failed = false } }
    ensures { sink.new.failed ≡ false
        → Says (map string_bytes words.now) input.now sink.new.bytes result }
{
    let mut source = SliceSource::new(input);
    let status = draw(alloc, words, &mut source, sink);
    number_of(status)
}

impl Program for RobusPicture {
    ghost says = { Says };

    fn run(
        alloc: Global,
        words: &[String],
        input: &[u8],
        sink: &mut HeldSink,
    ) -> Result<u8, AllocError> {
        Ok(run_over(alloc, words, input, sink))
    }
}
