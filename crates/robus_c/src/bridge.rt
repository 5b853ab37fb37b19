//! `robus_bridge` over bytes in memory.
ghost use Rattle.std.specs.Prelude.{◌≡◌, false, [], map, string_bytes};
ghost use Rattle.robus_c.specs.Bridge.{Says};

use crate::program::Program;
use crate::sink::HeldSink;
use crate::source::SliceSource;
use rb_bridge_top::run_bridge;
use rb_port::{Apps, applications};
use rb_world::FirstDrive;
use std::alloc::{AllocError, Global};

/// `robus_bridge`.
pub(crate) struct RobusBridge;

// The top call over these bytes, into an empty sink.
fn run_over(alloc: Global, words: &[String], input: &[u8], sink: &mut HeldSink, apps: &Apps) -> u8
    requires { sink.old ≡ record { bytes = []; failed = false } }
    ensures { sink.new.failed ≡ false
        → Says (map string_bytes words.now) input.now sink.new.bytes result }
{
    let mut source = SliceSource::new(input);
    let mut left = FirstDrive::new();
    let mut right = FirstDrive::new();
    let status = run_bridge(alloc, words, &mut source, sink, apps, &mut left, &mut right);
    status.number()
}

impl Program for RobusBridge {
    ghost says = { Says };

    fn run(
        alloc: Global,
        words: &[String],
        input: &[u8],
        sink: &mut HeldSink,
    ) -> Result<u8, AllocError> {
        let apps = applications!(alloc);
        Ok(run_over(alloc, words, input, sink, &apps))
    }
}
