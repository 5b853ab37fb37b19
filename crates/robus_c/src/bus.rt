//! `robus` over bytes in memory.
ghost use Rattle.std.specs.Prelude.{◌≡◌, false, [], map, string_bytes, IfOk};
ghost use Rattle.robus_c.specs.Bus.{Says};

use crate::program::Program;
use crate::sink::HeldSink;
use crate::source::SliceSource;
use rb_group::{Voters, voters};
use rb_port::{Apps, applications};
use rb_top::run_robus;
use rb_world::FirstDrive;
use std::alloc::{AllocError, Global};

/// `robus`.
pub(crate) struct Robus;

// The top call over these bytes, into an empty sink.
fn run_over(
    alloc: Global,
    words: &[String],
    input: &[u8],
    sink: &mut HeldSink,
    apps: &Apps,
    voters: &Voters,
) -> u8
    requires { sink.old ≡ record { bytes = []; failed = false } }
    ensures { sink.new.failed ≡ false
        → Says (map string_bytes words.now) input.now sink.new.bytes result }
{
    let mut source = SliceSource::new(input);
    let mut drive = FirstDrive::new();
    let status = run_robus(alloc, words, &mut source, sink, apps, &mut drive, voters);
    status.number()
}

// The call with the two voters, or an error if there is no memory for them.
fn run_with(
    alloc: Global,
    words: &[String],
    input: &[u8],
    sink: &mut HeldSink,
    apps: &Apps,
) -> Result<u8, AllocError>
    requires { sink.old ≡ record { bytes = []; failed = false } }
    ensures { IfOk result (λ number. sink.new.failed ≡ false
        → Says (map string_bytes words.now) input.now sink.new.bytes number) }
{
    let voters = voters!(alloc);
    Ok(run_over(alloc, words, input, sink, apps, &voters))
}

impl Program for Robus {
    ghost says = { Says };

    fn run(
        alloc: Global,
        words: &[String],
        input: &[u8],
        sink: &mut HeldSink,
    ) -> Result<u8, AllocError> {
        let apps = applications!(alloc);
        run_with(alloc, words, input, sink, &apps)
    }
}
