//! The program: `draw` over standard input and standard output. It ends with the number of the
//! status.
#![tactic(auto)]

use rb_outside::{StdSink, StdSource};
use rb_picture::draw::draw;
use std::io::ErrorKind;
use std::process::ExitCode;
use std::{env, io};

/// The status if there is no memory for the text of an argument.
const NO_MEMORY: u8 = 7;

/// The status if the arguments could not be read, for example because one is not UTF-8.
const NO_ARGUMENTS: u8 = 8;

/// The arguments without the program's own name, or the status to end with.
fn arguments(rt: &HostRuntime) -> Result<Vec<String>, u8> {
    let arguments = match env::args(rt) {
        Ok(arguments) => arguments,
        Err(error) => {
            return Err(match error.kind() {
                ErrorKind::OutOfMemory => NO_MEMORY,
                _ => NO_ARGUMENTS,
            });
        }
    };
    arguments.skip(1).collect(rt.alloc()).map_err(|_| NO_MEMORY)
}

fn main(rt: HostRuntime) -> ExitCode {
    let words = match arguments(&rt) {
        Ok(words) => words,
        Err(status) => return ExitCode::from(status),
    };
    let mut input = StdSource::new(rt.reader());
    let mut output = StdSink::new(io::writer(&rt));
    ExitCode::from(draw(rt.alloc(), &words, &mut input, &mut output) as u8)
}
