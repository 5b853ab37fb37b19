//! The program: `run_bridge` over standard input and standard output, with the three applications
//! and a plain drive for each bus. It ends with the number of the status.
#![tactic(auto)]

use rb_bridge_top::run_bridge;
use rb_outside::{StdSink, StdSource};
use rb_port::{Apps, applications};
use rb_world::FirstDrive;
use std::alloc::AllocError;
use std::io::ErrorKind;
use std::process::ExitCode;
use std::{env, io};

/// The status if there is no memory for an application or the text of an argument.
const NO_MEMORY: u8 = 7;

/// The status if the arguments could not be read, for example because one is not UTF-8.
const NO_ARGUMENTS: u8 = 8;

/// The arguments without the program's own name, or the status to end with.
fn arguments(rt: &HostRuntime) -> Result<Vec<String>, u8> {
    let arguments = match env::args(rt) {
        Ok(arguments) => arguments,
        Err(error) => {
            return Err(match error.kind() {
                ErrorKind::OutOfMemory => NO_MEMORY,
                _ => NO_ARGUMENTS,
            });
        }
    };
    arguments.skip(1).collect(rt.alloc()).map_err(|_| NO_MEMORY)
}

/// The top call with the words and these applications.
fn serve_with(rt: &HostRuntime, words: &[String], apps: &Apps) -> u8 {
    let mut input = StdSource::new(rt.reader());
    let mut output = StdSink::new(io::writer(rt));
    let mut left = FirstDrive::new();
    let mut right = FirstDrive::new();
    let status = run_bridge(
        rt.alloc(),
        words,
        &mut input,
        &mut output,
        apps,
        &mut left,
        &mut right,
    );
    status as u8
}

/// The top call with the words, or an error if there is no memory for the applications.
fn serve(rt: &HostRuntime, words: &[String]) -> Result<u8, AllocError> {
    let alloc = rt.alloc();
    let apps = applications!(alloc);
    Ok(serve_with(rt, words, &apps))
}

fn main(rt: HostRuntime) -> ExitCode {
    let words = match arguments(&rt) {
        Ok(words) => words,
        Err(status) => return ExitCode::from(status),
    };
    match serve(&rt, &words) {
        Ok(status) => ExitCode::from(status),
        Err(_) => ExitCode::from(NO_MEMORY),
    }
}
