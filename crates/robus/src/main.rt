//! The program: `run_robus` over standard input and standard output, with the three applications,
//! the two voters and a plain drive. It ends with the number of the status.
#![tactic(auto)]

use rb_group::voters;
use rb_outside::{StdSink, StdSource};
use rb_port::{Apps, applications};
use rb_top::run_robus;
use rb_world::FirstDrive;
use std::alloc::AllocError;
use std::io::ErrorKind;
use std::process::ExitCode;
use std::{env, io};

/// The status if there is no memory for an application, a voter or the text of an argument.
const NO_MEMORY: u8 = 7;

/// The status if the arguments could not be read, for example because one is not UTF-8.
const NO_ARGUMENTS: u8 = 8;

/// The arguments without the program's own name, or the status to end with.
fn arguments(rt: &HostRuntime) -> Result<Vec<String>, u8> {
    let arguments = match env::args(rt) {
        Ok(arguments) => arguments,
        Err(error) => {
            return Err(match error.kind() {
                ErrorKind::OutOfMemory => NO_MEMORY,
                _ => NO_ARGUMENTS,
            });
        }
    };
    arguments.skip(1).collect(rt.alloc()).map_err(|_| NO_MEMORY)
}

/// The top call with the words and these applications, or an error if there is no memory for the
/// voters.
fn serve_with(rt: &HostRuntime, words: &[String], apps: &Apps) -> Result<u8, AllocError> {
    let alloc = rt.alloc();
    let voters = voters!(alloc);
    let mut input = StdSource::new(rt.reader());
    let mut output = StdSink::new(io::writer(rt));
    let mut drive = FirstDrive::new();
    let status = run_robus(
        alloc,
        words,
        &mut input,
        &mut output,
        apps,
        &mut drive,
        &voters,
    );
    Ok(status as u8)
}

/// The top call with the words, or an error if there is no memory for the applications or the
/// voters.
fn serve(rt: &HostRuntime, words: &[String]) -> Result<u8, AllocError> {
    let alloc = rt.alloc();
    let apps = applications!(alloc);
    serve_with(rt, words, &apps)
}

fn main(rt: HostRuntime) -> ExitCode {
    let words = match arguments(&rt) {
        Ok(words) => words,
        Err(status) => return ExitCode::from(status),
    };
    match serve(&rt, &words) {
        Ok(status) => ExitCode::from(status),
        Err(_) => ExitCode::from(NO_MEMORY),
    }
}
