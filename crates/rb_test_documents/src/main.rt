//! Does what each line of `runs.txt` asks, and writes the line, its result, and the status of each
//! call. The inputs and the outputs that are wanted come from an independent model.
//!
//! A line has the words of robus and the file of its input, or `-` for an input that cannot be
//! read. Words of robus_bridge follow `bridge`, and those of robus_picture follow `picture`. There
//! may be several steps with `then` between them, of which each is given what the one before it
//! wrote. Some change bytes: `cut N` leaves the first N, `put PLACE BYTE` sets the byte at a place,
//! or adds it at the end, `hex` spells them in digits, and `spaces N` takes N spaces in their
//! place. A line that begins with `#` says what the lines below it try.
//!
//! Three prefixes say how robus is called, and what is counted is then in brackets behind the
//! status. With `failing R W` the read and the write with these numbers fail, from 1 on, and the
//! writes are counted. With `pieces N R` no read or write moves more than N bytes, the read with
//! number R fails, and the writes are counted. With `keeping N 0` a drive keeps the first N
//! records, of which those that it keeps are counted, and with `keeping N 1` it hides what was
//! delivered.
//!
//! Of a document `last` and `seeded SEED` say how many records its run has, if they are the same
//! whether the first event that is due is taken or the last one, or one that is drawn; `numbers`
//! says its four numbers. `events N` takes N events, each the first that is due, and says of each
//! how many were due, which it is, and the number of the frame whose record comes with it. `hand N`
//! hands B0 the state N as frame 1 begins, and says which records change then, behind their
//! numbers.
#![tactic(auto)]

mod answers;
mod choices;
mod events;
mod steps;

use answers::{Answerer, End};
use rb_group::voters;
use rb_port::applications;
use std::alloc::{AllocError, Global};
use std::io::Write;
use std::{fs, io};
use steps::{Step, changed, step_of};

// What is in the file, if the name is one.
fn input_in(rt: &HostRuntime, file: &str) -> io::Result<Option<Vec<u8>>> {
    if file == "-" {
        return Ok(None);
    }
    Ok(Some(fs::read(rt, file)?))
}

// How a call ended, behind a space.
fn end_text(alloc: Global, (status, counted): End) -> Result<String, AllocError> {
    match counted {
        Some(count) => format!(in alloc; " {status} ({count})"),
        None => format!(in alloc; " {status}"),
    }
}

// Takes the steps with the input in the file.
fn try_steps(rt: &HostRuntime, answerer: &Answerer, steps: &str, file: &str) -> anyhow::Result<()> {
    let alloc = rt.alloc();
    let mut input = input_in(rt, file)?;
    let mut statuses = String::new(alloc);
    for text in steps.split(" then ") {
        let written = match step_of(text) {
            Step::Call(way, words) => {
                let answer = answerer.answer(alloc, way, words, input)?;
                statuses.push_str(&end_text(alloc, answer.end)?)?;
                answer.bytes
            }
            change => {
                let bytes = input.unwrap_or(Vec::new(alloc));
                changed(alloc, &answerer.apps, bytes, change)?
            }
        };
        input = Some(written);
    }
    if let Some(bytes) = input {
        io::writer(rt).write_all(&bytes)?;
    }
    println!(rt; "status{statuses}")?;
    Ok(())
}

fn main(rt: HostRuntime) -> anyhow::Result<()> {
    let alloc = rt.alloc();
    let apps = applications!(alloc);
    let voters = voters!(alloc);
    let answerer = Answerer { apps, voters };
    for line in fs::read_to_string(&rt, "runs.txt")?.lines() {
        println!(rt; "{line}")?;
        if line.starts_with('#') {
            continue;
        }
        if let Some((steps, file)) = line.rsplit_once(' ') {
            try_steps(&rt, &answerer, steps, file)?;
        }
    }
    Ok(())
}
