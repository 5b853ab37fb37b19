//! Calls of the programs on bytes in memory.
use crate::steps::Way;
use rb_bridge_top::run_bridge;
use rb_group::Voters;
use rb_outside::{MemSink, MemSource, ShortSink, ShortSource, Sink, Source};
use rb_picture::draw::draw;
use rb_port::Apps;
use rb_top::run_robus;
use rb_world::{Drive, FirstDrive, MemDrive};
use std::alloc::{AllocError, Global};

/// More bytes than any call here writes.
const ROOM: usize = 65536;

/// What the programs are given besides words and input.
#[derive(Drop)]
pub(crate) struct Answerer {
    pub(crate) apps: Apps,
    pub(crate) voters: Voters,
}

/// The number with which a call ends, and what the way of the call counts.
pub(crate) type End = (u8, Option<u64>);

/// How a call ended, and what it wrote.
#[derive(Drop)]
pub(crate) struct Answer {
    pub(crate) end: End,
    pub(crate) bytes: Vec<u8>,
}

// The words of a text, with one space between two of them.
fn words_of(alloc: Global, text: &str) -> Result<Vec<String>, AllocError> {
    let mut words = Vec::new(alloc);
    if !text.is_empty() {
        for word in text.split(' ') {
            words.push(String::from_str(alloc, word)?)?;
        }
    }
    Ok(words)
}

// A sink of which the write with this number fails.
fn sink_of(alloc: Global, write: u64) -> Result<MemSink, AllocError> {
    match MemSink::new(alloc, ROOM, vec![in alloc; write]?) {
        Ok(sink) => Ok(sink),
        Err(_) => Err(AllocError),
    }
}

// An answer with these bytes.
fn answer_of(alloc: Global, end: End, bytes: &[u8]) -> Result<Answer, AllocError> {
    let bytes = bytes.to_vec(alloc)?;
    Ok(Answer { end, bytes })
}

impl Answerer {
    // The number with which robus ends.
    fn robus<S: Source, K: Sink, D: Drive>(
        &self,
        alloc: Global,
        words: &[String],
        input: &mut S,
        output: &mut K,
        drive: &mut D,
    ) -> u8 {
        run_robus(alloc, words, input, output, &self.apps, drive, &self.voters) as u8
    }

    // How robus ends with a drive that keeps `turns` turns, and counts those that it keeps.
    fn keeping(
        &self,
        alloc: Global,
        words: &[String],
        input: &mut MemSource,
        output: &mut MemSink,
        (room, mask): (usize, bool),
    ) -> Result<End, AllocError> {
        let Ok(mut drive) = MemDrive::new(alloc, room, mask) else {
            return Err(AllocError);
        };
        let status = self.robus(alloc, words, input, output, &mut drive);
        Ok((status, Some(drive.turns().len() as u64)))
    }

    // How the call ends.
    fn end_of(
        &self,
        alloc: Global,
        way: Way,
        words: &[String],
        input: &mut MemSource,
        output: &mut MemSink,
    ) -> Result<End, AllocError> {
        let (mut drive, mut other) = (FirstDrive::new(), FirstDrive::new());
        let status = match way {
            Way::Bridge => {
                let apps = &self.apps;
                run_bridge(alloc, words, input, output, apps, &mut drive, &mut other) as u8
            }
            Way::Picture => draw(alloc, words, input, output) as u8,
            Way::Keeping(room, mask) => {
                return self.keeping(alloc, words, input, output, (room, mask));
            }
            _ => self.robus(alloc, words, input, output, &mut drive),
        };
        match way {
            Way::Failing(..) => Ok((status, Some(output.calls()))),
            _ => Ok((status, None)),
        }
    }

    // How the program answers if these calls fail, by their numbers.
    fn in_memory(
        &self,
        alloc: Global,
        way: Way,
        words: &[String],
        input: Vec<u8>,
        (read, write): (u64, u64),
    ) -> Result<Answer, AllocError> {
        let mut input = MemSource::new(input, vec![in alloc; read]?);
        let mut output = sink_of(alloc, write)?;
        let end = self.end_of(alloc, way, words, &mut input, &mut output)?;
        answer_of(alloc, end, output.bytes())
    }

    // How robus answers if a call moves at most `step` bytes, and this read fails.
    fn in_pieces(
        &self,
        alloc: Global,
        words: &[String],
        input: Vec<u8>,
        step: usize,
        read: u64,
    ) -> Result<Answer, AllocError> {
        let step = step.max(1);
        let mut input = ShortSource::new(input, step, vec![in alloc; read]?);
        let Ok(mut output) = ShortSink::new(alloc, ROOM, step, Vec::new(alloc)) else {
            return Err(AllocError);
        };
        let status = self.robus(
            alloc,
            words,
            &mut input,
            &mut output,
            &mut FirstDrive::new(),
        );
        answer_of(alloc, (status, Some(output.calls())), output.bytes())
    }

    /// How the program answers these words and this input; if there is none, the first read fails.
    pub(crate) fn answer(
        &self,
        alloc: Global,
        way: Way,
        words: &str,
        input: Option<Vec<u8>>,
    ) -> Result<Answer, AllocError> {
        let words = words_of(alloc, words)?;
        let Some(input) = input else {
            return self.in_memory(alloc, way, &words, Vec::new(alloc), (1, 0));
        };
        match way {
            Way::Failing(read, write) => self.in_memory(alloc, way, &words, input, (read, write)),
            Way::Pieces(step, read) => self.in_pieces(alloc, &words, input, step, read),
            _ => self.in_memory(alloc, way, &words, input, (0, 0)),
        }
    }
}
