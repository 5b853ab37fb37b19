//! What a step of a line does.
use crate::choices::{numbers_of, records_alike};
use crate::events::{changed_records, first_events};
use rb_port::Apps;
use rb_world::Ties;
use std::alloc::{AllocError, Global};
use std::fmt::Debug;

/// A program that is called, and how.
#[derive(Clone, Copy)]
pub(crate) enum Way {
    Robus,
    Bridge,
    Picture,
    /// Robus, of whose reads and writes those with these numbers fail.
    Failing(u64, u64),
    /// Robus, with at most this number of bytes a call, of whose reads the one with this number
    /// fails.
    Pieces(usize, u64),
    /// Robus, with a drive that keeps this number of turns, and may hide what was delivered.
    Keeping(usize, bool),
}

/// A call with its words, or what is made of the bytes that the step is given.
#[derive(Clone, Copy)]
pub(crate) enum Step<'a> {
    Call(Way, &'a str),
    /// Leaves this number of bytes, the first ones.
    Cut(usize),
    /// Sets the byte at the place, or adds it at the end.
    Put(usize, u8),
    /// Spells the bytes in digits, 32 of them a line.
    Hex,
    /// This number of spaces.
    Spaces(usize),
    /// How many records the document's run has, if they are the same by these choices.
    Choices(Ties),
    /// How the document's run ends, and its numbers.
    Numbers,
    /// This number of events of the document's run.
    Events(u64),
    /// What changes if B0 is handed this state as frame 1 begins.
    Hand(u64),
}

// The number that the word spells.
fn number(word: Option<&str>) -> Option<u64> {
    word?.parse::<u64>().ok()
}

// The step that begins with such a name, if the text does.
fn named_step(text: &str) -> Option<Step<'_>> {
    let mut parts = text.splitn(4, ' ');
    let name = parts.next()?;
    let (first, second) = (number(parts.next()), number(parts.next()));
    match (name, first, second, parts.next()) {
        ("cut", Some(length), None, None) => Some(Step::Cut(length as usize)),
        ("put", Some(place), Some(byte), None) => {
            Some(Step::Put(place as usize, (byte % 256) as u8))
        }
        ("hex", None, None, None) => Some(Step::Hex),
        ("spaces", Some(length), None, None) => Some(Step::Spaces(length as usize)),
        ("last", None, None, None) => Some(Step::Choices(Ties::Last)),
        ("seeded", Some(seed), None, None) => Some(Step::Choices(Ties::Seeded(seed))),
        ("numbers", None, None, None) => Some(Step::Numbers),
        ("events", Some(count), None, None) => Some(Step::Events(count)),
        ("hand", Some(state), None, None) => Some(Step::Hand(state)),
        ("failing", Some(read), Some(write), Some(words)) => {
            Some(Step::Call(Way::Failing(read, write), words))
        }
        ("pieces", Some(step), Some(read), Some(words)) => {
            Some(Step::Call(Way::Pieces(step as usize, read), words))
        }
        ("keeping", Some(room), Some(mask), Some(words)) => {
            Some(Step::Call(Way::Keeping(room as usize, mask == 1), words))
        }
        _ => None,
    }
}

/// The step that the text says.
pub(crate) fn step_of(text: &str) -> Step<'_> {
    if let Some(step) = named_step(text) {
        return step;
    }
    match text.split_once(' ').unwrap_or((text, "")) {
        ("bridge", words) => Step::Call(Way::Bridge, words),
        ("picture", words) => Step::Call(Way::Picture, words),
        _ => Step::Call(Way::Robus, text),
    }
}

// The digits of the bytes, in lines.
fn spelled(alloc: Global, bytes: &[u8]) -> Result<Vec<u8>, AllocError> {
    let mut lines = Vec::new(alloc);
    for piece in bytes.chunks(32) {
        lines.extend_from_slice(hex::encode(alloc, piece)?.as_bytes())?;
        lines.push(b'\n')?;
    }
    Ok(lines)
}

// The value as a line.
fn shown<T: Debug>(alloc: Global, value: &T) -> Result<Vec<u8>, AllocError> {
    Ok(format!(in alloc; "{value:?}\n")?.into_bytes())
}

// What the step makes of the bytes, if it does not change them.
fn made_of(
    alloc: Global,
    apps: &Apps,
    bytes: &[u8],
    step: Step<'_>,
) -> Result<Vec<u8>, AllocError> {
    match step {
        Step::Hex => spelled(alloc, bytes),
        Step::Spaces(length) => vec![in alloc; b' '; length],
        Step::Choices(ties) => shown(alloc, &records_alike(alloc, apps, bytes, ties)),
        Step::Numbers => shown(alloc, &numbers_of(alloc, apps, bytes)),
        Step::Events(count) => first_events(alloc, apps, bytes, count),
        Step::Hand(state) => changed_records(alloc, apps, bytes, state),
        _ => bytes.to_vec(alloc),
    }
}

/// What the step makes of the bytes.
pub(crate) fn changed(
    alloc: Global,
    apps: &Apps,
    mut bytes: Vec<u8>,
    step: Step<'_>,
) -> Result<Vec<u8>, AllocError> {
    match step {
        Step::Cut(length) => bytes.truncate(length),
        Step::Put(place, byte) => match bytes.get_mut(place) {
            Some(old) => *old = byte,
            None => bytes.push(byte)?,
        },
        _ => return made_of(alloc, apps, &bytes, step),
    }
    Ok(bytes)
}
