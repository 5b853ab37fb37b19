//! A document's run that is taken event by event, and one into which a state is handed.
use crate::choices::opened;
use rb_port::Apps;
use rb_world::{Ties, Turn, World};
use std::alloc::{AllocError, Global};

// The number of the frame whose record this is, if it is one.
fn frame_of(turn: &Turn) -> Option<u32> {
    match turn {
        Turn::Frame(frame) => Some(frame.frame),
        _ => None,
    }
}

// Takes the first of the events that are due: how many they are, this one, and the number of the
// frame whose record comes with it.
fn take_first(alloc: Global, apps: &Apps, world: &mut World) -> Result<String, AllocError> {
    let due = world.due();
    if due == 0 {
        return Ok(String::new(alloc));
    }
    let event = world.event(apps, 0);
    let frame = frame_of(&world.take(apps, 0));
    format!(in alloc; "{due} {event:?} {frame:?}\n")
}

// Takes `count` events, and writes the result of each.
fn take_events(
    alloc: Global,
    apps: &Apps,
    world: &mut World,
    count: u64,
    lines: &mut String,
) -> Result<(), AllocError> {
    for _ in 0..count {
        lines.push_str(&take_first(alloc, apps, world)?)?;
    }
    Ok(())
}

/// The results of the first events of the document's run.
pub(crate) fn first_events(
    alloc: Global,
    apps: &Apps,
    document: &[u8],
    count: u64,
) -> Result<Vec<u8>, AllocError> {
    let mut lines = String::new(alloc);
    if let Some(mut world) = opened(alloc, document) {
        take_events(alloc, apps, &mut world, count, &mut lines)?;
    }
    Ok(lines.into_bytes())
}

// Writes the record behind its number, if it is not the other one.
fn write_unlike(
    alloc: Global,
    lines: &mut String,
    number: u32,
    turn: &Turn,
    other: &Turn,
) -> Result<(), AllocError> {
    if turn != other {
        lines.push_str(&format!(in alloc; "{number} {turn:?}\n")?)?;
    }
    Ok(())
}

// Hands B0 the state as frame 1 begins, and writes what is unlike the plain run then.
fn write_changes(
    alloc: Global,
    apps: &Apps,
    (handed, plain): (&mut World, &mut World),
    state: u64,
    lines: &mut String,
) -> Result<(), AllocError> {
    for number in 0..u32::MAX {
        let turn = handed.next(apps, Ties::First);
        write_unlike(alloc, lines, number, &turn, &plain.next(apps, Ties::First))?;
        if turn == Turn::Ended {
            break;
        }
        if frame_of(&turn) == Some(1) {
            handed.hand(0, state);
        }
    }
    Ok(())
}

/// The records of the document's run that change if B0 is handed the state as frame 1 begins, each
/// behind its number.
pub(crate) fn changed_records(
    alloc: Global,
    apps: &Apps,
    document: &[u8],
    state: u64,
) -> Result<Vec<u8>, AllocError> {
    let mut lines = String::new(alloc);
    if let (Some(mut handed), Some(mut plain)) = (
        opened(alloc, document),
        opened(alloc, document),
    ) {
        write_changes(alloc, apps, (&mut handed, &mut plain), state, &mut lines)?;
    }
    Ok(lines.into_bytes())
}
