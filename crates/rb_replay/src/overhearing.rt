//! A log that a listener is given.
ghost use Rattle.std.specs.Prelude.{◌≡◌, ℕ, ◌+◌, ◌≤◌, ◌<◌, ◌∷◌, ◌^◌, IfOk, List, [], length, true, false};
ghost use Rattle.rb_log.specs.Cursor.{shown};
ghost use Rattle.rb_listen.specs.Listeners.{IsListening, IsSameBus, had_at, passing_end};
ghost use Rattle.rb_listen.specs.Listening.{Listening, heed};
ghost use Rattle.rb_outside.specs.Causes.{HasCause};
ghost use Rattle.rb_outside.specs.Writing.{Writes};
ghost use Rattle.rb_rules.specs.Core.CoreEvent.{Tick};
ghost use Rattle.rb_replay.specs.Advancing.{AdvancesBy};
ghost use Rattle.rb_replay.specs.ListeningOn.{IsDue, TellsHeed};
ghost use Rattle.rb_replay.specs.Overhearing.{from_tick, is_of_biu, overheard_text};

use crate::lines::{begun_by, write_heed};
use rb_base::{MOST_TICKS, NodeName};
use rb_listen::Listener;
use rb_log::{LogEvent, LogReader};
use rb_outside::{Failed, Sink, write_line};
use rb_report::end_line;

// How many quiet ticks may pass at the listener.
fn quiet_ahead(listener: &Listener) -> u64
    ensures passing { had_at listener.now + result ≡ passing_end listener.now }
    ensures most { had_at listener.now + result ≤ 2 ^ 31 }
{
    listener.next_tick().unwrap_or(MOST_TICKS) - listener.had()
}

// Passes the quiet ticks at the front of the log, at once.
fn pass_quiet(listener: &mut Listener, log: &mut LogReader<'_>)
    ensures due { (name : NodeName) (begun : ℕ) (due : List ℕ)
        → IsDue listener.old name begun log.old.events due
        → IsDue listener.new name begun log.new.events due }
    ensures shorter { length log.new.events ≤ length log.old.events }
{
    let passed = log.skip(quiet_ahead(listener));
    listener.pass(passed);
}

// Gives the listener a tick and writes what it tells; gives the number of frames that start.
fn give_tick<S: Sink>(
    listener: &mut Listener,
    name: NodeName,
    output: &mut S,
) -> Result<u32, Failed>
    ensures told { (l : Listening) → IsListening listener.old l
        → TellsHeed S.held S.faults name (heed listener.old.sizes listener.old.plan l) listener.new
        output.old output.new result }
    ensures most { IfOk result (λ n. n ≤ 1) }
    ensures cause { HasCause (S.faults output.old) (S.faults output.new) result }
    ensures same { IsSameBus listener.old listener.new }
{
    let heed = listener.tick();
    write_heed(name, heed, output)?;
    Ok(begun_by(heed.epoch))
}

// Gives the listener a tick and the quiet ticks that follow it in the log.
fn give_ticks<S: Sink>(
    listener: &mut Listener,
    log: &mut LogReader<'_>,
    name: NodeName,
    output: &mut S,
) -> Result<u32, Failed>
    ensures gives { (word begun : ℕ) (due : List ℕ)
        → IsDue listener.old name begun (Tick word ∷ log.old.events) due
        → AdvancesBy S.held (λ n. IsDue listener.new name (begun + n) log.new.events) due
        output.old output.new result }
    ensures most { IfOk result (λ n. n ≤ 1) }
    ensures shorter { length log.new.events ≤ length log.old.events }
    ensures cause { HasCause (S.faults output.old) (S.faults output.new) result }
{
    let begun = give_tick(listener, name, output)?;
    pass_quiet(listener, log);
    Ok(begun)
}

// Gives the listener the event that comes before those that are left in the log, and quiet ticks
// behind it, and writes what it tells; gives the number of frames that start.
fn give<S: Sink>(
    listener: &mut Listener,
    log: &mut LogReader<'_>,
    name: NodeName,
    event: LogEvent<'_>,
    output: &mut S,
) -> Result<u32, Failed>
    ensures gives { (begun : ℕ) (due : List ℕ)
        → IsDue listener.old name begun (shown event.entry ∷ log.old.events) due
        → AdvancesBy S.held (λ n. IsDue listener.new name (begun + n) log.new.events) due
        output.old output.new result }
    ensures most { IfOk result (λ n. n ≤ 1) }
    ensures shorter { length log.new.events ≤ length log.old.events }
    ensures cause { HasCause (S.faults output.old) (S.faults output.new) result }
{
    match event {
        LogEvent::Tick(_) => give_ticks(listener, log, name, output),
        LogEvent::Arrive { from, bytes } => {
            listener.arrive(from, bytes);
            Ok(0)
        }
    }
}

// Goes on in the log up to and with the tick of this number, and says whether there is one.
fn find_tick(log: &mut LogReader<'_>, skip: u32) -> bool
    ensures found { result ≡ true
        → (word : ℕ) × (from_tick skip log.old.events ≡ Tick word ∷ log.new.events) }
    ensures none { result ≡ false → from_tick skip log.old.events ≡ [] }
{
    let mut left = u64::from(skip);
    'events: loop {
        left -= log.skip(left);
        match log.next() {
            Some(LogEvent::Tick(_)) => {
                if left == 0 {
                    return true;
                }
                left -= 1;
            }
            Some(LogEvent::Arrive { .. }) => {}
            None => return false,
        }
    }
}

// Gives the listener what is left of the log and writes what it tells, and then the end. `first`
// frames have begun before.
fn listen_on<S: Sink>(
    mut listener: Listener,
    mut log: LogReader<'_>,
    name: NodeName,
    first: u32,
    output: &mut S,
) -> Result<(), Failed>
    requires { (due : List ℕ) × IsDue listener name first log.events due }
    ensures writes { (due : List ℕ) → IsDue listener name first log.entry.events due
        → Writes S.held S.faults output.old output.new result due }
    ensures cause { HasCause (S.faults output.old) (S.faults output.new) result }
{
    let mut begun = first;
    'events: while let Some(event) = log.next() {
        begun += give(&mut listener, &mut log, name, event, output)?;
    }
    write_line(output, &end_line(begun.saturating_sub(1)))
}

/// Whether the log is that of a BIU.
pub fn is_biu(log: &LogReader<'_>) -> bool
    ensures { result ≡ is_of_biu log.now.node }
{
    match log.node() {
        NodeName::Biu(_) => true,
        NodeName::Rmu(_) => false,
    }
}

/// Gives what the log of a BIU tells to a listener that has heard nothing, from the tick of this
/// number on, and writes what the listener tells, line by line, as it comes: for each frame that
/// begins `e FRAME NODE TICK` and `c FRAME NODE BIUS RMUS`, for each delivery `d FRAME SLOT NODE
/// SENDER WORD`, under the name of the log's node, with ticks in the listener's own count. Last is
/// `end FRAMES`, the number of frames that began less one, or 0. What comes before that tick in the
/// log is dropped. `Failed` is the answer only if the sink failed, and then a first part of the
/// text was taken. Quiet ticks in a row are passed at once, however many.
pub fn listen<S: Sink>(log: LogReader<'_>, skip: u32, output: &mut S) -> Result<(), Failed>
    ensures { Writes S.held S.faults output.old output.new result
        (overheard_text log.entry.timetable.sizes log.entry.timetable.plan log.entry.node skip
        log.entry.events) }
{
    let mut log = log;
    let mut listener = Listener::new(log.plan());
    let name = log.node();
    if !find_tick(&mut log, skip) {
        return write_line(output, &end_line(0));
    }
    let first = give_ticks(&mut listener, &mut log, name, output)?;
    listen_on(listener, log, name, first, output)
}
