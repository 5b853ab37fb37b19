//! Who writes down what is told of a node.
ghost use Rattle.std.specs.Prelude.{◌≡◌, ◌++◌, ◌∷◌, [], IsErr, IsOk, MatchResult};
ghost use Rattle.rb_log.specs.Writing.{written};
ghost use Rattle.rb_outside.specs.Causes.{HasCause};
ghost use Rattle.rb_outside.specs.Writing.{Writes};
ghost use Rattle.rb_record.specs.Observing.{RecordsNext, Settles};
ghost use Rattle.rb_record.specs.Recording.{MayTell, PassesNext, PassesPartOf, fresh_log};

use crate::buffer::Buffer;
use crate::counted::CountedLog;
use rb_base::Event;
use rb_outside::{Failed, Sink};
use rb_world::{Observer, Turn};

// Passes on what is complete of the log with this event. If the log has no room for it, it is left
// out: so it is with no event of a run.
fn pass_event<K: Sink>(
    log: &mut CountedLog,
    event: &Event,
    waiting: &mut Buffer,
    output: &mut K,
) -> Result<(), Failed>
    ensures next { MayTell log.old.ticks (event.now ∷ []) → MatchResult result
        (λ _. PassesNext log.old log.new waiting.old waiting.new (event.now ∷ [])
        (K.held output.old) (K.held output.new))
        (λ _. PassesPartOf log.old waiting.old (event.now ∷ []) (K.held output.old)
        (K.held output.new)) }
    ensures cause { HasCause (K.faults output.old) (K.faults output.new) result }
{
    if !log.has_room(event) {
        return Ok(());
    }
    waiting.push(&log.event(event), output)
}

/// Takes down each event of a node that it is told, up to the node's first tick of the frame after
/// the last. What is complete of the log waits until a frame begins, or until there is no room for
/// more. After a write that failed it writes nothing more.
#[derive(Drop)]
pub(crate) struct Recorder<'a, K> {
    output: &'a mut K,
    waiting: Buffer,
    log: CountedLog,
    frames: u32,
    written: Result<(), Failed>,
}

impl<'a, K: Sink> Recorder<'a, K> {
    /// A recorder that has been told nothing, for a run of `frames` frames.
    pub(crate) fn new(output: &'a mut K, frames: u32) -> Recorder<'a, K>
        ensures same_output { result.output.ghost_name ≡ output.entry.ghost_name }
        ensures output { result.output.now ≡ output.old }
        ensures waiting { result.waiting ≡ [] }
        ensures log { result.log ≡ fresh_log }
        ensures frames { result.frames ≡ frames }
        ensures written { IsOk result.written }
    {
        Recorder {
            output,
            waiting: Buffer::new(),
            log: CountedLog::new(),
            frames,
            written: Ok(()),
        }
    }

    /// Writes what waits if a frame begins with this turn, and tells whether each write succeeded
    /// so far.
    pub(crate) fn settle(&mut self, turn: &Turn) -> Result<(), Failed>
        ensures settles { Settles K.held K.faults self.old self.new }
        ensures told { result ≡ self.new.written }
    {
        if self.written.is_ok() && matches!(turn, Turn::Frame(_)) {
            self.written = self.waiting.flush(self.output);
        }
        self.written
    }

    /// Writes what waits, and the end of the log.
    pub(crate) fn end(&mut self) -> Result<(), Failed>
        ensures same_output { self.new.output.ghost_name ≡ self.old.output.ghost_name }
        ensures writes { Writes K.held K.faults self.old.output.now self.new.output.now result
            (self.old.waiting ++ written self.old.log.waiting []) }
    {
        self.waiting.push(&self.log.end(), self.output)?;
        self.waiting.flush(self.output)
    }
}

impl<K: Sink> Observer for Recorder<'_, K> {
    ghost observes = { RecordsNext K.held K.faults };

    fn observe(&mut self, frame: u32, event: &Event) {
        if self.written.is_err() || frame >= self.frames {
            return;
        }
        self.written = pass_event(&mut self.log, event, &mut self.waiting, self.output);
    }
}
