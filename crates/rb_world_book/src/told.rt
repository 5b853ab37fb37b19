//! What a node has told last.
ghost use Rattle.std.specs.Prelude.{◌≡◌, ◌<◌, slice_set, if◌then◌else◌};
ghost use Rattle.rb_base.specs.declared.values.See.TheVariants.{Nothing};
ghost use Rattle.rb_rules.specs.Hearing.{judged_see};
ghost use Rattle.rb_rules.specs.WorldStep.{same_place};
ghost use Rattle.rb_world_book.specs.Changing.{line_from};
ghost use Rattle.rb_world_book.specs.Telling.{fresh_told, has_told, kept_of, see_of, timed_in, told_begun_frame, told_closed};

use crate::milestone::Milestone;
use rb_base::{Biu, Delivery, NodeSet, Place, Rmu, See};
use rb_rules::{NodeLine, PortLine, SlotLine};
use rb_slot::Shown;

/// What a node told of a frame that it began.
#[derive(Clone, Copy)]
pub struct Begin {
    pub frame: u32,
    pub line: NodeLine,
    /// The line of the BIU's port; meaningless for an RMU.
    pub port: PortLine,
}

/// The nodes that a node trusts.
#[derive(Clone, Copy)]
pub struct TrustedNodes {
    pub biu: NodeSet<Biu>,
    pub rmu: NodeSet<Rmu>,
}

/// What a node told last, of the stages and of the frames.
#[derive(Clone, Copy)]
pub struct Told {
    /// Whether it has closed a stage. If so, the next are of the last one.
    pub has_closed: bool,
    pub place: Place,
    /// What it saw of each source, with reference times in place of stamps. Of sources that are
    /// good to the end of the frame it is of an earlier stage.
    pub sees: [See; 16],
    /// The trusted nodes of both kinds, as masks.
    pub biu: u16,
    pub rmu: u16,
    pub line: Option<SlotLine>,
    pub begun: Option<Begin>,
}

pub(crate) fn same_place(a: Place, b: Place) -> bool
    ensures { result ≡ same_place a b }
{
    a == b
}

// What was seen of a source, with a reference time in place of a stamp.
fn timed(see: See, time: u64) -> See
    ensures { result ≡ judged_see time see }
{
    match see {
        See::Time(_) => See::Time(time),
        see => see,
    }
}

// What was seen of one source is kept.
#[inline(always)]
fn keep_one(source: u8, shown: &Shown, times: &[u64; 16], sees: &mut [See; 16])
    requires { source < 16 }
    ensures { sees.new ≡ slice_set sees.old source (timed_in shown.now.sees times.now source) }
{
    let at = usize::from(source);
    sees[at] = timed(shown.see(source), times[at]);
}

// What was seen of each of these sources is kept, with its reference time. Of the others what was
// kept stays.
fn keep_seen<S: Copy>(counted: NodeSet<S>, shown: &Shown, times: &[u64; 16], sees: &mut [See; 16])
    ensures { sees.new ≡ kept_of counted Nothing (timed_in shown.now.sees times.now) sees.old }
{
    let mut left = counted;
    while let Some(source) = left.pop_first() {
        keep_one(source.index(), shown, times, sees);
    }
}

// What was delivered is kept, as a line.
fn keep_line(receiver: u8, delivered: Option<Delivery>, line: &mut Option<SlotLine>)
    ensures { line.new ≡ line_from receiver delivered }
{
    match delivered {
        Some(delivery) => {
            *line = Some(SlotLine {
                receiver,
                sender: delivery.sender,
                value: delivery.value,
            });
        }
        None => {
            if line.is_some() {
                *line = None;
            }
        }
    }
}

impl Told {
    pub(crate) fn none() -> Told
        ensures { result ≡ fresh_told }
    {
        Told {
            has_closed: false,
            place: Place {
                frame: 0,
                slot: 0,
                stage: 0,
            },
            sees: [See::Nothing; 16],
            biu: 0,
            rmu: 0,
            line: None,
            begun: None,
        }
    }

    /// Node `i` closes a stage, having seen this of each source, some at these reference times.
    /// What was seen is kept of the sources that count.
    pub(crate) fn close<S: Copy>(
        &mut self,
        i: u8,
        closed: &Shown,
        times: &[u64; 16],
        counted: NodeSet<S>,
        trusted: TrustedNodes,
    )
        ensures { self.new ≡ told_closed counted closed.now times.now trusted.biu trusted.rmu
            (line_from i closed.now.delivered) self.old }
    {
        self.has_closed = true;
        self.place = closed.place();
        keep_seen(counted, closed, times, &mut self.sees);
        self.biu = trusted.biu.bits();
        self.rmu = trusted.rmu.bits();
        keep_line(i, closed.delivered(), &mut self.line);
    }

    /// The node begins a frame.
    pub(crate) fn begin(&mut self, begun: Begin)
        ensures { self.new ≡ told_begun_frame begun self.old }
    {
        self.begun = Some(begun);
    }

    /// Whether it has told of the milestone last.
    pub(crate) fn has_told(&self, milestone: Milestone) -> bool
        ensures { result ≡ has_told milestone self.now }
    {
        match milestone {
            Milestone::Begin(frame) => match self.begun {
                Some(begun) => begun.frame == frame,
                None => false,
            },
            Milestone::Stage(place) => self.has_closed && same_place(self.place, place),
            Milestone::End => false,
        }
    }

    /// What it saw of a source in its latest stage, with a reference time.
    pub(crate) fn see(&self, source: u8) -> See
        requires { source < 16 }
        ensures { result ≡ see_of self.now source }
    {
        self.sees[usize::from(source)]
    }
}
