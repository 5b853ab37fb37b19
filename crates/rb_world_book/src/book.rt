//! The book of a run.
ghost use Rattle.std.specs.Prelude.{◌≡◌, ◌≢◌, IfSome, nat_lt, true, ◌+◌, ◌-◌, ◌^◌, ◌<◌, ◌≤◌, ◌==◌, ◌&&◌, ◌++◌, [], ℕ, false, is_none, get_or, Some, None, if◌then◌else◌};
ghost use Rattle.rb_base.specs.Nodes.{has, other};
ghost use Rattle.rb_base.specs.declared.values.See.TheVariants.{Nothing};
ghost use Rattle.rb_rules.specs.Slots.{count_of};
ghost use Rattle.rb_base.specs.Nodes.Side.{Biu as biu, Rmu as rmu};
ghost use Rattle.rb_base.specs.declared.values.Place.{Place};
ghost use Rattle.rb_rules.specs.Book.{Record, after_stage, trusted_by};
ghost use Rattle.rb_rules.specs.Goodness.{Scenario};
ghost use Rattle.rb_rules.specs.WorldStep.{World, first_world, needs_no_event};
ghost use Rattle.rb_world_onset.specs.Faults.{faults_of};
ghost use Rattle.rb_world_book.specs.Changing.{changed_at, count_for, number_in, row_shown, side_in, with_begun, with_row};
ghost use Rattle.rb_world_book.specs.Holding.{AllStay, Holds, IsSteady, Passes, StaysUntil, TurnsTo, frame_record, good_for, slot_record};
ghost use Rattle.rb_world_book.specs.Settling.{GoesPast, JudgesStage, Settles, after_begin, comes_when, is_due, is_free, rows_found};
ghost use Rattle.rb_world_book.specs.declared.turn.Turn.{Turn};
ghost use Rattle.rb_world_book.specs.declared.milestone.Milestone.TheVariants as coming;
ghost use Rattle.rb_world_book.specs.Records.{milestone_of, record_of, way_of};
ghost use Rattle.rb_world_book.specs.Telling.{is_at};
ghost use Rattle.rb_world_book.specs.Waiting.{found_of, line_of, node_line_of, port_line_of};

use crate::group::{Group, all_but};
use crate::milestone::{Milestone, Way};
use crate::told::{Begin, TrustedNodes, same_place};
use crate::turn::{FrameRecord, SlotRecord, Turn};
use crate::walks::{add_node_lines, first_trusted, port_lines, slot_lines};
use arrayvec::ArrayVec;
use rb_base::{Biu, NodeName, NodeSet, Place, Rmu, Shape};
use rb_judge::Judge;
use rb_rules::{NodeLine, PortLine, SlotLine};
use rb_slot::Shown;
use rb_world_onset::Onsets;

/// What the nodes of a run have told last, and what is settled by it. It takes no memory.
#[derive(Drop)]
pub struct Book {
    shape: Shape,
    frames: u32,
    /// How far apart the times of one message may be.
    eps: u32,
    onsets: Onsets,
    bius: Group<Biu>,
    rmus: Group<Rmu>,
    /// The first milestone that is not settled.
    upcoming: Milestone,
    /// What was delivered in this slot.
    lines: ArrayVec<SlotLine, 16>,
    judge: Judge,
    ended: bool,
}

// The BIUs that are good at a milestone.
fn good_biu_for(onsets: &Onsets, milestone: Milestone) -> NodeSet<Biu>
    ensures { (sc : Scenario) → onsets.now ≡ faults_of sc → result ≡ good_for sc biu milestone }
{
    match milestone {
        Milestone::Begin(frame) => onsets.good_biu(frame, 0),
        Milestone::Stage(place) => onsets.good_biu(place.frame, place.slot),
        Milestone::End => NodeSet::empty(),
    }
}

// The RMUs that are good at a milestone.
fn good_rmu_for(onsets: &Onsets, milestone: Milestone) -> NodeSet<Rmu>
    ensures { (sc : Scenario) → onsets.now ≡ faults_of sc → result ≡ good_for sc rmu milestone }
{
    match milestone {
        Milestone::Begin(frame) => onsets.good_rmu(frame, 0),
        Milestone::Stage(place) => onsets.good_rmu(place.frame, place.slot),
        Milestone::End => NodeSet::empty(),
    }
}

// What comes after a stage.
fn after_stage(shape: &Shape, place: Place) -> Milestone
    ensures next { place.frame + 1 < 2 ^ 32 → place.slot + 1 < 2 ^ 16
        → milestone_of result ≡ after_stage shape.now place }
    ensures within { place.stage < 3
        → result ≡ coming.Stage (record place { stage = place.stage + 1 }) }
{
    if place.stage < 3 {
        Milestone::Stage(Place {
            stage: place.stage + 1,
            ..place
        })
    } else if place.slot == shape.sync_slot() {
        Milestone::Begin(place.frame.saturating_add(1))
    } else {
        Milestone::Stage(Place {
            frame: place.frame,
            slot: place.slot.saturating_add(1),
            stage: 1,
        })
    }
}

// The trusted nodes of both kinds, as masks, as the first good node held them that told of a stage,
// BIUs before RMUs.
fn trusted(shape: &Shape, place: Place, bius: &Group<Biu>, rmus: &Group<Rmu>) -> (u16, u16)
    ensures biu { result.0 ≡ trusted_by biu (rows_found shape.now place bius.now rmus.now) }
    ensures rmu { result.1 ≡ trusted_by rmu (rows_found shape.now place bius.now rmus.now) }
{
    match first_trusted(shape.biu(), bius.good, place, &bius.told) {
        Some(trusted) => trusted,
        None => first_trusted(shape.rmu(), rmus.good, place, &rmus.told).unwrap_or((0, 0)),
    }
}

// The judge is told a stage of which all good nodes have told.
fn judge_stage(
    judge: &mut Judge,
    shape: &Shape,
    eps: u32,
    place: Place,
    bius: &Group<Biu>,
    rmus: &Group<Rmu>,
)
    ensures { JudgesStage judge.old judge.new shape.now eps place bius.now rmus.now }
{
    let trusted = trusted(shape, place, bius, rmus);
    let of_bius = bius.stage_sets(
        shape.biu(),
        NodeSet::from_bits(trusted.0),
        eps,
        shape.rmu(),
        rmus,
    );
    let of_rmus = rmus.stage_sets(
        shape.rmu(),
        NodeSet::from_bits(trusted.1),
        eps,
        shape.biu(),
        bius,
    );
    judge.whole_stage(&of_bius, &of_rmus);
}

// What was delivered in a slot so far, after a stage. Deliveries come in stage 2.
fn keep_lines(lines: &mut ArrayVec<SlotLine, 16>, shape: &Shape, place: Place, bius: &Group<Biu>)
    ensures { lines.new.items ≡ (if place.stage == 2
        then found_of (λ i t. line_of place (has bius.now.good i) t) shape.now.bius bius.now.told
        else lines.old.items) }
{
    if place.stage == 2 {
        slot_lines(lines, shape.biu(), bius.good, place, &bius.told);
    }
}

// What comes after the start of frame `frame` of a run of `frames` frames.
fn after_begin(frame: u32, frames: u32) -> Milestone
    ensures { milestone_of result ≡ after_begin frame frames }
{
    if frame == frames {
        Milestone::End
    } else {
        Milestone::Stage(Place {
            frame,
            slot: 0,
            stage: 1,
        })
    }
}

// Whether a milestone is settled in this way, by whether it needs no event.
fn comes_so(way: Way, is_free: bool) -> bool
    ensures { result ≡ comes_when is_free way }
{
    match way {
        Way::ByAnEvent => !is_free,
        Way::ByItself => is_free,
    }
}

// Whether all nodes that are good are good to the end of the frame.
fn all_stay(bius: &Group<Biu>, rmus: &Group<Rmu>) -> bool
    ensures { result ≡ true → AllStay bius.now rmus.now }
{
    bius.good.bits() == bius.lasting.bits() && rmus.good.bits() == rmus.lasting.bits()
}

// The record of a slot is written in place.
fn write_slot(place: Place, lines: &ArrayVec<SlotLine, 16>, turn: &mut Turn)
    ensures { record_of turn.new ≡ Some (Record.Slot place.frame place.slot lines.now.items) }
{
    *turn = Turn::Slot(SlotRecord {
        frame: place.frame,
        slot: place.slot,
        lines: ArrayVec::new(),
    });
    give_lines(lines, turn);
}

// The lines of a slot are written into its record, which has none yet.
fn give_lines(lines: &ArrayVec<SlotLine, 16>, turn: &mut Turn)
    ensures { (frame slot : ℕ) → record_of turn.old ≡ Some (Record.Slot frame slot [])
        → record_of turn.new ≡ Some (Record.Slot frame slot lines.now.items) }
{
    if let Turn::Slot(record) = turn {
        add_lines(lines, &mut record.lines);
    }
}

// Lines are written into an empty list.
fn add_lines(lines: &ArrayVec<SlotLine, 16>, room: &mut ArrayVec<SlotLine, 16>)
    ensures { room.old.items ≡ [] → room.new.items ≡ lines.now.items }
{
    let _all = room.try_extend_from_slice(lines.as_slice());
}

fn is_quiet(turn: &Turn) -> bool
    ensures { result ≡ is_none (record_of turn.now) }
{
    matches!(turn, Turn::Quiet)
}

// Whether a stage is the upcoming milestone.
fn is_at(upcoming: Milestone, place: Place) -> bool
    ensures { result ≡ is_at upcoming place }
{
    match upcoming {
        Milestone::Stage(stage) => same_place(place, stage),
        _ => false,
    }
}

impl Book {
    /// The book of a run of `frames` frames at its start. The times of one message may be `eps`
    /// reference units apart.
    pub fn new(shape: Shape, frames: u32, eps: u32, onsets: Onsets) -> Book
        ensures holds { (sc : Scenario) → shape ≡ sc.sizes → frames ≡ sc.frames
            → eps ≡ sc.plan.dmax - sc.plan.dmin → onsets ≡ faults_of sc
            → Holds sc result (first_world sc) }
        ensures shape { result.shape ≡ shape }
    {
        let mut book = Book {
            shape,
            frames,
            eps,
            onsets,
            bius: Group::new(),
            rmus: Group::new(),
            upcoming: Milestone::Begin(0),
            lines: ArrayVec::new(),
            judge: Judge::new(&shape),
            ended: false,
        };
        let _bius = shape.biu();
        book.turn_to(Milestone::Begin(0));
        book
    }

    /// A node closes a window. What it saw of a source with a stamp is noted with the reference
    /// time of that source, in reference units, and nothing of sources that all are good to the end
    /// of the frame; `biu` and `rmu` are the nodes that it trusts. Of the tail nothing is noted.
    #[inline(always)]
    pub fn close(
        &mut self,
        node: NodeName,
        closed: &Shown,
        times: &[u64; 16],
        biu: NodeSet<Biu>,
        rmu: NodeSet<Rmu>,
    )
        requires node { number_in node < count_for node self.old.shape }
        requires sources { (j : ℕ) → count_of (other (side_in node)) self.old.shape ≤ j
            → get_or closed.now.sees j Nothing ≡ Nothing }
        ensures noted { (sc : Scenario) (w : World) → Holds sc self.old w
            → Holds sc self.new (changed_at node (with_row closed.now.place.stage (row_shown (number_in node) closed.now times.now biu rmu)) w) }
        ensures shape { self.new.shape ≡ self.old.shape }
    {
        if closed.place().stage == 4 {
            return;
        }
        let trusted = TrustedNodes { biu, rmu };
        if is_at(self.upcoming, closed.place()) {
            self.close_upcoming(node, closed, times, trusted);
        } else {
            self.close_other(node, closed, times, trusted);
        }
    }

    /// BIU `i` begins a frame, and tells this of itself and of its port.
    pub fn begin_biu(&mut self, i: u8, frame: u32, line: NodeLine, port: PortLine)
        requires { i < self.old.shape.bius }
        ensures noted { (sc : Scenario) (w : World) → Holds sc self.old w
            → Holds sc self.new (changed_at (NodeName.Biu i) (with_begun (record { frame = frame; line = line; port = Some port })) w) }
        ensures shape { self.new.shape ≡ self.old.shape }
    {
        let _bius = self.shape.biu();
        self.bius
            .begin(i, self.upcoming, Begin { frame, line, port });
    }

    /// RMU `i` begins a frame, and tells this of itself.
    pub fn begin_rmu(&mut self, i: u8, frame: u32, line: NodeLine)
        requires { i < self.old.shape.rmus }
        ensures noted { (sc : Scenario) (w : World) → Holds sc self.old w
            → Holds sc self.new (changed_at (NodeName.Rmu i) (with_begun (record { frame = frame; line = line; port = None })) w) }
        ensures shape { self.new.shape ≡ self.old.shape }
    {
        let _rmus = self.shape.rmu();
        let port = PortLine::default();
        self.rmus
            .begin(i, self.upcoming, Begin { frame, line, port });
    }

    /// Settles what is due in this way, up to the first record, and at most two milestones: a last
    /// stage of a frame, which gives no record, and the start of the next frame. The turn is
    /// `Quiet` before, and is written over by that record, if there is one. If nothing is due this
    /// costs next to nothing.
    #[inline(always)]
    pub fn settle_into(&mut self, way: Way, turn: &mut Turn)
        requires quiet { turn.old ≡ Turn.Quiet }
        ensures settled { (sc : Scenario) (w : World) → Holds sc self.old w
            → Settles sc (way_of way) w self.new turn.new }
        ensures shape { self.new.shape ≡ self.old.shape }
    {
        if self.is_due(way) {
            self.settle_due(way, turn);
        }
    }

    /// Whether the upcoming milestone needs no event: no node is good there, or it is the end.
    pub fn needs_no_event(&self) -> bool
        ensures { (sc : Scenario) (w : World) → Holds sc self.now w
            → result ≡ needs_no_event sc w.book.upcoming }
    {
        self.is_free()
    }

    /// Whether the last record has been given.
    pub fn has_ended(&self) -> bool
        ensures { (sc : Scenario) (w : World) → Holds sc self.now w → result ≡ w.book.ended }
    {
        self.ended
    }

    // A node closes the stage that is the upcoming milestone. What it saw counts of sources that
    // are not good to the end of the frame.
    #[inline(always)]
    fn close_upcoming(
        &mut self,
        node: NodeName,
        closed: &Shown,
        times: &[u64; 16],
        trusted: TrustedNodes,
    )
        requires node { number_in node < count_for node self.old.shape }
        requires sources { (j : ℕ) → count_of (other (side_in node)) self.old.shape ≤ j
            → get_or closed.now.sees j Nothing ≡ Nothing }
        requires stage { closed.now.place.stage ≢ 4 }
        requires upcoming { is_at self.old.upcoming closed.now.place ≡ true }
        ensures noted { (sc : Scenario) (w : World) → Holds sc self.old w
            → Holds sc self.new (changed_at node (with_row closed.now.place.stage (row_shown (number_in node) closed.now times.now trusted.biu trusted.rmu)) w) }
        ensures shape { self.new.shape ≡ self.old.shape }
    {
        match node {
            NodeName::Biu(i) => {
                let _bius = self.shape.biu();
                let counted = self.rmus.counted;
                self.bius.close_upcoming(i, closed, times, counted, trusted);
            }
            NodeName::Rmu(i) => {
                let _rmus = self.shape.rmu();
                let counted = self.bius.counted;
                self.rmus.close_upcoming(i, closed, times, counted, trusted);
            }
        }
    }

    // A node closes another stage. What it saw counts of all sources.
    #[inline(never)]
    fn close_other(
        &mut self,
        node: NodeName,
        closed: &Shown,
        times: &[u64; 16],
        trusted: TrustedNodes,
    )
        requires node { number_in node < count_for node self.old.shape }
        requires sources { (j : ℕ) → count_of (other (side_in node)) self.old.shape ≤ j
            → get_or closed.now.sees j Nothing ≡ Nothing }
        requires stage { closed.now.place.stage ≢ 4 }
        ensures noted { (sc : Scenario) (w : World) → Holds sc self.old w
            → Holds sc self.new (changed_at node (with_row closed.now.place.stage (row_shown (number_in node) closed.now times.now trusted.biu trusted.rmu)) w) }
        ensures shape { self.new.shape ≡ self.old.shape }
    {
        let upcoming = self.upcoming;
        let (bius, rmus) = (self.shape.biu(), self.shape.rmu());
        match node {
            NodeName::Biu(i) => {
                let counted: NodeSet<Rmu> = NodeSet::first(rmus);
                self.bius.close(i, closed, times, counted, trusted);
                self.bius.note(i, upcoming);
            }
            NodeName::Rmu(i) => {
                let counted: NodeSet<Biu> = NodeSet::first(bius);
                self.rmus.close(i, closed, times, counted, trusted);
                self.rmus.note(i, upcoming);
            }
        }
    }

    // Whether the upcoming milestone may be settled in this way, and all good nodes have told of
    // it.
    fn is_due(&self, way: Way) -> bool
        ensures { result ≡ is_due way self.now }
    {
        self.all_have_told() && comes_so(way, self.is_free()) && !self.ended
    }

    // Whether all good nodes have told of the upcoming milestone. Both kinds are one branch: a
    // processor guesses badly which of them it still waits for.
    fn all_have_told(&self) -> bool
        ensures { result ≡ ((self.now.bius.waiting == 0) && (self.now.rmus.waiting == 0)) }
    {
        self.bius.waiting.is_empty() & self.rmus.waiting.is_empty()
    }

    // Whether no node is good at the upcoming milestone.
    fn is_free(&self) -> bool
        ensures { result ≡ is_free self.now }
    {
        self.bius.good.is_empty() && self.rmus.good.is_empty()
    }

    // What is due is settled in place, up to the first record, and at most two milestones.
    #[inline(never)]
    fn settle_due(&mut self, way: Way, turn: &mut Turn)
        requires quiet { turn.old ≡ Turn.Quiet }
        requires due { is_due way self.old ≡ true }
        ensures settled { (sc : Scenario) (w : World) → Holds sc self.old w
            → Settles sc (way_of way) w self.new turn.new }
        ensures shape { self.new.shape ≡ self.old.shape }
    {
        self.pass(turn);
        if is_quiet(turn) && self.is_due(way) {
            self.pass(turn);
        }
    }

    // The upcoming milestone is settled, of which all good nodes have told.
    fn pass(&mut self, turn: &mut Turn)
        requires { turn.old ≡ Turn.Quiet }
        ensures passes { (sc : Scenario) (w : World) → Holds sc self.old w → self.old.ended ≡ false
            → self.old.bius.waiting ≡ 0 → self.old.rmus.waiting ≡ 0
            → Passes sc w self.new turn.new }
        ensures shape { self.new.shape ≡ self.old.shape }
    {
        match self.upcoming {
            Milestone::Begin(frame) => self.pass_begin(frame, turn),
            Milestone::Stage(place) => self.pass_stage(place, turn),
            Milestone::End => {
                self.ended = true;
                *turn = Turn::Ended;
            }
        }
    }

    // The start of a frame is settled.
    fn pass_begin(&mut self, frame: u32, turn: &mut Turn)
        ensures passes { (sc : Scenario) (w : World) → Holds sc self.old w → self.old.ended ≡ false
            → self.old.upcoming ≡ coming.Begin frame → Passes sc w self.new turn.new }
        ensures shape { self.new.shape ≡ self.old.shape }
    {
        let given = self.frame_turn(frame);
        let sync_slot = self.shape.sync_slot();
        self.judge.frame();
        self.lines = ArrayVec::new();
        self.bius.lasting = self.onsets.good_biu(frame, sync_slot);
        self.rmus.lasting = self.onsets.good_rmu(frame, sync_slot);
        self.bius.counted = all_but(self.shape.biu(), self.bius.lasting);
        self.rmus.counted = all_but(self.shape.rmu(), self.rmus.lasting);
        self.turn_to(after_begin(frame, self.frames));
        *turn = given;
    }

    // The record of a frame. There is none if no node began it.
    fn frame_turn(&self, frame: u32) -> Turn
        ensures { record_of result ≡ frame_record frame
            (found_of (λ i t. node_line_of frame (has self.now.bius.good i) t) self.now.shape.bius self.now.bius.told
            ++ found_of (λ i t. node_line_of frame (has self.now.rmus.good i) t) self.now.shape.rmus
            self.now.rmus.told)
            (found_of (λ i t. port_line_of frame (has self.now.bius.good i) t) self.now.shape.bius self.now.bius.told) }
    {
        let (bius, rmus) = (self.shape.biu(), self.shape.rmu());
        let mut nodes = ArrayVec::new();
        add_node_lines(&mut nodes, bius, self.bius.good, frame, &self.bius.told);
        add_node_lines(&mut nodes, rmus, self.rmus.good, frame, &self.rmus.told);
        if nodes.is_empty() {
            return Turn::Quiet;
        }
        Turn::Frame(FrameRecord {
            frame,
            nodes,
            ports: port_lines(bius, self.bius.good, frame, &self.bius.told),
        })
    }

    // A stage is settled, of which all good nodes have told.
    fn pass_stage(&mut self, place: Place, turn: &mut Turn)
        requires { turn.old ≡ Turn.Quiet }
        ensures passes { (sc : Scenario) (w : World) → Holds sc self.old w → self.old.ended ≡ false
            → self.old.upcoming ≡ coming.Stage place
            → self.old.bius.waiting ≡ 0 → self.old.rmus.waiting ≡ 0
            → Passes sc w self.new turn.new }
        ensures shape { self.new.shape ≡ self.old.shape }
    {
        judge_stage(
            &mut self.judge,
            &self.shape,
            self.eps,
            place,
            &self.bius,
            &self.rmus,
        );
        match self.judge.verdict() {
            Some(cause) => {
                self.ended = true;
                *turn = Turn::Breach(place, cause);
            }
            None => self.pass_judged(place, turn),
        }
    }

    // A stage is settled, and the premise holds.
    fn pass_judged(&mut self, place: Place, turn: &mut Turn)
        requires { turn.old ≡ Turn.Quiet }
        ensures { GoesPast self.old self.new place turn.new }
    {
        self.slot_turn(place, turn);
        keep_lines(&mut self.lines, &self.shape, place, &self.bius);
        match self.steady_next(place) {
            Some(next) => self.stay_until(next),
            None => {
                let next = after_stage(&self.shape, place);
                self.turn_to(next);
            }
        }
    }

    // The record of a slot, which comes with its stage 3. The turn is `Quiet` before, here and in
    // what follows, and is written over if a record comes.
    fn slot_turn(&self, place: Place, turn: &mut Turn)
        requires { turn.old ≡ Turn.Quiet }
        ensures { record_of turn.new ≡ slot_record self.now.shape place self.now.lines.items }
    {
        if place.stage == 3 && place.slot < self.shape.sync_slot() {
            write_slot(place, &self.lines, turn);
        }
    }

    // The next stage, if the same nodes are known to be good as at this one: it is one of the same
    // slot, or all of them are good to the end of the frame.
    fn steady_next(&self, place: Place) -> Option<Place>
        ensures { IfSome result (IsSteady self.now place) }
    {
        if place.stage < 3 {
            return Some(Place {
                stage: place.stage + 1,
                ..place
            });
        }
        if place.slot != self.shape.sync_slot() && all_stay(&self.bius, &self.rmus) {
            return Some(Place {
                frame: place.frame,
                slot: place.slot.saturating_add(1),
                stage: 1,
            });
        }
        None
    }

    // A stage is the upcoming one, after another of which all good nodes have told, and the same
    // nodes are good there.
    fn stay_until(&mut self, next: Place)
        ensures { StaysUntil self.old self.new next }
    {
        self.bius.await_good();
        self.rmus.await_good();
        self.upcoming = Milestone::Stage(next);
    }

    // A milestone is the upcoming one.
    fn turn_to(&mut self, milestone: Milestone)
        ensures { TurnsTo self.old self.new milestone }
    {
        let good = good_biu_for(&self.onsets, milestone);
        self.bius.await_all(self.shape.biu(), milestone, good);
        let good = good_rmu_for(&self.onsets, milestone);
        self.rmus.await_all(self.shape.rmu(), milestone, good);
        self.upcoming = milestone;
    }
}
