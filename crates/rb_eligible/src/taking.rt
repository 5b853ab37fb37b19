//! What a node takes in a window, and whom it accuses for what came.
ghost use Rattle.std.specs.Prelude.{◌≡◌, ℕ, ◌<◌, ◌*◌, ◌^◌, ◌&&◌, ◌||◌, ◌⊎◌, None, true, if◌then◌else◌, length, replicate, slice_set, IfSome, IsNone, IsSome, IsTrue};
ghost use Rattle.rb_base.specs.Nodes.{has, set_of, size};
ghost use Rattle.rb_rules.specs.ExactStage.{present};
ghost use Rattle.rb_rules.specs.Majority.{majority_of};
ghost use Rattle.rb_rules.specs.Standing.{is_eligible};
ghost use Rattle.rb_eligible.specs.Inboxes.{is_sole, sole_at};
ghost use Rattle.rb_eligible.specs.Standings.{standing_of};
ghost use Rattle.rb_eligible.specs.Takings.{AccusesBy, AreOnesOf, AreTakenOf, AreValuesOf, IsPartial, IsRun};

use crate::inbox::Inbox;
use crate::reading::{Sole, said_of, word_of};
use crate::standing::Standing;
use rb_base::{Heard, NodeId, NodeSet};
use rb_rules::Expect;

/// What was taken in a window: of which sources exactly one message came that is meant for it. If
/// `alike` says that more than half of what was taken is alike, `value` is what it is; if it does
/// not, that has to be counted.
#[derive(Clone, Copy, Debug, PartialEq, Eq)]
pub struct Taking<K> {
    pub ones: NodeSet<K>,
    pub alike: bool,
    pub value: Heard,
}

// Whether the sources of the one set are more than half of those of the other.
fn leads<K: Copy>(same: NodeSet<K>, ones: NodeSet<K>) -> bool
    ensures { IsTrue result → size ones < 2 * size same }
{
    ones.count() < 2 * same.count()
}

// The first source that is left.
#[inline(always)]
fn first_of<K: Copy>(left: NodeSet<K>) -> Option<NodeId<K>>
    ensures first { IfSome result (λ first. has left first ≡ true) }
    ensures none { IsNone result → left ≡ 0 }
{
    let mut rest = left;
    rest.pop_first()
}

// Writes down what was accepted from the source.
#[inline(always)]
fn put<K: Copy>(source: NodeId<K>, value: Option<Heard>, taken: &mut [Option<Heard>; 16])
    ensures small { source < 16 }
    ensures taken { taken.new ≡ slice_set taken.old source value }
{
    taken[usize::from(source.index())] = value;
}

// Takes the value of the first source that is left, and of those after it up to the first one that
// spells otherwise. Gives those that are left then.
#[inline(always)]
fn take_run<K: Copy>(
    inbox: &Inbox<K>,
    left: NodeSet<K>,
    first: NodeId<K>,
    value: Option<Heard>,
    taken: &mut [Option<Heard>; 16],
) -> NodeSet<K>
    requires inside { has left first ≡ true }
    requires all { length taken.old ≡ 16 }
    ensures run { IsRun inbox.now left result (sole_at inbox.now.soles first) value taken.old
        taken.new }
    ensures fewer { size result < size left }
    ensures all { length taken.new ≡ 16 }
{
    let Sole { low, tail, .. } = *inbox.sole_at(first);
    let mut rest = left;
    rest.remove(first);
    put(first, value, taken);
    while let Some(source) = first_of(rest) {
        let sole = inbox.sole_at(source);
        if sole.low != low || sole.tail != tail {
            return rest;
        }
        rest.remove(source);
        put(source, value, taken);
    }
    rest
}

// Sources of which the same value was taken.
#[derive(Clone, Copy)]
struct Group<K> {
    sources: NodeSet<K>,
    value: Option<Heard>,
}

// What was accepted from the sources of a set, without those that are left: from which of them
// exactly one message came, and the largest group.
#[derive(Clone, Copy)]
struct Partial<K> {
    left: NodeSet<K>,
    ones: NodeSet<K>,
    lead: Group<K>,
}

// Whether both are the same value.
fn are_same(value: Option<Heard>, other: Option<Heard>) -> bool
    ensures same { IsTrue result → value ≡ other }
    ensures some { IsTrue result → IsSome value }
{
    match (value, other) {
        (Some(Heard::Word(word)), Some(Heard::Word(another))) => word == another,
        (Some(Heard::Fault), Some(Heard::Fault)) => true,
        _ => false,
    }
}

// The group with the run added, if the run has the same value as the group. Otherwise the run if it
// has a value and more sources than the group, and else the group.
fn with_run<K: Copy>(lead: Group<K>, run: NodeSet<K>, value: Option<Heard>) -> Group<K>
    ensures { (j : ℕ) → j < 16 → has result.sources j ≡ true
        → ((has lead.sources j ≡ true) × (result.value ≡ lead.value))
        ⊎ ((has run j ≡ true) × ((result.value ≡ value) × IsSome value)) }
{
    if are_same(value, lead.value) {
        Group {
            sources: lead.sources.union(run),
            value,
        }
    } else if value.is_some() && lead.sources.count() < run.count() {
        Group {
            sources: run,
            value,
        }
    } else {
        lead
    }
}

// The set, with the run added if exactly one message came from each of its sources.
fn with_ones<K: Copy>(ones: NodeSet<K>, run: NodeSet<K>, one: bool) -> NodeSet<K>
    ensures { result ≡ (if one then set_of (λ j. has ones j || has run j) else ones) }
{
    if one { ones.union(run) } else { ones }
}

// All sources of the set are left.
fn nothing_of<K: Copy>(due: NodeSet<K>) -> Partial<K>
    ensures left { result.left ≡ due }
    ensures ones { result.ones ≡ 0 }
    ensures lead { result.lead.sources ≡ 0 }
{
    Partial {
        left: due,
        ones: NodeSet::empty(),
        lead: Group {
            sources: NodeSet::empty(),
            value: None,
        },
    }
}

// Accepts what came from those sources of the set that are left. There is one arrival from each.
// The sources are taken in runs: the first source that is left is read, and what it said is
// accepted from those after it, up to the first that spells otherwise.
#[inline(never)]
fn take_runs<K: Copy>(
    inbox: &Inbox<K>,
    due: NodeSet<K>,
    start: Partial<K>,
    expect: &Expect,
    taken: &mut [Option<Heard>; 16],
) -> Taking<K>
    requires due { (j : ℕ) → j < 16 → has due j ≡ true → is_sole inbox.now j ≡ true }
    requires start { IsPartial inbox.now expect.now due start.left start.ones start.lead.sources
        start.lead.value taken.old }
    requires all { length taken.old ≡ 16 }
    ensures ones { AreOnesOf inbox.now expect.now (has due) result.ones }
    ensures taken { AreValuesOf inbox.now expect.now due taken.new }
    ensures alike { IsTrue result.alike → majority_of (present taken.new) ≡ result.value }
    ensures all { length taken.new ≡ 16 }
{
    let Partial {
        mut left,
        mut ones,
        mut lead,
    } = start;
    while let Some(first) = first_of(left) {
        let said = said_of(inbox.sole_at(first), expect);
        let rest = take_run(inbox, left, first, said.value, taken);
        let run = left.difference(rest);
        ones = with_ones(ones, run, said.one);
        lead = with_run(lead, run, said.value);
        left = rest;
    }
    Taking {
        ones,
        alike: leads(lead.sources, ones),
        value: lead.value.unwrap_or(Heard::Fault),
    }
}

// Accepts what came from the sources of the set. There is one arrival from each. If all say the
// same word, which is nearly always so, nothing is counted: this is the short cut "arrivals alike"
// of docs/PERFORMANCE.md.
#[inline(always)]
fn take_due<K: Copy>(
    inbox: &Inbox<K>,
    due: NodeSet<K>,
    expect: &Expect,
    taken: &mut [Option<Heard>; 16],
) -> Taking<K>
    requires fits { due < 2 ^ 16 }
    requires due { (j : ℕ) → j < 16 → has due j ≡ true → is_sole inbox.now j ≡ true }
    requires blank { taken.old ≡ replicate 16 None }
    ensures ones { AreOnesOf inbox.now expect.now (has due) result.ones }
    ensures taken { AreValuesOf inbox.now expect.now due taken.new }
    ensures alike { IsTrue result.alike → majority_of (present taken.new) ≡ result.value }
    ensures all { length taken.new ≡ 16 }
{
    let Some(first) = first_of(due) else {
        return take_runs(inbox, due, nothing_of(due), expect, taken);
    };
    let sole = inbox.sole_at(first);
    let Some(word) = word_of(sole.low, sole.tail, expect) else {
        return take_runs(inbox, due, nothing_of(due), expect, taken);
    };
    let value = Heard::Word(word);
    let rest = take_run(inbox, due, first, Some(value), taken);
    if rest.is_empty() {
        return Taking {
            ones: due,
            alike: true,
            value,
        };
    }
    let run = due.difference(rest);
    let lead = Group {
        sources: run,
        value: Some(value),
    };
    let begun = Partial {
        left: rest,
        ones: run,
        lead,
    };
    take_runs(inbox, due, begun, expect, taken)
}

// The sources of the set of which exactly one message came that is meant for the window.
#[inline(never)]
fn ones_among<K: Copy>(inbox: &Inbox<K>, set: NodeSet<K>, expect: &Expect) -> NodeSet<K>
    ensures { AreOnesOf inbox.now expect.now (has set) result }
{
    let due = set.intersection(inbox.soles());
    let mut taken = [None; 16];
    take_due(inbox, due, expect, &mut taken).ones
}

// The sources in `barred` from which exactly one message arrived that is meant for the window. They
// are expected, and accused already.
fn ones_barred<K: Copy>(inbox: &Inbox<K>, barred: NodeSet<K>, expect: &Expect) -> NodeSet<K>
    ensures { AreOnesOf inbox.now expect.now (has barred) result }
{
    if barred.is_empty() {
        barred
    } else {
        ones_among(inbox, barred, expect)
    }
}

// Accuses after a window. `ones` are the expected and eligible sources from which exactly one
// message came that is meant for it.
#[inline(always)]
fn accuse_by<K: Copy>(
    inbox: &Inbox<K>,
    standing: &mut Standing<K>,
    expect: &Expect,
    expected: NodeSet<K>,
    ones: NodeSet<K>,
)
    requires { AreOnesOf inbox.now expect.now (λ j. has expected j
        && is_eligible (standing_of standing.old) j) ones }
    ensures { AccusesBy inbox.now (standing_of standing.old) expect.now expected
        (standing_of standing.new) }
{
    let barred = expected.intersection(standing.direct);
    let ones = ones.union(ones_barred(inbox, barred, expect));
    let evidence = standing.evidence(expected, ones, inbox.came());
    standing.accuse_each(evidence);
}

// The sources of which something may be taken: they are expected and eligible, and of each there is
// one arrival.
#[inline(always)]
fn due_of<K: Copy>(inbox: &Inbox<K>, standing: &Standing<K>, expected: NodeSet<K>) -> NodeSet<K>
    ensures fits { result < 2 ^ 16 }
    ensures due { (j : ℕ) → j < 16
        → has result j ≡ ((has expected j && is_eligible (standing_of standing.now) j)
        && is_sole inbox.now j) }
{
    standing.eligible_of(expected).intersection(inbox.soles())
}

/// Takes what came in a window of each source that is expected and eligible, if exactly one message
/// came and it is meant for the window: `taken` then has by source the value of that message, which
/// a call to resynchronize has not. Then each trusted source is accused that was expected and of
/// which not exactly that came, or that was not expected and of which something came. What was
/// taken in an earlier window is written over.
#[inline(always)]
pub fn take_with_evidence<K: Copy>(
    inbox: &Inbox<K>,
    standing: &mut Standing<K>,
    expect: &Expect,
    expected: NodeSet<K>,
    taken: &mut [Option<Heard>; 16],
) -> Taking<K>
    ensures ones { AreOnesOf inbox.now expect.now (λ j. has expected j
        && is_eligible (standing_of standing.old) j) result.ones }
    ensures taken { AreTakenOf inbox.now (standing_of standing.old) expect.now expected taken.new }
    ensures accused { AccusesBy inbox.now (standing_of standing.old) expect.now expected
        (standing_of standing.new) }
    ensures alike { IsTrue result.alike → majority_of (present taken.new) ≡ result.value }
{
    let due = due_of(inbox, standing, expected);
    *taken = [None; 16];
    let taking = take_due(inbox, due, expect, taken);
    accuse_by(inbox, standing, expect, expected, taking.ones);
    taking
}

/// Whether a window is quiet: nothing came, and no trusted source is expected. Then nothing is
/// taken, and nobody accused.
#[inline(always)]
pub fn is_quiet<K: Copy>(inbox: &Inbox<K>, standing: &Standing<K>, expected: NodeSet<K>) -> bool
    ensures came { IsTrue result → inbox.now.came ≡ 0 }
    ensures nobody { IsTrue result
        → set_of (λ j. has standing.now.trusted j && has expected j) ≡ 0 }
    ensures told { inbox.now.came ≡ 0
        → set_of (λ j. has standing.now.trusted j && has expected j) ≡ 0 → IsTrue result }
    ensures direct { standing.now.direct < 2 ^ 16 }
    ensures fresh { standing.now.fresh < 2 ^ 16 }
{
    let (_direct, _fresh) = (standing.direct.bits(), standing.fresh.bits());
    inbox.came().is_empty() && standing.trusted.intersection(expected).is_empty()
}
