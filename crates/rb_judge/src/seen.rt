//! What is kept of the sights of one source in a stage.
ghost use Rattle.std.specs.Prelude.{◌≡◌, ℕ, ◌<◌, true, false, ◌==◌, if◌then◌else◌};
ghost use Rattle.rb_base.specs.Nodes.{has};
ghost use Rattle.rb_base.specs.declared.values.See.{See};
ghost use Rattle.rb_base.specs.declared.values.See.TheVariants.{Nothing};
ghost use Rattle.rb_rules.specs.Majority.{same_heard};
ghost use Rattle.rb_judge.specs.Sights.{ShowsSource, clashes, is_unlike, kept_of, kept_with, widened};

use rb_base::{Heard, NodeId, NodeSet, See};

/// What is kept of the sights that are something.
#[derive(Clone, Copy)]
pub enum KeptSight {
    /// Two of them are unlike.
    Unlike,
    /// All are this value.
    Value(Heard),
    /// All are times, of which these are the least and the greatest.
    Times { least: u64, greatest: u64 },
}

/// What is kept of the sights of one source.
#[derive(Clone, Copy)]
pub struct SourceSights {
    /// The receivers that saw something.
    pub by: u16,
    /// Whether there is one.
    pub heard: bool,
    /// Whether two good receivers saw the source unlike.
    pub unlike: bool,
    pub kept: KeptSight,
}

impl SourceSights {
    /// The sights of a source of which nobody saw anything.
    pub fn none() -> SourceSights
        ensures { (eps good : ℕ) → ShowsSource eps good (λ i. Nothing) result }
    {
        SourceSights {
            by: 0,
            heard: false,
            unlike: false,
            kept: KeptSight::Unlike,
        }
    }

    /// One sight more. The receiver is one of the good ones, and saw nothing of the source so far.
    /// The times of one message may be `eps` reference units apart.
    pub fn noted<R: Copy>(self, good: NodeSet<R>, eps: u32, receiver: u8, see: See) -> SourceSights
        requires number { receiver < 16 }
        requires good { has good receiver ≡ true }
        requires once { has self.by receiver ≡ false }
        ensures { (sight : ℕ → See) → ShowsSource eps good sight self
            → ShowsSource eps good (λ i. if i == receiver then see else sight i) result }
    {
        if let See::Nothing = see {
            return self;
        }
        let kept = kept_with(eps, self.heard, self.kept, see);
        let mut by: NodeSet<R> = NodeSet::from_bits(self.by);
        by.insert(NodeId::of(receiver));
        let by = by.bits();
        SourceSights {
            by,
            heard: true,
            unlike: by != good.bits() || is_unlike(kept),
            kept,
        }
    }
}

fn is_unlike(kept: KeptSight) -> bool
    ensures { result ≡ is_unlike kept }
{
    matches!(kept, KeptSight::Unlike)
}

// What is kept of sights and one more.
fn kept_with(eps: u32, heard: bool, kept: KeptSight, see: See) -> KeptSight
    ensures { result ≡ kept_with eps heard kept see }
{
    if !heard {
        kept_of(see)
    } else if clashes(eps, kept, see) {
        KeptSight::Unlike
    } else {
        widened(kept, see)
    }
}

// What is kept of a first sight.
fn kept_of(see: See) -> KeptSight
    ensures { result ≡ kept_of see }
{
    match see {
        See::Nothing => KeptSight::Unlike,
        See::Value(value) => KeptSight::Value(value),
        See::Time(time) => KeptSight::Times {
            least: time,
            greatest: time,
        },
    }
}

// What is kept of sights and one more that is like all of them.
fn widened(kept: KeptSight, see: See) -> KeptSight
    ensures { result ≡ widened kept see }
{
    match (kept, see) {
        (KeptSight::Times { least, greatest }, See::Time(time)) => KeptSight::Times {
            least: least.min(time),
            greatest: greatest.max(time),
        },
        _ => kept,
    }
}

fn same_heard(v: Heard, w: Heard) -> bool
    ensures { result ≡ same_heard v w }
{
    match (v, w) {
        (Heard::Word(a), Heard::Word(b)) => a == b,
        (Heard::Fault, Heard::Fault) => true,
        _ => false,
    }
}

// Whether a sight is unlike one of those of which this is kept.
fn clashes(eps: u32, kept: KeptSight, see: See) -> bool
    ensures { result ≡ clashes eps kept see }
{
    match (kept, see) {
        (KeptSight::Value(v), See::Value(w)) => !same_heard(v, w),
        (KeptSight::Times { least, greatest }, See::Time(time)) => {
            let eps = u64::from(eps);
            eps < time.saturating_sub(least) || eps < greatest.saturating_sub(time)
        }
        _ => true,
    }
}
