//! The stored voters.
ghost use Rattle.std.specs.Prelude.{◌≡◌, ◌≤◌, length};
ghost use Rattle.rb_group.specs.Answering.{AnswersAs};
ghost use Rattle.rb_group.specs.Groups.{voted_by};
ghost use Rattle.rb_group.specs.declared.voters.Which.TheVariants as which;

use arrayvec::ArrayVec;
use rb_base::Heard;

/// Answers one value for those of a group.
pub type Pick = Box<dyn Fn(&ArrayVec<Heard, 16>) -> Heard>;

/// A voter: how one value is found for those of a group.
#[derive(Drop)]
pub struct Voter {
    pub pick: Pick,
}

/// Which voter is meant.
#[derive(Clone, Copy, Debug, PartialEq, Eq)]
pub enum Which {
    /// The value that more than half of the values are, where Fault counts as a value, and Fault if
    /// no value is.
    Most,
    /// The middle word of the values: of n words in ascending order the one at place (n - 1) / 2,
    /// counted from 0 and rounded down, and Fault if there is no word.
    Mid,
}

// A voter that answers as this one.
#[derive(Drop)]
struct Stored {
    which: Which,
    pick: Pick,
    ghost answers: { AnswersAs which (Pick.pre pick) (Pick.post pick) },
}

fn call(pick: &Pick, values: &ArrayVec<Heard, 16>) -> Heard
    requires { Pick.pre pick.now values }
    ensures { Pick.post pick.now values.entry result }
{
    pick(values)
}

impl Stored {
    fn pick(&self, values: &ArrayVec<Heard, 16>) -> Heard
        ensures { result ≡ voted_by self.now.which values.now.items }
    {
        let _at_most_16 = values.len();
        call(&self.pick, values)
    }
}

/// The two voters, kept beside the fact that on every list they answer as such.
#[derive(Drop)]
pub struct Voters {
    most: Stored,
    mid: Stored,
    ghost is_most: { most.which ≡ which.Most },
    ghost is_mid: { mid.which ≡ which.Mid },
}

impl Voters {
    /// Keeps the two. On every list of at most 16 values each may be called, and answers as its
    /// voter does.
    pub fn new(most: Voter, mid: Voter) -> Voters
        requires most { AnswersAs which.Most (Pick.pre most.pick) (Pick.post most.pick) }
        requires mid { AnswersAs which.Mid (Pick.pre mid.pick) (Pick.post mid.pick) }
    {
        Voters {
            most: Stored {
                which: Which::Most,
                pick: most.pick,
            },
            mid: Stored {
                which: Which::Mid,
                pick: mid.pick,
            },
        }
    }

    /// The value that the voter finds for these values.
    pub fn pick(&self, which: Which, values: &ArrayVec<Heard, 16>) -> Heard
        ensures { result ≡ voted_by which values.now.items }
    {
        match which {
            Which::Most => self.most.pick(values),
            Which::Mid => self.mid.pick(values),
        }
    }
}

/// The two voters, in boxes that this allocator gives; if it gives none, its error leaves by `?`.
/// They are made in the function that calls this, since a function may not hand out a boxed
/// closure.
#[macro_export]
macro_rules! voters {
    ($alloc:expr) => {
        $crate::Voters::new(
            $crate::Voter {
                pick: Box::new($alloc, |values: &arrayvec::ArrayVec<rb_base::Heard, 16>| {
                    $crate::most_of(values)
                })?,
            },
            $crate::Voter {
                pick: Box::new($alloc, |values: &arrayvec::ArrayVec<rb_base::Heard, 16>| {
                    $crate::mid_of(values)
                })?,
            },
        )
    };
}
