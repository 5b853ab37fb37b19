//! Which of the events that are due is taken.
ghost use Rattle.std.specs.Prelude.{◌≡◌, ◌<◌, ◌≤◌};
ghost use Rattle.rb_world.specs.Nexts.{begun_with, drawn, place_among};

use rb_gen::Draws;

/// Which of the events that are due is taken: the first, the last, or the one that the generator of
/// numbers draws, whose state goes on from call to call with the same seed.
#[derive(Clone, Copy, Debug, PartialEq, Eq)]
pub enum Ties {
    First,
    Last,
    Seeded(u64),
}

/// The draws among events that are due, and the seed with which they began.
#[derive(Clone, Copy, Debug, PartialEq, Eq)]
pub struct Seeding {
    pub seed: u64,
    pub draws: Draws,
}

impl Seeding {
    /// Draws from this seed.
    pub fn new(seed: u64) -> Seeding
        ensures seed { result.seed ≡ seed }
        ensures state { result.draws.state ≡ seed }
    {
        Seeding {
            seed,
            draws: Draws::new(seed),
        }
    }

    /// The draws with which a call begins: if it has another seed than the last one, they start
    /// anew.
    pub fn begin(self, ties: Ties) -> Seeding
        ensures { result ≡ begun_with ties self }
    {
        match ties {
            Ties::Seeded(seed) if seed != self.seed => Seeding::new(seed),
            _ => self,
        }
    }
}

/// The place of the event that is taken, among `due` of them.
pub(crate) fn choose(ties: Ties, draws: &mut Draws, due: usize) -> usize
    requires some { 1 ≤ due }
    ensures below { result < due }
    ensures place { result ≡ place_among ties draws.new.state due }
    ensures state { draws.new.state ≡ drawn ties draws.old.state }
{
    match ties {
        Ties::First => 0,
        Ties::Last => due - 1,
        Ties::Seeded(_) => draws.draw() as usize % due,
    }
}
