//! The marks of the ticks of all nodes, and beside them the least of each four.
ghost use Rattle.std.specs.Prelude.{◌≡◌, ◌+◌, ◌*◌, ◌/◌, ◌<◌, ◌≤◌, length, slice_set, min};
ghost use Rattle.std.proofs.Math.ListN.{replicate};
ghost use Rattle.rb_world_agenda.specs.Agenda.{least_key};
ghost use Rattle.rb_world_agenda.specs.Fours.{AreFours, four_at};

/// The marks of the ticks of all nodes, by position, 32 in all.
#[derive(Drop)]
pub struct Marks {
    pub(crate) all: [u64; 32],
    // The least of each four marks. It is not kept for the four that are open: 2^64 - 1 is in its
    // place.
    pub(crate) leasts: [u64; 8],
    // Which four are open.
    pub(crate) opened: usize,
    // The place of the mark that was found to be the least, while its four are open. Else it is 32.
    pub(crate) at: usize,
}

// The least of four numbers, which are compared in pairs.
#[inline(always)]
fn four_at(all: &[u64], i: usize) -> u64
    requires { i + 4 ≤ length all.now }
    ensures { result ≡ four_at all.now i }
{
    let first = all[i].min(all[i + 1]);
    let second = all[i + 2].min(all[i + 3]);
    first.min(second)
}

// The least of those that are kept.
#[inline(always)]
fn least_kept(leasts: &[u64; 8]) -> u64
    ensures { result ≡ min (four_at leasts.now 0) (four_at leasts.now 4) }
{
    four_at(leasts, 0).min(four_at(leasts, 4))
}

// The least of the four that were open is kept, and others are open.
#[inline(always)]
fn put_leasts(leasts: &mut [u64; 8], before: usize, least: u64, after: usize)
    requires before { before < 8 }
    requires after { after < 8 }
    ensures { leasts.new ≡ slice_set (slice_set leasts.old before least) after
        18446744073709551615 }
{
    leasts[before] = least;
    leasts[after] = u64::MAX;
}

impl Marks {
    pub(crate) fn new() -> Marks
        ensures marks { result.all ≡ replicate 32 18446744073709551615 }
        ensures fours { AreFours result.all result.leasts result.opened result.at }
    {
        Marks {
            all: [u64::MAX; 32],
            leasts: [u64::MAX; 8],
            opened: 0,
            at: 32,
        }
    }

    // The four with this place are open.
    #[inline(never)]
    fn turn_to(&mut self, place: usize)
        requires place { place < 32 }
        requires fours { AreFours self.old.all self.old.leasts self.old.opened self.old.at }
        ensures marks { self.new.all ≡ self.old.all }
        ensures fours { AreFours self.new.all self.new.leasts self.new.opened self.new.at }
        ensures opened { self.new.opened ≡ place / 4 }
    {
        if self.opened == place / 4 {
            return;
        }
        let least = four_at(&self.all, self.opened * 4);
        put_leasts(&mut self.leasts, self.opened, least, place / 4);
        self.opened = place / 4;
        self.at = 32;
    }

    // The mark at a place changes.
    #[inline(always)]
    pub(crate) fn put(&mut self, place: usize, mark: u64)
        requires place { place < 32 }
        requires fours { AreFours self.old.all self.old.leasts self.old.opened self.old.at }
        ensures marks { self.new.all ≡ slice_set self.old.all place mark }
        ensures fours { AreFours self.new.all self.new.leasts self.new.opened self.new.at }
    {
        if place != self.at {
            self.turn_to(place);
        }
        self.all[place] = mark;
    }

    // The least of all marks. Its four are open then.
    #[inline(always)]
    pub(crate) fn least(&mut self) -> u64
        requires { AreFours self.old.all self.old.leasts self.old.opened self.old.at }
        ensures least { result ≡ least_key self.old.all }
        ensures marks { self.new.all ≡ self.old.all }
        ensures fours { AreFours self.new.all self.new.leasts self.new.opened self.new.at }
    {
        let own = four_at(&self.all, self.opened * 4);
        let least = own.min(least_kept(&self.leasts));
        if least == u64::MAX {
            return least;
        }
        let place = (least % 32) as usize;
        put_leasts(&mut self.leasts, self.opened, own, place / 4);
        self.opened = place / 4;
        self.at = place;
        least
    }
}
