//! Which calls of a source or a sink in memory fail.
ghost use Rattle.std.specs.Prelude.{◌≡◌, ◌≤◌, ◌↔◌, IsTrue};
ghost use Rattle.rb_outside.specs.Causes.{next_count};
ghost use Rattle.rb_outside.specs.Memory.{IsNextListed, no_calls};

use crate::faults::Faults;
use crate::traits::Failed;
use std::marker::Model;

/// The calls that are to fail, by their numbers from 1, and the calls and faults so far.
#[derive(Drop)]
pub struct Script {
    failing: Vec<u64>,
    had: u64,
    faults: Faults,
}

impl Model for Script {
    ghost use Rattle.rb_outside.specs.Memory.{Calls};

    ghost Value = { Calls };

    ghost view = { λ s. record { failing = s.failing.items; had = s.had; faults = s.faults } };
}

impl Script {
    pub fn new(failing: Vec<u64>) -> Script
        ensures { result ≡ no_calls failing.items }
    {
        Script {
            failing,
            had: 0,
            faults: Faults::new(),
        }
    }

    /// How many calls there were, up to 2^64-1.
    pub fn had(&self) -> u64
        ensures { result ≡ self.now.had }
    {
        self.had
    }

    /// Counts a call, and says whether its number is listed. A call after call 2^64-1 has none.
    pub fn begin_call(&mut self) -> bool
        ensures listed { IsTrue result ↔ IsNextListed self.old }
        ensures counted { self.new ≡ record self.old { had = next_count self.old.had } }
    {
        if self.had == u64::MAX {
            return false;
        }
        self.had += 1;
        self.failing.contains(&self.had)
    }

    /// Counts a fault.
    pub fn fail(&mut self) -> Failed
        ensures counted { self.new ≡ record self.old { faults = next_count self.old.faults } }
        ensures later { self.old.faults ≤ self.new.faults }
    {
        self.faults.add()
    }
}
