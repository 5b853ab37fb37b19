//! What a bus is handed.
ghost use Rattle.std.specs.Prelude.{◌≡◌, ◌<◌, ℕ, All, Option, [], ◌∷◌};
ghost use Rattle.rb_base.specs.declared.values.Heard.{Heard};
ghost use Rattle.rb_rules.specs.WorldStep.{World as RunWorld};
ghost use Rattle.rb_world.specs.Worlds.{Stands};
ghost use Rattle.rb_rules_bridge.specs.Bridges.{across, biu_on};
ghost use Rattle.rb_bridge.specs.Holding.{HoldValues};
ghost use Rattle.rb_bridge.specs.Handing.{with_words};

use crate::values::{Values, word_at};
use rb_rules_bridge::{Bank, Pair};
use rb_world::World;

// The BIU of a pair on a bank, and that across the bridge.
fn ends(bank: Bank, pair: &Pair) -> (u8, u8)
    ensures here { result.0 ≡ biu_on bank pair.now }
    ensures there { result.1 ≡ biu_on (across bank) pair.now }
{
    match bank {
        Bank::Left => (pair.left, pair.right),
        Bank::Right => (pair.right, pair.left),
    }
}

// Hands over the word of one pair.
fn hand_word(world: &mut World, bank: Bank, pair: &Pair, values: &Values)
    requires { biu_on (across bank) pair.now < 16 }
    ensures world { (told : ℕ → Option Heard) (w : RunWorld) → HoldValues told values.now
        → Stands world.old w
        → Stands world.new (with_words world.old.bus bank told (pair.now ∷ []) w) }
    ensures bus { world.new.bus ≡ world.old.bus }
{
    let (here, there) = ends(bank, pair);
    let word = word_at(values, there);
    world.hand(here, u64::from(word));
}

/// Hands to the BIU of each pair on a bank the word that its BIU across the bridge carries, by the
/// values of that bus's carried slot. The last turn of this bus must be the record of a frame; a
/// BIU that is not good at its start is handed nothing.
pub(crate) fn hand_over(world: &mut World, bank: Bank, pairs: &[Pair], values: &Values)
    requires { All (λ pair. biu_on (across bank) pair < 16) pairs.now }
    ensures world { (told : ℕ → Option Heard) (w : RunWorld) → HoldValues told values.now
        → Stands world.old w
        → Stands world.new (with_words world.old.bus bank told pairs.now w) }
    ensures bus { world.new.bus ≡ world.old.bus }
{
    for pair in pairs {
        hand_word(world, bank, pair, values);
    }
}
