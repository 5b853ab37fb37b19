//! A receiver of letters.
ghost use Rattle.std.specs.Prelude.{◌≡◌, ◌<◌, ◌≤◌, ℕ, IfSome, None, length, get_or, replicate, slice_set};
ghost use Rattle.arrayvec.specs.ArrayVec.{ArrayVec as Letter};
ghost use Rattle.rb_long.specs.Reading.{with_value};
ghost use Rattle.rb_long.specs.Readers.{letter_in};

use crate::reading::{Reader, hear};
use arrayvec::ArrayVec;
use rb_base::Heard;
use std::marker::Model;

/// What a port has received of the letters from each sender.
#[derive(Drop)]
pub struct LongReceiver {
    readers: [Reader; 16],
}

impl Model for LongReceiver {
    ghost use Rattle.std.specs.Prelude.{Option, List, map};
    ghost use Rattle.rb_long.specs.Reading.{OpenLetter};
    ghost use Rattle.rb_long.specs.Readers.{open_of};

    ghost Value = { List (Option OpenLetter) };

    ghost view = { λ r. map open_of r.readers };
}

impl LongReceiver {
    /// Nothing has been received: no letter is open.
    pub fn new() -> LongReceiver
        ensures { result ≡ replicate 16 None }
    {
        LongReceiver {
            readers: Default::default(),
        }
    }

    /// Hears the next value of that sender, below 16. `None` if and only if it gives no letter.
    pub fn hear(&mut self, sender: u8, value: Heard) -> Option<ArrayVec<u8, 255>>
        requires { sender < 16 }
        ensures given { letter_in result ≡ (with_value value (get_or self.old sender None)).given }
        ensures some { IfSome result (λ (letter : Letter ℕ). 1 ≤ length letter.items) }
        ensures after { self.new ≡ slice_set self.old sender
            (with_value value (get_or self.old sender None)).after }
    {
        hear(&mut self.readers[usize::from(sender)], value)
    }
}
