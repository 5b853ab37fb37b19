//! A sender of letters.
ghost use Rattle.std.specs.Prelude.{◌≡◌, ◌≤◌, ◌↔◌, [], OnErr, OnOk, get_or, length, nat_lt};
ghost use Rattle.rb_long.specs.Spelling.{parts_in, spelling_of};
ghost use Rattle.rb_long.specs.Waiting.{error_in, next_word_of, refusal_of, with_letter, without_word};

use crate::refusal::LongRefusal;
use crate::spelling::{first_word, is_length, part_at};
use arrayvec::ArrayVec;
use std::marker::Model;

/// Letters that wait to be sent, at most eight, and how many words of the first were given.
#[derive(Drop)]
pub struct LongSender {
    letters: ArrayVec<ArrayVec<u8, 255>, 8>,
    sent: u8,
}

impl Model for LongSender {
    ghost use Rattle.std.specs.Prelude.{ℕ, List};
    ghost use Rattle.rb_long.specs.Senders.{AreWaiting, waiting_in};

    ghost Value = { List (List ℕ) };

    ghost view = { λ s. waiting_in s.sent s.letters.items };

    ghost invariant = { λ s. AreWaiting s.sent s.letters.items };
}

// The bytes, kept.
fn kept(letter: &[u8]) -> ArrayVec<u8, 255>
    requires { length letter.now ≤ 255 }
    ensures { result.items ≡ letter.now }
{
    let Ok(bytes) = ArrayVec::try_from(letter) else {
        unreachable!()
    };
    bytes
}

// The word of the letter after the first `sent` words.
fn word_at(letter: &[u8], sent: u8) -> u32
    requires most { length letter.now ≤ 255 }
    requires more { sent ≤ parts_in (length letter.now) }
    ensures { result ≡ get_or (spelling_of letter.now) sent 0 }
{
    if sent == 0 {
        first_word(letter.len() as u8)
    } else {
        part_at(letter, sent - 1)
    }
}

// Whether the letter has a word after `sent` words and one more.
fn has_more(letter: &[u8], sent: u8) -> bool
    requires { length letter.now ≤ 255 }
    ensures { result ≡ nat_lt sent (parts_in (length letter.now)) }
{
    usize::from(sent) < letter.len().div_ceil(3)
}

impl LongSender {
    /// Nothing waits.
    pub fn new() -> LongSender
        ensures { result ≡ [] }
    {
        LongSender {
            letters: ArrayVec::new(),
            sent: 0,
        }
    }

    /// Takes a letter to be sent after those that wait. It is refused if and only if it has not 1
    /// to 255 bytes (`Length`), or it has and eight letters are not wholly sent (`Full`); then
    /// nothing changes.
    pub fn push(&mut self, letter: &[u8]) -> Result<(), LongRefusal>
        ensures answer { error_in result ≡ refusal_of self.old letter.now }
        ensures waits { OnOk result (self.new ≡ with_letter self.old letter.now) }
        ensures same { OnErr result (self.new ≡ self.old) }
    {
        if !is_length(letter.len()) {
            return Err(LongRefusal::Length);
        }
        if self.letters.is_full() {
            return Err(LongRefusal::Full);
        }
        self.letters.push(kept(letter));
        Ok(())
    }

    /// The next word of the letters that wait, 0 if and only if none waits. A letter waits until
    /// its last word is given.
    pub fn next_word(&mut self) -> u32
        ensures word { result ≡ next_word_of self.old }
        ensures rest { self.new ≡ without_word self.old }
        ensures none { (result ≡ 0) ↔ (self.old ≡ []) }
    {
        let Some(letter) = self.letters.first() else {
            return 0;
        };
        let word = word_at(letter.as_slice(), self.sent);
        if has_more(letter.as_slice(), self.sent) {
            self.sent += 1;
        } else {
            self.letters.remove(0);
            self.sent = 0;
        }
        word
    }
}
