//! The two votes.
ghost use Rattle.std.specs.Prelude.{◌≡◌, ◌<◌, ◌≤◌, ◌^◌, ◌++◌, ◌∷◌, [], All, IfSome, length};
ghost use Rattle.rb_rules.specs.Majority.{majority_of};
ghost use Rattle.rb_group.specs.Groups.{heard_of, middle_word_of, words_in};

use arrayvec::ArrayVec;
use rb_base::Heard;
use rb_mid::middle;
use rb_vote::majority;

/// The value that more than half of the values are, where Fault counts as a value, and Fault if no
/// value is.
pub fn most_of(values: &ArrayVec<Heard, 16>) -> Heard
    ensures { result ≡ majority_of values.now.items }
{
    majority(values)
}

/// The middle word of the values: of n words in ascending order the one at place (n - 1) / 2,
/// counted from 0 and rounded down, so the lower of two. Fault does not count, and is the answer if
/// and only if there is no word.
pub fn mid_of(values: &ArrayVec<Heard, 16>) -> Heard
    ensures { result ≡ middle_word_of values.now.items }
{
    let words = words_in(values.as_slice());
    heard_of(middle(&words))
}

// The words among the values.
fn words_in(values: &[Heard]) -> ArrayVec<u64, 16>
    requires { length values.now ≤ 16 }
    ensures words { result.items ≡ words_in values.now }
    ensures small { All (λ w. w < 2 ^ 32) result.items }
{
    let mut words = ArrayVec::new();
    for value in values {
        add_word(&mut words, *value);
    }
    words
}

// Adds the value, if it is a word.
fn add_word(words: &mut ArrayVec<u64, 16>, value: Heard)
    requires { length words.old.items < 16 }
    ensures word { words.new.items ≡ words.old.items ++ words_in (value ∷ []) }
    ensures small { All (λ w. w < 2 ^ 32) words.old.items → All (λ w. w < 2 ^ 32) words.new.items }
{
    if let Heard::Word(word) = value {
        words.push(u64::from(word));
    }
}

fn heard_of(word: Option<u64>) -> Heard
    requires { IfSome word (λ w. w < 2 ^ 32) }
    ensures { result ≡ heard_of word }
{
    match word {
        Some(word) => Heard::Word(word as u32),
        None => Heard::Fault,
    }
}
