//! What words ask for.
ghost use Rattle.std.specs.Prelude.{ℕ, ◌≡◌, ◌≢◌, ◌<◌, ◌^◌, ◌∷◌, [], IfSome, IfNone, decimal};
ghost use Rattle.rb_picture.specs.declared.form.Form.{Form};
ghost use Rattle.rb_picture.specs.Forms.{AskFor, IsInRange, first_of, last_of, words_of};

use itoa::Buffer;
use rb_flags::{Flag, flag_in};

/// The frames that are to be drawn.
#[derive(Clone, Copy)]
pub enum Frames {
    /// All of them.
    All,
    /// From the first to the last of two numbers.
    Between(u32, u32),
}

/// What is to be done.
#[derive(Clone, Copy)]
pub enum Form {
    /// To draw the report that is read.
    Draw(Frames),
    /// To write what the flag asks for.
    Show(Flag),
}

/// The first frame.
pub(crate) fn first_of(frames: Frames) -> u32
    ensures { result ≡ first_of frames }
{
    match frames {
        Frames::All => 0,
        Frames::Between(first, _) => first,
    }
}

/// The last frame that there may be.
pub(crate) fn last_of(frames: Frames) -> u32
    ensures { result ≡ last_of frames }
{
    match frames {
        Frames::All => u32::MAX,
        Frames::Between(_, last) => last,
    }
}

// The number that the text is, in decimal without sign and without leading zero.
fn number_in(text: &str) -> Option<u32>
    ensures some { IfSome result (λ n. (n < 2 ^ 32) × (text.now ≡ decimal n)) }
    ensures none { IfNone result ((n : ℕ) → n < 2 ^ 32 → text.now ≢ decimal n) }
{
    let number = match text.parse::<u32>() {
        Ok(number) => number,
        Err(_) => return None,
    };
    if Buffer::new().format(number) == text {
        Some(number)
    } else {
        None
    }
}

// The frames from one number to another.
#[tactic(auto, using(crate::proofs::Words::not_in_order))]
fn ordered(first: u32, last: u32) -> Option<Form>
    ensures some { IfSome result (λ form. (words_of form ≡ decimal first ∷ decimal last ∷ [])
        × IsInRange form) }
    ensures none { IfNone result ((form : Form) → IsInRange form
        → words_of form ≢ decimal first ∷ decimal last ∷ []) }
{
    if first <= last {
        Some(Form::Draw(Frames::Between(first, last)))
    } else {
        None
    }
}

// The frames from one text to another.
fn between(first: &str, last: &str) -> Option<Form>
    ensures some { IfSome result (λ form. (words_of form ≡ first.now ∷ last.now ∷ [])
        × IsInRange form) }
    ensures none { IfNone result ((form : Form) → IsInRange form
        → words_of form ≢ first.now ∷ last.now ∷ []) }
{
    match (number_in(first), number_in(last)) {
        (Some(first), Some(last)) => ordered(first, last),
        _ => None,
    }
}

// The form of a flag.
#[tactic(auto, using(crate::proofs::Words::no_flag))]
fn show_of(word: &str) -> Option<Form>
    ensures some { IfSome result (λ form. (words_of form ≡ word.now ∷ []) × IsInRange form) }
    ensures none { IfNone result ((form : Form) → words_of form ≢ word.now ∷ []) }
{
    match flag_in(word) {
        Some(flag) => Some(Form::Show(flag)),
        None => None,
    }
}

/// What the words ask for, byte by byte. None for all other words.
pub(crate) fn form_in(words: &[String]) -> Option<Form>
    ensures some { IfSome result (AskFor words.now) }
    ensures none { IfNone result ((form : Form) → ¬ AskFor words.now form) }
{
    match words {
        [] => Some(Form::Draw(Frames::All)),
        [word] => show_of(word.as_str()),
        [first, last] => between(first.as_str(), last.as_str()),
        _ => None,
    }
}
