//! The forms of words that the program knows.
ghost use Rattle.std.specs.Prelude.{◌≡◌, ◌≢◌, ◌∷◌, [], IfNone, IfSome};
ghost use Rattle.rb_flags.specs.declared.Flag.{Flag};
ghost use Rattle.rb_bridge_top.specs.declared.form.Form.{Form};
ghost use Rattle.rb_bridge_top.specs.declared.form.Form.TheVariants.{Show};
ghost use Rattle.rb_bridge_top.specs.Words.{AskFor, words_of};

use rb_flags::{Flag, flag_in};

/// What the words ask for.
#[derive(Clone, Copy, Debug, PartialEq, Eq)]
pub enum Form {
    /// To run a bridge and write what its receivers find.
    Run,
    /// To write what the flag asks for.
    Show(Flag),
}

// The form of a flag.
fn show_of(word: &str) -> Option<Form>
    ensures some { IfSome result (λ form. words_of form ≡ word.now ∷ []) }
    ensures none { IfNone result ((flag : Flag) → words_of (Show flag) ≢ word.now ∷ []) }
{
    match flag_in(word) {
        Some(flag) => Some(Form::Show(flag)),
        None => None,
    }
}

// The form of one word.
fn form_named(word: &str) -> Option<Form>
    ensures some { IfSome result (λ form. words_of form ≡ word.now ∷ []) }
    ensures none { IfNone result ((form : Form) → words_of form ≢ word.now ∷ []) }
{
    match word {
        "run" => Some(Form::Run),
        _ => show_of(word),
    }
}

/// The form that the words ask for, byte by byte. None for all other words.
pub(crate) fn form_of(words: &[String]) -> Option<Form>
    ensures some { IfSome result (AskFor words.now) }
    ensures none { IfNone result ((form : Form) → ¬ AskFor words.now form) }
{
    match words {
        [word] => form_named(word.as_str()),
        _ => None,
    }
}
