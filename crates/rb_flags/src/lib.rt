//! The words that ask a program about itself.
#![tactic(auto)]

ghost use Rattle.std.specs.Prelude.{◌≡◌, ◌≢◌, IfNone, IfSome};
ghost use Rattle.rb_flags.specs.declared.Flag.{Flag};
ghost use Rattle.rb_flags.specs.Flags.{flag_text};

/// A word that asks a program about itself.
#[derive(Clone, Copy, Debug, PartialEq, Eq)]
pub enum Flag {
    /// `--help`: how the program is used.
    Help,
    /// `-h`: the same.
    ShortHelp,
    /// `--version`: the name of the program and its version.
    Version,
}

/// The flag that the word is, byte by byte. `None` if and only if it is none.
pub fn flag_in(word: &str) -> Option<Flag>
    ensures some { IfSome result (λ flag. word.now ≡ flag_text flag) }
    ensures none { IfNone result ((flag : Flag) → word.now ≢ flag_text flag) }
{
    match word {
        "--help" => Some(Flag::Help),
        "-h" => Some(Flag::ShortHelp),
        "--version" => Some(Flag::Version),
        _ => None,
    }
}
