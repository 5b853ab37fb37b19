//! The forms of words that the program knows.
ghost use Rattle.std.specs.Prelude.{ℕ, ◌≡◌, ◌≢◌, ◌<◌, ◌≤◌, ◌^◌, ◌∷◌, ◌++◌, ◌*◌, ◌↔◌, [], List, length, IfNone, IfSome, IsTrue, codes, decimal, option_map, string_bytes};
ghost use Rattle.hex.specs.Hex.{decode_of, encode_lower};
ghost use Rattle.rb_base.specs.declared.node.NodeName.{NodeName};
ghost use Rattle.rb_scenario_document.specs.Names.{IsNumbered};
ghost use Rattle.rb_report.specs.Report.{node_text};
ghost use Rattle.rb_flags.specs.declared.Flag.{Flag};
ghost use Rattle.rb_top.specs.declared.form.Form.{Form};
ghost use Rattle.rb_top.specs.declared.form.Form.TheVariants.{Show};
ghost use Rattle.rb_group.specs.declared.voters.Which.{Which};
ghost use Rattle.rb_top.specs.Words.{AskFor, IsInRange, IsLetter, IsMask, letter_bytes, voter_text, words_of};

use arrayvec::ArrayVec;
use itoa::Buffer;
use rb_base::{MOST_TICKS, NodeName};
use rb_flags::{Flag, flag_in};
use rb_group::Which;

/// What the words ask for. A seed is any number of 64 bits, and there are 1 to 4096 frames.
#[derive(Clone, Debug, PartialEq, Eq, Drop)]
pub enum Form {
    /// To run a scenario and report what happened.
    Run,
    /// To check a scenario and show both sides of its plan's inequalities.
    Check,
    /// To write the text of the scenario that is generated from a seed, for a number of frames.
    Gen(u64, u32),
    /// To run that scenario and show its four numbers.
    Stress(u64, u32),
    /// To run a scenario and write the log of a node, whose number is below 16.
    Record(NodeName),
    /// To give a log to its node and write what it tells.
    Replay,
    /// To write the words that spell a letter of 1 to 255 bytes.
    Spell(ArrayVec<u8, 255>),
    /// To run a scenario and write the letters that its ports receive.
    Letters,
    /// To run a scenario and write what its good BIUs find for a group, by a voter, of the members
    /// in a mask that is not 0.
    Group(Which, u16),
    /// To give the log of a BIU to a passive listener, from the tick of this number on, which is
    /// below 2^31.
    Listen(u32),
    /// To write what the flag asks for.
    Show(Flag),
}

/// The most frames of a generated scenario.
const MOST_FRAMES: u64 = 4096;

/// The mask of all 16 nodes.
const MOST_MASK: u64 = 65535;

// The number that the text is, in decimal without sign and without leading zero.
fn number_in(text: &str) -> Option<u64>
    ensures some { IfSome result (λ n. (n < 2 ^ 64) × (text.now ≡ decimal n)) }
    ensures none { IfNone result ((n : ℕ) → n < 2 ^ 64 → text.now ≢ decimal n) }
{
    let number = match text.parse::<u64>() {
        Ok(number) => number,
        Err(_) => return None,
    };
    if Buffer::new().format(number) == text {
        Some(number)
    } else {
        None
    }
}

// The number of frames that the text is.
fn frames_in(text: &str) -> Option<u32>
    ensures some { IfSome result (λ n. (text.now ≡ decimal n) × (1 ≤ n) × (n ≤ 4096)) }
    ensures none { IfNone result ((n : ℕ) → 1 ≤ n → n ≤ 4096 → text.now ≢ decimal n) }
{
    match number_in(text) {
        Some(number) if number >= 1 && number <= MOST_FRAMES => Some(number as u32),
        _ => None,
    }
}

// The number of a tick that the text is.
fn tick_in(text: &str) -> Option<u32>
    ensures some { IfSome result (λ n. (text.now ≡ decimal n) × (n < 2 ^ 31)) }
    ensures none { IfNone result ((n : ℕ) → n < 2 ^ 31 → text.now ≢ decimal n) }
{
    match number_in(text) {
        Some(number) if number < MOST_TICKS => Some(number as u32),
        _ => None,
    }
}

// The number below 16 that follows the letter.
fn index_after(letter: &str, text: &str) -> Option<u8>
    ensures some { IfSome result (λ i. (i < 16) × (text.now ≡ letter.now ++ decimal i)) }
    ensures none { IfNone result ((i : ℕ) → i < 16 → text.now ≢ letter.now ++ decimal i) }
{
    let digits = match text.strip_prefix(letter) {
        Some(digits) => digits,
        None => return None,
    };
    match number_in(digits) {
        Some(number) if number < 16 => Some(number as u8),
        _ => None,
    }
}

// The node that the text names.
fn node_in(text: &str) -> Option<NodeName>
    ensures some { IfSome result (λ node. (text.now ≡ node_text node) × IsNumbered node) }
    ensures none { IfNone result ((node : NodeName) → IsNumbered node → text.now ≢ node_text node) }
{
    if let Some(index) = index_after("B", text) {
        return Some(NodeName::Biu(index));
    }
    match index_after("R", text) {
        Some(index) => Some(NodeName::Rmu(index)),
        None => None,
    }
}

// The bytes that the text spells, in digits of either case, if they are as many as a letter has.
fn bytes_in(text: &str) -> Option<ArrayVec<u8, 255>>
    ensures { option_map (λ v. v.items) result ≡ letter_bytes (decode_of text.now) }
{
    let mut buffer = [0u8; 255];
    let len = text.len() / 2;
    if len == 0 || len > 255 {
        return None;
    }
    match hex::decode_to_slice(text, &mut buffer[..len]) {
        Ok(()) => ArrayVec::try_from(&buffer[..len]).ok(),
        Err(_) => None,
    }
}

// Whether the bytes are these.
fn is_same(bytes: &[u8], others: &[u8]) -> bool
    ensures { IsTrue result ↔ (bytes.now ≡ others.now) }
{
    bytes == others
}

// Whether the text is the digits of these bytes in lower case, for which there is room.
fn is_written(bytes: &[u8], text: &str, room: &mut [u8]) -> bool
    requires { length room.old ≡ 2 * length bytes.now }
    ensures { IsTrue result ↔ (text.now ≡ encode_lower bytes.now) }
{
    match hex::encode_to_slice(bytes, room) {
        Ok(()) => is_same(room, text.as_bytes()),
        Err(_) => false,
    }
}

// Whether the text is the digits of these bytes in lower case.
fn is_spelled(bytes: &[u8], text: &str) -> bool
    requires { length bytes.now ≤ 255 }
    ensures { IsTrue result ↔ (text.now ≡ encode_lower bytes.now) }
{
    let mut digits = [0u8; 510];
    let len = 2 * bytes.len();
    is_written(bytes, text, &mut digits[..len])
}

// The letter that the text is, in hexadecimal digits of lower case.
fn letter_in(text: &str) -> Option<ArrayVec<u8, 255>>
    ensures some { IfSome result (λ letter. IsLetter letter.items
        × (text.now ≡ encode_lower letter.items)) }
    ensures none { IfNone result ((letter : List ℕ) → IsLetter letter
        → text.now ≢ encode_lower letter) }
{
    let letter = match bytes_in(text) {
        Some(letter) => letter,
        None => return None,
    };
    if is_spelled(letter.as_slice(), text) {
        Some(letter)
    } else {
        None
    }
}

// The voter that the text names.
fn voter_in(text: &str) -> Option<Which>
    ensures some { IfSome result (λ which. text.now ≡ voter_text which) }
    ensures none { IfNone result ((which : Which) → text.now ≢ voter_text which) }
{
    match text {
        "most" => Some(Which::Most),
        "mid" => Some(Which::Mid),
        _ => None,
    }
}

// The mask that the text is.
fn mask_in(text: &str) -> Option<u16>
    ensures some { IfSome result (λ n. (text.now ≡ decimal n) × IsMask n) }
    ensures none { IfNone result ((n : ℕ) → IsMask n → text.now ≢ decimal n) }
{
    match number_in(text) {
        Some(number) if number >= 1 && number <= MOST_MASK => Some(number as u16),
        _ => None,
    }
}

// The form of a flag.
fn show_of(word: &str) -> Option<Form>
    ensures some { IfSome result (λ form. (words_of form ≡ word.now ∷ []) × IsInRange form) }
    ensures none { IfNone result ((flag : Flag) → words_of (Show flag) ≢ word.now ∷ []) }
{
    match flag_in(word) {
        Some(flag) => Some(Form::Show(flag)),
        None => None,
    }
}

// The form of one word.
fn form_named(word: &str) -> Option<Form>
    ensures some { IfSome result (λ form. (words_of form ≡ word.now ∷ []) × IsInRange form) }
    ensures none { IfNone result ((form : Form) → words_of form ≢ word.now ∷ []) }
{
    match word {
        "run" => Some(Form::Run),
        "check" => Some(Form::Check),
        "replay" => Some(Form::Replay),
        "letters" => Some(Form::Letters),
        _ => show_of(word),
    }
}

// `record` of this node.
fn record_of(node: &str) -> Option<Form>
    ensures some { IfSome result (λ form. (words_of form ≡ codes "record" ∷ node.now ∷ [])
        × IsInRange form) }
    ensures none { IfNone result ((form : Form) → IsInRange form
        → words_of form ≢ codes "record" ∷ node.now ∷ []) }
{
    match node_in(node) {
        Some(node) => Some(Form::Record(node)),
        None => None,
    }
}

// `spell` of this letter.
fn spell_of(digits: &str) -> Option<Form>
    ensures some { IfSome result (λ form. (words_of form ≡ codes "spell" ∷ digits.now ∷ [])
        × IsInRange form) }
    ensures none { IfNone result ((form : Form) → IsInRange form
        → words_of form ≢ codes "spell" ∷ digits.now ∷ []) }
{
    match letter_in(digits) {
        Some(letter) => Some(Form::Spell(letter)),
        None => None,
    }
}

// `listen` from this tick on.
fn listen_of(skip: &str) -> Option<Form>
    ensures some { IfSome result (λ form. (words_of form ≡ codes "listen" ∷ skip.now ∷ [])
        × IsInRange form) }
    ensures none { IfNone result ((form : Form) → IsInRange form
        → words_of form ≢ codes "listen" ∷ skip.now ∷ []) }
{
    match tick_in(skip) {
        Some(skip) => Some(Form::Listen(skip)),
        None => None,
    }
}

// The form of two words.
fn form_with_one(word: &str, other: &str) -> Option<Form>
    ensures some { IfSome result (λ form. (words_of form ≡ word.now ∷ other.now ∷ [])
        × IsInRange form) }
    ensures none { IfNone result ((form : Form) → IsInRange form
        → words_of form ≢ word.now ∷ other.now ∷ []) }
{
    match word {
        "record" => record_of(other),
        "spell" => spell_of(other),
        "listen" => listen_of(other),
        _ => None,
    }
}

// `gen` of these numbers.
fn gen_of(seed: &str, frames: &str) -> Option<Form>
    ensures some { IfSome result (λ form. (words_of form ≡ codes "gen" ∷ seed.now ∷ frames.now ∷ [])
        × IsInRange form) }
    ensures none { IfNone result ((form : Form) → IsInRange form
        → words_of form ≢ codes "gen" ∷ seed.now ∷ frames.now ∷ []) }
{
    match (number_in(seed), frames_in(frames)) {
        (Some(seed), Some(frames)) => Some(Form::Gen(seed, frames)),
        _ => None,
    }
}

// `stress` of these numbers.
fn stress_of(seed: &str, frames: &str) -> Option<Form>
    ensures some { IfSome result
        (λ form. (words_of form ≡ codes "stress" ∷ seed.now ∷ frames.now ∷ []) × IsInRange form) }
    ensures none { IfNone result ((form : Form) → IsInRange form
        → words_of form ≢ codes "stress" ∷ seed.now ∷ frames.now ∷ []) }
{
    match (number_in(seed), frames_in(frames)) {
        (Some(seed), Some(frames)) => Some(Form::Stress(seed, frames)),
        _ => None,
    }
}

// `group` of this voter and these members.
fn group_of(voter: &str, members: &str) -> Option<Form>
    ensures some { IfSome result
        (λ form. (words_of form ≡ codes "group" ∷ voter.now ∷ members.now ∷ []) × IsInRange form) }
    ensures none { IfNone result ((form : Form) → IsInRange form
        → words_of form ≢ codes "group" ∷ voter.now ∷ members.now ∷ []) }
{
    match (voter_in(voter), mask_in(members)) {
        (Some(which), Some(members)) => Some(Form::Group(which, members)),
        _ => None,
    }
}

// The form of three words.
fn form_with_two(word: &str, first: &str, second: &str) -> Option<Form>
    ensures some { IfSome result (λ form. (words_of form ≡ word.now ∷ first.now ∷ second.now ∷ [])
        × IsInRange form) }
    ensures none { IfNone result ((form : Form) → IsInRange form
        → words_of form ≢ word.now ∷ first.now ∷ second.now ∷ []) }
{
    match word {
        "gen" => gen_of(first, second),
        "stress" => stress_of(first, second),
        "group" => group_of(first, second),
        _ => None,
    }
}

/// The form that the words ask for, byte by byte. None for all other words.
pub(crate) fn form_of(words: &[String]) -> Option<Form>
    ensures some { IfSome result (AskFor words.now) }
    ensures none { IfNone result ((form : Form) → ¬ AskFor words.now form) }
{
    match words {
        [word] => form_named(word.as_str()),
        [word, other] => form_with_one(word.as_str(), other.as_str()),
        [word, first, second] => form_with_two(word.as_str(), first.as_str(), second.as_str()),
        _ => None,
    }
}
