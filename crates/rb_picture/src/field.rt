//! The fields of a line: the parts between its spaces.
ghost use Rattle.std.specs.Prelude.{ℕ, ◌≡◌, ◌<◌, ◌^◌, ◌++◌, ◌∷◌, Bool, true, false, Some, None, IfSome, decimal, codes, List};
ghost use Rattle.rb_base.specs.declared.node.NodeName.{NodeName};
ghost use Rattle.rb_base.specs.declared.node.NodeName.TheVariants.{Biu, Rmu};
ghost use Rattle.rb_base.specs.declared.values.Heard.{Heard};
ghost use Rattle.rb_base.specs.declared.values.Heard.TheVariants.{Word, Fault};
ghost use Rattle.rb_rules.specs.declared.cause.Cause.{Cause};
ghost use Rattle.rb_report.specs.Report.{cause_text, heard_text, node_text};
ghost use Rattle.rb_picture.specs.Fields.{HeardFits, NodeFits, field_at, later_fields};

use rb_base::{Heard, NodeName};
use rb_rules::Cause;

/// The part before the first space, or all.
pub(crate) fn first_field(text: &str) -> &str
    ensures { result.now ≡ field_at 0 text.now }
{
    match text.split_once(' ') {
        Some((first, _)) => first,
        None => text,
    }
}

// The part behind the first space, or nothing.
fn later_fields(text: &str) -> &str
    ensures { result.now ≡ later_fields text.now }
{
    match text.split_once(' ') {
        Some((_, later)) => later,
        None => "",
    }
}

pub(crate) fn second_field(text: &str) -> &str
    ensures { result.now ≡ field_at 1 text.now }
{
    first_field(later_fields(text))
}

pub(crate) fn third_field(text: &str) -> &str
    ensures { result.now ≡ field_at 2 text.now }
{
    second_field(later_fields(text))
}

pub(crate) fn fourth_field(text: &str) -> &str
    ensures { result.now ≡ field_at 3 text.now }
{
    third_field(later_fields(text))
}

pub(crate) fn fifth_field(text: &str) -> &str
    ensures { result.now ≡ field_at 4 text.now }
{
    fourth_field(later_fields(text))
}

pub(crate) fn sixth_field(text: &str) -> &str
    ensures { result.now ≡ field_at 5 text.now }
{
    fifth_field(later_fields(text))
}

/// The number that the text is. Of a text that is none, anything.
pub(crate) fn u8_in(text: &str) -> Option<u8>
    ensures { (n : ℕ) → n < 2 ^ 8 → text.now ≡ decimal n → result ≡ Some n }
{
    text.parse::<u8>().ok()
}

pub(crate) fn u16_in(text: &str) -> Option<u16>
    ensures { (n : ℕ) → n < 2 ^ 16 → text.now ≡ decimal n → result ≡ Some n }
{
    text.parse::<u16>().ok()
}

pub(crate) fn u32_in(text: &str) -> Option<u32>
    ensures { (n : ℕ) → n < 2 ^ 32 → text.now ≡ decimal n → result ≡ Some n }
{
    text.parse::<u32>().ok()
}

pub(crate) fn u64_in(text: &str) -> Option<u64>
    ensures { (n : ℕ) → n < 2 ^ 64 → text.now ≡ decimal n → result ≡ Some n }
{
    text.parse::<u64>().ok()
}

fn below_16(number: Option<u8>) -> Option<u8>
    ensures { (n : ℕ) → n < 16 → number ≡ Some n → result ≡ Some n }
{
    match number {
        Some(index) if index < 16 => Some(index),
        _ => None,
    }
}

/// The number of the BIU that the text names.
pub(crate) fn biu_in(text: &str) -> Option<u8>
    ensures found { (i : ℕ) → i < 16 → text.now ≡ node_text (Biu i) → result ≡ Some i }
    ensures other { (rest : List ℕ) → text.now ≡ 82 ∷ rest → result ≡ None }
{
    match text.strip_prefix('B') {
        Some(digits) => below_16(u8_in(digits)),
        None => None,
    }
}

fn rmu_in(text: &str) -> Option<u8>
    ensures { (i : ℕ) → i < 16 → text.now ≡ node_text (Rmu i) → result ≡ Some i }
{
    match text.strip_prefix('R') {
        Some(digits) => below_16(u8_in(digits)),
        None => None,
    }
}

/// The node that the text names.
pub(crate) fn node_in(text: &str) -> Option<NodeName>
    ensures { (node : NodeName) → NodeFits node → text.now ≡ node_text node → result ≡ Some node }
{
    match biu_in(text) {
        Some(index) => Some(NodeName::Biu(index)),
        None => match rmu_in(text) {
            Some(index) => Some(NodeName::Rmu(index)),
            None => None,
        },
    }
}

/// What a delivery brings.
pub(crate) fn heard_in(text: &str) -> Option<Heard>
    ensures { (heard : Heard) → HeardFits heard → text.now ≡ heard_text heard
        → result ≡ Some heard }
{
    if text == "none" {
        return Some(Heard::Fault);
    }
    match u32_in(text) {
        Some(word) => Some(Heard::Word(word)),
        None => None,
    }
}

/// The cause of a breach.
pub(crate) fn cause_in(text: &str) -> Option<Cause>
    ensures { (cause : Cause) → text.now ≡ cause_text cause → result ≡ Some cause }
{
    match text {
        "FewGoodBiu" => Some(Cause::FewGoodBiu),
        "FewGoodRmu" => Some(Cause::FewGoodRmu),
        "TwoSided" => Some(Cause::TwoSided),
        _ => None,
    }
}
