//! The fields of a line, each with the space before it.
ghost use Rattle.std.specs.Prelude.{◌≡◌, ◌+◌, ◌≤◌, ◌∷◌, ◌++◌, length, codes};
ghost use Rattle.arrayvec.specs.ArrayString.{array_string_len};
ghost use Rattle.rb_base.specs.declared.node.NodeName.TheVariants.{Biu};
ghost use Rattle.rb_rules_bridge.specs.Texts.{bank_text};
ghost use Rattle.rb_report.specs.Report.{cause_text, heard_text, last_field, node_text, with_field, with_fields};
ghost use Rattle.rb_bridge.specs.Refusals.{bank_of, bridge_refusal_of};

use arrayvec::ArrayString;
use itoa::{Buffer, Integer};
use rb_base::Heard;
use rb_rules::Cause;

pub(crate) fn push_text(line: &mut ArrayString<96>, text: &str)
    requires { array_string_len line.old + length text.now + 1 ≤ 96 }
    ensures bytes { line.new.bytes ≡ with_field line.old.bytes text.now }
    ensures len { array_string_len line.new ≡ array_string_len line.old + length text.now + 1 }
{
    line.push_str(" ");
    line.push_str(text);
}

pub(crate) fn push_number<I: Integer>(line: &mut ArrayString<96>, number: I)
    requires { array_string_len line.old + I.MAX_STR_LEN + 1 ≤ 96 }
    ensures bytes { line.new.bytes ≡ with_field line.old.bytes (I.text number) }
    ensures len { array_string_len line.new ≤ array_string_len line.old + I.MAX_STR_LEN + 1 }
{
    push_text(line, Buffer::new().format(number));
}

pub(crate) fn push_biu(line: &mut ArrayString<96>, biu: u8)
    requires { array_string_len line.old + 5 ≤ 96 }
    ensures bytes { line.new.bytes ≡ with_field line.old.bytes (node_text (Biu biu)) }
    ensures len { array_string_len line.new ≤ array_string_len line.old + 5 }
{
    line.push_str(" B");
    line.push_str(Buffer::new().format(biu));
}

pub(crate) fn push_heard(line: &mut ArrayString<96>, value: Heard)
    requires { array_string_len line.old + 11 ≤ 96 }
    ensures bytes { line.new.bytes ≡ with_field line.old.bytes (heard_text value) }
    ensures len { array_string_len line.new ≤ array_string_len line.old + 11 }
{
    match value {
        Heard::Word(word) => push_number(line, word),
        Heard::Fault => push_text(line, "none"),
    }
}

// A last field, if there is one.
pub(crate) fn push_last(line: &mut ArrayString<96>, number: Option<u64>)
    requires { array_string_len line.old + 21 ≤ 96 }
    ensures bytes { line.new.bytes ≡ with_fields line.old.bytes (last_field number) }
    ensures len { array_string_len line.new ≤ array_string_len line.old + 21 }
{
    if let Some(number) = number {
        push_number(line, number);
    }
}

pub(crate) fn bank_name(right: bool) -> &'static str
    ensures name { result.now ≡ bank_text (bank_of right) }
    ensures short { length result.now ≤ 5 }
{
    if right { "right" } else { "left" }
}

pub(crate) fn cause_name(cause: Cause) -> &'static str
    ensures name { result.now ≡ cause_text cause }
    ensures short { length result.now ≤ 10 }
{
    match cause {
        Cause::FewGoodBiu => "FewGoodBiu",
        Cause::FewGoodRmu => "FewGoodRmu",
        Cause::TwoSided => "TwoSided",
    }
}

// The name of the refusal with this code.
pub(crate) fn refusal_name(code: u8) -> &'static str
    requires least { 21 ≤ code }
    requires most { code ≤ 25 }
    ensures name { result.now ≡ (bridge_refusal_of code).name }
    ensures short { length result.now ≤ 12 }
{
    match code {
        21 => "BridgeToml",
        22 => "BridgeForm",
        23 => "LeftRefused",
        24 => "RightRefused",
        _ => "BridgeRange",
    }
}
