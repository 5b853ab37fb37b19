//! The fields of a line, each with the space before it.
ghost use Rattle.std.specs.Prelude.{◌≡◌, ◌+◌, ◌*◌, ◌≤◌, ◌<◌, ◌∷◌, [], ◌++◌, length, codes};
ghost use Rattle.std.specs.Char.{digit_char};
ghost use Rattle.arrayvec.specs.ArrayString.{array_string_len};
ghost use Rattle.rb_report.specs.Report.{heard_text, hex_text, last_field, node_text, with_field, with_fields};

use arrayvec::ArrayString;
use itoa::{Buffer, Integer};
use rb_base::{Heard, NodeName};

pub(crate) fn push_text<const N: usize>(line: &mut ArrayString<N>, text: &str)
    requires { array_string_len line.old + length text.now + 1 ≤ N }
    ensures bytes { line.new.bytes ≡ with_field line.old.bytes text.now }
    ensures len { array_string_len line.new ≡ array_string_len line.old + length text.now + 1 }
{
    line.push_str(" ");
    line.push_str(text);
}

pub(crate) fn push_number<const N: usize, I: Integer>(line: &mut ArrayString<N>, number: I)
    requires { array_string_len line.old + I.MAX_STR_LEN + 1 ≤ N }
    ensures bytes { line.new.bytes ≡ with_field line.old.bytes (I.text number) }
    ensures len { array_string_len line.new ≤ array_string_len line.old + I.MAX_STR_LEN + 1 }
{
    push_text(line, Buffer::new().format(number));
}

pub(crate) fn push_node<const N: usize>(line: &mut ArrayString<N>, node: NodeName)
    requires { array_string_len line.old + 5 ≤ N }
    ensures bytes { line.new.bytes ≡ with_field line.old.bytes (node_text node) }
    ensures len { array_string_len line.new ≤ array_string_len line.old + 5 }
{
    match node {
        NodeName::Biu(i) => {
            line.push_str(" B");
            line.push_str(Buffer::new().format(i));
        }
        NodeName::Rmu(i) => {
            line.push_str(" R");
            line.push_str(Buffer::new().format(i));
        }
    }
}

pub(crate) fn push_heard(line: &mut ArrayString<96>, value: Heard)
    requires { array_string_len line.old + 11 ≤ 96 }
    ensures bytes { line.new.bytes ≡ with_field line.old.bytes (heard_text value) }
    ensures len { array_string_len line.new ≤ array_string_len line.old + 11 }
{
    match value {
        Heard::Word(word) => push_number(line, word),
        Heard::Fault => push_text(line, "none"),
    }
}

// A last field, if there is one.
pub(crate) fn push_last(line: &mut ArrayString<96>, number: Option<u64>)
    requires { array_string_len line.old + 21 ≤ 96 }
    ensures bytes { line.new.bytes ≡ with_fields line.old.bytes (last_field number) }
    ensures len { array_string_len line.new ≤ array_string_len line.old + 21 }
{
    if let Some(number) = number {
        push_number(line, number);
    }
}

fn hex_digit(digit: u8) -> char
    requires { digit < 16 }
    ensures value { result ≡ digit_char digit }
    ensures ascii { result < 128 }
{
    char::from(if digit < 10 {
        b'0' + digit
    } else {
        b'a' + (digit - 10)
    })
}

// The bytes, each as two hexadecimal digits.
pub(crate) fn push_hex(line: &mut ArrayString<560>, bytes: &[u8])
    requires { array_string_len line.old + 2 * length bytes.now + 1 ≤ 560 }
    ensures bytes { line.new.bytes ≡ with_field line.old.bytes (hex_text bytes.now) }
    ensures len { array_string_len line.new ≡ array_string_len line.old + 2 * length bytes.now + 1 }
{
    line.push_str(" ");
    for byte in bytes {
        line.push(hex_digit(*byte / 16));
        line.push(hex_digit(*byte % 16));
    }
}
