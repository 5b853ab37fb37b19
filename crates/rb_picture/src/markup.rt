//! Elements, written behind a text.
ghost use Rattle.std.specs.Prelude.{◌≡◌, ◌++◌, OnOk, decimal};
ghost use Rattle.rb_picture.specs.Markup.{escape, escaped, with_attribute, with_box, with_label, with_number, with_opening};

use itoa::{Buffer, Integer};
use rb_base::OutOfMemory;

/// Where a rectangle is, and how large it is, in pixels.
#[derive(Clone, Copy)]
pub struct Area {
    pub x: u64,
    pub y: u64,
    pub width: u64,
    pub height: u64,
}

pub(crate) fn push(out: &mut Vec<u8>, text: &str) -> Result<(), OutOfMemory>
    ensures { OnOk result (out.new.items ≡ out.old.items ++ text.now) }
{
    out.extend_from_slice(text.as_bytes())?;
    Ok(())
}

// A byte of text, or the name that stands for it.
fn push_byte(out: &mut Vec<u8>, byte: u8) -> Result<(), OutOfMemory>
    ensures { OnOk result (out.new.items ≡ out.old.items ++ escape byte) }
{
    match byte {
        b'<' => push(out, "&lt;"),
        b'>' => push(out, "&gt;"),
        b'&' => push(out, "&amp;"),
        b'"' => push(out, "&quot;"),
        byte => {
            out.extend_from_slice(&[byte])?;
            Ok(())
        }
    }
}

/// A text, with names for the bytes that mean more in a document.
#[tactic(auto, unfolding(crate::specs::Markup::escaped))]
fn push_escaped(out: &mut Vec<u8>, text: &str) -> Result<(), OutOfMemory>
    ensures { OnOk result (out.new.items ≡ out.old.items ++ escaped text.now) }
{
    for byte in text.as_bytes() {
        push_byte(out, *byte)?;
    }
    Ok(())
}

#[tactic(auto, unfolding(crate::specs::Markup::with_attribute))]
fn push_attribute(out: &mut Vec<u8>, name: &str, value: &str) -> Result<(), OutOfMemory>
    ensures { OnOk result (out.new.items ≡ with_attribute out.old.items name.now value.now) }
{
    push(out, " ")?;
    push(out, name)?;
    push(out, "=\"")?;
    push_escaped(out, value)?;
    push(out, "\"")
}

#[tactic(auto, unfolding(crate::specs::Markup::with_number))]
fn push_number(out: &mut Vec<u8>, name: &str, number: u64) -> Result<(), OutOfMemory>
    ensures { OnOk result (out.new.items ≡ with_number out.old.items name.now number) }
{
    push_attribute(out, name, Buffer::new().format(number))
}

/// A rectangle of a look.
#[tactic(auto, unfolding(crate::specs::Markup::with_box))]
pub(crate) fn push_box(out: &mut Vec<u8>, area: Area, look: &str) -> Result<(), OutOfMemory>
    ensures { OnOk result (out.new.items ≡ with_box out.old.items area look.now) }
{
    push(out, "<rect")?;
    push_number(out, "x", area.x)?;
    push_number(out, "y", area.y)?;
    push_number(out, "width", area.width)?;
    push_number(out, "height", area.height)?;
    push_attribute(out, "class", look)?;
    push(out, "></rect>\n")
}

/// A text of a look, in two parts.
#[tactic(auto, unfolding(crate::specs::Markup::with_label))]
pub(crate) fn push_label(
    out: &mut Vec<u8>,
    x: u64,
    y: u64,
    look: &str,
    before: &str,
    after: &str,
) -> Result<(), OutOfMemory>
    ensures { OnOk result (out.new.items
        ≡ with_label out.old.items x y look.now before.now after.now) }
{
    push(out, "<text")?;
    push_number(out, "x", x)?;
    push_number(out, "y", y)?;
    push_attribute(out, "class", look)?;
    push(out, ">")?;
    push_escaped(out, before)?;
    push_escaped(out, after)?;
    push(out, "</text>\n")
}

/// A text of a look with a number behind it.
pub(crate) fn push_numbered<I: Integer>(
    out: &mut Vec<u8>,
    x: u64,
    y: u64,
    look: &str,
    before: &str,
    number: I,
) -> Result<(), OutOfMemory>
    ensures { OnOk result (out.new.items
        ≡ with_label out.old.items x y look.now before.now (I.text number)) }
{
    push_label(out, x, y, look, before, Buffer::new().format(number))
}

/// How a picture begins: its size, and the colors of the looks.
#[tactic(auto, unfolding(crate::specs::Markup::with_opening))]
pub(crate) fn push_opening(
    out: &mut Vec<u8>,
    width: u64,
    height: u64,
    style: &str,
) -> Result<(), OutOfMemory>
    ensures { OnOk result (out.new.items ≡ with_opening out.old.items width height style.now) }
{
    push(
        out,
        "<svg xmlns=\"http://www.w3.org/2000/svg\" role=\"img\"",
    )?;
    push_number(out, "width", width)?;
    push_number(out, "height", height)?;
    push(out, " viewBox=\"0 0 ")?;
    push_escaped(out, Buffer::new().format(width))?;
    push(out, " ")?;
    push_escaped(out, Buffer::new().format(height))?;
    push(out, "\"><title>A run of the bus</title><style>")?;
    push_escaped(out, style)?;
    push(out, "</style>")
}
