//! What a reader of one sender's values makes of them.
ghost use Rattle.std.specs.Prelude.{◌≡◌, ◌≤◌, ◌∷◌, [], ◌++◌, ℕ, IfSome, drop, length, take};
ghost use Rattle.arrayvec.specs.ArrayVec.{ArrayVec as Letter};
ghost use Rattle.std.specs.List.{list_all};
ghost use Rattle.rb_long.specs.Reading.{is_zero, with_part, with_value};
ghost use Rattle.rb_long.specs.Readers.{Reads, is_open, open_of};

use crate::spelling::{bytes_in, is_first, is_part, length_in};
use arrayvec::ArrayVec;
use rb_base::Heard;
use std::mem;

// A reader of one sender's values. A letter is open if fewer bytes have come than it will have.
#[derive(Drop)]
pub(crate) struct Reader {
    pub wanted: u8,
    pub bytes: ArrayVec<u8, 255>,
}

impl Default for Reader {
    ghost use Rattle.std.specs.Prelude.{◌≡◌, None};
    ghost use Rattle.rb_long.specs.Readers.{open_of};

    ghost is_default = { λ r. open_of r ≡ None };

    fn default() -> Reader {
        Reader {
            wanted: 0,
            bytes: ArrayVec::new(),
        }
    }
}

// Adds a byte below the letter's end. Past it the byte must be 0, and the answer says whether it
// is.
fn push_byte(bytes: &mut ArrayVec<u8, 255>, wanted: u8, byte: u8) -> bool
    requires { length bytes.old.items ≤ wanted }
    ensures bytes { bytes.new.items ≡ take wanted (bytes.old.items ++ byte ∷ []) }
    ensures filling { result ≡ list_all is_zero (drop wanted (bytes.old.items ++ byte ∷ [])) }
    ensures few { length bytes.new.items ≤ wanted }
{
    if bytes.len() < usize::from(wanted) {
        bytes.push(byte);
        return true;
    }
    byte == 0
}

// Adds three bytes, and says whether those past the letter's end are 0.
fn push_part(bytes: &mut ArrayVec<u8, 255>, wanted: u8, part: [u8; 3]) -> bool
    requires { length bytes.old.items ≤ wanted }
    ensures bytes { bytes.new.items ≡ take wanted (bytes.old.items ++ part) }
    ensures filling { result ≡ list_all is_zero (drop wanted (bytes.old.items ++ part)) }
{
    let [a, b, c] = part;
    let first = push_byte(bytes, wanted, a);
    let second = push_byte(bytes, wanted, b);
    let third = push_byte(bytes, wanted, c);
    first && second && third
}

// Whether a letter is open.
fn is_open(reader: &Reader) -> bool
    ensures { result ≡ is_open reader.now }
{
    reader.bytes.len() < usize::from(reader.wanted)
}

// Reads three bytes more, and gives the letter whose last they are.
fn add(reader: &mut Reader, part: [u8; 3]) -> Option<ArrayVec<u8, 255>>
    ensures read { Reads (with_part part (open_of reader.old)) reader.new result }
    ensures some { IfSome result (λ (letter : Letter ℕ). 1 ≤ length letter.items) }
{
    if !is_open(reader) {
        return None;
    }
    let is_clean = push_part(&mut reader.bytes, reader.wanted, part);
    if is_open(reader) {
        return None;
    }
    reader.wanted = 0;
    if is_clean {
        Some(mem::take(&mut reader.bytes))
    } else {
        None
    }
}

// Reads a value, and gives the letter whose last word it is.
pub(crate) fn hear(reader: &mut Reader, value: Heard) -> Option<ArrayVec<u8, 255>>
    ensures read { Reads (with_value value (open_of reader.old)) reader.new result }
    ensures some { IfSome result (λ (letter : Letter ℕ). 1 ≤ length letter.items) }
{
    let Heard::Word(word) = value else {
        reader.wanted = 0;
        return None;
    };
    if word == 0 {
        return None;
    }
    if is_first(word) {
        reader.wanted = length_in(word);
        reader.bytes.clear();
        return None;
    }
    if is_part(word) {
        return add(reader, bytes_in(word));
    }
    reader.wanted = 0;
    None
}
