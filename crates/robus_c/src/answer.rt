//! The answer of a call.
ghost use Rattle.robus_c.specs.Put.{IsPut};

use crate::copying::put;

/// The number of a status, and how many bytes there are of output.
#[repr(C)]
#[derive(Clone, Copy, Debug, PartialEq, Eq)]
pub struct Answer {
    pub status: i32,
    pub length: u64,
}

/// The status if an allocation fails before the program's own call.
pub(crate) const NO_MEMORY: u8 = 7;

/// The status if the words are not UTF-8.
pub(crate) const NOT_TEXT: u8 = 8;

/// The status if there are more bytes than room.
const TOO_SMALL: u8 = 9;

/// Puts the bytes to the front of `output`, as many as fit. The answer has this number if all do.
pub(crate) fn answer_with(number: u8, bytes: &[u8], output: &mut [u8]) -> Answer
    ensures { IsPut number bytes.now output.old output.new result }
{
    let room = output.len();
    let length = bytes.len();
    let _ = put(bytes, output);
    let shown = if length <= room { number } else { TOO_SMALL };
    Answer {
        status: i32::from(shown),
        length: length as u64,
    }
}
