//! The three programs as calls for C, over bytes in memory, and a node core and a bus over handles.
//! No call keeps anything else: several threads of a host may call at once, each with bytes and
//! handles of its own.
#![tactic(auto)]

ghost use Rattle.robus_c.specs.Bridge.{IsBridgeAnswer};
ghost use Rattle.robus_c.specs.Bus.{IsBusAnswer};
ghost use Rattle.robus_c.specs.Picture.{IsPictureAnswer};

use answer::Answer;
use bridge::RobusBridge;
use bus::Robus;
use picture::RobusPicture;
use program::call;
use std::alloc::Global;

pub mod answer;
mod bridge;
mod bus;
mod copying;
mod hosted_bus;
mod node;
mod picture;
mod program;
mod sink;
mod source;
mod spelled;

/// What `robus` does with these words, a NUL byte between one and the next, and this input. Its
/// output is put into `output`, and the answer has the number of its status, 0 to 4 or 7, and the
/// number of bytes of the output. If there are more than `output` has room for, the status is 9 and
/// the first of them are there. If the words are not UTF-8, the status is 8. Behind the program's
/// output `output` is as it was.
#[unsafe(no_mangle)]
pub extern "C" fn robus_call(alloc: Global, words: &[u8], input: &[u8], output: &mut [u8]) -> Answer
    ensures { IsBusAnswer words.now input.now output.old output.new result }
{
    call::<Robus>(alloc, words, input, output)
}

/// Does for `robus_bridge` what `robus_call` does for `robus`.
#[unsafe(no_mangle)]
pub extern "C" fn robus_bridge_call(
    alloc: Global,
    words: &[u8],
    input: &[u8],
    output: &mut [u8],
) -> Answer
    ensures { IsBridgeAnswer words.now input.now output.old output.new result }
{
    call::<RobusBridge>(alloc, words, input, output)
}

/// Does for `robus_picture`, whose status is 0, 2 to 4 or 7, what `robus_call` does for `robus`.
#[unsafe(no_mangle)]
pub extern "C" fn robus_picture_call(
    alloc: Global,
    words: &[u8],
    input: &[u8],
    output: &mut [u8],
) -> Answer
    ensures { IsPictureAnswer words.now input.now output.old output.new result }
{
    call::<RobusPicture>(alloc, words, input, output)
}
