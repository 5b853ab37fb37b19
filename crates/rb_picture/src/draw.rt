//! The top call.
ghost use Rattle.std.specs.Prelude.{◌≡◌, ◌≤◌, length, IfOk};
ghost use Rattle.rb_picture.specs.Answers.{Answers, BytesAnswers, FramesAnswers, TextAnswers, fault_name, fault_text, picture_of};
ghost use Rattle.rb_picture.specs.Forms.{first_of, last_of};
ghost use Rattle.rb_picture.specs.Picture.{asked_of};

use crate::drawn::picture_of;
use crate::extent::is_asked;
use crate::form::{Form, Frames, first_of, form_in, last_of};
use crate::line::Line;
use crate::pages::write_page;
use crate::reading::{Fault, Unreadable, lines_in};
use crate::sheet::sheet_of;
use crate::status::Status;
use arrayvec::ArrayString;
use itoa::Buffer;
use rb_base::OutOfMemory;
use rb_outside::{Failed, Sink, Source, Unread, read_all, write_all};
use std::alloc::Global;

/// The most bytes of a report.
const REPORT_LIMIT: usize = 67_108_864;

fn fault_name(fault: Fault) -> &'static str
    ensures name { result.now ≡ fault_name fault }
    ensures short { length result.now ≤ 12 }
{
    match fault {
        Fault::NoLine => "1 NoLine",
        Fault::OutOfOrder => "2 OutOfOrder",
        Fault::NoEnd => "3 NoEnd",
    }
}

fn fault_line(fault: Fault, number: u64) -> ArrayString<96>
    ensures { result.bytes ≡ fault_text fault number }
{
    let mut line = ArrayString::new();
    line.push_str("refused ");
    line.push_str(fault_name(fault));
    line.push_str(" ");
    line.push_str(Buffer::new().format(number));
    line.push_str("\n");
    line
}

// Only the lines of the frames from first to last.
fn asked_of(alloc: Global, lines: &[Line], first: u32, last: u32) -> Result<Vec<Line>, OutOfMemory>
    ensures { IfOk result (λ v. v.items ≡ asked_of first last lines.now) }
{
    let mut asked = Vec::new(alloc);
    for line in lines {
        if is_asked(first, last, *line) {
            let Ok(()) = asked.push(*line) else {
                return Err(OutOfMemory);
            };
        }
    }
    Ok(asked)
}

// The picture of these frames.
fn picture_of_frames(alloc: Global, lines: &[Line], frames: Frames) -> Result<Vec<u8>, OutOfMemory>
    ensures { IfOk result (λ v. v.items
        ≡ picture_of frames (asked_of (first_of frames) (last_of frames) lines.now)) }
{
    let asked = asked_of(alloc, lines, first_of(frames), last_of(frames))?;
    picture_of(alloc, sheet_of(frames, &asked), &asked)
}

// Writes the line that says where and why bytes are no report.
fn refuse<K: Sink>(fault: Fault, number: u64, output: &mut K) -> Status
    ensures { TextAnswers K.held K.faults output.old output.new result Status.Refused
        (fault_text fault number) }
{
    match write_all(output, fault_line(fault, number).as_str().as_bytes()) {
        Ok(()) => Status::Refused,
        Err(Failed) => Status::WriteFault,
    }
}

// Draws the frames of the report that the bytes are, or writes the line that says why they are
// none.
fn draw_bytes<K: Sink>(alloc: Global, bytes: &[u8], frames: Frames, output: &mut K) -> Status
    ensures { BytesAnswers frames bytes.now K.held K.faults output.old output.new result }
{
    let lines = match lines_in(alloc, bytes) {
        Ok(lines) => lines,
        Err(Unreadable::At(number, fault)) => return refuse(fault, number, output),
        Err(Unreadable::OutOfMemory) => return Status::OutOfMemory,
    };
    let picture = match picture_of_frames(alloc, &lines, frames) {
        Ok(picture) => picture,
        Err(OutOfMemory) => return Status::OutOfMemory,
    };
    match write_all(output, &picture) {
        Ok(()) => Status::Done,
        Err(Failed) => Status::WriteFault,
    }
}

// Reads a report and draws these frames of it.
fn draw_frames<S: Source, K: Sink>(
    alloc: Global,
    frames: Frames,
    input: &mut S,
    output: &mut K,
) -> Status
    ensures { FramesAnswers frames result S.left S.faults input.old input.new
        K.held K.faults output.old output.new }
{
    match read_all(alloc, input, REPORT_LIMIT) {
        Ok(bytes) => draw_bytes(alloc, &bytes, frames, output),
        Err(Unread::TooLong) => Status::TooLong,
        Err(Unread::Fault) => Status::ReadFault,
        Err(Unread::OutOfMemory) => Status::OutOfMemory,
    }
}

/// Reads a report of `robus run` and writes one SVG picture of it, or writes a page about the
/// program.
///
/// With no words all frames are drawn: up to 12 whole frames in panels, more as an overview. With
/// two, decimal numbers FIRST and LAST in order and below 2^32, the frames from one to the other
/// are drawn in panels. With `--help`, `-h` or `--version` nothing is read, and the page is
/// written.
///
/// `Done`: the picture or the page is written. `Usage`: the words are of no form; nothing was read
/// or written. `Refused`: the input is no report; one line `refused CODE NAME LINE` says where and
/// why. `TooLong`: the source gave more than 67,108,864 bytes. `ReadFault`, `WriteFault`: the
/// source or the sink failed; what a failing sink took is a first part of what was due.
/// `OutOfMemory`: an allocation failed before anything was written. A report that the source tells
/// is drawn, and what is none is refused, unless a read, a write or an allocation fails.
pub fn draw<S: Source, K: Sink>(
    alloc: Global,
    words: &[String],
    input: &mut S,
    output: &mut K,
) -> Status
    ensures { Answers words.now result S.left S.faults input.old input.new
        K.held K.faults output.old output.new }
{
    match form_in(words) {
        Some(Form::Draw(frames)) => draw_frames(alloc, frames, input, output),
        Some(Form::Show(flag)) => write_page(flag, output),
        None => Status::Usage,
    }
}
