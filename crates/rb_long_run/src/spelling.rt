//! The words of a letter, written.
ghost use Rattle.std.specs.Prelude.{◌≡◌, true, length};
ghost use Rattle.rb_long_run.specs.Reports.{spelling_text};
ghost use Rattle.rb_long.specs.Spelling.{is_length};
ghost use Rattle.rb_outside.specs.Writing.{Writes};

use rb_long::LongSender;
use rb_outside::{Failed, Sink, write_line};
use rb_report::word_line;

/// Writes the words of a letter of 1 to 255 bytes, a line for each, each write asking for the rest
/// of one line. `Failed` is the answer only if a write failed; a first part of the lines has then
/// been written.
pub fn write_spelling<K: Sink>(letter: &[u8], output: &mut K) -> Result<(), Failed>
    requires { is_length (length letter.now) ≡ true }
    ensures { Writes K.held K.faults output.old output.new result (spelling_text letter.now) }
{
    let mut sender = LongSender::new();
    let Ok(()) = sender.push(letter) else {
        unreachable!()
    };
    for sent in 0..letter.len().div_ceil(3) + 1 {
        write_line(output, &word_line(u64::from(sender.next_word())))?;
    }
    Ok(())
}
