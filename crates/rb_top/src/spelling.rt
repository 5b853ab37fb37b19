//! The words of a letter.
ghost use Rattle.rb_long_run.specs.Reports.{spelling_text};
ghost use Rattle.rb_run.specs.Seen.{sink_over};
ghost use Rattle.rb_program.specs.Outside.{WritesText};
ghost use Rattle.rb_top.specs.Words.{IsLetter};

use arrayvec::ArrayVec;
use rb_long_run::write_spelling;
use rb_outside::{Failed, Sink};
use rb_program::Status;

/// `spell HEX`: writes the words that spell a letter of 1 to 255 bytes, a line each.
///
/// `Done`: all is written. `WriteFault`: the sink failed; what it took is a first part of the text.
pub fn spell<K: Sink>(letter: &ArrayVec<u8, 255>, output: &mut K) -> Status
    requires { IsLetter letter.now.items }
    ensures { WritesText (spelling_text letter.now.items) result
        (sink_over K.held K.faults output.old output.new) }
{
    match write_spelling(letter.as_slice(), output) {
        Ok(()) => Status::Done,
        Err(Failed) => Status::WriteFault,
    }
}
