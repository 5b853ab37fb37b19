//! A program over bytes in memory.
ghost use Rattle.std.specs.Prelude.{ℕ, ◌≡◌, List, false, [], map, string_bytes, IfOk};
ghost use Rattle.robus_c.specs.Put.{IsAnswer, MayAnswer};

use crate::answer::{Answer, NO_MEMORY, NOT_TEXT, answer_with};
use crate::sink::HeldSink;
use crate::spelled::{NoWords, words_in};
use std::alloc::{AllocError, Global};

/// A program that is given words and an input, both as bytes in memory.
pub(crate) trait Program {
    /// To these words and this input it gives this output, and a status of this number.
    ghost says: { List (List ℕ) → List ℕ → List ℕ → ℕ → Type 0 };

    /// Runs the program into an empty sink. Gives the number of its status, or an error if there is
    /// no memory for what it works with.
    fn run(
        alloc: Global,
        words: &[String],
        input: &[u8],
        sink: &mut HeldSink,
    ) -> Result<u8, AllocError>
        requires { sink.old ≡ record { bytes = []; failed = false } }
        ensures { IfOk result (λ number. sink.new.failed ≡ false
            → says (map string_bytes words.now) input.now sink.new.bytes number) };
}

// The answer to these words.
fn answer_words<P: Program>(
    alloc: Global,
    words: &[String],
    input: &[u8],
    output: &mut [u8],
) -> Answer
    ensures { MayAnswer P.says (map string_bytes words.now) input.now output.old output.new result }
{
    let Ok(mut sink) = HeldSink::new(alloc, output.len()) else {
        return answer_with(NO_MEMORY, &[], output);
    };
    let Ok(number) = P::run(alloc, words, input, &mut sink) else {
        return answer_with(NO_MEMORY, &[], output);
    };
    if sink.has_failed() {
        return answer_with(NO_MEMORY, &[], output);
    }
    answer_with(number, sink.bytes(), output)
}

/// What the program does with the words that the bytes spell, and this input.
pub(crate) fn call<P: Program>(
    alloc: Global,
    words: &[u8],
    input: &[u8],
    output: &mut [u8],
) -> Answer
    ensures { IsAnswer P.says words.now input.now output.old output.new result }
{
    match words_in(alloc, words) {
        Ok(words) => answer_words::<P>(alloc, &words, input, output),
        Err(NoWords::NotText) => answer_with(NOT_TEXT, &[], output),
        Err(NoWords::OutOfMemory) => answer_with(NO_MEMORY, &[], output),
    }
}
