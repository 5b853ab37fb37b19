//! The words of a letter.
ghost use Rattle.std.specs.Prelude.{◌≡◌, ◌+◌, ◌^◌, ◌<◌, ◌≤◌, true, length, get_or};
ghost use Rattle.rb_long.specs.Spelling.{bytes_in, first_word, is_first, is_length, is_part, part_at, parts_in};

// The most bytes of a letter.
pub(crate) const MOST_BYTES: usize = 255;

const FIRST: u32 = 1 << 24;

const PART: u32 = 1 << 25;

// Whether a letter may have `count` bytes.
pub(crate) fn is_length(count: usize) -> bool
    ensures { result ≡ is_length count }
{
    1 <= count && count <= MOST_BYTES
}

// Whether the word begins a letter.
pub(crate) fn is_first(word: u32) -> bool
    ensures { result ≡ is_first word }
{
    FIRST < word && word < FIRST + 256
}

// Whether the word has three bytes of a letter.
pub(crate) fn is_part(word: u32) -> bool
    ensures { result ≡ is_part word }
{
    PART <= word && word < PART + FIRST
}

// How many bytes the letter has that the word begins.
pub(crate) fn length_in(word: u32) -> u8
    requires { is_first word ≡ true }
    ensures value { first_word result ≡ word }
    ensures some { 1 ≤ result }
{
    (word - FIRST) as u8
}

// The three bytes of the word.
pub(crate) fn bytes_in(word: u32) -> [u8; 3]
    ensures { result ≡ bytes_in word }
{
    [
        (word / 65536 % 256) as u8,
        (word / 256 % 256) as u8,
        (word % 256) as u8,
    ]
}

// The word with which a letter of `count` bytes begins.
pub(crate) fn first_word(count: u8) -> u32
    ensures { result ≡ first_word count }
{
    FIRST + u32::from(count)
}

// The byte at this place, 0 past the end.
fn byte_at(letter: &[u8], place: usize) -> u32
    ensures value { result ≡ get_or letter.now place 0 }
    ensures few { result < 256 }
{
    match letter.get(place) {
        Some(byte) => u32::from(*byte),
        None => 0,
    }
}

// The word of the letter's bytes 3k to 3k + 2.
pub(crate) fn part_at(letter: &[u8], k: u8) -> u32
    ensures { result ≡ part_at letter.now k }
{
    let place = 3 * usize::from(k);
    PART + 65536 * byte_at(letter, place)
        + 256 * byte_at(letter, place + 1)
        + byte_at(letter, place + 2)
}
