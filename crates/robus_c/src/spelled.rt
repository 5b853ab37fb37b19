//! The words of a call.
ghost use Rattle.std.specs.Prelude.{◌≡◌, ◌==◌, map, string_bytes, IfOk, IsOk};
ghost use Rattle.std.specs.List.{slice_split};
ghost use Rattle.std.specs.Str.{IsUtf8};
ghost use Rattle.robus_c.specs.Words.{words_in};

use std::alloc::{AllocError, Global};

/// Why bytes give no words.
#[derive(Clone, Copy, Debug, PartialEq, Eq)]
pub enum NoWords {
    /// The words are not UTF-8.
    NotText,
    /// An allocation failed.
    OutOfMemory,
}

// The parts of the text between NUL characters.
fn parts_of<'a>(alloc: Global, text: &'a str) -> Result<Vec<&'a str>, AllocError>
    ensures { IfOk result (λ v. map (λ part. part.now) v.items
        ≡ slice_split (λ c. c == 0) text.now) }
{
    text.split('\0').collect(alloc)
}

// The parts as texts of their own.
fn copies_of(alloc: Global, parts: &[&str]) -> Result<Vec<String>, AllocError>
    ensures { IfOk result (λ v. map string_bytes v.items ≡ map (λ part. part.now) parts.now) }
{
    let mut copies = Vec::new(alloc);
    for part in parts {
        copies.push(part.to_string(alloc)?)?;
    }
    Ok(copies)
}

// The words that the text spells.
fn words_of(alloc: Global, text: &str) -> Result<Vec<String>, AllocError>
    ensures { IfOk result (λ v. map string_bytes v.items ≡ words_in text.now) }
{
    if text.is_empty() {
        return Ok(Vec::new(alloc));
    }
    let parts = parts_of(alloc, text)?;
    copies_of(alloc, &parts)
}

/// The words that the bytes spell, with a NUL byte between one and the next. No bytes spell no
/// words.
pub fn words_in(alloc: Global, bytes: &[u8]) -> Result<Vec<String>, NoWords>
    ensures words { IfOk result (λ v. map string_bytes v.items ≡ words_in bytes.now) }
    ensures text { IsOk result → IsUtf8 bytes.now }
    ensures not_text { result ≡ Err NoWords.NotText → ¬ IsUtf8 bytes.now }
{
    let Ok(text) = std::str::from_utf8(bytes) else {
        return Err(NoWords::NotText);
    };
    words_of(alloc, text).map_err(|_| NoWords::OutOfMemory)
}
