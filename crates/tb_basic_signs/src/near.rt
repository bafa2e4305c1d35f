//! The name that was probably meant.
ghost use Rattle.std.specs.Prelude.{◌≡◌, ◌≤◌, IfOk, length, map, ◌/◌, ◌+◌, option_map};
ghost use Rattle.tb_basic_signs.specs.Near as spec;
ghost use Rattle.tb_basic_signs.specs.Names.{control};

use crate::names::{CONTROLS, Control};
use std::alloc::{AllocError, Global};
use strsim::generic_levenshtein;

/// The name nearest to that of a sign that stands for nothing; `inside` is what follows its brace. Fails only if memory
/// runs out.
///
/// Nearest is a name of the fewest edits, each of which changes, leaves out or adds a letter, and the first one of them.
/// There is none if that takes more edits than half of the written letters.
pub fn near_name(alloc: Global, inside: &[u8]) -> Result<Option<&'static [u8]>, AllocError>
    ensures { IfOk result (λ name. option_map (λ n. n.now) name ≡ spec.near_name inside.now) }
{
    let name = written_name(after_count(inside)).to_ascii_lowercase(alloc)?;
    nearest(alloc, &name, &CONTROLS)
}

/// What follows a count: digits and a space, if a text begins with them.
pub fn after_count(inside: &[u8]) -> &[u8]
    ensures { result.now ≡ spec.after_count inside.now }
{
    match after_digits(inside) {
        [b' ', rest @ ..] => rest,
        _ => inside,
    }
}

// What follows the digits at the front.
fn after_digits(text: &[u8]) -> &[u8]
    ensures { result.now ≡ spec.after_digits text.now }
{
    match text {
        [first, rest @ ..] if first.is_ascii_digit() => after_digits(rest),
        _ => text,
    }
}

/// The letters and digits at the front: what is written as a name.
pub fn written_name(text: &[u8]) -> &[u8]
    ensures { result.now ≡ spec.written_name text.now }
{
    for (i, byte) in text.iter().enumerate() {
        if !byte.is_ascii_alphanumeric() {
            return &text[..i];
        }
    }
    text
}

// How many letters are changed, left out and added from a word to another.
fn edits(alloc: Global, word: &[u8], name: &[u8]) -> Result<usize, AllocError>
    ensures { IfOk result (λ n. n ≡ spec.edits word.now name.now) }
{
    generic_levenshtein(alloc, word, name)
}

// The nearest name, if it is near.
fn nearest(
    alloc: Global,
    word: &[u8],
    controls: &[Control],
) -> Result<Option<&'static [u8]>, AllocError>
    ensures { IfOk result (λ name. option_map (λ n. n.now) name
        ≡ spec.nearest word.now (length word.now / 2 + 1) (map (λ c. control c.0.now c.1) controls.now)) }
{
    let mut least = word.len() / 2 + 1;
    let mut found = None;
    for control in controls {
        let count = edits(alloc, word, control.0.as_bytes())?;
        if count < least {
            least = count;
            found = Some(control.0.as_bytes());
        }
    }
    Ok(found)
}
