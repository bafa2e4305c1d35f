//! The tidy text of a source.
ghost use Rattle.std.specs.Prelude.{◌≡◌, ◌∷◌, ◌++◌, ◌==◌, ◌&&◌, false, IfOk, OnOk, MatchBool, MatchOption};
ghost use Rattle.tb_basic_format.specs.Texts.{AreWithin, IsEnd, IsTidyText, IsWithin, Places, placed, said};

use crate::lines::tidy_line;
use std::alloc::{AllocError, Global};
use tb_basic_text::Notation;

// Whether a byte ends a line.
fn ends_line(byte: u8) -> bool
    ensures { MatchBool result (IsEnd byte) (IsWithin byte) }
{
    matches!(byte, b'\n' | b'\r')
}

// The first line, the byte that ends it, and what is left after that; `None` if no byte ends a line.
fn split_line(text: &[u8]) -> Option<(&[u8], u8, &[u8])>
    ensures { MatchOption result (AreWithin text.now)
        (λ p. (text.now ≡ p.0.now ++ p.1 ∷ p.2.now) × AreWithin p.0.now × IsEnd p.1) }
{
    for (i, byte) in text.iter().enumerate() {
        if ends_line(*byte) {
            return Some((&text[..i], *byte, &text[i + 1..]));
        }
    }
    None
}

// What stands for a line in the tidy text, given what comes of it.
fn placed<'a>(is_bound: bool, line: &'a [u8], new: &'a [u8]) -> &'a [u8]
    ensures { result.now ≡ placed is_bound line.entry.now new.entry.now }
{
    if is_bound && new.is_empty() {
        line
    } else {
        new
    }
}

// Whether a byte that ends a line stands behind a 13 with at most this line between, and is a 10.
fn is_between(behind_return: bool, ending: u8) -> bool
    ensures { result ≡ (behind_return && (ending == 10)) }
{
    behind_return && ending == b'\n'
}

// Appends what stands for a line.
fn push_line(
    alloc: Global,
    notation: Notation,
    text: &mut Vec<u8>,
    is_bound: bool,
    line: &[u8],
) -> Result<(), AllocError>
    ensures { OnOk result (Places notation is_bound line.now text.old.items text.new.items) }
{
    let new = tidy_line(alloc, notation, line)?;
    text.extend_from_slice(placed(is_bound, line, &new))
}

/// The tidy text of a source whose texts are read in a notation. Fails only if memory runs out.
pub fn tidy_text(alloc: Global, notation: Notation, source: &[u8]) -> Result<Vec<u8>, AllocError>
    // Each line is tidy or as it was, and line ends stay.
    ensures tidy { IfOk result (λ text. IsTidyText notation false source.now text.items) }
    // There are as many lines, and each says the same.
    ensures same { IfOk result (λ text. said notation text.items ≡ said notation source.now) }
{
    let mut text = Vec::with_capacity(alloc, source.len())?;
    let mut rest = source;
    let mut behind_return = false;
    while let Some((line, ending, after)) = split_line(rest) {
        let is_bound = is_between(behind_return, ending);
        push_line(alloc, notation, &mut text, is_bound, line)?;
        text.push(ending)?;
        behind_return = ending == b'\r';
        rest = after;
    }
    push_line(alloc, notation, &mut text, true, rest)?;
    Ok(text)
}
