//! What comes of a line.
ghost use Rattle.std.specs.Prelude.{◌≡◌, ◌≢◌, ◌⊎◌, ◌<◌, ◌≤◌, length, IfOk, MatchBool};
ghost use Rattle.tb_basic_format.specs.Lines.{digits, tidied, IsBad, IsGood, IsMadeTidy, IsTidied};
ghost use Rattle.tb_basic_format.specs.Kept.{kept};

use crate::kept::kept;
use crate::statements::push_statement;
use std::alloc::{AllocError, Global};
use tb_basic_text::{LONGEST_LINE, Notation};
use tb_parser::{SourceErrorKind, read_line_in};

// How many digits are at the front.
fn digits(text: &[u8]) -> usize
    ensures count { result ≡ digits text.now }
    ensures within { result ≤ length text.now }
{
    for (i, byte) in text.iter().enumerate() {
        if !byte.is_ascii_digit() {
            return i;
        }
    }
    text.len()
}

// A line without spaces, made tidy.
fn tidied(alloc: Global, text: &[u8]) -> Result<Vec<u8>, AllocError>
    ensures { IfOk result (λ tidy. tidy.items ≡ tidied text.now) }
{
    let (number, statement) = text.split_at(digits(text));
    let mut tidy = Vec::from_slice(alloc, number)?;
    if !statement.is_empty() {
        tidy.push(b' ')?;
        push_statement(&mut tidy, statement)?;
    }
    Ok(tidy)
}

// Whether a line is good in a notation. Fails only if memory runs out.
#[tactic(auto, using(crate::proofs::LineCases::good_if, crate::proofs::LineCases::bad_if))]
fn is_good(alloc: Global, notation: Notation, line: &[u8]) -> Result<bool, AllocError>
    ensures { IfOk result (λ good. MatchBool good (IsGood notation line.now) (IsBad notation line.now)) }
{
    match read_line_in(alloc, notation, line).err() {
        None => Ok(true),
        Some(fault) => match fault.kind {
            SourceErrorKind::NoMemory => Err(AllocError),
            _ => Ok(false),
        },
    }
}

// Whether the tidy form of a line takes its place: it is not too long, and the same is kept of it as of the line.
fn takes_the_place(tidy: &[u8], kept_again: &[u8], kept: &[u8]) -> bool
    ensures { MatchBool result ((length tidy.now ≤ 255) × (kept_again.now ≡ kept.now))
        ((255 < length tidy.now) ⊎ (kept_again.now ≢ kept.now)) }
{
    tidy.len() <= LONGEST_LINE && kept_again == kept
}

// What comes of a good line.
fn tidy_good_line(alloc: Global, line: &[u8]) -> Result<Vec<u8>, AllocError>
    ensures { IfOk result (λ new. IsMadeTidy line.now new.items) }
{
    let bytes = kept(alloc, line)?;
    let tidy = tidied(alloc, bytes.as_slice())?;
    let again = kept(alloc, tidy.as_slice())?;
    if !takes_the_place(tidy.as_slice(), again.as_slice(), bytes.as_slice()) {
        return Vec::from_slice(alloc, line);
    }
    Ok(tidy)
}

/// What comes of a line of a source: its tidy form if it is good in the notation and has one, else the line as it is.
/// Fails only if memory runs out.
pub fn tidy_line(alloc: Global, notation: Notation, line: &[u8]) -> Result<Vec<u8>, AllocError>
    ensures { IfOk result (λ new. IsTidied notation line.now new.items) }
{
    if !is_good(alloc, notation, line)? {
        return Vec::from_slice(alloc, line);
    }
    tidy_good_line(alloc, line)
}
