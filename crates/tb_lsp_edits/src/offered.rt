//! What is offered: what begins as what is typed, and with which the line before it begins a line of the grammar.
ghost use Rattle.std.specs.Prelude.{◌≡◌, ◌≢◌, ◌++◌, IfOk, OnOk, MatchBool, string_bytes};
ghost use Rattle.tb_lsp_edits.specs.Candidates.{spelled};
ghost use Rattle.tb_lsp_edits.specs.Offered as spec;

use crate::candidates::Candidate;
use crate::continued::goes_on;
use crate::typed::Typed;
use std::alloc::{AllocError, Global};
use tb_basic_text::Notation;
use tb_parser::{SourceErrorKind, read_line_in};

/// How a candidate is spelled.
pub fn spelled(alloc: Global, candidate: Candidate) -> Result<String, AllocError>
    ensures { IfOk result (λ text. string_bytes text ≡ spelled candidate) }
{
    match candidate {
        Candidate::Word(word) => String::from_str(alloc, word.spelling()),
        Candidate::Number(number) => format!(in alloc; "{number}"),
    }
}

// Whether a text begins with another one, which may have small letters.
fn begins(text: &[u8], part: &[u8]) -> bool
    ensures { result ≡ spec.begins text.now part.now }
{
    match part {
        [] => true,
        [byte, rest @ ..] => match text {
            [] => false,
            [first, others @ ..] => *first == byte.to_ascii_uppercase() && begins(others, rest),
        },
    }
}

// Whether a line is good, or nothing is wrong with it but that it ends.
fn begins_line(alloc: Global, notation: Notation, line: &[u8]) -> Result<bool, AllocError>
    ensures { IfOk result (spec.BeginsLine notation line.now) }
{
    match read_line_in(alloc, notation, line) {
        Ok(_) => Ok(true),
        Err(fault) => match fault.kind {
            SourceErrorKind::NoMemory => Err(AllocError),
            SourceErrorKind::Syntax => Ok(fault.column > line.len()),
            _ => Ok(false),
        },
    }
}

// Whether a candidate that is spelled so fits behind a text: then it begins a line of the grammar, or goes on to one.
fn fits(
    alloc: Global,
    notation: Notation,
    base: &[u8],
    text: &[u8],
    candidate: Candidate,
) -> Result<bool, AllocError>
    ensures { IfOk result (spec.Fits notation (base.now ++ text.now) candidate) }
{
    let mut line = Vec::from_slice(alloc, base)?;
    line.extend_from_slice(text)?;
    if begins_line(alloc, notation, line.as_slice())? {
        return Ok(true);
    }
    goes_on(alloc, notation, line.as_slice(), candidate)
}

// Whether a candidate is the number of a line, and none is meant.
fn is_misplaced(typed: Typed<'_>, candidate: Candidate) -> bool
    ensures { result ≡ spec.is_misplaced typed.entry.before candidate }
{
    match candidate {
        Candidate::Word(_) => false,
        Candidate::Number(_) => !typed.is_behind_jump(),
    }
}

// Whether a candidate is offered behind what is typed.
fn is_offered(
    alloc: Global,
    notation: Notation,
    typed: Typed<'_>,
    candidate: Candidate,
) -> Result<bool, AllocError>
    ensures { IfOk result (spec.IsOffered notation typed.entry candidate) }
{
    let text = spelled(alloc, candidate)?;
    let text = text.as_str().as_bytes();
    if typed.is_closed() || is_misplaced(typed, candidate) || !begins(text, typed.part) {
        return Ok(false);
    }
    fits(alloc, notation, typed.base, text, candidate)
}

// Appends a candidate, if it is offered.
fn push_offered(
    alloc: Global,
    notation: Notation,
    typed: Typed<'_>,
    candidate: Candidate,
    found: &mut Vec<Candidate>,
) -> Result<(), AllocError>
    ensures { OnOk result (spec.AppendsOffered notation typed.entry candidate found.old.items found.new.items) }
{
    if is_offered(alloc, notation, typed, candidate)? {
        found.push(candidate)?;
    }
    Ok(())
}

/// The candidates that are offered behind what is typed, where lines are read in a notation.
pub fn offered(
    alloc: Global,
    notation: Notation,
    typed: Typed<'_>,
    candidates: &[Candidate],
) -> Result<Vec<Candidate>, AllocError>
    ensures { IfOk result (λ found. spec.Offers notation typed.entry candidates.now found.items) }
{
    let mut found = Vec::new(alloc);
    for candidate in candidates {
        push_offered(alloc, notation, typed, *candidate, &mut found)?;
    }
    Ok(found)
}
