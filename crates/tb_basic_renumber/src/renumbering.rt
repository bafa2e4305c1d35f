//! Renumbering a source.
ghost use Rattle.std.specs.Prelude.{◌≡◌, true, MatchResult};
ghost use Rattle.tb_basic_syntax.specs.PlainData.{lines_of};
ghost use Rattle.tb_basic_syntax.specs.Source.{numbers, Rises};
ghost use Rattle.tb_basic_renumber.specs.Renumbered.{are_low, renumbered};
ghost use Rattle.tb_basic_names.specs.Sources.{AreLinesOf};
ghost use Rattle.tb_basic_renumber.specs.Answers.{IsMovable, IsOther, IsProgramIn, Refuses, Renumbers, RenumbersLines, of_text};

use crate::refusals::Refusal;
use crate::texts::renumbered_text;
use crate::{Numbering, is_renumbered, jump_fault};
use std::alloc::Global;
use tb_basic_names::{Source, read_source};
use tb_basic_text::Notation;
use tb_parser::{Program, SourceError, SourceErrorKind, parse_in};

// Whether a program can be renumbered.
fn check(program: &Program, numbering: Numbering) -> Result<(), Refusal>
    ensures { MatchResult result (λ _. IsMovable numbering.first numbering.step (lines_of program.now))
        (λ e. Refuses numbering.first numbering.step (lines_of program.now) e) }
{
    if let Some((line, fault)) = jump_fault(program) {
        return Err(Refusal::Jump(line, fault));
    }
    if !numbering.fits(program) {
        return Err(Refusal::AboveHighest);
    }
    Ok(())
}

// Why the new text is refused that doesn't read. Want of memory is no fault of the text.
fn of_text(e: SourceError) -> Refusal
    ensures { result ≡ of_text e.kind }
{
    match e.kind {
        SourceErrorKind::NoMemory => Refusal::NoMemory,
        _ => Refusal::Other,
    }
}

// Reads the new text again, in the same notation: it is to be the program renumbered, whose numbers are low.
fn read_again(
    alloc: Global,
    notation: Notation,
    program: &Program,
    numbering: Numbering,
    text: &[u8],
) -> Result<(), Refusal>
    requires { are_low numbering.first numbering.step (numbers (lines_of program.now)) ≡ true }
    ensures { MatchResult result (λ _. IsProgramIn notation text.now (renumbered numbering.first numbering.step (lines_of program.now))
        × Rises 1 32768 (numbers (renumbered numbering.first numbering.step (lines_of program.now))))
        (IsOther notation text.now (renumbered numbering.first numbering.step (lines_of program.now))) }
{
    let new = match parse_in(alloc, notation, text) {
        Ok(new) => new,
        Err(e) => return Err(of_text(e)),
    };
    if !is_renumbered(&numbering, program, &new) {
        return Err(Refusal::Other);
    }
    Ok(())
}

// A source with these lines, of this program, renumbered.
fn renumber_lines(
    alloc: Global,
    notation: Notation,
    text: &[u8],
    source: &Source<'_>,
    program: &Program,
    numbering: Numbering,
) -> Result<Vec<u8>, Refusal>
    requires rising { Rises 1 32768 (numbers (lines_of program.now)) }
    requires lines { AreLinesOf notation text.now source.now.lines.items }
    ensures { RenumbersLines notation numbering.first numbering.step text.now source.now.lines.items (lines_of program.now) result }
{
    check(program, numbering)?;
    let new = renumbered_text(alloc, text, source, program, numbering)?;
    read_again(alloc, notation, program, numbering, new.as_slice())?;
    Ok(new)
}

/// The text of a source, whose texts are read in a notation, with its lines renumbered, and its jumps with them.
/// Refused, in this order: a text that is no program, a jump that can't be renumbered, a number above 32,767, a line of
/// more than 255 bytes, a new text that is another program; or memory runs out.
pub fn renumber(
    alloc: Global,
    notation: Notation,
    source: &[u8],
    numbering: Numbering,
) -> Result<Vec<u8>, Refusal>
    ensures { Renumbers notation numbering.first numbering.step source.now result }
{
    let program = parse_in(alloc, notation, source)?;
    let read = read_source(alloc, notation, source)?;
    renumber_lines(alloc, notation, source, &read, &program, numbering)
}
