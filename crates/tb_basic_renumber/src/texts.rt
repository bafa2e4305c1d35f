//! A source's text with other numbers.
ghost use Rattle.std.specs.Prelude.{◌≡◌, true, IfOk, map, MatchResult, None, OnOk};
ghost use Rattle.tb_basic_syntax.specs.PlainData.{lines_of};
ghost use Rattle.tb_basic_syntax.specs.Source.{numbers};
ghost use Rattle.tb_basic_renumber.specs.Renumbered.{are_low, new_number};
ghost use Rattle.tb_basic_text.specs.Lines.{lines_of_file};
ghost use Rattle.tb_basic_names.specs.Lines.{does};
ghost use Rattle.tb_basic_names.specs.Sources.{edits_of};
ghost use Rattle.tb_basic_renumber.specs.Answers.{IsLong};
ghost use Rattle.tb_basic_renumber.specs.Texts as spec;

use crate::Numbering;
use crate::cuts::first_end;
use crate::lines::new_line;
use crate::refusals::Refusal;
use std::alloc::{AllocError, Global};
use tb_basic_names::{Line, Source};
use tb_basic_text::LONGEST_LINE;
use tb_parser::{LineEdit, Program};

// Whether an empty line that ends so would be none behind a text: a byte 10 behind a byte 13 ends the same line.
fn loses_line(text: &[u8], end: &[u8]) -> bool
    ensures { result ≡ spec.loses_line text.now end.now }
{
    match (text.last(), end) {
        (Some(b'\r'), [b'\n', ..]) => true,
        _ => false,
    }
}

// Appends a line with its end, and a byte 10 before that where the line would be lost.
fn push_line(text: &mut Vec<u8>, line: &[u8], end: &[u8]) -> Result<(), AllocError>
    ensures { OnOk result (text.new.items ≡ spec.with_line text.old.items line.now end.now) }
{
    if line.is_empty() && loses_line(text, end) {
        text.push(b'\n')?;
    }
    text.extend_from_slice(line)?;
    text.extend_from_slice(end)
}

// Appends a line that is not too long, with its end.
fn push_short(number: u16, line: &[u8], end: &[u8], text: &mut Vec<u8>) -> Result<(), Refusal>
    ensures { MatchResult result
        (λ _. (text.new.items ≡ spec.with_line text.old.items line.now end.now) × (spec.long_by line.now number ≡ None))
        (λ e. IsLong (spec.long_by line.now number) e) }
{
    if line.len() > LONGEST_LINE {
        return Err(Refusal::LineTooLong(number));
    }
    push_line(text, line, end)?;
    Ok(())
}

// A program and new numbers for its lines, none of them above the highest.
#[derive(Drop)]
struct Renumbering<'a> {
    program: &'a Program,
    numbering: Numbering,
    ghost low: { are_low numbering.first numbering.step (numbers (lines_of program.now)) ≡ true },
}

impl Renumbering<'_> {
    // The new number of a line. A number of no line stays.
    fn moved(&self, number: u16) -> u16
        ensures { result ≡ new_number self.now.numbering.first self.now.numbering.step (numbers (lines_of self.now.program.now)) number }
    {
        match self.numbering.new_number(self.program, number) {
            Some(new) => new,
            None => number,
        }
    }

    // A line that stands, with its new number and target.
    fn moved_line(&self, alloc: Global, number: u16, line: &Line<'_>) -> Result<Vec<u8>, AllocError>
        ensures { IfOk result (λ text. text.items
            ≡ spec.moved_line (new_number self.now.numbering.first self.now.numbering.step (numbers (lines_of self.now.program.now))) number line.now) }
    {
        let target = match line.jump() {
            Some(jump) => Some(self.moved(jump.target)),
            None => None,
        };
        new_line(alloc, line, self.moved(number), target)
    }

    // Appends what becomes of the line at a place, with its end.
    fn push(
        &self,
        alloc: Global,
        source: &Source<'_>,
        place: usize,
        line: &Line<'_>,
        end: &[u8],
        text: &mut Vec<u8>,
    ) -> Result<(), Refusal>
        ensures { MatchResult result
            (λ _. (text.new.items ≡ spec.with_kept text.old.items
            (spec.kept (new_number self.now.numbering.first self.now.numbering.step (numbers (lines_of self.now.program.now))) (edits_of source.now.lines.items) place line.now) end.now)
            × (spec.too_long (new_number self.now.numbering.first self.now.numbering.step (numbers (lines_of self.now.program.now))) (edits_of source.now.lines.items) place line.now ≡ None))
            (λ e. IsLong (spec.too_long (new_number self.now.numbering.first self.now.numbering.step (numbers (lines_of self.now.program.now)))
            (edits_of source.now.lines.items) place line.now) e) }
    {
        match &line.edit {
            Some(LineEdit::Nothing) | None => push_line(text, line.text, end)?,
            Some(LineEdit::Set(number, _)) if source.stands(place, *number) => {
                let new = self.moved_line(alloc, *number, line)?;
                push_short(*number, new.as_slice(), end, text)?;
            }
            Some(LineEdit::Set(_, _)) | Some(LineEdit::Delete(_)) => {}
        }
        Ok(())
    }
}

/// The text of a source with its program's lines renumbered: the lines that give the program its lines, and lines of
/// spaces, in the file's order.
pub fn renumbered_text(
    alloc: Global,
    text: &[u8],
    source: &Source<'_>,
    program: &Program,
    numbering: Numbering,
) -> Result<Vec<u8>, Refusal>
    requires low { are_low numbering.first numbering.step (numbers (lines_of program.now)) ≡ true }
    requires lines { map (λ l. l.text.now) source.now.lines.items ≡ lines_of_file text.now }
    ensures { MatchResult result
        (λ new. (new.items ≡ spec.new_text (new_number numbering.first numbering.step (numbers (lines_of program.now))) source.now.lines.items text.now)
        × (spec.first_long (new_number numbering.first numbering.step (numbers (lines_of program.now))) source.now.lines.items ≡ None))
        (λ e. IsLong (spec.first_long (new_number numbering.first numbering.step (numbers (lines_of program.now))) source.now.lines.items) e) }
{
    let renumbering = Renumbering { program, numbering };
    let mut new = Vec::with_capacity(alloc, text.len())?;
    let mut rest = text;
    for (i, line) in source.lines.iter().enumerate() {
        let cut = first_end(rest);
        renumbering.push(alloc, source, i, line, cut.end, &mut new)?;
        rest = cut.behind;
    }
    Ok(new)
}
