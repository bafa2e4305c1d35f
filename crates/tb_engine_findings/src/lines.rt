//! The lines of a source, each read once.
ghost use Rattle.std.specs.Prelude.{◌≡◌, ◌≢◌, ◌∷◌, ◌++◌, [], IfOk, OnOk, option_map};
ghost use Rattle.tb_parser.specs.Answers.{edit_of};
ghost use Rattle.tb_basic_text.specs.Lines.{lines_of_file};
ghost use Rattle.tb_parser.specs.declared.errors.SourceErrorKind.TheVariants.{NoMemory};
ghost use Rattle.tb_engine_findings.specs.BadLines.{BadLinesAre, FirstIs};
ghost use Rattle.tb_engine_findings.specs.Entries.{entry_by, numbered_of};
ghost use Rattle.tb_engine_findings.specs.Lines.{AreRead, DoesEdit, HasFault, Says, texts_of};

use std::alloc::{AllocError, Global};
use tb_basic_syntax::Program;
use tb_basic_text::{Notation, next_line};
use tb_parser::{LineEdit, LineFault, SourceError, SourceErrorKind, apply, read_line_in};

/// A line of a file that has a number.
#[derive(Clone, Copy, Drop)]
pub struct NumberedLine {
    /// Which line of the file it is, from 1.
    pub line: usize,
    pub number: u16,
    /// Whether the number is bare.
    pub is_bare: bool,
}

/// The lines of a file, and what they say.
#[derive(Drop)]
pub struct SourceLines<'a> {
    /// All lines, as they were written.
    pub texts: Vec<&'a [u8]>,
    /// The bad lines, each with its first fault.
    pub bad: Vec<SourceError>,
    /// The lines with a number, without the bad ones.
    pub numbered: Vec<NumberedLine>,
    /// The program that the lines make, without the bad ones.
    pub program: Program,
}

/// Reads the lines of a file. A bad line hides no later one, and a line that is replaced later is read too.
pub fn read_lines(
    alloc: Global,
    source: &[u8],
    notation: Notation,
) -> Result<SourceLines<'_>, AllocError>
    ensures { IfOk result (AreRead notation source.now) }
{
    let mut lines = SourceLines {
        texts: Vec::new(alloc),
        bad: Vec::new(alloc),
        numbered: Vec::new(alloc),
        program: Program::new(alloc),
    };
    let mut rest = source;
    let mut number = 1;
    while let Some((text, after)) = next_line(rest) {
        lines.add(alloc, notation, number, text)?;
        rest = after;
        number += 1;
    }
    Ok(lines)
}

/// The bad lines of a source, in order, each with its first fault: line and column as compilers count them. A bad line
/// hides no later one, and a line that is replaced later is looked at too.
pub fn bad_lines(
    alloc: Global,
    source: &[u8],
    notation: Notation,
) -> Result<Vec<SourceError>, AllocError>
    // Exactly the bad lines, in their order.
    ensures lines { IfOk result (λ found. BadLinesAre notation 1 (lines_of_file source.now) found.items) }
    // The first one is why the file is refused; if there is none, no line of the file is why it is.
    ensures first { IfOk result (λ found. FirstIs notation source.now found.items) }
{
    let lines = read_lines(alloc, source, notation)?;
    Ok(lines.bad)
}

impl<'a> SourceLines<'a> {
    // Reads the next line, which has this number in the file, from 1.
    fn add(
        &mut self,
        alloc: Global,
        notation: Notation,
        line: usize,
        text: &'a [u8],
    ) -> Result<(), AllocError>
        ensures written { OnOk result (texts_of self.new ≡ texts_of self.old ++ text.now ∷ []) }
        ensures says { OnOk result (Says notation line text.now self.old self.new) }
    {
        self.texts.push(text)?;
        match read_line_in(alloc, notation, text) {
            Ok(edit) => self.edit(line, edit),
            Err(fault) => self.refuse(line, fault),
        }
    }

    // Does what a line says.
    fn edit(&mut self, line: usize, edit: LineEdit) -> Result<(), AllocError>
        ensures done { OnOk result (DoesEdit line (edit_of edit) self.old self.new) }
        ensures written { OnOk result (self.new.texts ≡ self.old.texts) }
    {
        if let Some(numbered) = numbered_line(line, &edit) {
            self.numbered.push(numbered)?;
        }
        match apply(&mut self.program, edit) {
            Ok(()) => Ok(()),
            Err(_) => Err(AllocError),
        }
    }

    // Notes the fault of a bad line, unless it is want of memory.
    fn refuse(&mut self, line: usize, fault: LineFault) -> Result<(), AllocError>
        ensures told { OnOk result (HasFault line fault self.old self.new) }
        ensures is_fault { OnOk result (fault.kind ≢ NoMemory) }
        ensures written { OnOk result (self.new.texts ≡ self.old.texts) }
    {
        match fault.kind {
            SourceErrorKind::NoMemory => return Err(AllocError),
            kind => self.bad.push(SourceError {
                kind,
                line,
                column: fault.column,
            })?,
        }
        Ok(())
    }
}

// The number of a line, if it has one.
fn numbered_line(line: usize, edit: &LineEdit) -> Option<NumberedLine>
    ensures { result ≡ option_map numbered_of (entry_by line (edit_of edit.now)) }
{
    let (number, is_bare) = match edit {
        LineEdit::Nothing => return None,
        LineEdit::Set(number, _) => (*number, false),
        LineEdit::Delete(number) => (*number, true),
    };
    Some(NumberedLine {
        line,
        number,
        is_bare,
    })
}
