//! Source texts read: a file, a line of it, one expression.
ghost use Rattle.std.specs.Prelude.{◌≡◌, ◌≢◌, ◌<◌, ◌≤◌, ℕ, [], None, Some, Result, Ok, Err, IfErr, IfOk, IfSome, MatchOption, MatchResult, OnOk, length};
ghost use Rattle.tb_basic_syntax.specs.Source.{Statement as SourceStatement, Expression, Rises, numbers};
ghost use Rattle.tb_basic_syntax.specs.PlainData.{statement_of, expression_of, lines_of};
ghost use Rattle.tb_basic_grammar.specs.Statements.{States};
ghost use Rattle.tb_parser.specs.declared.errors.SourceErrorKind.TheVariants.{LineTooLong, NoMemory, NotCompiled, NumberTooLarge, Syntax};
ghost use Rattle.tb_basic_text.specs.declared.notation.Notation.TheVariants.{Plain};
ghost use Rattle.tb_parser.specs.Answers.{edit_of, refusal_of, Answers, InLineOne, Says};
ghost use Rattle.tb_parser.specs.Files.{AreStated, FileRefusal, LinesAre, LinesIn, Outcome};
ghost use Rattle.tb_basic_text.specs.Lines.{lines_of_file};
ghost use Rattle.tb_parser.specs.Notations.{column_of, first_bad_in, squeezed_in};
ghost use Rattle.tb_parser.specs.Readings.{Expresses, ExpressionIs, IsFitIn, IsUnfitIn, LineIn, LineIs, TextIs};
ghost use Rattle.tb_parser.specs.Refusals.{out_of_memory};
ghost use Rattle.tb_parser.specs.Scans.{column_left, left_out_word};
ghost use Rattle.tb_parser.specs.Signed.{LackSigns};

use crate::edits::{LineEdit, apply};
use crate::errors::{LineFault, OUT_OF_MEMORY, SourceError, SourceErrorKind};
use crate::scans::{bad_byte, column_of_left, is_numbered, left_out, line_number, written};
use crate::signs::{bad_byte_or_sign, squeeze_signs};
use crate::squeeze::{Placed, copy_bytes, squeeze};
use std::alloc::{AllocError, Global};
use tb_basic_grammar::{ReadError, read_expression, read_statement};
use tb_basic_syntax::{Expr, Program, Statement};
use tb_basic_text::{LONGEST_LINE, Notation, next_line};

/// The program that a file's lines make, or the first bad line.
///
/// A line ends at a byte 10, at a byte 13, at both, 13 first, or at the end of the file. A line of spaces alone is
/// counted and otherwise ignored, at any length. In their order, a line with a statement sets its number's entry in
/// place of any earlier one, and a bare number deletes the entry, if there is one. A line that is replaced later is
/// checked too.
pub fn parse(alloc: Global, source: &[u8]) -> Result<Program, SourceError>
    // What is answered is what the file's lines make, from line 1 on.
    ensures found { Answers lines_of result (LinesAre 1 [] (lines_of_file source.now)) }
    // The numbers rise, from 1 to 32,767 at most.
    ensures rising { IfOk result (λ p. Rises 1 32768 (numbers (lines_of p))) }
    // Each statement is spelled by a text that fits a line.
    ensures stated { IfOk result (λ p. AreStated (lines_of p)) }
    // What the lines make is answered, unless memory runs out.
    ensures only { (outcome : Outcome) → LinesAre 1 [] (lines_of_file source.now) outcome
        → Answers lines_of result (λ said. said ≡ outcome) }
    ensures memory { IfErr result (λ e. e.kind ≡ NoMemory → e ≡ out_of_memory) }
{
    parse_in(alloc, Notation::Plain, source)
}

/// The program of a source whose texts are read in a notation.
pub fn parse_in(alloc: Global, notation: Notation, source: &[u8]) -> Result<Program, SourceError>
    // What is answered is what the file's lines make in the notation, from line 1 on.
    ensures found { Answers lines_of result (LinesIn notation 1 [] (lines_of_file source.now)) }
    // The numbers rise, from 1 to 32,767 at most.
    ensures rising { IfOk result (λ p. Rises 1 32768 (numbers (lines_of p))) }
    // Each statement is spelled by a text that fits a line.
    ensures stated { IfOk result (λ p. AreStated (lines_of p)) }
    // What the lines make in the notation is answered, unless memory runs out.
    ensures only { (outcome : Outcome) → LinesIn notation 1 [] (lines_of_file source.now) outcome
        → Answers lines_of result (λ said. said ≡ outcome) }
    // If no text has a brace or a bracket, it is what the lines make without signs.
    ensures plain { LackSigns (lines_of_file source.now) → Answers lines_of result (LinesAre 1 [] (lines_of_file source.now)) }
    ensures memory { IfErr result (λ e. e.kind ≡ NoMemory → e ≡ out_of_memory) }
{
    let mut program = Program::new(alloc);
    let mut placed = Vec::new(alloc);
    let mut bytes = Vec::new(alloc);
    let mut rest = source;
    let mut number = 1;
    while let Some((line, behind)) = next_line(rest) {
        match read_line_with(alloc, notation, line, &mut placed, &mut bytes) {
            Ok(edit) => apply(&mut program, edit)?,
            Err(fault) => return Err(fault.at_line(number)),
        }
        rest = behind;
        number += 1;
    }
    if program.is_empty() {
        return Err(SourceError {
            kind: SourceErrorKind::Empty,
            line: 0,
            column: 0,
        });
    }
    Ok(program)
}

/// The expression that a text is, or what is wrong with it as line 1. It needs no line number.
pub fn parse_expr(alloc: Global, text: &[u8]) -> Result<Expr, SourceError>
    ensures found { Answers expression_of result (InLineOne (ExpressionIs text.now)) }
    ensures only { (outcome : Result Expression FileRefusal) → InLineOne (ExpressionIs text.now) outcome
        → Answers expression_of result (λ said. said ≡ outcome) }
    ensures memory { IfErr result (λ e. e.kind ≡ NoMemory → e ≡ out_of_memory) }
{
    match read_expression_line(alloc, text) {
        Ok(expr) => Ok(expr),
        Err(fault) => Err(fault.at_line(1)),
    }
}

/// What a line of a file does, or its first fault. Running out of memory is a fault too, with column 0.
pub fn read_line(alloc: Global, line: &[u8]) -> Result<LineEdit, LineFault>
    ensures { Says edit_of result (LineIs line.now) }
{
    read_line_in(alloc, Notation::Plain, line)
}

/// What a line whose texts are read in a notation does, or its first fault.
pub fn read_line_in(alloc: Global, notation: Notation, line: &[u8]) -> Result<LineEdit, LineFault>
    ensures { Says edit_of result (LineIn notation line.now) }
{
    let mut placed = Vec::new(alloc);
    let mut bytes = Vec::new(alloc);
    read_line_with(alloc, notation, line, &mut placed, &mut bytes)
}

// What a line does, or its first fault. The lists only lend their room, so that not each line asks for its own.
fn read_line_with(
    alloc: Global,
    notation: Notation,
    line: &[u8],
    placed: &mut Vec<Placed>,
    bytes: &mut Vec<u8>,
) -> Result<LineEdit, LineFault>
    ensures { Says edit_of result (LineIn notation line.now) }
{
    let Some(first) = written(line) else {
        return Ok(LineEdit::Nothing);
    };
    squeeze_fit(notation, placed, line)?;
    if !is_numbered(placed) {
        return Err(LineFault {
            kind: SourceErrorKind::Unnumbered,
            column: first,
        });
    }
    let Some((number, text)) = line_number(placed) else {
        return Err(LineFault {
            kind: SourceErrorKind::BadLineNumber,
            column: first,
        });
    };
    if text.is_empty() {
        return Ok(LineEdit::Delete(number));
    }
    let statement = read_line_statement(alloc, line, text, bytes)?;
    Ok(LineEdit::Set(number, statement))
}

// What a line stands for, if that is not too long and the line has no bad byte.
fn squeeze_fit(notation: Notation, placed: &mut Vec<Placed>, line: &[u8]) -> Result<(), LineFault>
    ensures { MatchResult result (λ _. IsFitIn notation line.now × (placed.new.items ≡ squeezed_in notation line.now))
        (λ fault. IfSome (refusal_of fault.kind fault.column) (IsUnfitIn notation line.now)) }
{
    check_bytes(notation, line)?;
    squeeze_in(notation, placed, line)?;
    check_length(placed)
}

// A line that is neither too long nor has a bad byte.
#[tactic(auto, using(crate::specs::Readings::line_too_long, crate::specs::Readings::bad_byte))]
fn check_bytes(notation: Notation, line: &[u8]) -> Result<(), LineFault>
    ensures { MatchResult result (λ _. (length line.now ≤ 255) × (first_bad_in notation line.now ≡ None))
        (λ fault. IfSome (refusal_of fault.kind fault.column) (IsUnfitIn notation line.now)) }
{
    if line.len() > LONGEST_LINE {
        return Err(LineFault {
            kind: SourceErrorKind::LineTooLong,
            column: LONGEST_LINE + 1,
        });
    }
    match bad_byte_in(notation, line) {
        Some(column) => Err(LineFault {
            kind: SourceErrorKind::BadByte,
            column,
        }),
        None => Ok(()),
    }
}

// The column of the first bad byte.
fn bad_byte_in(notation: Notation, line: &[u8]) -> Option<usize>
    ensures { result ≡ first_bad_in notation line.now }
{
    match notation {
        Notation::Plain => bad_byte(line),
        Notation::Signs => bad_byte_or_sign(line),
    }
}

// What a line stands for, in the place of what `placed` held.
fn squeeze_in(notation: Notation, placed: &mut Vec<Placed>, line: &[u8]) -> Result<(), AllocError>
    ensures { OnOk result (placed.new.items ≡ squeezed_in notation line.now) }
{
    match notation {
        Notation::Plain => squeeze(placed, line),
        Notation::Signs => squeeze_signs(placed, line),
    }
}

// Whether a line stands for too many bytes, as only one with signs can.
fn check_length(placed: &[Placed]) -> Result<(), LineFault>
    ensures { MatchResult result (λ _. length placed.now ≤ 255)
        (λ fault. (255 < length placed.now) × (fault ≡ record { kind = LineTooLong; column = column_of 255 placed.now })) }
{
    match placed.get(LONGEST_LINE) {
        Some(first) => Err(LineFault {
            kind: SourceErrorKind::LineTooLong,
            column: first.column,
        }),
        None => Ok(()),
    }
}

// The statement after a line's number.
fn read_line_statement(
    alloc: Global,
    line: &[u8],
    text: &[Placed],
    bytes: &mut Vec<u8>,
) -> Result<Statement, LineFault>
    ensures { Says statement_of result (TextIs SourceStatement States text.now) }
{
    copy_bytes(text, bytes)?;
    match read_statement(alloc, bytes) {
        Ok(read) => in_range(read.statement, read.large, text),
        Err(ReadError::NoMemory) => Err(OUT_OF_MEMORY),
        Err(ReadError::NoReading(left)) => Err(unread(line, text, left)),
    }
}

// A line that is one expression.
fn read_expression_line(alloc: Global, line: &[u8]) -> Result<Expr, LineFault>
    ensures { Says expression_of result (ExpressionIs line.now) }
{
    let mut placed = Vec::new(alloc);
    squeeze_fit(Notation::Plain, &mut placed, line)?;
    read_value(alloc, line, &placed)
}

// The expression that a line's text is.
fn read_value(alloc: Global, line: &[u8], text: &[Placed]) -> Result<Expr, LineFault>
    ensures { Says expression_of result (TextIs Expression Expresses text.now) }
{
    let mut bytes = Vec::new(alloc);
    copy_bytes(text, &mut bytes)?;
    match read_expression(alloc, &bytes) {
        Ok(read) => in_range(read.expr, read.large, text),
        Err(ReadError::NoMemory) => Err(OUT_OF_MEMORY),
        Err(ReadError::NoReading(left)) => Err(unread(line, text, left)),
    }
}

// What was read, unless a literal is too large; `large` is the number of bytes left from the first such literal on.
fn in_range<T: Drop>(tree: T, large: Option<usize>, text: &[Placed]) -> Result<T, LineFault>
    ensures { MatchOption large (result ≡ Ok tree) (λ left. result
        ≡ Err (record { kind = NumberTooLarge; column = column_left left text.now })) }
{
    match large {
        None => Ok(tree),
        Some(left) => Err(LineFault {
            kind: SourceErrorKind::NumberTooLarge,
            column: column_of_left(text, left),
        }),
    }
}

// Why a text of a line has no reading; `left` is the number of bytes left from the first token that does not fit.
fn unread(line: &[u8], text: &[Placed], left: usize) -> LineFault
    ensures { MatchOption (left_out_word text.now) (result.kind ≡ Syntax) (λ column. result
        ≡ record { kind = NotCompiled; column = column }) }
{
    match left_out(text) {
        Some(column) => LineFault {
            kind: SourceErrorKind::NotCompiled,
            column,
        },
        None => LineFault {
            kind: SourceErrorKind::Syntax,
            column: match left {
                0 => line.len() + 1,
                _ => column_of_left(text, left),
            },
        },
    }
}
