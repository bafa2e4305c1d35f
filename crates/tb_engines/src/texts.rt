//! What standard error says of ends and refusals, after `tbc: `. It says nothing if all is done.
ghost use Rattle.std.specs.Prelude.{◌≡◌, Some};
ghost use Rattle.tb_engines.specs.Texts.{end_text, source_text, too_large_text, wrong_text};

use crate::outcome::{End, Refusal};
use std::fmt;
use tb_asm::AsmErrorKind;
use tb_basic_meaning::LowerError;
use tb_compiled_errors::CompileError;
use tb_cpu::Wrong;
use tb_engine_streams::OUT_OF_MEMORY;
use tb_parser::{SourceError, SourceErrorKind};
use tb_prg::PrgError;

// What is said, text by text.
const UNKNOWN_OPCODE: &str = "unknown opcode";

const BAD_DECIMAL: &str = "bad decimal";

const LINE_TOO_LONG: &str = "line too long";

const BAD_BYTE: &str = "bad byte";

const UNNUMBERED: &str = "no line number";

const BAD_LINE_NUMBER: &str = "bad line number";

const NOT_COMPILED: &str = "not compiled";

const NUMBER_TOO_LARGE: &str = "number too large";

const EMPTY: &str = "empty program";

const STEP_LIMIT: &str = "step limit";

const WAITS_FOR_KEY: &str = "waits for a key";

fn kind_text(kind: AsmErrorKind) -> &'static str {
    match kind {
        AsmErrorKind::NoSuchMode => "no such mode",
        AsmErrorKind::UnknownLabel => "unknown label",
        AsmErrorKind::LabelTwice => "label twice",
        AsmErrorKind::BranchOutOfRange => "branch out of range",
        AsmErrorKind::RunsPast => "runs past the end",
        AsmErrorKind::IndirectAtPageEnd => "indirect at page end",
        AsmErrorKind::NoMemory => OUT_OF_MEMORY,
    }
}

// What is said of an instruction that was refused.
#[derive(Drop)]
struct WrongText(Wrong);

impl fmt::Display for WrongText {
    ghost output = { λ w. Some (wrong_text w.0) };

    fn fmt<W: fmt::Write>(&self, f: &mut fmt::Formatter<W>) -> fmt::Result {
        match self.0 {
            Wrong::UnknownOpcode => f.write_str(UNKNOWN_OPCODE),
            Wrong::BadDecimal => f.write_str(BAD_DECIMAL),
            Wrong::Closed(address) => write!(f, "closed address {address:04X}"),
            Wrong::Brk => f.write_str("brk"),
        }
    }
}

/// What is said of a line whose expression is too deep.
pub const TOO_DEEP: &str = "expression too deep";

/// What is wrong with a line of a source, or that no line is left.
pub fn source_text(kind: SourceErrorKind) -> &'static str
    ensures { result.now ≡ source_text kind }
{
    match kind {
        SourceErrorKind::LineTooLong => LINE_TOO_LONG,
        SourceErrorKind::BadByte => BAD_BYTE,
        SourceErrorKind::Unnumbered => UNNUMBERED,
        SourceErrorKind::BadLineNumber => BAD_LINE_NUMBER,
        SourceErrorKind::NotCompiled => NOT_COMPILED,
        SourceErrorKind::Syntax => "syntax",
        SourceErrorKind::NumberTooLarge => NUMBER_TOO_LARGE,
        SourceErrorKind::Empty => EMPTY,
        SourceErrorKind::NoMemory => OUT_OF_MEMORY,
    }
}

/// What is said of a program that costs so much.
#[derive(Drop)]
pub struct TooLarge(pub u32);

impl fmt::Display for TooLarge {
    ghost output = { λ n. Some (too_large_text n.0) };

    fn fmt<W: fmt::Write>(&self, f: &mut fmt::Formatter<W>) -> fmt::Result {
        write!(f, "program too large ({} bytes)", self.0)
    }
}

fn write_source_error<W: fmt::Write>(error: SourceError, f: &mut fmt::Formatter<W>) -> fmt::Result {
    if 0 < error.line {
        write!(f, "{}:{}: ", error.line, error.column)?;
    }
    f.write_str(source_text(error.kind))
}

fn write_compile_error<W: fmt::Write>(
    error: CompileError,
    f: &mut fmt::Formatter<W>,
) -> fmt::Result {
    match error {
        CompileError::Source(error) => write_source_error(error, f),
        CompileError::Lower(LowerError::TooDeep(line)) => { write!(f, "line {line}: {TOO_DEEP}") }
        CompileError::TooLarge(cost) => write!(f, "{}", TooLarge(cost)),
        CompileError::Lower(LowerError::NoMemory) | CompileError::NoMemory => {
            f.write_str(OUT_OF_MEMORY)
        }
    }
}

impl fmt::Display for Refusal {
    fn fmt<W: fmt::Write>(&self, f: &mut fmt::Formatter<W>) -> fmt::Result {
        match self {
            Refusal::TextLine(line) => write!(f, "text line {line}"),
            Refusal::Item(error) => write!(f, "item {}: {}", error.item, kind_text(error.kind)),
            Refusal::Prg(PrgError::TooShort) => f.write_str("not a PRG: too short"),
            Refusal::Prg(PrgError::RunsPast) => f.write_str("not a PRG: runs past the end"),
            Refusal::NotRam => f.write_str("not a PRG: not RAM"),
            Refusal::Source(error) => write_compile_error(*error, f),
        }
    }
}

impl fmt::Display for End {
    ghost output = { λ end. Some (end_text end) };

    fn fmt<W: fmt::Write>(&self, f: &mut fmt::Formatter<W>) -> fmt::Result {
        match self {
            End::Done => Ok(()),
            End::StepLimit => f.write_str(STEP_LIMIT),
            End::WaitsForKey => f.write_str(WAITS_FOR_KEY),
            End::WentWrong { wrong, pc } => {
                write!(f, "wrong: {} at {pc:04X}", WrongText(*wrong))
            }
        }
    }
}
