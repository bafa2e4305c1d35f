//! The texts of answers. Each is appended without a line's end.
ghost use Rattle.std.specs.Prelude.{◌≡◌, IfOk, string_bytes};
ghost use Rattle.tb_words.specs.Texts.{AppendsBytes};
ghost use Rattle.tb_debug_inspection.specs.Texts.{address_text, field_text, line_text, registers_text, status_text, value_text};

use crate::values::Value;
use hex::encode_upper;
use std::alloc::{AllocError, Global};
use tb_basic_meaning::EvalError;
use tb_cpu::Regs;
use tb_kernal::Status;
use tb_words::digits;

// What is said, text by text.
const DIVISION_BY_ZERO: &[u8] = b"division by zero";

const HAS_RND: &[u8] = b"has RND";

/// The answer to a line that is no command, and to a text that is no expression.
pub const WHAT: &[u8] = b"what?";

/// The answer to the number of a line that the program doesn't have.
pub const NO_SUCH_LINE: &[u8] = b"no such line";

/// What is said of a run that its limit ended.
pub const LIMIT: &[u8] = b"limit";

/// Appends the value of an expression, or why it has none.
pub fn push_value(text: &mut Vec<u8>, value: Value) -> Result<(), AllocError>
    ensures { AppendsBytes result text.old text.new (value_text value) }
{
    match value {
        Ok(value) => text.extend_from_slice(digits(value).as_slice()),
        Err(EvalError::DivideByZero) => text.extend_from_slice(DIVISION_BY_ZERO),
        Err(EvalError::HasRnd) => text.extend_from_slice(HAS_RND),
    }
}

/// The word for how a machine stands.
pub fn status_text(status: Status) -> &'static str
    ensures { result.now ≡ status_text status }
{
    match status {
        Status::Running => "running",
        Status::Waits => "waits",
        Status::Returned => "returned",
        Status::Wrong(_) => "wrong",
    }
}

/// Appends an address in four hexadecimal digits.
pub fn push_address(alloc: Global, text: &mut Vec<u8>, address: u16) -> Result<(), AllocError>
    ensures { AppendsBytes result text.old text.new (address_text address) }
{
    text.extend_from_slice(encode_upper(alloc, address.to_be_bytes())?.as_bytes())
}

// Appends a name and a byte in two digits.
fn push_field(alloc: Global, text: &mut Vec<u8>, name: &[u8], byte: u8) -> Result<(), AllocError>
    ensures { AppendsBytes result text.old text.new (field_text name.now byte) }
{
    text.extend_from_slice(name)?;
    text.extend_from_slice(encode_upper(alloc, [byte])?.as_bytes())
}

// A line's number, or `-`.
fn line_text(alloc: Global, line: Option<u16>) -> Result<String, AllocError>
    ensures { IfOk result (λ text. string_bytes text ≡ line_text line) }
{
    match line {
        Some(line) => format!(in alloc; "{line}"),
        None => String::from_str(alloc, "-"),
    }
}

// Registers and flags in hexadecimal digits, the line or `-`, and the status.
fn registers_text(
    alloc: Global,
    regs: Regs,
    line: Option<u16>,
    status: Status,
) -> Result<Vec<u8>, AllocError>
    ensures { IfOk result (λ text. text.items ≡ registers_text regs line status) }
{
    let mut text = Vec::new(alloc);
    push_address(alloc, &mut text, regs.pc)?;
    push_field(alloc, &mut text, b" A=", regs.a)?;
    push_field(alloc, &mut text, b" X=", regs.x)?;
    push_field(alloc, &mut text, b" Y=", regs.y)?;
    push_field(alloc, &mut text, b" S=", regs.s)?;
    push_field(alloc, &mut text, b" P=", regs.flags.to_byte())?;
    text.extend_from_slice(b" ")?;
    text.extend_from_slice(line_text(alloc, line)?.as_bytes())?;
    text.extend_from_slice(b" ")?;
    text.extend_from_slice(status_text(status).as_bytes())?;
    Ok(text)
}

/// Appends registers and flags in hexadecimal digits, the line in whose code the program counter lies, or `-`, and how
/// the machine stands.
pub fn push_registers(
    alloc: Global,
    text: &mut Vec<u8>,
    regs: Regs,
    line: Option<u16>,
    status: Status,
) -> Result<(), AllocError>
    ensures { AppendsBytes result text.old text.new (registers_text regs line status) }
{
    let shown = registers_text(alloc, regs, line, status)?;
    text.extend_from_slice(shown.as_slice())
}
