//! The texts that are shown.
ghost use Rattle.std.specs.Prelude.{◌≡◌, ◌++◌, IfOk, OnOk, string_bytes};
ghost use Rattle.tb_lsp_hover.specs.Texts as spec;

use crate::numbers::LineNumbers;
use std::alloc::{AllocError, Global};
use tb_compiled_kept::VARS;
use tb_words::hex_digits;

/// The most lines that are named.
const MOST_NAMED: usize = 10;

/// What is shown at the number that begins a line.
pub fn own_text(
    alloc: Global,
    number: u16,
    found: Option<LineNumbers>,
) -> Result<String, AllocError>
    ensures { IfOk result (λ text. string_bytes text ≡ spec.own_text number found) }
{
    match found {
        Some(LineNumbers { at, bytes, cost }) => {
            format!(in alloc; "line {number}: ${at:04X}, {bytes} bytes, cost {cost}")
        }
        None => format!(in alloc; "line {number}"),
    }
}

/// What is shown of the target of a jump, where no line stands.
pub fn missing_text(alloc: Global, target: u16) -> Result<String, AllocError>
    ensures { IfOk result (λ text. string_bytes text ≡ spec.missing_text target) }
{
    let target = target.cast_signed();
    format!(in alloc; "no line {target}")
}

/// What is shown at a number: in hexadecimal, and as the negative number that it is read as.
pub fn number_text(alloc: Global, number: u32) -> Result<String, AllocError>
    ensures { IfOk result (λ text. string_bytes text ≡ spec.number_text number) }
{
    if number > 65_535 {
        return format!(in alloc; "{number}");
    }
    let word = number as u16;
    let signed = word.cast_signed();
    if word > 32_767 {
        format!(in alloc; "${word:04X}, {signed}")
    } else {
        format!(in alloc; "${word:04X}")
    }
}

// Appends numbers of lines behind others.
fn push_more(alloc: Global, text: &mut String, numbers: &[u16]) -> Result<(), AllocError>
    ensures { OnOk result (string_bytes text.new ≡ string_bytes text.old ++ spec.more_text numbers.now) }
{
    for number in numbers {
        text.push_str(format!(in alloc; ", {number}")?.as_str())?;
    }
    Ok(())
}

// Appends numbers of lines, the first ten, if there are any.
fn push_numbers(
    alloc: Global,
    text: &mut String,
    heading: &str,
    numbers: &[u16],
) -> Result<(), AllocError>
    ensures { OnOk result (string_bytes text.new ≡ string_bytes text.old ++ spec.numbers_text heading.now numbers.now) }
{
    match numbers {
        [] => Ok(()),
        [first, rest @ ..] => {
            text.push_str(format!(in alloc; "{heading}{first}")?.as_str())?;
            push_more(alloc, text, &rest[..rest.len().min(MOST_NAMED - 1)])
        }
    }
}

// A variable's address; its name is a capital letter.
fn address_of(name: u8) -> u16
    ensures { result ≡ spec.address_of name }
{
    VARS + 2 * u16::from(name.saturating_sub(b'A'))
}

/// What is shown at a variable: its address, and the lines that set and read it.
pub fn variable_text(
    alloc: Global,
    name: u8,
    set: &[u16],
    read: &[u16],
) -> Result<String, AllocError>
    ensures { IfOk result (λ text. string_bytes text ≡ spec.variable_text name set.now read.now) }
{
    let letter = char::from(name);
    let address = address_of(name);
    let mut text = format!(in alloc; "{letter}: ${address:04X}")?;
    push_numbers(alloc, &mut text, "\nset in ", set)?;
    push_numbers(alloc, &mut text, "\nread in ", read)?;
    Ok(text)
}
