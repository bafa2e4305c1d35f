//! Why a line is refused.
ghost use Rattle.std.specs.Prelude.{◌≡◌, IfOk};
ghost use Rattle.tb_assembly_reasons.specs.Faults.{code_of, fault_at, item_fault, line_fault, reads, words_fault};

use crate::reasons::{LineFault, LineReason};
use crate::strays::stray;
use crate::words::{before, from_byte, past_spaces, past_word};
use std::alloc::{AllocError, Global};
use tb_asm::{TextError, read_text};

// Whether a text is read as assembler text.
fn reads(alloc: Global, text: &[u8]) -> Result<bool, AllocError>
    ensures { IfOk result (λ r. r ≡ reads text.now) }
{
    match read_text(alloc, text) {
        Ok(_) => Ok(true),
        Err(TextError::Line(_)) => Ok(false),
        Err(TextError::NoMemory) => Err(AllocError),
    }
}

// A fault at what is left of a text.
fn fault_at(text: &[u8], left: &[u8], reason: LineReason) -> LineFault
    ensures { result ≡ fault_at text.now left.now reason }
{
    LineFault {
        column: text.len().saturating_sub(left.len()) + 1,
        reason,
    }
}

/// Why a line is refused that is bad: at the first byte that belongs to no part of it, or else at a word. Of another line
/// the answer says nothing. Fails only if memory runs out.
pub fn line_fault(alloc: Global, line: &[u8]) -> Result<LineFault, AllocError>
    ensures { IfOk result (λ f. f ≡ line_fault line.now) }
{
    match stray(line) {
        Some(fault) => Ok(fault),
        None => words_fault(alloc, code_of(line)),
    }
}

// A line without its comment.
fn code_of(line: &[u8]) -> &[u8]
    ensures { result.now ≡ code_of line.now }
{
    before(line, from_byte(b';', line))
}

// The fault of a line without comment, each byte of which belongs to a part.
fn words_fault(alloc: Global, code: &[u8]) -> Result<LineFault, AllocError>
    ensures { IfOk result (λ f. f ≡ words_fault code.now) }
{
    match from_byte(b':', code) {
        [] => item_fault(alloc, code, past_spaces(code)),
        [_, after @ ..] => if reads(alloc, before(code, after))? {
            item_fault(alloc, code, past_spaces(after))
        } else {
            Ok(fault_at(code, past_spaces(code), LineReason::Name))
        },
    }
}

// The fault of an item, which begins where this is left of the code.
fn item_fault(alloc: Global, code: &[u8], left: &[u8]) -> Result<LineFault, AllocError>
    ensures { IfOk result (λ f. f ≡ item_fault code.now left.now) }
{
    let after = past_word(left);
    let word = before(left, after);
    match word {
        [] => return Ok(fault_at(code, left, LineReason::Item)),
        [b'.', ..] => return Ok(fault_at(code, left, LineReason::Directive)),
        _ => {}
    }
    if reads(alloc, word)? {
        Ok(fault_at(code, past_spaces(after), LineReason::Operand))
    } else if reads(alloc, after)? {
        Ok(fault_at(code, after, LineReason::Colon))
    } else {
        Ok(fault_at(code, left, LineReason::Mnemonic))
    }
}
