//! Whole texts, and back from bytes to a text.
ghost use Rattle.std.specs.Prelude.{◌≡◌, IfOk, IfSome, Some, option_map, replicate};
ghost use Rattle.tb_basic_signs.specs.Texts as spec;
ghost use Rattle.tb_words.specs.Texts.{AppendsBytes};

use crate::characters::{may_hold, read_character};
use crate::names::name_of;
use std::alloc::{AllocError, Global};
use tb_words::hex_digits;

/// The bytes that a text stands for, as it is written between two quotes. `None` if at a place no character begins.
pub fn read_text(alloc: Global, text: &[u8]) -> Result<Option<Vec<u8>>, AllocError>
    ensures { IfOk result (λ read. option_map (λ bytes. bytes.items) read ≡ spec.bytes_of text.now) }
{
    let mut bytes = Vec::new(alloc);
    let mut rest = text;
    while !rest.is_empty() {
        let Some(character) = read_character(rest) else {
            return Ok(None);
        };
        push_times(&mut bytes, character.byte, character.times)?;
        rest = &rest[character.length..];
    }
    Ok(Some(bytes))
}

// Appends a byte so many times.
fn push_times(bytes: &mut Vec<u8>, byte: u8, times: u8) -> Result<(), AllocError>
    ensures { AppendsBytes result bytes.old bytes.new (replicate times byte) }
{
    for _ in 0..times {
        bytes.push(byte)?;
    }
    Ok(())
}

/// A text that stands for these bytes: each byte as itself where a text may have it, or else by its name, or else in two
/// digits. `None` if one of them is a quote or a new line, which no text holds.
pub fn write_text(alloc: Global, bytes: &[u8]) -> Result<Option<Vec<u8>>, AllocError>
    ensures text { IfOk result (λ text. option_map (λ t. t.items) text ≡ spec.text_of bytes.now) }
    // It is read as the same bytes.
    ensures back { IfOk result (λ text. IfSome text (λ t. spec.bytes_of t.items ≡ Some bytes.now)) }
{
    let mut text = Vec::new(alloc);
    for byte in bytes {
        if !may_hold(*byte) {
            return Ok(None);
        }
        push_written(&mut text, *byte)?;
    }
    Ok(Some(text))
}

// Appends a byte as it is written.
fn push_written(text: &mut Vec<u8>, byte: u8) -> Result<(), AllocError>
    ensures { AppendsBytes result text.old text.new (spec.written byte) }
{
    if is_itself(byte) {
        text.push(byte)?;
        return Ok(());
    }
    text.push(b'{')?;
    match name_of(byte) {
        Some(name) => text.extend_from_slice(name.as_bytes())?,
        None => {
            let [_, _, high, low] = hex_digits(u16::from(byte));
            text.extend_from_slice(&[high, low])?;
        }
    }
    text.push(b'}')?;
    Ok(())
}

// Whether a text has a byte as itself: one that is read as a plain character, and is no letter that stands for its capital.
fn is_itself(byte: u8) -> bool
    ensures { result ≡ spec.is_itself byte }
{
    byte != b'"' && matches!(byte, b' '..=b'[' | b']')
}
