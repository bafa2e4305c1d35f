//! Key files: what is typed, as hexadecimal digits in a file.
ghost use Rattle.std.specs.Prelude.{◌≡◌, Ok, IfOk};
ghost use Rattle.tb_engine_streams.specs.Failures.{failures_of};
ghost use Rattle.tb_engine_streams.specs.KeyFiles.{without_last, without_line_end, keys_of_file, key_file_of, ReadsKeyFile};

use crate::keys::{KeyError, key_digits};
use crate::stream::{InputError, MOST_INPUT, read_up_to};
use crate::tracked::Tracked;
use std::alloc::{AllocError, Global};
use std::io::Read;
use thiserror::Error;

/// The most bytes of a key file: the digits of `MOST_INPUT` keys, and a 13 10.
pub const MOST_KEY_FILE: usize = 2 * MOST_INPUT + 2;

/// Why a key file gives no keys.
#[derive(Clone, Copy, Debug, PartialEq, Eq, Drop, Error)]
pub enum KeyFileError {
    /// It has more than `MOST_KEY_FILE` bytes, or its text is no key list.
    #[error("bad key list")]
    BadKeys,
    /// The reader failed.
    #[error("read fault")]
    Fault,
    /// Memory ran out.
    #[error("out of memory")]
    NoMemory,
}

// A text without the given byte at its end, if it ends with it.
fn without_last(byte: u8, text: &[u8]) -> &[u8]
    ensures { result.now ≡ without_last byte text.now }
{
    match text.split_last() {
        Some((last, rest)) if *last == byte => rest,
        _ => text,
    }
}

// A text without the 10, or the 13 10, at its end.
fn without_line_end(text: &[u8]) -> &[u8]
    ensures { result.now ≡ without_line_end text.now }
{
    match text.split_last() {
        Some((b'\n', rest)) => without_last(b'\r', rest),
        _ => text,
    }
}

/// Reads a key file to its end: the bytes that its digits spell, in either case. It may end with a 10, or a 13 10.
pub fn read_key_file<R: Read>(
    alloc: Global,
    reader: &mut Tracked<R>,
) -> Result<Vec<u8>, KeyFileError>
    ensures { ReadsKeyFile result (R.remaining reader.old.stream) (R.remaining reader.new.stream)
        (failures_of reader.old) (failures_of reader.new) }
{
    let text = match read_up_to(alloc, reader, MOST_KEY_FILE) {
        Ok(Some(text)) => text,
        Ok(None) => return Err(KeyFileError::BadKeys),
        Err(InputError::Fault) => return Err(KeyFileError::Fault),
        Err(InputError::NoMemory) => return Err(KeyFileError::NoMemory),
    };
    match key_digits(alloc, without_line_end(text.as_slice())) {
        Ok(keys) => Ok(keys),
        Err(KeyError::BadKeys) => Err(KeyFileError::BadKeys),
        Err(KeyError::NoMemory) => Err(KeyFileError::NoMemory),
    }
}

/// The text of the key file that spells these keys: their digits, and a 10. Fails only if memory runs out.
pub fn key_file(alloc: Global, keys: &[u8]) -> Result<Vec<u8>, AllocError>
    ensures text { IfOk result (λ text. text.items ≡ key_file_of keys.now) }
    ensures spelled { IfOk result (λ text. keys_of_file text.items ≡ Ok keys.now) }
{
    let mut text = hex::encode(alloc, keys)?.into_bytes();
    text.push(b'\n')?;
    Ok(text)
}
