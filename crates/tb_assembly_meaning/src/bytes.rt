//! Bytes, words and addresses.
ghost use Rattle.std.specs.Prelude.{◌≡◌, ◌<◌, ◌++◌, ◌∷◌, [], OnOk, IfErr, replicate};
ghost use Rattle.tb_asm.specs.Layout.{word_bytes};
ghost use Rattle.tb_assembly_meaning.specs.Bytes.{address_of, byte_of, count_of, multiple_of, padding, word_of, zero_page_of};

use crate::faults::{MeaningError, Wrong};

/// The byte of a value from -128 to 255.
pub fn byte_of(value: i32) -> Result<u8, Wrong>
    ensures { result ≡ byte_of value }
{
    match value {
        0..=255 => Ok(value as u8),
        -128..=-1 => Ok((value + 256) as u8),
        _ => Err(Wrong::NoByte),
    }
}

/// The word of a value from -32768 to 65535.
pub fn word_of(value: i32) -> Result<u16, Wrong>
    ensures { result ≡ word_of value }
{
    match value {
        0..=65535 => Ok(value as u16),
        -32768..=-1 => Ok((value + 65536) as u16),
        _ => Err(Wrong::NoWord),
    }
}

/// An address.
pub fn address_of(value: i32) -> Result<u16, Wrong>
    ensures { result ≡ address_of value }
{
    match value {
        0..=65535 => Ok(value as u16),
        _ => Err(Wrong::NoAddress),
    }
}

/// An address in the zero page.
pub fn zero_page_of(value: i32) -> Result<u8, Wrong>
    ensures { result ≡ zero_page_of value }
{
    match value {
        0..=255 => Ok(value as u8),
        _ => Err(Wrong::NoZeroPage),
    }
}

/// How many bytes there are to be.
pub fn count_of(value: i32) -> Result<usize, Wrong>
    ensures { result ≡ count_of value }
{
    match value {
        0..=65536 => Ok(value as usize),
        _ => Err(Wrong::NoCount),
    }
}

/// Of what an address is to be a multiple.
pub fn multiple_of(value: i32) -> Result<usize, Wrong>
    ensures { result ≡ multiple_of value }
{
    match value {
        1..=65536 => Ok(value as usize),
        _ => Err(Wrong::NoMultiple),
    }
}

/// How far an address is from the next multiple.
pub fn padding(at: usize, multiple: usize) -> usize
    requires { 0 < multiple }
    ensures { result ≡ padding at multiple }
{
    let behind = at % multiple;
    if behind == 0 { 0 } else { multiple - behind }
}

/// Appends a byte.
pub fn push_byte(bytes: &mut Vec<u8>, byte: u8) -> Result<(), MeaningError>
    ensures added { OnOk result (bytes.new.items ≡ bytes.old.items ++ byte ∷ []) }
    ensures memory { IfErr result (λ e. e ≡ MeaningError.NoMemory) }
{
    match bytes.push(byte) {
        Ok(()) => Ok(()),
        Err(_) => Err(MeaningError::NoMemory),
    }
}

/// Appends bytes.
pub fn push_bytes(bytes: &mut Vec<u8>, more: &[u8]) -> Result<(), MeaningError>
    ensures added { OnOk result (bytes.new.items ≡ bytes.old.items ++ more.now) }
    ensures memory { IfErr result (λ e. e ≡ MeaningError.NoMemory) }
{
    match bytes.extend_from_slice(more) {
        Ok(()) => Ok(()),
        Err(_) => Err(MeaningError::NoMemory),
    }
}

/// Appends a word, its low byte first.
pub fn push_word(bytes: &mut Vec<u8>, word: u16) -> Result<(), MeaningError>
    ensures added { OnOk result (bytes.new.items ≡ bytes.old.items ++ word_bytes word) }
    ensures memory { IfErr result (λ e. e ≡ MeaningError.NoMemory) }
{
    push_bytes(bytes, &word.to_le_bytes())
}

/// Appends a byte n times.
pub fn push_times(bytes: &mut Vec<u8>, count: usize, byte: u8) -> Result<(), MeaningError>
    ensures added { OnOk result (bytes.new.items ≡ bytes.old.items ++ replicate count byte) }
    ensures memory { IfErr result (λ e. e ≡ MeaningError.NoMemory) }
{
    let size = bytes.len();
    match bytes.resize(size.saturating_add(count), byte) {
        Ok(()) => Ok(()),
        Err(_) => Err(MeaningError::NoMemory),
    }
}
