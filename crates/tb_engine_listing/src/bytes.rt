//! Single bytes and words of code, and addresses modulo 65,536.
ghost use Rattle.std.specs.Prelude.{◌≡◌, ◌<◌, ◌≤◌, length, drop};
ghost use Rattle.tb_engine_listing.specs.Bytes as codes;

use tb_runtime16::{Routine, entry};

/// The opcode of a call.
pub const JSR: u8 = 0x20;

/// The address after some bytes.
pub fn forth(at: u16, size: usize) -> u16
    ensures { result ≡ codes.forth at size }
{
    at.wrapping_add((size % 0x1_0000) as u16)
}

/// The bytes after the first `size` ones.
pub fn behind(bytes: &[u8], size: usize) -> &[u8]
    requires { size ≤ length bytes.now }
    ensures { result.now ≡ drop size bytes.now }
{
    bytes.split_at(size).1
}

/// The last bytes, or all if there are fewer.
pub fn last(bytes: &[u8], count: usize) -> &[u8]
    ensures { result.now ≡ codes.last count bytes.now }
{
    behind(bytes, bytes.len().saturating_sub(count))
}

// The byte at an offset, 0 if there is none.
fn byte_in(bytes: &[u8], offset: usize) -> u8
    ensures { result ≡ codes.byte_in bytes.now offset }
{
    if offset < bytes.len() {
        bytes[offset]
    } else {
        0
    }
}

/// The word with the low byte and the high byte at these offsets.
pub fn pair_in(bytes: &[u8], low: usize, high: usize) -> u16
    ensures { result ≡ codes.pair_in bytes.now low high }
{
    u16::from_le_bytes([byte_in(bytes, low), byte_in(bytes, high)])
}

/// The word at an offset.
pub fn word_in(bytes: &[u8], offset: usize) -> u16
    requires { offset < 65536 }
    ensures { result ≡ codes.word_in bytes.now offset }
{
    pair_in(bytes, offset, offset + 1)
}

/// Whether this byte is at an offset.
pub fn is_at(bytes: &[u8], offset: usize, byte: u8) -> bool
    ensures { result ≡ codes.is_at bytes.now offset byte }
{
    offset < bytes.len() && bytes[offset] == byte
}

/// Whether a call of a routine is at an offset.
pub fn is_call(bytes: &[u8], offset: usize, routine: Routine) -> bool
    requires { offset < 65535 }
    ensures { result ≡ codes.is_call bytes.now offset routine }
{
    is_at(bytes, offset, JSR)
        && offset + 3 <= bytes.len()
        && word_in(bytes, offset + 1) == entry(routine)
}
