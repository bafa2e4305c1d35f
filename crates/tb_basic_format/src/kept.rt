//! A line without the spaces that mean nothing.
ghost use Rattle.std.specs.Prelude.{◌≡◌, IfOk};
ghost use Rattle.tb_basic_format.specs.Kept.{is_dropped, kept, written};

use crate::modes::Mode;
use std::alloc::{AllocError, Global};

fn drops(mode: Mode, byte: u8) -> bool
    ensures { result ≡ is_dropped mode byte }
{
    byte == b' ' && mode.is_in_code()
}

fn write(mode: Mode, byte: u8) -> u8
    ensures { result ≡ written mode byte }
{
    if mode.is_in_code() {
        byte.to_ascii_uppercase()
    } else {
        byte
    }
}

/// The line without spaces and in upper case outside texts and remarks, which are kept as they are.
pub(crate) fn kept(alloc: Global, line: &[u8]) -> Result<Vec<u8>, AllocError>
    ensures { IfOk result (λ bytes. bytes.items ≡ kept line.now) }
{
    let mut bytes = Vec::with_capacity(alloc, line.len())?;
    let mut mode = Mode::Code;
    for byte in line {
        if !drops(mode, *byte) {
            bytes.push(write(mode, *byte))?;
        }
        mode = mode.after(*byte);
    }
    Ok(bytes)
}
