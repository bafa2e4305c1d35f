//! What lines of input hand to the keyboard.
ghost use Rattle.std.specs.Prelude.{◌≡◌, ◌≤◌, IfOk, vec_len};
ghost use Rattle.tb_engine_streams.specs.Failures.{failures_of};
ghost use Rattle.tb_engine_play.specs.Lines.{ReadsKeys, keys_of_text, most_typed};

use std::alloc::{AllocError, Global};
use std::io::Read;
use tb_engine_streams::{InputError, MOST_INPUT, Tracked, read_line, without_return};

/// The most bytes that are handed to the keyboard in all, returns included.
pub const MOST_TYPED: usize = MOST_INPUT;

/// What the return key gives.
const RETURN: u8 = 13;

/// What a typed text gives the keyboard: its letters as capitals, and a return.
pub fn keys_of_text(alloc: Global, text: &[u8]) -> Result<Vec<u8>, AllocError>
    ensures { IfOk result (λ keys. keys.items ≡ keys_of_text text.now) }
{
    let mut keys = Vec::new(alloc);
    for byte in text {
        keys.push(byte.to_ascii_uppercase())?;
    }
    keys.push(RETURN)?;
    Ok(keys)
}

/// What the next line hands to the keyboard: its letters as capitals, and a return; None if the input has ended. It is
/// a fault if that is more than `room` bytes.
pub fn read_keys<R: Read>(
    alloc: Global,
    reader: &mut Tracked<R>,
    room: usize,
) -> Result<Option<Vec<u8>>, InputError>
    requires { room ≤ most_typed }
    ensures { ReadsKeys result room (R.remaining reader.old.stream) (R.remaining reader.new.stream)
        (failures_of reader.old) (failures_of reader.new) }
{
    let Some(line) = read_line(alloc, reader, room)? else {
        return Ok(None);
    };
    let Ok(keys) = keys_of_text(alloc, without_return(line.as_slice())) else {
        return Err(InputError::NoMemory);
    };
    if keys.len() > room {
        return Err(InputError::Fault);
    }
    Ok(Some(keys))
}
