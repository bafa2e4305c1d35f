//! PRG files: a load address, low byte first, and the bytes that are loaded there.
//!
//! `write` gives the header and the image. `read` gives the load address and the rest, or exactly its refusal.
#![tactic(auto)]

ghost use Rattle.std.specs.Prelude.{◌≡◌, ◌++◌, IfOk, MatchResult, Ok, Err};
ghost use Rattle.tb_memmap.specs.Regions.{CODE_START};
ghost use Rattle.tb_prg.specs.Prg.{content_of, header};

use std::alloc::{AllocError, Global};
use tb_asm::Image;
use thiserror::Error;

/// The load address `$0801` and the line `10 SYS2061`, whose machine code lies at `$080D`.
const HEADER: [u8; 14] = [
    0x01, 0x08, 0x0b, 0x08, 0x0a, 0x00, 0x9e, b'2', b'0', b'6', b'1', 0x00, 0x00, 0x00,
];

/// Why bytes are no PRG file.
#[derive(Clone, Copy, Debug, PartialEq, Eq, Drop, Error)]
pub enum PrgError {
    /// There are fewer than two bytes.
    #[error("too short")]
    TooShort,
    /// The last byte would lie after `$FFFF`.
    #[error("runs past the end")]
    RunsPast,
}

/// Bytes with the address at which they are loaded.
#[derive(Clone, Copy, Drop)]
pub struct Loaded<'a> {
    pub at: u16,
    pub bytes: &'a [u8],
}

/// The PRG file of an image at `$080D`: its load address is `$0801`, where the line `10 SYS2061`
/// comes before the image. Fails only if memory runs out.
pub fn write(alloc: Global, image: &Image) -> Result<Vec<u8>, AllocError>
    requires { image.now.at ≡ CODE_START }
    ensures { IfOk result (λ file. file.items ≡ header ++ image.now.bytes.items) }
{
    let mut file = Vec::new(alloc);
    if file.extend_from_slice(&HEADER).is_err() {
        return Err(AllocError);
    }
    if file.extend_from_slice(image.bytes.as_slice()).is_err() {
        return Err(AllocError);
    }
    Ok(file)
}

/// Reads a PRG file: its first word is the load address, low byte first, and the rest are the bytes.
pub fn read(file: &[u8]) -> Result<Loaded<'_>, PrgError>
    ensures { MatchResult result
        (λ l. content_of file.now ≡ Ok (l.at, l.bytes.now))
        (λ e. content_of file.now ≡ Err e) }
{
    let [low, high, bytes @ ..] = file else {
        return Err(PrgError::TooShort);
    };
    let at = u16::from_le_bytes([*low, *high]);
    if bytes.len() > 0x1_0000 - usize::from(at) {
        return Err(PrgError::RunsPast);
    }
    Ok(Loaded { at, bytes })
}
