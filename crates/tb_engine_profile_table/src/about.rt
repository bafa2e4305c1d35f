//! What a page says of a run besides its figures.
ghost use Rattle.std.specs.Prelude.{◌≡◌, IfOk, string_bytes};
ghost use Rattle.tb_engine_profile_table.specs.About.{keys_text, rom_text, yes_or_no};

use std::alloc::{AllocError, Global};

/// What a run was given, and how it ended.
#[derive(Clone, Copy, Drop)]
pub struct About<'a> {
    /// The program, as it was named.
    pub name: &'a [u8],
    pub seed: u16,
    /// Whether its size alone was limited.
    pub fits: bool,
    /// The most events.
    pub limit: u32,
    /// What was typed, and the answers of GETIN.
    pub keys: &'a [u8],
    pub answers: &'a [u8],
    /// The seed of a rude ROM.
    pub rude: Option<u16>,
    pub end: &'a [u8],
}

/// Yes or no.
pub fn yes_or_no(is: bool) -> &'static [u8]
    ensures { result.now ≡ yes_or_no is }
{
    if is { b"yes" } else { b"no" }
}

/// Keys as hexadecimal digits, as `--keys` takes them.
pub fn keys_text(alloc: Global, keys: &[u8]) -> Result<String, AllocError>
    ensures { IfOk result (λ text. string_bytes text ≡ keys_text keys.now) }
{
    if keys.is_empty() {
        String::from_str(alloc, "none")
    } else {
        hex::encode(alloc, keys)
    }
}

/// The ROM beside which a program ran.
pub fn rom_text(alloc: Global, rude: Option<u16>) -> Result<String, AllocError>
    ensures { IfOk result (λ text. string_bytes text ≡ rom_text rude) }
{
    match rude {
        Some(seed) => format!(in alloc; "rude {seed}"),
        None => String::from_str(alloc, "quiet"),
    }
}
