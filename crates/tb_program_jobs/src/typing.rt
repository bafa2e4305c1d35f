//! What a text types.
ghost use Rattle.std.specs.Prelude.{◌≡◌, ◌∷◌, ◌<◌, [], IfOk, MatchOption, length};
ghost use Rattle.tb_program_jobs.specs.Typing.{key, keys_typed};

use std::alloc::{AllocError, Global};

/// What the return key gives.
const RETURN: u8 = 13;

/// The keys that a text types: its small letters as capitals, and a return for each line end, which may be written as a
/// backslash and an n.
pub fn typed_keys(alloc: Global, text: &str) -> Result<Vec<u8>, AllocError>
    ensures { IfOk result (λ keys. keys.items ≡ keys_typed text.now) }
{
    let mut keys = Vec::new(alloc);
    let mut rest = text.as_bytes();
    while let Some((key, more)) = first_key(rest) {
        keys.push(key)?;
        rest = more;
    }
    Ok(keys)
}

// The first key of a text, and what follows it.
fn first_key(text: &[u8]) -> Option<(u8, &[u8])>
    ensures { MatchOption result (text.now ≡ [])
        (λ p. (keys_typed text.now ≡ p.0 ∷ keys_typed p.1.now) × (length p.1.now < length text.now)) }
{
    match text {
        [] => None,
        [b'\\', b'n', rest @ ..] => Some((RETURN, rest)),
        [byte, rest @ ..] => Some((key(*byte), rest)),
    }
}

// The key of a byte.
fn key(byte: u8) -> u8
    ensures { result ≡ key byte }
{
    match byte {
        b'\n' => RETURN,
        other => other.to_ascii_uppercase(),
    }
}
