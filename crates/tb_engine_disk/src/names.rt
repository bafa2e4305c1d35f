//! The names that files and disks get, from the names of files on the host.
ghost use Rattle.std.specs.Prelude.{◌≡◌, [], ◌∷◌, IfOk, MatchResult, take};
ghost use Rattle.tb_machine_disk.specs.Names.{IsName, field_of};
ghost use Rattle.tb_machine_disk.specs.Images.{text_of};
ghost use Rattle.tb_engine_disk.specs.Names.{sign_of, signs_of, without, file_text, Unnamed, NamesDisk};

use crate::outcome::{DiskFailure, DiskRefusal};
use std::alloc::{AllocError, Global};
use std::path::Path;
use tb_machine_disk::Name;

/// The most characters of a name.
const MOST_SIGNS: usize = 16;

// A letter in upper case, `_` as `-`; every other byte as it is.
fn sign_of(byte: u8) -> u8
    ensures { result ≡ sign_of byte }
{
    if byte == b'_' {
        b'-'
    } else {
        byte.to_ascii_uppercase()
    }
}

// The last part of a path, as characters of a name.
fn signs_of(alloc: Global, path: &str) -> Result<Vec<u8>, AllocError>
    ensures { IfOk result (λ signs. signs.items ≡ signs_of path.now) }
{
    let base = Path::new(path).file_name().unwrap_or("");
    base.as_bytes()
        .iter()
        .map(|byte| sign_of(*byte))
        .collect(alloc)
}

// The characters without an ending, if they have it.
fn without<'a>(ending: &[u8], signs: &'a [u8]) -> &'a [u8]
    ensures { result.now ≡ without ending.now signs.now }
{
    if signs.ends_with(ending) {
        &signs[..signs.len() - ending.len()]
    } else {
        signs
    }
}

// The first 16 characters, or all if there are fewer.
#[tactic(auto, using(std::proofs::lemmas::List::take_all))]
fn cut(signs: &[u8]) -> &[u8]
    ensures { result.now ≡ take 16 signs.now }
{
    if signs.len() > MOST_SIGNS {
        &signs[..MOST_SIGNS]
    } else {
        signs
    }
}

/// The name that a file gets: the last part of its path without `.PRG`. Refused if that is no name of a disk's file.
pub fn file_name(alloc: Global, path: &str) -> Result<Name, DiskFailure>
    ensures { MatchResult result
        (λ n. IsName (file_text path.now) × (n.field ≡ field_of (file_text path.now)))
        (Unnamed path.now) }
{
    let signs = signs_of(alloc, path)?;
    match Name::new(without(b".PRG", signs.as_slice())) {
        Some(name) => Ok(name),
        None => Err(DiskFailure::Refused(DiskRefusal::BadName)),
    }
}

// The name of a disk if its path's last part is no name.
fn default_name() -> Name
    ensures { text_of result ≡ 84 ∷ 66 ∷ 67 ∷ [] }
{
    Name {
        field: *b"TBC\xa0\xa0\xa0\xa0\xa0\xa0\xa0\xa0\xa0\xa0\xa0\xa0\xa0",
    }
}

/// The name that a disk gets: the last part of its path without `.D64`, cut at 16 characters; `TBC` if that is no name.
/// Fails only if memory runs out.
pub fn disk_name(alloc: Global, path: &str) -> Result<Name, AllocError>
    ensures { IfOk result (NamesDisk path.now) }
{
    let signs = signs_of(alloc, path)?;
    match Name::new(cut(without(b".D64", signs.as_slice()))) {
        Some(name) => Ok(name),
        None => Ok(default_name()),
    }
}
