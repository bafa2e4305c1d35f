//! Names that are near a word.
ghost use Rattle.std.specs.Prelude.{◌≡◌, IfOk, find, map, option_map};
ghost use Rattle.tb_asm.specs.Names.{fold_byte};
ghost use Rattle.tb_assembly_report.specs.Near.{edits, is_near, near_name, nearest};

use std::alloc::{AllocError, Global};
use strsim::generic_levenshtein;

/// The most letters of names that are compared.
pub const LONGEST: usize = 31;

/// The letters from which on two edits are near.
pub const LONG: usize = 5;

fn edits(alloc: Global, word: &[u8], other: &[u8]) -> Result<usize, AllocError>
    ensures { IfOk result (λ n. n ≡ edits word.now other.now) }
{
    generic_levenshtein(alloc, word, other)
}

// Whether n edits lead from a word to a name.
fn is_near(alloc: Global, count: usize, word: &[u8], name: &[u8]) -> Result<bool, AllocError>
    ensures { IfOk result (λ near. near ≡ is_near count word.now name.now) }
{
    if name.len() <= LONGEST {
        Ok(edits(alloc, word, name)? == count)
    } else {
        Ok(false)
    }
}

// The first name n edits away from a word.
fn first_near<'a>(
    alloc: Global,
    count: usize,
    word: &[u8],
    names: &[&'a [u8]],
) -> Result<Option<&'a [u8]>, AllocError>
    ensures { IfOk result (λ r. option_map (λ n. n.now) r ≡ find (is_near count word.now) (map (λ n. n.now) names.now)) }
{
    for name in names {
        if is_near(alloc, count, word, name)? {
            return Ok(Some(*name));
        }
    }
    Ok(None)
}

// The first name one edit away from a word, or two if the word is long.
fn nearest<'a>(
    alloc: Global,
    word: &[u8],
    names: &[&'a [u8]],
) -> Result<Option<&'a [u8]>, AllocError>
    ensures { IfOk result (λ r. option_map (λ n. n.now) r ≡ nearest word.now (map (λ n. n.now) names.now)) }
{
    match first_near(alloc, 1, word, names)? {
        Some(name) => Ok(Some(name)),
        None => if LONG <= word.len() {
            first_near(alloc, 2, word, names)
        } else {
            Ok(None)
        },
    }
}

fn folded(alloc: Global, word: &[u8]) -> Result<Vec<u8>, AllocError>
    ensures { IfOk result (λ r. r.items ≡ map fold_byte word.now) }
{
    let mut letters = Vec::new(alloc);
    for byte in word {
        letters.push(byte.to_ascii_uppercase())?;
    }
    Ok(letters)
}

/// The first of some names, in upper case, that is near a word in either case: one letter is changed, left out or added,
/// or two of a long one. Names of more than `LONGEST` letters are near nothing.
pub fn near_name<'a>(
    alloc: Global,
    word: &[u8],
    names: &[&'a [u8]],
) -> Result<Option<&'a [u8]>, AllocError>
    ensures { IfOk result (λ r. option_map (λ n. n.now) r ≡ near_name word.now (map (λ n. n.now) names.now)) }
{
    if LONGEST < word.len() {
        return Ok(None);
    }
    let word = folded(alloc, word)?;
    nearest(alloc, &word, names)
}
