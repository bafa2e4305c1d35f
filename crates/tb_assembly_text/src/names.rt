//! Names of labels and of values.
ghost use Rattle.std.specs.Prelude.{◌≡◌, ◌++◌, IfOk, IsTrue, map, ◌∷◌, []};
ghost use Rattle.std.proofs.Common.{ap};
ghost use lib.Pointwise.{bytes_decides};
ghost use Rattle.tb_asm.specs.Names.{fold_byte};
ghost use Rattle.tb_asm.specs.Mnemonics.{same_text};
ghost use Rattle.tb_words.specs.Texts.{AppendsBytes};
ghost use Rattle.tb_assembly_text.specs.Names.{is_local, full_name, spells, scope_after};

use std::alloc::{AllocError, Global};
use std::hash::{Hash, Hasher};

/// The most bytes that a name has in a line.
pub const MOST_LETTERS: usize = 255;

/// A name in upper case. One that belongs to a plain label has that label's name and a colon before it.
#[derive(Clone, Drop, Debug, PartialEq, Eq)]
pub struct Name {
    pub letters: Vec<u8>,
}

// All letters at once, which is several times as fast as one letter after the other.
impl Hash for Name {
    ghost hash_input = { λ n. n.letters.items ∷ [] };

    ghost respects_eq = { λ x y h. ap (λ letters. letters ∷ []) ((bytes_decides x.letters.items y.letters.items).0 h) };

    fn hash<H: Hasher>(&self, state: &mut H) {
        state.write(self.letters.as_slice());
    }
}

/// Whether a name belongs to the last plain label: it begins with a full stop, `@` or `_`.
pub fn is_local(word: &[u8]) -> bool
    ensures { result ≡ is_local word.now }
{
    matches!(word, [b'.' | b'@' | b'_', ..])
}

/// A byte in upper case.
pub fn fold_byte(byte: u8) -> u8
    ensures { result ≡ fold_byte byte }
{
    byte.to_ascii_uppercase()
}

fn push_folded(letters: &mut Vec<u8>, word: &[u8]) -> Result<(), AllocError>
    ensures { AppendsBytes result letters.old letters.new (map fold_byte word.now) }
{
    for byte in word {
        letters.push(fold_byte(*byte))?;
    }
    Ok(())
}

/// The name that a word means after a plain label.
pub fn full_name(alloc: Global, scope: &[u8], word: &[u8]) -> Result<Name, AllocError>
    ensures { IfOk result (λ name. name.letters.items ≡ full_name scope.now word.now) }
{
    let mut letters = Vec::new(alloc);
    if is_local(word) {
        letters.extend_from_slice(scope)?;
        letters.push(b':')?;
    }
    push_folded(&mut letters, word)?;
    Ok(Name { letters })
}

/// The plain label to which names belong after a label.
pub fn enter(alloc: Global, scope: &mut Vec<u8>, word: &[u8]) -> Result<(), AllocError>
    ensures { IfOk result (λ u. scope.new.items ≡ scope_after scope.old.items word.now) }
{
    if !is_local(word) {
        let mut letters = Vec::new(alloc);
        push_folded(&mut letters, word)?;
        *scope = letters;
    }
    Ok(())
}

/// Whether a word has these letters, which are in upper case.
pub fn spells(word: &[u8], letters: &[u8]) -> bool
    ensures { result ≡ spells word.now letters.now }
{
    match (word, letters) {
        ([], []) => true,
        ([first, rest @ ..], [letter, letters @ ..]) => {
            fold_byte(*first) == *letter && spells(rest, letters)
        }
        _ => false,
    }
}
