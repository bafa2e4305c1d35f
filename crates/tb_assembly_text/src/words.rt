//! The words of instructions and directives.
ghost use Rattle.std.specs.Prelude.{◌≡◌};
ghost use Rattle.tb_assembly_text.specs.Words.{directive_of, is_item, mnemonic_named};

use crate::names::{fold_byte, spells};
use tb_opcodes::Mnemonic;

/// A directive.
#[derive(Clone, Copy, PartialEq, Eq, Debug, Drop)]
pub enum Directive {
    Byte,
    Word,
    Text,
    Fill,
    Align,
    Origin,
    Include,
}

/// The mnemonic that a word names, in either case.
pub fn mnemonic(word: &[u8]) -> Option<Mnemonic>
    ensures { result ≡ mnemonic_named word.now }
{
    let [first, second, third] = word else {
        return None;
    };
    tb_asm::mnemonic(&[fold_byte(*first), fold_byte(*second), fold_byte(*third)])
}

/// The directive that a word names, in either case.
pub fn directive_named(word: &[u8]) -> Option<Directive>
    ensures { result ≡ directive_of word.now }
{
    if spells(word, b".BYTE") || spells(word, b".BYT") || spells(word, b"!BYTE") {
        Some(Directive::Byte)
    } else if spells(word, b".WORD") || spells(word, b"!WORD") {
        Some(Directive::Word)
    } else if spells(word, b".TEXT") || spells(word, b"!TEXT") || spells(word, b"!PET") {
        Some(Directive::Text)
    } else if spells(word, b".FILL") || spells(word, b".RES") || spells(word, b"!FILL") {
        Some(Directive::Fill)
    } else if spells(word, b".ALIGN") {
        Some(Directive::Align)
    } else if spells(word, b".ORG") {
        Some(Directive::Origin)
    } else if spells(word, b".INCLUDE") {
        Some(Directive::Include)
    } else {
        None
    }
}

/// Whether a word names an instruction or a directive.
pub fn is_item(word: &[u8]) -> bool
    ensures { result ≡ is_item word.now }
{
    mnemonic(word).is_some() || directive_named(word).is_some()
}
