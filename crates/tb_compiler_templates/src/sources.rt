//! Where the operands of a group come from, and where its result goes.
ghost use Rattle.std.specs.Prelude.{◌≡◌, ◌+◌, ◌<◌, [], ◌∷◌};
ghost use Rattle.tb_words.specs.Letters.{letter_index};
ghost use Rattle.tb_compiler_selection.specs.Groups as groups;
ghost use Rattle.tb_compiler_selection.specs.PlainData.{operand_of, home_of, tested_of, destination_of};
ghost use Rattle.tb_compiler_templates.specs.Putting.{Puts};
ghost use Rattle.tb_compiled_kept.specs.Addresses.{var_at};
ghost use Rattle.tb_compiler_templates.specs.Templates.{slot_at};
ghost use Rattle.tb_compiler_templates.specs.Sources as sources;
ghost use Rattle.tb_compiler_templates.specs.Sources.{AreWhole, IsWhole};

use crate::pieces::{put_at, put_const};
use std::alloc::AllocError;
use tb_asm::Item;
use tb_compiled_kept::{HELD, SLOTS, VARS};
use tb_compiler_selection::{Destination, Home, Operand, Tested};
use tb_opcodes::Mnemonic;
use tb_words::Letter;

/// Where a word comes from.
#[derive(Clone, Copy, Debug, Drop)]
pub enum Source {
    /// It is this constant.
    FixedWord(u16),
    /// It is at this address, low byte first.
    AtAddress(u16),
}

/// Where two words come from.
#[derive(Clone, Copy, Debug, Drop)]
pub struct Words {
    /// The left one.
    pub left: Source,
    /// The right one.
    pub right: Source,
}

/// Two words in the other order.
pub fn turned(words: Words) -> Words
    ensures { (result.left ≡ words.right) × (result.right ≡ words.left) }
{
    Words {
        left: words.right,
        right: words.left,
    }
}

/// 0 and a word, which is to be subtracted from it.
pub fn against_none(word: Source) -> Words
    ensures { (result.left ≡ sources.FixedWord 0) × (result.right ≡ word) }
{
    Words {
        left: Source::FixedWord(0),
        right: word,
    }
}

/// The address of a variable.
pub fn variable_at(letter: Letter) -> u16
    ensures at { result ≡ var_at (letter_index letter) }
    ensures below { result < 65000 }
{
    VARS + 2 * letter.index() as u16
}

/// The address of a slot.
pub fn slot_address(slot: u8) -> u16
    requires { slot < 16 }
    ensures at { result ≡ slot_at slot }
    ensures below { result < 65000 }
{
    SLOTS + 2 * u16::from(slot)
}

/// Where the operand for this slot comes from.
pub fn source_of(slot: u8, operand: Operand) -> Source
    requires { slot < 16 }
    ensures source { result ≡ sources.source_of slot (operand_of operand) }
    ensures whole { IsWhole result }
{
    match operand {
        Operand::Constant(word) => Source::FixedWord(word),
        Operand::Variable(letter) => Source::AtAddress(variable_at(letter)),
        Operand::InSlot => Source::AtAddress(slot_address(slot)),
    }
}

// Where the left word of a test comes from.
fn tested_source(tested: Tested) -> Source
    ensures source { result ≡ sources.tested_source (tested_of tested) }
    ensures whole { IsWhole result }
{
    match tested {
        Tested::HeldBefore => Source::AtAddress(HELD),
        Tested::HeldNow(operand) => source_of(0, operand),
    }
}

/// Where the operands for a slot and the next one come from.
pub fn words_of(slot: u8, left: Operand, right: Operand) -> Words
    requires { slot < 15 }
    ensures left { result.left ≡ sources.source_of slot (operand_of left) }
    ensures right { result.right ≡ sources.source_of (slot + 1) (operand_of right) }
    ensures whole { AreWhole result }
{
    Words {
        left: source_of(slot, left),
        right: source_of(slot + 1, right),
    }
}

/// Where the words of a test come from.
pub fn tested_words(left: Tested, right: Operand) -> Words
    ensures left { result.left ≡ sources.tested_source (tested_of left) }
    ensures right { result.right ≡ sources.source_of 0 (operand_of right) }
    ensures whole { AreWhole result }
{
    Words {
        left: tested_source(left),
        right: source_of(0, right),
    }
}

/// Where slot 0 goes.
pub fn home_at(home: Home) -> u16
    ensures at { result ≡ sources.home_at (home_of home) }
    ensures below { result < 65000 }
{
    match home {
        Home::IntoVariable(letter) => variable_at(letter),
        Home::IntoHeld => HELD,
    }
}

/// The slot in which a result is computed.
pub fn slot_of(destination: Destination) -> u8
    ensures { result ≡ groups.slot_of (destination_of destination) }
{
    match destination {
        Destination::IntoSlot(slot) => slot,
        Destination::IntoHome(_) => 0,
    }
}

/// Where a result goes.
pub fn destination_at(destination: Destination) -> u16
    requires { groups.slot_of (destination_of destination) < 16 }
    ensures at { result ≡ sources.destination_at (destination_of destination) }
    ensures below { result < 65000 }
{
    match destination {
        Destination::IntoSlot(slot) => slot_address(slot),
        Destination::IntoHome(home) => home_at(home),
    }
}

/// An instruction on the low byte of a word.
pub fn put_low(items: &mut Vec<Item>, mnemonic: Mnemonic, word: Source) -> Result<(), AllocError>
    ensures { Puts result items.old items.new (sources.low_of mnemonic word ∷ []) }
{
    match word {
        Source::FixedWord(word) => put_const(items, mnemonic, (word % 256) as u8),
        Source::AtAddress(address) => put_at(items, mnemonic, address),
    }
}

/// An instruction on the high byte of a word.
pub fn put_high(items: &mut Vec<Item>, mnemonic: Mnemonic, word: Source) -> Result<(), AllocError>
    requires { IsWhole word }
    ensures { Puts result items.old items.new (sources.high_of mnemonic word ∷ []) }
{
    match word {
        Source::FixedWord(word) => put_const(items, mnemonic, (word / 256) as u8),
        Source::AtAddress(address) => put_at(items, mnemonic, address + 1),
    }
}
