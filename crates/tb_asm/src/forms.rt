//! The forms of instructions and directives.
ghost use Rattle.std.specs.Prelude.{◌≡◌, ◌<◌, ◌≤◌, ◌∷◌, [], ◌++◌, length, Some, IsTrue, MatchOption, MatchResult};
ghost use Rattle.tb_asm.specs.Layout.{entry_of};
ghost use Rattle.tb_asm.specs.Names.{name_in};
ghost use Rattle.tb_asm.specs.Text.{by_index, after_byte, after_address, after_hash, byte_in_brackets, after_left};
ghost use Rattle.tb_asm.specs.Text.{after_identifier, operand_form, is_branch, byte_list, word_operand, item_of};
ghost use Rattle.tb_asm.specs.Text.{one_item, behind_label, behind_first, is_colon_first, items_of, labelled};
ghost use Rattle.tb_asm.specs.Text.{is_register};
ghost use Rattle.tb_asm.specs.Reads.{Reads, Pushes, IsNoWord};

use crate::errors::LineError;
use crate::items::{Item, Operand};
use crate::mnemonics::mnemonic;
use crate::names::{Name, spells_name};
use crate::parts::Part;
use arrayvec::ArrayVec;
use std::alloc::Global;
use tb_opcodes::{Mnemonic, Mode, encode};

/// Appends the items of a line by its parts: nothing, an item, a label, or a label and an item.
pub fn read_items(alloc: Global, parts: &[Part], items: &mut Vec<Item>) -> Result<(), LineError>
    ensures { Pushes (items_of parts.now) items.old.items result items.new.items }
{
    if parts.is_empty() {
        return Ok(());
    }
    let (letters, rest) = first_word(parts).ok_or(LineError::Bad)?;
    read_first(alloc, letters, rest, items)
}

// The identifier at the front, and the parts after it.
fn first_word(parts: &[Part]) -> Option<(&ArrayVec<u8, 31>, &[Part])>
    ensures { MatchOption result (IsNoWord parts.now) (λ r. parts.now ≡ Part.Identifier r.0.now ∷ r.1.now) }
{
    match parts {
        [Part::Identifier(letters), rest @ ..] => Some((letters, rest)),
        _ => None,
    }
}

// A line that begins with an identifier: a colon makes it a label.
fn read_first(
    alloc: Global,
    letters: &ArrayVec<u8, 31>,
    parts: &[Part],
    items: &mut Vec<Item>,
) -> Result<(), LineError>
    ensures { Pushes (behind_first letters.now.items parts.now) items.old.items result items.new.items }
{
    if is_colon_first(parts) {
        read_labelled(alloc, letters, parts.split_at(1).1, items)
    } else {
        read_one_item(alloc, letters.as_slice(), parts, items)
    }
}

fn is_colon_first(parts: &[Part]) -> bool
    ensures first { result ≡ is_colon_first parts.now }
    ensures some { IsTrue result → 0 < length parts.now }
{
    matches!(parts, [Part::Colon, ..])
}

// A label, and nothing or an item.
fn read_labelled(
    alloc: Global,
    letters: &ArrayVec<u8, 31>,
    parts: &[Part],
    items: &mut Vec<Item>,
) -> Result<(), LineError>
    ensures { Pushes (labelled letters.now.items parts.now) items.old.items result items.new.items }
{
    let name = read_name(letters)?;
    push(items, Item::Label(name))?;
    read_behind_label(alloc, parts, items)
}

// Nothing or an item.
fn read_behind_label(alloc: Global, parts: &[Part], items: &mut Vec<Item>) -> Result<(), LineError>
    ensures { Pushes (behind_label parts.now) items.old.items result items.new.items }
{
    match parts {
        [] => Ok(()),
        [Part::Identifier(letters), rest @ ..] => {
            read_one_item(alloc, letters.as_slice(), rest, items)
        }
        _ => Err(LineError::Bad),
    }
}

// An item by its first word.
fn read_one_item(
    alloc: Global,
    word: &[u8],
    parts: &[Part],
    items: &mut Vec<Item>,
) -> Result<(), LineError>
    ensures { Pushes (one_item word.now parts.now) items.old.items result items.new.items }
{
    let item = read_item(alloc, word, parts)?;
    push(items, item)
}

fn push(items: &mut Vec<Item>, item: Item) -> Result<(), LineError>
    ensures { Pushes (Some (entry_of item ∷ [])) items.old.items result items.new.items }
{
    match items.push(item) {
        Ok(()) => Ok(()),
        Err(_) => Err(LineError::NoMemory),
    }
}

// A directive or an instruction, by its first word.
fn read_item(alloc: Global, word: &[u8], parts: &[Part]) -> Result<Item, LineError>
    ensures { Reads entry_of (item_of word.now parts.now) result }
{
    if word == b".BYTE".as_slice() {
        return Ok(Item::Bytes(read_bytes(alloc, parts)?));
    }
    if word == b".WORD".as_slice() {
        return Ok(Item::Word(read_word(parts)?));
    }
    let mnemonic = mnemonic(word).ok_or(LineError::Bad)?;
    let (mode, operand) = read_form(is_branch(mnemonic), parts)?;
    Ok(Item::Instr(mnemonic, mode, operand))
}

// Whether the mnemonic is a branch, so that an address after it is a target.
fn is_branch(mnemonic: Mnemonic) -> bool
    ensures { result ≡ is_branch mnemonic }
{
    encode(mnemonic, Mode::Relative).is_some()
}

// The mode and the operand after a mnemonic.
fn read_form(branch: bool, parts: &[Part]) -> Result<(Mode, Operand), LineError>
    ensures { Reads (λ f. f) (operand_form branch parts.now) result }
{
    match parts {
        [] => Ok((Mode::Implied, Operand::Nothing)),
        [Part::Identifier(letters), rest @ ..] => read_identifier(branch, letters, rest),
        [Part::TwoDigits(byte), rest @ ..] => read_byte(*byte, rest),
        [Part::FourDigits(word), rest @ ..] => read_address(branch, Operand::Word(*word), rest),
        [Part::Hash, rest @ ..] => read_immediate(rest),
        [Part::Left, rest @ ..] => read_indirect(rest),
        _ => Err(LineError::Bad),
    }
}

// An operand that begins with an identifier.
fn read_identifier(
    branch: bool,
    letters: &ArrayVec<u8, 31>,
    parts: &[Part],
) -> Result<(Mode, Operand), LineError>
    ensures { Reads (λ f. f) (after_identifier branch letters.now.items parts.now) result }
{
    if !is_register(letters.as_slice(), b'A') {
        return read_address(branch, Operand::Label(read_name(letters)?), parts);
    }
    match parts {
        [] => Ok((Mode::Accumulator, Operand::Nothing)),
        _ => Err(LineError::Bad),
    }
}

// An operand that begins with two digits.
fn read_byte(byte: u8, parts: &[Part]) -> Result<(Mode, Operand), LineError>
    ensures { Reads (λ f. f) (after_byte byte parts.now) result }
{
    match parts {
        [] => Ok((Mode::ZeroPage, Operand::Byte(byte))),
        [Part::Comma, Part::Identifier(letters)] => {
            by_index(
                letters.as_slice(),
                Mode::ZeroPageX,
                Mode::ZeroPageY,
                Operand::Byte(byte),
            )
        }
        _ => Err(LineError::Bad),
    }
}

// An operand that begins with four digits or a name.
fn read_address(branch: bool, place: Operand, parts: &[Part]) -> Result<(Mode, Operand), LineError>
    ensures { Reads (λ f. f) (after_address branch place parts.now) result }
{
    match parts {
        [] if branch => Ok((Mode::Relative, place)),
        [] => Ok((Mode::Absolute, place)),
        [Part::Comma, Part::Identifier(letters)] => {
            by_index(letters.as_slice(), Mode::AbsoluteX, Mode::AbsoluteY, place)
        }
        _ => Err(LineError::Bad),
    }
}

// The mode that an index register chooses.
fn by_index(
    register: &[u8],
    x: Mode,
    y: Mode,
    operand: Operand,
) -> Result<(Mode, Operand), LineError>
    ensures { Reads (λ f. f) (by_index register.now x y operand) result }
{
    if is_register(register, b'X') {
        return Ok((x, operand));
    }
    if is_register(register, b'Y') {
        return Ok((y, operand));
    }
    Err(LineError::Bad)
}

// The mode and the operand after `#`.
fn read_immediate(parts: &[Part]) -> Result<(Mode, Operand), LineError>
    ensures { Reads (λ f. f) (after_hash parts.now) result }
{
    match parts {
        [Part::TwoDigits(byte)] => Ok((Mode::Immediate, Operand::Byte(*byte))),
        [Part::Less, Part::Identifier(letters)] => {
            Ok((Mode::Immediate, Operand::LowOf(read_name(letters)?)))
        }
        [Part::Greater, Part::Identifier(letters)] => {
            Ok((Mode::Immediate, Operand::HighOf(read_name(letters)?)))
        }
        _ => Err(LineError::Bad),
    }
}

// The mode and the operand after `(`.
fn read_indirect(parts: &[Part]) -> Result<(Mode, Operand), LineError>
    ensures { Reads (λ f. f) (after_left parts.now) result }
{
    match parts {
        [Part::TwoDigits(byte), rest @ ..] => read_byte_in_brackets(*byte, rest),
        [Part::FourDigits(word), Part::Right] => Ok((Mode::Indirect, Operand::Word(*word))),
        [Part::Identifier(letters), Part::Right] => {
            Ok((Mode::Indirect, Operand::Label(read_name(letters)?)))
        }
        _ => Err(LineError::Bad),
    }
}

// The mode and the operand after `(` and two digits.
fn read_byte_in_brackets(byte: u8, parts: &[Part]) -> Result<(Mode, Operand), LineError>
    ensures { Reads (λ f. f) (byte_in_brackets byte parts.now) result }
{
    match parts {
        [Part::Comma, Part::Identifier(letters), Part::Right]
            if is_register(letters.as_slice(), b'X') => {
            Ok((Mode::IndirectX, Operand::Byte(byte)))
        }
        [Part::Right, Part::Comma, Part::Identifier(letters)]
            if is_register(letters.as_slice(), b'Y') => {
            Ok((Mode::IndirectY, Operand::Byte(byte)))
        }
        _ => Err(LineError::Bad),
    }
}

// A label's name by its letters in upper case.
fn read_name(letters: &ArrayVec<u8, 31>) -> Result<Name, LineError>
    ensures { Reads (λ n. n) (name_in letters.now.items) result }
{
    if !spells_name(letters.as_slice()) {
        return Err(LineError::Bad);
    }
    match letters.clone() {
        Ok(letters) => Ok(Name { letters }),
        Err(_) => Err(LineError::NoMemory),
    }
}

fn is_register(word: &[u8], letter: u8) -> bool
    ensures { result ≡ is_register word.now letter }
{
    word == [letter].as_slice()
}

// The bytes after `.byte`.
fn read_bytes(alloc: Global, parts: &[Part]) -> Result<Vec<u8>, LineError>
    ensures { Reads (λ bytes. bytes.items) (byte_list parts.now) result }
{
    let mut bytes = Vec::new(alloc);
    let mut rest = parts;
    while let [Part::TwoDigits(byte), Part::Comma, more @ ..] = rest {
        push_byte(&mut bytes, *byte)?;
        rest = more;
    }
    match rest {
        [Part::TwoDigits(byte)] => {
            push_byte(&mut bytes, *byte)?;
            Ok(bytes)
        }
        _ => Err(LineError::Bad),
    }
}

fn push_byte(bytes: &mut Vec<u8>, byte: u8) -> Result<(), LineError>
    ensures { MatchResult result (λ _. bytes.new.items ≡ bytes.old.items ++ byte ∷ []) (λ e. e ≡ LineError.NoMemory) }
{
    match bytes.push(byte) {
        Ok(()) => Ok(()),
        Err(_) => Err(LineError::NoMemory),
    }
}

// The operand of `.word`.
fn read_word(parts: &[Part]) -> Result<Operand, LineError>
    ensures { Reads (λ o. o) (word_operand parts.now) result }
{
    match parts {
        [Part::FourDigits(word)] => Ok(Operand::Word(*word)),
        [Part::Identifier(letters)] => Ok(Operand::Label(read_name(letters)?)),
        _ => Err(LineError::Bad),
    }
}
