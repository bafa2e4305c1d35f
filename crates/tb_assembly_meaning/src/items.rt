//! The items of statements.
ghost use Rattle.std.specs.Prelude.{◌≡◌, ◌≤◌, Ok, Some, map, option_map, replicate};
ghost use Rattle.tb_asm.specs.Layout.{entry_of, opcode_of};
ghost use Rattle.tb_asm.specs.Settle.{inverse};
ghost use Rattle.tb_assembly_text.specs.Expressions.{sum_of};
ghost use Rattle.tb_assembly_text.specs.Lists.{content_of};
ghost use Rattle.tb_assembly_text.specs.Operands.{form_of};
ghost use Rattle.tb_assembly_text.specs.Statements.{clause_of};
ghost use Rattle.tb_assembly_meaning.specs.Names.{named};
ghost use Rattle.tb_assembly_meaning.specs.Items.{branch_operand, byte_value, content_bytes, data_bytes, fill_bytes, form_operand, indirect_operand, instruction_item, item_of};
ghost use Rattle.tb_assembly_meaning.specs.Items.{long_bytes, long_content};
ghost use Rattle.tb_assembly_meaning.specs.Modes.{long_target};
ghost use Rattle.tb_assembly_meaning.specs.Items.{operand_value, reaches, value_operand, word_content, word_value, words_bytes, Lays};
ghost use Rattle.tb_assembly_meaning.specs.Answers.{Answers, AnswersBy};

use crate::bytes::{
    address_of, byte_of, push_byte, push_bytes, push_times, push_word, word_of, zero_page_of,
};
use crate::faults::{MeaningError, Wrong};
use crate::modes::long_target;
use crate::spots::{Spot, capped, here_of, located};
use crate::symbols::Symbols;
use crate::values::value;
use std::alloc::Global;
use tb_asm::{Item, Operand};
use tb_assembly_text::{Clause, Datum, Expression, Shape};
use tb_opcodes::{Mnemonic, Mode, encode};

/// The size of a jump: how far the inverse branch before it leads.
const JUMP_SIZE: u8 = 3;

// The branch on the other value of the flag.
fn inverse(mnemonic: Mnemonic) -> Mnemonic
    ensures { result ≡ inverse mnemonic }
{
    match mnemonic {
        Mnemonic::Bpl => Mnemonic::Bmi,
        Mnemonic::Bmi => Mnemonic::Bpl,
        Mnemonic::Bvc => Mnemonic::Bvs,
        Mnemonic::Bvs => Mnemonic::Bvc,
        Mnemonic::Bcc => Mnemonic::Bcs,
        Mnemonic::Bcs => Mnemonic::Bcc,
        Mnemonic::Bne => Mnemonic::Beq,
        Mnemonic::Beq => Mnemonic::Bne,
        other => other,
    }
}

// The opcode of a mnemonic in a mode; 0 if there is no such instruction.
fn opcode(mnemonic: Mnemonic, mode: Mode) -> u8
    ensures { result ≡ opcode_of mnemonic mode }
{
    encode(mnemonic, mode).unwrap_or(0)
}

// The distance from the address behind a branch, as it is written in one byte, if it reaches.
fn reaches(at: usize, target: u16) -> bool
    requires { at ≤ 65536 }
    ensures { result ≡ reaches at target }
{
    let away = (usize::from(target) + 65536 - (at + 2) % 65536) % 65536;
    away < 128 || 65408 <= away
}

// The operand of an instruction in a mode, by its value.
fn operand_value(mode: Mode, at: usize, number: i32) -> Result<Operand, Wrong>
    requires { at ≤ 65536 }
    ensures { result ≡ operand_value mode at number }
{
    match mode {
        Mode::Immediate => Ok(Operand::Byte(byte_of(number)?)),
        Mode::ZeroPage | Mode::ZeroPageX | Mode::ZeroPageY | Mode::IndirectX | Mode::IndirectY => {
            Ok(Operand::Byte(zero_page_of(number)?))
        }
        Mode::Relative => branch_operand(at, address_of(number)?),
        Mode::Indirect => indirect_operand(address_of(number)?),
        _ => Ok(Operand::Word(address_of(number)?)),
    }
}

fn branch_operand(at: usize, target: u16) -> Result<Operand, Wrong>
    requires { at ≤ 65536 }
    ensures { result ≡ branch_operand at target }
{
    if reaches(at, target) {
        Ok(Operand::Word(target))
    } else {
        Err(Wrong::TooFar)
    }
}

fn indirect_operand(pointer: u16) -> Result<Operand, Wrong>
    ensures { result ≡ indirect_operand pointer }
{
    if pointer % 256 == 255 {
        Err(Wrong::PageEnd)
    } else {
        Ok(Operand::Word(pointer))
    }
}

// The operand of an instruction by the expression of its address or its byte.
fn value_operand(
    alloc: Global,
    symbols: &Symbols,
    spot: Spot,
    expression: &Expression,
) -> Result<Operand, MeaningError>
    ensures { Answers (value_operand (named symbols.now.entries) spot (sum_of expression.now)) result }
{
    let number = value(alloc, symbols, here_of(spot.at), expression)?;
    located(
        expression.column,
        operand_value(spot.mode, capped(spot.at), number),
    )
}

fn operand(
    alloc: Global,
    symbols: &Symbols,
    spot: Spot,
    shape: &Shape,
) -> Result<Operand, MeaningError>
    ensures { Answers (form_operand (named symbols.now.entries) spot (form_of shape.now)) result }
{
    match shape {
        Shape::Nothing | Shape::Accumulator => Ok(Operand::Nothing),
        Shape::Immediate(expression)
        | Shape::Direct(_, expression, _)
        | Shape::Indirect(expression)
        | Shape::ByX(expression)
        | Shape::ByY(expression) => value_operand(alloc, symbols, spot, expression),
    }
}

// A byte of an expression.
fn byte_value(
    alloc: Global,
    symbols: &Symbols,
    at: usize,
    expression: &Expression,
) -> Result<u8, MeaningError>
    ensures { Answers (byte_value (named symbols.now.entries) at (sum_of expression.now)) result }
{
    let number = value(alloc, symbols, here_of(at), expression)?;
    located(expression.column, byte_of(number))
}

// A word of an expression.
fn word_value(
    alloc: Global,
    symbols: &Symbols,
    at: usize,
    expression: &Expression,
) -> Result<u16, MeaningError>
    ensures { Answers (word_value (named symbols.now.entries) at (sum_of expression.now)) result }
{
    let number = value(alloc, symbols, here_of(at), expression)?;
    located(expression.column, word_of(number))
}

// Appends the bytes of a datum.
fn push_datum(
    alloc: Global,
    symbols: &Symbols,
    at: usize,
    datum: &Datum,
    bytes: &mut Vec<u8>,
) -> Result<(), MeaningError>
    ensures { Lays (content_bytes (named symbols.now.entries) at (content_of datum.now)) bytes.old.items result bytes.new.items }
{
    match datum {
        Datum::Value(expression) => {
            push_byte(bytes, byte_value(alloc, symbols, at, expression)?)
        }
        Datum::Text(text) => push_bytes(bytes, text),
    }
}

// Appends the bytes of a word.
fn push_value(
    alloc: Global,
    symbols: &Symbols,
    at: usize,
    expression: &Expression,
    bytes: &mut Vec<u8>,
) -> Result<(), MeaningError>
    ensures { Lays (word_content (named symbols.now.entries) at (sum_of expression.now)) bytes.old.items result bytes.new.items }
{
    push_word(bytes, word_value(alloc, symbols, at, expression)?)
}

// The bytes of data.
fn data_bytes(
    alloc: Global,
    symbols: &Symbols,
    at: usize,
    list: &[Datum],
) -> Result<Vec<u8>, MeaningError>
    ensures { AnswersBy (λ v. v.items) (data_bytes (named symbols.now.entries) at (map content_of list.now)) result }
{
    let mut bytes = Vec::new(alloc);
    for datum in list {
        match push_datum(alloc, symbols, at, datum, &mut bytes) {
            Ok(()) => {}
            Err(error) => return Err(error),
        }
    }
    Ok(bytes)
}

// The bytes of words.
fn words_bytes(
    alloc: Global,
    symbols: &Symbols,
    at: usize,
    words: &[Expression],
) -> Result<Vec<u8>, MeaningError>
    ensures { AnswersBy (λ v. v.items) (words_bytes (named symbols.now.entries) at (map sum_of words.now)) result }
{
    let mut bytes = Vec::new(alloc);
    for word in words {
        match push_value(alloc, symbols, at, word, &mut bytes) {
            Ok(()) => {}
            Err(error) => return Err(error),
        }
    }
    Ok(bytes)
}

fn times(alloc: Global, count: usize, byte: u8) -> Result<Vec<u8>, MeaningError>
    ensures { AnswersBy (λ v. v.items) (Ok (replicate count byte)) result }
{
    let mut bytes = Vec::new(alloc);
    push_times(&mut bytes, count, byte)?;
    Ok(bytes)
}

// So many bytes of a value.
fn fill_bytes(
    alloc: Global,
    symbols: &Symbols,
    spot: Spot,
    filling: &Option<Expression>,
) -> Result<Vec<u8>, MeaningError>
    ensures { AnswersBy (λ v. v.items) (fill_bytes (named symbols.now.entries) spot (option_map sum_of filling.now)) result }
{
    match filling {
        None => times(alloc, spot.size, 0),
        Some(expression) => {
            let byte = byte_value(alloc, symbols, spot.at, expression)?;
            times(alloc, spot.size, byte)
        }
    }
}

// The bytes of a long branch: the inverse branch, which leads over the jump behind it, and the jump to the target.
fn long_bytes(alloc: Global, mnemonic: Mnemonic, target: u16) -> Result<Vec<u8>, MeaningError>
    ensures { AnswersBy (λ v. v.items) (Ok (long_bytes mnemonic target)) result }
{
    let mut bytes = Vec::new(alloc);
    push_byte(&mut bytes, opcode(inverse(mnemonic), Mode::Relative))?;
    push_byte(&mut bytes, JUMP_SIZE)?;
    push_byte(&mut bytes, opcode(Mnemonic::Jmp, Mode::Absolute))?;
    push_word(&mut bytes, target)?;
    Ok(bytes)
}

// The bytes of a long branch to the value of an expression.
fn long_content(
    alloc: Global,
    symbols: &Symbols,
    at: usize,
    mnemonic: Mnemonic,
    target: &Expression,
) -> Result<Vec<u8>, MeaningError>
    ensures { AnswersBy (λ v. v.items) (long_content (named symbols.now.entries) at mnemonic (sum_of target.now)) result }
{
    let number = value(alloc, symbols, here_of(at), target)?;
    let address = located(target.column, address_of(number))?;
    long_bytes(alloc, mnemonic, address)
}

// The item of an instruction.
fn instruction(
    alloc: Global,
    symbols: &Symbols,
    spot: Spot,
    mnemonic: Mnemonic,
    shape: &Shape,
) -> Result<Item, MeaningError>
    ensures { AnswersBy (λ i. Some (entry_of i)) (instruction_item (named symbols.now.entries) spot mnemonic (form_of shape.now)
        (long_target (form_of shape.now) spot.mode)) result }
{
    match long_target(shape, spot.mode) {
        None => {
            let operand = operand(alloc, symbols, spot, shape)?;
            Ok(Item::Instr(mnemonic, spot.mode, operand))
        }
        Some(target) => {
            let bytes = long_content(alloc, symbols, spot.at, mnemonic, target)?;
            Ok(Item::Bytes(bytes))
        }
    }
}

/// The item of a statement that lies somewhere, if it is one.
pub fn item_of(
    alloc: Global,
    symbols: &Symbols,
    clause: &Clause,
    spot: Spot,
) -> Result<Option<Item>, MeaningError>
    ensures { AnswersBy (option_map entry_of) (item_of (named symbols.now.entries) spot (clause_of clause.now)) result }
{
    Ok(match clause {
        Clause::Label(_) | Clause::Include(_) => None,
        Clause::Assign(_, expression) => {
            value(alloc, symbols, here_of(spot.at), expression)?;
            None
        }
        Clause::Origin(_) | Clause::Align(_) => Some(Item::Bytes(times(alloc, spot.size, 0)?)),
        Clause::Instruction(mnemonic, shape) => {
            Some(instruction(alloc, symbols, spot, *mnemonic, shape)?)
        }
        Clause::Bytes(data) => Some(Item::Bytes(data_bytes(alloc, symbols, spot.at, data)?)),
        Clause::Words(words) => Some(Item::Bytes(words_bytes(alloc, symbols, spot.at, words)?)),
        Clause::Fill(_, filling) => {
            Some(Item::Bytes(fill_bytes(alloc, symbols, spot, filling)?))
        }
    })
}
