//! Addressing modes.
ghost use Rattle.std.specs.Prelude.{◌≡◌, option_map};
ghost use Rattle.tb_assembly_text.specs.Operands.{form_of};
ghost use Rattle.tb_assembly_text.specs.Expressions.{sum_of};
ghost use Rattle.tb_assembly_meaning.specs.Names.{named};
ghost use Rattle.tb_assembly_meaning.specs.Modes.{direct_mode, has, is_short, long_target, mode_of, pick, size_in, without_operand};
ghost use Rattle.tb_assembly_meaning.specs.Answers.{Finds};

use crate::faults::MeaningError;
use crate::symbols::Symbols;
use crate::values::value;
use std::alloc::Global;
use tb_assembly_text::{Expression, Index, Shape, Width};
use tb_opcodes::{Mnemonic, Mode, encode, length};

/// The size of a long branch: the inverse branch and a jump.
const LONG: usize = 5;

/// Whether there is an instruction with a mode.
pub fn has(mnemonic: Mnemonic, mode: Mode) -> bool
    ensures { result ≡ has mnemonic mode }
{
    encode(mnemonic, mode).is_some()
}

// The mode of an instruction without an operand: that of the accumulator if it has no other.
fn without_operand(mnemonic: Mnemonic) -> Mode
    ensures { result ≡ without_operand mnemonic }
{
    if has(mnemonic, Mode::Implied) {
        Mode::Implied
    } else {
        Mode::Accumulator
    }
}

// Whether the value of an address is known here, and less than 256.
fn is_short(
    alloc: Global,
    symbols: &Symbols,
    here: i32,
    address: &Expression,
) -> Result<bool, MeaningError>
    ensures { Finds (is_short (named symbols.now.entries) here (sum_of address.now)) result }
{
    match value(alloc, symbols, here, address) {
        Ok(number) => Ok(0 <= number && number < 256),
        Err(MeaningError::Bad(_)) => Ok(false),
        Err(MeaningError::NoMemory) => Err(MeaningError::NoMemory),
    }
}

// The mode of one byte or that of two.
fn pick(mnemonic: Mnemonic, width: Width, short: bool, one: Mode, two: Mode) -> Mode
    ensures { result ≡ pick mnemonic width short one two }
{
    match width {
        Width::ZeroPage => one,
        Width::Absolute | Width::Long => two,
        Width::Free => if short && has(mnemonic, one) {
            one
        } else {
            two
        },
    }
}

// The mode of an address with a register.
fn direct_mode(mnemonic: Mnemonic, width: Width, short: bool, index: Index) -> Mode
    ensures { result ≡ direct_mode mnemonic width short index }
{
    match index {
        Index::X => pick(mnemonic, width, short, Mode::ZeroPageX, Mode::AbsoluteX),
        Index::Y => pick(mnemonic, width, short, Mode::ZeroPageY, Mode::AbsoluteY),
        Index::Without => if has(mnemonic, Mode::Relative) {
            Mode::Relative
        } else {
            pick(mnemonic, width, short, Mode::ZeroPage, Mode::Absolute)
        },
    }
}

/// The target of a long branch, if an instruction in a mode is one.
pub fn long_target(shape: &Shape, mode: Mode) -> Option<&Expression>
    ensures { option_map (λ e. sum_of e.now) result ≡ long_target (form_of shape.now) mode }
{
    match (shape, mode) {
        (Shape::Direct(Width::Long, target, Index::Without), Mode::Relative) => Some(target),
        _ => None,
    }
}

/// How many bytes an instruction in a mode takes.
pub fn size_in(shape: &Shape, mode: Mode) -> usize
    ensures { result ≡ size_in (form_of shape.now) mode }
{
    match long_target(shape, mode) {
        Some(_) => LONG,
        None => usize::from(length(mode)),
    }
}

/// The mode of an instruction by its operand, with what names stand for where it is read.
pub fn mode_of(
    alloc: Global,
    symbols: &Symbols,
    here: i32,
    mnemonic: Mnemonic,
    shape: &Shape,
) -> Result<Mode, MeaningError>
    ensures { Finds (mode_of (named symbols.now.entries) here mnemonic (form_of shape.now)) result }
{
    Ok(match shape {
        Shape::Nothing => without_operand(mnemonic),
        Shape::Accumulator => Mode::Accumulator,
        Shape::Immediate(_) => Mode::Immediate,
        Shape::Direct(width, address, index) => {
            let short = is_short(alloc, symbols, here, address)?;
            direct_mode(mnemonic, *width, short, *index)
        }
        Shape::Indirect(_) => Mode::Indirect,
        Shape::ByX(_) => Mode::IndirectX,
        Shape::ByY(_) => Mode::IndirectY,
    })
}
