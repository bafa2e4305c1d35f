//! Words that are changed in place: by a constant, to their half or to their double.
ghost use Rattle.std.specs.Prelude.{◌≡◌, ◌<◌};
ghost use Rattle.tb_compiler_templates.specs.Putting.{Puts};
ghost use Rattle.tb_compiler_templates.specs.InPlace as in_place;

use crate::labels::Target;
use crate::pieces::{put_alone, put_at, put_branch, put_const, put_here};
use crate::scaled::put_on_a;
use crate::sources::Source;
use std::alloc::AllocError;
use tb_asm::Item;
use tb_basic_syntax::Operator;
use tb_opcodes::Mnemonic;

/// What a calculation with a constant does to a word, if the result goes to the word's own address.
#[derive(Clone, Copy, Debug, Drop)]
pub enum Change {
    /// It is one more.
    Increment,
    /// It is one less.
    Decrement,
    /// It is this much more.
    Raise(u8),
    /// It is this much less.
    Lower(u8),
    /// It is half as much.
    Halve,
    /// It is twice as much.
    Double,
}

// The change by a constant that is added.
fn raising(constant: u16) -> Option<Change>
    ensures { result ≡ in_place.raising constant }
{
    if constant == 1 {
        Some(Change::Increment)
    } else if constant == u16::MAX {
        Some(Change::Decrement)
    } else if constant < 256 {
        Some(Change::Raise(constant as u8))
    } else if constant > 65280 {
        Some(Change::Lower((u16::MAX - constant + 1) as u8))
    } else {
        None
    }
}

// The change by a constant that is subtracted.
fn lowering(constant: u16) -> Option<Change>
    ensures { result ≡ in_place.lowering constant }
{
    if constant == 1 {
        Some(Change::Decrement)
    } else if constant == u16::MAX {
        Some(Change::Increment)
    } else if constant < 256 {
        Some(Change::Lower(constant as u8))
    } else if constant > 65280 {
        Some(Change::Raise((u16::MAX - constant + 1) as u8))
    } else {
        None
    }
}

// The change of a word with a constant after it.
fn with_right(operator: Operator, constant: u16) -> Option<Change>
    ensures { result ≡ in_place.with_right operator constant }
{
    match operator {
        Operator::Add => raising(constant),
        Operator::Subtract => lowering(constant),
        Operator::Multiply => (constant == 2).then_some(Change::Double),
        Operator::Divide => (constant == 2).then_some(Change::Halve),
    }
}

// The change of a word with a constant before it.
fn with_left(operator: Operator, constant: u16) -> Option<Change>
    ensures { result ≡ in_place.with_left operator constant }
{
    match operator {
        Operator::Add => raising(constant),
        Operator::Multiply => (constant == 2).then_some(Change::Double),
        Operator::Subtract | Operator::Divide => None,
    }
}

/// The change that a calculation makes to a word at an address with a constant, if the result goes to that address.
pub fn change_of(operator: Operator, left: Source, right: Source, to: u16) -> Option<Change>
    ensures { result ≡ in_place.change_of operator left right to }
{
    match (left, right) {
        (Source::AtAddress(address), Source::FixedWord(constant)) if address == to => {
            with_right(operator, constant)
        }
        (Source::FixedWord(constant), Source::AtAddress(address)) if address == to => {
            with_left(operator, constant)
        }
        _ => None,
    }
}

// The high byte of a word is counted up or down, unless the branch is taken.
fn put_counted(
    items: &mut Vec<Item>,
    leaves: Mnemonic,
    skip: Target,
    counts: Mnemonic,
    address: u16,
) -> Result<(), AllocError>
    requires { address < 65535 }
    ensures { Puts result items.old items.new (in_place.counted leaves skip counts address) }
{
    put_branch(items, leaves, skip)?;
    put_at(items, counts, address + 1)?;
    put_here(items, skip)
}

// One more.
fn put_incremented(items: &mut Vec<Item>, address: u16, skip: Target) -> Result<(), AllocError>
    requires { address < 65535 }
    ensures { Puts result items.old items.new (in_place.changed in_place.Increment address skip) }
{
    put_at(items, Mnemonic::Inc, address)?;
    put_counted(items, Mnemonic::Bne, skip, Mnemonic::Inc, address)
}

// One less.
fn put_decremented(items: &mut Vec<Item>, address: u16, skip: Target) -> Result<(), AllocError>
    requires { address < 65535 }
    ensures { Puts result items.old items.new (in_place.changed in_place.Decrement address skip) }
{
    put_at(items, Mnemonic::Lda, address)?;
    put_counted(items, Mnemonic::Bne, skip, Mnemonic::Dec, address)?;
    put_at(items, Mnemonic::Dec, address)
}

// More by a byte.
fn put_raised_by(
    items: &mut Vec<Item>,
    by: u8,
    address: u16,
    skip: Target,
) -> Result<(), AllocError>
    requires { address < 65535 }
    ensures { Puts result items.old items.new (in_place.changed (in_place.Raise by) address skip) }
{
    put_alone(items, Mnemonic::Clc)?;
    put_at(items, Mnemonic::Lda, address)?;
    put_const(items, Mnemonic::Adc, by)?;
    put_at(items, Mnemonic::Sta, address)?;
    put_counted(items, Mnemonic::Bcc, skip, Mnemonic::Inc, address)
}

// Less by a byte.
fn put_lowered_by(
    items: &mut Vec<Item>,
    by: u8,
    address: u16,
    skip: Target,
) -> Result<(), AllocError>
    requires { address < 65535 }
    ensures { Puts result items.old items.new (in_place.changed (in_place.Lower by) address skip) }
{
    put_alone(items, Mnemonic::Sec)?;
    put_at(items, Mnemonic::Lda, address)?;
    put_const(items, Mnemonic::Sbc, by)?;
    put_at(items, Mnemonic::Sta, address)?;
    put_counted(items, Mnemonic::Bcs, skip, Mnemonic::Dec, address)
}

// One more if C is set.
fn put_one_more(items: &mut Vec<Item>, address: u16) -> Result<(), AllocError>
    requires { address < 65535 }
    ensures { Puts result items.old items.new (in_place.one_more address) }
{
    put_at(items, Mnemonic::Lda, address)?;
    put_const(items, Mnemonic::Adc, 0)?;
    put_at(items, Mnemonic::Sta, address)?;
    put_at(items, Mnemonic::Lda, address + 1)?;
    put_const(items, Mnemonic::Adc, 0)?;
    put_at(items, Mnemonic::Sta, address + 1)
}

// Half as much, rounded toward zero.
fn put_half_in_place(items: &mut Vec<Item>, address: u16, skip: Target) -> Result<(), AllocError>
    requires { address < 65535 }
    ensures { Puts result items.old items.new (in_place.half_in_place address skip) }
{
    put_at(items, Mnemonic::Lda, address + 1)?;
    put_on_a(items, Mnemonic::Asl)?;
    put_branch(items, Mnemonic::Bcc, skip)?;
    put_one_more(items, address)?;
    put_on_a(items, Mnemonic::Asl)?;
    put_here(items, skip)?;
    put_at(items, Mnemonic::Ror, address + 1)?;
    put_at(items, Mnemonic::Ror, address)
}

// Twice as much.
fn put_doubled_in_place(items: &mut Vec<Item>, address: u16) -> Result<(), AllocError>
    requires { address < 65535 }
    ensures { Puts result items.old items.new (in_place.doubled_in_place address) }
{
    put_at(items, Mnemonic::Asl, address)?;
    put_at(items, Mnemonic::Rol, address + 1)
}

/// The word at an address is changed; if a change has a branch, it skips to this label.
pub fn put_changed(
    items: &mut Vec<Item>,
    change: Change,
    address: u16,
    skip: Target,
) -> Result<(), AllocError>
    requires { address < 65535 }
    ensures { Puts result items.old items.new (in_place.changed change address skip) }
{
    match change {
        Change::Increment => put_incremented(items, address, skip),
        Change::Decrement => put_decremented(items, address, skip),
        Change::Raise(by) => put_raised_by(items, by, address, skip),
        Change::Lower(by) => put_lowered_by(items, by, address, skip),
        Change::Halve => put_half_in_place(items, address, skip),
        Change::Double => put_doubled_in_place(items, address),
    }
}
