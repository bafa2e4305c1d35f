//! The order of two signed words, and the branch that leaves the line by it.
ghost use Rattle.std.specs.Prelude.{◌≡◌, ◌+◌, ◌<◌, [], ◌∷◌, ◌++◌};
ghost use Rattle.tb_compiler_templates.specs.Putting.{Puts};
ghost use Rattle.tb_compiler_templates.specs.Orders as orders;
ghost use Rattle.tb_compiler_templates.specs.Sources.{AreWhole, IsWhole};
ghost use Rattle.tb_compiler_templates.specs.Templates.{branch};

use crate::labels::Target;
use crate::pieces::{put_branch, put_const, put_here};
use crate::scaled::SIGN;
use crate::sources::{Source, Words, put_high, put_low};
use std::alloc::AllocError;
use tb_asm::Item;
use tb_opcodes::Mnemonic;

// The greatest word.
const GREATEST: u16 = 32767;

/// Where a word is, seen from another one.
#[derive(Clone, Copy, Debug, Drop)]
pub enum Side {
    /// It is below the other one.
    Below,
    /// It is the same, or above it.
    NotBelow,
}

/// How it is decided whether a word is below another one.
#[derive(Clone, Copy, Debug, Drop)]
pub enum Order {
    /// By the sign of a word: where this one is, seen from 0.
    BySign(Side, Source),
    /// By whether a word is positive: where this one is, seen from 1.
    ByPositive(Side, Source),
    /// Where this word is, seen from a constant.
    ByConstant(Side, Source, u16),
    /// By the difference of both.
    ByDifference(Source, Source),
}

// By a word against a constant.
fn against(side: Side, word: Source, constant: u16) -> Order
    requires { IsWhole word }
    ensures order { result ≡ orders.against side word constant }
    ensures whole { orders.AreWhole result }
{
    match constant {
        0 => Order::BySign(side, word),
        1 => Order::ByPositive(side, word),
        _ => Order::ByConstant(side, word, constant),
    }
}

// Whether a word is below the one at an address.
fn before_word(left: Source, place: u16) -> Order
    requires whole { IsWhole left }
    requires below { place + 1 < 65536 }
    ensures order { result ≡ orders.before_word left place }
    ensures whole { orders.AreWhole result }
{
    let right = Source::AtAddress(place);
    match left {
        Source::FixedWord(word) if word != GREATEST => {
            against(Side::NotBelow, right, word.wrapping_add(1))
        }
        _ => Order::ByDifference(left, right),
    }
}

// Whether a word is below another one.
fn order_of(left: Source, right: Source) -> Order
    requires { IsWhole left × IsWhole right }
    ensures order { result ≡ orders.order_of left right }
    ensures whole { orders.AreWhole result }
{
    match right {
        Source::FixedWord(word) => against(Side::Below, left, word),
        Source::AtAddress(place) => before_word(left, place),
    }
}

// The other side.
fn other_side(side: Side) -> Side
    ensures { result ≡ orders.other_side side }
{
    match side {
        Side::Below => Side::NotBelow,
        Side::NotBelow => Side::Below,
    }
}

// The side itself if what it tells is wanted, else the other one.
fn wanted_side(wanted: Side, side: Side) -> Side
    ensures { result ≡ orders.wanted_side wanted side }
{
    match wanted {
        Side::Below => side,
        Side::NotBelow => other_side(side),
    }
}

// The branch that leaves unless a word is on a side of another one, if N tells that it is below.
fn unless_negative(side: Side) -> Mnemonic
    ensures { result ≡ orders.unless_negative side }
{
    match side {
        Side::Below => Mnemonic::Bpl,
        Side::NotBelow => Mnemonic::Bmi,
    }
}

// The branch that leaves unless a word is on a side of another one, if C tells that it is not below.
fn unless_carry(side: Side) -> Mnemonic
    ensures { result ≡ orders.unless_carry side }
{
    match side {
        Side::Below => Mnemonic::Bcs,
        Side::NotBelow => Mnemonic::Bcc,
    }
}

// By the sign of a word.
fn put_signed(
    items: &mut Vec<Item>,
    side: Side,
    word: Source,
    next: Target,
) -> Result<(), AllocError>
    requires { IsWhole word }
    ensures { Puts result items.old items.new (orders.signed side word next) }
{
    put_high(items, Mnemonic::Lda, word)?;
    put_branch(items, unless_negative(side), next)
}

// By whether a word is positive.
fn put_positive(
    items: &mut Vec<Item>,
    side: Side,
    word: Source,
    skip: Target,
    next: Target,
) -> Result<(), AllocError>
    requires { IsWhole word }
    ensures { Puts result items.old items.new (orders.positive side word skip next) }
{
    put_high(items, Mnemonic::Lda, word)?;
    match side {
        Side::Below => {
            put_branch(items, Mnemonic::Bmi, skip)?;
            put_low(items, Mnemonic::Ora, word)?;
            put_branch(items, Mnemonic::Bne, next)?;
            put_here(items, skip)
        }
        Side::NotBelow => {
            put_branch(items, Mnemonic::Bmi, next)?;
            put_low(items, Mnemonic::Ora, word)?;
            put_branch(items, Mnemonic::Beq, next)
        }
    }
}

// A word compared with a constant, the highest bits of both turned: by the high bytes if the constant's low one is 0.
fn put_lifted(items: &mut Vec<Item>, word: Source, constant: u16) -> Result<(), AllocError>
    requires { IsWhole word }
    ensures { Puts result items.old items.new (orders.lifted word constant) }
{
    let high = (constant / 256 + u16::from(SIGN)) % 256;
    if constant % 256 == 0 {
        put_high(items, Mnemonic::Lda, word)?;
        put_const(items, Mnemonic::Eor, SIGN)?;
        return put_const(items, Mnemonic::Cmp, high as u8);
    }
    put_low(items, Mnemonic::Lda, word)?;
    put_const(items, Mnemonic::Cmp, (constant % 256) as u8)?;
    put_high(items, Mnemonic::Lda, word)?;
    put_const(items, Mnemonic::Eor, SIGN)?;
    put_const(items, Mnemonic::Sbc, high as u8)
}

// By a word against a constant.
fn put_against(
    items: &mut Vec<Item>,
    side: Side,
    word: Source,
    constant: u16,
    next: Target,
) -> Result<(), AllocError>
    requires { IsWhole word }
    ensures { Puts result items.old items.new (orders.lifted word constant ++ (branch (orders.unless_carry side) next ∷ [])) }
{
    put_lifted(items, word, constant)?;
    put_branch(items, unless_carry(side), next)?;
    Ok(())
}

// By the difference of two words.
fn put_weighed(
    items: &mut Vec<Item>,
    side: Side,
    words: Words,
    skip: Target,
    next: Target,
) -> Result<(), AllocError>
    requires { AreWhole words }
    ensures { Puts result items.old items.new (orders.weighed side words.left words.right skip next) }
{
    put_low(items, Mnemonic::Lda, words.left)?;
    put_low(items, Mnemonic::Cmp, words.right)?;
    put_high(items, Mnemonic::Lda, words.left)?;
    put_high(items, Mnemonic::Sbc, words.right)?;
    put_branch(items, Mnemonic::Bvc, skip)?;
    put_const(items, Mnemonic::Eor, SIGN)?;
    put_here(items, skip)?;
    put_branch(items, unless_negative(side), next)
}

/// Leaves the line unless the left word is on the wanted side of the right one.
pub fn put_ordered(
    items: &mut Vec<Item>,
    wanted: Side,
    words: Words,
    skip: Target,
    next: Target,
) -> Result<(), AllocError>
    requires { AreWhole words }
    ensures { Puts result items.old items.new (orders.ordered wanted words.left words.right skip next) }
{
    match order_of(words.left, words.right) {
        Order::BySign(side, word) => put_signed(items, wanted_side(wanted, side), word, next),
        Order::ByPositive(side, word) => {
            put_positive(items, wanted_side(wanted, side), word, skip, next)
        }
        Order::ByConstant(side, word, constant) => {
            put_against(items, wanted_side(wanted, side), word, constant, next)
        }
        Order::ByDifference(left, right) => put_weighed(
            items,
            wanted,
            Words { left, right },
            skip,
            next,
        ),
    }
}
