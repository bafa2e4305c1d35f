//! Tests whether a divisor divides a word, and remainders.
ghost use Rattle.std.specs.Prelude.{◌≡◌, ◌+◌, ◌<◌, [], ◌∷◌, ◌++◌};
ghost use Rattle.tb_basic_syntax.specs.Source.{Rises};
ghost use Rattle.tb_basic_meaning.specs.Control.{has_line};
ghost use Rattle.tb_compiler_selection.specs.Groups as selection;
ghost use Rattle.tb_compiler_selection.specs.PlainData.{divisibility_of};
ghost use Rattle.tb_compiler_templates.specs.Putting.{Puts};
ghost use Rattle.tb_compiler_templates.specs.Templates as templates;
ghost use Rattle.tb_compiler_templates.specs.declared.labels.Inner.TheVariants.{Skip};
ghost use Rattle.tb_compiler_templates.specs.declared.labels.Target.TheVariants.{Inside};
ghost use Rattle.tb_compiler_templates.specs.Sources as sources;
ghost use Rattle.tb_compiler_templates.specs.Sources.{AreWhole, IsWhole};
ghost use Rattle.tb_compiled_kept.specs.Addresses as kept;
ghost use Rattle.tb_runtime16.specs.Addresses as places;
ghost use Rattle.tb_compiler_templates.specs.GroupTemplates as groups;
ghost use Rattle.tb_compiler_templates.specs.Masks as masks;
ghost use Rattle.tb_compiler_templates.specs.Reduced as reduced;

use crate::groups::{may_be_zero, put_brought, put_lined, put_taken};
use crate::labels::Target;
use crate::pieces::{
    put_alone, put_at, put_both_stored, put_branch, put_call, put_const, put_copied, put_faulted,
    put_here,
};
use crate::reduced::{doublings, put_reduced_rest};
use crate::sources::{Source, Words, against_none, put_high, put_low};
use crate::subtracted::put_tried;
use crate::templates::{NO_LINE, Spot, has_number};
use std::alloc::AllocError;
use tb_asm::Item;
use tb_compiled_kept::{LEFT, RESULT, RIGHT};
use tb_compiler_selection::Divisibility;
use tb_opcodes::Mnemonic;
use tb_runtime16::Routine;

// For a power of two from 2 to 256, that power minus one.
fn mask_of(divisor: u16) -> Option<u8>
    ensures { result ≡ masks.mask_of divisor }
{
    match divisor {
        2 => Some(1),
        4 => Some(3),
        8 => Some(7),
        16 => Some(15),
        32 => Some(31),
        64 => Some(63),
        128 => Some(127),
        256 => Some(255),
        _ => None,
    }
}

// For a divisor that is such a power, the bits that its multiples don't have.
fn mask(divisor: Source) -> Option<u8>
    ensures { result ≡ masks.mask divisor }
{
    match divisor {
        Source::FixedWord(word) => mask_of(word),
        Source::AtAddress(_) => None,
    }
}

// These bits of a word.
fn put_lowest_bits(items: &mut Vec<Item>, bits: u8, word: Source) -> Result<(), AllocError>
    ensures { Puts result items.old items.new (masks.lowest_bits bits word) }
{
    put_low(items, Mnemonic::Lda, word)?;
    put_const(items, Mnemonic::And, bits)
}

// The size of a division's remainder.
fn put_told(items: &mut Vec<Item>) -> Result<(), AllocError>
    ensures { Puts result items.old items.new groups.told }
{
    put_call(items, Routine::Divide)?;
    put_at(items, Mnemonic::Lda, RESULT)?;
    put_at(items, Mnemonic::Ora, RESULT + 1)
}

// The size of the remainder of a word divided by another one.
fn put_remainder(items: &mut Vec<Item>, words: Words) -> Result<(), AllocError>
    requires { AreWhole words }
    ensures { Puts result items.old items.new (groups.remainder words.left words.right) }
{
    put_brought(items, words.left, LEFT)?;
    put_brought(items, words.right, RIGHT)?;
    put_told(items)?;
    Ok(())
}

// The remainder in a line.
fn put_remainder_in(items: &mut Vec<Item>, line: u16, words: Words) -> Result<(), AllocError>
    requires { AreWhole words }
    ensures { Puts result items.old items.new (groups.lined (groups.may_be_zero words.right) line
        (groups.remainder words.left words.right)) }
{
    put_lined(items, may_be_zero(words.right), line)?;
    put_remainder(items, words)?;
    Ok(())
}

// The remainder of a word by a divisor, or its lowest bits, as a test needs it.
fn put_left_over(items: &mut Vec<Item>, line: u16, words: Words) -> Result<(), AllocError>
    requires { AreWhole words }
    ensures { Puts result items.old items.new (groups.left_over line (masks.mask words.right) words.left words.right) }
{
    match mask(words.right) {
        Some(bits) => put_lowest_bits(items, bits, words.left),
        None => put_remainder_in(items, line, words),
    }
}

// The branch that leaves unless a word is what is asked for.
fn unless(how: Divisibility) -> Mnemonic
    ensures { result ≡ groups.unless (divisibility_of how) }
{
    match how {
        Divisibility::Divisible => Mnemonic::Bne,
        Divisibility::Indivisible => Mnemonic::Beq,
    }
}

// The other question.
fn contrary(how: Divisibility) -> Divisibility
    ensures { divisibility_of result ≡ selection.contrary (divisibility_of how) }
{
    match how {
        Divisibility::Divisible => Divisibility::Indivisible,
        Divisibility::Indivisible => Divisibility::Divisible,
    }
}

// Leaves a line unless a word is a multiple of a divisor, or unless it is not.
fn put_divided_by(
    items: &mut Vec<Item>,
    line: u16,
    how: Divisibility,
    words: Words,
    next: Target,
) -> Result<(), AllocError>
    requires { AreWhole words }
    ensures { Puts result items.old items.new (groups.divided_by line (divisibility_of how) words.left words.right next) }
{
    put_left_over(items, line, words)?;
    put_branch(items, unless(how), next)?;
    Ok(())
}

// Leaves a line by whether a word is a multiple of a divisor, and then a fault for lack of a line.
fn put_divided_lost(
    items: &mut Vec<Item>,
    spot: Spot,
    how: Divisibility,
    words: Words,
) -> Result<(), AllocError>
    requires { AreWhole words }
    ensures { Puts result items.old items.new (groups.divided_by spot.line (divisibility_of how) words.left
        words.right spot.next ++ templates.faulted spot.line 1) }
{
    put_divided_by(items, spot.line, how, words, spot.next)?;
    put_faulted(items, spot.line, NO_LINE)?;
    Ok(())
}

// Goes straight to a line if a word is what is asked for. If there is no such line, it is fault 1.
fn put_divided_gone(
    items: &mut Vec<Item>,
    numbers: &[u16],
    spot: Spot,
    how: Divisibility,
    words: Words,
    to: u16,
) -> Result<(), AllocError>
    requires rising { Rises 0 65536 numbers.now }
    requires whole { AreWhole words }
    ensures { Puts result items.old items.new (groups.divided_gone spot.line (divisibility_of how) words.left
        words.right spot.next (has_line numbers.now to) to) }
{
    if has_number(numbers, to) {
        let line = Target::Line(to);
        put_divided_by(items, spot.line, contrary(how), words, line)
    } else {
        put_divided_lost(items, spot, how, words)
    }
}

/// A test whether a divisor divides a word, which leads to a line if `to` names one.
pub fn put_divides(
    items: &mut Vec<Item>,
    numbers: &[u16],
    spot: Spot,
    how: Divisibility,
    words: Words,
    to: Option<u16>,
) -> Result<(), AllocError>
    requires rising { Rises 0 65536 numbers.now }
    requires next { spot.next ≡ templates.next_line numbers.now spot.line }
    requires whole { AreWhole words }
    ensures { Puts result items.old items.new (groups.divides numbers.now spot.line (divisibility_of how) words.left words.right to) }
{
    match to {
        Some(to) => put_divided_gone(items, numbers, spot, how, words, to),
        None => put_divided_by(items, spot.line, how, words, spot.next),
    }
}

// The routine divides a word by another one.
fn put_called(items: &mut Vec<Item>, words: Words) -> Result<(), AllocError>
    requires { AreWhole words }
    ensures { Puts result items.old items.new (groups.brought words.left kept.LEFT
        ++ (groups.brought words.right kept.RIGHT ++ (templates.call places.DIVIDE_AT ∷ []))) }
{
    put_brought(items, words.left, LEFT)?;
    put_brought(items, words.right, RIGHT)?;
    put_call(items, Routine::Divide)?;
    Ok(())
}

// The routine divides a word by another one in a line: it leaves the remainder's size.
fn put_asked_rest(items: &mut Vec<Item>, line: u16, words: Words) -> Result<(), AllocError>
    requires { AreWhole words }
    ensures { Puts result items.old items.new (groups.asked_rest line words.left words.right) }
{
    put_lined(items, may_be_zero(words.right), line)?;
    put_tried(items, words)?;
    put_called(items, words)?;
    Ok(())
}

// The remainder is negated, for a word below 0 that was divided.
fn put_rest_taken(items: &mut Vec<Item>) -> Result<(), AllocError>
    ensures { Puts result items.old items.new (groups.taken (sources.FixedWord 0) (sources.AtAddress kept.RESULT) kept.RESULT) }
{
    put_taken(items, against_none(Source::AtAddress(RESULT)), RESULT)
}

// A remainder's size goes to an address with the sign of the word that was divided.
fn put_signed_rest(
    items: &mut Vec<Item>,
    skip: Target,
    word: Source,
    to: u16,
) -> Result<(), AllocError>
    requires { IsWhole word × (to < 65535) }
    ensures { Puts result items.old items.new (groups.signed_rest skip word to) }
{
    put_high(items, Mnemonic::Lda, word)?;
    put_branch(items, Mnemonic::Bpl, skip)?;
    put_rest_taken(items)?;
    put_here(items, skip)?;
    put_copied(items, RESULT, to)?;
    Ok(())
}

// A remainder that the routine leaves goes to an address, with the sign of the word that was divided.
fn put_routine_rest(
    items: &mut Vec<Item>,
    spot: Spot,
    words: Words,
    to: u16,
) -> Result<(), AllocError>
    requires { AreWhole words × (to < 65535) }
    ensures { Puts result items.old items.new (groups.asked_rest spot.line words.left words.right
        ++ groups.signed_rest (Inside Skip spot.line spot.index) words.left to) }
{
    put_asked_rest(items, spot.line, words)?;
    put_signed_rest(items, spot.skip(), words.left, to)?;
    Ok(())
}

// These bits of a word in A and 0 in X; N tells its sign.
fn put_rest_and_sign(items: &mut Vec<Item>, bits: u8, word: Source) -> Result<(), AllocError>
    requires { IsWhole word }
    ensures { Puts result items.old items.new (masks.rest_and_sign bits word) }
{
    put_low(items, Mnemonic::Lda, word)?;
    put_const(items, Mnemonic::And, bits)?;
    put_const(items, Mnemonic::Ldx, 0)?;
    put_high(items, Mnemonic::Ldy, word)
}

// The multiple above a word below 0 is taken away from what these bits of the word are above the one below it.
fn put_rest_below(items: &mut Vec<Item>, bits: u8) -> Result<(), AllocError>
    ensures { Puts result items.old items.new (masks.rest_below bits) }
{
    put_alone(items, Mnemonic::Clc)?;
    put_const(items, Mnemonic::Adc, bits)?;
    put_const(items, Mnemonic::And, bits)?;
    put_alone(items, Mnemonic::Sec)?;
    put_const(items, Mnemonic::Sbc, bits)?;
    put_alone(items, Mnemonic::Tay)?;
    put_const(items, Mnemonic::Lda, 0)?;
    put_const(items, Mnemonic::Sbc, 0)?;
    put_alone(items, Mnemonic::Tax)?;
    put_alone(items, Mnemonic::Tya)
}

// The remainder of a word by a power of two, with that word's sign.
fn put_masked_rest(
    items: &mut Vec<Item>,
    bits: u8,
    skip: Target,
    word: Source,
    to: u16,
) -> Result<(), AllocError>
    requires { IsWhole word × (to < 65535) }
    ensures { Puts result items.old items.new (masks.masked_rest bits skip word to) }
{
    put_rest_and_sign(items, bits, word)?;
    put_branch(items, Mnemonic::Bpl, skip)?;
    put_rest_below(items, bits)?;
    put_here(items, skip)?;
    put_both_stored(items, to)?;
    Ok(())
}

// The remainder by another divisor than a power of two up to 256.
fn put_other_rest(
    items: &mut Vec<Item>,
    spot: Spot,
    words: Words,
    to: u16,
) -> Result<(), AllocError>
    requires { AreWhole words × (to < 65535) }
    ensures { Puts result items.old items.new (groups.other_rest spot.line (reduced.doublings words.right)
        (Inside Skip spot.line spot.index) words.left words.right to) }
{
    match doublings(words.right) {
        Some((count, divisor)) => put_reduced_rest(items, count, divisor, words.left, to),
        None => put_routine_rest(items, spot, words, to),
    }
}

/// The remainder of a word by a divisor, with that word's sign.
pub fn put_remains(
    items: &mut Vec<Item>,
    spot: Spot,
    words: Words,
    to: u16,
) -> Result<(), AllocError>
    requires { AreWhole words × (to < 65535) }
    ensures { Puts result items.old items.new (groups.remains spot.line (Inside Skip spot.line spot.index) words.left words.right to) }
{
    match mask(words.right) {
        Some(bits) => put_masked_rest(items, bits, spot.skip(), words.left, to),
        None => put_other_rest(items, spot, words, to),
    }
}
