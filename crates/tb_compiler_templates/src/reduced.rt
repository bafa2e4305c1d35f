//! Remainders by a constant: its multiples by powers of two are taken away, the largest first.
ghost use Rattle.std.specs.Prelude.{◌≡◌, ◌+◌, ◌*◌, ◌^◌, ◌<◌, IfSome, [], ◌∷◌};
ghost use Rattle.tb_compiler_templates.specs.Putting.{Puts};
ghost use Rattle.tb_compiler_templates.specs.Sources.{IsWhole};
ghost use Rattle.tb_compiler_templates.specs.Reduced as reduced;

use crate::pieces::{put, put_alone, put_both_stored, put_const};
use crate::sources::{Source, put_high, put_low};
use std::alloc::AllocError;
use tb_asm::{Item, Operand};
use tb_opcodes::{Mnemonic, Mode, encode};

// The first rounds are for multiples above 512, so a byte goes past them.
const FIRST_ROUNDS: u8 = 6;

// The bytes that the first rounds take, and what is done for a word below 0 before them.
const PAST_FIRST: u8 = 123;

// The bytes of what negates a word.
const NEGATED: u8 = 13;

// For a divisor below 1,024 that is no power of two, how often it is doubled to come above 512.
fn doublings_of(divisor: u16) -> Option<u8>
    ensures { result ≡ reduced.doublings_of divisor }
{
    match divisor {
        513..=1023 => Some(0),
        257..=511 => Some(1),
        129..=255 => Some(2),
        65..=127 => Some(3),
        33..=63 => Some(4),
        17..=31 => Some(5),
        9..=15 => Some(6),
        5..=7 => Some(7),
        3 => Some(8),
        _ => None,
    }
}

/// How often a divisor is doubled to come above 512, and the divisor, if it is a constant below 1,024 and no power of two.
pub fn doublings(divisor: Source) -> Option<(u8, u16)>
    ensures doublings { result ≡ reduced.doublings divisor }
    ensures small { IfSome result (λ it. it.1 * 2 ^ (it.0 + 6) < 65536) }
{
    match divisor {
        Source::FixedWord(word) => Some((doublings_of(word)?, word)),
        Source::AtAddress(_) => None,
    }
}

/// A branch over this many bytes.
pub fn put_over(items: &mut Vec<Item>, mnemonic: Mnemonic, bytes: u8) -> Result<(), AllocError>
    ensures { Puts result items.old items.new (reduced.over mnemonic bytes ∷ []) }
{
    let opcode = encode(mnemonic, Mode::Relative).unwrap_or(0);
    let both = u16::from(opcode) + 256 * u16::from(bytes);
    put(items, Item::Word(Operand::Word(both)))
}

// A multiple is taken away from a byte in A that is not below it.
fn put_byte_round(items: &mut Vec<Item>, multiple: u8) -> Result<(), AllocError>
    ensures { Puts result items.old items.new (reduced.byte_round multiple) }
{
    put_const(items, Mnemonic::Cmp, multiple)?;
    put_over(items, Mnemonic::Bcc, 2)?;
    put_const(items, Mnemonic::Sbc, multiple)
}

// A multiple is taken away from a word in A and X that is not below it.
fn put_word_round(items: &mut Vec<Item>, multiple: u16) -> Result<(), AllocError>
    ensures { Puts result items.old items.new (reduced.word_round multiple) }
{
    let low = (multiple % 256) as u8;
    let high = (multiple / 256) as u8;
    put_const(items, Mnemonic::Cpx, high)?;
    put_over(items, Mnemonic::Bcc, 14)?;
    put_over(items, Mnemonic::Bne, 4)?;
    put_const(items, Mnemonic::Cmp, low)?;
    put_over(items, Mnemonic::Bcc, 8)?;
    put_const(items, Mnemonic::Sbc, low)?;
    put_alone(items, Mnemonic::Tay)?;
    put_alone(items, Mnemonic::Txa)?;
    put_const(items, Mnemonic::Sbc, high)?;
    put_alone(items, Mnemonic::Tax)?;
    put_alone(items, Mnemonic::Tya)
}

// A round for a multiple: what is left before it is below twice that.
fn put_round(items: &mut Vec<Item>, multiple: u16) -> Result<(), AllocError>
    ensures { Puts result items.old items.new (reduced.round multiple) }
{
    if multiple < 128 {
        put_byte_round(items, multiple as u8)
    } else {
        put_word_round(items, multiple)
    }
}

// This many rounds, the last one for a multiple, each for half of what the one before it is for.
fn put_rounds(items: &mut Vec<Item>, count: u8, last: u16) -> Result<(), AllocError>
    requires { last * 2 ^ count < 65536 }
    ensures { Puts result items.old items.new (reduced.rounds count last) }
{
    if count == 0 {
        return Ok(());
    }
    put_rounds(items, count - 1, 2 * last)?;
    put_round(items, last)?;
    Ok(())
}

// The word in A and X is negated.
fn put_negated(items: &mut Vec<Item>) -> Result<(), AllocError>
    ensures { Puts result items.old items.new reduced.negated }
{
    put_const(items, Mnemonic::Eor, u8::MAX)?;
    put_alone(items, Mnemonic::Clc)?;
    put_const(items, Mnemonic::Adc, 1)?;
    put_alone(items, Mnemonic::Tay)?;
    put_alone(items, Mnemonic::Txa)?;
    put_const(items, Mnemonic::Eor, u8::MAX)?;
    put_const(items, Mnemonic::Adc, 0)?;
    put_alone(items, Mnemonic::Tax)?;
    put_alone(items, Mnemonic::Tya)
}

// A word's size goes to A and X; a byte goes past the first rounds.
fn put_size(items: &mut Vec<Item>, word: Source) -> Result<(), AllocError>
    requires { IsWhole word }
    ensures { Puts result items.old items.new (reduced.size_of_word word) }
{
    put_low(items, Mnemonic::Lda, word)?;
    put_high(items, Mnemonic::Ldx, word)?;
    put_over(items, Mnemonic::Beq, PAST_FIRST)?;
    put_over(items, Mnemonic::Bpl, NEGATED)?;
    put_negated(items)
}

// A size in A and X goes to an address, with the sign of a word.
fn put_with_sign(items: &mut Vec<Item>, word: Source, to: u16) -> Result<(), AllocError>
    requires { IsWhole word × (to < 65535) }
    ensures { Puts result items.old items.new (reduced.with_sign word to) }
{
    put_high(items, Mnemonic::Ldy, word)?;
    put_over(items, Mnemonic::Bpl, NEGATED)?;
    put_negated(items)?;
    put_both_stored(items, to)
}

/// The remainder of a word by a divisor that this many doublings bring above 512, with the word's sign.
pub fn put_reduced_rest(
    items: &mut Vec<Item>,
    count: u8,
    divisor: u16,
    word: Source,
    to: u16,
) -> Result<(), AllocError>
    requires small { divisor * 2 ^ (count + 6) < 65536 }
    requires few { count < 9 }
    requires whole { IsWhole word × (to < 65535) }
    ensures { Puts result items.old items.new (reduced.reduced_rest count divisor word to) }
{
    put_size(items, word)?;
    put_rounds(items, count + FIRST_ROUNDS, divisor)?;
    put_with_sign(items, word, to)
}
