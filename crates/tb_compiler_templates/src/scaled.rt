//! Products with a constant and quotients over a power of two, by shifts and sums.
ghost use Rattle.std.specs.Prelude.{◌≡◌, ◌+◌, ◌<◌, IfSome, [], ◌∷◌};
ghost use Rattle.tb_compiled_kept.specs.Addresses as kept;
ghost use Rattle.tb_compiler_templates.specs.Putting.{Puts};
ghost use Rattle.tb_compiler_templates.specs.Sources.{IsWhole};
ghost use Rattle.tb_compiler_templates.specs.Scaled as scaled;

use crate::pieces::{put, put_alone, put_at, put_const};
use crate::sources::{Source, put_high, put_low};
use std::alloc::AllocError;
use tb_asm::{Item, Operand};
use tb_compiled_kept::LEFT;
use tb_opcodes::{Mnemonic, Mode};

// The most bytes that the bits of a factor may take.
const MOST_FOR_BITS: u16 = 60;

/// A word's sign bit in its high byte.
pub const SIGN: u8 = 128;

/// An instruction on A.
pub fn put_on_a(items: &mut Vec<Item>, mnemonic: Mnemonic) -> Result<(), AllocError>
    ensures { Puts result items.old items.new (scaled.on_a mnemonic ∷ []) }
{
    put(
        items,
        Item::Instr(mnemonic, Mode::Accumulator, Operand::Nothing),
    )
}

// An instruction on the byte in LEFT.
fn put_at_left(items: &mut Vec<Item>, mnemonic: Mnemonic) -> Result<(), AllocError>
    ensures { Puts result items.old items.new (scaled.at_zero mnemonic kept.LEFT ∷ []) }
{
    put(
        items,
        Item::Instr(mnemonic, Mode::ZeroPage, Operand::Byte(LEFT as u8)),
    )
}

// How many times more than once a word is halved, if this divisor is a power of two from 2 to 256.
fn shifts_of(divisor: u16) -> Option<u8>
    ensures shifts { result ≡ scaled.shifts_of divisor }
    ensures few { IfSome result (λ more. more < 8) }
{
    match divisor {
        2 => Some(0),
        4 => Some(1),
        8 => Some(2),
        16 => Some(3),
        32 => Some(4),
        64 => Some(5),
        128 => Some(6),
        256 => Some(7),
        _ => None,
    }
}

/// For a divisor that is the constant 2^(k + 1) from 2 to 256, k, 0 to 7: shifts are worth it then.
pub fn shifts(divisor: Source) -> Option<u8>
    ensures shifts { result ≡ scaled.shifts divisor }
    ensures few { IfSome result (λ more. more < 8) }
{
    match divisor {
        Source::FixedWord(word) => shifts_of(word),
        Source::AtAddress(_) => None,
    }
}

// The bits that rounding adds to a word, but for the lowest one.
#[tactic(auto, using(crate::proofs::Bits::lowest_taken))]
fn all_but_lowest(more: u8) -> u8
    requires { more < 8 }
    ensures { result ≡ scaled.all_but_lowest more }
{
    2 * ((1 << more) - 1)
}

// The low byte of a word, and what rounds it up if C is set.
fn put_rounded(items: &mut Vec<Item>, more: u8, word: Source) -> Result<(), AllocError>
    requires { more < 8 }
    ensures { Puts result items.old items.new (scaled.rounded more word) }
{
    if more == 0 {
        put_low(items, Mnemonic::Lda, word)?;
        return put_const(items, Mnemonic::Adc, 0);
    }
    let mask = all_but_lowest(more);
    put_const(items, Mnemonic::Lda, 0)?;
    put_const(items, Mnemonic::Adc, u8::MAX)?;
    put_const(items, Mnemonic::And, mask)?;
    put_const(items, Mnemonic::Eor, mask)?;
    put_low(items, Mnemonic::Adc, word)
}

// A word, rounded up if it is negative.
fn put_raised(items: &mut Vec<Item>, more: u8, word: Source) -> Result<(), AllocError>
    requires more { more < 8 }
    requires whole { IsWhole word }
    ensures { Puts result items.old items.new (scaled.raised more word) }
{
    put_high(items, Mnemonic::Lda, word)?;
    put_const(items, Mnemonic::Cmp, SIGN)?;
    put_rounded(items, more, word)?;
    put_at_left(items, Mnemonic::Sta)?;
    put_high(items, Mnemonic::Lda, word)?;
    put_const(items, Mnemonic::Adc, 0)
}

// A word is shifted to the right, its sign kept.
fn put_halved(items: &mut Vec<Item>) -> Result<(), AllocError>
    ensures { Puts result items.old items.new scaled.halved }
{
    put_const(items, Mnemonic::Cmp, SIGN)?;
    put_on_a(items, Mnemonic::Ror)?;
    put_at_left(items, Mnemonic::Ror)
}

// A word is shifted this many times.
fn put_halvings(items: &mut Vec<Item>, count: u8) -> Result<(), AllocError>
    ensures { Puts result items.old items.new (scaled.halvings count) }
{
    for _ in 0..count {
        put_halved(items)?;
    }
    Ok(())
}

// The word whose high byte is in A is stored at its address.
fn put_high_first(items: &mut Vec<Item>, to: u16) -> Result<(), AllocError>
    requires { to < 65535 }
    ensures { Puts result items.old items.new (scaled.high_first to) }
{
    put_at(items, Mnemonic::Sta, to + 1)?;
    put_at_left(items, Mnemonic::Lda)?;
    put_at(items, Mnemonic::Sta, to)
}

// Of a word over 128 or 256, the quotient's low byte goes to A, its sign to C.
fn put_cut(items: &mut Vec<Item>, more: u8) -> Result<(), AllocError>
    ensures { Puts result items.old items.new (scaled.cut more) }
{
    if more != 6 {
        return put_const(items, Mnemonic::Cmp, SIGN);
    }
    put_at_left(items, Mnemonic::Asl)?;
    put_on_a(items, Mnemonic::Rol)
}

// The byte in A is stored as a word whose sign is in C.
fn put_widened(items: &mut Vec<Item>, to: u16) -> Result<(), AllocError>
    requires { to < 65535 }
    ensures { Puts result items.old items.new (scaled.widened to) }
{
    put_at(items, Mnemonic::Sta, to)?;
    put_const(items, Mnemonic::Lda, 0)?;
    put_const(items, Mnemonic::Adc, u8::MAX)?;
    put_const(items, Mnemonic::Eor, u8::MAX)?;
    put_at(items, Mnemonic::Sta, to + 1)
}

// The quotient of a raised word is stored.
fn put_lowered(items: &mut Vec<Item>, more: u8, to: u16) -> Result<(), AllocError>
    requires { (more < 8) × (to < 65535) }
    ensures { Puts result items.old items.new (scaled.lowered more to) }
{
    if more < 6 {
        put_halvings(items, more + 1)?;
        return put_high_first(items, to);
    }
    put_cut(items, more)?;
    put_widened(items, to)
}

/// A word over 2^(k + 1), truncated toward zero.
pub fn put_shifted(items: &mut Vec<Item>, more: u8, word: Source, to: u16) -> Result<(), AllocError>
    requires more { more < 8 }
    requires whole { IsWhole word × (to < 65535) }
    ensures { Puts result items.old items.new (scaled.shifted more word to) }
{
    put_raised(items, more, word)?;
    put_lowered(items, more, to)
}

// Twice the product so far.
fn put_doubled(items: &mut Vec<Item>) -> Result<(), AllocError>
    ensures { Puts result items.old items.new scaled.doubled }
{
    put_on_a(items, Mnemonic::Asl)?;
    put_at_left(items, Mnemonic::Rol)
}

// The product so far and a word more.
fn put_increased(items: &mut Vec<Item>, word: Source) -> Result<(), AllocError>
    requires { IsWhole word }
    ensures { Puts result items.old items.new (scaled.increased word) }
{
    put_alone(items, Mnemonic::Clc)?;
    put_low(items, Mnemonic::Adc, word)?;
    put_alone(items, Mnemonic::Tax)?;
    put_at_left(items, Mnemonic::Lda)?;
    put_high(items, Mnemonic::Adc, word)?;
    put_at_left(items, Mnemonic::Sta)?;
    put_alone(items, Mnemonic::Txa)
}

// The product so far, on by one bit of the factor.
fn put_by_bit(items: &mut Vec<Item>, bit: bool, word: Source) -> Result<(), AllocError>
    requires { IsWhole word }
    ensures { Puts result items.old items.new (scaled.by_bit bit word) }
{
    put_doubled(items)?;
    if bit {
        put_increased(items, word)?;
    }
    Ok(())
}

// The product by the bits of a factor below its highest one.
fn put_by_bits(items: &mut Vec<Item>, factor: u16, word: Source) -> Result<(), AllocError>
    requires { IsWhole word }
    ensures { Puts result items.old items.new (scaled.by_bits 15 factor word) }
{
    if factor < 2 {
        return Ok(());
    }
    put_by_bits(items, factor / 2, word)?;
    put_by_bit(items, factor % 2 == 1, word)
}

// The number of bytes that the bits of a factor take at most.
#[tactic(auto, using(crate::proofs::Bits::few_bytes, crate::proofs::Bits::half_size))]
fn bits_size(factor: u16) -> u16
    ensures size { result ≡ scaled.bits_size 15 factor }
{
    if factor < 2 {
        return 0;
    }
    bits_size(factor / 2) + if factor % 2 == 1 { 16 } else { 3 }
}

// A factor that is worth it, and the other word.
fn with_factor(factor: u16, word: Source) -> Option<(u16, Source)>
    ensures { result ≡ scaled.with_factor factor word }
{
    (factor >= 2 && bits_size(factor) <= MOST_FOR_BITS).then_some((factor, word))
}

/// The constant of a product that is multiplied by its bits, and the other word.
pub fn scaling(left: Source, right: Source) -> Option<(u16, Source)>
    ensures { result ≡ scaled.scaling left right }
{
    match (left, right) {
        (_, Source::FixedWord(factor)) => with_factor(factor, left),
        (Source::FixedWord(factor), Source::AtAddress(_)) => with_factor(factor, right),
        _ => None,
    }
}

// The word whose low byte is in A is stored at its address.
fn put_low_first(items: &mut Vec<Item>, to: u16) -> Result<(), AllocError>
    requires { to < 65535 }
    ensures { Puts result items.old items.new (scaled.low_first to) }
{
    put_at(items, Mnemonic::Sta, to)?;
    put_at_left(items, Mnemonic::Lda)?;
    put_at(items, Mnemonic::Sta, to + 1)
}

/// A word times a factor.
pub fn put_times(
    items: &mut Vec<Item>,
    factor: u16,
    word: Source,
    to: u16,
) -> Result<(), AllocError>
    requires { IsWhole word × (to < 65535) }
    ensures { Puts result items.old items.new (scaled.times factor word to) }
{
    put_high(items, Mnemonic::Lda, word)?;
    put_at_left(items, Mnemonic::Sta)?;
    put_low(items, Mnemonic::Lda, word)?;
    put_by_bits(items, factor, word)?;
    put_low_first(items, to)
}
