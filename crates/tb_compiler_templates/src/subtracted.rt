//! Remainders of bytes by bytes that they have at most four times, by differences.
ghost use Rattle.std.specs.Prelude.{◌≡◌, ◌+◌, ◌<◌, [], ◌∷◌, ◌++◌};
ghost use Rattle.tb_compiler_templates.specs.Putting.{Puts};
ghost use Rattle.tb_compiler_templates.specs.Sources.{AreWhole};
ghost use Rattle.tb_compiler_templates.specs.Subtracted as subtracted;

use crate::pieces::{put_at, put_const};
use crate::reduced::put_over;
use crate::sources::{Source, Words};
use std::alloc::AllocError;
use tb_asm::Item;
use tb_compiled_kept::RESULT;
use tb_opcodes::Mnemonic;

// The byte at an address is taken away from A; if A is below it, that is left out with some bytes more.
fn put_less_once(items: &mut Vec<Item>, place: u16, more: u8) -> Result<(), AllocError>
    ensures { Puts result items.old items.new (subtracted.less_once place more) }
{
    put_at(items, Mnemonic::Cmp, place)?;
    put_over(items, Mnemonic::Bcc, more)?;
    put_at(items, Mnemonic::Sbc, place)
}

// Up to four differences.
fn put_differences(items: &mut Vec<Item>, place: u16) -> Result<(), AllocError>
    ensures { Puts result items.old items.new (subtracted.differences place) }
{
    put_less_once(items, place, 32)?;
    put_less_once(items, place, 24)?;
    put_less_once(items, place, 16)?;
    put_less_once(items, place, 8)?;
    Ok(())
}

// A is the remainder's size: the call of the routine is left out.
fn put_left_in_result(items: &mut Vec<Item>) -> Result<(), AllocError>
    ensures { Puts result items.old items.new subtracted.left_in_result }
{
    put_at(items, Mnemonic::Sta, RESULT)?;
    put_const(items, Mnemonic::Lda, 0)?;
    put_at(items, Mnemonic::Sta, RESULT + 1)?;
    put_over(items, Mnemonic::Beq, 23)
}

// Both words are bytes, and the divisor is not 0; then the dividend is in A.
fn put_bytes_asked(items: &mut Vec<Item>, dividend: u16, divisor: u16) -> Result<(), AllocError>
    requires { (dividend < 65535) × (divisor < 65535) }
    ensures { Puts result items.old items.new (subtracted.bytes_asked dividend divisor) }
{
    put_at(items, Mnemonic::Lda, dividend + 1)?;
    put_at(items, Mnemonic::Ora, divisor + 1)?;
    put_over(items, Mnemonic::Bne, 55)?;
    put_at(items, Mnemonic::Ldx, divisor)?;
    put_over(items, Mnemonic::Beq, 50)?;
    put_at(items, Mnemonic::Lda, dividend)
}

// If more than four differences are left, on to the call.
fn put_all_taken(items: &mut Vec<Item>, divisor: u16) -> Result<(), AllocError>
    ensures { Puts result items.old items.new (subtracted.all_taken divisor) }
{
    put_at(items, Mnemonic::Cmp, divisor)?;
    put_over(items, Mnemonic::Bcs, 10)?;
    put_left_in_result(items)
}

// The remainder of a byte by a byte.
fn put_subtracted(items: &mut Vec<Item>, dividend: u16, divisor: u16) -> Result<(), AllocError>
    requires { (dividend < 65535) × (divisor < 65535) }
    ensures { Puts result items.old items.new (subtracted.subtracted dividend divisor) }
{
    put_bytes_asked(items, dividend, divisor)?;
    put_differences(items, divisor)?;
    put_all_taken(items, divisor)?;
    Ok(())
}

/// The remainder of bytes by differences, before the call, if neither word is a constant.
pub fn put_tried(items: &mut Vec<Item>, words: Words) -> Result<(), AllocError>
    requires { AreWhole words }
    ensures { Puts result items.old items.new (subtracted.tried words.left words.right []) }
{
    match (words.left, words.right) {
        (Source::AtAddress(dividend), Source::AtAddress(divisor)) => {
            put_subtracted(items, dividend, divisor)
        }
        _ => Ok(()),
    }
}
