//! Numbers and words in texts.
ghost use Rattle.std.specs.Prelude.{◌≡◌, ◌<◌, ◌^◌, IfOk, string_bytes};
ghost use Rattle.std.specs.Fmt.{decimal};
ghost use Rattle.tb_words.specs.Texts.{AppendsBytes};
ghost use Rattle.tb_engine_profile_table.specs.Figures.{digit_text, each, marked, percent, right, seconds, share, thousandths_of_second};

use std::alloc::{AllocError, Global};
use tb_basic_source::push_spaces;

/// The cycles of a second of a PAL machine.
pub const CYCLES_A_SECOND: u32 = 985_248;

/// Appends a number in decimal.
pub fn push_number(alloc: Global, text: &mut Vec<u8>, number: u128) -> Result<(), AllocError>
    ensures { AppendsBytes result text.old text.new (decimal number) }
{
    text.extend_from_slice(format!(in alloc; "{number}")?.as_bytes())
}

/// Appends a word, right-aligned in `columns` columns; a longer word takes as many as it has.
#[tactic(auto, unfolding(crate::specs::Figures::right))]
pub fn push_right(text: &mut Vec<u8>, columns: usize, word: &[u8]) -> Result<(), AllocError>
    ensures { AppendsBytes result text.old text.new (right columns word.now) }
{
    push_spaces(text, columns.saturating_sub(word.len()))?;
    text.extend_from_slice(word)
}

/// Appends a number in decimal, right-aligned in `columns` columns.
pub fn push_column(
    alloc: Global,
    text: &mut Vec<u8>,
    columns: usize,
    number: u128,
) -> Result<(), AllocError>
    ensures { AppendsBytes result text.old text.new (right columns (decimal number)) }
{
    push_right(text, columns, format!(in alloc; "{number}")?.as_bytes())
}

/// How many thousandths of all cycles these are, to the nearest; 0 if there are no cycles at all.
#[tactic(auto, unfolding(crate::specs::Figures::share))]
pub fn share(cycles: u64, all: u64) -> u128
    ensures value { result ≡ share cycles all }
    ensures few { result < 2 ^ 80 }
{
    if all == 0 {
        return 0;
    }
    (u128::from(cycles) * 1000 + u128::from(all / 2)) / u128::from(all)
}

/// The percentage that this many thousandths make, with one decimal digit and a `%`.
#[tactic(auto, unfolding(crate::specs::Figures::percent))]
pub fn percent(alloc: Global, thousandths: u128) -> Result<String, AllocError>
    ensures { IfOk result (λ text. string_bytes text ≡ percent thousandths) }
{
    let whole = thousandths / 10;
    let tenth = thousandths % 10;
    format!(in alloc; "{whole}.{tenth}%")
}

// Appends a digit, and a comma if groups of three digits are after it.
#[tactic(auto, unfolding(crate::specs::Figures::digit_text))]
fn push_digit(text: &mut Vec<u8>, digit: u8, after: usize) -> Result<(), AllocError>
    ensures { AppendsBytes result text.old text.new (digit_text digit after) }
{
    text.push(digit)?;
    if 0 < after && after % 3 == 0 {
        text.push(b',')?;
    }
    Ok(())
}

// Appends the digits of a number, its thousands marked.
fn push_marked(text: &mut Vec<u8>, digits: &[u8]) -> Result<(), AllocError>
    ensures { AppendsBytes result text.old text.new (marked digits.now) }
{
    match digits {
        [] => Ok(()),
        [digit, rest @ ..] => {
            push_digit(text, *digit, rest.len())?;
            push_marked(text, rest)
        }
    }
}

/// Appends a number in decimal, with a comma before each group of three digits that others come before.
pub fn push_grouped(alloc: Global, text: &mut Vec<u8>, number: u128) -> Result<(), AllocError>
    ensures { AppendsBytes result text.old text.new (marked (decimal number)) }
{
    push_marked(text, format!(in alloc; "{number}")?.as_bytes())
}

/// The cycles of each of so many times, to the nearest; 0 if there are none.
#[tactic(auto, unfolding(crate::specs::Figures::each))]
pub fn each(cycles: u64, times: u128) -> u128
    ensures { result ≡ each cycles times }
{
    if times == 0 {
        return 0;
    }
    (u128::from(cycles) + times / 2) / times
}

// How many thousandths of a second of a PAL machine these cycles take, to the nearest.
fn thousandths_of_second(cycles: u64) -> u128
    ensures { result ≡ thousandths_of_second cycles }
{
    (u128::from(cycles) * 1000 + u128::from(CYCLES_A_SECOND / 2)) / u128::from(CYCLES_A_SECOND)
}

/// Appends the seconds of a PAL machine that these cycles take, with three decimal digits.
#[tactic(auto, unfolding(crate::specs::Figures::seconds))]
pub fn push_seconds(alloc: Global, text: &mut Vec<u8>, cycles: u64) -> Result<(), AllocError>
    ensures { AppendsBytes result text.old text.new (seconds cycles) }
{
    let thousandths = thousandths_of_second(cycles);
    push_grouped(alloc, text, thousandths / 1000)?;
    text.extend_from_slice(b".")?;
    push_number(alloc, text, thousandths % 1000 / 100)?;
    push_number(alloc, text, thousandths % 100 / 10)?;
    push_number(alloc, text, thousandths % 10)
}
