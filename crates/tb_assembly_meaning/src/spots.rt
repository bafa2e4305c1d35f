//! Where a statement lies.
ghost use Rattle.std.specs.Prelude.{◌≡◌, ◌≤◌, ◌+◌, ◌*◌, length, map};
ghost use Rattle.tb_assembly_text.specs.Lists.{content_of};
ghost use Rattle.tb_assembly_text.specs.Expressions.{sum_of};
ghost use Rattle.tb_assembly_text.specs.Operands.{form_of};
ghost use Rattle.tb_assembly_text.specs.Statements.{said_of};
ghost use Rattle.tb_assembly_meaning.specs.Names.{named};
ghost use Rattle.tb_assembly_meaning.specs.Places.{capped, content_size, data_size, ended, fill_spot, align_spot, fresh_name, here_at, instruction_spot, layout_of, located, not_yet, origin_spot, spot_of, value_at};
ghost use Rattle.tb_assembly_meaning.specs.Answers.{Answers, Finds};

use crate::bytes::{address_of, count_of, multiple_of, padding};
use crate::faults::{MeaningError, Wrong, bad};
use crate::modes::{has, mode_of, size_in};
use crate::symbols::{Symbols, symbol};
use crate::values::value;
use std::alloc::Global;
use tb_assembly_text::{Clause, Datum, Expression, Name, Shape, Statement};
use tb_opcodes::{Mnemonic, Mode};

/// One past the last address.
pub const END: usize = 0x1_0000;

/// Where a statement lies, how many bytes it takes, and the mode of an instruction.
#[derive(Clone, Copy, PartialEq, Eq, Debug, Drop)]
pub struct Spot {
    pub at: usize,
    pub size: usize,
    pub mode: Mode,
}

/// What is known where a statement is read: what names stand for, where the image begins, the address that is reached, and
/// whether no byte is laid so far.
#[derive(Drop)]
pub struct Layout {
    pub symbols: Symbols,
    pub base: usize,
    pub at: usize,
    pub fresh: bool,
}

/// An address, 65,536 at most: no statement lies behind that.
pub fn capped(at: usize) -> usize
    ensures address { result ≡ capped at }
    ensures within { result ≤ 65536 }
{
    at.min(END)
}

/// An address as a value.
pub fn here_of(at: usize) -> i32
    ensures { result ≡ here_at at }
{
    capped(at) as i32
}

/// What is wrong stands at a column.
pub fn located<T>(column: usize, found: Result<T, Wrong>) -> Result<T, MeaningError>
    ensures { Answers (located column found) result }
{
    match found {
        Ok(value) => Ok(value),
        Err(wrong) => Err(bad(column, wrong)),
    }
}

fn content_size(datum: &Datum) -> usize
    ensures { result ≡ content_size (content_of datum.now) }
{
    match datum {
        Datum::Value(_) => 1,
        Datum::Text(text) => text.len(),
    }
}

// How many bytes data take.
fn data_size(list: &[Datum]) -> Result<usize, MeaningError>
    ensures { Finds (data_size (map content_of list.now)) result }
{
    let mut size = 0usize;
    for datum in list {
        match size.checked_add(content_size(datum)) {
            Some(sum) => size = sum,
            None => return Err(MeaningError::NoMemory),
        }
    }
    Ok(size)
}

// How many bytes n words take.
fn words_size(count: usize) -> Result<usize, MeaningError>
    ensures { Finds (2 * count) result }
{
    match count.checked_mul(2) {
        Some(size) => Ok(size),
        None => Err(MeaningError::NoMemory),
    }
}

// n bytes from an address on, unless they end too far.
fn ended(column: usize, at: usize, size: usize, mode: Mode) -> Result<Spot, MeaningError>
    requires { at ≤ 65536 }
    ensures { Answers (ended column at size mode) result }
{
    if size > END - at {
        Err(bad(column, Wrong::PastEnd))
    } else {
        Ok(Spot { at, size, mode })
    }
}

// A name that no earlier statement has, at an address.
fn fresh_name(layout: &Layout, column: usize, name: &Name) -> Result<Spot, MeaningError>
    ensures { Answers (fresh_name (layout_of layout.now) column name.now.letters.items) result }
{
    match symbol(&layout.symbols, name) {
        Some(_) => Err(bad(column, Wrong::NameTwice)),
        None => Ok(Spot {
            at: layout.at,
            size: 0,
            mode: Mode::Implied,
        }),
    }
}

// What is wrong with a value that is needed before all names are read.
fn not_yet(wrong: Wrong) -> Wrong
    ensures { result ≡ not_yet wrong }
{
    match wrong {
        Wrong::UnknownName => Wrong::NotYetKnown,
        other => other,
    }
}

// The value of an expression where it is read.
fn value_at(alloc: Global, layout: &Layout, expression: &Expression) -> Result<i32, MeaningError>
    requires { layout.now.at ≤ 65536 }
    ensures { Answers (value_at (layout_of layout.now) (sum_of expression.now)) result }
{
    match value(alloc, &layout.symbols, here_of(layout.at), expression) {
        Ok(number) => Ok(number),
        Err(MeaningError::Bad(fault)) => Err(bad(fault.column, not_yet(fault.wrong))),
        Err(MeaningError::NoMemory) => Err(MeaningError::NoMemory),
    }
}

// Where what follows is to lie.
fn origin_spot(
    alloc: Global,
    layout: &Layout,
    expression: &Expression,
) -> Result<Spot, MeaningError>
    requires { layout.now.at ≤ 65536 }
    ensures { Answers (origin_spot (layout_of layout.now) (sum_of expression.now)) result }
{
    let number = value_at(alloc, layout, expression)?;
    let address = usize::from(located(expression.column, address_of(number))?);
    let mode = Mode::Implied;
    if layout.fresh {
        Ok(Spot {
            at: address,
            size: 0,
            mode,
        })
    } else if address < layout.at {
        Err(bad(expression.column, Wrong::Backward))
    } else {
        Ok(Spot {
            at: layout.at,
            size: address - layout.at,
            mode,
        })
    }
}

fn instruction_spot(
    alloc: Global,
    layout: &Layout,
    column: usize,
    mnemonic: Mnemonic,
    shape: &Shape,
) -> Result<Spot, MeaningError>
    requires { layout.now.at ≤ 65536 }
    ensures { Answers (instruction_spot (layout_of layout.now) column mnemonic (form_of shape.now)) result }
{
    let mode = mode_of(alloc, &layout.symbols, here_of(layout.at), mnemonic, shape)?;
    if has(mnemonic, mode) {
        ended(column, layout.at, size_in(shape, mode), mode)
    } else {
        Err(bad(column, Wrong::NoSuchMode))
    }
}

fn fill_spot(
    alloc: Global,
    layout: &Layout,
    column: usize,
    count: &Expression,
) -> Result<Spot, MeaningError>
    requires { layout.now.at ≤ 65536 }
    ensures { Answers (fill_spot (layout_of layout.now) column (sum_of count.now)) result }
{
    let number = value_at(alloc, layout, count)?;
    let size = located(count.column, count_of(number))?;
    ended(column, layout.at, size, Mode::Implied)
}

fn align_spot(
    alloc: Global,
    layout: &Layout,
    column: usize,
    multiple: &Expression,
) -> Result<Spot, MeaningError>
    requires { layout.now.at ≤ 65536 }
    ensures { Answers (align_spot (layout_of layout.now) column (sum_of multiple.now)) result }
{
    let number = value_at(alloc, layout, multiple)?;
    let multiple = located(multiple.column, multiple_of(number))?;
    ended(
        column,
        layout.at,
        padding(layout.at, multiple),
        Mode::Implied,
    )
}

/// Where a statement lies.
pub fn spot_of(alloc: Global, layout: &Layout, statement: &Statement) -> Result<Spot, MeaningError>
    requires { layout.now.at ≤ 65536 }
    ensures { Answers (spot_of (layout_of layout.now) (said_of statement.now)) result }
{
    let column = statement.column;
    match &statement.clause {
        Clause::Label(name) | Clause::Assign(name, _) => fresh_name(layout, column, name),
        Clause::Origin(address) => origin_spot(alloc, layout, address),
        Clause::Instruction(mnemonic, shape) => {
            instruction_spot(alloc, layout, column, *mnemonic, shape)
        }
        Clause::Bytes(data) => ended(column, layout.at, data_size(data)?, Mode::Implied),
        Clause::Words(words) => {
            ended(column, layout.at, words_size(words.len())?, Mode::Implied)
        }
        Clause::Fill(count, _) => fill_spot(alloc, layout, column, count),
        Clause::Align(multiple) => align_spot(alloc, layout, column, multiple),
        Clause::Include(_) => Err(bad(column, Wrong::NotRead)),
    }
}
