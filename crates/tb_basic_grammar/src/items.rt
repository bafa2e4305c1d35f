//! The lists of PRINT and INPUT.
ghost use Rattle.std.specs.Prelude.{◌≡◌, ℕ, List, Option, Some, None, true};
ghost use Rattle.tb_basic_grammar.specs.StatementReading.{text_item_at, item_at, print_at, input_at};
ghost use Rattle.tb_basic_grammar.specs.ReadValues.{item_seen, told, Gives};

use crate::expressions::{behind, leading, split_letter};
use crate::read_error::{ReadError, left_at};
use crate::statements::ReadStatement;
use std::alloc::Global;
use tb_basic_syntax::{PrintItem, Statement};

/// An item of PRINT at the front of a text, and what is left after it.
#[derive(Drop)]
pub(crate) struct FrontItem<'a> {
    pub(crate) item: PrintItem,
    pub(crate) large: Option<usize>,
    pub(crate) rest: &'a [u8],
}

// A text after its first quote.
fn quotation(alloc: Global, inside: &[u8]) -> Result<FrontItem<'_>, ReadError>
    ensures { Gives item_seen result (text_item_at inside.now) }
{
    let mut bytes = Vec::new(alloc);
    let mut rest = inside;
    while let [byte, tail @ ..] = rest {
        if *byte == b'"' {
            return Ok(FrontItem {
                item: PrintItem::Text(bytes),
                large: None,
                rest: tail,
            });
        }
        bytes.push(*byte)?;
        rest = tail;
    }
    Err(ReadError::NoReading(0))
}

#[tactic(auto, unfolding(crate::specs::StatementReading::item_at))]
fn item(alloc: Global, text: &[u8]) -> Result<FrontItem<'_>, ReadError>
    ensures { Gives item_seen result (item_at text.now) }
{
    match text {
        [b'"', inside @ ..] => quotation(alloc, inside),
        _ => {
            let value = leading(alloc, text)?;
            Ok(FrontItem {
                item: PrintItem::Value(value.expr),
                large: value.large,
                rest: value.rest,
            })
        }
    }
}

/// PRINT after its word.
#[tactic(auto, unfolding(crate::specs::StatementReading::print_at))]
pub(crate) fn print(alloc: Global, text: &[u8]) -> Result<ReadStatement, ReadError>
    ensures { Gives told result (print_at text.now) }
{
    let mut items = Vec::new(alloc);
    let mut large = None;
    let mut ends_line = true;
    let mut rest = text;
    while !rest.is_empty() {
        let found = item(alloc, rest)?;
        items.push(found.item)?;
        large = large.or(found.large);
        ends_line = found.rest.is_empty();
        rest = if ends_line {
            found.rest
        } else if let Some(others) = behind(b',', found.rest) {
            items.push(PrintItem::Zone)?;
            others
        } else if let Some(others) = behind(b';', found.rest) {
            others
        } else {
            return Err(ReadError::NoReading(left_at(found.rest)));
        };
    }
    Ok(ReadStatement {
        statement: Statement::Print(items, ends_line),
        large,
    })
}

// What is left after the variable at the front, or the whole text if there is none; RND is one word here.
pub(crate) fn behind_variable(text: &[u8]) -> &[u8] {
    match text {
        [b'R', b'N', b'D', ..] => text,
        [b'A'..=b'Z', rest @ ..] => rest,
        _ => text,
    }
}

/// INPUT after its word.
#[tactic(auto, unfolding(crate::specs::StatementReading::input_at))]
pub(crate) fn input(alloc: Global, text: &[u8]) -> Result<ReadStatement, ReadError>
    ensures { Gives told result (input_at text.now) }
{
    let mut letters = Vec::new(alloc);
    let mut rest = text;
    while let Some((letter, others)) = split_letter(rest) {
        letters.push(letter)?;
        if others.is_empty() {
            return Ok(ReadStatement {
                statement: Statement::Input(letters),
                large: None,
            });
        }
        match behind(b',', others) {
            Some(after) => rest = after,
            None => break,
        }
    }
    Err(ReadError::NoReading(left_at(behind_variable(rest))))
}
