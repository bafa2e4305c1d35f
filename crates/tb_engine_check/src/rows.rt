//! Rows that show a line of a source, and a place in it.
ghost use Rattle.tb_words.specs.Texts.{AppendsBytes};
ghost use Rattle.tb_engine_check.specs.Rows.{caret_row, line_row};

use std::alloc::AllocError;
use tb_basic_source::{MOST_SHOWN, cut, push_shown, push_spaces};

/// The columns of a line's number.
const NUMBER_COLUMNS: usize = 5;

/// Appends a line of a source, with its number.
pub fn push_line(text: &mut Vec<u8>, number: &[u8], line: &[u8]) -> Result<(), AllocError>
    ensures { AppendsBytes result text.old text.new (line_row number.now line.now) }
{
    push_spaces(text, NUMBER_COLUMNS.saturating_sub(number.len()))?;
    text.extend_from_slice(number)?;
    text.extend_from_slice(b" | ")?;
    push_shown(text, cut(line))?;
    text.extend_from_slice(b"\n")
}

/// Appends a row with a caret under a column, from 1, of the line with this number, if that is under what is shown or
/// right after it.
pub fn push_caret(text: &mut Vec<u8>, number: &[u8], column: usize) -> Result<(), AllocError>
    ensures { AppendsBytes result text.old text.new (caret_row number.now column) }
{
    if column == 0 || MOST_SHOWN + 1 < column {
        return Ok(());
    }
    push_spaces(text, NUMBER_COLUMNS.max(number.len()))?;
    text.extend_from_slice(b" | ")?;
    push_spaces(text, column - 1)?;
    text.extend_from_slice(b"^\n")
}
