//! Lines with their statements, as they were written.
ghost use Rattle.std.specs.Prelude.{◌≡◌, IfOk, map};
ghost use Rattle.tb_engine_profile_table.specs.Lines.{line_pair, stated, stated_in};
ghost use Rattle.tb_basic_source.specs.Lines.{pair_of};

use crate::rows::Row;
use std::alloc::{AllocError, Global};
use tb_basic_source::{Numbered, behind_number, numbered_lines, text_of};

/// What a line took, and the text after its number.
#[derive(Clone, Copy, Drop)]
pub struct Line<'a> {
    pub row: Row,
    pub statement: &'a [u8],
}

/// The rows with the statements of their lines in the source; if two lines have one number, the last one counts. Fails
/// only if memory runs out.
pub fn lines_of<'a>(
    alloc: Global,
    source: &'a [u8],
    rows: &[Row],
) -> Result<Vec<Line<'a>>, AllocError>
    ensures { IfOk result (λ lines. map line_pair lines.items ≡ stated source.now rows.now) }
{
    let written = numbered_lines(alloc, source)?;
    stated_in(alloc, &written, rows)
}

// The rows with the statements of their lines, where the source is already split into numbers and texts.
fn stated_in<'a>(
    alloc: Global,
    written: &[Numbered<'a>],
    rows: &[Row],
) -> Result<Vec<Line<'a>>, AllocError>
    ensures { IfOk result (λ lines. map line_pair lines.items ≡ stated_in (map pair_of written.now) rows.now) }
{
    let mut lines = Vec::new(alloc);
    for row in rows {
        lines.push(Line {
            row: *row,
            statement: behind_number(text_of(written, row.line)),
        })?;
    }
    Ok(lines)
}
