//! What a place of a source touches and names.
ghost use Rattle.std.specs.Prelude.{◌≡◌};
ghost use Rattle.tb_basic_names.specs.Touched as spec;

use crate::lines::Line;
use crate::names::{Name, name_in, touched};
use crate::sources::Source;
use tb_basic_places::place_at;

// Which token of a line the place before a column touches.
fn touched_in(line: &Line<'_>, character: usize) -> Option<usize>
    ensures { result ≡ spec.touched_in character line.now }
{
    touched(&line.tokens, place_at(line.text, character))
}

/// Which token of which line a place touches: line and column are counted from 0, the column in units of UTF-16.
pub fn touched_at(source: &Source<'_>, line: usize, character: usize) -> Option<usize>
    ensures { result ≡ spec.touched_at line character source.now.lines.items }
{
    touched_in(source.lines.get(line)?, character)
}

// What is named before a column of a line.
fn name_before(line: &Line<'_>, character: usize) -> Option<Name>
    ensures { result ≡ spec.name_before character line.now }
{
    let index = touched_in(line, character)?;
    name_in(line, index)
}

/// What a place names.
pub fn name_at(source: &Source<'_>, line: usize, character: usize) -> Option<Name>
    ensures { result ≡ spec.name_at line character source.now.lines.items }
{
    name_before(source.lines.get(line)?, character)
}
