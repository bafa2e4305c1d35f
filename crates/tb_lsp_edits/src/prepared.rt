//! What can be renamed at a place.
ghost use Rattle.std.specs.Prelude.{◌≡◌, ◌∷◌, [], IfOk};
ghost use Rattle.serde_json.specs.View.{view};
ghost use Rattle.tb_lsp_edits.specs.Rename as spec;

use crate::renaming::spelled;
use serde_json::{Value, json};
use std::alloc::{AllocError, Global};
use tb_basic_names::{Line, Name, Source, name_in, touched_at};
use tb_basic_places::{Span, piece};
use tb_editor_values::range_value;

/// A variable of a text.
#[derive(Clone, Copy, Drop)]
pub struct Named {
    /// Its capital letter.
    pub letter: u8,
    pub span: Span,
}

// The variable that a token is, of a line of the file that is counted from 1.
fn variable_in(file_line: usize, line: &Line<'_>, index: usize) -> Option<Named>
    ensures { result ≡ spec.variable_in file_line line.now index }
{
    let token = line.tokens.get(index)?;
    match name_in(line, index)? {
        Name::Variable(letter) => {
            let start = token.column.saturating_sub(1);
            Some(Named {
                letter,
                span: piece(file_line, line.text, start, 1),
            })
        }
        Name::Line(_) => None,
    }
}

// The variable at a place.
fn variable_at(source: &Source<'_>, line: usize, character: usize) -> Option<Named>
    ensures { result ≡ spec.variable_at line character source.now.lines.items }
{
    let index = touched_at(source, line, character)?;
    let found = source.lines.get(line)?;
    variable_in(line + 1, found, index)
}

/// The place and the letter of the variable at a place; null where there is none.
pub fn prepare(
    alloc: Global,
    source: &Source<'_>,
    line: usize,
    character: usize,
) -> Result<Value, AllocError>
    ensures { IfOk result (λ v. view v ≡ spec.prepared line character source.now.lines.items) }
{
    let Some(found) = variable_at(source, line, character) else {
        return Ok(Value::Null);
    };
    let letter = [found.letter];
    let placeholder = spelled(&letter);
    let range = range_value(alloc, found.span)?;
    json!(in alloc; {"placeholder": placeholder, "range": range})
}
