//! A source: its lines, and which of them give the program its lines.
ghost use Rattle.std.specs.Prelude.{◌≡◌, ℕ, All, IfOk};
ghost use Rattle.std.specs.BTreeMap as tree;
ghost use Rattle.std.specs.Ordering.{nat_cmp};
ghost use Rattle.tb_basic_names.specs.Sources.{AreLinesOf, Gives, edits_of, joined, standing, stands};

use crate::lines::{Line, read_line};
use std::alloc::{AllocError, Global};
use std::collections::BTreeMap;
use tb_basic_text::{Notation, next_line};
use tb_parser::LineEdit;

/// A source.
#[derive(Drop)]
pub struct Source<'a> {
    /// How the texts of its lines are read.
    pub notation: Notation,
    pub lines: Vec<Line<'a>>,
    // For each number that a good line has, the place of the last one among the lines, if that has a statement.
    places: BTreeMap<u16, Option<usize>>,
    ghost places_are: { (n : ℕ) → joined (tree.get nat_cmp places n) ≡ standing n (edits_of lines.items) },
    ghost lines_are: { All (λ l. l.notation ≡ notation) lines.items },
}

// The lines of a source.
#[tactic(auto, using(crate::proofs::ReadIn::all_read))]
fn lines_of(alloc: Global, notation: Notation, source: &[u8]) -> Result<Vec<Line<'_>>, AllocError>
    ensures { IfOk result (λ lines. AreLinesOf notation source.now lines.items) }
{
    let mut lines = Vec::new(alloc);
    let mut rest = source;
    while let Some((text, behind)) = next_line(rest) {
        lines.push(read_line(alloc, notation, text)?)?;
        rest = behind;
    }
    Ok(lines)
}

// For each number that a good line has, the place of the last one, if that has a statement.
fn places_of(alloc: Global, lines: &[Line<'_>]) -> Result<BTreeMap<u16, Option<usize>>, AllocError>
    ensures { IfOk result (λ places. (n : ℕ) → joined (tree.get nat_cmp places n) ≡ standing n (edits_of lines.now)) }
{
    let mut places = BTreeMap::new(alloc);
    for (i, line) in lines.iter().enumerate() {
        match &line.edit {
            Some(LineEdit::Set(number, _)) => {
                places.insert(*number, Some(i))?;
            }
            Some(LineEdit::Delete(number)) => {
                places.insert(*number, None)?;
            }
            Some(LineEdit::Nothing) | None => {}
        }
    }
    Ok(places)
}

/// Reads a source in a notation. Fails only if memory runs out.
pub fn read_source(
    alloc: Global,
    notation: Notation,
    source: &[u8],
) -> Result<Source<'_>, AllocError>
    ensures lines { IfOk result (λ read. AreLinesOf notation source.now read.lines.items) }
    ensures notation { IfOk result (λ read. read.notation ≡ notation) }
{
    let lines = lines_of(alloc, notation, source)?;
    let places = places_of(alloc, &lines)?;
    Ok(Source {
        notation,
        lines,
        places,
    })
}

impl Source<'_> {
    /// The place among the lines of the one that gives the program its line of a number.
    #[tactic(auto, using(crate::proofs::Given::gives))]
    pub fn standing(&self, number: u16) -> Option<usize>
        ensures place { result ≡ standing number (edits_of self.now.lines.items) }
        // That line has the number and the statement that the program has there; the program has none if no line stands.
        ensures gives { Gives number (edits_of self.now.lines.items) result }
    {
        match self.places.get(&number) {
            Some(place) => *place,
            None => None,
        }
    }

    /// Whether a line gives the program a line.
    pub fn stands(&self, place: usize, number: u16) -> bool
        ensures { result ≡ stands place number (edits_of self.now.lines.items) }
    {
        self.standing(number) == Some(place)
    }
}
