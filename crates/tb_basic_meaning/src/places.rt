//! Where a run is.
ghost use Rattle.std.specs.Prelude.{◌≡◌, option_map};
ghost use Rattle.tb_basic_syntax.specs.PlainData.{statement_of, lines_of};
ghost use Rattle.tb_basic_syntax.specs.Source.{numbers};
ghost use Rattle.tb_basic_meaning.specs.Control.{has_line, content_at, next_after, first_place, highest};
ghost use Rattle.tb_basic_meaning.specs.Parts.{place_of};

use tb_basic_syntax::{Program, Statement};

/// At a line, or past the last one.
#[derive(Clone, Copy, PartialEq, Eq, Debug, Drop)]
pub enum Place {
    At(u16),
    Past,
}

/// The place of the lowest line.
pub fn first_place(program: &Program) -> Place
    ensures { place_of result ≡ first_place (numbers (lines_of program.now)) }
{
    match program.lines().next() {
        Some((number, _)) => Place::At(*number),
        None => Place::Past,
    }
}

/// The place of the first line above this number.
pub fn next_after(program: &Program, number: u16) -> Place
    ensures { place_of result ≡ next_after (numbers (lines_of program.now)) number }
{
    for (line, _) in program.lines() {
        if number < *line {
            return Place::At(*line);
        }
    }
    Place::Past
}

/// The highest number; 0 if there is no line.
pub fn highest(program: &Program) -> u16
    ensures { result ≡ highest (numbers (lines_of program.now)) }
{
    let mut highest = 0;
    for (line, _) in program.lines() {
        highest = *line;
    }
    highest
}

/// Whether there is a line of this number.
#[tactic(auto, using(crate::proofs::Found::found_line))]
pub fn has_line(program: &Program, number: u16) -> bool
    ensures { result ≡ has_line (numbers (lines_of program.now)) number }
{
    program.has(number)
}

/// The statement of a line; `None` if there is no such line.
pub fn statement_at(program: &Program, number: u16) -> Option<&Statement>
    ensures { option_map (λ s. statement_of s.now) result ≡ content_at (lines_of program.now) number }
{
    for (line, statement) in program.lines() {
        if *line == number {
            return Some(statement);
        }
    }
    None
}
