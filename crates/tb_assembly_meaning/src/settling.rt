//! Branches that do not reach, made long in rounds.
ghost use Rattle.std.specs.Prelude.{◌≡◌, IfOk, OnOk, length, map};
ghost use Rattle.std.specs.List.{list_any};
ghost use Rattle.tb_assembly_text.specs.Statements.{said_of};
ghost use Rattle.tb_assembly_meaning.specs.Names.{named};
ghost use Rattle.tb_assembly_meaning.specs.Places.{laid_of};
ghost use Rattle.tb_assembly_meaning.specs.Meaning.{names_of, spots_of};
ghost use Rattle.tb_assembly_meaning.specs.Settling.{by_marks, is_far, is_long, is_too_far, lengthened, may_lengthen, next_by, Settles};

use crate::faults::{MeaningError, Wrong};
use crate::layout::Laid;
use crate::meaning::{mean, outcome};
use crate::symbols::Symbols;
use std::alloc::{AllocError, Global};
use tb_assembly_text::{Clause, Index, Shape, Statement, Width};

fn is_long(width: Width) -> bool
    ensures { result ≡ is_long width }
{
    match width {
        Width::Long => true,
        Width::Free | Width::ZeroPage | Width::Absolute => false,
    }
}

fn is_too_far(wrong: Wrong) -> bool
    ensures { result ≡ is_too_far wrong }
{
    matches!(wrong, Wrong::TooFar)
}

// Whether a statement may become a long branch.
fn may_lengthen(statement: &Statement) -> bool
    ensures { result ≡ may_lengthen (said_of statement.now) }
{
    match &statement.clause {
        Clause::Instruction(_, Shape::Direct(width, _, Index::Without)) => !is_long(*width),
        _ => false,
    }
}

// Whether a statement is a branch that does not reach, and may become long.
fn is_far(alloc: Global, symbols: &Symbols, laid: &Laid<'_>) -> Result<bool, AllocError>
    ensures { IfOk result (λ far. far ≡ is_far (named symbols.now.entries) (laid_of laid.now)) }
{
    if !may_lengthen(laid.statement) {
        return Ok(false);
    }
    match outcome(alloc, symbols, laid) {
        Ok(_) => Ok(false),
        Err(MeaningError::Bad(fault)) => Ok(is_too_far(fault.wrong)),
        Err(MeaningError::NoMemory) => Err(AllocError),
    }
}

// Which statements are branches that do not reach, and may become long.
fn far_marks(alloc: Global, symbols: &Symbols, laid: &[Laid<'_>]) -> Result<Vec<bool>, AllocError>
    ensures { IfOk result (λ marks. marks.items ≡ map (is_far (named symbols.now.entries)) (map laid_of laid.now)) }
{
    let mut marks = Vec::new(alloc);
    for one in laid {
        marks.push(is_far(alloc, symbols, one)?)?;
    }
    Ok(marks)
}

// Which statements of an image that begins at an address are branches that do not reach, and may become long.
fn marks_of(alloc: Global, at: u16, statements: &[Statement]) -> Result<Vec<bool>, AllocError>
    ensures { IfOk result (λ marks. marks.items ≡ map (is_far (names_of at (map said_of statements.now))) (spots_of at (map said_of statements.now))) }
{
    match mean(alloc, at, statements) {
        Ok(meaning) => far_marks(alloc, &meaning.symbols, &meaning.laid),
        Err(_) => Err(AllocError),
    }
}

// Makes a statement a long branch, if it may be one.
fn lengthen(statement: &mut Statement)
    ensures { said_of statement.new ≡ lengthened (said_of statement.old) }
{
    if let Clause::Instruction(_, Shape::Direct(width, _, Index::Without)) = &mut statement.clause {
        *width = Width::Long;
    }
}

fn lengthen_if(statement: &mut Statement, far: bool)
    ensures { said_of statement.new ≡ next_by far (said_of statement.old) }
{
    if far {
        lengthen(statement);
    }
}

// Makes the marked statements long.
fn lengthen_all(statements: &mut [Statement], marks: &[bool])
    requires { length marks.now ≡ length statements.old }
    ensures { map said_of statements.new ≡ by_marks marks.now (map said_of statements.old) }
{
    let mut index = 0usize;
    for statement in statements.iter_mut() {
        lengthen_if(statement, marks[index]);
        index += 1;
    }
}

// Whether there is a mark.
fn some_marked(marks: &[bool]) -> bool
    ensures { result ≡ list_any (λ mark. mark) marks.now }
{
    marks.iter().any(|mark| *mark)
}

/// In rounds, until every branch reaches, each one that does not reach becomes long: the inverse branch over a jump. In
/// each round places and values are those that the statements have then. Fails only if memory runs out.
pub fn settle(alloc: Global, at: u16, statements: &mut [Statement]) -> Result<(), AllocError>
    ensures { OnOk result (Settles at (map said_of statements.old) (map said_of statements.new)) }
{
    'rounds: loop {
        let marks = marks_of(alloc, at, statements)?;
        if !some_marked(&marks) {
            return Ok(());
        }
        lengthen_all(statements, &marks);
    }
}
