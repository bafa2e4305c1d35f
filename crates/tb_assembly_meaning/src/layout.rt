//! The first pass: where statements lie, and what names stand for.
ghost use Rattle.std.specs.Prelude.{◌≡◌, ◌+◌, ◌≤◌, ◌++◌, ◌∷◌, [], IfOk, IfErr, OnOk, map};
ghost use Rattle.tb_assembly_text.specs.Expressions.{sum_of};
ghost use Rattle.tb_assembly_text.specs.Statements.{said_of};
ghost use Rattle.tb_assembly_meaning.specs.Names.{named};
ghost use Rattle.tb_assembly_meaning.specs.Places.{after, after_spot, known, laid_of, layout_of, named_by, reached_from, resolved, resolved_all, spot_of, spots_from, start_at};
ghost use Rattle.tb_assembly_meaning.specs.Answers.{Finds};

use crate::faults::{MeaningError, MeaningFault};
use crate::spots::{Layout, Spot, here_of, spot_of};
use crate::symbols::{Symbols, name_value, symbol};
use crate::values::value;
use indexmap::IndexMap;
use std::alloc::Global;
use tb_assembly_text::{Clause, Expression, Statement};

/// A statement, with where it lies or why it lies nowhere.
#[derive(Clone, Copy, Drop)]
pub struct Laid<'s> {
    pub statement: &'s Statement,
    pub spot: Result<Spot, MeaningFault>,
}

// A value, if it is known.
fn known(
    alloc: Global,
    symbols: &Symbols,
    at: usize,
    expression: &Expression,
) -> Result<Option<i32>, MeaningError>
    ensures { Finds (known (named symbols.now.entries) at (sum_of expression.now)) result }
{
    match value(alloc, symbols, here_of(at), expression) {
        Ok(number) => Ok(Some(number)),
        Err(MeaningError::Bad(_)) => Ok(None),
        Err(MeaningError::NoMemory) => Err(MeaningError::NoMemory),
    }
}

// Names what a statement names.
fn name_spot(
    alloc: Global,
    symbols: &mut Symbols,
    at: usize,
    statement: &Statement,
) -> Result<(), MeaningError>
    ensures named { OnOk result (named symbols.new.entries ≡ named_by (named symbols.old.entries) at (said_of statement.now)) }
    ensures memory { IfErr result (λ e. e ≡ MeaningError.NoMemory) }
{
    match &statement.clause {
        Clause::Label(name) => name_value(alloc, symbols, name, Some(here_of(at))),
        Clause::Assign(name, expression) => {
            let value = known(alloc, symbols, at, expression)?;
            name_value(alloc, symbols, name, value)
        }
        _ => Ok(()),
    }
}

// Goes on behind a statement.
fn advance(
    alloc: Global,
    layout: &mut Layout,
    statement: &Statement,
    spot: Spot,
) -> Result<(), MeaningError>
    requires { spot.at + spot.size ≤ 65536 }
    ensures after { OnOk result (layout_of layout.new ≡ after (layout_of layout.old) spot (said_of statement.now)) }
    ensures memory { IfErr result (λ e. e ≡ MeaningError.NoMemory) }
{
    name_spot(alloc, &mut layout.symbols, spot.at, statement)?;
    if layout.fresh {
        layout.base = spot.at;
    }
    layout.at = spot.at + spot.size;
    layout.fresh = layout.fresh && spot.size == 0;
    Ok(())
}

// What is reached behind a statement that lies somewhere; nothing changes behind another.
fn pass(
    alloc: Global,
    layout: &mut Layout,
    statement: &Statement,
) -> Result<Result<Spot, MeaningFault>, MeaningError>
    requires { layout.old.at ≤ 65536 }
    ensures spot { Finds (spot_of (layout_of layout.old) (said_of statement.now)) result }
    ensures after { IfOk result (λ spot. layout_of layout.new ≡ after_spot (layout_of layout.old) spot (said_of statement.now)) }
    ensures within { IfOk result (λ spot. layout.new.at ≤ 65536) }
{
    match spot_of(alloc, layout, statement) {
        Ok(spot) => {
            advance(alloc, layout, statement, spot)?;
            Ok(Ok(spot))
        }
        Err(MeaningError::Bad(fault)) => Ok(Err(fault)),
        Err(MeaningError::NoMemory) => Err(MeaningError::NoMemory),
    }
}

fn push<'s>(laid: &mut Vec<Laid<'s>>, more: Laid<'s>) -> Result<(), MeaningError>
    ensures added { OnOk result (map laid_of laid.new.items ≡ map laid_of laid.old.items ++ laid_of more.entry ∷ []) }
    ensures memory { IfErr result (λ e. e ≡ MeaningError.NoMemory) }
{
    match laid.push(more) {
        Ok(()) => Ok(()),
        Err(_) => Err(MeaningError::NoMemory),
    }
}

/// Where statements lie from an address on, and what is reached behind them.
pub fn place_all<'s>(
    alloc: Global,
    at: u16,
    statements: &'s [Statement],
) -> Result<(Layout, Vec<Laid<'s>>), MeaningError>
    ensures laid { IfOk result (λ r. map laid_of r.1.items ≡ spots_from (start_at at) (map said_of statements.now)) }
    ensures reached { IfOk result (λ r. layout_of r.0 ≡ reached_from (start_at at) (map said_of statements.now)) }
{
    let mut layout = Layout {
        symbols: IndexMap::new(alloc),
        base: usize::from(at),
        at: usize::from(at),
        fresh: true,
    };
    let mut laid = Vec::new(alloc);
    for statement in statements {
        let spot = pass(alloc, &mut layout, statement)?;
        push(&mut laid, Laid { statement, spot })?;
    }
    Ok((layout, laid))
}

// Gives a name its value, if that was not known so far.
fn resolve(alloc: Global, symbols: &mut Symbols, laid: &Laid<'_>) -> Result<(), MeaningError>
    ensures resolved { OnOk result (named symbols.new.entries ≡ resolved (named symbols.old.entries) (laid_of laid.now)) }
    ensures memory { IfErr result (λ e. e ≡ MeaningError.NoMemory) }
{
    let (Clause::Assign(name, expression), Ok(spot)) = (&laid.statement.clause, laid.spot) else {
        return Ok(());
    };
    if symbol(symbols, name) != Some(None) {
        return Ok(());
    }
    let value = known(alloc, symbols, spot.at, expression)?;
    name_value(alloc, symbols, name, value)
}

/// Gives names the values that they have when all labels are known.
pub fn resolve_all(
    alloc: Global,
    symbols: &mut Symbols,
    laid: &[Laid<'_>],
) -> Result<(), MeaningError>
    ensures resolved { OnOk result (named symbols.new.entries ≡ resolved_all (named symbols.old.entries) (map laid_of laid.now)) }
    ensures memory { IfErr result (λ e. e ≡ MeaningError.NoMemory) }
{
    for one in laid {
        resolve(alloc, symbols, one)?;
    }
    Ok(())
}
