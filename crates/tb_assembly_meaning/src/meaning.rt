//! What statements mean.
ghost use Rattle.std.specs.Prelude.{◌≡◌, ◌++◌, ◌∷◌, [], IfOk, IfErr, OnOk, map, option_map};
ghost use Rattle.tb_asm.specs.Layout.{entry_of};
ghost use Rattle.tb_assembly_text.specs.Statements.{said_of};
ghost use Rattle.tb_assembly_meaning.specs.Names.{named};
ghost use Rattle.tb_assembly_meaning.specs.Places.{laid_of};
ghost use Rattle.tb_assembly_meaning.specs.Answers.{AnswersBy};
ghost use Rattle.tb_assembly_meaning.specs.Meaning.{base_of, faults_from, faults_in, faults_of, items_from, items_in, items_of, listed, names_of, outcome, spots_of};

use crate::faults::{MeaningError, MeaningFault};
use crate::items::item_of;
use crate::layout::{Laid, place_all, resolve_all};
use crate::spots::Layout;
use crate::symbols::Symbols;
use std::alloc::Global;
use tb_asm::Item;
use tb_assembly_text::Statement;

/// What is wrong with a statement, which is counted from 0.
#[derive(Clone, Copy, PartialEq, Eq, Debug, Drop)]
pub struct StatementFault {
    pub index: usize,
    pub fault: MeaningFault,
}

/// What statements mean: where their image begins, what names stand for, where each lies, their items, and all that is
/// wrong with them, in their order.
#[derive(Drop)]
pub struct Meaning<'s> {
    pub base: usize,
    pub symbols: Symbols,
    pub laid: Vec<Laid<'s>>,
    pub items: Vec<Item>,
    pub faults: Vec<StatementFault>,
}

/// The item of a statement, if it is one, or what is wrong with it.
pub fn outcome(
    alloc: Global,
    symbols: &Symbols,
    laid: &Laid<'_>,
) -> Result<Option<Item>, MeaningError>
    ensures { AnswersBy (option_map entry_of) (outcome (named symbols.now.entries) (laid_of laid.now)) result }
{
    match laid.spot {
        Ok(spot) => item_of(alloc, symbols, &laid.statement.clause, spot),
        Err(fault) => Err(MeaningError::Bad(fault)),
    }
}

// Puts an item behind the others, if there is one.
fn push_item(items: &mut Vec<Item>, item: Option<Item>) -> Result<(), MeaningError>
    ensures added { OnOk result (map entry_of items.new.items ≡ map entry_of items.old.items ++ listed (option_map entry_of item)) }
    ensures memory { IfErr result (λ e. e ≡ MeaningError.NoMemory) }
{
    let Some(item) = item else {
        return Ok(());
    };
    match items.push(item) {
        Ok(()) => Ok(()),
        Err(_) => Err(MeaningError::NoMemory),
    }
}

fn push_fault(
    faults: &mut Vec<StatementFault>,
    index: usize,
    fault: MeaningFault,
) -> Result<(), MeaningError>
    ensures added { OnOk result (faults.new.items ≡ faults.old.items ++ record { index = index; fault = fault } ∷ []) }
    ensures memory { IfErr result (λ e. e ≡ MeaningError.NoMemory) }
{
    match faults.push(StatementFault { index, fault }) {
        Ok(()) => Ok(()),
        Err(_) => Err(MeaningError::NoMemory),
    }
}

// Puts the item of a statement behind the others, or what is wrong with it.
fn collect_one(
    alloc: Global,
    symbols: &Symbols,
    index: usize,
    laid: &Laid<'_>,
    items: &mut Vec<Item>,
    faults: &mut Vec<StatementFault>,
) -> Result<(), MeaningError>
    ensures items { OnOk result (map entry_of items.new.items ≡ map entry_of items.old.items ++ items_in (outcome (named symbols.now.entries) (laid_of laid.now))) }
    ensures faults { OnOk result (faults.new.items ≡ faults.old.items ++ faults_in index (outcome (named symbols.now.entries) (laid_of laid.now))) }
    ensures memory { IfErr result (λ e. e ≡ MeaningError.NoMemory) }
{
    match outcome(alloc, symbols, laid) {
        Ok(item) => push_item(items, item),
        Err(MeaningError::Bad(fault)) => push_fault(faults, index, fault),
        Err(MeaningError::NoMemory) => Err(MeaningError::NoMemory),
    }
}

/// The items of statements, and all that is wrong with them.
pub fn collect(
    alloc: Global,
    symbols: &Symbols,
    laid: &[Laid<'_>],
) -> Result<(Vec<Item>, Vec<StatementFault>), MeaningError>
    ensures items { IfOk result (λ r. map entry_of r.0.items ≡ items_from (named symbols.now.entries) (map laid_of laid.now)) }
    ensures faults { IfOk result (λ r. r.1.items ≡ faults_from (named symbols.now.entries) 0 (map laid_of laid.now)) }
    ensures memory { IfErr result (λ e. e ≡ MeaningError.NoMemory) }
{
    let mut items = Vec::new(alloc);
    let mut faults = Vec::new(alloc);
    for (index, one) in laid.iter().enumerate() {
        collect_one(alloc, symbols, index, one, &mut items, &mut faults)?;
    }
    Ok((items, faults))
}

/// What statements mean whose image begins at an address, if they name no other. Fails only if memory runs out.
pub fn mean(alloc: Global, at: u16, statements: &[Statement]) -> Result<Meaning<'_>, MeaningError>
    ensures items { IfOk result (λ m. map entry_of m.items.items ≡ items_of at (map said_of statements.now)) }
    ensures faults { IfOk result (λ m. m.faults.items ≡ faults_of at (map said_of statements.now)) }
    ensures base { IfOk result (λ m. m.base ≡ base_of at (map said_of statements.now)) }
    ensures names { IfOk result (λ m. named m.symbols.entries ≡ names_of at (map said_of statements.now)) }
    ensures laid { IfOk result (λ m. map laid_of m.laid.items ≡ spots_of at (map said_of statements.now)) }
{
    let (layout, laid) = place_all(alloc, at, statements)?;
    let Layout {
        mut symbols,
        base,
        ..
    } = layout;
    resolve_all(alloc, &mut symbols, laid.as_slice())?;
    let (items, faults) = collect(alloc, &symbols, laid.as_slice())?;
    Ok(Meaning {
        base,
        symbols,
        laid,
        items,
        faults,
    })
}
