//! Branches that do not reach, replaced by the inverse branch over a jump.
ghost use Rattle.std.specs.Prelude.{◌≡◌, ◌+◌, ◌%◌, ◌≤◌, ◌++◌, ◌∷◌, [], true, false, None, Some, Ok, length, map, IfOk};
ghost use Rattle.std.specs.Prelude.{OnOk, IfErr, MatchResult, if◌then◌else◌, not, ◌&&◌};
ghost use Rattle.tb_asm.specs.Layout.{entry_of, size, size_of, labels_from, place_refusal};
ghost use Rattle.tb_asm.specs.Assembled.{refusal, Refuses};
ghost use Rattle.tb_asm.specs.Settle.{inverse, branch_to, is_far, form_size, kept, long, round_labels, items_at};
ghost use Rattle.tb_asm.specs.Settle.{items_from, form_past, past_from, unknown_fault, unknown_refusal, early_refusal};
ghost use Rattle.tb_asm.specs.Settle.{Settles, SettlesTo, AllReach};
ghost use Rattle.tb_asm.specs.Marks.{form_of, forms_of, marks_from, new_mark, FoundAs, AddsLabel, PushesEntries, SettleErr, UnknownAt};

use crate::assembler::{
    END, Labels, address_of, define, distance, is_near, place_all, resolve, runs_past,
};
use crate::errors::{AsmError, AsmErrorKind};
use crate::items::{Item, Operand};
use crate::names::Name;
use indexmap::IndexMap;
use std::alloc::Global;
use tb_opcodes::{Mnemonic, Mode};

/// The size of an inverse branch and a jump, in bytes.
const LONG: usize = 5;

/// In rounds, until every branch to a label reaches, each one that does not reach by the round's addresses is replaced
/// by the inverse branch over a jump to the label. All other items come back as they are, in order.
///
/// Refused as by the first pass of `assemble`, else as UnknownLabel, else as RunsPast if the items after the last round
/// run past the end. The item of a refusal is one that was handed in; that of NoMemory is 0.
pub fn settle(alloc: Global, at: u16, items: &[Item]) -> Result<Vec<Item>, AsmError>
    ensures settled { IfOk result (λ settled. SettlesTo at (map entry_of items.now) (map entry_of settled.items)) }
    ensures reach { IfOk result (λ settled. AllReach at (map entry_of settled.items)) }
    ensures refused { IfErr result (λ e. SettleErr at (map entry_of items.now) e.kind e.item) }
    ensures same { refusal at (map entry_of items.now) ≡ None → IfOk result (λ settled. map entry_of settled.items
        ≡ map entry_of items.now) }
    ensures accepted { refusal at (map entry_of items.now) ≡ None → IfErr result (λ e. e.kind ≡ AsmErrorKind.NoMemory) }
{
    refuse_early(alloc, at, items)?;
    let long = match lengthen(alloc, at, items) {
        Ok(long) => long,
        Err(kind) => return Err(AsmError { kind, item: 0 }),
    };
    let marks = long.as_slice();
    if let Some(item) = first_past(at, items, marks) {
        return Err(AsmError {
            kind: AsmErrorKind::RunsPast,
            item,
        });
    }
    match rebuild(alloc, at, items, marks) {
        Ok(settled) => Ok(settled),
        Err(kind) => Err(AsmError { kind, item: 0 }),
    }
}

// What is refused before the rounds: by the first pass, or for an unknown label.
fn refuse_early(alloc: Global, at: u16, items: &[Item]) -> Result<(), AsmError>
    ensures none { OnOk result (early_refusal at (map entry_of items.now) ≡ None) }
    ensures refused { IfErr result (λ e. SettleErr at (map entry_of items.now) e.kind e.item) }
    ensures accepted { refusal at (map entry_of items.now) ≡ None → IfErr result (λ e. e.kind ≡ AsmErrorKind.NoMemory) }
{
    match place_all(alloc, at, items) {
        Ok((labels, _)) => match first_unknown(&labels, items) {
            Some(item) => Err(AsmError {
                kind: AsmErrorKind::UnknownLabel,
                item,
            }),
            None => Ok(()),
        },
        Err(error) => Err(error),
    }
}

// The first item with an operand whose label is unknown.
fn first_unknown(labels: &Labels, items: &[Item]) -> Option<usize>
    ensures { UnknownAt labels.now.entries (map entry_of items.now) result }
{
    for (index, item) in items.iter().enumerate() {
        if is_unknown(labels, item) {
            return Some(index);
        }
    }
    None
}

fn is_unknown(labels: &Labels, item: &Item) -> bool
    ensures { (if result then Some AsmErrorKind.UnknownLabel else None) ≡ unknown_fault labels.now.entries (entry_of item.now) }
{
    match item {
        Item::Instr(_, _, operand) | Item::Word(operand) => resolve(labels, operand).is_none(),
        Item::Label(_) | Item::Bytes(_) => false,
    }
}

// Which items are replaced, after the last round.
fn lengthen(alloc: Global, at: u16, items: &[Item]) -> Result<Vec<bool>, AsmErrorKind>
    ensures marks { IfOk result (λ long. Settles at (map kept (map entry_of items.now)) (forms_of (map entry_of items.now) long.items)) }
    ensures length { IfOk result (λ long. length long.items ≡ length items.now) }
    ensures memory { IfErr result (λ k. k ≡ AsmErrorKind.NoMemory) }
{
    let Ok(mut long) = vec![in alloc; false; items.len()] else {
        return Err(AsmErrorKind::NoMemory);
    };
    'rounds: loop {
        let marks = long.as_slice();
        let labels = place_forms(alloc, at, items, marks)?;
        let (next, changed) = round(alloc, at, items, marks, &labels)?;
        if !changed {
            return Ok(long);
        }
        long = next;
    }
}

// The labels of a round, each by its first item, modulo 65,536.
fn place_forms(
    alloc: Global,
    at: u16,
    items: &[Item],
    long: &[bool],
) -> Result<Labels, AsmErrorKind>
    requires { length long.now ≡ length items.now }
    ensures found { IfOk result (λ labels. FoundAs labels.entries (round_labels at (forms_of (map entry_of items.now) long.now))) }
    ensures memory { IfErr result (λ k. k ≡ AsmErrorKind.NoMemory) }
{
    let mut labels = IndexMap::new(alloc);
    let mut address = at;
    for (index, item) in items.iter().enumerate() {
        add_label(&mut labels, address, item)?;
        address = behind(address, size(item, long[index]));
    }
    Ok(labels)
}

// Adds the label of an item, unless an earlier item has it.
fn add_label(labels: &mut Labels, address: u16, item: &Item) -> Result<(), AsmErrorKind>
    ensures { MatchResult result (λ _. AddsLabel labels.old.entries address (entry_of item.now) labels.new.entries)
        (λ k. k ≡ AsmErrorKind.NoMemory) }
{
    match item {
        Item::Label(name) if !labels.contains_key(name) => define(labels, name, address),
        _ => Ok(()),
    }
}

// The marks after a round, and whether one is new.
fn round(
    alloc: Global,
    at: u16,
    items: &[Item],
    long: &[bool],
    labels: &Labels,
) -> Result<(Vec<bool>, bool), AsmErrorKind>
    requires { length long.now ≡ length items.now }
    ensures marks { IfOk result (λ r. (r.0.items ≡ marks_from labels.now.entries at (map entry_of items.now) long.now)
        × (r.1 ≡ new_mark labels.now.entries at (map entry_of items.now) long.now)) }
    ensures memory { IfErr result (λ k. k ≡ AsmErrorKind.NoMemory) }
{
    let mut next = Vec::new(alloc);
    let mut changed = false;
    let mut address = at;
    for (index, item) in items.iter().enumerate() {
        let was = long[index];
        let far = is_new(labels, address, item, was);
        if next.push(was | far).is_err() {
            return Err(AsmErrorKind::NoMemory);
        }
        changed |= far;
        address = behind(address, size(item, was));
    }
    Ok((next, changed))
}

// Whether an item is to be replaced in this round.
fn is_new(labels: &Labels, address: u16, item: &Item, was: bool) -> bool
    ensures { result ≡ (not was && is_far labels.now.entries address (entry_of item.now)) }
{
    !was && is_far(labels, address, item)
}

// Whether a branch to a label does not reach it.
fn is_far(labels: &Labels, address: u16, item: &Item) -> bool
    ensures { result ≡ is_far labels.now.entries address (entry_of item.now) }
{
    match item {
        Item::Instr(_, Mode::Relative, Operand::Label(name)) => match address_of(labels, name) {
            Some(target) => !is_near(distance(address, target)),
            None => false,
        },
        _ => false,
    }
}

// The size of an item, or of the two that replace it, in bytes.
fn size(item: &Item, long: bool) -> usize
    ensures { result ≡ form_size (form_of long (entry_of item.now)) }
{
    match item {
        Item::Instr(_, Mode::Relative, Operand::Label(_)) if long => LONG,
        _ => item.size(),
    }
}

// The address after an item, modulo 65,536.
fn behind(address: u16, size: usize) -> u16
    ensures { result ≡ (address + size) % 65536 }
{
    address.wrapping_add((size % END) as u16)
}

// The first item whose end lies past the last address, or that is a label there.
fn first_past(at: u16, items: &[Item], long: &[bool]) -> Option<usize>
    requires { length long.now ≡ length items.now }
    ensures { result ≡ past_from 0 at (forms_of (map entry_of items.now) long.now) }
{
    let mut address = usize::from(at);
    for (index, item) in items.iter().enumerate() {
        if ends_past(address, item, long[index]) {
            return Some(index);
        }
        address += size(item, long[index]);
    }
    None
}

fn ends_past(address: usize, item: &Item, long: bool) -> bool
    requires { address ≤ 65536 }
    ensures { result ≡ form_past address (form_of long (entry_of item.now)) }
{
    match item {
        Item::Instr(_, Mode::Relative, Operand::Label(_)) if long => LONG > END - address,
        _ => runs_past(address, item),
    }
}

// The items after the last round.
fn rebuild(alloc: Global, at: u16, items: &[Item], long: &[bool]) -> Result<Vec<Item>, AsmErrorKind>
    requires { length long.now ≡ length items.now }
    ensures items { IfOk result (λ settled. map entry_of settled.items ≡ items_from at (forms_of (map entry_of items.now) long.now)) }
    ensures memory { IfErr result (λ k. k ≡ AsmErrorKind.NoMemory) }
{
    let mut settled = Vec::new(alloc);
    let mut address = at;
    for (index, item) in items.iter().enumerate() {
        push_form(&mut settled, address, item, long[index])?;
        address = behind(address, size(item, long[index]));
    }
    Ok(settled)
}

// Appends an item, or the two that replace it.
fn push_form(
    settled: &mut Vec<Item>,
    address: u16,
    item: &Item,
    long: bool,
) -> Result<(), AsmErrorKind>
    ensures { PushesEntries settled.old.items (items_at address (form_of long (entry_of item.now))) result settled.new.items }
{
    match item {
        Item::Instr(mnemonic, Mode::Relative, Operand::Label(name)) if long => {
            push_long(settled, address, *mnemonic, name)
        }
        _ => push_copy(settled, item),
    }
}

// Appends an inverse branch and a jump.
fn push_long(
    settled: &mut Vec<Item>,
    address: u16,
    mnemonic: Mnemonic,
    name: &Name,
) -> Result<(), AsmErrorKind>
    ensures { PushesEntries settled.old.items (items_at address (long mnemonic name.now)) result settled.new.items }
{
    let Ok(name) = name.clone() else {
        return Err(AsmErrorKind::NoMemory);
    };
    let over = Operand::Word(address.wrapping_add(5));
    push(
        settled,
        Item::Instr(inverse(mnemonic), Mode::Relative, over),
    )?;
    push(
        settled,
        Item::Instr(Mnemonic::Jmp, Mode::Absolute, Operand::Label(name)),
    )
}

fn push_copy(settled: &mut Vec<Item>, item: &Item) -> Result<(), AsmErrorKind>
    ensures { PushesEntries settled.old.items (entry_of item.now ∷ []) result settled.new.items }
{
    match item.clone() {
        Ok(copy) => push(settled, copy),
        Err(_) => Err(AsmErrorKind::NoMemory),
    }
}

fn push(items: &mut Vec<Item>, item: Item) -> Result<(), AsmErrorKind>
    ensures { PushesEntries items.old.items (entry_of item ∷ []) result items.new.items }
{
    match items.push(item) {
        Ok(()) => Ok(()),
        Err(_) => Err(AsmErrorKind::NoMemory),
    }
}

// The branch on the other value of the flag.
fn inverse(mnemonic: Mnemonic) -> Mnemonic
    ensures { result ≡ inverse mnemonic }
{
    match mnemonic {
        Mnemonic::Bpl => Mnemonic::Bmi,
        Mnemonic::Bmi => Mnemonic::Bpl,
        Mnemonic::Bvc => Mnemonic::Bvs,
        Mnemonic::Bvs => Mnemonic::Bvc,
        Mnemonic::Bcc => Mnemonic::Bcs,
        Mnemonic::Bcs => Mnemonic::Bcc,
        Mnemonic::Bne => Mnemonic::Beq,
        Mnemonic::Beq => Mnemonic::Bne,
        other => other,
    }
}
