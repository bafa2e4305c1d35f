//! Which lines of a file remain in its program: those that no later line replaces or takes out.
ghost use Rattle.std.specs.Prelude.{◌≡◌, ◌++◌, ℕ, IfOk, OnOk, map};
ghost use Rattle.std.specs.BTreeMap as tree;
ghost use Rattle.std.specs.Ordering.{nat_cmp};
ghost use Rattle.tb_engine_findings.specs.Entries.{is_one_of};
ghost use Rattle.tb_engine_findings.specs.Remaining.{remaining, remaining_here};
ghost use Rattle.tb_engine_findings.specs.Warnings.{another, last_with};

use crate::lines::NumberedLine;
use std::alloc::{AllocError, Global};
use std::collections::BTreeMap;

/// The lines of a file, from 1, that remain in its program and have one of these numbers. Fails only if memory runs out.
pub fn remaining_lines(
    alloc: Global,
    lines: &[NumberedLine],
    numbers: &[u16],
) -> Result<Vec<usize>, AllocError>
    ensures { IfOk result (λ found. found.items ≡ remaining numbers.now lines.now) }
{
    let mut found = Vec::new(alloc);
    for (i, line) in lines.iter().enumerate() {
        push_remaining(line, &lines[i + 1..], numbers, &mut found)?;
    }
    Ok(found)
}

// Appends a line that has one of the numbers, if none of those after it has its number.
fn push_remaining(
    line: &NumberedLine,
    after: &[NumberedLine],
    numbers: &[u16],
    found: &mut Vec<usize>,
) -> Result<(), AllocError>
    ensures { OnOk result (found.new.items ≡ found.old.items ++ remaining_here numbers.now line.now after.now) }
{
    if numbers.contains(&line.number) && !has_number(after, line.number) {
        found.push(line.line)?;
    }
    Ok(())
}

// Whether one of these lines has the number.
fn has_number(lines: &[NumberedLine], number: u16) -> bool
    ensures { result ≡ is_one_of number (map (λ l. l.number) lines.now) }
{
    for line in lines {
        if line.number == number {
            return true;
        }
    }
    false
}

/// The last line with each number. Fails only if memory runs out.
pub fn last_lines(
    alloc: Global,
    lines: &[NumberedLine],
) -> Result<BTreeMap<u16, NumberedLine>, AllocError>
    ensures { IfOk result (λ last. (n : ℕ) → tree.get nat_cmp last n ≡ last_with n lines.now) }
{
    let mut last = BTreeMap::new(alloc);
    for line in lines {
        last.insert(line.number, *line)?;
    }
    Ok(last)
}

/// The later line that has a line's number, by the last line with each number.
pub fn outdone_by(last: &BTreeMap<u16, NumberedLine>, line: &NumberedLine) -> Option<NumberedLine>
    ensures { result ≡ another line.now (tree.get nat_cmp last.now line.now.number) }
{
    match last.get(&line.number) {
        Some(by) if by.line != line.line => Some(*by),
        _ => None,
    }
}
