//! All that is wrong with a text.
ghost use Rattle.std.specs.Prelude.{◌≡◌, IfOk, map};
ghost use Rattle.tb_assembly_output.specs.Findings.{bad_finding, cause_of, fault_finding, is_nil, place_at};
ghost use Rattle.tb_assembly_files.specs.Expansion.{read_of};

use std::alloc::{AllocError, Global};
use tb_assembly_files::{BadLine, Place, Problem, Reading};
use tb_assembly_meaning::{Meaning, StatementFault};
use tb_assembly_report::{Cause, Finding};

fn cause_of(problem: Problem) -> Cause
    ensures { result ≡ cause_of problem }
{
    match problem {
        Problem::Line(kind) => Cause::Line(kind),
        Problem::Include(fault) => Cause::Include(fault),
    }
}

fn bad_finding(bad: BadLine) -> Finding
    ensures { result ≡ bad_finding bad }
{
    Finding {
        place: bad.place,
        column: bad.column,
        cause: cause_of(bad.problem),
    }
}

fn is_nil<T>(items: &[T]) -> bool
    ensures { result ≡ is_nil items.now }
{
    match items {
        [] => true,
        [_, ..] => false,
    }
}

/// Whether no line is bad.
pub fn is_good(reading: &Reading) -> bool
    ensures { result ≡ is_nil (read_of reading.now).bad }
{
    is_nil(&reading.bad)
}

/// Whether no statement is refused.
pub fn is_right(meaning: &Meaning<'_>) -> bool
    ensures { result ≡ is_nil meaning.now.faults.items }
{
    is_nil(&meaning.faults)
}

/// The lines that are bad.
pub fn bad_lines(alloc: Global, reading: &Reading) -> Result<Vec<Finding>, AllocError>
    ensures { IfOk result (λ fs. fs.items ≡ map bad_finding (read_of reading.now).bad) }
{
    bad_findings(alloc, &reading.bad)
}

/// The statements that are refused, by the lines where they stand.
pub fn bad_statements(
    alloc: Global,
    reading: &Reading,
    meaning: &Meaning<'_>,
) -> Result<Vec<Finding>, AllocError>
    ensures { IfOk result (λ fs. fs.items ≡ map (fault_finding (read_of reading.now).places) meaning.now.faults.items) }
{
    fault_findings(alloc, &reading.places, &meaning.faults)
}

fn bad_findings(alloc: Global, bad: &[BadLine]) -> Result<Vec<Finding>, AllocError>
    ensures { IfOk result (λ fs. fs.items ≡ map bad_finding bad.now) }
{
    let mut findings = Vec::new(alloc);
    for line in bad {
        findings.push(bad_finding(*line))?;
    }
    Ok(findings)
}

// Where a statement stands.
fn place_at(places: &[Place], index: usize) -> Place
    ensures { result ≡ place_at places.now index }
{
    match places.get(index) {
        Some(place) => *place,
        None => Place { file: 0, line: 0 },
    }
}

fn fault_finding(places: &[Place], fault: StatementFault) -> Finding
    ensures { result ≡ fault_finding places.now fault }
{
    Finding {
        place: place_at(places, fault.index),
        column: fault.fault.column,
        cause: Cause::Meaning(fault.fault.wrong),
    }
}

fn fault_findings(
    alloc: Global,
    places: &[Place],
    faults: &[StatementFault],
) -> Result<Vec<Finding>, AllocError>
    ensures { IfOk result (λ fs. fs.items ≡ map (fault_finding places.now) faults.now) }
{
    let mut findings = Vec::new(alloc);
    for fault in faults {
        findings.push(fault_finding(places, *fault))?;
    }
    Ok(findings)
}
