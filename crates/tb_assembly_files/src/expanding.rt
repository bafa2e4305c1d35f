//! A text with the texts of the files that it includes, line by line.
ghost use Rattle.std.specs.Prelude.{◌≡◌, ◌∷◌, IfOk, Ok, Some, eqb, map, option_map};
ghost use Rattle.std.specs.List.{list_any};
ghost use Rattle.tb_basic_text.specs.Lines.{lines_of_file};
ghost use Rattle.tb_assembly_text.specs.Statements.{said_of};
ghost use Rattle.tb_assembly_files.specs.Libraries.{source_of};
ghost use Rattle.tb_assembly_files.specs.Expansion.{by_include, expansion, file_fault, front, include_in, included_of, including, last_include, line_read, lines_read, read_of};
ghost use Rattle.tb_assembly_files.specs.Expansion.{refused, with_bad, with_said, Expands, Parses, Reaches};

use crate::faults::{BadLine, DEEPEST, IncludeFault, MOST_LINES, Place, Problem};
use crate::library::{SourceFile, file_with, path_at, text_at};
use crate::paths::beside;
use std::alloc::{AllocError, Global};
use tb_assembly_text::{Clause, Fault, LineError, Statement, read_line};
use tb_basic_text::next_line;

/// What was read: the last plain label, the statements, the line of each, all that is wrong with lines, and how many
/// lines it were.
#[derive(Drop, Debug)]
pub struct Reading {
    scope: Vec<u8>,
    pub statements: Vec<Statement>,
    pub places: Vec<Place>,
    pub bad: Vec<BadLine>,
    lines: usize,
}

/// Why a text is not read to its end.
#[derive(Drop, Debug)]
pub enum Stop {
    /// The file with this path is wanted, and is not in the library.
    Wants(Vec<u8>),
    /// Memory ran out.
    NoMemory,
}

impl From<AllocError> for Stop {
    ghost use Rattle.tb_assembly_files.specs.declared.expanding.Stop.TheVariants.{NoMemory};

    ghost from_gives = { λ _ stop. stop ≡ NoMemory };

    fn from(_error: AllocError) -> Stop {
        Stop::NoMemory
    }
}

// One more line that is bad.
fn push_bad(
    reading: &mut Reading,
    place: Place,
    column: usize,
    problem: Problem,
) -> Result<(), Stop>
    ensures { Reaches (Ok (with_bad (read_of reading.old) place column problem)) result (read_of reading.new) }
{
    match reading.bad.push(BadLine {
        place,
        column,
        problem,
    }) {
        Ok(()) => Ok(()),
        Err(_) => Err(Stop::NoMemory),
    }
}

// One more include that is refused.
fn refuse(
    reading: &mut Reading,
    place: Place,
    column: usize,
    fault: IncludeFault,
) -> Result<(), Stop>
    ensures { Reaches (refused (read_of reading.old) place column fault) result (read_of reading.new) }
{
    push_bad(reading, place, column, Problem::Include(fault))
}

// Puts the statements of a line behind the others.
fn push_statements(
    reading: &mut Reading,
    place: Place,
    mut statements: Vec<Statement>,
) -> Result<(), Stop>
    ensures { Reaches (Ok (with_said (read_of reading.old) place (map said_of statements.items))) result (read_of reading.new) }
{
    let count = reading.places.len();
    if reading
        .places
        .resize(count.saturating_add(statements.len()), place)
        .is_err()
    {
        return Err(Stop::NoMemory);
    }
    match reading.statements.append(&mut statements) {
        Ok(()) => Ok(()),
        Err(_) => Err(Stop::NoMemory),
    }
}

// Where a line is read: the files at hand, how deep includes may go from here, and the files that are being read.
#[derive(Clone, Copy, Drop)]
struct Within<'a> {
    library: &'a [SourceFile],
    depth: usize,
    chain: &'a [usize],
}

// An include: its column, and how it names the file.
#[derive(Drop)]
struct Included {
    column: usize,
    name: Vec<u8>,
}

// The include with which the statements of a line end.
fn last_include(alloc: Global, statements: &[Statement]) -> Result<Option<Included>, AllocError>
    ensures { IfOk result (λ i. option_map included_of i ≡ last_include (map said_of statements.now)) }
{
    match statements.get(statements.len().saturating_sub(1)) {
        Some(last) => included_in(alloc, last),
        None => Ok(None),
    }
}

fn included_in(alloc: Global, statement: &Statement) -> Result<Option<Included>, AllocError>
    ensures { IfOk result (λ i. option_map included_of i ≡ include_in (Some (said_of statement.now))) }
{
    match &statement.clause {
        Clause::Include(name) => Ok(Some(Included {
            column: statement.column,
            name: Vec::from_slice(alloc, name)?,
        })),
        _ => Ok(None),
    }
}

// All but the last statement.
fn without_last(mut statements: Vec<Statement>) -> Vec<Statement>
    ensures { map said_of result.items ≡ front (map said_of statements.items) }
{
    let count = statements.as_slice().len().saturating_sub(1);
    statements.truncate(count);
    statements
}

// Whether a file is being read.
fn is_among(chain: &[usize], file: usize) -> bool
    ensures { result ≡ list_any (λ j. eqb j file) chain.now }
{
    chain.iter().any(|other| *other == file)
}

// Why a file is not included by those that are being read.
fn file_fault(chain: &[usize], lines: usize, file: usize) -> Option<IncludeFault>
    ensures { result ≡ file_fault chain.now lines file }
{
    if is_among(chain, file) {
        Some(IncludeFault::Circle)
    } else if MOST_LINES <= lines {
        Some(IncludeFault::TooMany)
    } else {
        None
    }
}

// The files that are being read, with one more.
fn with_file(alloc: Global, file: usize, chain: &[usize]) -> Result<Vec<usize>, AllocError>
    ensures { IfOk result (λ r. r.items ≡ file ∷ chain.now) }
{
    let mut files = Vec::new(alloc);
    files.push(file)?;
    files.extend_from_slice(chain)?;
    Ok(files)
}

// Reads a line: its statements, unless it is bad.
fn parse(
    alloc: Global,
    place: Place,
    line: &[u8],
    reading: &mut Reading,
) -> Result<Option<Vec<Statement>>, Stop>
    ensures { Parses place line.now (read_of reading.old) result (read_of reading.new) }
{
    match reading.lines.checked_add(1) {
        Some(lines) => reading.lines = lines,
        None => return Err(Stop::NoMemory),
    }
    let mut statements = Vec::new(alloc);
    match read_line(alloc, &mut reading.scope, line, &mut statements) {
        Ok(()) => Ok(Some(statements)),
        Err(LineError::Bad(fault)) => {
            reading.scope.clear();
            push_bad(reading, place, fault.column, Problem::Line(fault.kind))?;
            Ok(None)
        }
        Err(LineError::NoMemory) => Err(Stop::NoMemory),
    }
}

// Reads a line, and what it includes.
#[cycle(reading)]
fn read_one(
    alloc: Global,
    within: Within<'_>,
    place: Place,
    line: &[u8],
    reading: &mut Reading,
) -> Result<(), Stop>
    ensures { Reaches (line_read (including within.entry.depth (map source_of within.entry.library.now) within.entry.chain.now) place line.now (read_of reading.old)) result (read_of reading.new) }
{
    match parse(alloc, place, line, reading) {
        Ok(Some(statements)) => { take(alloc, within, place, statements, reading) }
        Ok(None) => Ok(()),
        Err(stop) => Err(stop),
    }
}

// Takes the statements of a line; what it includes stands in its place.
#[cycle(reading)]
fn take(
    alloc: Global,
    within: Within<'_>,
    place: Place,
    statements: Vec<Statement>,
    reading: &mut Reading,
) -> Result<(), Stop>
    ensures { Reaches (by_include (including within.entry.depth (map source_of within.entry.library.now) within.entry.chain.now) place (map said_of statements.items) (last_include (map said_of statements.items)) (read_of reading.old)) result (read_of reading.new) }
{
    match last_include(alloc, &statements)? {
        None => push_statements(reading, place, statements),
        Some(included) => {
            push_statements(reading, place, without_last(statements))?;
            include(
                alloc,
                within,
                place,
                included.column,
                &included.name,
                reading,
            )
        }
    }
}

// Includes a file, if it may be.
#[cycle(reading)]
fn include(
    alloc: Global,
    within: Within<'_>,
    place: Place,
    column: usize,
    name: &[u8],
    reading: &mut Reading,
) -> Result<(), Stop>
    ensures { Reaches (including within.entry.depth (map source_of within.entry.library.now) within.entry.chain.now place column name.now (read_of reading.old)) result (read_of reading.new) }
{
    let Within {
        library,
        depth,
        chain,
    } = within;
    if depth == 0 {
        return refuse(reading, place, column, IncludeFault::TooDeep);
    }
    let path = beside(alloc, path_at(library, place.file), name)?;
    let Some(file) = file_with(library, &path) else {
        return Err(Stop::Wants(path));
    };
    if let Some(fault) = file_fault(chain, reading.lines, file) {
        return refuse(reading, place, column, fault);
    }
    match text_at(library, file) {
        None => refuse(reading, place, column, IncludeFault::Unread),
        Some(text) => {
            let chain = with_file(alloc, file, chain)?;
            let within = Within {
                library,
                depth: depth - 1,
                chain: &chain,
            };
            read_file(alloc, within, file, text, reading)
        }
    }
}

// Reads the lines of a file, with all that they include.
#[cycle(reading)]
fn read_file(
    alloc: Global,
    within: Within<'_>,
    file: usize,
    text: &[u8],
    reading: &mut Reading,
) -> Result<(), Stop>
    ensures { Reaches (lines_read (including within.entry.depth (map source_of within.entry.library.now) within.entry.chain.now) file 1 (lines_of_file text.now) (read_of reading.old)) result (read_of reading.new) }
{
    let mut rest = text;
    let mut line = 1usize;
    while let Some((first, behind)) = next_line(rest) {
        match read_one(alloc, within, Place { file, line }, first, reading) {
            Ok(()) => {}
            Err(stop) => return Err(stop),
        }
        rest = behind;
        line += 1;
    }
    Ok(())
}

/// The statements of the first file of a library, with those of all files that it includes; `None` if it could not be
/// read. A file that is wanted and isn't in the library stops it.
pub fn expand(alloc: Global, library: &[SourceFile]) -> Result<Option<Reading>, Stop>
    ensures { Expands (expansion (map source_of library.now)) result }
{
    let Some(text) = text_at(library, 0) else {
        return Ok(None);
    };
    let mut reading = Reading {
        scope: Vec::new(alloc),
        statements: Vec::new(alloc),
        places: Vec::new(alloc),
        bad: Vec::new(alloc),
        lines: 0,
    };
    let within = Within {
        library,
        depth: DEEPEST,
        chain: &[0],
    };
    match read_file(alloc, within, 0, text, &mut reading) {
        Ok(()) => Ok(Some(reading)),
        Err(stop) => Err(stop),
    }
}
