//! The map of a program: the address of each part, what it takes and what it costs.
ghost use Rattle.std.specs.Prelude.{◌≡◌, ◌≤◌, ◌<◌, ◌+◌, ◌-◌, ◌++◌, [], IfOk, map, drop, length, replicate};
ghost use Rattle.tb_words.specs.Texts.{AppendsBytes};
ghost use Rattle.tb_basic_syntax.specs.PlainData.{lines_of};
ghost use Rattle.tb_basic_meaning.specs.Cost as cost;
ghost use Rattle.tb_runtime16.specs.Addresses.{PROLOGUE_AT};
ghost use Rattle.tb_compiled.specs.Compiled.{pair_of, prg_of, starts_of, table_of};
ghost use Rattle.tb_compiled.specs.Texts.{end_before};
ghost use Rattle.tb_compiled.specs.Parts.{first_part};
ghost use Rattle.tb_engine_listing.specs.Map.{left, right, row_text, rows_text, line_parts, block_part, table_part, map_text};

use hex::encode_upper;
use std::alloc::{AllocError, Global};
use tb_basic_syntax::Program;
use tb_compiled::{Compiled, LineStart, MOST_COST, end_before, line_cost};
use tb_memmap::PROGRAM_END;
use tb_runtime16::BLOCK_AT;

/// What every program costs in addition to its lines.
const BASE: u32 = 64;

/// How many bytes a PRG file has before the block.
const HEADER: usize = 14;

const NAME_WIDTH: usize = 12;

const NUMBER_WIDTH: usize = 8;

/// The map of a compiled program: a table of the block, each line and the line table with address, bytes and cost, their
/// sums, and what is left of the room. The highest line includes all up to the line table. Fails if memory runs out.
pub fn chart(alloc: Global, compiled: &Compiled, program: &Program) -> Result<Vec<u8>, AllocError>
    requires small { cost.cost (lines_of program.now) < 4294967296 }
    requires ends { PROLOGUE_AT + (length (prg_of compiled.now) - 14) ≤ 0xA000 }
    ensures { IfOk result (λ text. text.items ≡ map_text (starts_of compiled.now) (table_of compiled.now)
        (length (prg_of compiled.now) - 14) (lines_of program.now)) }
{
    let size = compiled.prg().len().saturating_sub(HEADER);
    let end = usize::from(BLOCK_AT) + size;
    let mut text = Vec::from_slice(alloc, b"part        addr   bytes    cost\n")?;
    let cost = push_parts(alloc, &mut text, compiled, size, program)?;
    push_row(alloc, &mut text, b"sum", BLOCK_AT, size, cost)?;
    let left = PROGRAM_END as usize - end;
    let budget = MOST_COST.saturating_sub(cost);
    push_row(alloc, &mut text, b"left", end as u16, left, budget)?;
    Ok(text)
}

// Appends the rows of the parts of a program whose image has `size` bytes, and answers its cost.
fn push_parts(
    alloc: Global,
    text: &mut Vec<u8>,
    compiled: &Compiled,
    size: usize,
    program: &Program,
) -> Result<u32, AllocError>
    requires small { cost.cost (lines_of program.now) < 4294967296 }
    requires ends { PROLOGUE_AT + size ≤ 0xA000 }
    ensures sum { IfOk result (λ sum. sum ≡ cost.cost (lines_of program.now)) }
    ensures rows { AppendsBytes result text.old text.new (row_text (block_part (starts_of compiled.now) (table_of compiled.now))
        ++ (rows_text (line_parts (starts_of compiled.now) (table_of compiled.now) (lines_of program.now))
        ++ row_text (table_part (table_of compiled.now) size))) }
{
    push_row(alloc, text, b"block", BLOCK_AT, block_size(compiled), BASE)?;
    let (starts, table) = (compiled.starts(), compiled.table());
    let cost = push_lines(alloc, text, starts, table, program)?;
    let rest = table_size(table, size);
    push_row(alloc, text, b"line_table", table, rest, 0)?;
    Ok(cost)
}

// How many bytes the block takes, up to the first line.
fn block_size(compiled: &Compiled) -> usize
    ensures { result ≡ end_before (table_of compiled.now) (starts_of compiled.now) - PROLOGUE_AT }
{
    let end = end_before(compiled.table(), compiled.starts());
    usize::from(end.saturating_sub(BLOCK_AT))
}

// How many bytes the line table takes in an image of `size` bytes.
fn table_size(table: u16, size: usize) -> usize
    requires { PROLOGUE_AT + size ≤ 0xA000 }
    ensures { result ≡ PROLOGUE_AT + size - table }
{
    (usize::from(BLOCK_AT) + size).saturating_sub(usize::from(table))
}

// Appends the rows of the lines, and answers the cost of the program.
fn push_lines(
    alloc: Global,
    text: &mut Vec<u8>,
    starts: &[LineStart],
    table: u16,
    program: &Program,
) -> Result<u32, AllocError>
    requires { cost.cost (lines_of program.now) < 4294967296 }
    ensures { IfOk result (λ sum. (sum ≡ cost.cost (lines_of program.now))
        × (text.new.items ≡ text.old.items ++ rows_text (line_parts (map pair_of starts.now) table
        (lines_of program.now)))) }
{
    let mut sum = BASE;
    let mut rest = starts;
    for (number, statement) in program.lines() {
        let cost = line_cost(statement);
        push_first(alloc, text, rest, table, *number, cost)?;
        rest = behind_first(rest);
        sum += cost;
    }
    Ok(sum)
}

// Appends the row of the first of these lines.
fn push_first(
    alloc: Global,
    text: &mut Vec<u8>,
    starts: &[LineStart],
    table: u16,
    number: u16,
    cost: u32,
) -> Result<(), AllocError>
    ensures { AppendsBytes result text.old text.new (rows_text (first_part (map pair_of starts.now) table number cost)) }
{
    let [first, behind @ ..] = starts else {
        return Ok(());
    };
    let name = format!(in alloc; "line {number}")?;
    let bytes = end_before(table, behind).saturating_sub(first.at);
    push_row(
        alloc,
        text,
        name.as_bytes(),
        first.at,
        usize::from(bytes),
        cost,
    )
}

fn behind_first(starts: &[LineStart]) -> &[LineStart]
    ensures { map pair_of result.now ≡ drop 1 (map pair_of starts.now) }
{
    match starts {
        [] => starts,
        [_, behind @ ..] => behind,
    }
}

// Appends a row: a name, an address, bytes and cost.
fn push_row(
    alloc: Global,
    text: &mut Vec<u8>,
    name: &[u8],
    at: u16,
    bytes: usize,
    cost: u32,
) -> Result<(), AllocError>
    ensures { AppendsBytes result text.old text.new (row_text (record { name = name.now; at = at; bytes = bytes; price = cost })) }
{
    push_left(text, name)?;
    text.extend_from_slice(encode_upper(alloc, at.to_be_bytes())?.as_bytes())?;
    push_right(alloc, text, bytes)?;
    push_right(alloc, text, cost as usize)?;
    text.extend_from_slice(b"\n")
}

// Appends a text, filled up with spaces.
fn push_left(text: &mut Vec<u8>, name: &[u8]) -> Result<(), AllocError>
    ensures { AppendsBytes result text.old text.new (left 12 name.now) }
{
    text.extend_from_slice(name)?;
    push_spaces(text, NAME_WIDTH.saturating_sub(name.len()))
}

// Appends a number with spaces before it.
fn push_right(alloc: Global, text: &mut Vec<u8>, number: usize) -> Result<(), AllocError>
    ensures { AppendsBytes result text.old text.new (right 8 number) }
{
    let digits = format!(in alloc; "{number}")?;
    push_spaces(text, NUMBER_WIDTH.saturating_sub(digits.len()))?;
    text.extend_from_slice(digits.as_bytes())
}

fn push_spaces(text: &mut Vec<u8>, count: usize) -> Result<(), AllocError>
    ensures { AppendsBytes result text.old text.new (replicate count 32) }
{
    let size = text.len();
    text.resize(size.saturating_add(count), b' ')
}
