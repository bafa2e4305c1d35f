//! Profiles by address: what each instruction of a run took, for a program of which there is no source.
ghost use Rattle.std.specs.Prelude.{◌≡◌, ◌<◌, IfOk, flat_map, length, map};
ghost use Rattle.tb_memmap.specs.Bytes.{at};
ghost use Rattle.tb_words.specs.Texts.{AppendsBytes};
ghost use Rattle.tb_engine_profile_table.specs.Figures.{percent, right, share};
ghost use Rattle.tb_engine_profile_table.specs.Rows.{start_pair};
ghost use Rattle.tb_engine_profile_table.specs.Addresses.{address_figures, address_row, address_text, addresses_table, code_text, each_address};
ghost use Rattle.tb_engine_profile_table.specs.Addresses.{instruction_in, instruction_text, ProfilesAddresses, taken_text, whole_row};

use crate::figures::{percent, push_column, push_right, share};
use crate::rows::{Row, Start, Table, Whole, profile};
use std::alloc::{AllocError, Global};
use tb_disasm::{first_line, write_item};
use tb_kernal::{CHRIN, CHROUT, GETIN, Machine, Outside, Watch};
use tb_memmap::Memory;
use tb_words::hex_digits;

const HEAD: &[u8] = b" addr      times        cycles   share  instruction\n";

/// The widths of the columns of an address, times, cycles and share.
const ADDRESS: usize = 5;

const TIMES: usize = 11;

const CYCLES: usize = 14;

const SHARE: usize = 8;

// Each address but 0 as a line of its own.
fn each_address(alloc: Global) -> Result<Vec<Start>, AllocError>
    ensures { IfOk result (λ starts. map start_pair starts.items ≡ each_address) }
{
    let mut starts = Vec::new(alloc);
    for before in 0..u16::MAX {
        let address = before + 1;
        starts.push(Start {
            line: address,
            address,
        })?;
    }
    Ok(starts)
}

/// Lets at most `limit` events of an outside happen, as `run` does, and counts what the instructions at each address
/// took. There is a row for each address but 0, in order, whose `line` is the address; what was done at address 0 is
/// the table's `start`. Fails only if memory runs out. A watch hears now and then how many events were taken.
pub fn profile_addresses<O: Outside, W: Watch>(
    alloc: Global,
    machine: &mut Machine,
    outside: &mut O,
    limit: u32,
    watch: &mut W,
) -> Result<Table, AllocError>
    ensures { ProfilesAddresses O.gives outside.old machine.old limit result outside.new machine.new }
{
    let starts = each_address(alloc)?;
    profile(alloc, machine, outside, &starts, limit, watch)
}

// Appends the instruction of these bytes at an address.
#[tactic(auto, unfolding(crate::specs::Addresses::instruction_text))]
fn push_bytes(
    alloc: Global,
    text: &mut Vec<u8>,
    address: u16,
    bytes: &[u8],
) -> Result<(), AllocError>
    ensures { AppendsBytes result text.old text.new (instruction_text address bytes.now) }
{
    if bytes.is_empty() {
        return text.extend_from_slice(b"-");
    }
    let (line, _) = first_line(address, bytes);
    let mut item = Vec::new(alloc);
    write_item(&mut item, &line.content)?;
    let shown = item.len().saturating_sub(1);
    text.extend_from_slice(&item[..shown])
}

// Appends the instruction that a memory holds at an address.
#[tactic(auto, unfolding(crate::specs::Addresses::instruction_in))]
fn push_instruction(
    alloc: Global,
    text: &mut Vec<u8>,
    memory: &Memory,
    address: u16,
) -> Result<(), AllocError>
    ensures { AppendsBytes result text.old text.new (instruction_in (at memory.now) address) }
{
    let first = memory.read(address);
    let second = memory.read(address.wrapping_add(1));
    let third = memory.read(address.wrapping_add(2));
    match (first, second, third) {
        (Ok(first), Ok(second), Ok(third)) => {
            push_bytes(alloc, text, address, &[first, second, third])
        }
        (Ok(first), Ok(second), Err(_)) => push_bytes(alloc, text, address, &[first, second]),
        (Ok(first), Err(_), _) => push_bytes(alloc, text, address, &[first]),
        (Err(_), _, _) => push_bytes(alloc, text, address, &[]),
    }
}

// Appends what stands at an address.
#[tactic(auto, unfolding(crate::specs::Addresses::code_text))]
fn push_code(
    alloc: Global,
    text: &mut Vec<u8>,
    memory: &Memory,
    address: u16,
) -> Result<(), AllocError>
    ensures { AppendsBytes result text.old text.new (code_text (at memory.now) address) }
{
    if address == CHRIN {
        text.extend_from_slice(b"chrin")
    } else if address == CHROUT {
        text.extend_from_slice(b"chrout")
    } else if address == GETIN {
        text.extend_from_slice(b"getin")
    } else {
        push_instruction(alloc, text, memory, address)
    }
}

// Appends the share of all cycles, in its column.
fn push_share(alloc: Global, text: &mut Vec<u8>, cycles: u64, all: u64) -> Result<(), AllocError>
    ensures { AppendsBytes result text.old text.new (right 8 (percent (share cycles all))) }
{
    push_right(text, SHARE, percent(alloc, share(cycles, all))?.as_bytes())
}

// Appends a name and its figures.
#[tactic(auto, unfolding(crate::specs::Addresses::taken_text))]
fn push_taken(
    alloc: Global,
    text: &mut Vec<u8>,
    name: &[u8],
    times: u64,
    cycles: u64,
    all: u64,
) -> Result<(), AllocError>
    ensures { AppendsBytes result text.old text.new (taken_text name.now times cycles all) }
{
    push_right(text, ADDRESS, name)?;
    push_column(alloc, text, TIMES, u128::from(times))?;
    push_column(alloc, text, CYCLES, u128::from(cycles))?;
    push_share(alloc, text, cycles, all)
}

// Appends an address and its figures.
#[tactic(auto, unfolding(crate::specs::Addresses::address_figures))]
fn push_figures(alloc: Global, text: &mut Vec<u8>, row: &Row, all: u64) -> Result<(), AllocError>
    ensures { AppendsBytes result text.old text.new (address_figures all row.now) }
{
    let digits = hex_digits(row.line);
    push_taken(
        alloc,
        text,
        digits.as_slice(),
        row.instructions,
        row.cycles,
        all,
    )
}

// Appends the row of an address.
#[tactic(auto, unfolding(crate::specs::Addresses::address_text))]
fn push_address(
    alloc: Global,
    text: &mut Vec<u8>,
    memory: &Memory,
    row: &Row,
    all: u64,
) -> Result<(), AllocError>
    ensures { AppendsBytes result text.old text.new (address_text (at memory.now) all row.now) }
{
    push_figures(alloc, text, row, all)?;
    text.extend_from_slice(b"  ")?;
    push_code(alloc, text, memory, row.line)?;
    text.extend_from_slice(b"\n")
}

// Appends the row of an address, if something was done there.
#[tactic(auto, unfolding(crate::specs::Addresses::address_row))]
fn push_row(
    alloc: Global,
    text: &mut Vec<u8>,
    memory: &Memory,
    row: &Row,
    all: u64,
) -> Result<(), AllocError>
    ensures { AppendsBytes result text.old text.new (address_row (at memory.now) all row.now) }
{
    if row.instructions == 0 {
        Ok(())
    } else {
        push_address(alloc, text, memory, row, all)
    }
}

// Appends the rows of addresses.
fn push_rows(
    alloc: Global,
    text: &mut Vec<u8>,
    memory: &Memory,
    rows: &[Row],
    all: u64,
) -> Result<(), AllocError>
    ensures { AppendsBytes result text.old text.new (flat_map (address_row (at memory.now) all) rows.now) }
{
    for row in rows {
        push_row(alloc, text, memory, row, all)?;
    }
    Ok(())
}

// Appends the row of the whole run.
#[tactic(auto, unfolding(crate::specs::Addresses::whole_row))]
fn push_whole(alloc: Global, text: &mut Vec<u8>, whole: &Whole) -> Result<(), AllocError>
    ensures { AppendsBytes result text.old text.new (whole_row whole.now) }
{
    push_taken(
        alloc,
        text,
        b"sum",
        whole.instructions,
        whole.cycles,
        whole.cycles,
    )?;
    text.extend_from_slice(b"\n")
}

// Appends the whole table.
#[tactic(auto, unfolding(crate::specs::Addresses::addresses_table))]
fn push_table(
    alloc: Global,
    text: &mut Vec<u8>,
    memory: &Memory,
    table: &Table,
) -> Result<(), AllocError>
    ensures { AppendsBytes result text.old text.new (addresses_table (at memory.now) table.now) }
{
    text.extend_from_slice(HEAD)?;
    push_row(alloc, text, memory, &table.whole.start, table.whole.cycles)?;
    push_rows(alloc, text, memory, &table.rows, table.whole.cycles)?;
    push_whole(alloc, text, &table.whole)
}

/// The table as a text: a row for each address where something was done, with the instruction that the memory holds
/// there, and one for the whole run. Fails only if memory runs out.
pub fn addresses_text(alloc: Global, memory: &Memory, table: &Table) -> Result<Vec<u8>, AllocError>
    ensures { IfOk result (λ text. text.items ≡ addresses_table (at memory.now) table.now) }
{
    let mut text = Vec::new(alloc);
    push_table(alloc, &mut text, memory, table)?;
    Ok(text)
}
