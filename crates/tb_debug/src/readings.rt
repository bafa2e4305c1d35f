//! What a machine's memory holds.
ghost use Rattle.std.specs.Prelude.{◌≡◌, ◌++◌, ◌≤◌, map, min, IfOk, OnOk};
ghost use Rattle.tb_memmap.specs.Bytes.{at, peek};
ghost use Rattle.tb_disasm.specs.Lines.{shown};
ghost use Rattle.tb_kernal.specs.Machine.{state_of};
ghost use Rattle.tb_basic_meaning.specs.Control.{deepest};
ghost use Rattle.tb_compiled.specs.Compiled.{pair_of, starts_of};
ghost use Rattle.tb_debug_inspection.specs.Readings.{values_in};
ghost use Rattle.tb_debug.specs.Readings.{IsCodeLine, as_read, bytes_of, code_bytes, code_of, depth_in, returns_of};
ghost use Rattle.tb_debug.specs.Lines.{line_at};

use std::alloc::{AllocError, Global};
use tb_basic_meaning::DEEPEST;
use tb_compiled::{Compiled, LineStart};
use tb_debug_inspection::{Variables, depth, return_address, variables};
use tb_disasm::{Line, first_line};
use tb_kernal::Machine;
use tb_memmap::Memory;

/// How many addresses there are.
const ADDRESSES: u32 = 65_536;

/// The most bytes of an instruction.
const MOST_LENGTH: usize = 3;

/// The variables of a machine.
pub fn variables_in(machine: &Machine) -> Variables
    ensures { result ≡ values_in (state_of machine.now).mem }
{
    variables(machine.memory())
}

/// The lines to return to, the newest first; none for a return past the last line.
pub fn returns(
    alloc: Global,
    memory: &Memory,
    program: &Compiled,
) -> Result<Vec<Option<u16>>, AllocError>
    ensures { IfOk result (λ lines. lines.items ≡ returns_of (starts_of program.now) (at memory.now)) }
{
    let count = depth_in(memory);
    let mut lines = Vec::new(alloc);
    for told in 0..count {
        lines.push(line_from(program, return_address(memory, count - 1 - told)))?;
    }
    Ok(lines)
}

/// How many returns are told: as many as the return list holds, and no more than it may hold.
pub fn depth_in(memory: &Memory) -> u16
    ensures depth { result ≡ depth_in (at memory.now) }
    ensures few { result ≤ deepest }
{
    usize::from(depth(memory)).min(DEEPEST) as u16
}

/// The line that begins at an address.
pub fn line_from(program: &Compiled, address: u16) -> Option<u16>
    ensures { result ≡ line_at (starts_of program.now) address }
{
    first_at(program.starts(), address)
}

// The number of the first of these lines that begins at an address.
fn first_at(starts: &[LineStart], address: u16) -> Option<u16>
    ensures { result ≡ line_at (map pair_of starts.now) address }
{
    match starts {
        [] => None,
        [first, rest @ ..] => if address == first.at {
            Some(first.number)
        } else {
            first_at(rest, address)
        },
    }
}

// The byte at an address; none for a closed address.
fn open_byte(memory: &Memory, address: u16) -> Option<u8>
    ensures { result ≡ as_read (peek (at memory.now) address) }
{
    match memory.read(address) {
        Ok(byte) => Some(byte),
        Err(_) => None,
    }
}

/// `count` bytes from an address on, up to the last address; none for a closed address.
pub fn bytes_from(
    alloc: Global,
    memory: &Memory,
    address: u16,
    count: u16,
) -> Result<Vec<Option<u8>>, AllocError>
    ensures { IfOk result (λ bytes. bytes.items ≡ bytes_of (at memory.now) address count) }
{
    let most = ADDRESSES - u32::from(address);
    let count = u32::from(count).min(most);
    let mut bytes = Vec::new(alloc);
    for index in 0..count {
        bytes.push(open_byte(memory, address + index as u16))?;
    }
    Ok(bytes)
}

// A line of code with its size, three bytes at most.
fn sized(line: (Line, usize)) -> (Line, u16)
    ensures line { result.0 ≡ line.0 }
    ensures size { result.1 ≡ min line.1 3 }
{
    (line.0, line.1.min(MOST_LENGTH) as u16)
}

// The line of code at an address, and its size; none at a closed address.
fn code_line(memory: &Memory, address: u16) -> Option<(Line, u16)>
    ensures { IsCodeLine result address (code_bytes (at memory.now) address) }
{
    let first = memory.read(address);
    let second = memory.read(address.wrapping_add(1));
    let third = memory.read(address.wrapping_add(2));
    match (first, second, third) {
        (Ok(first), Ok(second), Ok(third)) => {
            Some(sized(first_line(address, &[first, second, third])))
        }
        (Ok(first), Ok(second), Err(_)) => Some(sized(first_line(address, &[first, second]))),
        (Ok(first), Err(_), _) => Some(sized(first_line(address, &[first]))),
        (Err(_), _, _) => None,
    }
}

/// At most `count` lines of code from an address on, up to a closed address.
pub fn code_from(
    alloc: Global,
    memory: &Memory,
    address: u16,
    count: usize,
) -> Result<Vec<Line>, AllocError>
    ensures { IfOk result (λ lines. map shown lines.items ≡ code_of count (at memory.now) address) }
{
    let mut lines = Vec::new(alloc);
    push_code(&mut lines, memory, address, count)?;
    Ok(lines)
}

// Appends at most `count` lines of code from an address on, up to a closed address.
fn push_code(
    lines: &mut Vec<Line>,
    memory: &Memory,
    address: u16,
    count: usize,
) -> Result<(), AllocError>
    ensures { OnOk result (map shown lines.new.items ≡ map shown lines.old.items ++ code_of count (at memory.now) address) }
{
    if count == 0 {
        return Ok(());
    }
    let Some((line, size)) = code_line(memory, address) else {
        return Ok(());
    };
    lines.push(line)?;
    push_code(lines, memory, address.wrapping_add(size), count - 1)?;
    Ok(())
}
