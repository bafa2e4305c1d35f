//! The numbers of a line of a compiled source: those of its map.
ghost use Rattle.std.specs.Prelude.{◌≡◌, ◌+◌, ◌<◌, IfOk, drop, map};
ghost use Rattle.tb_basic_syntax.specs.PlainData.{lines_of, statement_of};
ghost use Rattle.tb_basic_meaning.specs.Cost as cost;
ghost use Rattle.tb_compiled.specs.Compiled.{pair_of};
ghost use Rattle.tb_lsp_hover.specs.Numbers.{NumbersAre, first_numbers, part_of};

use std::alloc::{AllocError, Global};
use tb_basic_syntax::{Program, Statement};
use tb_compiled::{
    Compile, CompileError, CompileSettings, LineStart, Notation, SizeLimit, end_before, line_cost,
};
use tb_parser::parse_in;

/// The numbers of a line of a program.
#[derive(Clone, Copy, Drop)]
pub struct LineNumbers {
    /// Where its code begins.
    pub at: u16,
    pub bytes: u16,
    pub cost: u32,
}

// The numbers of the first of these lines, with its cost.
fn first_numbers(starts: &[LineStart], table: u16, cost: u32) -> Option<LineNumbers>
    ensures { result ≡ first_numbers (map pair_of starts.now) table cost }
{
    match starts {
        [] => None,
        [first, behind @ ..] => Some(LineNumbers {
            at: first.at,
            bytes: end_before(table, behind).saturating_sub(first.at),
            cost,
        }),
    }
}

fn behind_first(starts: &[LineStart]) -> &[LineStart]
    ensures { map pair_of result.now ≡ drop 1 (map pair_of starts.now) }
{
    match starts {
        [] => starts,
        [_, behind @ ..] => behind,
    }
}

// The numbers of a line of a program, by where its lines begin and its line table does.
fn numbers_in(
    starts: &[LineStart],
    table: u16,
    program: &Program,
    number: u16,
) -> Option<LineNumbers>
    requires { cost.cost (lines_of program.now) < 4294967296 }
    ensures { result ≡ part_of number (map pair_of starts.now) table (lines_of program.now) }
{
    let mut rest = starts;
    for (line, statement) in program.lines() {
        if *line == number {
            return first_numbers(rest, table, line_cost(statement));
        }
        rest = behind_first(rest);
    }
    None
}

/// The numbers of a line of a source's program, if that is compiled in a notation. Fails only if memory runs out.
pub fn line_numbers<K: Compile>(
    compiler: &K,
    alloc: Global,
    notation: Notation,
    source: &[u8],
    number: u16,
) -> Result<Option<LineNumbers>, AllocError>
    ensures { IfOk result (NumbersAre K.own notation source.now number) }
{
    let settings = CompileSettings {
        seed: 0,
        size: SizeLimit::Memory,
        notation,
    };
    let compiled = match compiler.compile(alloc, source, settings) {
        Ok(compiled) => compiled,
        Err(CompileError::NoMemory) => return Err(AllocError),
        Err(_) => return Ok(None),
    };
    let Ok(program) = parse_in(alloc, notation, source) else {
        return Err(AllocError);
    };
    let (starts, table) = (compiled.starts(), compiled.table());
    Ok(numbers_in(starts, table, &program, number))
}
