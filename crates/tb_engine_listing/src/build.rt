//! All texts that a build makes of one compilation.
ghost use Rattle.std.specs.Prelude.{◌≡◌, ◌+◌, ◌-◌, ◌≤◌, ◌<◌, length, IfOk};
ghost use Rattle.tb_basic_syntax.specs.PlainData.{lines_of};
ghost use Rattle.tb_basic_meaning.specs.Cost.{cost};
ghost use Rattle.tb_runtime16.specs.Addresses.{PROLOGUE_AT};
ghost use Rattle.tb_compiled.specs.Compiled.{prg_of};
ghost use Rattle.tb_engine_listing.specs.Builds.{IsMade, IsProgramOf, Tells};

use crate::label_file::labels;
use crate::listing::list;
use crate::map::chart;
use std::alloc::{AllocError, Global};
use tb_basic_syntax::Program;
use tb_compiled::{Compiled, Notation};
use tb_parser::parse_in;

/// The texts about a compiled source.
#[derive(Drop)]
pub struct Made {
    /// The label file for VICE's monitor.
    pub labels: Vec<u8>,
    /// Assembler text that gives the image back.
    pub listing: Vec<u8>,
    /// The address of each part, what it takes and what it costs.
    pub map: Vec<u8>,
}

/// Makes all texts about a source that was compiled in a notation.
pub fn make(
    alloc: Global,
    source: &[u8],
    notation: Notation,
    compiled: &Compiled,
) -> Result<Made, AllocError>
    requires { IsProgramOf notation source.now compiled.now }
    ensures { IfOk result (IsMade notation source.now compiled.now) }
{
    // What was compiled is a program: parsing can only fail for lack of memory here.
    let Ok(program) = parse_in(alloc, notation, source) else {
        return Err(AllocError);
    };
    all_of(alloc, source, compiled, &program)
}

// All texts about a compiled source.
fn all_of(
    alloc: Global,
    source: &[u8],
    compiled: &Compiled,
    program: &Program,
) -> Result<Made, AllocError>
    requires small { cost (lines_of program.now) < 4294967296 }
    requires headed { 14 ≤ length (prg_of compiled.now) }
    requires ends { PROLOGUE_AT + (length (prg_of compiled.now) - 14) ≤ 0xA000 }
    ensures { IfOk result (Tells source.now compiled.now (lines_of program.now)) }
{
    Ok(Made {
        labels: labels(alloc, compiled.starts(), compiled.table())?,
        listing: list(alloc, compiled, source)?,
        map: chart(alloc, compiled, program)?,
    })
}
