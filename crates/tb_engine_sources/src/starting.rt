//! The machine that a compiled program starts with.
ghost use Rattle.tb_compiled.specs.Compiled.{prg_of};
ghost use Rattle.tb_engines.specs.Programs.{StartsPrg};
ghost use Rattle.tb_engine_sources.specs.Starting.{IsLoadable, StartsLoadable};

use std::alloc::Global;
use tb_compiled::Compiled;
use tb_engines::{NoText, start_file};
use tb_kernal::{Keyboard, Machine};

/// The machine at the start of a compiled program, as `run_prg` starts its PRG file. A program that the compiler made is
/// loadable, and none such is refused.
pub fn start_program(
    alloc: Global,
    program: &Compiled,
    keyboard: Keyboard,
) -> Result<Machine, NoText>
    ensures prg { StartsPrg keyboard.text.items keyboard.answers.items (prg_of program.now) result }
    ensures loadable { IsLoadable program.now
        → StartsLoadable keyboard.text.items keyboard.answers.items program.now result }
{
    start_file(alloc, program.prg(), keyboard)
}
