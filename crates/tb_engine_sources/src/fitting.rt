//! Whether a source that costs too much would compile if the memory alone were the limit.
ghost use Rattle.std.specs.Prelude.{IfSome};
ghost use Rattle.tb_engine_streams.specs.Uses.{use_of};
ghost use Rattle.tb_engine_sources.specs.Fitting.{FitsWith};

use crate::reading::read_source;
use std::alloc::Global;
use std::io::Read;
use tb_compiled::{Compile, CompileSettings, SizeLimit};
use tb_compiled_kept::LINES_AT;
use tb_engine_streams::Tracked;
use tb_memmap::CODE_START;

/// How many bytes a PRG file has before the first line's code: its load address, the BASIC line and the block.
const BEFORE_LINES: usize = 14 + (LINES_AT - CODE_START) as usize;

/// How many bytes the code and the line table of a source take, if it compiles with these settings and the memory as its
/// limit. None if it doesn't, can't be read, or memory runs out.
pub fn bytes_to_fit<K: Compile, R: Read>(
    compiler: &K,
    alloc: Global,
    reader: &mut Tracked<R>,
    settings: CompileSettings,
) -> Option<usize>
    ensures { IfSome result (λ bytes. FitsWith K.own settings bytes (use_of R.remaining reader.old reader.new)) }
{
    let settings = CompileSettings {
        size: SizeLimit::Memory,
        ..settings
    };
    match read_source(compiler, alloc, reader, settings) {
        Ok(source) => Some(source.program.prg().len().saturating_sub(BEFORE_LINES)),
        Err(_) => None,
    }
}
