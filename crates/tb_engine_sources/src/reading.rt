//! Reading and compiling a source.
ghost use Rattle.std.specs.Prelude.{◌≡◌, ◌↔◌, ℕ, List, Err};
ghost use Rattle.tb_compiled_errors.specs.declared.refusals.CompileError.{CompileError};
ghost use Rattle.tb_compiled.specs.declared.settings.CompileSettings.{CompileSettings};
ghost use Rattle.tb_engine_streams.specs.Uses.{use_of, TakesInput};
ghost use Rattle.tb_engine_sources.specs.Refused.{IsRefused};
ghost use Rattle.tb_compiled.specs.Answers.{Compiles};
ghost use Rattle.tb_engine_sources.specs.Sources.{stop_of};
ghost use Rattle.tb_engine_sources.specs.Reading.{CompilesText, ReadsSource};

use std::alloc::Global;
use std::io::Read;
use tb_compiled::{Compile, CompileError, CompileSettings, Compiled};
use tb_engine_streams::{Tracked, read_input};
use tb_engines::{Failure, Refusal};

/// A source, and what it was compiled to. The program has its warnings.
#[derive(Drop)]
pub struct CompiledSource {
    pub text: Vec<u8>,
    pub program: Compiled,
}

/// How an engine stops where a source is not compiled. Want of memory is no refusal.
pub fn stop_of(error: CompileError) -> Failure
    ensures { result ≡ stop_of error }
{
    match error {
        CompileError::NoMemory => Failure::NoMemory,
        _ => Failure::Refused(Refusal::Source(error)),
    }
}

/// A law: a compiler answers a refusal exactly for the sources that are refused for it, as is said of the source
/// alone. It does nothing.
pub fn refusals_are_answers<K: Compile>()
    ensures { (settings : CompileSettings) (source : List ℕ) (e : CompileError)
        → Compiles K.own settings source (Err e) ↔ IsRefused K.own settings source e }
{}

/// Compiles a source.
pub fn compile_source<K: Compile>(
    compiler: &K,
    alloc: Global,
    text: Vec<u8>,
    settings: CompileSettings,
) -> Result<CompiledSource, Failure>
    ensures { CompilesText K.own settings text.items result }
{
    match compiler.compile(alloc, text.as_slice(), settings) {
        Ok(program) => Ok(CompiledSource { text, program }),
        Err(error) => Err(stop_of(error)),
    }
}

/// Reads a source and compiles it.
pub fn read_source<K: Compile, R: Read>(
    compiler: &K,
    alloc: Global,
    reader: &mut Tracked<R>,
    settings: CompileSettings,
) -> Result<CompiledSource, Failure>
    ensures answers { ReadsSource K.own settings result (use_of R.remaining reader.old reader.new) }
    ensures taken { TakesInput (use_of R.remaining reader.old reader.new) }
{
    let text = read_input(alloc, reader)?;
    compile_source(compiler, alloc, text, settings)
}
