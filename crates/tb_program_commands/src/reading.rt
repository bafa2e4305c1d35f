//! Sources that are read and compiled, by the words of the command line and by their own, and of which a person is warned
//! before they run.
use crate::saying::say;
use std::rt::Files;
use tb_basic_options::{OwnOptions, own_options};
use tb_codegen::TinyBasic;
use tb_compiled::{CompileSettings, Notation};
use tb_engine_sources::{CompiledSource, read_source};
use tb_engines::{Outcome, Warnings};
use tb_program_endings::Note;
use tb_program_files::opened;
use tb_program_host::Host;
use tb_program_jobs::{SourceOptions, settings_of};

/// How the source at a path is compiled, which is opened next.
pub fn settings_for<R: Files + Print + Eprint + Input + AllocGlobal>(
    host: &mut Host<'_, R>,
    path: &str,
    options: SourceOptions,
) -> CompileSettings {
    settings_of(options, options_at(host, path))
}

/// How the texts of the source at a path are read, which is opened next.
pub fn notation_at<R: Files + Print + Eprint + Input + AllocGlobal>(
    host: &mut Host<'_, R>,
    path: &str,
    notation: Notation,
) -> Notation {
    options_at(host, path).notation(notation)
}

// The options that the source at a path has by its own words. A person at a terminal hears of a word that is none.
fn options_at<R: Files + Print + Eprint + Input + AllocGlobal>(
    host: &mut Host<'_, R>,
    path: &str,
) -> OwnOptions {
    let own = own_options(host.read_ahead(path));
    if let (true, Some(bad)) = (host.notes, own.bad) {
        say(host.rt, Note::Passed(path, bad));
    }
    own
}

/// Reads and compiles a source, and writes its warnings.
pub fn read_warned<R: Files + Print + Eprint + Input + AllocGlobal>(
    host: &mut Host<'_, R>,
    path: &str,
    options: SourceOptions,
) -> Result<CompiledSource, Outcome> {
    let rt = host.rt;
    let settings = settings_for(host, path, options);
    let source = match read_source(&TinyBasic, rt.alloc(), &mut opened(host, path)?, settings) {
        Ok(source) => source,
        Err(stop) => return Err(Outcome::of(Err(stop))),
    };
    let warnings = Warnings(source.program.warnings());
    // Nobody can be told that standard error fails.
    let _ = eprint!(rt; "{warnings}");
    Ok(source)
}
