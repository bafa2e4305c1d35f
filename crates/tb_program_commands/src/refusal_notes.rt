//! Notes on a source or a text that is refused: the line with its place, and what helps.
use crate::saying::say;
use std::alloc::AllocError;
use std::rt::Files;
use tb_assembly_reasons::{item_text, line_text};
use tb_basic_options::own_options;
use tb_codegen::TinyBasic;
use tb_compiled::{CompileError, SizeLimit};
use tb_engine_check::refusal_text;
use tb_engine_files::{FileSystem, Place};
use tb_engine_sources::bytes_to_fit;
use tb_engine_streams::{Tracked, read_input};
use tb_engines::Refusal;
use tb_program_endings::Note;
use tb_program_files::opened;
use tb_program_host::{Host, Source};
use tb_program_jobs::{Compiles, Job, Runnable, SourceOptions, settings_of};
use tb_program_reasons::{FileNote, FileReason};

/// Says what helps with a source that is refused.
pub fn note_source<R: Files + Print + Eprint + Input + AllocGlobal>(
    host: &mut Host<'_, R>,
    job: &Job,
    error: CompileError,
) {
    let Some(compiles) = job.compiles() else {
        return;
    };
    if let Some(source) = read_again(host, compiles.source) {
        note_refusal(host, &compiles, source.as_slice(), error);
    }
    if let (CompileError::Source(_), Some(Runnable::Source(path))) = (error, job.runs()) {
        note_program(host, path.as_str());
    }
}

fn note_refusal<R: Eprint + AllocGlobal>(
    host: &Host<'_, R>,
    compiles: &Compiles<'_>,
    source: &[u8],
    error: CompileError,
) {
    if let CompileError::TooLarge(_) = error {
        note_fit(host, compiles.options, source);
        return;
    }
    let notation = own_options(source).notation(compiles.options.notation);
    show(
        host,
        refusal_text(
            &TinyBasic,
            host.rt.alloc(),
            compiles.source,
            source,
            notation,
            error,
        ),
    );
}

// That a PRG file is run with an option, if one is given as a source.
fn note_program<R: Eprint>(host: &Host<'_, R>, path: &str) {
    let name = path.as_bytes();
    if name.ends_with(b".prg") || name.ends_with(b".PRG") {
        let reason = FileReason::Program;
        say(host.rt, FileNote { path, reason });
    }
}

/// Says what helps with a text that is not assembled.
pub fn note_text<R: Files + Print + Eprint + Input + AllocGlobal>(
    host: &mut Host<'_, R>,
    job: &Job,
    refusal: Refusal,
) {
    let Job::Asm(job) = job else {
        return;
    };
    let path = job.text.as_str();
    let Some(text) = read_again(host, path) else {
        return;
    };
    let alloc = host.rt.alloc();
    match refusal {
        Refusal::TextLine(line) => show(host, line_text(alloc, path, text.as_slice(), line)),
        Refusal::Item(error) => show(host, item_text(alloc, path, text.as_slice(), error)),
        Refusal::Prg(_) | Refusal::NotRam | Refusal::Source(_) => {}
    }
}

// That `--fit` compiles a source that is refused by its cost alone.
fn note_fit<R: Eprint + AllocGlobal>(host: &Host<'_, R>, options: SourceOptions, source: &[u8]) {
    let settings = settings_of(options, own_options(source));
    if settings.size == SizeLimit::Memory {
        return;
    }
    let mut source = Tracked::new(source);
    if let Some(bytes) = bytes_to_fit(&TinyBasic, host.rt.alloc(), &mut source, settings) {
        say(host.rt, Note::Fits(bytes));
    }
}

// Shows what there is to say of a file. Without memory nothing is said.
fn show<R: Eprint + AllocGlobal>(host: &Host<'_, R>, said: Result<Vec<u8>, AllocError>) {
    let Ok(said) = said else {
        return;
    };
    if let Ok(said) = String::from_utf8_lossy(host.rt.alloc(), said.as_slice()) {
        // Nobody can be told that standard error fails.
        let _ = eprint!(host.rt; "{said}");
    }
}

// The bytes of a file that is read once more.
fn read_again<R: Files + Print + Input + AllocGlobal>(
    host: &mut Host<'_, R>,
    path: &str,
) -> Option<Vec<u8>> {
    let mut file = opened_again(host, path)?;
    read_input(host.rt.alloc(), &mut file).ok()
}

// A file is read once more, since an engine keeps none that it refuses; but only a regular file gives the same again.
fn opened_again<R: Files + Print + Input + AllocGlobal>(
    host: &mut Host<'_, R>,
    path: &str,
) -> Option<Tracked<Source<R>>> {
    match host.place(host.rt.alloc(), path) {
        Ok(Place::File(_, _)) => opened(host, path).ok(),
        Ok(Place::Missing(_, _) | Place::Elsewhere) | Err(AllocError) => None,
    }
}
