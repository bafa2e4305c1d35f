//! A text with all that it includes, file by file.
ghost use Rattle.std.specs.Prelude.{◌≡◌, ◌∷◌, ◌++◌, [], Err, MatchResult, Ok, OnErr, OnOk, map, option_map};
ghost use Rattle.tb_engine_files.specs.Deeds.{ReadsFile};
ghost use Rattle.tb_engine_streams.specs.declared.stream.InputError.TheVariants.{NoMemory};
ghost use Rattle.tb_assembly_files.specs.Libraries.{Source, source_of};
ghost use Rattle.tb_assembly_output.specs.Assembled.{Answers};
ghost use Rattle.tb_assembly_engine.specs.Gathering.{GivesText, LacksMemory, Takes};
ghost use Rattle.tb_assembly_engine.specs.Deeds.{Fails, IsMade, Stops};

use crate::outcome::{TextFailure, TextRefusal};
use std::alloc::{AllocError, Global};
use tb_assembly_output::{Assembled, Assembly, AssemblyError, Manner, SourceFile, assemble_texts};
use tb_engine_files::{FileSystem, read_file};
use tb_engine_streams::InputError;

/// The most files that a text and all that it includes may be in.
pub const MOST_FILES: usize = 256;

/// The files that were read, and what is made of them.
#[derive(Drop)]
pub struct Gathered {
    pub library: Vec<SourceFile>,
    pub made: Assembly,
}

// The text of the file at a path, if it can be read.
fn read_text<F: FileSystem>(
    alloc: Global,
    files: &mut F,
    path: &str,
) -> Result<Option<Vec<u8>>, AllocError>
    ensures { MatchResult result
        (λ text. GivesText F.does F.holds files.old path.now (option_map (λ t. t.items) text) files.new)
        (λ _. ReadsFile F.does F.holds files.old path.now (Err NoMemory) files.new) }
{
    match read_file(alloc, files, path) {
        Ok(text) => Ok(Some(text)),
        Err(InputError::Fault) => Ok(None),
        Err(InputError::NoMemory) => Err(AllocError),
    }
}

// The text at a path. One that is no UTF-8 leads to no file.
fn text_at<F: FileSystem>(
    alloc: Global,
    files: &mut F,
    path: &[u8],
) -> Result<Option<Vec<u8>>, AllocError>
    ensures { MatchResult result
        (λ text. Takes F.does F.holds files.old path.now (option_map (λ t. t.items) text) files.new)
        (λ _. LacksMemory F.does F.holds files.old path.now files.new) }
{
    match str::from_utf8(path) {
        Ok(name) => read_text(alloc, files, name),
        Err(_) => Ok(None),
    }
}

// Reads the file at a path, and puts it behind the others.
fn take_file<F: FileSystem>(
    alloc: Global,
    files: &mut F,
    path: Vec<u8>,
    library: &mut Vec<SourceFile>,
) -> Result<(), AllocError>
    ensures taken { OnOk result ((s : Source) × (s.path ≡ path.items) × Takes F.does F.holds files.old s.path s.text files.new
        × (map source_of library.new.items ≡ map source_of library.old.items ++ s ∷ [])) }
    ensures stopped { OnErr result (LacksMemory F.does F.holds files.old path.items files.new) }
{
    let text = text_at(alloc, files, &path)?;
    library.push(SourceFile { path, text })?;
    Ok(())
}

// What is made of the files that were read, or the path of one more.
fn answer(alloc: Global, library: &[SourceFile], manner: Manner) -> Result<Assembled, TextFailure>
    ensures { MatchResult result (λ a. Answers manner (map source_of library.now) (Ok a)) (Fails manner (map source_of library.now)) }
{
    match assemble_texts(alloc, library, manner) {
        Ok(assembled) => Ok(assembled),
        Err(AssemblyError::Item(error)) => Err(TextFailure::Refused(TextRefusal::Item(error))),
        Err(AssemblyError::NoMemory) => Err(TextFailure::NoMemory),
    }
}

/// Reads a text with all that it includes, file by file, and assembles it.
pub fn gather<F: FileSystem>(
    alloc: Global,
    files: &mut F,
    text: &str,
    manner: Manner,
) -> Result<Gathered, TextFailure>
    ensures { MatchResult result
        (λ r. IsMade F.does F.holds text.now files.old manner (map source_of r.library.items) r.made files.new)
        (λ why. Stops F.does F.holds text.now files.old manner why files.new) }
{
    let mut library = Vec::new(alloc);
    let path = Vec::from_slice(alloc, text.as_bytes())?;
    take_file(alloc, files, path, &mut library)?;
    'reading: while library.len() <= MOST_FILES {
        match answer(alloc, &library, manner) {
            Ok(Assembled::Made(made)) => return Ok(Gathered { library, made }),
            Ok(Assembled::Wants(path)) => take_file(alloc, files, path, &mut library)?,
            Ok(Assembled::Refused(said)) => {
                return Err(TextFailure::Refused(TextRefusal::Said(said)));
            }
            Ok(Assembled::Unread) => return Err(TextFailure::ReadFault),
            Err(outcome) => return Err(outcome),
        }
    }
    Err(TextFailure::Refused(TextRefusal::TooManyFiles))
}
