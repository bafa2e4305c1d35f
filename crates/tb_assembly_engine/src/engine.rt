//! Assembling the file of a text.
ghost use Rattle.std.specs.Prelude.{◌≡◌, IfOk, MatchOption, false, map, true};
ghost use Rattle.tb_assembly_files.specs.Libraries.{source_of};
ghost use Rattle.tb_assembly_engine.specs.Deeds.{Assembles, MayWrite, Permits, Writes};
ghost use Rattle.tb_assembly_engine.specs.Gathering.{is_kept, kept_of};

use crate::gathering::gather;
use crate::outcome::{TextFailure, TextRefusal};
use crate::saving::{TextNames, outputs_of, save_all};
use std::alloc::{AllocError, Global};
use tb_assembly_output::{Assembly, Manner, SourceFile};
use tb_engine_files::{Barred, FileSystem, Output, STANDARD, may_write};

// The path of a file that must be kept: one that leads to a file, but for that of standard input.
#[tactic(auto, using(crate::proofs::Reading::paths))]
fn kept_path(path: &[u8]) -> Option<&str>
    ensures { MatchOption result (is_kept path.now ≡ false) (λ kept. (kept.now ≡ path.now) × (is_kept path.now ≡ true)) }
{
    let Ok(kept) = str::from_utf8(path) else {
        return None;
    };
    if kept == STANDARD { None } else { Some(kept) }
}

// The paths of the files that must be kept.
fn kept_of(alloc: Global, library: &[SourceFile]) -> Result<Vec<&str>, AllocError>
    ensures { IfOk result (λ r. map (λ p. p.now) r.items ≡ kept_of (map source_of library.now)) }
{
    let mut paths = Vec::new(alloc);
    for file in library {
        if let Some(path) = kept_path(&file.path) {
            paths.push(path)?;
        }
    }
    Ok(paths)
}

// Whether files may be written where others must be kept.
fn permit<F: FileSystem>(
    alloc: Global,
    files: &F,
    kept: &[&str],
    outputs: &[Output<'_>],
    is_forced: bool,
) -> Result<(), TextFailure>
    ensures { Permits F.leads F.shows files.now (map (λ p. p.now) kept.now) outputs.now is_forced result }
{
    match may_write(alloc, files, kept, outputs, is_forced) {
        Ok(()) => Ok(()),
        Err(Barred::SameFile) => Err(TextFailure::Refused(TextRefusal::SameFile)),
        Err(Barred::Source(path)) => {
            let path = String::from_str(alloc, path)?;
            Err(TextFailure::Refused(TextRefusal::IsSource(path)))
        }
        Err(Barred::Unlike(Output { path, kind })) => {
            let path = String::from_str(alloc, path)?;
            Err(TextFailure::Refused(TextRefusal::Unlike(path, kind)))
        }
        Err(Barred::NoMemory) => Err(TextFailure::NoMemory),
    }
}

// Whether all may be written where these files were read.
fn check<F: FileSystem>(
    alloc: Global,
    files: &F,
    library: &[SourceFile],
    names: TextNames<'_>,
    made: &Assembly,
) -> Result<(), TextFailure>
    ensures { MayWrite F.leads F.shows files.now (map source_of library.now) names.entry made.now result }
{
    let kept = kept_of(alloc, library)?;
    let outputs = outputs_of(alloc, names, made)?;
    permit(alloc, files, &kept, &outputs, names.is_forced)
}

/// Assembles the text of a file with all that it includes, and writes the PRG file, and the label file and the listing
/// where they are wanted. No file that was read is written, none that people write, and none that looks like something else.
pub fn assemble_source<F: FileSystem>(
    alloc: Global,
    files: &mut F,
    text: &str,
    manner: Manner,
    names: TextNames<'_>,
) -> Result<(), TextFailure>
    ensures { Assembles F.leads F.shows F.does F.holds text.now files.old manner names.entry result files.new }
{
    let gathered = gather(alloc, files, text, manner)?;
    write(alloc, files, &gathered.library, names, &gathered.made)
}

// Writes what was made of files that were read, if it may.
fn write<F: FileSystem>(
    alloc: Global,
    files: &mut F,
    library: &[SourceFile],
    names: TextNames<'_>,
    made: &Assembly,
) -> Result<(), TextFailure>
    ensures { Writes F.leads F.shows F.does files.old (map source_of library.now) names.entry made.now result files.new }
{
    check(alloc, files, library, names, made)?;
    save_all(files, names, made)
}
