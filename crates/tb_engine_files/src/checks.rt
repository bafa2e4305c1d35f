//! Which files a command may write.
ghost use Rattle.std.specs.Prelude.{◌≡◌, IfOk, find, map, option_map};
ghost use Rattle.tb_engine_files.specs.Checks.{Allows, AreNamed, AreSeen, Judges, Looks, first_text, is_kept_name, is_text_there, is_unlike, path_of};

use crate::looks::{Kind, Look, looks_like};
use crate::names::{is_assembler_name, is_source_name};
use crate::places::{Named, Place, clashes};
use crate::system::FileSystem;
use std::alloc::{AllocError, Global};

/// A path that is to be written, with what a command writes there.
#[derive(Clone, Copy, Debug)]
pub struct Output<'a> {
    pub path: &'a str,
    pub kind: Kind,
}

/// Why nothing may be written.
#[derive(Debug, Drop)]
pub enum Barred<'a> {
    /// A file that must be kept would be written, or one would be written twice.
    SameFile,
    /// A text that people write is there, at this path.
    Source(&'a str),
    /// What is there doesn't look like what would be written.
    Unlike(Output<'a>),
    /// Memory ran out.
    NoMemory,
}

// Paths, with where they lead.
#[tactic(auto, using(crate::proofs::LookedUp::looked_up))]
fn named<'a, F: FileSystem>(
    alloc: Global,
    files: &F,
    paths: &[&'a str],
) -> Result<Vec<Named<'a>>, AllocError>
    ensures { IfOk result (λ named. AreNamed F.leads files.now (map (λ p. p.now) paths.now) named.items) }
{
    let mut named = Vec::new(alloc);
    for &path in paths {
        let place = files.place(alloc, path)?;
        named.push(Named { path, place })?;
    }
    Ok(named)
}

// The paths of outputs.
fn paths_of<'a>(alloc: Global, outputs: &[Output<'a>]) -> Result<Vec<&'a str>, AllocError>
    ensures { IfOk result (λ paths. map (λ p. p.now) paths.items ≡ map path_of outputs.now) }
{
    let mut paths = Vec::new(alloc);
    for output in outputs {
        paths.push(output.path)?;
    }
    Ok(paths)
}

// Whether a path ends as that of a text that people write and that is never written over. Whether a listing is one is seen
// by what it looks like.
fn is_kept_name(kind: Kind, path: &str) -> bool
    ensures { result ≡ is_kept_name kind path.now }
{
    is_source_name(path) || (kind != Kind::Listing && is_assembler_name(path))
}

fn is_text_there(kind: Kind, file: &Named<'_>) -> bool
    ensures { result ≡ is_text_there kind file.now }
{
    match &file.place {
        Place::File(_, end) => is_kept_name(kind, file.path) || is_kept_name(kind, end.as_str()),
        Place::Missing(_, _) | Place::Elsewhere => false,
    }
}

// The first text of people that is there, by its path.
fn text_among<'a>(written: &[Named<'a>], outputs: &[Output<'a>]) -> Option<&'a str>
    ensures { option_map (λ p. p.now) result ≡ first_text written.now outputs.now }
{
    let [file, files @ ..] = written else {
        return None;
    };
    let [output, others @ ..] = outputs else {
        return None;
    };
    if is_text_there(output.kind, file) {
        Some(file.path)
    } else {
        text_among(files, others)
    }
}

// Whether files may be written of which it is known where they lead, whatever is in them.
fn judged<'a>(
    kept: &[Named<'a>],
    written: &[Named<'a>],
    outputs: &[Output<'a>],
) -> Result<(), Barred<'a>>
    ensures { Allows kept.now written.now outputs.now result }
{
    if clashes(kept, written) {
        return Err(Barred::SameFile);
    }
    match text_among(written, outputs) {
        Some(path) => Err(Barred::Source(path)),
        None => Ok(()),
    }
}

// An output, with a look at what is there.
#[derive(Drop)]
struct Seen<'a> {
    output: Output<'a>,
    look: Option<Look>,
}

// Outputs, with a look at what is there.
#[tactic(auto, using(crate::proofs::LookedUp::looked_up))]
fn seen_at<'a, F: FileSystem>(
    alloc: Global,
    files: &F,
    outputs: &[Output<'a>],
) -> Result<Vec<Seen<'a>>, AllocError>
    ensures { IfOk result (λ seen. AreSeen F.shows files.now outputs.now seen.items) }
{
    let mut seen = Vec::new(alloc);
    for &output in outputs {
        let look = files.look(alloc, output.path)?;
        seen.push(Seen { output, look })?;
    }
    Ok(seen)
}

// Whether what is there doesn't look like what is to be written.
fn is_unlike(seen: &Seen<'_>) -> bool
    ensures { result ≡ is_unlike seen.now }
{
    match &seen.look {
        Some(look) => !looks_like(seen.output.kind, look),
        None => false,
    }
}

// The first output where something else is.
fn unlike_among<'a>(outputs: &[Seen<'a>]) -> Option<Output<'a>>
    ensures { result ≡ option_map (λ s. s.output) (find is_unlike outputs.now) }
{
    outputs
        .iter()
        .find(|seen| is_unlike(seen))
        .map(|seen| seen.output)
}

// Whether each file that is there looks like what is to be written.
fn looked_at<'a, F: FileSystem>(
    alloc: Global,
    files: &F,
    outputs: &[Output<'a>],
) -> Result<(), Barred<'a>>
    ensures { Looks F.shows files.now outputs.now result }
{
    let Ok(seen) = seen_at(alloc, files, outputs) else {
        return Err(Barred::NoMemory);
    };
    match unlike_among(seen.as_slice()) {
        Some(output) => Err(Barred::Unlike(output)),
        None => Ok(()),
    }
}

/// Whether a command may write files: none of them may be one of those that must be kept, be written twice, or be a text
/// that people write and that is there. What else is there must look like what is written, unless it is forced. A file of
/// which the text is replaced by one that is made of it (`replace`) is no subject of this.
pub fn may_write<'a, F: FileSystem>(
    alloc: Global,
    files: &F,
    kept: &[&'a str],
    written: &[Output<'a>],
    is_forced: bool,
) -> Result<(), Barred<'a>>
    ensures { Judges F.leads F.shows files.now (map (λ p. p.now) kept.now) written.now is_forced result }
{
    let Ok(paths) = paths_of(alloc, written) else {
        return Err(Barred::NoMemory);
    };
    let Ok(kept) = named(alloc, files, kept) else {
        return Err(Barred::NoMemory);
    };
    let Ok(places) = named(alloc, files, paths.as_slice()) else {
        return Err(Barred::NoMemory);
    };
    judged(kept.as_slice(), places.as_slice(), written)?;
    if is_forced {
        Ok(())
    } else {
        looked_at(alloc, files, written)
    }
}
