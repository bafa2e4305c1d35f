//! Writing what was made.
ghost use Rattle.std.specs.Prelude.{◌≡◌, ◌∷◌, ◌++◌, [], IfOk, Ok, map, option_map};
ghost use Rattle.tb_engine_files.specs.Checks.{put_of};
ghost use Rattle.tb_engine_files.specs.Deeds.{Saves};
ghost use Rattle.tb_assembly_engine.specs.Deeds.{Puts, load_address, outputs_of, save_of, saves_of, wanted};

use crate::outcome::{TextFailure, unwritten};
use std::alloc::{AllocError, Global};
use tb_assembly_output::Assembly;
use tb_engine_files::{FileSystem, Kind, Output, code_kind};

/// What assembling writes: the PRG file, and the label file and the listing, if they are wanted.
#[derive(Clone, Copy)]
pub struct TextNames<'a> {
    pub out: &'a str,
    pub labels: Option<&'a str>,
    pub listing: Option<&'a str>,
    /// Whether a file is replaced that looks like something else.
    pub is_forced: bool,
}

// The load address of a PRG file.
fn load_address(prg: &[u8]) -> Option<u16>
    ensures { result ≡ load_address prg.now }
{
    match prg {
        [low, high, ..] => Some(u16::from_le_bytes([*low, *high])),
        _ => None,
    }
}

// Outputs, and another one behind them, if it is wanted.
fn with_wanted<'a>(
    mut outputs: Vec<Output<'a>>,
    kind: Kind,
    path: Option<&'a str>,
) -> Result<Vec<Output<'a>>, AllocError>
    ensures { IfOk result (λ r. map put_of r.items ≡ map put_of outputs.entry.items ++ wanted kind (option_map (λ p. p.now) path.entry)) }
{
    if let Some(path) = path {
        outputs.push(Output { path, kind })?;
    }
    Ok(outputs)
}

/// All that is written, in order.
pub fn outputs_of<'a>(
    alloc: Global,
    names: TextNames<'a>,
    made: &Assembly,
) -> Result<Vec<Output<'a>>, AllocError>
    ensures { IfOk result (λ r. map put_of r.items ≡ outputs_of names.entry made.now) }
{
    let mut outputs = Vec::new(alloc);
    outputs.push(Output {
        path: names.out,
        kind: code_kind(names.out, load_address(&made.prg)),
    })?;
    let outputs = with_wanted(outputs, Kind::Labels, names.labels)?;
    with_wanted(outputs, Kind::Listing, names.listing)
}

// Writes a text to a path.
fn save<F: FileSystem>(files: &mut F, path: &str, text: &[u8]) -> Result<(), TextFailure>
    ensures { Puts F.does files.old (Saves path.now text.now (Ok tt) ∷ []) result files.new }
{
    match files.save(path, text) {
        Ok(()) => Ok(()),
        Err(trouble) => Err(unwritten(trouble)),
    }
}

// Writes a text to a path, if that is named.
fn save_wanted<F: FileSystem>(
    files: &mut F,
    path: Option<&str>,
    text: &[u8],
) -> Result<(), TextFailure>
    ensures { Puts F.does files.old (save_of (option_map (λ p. p.now) path.entry) text.now) result files.new }
{
    match path {
        Some(path) => save(files, path, text),
        None => Ok(()),
    }
}

/// Writes what was made: each file whole before the next one, up to the first that can't be written.
pub fn save_all<F: FileSystem>(
    files: &mut F,
    names: TextNames<'_>,
    made: &Assembly,
) -> Result<(), TextFailure>
    ensures { Puts F.does files.old (saves_of names.entry made.now) result files.new }
{
    save(files, names.out, &made.prg)?;
    save_wanted(files, names.labels, &made.labels)?;
    save_wanted(files, names.listing, &made.listing)
}
