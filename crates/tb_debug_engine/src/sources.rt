//! A source's lines as they are written.
ghost use Rattle.std.specs.Prelude.{◌≡◌, IfOk, map};
ghost use Rattle.tb_compiled.specs.Compiled.{pair_of};
ghost use Rattle.tb_debug_engine.specs.Sources.{AreWritten, IsUnwritten};

use std::alloc::{AllocError, Global};
use tb_assembly_labels::Label;
use tb_basic_source::{Numbered, numbered_lines};
use tb_compiled::LineStart;
use tb_engine_sources::CompiledSource;

/// The lines of a source as they are written.
#[derive(Drop)]
pub struct Written<'a> {
    /// All lines of the source, with the numbers that they begin with.
    pub lines: Vec<Numbered<'a>>,
    /// The numbers of its program's lines, in rising order.
    pub numbers: Vec<u16>,
    /// The labels of a PRG file; a source has none.
    pub labels: &'a [Label],
}

impl<'a> Written<'a> {
    /// The lines of a source, as they were written.
    pub fn new(alloc: Global, source: &'a CompiledSource) -> Result<Written<'a>, AllocError>
        ensures { IfOk result (AreWritten source.now) }
    {
        Ok(Written {
            lines: numbered_lines(alloc, source.text.as_slice())?,
            numbers: numbers_of(alloc, source.program.starts())?,
            labels: &[],
        })
    }

    /// No lines, since there is no source, but the labels of a PRG file.
    pub fn none(alloc: Global, labels: &'a [Label]) -> Written<'a>
        ensures { IsUnwritten labels.entry.now result }
    {
        Written {
            lines: Vec::new(alloc),
            numbers: Vec::new(alloc),
            labels,
        }
    }
}

fn numbers_of(alloc: Global, starts: &[LineStart]) -> Result<Vec<u16>, AllocError>
    ensures { IfOk result (λ numbers. numbers.items ≡ map (λ p. p.0) (map pair_of starts.now)) }
{
    let mut numbers = Vec::new(alloc);
    for start in starts {
        numbers.push(start.number)?;
    }
    Ok(numbers)
}
