//! Assembling the text of a file.
ghost use Rattle.std.specs.Prelude.{◌∷◌, [], map};
ghost use Rattle.tb_engine_files.specs.Deeds.{Makes, OfOne, Refuses, Transfers};
ghost use Rattle.tb_program_files.specs.Texts.{MakesImage};

use crate::saving::only_text;
use std::alloc::Global;
use tb_engine_files::{FileSystem, Maker, convert};
use tb_engines::{End, Failure, Outcome, Refusal, assemble_prg};

// A text that is assembled at an address.
#[derive(Drop)]
struct Assembly {
    alloc: Global,
    at: u16,
}

// The image of a text, as the texts of all outputs.
fn assembled(alloc: Global, at: u16, text: &[u8]) -> Result<(End, Vec<Vec<u8>>), Failure>
    ensures { Makes (MakesImage at text.now) result }
{
    let image = assemble_prg(alloc, at, text)?;
    Ok(only_text(alloc, image)?)
}

impl Maker for Assembly {
    type End = End;

    type Refusal = Refusal;

    ghost makes = { λ m text product. MakesImage m.at text product };

    fn make(&mut self, text: Vec<u8>) -> Result<(End, Vec<Vec<u8>>), Failure> {
        assembled(self.alloc, self.at, text.as_slice())
    }
}

/// Assembles the text of a file at an address, and writes the PRG file: the image of what was read. The text is opened
/// first, and the PRG file only after all of it was made.
pub fn assemble_file<F: FileSystem>(
    alloc: Global,
    files: &mut F,
    text: &str,
    out: &str,
    at: u16,
) -> Outcome
    ensures transfers { Transfers F.does F.holds (OfOne (MakesImage at)) files.old (text.now ∷ []) (out.now ∷ []) result files.new }
    ensures refuses { Refuses F.holds (MakesImage at) files.old text.now result }
{
    convert(alloc, files, &mut Assembly { alloc, at }, text, &[out])
}
