//! Files as engines see them: one that can't be opened for reading is a read fault, one that can't be written a write fault.
ghost use Rattle.std.specs.Prelude.{◌≡◌, ◌∷◌, [], map, IfOk};
ghost use Rattle.tb_program_files.specs.Outcomes.{OpensFile, SavesFile};

use std::alloc::{AllocError, Global};
use tb_engine_files::{FileSystem, Trouble};
use tb_engine_streams::Tracked;
use tb_engines::{End, Outcome, Text};

/// One text, as the texts of all outputs.
pub fn only(alloc: Global, text: Vec<u8>) -> Result<Vec<Vec<u8>>, AllocError>
    ensures { IfOk result (λ texts. map (λ t. t.items) texts.items ≡ text.items ∷ []) }
{
    let mut texts = Vec::new(alloc);
    texts.push(text)?;
    Ok(texts)
}

/// What an engine made, as the only text.
pub fn only_text(alloc: Global, made: Text) -> Result<(End, Vec<Vec<u8>>), AllocError>
    ensures { IfOk result (λ r. (r.0 ≡ made.end) × (map (λ t. t.items) r.1.items ≡ made.bytes.items ∷ [])) }
{
    Ok((made.end, only(alloc, made.bytes)?))
}

/// A file that is opened for reading. Nothing else is done.
pub fn opened<F: FileSystem>(files: &mut F, path: &str) -> Result<Tracked<F::Input>, Outcome>
    ensures { OpensFile F.does F.holds F.Input.remaining files.old path.now result files.new }
{
    match files.open(path) {
        Ok(input) => Ok(input),
        Err(Trouble::Fault) => Err(Outcome::ReadFault),
        Err(Trouble::NoMemory) => Err(Outcome::NoMemory),
    }
}

/// Writes bytes to a file. Nothing else is done.
pub fn save<F: FileSystem>(files: &mut F, path: &str, bytes: &[u8]) -> Outcome
    ensures { SavesFile F.does files.old path.now bytes.now result files.new }
{
    match files.save(path, bytes) {
        Ok(()) => Outcome::Ended(End::Done),
        Err(Trouble::Fault) => Outcome::WriteFault,
        Err(Trouble::NoMemory) => Outcome::NoMemory,
    }
}
