//! A source's text with other line numbers, on standard output or in the place of the source.
ghost use Rattle.std.specs.Prelude.{◌≡◌, ◌∷◌, [], map};
ghost use Rattle.tb_engine_files.specs.Deeds.{Makes, OfOne, Refuses, Transfers};
ghost use Rattle.tb_engine_files.specs.Names.{standard};
ghost use Rattle.tb_program_files.specs.Outcomes.{of_refusal, of_source};
ghost use Rattle.tb_program_files.specs.Texts.{MakesRenumbered, settings_of};

use crate::saving::only;
use std::alloc::Global;
use std::fmt;
use tb_basic_renumber::{JumpFault, Numbering, Refusal, renumber};
use tb_codegen::TinyBasic;
use tb_compiled::{CompileSettings, Notation, SizeLimit};
use tb_engine_files::{FileSystem, Maker, STANDARD, convert, replace};
use tb_engine_sources::compile_source;
use tb_engine_streams::{Done, ExitStatus, Failure, OUT_OF_MEMORY, Outcome, status};

/// Why a source is not renumbered. It is never want of memory.
#[derive(Clone, Copy, PartialEq, Eq, Debug, Drop)]
pub enum RenumberRefusal {
    /// It is not compiled.
    Source(tb_engines::Refusal),
    /// It is compiled, but not renumbered.
    Renumber(Refusal),
}

/// How the renumbering of a source ended.
pub type RenumberOutcome = Outcome<Done, RenumberRefusal>;

impl ExitStatus for RenumberRefusal {
    ghost use Rattle.tb_engine_streams.specs.Numbers.{REFUSED};

    ghost exit_status = { λ _. REFUSED };

    fn status(&self) -> u8 {
        status::REFUSED
    }
}

fn write_refusal<W: fmt::Write>(refusal: Refusal, f: &mut fmt::Formatter<W>) -> fmt::Result {
    match refusal {
        Refusal::Jump(line, JumpFault::Computed) => write!(f, "line {line}: computed jump"),
        Refusal::Jump(line, JumpFault::NoLine(target)) => {
            write!(f, "line {line}: no line {}", target.cast_signed())
        }
        Refusal::AboveHighest => f.write_str("line number above 32767"),
        Refusal::LineTooLong(line) => write!(f, "line {line}: line too long"),
        Refusal::Source(_) | Refusal::Other => f.write_str("the new text reads otherwise"),
        Refusal::NoMemory => f.write_str(OUT_OF_MEMORY),
    }
}

impl fmt::Display for RenumberRefusal {
    fn fmt<W: fmt::Write>(&self, f: &mut fmt::Formatter<W>) -> fmt::Result {
        match self {
            RenumberRefusal::Source(refusal) => refusal.fmt(f),
            RenumberRefusal::Renumber(refusal) => write_refusal(*refusal, f),
        }
    }
}

// How it ends where the source is not compiled.
fn of_source(failure: tb_engines::Failure) -> Failure<RenumberRefusal>
    ensures { result ≡ of_source failure }
{
    match failure {
        Failure::Refused(refusal) => Failure::Refused(RenumberRefusal::Source(refusal)),
        Failure::ReadFault => Failure::ReadFault,
        Failure::WriteFault => Failure::WriteFault,
        Failure::NoMemory => Failure::NoMemory,
        Failure::Ended(never) => match never {},
    }
}

// How it ends where a compiled source is not renumbered. Want of memory is no refusal.
fn of_refusal(refusal: Refusal) -> Failure<RenumberRefusal>
    ensures { result ≡ of_refusal refusal }
{
    match refusal {
        Refusal::NoMemory => Failure::NoMemory,
        _ => Failure::Refused(RenumberRefusal::Renumber(refusal)),
    }
}

// A seed changes nothing of what is refused.
const ANY_SEED: u16 = 1;

// How a source is compiled: it may take the memory.
fn settings_of(notation: Notation) -> CompileSettings
    ensures { result ≡ settings_of notation }
{
    CompileSettings {
        seed: ANY_SEED,
        size: SizeLimit::Memory,
        notation,
    }
}

// The text of a source with other line numbers, as the texts of all outputs.
fn renumbered(
    alloc: Global,
    notation: Notation,
    numbering: Numbering,
    source: Vec<u8>,
) -> Result<(Done, Vec<Vec<u8>>), Failure<RenumberRefusal>>
    ensures { Makes (MakesRenumbered notation numbering.first numbering.step source.items) result }
{
    let source = match compile_source(&TinyBasic, alloc, source, settings_of(notation)) {
        Ok(source) => source,
        Err(failure) => return Err(of_source(failure)),
    };
    match renumber(alloc, notation, source.text.as_slice(), numbering) {
        Ok(text) => Ok((Done, only(alloc, text)?)),
        Err(refusal) => Err(of_refusal(refusal)),
    }
}

// A source that is renumbered.
#[derive(Drop)]
struct Renumbering {
    alloc: Global,
    notation: Notation,
    numbering: Numbering,
}

impl Maker for Renumbering {
    type End = Done;

    type Refusal = RenumberRefusal;

    ghost makes = { λ m source product. MakesRenumbered m.notation m.numbering.first m.numbering.step source product };

    fn make(&mut self, source: Vec<u8>) -> Result<(Done, Vec<Vec<u8>>), Failure<RenumberRefusal>> {
        renumbered(self.alloc, self.notation, self.numbering, source)
    }
}

/// Writes the text of a source's file, whose texts are read in a notation, with other line numbers to standard output.
pub fn renumber_file<F: FileSystem>(
    alloc: Global,
    files: &mut F,
    path: &str,
    notation: Notation,
    numbering: Numbering,
) -> RenumberOutcome
    ensures transfers { Transfers F.does F.holds (OfOne (MakesRenumbered notation numbering.first numbering.step)) files.old (path.now ∷ []) (standard ∷ []) result files.new }
    ensures refuses { Refuses F.holds (MakesRenumbered notation numbering.first numbering.step) files.old path.now result }
{
    let mut maker = Renumbering {
        alloc,
        notation,
        numbering,
    };
    convert(alloc, files, &mut maker, path, &[STANDARD])
}

/// Puts the text of a source's file, whose texts are read in a notation, with other line numbers in the place of the
/// source. Standard input has its new text on standard output.
pub fn renumber_in_place<F: FileSystem>(
    alloc: Global,
    files: &mut F,
    path: &str,
    notation: Notation,
    numbering: Numbering,
) -> RenumberOutcome
    ensures transfers { Transfers F.does F.holds (OfOne (MakesRenumbered notation numbering.first numbering.step)) files.old (path.now ∷ []) (path.now ∷ []) result files.new }
    ensures refuses { Refuses F.holds (MakesRenumbered notation numbering.first numbering.step) files.old path.now result }
{
    let mut maker = Renumbering {
        alloc,
        notation,
        numbering,
    };
    replace(alloc, files, &mut maker, path)
}
