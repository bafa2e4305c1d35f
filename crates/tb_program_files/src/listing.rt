//! Listing a PRG file: for `tbc asm`, or for another assembler.
ghost use Rattle.std.specs.Prelude.{◌≡◌, ◌∷◌, [], IfOk, map};
ghost use Rattle.tb_engines.specs.Delivery.{Makes as MakesText};
ghost use Rattle.tb_engine_files.specs.Deeds.{Makes, OfOne, Refuses, Transfers};
ghost use Rattle.tb_engine_files.specs.Names.{standard};
ghost use Rattle.tb_program_files.specs.Listings.{IsPrg, Lists, Spells};
ghost use Rattle.tb_program_files.specs.Texts.{MakesListing};

use crate::saving::only_text;
use std::alloc::{AllocError, Global};
pub use tb_assembly_dialects::Dialect;
use tb_assembly_dialects::{list_for, spell};
use tb_engine_files::{FileSystem, Maker, STANDARD, convert};
use tb_engines::{End, Failure, NoText, Outcome, Refusal, Text, list_prg};

// A PRG file that is listed, for another assembler if one is named.
#[derive(Drop)]
struct Listing {
    alloc: Global,
    dialect: Option<Dialect>,
}

// The listing of a PRG file for an assembler.
fn list_prg_for(alloc: Global, dialect: Dialect, file: &[u8]) -> Result<Text, NoText>
    ensures { MakesText (Lists (Some dialect) file.now) result }
{
    let program = match tb_prg::read(file) {
        Ok(program) => program,
        Err(error) => return Err(NoText::Refused(Refusal::Prg(error))),
    };
    let bytes = list_for(alloc, dialect, program.at, program.bytes)?;
    Ok(Text {
        bytes,
        end: End::Done,
    })
}

// The listing of a PRG file for the assembler that is asked for.
fn listing_of(alloc: Global, dialect: Option<Dialect>, file: &[u8]) -> Result<Text, NoText>
    ensures { MakesText (Lists dialect file.now) result }
{
    match dialect {
        Some(dialect) => list_prg_for(alloc, dialect, file),
        None => list_prg(alloc, file),
    }
}

// The listing of a PRG file as the one text that is written.
fn listed(
    alloc: Global,
    dialect: Option<Dialect>,
    file: &[u8],
) -> Result<(End, Vec<Vec<u8>>), Failure>
    ensures { Makes (MakesListing dialect file.now) result }
{
    let listing = listing_of(alloc, dialect, file)?;
    Ok(only_text(alloc, listing)?)
}

impl Maker for Listing {
    type End = End;

    type Refusal = Refusal;

    ghost makes = { λ m file product. MakesListing m.dialect file product };

    fn make(&mut self, file: Vec<u8>) -> Result<(End, Vec<Vec<u8>>), Failure> {
        listed(self.alloc, self.dialect, file.as_slice())
    }
}

/// Lists a PRG file on standard output.
pub fn list_file<F: FileSystem>(
    alloc: Global,
    files: &mut F,
    prg: &str,
    dialect: Option<Dialect>,
) -> Outcome
    ensures transfers { Transfers F.does F.holds (OfOne (MakesListing dialect)) files.old (prg.now ∷ []) (standard ∷ []) result files.new }
    ensures refuses { Refuses F.holds (MakesListing dialect) files.old prg.now result }
{
    convert(
        alloc,
        files,
        &mut Listing { alloc, dialect },
        prg,
        &[STANDARD],
    )
}

/// The listing of a PRG file's program, a text for `tbc asm` that gives all bytes after its BASIC line, as another
/// assembler takes it.
pub fn spell_listing(
    alloc: Global,
    dialect: Dialect,
    file: &[u8],
    listing: &[u8],
) -> Result<Vec<u8>, AllocError>
    requires { IsPrg file.now }
    ensures { IfOk result (λ text. Spells dialect file.now listing.now text.items) }
{
    let Ok(program) = tb_prg::read(file) else {
        unreachable!()
    };
    spell(alloc, dialect, program.at, program.bytes, listing)
}
