//! What is made of a text.
ghost use Rattle.std.specs.Prelude.{◌≡◌, true, IfErr, IfOk, map};
ghost use Rattle.tb_asm.specs.Layout.{entry_of};
ghost use Rattle.tb_assembly_files.specs.Libraries.{source_of};
ghost use Rattle.tb_assembly_files.specs.Expansion.{read_of};
ghost use Rattle.tb_assembly_meaning.specs.Places.{laid_of};
ghost use Rattle.tb_assembly_output.specs.Assembled.{prg_of, Answers, AnswersBy, AnswersRead, Images, IsMeaning, IsRefusal, IsWritten, Makes};
ghost use Rattle.tb_assembly_output.specs.Findings.{is_nil};

use crate::findings::{bad_lines, bad_statements, is_good, is_right};
use crate::labels::labels_text;
use crate::listing::{View, listing};
use crate::names::names_in;
use std::alloc::{AllocError, Global};
use tb_asm::{AsmError, AsmErrorKind, Image, assemble};
use tb_assembly_files::{Reading, SourceFile, Stop, expand};
use tb_assembly_meaning::{Meaning, mean, settle};
use tb_assembly_report::{Finding, report};

/// How a text is assembled.
#[derive(Clone, Copy, PartialEq, Eq, Debug, Drop)]
pub struct Manner {
    /// Where the image begins, if the text names no other address.
    pub at: u16,
    /// Whether a branch that does not reach becomes long: the inverse branch over a jump.
    pub long: bool,
}

/// What is made of a text: the PRG file, the label file and the listing.
#[derive(Drop, Debug)]
pub struct Assembly {
    pub prg: Vec<u8>,
    pub labels: Vec<u8>,
    pub listing: Vec<u8>,
}

/// What is answered of a text.
#[derive(Drop, Debug)]
pub enum Assembled {
    /// The text itself could not be read.
    Unread,
    /// A file is included that is not in the library, by its path.
    Wants(Vec<u8>),
    /// All that is wrong with it.
    Refused(Vec<u8>),
    Made(Assembly),
}

/// Why nothing is answered.
#[derive(Clone, Copy, PartialEq, Eq, Debug, Drop)]
pub enum AssemblyError {
    /// The assembler refused an item.
    Item(AsmError),
    /// Memory ran out.
    NoMemory,
}

impl From<AllocError> for AssemblyError {
    ghost use Rattle.tb_assembly_output.specs.declared.assembling.AssemblyError.TheVariants.{NoMemory};

    ghost from_gives = { λ _ error. error ≡ NoMemory };

    fn from(_error: AllocError) -> AssemblyError {
        AssemblyError::NoMemory
    }
}

/// What is made of the first file of a library with all that it includes.
pub fn assemble_texts(
    alloc: Global,
    library: &[SourceFile],
    manner: Manner,
) -> Result<Assembled, AssemblyError>
    ensures { Answers manner (map source_of library.now) result }
{
    match expand(alloc, library) {
        Ok(None) => Ok(Assembled::Unread),
        Ok(Some(reading)) => assemble_manner(alloc, library, reading, manner),
        Err(Stop::Wants(path)) => Ok(Assembled::Wants(path)),
        Err(Stop::NoMemory) => Err(AssemblyError::NoMemory),
    }
}

// What is made of what was read, where branches may become long.
fn assemble_manner(
    alloc: Global,
    library: &[SourceFile],
    mut reading: Reading,
    manner: Manner,
) -> Result<Assembled, AssemblyError>
    ensures { AnswersBy manner (map source_of library.now) (read_of reading) result }
{
    if manner.long {
        settle(alloc, manner.at, &mut reading.statements)?;
    }
    assemble_reading(alloc, library, &reading, manner.at)
}

fn assemble_reading(
    alloc: Global,
    library: &[SourceFile],
    reading: &Reading,
    at: u16,
) -> Result<Assembled, AssemblyError>
    ensures { AnswersRead at (map source_of library.now) (read_of reading.now) result }
{
    if is_good(reading) {
        return assemble_statements(alloc, library, reading, at);
    }
    let findings = bad_lines(alloc, reading)?;
    refused(alloc, library, reading, findings)
}

// What is made of statements in lines of which none is bad.
fn assemble_statements(
    alloc: Global,
    library: &[SourceFile],
    reading: &Reading,
    at: u16,
) -> Result<Assembled, AssemblyError>
    requires { is_nil (read_of reading.now).bad ≡ true }
    ensures { AnswersRead at (map source_of library.now) (read_of reading.now) result }
{
    let meaning = meaning_of(alloc, reading, at)?;
    if is_right(&meaning) {
        return make(alloc, library, reading, &meaning);
    }
    let findings = bad_statements(alloc, reading, &meaning)?;
    refused(alloc, library, reading, findings)
}

fn meaning_of<'r>(alloc: Global, reading: &'r Reading, at: u16) -> Result<Meaning<'r>, AllocError>
    ensures { IfOk result (λ m. IsMeaning at (read_of reading.now).said m) }
{
    match mean(alloc, at, &reading.statements) {
        Ok(meaning) => Ok(meaning),
        Err(_) => Err(AllocError),
    }
}

// What is made of statements of which none is refused.
fn make(
    alloc: Global,
    library: &[SourceFile],
    reading: &Reading,
    meaning: &Meaning<'_>,
) -> Result<Assembled, AssemblyError>
    ensures { Makes meaning.now.base (map entry_of meaning.now.items.items) (map laid_of meaning.now.laid.items) result }
{
    let image = image_of(alloc, meaning)?;
    let made = made(alloc, library, reading, meaning, &image)?;
    Ok(Assembled::Made(made))
}

// All that is wrong, as a text.
fn refused(
    alloc: Global,
    library: &[SourceFile],
    reading: &Reading,
    findings: Vec<Finding>,
) -> Result<Assembled, AssemblyError>
    ensures text { IfOk result (IsRefusal (map source_of library.now) (read_of reading.now).said findings.items) }
    ensures memory { IfErr result (λ e. e ≡ AssemblyError.NoMemory) }
{
    let names = names_in(alloc, &reading.statements)?;
    Ok(Assembled::Refused(report(alloc, library, &names, &findings)?))
}

// The image of the items.
fn image_of(alloc: Global, meaning: &Meaning<'_>) -> Result<Image, AssemblyError>
    ensures { Images meaning.now.base (map entry_of meaning.now.items.items) result }
{
    let Ok(at) = u16::try_from(meaning.base) else {
        return Err(AssemblyError::Item(AsmError {
            kind: AsmErrorKind::RunsPast,
            item: 0,
        }));
    };
    match assemble(alloc, at, &meaning.items) {
        Ok(image) => Ok(image),
        Err(error) => match error.kind {
            AsmErrorKind::NoMemory => Err(AssemblyError::NoMemory),
            _ => Err(AssemblyError::Item(error)),
        },
    }
}

// The PRG file of an image.
fn prg_of(alloc: Global, image: &Image) -> Result<Vec<u8>, AllocError>
    ensures { IfOk result (λ prg. prg.items ≡ prg_of image.now.at image.now.bytes.items) }
{
    let mut prg = Vec::new(alloc);
    prg.extend_from_slice(&image.at.to_le_bytes())?;
    prg.extend_from_slice(&image.bytes)?;
    Ok(prg)
}

// All that is made of an image.
fn made(
    alloc: Global,
    library: &[SourceFile],
    reading: &Reading,
    meaning: &Meaning<'_>,
    image: &Image,
) -> Result<Assembly, AllocError>
    ensures { IfOk result (λ a. IsWritten image.now.at image.now.bytes.items (map laid_of meaning.now.laid.items) a) }
{
    Ok(Assembly {
        prg: prg_of(alloc, image)?,
        labels: labels_text(alloc, &meaning.laid)?,
        listing: listing(
            alloc,
            &View {
                library,
                places: &reading.places,
                laid: &meaning.laid,
                image,
            },
        )?,
    })
}
