//! Assembling a text, and listing a PRG file.
ghost use Rattle.tb_engine_streams.specs.Uses.{use_of, TakesInput};
ghost use Rattle.tb_engines.specs.Outcomes.{AnswersInput, Faults};
ghost use Rattle.tb_engines.specs.Delivery.{Makes};
ghost use Rattle.tb_engines.specs.Assembly.{Assembles, ListsPrg};

use crate::delivery::{NoText, Text, deliver};
use crate::outcome::{End, Outcome, Refusal};
use std::alloc::Global;
use std::io::{Read, Write};
use tb_asm::{AsmErrorKind, TextError, assemble, read_text};
use tb_disasm::{ListError, disassemble};
use tb_engine_streams::{Tracked, read_input};
use tb_prg::PrgError;

/// The load address, low byte first, and the image of an assembler text.
pub fn assemble_prg(alloc: Global, at: u16, text: &[u8]) -> Result<Text, NoText>
    ensures { Makes (Assembles at text.now) result }
{
    let items = match read_text(alloc, text) {
        Ok(items) => items,
        Err(TextError::Line(line)) => return Err(NoText::Refused(Refusal::TextLine(line))),
        Err(TextError::NoMemory) => return Err(NoText::NoMemory),
    };
    let image = match assemble(alloc, at, items.as_slice()) {
        Ok(image) => image,
        Err(error) if error.kind == AsmErrorKind::NoMemory => return Err(NoText::NoMemory),
        Err(error) => return Err(NoText::Refused(Refusal::Item(error))),
    };
    let mut bytes = Vec::new(alloc);
    bytes.extend_from_slice(&at.to_le_bytes())?;
    bytes.extend_from_slice(image.bytes.as_slice())?;
    Ok(Text {
        bytes,
        end: End::Done,
    })
}

/// The listing of a PRG file.
pub fn list_prg(alloc: Global, file: &[u8]) -> Result<Text, NoText>
    ensures { Makes (ListsPrg file.now) result }
{
    let program = match tb_prg::read(file) {
        Ok(program) => program,
        Err(error) => return Err(NoText::Refused(Refusal::Prg(error))),
    };
    let listing = match disassemble(alloc, program.at, program.bytes) {
        Ok(listing) => listing,
        Err(ListError::RunsPast) => unreachable!(),
        Err(ListError::NoMemory) => return Err(NoText::NoMemory),
    };
    Ok(Text {
        bytes: listing.text(alloc)?,
        end: End::Done,
    })
}

/// Assembles a text at an address, and writes the load address, low byte first, and the image.
pub fn asm_text<R: Read, W: Write>(
    alloc: Global,
    reader: &mut Tracked<R>,
    writer: &mut Tracked<W>,
    at: u16,
) -> Outcome
    ensures answers { AnswersInput (Assembles at) result
        (use_of R.remaining reader.old reader.new) (use_of W.contents writer.old writer.new) }
    ensures faults { Faults result (use_of R.remaining reader.old reader.new) (use_of W.contents writer.old writer.new) }
    ensures taken { TakesInput (use_of R.remaining reader.old reader.new) }
{
    match read_input(alloc, reader) {
        Ok(text) => deliver(writer, assemble_prg(alloc, at, text.as_slice())),
        Err(error) => Outcome::from(error),
    }
}

/// Lists a PRG file, and writes the listing.
pub fn dis_text<R: Read, W: Write>(
    alloc: Global,
    reader: &mut Tracked<R>,
    writer: &mut Tracked<W>,
) -> Outcome
    ensures answers { AnswersInput ListsPrg result
        (use_of R.remaining reader.old reader.new) (use_of W.contents writer.old writer.new) }
    ensures faults { Faults result (use_of R.remaining reader.old reader.new) (use_of W.contents writer.old writer.new) }
    ensures taken { TakesInput (use_of R.remaining reader.old reader.new) }
{
    match read_input(alloc, reader) {
        Ok(file) => deliver(writer, list_prg(alloc, file.as_slice())),
        Err(error) => Outcome::from(error),
    }
}
