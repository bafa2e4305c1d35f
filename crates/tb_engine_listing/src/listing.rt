//! The listing of a program: assembler text that gives its image back.
ghost use Rattle.std.specs.Prelude.{◌≡◌, ◌≢◌, ◌+◌, ◌-◌, ◌≤◌, false, length, drop, map, IfOk, MatchBool};
ghost use Rattle.tb_asm.specs.Layout.{entry_of};
ghost use Rattle.tb_asm.specs.declared.errors.AsmErrorKind.TheVariants.{NoMemory};
ghost use Rattle.tb_runtime16.specs.Addresses.{PROLOGUE_AT};
ghost use Rattle.tb_compiled.specs.Compiled.{pair_of, prg_of, starts_of, table_of};
ghost use Rattle.tb_disasm.specs.Back.{GivesBack};
ghost use Rattle.tb_engine_listing.specs.Comments.{heading_on, headings, plain};
ghost use Rattle.tb_engine_listing.specs.Pieces.{plan_of};
ghost use Rattle.tb_engine_listing.specs.Places.{IsReadable, Names, NamesItems, Shows, ShowsProgram, places_of};
ghost use Rattle.tb_engine_listing.specs.Rows.{named_text};
ghost use Rattle.tb_basic_source.specs.Lines.{numbered};
ghost use Rattle.tb_engine_streams.specs.Streams.{most_input};

use crate::bytes::behind;
use crate::labelled::{View, labelled};
use crate::marks::marks_of;
use crate::pieces::{Program, pieces};
use crate::places::has_places;
use std::alloc::{AllocError, Global};
use tb_asm::{AsmErrorKind, Item, TextError, assemble, read_text};
use tb_basic_source::numbered_lines;
use tb_compiled::Compiled;
use tb_disasm::disassemble;
use tb_engine_streams::MOST_INPUT;
use tb_runtime16::BLOCK_AT;

/// How many bytes a PRG file has before the block: its load address and the BASIC line.
const HEADER: usize = 14;

/// The listing of a compiled source: assembler text whose assembling at `$080D` gives the image, all bytes after the
/// BASIC line. Lines and routines are under their names; comments show addresses, bytes, texts, and the source line
/// above its code. Fails if memory runs out.
pub fn list(alloc: Global, compiled: &Compiled, source: &[u8]) -> Result<Vec<u8>, AllocError>
    requires headed { 14 ≤ length (prg_of compiled.now) }
    requires ends { PROLOGUE_AT + (length (prg_of compiled.now) - 14) ≤ 0xA000 }
    ensures back { IfOk result (λ text. GivesBack PROLOGUE_AT text.items (drop 14 (prg_of compiled.now))) }
    ensures readable { IfOk result (λ text. length text.items ≤ most_input) }
    // It is the text with names, which has each line of the source as a comment, each text in its comment and each place
    // under its name, wherever that text reads back as the program.
    ensures shows { IfOk result (λ text. ShowsProgram source.now (starts_of compiled.now) (table_of compiled.now)
        (drop 14 (prg_of compiled.now)) text.items) }
{
    let program = Program {
        image: behind(compiled.prg(), HEADER),
        starts: compiled.starts(),
        table: compiled.table(),
    };
    let text = with_names(alloc, &program, source)?;
    checked(alloc, text, &program)
}

// The listing with names.
fn with_names(alloc: Global, program: &Program<'_>, source: &[u8]) -> Result<Vec<u8>, AllocError>
    ensures text { IfOk result (λ text. text.items ≡ named_text source.now (plan_of program.now)) }
    ensures headed { IfOk result (λ text. headings text.items ≡ map (heading_on (numbered source.now)) (map pair_of program.now.starts.now)) }
{
    let pieces = pieces(alloc, program)?;
    let marks = marks_of(alloc, program.image.len(), pieces.as_slice())?;
    let sources = numbered_lines(alloc, source)?;
    labelled(
        alloc,
        &View {
            program: *program,
            pieces: pieces.as_slice(),
            marks: &marks,
            sources: sources.as_slice(),
        },
    )
}

// A text that gives the image back and names its places: this one, or, if it doesn't, one without names. No program is
// known for which it doesn't.
fn checked(alloc: Global, text: Vec<u8>, program: &Program<'_>) -> Result<Vec<u8>, AllocError>
    requires { PROLOGUE_AT + length program.now.image.now ≤ 0xA000 }
    ensures back { IfOk result (λ text. GivesBack PROLOGUE_AT text.items program.now.image.now) }
    ensures readable { IfOk result (λ text. length text.items ≤ most_input) }
    ensures either { IfOk result (λ shown. Shows (plan_of program.now) text.items shown.items) }
{
    if is_readable(alloc, &text, program)? {
        return Ok(text);
    }
    without_names(alloc, program.image)
}

// Whether a text can be read, and reads as items that assemble to a program's image, with its places among their labels.
fn is_readable(alloc: Global, text: &[u8], program: &Program<'_>) -> Result<bool, AllocError>
    ensures { IfOk result (λ is. MatchBool is (IsReadable (plan_of program.now) text.now)
        (¬ (IsReadable (plan_of program.now) text.now))) }
{
    if MOST_INPUT < text.len() {
        return Ok(false);
    }
    names_program(alloc, text, program)
}

// Whether a text reads as items that assemble to a program's image, with its places among their labels.
fn names_program(alloc: Global, text: &[u8], program: &Program<'_>) -> Result<bool, AllocError>
    ensures { IfOk result (λ does. MatchBool does (Names program.now.image.now (places_of (plan_of program.now)) text.now)
        (¬ (Names program.now.image.now (places_of (plan_of program.now)) text.now))) }
{
    match read_text(alloc, text) {
        Ok(items) => assembles_to(alloc, items.as_slice(), program),
        Err(TextError::NoMemory) => Err(AllocError),
        Err(TextError::Line(_)) => Ok(false),
    }
}

fn assembles_to(alloc: Global, items: &[Item], program: &Program<'_>) -> Result<bool, AllocError>
    ensures { IfOk result (λ does. MatchBool does
        (NamesItems program.now.image.now (places_of (plan_of program.now)) (map entry_of items.now))
        (¬ (NamesItems program.now.image.now (places_of (plan_of program.now)) (map entry_of items.now)))) }
{
    match assemble(alloc, BLOCK_AT, items) {
        Ok(made) => {
            Ok(
                made.bytes.as_slice() == program.image
                    && has_places(alloc, &made, program.starts, program.table)?,
            )
        }
        Err(error) => no_image(error.kind),
    }
}

// What is not assembled gives no image.
fn no_image(kind: AsmErrorKind) -> Result<bool, AllocError>
    ensures { IfOk result (λ same. (same ≡ false) × (kind ≢ NoMemory)) }
{
    match kind {
        AsmErrorKind::NoMemory => Err(AllocError),
        _ => Ok(false),
    }
}

// The listing without names. An image ends below 65,536, so it can only fail for lack of memory.
fn without_names(alloc: Global, image: &[u8]) -> Result<Vec<u8>, AllocError>
    requires { PROLOGUE_AT + length image.now ≤ 0xA000 }
    ensures back { IfOk result (λ text. GivesBack PROLOGUE_AT text.items image.now) }
    ensures readable { IfOk result (λ text. length text.items ≤ most_input) }
    ensures plain { IfOk result (λ text. text.items ≡ plain image.now) }
{
    match disassemble(alloc, BLOCK_AT, image) {
        Ok(listing) => Ok(listing.text(alloc)?),
        Err(_) => Err(AllocError),
    }
}
