//! The names of addresses.
ghost use Rattle.std.specs.Prelude.{◌≡◌, ◌<◌, ◌++◌, false, true, codes, map, IfOk};
ghost use Rattle.std.specs.Fmt.{decimal};
ghost use Rattle.tb_words.specs.Texts.{AppendsBytes};
ghost use Rattle.tb_compiled.specs.Compiled.{pair_of};
ghost use Rattle.tb_engine_listing.specs.Comments.{begins_plainly, is_comment};
ghost use Rattle.tb_engine_listing.specs.Labels.{all_routines};
ghost use Rattle.tb_engine_listing.specs.Pieces.{plan_of};
ghost use Rattle.tb_engine_listing.specs.PlaceNames as places;

use crate::label_file::{ROUTINES, name};
use crate::marks::Marks;
use crate::pieces::{Kind, Program};
use std::alloc::{AllocError, Global};
use tb_compiled::LineStart;
use tb_compiled_kept::{
    BYTE, COLUMN, COUNT, HELD, HOME_S, LEFT, LENGTH, LINE, LINES_AT, NOTES, OPEN, RESULT,
    RETURN_HIGH, RETURN_LOW, RIGHT, SCRATCH, SEED, SEEDED, SLOTS, VARS, WANTED,
};
use tb_disasm::write_word;
use tb_kernal::{CHRIN, CHROUT, GETIN};
use tb_runtime16::{BLOCK_AT, SEND_AT, entry};

/// Where the variables, the slots and the scratch bytes of the routines end.
const VARS_END: u16 = VARS + 52;

const SLOTS_END: u16 = SLOTS + 32;

const SCRATCH_END: u16 = 0xc080;

/// The number of the line that begins at an address, if one does.
pub fn line_at(starts: &[LineStart], at: u16) -> Option<u16>
    ensures { result ≡ places.line_at (map pair_of starts.now) at }
{
    for start in starts {
        if start.at == at {
            return Some(start.number);
        }
    }
    None
}

/// Whether a line begins at an address, which has no name of its own then.
pub fn is_line(program: &Program<'_>, at: u16) -> bool
    ensures { result ≡ places.is_line (plan_of program.now) at }
{
    own_name(program, at).is_empty() && line_at(program.starts, at).is_some()
}

/// Whether the piece at an address has a label above it: the address has a name of its own, or is named by a piece.
pub fn has_label(program: &Program<'_>, marks: &Marks, at: u16) -> bool
    ensures { result ≡ places.has_label (plan_of program.now) marks.now.marks.items at }
{
    marks.at(at).is_named || !own_name(program, at).is_empty()
}

/// The name of a line.
pub fn line_name(alloc: Global, number: u16) -> Result<Vec<u8>, AllocError>
    ensures { IfOk result (λ name. name.items ≡ codes "line" ++ decimal number) }
{
    let mut name = Vec::new(alloc);
    push_number(alloc, &mut name, b"line", number)?;
    Ok(name)
}

/// The name of an address of the image.
pub fn name_of(
    alloc: Global,
    program: &Program<'_>,
    marks: &Marks,
    at: u16,
) -> Result<Vec<u8>, AllocError>
    ensures name { IfOk result (λ name. name.items ≡ places.name_of (plan_of program.now) marks.now.marks.items at) }
    ensures plain { IfOk result (λ name. is_comment name.items ≡ false) }
{
    let own = own_name(program, at);
    if own.is_empty() {
        name_of_start(
            alloc,
            line_at(program.starts, at),
            inner_name(marks, at),
            at,
        )
    } else {
        Vec::from_slice(alloc, own)
    }
}

// The name of an address where a line begins, or else a piece within one.
fn name_of_start(
    alloc: Global,
    line: Option<u16>,
    inner: &[u8],
    at: u16,
) -> Result<Vec<u8>, AllocError>
    requires { begins_plainly inner.now ≡ true }
    ensures name { IfOk result (λ name. name.items ≡ places.name_of_start line inner.now at) }
    ensures plain { IfOk result (λ name. is_comment name.items ≡ false) }
{
    match line {
        Some(number) => line_name(alloc, number),
        None => {
            let mut name = Vec::new(alloc);
            write_word(&mut name, inner, at, b"")?;
            Ok(name)
        }
    }
}

// The prefix of a name that is built from an address: in the code, or in the data of routines or lines.
fn inner_name(marks: &Marks, at: u16) -> &'static [u8]
    ensures name { result.now ≡ places.inner_name (places.mark_at marks.now.marks.items at).begins at }
    ensures plain { begins_plainly result.now ≡ true }
{
    match marks.at(at).begins {
        Some(Kind::Data) => data_name(at),
        _ => b"at",
    }
}

// The prefix of a name in data.
fn data_name(at: u16) -> &'static [u8]
    ensures name { result.now ≡ places.data_name at }
    ensures plain { begins_plainly result.now ≡ true }
{
    if at < LINES_AT { b"data" } else { b"text" }
}

// Appends a name that ends with a number.
fn push_number(
    alloc: Global,
    text: &mut Vec<u8>,
    name: &[u8],
    number: u16,
) -> Result<(), AllocError>
    ensures { AppendsBytes result text.old text.new (name.now ++ decimal number) }
{
    text.extend_from_slice(name)?;
    text.extend_from_slice(format!(in alloc; "{number}")?.as_bytes())
}

// The name of an address that every program has; empty for any other address.
fn own_name(program: &Program<'_>, at: u16) -> &'static [u8]
    ensures name { result.now ≡ places.own_name (plan_of program.now) at }
    ensures plain { is_comment result.now ≡ false }
{
    if at == BLOCK_AT {
        b"prologue"
    } else if at == SEND_AT {
        b"send"
    } else if at == program.past() {
        b"past"
    } else if at == program.search() {
        b"find"
    } else if at == program.table {
        b"line_table"
    } else {
        routine_name(at)
    }
}

fn routine_name(at: u16) -> &'static [u8]
    ensures name { result.now ≡ places.routine_at all_routines at }
    ensures plain { is_comment result.now ≡ false }
{
    for routine in ROUTINES {
        if entry(routine) == at {
            return name(routine);
        }
    }
    b""
}

/// Appends two spaces and the name of an address outside the image, if it has one.
pub fn push_outside(alloc: Global, text: &mut Vec<u8>, at: u16) -> Result<(), AllocError>
    ensures { AppendsBytes result text.old text.new (places.outside_text at) }
{
    if VARS <= at && at < VARS_END {
        push_variable(alloc, text, at - VARS)
    } else if SLOTS <= at && at < SLOTS_END {
        text.extend_from_slice(b"  slots")?;
        push_offset(alloc, text, at - SLOTS)
    } else if SCRATCH <= at && at < SCRATCH_END {
        text.extend_from_slice(b"  scratch")?;
        push_offset(alloc, text, at - SCRATCH)
    } else {
        push_word_name(alloc, text, at)
    }
}

// Appends the name of a variable, by an offset among the variables.
fn push_variable(alloc: Global, text: &mut Vec<u8>, offset: u16) -> Result<(), AllocError>
    requires { offset < 52 }
    ensures { AppendsBytes result text.old text.new (places.variable_text offset) }
{
    text.extend_from_slice(b"  var")?;
    text.push(b'A' + (offset / 2) as u8)?;
    push_offset(alloc, text, offset % 2)
}

// The name of an address, or of the word whose high byte is there.
fn push_word_name(alloc: Global, text: &mut Vec<u8>, at: u16) -> Result<(), AllocError>
    ensures { AppendsBytes result text.old text.new (places.word_name at) }
{
    let name = outside_name(at);
    if !name.is_empty() {
        text.extend_from_slice(b"  ")?;
        return text.extend_from_slice(name);
    }
    let name = outside_name(at.wrapping_sub(1));
    if !name.is_empty() {
        text.extend_from_slice(b"  ")?;
        text.extend_from_slice(name)?;
        return push_offset(alloc, text, 1);
    }
    Ok(())
}

// Appends an offset, if it isn't 0.
fn push_offset(alloc: Global, text: &mut Vec<u8>, offset: u16) -> Result<(), AllocError>
    ensures { AppendsBytes result text.old text.new (places.offset_text offset) }
{
    if offset == 0 {
        return Ok(());
    }
    push_number(alloc, text, b"+", offset)
}

fn outside_name(at: u16) -> &'static [u8]
    ensures { result.now ≡ places.outside_name at }
{
    match at {
        LEFT => b"left",
        RIGHT => b"right",
        COLUMN => b"column",
        OPEN => b"open",
        SEEDED => b"seeded",
        HOME_S => b"home_s",
        SEED => b"seed",
        LINE => b"line",
        NOTES => b"notes",
        HELD => b"held",
        RESULT => b"result",
        WANTED => b"wanted",
        COUNT => b"count",
        LENGTH => b"length",
        BYTE => b"byte",
        RETURN_LOW => b"note_low",
        RETURN_HIGH => b"note_high",
        CHRIN => b"chrin",
        CHROUT => b"chrout",
        GETIN => b"getin",
        _ => b"",
    }
}
