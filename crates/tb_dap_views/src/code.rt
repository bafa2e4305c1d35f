//! The code of a run's memory, cut as listings cut it.
ghost use Rattle.std.specs.Prelude.{◌≡◌, ◌≤◌, ◌<◌, ◌∷◌, ◌++◌, [], IfOk, OnOk, length, map, string_bytes};
ghost use Rattle.serde_json.specs.View.{items_view, view};
ghost use Rattle.tb_compiled.specs.Compiled.{pair_of, starts_of};
ghost use Rattle.tb_debug.specs.Lines.{line_at};
ghost use Rattle.tb_disasm.specs.Lines.{entry_of};
ghost use Rattle.tb_memmap.specs.Bytes.{at};
ghost use Rattle.tb_kernal.specs.Machine.{state_of};
ghost use Rattle.tb_dap_views.specs.Code as spec;
ghost use Rattle.tb_dap_views.specs.Memory.{shifted};

use crate::memory::{readable, shifted};
use crate::sources::{SourceFile, trimmed};
use crate::texts::reference;
use hex::encode_upper;
use serde_json::{Value, json};
use std::alloc::{AllocError, Global};
use tb_compiled::{Compiled, LineStart};
use tb_debug::Debugger;
use tb_disasm::{Content, first_line, write_item};
use tb_editor_navigation::shown;
use tb_memmap::{BASIC_START, CODE_START, Memory};

/// How many places there are.
const PLACES: u32 = 65_536;

/// The most bytes of an instruction.
const MOST_LENGTH: u32 = 3;

/// Code that is asked for.
#[derive(Clone, Copy, Debug, PartialEq, Eq, Drop)]
pub struct CodeRange {
    /// The place from which instructions are counted; none before the first one.
    pub place: Option<u32>,
    /// How many instructions after it the first one is that is wanted.
    pub offset: i64,
    /// How many are wanted.
    pub count: u32,
}

// Where the image of a program ends.
fn image_end(program: &Compiled) -> u32
    ensures { result ≡ spec.image_end program.now }
{
    u32::from(BASIC_START) + program.prg().len().saturating_sub(2).min(PLACES as usize) as u32
}

// Whether code is cut at a place as in a listing of the image.
fn is_code(place: u32, end: u32) -> bool
    ensures { result ≡ spec.is_code end place }
{
    u32::from(CODE_START) <= place && place < end
}

// The bytes of which the instruction at a place may be: those of the image there, else one.
fn bytes_at(alloc: Global, memory: &Memory, place: u32, end: u32) -> Result<Vec<u8>, AllocError>
    ensures { IfOk result (λ bytes. bytes.items ≡ spec.bytes_at (at memory.now) end place) }
{
    if is_code(place, end) {
        readable(
            alloc,
            memory,
            place,
            u64::from(MOST_LENGTH.min(end - place)),
        )
    } else {
        readable(alloc, memory, place, 1)
    }
}

// How many bytes the instruction at a place has; 1 where none can be read.
fn width_of(place: u32, bytes: &[u8]) -> u32
    requires { place < 65536 }
    ensures { result ≡ spec.width_of place bytes.now }
{
    if bytes.is_empty() {
        1
    } else {
        first_line(place as u16, bytes).1.min(MOST_LENGTH as usize) as u32
    }
}

// The place behind the instruction at a place.
fn behind(alloc: Global, memory: &Memory, place: u32, end: u32) -> Result<u32, AllocError>
    requires { place < 65536 }
    ensures { IfOk result (λ next. next ≡ spec.behind (at memory.now) end place) }
{
    if is_code(place, end) {
        let bytes = bytes_at(alloc, memory, place, end)?;
        Ok(place + width_of(place, &bytes))
    } else {
        Ok(place + 1)
    }
}

// The places of `most` instructions at most.
fn places(alloc: Global, memory: &Memory, end: u32, most: u32) -> Result<Vec<u32>, AllocError>
    ensures places { IfOk result (λ places. places.items ≡ spec.places most (at memory.now) end 0) }
    ensures few { IfOk result (λ places. length places.items ≤ most) }
{
    let mut places = Vec::new(alloc);
    let mut place = 0;
    for _ in 0..most {
        if place >= PLACES {
            return Ok(places);
        }
        places.push(place)?;
        place = behind(alloc, memory, place, end)?;
    }
    Ok(places)
}

// How many of these places come before one.
fn count_before(places: &[u32], place: u32) -> usize
    ensures value { result ≡ spec.count_before place places.now }
    ensures few { result ≤ length places.now }
{
    let mut count = 0;
    for other in places {
        if *other < place {
            count += 1;
        }
    }
    count
}

// How many of these places come before one that may be none.
fn index_of(places: &[u32], place: Option<u32>) -> usize
    ensures value { result ≡ spec.index_of places.now place }
    ensures few { result ≤ length places.now }
{
    match place {
        Some(place) => count_before(places, place),
        None => 0,
    }
}

// The instruction as listings show it.
fn content_text(alloc: Global, content: &Content) -> Result<String, AllocError>
    ensures { IfOk result (λ text. string_bytes text ≡ spec.content_text (entry_of content.now)) }
{
    let mut text = Vec::new(alloc);
    write_item(&mut text, content)?;
    String::from_str(alloc, shown(trimmed(&text)))
}

// The line that begins at a place.
fn line_at(starts: &[LineStart], place: u32) -> Option<u16>
    ensures { result ≡ line_at (map pair_of starts.now) place }
{
    match starts {
        [] => None,
        [first, rest @ ..] => if place == u32::from(first.at) {
            Some(first.number)
        } else {
            line_at(rest, place)
        },
    }
}

// What can't be read.
fn invalid_value(alloc: Global, place: u32) -> Result<Value, AllocError>
    ensures { IfOk result (λ v. view v ≡ spec.invalid_value place) }
{
    let address = reference(alloc, place)?;
    json!(in alloc; {"address": address, "instruction": "--", "presentationHint": "invalid"})
}

// An instruction within a line.
fn inner_value(alloc: Global, place: u32, text: &str, bytes: &[u8]) -> Result<Value, AllocError>
    ensures { IfOk result (λ v. view v ≡ spec.inner_value place text.now bytes.now) }
{
    let address = reference(alloc, place)?;
    let bytes = encode_upper(alloc, bytes)?;
    json!(in alloc; {"address": address, "instruction": text, "instructionBytes": bytes})
}

// An instruction at which a line begins.
fn first_value(
    alloc: Global,
    place: u32,
    text: &str,
    bytes: &[u8],
    file: &SourceFile<'_>,
    line: u16,
) -> Result<Value, AllocError>
    ensures { IfOk result (λ v. view v ≡ spec.first_value place text.now bytes.now file.now line) }
{
    let address = reference(alloc, place)?;
    let bytes = encode_upper(alloc, bytes)?;
    let location = file.value(alloc)?;
    let symbol = format!(in alloc; "line{line}")?;
    let line = file.line_of(line);
    json!(in alloc; {
        "address": address,
        "instruction": text,
        "instructionBytes": bytes,
        "line": line,
        "location": location,
        "symbol": symbol
    })
}

// An instruction, by the line that begins there.
fn line_value(
    alloc: Global,
    place: u32,
    text: &str,
    bytes: &[u8],
    file: &SourceFile<'_>,
    line: Option<u16>,
) -> Result<Value, AllocError>
    ensures { IfOk result (λ v. view v ≡ spec.line_value place text.now bytes.now file.now line) }
{
    match line {
        Some(line) => first_value(alloc, place, text, bytes, file, line),
        None => inner_value(alloc, place, text, bytes),
    }
}

// The instruction of some bytes at a place.
fn bytes_value(
    alloc: Global,
    place: u32,
    bytes: &[u8],
    file: &SourceFile<'_>,
) -> Result<Value, AllocError>
    requires { place < 65536 }
    ensures { IfOk result (λ v. view v ≡ spec.bytes_value file.now place bytes.now) }
{
    if bytes.is_empty() {
        return invalid_value(alloc, place);
    }
    let (line, size) = first_line(place as u16, bytes);
    let text = content_text(alloc, &line.content)?;
    let line = line_at(file.program.starts(), place);
    line_value(
        alloc,
        place,
        &text,
        &bytes[..size.min(bytes.len())],
        file,
        line,
    )
}

// The instruction at a place, or of none.
fn place_value(
    alloc: Global,
    memory: &Memory,
    end: u32,
    file: &SourceFile<'_>,
    place: Option<u32>,
) -> Result<Value, AllocError>
    ensures { IfOk result (λ v. view v ≡ spec.place_value file.now (at memory.now) end place) }
{
    match place {
        Some(place) if place < PLACES => {
            let bytes = bytes_at(alloc, memory, place, end)?;
            bytes_value(alloc, place, &bytes, file)
        }
        Some(_) | None => invalid_value(alloc, PLACES),
    }
}

// One of some places, by an index that may be none.
fn place_in(places: &[u32], index: Option<u32>) -> Option<u32>
    ensures { result ≡ spec.place_in places.now index }
{
    match index {
        Some(index) => places.get(index as usize).copied(),
        None => None,
    }
}

// The index of the first of these places that doesn't come before one.
fn first_of(places: &[u32], place: Option<u32>) -> u32
    requires { length places.now ≤ 65536 }
    ensures value { result ≡ spec.index_of places.now place }
    ensures few { result ≤ 65536 }
{
    index_of(places, place) as u32
}

// Appends the instruction at a place, or of none.
fn push_value(
    alloc: Global,
    values: &mut Vec<Value>,
    memory: &Memory,
    end: u32,
    file: &SourceFile<'_>,
    place: Option<u32>,
) -> Result<(), AllocError>
    ensures { OnOk result (map view values.new.items ≡ map view values.old.items ++ spec.place_value file.now (at memory.now) end place ∷ []) }
{
    values.push(place_value(alloc, memory, end, file, place)?)?;
    Ok(())
}

// Instructions from one on, by the places of all.
fn values_of(
    alloc: Global,
    memory: &Memory,
    end: u32,
    file: &SourceFile<'_>,
    places: &[u32],
    range: CodeRange,
) -> Result<Vec<Value>, AllocError>
    requires few { length places.now ≤ 65536 }
    requires count { range.count ≤ 65536 }
    ensures { IfOk result (λ vs. map view vs.items ≡ spec.values_to file.now (at memory.now) end places.now range range.count) }
{
    let first = first_of(places, range.place);
    let mut values = Vec::new(alloc);
    for k in 0..range.count {
        let place = place_in(places, shifted(first + k, range.offset));
        push_value(alloc, &mut values, memory, end, file, place)?;
    }
    Ok(values)
}

// Instructions, as they are answered.
fn code_body(alloc: Global, values: Vec<Value>) -> Result<Value, AllocError>
    ensures { IfOk result (λ v. view v ≡ spec.code_body (map view values.items)) }
{
    let values = Value::Array(values);
    json!(in alloc; {"instructions": values})
}

/// Instructions of a run's memory.
pub fn code_value(
    alloc: Global,
    file: &SourceFile<'_>,
    debugger: &Debugger<'_>,
    range: CodeRange,
) -> Result<Value, AllocError>
    requires { range.count ≤ 65536 }
    ensures { IfOk result (λ v. view v ≡ spec.code_of file.now debugger.now range) }
{
    let memory = debugger.machine().memory();
    let end = image_end(file.program);
    let places = places(alloc, memory, end, PLACES)?;
    let values = values_of(alloc, memory, end, file, &places, range)?;
    code_body(alloc, values)
}
