//! Labels in a dialogue: their names in commands, and the place by a label in answers.
ghost use Rattle.std.specs.Prelude.{◌≡◌, ◌≤◌, IfOk, length, map};
ghost use Rattle.tb_words.specs.Texts.{AppendsBytes};
ghost use Rattle.tb_assembly_labels.specs.Lines.{pair_of};
ghost use Rattle.tb_debug_engine.specs.Labels as spec;

use std::alloc::{AllocError, Global};
use tb_assembly_labels::{Label, address_of, place_of};
use tb_debug::{Answer, Location};
use tb_debug_inspection::push_address;
use tb_disasm::Line;
use tb_kernal::Status;

// How long the word is with which a text begins.
fn word_length(text: &[u8]) -> usize
    ensures value { result ≡ spec.word_length text.now }
    ensures within { result ≤ length text.now }
{
    for (i, byte) in text.iter().enumerate() {
        if *byte == b' ' {
            return i;
        }
    }
    text.len()
}

// Appends an address as a command takes it.
fn push_spelled(
    alloc: Global,
    line: &mut Vec<u8>,
    command: u8,
    address: u16,
) -> Result<(), AllocError>
    ensures { AppendsBytes result line.old line.new (spec.spelled_address command address) }
{
    if command != b'm' {
        line.push(b'$')?;
    }
    push_address(alloc, line, address)
}

// Appends a text after a command, with the address of a label in place of its name.
fn push_renamed(
    alloc: Global,
    line: &mut Vec<u8>,
    labels: &[Label],
    command: u8,
    text: &[u8],
) -> Result<(), AllocError>
    ensures { AppendsBytes result line.old line.new (spec.renamed (map pair_of labels.now) command text.now) }
{
    let length = word_length(text);
    match address_of(labels, &text[..length]) {
        Some(address) => {
            push_spelled(alloc, line, command, address)?;
            line.extend_from_slice(&text[length..])
        }
        None => line.extend_from_slice(text),
    }
}

// Appends a command's line, with the address of a label in place of its name.
fn push_named(
    alloc: Global,
    named: &mut Vec<u8>,
    labels: &[Label],
    line: &[u8],
) -> Result<(), AllocError>
    ensures { AppendsBytes result named.old named.new (spec.named_line (map pair_of labels.now) line.now) }
{
    match line {
        [command @ (b'b' | b'g' | b'm'), b' ', text @ ..] => {
            named.push(*command)?;
            named.push(b' ')?;
            push_renamed(alloc, named, labels, *command, text)
        }
        _ => named.extend_from_slice(line),
    }
}

/// A command's line with the address of a label in place of its name. Fails only if memory runs out.
pub fn translated(alloc: Global, labels: &[Label], line: &[u8]) -> Result<Vec<u8>, AllocError>
    ensures { IfOk result (λ text. text.items ≡ spec.translated (map pair_of labels.now) line.now) }
{
    let mut text = Vec::new(alloc);
    if labels.is_empty() {
        text.extend_from_slice(line)?;
    } else {
        push_named(alloc, &mut text, labels, line)?;
    }
    Ok(text)
}

// The address at which a stop is.
fn stopped_at(location: Location, instruction: &[Line]) -> Option<u16>
    ensures { result ≡ spec.stopped_at location instruction.now }
{
    match (location, instruction) {
        (Location::Instruction, [line, ..]) => Some(line.address),
        (
            Location::Ended {
                status: Status::Wrong(_),
                pc,
            },
            _,
        ) => Some(pc),
        _ => None,
    }
}

/// The address of which an answer tells: of an instruction, or where the machine went wrong; with registers the program
/// counter.
pub fn standing(answer: &Answer) -> Option<u16>
    ensures { result ≡ spec.standing answer.now }
{
    match answer {
        Answer::Stop(stand) => stopped_at(stand.location, stand.instruction.as_slice()),
        Answer::Registers { regs, .. } => Some(regs.pc),
        _ => None,
    }
}

/// Appends the place at an address in a line of its own, if there is an address and a label is near.
pub fn push_place(
    alloc: Global,
    text: &mut Vec<u8>,
    labels: &[Label],
    at: Option<u16>,
) -> Result<(), AllocError>
    ensures { AppendsBytes result text.old text.new (spec.place_line (map pair_of labels.now) at) }
{
    let Some(address) = at else {
        return Ok(());
    };
    match place_of(labels, address) {
        Some(place) => text.extend_from_slice(format!(in alloc; "at {place}\n")?.as_bytes()),
        None => Ok(()),
    }
}
