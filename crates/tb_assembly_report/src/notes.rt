//! What helps.
ghost use Rattle.std.specs.Prelude.{◌≡◌, IfOk, map, option_map};
ghost use Rattle.tb_assembly_report.specs.Near.{near_name};
ghost use Rattle.tb_assembly_report.specs.Notes.{instruction_note, line_note, meant, near_instruction, note_if, note_of, unknown_note};

use crate::causes::Cause;
use crate::near::near_name;
use crate::words::{word_at, word_before};
use std::alloc::{AllocError, Global};
use tb_assembly_meaning::Wrong;
use tb_assembly_text::FaultKind;

// What is said, text by text.
const DID_YOU_MEAN: &[u8] = b"did you mean ";

const OTHER_WAY: &[u8] = b"branch the other way, over a JMP, as --long does";

/// The words of directives, in upper case.
const DIRECTIVES: [&[u8]; 14] = [
    b".BYTE",
    b".WORD",
    b".TEXT",
    b".FILL",
    b".ALIGN",
    b".ORG",
    b".INCLUDE",
    b".BYT",
    b".RES",
    b"!BYTE",
    b"!WORD",
    b"!TEXT",
    b"!FILL",
    b"!PET",
];

/// All instructions, in upper case. Those of X come first among those that differ in the register.
const INSTRUCTIONS: [&[u8]; 56] = [
    b"ADC", b"AND", b"ASL", b"BCC", b"BCS", b"BEQ", b"BIT", b"BMI", b"BNE", b"BPL", b"BRK", b"BVC",
    b"BVS", b"CLC", b"CLD", b"CLI", b"CLV", b"CMP", b"CPX", b"CPY", b"DEC", b"DEX", b"DEY", b"EOR",
    b"INC", b"INX", b"INY", b"JMP", b"JSR", b"LDX", b"LDA", b"LDY", b"LSR", b"NOP", b"ORA", b"PHA",
    b"PHP", b"PLA", b"PLP", b"ROL", b"ROR", b"RTI", b"RTS", b"SBC", b"SEC", b"SED", b"SEI", b"STX",
    b"STA", b"STY", b"TAX", b"TAY", b"TSX", b"TXA", b"TXS", b"TYA",
];

/// How many letters an instruction has.
pub const LETTERS: usize = 3;

/// Under how many of the first errors notes are looked for.
pub const NOTED: usize = 20;

fn meant(alloc: Global, name: &[u8]) -> Result<Vec<u8>, AllocError>
    ensures { IfOk result (λ r. r.items ≡ meant name.now) }
{
    let mut text = Vec::new(alloc);
    text.extend_from_slice(DID_YOU_MEAN)?;
    text.extend_from_slice(name)?;
    Ok(text)
}

// A name that is near a word.
fn near_note(alloc: Global, names: &[&[u8]], word: &[u8]) -> Result<Option<Vec<u8>>, AllocError>
    ensures { IfOk result (λ r. option_map (λ t. t.items) r ≡ option_map meant (near_name word.now (map (λ n. n.now) names.now))) }
{
    match near_name(alloc, word, names)? {
        Some(name) => Ok(Some(meant(alloc, name)?)),
        None => Ok(None),
    }
}

// A directive that is near a word.
fn directive_note(alloc: Global, word: &[u8]) -> Result<Option<Vec<u8>>, AllocError>
    ensures { IfOk result (λ r. option_map (λ t. t.items) r ≡ line_note FaultKind.UnknownDirective word.now) }
{
    near_note(alloc, &DIRECTIVES, word)
}

// An instruction that is near a word.
fn near_instruction(alloc: Global, word: &[u8]) -> Result<Option<Vec<u8>>, AllocError>
    ensures { IfOk result (λ r. option_map (λ t. t.items) r ≡ near_instruction word.now) }
{
    near_note(alloc, &INSTRUCTIONS, word)
}

// An instruction that is near a word, if the word has as many letters as each instruction.
fn instruction_note(alloc: Global, word: &[u8]) -> Result<Option<Vec<u8>>, AllocError>
    ensures { IfOk result (λ r. option_map (λ t. t.items) r ≡ instruction_note word.now) }
{
    if word.len() == LETTERS {
        near_instruction(alloc, word)
    } else {
        Ok(None)
    }
}

// What helps with a word that is no instruction: one that is near it, or near the word before it.
fn unknown_note(alloc: Global, before: &[u8], word: &[u8]) -> Result<Option<Vec<u8>>, AllocError>
    ensures { IfOk result (λ r. option_map (λ t. t.items) r ≡ unknown_note before.now word.now) }
{
    match instruction_note(alloc, word)? {
        Some(note) => Ok(Some(note)),
        None => instruction_note(alloc, before),
    }
}

// What helps with a cause at a word, by the word before it.
fn note_of(
    alloc: Global,
    names: &[&[u8]],
    before: &[u8],
    word: &[u8],
    cause: Cause,
) -> Result<Option<Vec<u8>>, AllocError>
    ensures { IfOk result (λ r. option_map (λ t. t.items) r ≡ note_of (map (λ n. n.now) names.now) before.now word.now cause) }
{
    match cause {
        Cause::Meaning(Wrong::UnknownName) => near_note(alloc, names, word),
        Cause::Meaning(Wrong::TooFar) => { Ok(Some(Vec::from_slice(alloc, OTHER_WAY)?)) }
        Cause::Line(FaultKind::UnknownDirective) => directive_note(alloc, word),
        Cause::Line(FaultKind::UnknownMnemonic) => unknown_note(alloc, before, word),
        Cause::Line(FaultKind::WantsItem) => instruction_note(alloc, before),
        _ => Ok(None),
    }
}

/// What helps with a cause at a column of a line, if a note is wanted: one of these names, or another way.
pub fn note(
    alloc: Global,
    is_wanted: bool,
    names: &[&[u8]],
    line: &[u8],
    column: usize,
    cause: Cause,
) -> Result<Option<Vec<u8>>, AllocError>
    ensures { IfOk result (λ r. option_map (λ t. t.items) r ≡ note_if is_wanted (map (λ n. n.now) names.now) line.now column cause) }
{
    if is_wanted {
        let (before, word) = (word_before(line, column), word_at(line, column));
        note_of(alloc, names, before, word, cause)
    } else {
        Ok(None)
    }
}
