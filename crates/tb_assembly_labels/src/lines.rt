//! The lines of label files.
ghost use Rattle.std.specs.Prelude.{◌≡◌, ◌<◌, IfSome, map, option_map};
ghost use Rattle.tb_assembly_labels.specs.Lines as spec;
ghost use Rattle.tb_assembly_labels.specs.Lines.{Reads, TakesLine, pair_of};

use crate::labels::{Label, LabelsError};
use std::alloc::Global;
use tb_basic_text::next_line;

// The value of a hexadecimal digit, in either case.
fn digit(byte: u8) -> Option<u16>
    ensures digit { result ≡ spec.digit byte }
    ensures few { IfSome result (λ k. k < 16) }
{
    match byte {
        b'0'..=b'9' => Some(u16::from(byte - b'0')),
        b'A'..=b'F' => Some(u16::from(byte - b'A' + 10)),
        b'a'..=b'f' => Some(u16::from(byte - b'a' + 10)),
        _ => None,
    }
}

// The address that four digits spell.
fn address(a: u8, b: u8, c: u8, d: u8) -> Option<u16>
    ensures { result ≡ spec.address a b c d }
{
    let first = digit(a)?;
    let second = digit(b)?;
    let third = digit(c)?;
    let fourth = digit(d)?;
    Some(4096 * first + 256 * second + 16 * third + fourth)
}

fn are_name_bytes(bytes: &[u8]) -> bool
    ensures { result ≡ spec.are_name_bytes bytes.now }
{
    for byte in bytes {
        if !matches!(*byte, b'!'..=b'~') {
            return false;
        }
    }
    true
}

// A name, as a text.
#[tactic(auto, using(crate::proofs::Names::is_text))]
fn name(bytes: &[u8]) -> Option<&str>
    ensures { option_map (λ n. n.now) result ≡ spec.name bytes.now }
{
    if bytes.is_empty() || !are_name_bytes(bytes) {
        return None;
    }
    match str::from_utf8(bytes) {
        Ok(name) => Some(name),
        Err(_) => unreachable!(),
    }
}

// A name at an address, if both are there.
fn named(at: Option<u16>, bytes: &[u8]) -> Option<(u16, &str)>
    ensures { option_map (λ l. (l.0, l.1.now)) result ≡ spec.named at (spec.name bytes.now) }
{
    match (at, name(bytes)) {
        (Some(at), Some(name)) => Some((at, name)),
        _ => None,
    }
}

// What follows `C:`, or all if it isn't there.
fn without_bank(text: &[u8]) -> &[u8]
    ensures { result.now ≡ spec.without_bank text.now }
{
    match text {
        [b'C', b':', rest @ ..] => rest,
        _ => text,
    }
}

// Four digits, ` .` and a name.
fn label_behind(text: &[u8]) -> Option<(u16, &str)>
    ensures { option_map (λ l. (l.0, l.1.now)) result ≡ spec.label_behind text.now }
{
    match text {
        [a, b, c, d, b' ', b'.', name @ ..] => named(address(*a, *b, *c, *d), name),
        _ => None,
    }
}

// The label of a line.
fn label_in(line: &[u8]) -> Option<(u16, &str)>
    ensures { option_map (λ l. (l.0, l.1.now)) result ≡ spec.label_in line.now }
{
    match line {
        [b'a', b'l', b' ', rest @ ..] => label_behind(without_bank(rest)),
        _ => None,
    }
}

// Puts a label after others.
fn push(
    alloc: Global,
    labels: &mut Vec<Label>,
    number: usize,
    label: Option<(u16, &str)>,
) -> Result<(), LabelsError>
    ensures { TakesLine number (option_map (λ l. (l.0, l.1.now)) label.entry) (map pair_of labels.old.items) result (map pair_of labels.new.items) }
{
    let Some((address, name)) = label else {
        return Err(LabelsError::Line(number));
    };
    let Ok(name) = String::from_str(alloc, name) else {
        return Err(LabelsError::NoMemory);
    };
    match labels.push(Label { address, name }) {
        Ok(()) => Ok(()),
        Err(_) => Err(LabelsError::NoMemory),
    }
}

/// The labels of a file, in its order. A line is `al C:c000 .loop`, with or without `C:`: four hexadecimal digits in
/// either case, and a name. An empty line says nothing; any other one is refused, the first one by its number.
pub fn read_labels(alloc: Global, text: &[u8]) -> Result<Vec<Label>, LabelsError>
    ensures { Reads text.now result }
{
    let mut labels = Vec::new(alloc);
    let mut number = 1;
    let mut rest = text;
    while let Some((line, behind)) = next_line(rest) {
        if !line.is_empty() {
            match push(alloc, &mut labels, number, label_in(line)) {
                Ok(()) => (),
                Err(error) => return Err(error),
            }
        }
        number += 1;
        rest = behind;
    }
    Ok(labels)
}
