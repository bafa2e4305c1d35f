//! Labels for a debugger, as VICE's monitor reads them.
ghost use Rattle.std.specs.Prelude.{◌≡◌, IfOk, map};
ghost use Rattle.tb_words.specs.Texts.{AppendsBytes};
ghost use Rattle.tb_assembly_meaning.specs.Places.{laid_of};
ghost use Rattle.tb_assembly_output.specs.Labels.{label_byte, label_line, label_of, label_text, labels_text};

use hex::encode;
use std::alloc::{AllocError, Global};
use tb_assembly_meaning::Laid;
use tb_assembly_text::Clause;

// A byte of a name as the monitor takes it.
fn label_byte(byte: u8) -> u8
    ensures { result ≡ label_byte byte }
{
    match byte {
        b'a'..=b'z' | b'A'..=b'Z' | b'0'..=b'9' | b'_' => byte.to_ascii_lowercase(),
        _ => b'_',
    }
}

fn push_label_name(text: &mut Vec<u8>, name: &[u8]) -> Result<(), AllocError>
    ensures { AppendsBytes result text.old text.new (map label_byte name.now) }
{
    for byte in name {
        text.push(label_byte(*byte))?;
    }
    Ok(())
}

fn push_label(alloc: Global, text: &mut Vec<u8>, name: &[u8], at: u16) -> Result<(), AllocError>
    ensures { AppendsBytes result text.old text.new (label_text name.now at) }
{
    text.extend_from_slice(b"al C:")?;
    text.extend_from_slice(encode(alloc, at.to_be_bytes())?.as_bytes())?;
    text.extend_from_slice(b" .")?;
    push_label_name(text, name)?;
    text.extend_from_slice(b"\n")
}

// A label after the last address has no line.
fn push_line(alloc: Global, text: &mut Vec<u8>, name: &[u8], at: usize) -> Result<(), AllocError>
    ensures { AppendsBytes result text.old text.new (label_line name.now at) }
{
    match u16::try_from(at) {
        Ok(at) => push_label(alloc, text, name, at),
        Err(_) => Ok(()),
    }
}

fn push_if_label(alloc: Global, text: &mut Vec<u8>, laid: &Laid<'_>) -> Result<(), AllocError>
    ensures { AppendsBytes result text.old text.new (label_of (laid_of laid.now)) }
{
    match (&laid.statement.clause, laid.spot) {
        (Clause::Label(name), Ok(spot)) => push_line(alloc, text, &name.letters, spot.at),
        _ => Ok(()),
    }
}

/// The lines of all labels, in the order of the text, which is that of their addresses once a byte is laid: a line is like
/// `al C:c000 .loop`, ended by 10.
pub fn labels_text(alloc: Global, laid: &[Laid<'_>]) -> Result<Vec<u8>, AllocError>
    ensures { IfOk result (λ text. text.items ≡ labels_text (map laid_of laid.now)) }
{
    let mut text = Vec::new(alloc);
    for one in laid {
        push_if_label(alloc, &mut text, one)?;
    }
    Ok(text)
}
