//! The label file that VICE's monitor reads: a line for each address that has a name, by rising address.
ghost use Rattle.std.specs.Prelude.{◌≡◌, ◌<◌, IfOk, map};
ghost use Rattle.std.specs.List.{range_with_len};
ghost use Rattle.tb_words.specs.Texts.{AppendsBytes};
ghost use Rattle.tb_words.specs.Numbers.{LETTERS};
ghost use Rattle.tb_compiled.specs.Compiled.{pair_of};
ghost use Rattle.tb_engine_listing.specs.Labels.{name_of, all_routines, routine_label, line_label, variable_label};
ghost use Rattle.tb_engine_listing.specs.Labels.{block_labels, data_labels, all_labels, label_text, labels_text};

use hex::encode;
use std::alloc::{AllocError, Global};
use tb_compiled::LineStart;
use tb_compiled_kept::{NOTES, VARS};
use tb_kernal::{CHRIN, CHROUT, GETIN};
use tb_runtime16::{BLOCK_AT, Routine, SEND_AT, entry};
use tb_words::LETTERS;

/// The routines by rising address.
pub const ROUTINES: [Routine; 13] = [
    Routine::Divide,
    Routine::Random,
    Routine::Multiply,
    Routine::Number,
    Routine::Text,
    Routine::Zone,
    Routine::Input,
    Routine::Search,
    Routine::Push,
    Routine::Pop,
    Routine::FaultLine,
    Routine::Fault,
    Routine::Poll,
];

/// The label file of a program whose lines begin at these addresses, with its line table at `table`: lines like
/// `al C:0c00 .line10`, each ended by 10. Fails if memory runs out.
pub fn labels(alloc: Global, starts: &[LineStart], table: u16) -> Result<Vec<u8>, AllocError>
    ensures { IfOk result (λ text. text.items ≡ labels_text (all_labels (map pair_of starts.now) table)) }
{
    let mut text = Vec::new(alloc);
    push_block(alloc, &mut text)?;
    push_lines(alloc, &mut text, starts)?;
    push_label(alloc, &mut text, b"line_table", table)?;
    push_data(alloc, &mut text)?;
    Ok(text)
}

// Appends the line of a label.
fn push_label(alloc: Global, text: &mut Vec<u8>, name: &[u8], at: u16) -> Result<(), AllocError>
    ensures { AppendsBytes result text.old text.new (label_text (name.now, at)) }
{
    text.extend_from_slice(b"al C:")?;
    text.extend_from_slice(encode(alloc, at.to_be_bytes())?.as_bytes())?;
    text.extend_from_slice(b" .")?;
    text.extend_from_slice(name)?;
    text.extend_from_slice(b"\n")
}

// Appends the labels of the block.
fn push_block(alloc: Global, text: &mut Vec<u8>) -> Result<(), AllocError>
    ensures { AppendsBytes result text.old text.new (labels_text block_labels) }
{
    push_label(alloc, text, b"prologue", BLOCK_AT)?;
    push_label(alloc, text, b"send", SEND_AT)?;
    push_routines(alloc, text)?;
    Ok(())
}

fn push_routines(alloc: Global, text: &mut Vec<u8>) -> Result<(), AllocError>
    ensures { AppendsBytes result text.old text.new (labels_text (map routine_label all_routines)) }
{
    for routine in ROUTINES {
        push_label(alloc, text, name(routine), entry(routine))?;
    }
    Ok(())
}

/// The name of a routine.
pub fn name(routine: Routine) -> &'static [u8]
    ensures { result.now ≡ name_of routine }
{
    match routine {
        Routine::Multiply => b"multiply",
        Routine::Divide => b"divide",
        Routine::Random => b"random",
        Routine::Number => b"number",
        Routine::Text => b"text",
        Routine::Zone => b"zone",
        Routine::Input => b"input",
        Routine::Search => b"search",
        Routine::Push => b"push",
        Routine::Pop => b"pop",
        Routine::FaultLine => b"fault_line",
        Routine::Fault => b"fault",
        Routine::Poll => b"poll",
    }
}

// Appends where the code of each line begins.
fn push_lines(alloc: Global, text: &mut Vec<u8>, starts: &[LineStart]) -> Result<(), AllocError>
    ensures { AppendsBytes result text.old text.new (labels_text (map line_label (map pair_of starts.now))) }
{
    for start in starts {
        push_line(alloc, text, start.number, start.at)?;
    }
    Ok(())
}

fn push_line(alloc: Global, text: &mut Vec<u8>, number: u16, at: u16) -> Result<(), AllocError>
    ensures { AppendsBytes result text.old text.new (label_text (line_label (number, at))) }
{
    let name = format!(in alloc; "line{number}")?;
    push_label(alloc, text, name.as_bytes(), at)
}

// Appends the variables, the count of returns, and the services.
fn push_data(alloc: Global, text: &mut Vec<u8>) -> Result<(), AllocError>
    ensures { AppendsBytes result text.old text.new (labels_text data_labels) }
{
    push_variables(alloc, text)?;
    push_label(alloc, text, b"notes", NOTES)?;
    push_label(alloc, text, b"chrin", CHRIN)?;
    push_label(alloc, text, b"chrout", CHROUT)?;
    push_label(alloc, text, b"getin", GETIN)?;
    Ok(())
}

fn push_variables(alloc: Global, text: &mut Vec<u8>) -> Result<(), AllocError>
    ensures { AppendsBytes result text.old text.new (labels_text (map variable_label (range_with_len 0 LETTERS))) }
{
    'variables: for index in 0..LETTERS as u16 {
        push_variable(alloc, text, index)?;
    }
    Ok(())
}

fn push_variable(alloc: Global, text: &mut Vec<u8>, index: u16) -> Result<(), AllocError>
    requires { index < LETTERS }
    ensures { AppendsBytes result text.old text.new (label_text (variable_label index)) }
{
    push_label(
        alloc,
        text,
        &[b'v', b'a', b'r', b'A' + index as u8],
        VARS + 2 * index,
    )
}
