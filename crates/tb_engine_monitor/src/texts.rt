//! The file that sets the checkpoints of a program.
ghost use Rattle.std.specs.Prelude.{◌≡◌, ◌++◌, ◌<◌, length, IfOk, OnOk};
ghost use Rattle.tb_engine_monitor.specs.Files.{checkpoint_text, texts_from, watch_text};

use crate::checkpoints::Checkpoint;
use crate::lists::checkpoints;
use std::alloc::{AllocError, Global};

/// What the file begins with.
const HEAD: &[u8] =
    b"; For VICE's monitor: it stops where a ROM writes what is the program's, or where code runs outside it.\n";

/// Where a program would end whose PRG file is empty: its first two bytes are the load address, $0801.
const EMPTY_END: usize = 0x07ff;

// Appends a checkpoint's lines.
fn push_checkpoint(
    alloc: Global,
    text: &mut Vec<u8>,
    number: usize,
    checkpoint: Checkpoint,
) -> Result<(), AllocError>
    ensures { OnOk result (text.new.items ≡ text.old.items ++ checkpoint_text number checkpoint) }
{
    let lines = format!(in alloc;
        "{}\ncommand {number} \"{}\"\n",
        checkpoint.look(),
        checkpoint.command()
    )?;
    text.extend_from_slice(lines.as_bytes())
}

// Appends the lines of all.
fn push_all(alloc: Global, text: &mut Vec<u8>, list: &[Checkpoint]) -> Result<(), AllocError>
    ensures { OnOk result (text.new.items ≡ text.old.items ++ texts_from 1 list.now) }
{
    for (index, checkpoint) in list.iter().enumerate() {
        push_checkpoint(alloc, text, index + 1, *checkpoint)?;
    }
    Ok(())
}

/// The file for the monitor, of a program whose PRG file is given. Fails if memory runs out.
pub fn watch_file(alloc: Global, prg: &[u8]) -> Result<Vec<u8>, AllocError>
    ensures { IfOk result (λ text. text.items ≡ watch_text (length prg.now)) }
{
    let list = checkpoints(alloc, prg.len() + EMPTY_END)?;
    let mut text = Vec::new(alloc);
    text.extend_from_slice(HEAD)?;
    push_all(alloc, &mut text, list.as_slice())?;
    Ok(text)
}
