//! What is said of an item that is refused.
ghost use Rattle.std.specs.Prelude.{◌≡◌, ◌++◌};
ghost use Rattle.tb_words.specs.Texts.{AppendsBytes};
ghost use Rattle.tb_asm.specs.Layout.{entry_of};
ghost use Rattle.tb_assembly_reasons.specs.Errors.{error_text, letters_in, letters_of};

use std::alloc::AllocError;
use tb_asm::{AsmErrorKind, Item, Operand};

// What is said, text by text.
const NO_SUCH_MODE: &[u8] = b"this instruction has no such operand";

const UNKNOWN_LABEL: &[u8] = b"no label ";

const LABEL_TWICE: &[u8] = b"an earlier line has the label ";

const BRANCH_OUT_OF_RANGE: &[u8] = b"a branch reaches from -128 to 127 bytes";

const RUNS_PAST: &[u8] = b"this ends past $FFFF";

const INDIRECT_AT_PAGE_END: &[u8] = b"an indirect jump takes no pointer at the end of a page";

const NO_MEMORY: &[u8] = b"out of memory";

// The letters of the label of which an operand takes the address; none if it takes none.
fn letters_in(operand: &Operand) -> &[u8]
    ensures { result.now ≡ letters_in operand.now }
{
    match operand {
        Operand::Label(name) | Operand::LowOf(name) | Operand::HighOf(name) => {
            name.letters.as_slice()
        }
        Operand::Nothing | Operand::Byte(_) | Operand::Word(_) => &[],
    }
}

/// The letters of the label that an item names or defines; none if there is no label.
pub fn letters_of(item: &Item) -> &[u8]
    ensures { result.now ≡ letters_of (entry_of item.now) }
{
    match item {
        Item::Instr(_, _, operand) | Item::Word(operand) => letters_in(operand),
        Item::Label(name) => name.letters.as_slice(),
        Item::Bytes(_) => &[],
    }
}

/// Appends why an item is refused, with the letters of its label.
pub fn push_error(text: &mut Vec<u8>, kind: AsmErrorKind, letters: &[u8]) -> Result<(), AllocError>
    ensures { AppendsBytes result text.old text.new (error_text kind letters.now) }
{
    match kind {
        AsmErrorKind::NoSuchMode => text.extend_from_slice(NO_SUCH_MODE),
        AsmErrorKind::UnknownLabel => push_labelled(text, UNKNOWN_LABEL, letters),
        AsmErrorKind::LabelTwice => push_labelled(text, LABEL_TWICE, letters),
        AsmErrorKind::BranchOutOfRange => { text.extend_from_slice(BRANCH_OUT_OF_RANGE) }
        AsmErrorKind::RunsPast => text.extend_from_slice(RUNS_PAST),
        AsmErrorKind::IndirectAtPageEnd => { text.extend_from_slice(INDIRECT_AT_PAGE_END) }
        AsmErrorKind::NoMemory => text.extend_from_slice(NO_MEMORY),
    }
}

fn push_labelled(text: &mut Vec<u8>, said: &[u8], letters: &[u8]) -> Result<(), AllocError>
    ensures { AppendsBytes result text.old text.new (said.now ++ letters.now) }
{
    text.extend_from_slice(said)?;
    text.extend_from_slice(letters)
}
