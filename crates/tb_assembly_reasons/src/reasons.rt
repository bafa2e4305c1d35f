//! Reasons, and their texts.
ghost use Rattle.std.specs.Prelude.{◌≡◌, Some};
ghost use Rattle.tb_assembly_reasons.specs.Texts.{reason_text};

use std::fmt;

// What is said, text by text.
const NUMBER: &str = "numbers are written $05 or $1234";

const TAB: &str = "words are separated by spaces, not by tabs";

const QUOTE: &str = "texts are written as bytes: .byte $48,$49";

const SUM: &str = "there are no sums and no constants";

const STRAY: &str = "nothing begins with this";

const ITEM: &str = "here stands a label, an instruction, .byte or .word";

const NAME: &str = "a label is a letter and then letters, digits or _, 31 at most, and not A";

const COLON: &str = "a label ends with a colon";

const DIRECTIVE: &str = "there is .byte $05,$06 and .word $1234, or .word NAME";

const MNEMONIC: &str = "no such instruction";

const OPERAND: &str =
    "operands are $05, $1234, NAME (with ,X or ,Y), #$05, #<NAME, #>NAME, ($05,X), ($05),Y and ($1234)";

/// What is wrong with a line of assembler text.
#[derive(Clone, Copy, PartialEq, Eq, Debug, Drop)]
pub enum LineReason {
    /// A number is written otherwise.
    Number,
    /// A tab.
    Tab,
    /// A quotation mark.
    Quote,
    /// A sign of a sum, or of a definition.
    Sum,
    /// Another byte with which nothing begins.
    Stray,
    /// A label, an instruction, `.byte` or `.word` was expected.
    Item,
    /// What stands before a colon is no name.
    Name,
    /// A label without its colon.
    Colon,
    /// A directive with other operands, or an unknown one.
    Directive,
    /// A word that names no instruction.
    Mnemonic,
    /// An instruction with another operand.
    Operand,
}

impl LineReason {
    fn text(self) -> &'static str
        ensures { result.now ≡ reason_text self }
    {
        match self {
            LineReason::Number => NUMBER,
            LineReason::Tab => TAB,
            LineReason::Quote => QUOTE,
            LineReason::Sum => SUM,
            LineReason::Stray => STRAY,
            LineReason::Item => ITEM,
            LineReason::Name => { NAME }
            LineReason::Colon => COLON,
            LineReason::Directive => DIRECTIVE,
            LineReason::Mnemonic => MNEMONIC,
            LineReason::Operand => { OPERAND }
        }
    }
}

impl fmt::Display for LineReason {
    ghost output = { λ r. Some (reason_text r) };

    fn fmt<W: fmt::Write>(&self, f: &mut fmt::Formatter<W>) -> fmt::Result {
        f.write_str(self.text())
    }
}

/// Where a line is at fault, from column 1, and why.
#[derive(Clone, Copy, PartialEq, Eq, Debug, Drop)]
pub struct LineFault {
    pub column: usize,
    pub reason: LineReason,
}
