//! Answers, and the lines that show them.
ghost use Rattle.std.specs.Prelude.{◌++◌, ◌∷◌, []};
ghost use Rattle.tb_words.specs.Texts.{AppendsBytes};
ghost use Rattle.tb_debug_stepping.specs.Answers.{text_of};

use std::alloc::{AllocError, Global};
use tb_cpu::Regs;
use tb_debug_inspection::{
    LIMIT, NO_SUCH_LINE, Value, WHAT, push_registers, push_value, status_text,
};
use tb_kernal::Status;

// What is said, text by text.
const NOTHING_BACK: &[u8] = b"nothing back";

const NO_SOURCE: &[u8] = b"no source";

/// What a command is answered by.
#[derive(Clone, Copy, PartialEq, Eq, Debug, Drop)]
pub enum Answer {
    /// How the machine stands, and the line in whose code PC lies.
    Registers {
        regs: Regs,
        line: Option<u16>,
        status: Status,
    },
    /// No step is noted that could be taken back.
    NothingBack,
    /// PC is where the line of this number begins.
    At(u16),
    /// The program has no such line.
    NoSuchLine,
    /// There is no source that would tell what was asked for.
    NoSource,
    /// As many steps as the limit were taken.
    Limit,
    /// The machine doesn't run; this is how it stands.
    Stands(Status),
    /// The value of a variable or an expression, or why it has none.
    Value(Value),
    /// How many notes the return list has.
    Depth(u16),
    /// The line is no command, or its text no expression.
    What,
}

impl Answer {
    /// Appends the answer's line, ended by 10.
    pub fn push_line(self, alloc: Global, text: &mut Vec<u8>) -> Result<(), AllocError>
        ensures { AppendsBytes result text.old text.new (text_of self ++ 10 ∷ []) }
    {
        self.push_text(alloc, text)?;
        text.push(b'\n')?;
        Ok(())
    }

    // Appends the answer's text.
    fn push_text(self, alloc: Global, text: &mut Vec<u8>) -> Result<(), AllocError>
        ensures { AppendsBytes result text.old text.new (text_of self) }
    {
        match self {
            Answer::Registers { regs, line, status } => {
                push_registers(alloc, text, regs, line, status)
            }
            Answer::NothingBack => text.extend_from_slice(NOTHING_BACK),
            Answer::At(line) => {
                text.extend_from_slice(format!(in alloc; "at {line}")?.as_bytes())
            }
            Answer::NoSuchLine => text.extend_from_slice(NO_SUCH_LINE),
            Answer::NoSource => text.extend_from_slice(NO_SOURCE),
            Answer::Limit => text.extend_from_slice(LIMIT),
            Answer::Stands(status) => text.extend_from_slice(status_text(status).as_bytes()),
            Answer::Value(value) => push_value(text, value),
            Answer::Depth(depth) => {
                text.extend_from_slice(format!(in alloc; "{depth}")?.as_bytes())
            }
            Answer::What => text.extend_from_slice(WHAT),
        }
    }
}
