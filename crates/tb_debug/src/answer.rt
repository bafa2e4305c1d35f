//! What commands are answered by.
use tb_cpu::Regs;
use tb_debug_inspection::{Value, Variables};
use tb_disasm::Line;
use tb_kernal::Status;

/// Where a run is.
#[derive(Clone, Copy, PartialEq, Eq, Debug, Drop)]
pub enum Location {
    /// At the beginning of a line, or within it.
    Line(u16),
    /// Before the first line.
    Opening,
    /// At an instruction of a program without a source.
    Instruction,
    /// The machine doesn't run; this is how it stands, with its PC.
    Ended { status: Status, pc: u16 },
}

/// A stop of the run.
#[derive(Debug, Drop)]
pub struct Stand {
    /// What was sent since the last stop.
    pub sent: Vec<u8>,
    /// Whether the limit of events ended the way here.
    pub is_limit: bool,
    /// Where the run is now.
    pub location: Location,
    /// The instruction there, if there is no source; none at a closed address.
    pub instruction: Vec<Line>,
}

/// What a command is answered by.
#[derive(Debug, Drop)]
pub enum Answer {
    /// Where the run stopped.
    Stop(Stand),
    /// A breakpoint or a watch was set.
    Set,
    /// A breakpoint or a watch was cleared.
    Cleared,
    /// Whether faults stop the run then.
    Faults(bool),
    /// The lines with a breakpoint, in rising order.
    Breakpoints(Vec<u16>),
    /// The addresses with a breakpoint of a program without a source, in rising order.
    Addresses(Vec<u16>),
    /// The source around a line, with the line at which the run stands.
    List {
        around: Option<u16>,
        here: Option<u16>,
    },
    /// All variables.
    Variables(Variables),
    /// A variable by its index in the alphabet, and its value.
    Variable {
        index: usize,
        value: i16,
    },
    /// The value of an expression, or why it has none.
    Value(Value),
    /// The lines to return to, the newest first; none for a return past the last line.
    Returns(Vec<Option<u16>>),
    /// All that was sent.
    Output(Vec<u8>),
    /// A line was typed.
    Typed,
    /// The registers, the line in whose code the program counter lies, and how the machine stands.
    Registers {
        regs: Regs,
        line: Option<u16>,
        status: Status,
    },
    /// Bytes from an address on; none for a closed address.
    Memory {
        at: u16,
        bytes: Vec<Option<u8>>,
    },
    /// Lines of code.
    Code(Vec<Line>),
    /// The table of commands.
    Help,
    /// The program has no such line.
    NoSuchLine,
    /// Only a source answers that, and there is none.
    NoSource,
    /// The line is no command, or its text no expression.
    What,
}
