//! How a call of an engine ended.
use tb_asm::AsmError;
use tb_compiled_errors::CompileError;
use tb_cpu::Wrong;
use tb_engine_streams::{ExitStatus, status};
use tb_prg::PrgError;

/// How an engine ended whose whole text was written.
#[derive(Clone, Copy, PartialEq, Eq, Debug, Drop)]
pub enum End {
    /// All is done; a program that ran has returned.
    Done,
    /// The program was still running after the last event that it might take.
    StepLimit,
    /// The program waits for a key, and the keyboard text is used up.
    WaitsForKey,
    /// An instruction of the program was refused, at this address.
    WentWrong { wrong: Wrong, pc: u16 },
}

/// Why an input was refused.
#[derive(Clone, Copy, PartialEq, Eq, Debug, Drop)]
pub enum Refusal {
    /// The first line, counted from 1, that is no line of assembler text.
    TextLine(usize),
    /// What the assembler refuses of an item, counted from 0. The kind is never want of memory.
    Item(AsmError),
    /// Bytes that are no PRG file.
    Prg(PrgError),
    /// A byte of the program would lie outside of RAM.
    NotRam,
    /// Why a source is not compiled. It is never want of memory.
    Source(CompileError),
}

/// How a call of an engine ended.
pub type Outcome = tb_engine_streams::Outcome<End, Refusal>;

/// Why a call of an engine made nothing that can be written.
pub type Failure = tb_engine_streams::Failure<Refusal>;

impl ExitStatus for End {
    ghost use Rattle.tb_engines.specs.Outcomes.{status_of_end};

    ghost exit_status = { status_of_end };

    fn status(&self) -> u8 {
        match self {
            End::Done => status::DONE,
            End::StepLimit => status::STEP_LIMIT,
            End::WaitsForKey => status::WAITS_FOR_KEY,
            End::WentWrong { .. } => status::WENT_WRONG,
        }
    }
}

impl ExitStatus for Refusal {
    ghost use Rattle.tb_engines.specs.Outcomes.{status_of_refusal};

    ghost exit_status = { status_of_refusal };

    fn status(&self) -> u8 {
        status::REFUSED
    }
}
