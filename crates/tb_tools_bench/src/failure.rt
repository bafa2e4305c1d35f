//! Why no answer is written.
use std::alloc::{AllocError, AllocFailed};
use tb_asm::{AsmError, AsmErrorKind, TextError};
use tb_basic_meaning::LowerError;
use tb_compiled::CompileError;
use tb_disasm::ListError;
use tb_engine_streams::{InputError, KeyError};
use tb_machine_disk::DiskError;
use tb_memmap::LoadError;
use tb_parser::{SourceError, SourceErrorKind};
use tb_prg::PrgError;
use thiserror::Error;

/// Why no answer is written.
#[derive(Clone, Copy, Debug, PartialEq, Eq, Drop, Error)]
pub enum Failure {
    /// Memory ran out.
    #[error("out of memory")]
    NoMemory,
    /// A call refuses its row for another reason than that memory ran out.
    #[error("refused")]
    Refused,
    /// Memory ran out in a call, and something is not as it was before.
    #[error("a refusal changed something")]
    Changed,
    #[error("no such word")]
    NoSuchWord,
    #[error("standard input holds no records")]
    Input,
}

impl Failure {
    /// Memory ran out; `Changed` if that left what can be seen other than it was.
    pub fn of_memory(is_unchanged: bool) -> Failure {
        if is_unchanged {
            Failure::NoMemory
        } else {
            Failure::Changed
        }
    }

    // Memory ran out, or there is another reason.
    fn of(is_memory: bool) -> Failure {
        if is_memory {
            Failure::NoMemory
        } else {
            Failure::Refused
        }
    }

    /// The exit status of the program.
    pub fn status(self) -> u8 {
        match self {
            Failure::NoMemory => 4,
            Failure::NoSuchWord => 2,
            Failure::Refused | Failure::Changed | Failure::Input => 1,
        }
    }
}

impl From<AllocError> for Failure {
    fn from(_: AllocError) -> Failure {
        Failure::NoMemory
    }
}

impl<T: Drop> From<AllocFailed<T>> for Failure {
    fn from(_: AllocFailed<T>) -> Failure {
        Failure::NoMemory
    }
}

impl From<SourceError> for Failure {
    fn from(error: SourceError) -> Failure {
        Failure::of(error.kind == SourceErrorKind::NoMemory)
    }
}

impl From<LowerError> for Failure {
    fn from(error: LowerError) -> Failure {
        Failure::of(error == LowerError::NoMemory)
    }
}

impl From<CompileError> for Failure {
    fn from(error: CompileError) -> Failure {
        Failure::of(error == CompileError::NoMemory)
    }
}

impl From<AsmError> for Failure {
    fn from(error: AsmError) -> Failure {
        Failure::of(error.kind == AsmErrorKind::NoMemory && error.item == 0)
    }
}

impl From<TextError> for Failure {
    fn from(error: TextError) -> Failure {
        Failure::of(error == TextError::NoMemory)
    }
}

impl From<ListError> for Failure {
    fn from(error: ListError) -> Failure {
        Failure::of(error == ListError::NoMemory)
    }
}

impl From<KeyError> for Failure {
    fn from(error: KeyError) -> Failure {
        Failure::of(error == KeyError::NoMemory)
    }
}

impl From<InputError> for Failure {
    fn from(error: InputError) -> Failure {
        match error {
            InputError::NoMemory => Failure::NoMemory,
            InputError::Fault => Failure::Input,
        }
    }
}

impl From<DiskError> for Failure {
    fn from(error: DiskError) -> Failure {
        Failure::of(error == DiskError::NoMemory)
    }
}

impl From<PrgError> for Failure {
    fn from(_: PrgError) -> Failure {
        Failure::Refused
    }
}

impl From<LoadError> for Failure {
    fn from(_: LoadError) -> Failure {
        Failure::Refused
    }
}
