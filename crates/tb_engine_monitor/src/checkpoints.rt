//! Checkpoints of VICE's monitor: where each looks, when it counts, and what follows.
//!
//! Two bytes that no compiled program uses keep the monitor's own notes: `$CFFF` is 1 while a program runs, and `$CFFE` is
//! 0 while its own code runs. While the ROM's does, `$CFFE` says by how much, and 1 more, the program's stack pointer lies
//! below that of its start.
ghost use Rattle.std.specs.Prelude.{◌≡◌, Some};
ghost use Rattle.tb_engine_monitor.specs.Checkpoints.{action_of, command_text, condition_text, look_text, pair_of, span_of};

use crate::digits::{Address, Byte, Span};
use std::fmt;
use tb_compiled_kept::{HOME_S, LINES_AT};
use tb_kernal::{CHRIN, CHROUT, GETIN};
use tb_memmap::CODE_START;

// The texts name these.
const _: () = prove!(CODE_START == 0x080d && LINES_AT == 0x0c00 && HOME_S == 0xc037);

const _: () = prove!(CHROUT == 0xffd2 && CHRIN == 0xffcf && GETIN == 0xffe4);

/// A checkpoint of the monitor.
#[derive(Clone, Copy, PartialEq, Eq, Debug, Drop)]
pub enum Checkpoint {
    /// The first line begins.
    Starts,
    /// The machine is reset.
    Resets,
    /// The ROM takes interrupts elsewhere than the Commodore's does.
    Elsewhere,
    /// The program's own code goes on, up to the address `last`.
    Leaves { last: usize },
    /// The ROM is entered at `at`, with the stack pointer `below` bytes below the program's first one.
    Enters { at: u16, below: u8, note: u8 },
    /// The ROM takes from the stack what is the program's.
    Pulls,
    /// The program has returned.
    Ends,
    /// The ROM writes from `first` to `last`.
    Writes { first: u16, last: u16 },
    /// The ROM writes to the stack at `at`, where that is the program's.
    WritesToStack { at: u16 },
    /// Code runs from `first` to `last`.
    Runs { first: usize, last: usize },
}

/// A program runs.
const RUNNING: &str = "(@ram:$CFFF == $01)";

/// A program runs, by its own code.
const OWN: &str = "(@ram:$CFFF == $01) && (@ram:$CFFE == $00)";

/// A program runs, and the ROM's code does something for it.
const INSIDE: &str = "(@ram:$CFFF == $01) && (@ram:$CFFE != $00)";

/// The ROM's code does something for a program, and the instruction that wrote was the ROM's: what is written on the way to a
/// service or an interrupt is not.
const BY_ROM: &str =
    "(@ram:$CFFF == $01) && (@ram:$CFFE != $00) && (PC != $FFD2) && (PC != $FFCF) && (PC != $FFE4) && (PC != $FF48) && (PC != $FE43)";

/// The ROM takes interrupts elsewhere than the Commodore's.
const ELSEWHERE: &str =
    "(@rom:$FFFE != $48) || (@rom:$FFFF != $FF) || (@rom:$FFFA != $43) || (@rom:$FFFB != $FE)";

impl Checkpoint {
    // What is looked for, and whether the machine stops there.
    fn action(self) -> &'static str
        ensures { result.now ≡ action_of self }
    {
        match self {
            Checkpoint::Starts
            | Checkpoint::Resets
            | Checkpoint::Leaves { .. }
            | Checkpoint::Enters { .. }
            | Checkpoint::Ends => "trace exec",
            Checkpoint::Elsewhere | Checkpoint::Pulls | Checkpoint::Runs { .. } => "watch exec",
            Checkpoint::Writes { .. } | Checkpoint::WritesToStack { .. } => "watch store",
        }
    }

    // Where it looks.
    fn span(self) -> Span
        ensures { pair_of result ≡ span_of self }
    {
        match self {
            Checkpoint::Starts | Checkpoint::Elsewhere => Span::new(0x0c00, 0x0c00),
            Checkpoint::Resets => Span::new(0xfce2, 0xfce2),
            Checkpoint::Leaves { last } => Span::new(0x080d, last),
            Checkpoint::Enters { at, .. } | Checkpoint::WritesToStack { at } => {
                Span::of_words(at, at)
            }
            Checkpoint::Pulls | Checkpoint::Ends => Span::new(0xa000, 0xffff),
            Checkpoint::Writes { first, last } => Span::of_words(first, last),
            Checkpoint::Runs { first, last } => Span::new(first, last),
        }
    }

    /// Where it looks, and when it counts.
    pub fn look(self) -> Look
        ensures { result.0 ≡ self }
    {
        Look(self)
    }

    /// What follows where it counts.
    pub fn command(self) -> Command
        ensures { result.0 ≡ self }
    {
        Command(self)
    }
}

// When a checkpoint counts.
#[derive(Drop)]
struct Condition(Checkpoint);

impl fmt::Display for Condition {
    ghost output = { λ c. Some (condition_text c.0) };

    fn fmt<W: fmt::Write>(&self, f: &mut fmt::Formatter<W>) -> fmt::Result {
        match self.0 {
            Checkpoint::Starts => f.write_str("@ram:$CFFF != $01"),
            Checkpoint::Resets | Checkpoint::Runs { .. } => f.write_str(RUNNING),
            Checkpoint::Elsewhere => f.write_str(ELSEWHERE),
            Checkpoint::Leaves { .. } => f.write_str(INSIDE),
            Checkpoint::Enters { below, .. } => {
                write!(f, "{OWN} && ((SP + ${}) == @ram:$C037)", Byte(below))
            }
            Checkpoint::Pulls => write!(f, "{INSIDE} && ((SP + @ram:$CFFE) > (@ram:$C037 + $01))"),
            Checkpoint::Ends => write!(f, "{RUNNING} && (SP > (@ram:$C037 + $01))"),
            Checkpoint::Writes { .. } => f.write_str(BY_ROM),
            Checkpoint::WritesToStack { at } => write!(
                f,
                "{BY_ROM} && ((${} + @ram:$CFFE) > (@ram:$C037 + $0101))",
                Address(usize::from(at))
            ),
        }
    }
}

/// Where a checkpoint looks, and when it counts.
#[derive(Drop)]
pub struct Look(Checkpoint);

impl fmt::Display for Look {
    ghost output = { λ l. Some (look_text l.0) };

    #[tactic(auto, unfolding(crate::specs::Checkpoints::look_text))]
    fn fmt<W: fmt::Write>(&self, f: &mut fmt::Formatter<W>) -> fmt::Result {
        let (action, span) = (self.0.action(), self.0.span());
        write!(f, "{action} {span} if {}", Condition(self.0))
    }
}

/// What follows where a checkpoint counts: a note of the monitor's own, or what it says.
#[derive(Drop)]
pub struct Command(Checkpoint);

impl fmt::Display for Command {
    ghost output = { λ c. Some (command_text c.0) };

    fn fmt<W: fmt::Write>(&self, f: &mut fmt::Formatter<W>) -> fmt::Result {
        match self.0 {
            Checkpoint::Starts => f.write_str("> $CFFE $00 $01"),
            Checkpoint::Resets | Checkpoint::Ends => f.write_str("> $CFFE $00 $00"),
            Checkpoint::Elsewhere => f.write_str(
                "; this ROM takes interrupts elsewhere than at $FF48 and $FE43, and is not watched there",
            ),
            Checkpoint::Leaves { .. } => f.write_str("> $CFFE $00"),
            Checkpoint::Enters { note, .. } => write!(f, "> $CFFE ${}", Byte(note)),
            Checkpoint::Pulls => {
                f.write_str("; the ROM takes from the stack what is the program's")
            }
            Checkpoint::Writes { first, last } => write!(
                f,
                "; the ROM writes to what is the program's: {}",
                Span::of_words(first, last)
            ),
            Checkpoint::WritesToStack { .. } => {
                f.write_str("; the ROM writes to the stack above the program's stack pointer")
            }
            Checkpoint::Runs { first, last } => {
                write!(
                    f,
                    "; code runs outside the program: {}",
                    Span::new(first, last)
                )
            }
        }
    }
}
