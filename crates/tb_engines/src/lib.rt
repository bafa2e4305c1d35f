//! The engines that compile nothing: assembling a text, listing a PRG file and running one, over any reader and
//! writer; and how a call of an engine ends.
//!
//! `run_prg`, `asm_text` and `dis_text` have one relation, by cases on the outcome (`answers`): the text written, the
//! refusal, a prefix at a write fault, and otherwise nothing written. Status 3 comes only if a stream failed in that
//! call or gave too many bytes (`faults`). `End` and `Refusal` have their statuses (`exit_status`). `run_prg_watched`,
//! of which `run_prg` is one, also tells the program counter at the end of that run, and none if the program returned
//! (`TellsFile`, `end_place`). It must be told wherever the run's text was written.
//!
//! What a run sends is written as it comes. `run_stretch` writes the host form of what was sent in it (`RanStretch`).
//! `run_writing` goes by stretches of 65,536 events, so at the end of each all that was sent is written. Of that the
//! machine keeps the last 16 bytes. Memory is asked for before the first event alone.
#![tactic(auto)]

mod assembly;
mod delivery;
mod limits;
mod loading;
mod outcome;
mod programs;
mod report;
mod texts;
mod writing;

pub use assembly::{asm_text, assemble_prg, dis_text, list_prg};
pub use delivery::{NoText, Text, deliver};
pub use limits::{MOST_EVENTS, USUAL_EVENTS, constants_are_numbers};
pub use loading::{start_file, start_machine, start_regs};
pub use outcome::{End, Failure, Outcome, Refusal};
pub use programs::{PrgRun, RunSettings, end_of, run_machine, run_prg, run_prg_watched};
pub use report::{Report, Warnings};
pub use texts::{TOO_DEEP, TooLarge, source_text};
pub use writing::{WrittenRun, run_stretch, run_writing};
