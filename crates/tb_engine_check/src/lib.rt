//! What there is to say of sources, as a text, with any compiler, over any sources and writer.
//!
//! `check_sources` reads sources by their names, one after the other (`Sources`). What is said of each is written
//! before the next one is read.
//!
//! - All names have their turn, in order, and what was written is the texts of their findings, one after the other
//!   (`checks`, `Told`). It ends as accepted, refused, or with a read fault by what came of them (`ending`). A source
//!   counts as refused exactly if it has a fault, and is passed over exactly if reading it failed.
//! - At a write fault the texts of the first n were written whole, and a prefix of the next one's. It comes only if
//!   the writer failed in that call (`faults`). If memory ran out at one source, nothing of it was told.
//! - Each source is checked as its own words ask for, too (`specs/Options`). A word that is no option counts as a fault.
//! - The text for what is found is a definition (`report` of `specs/Reports`). So are the texts of notes and warnings
//!   (`specs/Texts`) and the rows that show a line and a caret (`specs/Rows`). `refusal_text` is that of a refused
//!   line (`TellsRefusal`). `Checked` has its statuses (`exit_status`).
#![tactic(auto)]

mod engine;
mod outcome;
mod refusals;
mod reports;
mod rows;
mod sources;
mod texts;

pub use engine::check_sources;
pub use outcome::{CheckOutcome, Checked};
pub use refusals::refusal_text;
pub use rows::{push_caret, push_line};
pub use sources::Sources;
pub use tb_engine_findings::CheckSettings;
pub use texts::{NO_OPTION, NoteText, WarningText, times_of};
