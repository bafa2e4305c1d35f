//! Tests of programs: a source's program is run on what is typed in a transcript, and compared with it.
//!
//! - `test_source` compiles a source, and types each line of the transcript when the program waits. It answers the run as
//!   a transcript, with its end, and where it differs. Each stretch is a run, of which all that is sent is shown as
//!   `tbc run` shows it (`TalksFrom`). Nothing differs exactly if what was sent and typed and the end are the transcript's.
//! - Where it differs, `line` is the line that the program was in when it sent what differs first (`LineBeside`).
//! - `reached` has how often each line was begun: the sum of its times over all stretches (`Tabled` of
//!   tb_engine_profile_table).
//! - `record` answers the transcript of a play: what was typed is run again.
//! - `told` and `summary` are what is told of transcripts, in words or by the Test Anything Protocol. `coverage_text` and
//!   `coverage_page` show which lines were reached.
#![tactic(auto)]

mod covering;
mod page;
mod places;
mod reaching;
mod running;
mod talk;
mod telling;
mod testing;

pub use covering::{Coverage, coverage_page, coverage_text};
pub use places::Differs;
pub use reaching::Reach;
pub use telling::{opening, remarks, summary, told, updated};
pub use testing::{Counting, Play, Tested, record, test_source};
