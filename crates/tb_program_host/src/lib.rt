//! What the program runs on: the files of the system, its clock, and what a person is told of a long run.
//!
//! All is safe and total. No clause says which file a call opens or what it does to it; only tests show that.
//! `system.rt` is trusted, with what `host.rt`, `folders.rt` and `putting.rt` make of it: std's clauses say nothing of
//! these calls, so what they promise of files is `⊤`. `Progress` shows nothing of a run that it is not to tell (`Hears`).
#![tactic(auto)]

mod folders;
mod host;
mod putting;
mod system;
mod waiting;

pub use folders::{Kept, kept_at, transcripts_in};
pub use host::{Asked, Host};
pub use system::{Source, drawn_seed, told_of};
pub use waiting::Progress;
