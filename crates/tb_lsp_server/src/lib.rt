//! A language server: its life, the texts that are open, and the dialogue with an editor, with any compiler, over any
//! reader and writer.
//!
//! - `decide` says what is done with a request at each stage of the server's life, and `notice_of` what is told of a
//!   text.
//! - `Server::take` does with each value what `Takes` says. A request is answered once, and a message that is refused
//!   leaves all as it was. A text that is opened or changed is kept, and what is published of it is of this very text
//!   (`Publishes`). A request on a text is answered by what is open under that name (`AnswersText`).
//! - `serve` is the dialogue of a new server: each frame is taken and answered whole before the next one is read
//!   (`Talks`). It ends as its last frame, its input's end, a bad frame, a fault of a stream or want of memory has it
//!   (`Serves`). `Served` has its statuses (`exit_status`).
//!
//! Texts are read in the notation with which the server was made.
#![tactic(auto)]

mod dialogue;
mod life;
mod notices;
mod outcome;
mod server;
mod texts;

pub use dialogue::serve;
pub use life::{Decision, Stage, decide};
pub use notices::{Notice, notice_of};
pub use outcome::{Served, ServerOutcome};
pub use server::{Reply, Server};
pub use texts::{OpenText, Texts};
