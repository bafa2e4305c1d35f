//! The law of what a language server published last.
//!
//! `open_texts_are_published` is about a dialogue of a new server, told as the list of what was published
//! (`Publishing`, `specs/LastPublished`). Findings of a text are published as it is opened or changed, and nothing
//! more of one that is closed; every other reply is none, an answer or a refusal. The text that is open under a name
//! is always the one whose findings were published last for it. Where none is open, none was, or that it ended.
#![tactic(auto)]

mod laws;

pub use laws::open_texts_are_published;
