//! Why a source text is not compiled: a crate of its own, so that what only reports refusals needs no compiler.
//!
//! Each refusal of the parser and of lowering becomes one of the compiler's. Want of memory becomes one and the same
//! (`from`).
#![tactic(auto)]

mod refusals;

pub use refusals::CompileError;
