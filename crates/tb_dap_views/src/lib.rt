//! What a debug adapter shows of a run: frames, variables, registers, memory and code, with the lines of the source's
//! file.
//!
//! - `stack_value`: the line that begins here or was begun last, and for each line to return to the GOSUB's
//!   (`stack_of`). `scope_value`: the variables, registers, and the time and status of the run (`scope_of`).
//!   `evaluate`: the value of a text over them, or why it has none (`HasValue`).
//! - `memory_value`: the bytes from a place on up to the first that is closed, in base64, and how many are left
//!   (`memory_of`). `code_value`: exactly as many instructions as are asked for, cut as `dis` cuts the image
//!   (`code_of`).
//! - `SourceFile::breakable`: the first line from a place on that gives the program its line.
#![tactic(auto)]

mod code;
mod evaluation;
mod frames;
mod memory;
mod scopes;
mod sources;
mod texts;

pub use code::{CodeRange, code_value};
pub use evaluation::{Evaluated, evaluate};
pub use frames::{Frame, stack_value};
pub use memory::{memory_value, shifted};
pub use scopes::scope_value;
pub use sources::{Breakable, SourceFile, before, is_same_file};
pub use texts::place_of;
