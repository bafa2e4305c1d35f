//! The door between a compiler and the tools: what a compiled program is, and what a compiler promises of its
//! answers. No template stands here.
//!
//! - `Compile` is the trait of a compiler. It answers whatever the file's lines make in the notation that is asked
//!   for (`only`), and the file has such an outcome (`found`). Where no text has a brace or a bracket, what the lines
//!   make without signs is answered (`plain`).
//! - A refusal is Source, with exactly the first bad line; TooDeep; or TooLarge, exactly when the program costs or
//!   takes more than the limit allows (`RefusesLines`, `RefusesProgram`).
//! - A compiled program is a PRG file whose code and line table end by `$9FFF`. Its lines begin at rising
//!   addresses from `$0C00`, each PRINT text is in its line's code, and its warnings are the missing targets
//!   (`IsBuiltFrom`).
//! - Its code, loaded at `$0801`, keeps the program that the source makes (`keeps`), and marks its lines
//!   (`marks`).
//! - What a compiler says of its programs besides is its ghost member `own`: what is made of a program (`makes`),
//!   and how many bytes that takes (`takes`). Tools hand it on, and know nothing of it.
//! - `Compiled::new`, what a `Compiled` shows, `end_before`, `cost` and `line_cost` are their definitions.
//!   `constants_are_numbers`: the most that a program may cost is 37,888.
#![tactic(auto)]

mod compile;
mod compiled;
mod costs;
mod numbers;
mod settings;

pub use compile::Compile;
pub use compiled::{Compiled, LineStart, end_before};
pub use costs::{cost, line_cost};
pub use numbers::constants_are_numbers;
pub use settings::{CompileSettings, MOST_COST, SizeLimit, USUAL_SEED};
pub use tb_basic_text::Notation;
pub use tb_compiled_errors::CompileError;
