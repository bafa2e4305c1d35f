//! The compiler: from a source text to a PRG file.
//!
//! `compile` answers whatever the file's lines make (`only`), and the file has such an outcome (`found`). The outcome
//! is one of these:
//!
//! - Source, with exactly the first bad line; TooDeep; or TooLarge(n), exactly when the cost is n and above 37,888
//!   (`RefusesProgram`, `RefusesLines`).
//! - A compiled program (`IsLinked`). Its PRG is the header and the image of the program's settled items. In these,
//!   each branch that does not reach its label is the inverse branch over a jump, and no other branch is. Each PRINT
//!   text is in its line's code, in order, at a place of its own. Code and table end by `$9FFF`, and the lines' starts
//!   rise from `$0C00`.
//!
//! The code of a compiled program, loaded at `$0801`, keeps the program that the source makes (`keeps`: the headline).
//! It also marks the program's lines (`marks`). Suppose the machine is at the address that `start_of` answers for line
//! n, and m such instructions came before. Then exactly the source's output after m lines was sent, n is the line at
//! which the source goes on, and the 26 words at `$C000` are its variables. The return list is as long as the source's
//! and leads to the same places, newest first. The next such instruction comes within a number of the program's own
//! events.
//!
//! `compile_to_fit` refuses a program by its code and not by its cost. TooLarge(n) comes only when the settled code
//! and the line table end past `$9FFF`; n is the bytes that they take from `$0C00` on, and 62,464 if the code does not
//! end below 65,536 (`TakesTooMuch`). If `compile` answers a program, it answers the same one (`same`).
//!
//! Both are `compile_within` with one of two limits (`SizeLimit`). With signs (`Notation`) its clauses speak of what
//! the file's lines make in that notation (`SourceMakes`); where no text has a brace or a bracket its answer is the
//! one without signs (`plain`).
//!
//! `TinyBasic` is `compile_within` as tools take it, by the trait `Compile` of tb_compiled. What it says of its own
//! programs is `templates`: each is linked from its settled items, and takes as many bytes as these, with any first RND
//! state (`sizes_are_settled`).
#![tactic(auto)]

mod compiler;
mod laws;
mod linking;

pub use compiler::{Options, TinyBasic, compile, compile_to_fit, compile_within};
pub use laws::sizes_are_settled;
pub use tb_compiled::{
    CompileError, CompileSettings, Compiled, LineStart, MOST_COST, Notation, SizeLimit, cost,
    line_cost,
};
