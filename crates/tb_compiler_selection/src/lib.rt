//! Instruction selection: slot instructions as groups that have one template each.
//!
//! Slot code is simple: every word goes through a numbered slot. Machine code need not do so: `LET C=A+B` is five slot
//! instructions, `Poll`, `Load(0, A)`, `Load(1, B)`, `Compute(Add, 0)` and `Store(C)`, but the last four are one piece
//! of code that adds two variables into a third. `select` finds such runs: it brackets a line's list into groups, and
//! moves nothing. So the instructions of the groups, one after another, are the list (`bracketed`), and the groups are
//! those of the definition (`selected`). `select_in` says the same of lists that it is lent.
//!
//! The template of a group need not write the slots between its instructions. That is right only if nothing reads them
//! later, so instructions are joined only if those words are dead (`specs/Liveness`, `specs/Select`). The laws are in
//! `specs/Laws`:
//!
//! - `omitted_words_are_dead`: what a group's template need not write is not read after the group. The groups after a
//!   group are the selection of their list, and a test that goes straight to a line is the last group of its list.
//! - `lines_are_closed`: no line of a program reads a slot or the held word before it writes it.
//! - `groups_run_as_slot_code`: after each group the run is where the slot code's run is, after as many instructions
//!   or more. Wherever the slot code's run is outside a line, the run by groups gets there too. In both cases as many
//!   lines were begun. The last group of a line goes on into the next line.
#![tactic(auto)]

mod fusion;
mod groups;
mod laws;
mod liveness;
mod selecting;

pub use groups::{
    Conversion, Destination, Divisibility, Group, Home, Operand, Side, Tested, Usage,
};
pub use laws::{groups_run_as_slot_code, lines_are_closed, omitted_words_are_dead};
pub use selecting::{Placed, select, select_in};
