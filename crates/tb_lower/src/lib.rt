//! Slot code that does what a program means.
//!
//! Slot code works on words in numbered slots, an instruction at a time, and `lower` makes it from a program.
//!
//! - The slot code has the source's runs, in both directions. With it come the bound on its instructions, the state at
//!   each list's beginning, the counts by kind and the texts in order (`follows`).
//! - It is exactly the folded code of the definition (`lowered`), and its operands are in range (`in_range`).
//! - `lower` refuses exactly when an expression needs more than 16 slots (`refused`, `accepted`).
#![tactic(auto)]

mod lowering;
mod slot_code;

pub use lowering::lower;
pub use slot_code::{SlotCode, SlotInstr, SlotLine};
pub use tb_basic_meaning::{LowerError, SLOT_COUNT, statement_need};
