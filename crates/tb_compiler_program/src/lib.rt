//! The code of whole programs, as items of the assembler: the routine block, the lines, fault 7, the search for a line
//! and the line table.
//!
//! `program_items` answers the items of the definition `program_code`, in this order. No label occurs twice, and the
//! items suit: they settle and assemble wherever they end below 65,536 (`Suits`). The code is no longer than the
//! program's cost, with every branch counted as a jump, and with comparisons in the search if it has any. `compile`
//! rests on the lemmas that say so.
#![tactic(auto)]

mod program;
mod search;

pub use program::program_items;
