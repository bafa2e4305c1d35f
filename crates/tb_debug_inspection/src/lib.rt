//! What both debuggers tell of a running program: its variables, the values of expressions over them, the texts that
//! say so, and the fault by which it ended.
//!
//! `variable`, `variables`, `depth` and `return_address` are what memory holds at the addresses of a program's data.
//! `value_of_text` is the value of the expression that a text is, as the meaning has it, or why it has none; nothing
//! if the text is no expression. The texts of answers are to the letter.
//!
//! `fault_in` is the fault whose text was sent last, with the line that memory holds; none if it is no fault's text. The
//! last 13 bytes that were sent decide it. No call takes memory.
#![tactic(auto)]

mod faults;
mod readings;
mod texts;
mod values;

pub use faults::{FaultKind, fault_in, fault_line};
pub use readings::{Variables, depth, return_address, variable, variables};
pub use texts::{LIMIT, NO_SUCH_LINE, WHAT, push_address, push_registers, push_value, status_text};
pub use values::{Value, value_of_text};
