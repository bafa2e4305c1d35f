//! The debugger's commands, as lines spell them.
//!
//! `read_command` is the format's table of commands, and `Unknown` for any other line; `number` and `variable` read
//! their operands. `read_after` takes an empty line for the last move once more, and `last_move` is what `n`, `p`,
//! `c`, `rc`, `g`, `t` or `s` asked for last. `read_without_source` takes `b $ADDR` and `g $ADDR` for a breakpoint and
//! a way besides.
#![tactic(auto)]

mod command;
mod parts;

pub use command::{Command, last_move, read_after, read_command, read_without_source};
pub use parts::{number, variable};
