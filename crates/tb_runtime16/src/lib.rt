//! The routine block, the machine code that every compiled program shares: its address, its bytes, and the laws of its
//! routines.
//!
//! `block` is the bytes of the one table in its code, one routine after another; they end before `$0C00`. `entry` is
//! where a routine begins, and there its bytes are in the block (`bytes`). `constants_are_addresses`: it begins
//! where the definitions have it. Where a program's data are is tb_compiled_kept's, and handed on.
//!
//! Each routine's law is the contract of a function that does nothing, over the block's bytes. It holds in every
//! program that has them at `$080D`, from the routine's entry, with every memory and every lawful list of events. The
//! caller may be any, and the stack may be at any depth that leaves the routine room. The routine sends what the
//! meaning's definitions send, leaves its result, and is back within a bound. `all_routines` puts the laws together,
//! within 45 events a byte of keyboard text plus 3,828. `prologue` leads from an arbitrary start to the first line,
//! with its data cleared.
//!
//! Only tests show that the block's commented text assembles to these bytes (tb_golden, `data/text/block.asm`).
#![tactic(auto)]

mod addresses;
mod code;
mod laws;
mod routines;
mod targets;

pub use addresses::{BLOCK_AT, Routine, SEND_AT, entry};
pub use code::block;
pub use laws::constants_are_addresses;
pub use routines::{
    all_routines, divide, divide_by_zero, divide_unsigned, fault, fault_line, input, multiply,
    number, poll, pop, pop_none, prologue, push, push_full, random, random_range, search, send,
    text, zone,
};
pub use tb_compiled_kept::{
    BYTE, COLUMN, COUNT, HELD, HOME_S, LEFT, LENGTH, LINE, LINES_AT, NOTES, OPEN, POINTER, RESULT,
    RETURN_HIGH, RETURN_LOW, RIGHT, SCRATCH, SEED, SEEDED, SLOTS, TABLE, VARS, WANTED,
};
