//! The addresses of the block that its own code jumps to or calls, each as its two bytes, low byte first.
use crate::addresses::{DIVIDE_AT, FAULT_AT, NUMBER_AT, POP_AT, SEARCH_AT, SEND_AT};
use tb_compiled_kept::LINES_AT;

// The two bytes of an address.
macro_rules! word {
    ($address:expr) => {
        (($address % 256) as u8, ($address / 256) as u8)
    };
}

/// The lines' code, after the block.
pub const LINES: (u8, u8) = word!(LINES_AT);
/// Send.
pub const SEND: (u8, u8) = word!(SEND_AT);
/// Send's SEND1: a byte other than 13.
pub const PLAIN: (u8, u8) = word!(SEND_AT + 9);
/// Number.
pub const NUMBER: (u8, u8) = word!(NUMBER_AT);
/// Fault.
pub const FAULT: (u8, u8) = word!(FAULT_AT);
/// Divide's NEGATELEFT: LEFT is negated.
pub const OPPOSITE: (u8, u8) = word!(DIVIDE_AT + 29);
/// Divide's NEGATE: the word at X bytes after LEFT is negated.
pub const NEGATE: (u8, u8) = word!(DIVIDE_AT + 31);
/// Divide's DIVIDESIZES: the division of the sizes of LEFT and RIGHT.
pub const SIZES: (u8, u8) = word!(DIVIDE_AT + 50);
/// Divide's UNSIGNED: the division without signs.
pub const UNSIGNED: (u8, u8) = word!(DIVIDE_AT + 66);
/// Divide's ROUNDS: eight rounds on the byte at LEFT, with the rest in A.
pub const ROUNDS: (u8, u8) = word!(DIVIDE_AT + 101);
/// Number's NUMBERPLAIN: LEFT is sent as a word without a sign.
pub const DECIMAL: (u8, u8) = word!(NUMBER_AT + 12);
/// Search.
pub const SEARCH: (u8, u8) = word!(SEARCH_AT);
/// Pop's POP_STORE: A and Y are the return.
pub const STORE: (u8, u8) = word!(POP_AT + 28);
