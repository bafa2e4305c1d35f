//! Laws of assemblers: of texts that both read, and of how operators bind. Each is the contract of a function that does
//! nothing.
//!
//! - `lines_agree`: if the format of `tbc asm` has items for a text, and no byte 13 stands in it that no 10 follows
//!   (`has_lone_return`), then `expansion` reads each of its lines: nothing is bad.
//! - `shortened_agree`: `all_shortened` are these items where an address of two bytes takes one, if the mnemonic has
//!   that mode. If tb_asm refuses none of them at an address below 65,536, the statements that are read mean the same
//!   image (`Means`), and no branch becomes long.
//! - `images_agree`: so if tb_asm refuses none of the items, and none is shortened (`none_shortened`), the image is
//!   that of `tbc asm`. `low_addresses_are_numbers` says when that is so in an image from 256 on.
//!
//! The premises are needed: `proofs/Rows` has a text for each that means something else without it. Of other texts
//! nothing is said, though some have a meaning in `tbc assemble`. The built program is tried on 500 texts
//! (`tools/try/assemble_command.sh`). No function has a body whose meaning could be turned, so there are no wrong
//! bodies.
//!
//! An expression that is written with precedence is a tree whose operators bind as they should (`IsBound`). It is read
//! as the steps of that tree (`reads_trees`). Its value is the tree's: the value of its operands, and of its operator
//! with them, or the first fault among them (`values_of_trees`).
#![tactic(auto)]

mod agreement;
mod trees;

pub use agreement::{images_agree, lines_agree, low_addresses_are_numbers, shortened_agree};
pub use trees::{reads_trees, runs_trees, values_of_trees};
