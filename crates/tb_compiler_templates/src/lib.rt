//! The code of groups of slot instructions, as items of the assembler.
//!
//! Each function `put_..` appends the items of its definition to the list that it is given (`Puts`); it fails only if
//! memory runs out.
#![tactic(auto)]

mod breaks;
mod divisions;
mod groups;
mod in_place;
mod labels;
mod orders;
mod pieces;
mod reduced;
mod scaled;
mod sources;
mod subtracted;
mod templates;

pub use breaks::{put_behind, put_polled, some_leaves};
pub use groups::put_group;
pub use labels::{Inner, Target, label};
pub use pieces::{
    put, put_address, put_alone, put_at, put_const, put_constant, put_faulted, put_here,
    put_high_part, put_low_part,
};
pub use templates::Spot;
