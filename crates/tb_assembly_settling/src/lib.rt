//! Items laid from an address with each branch to a label reaching it.
//!
//! `assemble_settled` answers the image of its items in which each such branch stands as it is, or as the inverse
//! branch over a jump. None is replaced without need (`laid`). It refuses what settling or assembling refuses
//! (`refused`). Items that suit are refused only for want of memory, or since they end past 65,535 once they are
//! settled (`suited`).
#![tactic(auto)]

mod settling;

pub use settling::assemble_settled;
