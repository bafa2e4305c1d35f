//! What the code of a program keeps, said of the machine and of the source alone: no compiler is named.
//!
//! `Keeps` is the headline's record: what the machine sends and how it ends, whatever the ROM does. `MarksLines`
//! says what holds where a line's code begins. `constants_are_addresses`: a program's data and its lines' code are
//! where these definitions have them.
#![tactic(auto)]

mod addresses;

pub use addresses::{
    BYTE, COLUMN, COUNT, HELD, HOME_S, LEFT, LENGTH, LINE, LINES_AT, NOTES, OPEN, POINTER, RESULT,
    RETURN_HIGH, RETURN_LOW, RIGHT, SCRATCH, SEED, SEEDED, SLOTS, TABLE, VARS, WANTED,
    constants_are_addresses,
};
