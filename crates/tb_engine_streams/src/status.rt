//! The exit statuses of the program.

/// All is done. A program that ran has returned.
pub const DONE: u8 = 0;

/// A source, a text, a PRG file or a disk is refused.
pub const REFUSED: u8 = 1;

/// Words of the command line are refused, or a key list or an address.
pub const BAD_WORDS: u8 = 2;

/// A file or a stream failed.
pub const FAULT: u8 = 3;

/// A growth was refused.
pub const NO_MEMORY: u8 = 4;

/// The program was still running after the last event that it might take.
pub const STEP_LIMIT: u8 = 5;

/// The program waits for a key, and the keyboard text is used up.
pub const WAITS_FOR_KEY: u8 = 6;

/// An instruction of the program was refused.
pub const WENT_WRONG: u8 = 7;
