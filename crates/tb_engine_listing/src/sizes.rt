//! The sizes of code by which a listing finds its way: of the block, and of what follows a program's lines.
ghost use Rattle.tb_engine_listing.specs.Sizes.{AreSizesOfCode};

/// How many bytes the search in the line table takes, which lies before the table.
pub const LOOK_UP_SIZE: u16 = 21;

/// How many bytes the loads of the number that is sought take, with which a search that compares numbers begins.
pub const ASKED_SIZE: u16 = 6;

/// How many bytes a comparison with the number of a line takes.
pub const COMPARED_SIZE: u16 = 19;

/// Programs with fewer lines may have their numbers compared.
pub const TOO_MANY_LINES: usize = 64;

/// How many bytes the code of fault 7 takes, after the last line.
pub const FAULT_SIZE: u16 = 9;

/// How many bytes the block takes, which lies before the lines.
pub const BLOCK_SIZE: u16 = 1011;

/// How many bytes a row of the line table takes, and each of its two words.
pub const ROW_SIZE: u16 = 4;

/// How many bytes a word takes.
pub const WORD: usize = 2;

/// Each of these sizes is that of its template, or of its part of the block.
pub fn sizes_are_those_of_code()
    ensures { AreSizesOfCode }
{}
