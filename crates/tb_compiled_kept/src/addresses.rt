//! Addresses of a program's data, and where its lines begin. All data addresses are owned: no ROM writes them. A word is
//! low byte first.
ghost use Rattle.tb_compiled_kept.specs.Pinned.{ConstantsAreAddresses};

/// Where the code of the lines begins.
pub const LINES_AT: u16 = 0x0c00;
/// A routine's first argument; of Divide, its result too.
pub const LEFT: u16 = 0xfb;
/// A routine's second argument.
pub const RIGHT: u16 = 0xfd;
/// The pointer of page zero for the bytes of a text, at the address of `LEFT`.
pub const POINTER: u8 = 0xfb;
/// The line table's address, at the address of `RIGHT`.
pub const TABLE: u16 = 0xfd;
/// 26 words, one a variable.
pub const VARS: u16 = 0xc000;
/// Bytes sent since the last 13 or the start, modulo 256.
pub const COLUMN: u16 = 0xc034;
/// 1 if an input line is open, else 0.
pub const OPEN: u16 = 0xc035;
/// 1 if an RND state is stored, else 0.
pub const SEEDED: u16 = 0xc036;
/// The stack pointer as at the start.
pub const HOME_S: u16 = 0xc037;
/// The stored RND state.
pub const SEED: u16 = 0xc038;
/// The number of the line that is executed.
pub const LINE: u16 = 0xc03a;
/// How many returns the return list holds, 0 to 500.
pub const NOTES: u16 = 0xc03c;
/// 16 words.
pub const SLOTS: u16 = 0xc040;
/// The held word.
pub const HELD: u16 = 0xc060;
/// A routine's result; of Divide, the remainder's size.
pub const RESULT: u16 = 0xc066;
/// The number of the line that Search looks for.
pub const WANTED: u16 = 0xc068;
/// How many entries the line table has.
pub const COUNT: u16 = 0xc06a;
/// A text's length, a byte.
pub const LENGTH: u16 = 0xc06c;
/// A byte that is sent.
pub const BYTE: u16 = 0xc06d;
/// Scratch bytes of the routines, up to $C07F.
pub const SCRATCH: u16 = 0xc06e;
/// The low bytes of 500 returns, which are code addresses.
pub const RETURN_LOW: u16 = 0xc100;
/// Their high bytes.
pub const RETURN_HIGH: u16 = 0xc300;

/// Each public constant is the address of its name in the definitions.
pub fn constants_are_addresses()
    ensures { ConstantsAreAddresses }
{}
