//! Where the block and its routines begin.
ghost use Rattle.std.specs.Prelude.{◌≡◌};
ghost use Rattle.tb_runtime16.specs.Block.{StandAt, bytes_of};
ghost use Rattle.tb_runtime16.specs.Addresses.{entry_of};

use tb_memmap::CODE_START;

// How many bytes each part of the block has, in the order of the parts: the entries follow from these.
/// Bytes of the prologue.
pub const PROLOGUE_LENGTH: usize = 18;
/// Bytes of Send.
pub const SEND_LENGTH: usize = 15;
/// Bytes of Divide.
pub const DIVIDE_LENGTH: usize = 205;
/// Bytes of Random.
pub const RANDOM_LENGTH: usize = 92;
/// Bytes of Multiply.
pub const MULTIPLY_LENGTH: usize = 37;
/// Bytes of Number.
pub const NUMBER_LENGTH: usize = 93;
/// Bytes of Text.
pub const TEXT_LENGTH: usize = 24;
/// Bytes of Zone.
pub const ZONE_LENGTH: usize = 13;
/// Bytes of Input.
pub const INPUT_LENGTH: usize = 148;
/// Bytes of Search.
pub const SEARCH_LENGTH: usize = 186;
/// Bytes of Push.
pub const PUSH_LENGTH: usize = 48;
/// Bytes of Pop.
pub const POP_LENGTH: usize = 49;
/// Bytes of Fault's entry with a line, up to Fault.
pub const FAULT_LINE_LENGTH: usize = 6;
/// Bytes of Fault.
pub const FAULT_LENGTH: usize = 64;
/// Bytes of Poll.
pub const POLL_LENGTH: usize = 13;
/// Where the block begins: the prologue, which a program starts with.
pub const BLOCK_AT: u16 = CODE_START;
/// Where Send begins, which sends the byte in A and updates `COLUMN`: what the other routines call for a single byte.
pub const SEND_AT: u16 = BLOCK_AT + PROLOGUE_LENGTH as u16;
/// Where Divide begins.
pub const DIVIDE_AT: u16 = SEND_AT + SEND_LENGTH as u16;
/// Where Random begins.
pub const RANDOM_AT: u16 = DIVIDE_AT + DIVIDE_LENGTH as u16;
/// Where Multiply begins.
pub const MULTIPLY_AT: u16 = RANDOM_AT + RANDOM_LENGTH as u16;
/// Where Number begins.
pub const NUMBER_AT: u16 = MULTIPLY_AT + MULTIPLY_LENGTH as u16;
/// Where Text begins.
pub const TEXT_AT: u16 = NUMBER_AT + NUMBER_LENGTH as u16;
/// Where Zone begins.
pub const ZONE_AT: u16 = TEXT_AT + TEXT_LENGTH as u16;
/// Where Input begins.
pub const INPUT_AT: u16 = ZONE_AT + ZONE_LENGTH as u16;
/// Where Search begins.
pub const SEARCH_AT: u16 = INPUT_AT + INPUT_LENGTH as u16;
/// Where Push begins.
pub const PUSH_AT: u16 = SEARCH_AT + SEARCH_LENGTH as u16;
/// Where Pop begins.
pub const POP_AT: u16 = PUSH_AT + PUSH_LENGTH as u16;
/// Where Fault is entered with a line's number in X and Y.
pub const FAULT_LINE_AT: u16 = POP_AT + POP_LENGTH as u16;
/// Where Fault begins.
pub const FAULT_AT: u16 = FAULT_LINE_AT + FAULT_LINE_LENGTH as u16;
/// Where Poll begins.
pub const POLL_AT: u16 = FAULT_AT + FAULT_LENGTH as u16;
/// How many bytes the block has.
pub const BLOCK_LENGTH: usize = (POLL_AT - BLOCK_AT) as usize + POLL_LENGTH;

/// A routine that the code of lines calls.
#[derive(Clone, Copy, Debug, PartialEq, Eq, Drop)]
pub enum Routine {
    /// `RESULT` = `LEFT` * `RIGHT`, modulo 65,536.
    Multiply,
    /// `LEFT` = `LEFT` / `RIGHT`, signed, `RESULT` = the remainder's size; fault 2 if `RIGHT` is 0.
    Divide,
    /// `RESULT` = the next RND state modulo `RIGHT`; the first state is in `LEFT`; fault 3 if `RIGHT` is below 1.
    Random,
    /// Sends the word in `LEFT` in decimal.
    Number,
    /// Sends the `LENGTH` bytes from the address in `POINTER` on.
    Text,
    /// Sends spaces up to the next zone of eight columns.
    Zone,
    /// One variable's turn of INPUT, its value in `RESULT`; fault 6 at a bad byte; waits when the text ends.
    Input,
    /// `RESULT` = the code address of the line `WANTED`, by `TABLE` and `COUNT`; fault 1 if there is none.
    Search,
    /// Puts the word in `LEFT` on the return list; fault 4 if it holds 500.
    Push,
    /// Takes the newest return off the return list into `RESULT`; fault 5 if there is none.
    Pop,
    /// Ends the program with the fault whose number is in A, at the line whose number is in X (low byte) and Y.
    FaultLine,
    /// Ends the program with the fault whose number is in A, at the line in `LINE`.
    Fault,
    /// Looks at the keyboard once; fault 0 if the STOP key is down.
    Poll,
}

/// The address at which a routine is called: that of its first byte in the block.
pub fn entry(routine: Routine) -> u16
    ensures entry { result ≡ entry_of routine }
    ensures bytes { StandAt result (bytes_of routine) }
{
    match routine {
        Routine::Multiply => MULTIPLY_AT,
        Routine::Divide => DIVIDE_AT,
        Routine::Random => RANDOM_AT,
        Routine::Number => NUMBER_AT,
        Routine::Text => TEXT_AT,
        Routine::Zone => ZONE_AT,
        Routine::Input => INPUT_AT,
        Routine::Search => SEARCH_AT,
        Routine::Push => PUSH_AT,
        Routine::Pop => POP_AT,
        Routine::FaultLine => FAULT_LINE_AT,
        Routine::Fault => FAULT_AT,
        Routine::Poll => POLL_AT,
    }
}
