//! By which fault a program ended.
ghost use Rattle.std.specs.Prelude.{◌≡◌, ◌+◌, ◌<◌, ◌≤◌, ◌++◌, ℕ, List, length};
ghost use Rattle.std.specs.List.{find};
ghost use Rattle.tb_memmap.specs.Bytes.{at};
ghost use Rattle.arrayvec.specs.ArrayVec.{array_vec_len};
ghost use Rattle.tb_kernal.specs.Sending.{KnowsLast};
ghost use Rattle.tb_debug_inspection.specs.Faults.{fault_in, fault_text, is_fault, line_in, longest_fault, meaning_of, number_of};

use arrayvec::ArrayVec;
use tb_compiled_kept::LINE;
use tb_kernal::Machine;
use tb_memmap::Memory;
use tb_words::decimal_digits;

/// The bytes of the longest text of a fault, `\r!7 AT 65535\r`.
const LONGEST_FAULT: usize = 13;

// What is said, text by text.
const STOPPED: &str = "the STOP key was pressed";

const NO_SUCH_LINE: &str = "a jump goes to no line";

const DIVIDED_BY_ZERO: &str = "a divisor is 0";

const BAD_BOUND: &str = "the bound of RND is below 1";

const TOO_MANY_CALLS: &str = "more than 500 GOSUBs are open";

const NO_CALL: &str = "RETURN without GOSUB";

const NO_NUMBER: &str = "what was typed is no number";

const RAN_PAST: &str = "it ran past the last line; an END is missing";

/// A fault of a program.
#[derive(Clone, Copy, PartialEq, Eq, Debug, Drop)]
pub enum FaultKind {
    Stopped,
    NoSuchLine,
    DividedByZero,
    BadBound,
    TooManyCalls,
    NoCall,
    NoNumber,
    RanPast,
}

const FAULT_KINDS: [FaultKind; 8] = [
    FaultKind::Stopped,
    FaultKind::NoSuchLine,
    FaultKind::DividedByZero,
    FaultKind::BadBound,
    FaultKind::TooManyCalls,
    FaultKind::NoCall,
    FaultKind::NoNumber,
    FaultKind::RanPast,
];

impl FaultKind {
    /// Its number, as the program shows it.
    pub fn number(self) -> u8
        ensures { result ≡ number_of self }
    {
        match self {
            FaultKind::Stopped => 0,
            FaultKind::NoSuchLine => 1,
            FaultKind::DividedByZero => 2,
            FaultKind::BadBound => 3,
            FaultKind::TooManyCalls => 4,
            FaultKind::NoCall => 5,
            FaultKind::NoNumber => 6,
            FaultKind::RanPast => 7,
        }
    }

    /// What it means.
    pub fn meaning(self) -> &'static str
        ensures { result.now ≡ meaning_of self }
    {
        match self {
            FaultKind::Stopped => STOPPED,
            FaultKind::NoSuchLine => NO_SUCH_LINE,
            FaultKind::DividedByZero => DIVIDED_BY_ZERO,
            FaultKind::BadBound => BAD_BOUND,
            FaultKind::TooManyCalls => TOO_MANY_CALLS,
            FaultKind::NoCall => NO_CALL,
            FaultKind::NoNumber => NO_NUMBER,
            FaultKind::RanPast => RAN_PAST,
        }
    }
}

// What a program sends last that ends by a fault.
fn fault_text(kind: FaultKind, line: u16) -> ArrayVec<u8, LONGEST_FAULT>
    ensures text { result.items ≡ fault_text line kind }
    ensures short { length (fault_text line kind) ≤ longest_fault }
{
    let head = [b'\r', b'!', b'0' + kind.number(), b' ', b'A', b'T', b' '];
    let mut text = ArrayVec::new();
    append(&mut text, &head);
    append(&mut text, decimal_digits(line).as_slice());
    append(&mut text, b"\r");
    text
}

// Appends bytes to a text that has room for them.
fn append(text: &mut ArrayVec<u8, LONGEST_FAULT>, bytes: &[u8])
    requires room { array_vec_len text.old + length bytes.now ≤ longest_fault }
    ensures items { text.new.items ≡ text.old.items ++ bytes.now }
    ensures len { array_vec_len text.new ≡ array_vec_len text.old + length bytes.now }
{
    match text.try_extend_from_slice(bytes) {
        Ok(()) => {}
        Err(_) => unreachable!(),
    }
}

// The first of some faults by whose text what a program sent ends.
fn first_fault(kinds: &[FaultKind], sent: &[u8], line: u16) -> Option<FaultKind>
    ensures { result ≡ find (is_fault sent.now line) kinds.now }
{
    match kinds {
        [] => None,
        [first, rest @ ..] => if sent.ends_with(fault_text(*first, line).as_slice()) {
            Some(*first)
        } else {
            first_fault(rest, sent, line)
        },
    }
}

// The byte at an address among a program's data.
fn data_byte(memory: &Memory, address: u16) -> u8
    requires { (0xc000 ≤ address) × (address < 0xd000) }
    ensures { result ≡ at memory.now address }
{
    match memory.read(address) {
        Ok(byte) => byte,
        Err(_) => unreachable!(),
    }
}

/// The line of the last fault, as the program holds it.
pub fn fault_line(machine: &Machine) -> u16
    ensures { result ≡ line_in (at machine.now.memory) }
{
    let low = data_byte(machine.memory(), LINE);
    let high = data_byte(machine.memory(), LINE + 1);
    u16::from(high) << 8 | u16::from(low)
}

/// The fault by which a program ended, if it ended by one: its text is what was sent last, with the line that the machine
/// holds. The end of what was sent tells it, as far as it is as long as the longest text of a fault.
pub fn fault_in(machine: &Machine) -> Option<FaultKind>
    ensures fault { result ≡ fault_in machine.now.sent (at machine.now.memory) }
    ensures earlier { (earlier : List ℕ) → KnowsLast longest_fault earlier machine.now.sent
        → result ≡ fault_in (earlier ++ machine.now.sent) (at machine.now.memory) }
{
    let line = fault_line(machine);
    first_fault(&FAULT_KINDS, machine.sent(), line)
}
