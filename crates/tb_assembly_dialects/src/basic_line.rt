//! The BASIC line that a program may begin with.
ghost use Rattle.std.specs.Prelude.{◌≡◌, ◌+◌, ◌<◌, ◌≤◌, length, drop, take};
ghost use Rattle.tb_assembly_dialects.specs.BasicLine.{basic_line, basic_size, behind_basic, text_size, is_basic, word_at};

/// Where BASIC lines begin.
const BASIC_START: u16 = 0x0801;

/// How many bytes a line has before its text: the address of the next line, and its number.
const BEFORE_TEXT: usize = 4;

/// How many bytes follow the text: the 0 that ends it, and the two that end the lines.
const AFTER_TEXT: usize = 3;

/// The most bytes of the text of a line.
const MOST_TEXT: usize = 250;

// How many bytes there are before the first 0, or at all.
fn text_size(bytes: &[u8]) -> usize
    ensures size { result ≡ text_size bytes.now }
    ensures within { result ≤ length bytes.now }
{
    let mut size = 0;
    for byte in bytes {
        if *byte == 0 {
            return size;
        }
        size += 1;
    }
    size
}

/// How many bytes the BASIC line takes at the front of a program, with the end of the lines after it; 0 if the program
/// doesn't begin with one line alone.
pub fn basic_size(at: u16, bytes: &[u8]) -> usize
    ensures size { result ≡ basic_size at bytes.now }
    ensures within { result ≤ length bytes.now }
    ensures below { at + result < 65536 }
{
    if at != BASIC_START || bytes.len() < BEFORE_TEXT + AFTER_TEXT {
        return 0;
    }
    let text = text_size(bytes.split_at(BEFORE_TEXT).1);
    let size = BEFORE_TEXT + text + AFTER_TEXT;
    if text <= MOST_TEXT && is_basic(bytes, text) {
        size
    } else {
        0
    }
}

// Whether bytes at the start of BASIC are one line with a text of this size, and the end of the lines.
fn is_basic(bytes: &[u8], text: usize) -> bool
    requires { text ≤ length bytes.now }
    ensures { result ≡ is_basic bytes.now text }
{
    let size = BEFORE_TEXT + text + AFTER_TEXT;
    size <= bytes.len()
        && usize::from(u16::from_le_bytes([bytes[0], bytes[1]]))
            == usize::from(BASIC_START) + size - 2
        && bytes[size - 2] == 0
        && bytes[size - 1] == 0
}

/// The bytes of the BASIC line of a program.
pub fn basic_line(at: u16, bytes: &[u8]) -> &[u8]
    ensures { result.now ≡ basic_line at bytes.now }
{
    bytes.split_at(basic_size(at, bytes)).0
}

// The address after some bytes.
fn address_behind(at: u16, size: usize) -> u16
    requires { at + size < 65536 }
    ensures { result ≡ at + size }
{
    at + size as u16
}

/// What follows the BASIC line of a program, with its address.
pub fn behind_basic(at: u16, bytes: &[u8]) -> (u16, &[u8])
    requires { at + length bytes.now ≤ 65536 }
    ensures place { result.0 ≡ at + basic_size at bytes.now }
    ensures rest { result.1.now ≡ behind_basic at bytes.now }
    ensures within { result.0 + length result.1.now ≤ 65536 }
{
    let size = basic_size(at, bytes);
    (address_behind(at, size), bytes.split_at(size).1)
}
