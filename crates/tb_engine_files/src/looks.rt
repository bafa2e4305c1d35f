//! What a file looks like that a command may replace.
ghost use Rattle.std.specs.Prelude.{◌≡◌};
ghost use Rattle.std.specs.Char.{is_ascii_hexdigit};
ghost use Rattle.std.specs.List.{list_all};
ghost use Rattle.tb_engine_files.specs.Looks.{after, are_rows, code_kind, has_address, is_code, is_key_byte, is_row, is_text_byte, loads_at, looks_like};

use crate::names::is_prg_name;

/// What a command writes.
#[derive(Clone, Copy, PartialEq, Eq, Debug, Drop)]
pub enum Kind {
    /// The PRG file of a source.
    Program,
    /// A PRG file of this address, if one is named.
    Code(Option<u16>),
    /// A disk image.
    Image,
    /// A label file.
    Labels,
    /// A listing.
    Listing,
    /// A map.
    Map,
    /// A watch file.
    Watch,
    /// The page of a profile.
    Page,
    /// A key file.
    Keys,
    /// A transcript.
    Transcript,
}

/// A regular file that is there: how many bytes it has, and the first of these, `MOST_LOOK` at most.
#[derive(Debug, Drop)]
pub struct Look {
    pub size: u64,
    pub beginning: Vec<u8>,
}

/// The most bytes of a file that are looked at.
pub const MOST_LOOK: usize = 4096;

// The PRG file of a source begins with its load address and its BASIC line.
const PROGRAM_HEAD: &[u8] = b"\x01\x08\x0b\x08\x0a\x00\x9e2061\x00\x00\x00";

const IMAGE_SIZE: u64 = 174_848;

// A load address, and as many bytes as there are addresses.
const MOST_PRG: u64 = 65_538;

const LABELS_HEAD: &[u8] = b"al C:";

const MAP_HEAD: &[u8] = b"part        addr   bytes    cost\n";

const WATCH_HEAD: &[u8] = b"; For VICE's monitor: it stops where a ROM writes ";

const PAGE_HEAD: &[u8] = b"<!DOCTYPE html>\n<html lang=\"en\">\n<head>\n<meta charset=\"utf-8\">\n";

const TRANSCRIPT_HEAD: &[u8] = b"# ";

// Whether a byte may be one of a text: a character of ASCII, a tabulator or a line end.
fn is_text_byte(byte: u8) -> bool
    ensures { result ≡ is_text_byte byte }
{
    byte == b'\t' || byte == b'\n' || byte == b'\r' || (32 <= byte && byte <= 126)
}

// Whether a byte may be one of a key file: a hexadecimal digit or a line end.
fn is_key_byte(byte: u8) -> bool
    ensures { result ≡ is_key_byte byte }
{
    byte == b'\n' || byte == b'\r' || byte.is_ascii_hexdigit()
}

/// Whether all bytes may be those of a text.
pub fn is_text(bytes: &[u8]) -> bool
    ensures { result ≡ list_all is_text_byte bytes.now }
{
    bytes.iter().all(|byte| is_text_byte(*byte))
}

// Whether all bytes may be those of a key file.
fn are_keys(bytes: &[u8]) -> bool
    ensures { result ≡ list_all is_key_byte bytes.now }
{
    bytes.iter().all(|byte| is_key_byte(*byte))
}

// Whether all bytes are hexadecimal digits.
fn are_digits(bytes: &[u8]) -> bool
    ensures { result ≡ list_all is_ascii_hexdigit bytes.now }
{
    bytes.iter().all(|byte| byte.is_ascii_hexdigit())
}

// Whether a text goes on with the address of an instruction, as a listing has it.
fn is_row(text: &[u8]) -> bool
    ensures { result ≡ is_row text.now }
{
    7 <= text.len() && text.starts_with(b" ; ") && are_digits(&text[3..7])
}

// Whether somewhere in a text an instruction has its address.
fn has_address(text: &[u8]) -> bool
    ensures { result ≡ has_address text.now }
{
    match text {
        [] => false,
        [_, rest @ ..] => is_row(text) || has_address(rest),
    }
}

// How far a line of a listing is.
#[derive(Clone, Copy, PartialEq, Eq, Drop)]
enum Row {
    /// It begins.
    Begins,
    /// It has begun with spaces.
    Indented,
    /// It has an instruction, and no address yet.
    Lacks,
    /// It has all that it needs.
    Whole,
}

// How far a line is after one more byte; the text begins with that byte.
fn after(row: Row, text: &[u8], byte: u8) -> Row
    ensures { result ≡ after row text.now byte }
{
    match row {
        Row::Begins | Row::Indented if byte == b' ' => Row::Indented,
        Row::Begins => Row::Whole,
        Row::Indented => if byte == b'.' { Row::Whole } else { Row::Lacks },
        Row::Lacks => if is_row(text) { Row::Whole } else { Row::Lacks },
        Row::Whole => Row::Whole,
    }
}

// Whether each instruction of a text has its address. The last line may be cut off.
fn are_rows(row: Row, text: &[u8]) -> bool
    ensures { result ≡ are_rows row text.now }
{
    match text {
        [] => true,
        [b'\n', rest @ ..] => row != Row::Lacks && are_rows(Row::Begins, rest),
        [byte, rest @ ..] => are_rows(after(row, text, *byte), rest),
    }
}

// Whether bytes begin with the address, low byte first, if it is known.
fn loads_at(bytes: &[u8], at: Option<u16>) -> bool
    ensures { result ≡ loads_at bytes.now at }
{
    match at {
        Some(at) => bytes.starts_with(&at.to_le_bytes()),
        None => 2 <= bytes.len(),
    }
}

// Whether a file may be a PRG file that lies at the address: no text is one.
fn is_code(look: &Look, at: Option<u16>) -> bool
    ensures { result ≡ is_code look.now at }
{
    let bytes = look.beginning.as_slice();
    look.size <= MOST_PRG && loads_at(bytes, at) && !is_text(bytes)
}

/// The kind of an assembled PRG file by its path and its address: one whose name ends in `.prg` may have had another address.
pub fn code_kind(path: &str, at: Option<u16>) -> Kind
    ensures { result ≡ code_kind path.now at }
{
    if is_prg_name(path) {
        Kind::Code(None)
    } else {
        Kind::Code(at)
    }
}

/// Whether a file looks like one of a kind. An empty one does: nothing is lost with it.
pub fn looks_like(kind: Kind, look: &Look) -> bool
    ensures { result ≡ looks_like kind look.now }
{
    let bytes = look.beginning.as_slice();
    look.size == 0
        || match kind {
            Kind::Program => bytes.starts_with(PROGRAM_HEAD),
            Kind::Code(at) => is_code(look, at),
            Kind::Image => look.size == IMAGE_SIZE,
            Kind::Labels => bytes.starts_with(LABELS_HEAD),
            Kind::Listing => has_address(bytes) && are_rows(Row::Begins, bytes),
            Kind::Map => bytes.starts_with(MAP_HEAD),
            Kind::Watch => bytes.starts_with(WATCH_HEAD),
            Kind::Page => bytes.starts_with(PAGE_HEAD),
            Kind::Keys => are_keys(bytes),
            Kind::Transcript => bytes.starts_with(TRANSCRIPT_HEAD),
        }
}
