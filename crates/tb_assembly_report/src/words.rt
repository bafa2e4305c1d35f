//! Words of lines.
ghost use Rattle.std.specs.Prelude.{◌≡◌, ◌≤◌, drop, length, take};
ghost use Rattle.tb_assembly_text.specs.Tokens.{run};
ghost use Rattle.tb_assembly_report.specs.Words.{before_blanks, front_word, is_word_byte, last_word, size_at_end, word_at, word_before};

fn is_word_byte(byte: u8) -> bool
    ensures { result ≡ is_word_byte byte }
{
    matches!(byte, b'a'..=b'z' | b'A'..=b'Z' | b'0'..=b'9' | b'_' | b'.' | b'@' | b'!')
}

fn word_size(text: &[u8]) -> usize
    ensures size { result ≡ run is_word_byte text.now }
    ensures within { result ≤ length text.now }
{
    for (i, byte) in text.iter().enumerate() {
        if !is_word_byte(*byte) {
            return i;
        }
    }
    text.len()
}

fn front_word(text: &[u8]) -> &[u8]
    ensures { result.now ≡ front_word text.now }
{
    &text[..word_size(text)]
}

// What is left of a text behind its first bytes.
#[tactic(auto, using(std::proofs::lemmas::List::drop_all))]
fn behind(text: &[u8], size: usize) -> &[u8]
    ensures { result.now ≡ drop size text.now }
{
    if size <= text.len() {
        text.split_at(size).1
    } else {
        &[]
    }
}

// A text without the blanks at its end.
fn before_blanks(text: &[u8]) -> &[u8]
    ensures { result.now ≡ before_blanks text.now }
{
    match text {
        [front @ .., last] if *last == b' ' || *last == b'\t' => before_blanks(front),
        _ => text,
    }
}

// How many bytes of a word a text ends with.
fn size_at_end(text: &[u8]) -> usize
    ensures size { result ≡ size_at_end text.now }
    ensures within { result ≤ length text.now }
{
    match text {
        [front @ .., last] if is_word_byte(*last) => size_at_end(front) + 1,
        _ => 0,
    }
}

fn last_word(text: &[u8]) -> &[u8]
    ensures { result.now ≡ last_word text.now }
{
    &text[text.len() - size_at_end(text)..]
}

// What is before a place of a text.
#[tactic(auto, using(std::proofs::lemmas::List::take_all))]
fn front(text: &[u8], size: usize) -> &[u8]
    ensures { result.now ≡ take size text.now }
{
    if size <= text.len() {
        text.split_at(size).0
    } else {
        text
    }
}

/// The last word before a column of a line, counted from 1, if nothing but blanks is between.
pub fn word_before(line: &[u8], column: usize) -> &[u8]
    ensures { result.now ≡ word_before line.now column }
{
    last_word(before_blanks(front(line, column.saturating_sub(1))))
}

/// The word at a column of a line, counted from 1.
pub fn word_at(line: &[u8], column: usize) -> &[u8]
    ensures { result.now ≡ word_at line.now column }
{
    front_word(behind(line, column.saturating_sub(1)))
}
