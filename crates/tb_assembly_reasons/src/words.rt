//! Words and spaces at the front of a text.
ghost use Rattle.std.specs.Prelude.{◌≡◌};
ghost use Rattle.tb_assembly_reasons.specs.Words.{before, from_byte, is_digit, is_word_byte, past_digits, past_spaces, past_word};

/// Whether a byte belongs to a word: a letter, a digit, `_` or a full stop.
pub fn is_word_byte(byte: u8) -> bool
    ensures { result ≡ is_word_byte byte }
{
    matches!(byte, b'a'..=b'z' | b'A'..=b'Z' | b'0'..=b'9' | b'_' | b'.')
}

/// Whether a byte is a hexadecimal digit.
pub fn is_digit(byte: u8) -> bool
    ensures { result ≡ is_digit byte }
{
    matches!(byte, b'a'..=b'f' | b'A'..=b'F' | b'0'..=b'9')
}

/// What is left of a text from a byte on; nothing if it isn't there.
pub fn from_byte(wanted: u8, text: &[u8]) -> &[u8]
    ensures { result.now ≡ from_byte wanted text.now }
{
    for (i, byte) in text.iter().enumerate() {
        if *byte == wanted {
            return &text[i..];
        }
    }
    &[]
}

/// What follows the hexadecimal digits at the front.
pub fn past_digits(text: &[u8]) -> &[u8]
    ensures { result.now ≡ past_digits text.now }
{
    for (i, byte) in text.iter().enumerate() {
        if !is_digit(*byte) {
            return &text[i..];
        }
    }
    &[]
}

/// What follows the spaces at the front.
pub fn past_spaces(text: &[u8]) -> &[u8]
    ensures { result.now ≡ past_spaces text.now }
{
    for (i, byte) in text.iter().enumerate() {
        if *byte != b' ' {
            return &text[i..];
        }
    }
    &[]
}

/// What follows the word at the front.
pub fn past_word(text: &[u8]) -> &[u8]
    ensures { result.now ≡ past_word text.now }
{
    for (i, byte) in text.iter().enumerate() {
        if !is_word_byte(*byte) {
            return &text[i..];
        }
    }
    &[]
}

/// What stands in a text before what is left of it.
pub fn before<'a>(text: &'a [u8], left: &[u8]) -> &'a [u8]
    ensures { result.now ≡ before text.now left.now }
{
    let size = text.len().saturating_sub(left.len());
    text.get(..size).unwrap_or(text)
}
