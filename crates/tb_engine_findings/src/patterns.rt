//! Patterns of code: a small letter stands for each byte of a class, any other byte for itself.
ghost use Rattle.std.specs.Prelude.{◌≡◌};
ghost use Rattle.tb_engine_findings.specs.Patterns as spec;

/// Whether a text begins with what a pattern stands for.
pub fn fits_front(pattern: &[u8], text: &[u8]) -> bool
    ensures { result ≡ spec.fits_front pattern.now text.now }
{
    match pattern {
        [] => true,
        [sign, signs @ ..] => match text {
            [byte, bytes @ ..] => stands_for(*sign, *byte) && fits_front(signs, bytes),
            [] => false,
        },
    }
}

/// Whether a text ends with what a pattern stands for.
pub fn fits_end(pattern: &[u8], text: &[u8]) -> bool
    ensures { result ≡ spec.fits_end pattern.now text.now }
{
    match pattern {
        [] => true,
        [signs @ .., sign] => match text {
            [bytes @ .., byte] => stands_for(*sign, *byte) && fits_end(signs, bytes),
            [] => false,
        },
    }
}

/// Whether what a pattern stands for is somewhere in a text.
pub fn is_in(pattern: &[u8], text: &[u8]) -> bool
    ensures { result ≡ spec.is_in pattern.now text.now }
{
    match text {
        [_, rest @ ..] => fits_front(pattern, text) || is_in(pattern, rest),
        [] => fits_front(pattern, text),
    }
}

// Whether a byte of a pattern stands for a byte of a text.
fn stands_for(sign: u8, byte: u8) -> bool
    ensures { result ≡ spec.stands_for sign byte }
{
    match sign {
        b'l' => byte.is_ascii_uppercase(),
        b'd' => byte.is_ascii_digit(),
        b's' => is_sign(byte),
        b'o' => is_operator(byte),
        b'r' => is_relation(byte),
        b'p' => is_separator(byte),
        b'b' => begins_value(byte),
        b'e' => ends_value(byte),
        _ => sign == byte,
    }
}

fn is_sign(byte: u8) -> bool
    ensures { result ≡ spec.is_sign byte }
{
    byte == b'+' || byte == b'-'
}

fn is_operator(byte: u8) -> bool
    ensures { result ≡ spec.is_operator byte }
{
    is_sign(byte) || byte == b'*' || byte == b'/'
}

fn is_relation(byte: u8) -> bool
    ensures { result ≡ spec.is_relation byte }
{
    byte == b'<' || byte == b'=' || byte == b'>'
}

fn is_separator(byte: u8) -> bool
    ensures { result ≡ spec.is_separator byte }
{
    byte == b',' || byte == b';'
}

// Whether a byte may be the first one of a text or of a value.
fn begins_value(byte: u8) -> bool
    ensures { result ≡ spec.begins_value byte }
{
    byte.is_ascii_uppercase() || byte.is_ascii_digit() || byte == b'(' || byte == b'"'
}

// Whether a byte may be the last one of a text or of a value.
fn ends_value(byte: u8) -> bool
    ensures { result ≡ spec.ends_value byte }
{
    byte.is_ascii_uppercase() || byte.is_ascii_digit() || byte == b')' || byte == b'"'
}
