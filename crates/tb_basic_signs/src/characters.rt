//! Characters of texts: plain ones and signs.
ghost use Rattle.std.specs.Prelude.{◌≡◌, ◌+◌, ◌≤◌, ◌<◌, IfSome, length};
ghost use Rattle.tb_basic_signs.specs.Characters as spec;
ghost use Rattle.tb_basic_signs.specs.Names.{byte_named};

use crate::names::byte_named;

/// The most times that a sign may stand for its byte: no line has more bytes.
pub(crate) const MOST_TIMES: u8 = 255;

/// A character of a text as it is written.
#[derive(Clone, Copy, Debug, PartialEq, Eq, Drop)]
pub struct Character {
    /// The byte that it stands for.
    pub byte: u8,
    /// How often it stands for it, from 1.
    pub times: u8,
    /// How many bytes it is written with.
    pub length: usize,
}

/// What a sign stands for: a byte, so many times.
#[derive(Clone, Copy, Drop)]
struct Repeated {
    byte: u8,
    times: u8,
}

/// The character that a text begins with: a sign, a byte from 32 to 90 other than a quote, 91 or 93, or a letter, which
/// stands for its capital. `None` if there is none of these, as at a sign that stands for nothing.
pub fn read_character(text: &[u8]) -> Option<Character>
    ensures value { result ≡ spec.character_at text.now }
    ensures within { IfSome result (λ c. (1 ≤ c.length) × (c.length ≤ length text.now)) }
{
    match text {
        [b'{', inside @ ..] => sign(inside),
        [byte, ..] if is_plain(*byte) => Some(Character {
            byte: byte.to_ascii_uppercase(),
            times: 1,
            length: 1,
        }),
        _ => None,
    }
}

// Whether a byte of a text stands for itself, or for its capital.
fn is_plain(byte: u8) -> bool
    ensures { result ≡ spec.is_plain byte }
{
    byte != b'"' && matches!(byte, b' '..=b'[' | b']' | b'a'..=b'z')
}

// The sign with its first brace before a text.
fn sign(inside: &[u8]) -> Option<Character>
    ensures value { result ≡ spec.sign_behind inside.now }
    ensures within { IfSome result (λ c. (1 ≤ c.length) × (c.length ≤ length inside.now + 1)) }
{
    let end = closing(inside)?;
    let Repeated { byte, times } = stands_for(&inside[..end])?;
    Some(Character {
        byte,
        times,
        length: end + 2,
    })
}

// How many bytes are before the first closing brace.
fn closing(inside: &[u8]) -> Option<usize>
    ensures value { result ≡ spec.closing 0 inside.now }
    ensures within { IfSome result (λ end. end < length inside.now) }
{
    for (i, byte) in inside.iter().enumerate() {
        if *byte == b'}' {
            return Some(i);
        }
    }
    None
}

// What the text between two braces stands for: two digits, a name, or a count and a name.
fn stands_for(content: &[u8]) -> Option<Repeated>
    ensures { result ≡ spec.stands_for content.now }
{
    if let Some(byte) = byte_of_digits(content) {
        return Some(Repeated { byte, times: 1 });
    }
    if let Some(byte) = byte_named(content) {
        return Some(Repeated { byte, times: 1 });
    }
    counted(content)
}

// The byte that two hexadecimal digits spell, if a text may hold it.
fn byte_of_digits(content: &[u8]) -> Option<u8>
    ensures { result ≡ spec.byte_of_digits content.now }
{
    let [high, low] = content else {
        return None;
    };
    let high = char::from(*high).to_digit(16)?;
    let low = char::from(*low).to_digit(16)?;
    let byte = (16 * high + low) as u8;
    if may_hold(byte) { Some(byte) } else { None }
}

/// Whether a text may hold a byte: any but a quote, which ends it, and a new line.
pub(crate) fn may_hold(byte: u8) -> bool
    ensures { result ≡ spec.may_hold byte }
{
    !matches!(byte, b'"' | b'\r')
}

// A count from 1 to 255, a space and a name.
fn counted(content: &[u8]) -> Option<Repeated>
    ensures { result ≡ spec.counted 0 content.now }
{
    let mut times = 0;
    let mut rest = content;
    while let [byte, tail @ ..] = rest {
        if !byte.is_ascii_digit() {
            return if *byte == b' ' {
                several(times, tail)
            } else {
                None
            };
        }
        times = longer(times, *byte - b'0');
        rest = tail;
    }
    None
}

// A number with one more digit; all above 255 are the same, since no count is.
fn longer(number: u16, digit: u8) -> u16
    requires number { number ≤ 256 }
    requires digit { digit ≤ 9 }
    ensures value { result ≡ spec.longer number digit }
    ensures bound { result ≤ 256 }
{
    (10 * number + u16::from(digit)).min(u16::from(MOST_TIMES) + 1)
}

// The byte of a name so many times.
fn several(times: u16, name: &[u8]) -> Option<Repeated>
    ensures { result ≡ spec.several times (byte_named name.now) }
{
    let byte = byte_named(name)?;
    if 1 <= times && times <= u16::from(MOST_TIMES) {
        Some(Repeated {
            byte,
            times: times as u8,
        })
    } else {
        None
    }
}
