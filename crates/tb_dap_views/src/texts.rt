//! Texts of places, values and lines.
ghost use Rattle.std.specs.Prelude.{◌≡◌, ◌<◌, ◌*◌, ◌+◌, IfOk, IfSome, string_bytes};
ghost use Rattle.tb_dap_views.specs.Texts as spec;

use std::alloc::{AllocError, Global};

/// A place in memory as requests name it.
pub fn reference(alloc: Global, place: u32) -> Result<String, AllocError>
    ensures { IfOk result (λ text. string_bytes text ≡ spec.reference place) }
{
    format!(in alloc; "0x{place:04X}")
}

/// A place as registers show it.
pub fn address_text(alloc: Global, address: u16) -> Result<String, AllocError>
    ensures { IfOk result (λ text. string_bytes text ≡ spec.address_shown address) }
{
    format!(in alloc; "${address:04X}")
}

/// A byte as registers show it.
pub fn byte_text(alloc: Global, byte: u8) -> Result<String, AllocError>
    ensures { IfOk result (λ text. string_bytes text ≡ spec.byte_shown byte) }
{
    format!(in alloc; "${byte:02X}")
}

// The value of a hexadecimal digit.
fn digit_of(byte: u8) -> Option<u32>
    ensures value { result ≡ spec.digit_of byte }
    ensures within { IfSome result (λ d. d < 16) }
{
    match byte {
        b'0'..=b'9' => Some(u32::from(byte - b'0')),
        b'A'..=b'F' => Some(u32::from(byte - b'A') + 10),
        b'a'..=b'f' => Some(u32::from(byte - b'a') + 10),
        _ => None,
    }
}

// A number with one more digit.
fn longer(number: u32, byte: u8) -> Option<u32>
    requires { number < 4096 }
    ensures value { result ≡ spec.longer number byte }
    ensures within { IfSome result (λ n. n < number * 16 + 16) }
{
    match digit_of(byte) {
        Some(digit) => Some(number * 16 + digit),
        None => None,
    }
}

fn two_digits(first: u8, second: u8) -> Option<u32>
    ensures value { result ≡ spec.two_digits first second }
    ensures within { IfSome result (λ n. n < 256) }
{
    match digit_of(first) {
        Some(number) => longer(number, second),
        None => None,
    }
}

fn three_digits(first: u8, second: u8, third: u8) -> Option<u32>
    ensures value { result ≡ spec.three_digits first second third }
    ensures within { IfSome result (λ n. n < 4096) }
{
    match two_digits(first, second) {
        Some(number) => longer(number, third),
        None => None,
    }
}

fn four_digits(first: u8, second: u8, third: u8, fourth: u8) -> Option<u32>
    ensures value { result ≡ spec.four_digits first second third fourth }
    ensures within { IfSome result (λ n. n < 65536) }
{
    match three_digits(first, second, third) {
        Some(number) => longer(number, fourth),
        None => None,
    }
}

// The place that one to four hexadecimal digits spell.
fn place_in(digits: &[u8]) -> Option<u32>
    ensures value { result ≡ spec.place_in digits.now }
    ensures within { IfSome result (λ n. n < 65536) }
{
    match *digits {
        [a] => digit_of(a),
        [a, b] => two_digits(a, b),
        [a, b, c] => three_digits(a, b, c),
        [a, b, c, d] => four_digits(a, b, c, d),
        _ => None,
    }
}

/// The place that a reference names: `0x` and one to four digits.
pub fn place_of(text: &str) -> Option<u32>
    ensures value { result ≡ spec.place_of text.now }
    ensures within { IfSome result (λ n. n < 65536) }
{
    match text.as_bytes() {
        [b'0', b'x', digits @ ..] => place_in(digits),
        _ => None,
    }
}
