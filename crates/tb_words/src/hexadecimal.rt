//! Hexadecimal text in upper case.
ghost use Rattle.std.specs.Prelude.{◌≡◌, [], ◌<◌};
ghost use Rattle.tb_words.specs.Hexadecimal.{four_digits, hex_digit};

// The ASCII digit of a value from 0 to 15.
fn digit(value: u8) -> u8
    requires { value < 16 }
    ensures { result ≡ hex_digit value }
{
    if value < 10 {
        b'0' + value
    } else {
        b'A' + (value - 10)
    }
}

/// The four digits of a word in ASCII, the highest first.
pub fn hex_digits(word: u16) -> [u8; 4]
    ensures { result ≡ four_digits word [] }
{
    let [high, low] = word.to_be_bytes();
    [
        digit(high >> 4),
        digit(high & 15),
        digit(low >> 4),
        digit(low & 15),
    ]
}
