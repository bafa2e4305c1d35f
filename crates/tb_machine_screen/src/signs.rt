//! What each byte is to the screen.
ghost use Rattle.std.specs.Prelude.{◌≡◌};
ghost use Rattle.tb_machine_screen.specs.Signs as signs;

use crate::colours::{CharacterSet, Colour};

/// What a byte is to the screen.
#[derive(Clone, Copy, PartialEq, Eq, Debug)]
pub enum Sign {
    /// 34: a character that also turns quote mode on or off.
    Quote,
    /// Any other byte of 32 to 127 and 160 to 255.
    Character,
    /// 13 and 141.
    CarriageReturn,
    /// 20.
    Delete,
    /// 148.
    Insert,
    /// 19.
    Home,
    /// 147.
    Clear,
    /// 17.
    Down,
    /// 145.
    Up,
    /// 157.
    Left,
    /// 29.
    Right,
    /// 18.
    ReverseOn,
    /// 146.
    ReverseOff,
    /// One of 16 bytes: characters have this colour from now on.
    Paint(Colour),
    /// 14 and 142.
    Switch(CharacterSet),
    /// Any other byte: it changes nothing.
    Nothing,
}

/// What a byte is to the screen.
#[tactic(auto, unfolding(crate::specs::Signs::sign_of))]
pub fn sign_of(byte: u8) -> Sign
    ensures { result ≡ signs.sign_of byte }
{
    match byte {
        5 => Sign::Paint(Colour::White),
        13 | 141 => Sign::CarriageReturn,
        14 => Sign::Switch(CharacterSet::Letters),
        17 => Sign::Down,
        18 => Sign::ReverseOn,
        19 => Sign::Home,
        20 => Sign::Delete,
        28 => Sign::Paint(Colour::Red),
        29 => Sign::Right,
        30 => Sign::Paint(Colour::Green),
        31 => Sign::Paint(Colour::Blue),
        34 => Sign::Quote,
        32..=127 | 160..=255 => Sign::Character,
        129 => Sign::Paint(Colour::Orange),
        142 => Sign::Switch(CharacterSet::Graphics),
        144 => Sign::Paint(Colour::Black),
        145 => Sign::Up,
        146 => Sign::ReverseOff,
        147 => Sign::Clear,
        148 => Sign::Insert,
        149 => Sign::Paint(Colour::Brown),
        150 => Sign::Paint(Colour::LightRed),
        151 => Sign::Paint(Colour::DarkGrey),
        152 => Sign::Paint(Colour::Grey),
        153 => Sign::Paint(Colour::LightGreen),
        154 => Sign::Paint(Colour::LightBlue),
        155 => Sign::Paint(Colour::LightGrey),
        156 => Sign::Paint(Colour::Purple),
        157 => Sign::Left,
        158 => Sign::Paint(Colour::Yellow),
        159 => Sign::Paint(Colour::Cyan),
        _ => Sign::Nothing,
    }
}

/// The screen code by which a byte is shown: that of its character, or of the reversed character that stands for it in
/// quote mode.
#[tactic(auto, unfolding(crate::specs::Signs::code_of))]
pub fn code_of(byte: u8) -> u8
    ensures { result ≡ signs.code_of byte }
{
    match byte {
        0..=31 => byte + 128,
        32..=63 => byte,
        64..=95 => byte - 64,
        96..=127 => byte - 32,
        128..=159 => byte + 64,
        160..=191 => byte - 64,
        192..=254 => byte - 128,
        255 => 94,
    }
}
