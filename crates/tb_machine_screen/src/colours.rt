//! Colours and character sets.

/// A colour of a character, by its number in colour memory: 0 to 15, in this order.
#[derive(Clone, Copy, PartialEq, Eq, Debug)]
pub enum Colour {
    Black,
    White,
    Red,
    Cyan,
    Purple,
    Green,
    Blue,
    Yellow,
    Orange,
    Brown,
    LightRed,
    DarkGrey,
    Grey,
    LightGreen,
    LightBlue,
    LightGrey,
}

/// Which characters the screen codes stand for.
#[derive(Clone, Copy, PartialEq, Eq, Debug)]
pub enum CharacterSet {
    /// Capitals and graphics: what the machine starts with.
    Graphics,
    /// Small letters and capitals.
    Letters,
}
