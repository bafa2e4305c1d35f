//! Where the condition of an IF ends.
ghost use Rattle.std.specs.Prelude.{◌≡◌, ◌≤◌, length};
ghost use Rattle.tb_basic_format.specs.Conditions.{condition_length, next_place};
ghost use Rattle.tb_basic_format.specs.declared.conditions.Place.TheVariants.{Operand};

/// A place in an expression.
#[derive(Clone, Copy)]
enum Place {
    /// Where an operand may begin.
    Operand,
    /// Before the second letter of RND.
    RandomN,
    /// Before its third letter.
    RandomD,
    /// After an operand.
    Operator,
}

impl Place {
    // The place after the first byte of a text without spaces; `None` if the expression ends before it.
    fn next(self, text: &[u8]) -> Option<Place>
        ensures { result ≡ next_place self text.now }
    {
        let Some(byte) = text.first() else {
            return None;
        };
        match self {
            Place::Operand if text.starts_with(b"RND") => Some(Place::RandomN),
            Place::RandomN => Some(Place::RandomD),
            Place::RandomD => Some(Place::Operator),
            Place::Operator if byte.is_ascii_uppercase() => None,
            Place::Operand | Place::Operator => Some(match *byte {
                b'A'..=b'Z' | b'0'..=b'9' | b')' => Place::Operator,
                _ => Place::Operand,
            }),
        }
    }
}

/// The length of the condition at the front of a text without spaces: up to a letter that follows an operand.
pub(crate) fn condition_length(text: &[u8]) -> usize
    ensures length { result ≡ condition_length Operand text.now }
    ensures within { result ≤ length text.now }
{
    let mut place = Place::Operand;
    for i in 0..text.len() {
        match place.next(&text[i..]) {
            Some(next) => place = next,
            None => return i,
        }
    }
    text.len()
}
