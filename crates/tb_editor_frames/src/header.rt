//! The lines of a header.
ghost use Rattle.std.specs.Prelude.{◌≡◌, option_map};
ghost use Rattle.tb_editor_frames.specs.Headers.{behind, behind_spaces, field_of};

use tb_debug_commands::number;

/// What a line of a header says.
#[derive(Clone, Copy, Debug, PartialEq, Eq, Drop)]
pub enum Field {
    /// How many bytes the content has.
    Length(u64),
    /// A length that is no number.
    BadLength,
    /// Something else.
    Other,
}

/// What stands before the number, in small letters.
const NAME: &[u8] = b"content-length:";

/// The most digits of a length.
const MOST_DIGITS: usize = 18;

// A text without the spaces before it.
fn behind_spaces(text: &[u8]) -> &[u8]
    ensures { result.now ≡ behind_spaces text.now }
{
    match text {
        [b' ', rest @ ..] => behind_spaces(rest),
        _ => text,
    }
}

// What stands behind a name, which is written in small letters, where a line begins with it in either case.
fn behind<'a>(name: &[u8], line: &'a [u8]) -> Option<&'a [u8]>
    ensures { option_map (λ t. t.now) result ≡ behind name.now line.now }
{
    match name {
        [] => Some(line),
        [letter, name @ ..] => match line {
            [] => None,
            [byte, rest @ ..] => {
                if byte.to_ascii_lowercase() == *letter {
                    behind(name, rest)
                } else {
                    None
                }
            }
        },
    }
}

/// What a line of a header says, without its line end.
pub fn read_field(line: &[u8]) -> Field
    ensures { result ≡ field_of line.now }
{
    let Some(value) = behind(NAME, line) else {
        return Field::Other;
    };
    match number(behind_spaces(value), MOST_DIGITS) {
        Some(length) => Field::Length(length),
        None => Field::BadLength,
    }
}
