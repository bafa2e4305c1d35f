//! The ends of the lines of a text.
ghost use Rattle.std.specs.Prelude.{◌≡◌, ◌≢◌, ◌∷◌, ◌<◌, [], false, length, IsTrue};
ghost use Rattle.tb_basic_text.specs.Lines.{lines_from, starts_with_end};
ghost use Rattle.tb_basic_renumber.specs.Ends.{IsBehind, ends_from};

/// The end of a line, and what is behind it.
#[derive(Clone, Copy, Drop)]
pub struct Cut<'a> {
    pub end: &'a [u8],
    pub behind: &'a [u8],
}

// The end of a line at the front of a text, and what is behind it.
#[tactic(auto, unfolding(tb_basic_text::specs::Lines::lines_from, crate::specs::Ends::ends_from))]
fn cut_end(text: &[u8]) -> Cut<'_>
    requires { IsTrue (starts_with_end text.now) }
    ensures lines { lines_from false text.now ≡ [] ∷ lines_from false result.behind.now }
    ensures ends { ends_from false text.now ≡ result.end.now ∷ ends_from false result.behind.now }
{
    match text {
        [b'\r', b'\n', behind @ ..] => Cut {
            end: b"\r\n",
            behind,
        },
        [b'\r', behind @ ..] => Cut { end: b"\r", behind },
        [_, behind @ ..] => Cut { end: b"\n", behind },
        [] => Cut {
            end: b"",
            behind: text,
        },
    }
}

/// The end of the first line of a text that isn't empty; the last line may have none.
pub fn first_end(text: &[u8]) -> Cut<'_>
    requires { text.now ≢ [] }
    ensures lines { IsBehind text.now result.behind.now }
    ensures ends { ends_from false text.now ≡ result.end.now ∷ ends_from false result.behind.now }
{
    for (i, byte) in text.iter().enumerate() {
        if matches!(*byte, b'\n' | b'\r') {
            return cut_end(&text[i..]);
        }
    }
    Cut {
        end: b"",
        behind: b"",
    }
}
