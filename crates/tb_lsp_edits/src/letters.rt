//! A letter in place of another one.
ghost use Rattle.std.specs.Prelude.{◌≡◌};
ghost use Rattle.tb_lsp_edits.specs.Renamed as spec;

/// The letter of a variable, and its new one: capitals.
#[derive(Clone, Copy, Drop)]
pub struct Letters {
    pub old: u8,
    pub new: u8,
}

impl Letters {
    /// What becomes of a letter, by its place in the alphabet, from 0 for A.
    pub fn renamed(self, place: usize) -> usize
        ensures { result ≡ spec.renamed_letter self place }
    {
        if place == usize::from(self.old.saturating_sub(b'A')) {
            usize::from(self.new.saturating_sub(b'A'))
        } else {
            place
        }
    }
}

/// The capital of the letter that a text is; `None` where it is not one letter.
pub fn letter_of(text: &str) -> Option<u8>
    ensures { result ≡ spec.letter_of text.now }
{
    match text.as_bytes() {
        [byte] if byte.is_ascii_alphabetic() => Some(byte.to_ascii_uppercase()),
        _ => None,
    }
}
