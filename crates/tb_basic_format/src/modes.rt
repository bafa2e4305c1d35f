//! What part of a line a byte is in.
ghost use Rattle.std.specs.Prelude.{◌≡◌};
ghost use Rattle.tb_basic_format.specs.Kept.{after, is_in_code};

/// What part of a line the next byte is in, by the bytes before it.
#[derive(Clone, Copy)]
pub(crate) enum Mode {
    Code,
    /// In code after an R, with at most spaces between.
    CodeR,
    /// In code after an R and an E, with at most spaces between.
    CodeRe,
    /// In a text: after its first quote.
    Text,
    Remark,
}

impl Mode {
    /// The mode after a byte.
    pub fn after(self, byte: u8) -> Mode
        ensures { result ≡ after self byte }
    {
        match (self, byte) {
            (Mode::Remark, _) => Mode::Remark,
            (Mode::Text, b'"') => Mode::Code,
            (Mode::Text, _) => Mode::Text,
            (_, b' ') => self,
            (_, b'"') => Mode::Text,
            (Mode::CodeRe, b'M' | b'm') => Mode::Remark,
            (Mode::CodeR, b'E' | b'e') => Mode::CodeRe,
            (_, b'R' | b'r') => Mode::CodeR,
            _ => Mode::Code,
        }
    }

    /// Whether a byte here is outside texts and remarks.
    pub fn is_in_code(self) -> bool
        ensures { result ≡ is_in_code self }
    {
        matches!(self, Mode::Code | Mode::CodeR | Mode::CodeRe)
    }
}
