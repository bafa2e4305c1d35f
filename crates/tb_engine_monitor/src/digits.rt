//! Addresses and bytes as the monitor reads them.
ghost use Rattle.std.specs.Prelude.{◌≡◌, Some};
ghost use Rattle.tb_engine_monitor.specs.Checkpoints.{hex_text, pair_of, span_text};

use std::fmt;

/// The four digits of an address.
#[derive(Drop)]
pub struct Address(pub usize);

impl fmt::Display for Address {
    ghost output = { λ a. Some (hex_text 4 a.0) };

    #[tactic(auto, unfolding(crate::specs::Checkpoints::hex_text))]
    fn fmt<W: fmt::Write>(&self, f: &mut fmt::Formatter<W>) -> fmt::Result {
        write!(f, "{:04X}", self.0)
    }
}

/// The two digits of a byte.
#[derive(Drop)]
pub struct Byte(pub u8);

impl fmt::Display for Byte {
    ghost output = { λ b. Some (hex_text 2 b.0) };

    #[tactic(auto, unfolding(crate::specs::Checkpoints::hex_text))]
    fn fmt<W: fmt::Write>(&self, f: &mut fmt::Formatter<W>) -> fmt::Result {
        write!(f, "{:02X}", self.0)
    }
}

/// Addresses from the first to the last.
#[derive(Clone, Copy, Drop)]
pub struct Span {
    pub first: usize,
    pub last: usize,
}

impl Span {
    /// The addresses from one to another.
    pub fn new(first: usize, last: usize) -> Span
        ensures { pair_of result ≡ (first, last) }
    {
        Span { first, last }
    }

    /// The addresses from one word to another.
    pub fn of_words(first: u16, last: u16) -> Span
        ensures { pair_of result ≡ (first, last) }
    {
        Span::new(usize::from(first), usize::from(last))
    }
}

impl fmt::Display for Span {
    ghost output = { λ s. Some (span_text (pair_of s)) };

    #[tactic(auto, unfolding(crate::specs::Checkpoints::span_text))]
    fn fmt<W: fmt::Write>(&self, f: &mut fmt::Formatter<W>) -> fmt::Result {
        write!(f, "${} ${}", Address(self.first), Address(self.last))
    }
}
