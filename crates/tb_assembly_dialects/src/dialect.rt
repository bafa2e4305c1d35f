//! The assemblers, and how each spells what they spell in different ways.
ghost use Rattle.std.specs.Prelude.{◌≡◌};
ghost use Rattle.tb_assembly_dialects.specs.Dialects as dialects;

/// An assembler that listings are made for.
#[derive(Clone, Copy, PartialEq, Eq, Debug, Drop)]
pub enum Dialect {
    /// 64tass.
    Tass64,
    /// ca65, of cc65.
    Ca65,
    /// ACME.
    Acme,
    /// xa, also called xa65.
    Xa,
}

/// How many bytes of a program ld65 has room for without a configuration, beside the load address.
const MOST_BYTES: usize = 26622;

// Whether a load address and this many bytes are more than ld65 has room for without a configuration.
fn is_large(size: usize) -> bool
    ensures { result ≡ dialects.is_large size }
{
    size > MOST_BYTES
}

// The command for ca65, by whether the file is larger than ld65 has room for without a configuration.
fn ca65_command(large: bool) -> &'static [u8]
    ensures { result.now ≡ dialects.ca65_command large }
{
    if large {
        b"; ca65 -o IN.o IN && ld65 -C CONFIG -o OUT.prg IN.o\n; CONFIG: MEMORY { ALL: start = 0, size = $10000; } SEGMENTS { CODE: load = ALL; }\n"
    } else {
        b"; ca65 -o IN.o IN && ld65 -t none -o OUT.prg IN.o\n"
    }
}

impl Dialect {
    /// What stands before bytes.
    pub fn byte_directive(self) -> &'static [u8]
        ensures { result.now ≡ dialects.byte_directive self }
    {
        match self {
            Dialect::Tass64 | Dialect::Ca65 | Dialect::Xa => b".byte $",
            Dialect::Acme => b"!byte $",
        }
    }

    /// What stands before a word.
    pub fn word_directive(self) -> &'static [u8]
        ensures { result.now ≡ dialects.word_directive self }
    {
        match self {
            Dialect::Tass64 | Dialect::Ca65 | Dialect::Xa => b".word ",
            Dialect::Acme => b"!word ",
        }
    }

    /// The operand of the accumulator mode.
    pub fn accumulator(self) -> &'static [u8]
        ensures { result.now ≡ dialects.accumulator self }
    {
        match self {
            Dialect::Tass64 | Dialect::Ca65 => b" A ",
            Dialect::Acme | Dialect::Xa => b" ",
        }
    }

    /// What stands between a mnemonic and the digits of an address below 256 that takes two bytes.
    pub fn forced(self) -> &'static [u8]
        ensures { result.now ≡ dialects.forced self }
    {
        match self {
            Dialect::Tass64 => b" @w $",
            Dialect::Ca65 => b" a:$",
            Dialect::Acme => b"+2 $",
            Dialect::Xa => b" !$",
        }
    }

    /// The comment at the top of a listing of this many bytes: the command that assembles it.
    pub fn command(self, size: usize) -> &'static [u8]
        ensures { result.now ≡ dialects.command self size }
    {
        match self {
            Dialect::Tass64 => b"; 64tass -o OUT.prg IN\n",
            Dialect::Ca65 => ca65_command(is_large(size)),
            Dialect::Acme => b"; acme -f cbm -o OUT.prg IN\n",
            Dialect::Xa => b"; xa -o OUT.prg IN\n",
        }
    }

    /// What stands before the digits of the load address, where a file begins with it only if the listing says so.
    pub fn load_word(self) -> &'static [u8]
        ensures { result.now ≡ dialects.load_word self }
    {
        match self {
            Dialect::Tass64 | Dialect::Acme => b"",
            Dialect::Ca65 | Dialect::Xa => b"  .word $",
        }
    }

    /// What stands before the digits of the origin.
    pub fn origin(self) -> &'static [u8]
        ensures { result.now ≡ dialects.origin self }
    {
        match self {
            Dialect::Tass64 | Dialect::Acme | Dialect::Xa => b"* = $",
            Dialect::Ca65 => b"  .org $",
        }
    }
}
