//! Compiled programs.
ghost use Rattle.std.specs.Prelude.{◌≡◌, map};
ghost use Rattle.tb_compiled.specs.Texts.{end_before};
ghost use Rattle.tb_compiled.specs.Compiled.{prg_of, pair_of, starts_of, table_of, warnings_of, start_in, lies, line_in};

use tb_basic_meaning::Warning;

/// Where the code of a line begins.
#[derive(Clone, Copy, Debug, Drop)]
pub struct LineStart {
    /// The line's number.
    pub number: u16,
    /// The address of its first byte.
    pub at: u16,
}

/// A compiled program.
#[derive(Drop)]
pub struct Compiled {
    prg: Vec<u8>,
    starts: Vec<LineStart>,
    table: u16,
    warnings: Vec<Warning>,
}

impl Compiled {
    /// A program of these parts.
    pub fn new(prg: Vec<u8>, starts: Vec<LineStart>, table: u16, warnings: Vec<Warning>) -> Compiled
        ensures prg { prg_of result ≡ prg.items }
        ensures starts { starts_of result ≡ map pair_of starts.items }
        ensures table { table_of result ≡ table }
        ensures warnings { warnings_of result ≡ warnings.items }
    {
        Compiled {
            prg,
            starts,
            table,
            warnings,
        }
    }

    /// The PRG file: it is loaded at `$0801` and started by `RUN` or `SYS2061`.
    pub fn prg(&self) -> &[u8]
        ensures { result.now ≡ prg_of self.now }
    {
        &self.prg
    }

    /// The line in whose code an address is: from its start to before the next line's start, or to before the line table
    /// for the highest line. `None` for an address outside the lines' code.
    pub fn line_at(&self, address: u16) -> Option<u16>
        ensures { result ≡ line_in (starts_of self.now) (table_of self.now) address }
    {
        line_in(&self.starts, self.table, address)
    }

    /// The address where the code of a line begins; `None` if the program has no such line.
    pub fn start_of(&self, line: u16) -> Option<u16>
        ensures { result ≡ start_in (starts_of self.now) line }
    {
        start_in(&self.starts, line)
    }

    /// The lines with the addresses where their code begins, in rising order of both.
    pub fn starts(&self) -> &[LineStart]
        ensures { map pair_of result.now ≡ starts_of self.now }
    {
        &self.starts
    }

    /// The address of the line table, after all lines' code.
    pub fn table(&self) -> u16
        ensures { result ≡ table_of self.now }
    {
        self.table
    }

    /// The warnings of the program, in the order of its lines.
    pub fn warnings(&self) -> &[Warning]
        ensures { result.now ≡ warnings_of self.now }
    {
        &self.warnings
    }

    /// The warnings, where the program is no longer needed.
    pub fn into_warnings(self) -> Vec<Warning>
        ensures { result.items ≡ warnings_of self }
    {
        self.warnings
    }
}

/// Where the code before these lines ends, of a program whose line table is at this address.
pub fn end_before(table: u16, starts: &[LineStart]) -> u16
    ensures { result ≡ end_before table (map pair_of starts.now) }
{
    match starts {
        [] => table,
        [first, ..] => first.at,
    }
}

fn start_in(starts: &[LineStart], line: u16) -> Option<u16>
    ensures { result ≡ start_in (map pair_of starts.now) line }
{
    match starts {
        [] => None,
        [first, rest @ ..] => if first.number == line {
            Some(first.at)
        } else {
            start_in(rest, line)
        },
    }
}

fn line_in(starts: &[LineStart], table: u16, address: u16) -> Option<u16>
    ensures { result ≡ line_in (map pair_of starts.now) table address }
{
    match starts {
        [] => None,
        [only] => if lies(only.at, table, address) {
            Some(only.number)
        } else {
            None
        },
        [first, next, ..] => if lies(first.at, next.at, address) {
            Some(first.number)
        } else {
            line_in(&starts[1..], table, address)
        },
    }
}

// Whether an address is from the first one up to before the second one.
fn lies(from: u16, to: u16, address: u16) -> bool
    ensures { result ≡ lies from to address }
{
    from <= address && address < to
}
