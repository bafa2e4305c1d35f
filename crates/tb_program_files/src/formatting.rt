//! A source's tidy text, on standard output or in the place of the source; or whether the source is tidy.
ghost use Rattle.std.specs.Prelude.{◌≡◌, ◌∷◌, [], true, map, IfOk};
ghost use Rattle.std.specs.Str.{bytes_eq};
ghost use Rattle.tb_engine_files.specs.Deeds.{Makes, OfOne, Refuses, Transfers};
ghost use Rattle.tb_engine_files.specs.Names.{standard};
ghost use Rattle.tb_program_files.specs.Texts.{ChecksTidy, MakesTidy, told};

use crate::saving::only;
use std::alloc::{AllocError, Global};
use std::fmt;
use tb_basic_format::tidy_text;
use tb_basic_text::Notation;
use tb_engine_files::{FileSystem, Maker, STANDARD, convert, replace};
use tb_engine_streams::{ExitStatus, Failure, NoRefusal, Outcome, status};

/// How the formatting of a source ended whose texts were all written.
#[derive(Clone, Copy, PartialEq, Eq, Debug, Drop)]
pub enum Tidiness {
    /// The text was written, or the source is tidy.
    Done,
    /// The source is not tidy, and its name was told.
    Untidy,
}

/// How the formatting of a source ended. No source is refused.
pub type FormatOutcome = Outcome<Tidiness, NoRefusal>;

impl ExitStatus for Tidiness {
    ghost use Rattle.tb_program_files.specs.Outcomes.{status_of_tidiness};

    ghost exit_status = { status_of_tidiness };

    fn status(&self) -> u8 {
        match self {
            Tidiness::Done => status::DONE,
            Tidiness::Untidy => status::REFUSED,
        }
    }
}

impl fmt::Display for Tidiness {
    fn fmt<W: fmt::Write>(&self, _f: &mut fmt::Formatter<W>) -> fmt::Result {
        Ok(())
    }
}

// The tidy text of a source, if it is to be written.
fn tidied(
    alloc: Global,
    notation: Notation,
    always: bool,
    source: &[u8],
) -> Result<(Tidiness, Vec<Vec<u8>>), Failure<NoRefusal>>
    ensures { Makes (MakesTidy notation always source.now) result }
{
    let text = tidy_text(alloc, notation, source)?;
    if !always && text.as_slice() == source {
        return Ok((Tidiness::Done, Vec::new(alloc)));
    }
    Ok((Tidiness::Done, only(alloc, text)?))
}

// A source that is formatted.
#[derive(Drop)]
struct Formatting {
    alloc: Global,
    notation: Notation,
    // Whether a source that is tidy is written too.
    always: bool,
}

impl Maker for Formatting {
    type End = Tidiness;

    type Refusal = NoRefusal;

    ghost makes = { λ m source product. MakesTidy m.notation m.always source product };

    fn make(&mut self, source: Vec<u8>) -> Result<(Tidiness, Vec<Vec<u8>>), Failure<NoRefusal>> {
        tidied(self.alloc, self.notation, self.always, source.as_slice())
    }
}

// A source whose name is told if it is not tidy.
#[derive(Drop)]
struct TidyCheck<'a> {
    alloc: Global,
    notation: Notation,
    name: &'a str,
}

// The line that tells a name.
fn told(alloc: Global, name: &str) -> Result<Vec<u8>, AllocError>
    ensures { IfOk result (λ line. line.items ≡ told name.now) }
{
    let mut line = Vec::from_slice(alloc, name.as_bytes())?;
    line.push(b'\n')?;
    Ok(line)
}

// The name of a source, if it is not tidy.
fn checked(
    alloc: Global,
    notation: Notation,
    name: &str,
    source: &[u8],
) -> Result<(Tidiness, Vec<Vec<u8>>), Failure<NoRefusal>>
    ensures { Makes (ChecksTidy notation name.now source.now) result }
{
    let text = tidy_text(alloc, notation, source)?;
    if text.as_slice() == source {
        return Ok((Tidiness::Done, Vec::new(alloc)));
    }
    let line = told(alloc, name)?;
    Ok((Tidiness::Untidy, only(alloc, line)?))
}

impl Maker for TidyCheck<'_> {
    type End = Tidiness;

    type Refusal = NoRefusal;

    ghost makes = { λ m source product. ChecksTidy m.notation m.name.now source product };

    fn make(&mut self, source: Vec<u8>) -> Result<(Tidiness, Vec<Vec<u8>>), Failure<NoRefusal>> {
        checked(self.alloc, self.notation, self.name, source.as_slice())
    }
}

/// Writes the tidy text of a source's file, whose texts are read in a notation, to standard output.
pub fn format_file<F: FileSystem>(
    alloc: Global,
    files: &mut F,
    path: &str,
    notation: Notation,
) -> FormatOutcome
    ensures transfers { Transfers F.does F.holds (OfOne (MakesTidy notation true)) files.old (path.now ∷ []) (standard ∷ []) result files.new }
    ensures refuses { Refuses F.holds (MakesTidy notation true) files.old path.now result }
{
    let mut maker = Formatting {
        alloc,
        notation,
        always: true,
    };
    convert(alloc, files, &mut maker, path, &[STANDARD])
}

/// Puts the tidy text of a source's file, whose texts are read in a notation, in the place of the source. A file that is
/// tidy is not written. Standard input has its tidy text on standard output.
pub fn format_in_place<F: FileSystem>(
    alloc: Global,
    files: &mut F,
    path: &str,
    notation: Notation,
) -> FormatOutcome
    ensures transfers { Transfers F.does F.holds (OfOne (MakesTidy notation (bytes_eq path.now standard))) files.old (path.now ∷ []) (path.now ∷ []) result files.new }
    ensures refuses { Refuses F.holds (MakesTidy notation (bytes_eq path.now standard)) files.old path.now result }
{
    let mut maker = Formatting {
        alloc,
        notation,
        always: path == STANDARD,
    };
    replace(alloc, files, &mut maker, path)
}

/// Writes the name of a source's file, whose texts are read in a notation, to standard output, if the source is not tidy.
pub fn check_format<F: FileSystem>(
    alloc: Global,
    files: &mut F,
    path: &str,
    notation: Notation,
) -> FormatOutcome
    ensures transfers { Transfers F.does F.holds (OfOne (ChecksTidy notation path.now)) files.old (path.now ∷ []) (standard ∷ []) result files.new }
    ensures refuses { Refuses F.holds (ChecksTidy notation path.now) files.old path.now result }
{
    let mut maker = TidyCheck {
        alloc,
        notation,
        name: path,
    };
    convert(alloc, files, &mut maker, path, &[STANDARD])
}
