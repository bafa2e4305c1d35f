//! Checking sources, one after the other.
ghost use Rattle.std.specs.Prelude.{◌≡◌, map, string_bytes};
ghost use Rattle.tb_engine_streams.specs.Failures.{failures_of};
ghost use Rattle.tb_engine_check.specs.Options as spec;
ghost use Rattle.tb_engine_check.specs.Checks.{Checks, ChecksNext, Tells, WriteFaults, is_refused, ending, marked, outcome_of, seen_by};

use crate::outcome::{CheckOutcome, Checked};
use crate::reports::{Source, report_of};
use crate::sources::Sources;
use std::alloc::Global;
use std::io::Write;
use tb_basic_options::{BadWord, OwnOptions, own_options};
use tb_compiled::{Compile, SizeLimit};
use tb_engine_findings::{CheckSettings, Findings, examine, fits_memory};
use tb_engine_streams::{InputError, Tracked, write_output};

/// What came of a source.
#[derive(Clone, Copy, Drop)]
enum Seen {
    /// It is compiled.
    Accepted,
    /// It is not compiled, or has a word that is no option.
    Refused,
    /// It could not be read.
    Unread,
}

/// What came of the sources up to now.
#[derive(Clone, Copy, Drop)]
struct Marks {
    /// Whether one of them is not compiled.
    is_refused: bool,
    /// Whether one of them could not be read.
    is_unread: bool,
}

impl Marks {
    // With what came of one more source.
    fn with(self, seen: Seen) -> Marks
        ensures { result ≡ marked self seen }
    {
        match seen {
            Seen::Accepted => self,
            Seen::Refused => Marks {
                is_refused: true,
                ..self
            },
            Seen::Unread => Marks {
                is_unread: true,
                ..self
            },
        }
    }

    // How a check of these sources ends.
    fn outcome(self) -> CheckOutcome
        ensures { result ≡ ending self }
    {
        if self.is_unread {
            CheckOutcome::ReadFault
        } else if self.is_refused {
            CheckOutcome::Ended(Checked::Refused)
        } else {
            CheckOutcome::Ended(Checked::Accepted)
        }
    }
}

// Whether a source is not compiled, by what there is to say of it.
fn is_refused(findings: &Findings) -> bool
    ensures { result ≡ is_refused findings.now }
{
    !matches!(findings, Findings::Accepted(_))
}

// What came of a source that was read: one with a word of its own that is no option counts as refused, too.
fn seen_by(bad: Option<BadWord>, findings: &Findings) -> Seen
    ensures { result ≡ seen_by bad findings.now }
{
    if bad.is_some() || is_refused(findings) {
        Seen::Refused
    } else {
        Seen::Accepted
    }
}

// How a source is checked, by what is asked for and by its own words.
fn settings_by(settings: CheckSettings, own: OwnOptions) -> CheckSettings
    ensures { result ≡ spec.settings_by settings own }
{
    CheckSettings {
        size: if own.fit {
            SizeLimit::Memory
        } else {
            settings.size
        },
        notation: own.notation(settings.notation),
    }
}

// Looks at a source under a name, and writes what there is to say of it.
fn tell<K: Compile, W: Write>(
    compiler: &K,
    alloc: Global,
    name: &str,
    source: &[u8],
    writer: &mut Tracked<W>,
    settings: CheckSettings,
) -> Result<Seen, CheckOutcome>
    ensures tells { Tells K.own settings name.now source.now result (W.contents writer.old.stream) (W.contents writer.new.stream) }
    ensures faults { WriteFaults (outcome_of result) (failures_of writer.old) (failures_of writer.new) }
{
    let own = own_options(source);
    let settings = settings_by(settings, own);
    let seen = examine(compiler, alloc, source, settings)?;
    let fits = fits_memory(compiler, alloc, source, settings.notation, &seen.findings)?;
    let shown = Source {
        name,
        lines: seen.lines.as_slice(),
    };
    let answer = seen_by(own.bad, &seen.findings);
    let text = report_of(alloc, &shown, own.bad, &seen.findings, fits)?;
    match write_output(writer, text.as_slice()) {
        Err(_) => Err(CheckOutcome::WriteFault),
        Ok(()) => Ok(answer),
    }
}

// Reads the source whose turn it is, and writes what there is to say of it. One that can't be read hides no other one.
fn check_next<K: Compile, S: Sources, W: Write>(
    compiler: &K,
    alloc: Global,
    sources: &mut S,
    name: &str,
    writer: &mut Tracked<W>,
    settings: CheckSettings,
) -> Result<Seen, CheckOutcome>
    ensures next { ChecksNext K.own S.reads settings sources.old name.now (W.contents writer.old.stream)
        result sources.new (W.contents writer.new.stream) }
    ensures faults { WriteFaults (outcome_of result) (failures_of writer.old) (failures_of writer.new) }
{
    match sources.read(alloc, name) {
        Ok(source) => tell(compiler, alloc, name, source.as_slice(), writer, settings),
        Err(InputError::Fault) => Ok(Seen::Unread),
        Err(InputError::NoMemory) => Err(CheckOutcome::NoMemory),
    }
}

/// Checks the sources with these names. Each one is read, and what there is
/// to say of it is written, before the next one is read; so what is in memory is of one source at a time.
pub fn check_sources<K: Compile, S: Sources, W: Write>(
    compiler: &K,
    alloc: Global,
    sources: &mut S,
    names: &[String],
    writer: &mut Tracked<W>,
    settings: CheckSettings,
) -> CheckOutcome
    ensures checks { Checks K.own S.reads settings sources.old (map string_bytes names.now) (W.contents writer.old.stream)
        result sources.new (W.contents writer.new.stream) }
    ensures faults { WriteFaults result (failures_of writer.old) (failures_of writer.new) }
{
    let mut marks = Marks {
        is_refused: false,
        is_unread: false,
    };
    for name in names {
        match check_next(compiler, alloc, sources, name.as_str(), writer, settings) {
            Ok(seen) => marks = marks.with(seen),
            Err(outcome) => return outcome,
        }
    }
    marks.outcome()
}
