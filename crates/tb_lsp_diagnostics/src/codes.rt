//! The codes of errors and warnings.
ghost use Rattle.std.specs.Prelude.{◌≡◌};
ghost use Rattle.tb_lsp_diagnostics.specs.Codes.{error_code, warning_code};

use tb_engine_findings::{SourceErrorKind, Warning};

/// The code of a fault of a line, or of a source with no line.
pub fn error_code(kind: SourceErrorKind) -> &'static str
    ensures { result.now ≡ error_code kind }
{
    match kind {
        SourceErrorKind::LineTooLong => "line-too-long",
        SourceErrorKind::BadByte => "bad-byte",
        SourceErrorKind::Unnumbered => "no-line-number",
        SourceErrorKind::BadLineNumber => "bad-line-number",
        SourceErrorKind::NotCompiled => "not-compiled",
        SourceErrorKind::Syntax => "syntax",
        SourceErrorKind::NumberTooLarge => "number-too-large",
        SourceErrorKind::Empty => "empty-program",
        SourceErrorKind::NoMemory => "out-of-memory",
    }
}

/// The code of a warning.
pub fn warning_code(warning: Warning) -> &'static str
    ensures { result.now ≡ warning_code warning }
{
    match warning {
        Warning::NoLine(_) => "no-line",
        Warning::HighTarget(_) => "high-target",
        Warning::Replaced { .. } => "replaced",
        Warning::TakenOut { .. } => "taken-out",
        Warning::RunsPast => "runs-past",
        Warning::EvenBound(_) => "even-bound",
        Warning::BoundOfOne => "bound-of-one",
        Warning::BadBound(_) => "bad-bound",
        Warning::ZeroDivisor => "zero-divisor",
        Warning::HighNumber(_) => "high-number",
        Warning::KeyCharacter(_) => "key-character",
    }
}
