//! Diagnostics as JSON values.
ghost use Rattle.std.specs.Prelude.{◌≡◌, IfOk};
ghost use Rattle.serde_json.specs.View.{view};
ghost use Rattle.tb_lsp_diagnostics.specs.Values.{plain, related, severity_number, superseded, tags};

use serde_json::{Value, json};
use std::alloc::{AllocError, Global};
use tb_basic_places::Span;
use tb_editor_values::{location_value, range_value};

// What is said, text by text.
const BY_THIS_LINE: &str = "by this line";

/// How bad it is.
#[derive(Clone, Copy, Debug, PartialEq, Eq, Drop)]
pub enum Severity {
    Error,
    Warning,
    Information,
}

impl Severity {
    // Its number.
    fn number(self) -> u32
        ensures { result ≡ severity_number self }
    {
        match self {
            Severity::Error => 1,
            Severity::Warning => 2,
            Severity::Information => 3,
        }
    }
}

/// What is said of a span.
#[derive(Clone, Copy, Drop)]
pub struct Said<'a> {
    pub span: Span,
    pub severity: Severity,
    pub code: &'a str,
    pub message: &'a str,
}

/// A diagnostic.
pub fn plain(alloc: Global, said: Said<'_>) -> Result<Value, AllocError>
    ensures { IfOk result (λ v. view v ≡ plain said.entry.code.now said.entry.message.now said.entry.span (severity_number said.entry.severity)) }
{
    let range = range_value(alloc, said.span)?;
    let (code, message, severity) = (said.code, said.message, said.severity.number());
    json!(in alloc; {
        "code": code,
        "message": message,
        "range": range,
        "severity": severity,
        "source": "tbc"
    })
}

// Where the line is that does away with another.
fn related_value(alloc: Global, uri: &str, by: Span) -> Result<Value, AllocError>
    ensures { IfOk result (λ v. view v ≡ related uri.now by) }
{
    let location = location_value(alloc, uri, by)?;
    json!(in alloc; [{"location": location, "message": BY_THIS_LINE}])
}

// The tag of what is unnecessary.
fn tags_value(alloc: Global) -> Result<Value, AllocError>
    ensures { IfOk result (λ v. view v ≡ tags) }
{
    json!(in alloc; [1])
}

/// A diagnostic of a line that a later one, at this span, does away with: an editor shows it as unnecessary.
pub fn superseded(alloc: Global, uri: &str, said: Said<'_>, by: Span) -> Result<Value, AllocError>
    ensures { IfOk result (λ v. view v ≡ superseded uri.now said.entry.code.now said.entry.message.now said.entry.span
        (severity_number said.entry.severity) by) }
{
    let range = range_value(alloc, said.span)?;
    let related = related_value(alloc, uri, by)?;
    let tags = tags_value(alloc)?;
    let (code, message, severity) = (said.code, said.message, said.severity.number());
    json!(in alloc; {
        "code": code,
        "message": message,
        "range": range,
        "relatedInformation": related,
        "severity": severity,
        "source": "tbc",
        "tags": tags
    })
}
