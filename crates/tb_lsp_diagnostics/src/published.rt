//! What is published of a text.
ghost use Rattle.std.specs.Prelude.{◌≡◌, [], IfOk, None, map};
ghost use Rattle.serde_json.specs.View.{view};
ghost use Rattle.tb_editor_messages.specs.Messages.{Says};
ghost use Rattle.tb_lsp_diagnostics.specs.Published.{Diagnoses, Publishes, published_of, told_cost};

use crate::findings::{Lines, fitted, push_bad_word, too_long};
use serde_json::{Value, json};
use std::alloc::{AllocError, Global};
use tb_basic_options::own_options;
use tb_compiled::{Compile, Notation};
use tb_engine_findings::{Fitted, examine_to_fit};
use tb_engine_streams::MOST_INPUT;

/// The diagnostics of a source that is read in a notation, or as its own words ask for.
pub fn diagnose<K: Compile>(
    compiler: &K,
    alloc: Global,
    notation: Notation,
    uri: &str,
    source: &[u8],
) -> Result<Vec<Value>, AllocError>
    ensures { IfOk result (λ found. Diagnoses K.own notation uri.now source.now (map view found.items)) }
{
    if source.len() > MOST_INPUT {
        return too_long(alloc);
    }
    let own = own_options(source);
    let seen = examine_to_fit(compiler, alloc, source, own.notation(notation))?;
    let seen = Fitted {
        cost: told_cost(own.fit, seen.cost),
        ..seen
    };
    let text = Lines {
        uri,
        lines: seen.examined.lines.as_slice(),
    };
    let mut found = fitted(alloc, &text, &seen)?;
    push_bad_word(alloc, &text, own.bad, &mut found)?;
    Ok(found)
}

// What is told of the cost: nothing if the source asks for `--fit` itself.
fn told_cost(fit: bool, cost: Option<u32>) -> Option<u32>
    ensures { result ≡ told_cost fit cost }
{
    if fit { None } else { cost }
}

// The message that publishes diagnostics of a text.
fn message(
    alloc: Global,
    uri: &str,
    version: Option<i64>,
    found: Vec<Value>,
) -> Result<Value, AllocError>
    ensures { IfOk result (λ v. view v ≡ published_of uri.now version (map view found.items)) }
{
    let diagnostics = Value::Array(found);
    let params = match version {
        Some(version) => {
            json!(in alloc; {"diagnostics": diagnostics, "uri": uri, "version": version})?
        }
        None => json!(in alloc; {"diagnostics": diagnostics, "uri": uri})?,
    };
    json!(in alloc; {
        "jsonrpc": "2.0",
        "method": "textDocument/publishDiagnostics",
        "params": params
    })
}

/// The content that publishes what `check` finds of a source that is read in a notation.
pub fn publish<K: Compile>(
    compiler: &K,
    alloc: Global,
    notation: Notation,
    uri: &str,
    version: Option<i64>,
    source: &[u8],
) -> Result<Vec<u8>, AllocError>
    ensures { IfOk result (λ content. Publishes K.own notation uri.now version source.now content.items) }
{
    let found = diagnose(compiler, alloc, notation, uri, source)?;
    let message = message(alloc, uri, version, found)?;
    message.to_vec(alloc)
}

/// The content that publishes nothing of a text.
pub fn publish_none(alloc: Global, uri: &str) -> Result<Vec<u8>, AllocError>
    ensures { IfOk result (λ content. Says content.items (published_of uri.now None [])) }
{
    let message = message(alloc, uri, None, Vec::new(alloc))?;
    message.to_vec(alloc)
}
