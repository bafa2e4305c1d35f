//! What notifications tell of texts.
ghost use Rattle.std.specs.Prelude.{◌≡◌, None, option_map};
ghost use Rattle.serde_json.specs.View.{items_view, view};
ghost use Rattle.tb_editor_messages.specs.Messages.{seen};
ghost use Rattle.tb_lsp_server.specs.Notices.{told_by};
ghost use Rattle.tb_lsp_server.specs.Notices as spec;

use serde_json::Value;

/// What a notification tells of a text.
#[derive(Clone, Copy, Drop)]
pub enum Notice<'a> {
    /// A text is open now.
    Open {
        uri: &'a str,
        text: &'a str,
        version: Option<i64>,
    },
    /// A text was changed as a whole.
    Change {
        uri: &'a str,
        text: &'a str,
        version: Option<i64>,
    },
    /// A text is open no more.
    Close {
        uri: &'a str,
    },
}

// A text that is a member of a value.
fn text_in<'a>(value: &'a Value, name: &str) -> Option<&'a str>
    ensures { option_map (λ t. t.now) result ≡ spec.text_in (view value.now) name.now }
{
    value.get(name).and_then(Value::as_str)
}

// The version of a document, which may be left out; `None` where it is no integer.
fn version_in(document: &Value) -> Option<Option<i64>>
    ensures { result ≡ spec.version_in (view document.now) }
{
    match document.get("version") {
        None | Some(Value::Null) => Some(None),
        Some(version) => Some(Some(version.as_i64()?)),
    }
}

// The whole text of a change.
fn whole_text(change: &Value) -> Option<&str>
    ensures { option_map (λ t. t.now) result ≡ spec.whole_text (view change.now) }
{
    match change.get("range") {
        Some(_) => None,
        None => text_in(change, "text"),
    }
}

// The text of the last of these changes, if all are changes of whole texts.
fn last_text(changes: &[Value]) -> Option<&str>
    ensures { option_map (λ t. t.now) result ≡ spec.last_text None (items_view changes.now) }
{
    let mut found = None;
    for change in changes {
        found = Some(whole_text(change)?);
    }
    found
}

/// The name of the text that params name.
pub fn uri_in(params: &Value) -> Option<&str>
    ensures { option_map (λ t. t.now) result ≡ spec.uri_in (view params.now) }
{
    text_in(params.get("textDocument")?, "uri")
}

fn opened(params: &Value) -> Option<Notice<'_>>
    ensures { told_by result ≡ spec.opened (view params.now) }
{
    let document = params.get("textDocument")?;
    let uri = text_in(document, "uri")?;
    let text = text_in(document, "text")?;
    let version = version_in(document)?;
    Some(Notice::Open { uri, text, version })
}

fn changed(params: &Value) -> Option<Notice<'_>>
    ensures { told_by result ≡ spec.changed (view params.now) }
{
    let document = params.get("textDocument")?;
    let uri = text_in(document, "uri")?;
    let changes = params.get("contentChanges").and_then(Value::as_array)?;
    let text = last_text(changes)?;
    let version = version_in(document)?;
    Some(Notice::Change { uri, text, version })
}

fn closed(params: &Value) -> Option<Notice<'_>>
    ensures { told_by result ≡ spec.closed (view params.now) }
{
    let document = params.get("textDocument")?;
    let uri = text_in(document, "uri")?;
    Some(Notice::Close { uri })
}

// What a method tells with params, if it tells something of a text.
fn of_text<'a>(method: &str, params: &'a Value) -> Option<Notice<'a>>
    ensures { told_by result ≡ spec.of_text method.now (view params.now) }
{
    match method {
        "textDocument/didOpen" => opened(params),
        "textDocument/didChange" => changed(params),
        "textDocument/didClose" => closed(params),
        _ => None,
    }
}

/// What a notification tells of a text; `None` where it tells nothing that is known, or in another form.
pub fn notice_of<'a>(method: &str, params: Option<&'a Value>) -> Option<Notice<'a>>
    ensures { told_by result ≡ spec.notice_of method.now (seen params.entry) }
{
    of_text(method, params?)
}
