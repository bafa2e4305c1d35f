//! What requests ask of texts, by their methods and params.
ghost use Rattle.std.specs.Prelude.{◌≡◌, option_map};
ghost use Rattle.serde_json.specs.View.{items_view, view};
ghost use Rattle.tb_lsp_answers.specs.Requests as spec;

use serde_json::Value;
use tb_editor_values::{Place, lines_of_range, place_in};
use tb_lsp_edits::letter_of;
use tb_lsp_fixes::LineRange;

/// What a request asks of a text.
#[derive(Clone, Copy, Drop)]
pub enum Request {
    Hover(Place),
    Definition(Place),
    /// With the declaration or without.
    References(Place, bool),
    Highlights(Place),
    Symbols,
    /// The fixes on these lines, or none where other actions are asked for.
    Actions(Option<LineRange>),
    Formatting,
    Completion(Place),
    /// The variable that may be renamed.
    Prepare(Place),
    /// A capital letter for the variable at a place; `None` where the new name is no letter.
    Rename(Place, Option<u8>),
    Folds,
    Tokens,
    /// Its params have not the form that its method asks for.
    Unfit,
}

// Whether references are to have the declaration with them.
fn with_declaration(params: &Value) -> Option<bool>
    ensures { result ≡ spec.with_declaration (view params.now) }
{
    let context = params.get("context")?;
    context.get("includeDeclaration")?.as_bool()
}

fn references(params: &Value) -> Option<Request>
    ensures { result ≡ spec.references (view params.now) }
{
    let place = place_in(params)?;
    Some(Request::References(place, with_declaration(params)?))
}

// Whether a kind of actions has fixes among them.
fn is_quick_fix(kind: &Value) -> bool
    ensures { result ≡ spec.is_quick_fix (view kind.now) }
{
    match kind.as_str() {
        Some(kind) => kind == "quickfix" || kind == "",
        None => false,
    }
}

// Whether one of these kinds of actions has fixes among them.
fn has_quick_fix(kinds: &[Value]) -> bool
    ensures { result ≡ spec.has_quick_fix (items_view kinds.now) }
{
    for kind in kinds {
        if is_quick_fix(kind) {
            return true;
        }
    }
    false
}

// Whether fixes are asked for, by the kinds that are wanted alone.
fn wants_fixes(only: Option<&Value>) -> Option<bool>
    ensures { result ≡ spec.wants_fixes (option_map (λ v. view v.now) only.entry) }
{
    match only {
        Some(only) => Some(has_quick_fix(only.as_array()?)),
        None => Some(true),
    }
}

fn actions(params: &Value) -> Option<Request>
    ensures { result ≡ spec.actions (view params.now) }
{
    let (first, last) = lines_of_range(params)?;
    let wants = wants_fixes(params.get("context")?.get("only"))?;
    Some(Request::Actions(if wants {
        Some(LineRange { first, last })
    } else {
        None
    }))
}

fn renaming(params: &Value) -> Option<Request>
    ensures { result ≡ spec.renaming (view params.now) }
{
    let place = place_in(params)?;
    let name = params.get("newName")?.as_str()?;
    Some(Request::Rename(place, letter_of(name)))
}

// What a request asks whose method is known.
fn known(asked: Option<Request>) -> Option<Request>
    ensures { result ≡ spec.known asked }
{
    Some(asked.unwrap_or(Request::Unfit))
}

/// What a request asks of a text; `None` where its method is unknown.
pub fn request_of(method: &str, params: &Value) -> Option<Request>
    ensures { result ≡ spec.request_of method.now (view params.now) }
{
    match method {
        "textDocument/hover" => known(place_in(params).map(Request::Hover)),
        "textDocument/definition" => known(place_in(params).map(Request::Definition)),
        "textDocument/references" => known(references(params)),
        "textDocument/documentHighlight" => known(place_in(params).map(Request::Highlights)),
        "textDocument/documentSymbol" => Some(Request::Symbols),
        "textDocument/codeAction" => known(actions(params)),
        "textDocument/formatting" => Some(Request::Formatting),
        "textDocument/completion" => known(place_in(params).map(Request::Completion)),
        "textDocument/prepareRename" => known(place_in(params).map(Request::Prepare)),
        "textDocument/rename" => known(renaming(params)),
        "textDocument/foldingRange" => Some(Request::Folds),
        "textDocument/semanticTokens/full" => Some(Request::Tokens),
        _ => None,
    }
}
