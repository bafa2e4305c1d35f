//! The answers to requests on texts.
ghost use Rattle.std.specs.Prelude.{◌≡◌, ◌≤◌, [], IfOk, length};
ghost use Rattle.serde_json.specs.View.{view};
ghost use Rattle.tb_engine_streams.specs.Streams.{most_input};
ghost use Rattle.tb_lsp_answers.specs.Answers.{Answers, AnswersFrom, AnswersRange, readable};

use crate::requests::Request;
use serde_json::Value;
use std::alloc::{AllocError, Global};
use tb_basic_names::{Source, read_source};
use tb_basic_options::notation_for;
use tb_basic_text::Notation;
use tb_compiled::Compile;
use tb_editor_messages::Refusal;
use tb_editor_navigation::{definition, folds, highlights, references, semantic_tokens, symbols};
use tb_engine_streams::MOST_INPUT;
use tb_lsp_edits::{completion, formatting, prepare, rename};
use tb_lsp_fixes::{LineRange, actions};
use tb_lsp_hover::hover;

// What is read of a text: nothing of one that has too many bytes.
fn readable(text: &[u8]) -> &[u8]
    ensures { result.now ≡ readable text.now }
{
    if text.len() > MOST_INPUT { &[] } else { text }
}

// The fixes on lines, if any are asked for.
fn fixes<K: Compile>(
    compiler: &K,
    alloc: Global,
    uri: &str,
    text: &[u8],
    source: &Source<'_>,
    range: Option<LineRange>,
) -> Result<Value, AllocError>
    ensures { IfOk result (λ v. AnswersRange K.own source.now.notation range uri.now text.now source.now.lines.items (view v)) }
{
    match range {
        Some(range) => actions(compiler, alloc, uri, text, source, range),
        None => Ok(Value::Array(Vec::new(alloc))),
    }
}

// What is answered to a request on a text, by the lines that it is read as.
fn answer_from<K: Compile>(
    compiler: &K,
    alloc: Global,
    uri: &str,
    text: &[u8],
    source: &Source<'_>,
    request: Request,
) -> Result<Result<Value, Refusal>, AllocError>
    ensures { IfOk result (AnswersFrom K.own source.now.notation request uri.now text.now source.now.lines.items) }
{
    match request {
        Request::Hover(at) => Ok(Ok(hover(compiler, alloc, text, source, at.line, at.character)?)),
        Request::Definition(at) => Ok(Ok(definition(alloc, uri, source, at.line, at.character)?)),
        Request::References(at, declared) => {
            let found = references(alloc, uri, source, at.line, at.character, declared)?;
            Ok(Ok(found))
        }
        Request::Highlights(at) => Ok(Ok(highlights(alloc, source, at.line, at.character)?)),
        Request::Symbols => Ok(Ok(symbols(alloc, source)?)),
        Request::Actions(range) => Ok(Ok(fixes(compiler, alloc, uri, text, source, range)?)),
        Request::Formatting => Ok(Ok(formatting(alloc, source.notation, text)?)),
        Request::Completion(at) => Ok(Ok(completion(alloc, source, at.line, at.character)?)),
        Request::Prepare(at) => Ok(Ok(prepare(alloc, source, at.line, at.character)?)),
        Request::Rename(at, letter) => rename(alloc, uri, source, at.line, at.character, letter),
        Request::Folds => Ok(Ok(folds(alloc, source)?)),
        Request::Tokens => Ok(Ok(semantic_tokens(alloc, source)?)),
        Request::Unfit => Ok(Err(Refusal::BadParams)),
    }
}

/// What is answered to a request on a text that is read in a notation, or as its own words ask for; or why it is
/// refused. Fails only if memory runs out.
pub fn answer<K: Compile>(
    compiler: &K,
    alloc: Global,
    notation: Notation,
    uri: &str,
    text: &[u8],
    request: Request,
) -> Result<Result<Value, Refusal>, AllocError>
    ensures { IfOk result (Answers K.own notation request uri.now text.now) }
{
    let notation = notation_for(notation, text);
    let text = readable(text);
    let source = read_source(alloc, notation, text)?;
    answer_from(compiler, alloc, uri, text, &source, request)
}
