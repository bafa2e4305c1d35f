//! The server: its life and the texts that are open, and what it says to a message.
ghost use Rattle.std.specs.Prelude.{◌≡◌, IfOk, OnOk, codes, option_map, unwrap_or};
ghost use Rattle.serde_json.specs.Data.{null, string};
ghost use Rattle.serde_json.specs.View.{members_view, view};
ghost use Rattle.tb_editor_messages.specs.Messages.{Says, seen};
ghost use Rattle.tb_lsp_server.specs.Replies.{AnswersBy, AnswersOnText, AnswersText, IsNew, said, Takes, TakesMessage, TakesNotice, TakesNotification, TakesText, capabilities, completion, fixes, initialized, renaming, synchronization, tokens, with_encoding, with_options, with_requests};
ghost use Rattle.tb_lsp_server.specs.Life.{decision_of};
ghost use Rattle.tb_lsp_server.specs.Texts.{text_of};
ghost use Rattle.tb_lsp_server.specs.Notices.{told, uri_in};

use crate::life::{Decision, Stage, decide};
use crate::notices::{Notice, notice_of, uri_in};
use crate::texts::Texts;
use serde_json::{Map, Value, json, put};
use std::alloc::{AllocError, Global};
use tb_basic_text::Notation;
use tb_compiled::Compile;
use tb_editor_messages::{Message, Refusal, failure, message_of, success};
use tb_editor_navigation::legend;
use tb_lsp_answers::{Request, answer};
use tb_lsp_diagnostics::{publish, publish_none};

/// What a server says to a message.
#[derive(Drop)]
pub enum Reply {
    Nothing,
    /// A frame with this content.
    Content(Vec<u8>),
    /// It ends.
    Exit,
}

/// A server.
#[derive(Drop)]
pub struct Server {
    pub stage: Stage,
    pub texts: Texts,
    /// The program's version.
    pub version: &'static str,
    /// How the texts of sources are read, all its life.
    pub notation: Notation,
}

// The capability of texts: they are told of as a whole.
fn synchronization_value(alloc: Global) -> Result<Value, AllocError>
    ensures { IfOk result (λ v. view v ≡ synchronization) }
{
    json!(in alloc; {"change": 1, "openClose": true})
}

// The capability of code actions: the server offers quick fixes.
fn fixes_value(alloc: Global) -> Result<Value, AllocError>
    ensures { IfOk result (λ v. view v ≡ fixes) }
{
    json!(in alloc; {"codeActionKinds": ["quickfix"]})
}

// That it completes behind a space too.
fn completion_value(alloc: Global) -> Result<Value, AllocError>
    ensures { IfOk result (λ v. view v ≡ completion) }
{
    json!(in alloc; {"triggerCharacters": [" "]})
}

// That it tells what can be renamed.
fn renaming_value(alloc: Global) -> Result<Value, AllocError>
    ensures { IfOk result (λ v. view v ≡ renaming) }
{
    json!(in alloc; {"prepareProvider": true})
}

// That it tells of all tokens of a text, and what their numbers mean.
fn tokens_value(alloc: Global) -> Result<Value, AllocError>
    ensures { IfOk result (λ v. view v ≡ tokens) }
{
    let legend = legend(alloc)?;
    json!(in alloc; {"full": true, "legend": legend})
}

// Which requests it answers, where there is nothing more to say of them.
fn put_requests(alloc: Global, members: &mut Map<String, Value>) -> Result<(), AllocError>
    ensures { OnOk result (members_view members.new.entries ≡ with_requests (members_view members.old.entries)) }
{
    put(members, alloc, "definitionProvider", Value::Bool(true))?;
    put(
        members,
        alloc,
        "documentFormattingProvider",
        Value::Bool(true),
    )?;
    put(
        members,
        alloc,
        "documentHighlightProvider",
        Value::Bool(true),
    )?;
    put(members, alloc, "documentSymbolProvider", Value::Bool(true))?;
    put(members, alloc, "foldingRangeProvider", Value::Bool(true))?;
    put(members, alloc, "hoverProvider", Value::Bool(true))?;
    put(members, alloc, "referencesProvider", Value::Bool(true))?;
    Ok(())
}

// What there is more to say of.
fn put_options(alloc: Global, members: &mut Map<String, Value>) -> Result<(), AllocError>
    ensures { OnOk result (members_view members.new.entries ≡ with_options (members_view members.old.entries)) }
{
    let fixes = fixes_value(alloc)?;
    let completion = completion_value(alloc)?;
    let renaming = renaming_value(alloc)?;
    let tokens = tokens_value(alloc)?;
    let synchronization = synchronization_value(alloc)?;
    put(members, alloc, "codeActionProvider", fixes)?;
    put(members, alloc, "completionProvider", completion)?;
    put(members, alloc, "renameProvider", renaming)?;
    put(members, alloc, "semanticTokensProvider", tokens)?;
    put(members, alloc, "textDocumentSync", synchronization)?;
    Ok(())
}

fn encoding_value(alloc: Global) -> Result<Value, AllocError>
    ensures { IfOk result (λ v. view v ≡ string (codes "utf-16")) }
{
    json!(in alloc; "utf-16")
}

// How it counts places.
fn encoding_members(alloc: Global) -> Result<Map<String, Value>, AllocError>
    ensures { IfOk result (λ m. members_view m.entries ≡ with_encoding) }
{
    let encoding = encoding_value(alloc)?;
    let mut members = Map::new(alloc);
    put(&mut members, alloc, "positionEncoding", encoding)?;
    Ok(members)
}

// What it can do.
fn capabilities_value(alloc: Global) -> Result<Value, AllocError>
    ensures { IfOk result (λ v. view v ≡ capabilities) }
{
    let mut members = encoding_members(alloc)?;
    put_requests(alloc, &mut members)?;
    put_options(alloc, &mut members)?;
    Ok(Value::Object(members))
}

// What it is, and what it can do.
fn initialized_value(alloc: Global, version: &str) -> Result<Value, AllocError>
    ensures { IfOk result (λ v. view v ≡ initialized version.now) }
{
    let capabilities = capabilities_value(alloc)?;
    json!(in alloc; {
        "capabilities": capabilities,
        "serverInfo": {"name": "tbc", "version": version}
    })
}

// The content of an answer to a request on a text.
fn said(alloc: Global, id: &Value, answer: Result<Value, Refusal>) -> Result<Vec<u8>, AllocError>
    ensures { IfOk result (λ content. Says content.items (said (view id.now) answer)) }
{
    match answer {
        Ok(value) => success(alloc, id, value),
        Err(refusal) => failure(alloc, Some(id), refusal),
    }
}

// The params of a request, or null.
fn given<'a>(params: Option<&'a Value>, none: &'a Value) -> &'a Value
    requires { view none.now ≡ null }
    ensures { view result.now ≡ unwrap_or (seen params.entry) null }
{
    match params {
        Some(params) => params,
        None => none,
    }
}

impl Server {
    /// A new server, which reads sources in a notation.
    pub fn new(alloc: Global, version: &'static str, notation: Notation) -> Server
        ensures { IsNew version.now notation result }
    {
        Server {
            stage: Stage::New,
            texts: Texts::new(alloc),
            version,
            notation,
        }
    }

    // What it says to a request on the text of a name.
    fn answer_on_text<K: Compile>(
        &self,
        compiler: &K,
        alloc: Global,
        id: &Value,
        uri: &str,
        request: Request,
    ) -> Result<Vec<u8>, AllocError>
        ensures { IfOk result (λ content. AnswersOnText K.own self.now.notation request (view id.now) uri.now
            (text_of uri.now self.now.texts.all.items) content.items) }
    {
        match self.texts.text(uri) {
            Some(text) => {
                let text = text.as_bytes();
                let answer = answer(compiler, alloc, self.notation, uri, text, request)?;
                said(alloc, id, answer)
            }
            None => failure(alloc, Some(id), Refusal::NotOpen),
        }
    }

    // What it says to a request on a text, if its name is given.
    fn answer_text<K: Compile>(
        &self,
        compiler: &K,
        alloc: Global,
        id: &Value,
        uri: Option<&str>,
        request: Request,
    ) -> Result<Vec<u8>, AllocError>
        ensures { IfOk result (λ content. AnswersText K.own self.now.notation request (view id.now)
            (option_map (λ t. t.now) uri.entry) self.now.texts.all.items content.items) }
    {
        match uri {
            Some(uri) => self.answer_on_text(compiler, alloc, id, uri, request),
            None => failure(alloc, Some(id), Refusal::BadParams),
        }
    }

    // What it says to a request.
    fn answer_request<K: Compile>(
        &mut self,
        compiler: &K,
        alloc: Global,
        id: &Value,
        method: &str,
        params: &Value,
    ) -> Result<Vec<u8>, AllocError>
        ensures { IfOk result (λ content. AnswersBy K.own (decision_of self.old.stage method.now (view params.now)) (view id.now)
            (uri_in (view params.now)) self.old content self.new) }
    {
        match decide(self.stage, method, params) {
            Decision::Begin => {
                self.stage = Stage::Ready;
                success(alloc, id, initialized_value(alloc, self.version)?)
            }
            Decision::End => {
                self.stage = Stage::Shut;
                success(alloc, id, Value::Null)
            }
            Decision::Answer(request) => {
                self.answer_text(compiler, alloc, id, uri_in(params), request)
            }
            Decision::Refuse(refusal) => failure(alloc, Some(id), refusal),
        }
    }

    // Takes a text, and publishes what is said of it.
    fn take_text<K: Compile>(
        &mut self,
        compiler: &K,
        alloc: Global,
        uri: &str,
        text: &str,
        version: Option<i64>,
    ) -> Result<Reply, AllocError>
        ensures { IfOk result (λ reply. TakesText K.own uri.now text.now version self.old reply self.new) }
    {
        let content = publish(
            compiler,
            alloc,
            self.notation,
            uri,
            version,
            text.as_bytes(),
        )?;
        self.texts.put(alloc, uri, text)?;
        Ok(Reply::Content(content))
    }

    // Does what a notice of a text tells.
    fn take_notice<K: Compile>(
        &mut self,
        compiler: &K,
        alloc: Global,
        notice: Notice<'_>,
    ) -> Result<Reply, AllocError>
        ensures { IfOk result (λ reply. TakesNotice K.own (told notice.entry) self.old reply self.new) }
    {
        match notice {
            Notice::Open { uri, text, version } => self.take_text(
                compiler, alloc, uri, text, version,
            ),
            Notice::Change { uri, text, version } => {
                if self.texts.has(uri) {
                    Ok(self.take_text(compiler, alloc, uri, text, version)?)
                } else {
                    Ok(Reply::Nothing)
                }
            }
            Notice::Close { uri } => {
                if self.texts.has(uri) {
                    let content = publish_none(alloc, uri)?;
                    self.texts.close(uri);
                    Ok(Reply::Content(content))
                } else {
                    Ok(Reply::Nothing)
                }
            }
        }
    }

    // What it says to a notification.
    fn take_notification<K: Compile>(
        &mut self,
        compiler: &K,
        alloc: Global,
        method: &str,
        params: Option<&Value>,
    ) -> Result<Reply, AllocError>
        ensures { IfOk result (λ reply. TakesNotification K.own method.now (seen params.entry) self.old reply self.new) }
    {
        if method == "exit" {
            return Ok(Reply::Exit);
        }
        match self.stage {
            Stage::Ready => match notice_of(method, params) {
                Some(notice) => self.take_notice(compiler, alloc, notice),
                None => Ok(Reply::Nothing),
            },
            Stage::New | Stage::Shut => Ok(Reply::Nothing),
        }
    }

    // What it says to a message.
    fn take_message<K: Compile>(
        &mut self,
        compiler: &K,
        alloc: Global,
        message: Message<'_>,
    ) -> Result<Reply, AllocError>
        ensures { IfOk result (λ reply. TakesMessage K.own message.entry self.old reply self.new) }
    {
        match message {
            Message::Request { id, method, params } => {
                let null = Value::Null;
                let params = given(params, &null);
                Ok(Reply::Content(self.answer_request(compiler, alloc, id, method, params)?))
            }
            Message::Notification { method, params } => {
                self.take_notification(compiler, alloc, method, params)
            }
            Message::Answer => Ok(Reply::Nothing),
            Message::NoMessage { id } => {
                Ok(Reply::Content(failure(alloc, id, Refusal::NoMessage)?))
            }
        }
    }

    /// What it says to a message. Fails only if memory runs out.
    pub fn take<K: Compile>(
        &mut self,
        compiler: &K,
        alloc: Global,
        value: &Value,
    ) -> Result<Reply, AllocError>
        ensures { IfOk result (λ reply. Takes K.own (view value.now) self.old reply self.new) }
    {
        self.take_message(compiler, alloc, message_of(value))
    }
}
