//! What each token of a text is.
ghost use Rattle.std.specs.Prelude.{◌≡◌, ◌∷◌, ◌++◌, [], IfOk, OnOk, length, map};
ghost use Rattle.serde_json.specs.Data.{number, unsigned};
ghost use Rattle.serde_json.specs.View.{view};
ghost use Rattle.tb_basic_places.specs.Spans.{whole_span};
ghost use Rattle.tb_editor_navigation.specs.Tokens as spec;

use serde_json::{Value, json};
use std::alloc::{AllocError, Global};
use tb_basic_names::{Line, Source};
use tb_basic_places::{Span, piece, whole_span};
use tb_basic_text::LONGEST_LINE;
use tb_parser::{Token, TokenKind};

/// As what a token is shown, in the legend's order.
#[derive(Clone, Copy, Drop)]
enum Kind {
    Keyword,
    Variable,
    Number,
    Text,
    Comment,
    Operator,
    Function,
}

impl Kind {
    // Its place in the legend, from 0.
    fn place(self) -> u32
        ensures { result ≡ spec.place_of self }
    {
        match self {
            Kind::Keyword => 0,
            Kind::Variable => 1,
            Kind::Number => 2,
            Kind::Text => 3,
            Kind::Comment => 4,
            Kind::Operator => 5,
            Kind::Function => 6,
        }
    }
}

/// A token that is shown.
#[derive(Clone, Copy, Drop)]
struct Mark {
    span: Span,
    kind: Kind,
    /// Whether it is the number of its line.
    declares: bool,
}

/// What numbers of tokens mean: the names of their kinds, and of what else is told of them.
pub fn legend(alloc: Global) -> Result<Value, AllocError>
    ensures { IfOk result (λ v. view v ≡ spec.legend) }
{
    json!(in alloc; {
        "tokenModifiers": ["declaration"],
        "tokenTypes": [
            "keyword",
            "variable",
            "number",
            "string",
            "comment",
            "operator",
            "function"
        ]
    })
}

// As what a token is shown; `None` for parentheses, commas, semicolons and what begins nothing.
fn kind_of(kind: TokenKind) -> Option<Kind>
    ensures { result ≡ spec.kind_of kind }
{
    match kind {
        TokenKind::Keyword(_) | TokenKind::Then => Some(Kind::Keyword),
        TokenKind::Variable => Some(Kind::Variable),
        TokenKind::Number => Some(Kind::Number),
        TokenKind::Text => Some(Kind::Text),
        TokenKind::Remark => Some(Kind::Comment),
        TokenKind::Operator | TokenKind::Relation => Some(Kind::Operator),
        TokenKind::Random => Some(Kind::Function),
        TokenKind::Open | TokenKind::Close => None,
        TokenKind::Comma | TokenKind::Semicolon | TokenKind::Stray => None,
    }
}

fn is_number(kind: TokenKind) -> bool
    ensures { result ≡ spec.is_number kind }
{
    matches!(kind, TokenKind::Number)
}

// How a token of a line of the file, which is counted from 1, is shown, by its place among the line's tokens.
fn mark_of(file_line: usize, text: &[u8], index: usize, token: &Token<'_>) -> Option<Mark>
    ensures { result ≡ spec.mark_of file_line text.now index token.now }
{
    let kind = kind_of(token.kind)?;
    let start = token.column.saturating_sub(1);
    Some(Mark {
        span: piece(file_line, text, start, token.text.len()),
        kind,
        declares: index == 0 && is_number(token.kind),
    })
}

fn push_tokens(
    file_line: usize,
    text: &[u8],
    tokens: &[Token<'_>],
    marks: &mut Vec<Mark>,
) -> Result<(), AllocError>
    ensures { OnOk result (marks.new.items ≡ marks.old.items ++ spec.marks_from file_line text.now 0 tokens.now) }
{
    for (i, token) in tokens.iter().enumerate() {
        if let Some(mark) = mark_of(file_line, text, i, token) {
            marks.push(mark)?;
        }
    }
    Ok(())
}

// Appends how the tokens of a line are shown, if it is not too long.
fn push_line(file_line: usize, line: &Line<'_>, marks: &mut Vec<Mark>) -> Result<(), AllocError>
    ensures { OnOk result (marks.new.items ≡ marks.old.items ++ spec.marks_on file_line line.now) }
{
    if line.text.len() > LONGEST_LINE {
        return Ok(());
    }
    push_tokens(file_line, line.text, &line.tokens, marks)
}

// How the tokens of a source are shown.
fn marks_of(alloc: Global, source: &Source<'_>) -> Result<Vec<Mark>, AllocError>
    ensures { IfOk result (λ marks. marks.items ≡ spec.marks_of source.now.lines.items) }
{
    let mut marks = Vec::new(alloc);
    for (i, line) in source.lines.iter().enumerate() {
        push_line(i + 1, line, &mut marks)?;
    }
    Ok(marks)
}

fn push_number(alloc: Global, n: usize, numbers: &mut Vec<Value>) -> Result<(), AllocError>
    ensures { OnOk result (map view numbers.new.items ≡ map view numbers.old.items ++ number (unsigned n) ∷ []) }
{
    numbers.push(json!(in alloc; n)?)?;
    Ok(())
}

// How far a token is from the beginning of the one before it, if that is on the same line, else from the line's.
fn distance(before: Span, span: Span) -> usize
    ensures { result ≡ spec.distance before span }
{
    if span.line == before.line {
        span.start.saturating_sub(before.start)
    } else {
        span.start
    }
}

// Appends the five numbers of a token, by where the one before it is.
fn push_mark(
    alloc: Global,
    before: Span,
    mark: Mark,
    numbers: &mut Vec<Value>,
) -> Result<(), AllocError>
    ensures { OnOk result (map view numbers.new.items ≡ map view numbers.old.items ++ spec.numbers_of before mark) }
{
    let span = mark.span;
    push_number(alloc, span.line.saturating_sub(before.line), numbers)?;
    push_number(alloc, distance(before, span), numbers)?;
    push_number(alloc, span.end.saturating_sub(span.start), numbers)?;
    push_number(alloc, mark.kind.place() as usize, numbers)?;
    push_number(alloc, usize::from(mark.declares), numbers)
}

// The numbers of tokens: each by where the one before it is.
fn numbers_of(alloc: Global, marks: &[Mark]) -> Result<Vec<Value>, AllocError>
    ensures { IfOk result (λ numbers. map view numbers.items ≡ spec.numbers_from whole_span marks.now) }
{
    let mut numbers = Vec::new(alloc);
    let mut before = whole_span();
    for mark in marks {
        push_mark(alloc, before, *mark, &mut numbers)?;
        before = mark.span;
    }
    Ok(numbers)
}

/// What each token of a source is, in lines of at most 255 bytes.
pub fn semantic_tokens(alloc: Global, source: &Source<'_>) -> Result<Value, AllocError>
    ensures { IfOk result (λ v. view v ≡ spec.semantic_tokens source.now.lines.items) }
{
    let marks = marks_of(alloc, source)?;
    let numbers = Value::Array(numbers_of(alloc, &marks)?);
    json!(in alloc; {"data": numbers})
}
