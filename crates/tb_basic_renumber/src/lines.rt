//! A line with other numbers.
ghost use Rattle.std.specs.Prelude.{◌≡◌, ◌++◌, IfOk, OnOk, drop, take};
ghost use Rattle.std.specs.Fmt.{decimal};
ghost use Rattle.tb_parser.specs.Tokens.{end_of, start_of};
ghost use Rattle.tb_basic_renumber.specs.Lines as spec;

use std::alloc::{AllocError, Global};
use tb_basic_names::{Line, jump_word};
use tb_parser::Token;

// The place where a token begins.
fn start_of(token: &Token<'_>) -> usize
    ensures { result ≡ start_of token.now }
{
    token.column.saturating_sub(1)
}

// What stands in a line before a token.
fn before<'a>(line: &'a [u8], token: &Token<'_>) -> &'a [u8]
    ensures { result.now ≡ take (start_of token.now) line.now }
{
    &line[..start_of(token).min(line.len())]
}

// What stands in a line behind a token.
fn behind<'a>(line: &'a [u8], token: &Token<'_>) -> &'a [u8]
    ensures { result.now ≡ drop (end_of token.now) line.now }
{
    let from_token = &line[start_of(token).min(line.len())..];
    &from_token[token.text.len().min(from_token.len())..]
}

// The first and the last token of the expression of a jump.
fn expression<'a, 'b>(tokens: &'b [Token<'a>]) -> Option<(&'b Token<'a>, &'b Token<'a>)>
    ensures { spec.tokens_of result ≡ spec.expression tokens.now }
{
    let word = jump_word(tokens)?;
    let first = tokens.get(word + 1)?;
    let last = tokens.last()?;
    Some((first, last))
}

fn push_decimal(alloc: Global, number: u16, text: &mut Vec<u8>) -> Result<(), AllocError>
    ensures { OnOk result (text.new.items ≡ text.old.items ++ decimal number) }
{
    text.extend_from_slice(format!(in alloc; "{number}")?.as_bytes())
}

// Appends what stands behind a line's number, with a number in place of the expression of its jump.
fn push_jump(
    alloc: Global,
    line: &[u8],
    number: &Token<'_>,
    expression: Option<(&Token<'_>, &Token<'_>)>,
    target: u16,
    text: &mut Vec<u8>,
) -> Result<(), AllocError>
    ensures { OnOk result (text.new.items ≡ text.old.items ++ spec.moved line.now number.now (spec.tokens_of expression.entry) target) }
{
    let Some((first, last)) = expression else {
        return text.extend_from_slice(behind(line, number));
    };
    text.extend_from_slice(behind(before(line, first), number))?;
    push_decimal(alloc, target, text)?;
    text.extend_from_slice(behind(line, last))
}

// Appends what stands behind a line's number, with a number in place of the expression of its jump, if one is given.
fn push_rest(
    alloc: Global,
    line: &Line<'_>,
    number: &Token<'_>,
    target: Option<u16>,
    text: &mut Vec<u8>,
) -> Result<(), AllocError>
    ensures { OnOk result (text.new.items ≡ text.old.items ++ spec.rest_of line.now.text.now line.now.tokens.items number.now target) }
{
    match target {
        Some(target) => {
            let expression = expression(&line.tokens);
            push_jump(alloc, line.text, number, expression, target, text)
        }
        None => text.extend_from_slice(behind(line.text, number)),
    }
}

/// A line with another number in place of its own, and another target in place of its jump's expression, if it has one.
/// Fails only if memory runs out.
pub fn new_line(
    alloc: Global,
    line: &Line<'_>,
    number: u16,
    target: Option<u16>,
) -> Result<Vec<u8>, AllocError>
    ensures { IfOk result (λ text. text.items ≡ spec.new_line line.now.text.now line.now.tokens.items number target) }
{
    let Some(first) = line.tokens.first() else {
        return Ok(Vec::new(alloc));
    };
    let mut text = Vec::from_slice(alloc, before(line.text, first))?;
    push_decimal(alloc, number, &mut text)?;
    push_rest(alloc, line, first, target, &mut text)?;
    Ok(text)
}
