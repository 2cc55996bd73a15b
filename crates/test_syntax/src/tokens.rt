// The tokens of texts.
ghost use Rattle.std.specs.Prelude.{◌≤◌, length};

use crate::refused::refused;
use sheet_syntax::{Token, TokenKind, lex};
use sheet_syntax_print::append_quoted;
use sheet_values::{Name, NoMemory};
use std::alloc::Global;

/// Each token of a text, its bytes and its place.
pub fn listed(alloc: Global, text: &[u8]) -> Result<String, NoMemory>
    requires { length text.now ≤ 4294967294 }
{
    let tokens = match lex(alloc, text) {
        Ok(tokens) => tokens,
        Err(refusal) => return refused(alloc, refusal),
    };
    let mut list = String::new(alloc);
    for token in tokens.as_slice() {
        if !list.is_empty() {
            list.push_str("; ")?;
        }
        append_token(alloc, &mut list, token)?;
    }
    Ok(list)
}

fn append_token(alloc: Global, list: &mut String, token: &Token) -> Result<(), NoMemory> {
    append_kind(alloc, list, &token.kind)?;
    let place = format!(in alloc; " {}-{} line {}", token.start, token.end, token.line)?;
    list.push_str(place.as_str())?;
    Ok(())
}

fn append_kind(alloc: Global, list: &mut String, kind: &TokenKind) -> Result<(), NoMemory> {
    match kind {
        TokenKind::Name(name) => append_words(list, "name ", name.text()),
        TokenKind::Reserved(name) => append_words(list, "reserved ", name.text()),
        TokenKind::Symbol(name) => append_words(list, "symbol ", name.text()),
        TokenKind::Number(number) => {
            let digits = format!(in alloc; "{number}")?;
            append_words(list, "number ", digits.as_str())
        }
        TokenKind::Text(text) => append_text(alloc, list, text),
    }
}

fn append_words(list: &mut String, kind: &str, name: &str) -> Result<(), NoMemory> {
    list.push_str(kind)?;
    list.push_str(name)?;
    Ok(())
}

// A text stands between quotes, so that it takes no second line.
fn append_text(alloc: Global, list: &mut String, text: &Name) -> Result<(), NoMemory> {
    let mut quoted = Vec::new(alloc);
    append_quoted(&mut quoted, text.bytes())?;
    append_words(
        list,
        "text ",
        str::from_utf8(quoted.as_slice()).unwrap_or("?"),
    )
}
