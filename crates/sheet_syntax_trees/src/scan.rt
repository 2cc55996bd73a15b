// The token at the front of bytes.
ghost use Rattle.std.specs.Prelude.{◌≡◌, ◌≤◌, ◌<◌, ◌+◌, List, ℕ, length, false, bytes_eq, pos, Option, Some, None, nat_le, IfOk, IfSome, IsUtf8, IsAscii, if◌then◌else◌};
ghost use Rattle.std.specs.List.{list_any};
ghost use Rattle.sheet_syntax_trees.specs.Gives.{Gives};
ghost use Rattle.sheet_syntax_trees.specs.Bytes.{symbol_length as symbol_length_of};
ghost use Rattle.std.specs.Prelude.{◌^◌, option_map};
ghost use Rattle.sheet_syntax_trees.specs.Tokens.{is_reserved as is_reserved_word, digits_value as value_of_digits, has_leading_zero as leads_with_zero, word_kind as kind_of_word, scan_word as word_scan, scan_number as number_scan, escaped as escaped_byte, text_from, with_content, is_short_text, text_scan, symbol_scan as scan_of_symbol, scan as scan_of};

use crate::bytes::{Run, is_digit, is_letter, is_plain, run_length, symbol_length};
use crate::token::TokenKind;
use sheet_values::{Name, NoMemory};
use std::alloc::Global;
use std::str;

const RESERVED_WORDS: &[&[u8]] = &[
    b"add",
    b"all",
    b"allow",
    b"and",
    b"any",
    b"by",
    b"caller",
    b"callers",
    b"check",
    b"count",
    b"date",
    b"delete",
    b"else",
    b"except",
    b"false",
    b"for",
    b"formula",
    b"from",
    b"group",
    b"if",
    b"in",
    b"intersect",
    b"let",
    b"max",
    b"min",
    b"new",
    b"not",
    b"number",
    b"object",
    b"one",
    b"only",
    b"operator",
    b"or",
    b"order",
    b"procedure",
    b"remove",
    b"reply",
    b"report",
    b"set",
    b"show",
    b"standing",
    b"state",
    b"sum",
    b"table",
    b"text",
    b"then",
    b"this",
    b"to",
    b"today",
    b"true",
    b"truth",
    b"union",
    b"up",
    b"view",
];

/// What stands at the front of bytes.
#[derive(Debug, Drop)]
pub(crate) enum Scan {
    /// A token, of that many bytes.
    Found(TokenKind, usize),
    /// No token.
    Bad,
    /// A number over 9223372036854775807.
    TooWide,
}

fn is_reserved(word: &[u8]) -> bool
    ensures { result ≡ is_reserved_word word.now }
{
    contains_word(RESERVED_WORDS, word)
}

fn contains_word(words: &[&[u8]], word: &[u8]) -> bool
    ensures { result ≡ list_any (λ w. bytes_eq w.now word.now) words.now }
{
    words.iter().any(|w| *w == word)
}

// The name of bytes below 128.
fn name_of(alloc: Global, bytes: &[u8]) -> Result<Name, NoMemory>
    requires ascii { IsAscii bytes.now }
    requires short { length bytes.now ≤ 1000 }
    ensures { Gives result bytes.now }
{
    match str::from_utf8(bytes) {
        Ok(text) => Name::of(alloc, text),
        Err(_) => unreachable!(),
    }
}

// The number of these digits, where it is within 63 bits.
fn digits_value(digits: &[u8]) -> Option<i64>
    ensures { result ≡ (if nat_le (value_of_digits 0 digits.now) 9223372036854775807 then Some (pos (value_of_digits 0 digits.now)) else None) }
{
    let mut value = 0u64;
    for digit in digits {
        let next = value as u128 * 10 + digit.saturating_sub(b'0') as u128;
        if next > 9_223_372_036_854_775_807 {
            return None;
        }
        value = next as u64;
    }
    Some(value as i64)
}

fn has_leading_zero(digits: &[u8]) -> bool
    ensures { result ≡ leads_with_zero digits.now }
{
    match digits.split_first() {
        None => false,
        Some((first, rest)) => !rest.is_empty() && *first == b'0',
    }
}

fn scan_word(alloc: Global, word: &[u8]) -> Result<Scan, NoMemory>
    requires { IsAscii word.now }
    ensures { Gives result (word_scan word.now) }
{
    if word.len() > 63 {
        return Ok(Scan::Bad);
    }
    let name = name_of(alloc, word)?;
    if is_reserved(word) {
        Ok(Scan::Found(TokenKind::Reserved(name), word.len()))
    } else {
        Ok(Scan::Found(TokenKind::Name(name), word.len()))
    }
}

fn scan_number(digits: &[u8]) -> Scan
    ensures { result ≡ number_scan digits.now }
{
    if has_leading_zero(digits) {
        return Scan::Bad;
    }
    match digits_value(digits) {
        Some(value) => Scan::Found(TokenKind::Number(value), digits.len()),
        None => Scan::TooWide,
    }
}

fn escaped(byte: u8) -> Option<u8>
    ensures { result ≡ escaped_byte byte }
{
    match byte {
        b'"' => Some(b'"'),
        b'\\' => Some(b'\\'),
        b'n' => Some(b'\n'),
        _ => None,
    }
}

// The content of a text up to its closing quote, and how many bytes it takes with that quote.
fn text_content(alloc: Global, bytes: &[u8]) -> Result<Option<(Vec<u8>, usize)>, NoMemory>
    ensures content { IfOk result (λ found. option_map (λ p. (p.0.items, p.1)) found ≡ text_from false bytes.now) }
    ensures within { IfOk result (λ found. IfSome found (λ p. p.1 ≤ length bytes.now)) }
{
    let mut content = Vec::new(alloc);
    let mut behind = false;
    for (i, byte) in bytes.iter().enumerate() {
        if behind {
            let Some(meant) = escaped(*byte) else {
                return Ok(None);
            };
            content.push(meant)?;
            behind = false;
        } else if *byte == b'"' {
            return Ok(Some((content, i + 1)));
        } else if *byte == b'\\' {
            behind = true;
        } else if is_plain(*byte) {
            content.push(*byte)?;
        } else {
            return Ok(None);
        }
    }
    Ok(None)
}

// The text of that content, which takes that many bytes behind its first quote.
fn text_token(alloc: Global, content: &[u8], taken: usize) -> Result<Scan, NoMemory>
    requires { taken < 2 ^ 63 }
    ensures { Gives result (text_scan (Some (content.now, taken))) }
{
    if content.len() > 1000 {
        return Ok(Scan::Bad);
    }
    match str::from_utf8(content) {
        Ok(text) => {
            let name = Name::of(alloc, text)?;
            Ok(Scan::Found(TokenKind::Text(name), taken + 1))
        }
        Err(_) => Ok(Scan::Bad),
    }
}

fn scan_text(alloc: Global, bytes: &[u8]) -> Result<Scan, NoMemory>
    requires { length bytes.now < 2 ^ 63 }
    ensures { Gives result (text_scan (text_from false bytes.now)) }
{
    match text_content(alloc, bytes)? {
        Some((content, taken)) => text_token(alloc, &content, taken),
        None => Ok(Scan::Bad),
    }
}

fn scan_symbol(alloc: Global, rest: &[u8]) -> Result<Scan, NoMemory>
    ensures { Gives result (scan_of_symbol (symbol_length_of rest.now) rest.now) }
{
    let count = symbol_length(rest);
    if count == 0 {
        return Ok(Scan::Bad);
    }
    let (symbol, _) = rest.split_at(count);
    Ok(Scan::Found(TokenKind::Symbol(name_of(alloc, symbol)?), count))
}

/// The token at the front of bytes, which aren't a blank nor a comment, and its length.
pub(crate) fn scan_front(alloc: Global, rest: &[u8]) -> Result<Scan, NoMemory>
    requires { length rest.now < 2 ^ 63 }
    ensures { Gives result (scan_of rest.now) }
{
    let Some((first, behind)) = rest.split_first() else {
        return Ok(Scan::Bad);
    };
    if is_letter(*first) {
        let (word, _) = rest.split_at(run_length(Run::Word, rest));
        scan_word(alloc, word)
    } else if is_digit(*first) {
        let (digits, _) = rest.split_at(run_length(Run::Digits, rest));
        Ok(scan_number(digits))
    } else if *first == b'"' {
        scan_text(alloc, behind)
    } else {
        scan_symbol(alloc, rest)
    }
}
