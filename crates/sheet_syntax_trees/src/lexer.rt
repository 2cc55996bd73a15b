// The tokens of a text.
ghost use Rattle.std.specs.Prelude.{◌≡◌, ◌≤◌, ◌<◌, ◌+◌, ◌-◌, [], length, drop, List, ℕ, IfOk};
ghost use Rattle.sheet_syntax_trees.specs.Order.{InOrder};
ghost use Rattle.sheet_syntax_trees.specs.Tokens.{Reads, lexed, with_tokens, tokens_from};
ghost use Rattle.sheet_syntax_trees.specs.TokenList.{TokenList};
ghost use Rattle.sheet_syntax_trees.specs.Lexing.{Goes, list_of};

use crate::bytes::{Run, is_blank, run_length};
use crate::scan::{Scan, scan_front};
use crate::token::{SyntaxRefusal, Token, Tokens};
use std::alloc::Global;

// How many bytes at the front are a blank, a comment or a token, which is put at the end of the list.
fn lex_front(
    alloc: Global,
    list: &mut Vec<Token>,
    rest: &[u8],
    at: usize,
    line: u32,
) -> Result<usize, SyntaxRefusal>
    requires some { 0 < length rest.now }
    requires within { at + length rest.now ≤ 4294967294 }
    ensures { Goes list.old.items rest.now at line result list.new.items }
{
    let Some((first, behind)) = rest.split_first() else {
        return Ok(0);
    };
    if is_blank(*first) {
        return Ok(1);
    }
    if *first == b'#' {
        return Ok(1 + run_length(Run::Comment, behind));
    }
    match scan_front(alloc, rest)? {
        Scan::Found(kind, count) => {
            list.push(Token {
                kind,
                start: at,
                end: at + count,
                line,
            })?;
            Ok(count)
        }
        Scan::Bad => Err(SyntaxRefusal::BadToken(at)),
        Scan::TooWide => Err(SyntaxRefusal::NumberTooWide(at)),
    }
}

/// The tokens of a text of at most 4,294,967,294 bytes, in order: each with its kind, where it starts and ends, and its
/// line.
///
/// `BadToken` with the offset at which the first token begins that is none, `NumberTooWide` with that of a number
/// over 9223372036854775807; the first of both.
pub fn lex(alloc: Global, text: &[u8]) -> Result<Tokens, SyntaxRefusal>
    requires { length text.now ≤ 4294967294 }
    ensures exact { Reads list_of result (lexed text.now) }
    ensures order { IfOk result (λ tokens. InOrder 0 tokens.text_length tokens.list) }
    ensures length { IfOk result (λ tokens. tokens.text_length ≡ length text.now) }
{
    let mut list = Vec::new(alloc);
    let mut rest = text;
    let mut at = 0;
    let mut line = 1;
    while let Some((first, _)) = rest.split_first() {
        let ends_line = *first == b'\n';
        let count = lex_front(alloc, &mut list, rest, at, line)?;
        let (_, behind) = rest.split_at(count);
        rest = behind;
        at += count;
        if ends_line {
            line += 1;
        }
    }
    Ok(Tokens::of(list, text.len()))
}
