// Formulas of texts.
ghost use Rattle.std.specs.Prelude.{◌≡◌, ◌≤◌, length, drop, IfOk};
ghost use Rattle.sheet_syntax_trees.specs.Tokens.{Reads};
ghost use Rattle.sheet_syntax.specs.Formulas.{Parses, ParsesAt, parsed, parsed_at};

use crate::parser::formula_at;
use sheet_syntax_trees::{SyntaxRefusal, Tokens, Tree, lex};
use std::alloc::Global;

fn read_from(alloc: Global, tokens: &Tokens, from: usize) -> Result<(Tree, usize), SyntaxRefusal>
    requires { from ≤ length tokens.now.list }
    ensures exact { Reads (λ x. (x.0, drop x.1 tokens.now.list)) result (parsed_at tokens.now from) }
    ensures within { IfOk result (λ x. x.1 ≤ length tokens.now.list) }
{
    let list = tokens.as_slice();
    let (_, rest) = list.split_at(from);
    let (formed, behind) = formula_at(alloc, rest, tokens.text_length())?;
    let next = list.len() - behind.len();
    Ok((formed.tree, next))
}

fn read_text(alloc: Global, text: &[u8]) -> Result<Tree, SyntaxRefusal>
    requires { length text.now ≤ 4294967294 }
    ensures { Reads (λ t. t) result (parsed text.now) }
{
    let tokens = lex(alloc, text)?;
    let (formed, behind) = formula_at(alloc, tokens.as_slice(), text.len())?;
    match behind.split_first() {
        None => Ok(formed.tree),
        Some((token, _)) => Err(SyntaxRefusal::Expected(token.start)),
    }
}

/// The formula at the front of the tokens from an index on, and the index of the token behind it: the tokens are taken
/// as long as they begin some formula.
///
/// `Expected` where those taken are no formula: the offset of the token behind them, or the text's length at the end.
/// `TooNested` with the offset of the 33rd open bracket, or of the first token of a form of depth 33; the first of all
/// from the left.
pub fn parse_at(alloc: Global, tokens: &Tokens, from: usize) -> Result<(Tree, usize), SyntaxRefusal>
    requires { from ≤ length tokens.now.list }
    ensures exact { Reads (λ x. (x.0, drop x.1 tokens.now.list)) result (parsed_at tokens.now from) }
    ensures stands { ParsesAt tokens.now from result }
    ensures within { IfOk result (λ x. x.1 ≤ length tokens.now.list) }
{
    read_from(alloc, tokens, from)
}

/// The formula that a text of at most 4,294,967,294 bytes stands for.
///
/// `BadToken` and `NumberTooWide` as of `lex`. `Expected` with the offset of the first token such that the tokens up to
/// it begin no formula, or the text's length where it ends too early. `TooNested` with the offset of the 33rd open
/// bracket, or of the first token of a form of depth 33; the first of both from the left.
pub fn parse_formula(alloc: Global, text: &[u8]) -> Result<Tree, SyntaxRefusal>
    requires { length text.now ≤ 4294967294 }
    ensures exact { Reads (λ t. t) result (parsed text.now) }
    ensures stands { Parses text.now result }
{
    read_text(alloc, text)
}
