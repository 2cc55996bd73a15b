// What stands at the front of tokens.
ghost use Rattle.std.specs.Prelude.{◌≡◌, ◌∷◌, option_map};
ghost use Rattle.sheet_syntax_trees.specs.Tokens.{Reads};
ghost use Rattle.sheet_define_reading.specs.Reading.{usual, mark_at as mark_of_first, after as tokens_after, expect as expected, formula as formula_of_tokens, text_at as text_of_first, alone as alone_of_tokens, optional};

use sheet_define_reading::{Mark, mark_of};
use sheet_syntax::{SyntaxRefusal, Token, TokenKind, Tree, formula_at, offset};
use sheet_values::Name;
use std::alloc::Global;

/// The mark of the first token.
pub(crate) fn mark_at(rest: &[Token]) -> Mark
    ensures { result ≡ mark_of_first rest.now }
{
    match rest.split_first() {
        None => Mark::Other,
        Some((token, _)) => mark_of(&token.kind),
    }
}

/// The tokens behind a first one of that mark.
pub(crate) fn after(mark: Mark, rest: &[Token]) -> Option<&[Token]>
    ensures { option_map (λ behind. behind.now) result ≡ tokens_after mark rest.now }
{
    match rest.split_first() {
        Some((token, behind)) if mark_of(&token.kind) == mark => Some(behind),
        _ => None,
    }
}

pub(crate) fn expect(end: usize, mark: Mark, rest: &[Token]) -> Result<&[Token], SyntaxRefusal>
    ensures { Reads (λ behind. behind.now) result (expected end mark rest.now) }
{
    match after(mark, rest) {
        Some(behind) => Ok(behind),
        None => Err(SyntaxRefusal::Expected(offset(end, rest))),
    }
}

#[tactic(auto, unfolding(sheet_define_reading::specs::Reading::text_at))]
pub(crate) fn text_at(end: usize, rest: &[Token]) -> Result<(Name, &[Token]), SyntaxRefusal>
    ensures { Reads (λ x. (x.0, x.1.now)) result (text_of_first end rest.now) }
{
    let Some((token, behind)) = rest.split_first() else {
        return Err(SyntaxRefusal::Expected(end));
    };
    match &token.kind {
        TokenKind::Text(text) => {
            let copy = text.copy()?;
            Ok((copy, behind))
        }
        _ => Err(SyntaxRefusal::Expected(token.start)),
    }
}

/// A name at the front that no dot follows, and the tokens behind it.
pub(crate) fn alone(rest: &[Token]) -> Option<(&Name, &[Token])>
    ensures { option_map (λ x. (x.0.now, x.1.now)) result ≡ alone_of_tokens rest.now }
{
    let (token, behind) = rest.split_first()?;
    if mark_at(behind) == Mark::Dot {
        return None;
    }
    match &token.kind {
        TokenKind::Name(name) => Some((name, behind)),
        _ => None,
    }
}

#[tactic(auto, unfolding(sheet_define_reading::specs::Reading::formula))]
pub(crate) fn formula<'a>(
    alloc: Global,
    rest: &'a [Token],
    end: usize,
) -> Result<(Tree, &'a [Token]), SyntaxRefusal>
    ensures { Reads (λ x. (x.0, x.1.now)) result (formula_of_tokens (usual end) rest.now) }
{
    let (formed, rest) = formula_at(alloc, rest, end)?;
    Ok((formed.tree, rest))
}

/// The formula behind `allow`, where that stands there.
pub(crate) fn allow<'a>(
    alloc: Global,
    rest: &'a [Token],
    end: usize,
) -> Result<(Option<Tree>, &'a [Token]), SyntaxRefusal>
    ensures { Reads (λ x. (x.0, x.1.now)) result (optional (formula_of_tokens (usual end)) rest.now (tokens_after Mark.Allow rest.now)) }
{
    match after(Mark::Allow, rest) {
        None => Ok((None, rest)),
        Some(rest) => {
            let (tree, rest) = formula(alloc, rest, end)?;
            Ok((Some(tree), rest))
        }
    }
}
