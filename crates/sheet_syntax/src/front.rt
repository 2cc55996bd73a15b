// What stands at the front of tokens.
ghost use Rattle.std.specs.Prelude.{◌≡◌, ◌≢◌, ◌∷◌, ◌≤◌, ◌+◌, option_map, length, IfOk, IfSome, Ok, None};
ghost use Rattle.sheet_syntax_trees.specs.Signs.{sign_of as sign_of_kind};
ghost use Rattle.sheet_syntax_trees.specs.Tokens.{Reads};
ghost use Rattle.sheet_syntax_trees.specs.Reading.{offset as offset_of, line_of as line_of_tokens, sign_at as sign_of_first, after as tokens_after, expect as expected, name_at as name_of_first, made as formed, opened as opened_bracket, leaf as leaf_tree, step_of as step_tree, or_expected};
ghost use Rattle.sheet_syntax_trees.specs.Operators.{operator_among as operator_of_level, repeats as level_repeats, prefix_sign as sign_of_prefix};

use sheet_syntax_trees::{
    Formed, Level, Operator, Prefix, Sign, SyntaxRefusal, Token, TokenKind, Tree, sign_of,
};
use sheet_values::Name;
use sqlite_items::Boxed;
use std::alloc::Global;

/// The greatest depth of a formula.
pub(crate) const GREATEST_DEPTH: u32 = 32;

/// Where the first token begins, or the text ends.
pub fn offset(end: usize, rest: &[Token]) -> usize
    ensures { result ≡ offset_of end rest.now }
{
    match rest.split_first() {
        None => end,
        Some((token, _)) => token.start,
    }
}

/// The line of the first token, or 0 where there is none.
pub fn line_of(rest: &[Token]) -> u32
    ensures { result ≡ line_of_tokens rest.now }
{
    match rest.split_first() {
        None => 0,
        Some((token, _)) => token.line,
    }
}

pub(crate) fn sign_at(rest: &[Token]) -> Sign
    ensures { result ≡ sign_of_first rest.now }
{
    match rest.split_first() {
        None => Sign::Other,
        Some((token, _)) => sign_of(&token.kind),
    }
}

/// The tokens behind a first one of that sign.
pub(crate) fn after(sign: Sign, rest: &[Token]) -> Option<&[Token]>
    ensures { option_map (λ behind. behind.now) result ≡ tokens_after sign rest.now }
{
    match rest.split_first() {
        Some((token, behind)) if sign_of(&token.kind) == sign => Some(behind),
        _ => None,
    }
}

/// A first token "if", and the tokens behind it.
pub(crate) fn at_if(rest: &[Token]) -> Option<(&Token, &[Token])>
    ensures found { IfSome result (λ x. (rest.now ≡ x.0.now ∷ x.1.now) × (sign_of_kind x.0.now.kind ≡ Sign.If)) }
    ensures other { result ≡ None → sign_of_first rest.now ≢ Sign.If }
{
    let (token, behind) = rest.split_first()?;
    if sign_of(&token.kind) == Sign::If {
        Some((token, behind))
    } else {
        None
    }
}

pub(crate) fn expect(end: usize, sign: Sign, rest: &[Token]) -> Result<&[Token], SyntaxRefusal>
    ensures { Reads (λ behind. behind.now) result (expected end sign rest.now) }
{
    match after(sign, rest) {
        Some(behind) => Ok(behind),
        None => Err(SyntaxRefusal::Expected(offset(end, rest))),
    }
}

/// The name that the first token is, and the tokens behind it.
///
/// `Expected` with its offset where it is no name, or with the text's length where there is none.
pub fn name_at(end: usize, rest: &[Token]) -> Result<(Name, &[Token]), SyntaxRefusal>
    ensures { Reads (λ x. (x.0, x.1.now)) result (name_of_first end rest.now) }
{
    let Some((token, behind)) = rest.split_first() else {
        return Err(SyntaxRefusal::Expected(end));
    };
    match &token.kind {
        TokenKind::Name(name) => {
            let copy = name.copy()?;
            Ok((copy, behind))
        }
        _ => Err(SyntaxRefusal::Expected(token.start)),
    }
}

/// A form that begins at that offset, whose deepest part has that depth. `TooNested` with that offset where it is 33 deep.
pub fn made(at: usize, tree: Tree, deepest: u32) -> Result<Formed, SyntaxRefusal>
    ensures { Reads (λ f. f) result (formed 32 at tree deepest) }
{
    if deepest < GREATEST_DEPTH {
        Ok(Formed {
            tree,
            depth: deepest + 1,
        })
    } else {
        Err(SyntaxRefusal::TooNested(at))
    }
}

/// The tree of a formula that is one token.
pub(crate) fn leaf(token: &Token) -> Result<Option<Tree>, SyntaxRefusal>
    ensures { Reads (λ t. t) result (Ok (leaf_tree token.now.line token.now.kind)) }
{
    let line = token.line;
    match &token.kind {
        TokenKind::Name(name) => {
            let copy = name.copy()?;
            Ok(Some(Tree::Name(line, copy)))
        }
        TokenKind::Number(number) => Ok(Some(Tree::Number(line, *number))),
        TokenKind::Text(text) => {
            let copy = text.copy()?;
            Ok(Some(Tree::Text(line, copy)))
        }
        kind => match sign_of(kind) {
            Sign::True => Ok(Some(Tree::Truth(line, true))),
            Sign::False => Ok(Some(Tree::Truth(line, false))),
            Sign::Root => Ok(Some(Tree::Root(line))),
            Sign::This => Ok(Some(Tree::This(line))),
            Sign::Caller => Ok(Some(Tree::Caller(line))),
            Sign::Operator => Ok(Some(Tree::Operator(line))),
            _ => Ok(None),
        },
    }
}

/// The form of a step from a formula that begins in that line: to the column that the token names, or `up`. `Expected` with
/// the token's offset where it is neither.
pub fn step(alloc: Global, line: u32, from: Tree, token: &Token) -> Result<Tree, SyntaxRefusal>
    ensures { Reads (λ t. t) result (or_expected token.now.start (step_tree line from token.now.kind)) }
{
    match &token.kind {
        TokenKind::Name(name) => {
            let copy = name.copy()?;
            let from = Boxed::new(alloc, from)?;
            Ok(Tree::Child(line, from, copy))
        }
        kind if sign_of(kind) == Sign::Up => {
            let from = Boxed::new(alloc, from)?;
            Ok(Tree::Up(line, from))
        }
        _ => Err(SyntaxRefusal::Expected(token.start)),
    }
}

/// The operator of a level that a token of that sign is.
pub(crate) fn operator_among(level: Level, sign: Sign) -> Option<Operator>
    ensures { result ≡ operator_of_level level sign }
{
    match (level, sign) {
        (Level::Or, Sign::Or) => Some(Operator::Or),
        (Level::And, Sign::And) => Some(Operator::And),
        (Level::Comparison, Sign::Equals) => Some(Operator::Equals),
        (Level::Comparison, Sign::NotEquals) => Some(Operator::NotEquals),
        (Level::Comparison, Sign::Less) => Some(Operator::Less),
        (Level::Comparison, Sign::AtMost) => Some(Operator::AtMost),
        (Level::Comparison, Sign::Greater) => Some(Operator::Greater),
        (Level::Comparison, Sign::AtLeast) => Some(Operator::AtLeast),
        (Level::Comparison, Sign::In) => Some(Operator::In),
        (Level::Sets, Sign::Union) => Some(Operator::Union),
        (Level::Sets, Sign::Intersect) => Some(Operator::Intersect),
        (Level::Sets, Sign::Except) => Some(Operator::Except),
        (Level::Sums, Sign::Plus) => Some(Operator::Plus),
        (Level::Sums, Sign::Minus) => Some(Operator::Minus),
        (Level::Sums, Sign::Join) => Some(Operator::Join),
        (Level::Products, Sign::Times) => Some(Operator::Times),
        (Level::Products, Sign::Divide) => Some(Operator::Divide),
        (Level::Products, Sign::Remainder) => Some(Operator::Remainder),
        _ => None,
    }
}

/// Whether operators of a level may follow each other.
pub(crate) fn repeats(level: Level) -> bool
    ensures { result ≡ level_repeats level }
{
    level != Level::Comparison
}

pub(crate) fn prefix_sign(prefix: Prefix) -> Sign
    ensures { result ≡ sign_of_prefix prefix }
{
    match prefix {
        Prefix::Minus => Sign::Minus,
        Prefix::Not => Sign::Not,
    }
}
