// Makes forms from their parts.
ghost use Rattle.std.specs.Prelude.{◌≡◌, length, Ok};
ghost use Rattle.sheet_syntax_trees.specs.Tokens.{Reads};
ghost use Rattle.sheet_syntax_trees.specs.Reading.{gather as gather_form, gather_where as gather_where_form, test as test_form, call as call_form, operation as operation_form, steps as steps_from, prefixes as prefixes_of, behind_prefixes, under_prefixes as under_prefixes_of};
ghost use Rattle.sheet_syntax_trees.specs.Operators.{prefixed as prefixed_tree};

use crate::front::{after, made, prefix_sign, step};
use sheet_syntax_trees::{
    Formed, Function, Gathering, Operator, Prefix, Quantifier, Sign, SyntaxRefusal, Token, Tree,
};
use sheet_values::Name;
use sqlite_items::Boxed;
use std::alloc::Global;

pub(crate) fn gather(
    alloc: Global,
    token: &Token,
    gathering: Gathering,
    body: Formed,
    name: Name,
    source: Formed,
) -> Result<Formed, SyntaxRefusal>
    ensures { Reads (λ f. f) result (gather_form 32 token.now gathering body name source) }
{
    let deepest = body.depth.max(source.depth);
    let body = Boxed::new(alloc, body.tree)?;
    let source = Boxed::new(alloc, source.tree)?;
    let tree = Tree::Gather(token.line, gathering, body, name, source);
    made(token.start, tree, deepest)
}

pub(crate) fn gather_where(
    alloc: Global,
    token: &Token,
    gathering: Gathering,
    body: Formed,
    name: Name,
    source: Formed,
    condition: Formed,
) -> Result<Formed, SyntaxRefusal>
    ensures { Reads (λ f. f) result (gather_where_form 32 token.now gathering body name source condition) }
{
    let deepest = body.depth.max(source.depth.max(condition.depth));
    let body = Boxed::new(alloc, body.tree)?;
    let source = Boxed::new(alloc, source.tree)?;
    let condition = Boxed::new(alloc, condition.tree)?;
    let tree = Tree::GatherWhere(token.line, gathering, body, name, source, condition);
    made(token.start, tree, deepest)
}

pub(crate) fn test(
    alloc: Global,
    token: &Token,
    quantifier: Quantifier,
    name: Name,
    source: Formed,
    condition: Formed,
) -> Result<Formed, SyntaxRefusal>
    ensures { Reads (λ f. f) result (test_form 32 token.now quantifier name source condition) }
{
    let deepest = source.depth.max(condition.depth);
    let source = Boxed::new(alloc, source.tree)?;
    let condition = Boxed::new(alloc, condition.tree)?;
    let tree = Tree::Test(token.line, quantifier, name, source, condition);
    made(token.start, tree, deepest)
}

pub(crate) fn call(
    alloc: Global,
    token: &Token,
    function: Function,
    argument: Formed,
) -> Result<Formed, SyntaxRefusal>
    ensures { Reads (λ f. f) result (call_form 32 token.now function argument) }
{
    let deepest = argument.depth;
    let argument = Boxed::new(alloc, argument.tree)?;
    made(
        token.start,
        Tree::Call(token.line, function, argument),
        deepest,
    )
}

/// The operation of two operands, which begins at that offset and line.
pub(crate) fn operation(
    alloc: Global,
    at: usize,
    line: u32,
    operator: Operator,
    left: Formed,
    right: Formed,
) -> Result<Formed, SyntaxRefusal>
    ensures { Reads (λ f. f) result (operation_form 32 at line operator left right) }
{
    let deepest = left.depth.max(right.depth);
    let left = Boxed::new(alloc, left.tree)?;
    let right = Boxed::new(alloc, right.tree)?;
    made(at, Tree::Binary(line, operator, left, right), deepest)
}

// The steps behind a formula that begins at that offset and line.
pub(crate) fn steps<'a>(
    alloc: Global,
    at: usize,
    line: u32,
    first: Formed,
    rest: &'a [Token],
    end: usize,
) -> Result<(Formed, &'a [Token]), SyntaxRefusal>
    ensures { Reads (λ x. (x.0, x.1.now)) result (steps_from 32 end at line first rest.now) }
{
    let mut formed = first;
    let mut remaining = rest;
    while let Some(behind) = after(Sign::Dot, remaining) {
        let Some((token, others)) = behind.split_first() else {
            return Err(SyntaxRefusal::Expected(end));
        };
        let deepest = formed.depth;
        let tree = match step(alloc, line, formed.tree, token) {
            Ok(tree) => tree,
            Err(refusal) => return Err(refusal),
        };
        match made(at, tree, deepest) {
            Ok(longer) => formed = longer,
            Err(refusal) => return Err(refusal),
        }
        remaining = others;
    }
    Ok((formed, remaining))
}

// The prefixes of a kind at the front, and the tokens behind them.
pub(crate) fn prefixes(prefix: Prefix, rest: &[Token]) -> (&[Token], &[Token])
    ensures front { result.0.now ≡ prefixes_of prefix rest.now }
    ensures behind { result.1.now ≡ behind_prefixes prefix rest.now }
{
    let mut count = 0;
    let mut behind = rest;
    while let Some(others) = after(prefix_sign(prefix), behind) {
        count += 1;
        behind = others;
    }
    (rest.split_at(count).0, behind)
}

fn prefixed(alloc: Global, prefix: Prefix, line: u32, operand: Tree) -> Result<Tree, SyntaxRefusal>
    ensures { Reads (λ t. t) result (Ok (prefixed_tree prefix line operand)) }
{
    let operand = Boxed::new(alloc, operand)?;
    match prefix {
        Prefix::Minus => Ok(Tree::Negate(line, operand)),
        Prefix::Not => Ok(Tree::Not(line, operand)),
    }
}

// The formula under these prefixes.
pub(crate) fn under_prefixes(
    alloc: Global,
    prefix: Prefix,
    front: &[Token],
    operand: Formed,
) -> Result<Formed, SyntaxRefusal>
    ensures { Reads (λ f. f) result (under_prefixes_of 32 prefix front.now (Ok operand)) }
{
    let mut formed = operand;
    let mut remaining = front;
    while let Some((token, others)) = remaining.split_last() {
        let deepest = formed.depth;
        let tree = prefixed(alloc, prefix, token.line, formed.tree)?;
        match made(token.start, tree, deepest) {
            Ok(longer) => formed = longer,
            Err(refusal) => return Err(refusal),
        }
        remaining = others;
    }
    Ok(formed)
}
