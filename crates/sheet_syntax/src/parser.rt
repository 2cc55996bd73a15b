// Reads formulas from tokens: each reader gives what stands at the front, and the tokens behind it. At most so many
// brackets may be open (room), and at most so many expressions may stand in each other (turns): one for each token is
// enough.
ghost use Rattle.std.specs.Prelude.{◌≡◌, ◌≤◌, ◌+◌, ◌-◌, ◌∷◌, [], length, Ok, IfOk};
ghost use Rattle.sheet_syntax_trees.specs.Tokens.{Reads};
ghost use Rattle.sheet_syntax_trees.specs.Reading.{setting, opened as opened_bracket, closed as closed_gathering, closed_where as closed_gathering_where, gathered as gathered_values, summed as summed_values, tested as tested_values, called as called_function, parts as parts_of_set, braced as braced_form, parenthesised as parenthesised_form, bracketed as bracketed_form, atom as atom_of_tokens, postfix as postfix_at, chain_at, operand_at, within as within_turns, formula_at as formula_of_tokens, after as tokens_after};

use crate::build::{call, gather, gather_where, operation, prefixes, steps, test, under_prefixes};
use crate::front::{
    after, at_if, expect, leaf, line_of, made, name_at, offset, operator_among, repeats, sign_at,
};
use crate::waiting::{OpenIf, Parts, Resumed, resume};
use sheet_syntax_trees::{
    Formed, Function, Gathering, Level, Prefix, Quantifier, Sign, SyntaxRefusal, Token, Tree,
    sign_of,
};
use sheet_values::Name;
use sqlite_items::Items;
use std::alloc::Global;

/// What is read of tokens: a text's length, and how many brackets and expressions may still be opened.
#[derive(Clone, Copy)]
pub(crate) struct Room {
    pub end: usize,
    pub brackets: u32,
    pub turns: usize,
}

impl Room {
    // The room inside a bracket.
    fn inside(self) -> Room
        ensures { result ≡ record { end = self.end; brackets = self.brackets - 1; turns = self.turns } }
    {
        Room {
            end: self.end,
            brackets: self.brackets.saturating_sub(1),
            turns: self.turns,
        }
    }

    // The room behind so many turns.
    fn after_turns(self, count: usize) -> Room
        ensures { result ≡ record { end = self.end; brackets = self.brackets; turns = self.turns - count } }
    {
        Room {
            end: self.end,
            brackets: self.brackets,
            turns: self.turns.saturating_sub(count),
        }
    }
}

fn opened<'a>(sign: Sign, rest: &'a [Token], room: Room) -> Result<&'a [Token], SyntaxRefusal>
    ensures { Reads (λ behind. behind.now) result (opened_bracket (setting 32 room.end room.turns room.brackets) sign rest.now) }
{
    let behind = expect(room.end, sign, rest)?;
    if room.brackets == 0 {
        return Err(SyntaxRefusal::TooNested(offset(room.end, rest)));
    }
    Ok(behind)
}

// The end of a comprehension or a sum without a condition.
#[tactic(auto, unfolding(sheet_syntax_trees::specs::Reading::closed))]
fn closed<'a>(
    alloc: Global,
    gathering: Gathering,
    close: Sign,
    token: &Token,
    body: Formed,
    name: Name,
    source: Formed,
    rest: &'a [Token],
    room: Room,
) -> Result<(Formed, &'a [Token]), SyntaxRefusal>
    ensures { Reads (λ x. (x.0, x.1.now)) result (closed_gathering (setting 32 room.end room.turns room.brackets) gathering close token.now body name source rest.now) }
{
    let rest = expect(room.end, close, rest)?;
    let formed = gather(alloc, token, gathering, body, name, source)?;
    Ok((formed, rest))
}

// The condition and the end of a comprehension or a sum.
#[cycle(parser)]
#[tactic(auto, unfolding(sheet_syntax_trees::specs::Reading::closed_where))]
fn closed_where<'a>(
    alloc: Global,
    gathering: Gathering,
    close: Sign,
    token: &Token,
    body: Formed,
    name: Name,
    source: Formed,
    rest: &'a [Token],
    room: Room,
) -> Result<(Formed, &'a [Token]), SyntaxRefusal>
    ensures { Reads (λ x. (x.0, x.1.now)) result (closed_gathering_where (setting 32 room.end room.turns room.brackets) gathering close token.now body name source rest.now) }
{
    let (condition, rest) = nested_expression(alloc, rest, room.inside())?;
    let rest = expect(room.end, close, rest)?;
    let formed = gather_where(alloc, token, gathering, body, name, source, condition)?;
    Ok((formed, rest))
}

// Behind the body of a comprehension or a sum.
#[cycle(parser)]
#[tactic(auto, unfolding(sheet_syntax_trees::specs::Reading::gathered))]
fn gathered<'a>(
    alloc: Global,
    gathering: Gathering,
    close: Sign,
    token: &Token,
    body: Formed,
    rest: &'a [Token],
    room: Room,
) -> Result<(Formed, &'a [Token]), SyntaxRefusal>
    ensures { Reads (λ x. (x.0, x.1.now)) result (gathered_values (setting 32 room.end room.turns room.brackets) gathering close token.now body rest.now) }
{
    let rest = expect(room.end, Sign::Colon, rest)?;
    let (name, rest) = name_at(room.end, rest)?;
    let rest = expect(room.end, Sign::In, rest)?;
    let (source, rest) = nested_expression(alloc, rest, room.inside())?;
    match after(Sign::Bar, rest) {
        None => closed(
            alloc, gathering, close, token, body, name, source, rest, room,
        ),
        Some(rest) => closed_where(
            alloc, gathering, close, token, body, name, source, rest, room,
        ),
    }
}

#[cycle(parser)]
#[tactic(auto, unfolding(sheet_syntax_trees::specs::Reading::summed))]
fn summed<'a>(
    alloc: Global,
    token: &Token,
    rest: &'a [Token],
    room: Room,
) -> Result<(Formed, &'a [Token]), SyntaxRefusal>
    ensures { Reads (λ x. (x.0, x.1.now)) result (summed_values (setting 32 room.end room.turns room.brackets) token.now rest.now) }
{
    let rest = opened(Sign::Open, rest, room)?;
    let (body, rest) = nested_expression(alloc, rest, room.inside())?;
    gathered(alloc, Gathering::Sum, Sign::Close, token, body, rest, room)
}

#[cycle(parser)]
#[tactic(auto, unfolding(sheet_syntax_trees::specs::Reading::tested))]
fn tested<'a>(
    alloc: Global,
    quantifier: Quantifier,
    token: &Token,
    rest: &'a [Token],
    room: Room,
) -> Result<(Formed, &'a [Token]), SyntaxRefusal>
    ensures { Reads (λ x. (x.0, x.1.now)) result (tested_values (setting 32 room.end room.turns room.brackets) quantifier token.now rest.now) }
{
    let rest = opened(Sign::Open, rest, room)?;
    let (name, rest) = name_at(room.end, rest)?;
    let rest = expect(room.end, Sign::In, rest)?;
    let (source, rest) = nested_expression(alloc, rest, room.inside())?;
    let rest = expect(room.end, Sign::Bar, rest)?;
    let (condition, rest) = nested_expression(alloc, rest, room.inside())?;
    let rest = expect(room.end, Sign::Close, rest)?;
    let formed = test(alloc, token, quantifier, name, source, condition)?;
    Ok((formed, rest))
}

#[cycle(parser)]
#[tactic(auto, unfolding(sheet_syntax_trees::specs::Reading::called))]
fn called<'a>(
    alloc: Global,
    function: Function,
    token: &Token,
    rest: &'a [Token],
    room: Room,
) -> Result<(Formed, &'a [Token]), SyntaxRefusal>
    ensures { Reads (λ x. (x.0, x.1.now)) result (called_function (setting 32 room.end room.turns room.brackets) function token.now rest.now) }
{
    let rest = opened(Sign::Open, rest, room)?;
    let (argument, rest) = nested_expression(alloc, rest, room.inside())?;
    let rest = expect(room.end, Sign::Close, rest)?;
    let formed = call(alloc, token, function, argument)?;
    Ok((formed, rest))
}

// Behind the first part of a set in braces.
#[cycle(parser)]
fn parts<'a>(
    alloc: Global,
    token: &Token,
    first: Formed,
    rest: &'a [Token],
    room: Room,
) -> Result<(Formed, &'a [Token]), SyntaxRefusal>
    ensures { Reads (λ x. (x.0, x.1.now)) result (parts_of_set (setting 32 room.end room.turns room.brackets) (length rest.now) token.now (first.tree ∷ []) first.depth rest.now) }
{
    let mut deepest = first.depth;
    let mut trees = Items::new(alloc);
    trees.push(first.tree)?;
    let mut remaining = rest;
    for _ in 0..rest.len() {
        if let Some(behind) = after(Sign::CloseBrace, remaining) {
            return match made(token.start, Tree::Set(token.line, trees), deepest) {
                Ok(formed) => Ok((formed, behind)),
                Err(refusal) => Err(refusal),
            };
        }
        let behind = match expect(room.end, Sign::Comma, remaining) {
            Ok(behind) => behind,
            Err(refusal) => return Err(refusal),
        };
        match nested_expression(alloc, behind, room.inside()) {
            Ok((part, others)) => {
                deepest = deepest.max(part.depth);
                trees.push(part.tree)?;
                remaining = others;
            }
            Err(refusal) => return Err(refusal),
        }
    }
    Err(SyntaxRefusal::Expected(offset(room.end, remaining)))
}

// Behind an opened brace.
#[cycle(parser)]
#[tactic(auto, unfolding(sheet_syntax_trees::specs::Reading::braced, sheet_syntax_trees::specs::Reading::behind_part))]
fn braced<'a>(
    alloc: Global,
    token: &Token,
    rest: &'a [Token],
    room: Room,
) -> Result<(Formed, &'a [Token]), SyntaxRefusal>
    ensures { Reads (λ x. (x.0, x.1.now)) result (braced_form (setting 32 room.end room.turns room.brackets) token.now rest.now (tokens_after Sign.CloseBrace rest.now)) }
{
    if let Some(behind) = after(Sign::CloseBrace, rest) {
        let formed = made(token.start, Tree::Set(token.line, Items::new(alloc)), 0)?;
        return Ok((formed, behind));
    }
    let (first, rest) = nested_expression(alloc, rest, room.inside())?;
    match sign_at(rest) {
        Sign::Colon => gathered(
            alloc,
            Gathering::Union,
            Sign::CloseBrace,
            token,
            first,
            rest,
            room,
        ),
        _ => parts(alloc, token, first, rest, room),
    }
}

#[cycle(parser)]
#[tactic(auto, unfolding(sheet_syntax_trees::specs::Reading::parenthesised))]
fn parenthesised<'a>(
    alloc: Global,
    rest: &'a [Token],
    room: Room,
) -> Result<(Formed, &'a [Token]), SyntaxRefusal>
    ensures { Reads (λ x. (x.0, x.1.now)) result (parenthesised_form (setting 32 room.end room.turns room.brackets) rest.now) }
{
    let (formed, rest) = nested_expression(alloc, rest, room.inside())?;
    let rest = expect(room.end, Sign::Close, rest)?;
    Ok((formed, rest))
}

#[cycle(parser)]
#[tactic(auto, unfolding(sheet_syntax_trees::specs::Reading::bracketed))]
fn bracketed<'a>(
    alloc: Global,
    sign: Sign,
    token: &Token,
    rest: &'a [Token],
    room: Room,
) -> Result<(Formed, &'a [Token]), SyntaxRefusal>
    ensures { Reads (λ x. (x.0, x.1.now)) result (bracketed_form (setting 32 room.end room.turns room.brackets) sign token.now rest.now) }
{
    match sign {
        Sign::Open => {
            if room.brackets == 0 {
                Err(SyntaxRefusal::TooNested(token.start))
            } else {
                parenthesised(alloc, rest, room)
            }
        }
        Sign::OpenBrace => {
            if room.brackets == 0 {
                Err(SyntaxRefusal::TooNested(token.start))
            } else {
                braced(alloc, token, rest, room)
            }
        }
        Sign::Count => called(alloc, Function::Count, token, rest, room),
        Sign::Only => called(alloc, Function::Only, token, rest, room),
        Sign::Min => called(alloc, Function::Min, token, rest, room),
        Sign::Max => called(alloc, Function::Max, token, rest, room),
        Sign::Sum => summed(alloc, token, rest, room),
        Sign::Any => tested(alloc, Quantifier::Any, token, rest, room),
        Sign::All => tested(alloc, Quantifier::All, token, rest, room),
        _ => Err(SyntaxRefusal::Expected(token.start)),
    }
}

#[cycle(parser)]
#[tactic(auto, unfolding(sheet_syntax_trees::specs::Reading::atom))]
fn atom<'a>(
    alloc: Global,
    rest: &'a [Token],
    room: Room,
) -> Result<(Formed, &'a [Token]), SyntaxRefusal>
    ensures { Reads (λ x. (x.0, x.1.now)) result (atom_of_tokens (setting 32 room.end room.turns room.brackets) rest.now) }
{
    let Some((token, behind)) = rest.split_first() else {
        return Err(SyntaxRefusal::Expected(room.end));
    };
    match leaf(token)? {
        Some(tree) => Ok((Formed { tree, depth: 1 }, behind)),
        None => bracketed(alloc, sign_of(&token.kind), token, behind, room),
    }
}

#[cycle(parser)]
#[tactic(auto, unfolding(sheet_syntax_trees::specs::Reading::postfix))]
fn postfix<'a>(
    alloc: Global,
    rest: &'a [Token],
    room: Room,
) -> Result<(Formed, &'a [Token]), SyntaxRefusal>
    ensures { Reads (λ x. (x.0, x.1.now)) result (postfix_at (setting 32 room.end room.turns room.brackets) rest.now) }
{
    let (first, behind) = atom(alloc, rest, room)?;
    steps(
        alloc,
        offset(room.end, rest),
        line_of(rest),
        first,
        behind,
        room.end,
    )
}

#[cycle(parser)]
#[tactic(auto, unfolding(sheet_syntax_trees::specs::Reading::unary, sheet_syntax_trees::specs::Reading::negation, sheet_syntax_trees::specs::Reading::with_prefixes))]
fn operand<'a>(
    alloc: Global,
    level: Level,
    rest: &'a [Token],
    room: Room,
) -> Result<(Formed, &'a [Token]), SyntaxRefusal>
    ensures { Reads (λ x. (x.0, x.1.now)) result (operand_at (setting 32 room.end room.turns room.brackets) level rest.now) }
{
    match level {
        Level::Or => chain(alloc, Level::And, rest, room),
        Level::And => {
            let (front, behind) = prefixes(Prefix::Not, rest);
            let (formed, behind) = chain(alloc, Level::Comparison, behind, room)?;
            let formed = under_prefixes(alloc, Prefix::Not, front, formed)?;
            Ok((formed, behind))
        }
        Level::Comparison => chain(alloc, Level::Sets, rest, room),
        Level::Sets => chain(alloc, Level::Sums, rest, room),
        Level::Sums => chain(alloc, Level::Products, rest, room),
        Level::Products => {
            let (front, behind) = prefixes(Prefix::Minus, rest);
            let (formed, behind) = postfix(alloc, behind, room)?;
            let formed = under_prefixes(alloc, Prefix::Minus, front, formed)?;
            Ok((formed, behind))
        }
    }
}

#[cycle(parser)]
fn chain<'a>(
    alloc: Global,
    level: Level,
    rest: &'a [Token],
    room: Room,
) -> Result<(Formed, &'a [Token]), SyntaxRefusal>
    ensures { Reads (λ x. (x.0, x.1.now)) result (chain_at (setting 32 room.end room.turns room.brackets) level rest.now) }
{
    let at = offset(room.end, rest);
    let line = line_of(rest);
    let (first, behind) = match operand(alloc, level, rest, room) {
        Ok(read) => read,
        Err(refusal) => return Err(refusal),
    };
    let mut formed = first;
    let mut remaining = behind;
    for _ in 0..behind.len() {
        let Some((token, others)) = remaining.split_first() else {
            return Ok((formed, remaining));
        };
        let Some(operator) = operator_among(level, sign_of(&token.kind)) else {
            return Ok((formed, remaining));
        };
        let (right, others) = match operand(alloc, level, others, room) {
            Ok(read) => read,
            Err(refusal) => return Err(refusal),
        };
        match operation(alloc, at, line, operator, formed, right) {
            Ok(longer) => formed = longer,
            Err(refusal) => return Err(refusal),
        }
        remaining = others;
        if !repeats(level) {
            return Ok((formed, remaining));
        }
    }
    Ok((formed, remaining))
}

// An expression, in one turn less; an if takes a turn while its parts are read.
#[cycle(parser)]
fn nested_expression<'a>(
    alloc: Global,
    rest: &'a [Token],
    room: Room,
) -> Result<(Formed, &'a [Token]), SyntaxRefusal>
    ensures { Reads (λ x. (x.0, x.1.now)) result (within_turns 32 room.end room.turns room.brackets rest.now) }
{
    let mut waiting = Vec::new(alloc);
    let mut remaining = rest;
    while waiting.len() < room.turns {
        if let Some((token, behind)) = at_if(remaining) {
            let (start, line) = (token.start, token.line);
            let parts = Parts::Nothing;
            waiting.push(OpenIf { start, line, parts })?;
            remaining = behind;
        } else {
            let inner = room.after_turns(waiting.len() + 1);
            let (formed, others) = match chain(alloc, Level::Or, remaining, inner) {
                Ok(read) => read,
                Err(refusal) => return Err(refusal),
            };
            let resumed = match resume(alloc, &mut waiting, formed, others, room) {
                Ok(resumed) => resumed,
                Err(refusal) => return Err(refusal),
            };
            match resumed {
                Resumed::Whole(whole) => return Ok((whole, others)),
                Resumed::Part(behind) => remaining = behind,
            }
        }
    }
    Err(SyntaxRefusal::Expected(offset(room.end, remaining)))
}

/// The formula at the front of tokens, and the tokens behind it.
#[tactic(auto, unfolding(sheet_syntax_trees::specs::Reading::formula_at))]
pub fn formula_at<'a>(
    alloc: Global,
    rest: &'a [Token],
    end: usize,
) -> Result<(Formed, &'a [Token]), SyntaxRefusal>
    ensures exact { Reads (λ x. (x.0, x.1.now)) result (formula_of_tokens 32 32 end rest.now) }
    ensures shorter { IfOk result (λ x. length x.1.now ≤ length rest.now) }
{
    let room = Room {
        end,
        brackets: 32,
        turns: rest.len() + 1,
    };
    nested_expression(alloc, rest, room)
}

/// The formula at the front of tokens that has no operator and no step behind it, and the tokens behind it: one token, or
/// what stands in brackets. The refusals are those of a whole formula.
pub fn atom_at<'a>(
    alloc: Global,
    rest: &'a [Token],
    end: usize,
) -> Result<(Formed, &'a [Token]), SyntaxRefusal>
    ensures { Reads (λ x. (x.0, x.1.now)) result (atom_of_tokens (setting 32 end (length rest.now + 1) 32) rest.now) }
{
    let room = Room {
        end,
        brackets: 32,
        turns: rest.len() + 1,
    };
    atom(alloc, rest, room)
}
