// Columns, behind the word that begins them.
ghost use Rattle.std.specs.Prelude.{◌≡◌};
ghost use Rattle.sheet_syntax_trees.specs.Tokens.{Reads};
ghost use Rattle.sheet_define_reading.specs.Reading.{usual, optional, one_or, after as tokens_after, type_at as type_of_tokens, literal_at as literal_of_tokens, state_behind as state_behind_one, object_column as object_of_tokens, state_column as state_of_tokens, formula_column as formula_of_tokens};

use crate::front::{after, expect, formula};
use crate::types::{literal_at, type_at};
use sheet_define_data::{Column, Content, Literal, TypeName};
use sheet_define_reading::Mark;
use sheet_syntax::{SyntaxRefusal, Token, name_at};
use sheet_values::Name;
use std::alloc::Global;

#[tactic(auto, unfolding(sheet_define_reading::specs::Reading::object_column))]
pub(crate) fn object_column<'a>(
    depth: u32,
    word: &Token,
    rest: &'a [Token],
    end: usize,
) -> Result<(Column, &'a [Token]), SyntaxRefusal>
    ensures { Reads (λ x. (x.0, x.1.now)) result (object_of_tokens (usual end) depth word.now rest.now) }
{
    let (name, rest) = name_at(end, rest)?;
    let rest = expect(end, Mark::OpenBrace, rest)?;
    let column = Column {
        depth,
        line: word.line,
        name,
        content: Content::Object,
    };
    Ok((column, rest))
}

// Whether the word `one` stands there, and the tokens behind it.
fn one(rest: &[Token]) -> (bool, &[Token])
    ensures { (result.0, result.1.now) ≡ one_or rest.now (tokens_after Mark.One rest.now) }
{
    match after(Mark::One, rest) {
        None => (false, rest),
        Some(rest) => (true, rest),
    }
}

// The value behind `=`, where that stands there.
fn first(rest: &[Token], end: usize) -> Result<(Option<Literal>, &[Token]), SyntaxRefusal>
    ensures { Reads (λ x. (x.0, x.1.now)) result (optional (literal_of_tokens (usual end)) rest.now (tokens_after Mark.Equals rest.now)) }
{
    match after(Mark::Equals, rest) {
        None => Ok((None, rest)),
        Some(rest) => {
            let (value, rest) = literal_at(rest, end)?;
            Ok((Some(value), rest))
        }
    }
}

// What stands behind the type of a state column.
fn state_behind<'a>(
    depth: u32,
    word: &Token,
    name: Name,
    values: TypeName,
    rest: &'a [Token],
    end: usize,
) -> Result<(Column, &'a [Token]), SyntaxRefusal>
    ensures { Reads (λ x. (x.0, x.1.now)) result (state_behind_one (usual end) depth word.now name values (one_or rest.now (tokens_after Mark.One rest.now))) }
{
    let (one, rest) = one(rest);
    let (first, rest) = first(rest, end)?;
    let column = Column {
        depth,
        line: word.line,
        name,
        content: Content::State { values, one, first },
    };
    Ok((column, rest))
}

#[tactic(auto, unfolding(sheet_define_reading::specs::Reading::state_column))]
pub(crate) fn state_column<'a>(
    alloc: Global,
    depth: u32,
    word: &Token,
    rest: &'a [Token],
    end: usize,
) -> Result<(Column, &'a [Token]), SyntaxRefusal>
    ensures { Reads (λ x. (x.0, x.1.now)) result (state_of_tokens (usual end) depth word.now rest.now) }
{
    let (name, rest) = name_at(end, rest)?;
    let rest = expect(end, Mark::Colon, rest)?;
    let (values, rest) = type_at(alloc, rest, end)?;
    state_behind(depth, word, name, values, rest, end)
}

// The type behind `:`, where that stands there.
fn declared<'a>(
    alloc: Global,
    rest: &'a [Token],
    end: usize,
) -> Result<(Option<TypeName>, &'a [Token]), SyntaxRefusal>
    ensures { Reads (λ x. (x.0, x.1.now)) result (optional (type_of_tokens (usual end)) rest.now (tokens_after Mark.Colon rest.now)) }
{
    match after(Mark::Colon, rest) {
        None => Ok((None, rest)),
        Some(rest) => {
            let (values, rest) = type_at(alloc, rest, end)?;
            Ok((Some(values), rest))
        }
    }
}

#[tactic(auto, unfolding(sheet_define_reading::specs::Reading::formula_column))]
pub(crate) fn formula_column<'a>(
    alloc: Global,
    depth: u32,
    word: &Token,
    rest: &'a [Token],
    end: usize,
) -> Result<(Column, &'a [Token]), SyntaxRefusal>
    ensures { Reads (λ x. (x.0, x.1.now)) result (formula_of_tokens (usual end) depth word.now rest.now) }
{
    let (name, rest) = name_at(end, rest)?;
    let (values, rest) = declared(alloc, rest, end)?;
    let rest = expect(end, Mark::Equals, rest)?;
    let (formula, rest) = formula(alloc, rest, end)?;
    let column = Column {
        depth,
        line: word.line,
        name,
        content: Content::Formula { values, formula },
    };
    Ok((column, rest))
}
