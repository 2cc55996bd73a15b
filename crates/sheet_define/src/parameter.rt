// Parameters.
ghost use Rattle.std.specs.Prelude.{◌≡◌, ◌∷◌, []};
ghost use Rattle.sheet_syntax_trees.specs.Tokens.{Reads};
ghost use Rattle.sheet_define_reading.specs.Reading.{usual, with_front, closed as closed_of_tokens, parameter as parameter_of_tokens, more_parameters as parameters_behind, parameters as parameters_of_tokens};

use crate::front::{after, expect};
use crate::types::type_at;
use sheet_define_data::Parameter;
use sheet_define_reading::Mark;
use sheet_syntax::{SyntaxRefusal, Token, line_of, name_at};
use sqlite_items::Items;
use std::alloc::Global;

// How many parameters may stand behind the first one.
const MOST_OTHERS: usize = 15;

#[tactic(auto, unfolding(sheet_define_reading::specs::Reading::parameter))]
fn parameter<'a>(
    alloc: Global,
    rest: &'a [Token],
    end: usize,
) -> Result<(Parameter, &'a [Token]), SyntaxRefusal>
    ensures { Reads (λ x. (x.0, x.1.now)) result (parameter_of_tokens (usual end) rest.now) }
{
    let line = line_of(rest);
    let (name, rest) = name_at(end, rest)?;
    let rest = expect(end, Mark::Colon, rest)?;
    let (values, rest) = type_at(alloc, rest, end)?;
    Ok((Parameter { line, name, values }, rest))
}

// These parameters, where the closing parenthesis stands there.
#[tactic(auto, using(crate::proofs::Loops::closed_ok))]
fn finished<'a>(
    list: Items<Parameter>,
    rest: &'a [Token],
    end: usize,
) -> Result<(Items<Parameter>, &'a [Token]), SyntaxRefusal>
    ensures { Reads (λ x. (x.0, x.1.now)) result (with_front list (closed_of_tokens (usual end) rest.now)) }
{
    let rest = expect(end, Mark::Close, rest)?;
    Ok((list, rest))
}

// The parameters behind the first one, with those so far before them, up to the closing parenthesis.
fn more_parameters<'a>(
    alloc: Global,
    first: Parameter,
    rest: &'a [Token],
    text_length: usize,
) -> Result<(Items<Parameter>, &'a [Token]), SyntaxRefusal>
    ensures { Reads (λ x. (x.0, x.1.now)) result (with_front (first ∷ []) (parameters_behind (usual text_length) 15 rest.now)) }
{
    let mut list = Items::new(alloc);
    list.push(first)?;
    let mut remaining = rest;
    for _ in 0..MOST_OTHERS {
        let Some(behind) = after(Mark::Comma, remaining) else {
            return finished(list, remaining, text_length);
        };
        let (next, others) = match parameter(alloc, behind, text_length) {
            Ok(read) => read,
            Err(refusal) => return Err(refusal),
        };
        list.push(next)?;
        remaining = others;
    }
    finished(list, remaining, text_length)
}

/// The parameters in parentheses, at most 16.
#[tactic(auto, unfolding(sheet_define_reading::specs::Reading::parameters))]
pub(crate) fn parameters<'a>(
    alloc: Global,
    rest: &'a [Token],
    end: usize,
) -> Result<(Items<Parameter>, &'a [Token]), SyntaxRefusal>
    ensures { Reads (λ x. (x.0, x.1.now)) result (parameters_of_tokens (usual end) rest.now) }
{
    let rest = expect(end, Mark::Open, rest)?;
    match after(Mark::Close, rest) {
        Some(behind) => Ok((Items::new(alloc), behind)),
        None => {
            let (first, rest) = parameter(alloc, rest, end)?;
            more_parameters(alloc, first, rest, end)
        }
    }
}
