// Paths, types and first values.
ghost use Rattle.std.specs.Prelude.{◌≡◌, ◌∷◌, Ok};
ghost use Rattle.sheet_syntax_trees.specs.Tokens.{Reads};
ghost use Rattle.sheet_define_reading.specs.Reading.{usual, with_front, more_names as names_behind, path as path_of_tokens, type_at as type_of_tokens, literal_of, negative as negative_of_tokens, literal_at as literal_of_tokens};

use crate::front::{after, mark_at};
use sheet_define_data::{Literal, Path, TypeName};
use sheet_define_reading::{Mark, mark_of};
use sheet_syntax::{SyntaxRefusal, Token, TokenKind, line_of, name_at};
use sheet_values::Name;
use sqlite_items::Items;
use std::alloc::Global;

// The names behind the first one of a path, behind those so far.
fn more_names<'a>(
    names: &mut Items<Name>,
    rest: &'a [Token],
    end: usize,
) -> Result<&'a [Token], SyntaxRefusal>
    ensures { Reads (λ behind. (names.new, behind.now)) result (with_front names.old (names_behind end rest.now)) }
{
    let mut remaining = rest;
    while let Some(behind) = after(Mark::Dot, remaining) {
        let (name, others) = match name_at(end, behind) {
            Ok(read) => read,
            Err(refusal) => return Err(refusal),
        };
        names.push(name)?;
        remaining = others;
    }
    Ok(remaining)
}

#[tactic(auto, unfolding(sheet_define_reading::specs::Reading::path))]
pub(crate) fn path<'a>(
    alloc: Global,
    rest: &'a [Token],
    end: usize,
) -> Result<(Path, &'a [Token]), SyntaxRefusal>
    ensures { Reads (λ x. (x.0, x.1.now)) result (path_of_tokens (usual end) rest.now) }
{
    let line = line_of(rest);
    let (first, rest) = name_at(end, rest)?;
    let mut names = Items::new(alloc);
    names.push(first)?;
    let rest = more_names(&mut names, rest, end)?;
    Ok((Path { line, names }, rest))
}

#[tactic(auto, unfolding(sheet_define_reading::specs::Reading::type_at))]
pub(crate) fn type_at<'a>(
    alloc: Global,
    rest: &'a [Token],
    end: usize,
) -> Result<(TypeName, &'a [Token]), SyntaxRefusal>
    ensures { Reads (λ x. (x.0, x.1.now)) result (type_of_tokens (usual end) rest.now) }
{
    let Some((token, behind)) = rest.split_first() else {
        return Err(SyntaxRefusal::Expected(end));
    };
    match mark_of(&token.kind) {
        Mark::Number => Ok((TypeName::Number, behind)),
        Mark::Text => Ok((TypeName::Text, behind)),
        Mark::Truth => Ok((TypeName::Truth, behind)),
        _ => {
            let (path, rest) = path(alloc, rest, end)?;
            Ok((TypeName::Object(path), rest))
        }
    }
}

// A first value that is one token.
fn literal(token: &Token) -> Result<Option<Literal>, SyntaxRefusal>
    ensures { Reads (λ v. v) result (Ok (literal_of token.now.line token.now.kind)) }
{
    let line = token.line;
    match &token.kind {
        TokenKind::Number(number) => Ok(Some(Literal::Number(line, *number))),
        TokenKind::Text(text) => {
            let copy = text.copy()?;
            Ok(Some(Literal::Text(line, copy)))
        }
        kind => match mark_of(kind) {
            Mark::True => Ok(Some(Literal::Truth(line, true))),
            Mark::False => Ok(Some(Literal::Truth(line, false))),
            _ => Ok(None),
        },
    }
}

// The number behind a minus sign.
#[tactic(auto, unfolding(sheet_define_reading::specs::Reading::negative))]
fn negative<'a>(
    sign: &Token,
    rest: &'a [Token],
    end: usize,
) -> Result<(Literal, &'a [Token]), SyntaxRefusal>
    ensures { Reads (λ x. (x.0, x.1.now)) result (negative_of_tokens (usual end) sign.now rest.now) }
{
    let Some((token, behind)) = rest.split_first() else {
        return Err(SyntaxRefusal::Expected(end));
    };
    match &token.kind {
        TokenKind::Number(number) => Ok((Literal::Negative(sign.line, *number), behind)),
        _ => Err(SyntaxRefusal::Expected(token.start)),
    }
}

#[tactic(auto, unfolding(sheet_define_reading::specs::Reading::literal_at))]
pub(crate) fn literal_at(rest: &[Token], end: usize) -> Result<(Literal, &[Token]), SyntaxRefusal>
    ensures { Reads (λ x. (x.0, x.1.now)) result (literal_of_tokens (usual end) rest.now) }
{
    let Some((token, behind)) = rest.split_first() else {
        return Err(SyntaxRefusal::Expected(end));
    };
    match literal(token)? {
        Some(value) => Ok((value, behind)),
        None => {
            if mark_of(&token.kind) == Mark::Minus {
                negative(token, behind, end)
            } else {
                Err(SyntaxRefusal::Expected(token.start))
            }
        }
    }
}
