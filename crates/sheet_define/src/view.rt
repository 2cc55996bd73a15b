// Views, behind the word that begins them.
ghost use Rattle.std.specs.Prelude.{◌≡◌, length};
ghost use Rattle.sheet_syntax_trees.specs.Tokens.{Reads};
ghost use Rattle.sheet_define_reading.specs.Reading.{usual, many, show as show_of_tokens, show_by as show_of_mark, table as table_of_tokens, part_by as part_of_mark, view as view_of_tokens};

use crate::front::{allow, expect, formula};
use crate::parameter::parameters;
use sheet_define_data::{Part, Show, View};
use sheet_define_reading::{Mark, mark_of};
use sheet_syntax::{SyntaxRefusal, Token, name_at, offset};
use sqlite_items::Items;
use std::alloc::Global;

#[tactic(auto, unfolding(sheet_define_reading::specs::Reading::show))]
fn show<'a>(
    alloc: Global,
    word: &Token,
    rest: &'a [Token],
    end: usize,
) -> Result<(Show, &'a [Token]), SyntaxRefusal>
    ensures { Reads (λ x. (x.0, x.1.now)) result (show_of_tokens (usual end) word.now rest.now) }
{
    let line = word.line;
    let (name, rest) = name_at(end, rest)?;
    let rest = expect(end, Mark::Equals, rest)?;
    let (shown, rest) = formula(alloc, rest, end)?;
    Ok((Show { line, name, shown }, rest))
}

// The show that begins with a token of that mark.
#[tactic(auto, unfolding(sheet_define_reading::specs::Reading::show_by))]
fn show_by<'a>(
    alloc: Global,
    mark: Mark,
    word: &Token,
    rest: &'a [Token],
    end: usize,
) -> Result<(Show, &'a [Token]), SyntaxRefusal>
    ensures { Reads (λ x. (x.0, x.1.now)) result (show_of_mark (usual end) word.now rest.now mark) }
{
    match mark {
        Mark::Show => show(alloc, word, rest, end),
        _ => Err(SyntaxRefusal::Expected(word.start)),
    }
}

// The shows up to a closing brace.
fn shows<'a>(
    alloc: Global,
    rest: &'a [Token],
    text_length: usize,
) -> Result<(Items<Show>, &'a [Token]), SyntaxRefusal>
    ensures { Reads (λ x. (x.0, x.1.now)) result (many text_length (show_of_mark (usual text_length)) (length rest.now) rest.now) }
{
    let mut list = Items::new(alloc);
    let mut remaining = rest;
    for _ in 0..rest.len() {
        let Some((token, behind)) = remaining.split_first() else {
            return Err(SyntaxRefusal::Expected(text_length));
        };
        let mark = mark_of(&token.kind);
        if mark == Mark::CloseBrace {
            return Ok((list, behind));
        }
        let (next, others) = match show_by(alloc, mark, token, behind, text_length) {
            Ok(read) => read,
            Err(refusal) => return Err(refusal),
        };
        list.push(next)?;
        remaining = others;
    }
    Err(SyntaxRefusal::Expected(offset(text_length, remaining)))
}

#[tactic(auto, unfolding(sheet_define_reading::specs::Reading::table))]
fn table<'a>(
    alloc: Global,
    word: &Token,
    rest: &'a [Token],
    end: usize,
) -> Result<(Part, &'a [Token]), SyntaxRefusal>
    ensures { Reads (λ x. (x.0, x.1.now)) result (table_of_tokens (usual end) word.now rest.now) }
{
    let line = word.line;
    let (name, rest) = name_at(end, rest)?;
    let rest = expect(end, Mark::Equals, rest)?;
    let (variable, rest) = name_at(end, rest)?;
    let rest = expect(end, Mark::In, rest)?;
    let (source, rest) = formula(alloc, rest, end)?;
    let rest = expect(end, Mark::OpenBrace, rest)?;
    let (shows, rest) = shows(alloc, rest, end)?;
    Ok((
        Part::Table {
            line,
            name,
            variable,
            source,
            shows,
        },
        rest,
    ))
}

// The part that begins with a token of that mark.
#[tactic(auto, unfolding(sheet_define_reading::specs::Reading::part_by))]
fn part_by<'a>(
    alloc: Global,
    mark: Mark,
    word: &Token,
    rest: &'a [Token],
    end: usize,
) -> Result<(Part, &'a [Token]), SyntaxRefusal>
    ensures { Reads (λ x. (x.0, x.1.now)) result (part_of_mark (usual end) word.now rest.now mark) }
{
    match mark {
        Mark::Show => {
            let (show, rest) = show(alloc, word, rest, end)?;
            Ok((Part::Show(show), rest))
        }
        Mark::Table => table(alloc, word, rest, end),
        _ => Err(SyntaxRefusal::Expected(word.start)),
    }
}

// The parts up to a closing brace.
fn parts<'a>(
    alloc: Global,
    rest: &'a [Token],
    text_length: usize,
) -> Result<(Items<Part>, &'a [Token]), SyntaxRefusal>
    ensures { Reads (λ x. (x.0, x.1.now)) result (many text_length (part_of_mark (usual text_length)) (length rest.now) rest.now) }
{
    let mut list = Items::new(alloc);
    let mut remaining = rest;
    for _ in 0..rest.len() {
        let Some((token, behind)) = remaining.split_first() else {
            return Err(SyntaxRefusal::Expected(text_length));
        };
        let mark = mark_of(&token.kind);
        if mark == Mark::CloseBrace {
            return Ok((list, behind));
        }
        let (next, others) = match part_by(alloc, mark, token, behind, text_length) {
            Ok(read) => read,
            Err(refusal) => return Err(refusal),
        };
        list.push(next)?;
        remaining = others;
    }
    Err(SyntaxRefusal::Expected(offset(text_length, remaining)))
}

#[tactic(auto, unfolding(sheet_define_reading::specs::Reading::view))]
pub(crate) fn view<'a>(
    alloc: Global,
    word: &Token,
    rest: &'a [Token],
    end: usize,
) -> Result<(View, &'a [Token]), SyntaxRefusal>
    ensures { Reads (λ x. (x.0, x.1.now)) result (view_of_tokens (usual end) word.now rest.now) }
{
    let line = word.line;
    let (name, rest) = name_at(end, rest)?;
    let (parameters, rest) = parameters(alloc, rest, end)?;
    let (allow, rest) = allow(alloc, rest, end)?;
    let rest = expect(end, Mark::OpenBrace, rest)?;
    let (parts, rest) = parts(alloc, rest, end)?;
    Ok((
        View {
            line,
            name,
            parameters,
            allow,
            parts,
        },
        rest,
    ))
}
