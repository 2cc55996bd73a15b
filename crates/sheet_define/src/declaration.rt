// The declarations of a definition.
ghost use Rattle.std.specs.Prelude.{◌≡◌, ◌+◌, ◌++◌, suc, OnOk};
ghost use Rattle.sheet_syntax_trees.specs.Tokens.{Reads};
ghost use Rattle.sheet_define_reading.specs.Reading.{usual, procedure as procedure_of_tokens, column_found, object_column as object_of_tokens, turn_by as turn_of_mark, outermost_by as outermost_of_mark, ended as ended_of_tokens, all_before, found_list, whole_definition};

use crate::column::{formula_column, object_column, state_column};
use crate::front::allow;
use crate::parameter::parameters;
use crate::statement::block;
use crate::types::path;
use crate::view::view;
use sheet_define_data::{Declaration, Procedure};
use sheet_define_reading::{Mark, mark_of};
use sheet_syntax::{SyntaxRefusal, Token, name_at, offset};
use sqlite_items::Items;
use std::alloc::{AllocError, Global};

// How many blocks of statements may be open.
const OPEN_BLOCKS: u32 = 16;

#[tactic(auto, unfolding(sheet_define_reading::specs::Reading::procedure))]
fn procedure<'a>(
    alloc: Global,
    word: &Token,
    rest: &'a [Token],
    end: usize,
) -> Result<(Procedure, &'a [Token]), SyntaxRefusal>
    ensures { Reads (λ x. (x.0, x.1.now)) result (procedure_of_tokens (usual end) 16 word.now rest.now) }
{
    let line = word.line;
    let (name, rest) = name_at(end, rest)?;
    let (parameters, rest) = parameters(alloc, rest, end)?;
    let (allow, rest) = allow(alloc, rest, end)?;
    let (body, rest) = block(alloc, rest, end, OPEN_BLOCKS)?;
    Ok((
        Procedure {
            line,
            name,
            parameters,
            allow,
            body,
        },
        rest,
    ))
}

// What a turn gives: a declaration or, at a closing brace, none; how many object columns are open then; and the tokens
// behind it.
type Turn<'a> = (Option<Declaration>, u32, &'a [Token]);

// An object column is opened, where so many are open. That they are more than 4,294,967,295 can't be, since texts are
// shorter.
fn opening<'a>(
    open: u32,
    word: &Token,
    rest: &'a [Token],
    end: usize,
) -> Result<Turn<'a>, SyntaxRefusal>
    ensures { Reads (λ x. (x.0, x.1, x.2.now)) result (column_found (suc «open») (object_of_tokens (usual end) «open» word.now rest.now)) }
{
    let Some(inside) = open.checked_add(1) else {
        return Err(SyntaxRefusal::NoMemory);
    };
    let (column, rest) = object_column(open, word, rest, end)?;
    Ok((Some(Declaration::Column(column)), inside, rest))
}

// A declaration that stands in no object column, and begins with a token of that mark.
#[tactic(auto, unfolding(sheet_define_reading::specs::Reading::outermost_by))]
fn outermost<'a>(
    alloc: Global,
    mark: Mark,
    word: &Token,
    rest: &'a [Token],
    end: usize,
) -> Result<Turn<'a>, SyntaxRefusal>
    ensures { Reads (λ x. (x.0, x.1, x.2.now)) result (outermost_of_mark (usual end) 16 word.now rest.now mark) }
{
    match mark {
        Mark::Callers => {
            let line = word.line;
            let (path, rest) = path(alloc, rest, end)?;
            Ok((Some(Declaration::Callers { line, path }), 0, rest))
        }
        Mark::Procedure => {
            let (procedure, rest) = procedure(alloc, word, rest, end)?;
            Ok((Some(Declaration::Procedure(procedure)), 0, rest))
        }
        Mark::View => {
            let (view, rest) = view(alloc, word, rest, end)?;
            Ok((Some(Declaration::View(view)), 0, rest))
        }
        _ => Err(SyntaxRefusal::Expected(word.start)),
    }
}

// One turn, at a token of that mark, where so many object columns are open.
#[tactic(auto, unfolding(sheet_define_reading::specs::Reading::turn_by))]
fn declaration_or_end<'a>(
    alloc: Global,
    open: u32,
    mark: Mark,
    word: &Token,
    rest: &'a [Token],
    end: usize,
) -> Result<Turn<'a>, SyntaxRefusal>
    ensures { Reads (λ x. (x.0, x.1, x.2.now)) result (turn_of_mark (usual end) 16 «open» word.now rest.now mark) }
{
    match mark {
        Mark::Object => opening(open, word, rest, end),
        Mark::State => {
            let (column, rest) = state_column(alloc, open, word, rest, end)?;
            Ok((Some(Declaration::Column(column)), open, rest))
        }
        Mark::Formula => {
            let (column, rest) = formula_column(alloc, open, word, rest, end)?;
            Ok((Some(Declaration::Column(column)), open, rest))
        }
        Mark::CloseBrace => {
            if open == 0 {
                return Err(SyntaxRefusal::Expected(word.start));
            }
            Ok((None, open - 1, rest))
        }
        _ => {
            if open == 0 {
                return outermost(alloc, mark, word, rest, end);
            }
            Err(SyntaxRefusal::Expected(word.start))
        }
    }
}

// Puts what a turn found at the end.
fn put(list: &mut Items<Declaration>, found: Option<Declaration>) -> Result<(), AllocError>
    ensures { OnOk result (list.new ≡ list.old ++ found_list found) }
{
    if let Some(declaration) = found {
        list.push(declaration)?;
    }
    Ok(())
}

/// All declarations that the tokens of a text of that length are.
pub(crate) fn declarations(
    alloc: Global,
    tokens: &[Token],
    text_length: usize,
) -> Result<Items<Declaration>, SyntaxRefusal>
    ensures { Reads (λ ds. ds) result (whole_definition text_length tokens.now) }
{
    let mut list = Items::new(alloc);
    let mut open = 0;
    let mut remaining = tokens;
    for _ in 0..tokens.len() {
        let Some((token, behind)) = remaining.split_first() else {
            return ended(list, open, text_length);
        };
        let (found, inside, others) = match declaration_or_end(
            alloc,
            open,
            mark_of(&token.kind),
            token,
            behind,
            text_length,
        ) {
            Ok(read) => read,
            Err(refusal) => return Err(refusal),
        };
        put(&mut list, found)?;
        open = inside;
        remaining = others;
    }
    match remaining.split_first() {
        None => ended(list, open, text_length),
        Some((token, _)) => Err(SyntaxRefusal::Expected(token.start)),
    }
}

// At the end of the text, where so many object columns are open.
fn ended(
    list: Items<Declaration>,
    open: u32,
    end: usize,
) -> Result<Items<Declaration>, SyntaxRefusal>
    ensures { Reads (λ ds. ds) result (all_before list (ended_of_tokens end «open»)) }
{
    if open == 0 {
        return Ok(list);
    }
    Err(SyntaxRefusal::Expected(end))
}
