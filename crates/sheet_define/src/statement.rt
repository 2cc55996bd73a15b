// Statements, behind the word that begins them, and blocks of them.
ghost use Rattle.std.specs.Prelude.{◌≡◌, length};
ghost use Rattle.sheet_syntax_trees.specs.Tokens.{Reads};
ghost use Rattle.sheet_define_reading.specs.Reading.{usual, after as tokens_after, many, block as block_of_tokens, statement_by as statement_of_mark, otherwise as otherwise_of_tokens, let_statement as let_of_tokens, set_statement as set_of_tokens, add_statement as add_of_tokens, remove_statement as remove_of_tokens, new_statement as new_of_tokens, delete_statement as delete_of_tokens, check_statement as check_of_tokens, reply_statement as reply_of_tokens, if_statement as if_of_tokens, for_statement as for_of_tokens};

use crate::front::{after, expect, formula, text_at};
use crate::target::target;
use sheet_define_data::Statement;
use sheet_define_reading::{Mark, mark_of};
use sheet_syntax::{SyntaxRefusal, Token, Tree, name_at, offset};
use sqlite_items::Items;
use std::alloc::Global;

#[tactic(auto, unfolding(sheet_define_reading::specs::Reading::let_statement))]
fn let_statement<'a>(
    alloc: Global,
    word: &Token,
    rest: &'a [Token],
    end: usize,
) -> Result<(Statement, &'a [Token]), SyntaxRefusal>
    ensures { Reads (λ x. (x.0, x.1.now)) result (let_of_tokens (usual end) word.now rest.now) }
{
    let line = word.line;
    let (name, rest) = name_at(end, rest)?;
    let rest = expect(end, Mark::Equals, rest)?;
    let (value, rest) = formula(alloc, rest, end)?;
    Ok((Statement::Let { line, name, value }, rest))
}

#[tactic(auto, unfolding(sheet_define_reading::specs::Reading::set_statement))]
fn set_statement<'a>(
    alloc: Global,
    word: &Token,
    rest: &'a [Token],
    end: usize,
) -> Result<(Statement, &'a [Token]), SyntaxRefusal>
    ensures { Reads (λ x. (x.0, x.1.now)) result (set_of_tokens (usual end) word.now rest.now) }
{
    let line = word.line;
    let (target, rest) = target(alloc, rest, end)?;
    let rest = expect(end, Mark::Equals, rest)?;
    let (value, rest) = formula(alloc, rest, end)?;
    Ok((
        Statement::Set {
            line,
            target,
            value,
        },
        rest,
    ))
}

#[tactic(auto, unfolding(sheet_define_reading::specs::Reading::add_statement))]
fn add_statement<'a>(
    alloc: Global,
    word: &Token,
    rest: &'a [Token],
    end: usize,
) -> Result<(Statement, &'a [Token]), SyntaxRefusal>
    ensures { Reads (λ x. (x.0, x.1.now)) result (add_of_tokens (usual end) word.now rest.now) }
{
    let line = word.line;
    let (value, rest) = formula(alloc, rest, end)?;
    let rest = expect(end, Mark::To, rest)?;
    let (target, rest) = target(alloc, rest, end)?;
    Ok((
        Statement::Add {
            line,
            value,
            target,
        },
        rest,
    ))
}

#[tactic(auto, unfolding(sheet_define_reading::specs::Reading::remove_statement))]
fn remove_statement<'a>(
    alloc: Global,
    word: &Token,
    rest: &'a [Token],
    end: usize,
) -> Result<(Statement, &'a [Token]), SyntaxRefusal>
    ensures { Reads (λ x. (x.0, x.1.now)) result (remove_of_tokens (usual end) word.now rest.now) }
{
    let line = word.line;
    let (value, rest) = formula(alloc, rest, end)?;
    let rest = expect(end, Mark::From, rest)?;
    let (target, rest) = target(alloc, rest, end)?;
    Ok((
        Statement::Remove {
            line,
            value,
            target,
        },
        rest,
    ))
}

#[tactic(auto, unfolding(sheet_define_reading::specs::Reading::new_statement))]
fn new_statement<'a>(
    alloc: Global,
    word: &Token,
    rest: &'a [Token],
    end: usize,
) -> Result<(Statement, &'a [Token]), SyntaxRefusal>
    ensures { Reads (λ x. (x.0, x.1.now)) result (new_of_tokens (usual end) word.now rest.now) }
{
    let line = word.line;
    let (name, rest) = name_at(end, rest)?;
    let rest = expect(end, Mark::Equals, rest)?;
    let (target, rest) = target(alloc, rest, end)?;
    Ok((Statement::New { line, name, target }, rest))
}

#[tactic(auto, unfolding(sheet_define_reading::specs::Reading::delete_statement))]
fn delete_statement<'a>(
    alloc: Global,
    word: &Token,
    rest: &'a [Token],
    end: usize,
) -> Result<(Statement, &'a [Token]), SyntaxRefusal>
    ensures { Reads (λ x. (x.0, x.1.now)) result (delete_of_tokens (usual end) word.now rest.now) }
{
    let line = word.line;
    let (objects, rest) = formula(alloc, rest, end)?;
    Ok((Statement::Delete { line, objects }, rest))
}

#[tactic(auto, unfolding(sheet_define_reading::specs::Reading::check_statement))]
fn check_statement<'a>(
    alloc: Global,
    word: &Token,
    rest: &'a [Token],
    end: usize,
) -> Result<(Statement, &'a [Token]), SyntaxRefusal>
    ensures { Reads (λ x. (x.0, x.1.now)) result (check_of_tokens (usual end) word.now rest.now) }
{
    let line = word.line;
    let (condition, rest) = formula(alloc, rest, end)?;
    let rest = expect(end, Mark::Else, rest)?;
    let (message, rest) = text_at(end, rest)?;
    Ok((
        Statement::Check {
            line,
            condition,
            message,
        },
        rest,
    ))
}

#[tactic(auto, unfolding(sheet_define_reading::specs::Reading::reply_statement))]
fn reply_statement<'a>(
    alloc: Global,
    word: &Token,
    rest: &'a [Token],
    end: usize,
) -> Result<(Statement, &'a [Token]), SyntaxRefusal>
    ensures { Reads (λ x. (x.0, x.1.now)) result (reply_of_tokens (usual end) word.now rest.now) }
{
    let line = word.line;
    let (value, rest) = formula(alloc, rest, end)?;
    Ok((Statement::Reply { line, value }, rest))
}

// Behind the first block of an `if`.
#[cycle(statements)]
fn otherwise<'a>(
    alloc: Global,
    word: &Token,
    condition: Tree,
    body: Items<Statement>,
    rest: &'a [Token],
    end: usize,
    room: u32,
) -> Result<(Statement, &'a [Token]), SyntaxRefusal>
    ensures { Reads (λ x. (x.0, x.1.now)) result (otherwise_of_tokens (λ behind. block_of_tokens (usual end) room behind) word.now condition body rest.now (tokens_after Mark.Else rest.now)) }
{
    let line = word.line;
    match after(Mark::Else, rest) {
        None => Ok((
            Statement::If {
                line,
                condition,
                body,
            },
            rest,
        )),
        Some(rest) => {
            let (otherwise, rest) = block(alloc, rest, end, room)?;
            Ok((
                Statement::IfElse {
                    line,
                    condition,
                    body,
                    otherwise,
                },
                rest,
            ))
        }
    }
}

#[cycle(statements)]
#[tactic(auto, unfolding(sheet_define_reading::specs::Reading::if_statement))]
fn if_statement<'a>(
    alloc: Global,
    word: &Token,
    rest: &'a [Token],
    end: usize,
    room: u32,
) -> Result<(Statement, &'a [Token]), SyntaxRefusal>
    ensures { Reads (λ x. (x.0, x.1.now)) result (if_of_tokens (usual end) (λ behind. block_of_tokens (usual end) room behind) word.now rest.now) }
{
    let (condition, rest) = formula(alloc, rest, end)?;
    let (body, rest) = block(alloc, rest, end, room)?;
    otherwise(alloc, word, condition, body, rest, end, room)
}

#[cycle(statements)]
#[tactic(auto, unfolding(sheet_define_reading::specs::Reading::for_statement))]
fn for_statement<'a>(
    alloc: Global,
    word: &Token,
    rest: &'a [Token],
    end: usize,
    room: u32,
) -> Result<(Statement, &'a [Token]), SyntaxRefusal>
    ensures { Reads (λ x. (x.0, x.1.now)) result (for_of_tokens (usual end) (λ behind. block_of_tokens (usual end) room behind) word.now rest.now) }
{
    let line = word.line;
    let (name, rest) = name_at(end, rest)?;
    let rest = expect(end, Mark::In, rest)?;
    let (source, rest) = formula(alloc, rest, end)?;
    let (body, rest) = block(alloc, rest, end, room)?;
    Ok((
        Statement::For {
            line,
            name,
            source,
            body,
        },
        rest,
    ))
}

// The statement that begins with a token of that mark.
#[cycle(statements)]
#[tactic(auto, unfolding(sheet_define_reading::specs::Reading::statement_by))]
fn statement<'a>(
    alloc: Global,
    mark: Mark,
    word: &Token,
    rest: &'a [Token],
    end: usize,
    room: u32,
) -> Result<(Statement, &'a [Token]), SyntaxRefusal>
    ensures { Reads (λ x. (x.0, x.1.now)) result (statement_of_mark (usual end) (λ behind. block_of_tokens (usual end) room behind) word.now rest.now mark) }
{
    match mark {
        Mark::Let => let_statement(alloc, word, rest, end),
        Mark::Set => set_statement(alloc, word, rest, end),
        Mark::Add => add_statement(alloc, word, rest, end),
        Mark::Remove => remove_statement(alloc, word, rest, end),
        Mark::New => new_statement(alloc, word, rest, end),
        Mark::Delete => delete_statement(alloc, word, rest, end),
        Mark::Check => check_statement(alloc, word, rest, end),
        Mark::Reply => reply_statement(alloc, word, rest, end),
        Mark::If => if_statement(alloc, word, rest, end, room),
        Mark::For => for_statement(alloc, word, rest, end, room),
        _ => Err(SyntaxRefusal::Expected(word.start)),
    }
}

// The statements up to a closing brace, inside which so many blocks may be opened in each other.
#[cycle(statements)]
fn statements<'a>(
    alloc: Global,
    rest: &'a [Token],
    text_length: usize,
    room: u32,
) -> Result<(Items<Statement>, &'a [Token]), SyntaxRefusal>
    ensures { Reads (λ x. (x.0, x.1.now)) result (many text_length (statement_of_mark (usual text_length) (λ behind. block_of_tokens (usual text_length) room behind)) (length rest.now) rest.now) }
{
    let mut list = Items::new(alloc);
    let mut remaining = rest;
    for _ in 0..rest.len() {
        let Some((token, behind)) = remaining.split_first() else {
            return Err(SyntaxRefusal::Expected(text_length));
        };
        let mark = mark_of(&token.kind);
        if mark == Mark::CloseBrace {
            return Ok((list, behind));
        }
        let (next, others) = match statement(alloc, mark, token, behind, text_length, room) {
            Ok(read) => read,
            Err(refusal) => return Err(refusal),
        };
        list.push(next)?;
        remaining = others;
    }
    Err(SyntaxRefusal::Expected(offset(text_length, remaining)))
}

/// A block of statements. So many blocks, with it, may be opened in each other; `TooNested` at the brace that opens one
/// more.
#[cycle(statements)]
pub(crate) fn block<'a>(
    alloc: Global,
    rest: &'a [Token],
    end: usize,
    room: u32,
) -> Result<(Items<Statement>, &'a [Token]), SyntaxRefusal>
    ensures { Reads (λ x. (x.0, x.1.now)) result (block_of_tokens (usual end) room rest.now) }
{
    let behind = match expect(end, Mark::OpenBrace, rest) {
        Ok(behind) => behind,
        Err(refusal) => return Err(refusal),
    };
    if room == 0 {
        return Err(SyntaxRefusal::TooNested(offset(end, rest)));
    }
    statements(alloc, behind, end, room - 1)
}
