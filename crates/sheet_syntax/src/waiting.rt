// The ifs that wait for their parts: a list of them, so that they may stand in each other however deeply.
ghost use Rattle.std.specs.Prelude.{◌≡◌, ◌≤◌, Ok};
ghost use Rattle.sheet_syntax_trees.specs.Tokens.{Reads};
ghost use Rattle.sheet_syntax.specs.Waiting.{Resumes, resumed_by, chosen_form};

use crate::front::{expect, made};
use crate::parser::Room;
use sheet_syntax_trees::{Formed, Sign, SyntaxRefusal, Token, Tree};
use sqlite_items::Boxed;
use std::alloc::Global;

/// The parts of an if that were read.
#[derive(Drop)]
pub(crate) enum Parts {
    Nothing,
    Condition(Formed),
    /// The condition and the first branch.
    Branch(Formed, Formed),
}

/// An if of which a part is still to be read.
#[derive(Drop)]
pub(crate) struct OpenIf {
    /// The offset of its first token.
    pub start: usize,
    pub line: u32,
    pub parts: Parts,
}

/// What the ifs that wait make of a formula.
pub(crate) enum Resumed<'a> {
    /// None waits any longer: the whole formula.
    Whole(Formed),
    /// The innermost waits for a further part, which begins there.
    Part(&'a [Token]),
}

// The if that begins there, of these parts.
fn choice(
    alloc: Global,
    start: usize,
    line: u32,
    condition: Formed,
    then: Formed,
    other: Formed,
) -> Result<Formed, SyntaxRefusal>
    ensures { Reads (λ f. f) result (chosen_form start line condition then other) }
{
    let deepest = condition.depth.max(then.depth.max(other.depth));
    let condition = Boxed::new(alloc, condition.tree)?;
    let then = Boxed::new(alloc, then.tree)?;
    let other = Boxed::new(alloc, other.tree)?;
    made(start, Tree::If(line, condition, then, other), deepest)
}

/// Gives a formula, which ends before these tokens, to the innermost if that waits.
pub(crate) fn resume<'a>(
    alloc: Global,
    waiting: &mut Vec<OpenIf>,
    first: Formed,
    rest: &'a [Token],
    room: Room,
) -> Result<Resumed<'a>, SyntaxRefusal>
    ensures { Resumes room.end room.turns room.brackets waiting.new.items rest.now result (resumed_by room.end room.turns room.brackets waiting.old.items (Ok (first, rest.now))) }
{
    let mut formed = first;
    while let Some(inner) = waiting.pop() {
        let OpenIf { start, line, parts } = inner;
        match parts {
            Parts::Nothing => {
                let behind = match expect(room.end, Sign::Then, rest) {
                    Ok(behind) => behind,
                    Err(refusal) => return Err(refusal),
                };
                let parts = Parts::Condition(formed);
                waiting.push(OpenIf { start, line, parts })?;
                return Ok(Resumed::Part(behind));
            }
            Parts::Condition(condition) => {
                let behind = match expect(room.end, Sign::Else, rest) {
                    Ok(behind) => behind,
                    Err(refusal) => return Err(refusal),
                };
                let parts = Parts::Branch(condition, formed);
                waiting.push(OpenIf { start, line, parts })?;
                return Ok(Resumed::Part(behind));
            }
            Parts::Branch(condition, then) => {
                match choice(alloc, start, line, condition, then, formed) {
                    Ok(whole) => formed = whole,
                    Err(refusal) => return Err(refusal),
                }
            }
        }
    }
    Ok(Resumed::Whole(formed))
}
