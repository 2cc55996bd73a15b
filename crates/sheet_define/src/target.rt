// Targets.
ghost use Rattle.std.specs.Prelude.{◌≡◌, length};
ghost use Rattle.sheet_syntax_trees.specs.Tokens.{Reads};
ghost use Rattle.sheet_define_reading.specs.Reading.{usual, last_step as last_of_steps, target as target_of_tokens};

use crate::front::{alone, expect};
use sheet_define_data::Target;
use sheet_define_reading::Mark;
use sheet_syntax::{Formed, SyntaxRefusal, Token, atom_at, line_of, made, offset, step};
use std::alloc::Global;

// The steps behind a formula that begins at that offset and line, of which the last is the column.
fn last_step<'a>(
    alloc: Global,
    at: usize,
    line: u32,
    first: Formed,
    rest: &'a [Token],
    text_length: usize,
) -> Result<(Target, &'a [Token]), SyntaxRefusal>
    ensures { Reads (λ x. (x.0, x.1.now)) result (last_of_steps (usual text_length) (length rest.now) at line first rest.now) }
{
    let mut formed = first;
    let mut remaining = rest;
    for _ in 0..rest.len() {
        let behind = match expect(text_length, Mark::Dot, remaining) {
            Ok(behind) => behind,
            Err(refusal) => return Err(refusal),
        };
        if let Some((name, others)) = alone(behind) {
            let column = name.copy()?;
            let object = Some(formed.tree);
            return Ok((
                Target {
                    line,
                    object,
                    column,
                },
                others,
            ));
        }
        let Some((token, others)) = behind.split_first() else {
            return Err(SyntaxRefusal::Expected(text_length));
        };
        let deepest = formed.depth;
        let tree = match step(alloc, line, formed.tree, token) {
            Ok(tree) => tree,
            Err(refusal) => return Err(refusal),
        };
        match made(at, tree, deepest) {
            Ok(longer) => formed = longer,
            Err(refusal) => return Err(refusal),
        }
        remaining = others;
    }
    Err(SyntaxRefusal::Expected(offset(text_length, remaining)))
}

#[tactic(auto, unfolding(sheet_define_reading::specs::Reading::target))]
pub(crate) fn target<'a>(
    alloc: Global,
    rest: &'a [Token],
    end: usize,
) -> Result<(Target, &'a [Token]), SyntaxRefusal>
    ensures { Reads (λ x. (x.0, x.1.now)) result (target_of_tokens (usual end) rest.now) }
{
    let line = line_of(rest);
    if let Some((name, behind)) = alone(rest) {
        let column = name.copy()?;
        return Ok((
            Target {
                line,
                object: None,
                column,
            },
            behind,
        ));
    }
    let (formed, behind) = atom_at(alloc, rest, end)?;
    last_step(alloc, offset(end, rest), line, formed, behind, end)
}
