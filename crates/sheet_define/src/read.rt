// Definitions of texts.
ghost use Rattle.std.specs.Prelude.{◌≡◌, ◌≤◌, ◌+◌, length, Ok};
ghost use Rattle.sheet_syntax_trees.specs.Tokens.{Reads};
ghost use Rattle.sheet_define_reading.specs.Reading.{definition_read};
ghost use Rattle.sheet_define.specs.Definitions.{line_at as line_of_offset, Defines, Placed};

use crate::declaration::declarations;
use sheet_define_data::Definition;
use sheet_syntax::{SyntaxRefusal, lex};
use sheet_values::LONGEST_DEFINITION;
use std::alloc::Global;
use std::str;

/// Why a text is no definition.
#[derive(Clone, Copy, Debug, PartialEq, Eq)]
pub enum DefinitionRefusal {
    /// It has this length, over `LONGEST_DEFINITION`.
    TooLong(usize),
    /// At this offset begins no UTF-8 character.
    NotUtf8(usize),
    /// Its tokens are refused, at an offset in this line, from 1.
    Syntax(SyntaxRefusal, u32),
    /// There was no memory.
    NoMemory,
}

// The line of an offset, from 1.
fn line_at(text: &[u8], offset: usize) -> u32
    requires { length text.now ≤ LONGEST_DEFINITION }
    ensures { result ≡ line_of_offset text.now offset }
{
    let (front, _) = text.split_at(offset.min(text.len()));
    let line_feeds = front.iter().filter(|byte| **byte == b'\n').count();
    1 + line_feeds as u32
}

fn placed(text: &[u8], refusal: SyntaxRefusal) -> DefinitionRefusal
    requires { length text.now ≤ LONGEST_DEFINITION }
    ensures { Placed text.now refusal result }
{
    match refusal {
        SyntaxRefusal::NoMemory => DefinitionRefusal::NoMemory,
        SyntaxRefusal::BadToken(offset)
        | SyntaxRefusal::NumberTooWide(offset)
        | SyntaxRefusal::Expected(offset)
        | SyntaxRefusal::TooNested(offset) => {
            DefinitionRefusal::Syntax(refusal, line_at(text, offset))
        }
    }
}

fn read_tokens(alloc: Global, text: &[u8]) -> Result<Definition, SyntaxRefusal>
    requires { length text.now ≤ LONGEST_DEFINITION }
    ensures { Reads (λ d. d.declarations) result (definition_read text.now) }
{
    let tokens = lex(alloc, text)?;
    let declarations = declarations(alloc, tokens.as_slice(), text.len())?;
    Ok(Definition { declarations })
}

/// The definition that a text stands for.
///
/// `TooLong` with its length where that is over `LONGEST_DEFINITION`; else `NotUtf8` with the offset of the first byte that begins
/// no UTF-8 character; else `Syntax` with the line of the offset that its refusal carries: `BadToken` and `NumberTooWide`
/// as of `lex`, `Expected` at the first token such that the tokens up to it begin no definition, or at the text's length
/// where it ends too early, and `TooNested` at the 33rd open bracket of a formula, at the first token of a form of depth
/// 33, or at the brace of the 17th open block of statements.
pub fn read_definition(alloc: Global, bytes: &[u8]) -> Result<Definition, DefinitionRefusal>
    ensures { Defines bytes.now result }
{
    if bytes.len() > LONGEST_DEFINITION {
        return Err(DefinitionRefusal::TooLong(bytes.len()));
    }
    if let Err(e) = str::from_utf8(bytes) {
        return Err(DefinitionRefusal::NotUtf8(e.valid_up_to()));
    }
    match read_tokens(alloc, bytes) {
        Ok(definition) => Ok(definition),
        Err(refusal) => Err(placed(bytes, refusal)),
    }
}
