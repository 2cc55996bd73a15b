// What a text is refused with.
use sheet_syntax::SyntaxRefusal;
use sheet_values::NoMemory;
use std::alloc::Global;

/// The words of a refusal, and the offset.
pub fn refused(alloc: Global, refusal: SyntaxRefusal) -> Result<String, NoMemory> {
    let (words, offset) = match refusal {
        SyntaxRefusal::BadToken(offset) => ("bad token", offset),
        SyntaxRefusal::NumberTooWide(offset) => ("number too wide", offset),
        SyntaxRefusal::Expected(offset) => ("expected other", offset),
        SyntaxRefusal::TooNested(offset) => ("too nested", offset),
        SyntaxRefusal::NoMemory => return Err(NoMemory),
    };
    Ok(format!(in alloc; "{words}, offset {offset}")?)
}
