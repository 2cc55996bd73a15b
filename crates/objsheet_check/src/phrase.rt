// The lines that are printed of a definition.
ghost use Rattle.std.specs.Prelude.{◌≡◌, Some, IfOk};
ghost use Rattle.objsheet_check.specs.Refusals.{syntax_line as line_of_syntax, definition_line as line_of_definition, type_line as line_of_type, placed as placed_at, on_line as stands_on_line, of_column as stands_of_column, mismatched, declared_other};
ghost use Rattle.objsheet_check.specs.Checking.{book_line as line_of_book};

use sheet_books::Book;
use sheet_define::{DefinitionRefusal, SyntaxRefusal};
use sheet_types_formulas::TypeRefusal;
use sheet_values::NoMemory;
use std::alloc::Global;

/// The line of a book: how many columns, the root counted, procedures and views it has.
pub fn book_line(alloc: Global, book: &Book) -> Result<Vec<u8>, NoMemory>
    ensures { IfOk result (λ line. line.items ≡ line_of_book book.now) }
{
    let columns = book.columns().count();
    let (procedures, views) = (book.procedures(), book.views());
    let line = format!(in alloc; "ok columns={columns} procedures={procedures} views={views}\n")?;
    Ok(line.into_bytes())
}

// A cause, with the line of the text and the offset where it stands.
fn placed(alloc: Global, cause: &str, line: u32, offset: usize) -> Result<Vec<u8>, NoMemory>
    ensures { IfOk result (λ text. text.items ≡ placed_at cause.now line offset) }
{
    let text = format!(in alloc; "refused: {cause}, line {line}, offset {offset}\n")?;
    Ok(text.into_bytes())
}

// A cause, with the line of the text where it stands.
fn on_line(alloc: Global, cause: &str, line: u32) -> Result<Vec<u8>, NoMemory>
    ensures { IfOk result (λ text. text.items ≡ stands_on_line cause.now line) }
{
    let text = format!(in alloc; "refused: {cause}, line {line}\n")?;
    Ok(text.into_bytes())
}

// Why tokens are no definition.
fn syntax_line(alloc: Global, refusal: SyntaxRefusal, line: u32) -> Result<Vec<u8>, NoMemory>
    ensures { IfOk result (λ text. line_of_syntax refusal line ≡ Some text.items) }
{
    match refusal {
        SyntaxRefusal::BadToken(offset) => placed(alloc, "bad token", line, offset),
        SyntaxRefusal::NumberTooWide(offset) => placed(alloc, "number too wide", line, offset),
        SyntaxRefusal::Expected(offset) => placed(alloc, "expected other", line, offset),
        SyntaxRefusal::TooNested(offset) => placed(alloc, "too nested", line, offset),
        SyntaxRefusal::NoMemory => Err(NoMemory),
    }
}

/// The line that says why a text stands for no definition.
pub fn definition_line(alloc: Global, refusal: DefinitionRefusal) -> Result<Vec<u8>, NoMemory>
    ensures { IfOk result (λ text. line_of_definition refusal ≡ Some text.items) }
{
    match refusal {
        DefinitionRefusal::TooLong(_) => {
            let text = format!(in alloc; "refused: too long, limit 262144\n")?;
            Ok(text.into_bytes())
        }
        DefinitionRefusal::NotUtf8(offset) => {
            let text = format!(in alloc; "refused: not utf-8, offset {offset}\n")?;
            Ok(text.into_bytes())
        }
        DefinitionRefusal::Syntax(refusal, line) => syntax_line(alloc, refusal, line),
        DefinitionRefusal::NoMemory => Err(NoMemory),
    }
}

// A part of another type than the wanted one.
fn mismatch_line(alloc: Global, line: u32, wanted: &str, found: &str) -> Result<Vec<u8>, NoMemory>
    ensures { IfOk result (λ text. text.items ≡ mismatched line wanted.now found.now) }
{
    let text = format!(in alloc;
        "refused: mismatch, line {line}, wanted {wanted}, found {found}\n"
    )?;
    Ok(text.into_bytes())
}

// A column, with its declared type and that of its formula.
fn declared_line(
    alloc: Global,
    path: &str,
    declared: &str,
    found: &str,
) -> Result<Vec<u8>, NoMemory>
    ensures { IfOk result (λ text. text.items ≡ declared_other path.now declared.now found.now) }
{
    let text = format!(in alloc; "refused: column {path}, declared {declared}, found {found}\n")?;
    Ok(text.into_bytes())
}

// A cause, with the path of the column that has it.
fn of_column(alloc: Global, cause: &str, path: &str) -> Result<Vec<u8>, NoMemory>
    ensures { IfOk result (λ text. text.items ≡ stands_of_column cause.now path.now) }
{
    let text = format!(in alloc; "refused: {cause}, column {path}\n")?;
    Ok(text.into_bytes())
}

/// The line that says why a definition has no book.
pub fn type_line(alloc: Global, refusal: &TypeRefusal) -> Result<Vec<u8>, NoMemory>
    ensures { IfOk result (λ text. line_of_type refusal.now ≡ Some text.items) }
{
    match refusal {
        TypeRefusal::Doubled(line) => on_line(alloc, "doubled name", *line),
        TypeRefusal::TooDeep(line) => on_line(alloc, "too deep", *line),
        TypeRefusal::TooMany(line) => on_line(alloc, "too many columns", *line),
        TypeRefusal::UnknownName(line) => on_line(alloc, "unknown name", *line),
        TypeRefusal::Mismatch(line, wanted, found) => {
            mismatch_line(alloc, *line, wanted.text(), found.text())
        }
        TypeRefusal::NeedsFirst(path) => of_column(alloc, "needs first value", path.text()),
        TypeRefusal::NeedsType(path) => of_column(alloc, "needs type", path.text()),
        TypeRefusal::DeclaredOther(path, declared, found) => {
            declared_line(alloc, path.text(), declared.text(), found.text())
        }
        TypeRefusal::NoMemory => Err(NoMemory),
    }
}
