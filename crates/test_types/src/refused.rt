// Why a definition has no book.
use sheet_define::DefinitionRefusal;
use sheet_types::TypeRefusal;
use sheet_values::{Name, NoMemory};
use std::alloc::Global;

/// Why a text is no definition.
pub fn unread(alloc: Global, refusal: &DefinitionRefusal) -> Result<String, NoMemory> {
    match refusal {
        DefinitionRefusal::NoMemory => Err(NoMemory),
        _ => Ok(format!(in alloc; "no definition")?),
    }
}

/// The words of a refusal, with the line or the column.
pub fn refused(alloc: Global, refusal: &TypeRefusal) -> Result<String, NoMemory> {
    match refusal {
        TypeRefusal::Doubled(line) => on_line(alloc, "doubled name", *line),
        TypeRefusal::TooDeep(line) => on_line(alloc, "too deep", *line),
        TypeRefusal::TooMany(line) => on_line(alloc, "too many columns", *line),
        TypeRefusal::UnknownName(line) => on_line(alloc, "unknown name", *line),
        TypeRefusal::Mismatch(line, wanted, found) => mismatch(alloc, *line, wanted, found),
        TypeRefusal::NeedsFirst(path) => of_column(alloc, "needs first value", path),
        TypeRefusal::NeedsType(path) => of_column(alloc, "needs type", path),
        TypeRefusal::DeclaredOther(path, declared, found) => other(alloc, path, declared, found),
        TypeRefusal::NoMemory => Err(NoMemory),
    }
}

fn on_line(alloc: Global, words: &str, line: u32) -> Result<String, NoMemory> {
    Ok(format!(in alloc; "{words}, line {line}")?)
}

fn of_column(alloc: Global, words: &str, path: &Name) -> Result<String, NoMemory> {
    Ok(format!(in alloc; "{words}, column {}", path.text())?)
}

fn mismatch(alloc: Global, line: u32, wanted: &Name, found: &Name) -> Result<String, NoMemory> {
    Ok(format!(in alloc;
        "wanted {}, found {}, line {line}",
        wanted.text(),
        found.text()
    )?)
}

fn other(alloc: Global, path: &Name, declared: &Name, found: &Name) -> Result<String, NoMemory> {
    Ok(format!(in alloc;
        "declared {}, found {}, column {}",
        declared.text(),
        found.text(),
        path.text()
    )?)
}
