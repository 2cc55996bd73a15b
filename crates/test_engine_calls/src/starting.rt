// Engines of definitions that are given as texts, and columns that are given by their paths.
use sheet_books::Book;
use sheet_define::read_definition;
use sheet_engine::Engine;
use sheet_types::elaborate;
use sheet_types_outline::is_orderly;
use sheet_values::NoMemory;
use std::alloc::Global;

/// The workbook of a definition at its start; none where the text has no book.
pub fn started(alloc: Global, text: &[u8]) -> Result<Option<Engine>, NoMemory> {
    match read_definition(alloc, text) {
        Ok(definition) if is_orderly(&definition) => match elaborate(alloc, &definition) {
            Ok(book) => {
                let engine = Engine::new(alloc, book)?;
                Ok(Some(engine))
            }
            Err(_) => Ok(None),
        },
        _ => Ok(None),
    }
}

/// The column of a path, whose names are joined by dots.
pub fn column_at(book: &Book, path: &[u8]) -> Option<u32> {
    let mut column = 0;
    for name in path.split(|byte| *byte == b'.') {
        match book.columns().child_named(column, name) {
            Some(child) => column = child,
            None => return None,
        }
    }
    Some(column)
}
