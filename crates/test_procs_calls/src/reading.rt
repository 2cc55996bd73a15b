// Workbooks of texts.
use crate::Filled;
use sheet_define::{Definition, DefinitionRefusal, read_definition};
use sheet_types::{TypeRefusal, elaborate};
use sheet_types_outline::is_orderly;
use sheet_values::NoMemory;
use std::alloc::Global;

/// The workbook of the definition that a text stands for, at its start; none where it has no book.
pub fn workbook(alloc: Global, text: &[u8]) -> Result<Option<Filled>, NoMemory> {
    match read_definition(alloc, text) {
        Ok(definition) => of_definition(alloc, &definition),
        Err(DefinitionRefusal::NoMemory) => Err(NoMemory),
        Err(_) => Ok(None),
    }
}

// The workbook of a definition.
fn of_definition(alloc: Global, definition: &Definition) -> Result<Option<Filled>, NoMemory> {
    if !is_orderly(definition) {
        return Ok(None);
    }
    match elaborate(alloc, definition) {
        Ok(book) => Ok(Some(Filled::new(alloc, book)?)),
        Err(TypeRefusal::NoMemory) => Err(NoMemory),
        Err(_) => Ok(None),
    }
}
