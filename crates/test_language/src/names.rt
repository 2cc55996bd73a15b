// Names that are known in formulas, and others.
use crate::sheet::add_line;
use sheet_values::NoMemory;
use std::alloc::Global;
use test_language_words::{Scope, Trouble, formula, root_column, with_objects};

// Whether a text is a formula of a root with a column of objects, or why it is none.
fn told(alloc: Global, text: &str) -> Result<String, Trouble> {
    let columns = with_objects(alloc, root_column(alloc), "$", "T")?;
    let at = Scope {
        columns: &columns,
        home: None,
        names: "caller operator",
    };
    let word = match formula(alloc, at, text) {
        Ok(_) => "a formula",
        Err(Trouble::Unreadable) => "unreadable",
        Err(Trouble::UnknownName) => "unknown name",
        Err(Trouble::NoMemory) => return Err(Trouble::NoMemory),
    };
    Ok(String::from_str(alloc, word)?)
}

/// The lines of these examples.
pub fn add_lines(alloc: Global, out: &mut String) -> Result<(), Trouble> {
    add_line(out, "count(T)", told(alloc, "count(T)"))?;
    add_line(out, "count(U)", told(alloc, "count(U)"))?;
    add_line(out, "count(T", told(alloc, "count(T"))
}
