//! CSV: rows of arguments from a file, and the page of a view as a file.
#![tactic(auto)]

mod export;
mod field;
mod header;
mod lines;
mod refusal;
mod rows;
mod words;

pub use export::export_page;
pub use refusal::CsvRefusal;
pub use rows::{LONGEST_FILE, RowList, read_rows};
