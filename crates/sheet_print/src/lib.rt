//! The printed workbook: for each object column its objects in a table.
#![tactic(auto)]

mod books;
mod cells;
mod columns;
mod field;
mod law;
mod lines;
mod objects;
mod tables;
mod widths;

pub use books::print_book;
pub use law::widths_count_characters;
