//! The texts that formulas are printed as, which read back as the same formulas.
#![tactic(auto)]

mod formula;
mod law;
mod words;

pub use formula::{append_formula, append_operand, print_formula};
pub use law::a_printed_formula_reads_back;
pub use words::{append, append_number, append_quoted};
