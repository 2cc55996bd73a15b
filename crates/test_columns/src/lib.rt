//! Tests of the public calls of `sheet_columns`, which are proved apart from it since its proofs take long.
#![tactic(auto)]

#[cfg(test)]
mod tests;
