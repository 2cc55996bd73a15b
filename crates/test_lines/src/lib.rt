//! Runs the public calls of `sheet_lines`, as tests alone.
#![tactic(auto)]

#[cfg(test)]
mod tests;
