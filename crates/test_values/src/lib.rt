//! Tests of names, values, sets, lists of values and steps over their public calls.
#![tactic(auto)]

#[cfg(test)]
mod tests;
