//! Tests of what the program meets outside: sources and sinks, and readers and writers that fail.
#![tactic(auto)]

#[cfg(test)]
mod memory;
#[cfg(test)]
mod streams;
