//! Tests of `init` on disks in memory: what it writes, the file that it makes, and what is left where something fails.
#![tactic(auto)]

#[cfg(test)]
mod faults;
#[cfg(test)]
mod tests;
