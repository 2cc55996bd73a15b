//! Tests of disks: in memory, with calls that fail and images of crashes, and of the system.
#![tactic(auto)]

#[cfg(test)]
mod files_of_the_system;
#[cfg(test)]
mod images;
#[cfg(test)]
mod memory;
