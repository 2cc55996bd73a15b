//! Connections and listeners, in memory and over TCP.
#![tactic(auto)]

#[cfg(test)]
mod tests;
