//! How long the printed texts of formulas and definitions are, without printing them.
//!
//! Each function `count_..` is given how many bytes were counted before, and gives how many they are with those of its own
//! text. What is past the greatest number of 64 bits counts as that number.
#![tactic(auto, using(crate::proofs::Sums::both))]

mod column;
mod definition;
mod formula;
mod head;
mod line;
mod statement;
mod words;

pub use definition::printed_length;
