//! What is printed of a definition reads back as the same definition, but for the lines that its parts stand in.
#![tactic(auto)]

mod law;

pub use law::{a_printed_definition_reads_back, the_examples_and_the_club_have_their_lengths};
