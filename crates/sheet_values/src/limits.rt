// Limits that several crates test.

/// The greatest length of a definition in bytes.
pub const LONGEST_DEFINITION: usize = 262_144;
