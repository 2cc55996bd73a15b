// The statuses of the program.

/// All was done: the definition is good, the input was read to its end, and a journal that is to be made was made.
pub const DONE: u8 = 0;

/// The definition, the input or the journal is refused, and the refusal was printed.
pub const REFUSED: u8 = 1;

/// The words are no command, and `usage` was printed.
pub const USAGE: u8 = 2;

/// The source failed.
pub const SOURCE_FAILED: u8 = 3;

/// The sink failed.
pub const SINK_FAILED: u8 = 4;

/// The disk failed.
pub const DISK_FAILED: u8 = 5;

/// There was no memory outside of an answered request.
pub const OUT_OF_MEMORY: u8 = 7;
