//! The statuses with which the program ends.

/// All is well: the files are written, the image is accepted, its run came to its exit, or both programs ended alike; or help or
/// the version was asked for.
pub const WELL: u8 = 0;

/// A file, the entry or the policy is refused, the image is rejected, or the two programs differ.
pub const REFUSED: u8 = 1;

/// The words are not taken.
pub const USAGE: u8 = 2;

/// A file could not be read.
pub const READ_FAULT: u8 = 3;

/// A file or the output could not be written.
pub const WRITE_FAULT: u8 = 4;

/// There was no memory: also where there is none for the words, which the program reads itself.
pub const NO_MEMORY: u8 = 5;

/// A file has too many bytes.
pub const TOO_LONG: u8 = 6;

/// The run came to a handler: a transfer was not the graph's, a system call not in its list, the shadow stack full, or a stop reached.
pub const HANDLER: u8 = 10;

/// The run came to the program's own EBREAK, or loaded from outside memory.
pub const BROKEN: u8 = 11;

/// The program, before it was hardened, takes no such step: it leaves its graph, its list, its window of data, its depth of calls or a
/// section's end.
pub const UNTAME: u8 = 13;

/// The run, or the program's own, took as many steps as it may.
pub const STEP_LIMIT: u8 = 12;
