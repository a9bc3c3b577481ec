//! Where the parts of an image stand: of version 1, which is for one hart, and of version 2, which is for several; under graphs of
//! versions 1 and 2, and, where the name begins with LEAN, of version 3.
//! Definitions have these addresses and sizes from here, by `specs/MemoryMap.antt`.

/// Where a run starts, in all versions: at the prologue's opening.
pub const START: u64 = 0x4000_000c;
/// Where the opening calls the program's entry, in version 1.
pub const OPENING_CALL: u64 = 0x4000_0034;
/// Where the program returns to, the prologue's closing, in version 1.
pub const CLOSING: u64 = 0x4000_0038;
/// Where the first unit stands, after the prologue, in version 1.
pub const UNITS_START: u64 = 0x4000_0040;

/// How many harts an image of version 2 has at most.
pub const MOST_HARTS: u64 = 8;
/// How many bytes the shadow stack has in version 2: a part for each hart.
pub const SHADOW_SIZE_OF_HARTS: u64 = 0x8_0000;
/// Where the opening calls the program's entry, in version 2.
pub const OPENING_CALL_OF_HARTS: u64 = 0x4000_0044;
/// Where the program returns to, in version 2.
pub const CLOSING_OF_HARTS: u64 = 0x4000_0048;
/// Where the first unit stands, in version 2.
pub const UNITS_START_OF_HARTS: u64 = 0x4000_0050;

/// Where the opening calls the program's entry, in version 1 under a graph of version 3.
pub const LEAN_OPENING_CALL: u64 = 0x4000_0020;
/// Where the program returns to, in version 1 under a graph of version 3.
pub const LEAN_CLOSING: u64 = 0x4000_0024;
/// Where the first unit stands, in version 1 under a graph of version 3.
pub const LEAN_UNITS_START: u64 = 0x4000_002c;

/// Where the opening calls the program's entry, in version 2 under a graph of version 3.
pub const LEAN_OPENING_CALL_OF_HARTS: u64 = 0x4000_0030;
/// Where the program returns to, in version 2 under a graph of version 3.
pub const LEAN_CLOSING_OF_HARTS: u64 = 0x4000_0034;
/// Where the first unit stands, in version 2 under a graph of version 3.
pub const LEAN_UNITS_START_OF_HARTS: u64 = 0x4000_003c;
