//! The memory map in numbers: where the regions begin and end, as addresses and bytes. Definitions
//! have them from here, by `specs/MemoryMap.antt`.

/// Where an image's initialised data begin.
pub const DATA_START: u64 = 0x1_0000;
/// The end of data, which begin at 0: 2^28 + 4096, so that a store at a masked address stays in them.
pub const DATA_END: u64 = 0x1000_1000;

/// Where code begins.
pub const CODE_START: u64 = 0x4000_0000;
/// How many bytes the region of code has.
pub const CODE_SIZE: u64 = 0x10_0000;
/// How many bytes past code loads may read, which are zero and of no region.
pub const CODE_TAIL: u64 = 8;

/// Where the shadow stack begins.
pub const SHADOW_START: u64 = 0x6000_0000;
/// How many bytes of the shadow stack belong to one hart.
pub const PART_SIZE: u64 = 0x1_0000;
/// How many bytes the shadow stack has in version 1, which is for one hart.
pub const SHADOW_SIZE: u64 = PART_SIZE;
