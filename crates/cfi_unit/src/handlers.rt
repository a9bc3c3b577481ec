//! The three handlers, in which a run halts that would leave its graph, and the depth of the shadow
//! stack. Definitions have these numbers from here.

/// Where computed transfers halt that would leave their class, and system calls that are not listed; a stop goes there.
pub const BAD_TARGET: u64 = 0x4000_0000;
/// Where returns halt that would not go to their call's site.
pub const BAD_RETURN: u64 = 0x4000_0004;
/// Where calls, and in lean images enters, halt that find the shadow stack full.
pub const DEEP: u64 = 0x4000_0008;
/// How many sites the shadow stack of a hart holds: as many as it has slots.
pub const MOST_PENDING: u64 = 8191;
