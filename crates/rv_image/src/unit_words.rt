//! How many words the units have that are more than one instruction. Units, the sizes of a program's places and their
//! definitions have these numbers from here.

/// A branch that leads over a jump.
pub const BRANCH_WORDS: u32 = 2;
/// A store behind a mask by shifts.
pub const STORE_WORDS: u32 = 4;
/// A return behind its comparison with the shadow stack.
pub const RETURN_WORDS: u32 = 5;
/// A call behind the push of its site.
pub const CALL_WORDS: u32 = 8;
/// A computed jump behind its check.
pub const IJUMP_WORDS: u32 = 13;
/// A computed call behind its check and the push of its site.
pub const ICALL_WORDS: u32 = 20;

/// A store behind a mask of one word, where a register holds the mask.
pub const SHORT_STORE_WORDS: u32 = 2;
/// A store behind one of two words, the first of which adds an offset.
pub const LONG_STORE_WORDS: u32 = 3;
/// What saves a call's site at the beginning of the function that it calls.
pub const ENTER_WORDS: u32 = 5;
/// A computed jump or call behind its check, where that makes the mask of stores again and the callee saves the site.
pub const LEAN_TRANSFER_WORDS: u32 = 15;
