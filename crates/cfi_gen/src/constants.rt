/// How many functions the program has, beside `main`.
pub const FUNCTIONS: u16 = 2000;

/// How many bytes the table of their addresses has.
pub(crate) const TABLE_SIZE: u32 = 16000;

/// The number of the symbol `table`.
pub(crate) const TABLE_SYMBOL: u32 = 2;

/// The number of the first function's symbol.
pub(crate) const FIRST_SYMBOL: u32 = 3;
