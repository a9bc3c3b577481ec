use crate::unit::Unit;

/// What stands at an address of a hardened image's code.
#[derive(Clone, Copy)]
pub enum Place {
    /// One of the three handlers, which break.
    Handler,
    /// The start of every run, with the entry that it calls.
    Opening(u64),
    /// The exit after the entry returns.
    Closing,
    /// A unit.
    Body(Unit),
}
