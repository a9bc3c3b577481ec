/// How a system call ended.
#[derive(Clone, Copy, PartialEq, Eq)]
pub enum SysEnd {
    /// The run goes on at the next instruction.
    Goes,
    /// The run ended with this status.
    Exit(u8),
}
