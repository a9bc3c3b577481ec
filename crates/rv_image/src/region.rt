/// A region of the machine's memory. What each allows:
///
/// | region | load | store | fetch |
/// |---|---|---|---|
/// | data | yes | yes | no |
/// | code | yes | no | yes |
/// | shadow | yes | yes | no |
#[derive(Clone, Copy, PartialEq, Eq)]
pub enum Region {
    /// What the program reads and writes.
    Data,
    /// The image's instructions.
    Code,
    /// The shadow stack.
    Shadow,
}
