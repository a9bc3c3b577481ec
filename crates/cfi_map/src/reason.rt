/// Why a program does not take its next step: what an untame step would do, in the order in which reasons are told.
#[derive(Clone, Copy, PartialEq, Eq)]
pub enum Reason {
    /// Go by a computed target that is not in the closed set.
    Graph,
    /// Return elsewhere than to its call's site.
    Return,
    /// Load or store outside of the window, or store where the base alone is masked and is not below its end.
    Window,
    /// Call with the most calls pending.
    Deep,
    /// Begin at the end of a section of code.
    End,
    /// Make a system call that is not in the list of the closed graph.
    Call,
}
