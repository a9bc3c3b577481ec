ghost use Rattle.std.specs.Prelude.{◌≡◌, ◌↔◌, IsTrue};
ghost use Rattle.cfi_layout.specs.LongSet.{AreShorts, IsShort};

/// A branch that may be written short, as one word.
#[derive(Clone, Copy)]
pub struct Short {
    /// The number of its part, from 0.
    pub at: u32,
    /// The number of its target's part.
    pub target: u32,
    /// How many bytes the words of its lead have, before it in its part.
    pub lead: u32,
    /// Whether it is to be long wherever it stands.
    pub keep: bool,
}

/// Whether a branch may be one of parts of these sizes, in bytes.
fn is_short(sizes: &[u32], branch: Short) -> bool
    ensures { IsTrue result ↔ IsShort sizes.now branch }
{
    let at = branch.at as usize;
    let target = branch.target as usize;
    at < sizes.len() && target < sizes.len() && u64::from(sizes[at]) == u64::from(branch.lead) + 8
}

/// Whether these may be branches of parts of these sizes, in bytes: what `shorten` asks of them.
pub fn are_shorts(sizes: &[u32], branches: &[Short]) -> bool
    ensures { IsTrue result ↔ AreShorts branches.now sizes.now }
{
    for branch in branches {
        if !is_short(sizes, *branch) {
            return false;
        }
    }
    true
}
