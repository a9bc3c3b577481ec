//! Walks along trails.

use cfi_verify::Checked;
use cfi_walk::{Followed, Walk, follow, follow_all};
use std::alloc::Global;

/// Where a walk goes, how many sites are pending there, and which is the newest.
pub type Step = (u64, usize, Option<u64>);

/// Whether a walk goes on to an address, with so many sites pending then, and this one the newest.
fn goes_on(checked: &Checked<'_>, walk: &mut Walk, row: &Step) -> bool {
    matches!(follow(checked, walk, row.0), Followed::Yes)
        && walk.address() == row.0
        && walk.depth() == row.1
        && walk.newest() == row.2
}

/// Whether a walk stays where it is, with the sites that are pending.
fn stays(checked: &Checked<'_>, walk: &mut Walk, pc: u64) -> bool {
    let (address, depth, newest) = (walk.address(), walk.depth(), walk.newest());
    matches!(follow(checked, walk, pc), Followed::No)
        && walk.address() == address
        && walk.depth() == depth
        && walk.newest() == newest
}

/// Whether a walk goes to none of these addresses.
fn stays_from(checked: &Checked<'_>, walk: &mut Walk, nowhere: &[u64]) -> bool {
    for pc in nowhere {
        if !stays(checked, walk, *pc) {
            return false;
        }
    }
    true
}

/// Whether a walk goes along a trail, and from none of its places to any of the other addresses.
fn goes_along(checked: &Checked<'_>, walk: &mut Walk, trail: &[Step], nowhere: &[u64]) -> bool {
    for row in trail {
        if !stays_from(checked, walk, nowhere) || !goes_on(checked, walk, row) {
            return false;
        }
    }
    stays_from(checked, walk, nowhere)
}

/// The same of a walk from the opening on.
pub fn walks_along(alloc: Global, checked: &Checked<'_>, trail: &[Step], nowhere: &[u64]) -> bool {
    match Walk::new(alloc) {
        Ok(mut walk) => goes_along(checked, &mut walk, trail, nowhere),
        Err(_) => false,
    }
}

/// Whether a walk goes on to each address of a row's trail, and then to its last address, or not, as it says.
fn goes_so(checked: &Checked<'_>, walk: &mut Walk, row: &(&[u64], u64, bool)) -> bool {
    if !follow_all(checked, walk, row.0) {
        return false;
    }
    if row.2 {
        matches!(follow(checked, walk, row.1), Followed::Yes)
    } else {
        stays(checked, walk, row.1)
    }
}

/// The same of a walk from the opening on.
pub fn walks_so(alloc: Global, checked: &Checked<'_>, row: &(&[u64], u64, bool)) -> bool {
    match Walk::new(alloc) {
        Ok(mut walk) => goes_so(checked, &mut walk, row),
        Err(_) => false,
    }
}
