ghost use Rattle.std.specs.Prelude.{◌≡◌, length};

use cfi_graph::{Graph, read_graph};
use cfi_verify::{Checked, verify};
use rv_image::Image;
use sample_programs::{P, P_GRAPH, code};
use sample_runs::{Step, walks_along, walks_so};
use std::alloc::Global;

/// Where an undisturbed run of the program goes after the opening, how many sites are pending there,
/// and which is the newest.
static UNDISTURBED: [Step; 12] = [
    (0x40000040, 1, Some(0x40000038)),
    (0x40000044, 1, Some(0x40000038)),
    (0x40000054, 1, Some(0x40000038)),
    (0x40000058, 1, Some(0x40000038)),
    (0x4000005c, 1, Some(0x40000038)),
    (0x400000c8, 2, Some(0x400000ac)),
    (0x400000cc, 2, Some(0x400000ac)),
    (0x400000d0, 2, Some(0x400000ac)),
    (0x400000ac, 1, Some(0x40000038)),
    (0x400000b0, 1, Some(0x40000038)),
    (0x400000b4, 1, Some(0x40000038)),
    (0x40000038, 0, None),
];

/// Where a walk goes after the opening, then an address, and whether it goes there as well.
static WALKS: [(&[u64], u64, bool); 7] = [
    // With main's saved return address changed, with a place in no class for the pointer, and with the
    // other member of its class.
    (
        &[
            0x40000040, 0x40000044, 0x40000054, 0x40000058, 0x4000005c, 0x400000c8, 0x400000cc,
            0x400000d0, 0x400000ac, 0x400000b0, 0x400000b4,
        ],
        0x40000004,
        true,
    ),
    (
        &[0x40000040, 0x40000044, 0x40000054, 0x40000058, 0x4000005c],
        0x40000000,
        true,
    ),
    (
        &[
            0x40000040, 0x40000044, 0x40000054, 0x40000058, 0x4000005c, 0x400000e4, 0x400000e8,
            0x400000ec, 0x400000ac, 0x400000b0, 0x400000b4,
        ],
        0x40000038,
        true,
    ),
    // A unit that is not the entry, the middle of a unit, a unit that is in no class, a pending site that is
    // not the newest.
    (&[], 0x40000044, false),
    (&[], 0x40000048, false),
    (
        &[0x40000040, 0x40000044, 0x40000054, 0x40000058, 0x4000005c],
        0x400000cc,
        false,
    ),
    (
        &[
            0x40000040, 0x40000044, 0x40000054, 0x40000058, 0x4000005c, 0x400000c8, 0x400000cc,
            0x400000d0,
        ],
        0x40000038,
        false,
    ),
];

/// Whether a pair has the walks above, and stops where it has to.
fn has_these_walks(alloc: Global, checked: &Checked<'_>) -> bool {
    for row in &WALKS {
        if !walks_so(alloc, checked, row) {
            return false;
        }
    }
    walks_along(alloc, checked, &UNDISTURBED, &[])
}

/// Whether the program is accepted, and its pair has these walks.
fn has_walks(alloc: Global) -> bool {
    match code(alloc, &P) {
        Ok(bytes) => is_code_walked_so(alloc, &bytes),
        Err(_) => false,
    }
}

/// Whether code is accepted with the program's graph, and the pair has these walks.
fn is_code_walked_so(alloc: Global, code: &[u8]) -> bool
    requires { length code.now ≡ 260 }
{
    match read_graph(alloc, P_GRAPH) {
        Ok(graph) => is_walked_so(alloc, &Image::of(code, &[]), &graph),
        Err(_) => false,
    }
}

/// Whether an image is accepted with a graph, and the pair has these walks.
fn is_walked_so(alloc: Global, image: &Image<'_>, graph: &Graph) -> bool {
    match verify(alloc, image, graph) {
        Ok(checked) => has_these_walks(alloc, &checked),
        Err(_) => false,
    }
}

#[test]
fn trails(rt: HostRuntime) {
    assert!(rt; has_walks(rt.alloc()));
}
