//! Codes of either version with words changed, how the verifier answers them, and the walks of those that it accepts.

use cfi_graph::Graph;
use cfi_verify::Checked;
use rv_image::ImageVersion;
use sample_programs::{PROLOGUE, PROLOGUE_OF_HARTS};
use sample_runs::{code_with, is_code_told, walks_so};
use std::alloc::Global;

/// Words of a code, by their offsets in it.
pub(crate) type Words = &'static [(usize, u32)];

/// Where a walk goes after the opening, then an address, and whether it goes there as well.
pub(crate) type Went = (&'static [u64], u64, bool);

/// The code of a version's prologue and some units, with words put at their offsets in it.
pub(crate) fn code_of(
    alloc: Global,
    version: ImageVersion,
    units: &[u32],
    words: &[(usize, u32)],
) -> Option<Vec<u8>> {
    match version {
        ImageVersion::OneHart => code_with(alloc, &PROLOGUE, units, words),
        ImageVersion::EightHarts => code_with(alloc, &PROLOGUE_OF_HARTS, units, words),
    }
}

/// Whether an image of a version, which has the prologue of that version, is answered so.
pub(crate) fn is_answered(
    alloc: Global,
    version: ImageVersion,
    units: &[u32],
    words: &[(usize, u32)],
    graph: &Graph,
    told: &str,
) -> bool {
    match code_of(alloc, version, units, words) {
        Some(code) => is_code_told(alloc, version, &code, graph, told),
        None => false,
    }
}

/// Whether a pair has the walks of rows.
pub(crate) fn are_walked(alloc: Global, checked: &Checked<'_>, rows: &[Went]) -> bool {
    for row in rows {
        if !walks_so(alloc, checked, row) {
            return false;
        }
    }
    true
}
