//! Rows of tests: an object, its map and how its run ends.

use sample_source::{Asked, Given, map, runs_as};
use std::alloc::Global;

/// The form of a map.
#[derive(Clone, Copy)]
pub(crate) enum Shape {
    Plain,
    Harts,
    Split,
    HartsSplit,
}

/// The first line of its maps, and the first gate.
fn head(shape: Shape) -> (&'static str, u32) {
    match shape {
        Shape::Plain => ("rvcfi-map 1", 0x4000_0040),
        Shape::Harts => ("rvcfi-map 2 harts", 0x4000_0050),
        Shape::Split => ("rvcfi-map 2 split", 0x4000_0040),
        Shape::HartsSplit => ("rvcfi-map 2 harts-split", 0x4000_0050),
    }
}

/// What is asked of an object under a policy: at a map of a form, which is told as `map` reads it, with an input, what it writes, and how
/// its run ends or which line is wrong.
pub(crate) struct Row(
    pub(crate) Given,
    pub(crate) &'static [u8],
    pub(crate) Shape,
    pub(crate) &'static [u8],
    pub(crate) &'static [u8],
    pub(crate) &'static [u8],
    pub(crate) &'static str,
);

/// Whether what a row tells is so.
pub(crate) fn is_right(alloc: Global, row: &Row) -> bool {
    let (line, first) = head(row.2);
    let Ok(text) = map(alloc, line, first, row.3) else {
        return false;
    };
    let asked = Asked {
        entry: b"main",
        policy: row.1,
        map: text.as_bytes(),
        input: row.4,
        output: row.5,
        told: row.6,
    };
    runs_as(alloc, &row.0, &asked)
}
