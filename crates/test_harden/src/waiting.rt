//! Images that take a number of steps.

use rv_word::NoMemory;
use sample_calls::{add_image, add_image_of_harts};
use std::alloc::{AllocError, Global};
use tool_io::MemFiles;

/// So many instructions that do nothing, and then an exit with 7.
fn waiting(alloc: Global, count: u32) -> Result<Vec<u32>, AllocError> {
    let mut units = Vec::new(alloc);
    for _ in 0..count {
        units.push(0x0000_0013)?;
    }
    units.extend_from_slice(&[0x0070_0513, 0x05d0_0893, 0x0000_0073])?;
    Ok(units)
}

/// Adds the image of a row: its name, how many instructions it has before the last three, and whether it is for several harts.
pub(crate) fn add_waiting(
    alloc: Global,
    files: &mut MemFiles,
    row: &(&str, u32, bool),
) -> Result<(), NoMemory> {
    let units = waiting(alloc, row.1)?;
    if row.2 {
        add_image_of_harts(alloc, files, &(row.0, &units, b""))
    } else {
        add_image(alloc, files, &(row.0, &units, b""))
    }
}
