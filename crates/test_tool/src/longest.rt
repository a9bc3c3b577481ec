//! As much code as an image may have: instructions that do nothing, and a stop; and before these a jump by the second word of its
//! destination, which then may lie behind the code.

use rv_word::NoMemory;
use sample_calls::{add_image, answers};
use std::alloc::{AllocError, Global};
use tool_io::MemFiles;

const GRAPH: &[u8] = b"rvcfi-graph 1\ncode 40000000 00100000\ncall 4000000c 40000040\nend\n";

/// Ten steps lead to the entry; then come the 262,127 instructions, the stop and the handler.
const REPORT: &str = "output 0\n\nstop handler __cfi_bad_target\nsteps 262139\nwalk 262130\n\
trail 400fffc4 400fffc8 400fffcc 400fffd0 400fffd4 400fffd8 400fffdc 400fffe0 400fffe4 400fffe8 \
400fffec 400ffff0 400ffff4 400ffff8 400ffffc 40000000\n";

/// The units, as binutils make them of tests/units/long.s.
fn units(alloc: Global) -> Result<Vec<u32>, AllocError> {
    let mut units = Vec::new(alloc);
    for _ in 0..262_127_u32 {
        units.push(0x0000_0013)?;
    }
    units.push(0x8040_006f)?;
    Ok(units)
}

/// Adds the image and the graph.
fn add_files(alloc: Global, files: &mut MemFiles) -> Result<(), NoMemory> {
    let units = units(alloc)?;
    add_image(alloc, files, &("image", &units, b""))?;
    Ok(files.insert("graph", GRAPH)?)
}

/// Whether the run goes through all of it.
fn is_gone_through(alloc: Global) -> bool {
    let mut files = MemFiles::new(alloc, Vec::new(alloc));
    add_files(alloc, &mut files).is_ok()
        && answers(
            alloc,
            "rvcfi,run,image,graph,none,none,1000000",
            &mut files,
            10,
            REPORT,
        )
}

#[test]
fn longest(rt: HostRuntime) {
    assert!(rt; is_gone_through(rt.alloc()));
}

/// The first units of tests/units/last.s, as binutils makes them, to which 262,105 instructions that do nothing and a stop are added.
const LAST: [u32; 22] = [
    0x000102b7, 0x0002b283, 0x00028f93, 0xffcfff93, 0x40000f37, 0x41ef8f33, 0x014f5f13, 0x000f0463,
    0xfa1ff06f, 0x004faf03, 0x00001237, 0x03720213, 0x004f0463, 0xf8dff06f, 0x000f8067, 0x00000013,
    0x00001037, 0xff81bf83, 0xff818193, 0x001f8463, 0xf75ff06f, 0x000f8067,
];

const LAST_GRAPH: &[u8] =
    b"rvcfi-graph 2\ncode 40000000 00100000\njumpclass 00001 4000007c\ncall 4000000c 40000040\n\
site 40000048 jump 00001\nend\n";

const TARGET: &str =
    "output 0\n\nstop exit 0\nsteps 31\nwalk 8\ntrail 4000000c 40000040 40000044 40000048 \
4000007c 40000080 40000084 40000038\n";

const NO_TARGET: &str = "output 0\n\nstop handler __cfi_bad_target\nsteps 24\nwalk 5\n\
trail 4000000c 40000040 40000044 40000048 40000000\n";

const OUT_OF_CODE: &str = "output 0\n\nstop handler __cfi_bad_target\nsteps 20\nwalk 5\n\
trail 4000000c 40000040 40000044 40000048 40000000\n";

/// Where the pointer leads, then the status and the text of the run: the target; the last two words, of which the second word of
/// one is the stop and that of the other stands behind the region of code; the place behind it.
static LAST_JUMPS: [(&str, u8, &str); 5] = [
    ("7c000040", 0, TARGET),
    ("f8ff0f40", 10, NO_TARGET),
    ("fcff0f40", 10, NO_TARGET),
    ("ffff0f40", 10, NO_TARGET),
    ("00001040", 10, OUT_OF_CODE),
];

/// The units of the longest code with a jump.
fn jumping(alloc: Global) -> Result<Vec<u32>, AllocError> {
    let mut units = Vec::from_slice(alloc, &LAST)?;
    for _ in 0..262_105_u32 {
        units.push(0x0000_0013)?;
    }
    units.push(0x8040_006f)?;
    Ok(units)
}

/// The files of a run with the pointer.
fn add_jumping(alloc: Global, files: &mut MemFiles, pointer: &str) -> Result<(), NoMemory> {
    let units = jumping(alloc)?;
    add_image(alloc, files, &("image", &units, b""))?;
    files.insert("graph", LAST_GRAPH)?;
    let script = format!(in alloc; "rvcfi-script 1\nat 0 00010000 {pointer}\nend\n")?;
    Ok(files.insert("script", script.as_bytes())?)
}

/// Whether a run goes as its row says.
fn is_right(alloc: Global, row: &(&str, u8, &str)) -> bool {
    let mut files = MemFiles::new(alloc, Vec::new(alloc));
    add_jumping(alloc, &mut files, row.0).is_ok()
        && answers(
            alloc,
            "rvcfi,run,image,graph,script,none,100",
            &mut files,
            row.1,
            row.2,
        )
}

#[test]
fn behind_the_last_word(rt: HostRuntime) {
    for row in &LAST_JUMPS {
        assert!(rt; is_right(rt.alloc(), row), "{}", row.0);
    }
}
