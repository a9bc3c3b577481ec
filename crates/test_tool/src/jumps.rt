//! Computed jumps whose destination a script turns before each step of their words: one that is checked by the first word of its
//! destination, and one by the second. The counts of steps and the walks are worked out by hand.

use rv_word::NoMemory;
use sample_calls::{add_image, answers};
use sample_programs::{JUMP, JUMP_DATA, JUMP_GRAPH, Q, Q_DATA, Q_GRAPH};
use std::alloc::Global;
use tool_io::MemFiles;

/// Changes of the pointer, which is loaded in the twelfth step, before each of the eleven steps of the
/// computed jump and the one after them: to either place, behind it, to the jump, and out of code.
const TURNS: &str = "at 12 00010000 98000040\nat 13 00010000 80000040\nat 14 00010000 7c000040\n\
at 15 00010000 00000000\nat 16 00010000 48000040\nat 17 00010000 98000040\nat 18 00010000 00001040\n\
at 19 00010000 7c000040\nat 20 00010000 9c000040\nat 21 00010000 98000040\nat 22 00010000 ffffffff\n\
at 23 00010000 7c000040\n";

const FIRST: &str = "output 0\n\nstop exit 1\nsteps 31\nwalk 8\ntrail 4000000c 40000040 40000044 \
40000048 4000007c 40000080 40000084 40000038\n";

const SECOND: &str = "output 0\n\nstop exit 2\nsteps 31\nwalk 8\ntrail 4000000c 40000040 40000044 \
40000048 40000098 4000009c 400000a0 40000038\n";

const OUT_OF_CODE: &str = "output 0\n\nstop handler __cfi_bad_target\nsteps 20\nwalk 5\n\
trail 4000000c 40000040 40000044 40000048 40000000\n";

const NO_GATE: &str = "output 0\n\nstop handler __cfi_bad_target\nsteps 24\nwalk 5\n\
trail 4000000c 40000040 40000044 40000048 40000000\n";

const FIRST_OF_Q: &str =
    "output 0\n\nstop exit 1\nsteps 32\nwalk 9\ntrail 4000000c 40000040 40000044 \
40000048 4000007c 40000080 40000084 40000088 40000038\n";

const SECOND_OF_Q: &str =
    "output 0\n\nstop exit 2\nsteps 32\nwalk 9\ntrail 4000000c 40000040 40000044 \
40000048 4000009c 400000a0 400000a4 400000a8 40000038\n";

/// What the pointer is before it is loaded, then the status and the text of the run.
static JUMPS: [(&str, u8, &str); 12] = [
    ("7c000040", 0, FIRST),
    ("98000040", 0, SECOND),
    ("7e000040", 0, FIRST),
    ("9b000040", 0, SECOND),
    ("80000040", 10, NO_GATE),
    ("78000040", 10, NO_GATE),
    ("48000040", 10, NO_GATE),
    ("fcff0f40", 10, NO_GATE),
    ("00001040", 10, OUT_OF_CODE),
    ("fcffff3f", 10, OUT_OF_CODE),
    ("00000000", 10, OUT_OF_CODE),
    ("98000060", 10, OUT_OF_CODE),
];

/// The same of `Q`: to both words of each function, the word before them, the call that no step comes to, and out of code.
static JUMPS_OF_Q: [(&str, u8, &str); 16] = [
    ("7c000040", 0, FIRST_OF_Q),
    ("9c000040", 0, SECOND_OF_Q),
    ("7e000040", 0, FIRST_OF_Q),
    ("9f000040", 0, SECOND_OF_Q),
    ("78000040", 10, NO_GATE),
    ("80000040", 10, NO_GATE),
    ("84000040", 10, NO_GATE),
    ("98000040", 10, NO_GATE),
    ("a0000040", 10, NO_GATE),
    ("bc000040", 10, NO_GATE),
    ("48000040", 10, NO_GATE),
    ("fcff0f40", 10, NO_GATE),
    ("00001040", 10, OUT_OF_CODE),
    ("fcffff3f", 10, OUT_OF_CODE),
    ("00000000", 10, OUT_OF_CODE),
    ("9c000060", 10, OUT_OF_CODE),
];

/// A program: its units, its data and its graph.
type Program = (&'static [u32], &'static [u8], &'static [u8]);

static BY_THE_FIRST: Program = (&JUMP, JUMP_DATA, JUMP_GRAPH);

static BY_THE_SECOND: Program = (&Q, Q_DATA, Q_GRAPH);

/// Adds the image, the graph, and the script that turns the pointer from these bytes on.
fn add_files(
    alloc: Global,
    files: &mut MemFiles,
    program: &Program,
    first: &str,
) -> Result<(), NoMemory> {
    add_image(alloc, files, &("image", program.0, program.1))?;
    files.insert("graph", program.2)?;
    let script = format!(in alloc; "rvcfi-script 1\nat 11 00010000 {first}\n{TURNS}end\n")?;
    Ok(files.insert("script", script.as_bytes())?)
}

/// Whether a run goes as its row says.
fn is_right(alloc: Global, program: &Program, row: &(&str, u8, &str)) -> bool {
    let mut files = MemFiles::new(alloc, Vec::new(alloc));
    add_files(alloc, &mut files, program, row.0).is_ok()
        && answers(
            alloc,
            "rvcfi,run,image,graph,script,none,100",
            &mut files,
            row.1,
            row.2,
        )
}

/// The run goes to a target of the class, or to the handler.
#[test]
fn by_the_first_word(rt: HostRuntime) {
    for row in &JUMPS {
        assert!(rt; is_right(rt.alloc(), &BY_THE_FIRST, row), "{}", row.0);
    }
}

/// The same where the check reads the second word.
#[test]
fn by_the_second_word(rt: HostRuntime) {
    for row in &JUMPS_OF_Q {
        assert!(rt; is_right(rt.alloc(), &BY_THE_SECOND, row), "{}", row.0);
    }
}
