//! What `harden` writes of objects in the lean forms: the images and graphs of `samples`, byte for byte; and what is put of other
//! objects, of their runs and of comparing them. Numbers and words are worked out by an independent implementation.

use crate::pairs::image_with;
use crate::samples::{CALLS_BY_POINTER_DATA, CALLS_LEAF_DATA, JUMPS_BY_POINTER_DATA, Program};
use rv_image::ImageVersion;
use rv_word::NoMemory;
use sample_calls::{Given, Source, add_object, add_texts, first_wrong};
use std::alloc::Global;
use std::process::Abort;
use tool_io::MemFiles;

/// The command line of an object with what is put, the program that it becomes, and that one's data.
struct Becomes(&'static [u8], Program, &'static [u8]);

#[rattlefmt::skip]
static BECOME: [Becomes; 3] = [
    Becomes(b"rvcfi,harden,lean,h.o,main,none,i,g,m = 0: rewritten code 148 data 3 classes 0 sites 0\n", Program::CallsLeaf, CALLS_LEAF_DATA),
    Becomes(b"rvcfi,harden,lean,p.o,main,none,i,g,m = 0: rewritten code 292 data 16 classes 1 sites 1\n", Program::CallsByPointer, CALLS_BY_POINTER_DATA),
    Becomes(b"rvcfi,harden,lean,q.o,main,q.policy,i,g,m = 0: rewritten code 304 data 16 classes 2 sites 2\n", Program::JumpsByPointer, JUMPS_BY_POINTER_DATA),
];

/// Objects by their names: one that returns at once, one that saves x1 below its stack's new end and one that does so below the old
/// end, one that goes on into a function that it calls, one whose base wraps around and one that stores on one hart and loads on the
/// other.
static OBJECTS: [(&str, Given); 9] = [
    ("h.o", Given(Source::Writing, 0, b"")),
    ("p.o", Given(Source::Calling, 0, b"")),
    ("q.o", Given(Source::Jumping, 0, b"")),
    ("leaf.o", Given(Source::Coded, 0, b"67800000")),
    (
        "saves.o",
        Given(
            Source::Coded,
            0,
            b"130101ff23341100833081001301010167800000",
        ),
    ),
    (
        "below.o",
        Given(Source::Coded, 0, b"233c11fe833081ff67800000"),
    ),
    (
        "into.o",
        Given(
            Source::Coded,
            0,
            b"130101ff23341100ef00000183308100130101011305250013051500\
              67800000",
        ),
    ),
    (
        "wraps.o",
        Given(Source::Coded, 0, b"930280ff23b8520067800000"),
    ),
    (
        "turns.o",
        Given(
            Source::Coded,
            0,
            b"b70201006316050003b502006780000023b0a20067800000",
        ),
    ),
];

static TEXTS: [(&str, &[u8]); 3] = [
    ("q.policy", b"rvcfi-policy 1\nsite h+0 g+0\nend\n"),
    ("turn14", b"rvcfi-script 2\nharts 2\nturn 1 14\nend\n"),
    ("turn13", b"rvcfi-script 2\nharts 2\nturn 1 13\nend\n"),
];

/// Command lines, with the status and the text of each.
const LINES: &[u8] = b"\
    rvcfi,harden,lean,leaf.o,main,none,i,g,m = 0: rewritten code 52 data 0 classes 0 sites 0\n;\
    rvcfi,verify,i,g = 0: accepted\n;\
    rvcfi,run,i,g,none,none,100 = 0: output 0\n\nstop exit 0\nsteps 9\nwalk 3\ntrail 4000000c 4000002c 40000024\n;\
    rvcfi,compare,leaf.o,main,none,i,m,none,100 = 0: same 1\n;\
    rvcfi,harden,lean,saves.o,main,none,i,g,m = 0: rewritten code 112 data 0 classes 0 sites 0\n;\
    rvcfi,verify,i,g = 0: accepted\n;\
    rvcfi,run,i,g,none,none,100 = 0: output 0\n\nstop exit 0\nsteps 21\nwalk 8\ntrail 4000000c 40000030 40000044 40000048 40000050 40000054 40000058 40000024\n;\
    rvcfi,compare,saves.o,main,none,i,m,none,100 = 0: same 1\n;\
    rvcfi,harden,lean,below.o,main,none,i,g,m = 0: rewritten code 108 data 0 classes 0 sites 0\n;\
    rvcfi,verify,i,g = 0: accepted\n;\
    rvcfi,run,i,g,none,none,100 = 0: output 0\n\nstop exit 0\nsteps 20\nwalk 6\ntrail 4000000c 40000030 40000044 40000050 40000054 40000024\n;\
    rvcfi,compare,below.o,main,none,i,m,none,100 = 0: same 1\n;\
    rvcfi,harden,lean,into.o,main,none,i,g,m = 0: rewritten code 148 data 0 classes 0 sites 0\n;\
    rvcfi,verify,i,g = 0: accepted\n;\
    rvcfi,compare,into.o,main,none,i,m,none,100 = 0: same 1\n;\
    rvcfi,link,lean,main,none,j,g,m,into.o = 0: rewritten code 148 data 0 classes 0 sites 0\n;\
    rvcfi,verify,j,g = 0: accepted\n;\
    rvcfi,compare-link,main,none,i,m,none,100,into.o = 0: same 1\n;\
    rvcfi,harden,lean,wraps.o,main,none,i,g,m = 0: rewritten code 64 data 0 classes 0 sites 0\n;\
    rvcfi,run,i,g,none,none,100 = 0: output 0\n\nstop exit 0\nsteps 12\nwalk 5\ntrail 4000000c 4000002c 40000030 40000038 40000024\n;\
    rvcfi,compare,wraps.o,main,none,i,m,none,100 = 13: untame window 1 4\n;\
    rvcfi,harden,harts-lean,wraps.o,main,none,i,g,m = 0: rewritten code 80 data 0 classes 0 sites 0\n;\
    rvcfi,compare,wraps.o,main,none,i,m,none,100 = 13: untame window 1 4\n;\
    rvcfi,harden,split,wraps.o,main,none,i,g,m = 0: rewritten code 108 data 0 classes 0 sites 0\n;\
    rvcfi,compare,wraps.o,main,none,i,m,none,100 = 0: same 1\n;\
    rvcfi,harden,harts-lean,turns.o,main,none,i,g,m = 0: rewritten code 92 data 0 classes 0 sites 0\n;\
    rvcfi,verify,i,g = 0: accepted\n;\
    rvcfi,run,i,g,turn14,none,100 = 0: output 0\n\nharts 2\nstop hart 0 exit 1\nsteps 30\nwalk 0 6\ntrail 0 4000000c 4000003c 40000040 40000044 40000048 40000034\nwalk 1 4\ntrail 1 4000000c 4000003c 40000040 4000004c\n;\
    rvcfi,run,i,g,turn13,none,100 = 0: output 0\n\nharts 2\nstop hart 0 exit 0\nsteps 29\nwalk 0 6\ntrail 0 4000000c 4000003c 40000040 40000044 40000048 40000034\nwalk 1 4\ntrail 1 4000000c 4000003c 40000040 4000004c\n;\
    rvcfi,compare,turns.o,main,none,i,m,none,100 = 0: same 1\n";

/// The objects and texts of all rows.
fn given(alloc: Global) -> Result<MemFiles, NoMemory> {
    let mut files = MemFiles::new(alloc, Vec::new(alloc));
    for (name, given) in &OBJECTS {
        add_object(alloc, &mut files, name, given)?;
    }
    add_texts(&mut files, &TEXTS)?;
    Ok(files)
}

/// Whether the image and the graph that were written are those of a program with its data.
fn are_written(alloc: Global, files: &MemFiles, row: &Becomes) -> bool {
    let words = row.1.words();
    let first = words.first().copied().unwrap_or(0);
    match image_with(alloc, ImageVersion::OneHart, words, 0, first, row.2) {
        Ok(image) => files.get("i") == Some(image.as_slice())
            && files.get("g") == Some(row.1.graph()),
        Err(_) => false,
    }
}

/// Whether an object becomes its program.
fn is_right(alloc: Global, row: &Becomes) -> bool {
    match given(alloc) {
        Ok(mut files) => first_wrong(alloc, &mut files, row.0, 1).is_none()
            && are_written(alloc, &files, row),
        Err(_) => false,
    }
}

#[test]
fn hardened(rt: HostRuntime) {
    for row in &BECOME {
        assert!(rt; is_right(rt.alloc(), row));
    }
}

#[test]
fn answered(rt: HostRuntime) {
    let Ok(mut files) = given(rt.alloc()) else {
        assert!(rt; false);
        return;
    };
    let wrong = first_wrong(rt.alloc(), &mut files, LINES, 30);
    assert!(rt; wrong.is_none(), "{}", wrong.unwrap_or(""));
}
