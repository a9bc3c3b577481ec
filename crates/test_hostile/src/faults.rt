//! Calls of files and output that fail, of the commands that write no file.

use rv_word::NoMemory;
use sample_calls::{Given, Source, add_image, add_object, add_texts, ends_with, holds};
use sample_objects::B_MAP;
use sample_programs::{A, A_GRAPH, B, STATUS, STATUS_GRAPH};
use std::alloc::Global;
use tool_io::{MemFiles, MemSink};

const VERIFY: &str = "rvcfi,verify,image,graph";

const VERIFY_OTHER: &str = "rvcfi,verify,other,other.graph";

const RUN: &str = "rvcfi,run,image,graph,script,input,100";

const COMPARE: &str = "rvcfi,compare,object,main,policy,hardened,map,input,100";

const COMPARE_LINK: &str = "rvcfi,compare-link,main,policy,hardened,map,input,100,object";

const REPORT: &str = "output 0\n\nstop exit 5\nsteps 14\nwalk 5\ntrail 4000000c 40000040 40000044 \
40000048 4000004c\n";

/// A command line, the reads and the puts that fail, the status, the text, and what is put where the line
/// comes again and no call fails.
struct Case(
    &'static str,
    &'static [u64],
    &'static [u64],
    u8,
    &'static str,
    &'static str,
);

#[rattlefmt::skip]
static FAULTS: [Case; 27] = [
    Case(VERIFY, &[0], &[], 3, "read fault image\n", "accepted\n"),
    Case(VERIFY, &[1], &[], 3, "read fault graph\n", "accepted\n"),
    Case(VERIFY, &[], &[0], 4, "", "accepted\n"),
    Case(VERIFY, &[0], &[0], 4, "", "accepted\n"),
    Case(VERIFY, &[1], &[0], 4, "", "accepted\n"),
    Case(VERIFY_OTHER, &[], &[0], 4, "", "accepted\n"),
    Case(RUN, &[0], &[], 3, "read fault image\n", REPORT),
    Case(RUN, &[1], &[], 3, "read fault graph\n", REPORT),
    Case(RUN, &[2], &[], 3, "read fault script\n", REPORT),
    Case(RUN, &[3], &[], 3, "read fault input\n", REPORT),
    Case(RUN, &[], &[0], 4, "", REPORT),
    Case(RUN, &[3], &[0], 4, "", REPORT),
    Case(COMPARE, &[0], &[], 3, "read fault object\n", "same 1\n"),
    Case(COMPARE, &[1], &[], 3, "read fault policy\n", "same 1\n"),
    Case(COMPARE, &[2], &[], 3, "read fault hardened\n", "same 1\n"),
    Case(COMPARE, &[3], &[], 3, "read fault map\n", "same 1\n"),
    Case(COMPARE, &[4], &[], 3, "read fault input\n", "same 1\n"),
    Case(COMPARE, &[], &[0], 4, "", "same 1\n"),
    Case(COMPARE, &[0], &[0], 4, "", "same 1\n"),
    Case(COMPARE, &[4], &[0], 4, "", "same 1\n"),
    Case(COMPARE_LINK, &[0], &[], 3, "read fault policy\n", "same 1\n"),
    Case(COMPARE_LINK, &[1], &[], 3, "read fault hardened\n", "same 1\n"),
    Case(COMPARE_LINK, &[2], &[], 3, "read fault map\n", "same 1\n"),
    Case(COMPARE_LINK, &[3], &[], 3, "read fault input\n", "same 1\n"),
    Case(COMPARE_LINK, &[4], &[], 3, "read fault object\n", "same 1\n"),
    Case(COMPARE_LINK, &[], &[0], 4, "", "same 1\n"),
    Case(COMPARE_LINK, &[4], &[0], 4, "", "same 1\n"),
];

/// The graphs of a program whose exit status is the first byte of its data and of one that exits with 7, a script that changes
/// that byte, a policy without a line, the map of the object that returns 7, and an input.
static TEXTS: [(&str, &[u8]); 6] = [
    ("graph", STATUS_GRAPH),
    ("other.graph", A_GRAPH),
    ("script", b"rvcfi-script 1\nat 11 00010000 05\nend\n"),
    ("policy", b"rvcfi-policy 1\nend\n"),
    ("map", B_MAP),
    ("input", b"hi"),
];

/// Adds these files, the programs' images, the object and its image.
fn add_files(alloc: Global, files: &mut MemFiles) -> Result<(), NoMemory> {
    add_image(alloc, files, &("image", &STATUS, b""))?;
    add_image(alloc, files, &("other", &A, b""))?;
    add_object(alloc, files, "object", &Given(Source::Returning, 0, b""))?;
    add_image(alloc, files, &("hardened", &B, b""))?;
    add_texts(files, &TEXTS)
}

/// Whether a case is answered as its row says.
fn is_right(alloc: Global, case: &Case) -> bool {
    let Ok(failing) = Vec::from_slice(alloc, case.1) else {
        return false;
    };
    let mut files = MemFiles::new(alloc, failing);
    add_files(alloc, &mut files).is_ok() && answers_twice(alloc, &mut files, case)
}

/// Whether the line of a case is answered as its row says. It comes twice: each call that fails does so
/// once, and after it the files are as they were.
fn answers_twice(alloc: Global, files: &mut MemFiles, case: &Case) -> bool {
    let Case(line, _, puts, status, text, answer) = *case;
    let Ok(failing) = Vec::from_slice(alloc, puts) else {
        return false;
    };
    let mut out = MemSink::new(alloc, failing);
    ends_with(alloc, line, files, &mut out, status)
        && holds(&out, text, "")
        && ends_with(alloc, line, files, &mut out, 0)
        && holds(&out, text, answer)
}

#[test]
fn faults(rt: HostRuntime) {
    for case in &FAULTS {
        assert!(rt;
            is_right(rt.alloc(), case),
            "{} {:?} {:?}",
            case.0,
            case.1,
            case.2
        );
    }
}

/// Whether `demo` tells that the output failed, and puts nothing. It reads no file, so none fails.
fn demo_is_unput(alloc: Global) -> bool {
    let (Ok(reads), Ok(puts)) = (Vec::from_slice(alloc, &[0]), Vec::from_slice(alloc, &[0])) else {
        return false;
    };
    let mut files = MemFiles::new(alloc, reads);
    let mut out = MemSink::new(alloc, puts);
    ends_with(alloc, "rvcfi,demo,1", &mut files, &mut out, 4) && holds(&out, "", "")
}

#[test]
fn demo(rt: HostRuntime) {
    assert!(rt; demo_is_unput(rt.alloc()));
}
