//! The commands `rewrite` and `link` where a read, a write or the output fails: what is put, and which of its files are written.

use rv_word::NoMemory;
use sample_calls::{Given, Source, add_image, add_object, ends_with, holds};
use sample_objects::B_MAP;
use sample_programs::{B, B_GRAPH};
use std::alloc::Global;
use tool_io::{MemFiles, MemSink};

const PLAIN: &str = "rvcfi,rewrite,object,main,none,image,graph,map";

const WITH_POLICY: &str = "rvcfi,rewrite,object,main,policy,image,graph,map";

const LINKED: &str = "rvcfi,link,plain,main,policy,image,graph,map,object";

const LINKED_TWICE: &str = "rvcfi,link,plain,main,none,image,graph,map,object,object";

const DONE: &str = "rewritten code 92 data 0 classes 0 sites 0\n";

/// A command line, the calls of the files and of the output that fail, the status, the text, and whether each of the image, the
/// graph and the map is written whole.
struct Fault(
    &'static str,
    &'static [u64],
    &'static [u64],
    u8,
    &'static str,
    [bool; 3],
);

#[rattlefmt::skip]
static FAULTS: [Fault; 25] = [
    Fault(PLAIN, &[0], &[], 3, "read fault object\n", [false, false, false]),
    Fault(PLAIN, &[1], &[], 4, "", [false, false, false]),
    Fault(PLAIN, &[2], &[], 4, "", [true, false, false]),
    Fault(PLAIN, &[3], &[], 4, "", [true, true, false]),
    Fault(PLAIN, &[], &[0], 4, "", [true, true, true]),
    Fault(PLAIN, &[0], &[0], 4, "", [false, false, false]),
    Fault(PLAIN, &[], &[], 0, DONE, [true, true, true]),
    Fault(WITH_POLICY, &[0], &[], 3, "read fault object\n", [false, false, false]),
    Fault(WITH_POLICY, &[1], &[], 3, "read fault policy\n", [false, false, false]),
    Fault(WITH_POLICY, &[2], &[], 4, "", [false, false, false]),
    Fault(WITH_POLICY, &[3], &[], 4, "", [true, false, false]),
    Fault(WITH_POLICY, &[4], &[], 4, "", [true, true, false]),
    Fault(WITH_POLICY, &[], &[0], 4, "", [true, true, true]),
    Fault(WITH_POLICY, &[0], &[0], 4, "", [false, false, false]),
    Fault(WITH_POLICY, &[], &[], 0, DONE, [true, true, true]),
    Fault(LINKED, &[0], &[], 3, "read fault policy\n", [false, false, false]),
    Fault(LINKED, &[1], &[], 3, "read fault object\n", [false, false, false]),
    Fault(LINKED, &[2], &[], 4, "", [false, false, false]),
    Fault(LINKED, &[3], &[], 4, "", [true, false, false]),
    Fault(LINKED, &[4], &[], 4, "", [true, true, false]),
    Fault(LINKED, &[], &[0], 4, "", [true, true, true]),
    Fault(LINKED, &[1], &[0], 4, "", [false, false, false]),
    Fault(LINKED, &[], &[], 0, DONE, [true, true, true]),
    Fault(LINKED_TWICE, &[1], &[], 3, "read fault object\n", [false, false, false]),
    Fault(LINKED_TWICE, &[], &[], 1, "refused 27 Duplicate main\n", [false, false, false]),
];

/// Whether a file holds these bytes.
fn has(files: &MemFiles, name: &str, bytes: &[u8]) -> bool {
    files.get(name) == Some(bytes)
}

/// Whether the files are there that should be, each whole.
fn are_whole(files: &MemFiles, there: &[bool; 3]) -> bool {
    (files.get("image") == files.get("wanted")) == there[0]
        && has(files, "graph", B_GRAPH) == there[1]
        && has(files, "map", B_MAP) == there[2]
}

/// Adds an object that returns 7, its image and a policy without a line.
fn add_returning(alloc: Global, files: &mut MemFiles) -> Result<(), NoMemory> {
    add_object(alloc, files, "object", &Given(Source::Returning, 0, b""))?;
    add_image(alloc, files, &("wanted", &B, b""))?;
    Ok(files.insert("policy", b"rvcfi-policy 1\nend\n")?)
}

/// Whether the tool ends as a fault's row says.
fn ends_as(alloc: Global, files: &mut MemFiles, fault: &Fault) -> bool {
    let Ok(puts) = Vec::from_slice(alloc, fault.2) else {
        return false;
    };
    let mut out = MemSink::new(alloc, puts);
    ends_with(alloc, fault.0, files, &mut out, fault.3) && holds(&out, fault.4, "")
}

/// Whether what stands after a fault is as its row says.
fn is_told(alloc: Global, fault: &Fault) -> bool {
    let Ok(calls) = Vec::from_slice(alloc, fault.1) else {
        return false;
    };
    let mut files = MemFiles::new(alloc, calls);
    add_returning(alloc, &mut files).is_ok()
        && ends_as(alloc, &mut files, fault)
        && are_whole(&files, &fault.5)
}

#[test]
fn faults(rt: HostRuntime) {
    for fault in &FAULTS {
        assert!(rt;
            is_told(rt.alloc(), fault),
            "{} {:?} {:?}",
            fault.0,
            fault.1,
            fault.2
        );
    }
}
