//! Files and an output that never fail.

use rv_word::NoMemory;
use sample_calls::{ends_with, image_of};
use sample_programs::{A, A_GRAPH};
use std::alloc::Global;
use tool_io::{Files, SureFiles, SureSink};

/// A command line over such files, its status and the text that is put.
struct Case(&'static str, u8, &'static str);

#[rattlefmt::skip]
static CASES: [Case; 4] = [
    Case("rvcfi,verify,image,graph", 0, "accepted\n"),
    // A name that is not there reads as empty.
    Case("rvcfi,verify,absent,graph", 1, "refused 22 Short 0\n"),
    Case("rvcfi,verify,image,absent", 1, "refused 23 Graph 1 Form\n"),
    Case("rvcfi,verify,image", 2, "usage: rvcfi rewrite|verify|run|compare|demo|harden|link|compare-link\n"),
];

/// Adds the image and the graph of a program that exits with 7.
fn add_files(alloc: Global, files: &mut SureFiles) -> Result<(), NoMemory> {
    let image = image_of(alloc, &A, b"")?;
    files.insert("image", &image)?;
    Ok(files.insert("graph", A_GRAPH)?)
}

/// Whether a command line is answered as its row says.
fn is_right(alloc: Global, case: &Case) -> bool {
    let mut files = SureFiles::new(alloc);
    let mut out = SureSink::new(alloc);
    add_files(alloc, &mut files).is_ok()
        && ends_with(alloc, case.0, &mut files, &mut out, case.1)
        && out.bytes() == case.2.as_bytes()
}

#[test]
fn lines(rt: HostRuntime) {
    for case in &CASES {
        assert!(rt; is_right(rt.alloc(), case), "{}", case.0);
    }
}

/// Whether a file holds what was written last, and another nothing.
fn is_kept(alloc: Global) -> bool {
    let mut files = SureFiles::new(alloc);
    files.write("a", b"first").is_ok()
        && files.write("a", b"now").is_ok()
        && files.get("a") == b"now".as_slice()
        && files.get("b").is_empty()
}

#[test]
fn kept(rt: HostRuntime) {
    assert!(rt; is_kept(rt.alloc()));
}
