//! Objects under lists of system calls, counted by hand. An `ecall` whose number is the first of its list is three steps, two more
//! for each number before it; where it is none of them the handler of bad targets is next.

use crate::given::answer;
use cfi_graph::Graph;
use cfi_rewrite::Hardened;
use cfi_script::Script;
use cfi_step::{Handler, RunEnd, run};
use cfi_verify::{Checked, verify};
use elf_image::read_image;
use rv_image::{Form, Image};
use sample_hardened::{Given, Source, file};
use std::alloc::Global;

/// What is hardened; the bytes of its code; the script under which it runs, how that ends, and after how many steps.
struct Case(Given, u32, &'static [u8], RunEnd, u64);

const CALM: &[u8] = b"rvcfi-script 1\nend\n";

/// Policies that list the number of what writes, and of what reads.
const WRITES: &[u8] = b"rvcfi-policy 2\ncalls 64\nend\n";

const READS: &[u8] = b"rvcfi-policy 2\ncalls 63\nend\n";

/// One that writes, and one that makes the system call whose number stands at 10000h: where that is 93 it is not the closing's, and
/// where it is 64 nothing is written, for lack of a descriptor.
#[rattlefmt::skip]
static LISTED: [Case; 4] = [
    Case(Given(Source::Writing, 0, b"", "main", Some(WRITES)), 208, CALM, RunEnd::Exit(0), 43),
    Case(Given(Source::Writing, 0, b"", "main", Some(READS)), 208, CALM, RunEnd::Handler(Handler::BadTarget), 31),
    Case(
        Given(Source::Coded, 0, b"b702010083b802007300000067800000", "main", Some(WRITES)),
        112, b"rvcfi-script 1\nat 0 00010000 5d\nend\n", RunEnd::Handler(Handler::BadTarget), 16,
    ),
    Case(
        Given(Source::Coded, 0, b"b702010083b802007300000067800000", "main", Some(WRITES)),
        112, b"rvcfi-script 1\nat 0 00010000 40\nend\n", RunEnd::Exit(247), 21,
    ),
];

/// Whether an accepted image runs under a script as its row says.
fn runs_under(alloc: Global, checked: &Checked<'_>, script: &mut Script, row: &Case) -> bool {
    match run(alloc, checked, b"", 1, script, 1000) {
        Ok(report) => report.end == row.3 && report.steps == row.4,
        Err(_) => false,
    }
}

/// Whether an accepted image runs as its row says.
fn runs_so(alloc: Global, checked: &Checked<'_>, row: &Case) -> bool {
    match Script::read(alloc, row.2) {
        Ok(mut script) => runs_under(alloc, checked, &mut script, row),
        Err(_) => false,
    }
}

/// Whether an image is accepted with a graph, and runs so.
fn is_accepted(alloc: Global, image: &Image<'_>, graph: &Graph, row: &Case) -> bool {
    match verify(alloc, image, graph) {
        Ok(checked) => runs_so(alloc, &checked, row),
        Err(_) => false,
    }
}

/// Whether a hardened program is as long as its row says, and runs so.
fn is_wanted(alloc: Global, hardened: &Hardened, row: &Case) -> bool {
    match read_image(hardened.image.as_slice()) {
        Ok(image) => {
            hardened.graph.code() == row.1 && is_accepted(alloc, &image, &hardened.graph, row)
        }
        Err(_) => false,
    }
}

/// Whether a file becomes a program that runs as its row says.
fn becomes(alloc: Global, file: &[u8], row: &Case) -> bool {
    match answer(alloc, Form::Plain, file, &row.0) {
        Ok(hardened) => is_wanted(alloc, &hardened, row),
        Err(_) => false,
    }
}

/// Whether an object does.
fn is_right(alloc: Global, row: &Case) -> bool {
    match file(alloc, &row.0) {
        Some(file) => becomes(alloc, &file, row),
        None => false,
    }
}

#[test]
fn runs_under_lists(rt: HostRuntime) {
    for (k, row) in LISTED.iter().enumerate() {
        assert!(rt; is_right(rt.alloc(), row), "list {k}");
    }
}
