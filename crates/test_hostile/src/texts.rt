//! Texts that are no graph, no map and no script.

use rv_word::NoMemory;
use sample_calls::{Given, Source, add_image, add_object, answers};
use sample_programs::{A, A_GRAPH};
use std::alloc::Global;
use tool_io::MemFiles;

const VERIFY: &str = "rvcfi,verify,image,text";

const COMPARE: &str = "rvcfi,compare,object,main,none,image,text,none,9";

const RUN: &str = "rvcfi,run,image,graph,text,none,100";

/// A command line that reads a text, the text, and the line that is put.
struct Case(&'static str, &'static [u8], &'static str);

#[rattlefmt::skip]
static CASES: [Case; 28] = [
    Case(VERIFY, b"", "refused 23 Graph 1 Form\n"),
    Case(VERIFY, b"rvcfi-graph 9\ncode 40000000 00000050\ncall 4000000c 40000040\nend\n", "refused 23 Graph 1 Form\n"),
    Case(VERIFY, b"rvcfi-graph 1\ncode 40000000 00000052\ncall 4000000c 40000040\nend\n", "refused 23 Graph 2 Range\n"),
    Case(VERIFY, b"rvcfi-graph 1\ncode 40000000 00000050\ncall 4000000c 40000050\nend\n", "refused 23 Graph 3 Range\n"),
    Case(
        VERIFY, b"rvcfi-graph 1\ncode 40000000 00000050\ncall 4000000c 40000040\ncall 4000000c 40000040\nend\n",
        "refused 23 Graph 4 Order\n",
    ),
    Case(VERIFY, b"rvcfi-graph 1\ncode 40000000 00000050\ncall 4000000c 40000040\nend", "refused 23 Graph 4 Form\n"),
    Case(VERIFY, b"rvcfi-graph 1\ncode 40000000 00000050\ncall 4000000c 40000040\nend\nend\n", "refused 23 Graph 5 Form\n"),
    Case(COMPARE, b"rvcfi-map 1\nat 40000041 0001 00000000\nend\n", "refused 24 Map 2 Range\n"),
    Case(RUN, b"rvcfi-script 1\nat 1 10001000 00\nend\n", "refused 25 Script 2 Range\n"),
    Case(RUN, b"rvcfi-script 1\nat 1 00010000 0\nend\n", "refused 25 Script 2 Form\n"),
    Case(RUN, b"rvcfi-script 1\nat 2 00000000 00\nat 1 00000000 00\nend\n", "refused 25 Script 3 Order\n"),
    Case(RUN, b"rvcfi-script 3\nharts 1\nend\n", "refused 25 Script 1 Form\n"),
    Case(RUN, b"rvcfi-script 1\nharts 1\nend\n", "refused 25 Script 2 Form\n"),
    Case(RUN, b"rvcfi-script 2\n", "refused 25 Script 2 Form\n"),
    Case(RUN, b"rvcfi-script 2\nend\n", "refused 25 Script 2 Form\n"),
    Case(RUN, b"rvcfi-script 2\nharts 2", "refused 25 Script 2 Form\n"),
    Case(RUN, b"rvcfi-script 2\nharts 02\nend\n", "refused 25 Script 2 Form\n"),
    Case(RUN, b"rvcfi-script 2\nharts 0\nend\n", "refused 25 Script 2 Range\n"),
    Case(RUN, b"rvcfi-script 2\nharts 18446744073709551618\nend\n", "refused 25 Script 2 Range\n"),
    Case(RUN, b"rvcfi-script 2\nharts 2\n", "refused 25 Script 3 Form\n"),
    Case(RUN, b"rvcfi-script 2\nharts 2\nturn 1\nend\n", "refused 25 Script 3 Form\n"),
    Case(RUN, b"rvcfi-script 2\nharts 2\nturn 2 1\nend\n", "refused 25 Script 3 Range\n"),
    Case(RUN, b"rvcfi-script 2\nharts 2\nturn 0 1\nturn 1 0\nend\n", "refused 25 Script 4 Range\n"),
    Case(RUN, b"rvcfi-script 2\nharts 2\nturn 1 1000000001\nend\n", "refused 25 Script 3 Range\n"),
    Case(RUN, b"rvcfi-script 2\nharts 2\nat 1 00010000 00\nturn 1 1\nend\n", "refused 25 Script 4 Form\n"),
    Case(RUN, b"rvcfi-script 2\nharts 2\nturn 1 1\nat 2 00000000 00\nat 1 00000000 00\nend\n", "refused 25 Script 5 Order\n"),
    Case(RUN, b"rvcfi-script 2\nharts 2\nturn 1 1\nend\nend\n", "refused 25 Script 5 Form\n"),
    Case(RUN, b"rvcfi-script 2\nharts 8\nturn 7 1000000000\nend\n", "refused 26 Harts 8\n"),
];

/// Adds the image and the graph of a program that exits with 7, an object that returns 7, and a text.
fn add_files(alloc: Global, files: &mut MemFiles, text: &[u8]) -> Result<(), NoMemory> {
    add_image(alloc, files, &("image", &A, b""))?;
    add_object(alloc, files, "object", &Given(Source::Returning, 0, b""))?;
    files.insert("graph", A_GRAPH)?;
    Ok(files.insert("text", text)?)
}

/// Whether a text is refused as its row says.
fn is_refused(alloc: Global, case: &Case) -> bool {
    let mut files = MemFiles::new(alloc, Vec::new(alloc));
    add_files(alloc, &mut files, case.1).is_ok() && answers(alloc, case.0, &mut files, 1, case.2)
}

#[test]
fn texts(rt: HostRuntime) {
    for case in &CASES {
        assert!(rt; is_refused(rt.alloc(), case), "{} {}", case.0, case.2);
    }
}
