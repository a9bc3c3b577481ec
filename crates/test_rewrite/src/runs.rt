use crate::given::answer;
use cfi_graph::Graph;
use cfi_rewrite::Hardened;
use cfi_script::Script;
use cfi_step::{Handler, RunEnd, RunReport, run};
use cfi_verify::{Checked, verify};
use elf_image::read_image;
use rv_image::{Form, Image};
use sample_hardened::{Given, Source, file};
use std::alloc::Global;

/// What is hardened; the bytes of its code and of its image; how its run ends, after how many steps, and how many
/// addresses its walk has. It writes nothing.
struct Run(Given, u32, usize, RunEnd, u64, u64);

/// A policy by which calls and jumps share a target.
const APART: &[u8] =
    b"rvcfi-policy 1\nsite main+10 called+0 both+0\nsite main+24 jumped+0 both+0\nend\n";

/// Runs by the form of their images. For several harts an opening has four steps more; where calls and jumps have labels of their
/// own, a target that is come to by a computed transfer has one more.
#[rattlefmt::skip]
static RUNS: [(Form, Run); 21] = [
    // One that calls itself 8,190 times, and one that does so once more, for which the shadow stack has no room.
    (Form::Plain, Run(
        Given(Source::Recursive, 0, b"", "main", None),
        168, 8192, RunEnd::Exit(0), 163_820, 65_527,
    )),
    (Form::Harts, Run(
        Given(Source::Recursive, 0, b"", "main", None),
        184, 8192, RunEnd::Exit(0), 163_824, 65_527,
    )),
    (Form::Split, Run(
        Given(Source::Recursive, 0, b"", "main", None),
        168, 8192, RunEnd::Exit(0), 163_820, 65_527,
    )),
    (Form::Plain, Run(
        Given(Source::Recursive, 68, b"1305f5ff", "main", None),
        168, 8192, RunEnd::Handler(Handler::Deep), 114_684, 40_960,
    )),
    (Form::Harts, Run(
        Given(Source::Recursive, 68, b"1305f5ff", "main", None),
        184, 8192, RunEnd::Handler(Handler::Deep), 114_688, 40_960,
    )),
    (Form::HartsSplit, Run(
        Given(Source::Recursive, 68, b"1305f5ff", "main", None),
        184, 8192, RunEnd::Handler(Handler::Deep), 114_688, 40_960,
    )),
    // Stores over the end of the stack, and to the start of the code.
    (Form::Plain, Run(
        Given(Source::Coded, 0, b"a33f21fe67800000", "main", None),
        104, 8192, RunEnd::Exit(0), 20, 4,
    )),
    (Form::Plain, Run(
        Given(Source::Coded, 0, b"b702004023b0520067800000", "main", None),
        108, 8192, RunEnd::Exit(0), 21, 5,
    )),
    // Branches over an addition and over a jump.
    (Form::Plain, Run(
        Given(Source::Coded, 0, b"630405001305100067800000", "main", None),
        96, 8192, RunEnd::Exit(0), 17, 4,
    )),
    (Form::Plain, Run(
        Given(Source::Coded, 0, b"630405006f00400067800000", "main", None),
        100, 8192, RunEnd::Exit(0), 18, 4,
    )),
    (Form::Harts, Run(
        Given(Source::Coded, 0, b"630405006f00400067800000", "main", None),
        116, 8192, RunEnd::Exit(0), 22, 4,
    )),
    // One that calls a function and then jumps to another one, each of which either may come to.
    (Form::Plain, Run(
        Given(Source::Apart, 0, b"", "main", Some(APART)),
        328, 8208, RunEnd::Exit(3), 63, 18,
    )),
    (Form::Split, Run(
        Given(Source::Apart, 0, b"", "main", Some(APART)),
        340, 8208, RunEnd::Exit(3), 65, 20,
    )),
    // The same where each of the two functions is called or jumped to.
    (Form::Split, Run(
        Given(Source::Apart, 0, b"", "main", None),
        332, 8208, RunEnd::Exit(3), 65, 20,
    )),
    (Form::HartsSplit, Run(
        Given(Source::Apart, 0, b"", "main", None),
        348, 8208, RunEnd::Exit(3), 69, 20,
    )),
    // One that jumps by a table twice, once to a tail call, and then calls through a pointer.
    (Form::Plain, Run(
        Given(Source::Switching, 0, b"", "main", None),
        484, 8224, RunEnd::Exit(16), 118, 35,
    )),
    (Form::Harts, Run(
        Given(Source::Switching, 0, b"", "main", None),
        500, 8224, RunEnd::Exit(16), 122, 35,
    )),
    (Form::Split, Run(
        Given(Source::Switching, 0, b"", "main", None),
        500, 8224, RunEnd::Exit(16), 122, 39,
    )),
    (Form::HartsSplit, Run(
        Given(Source::Switching, 0, b"", "main", None),
        516, 8224, RunEnd::Exit(16), 126, 39,
    )),
    // A jump where no address is taken.
    (Form::Split, Run(
        Given(Source::Coded, 0, b"67000300e7800200", "main", None),
        200, 8192, RunEnd::Handler(Handler::BadTarget), 18, 3,
    )),
    (Form::HartsSplit, Run(
        Given(Source::Coded, 0, b"67000300e7800200", "main", None),
        216, 8192, RunEnd::Handler(Handler::BadTarget), 22, 3,
    )),
];

/// The same of objects whose stores stand behind one mask; the numbers are the model's of tests/model at the top of the repository.
#[rattlefmt::skip]
static STORES: [(Form, Run); 26] = [
    // Two stores behind one mask.
    (Form::Plain, Run(
        Given(Source::Coded, 0, b"130101fe233c110023388100833081011301010267800000", "main", None),
        120, 8192, RunEnd::Exit(0), 24, 7,
    )),
    (Form::Harts, Run(
        Given(Source::Coded, 0, b"130101fe233c110023388100833081011301010267800000", "main", None),
        136, 8192, RunEnd::Exit(0), 28, 7,
    )),
    (Form::Split, Run(
        Given(Source::Coded, 0, b"130101fe233c110023388100833081011301010267800000", "main", None),
        120, 8192, RunEnd::Exit(0), 24, 7,
    )),
    (Form::HartsSplit, Run(
        Given(Source::Coded, 0, b"130101fe233c110023388100833081011301010267800000", "main", None),
        136, 8192, RunEnd::Exit(0), 28, 7,
    )),
    // Offsets as far apart as they may be, and further; sixteen stores, and more; other registers.
    (Form::Plain, Run(
        Given(Source::Coded, 0, b"b702020023b06280a38f62fe13000000a38f62fe23b062801300000023a0628023a062001300000023906200239062801300000023b4623e23bc62c0a3bb624023bc624023bc62c0a3bc62c067800000", "main", None),
        272, 8192, RunEnd::Exit(0), 62, 17,
    )),
    (Form::Plain, Run(
        Given(Source::Coded, 0, b"130101fe23006100a300610023016100a301610023026100a302610023036100a303610023046100a304610023056100a305610023066100a306610023076100a307610023086100a308610013000000a307610023076100a306610023066100a305610023056100a304610023046100a303610023036100a302610023026100a301610023016100a3006100230061001300000023086100a307610023076100a306610023066100a305610023056100a304610023046100a303610023036100a302610023026100a301610023016100a3006100230061001301010267800000", "main", None),
        368, 8192, RunEnd::Exit(0), 86, 12,
    )),
    (Form::HartsSplit, Run(
        Given(Source::Coded, 0, b"130101fe23006100a300610023016100a301610023026100a302610023036100a303610023046100a304610023056100a305610023066100a306610023076100a307610023086100a308610013000000a307610023076100a306610023066100a305610023056100a304610023046100a303610023036100a302610023026100a301610023016100a3006100230061001300000023086100a307610023076100a306610023066100a305610023056100a304610023046100a303610023036100a302610023026100a301610023016100a3006100230061001301010267800000", "main", None),
        384, 8192, RunEnd::Exit(0), 90, 12,
    )),
    (Form::Plain, Run(
        Given(Source::Coded, 0, b"b7020200233c61fe23b46200233821fe233451fe23b85200233c600023205002233061fe13031300233c61fc67800000", "main", None),
        216, 8192, RunEnd::Exit(0), 48, 12,
    )),
    // Stores to which direct and computed transfers lead, and one that begins where the program does.
    (Form::Plain, Run(
        Given(Source::Coded, 0, b"631a0500233c61fe233861fe233461fee31c05fe67800000", "main", None),
        132, 8192, RunEnd::Exit(0), 27, 7,
    )),
    (Form::Plain, Run(
        Given(Source::Led, 0, b"", "main", None),
        388, 8208, RunEnd::Exit(3), 109, 30,
    )),
    (Form::Harts, Run(
        Given(Source::Led, 0, b"", "main", None),
        404, 8208, RunEnd::Exit(3), 113, 30,
    )),
    (Form::Split, Run(
        Given(Source::Led, 0, b"", "main", None),
        392, 8208, RunEnd::Exit(3), 111, 32,
    )),
    (Form::HartsSplit, Run(
        Given(Source::Led, 0, b"", "main", None),
        408, 8208, RunEnd::Exit(3), 115, 32,
    )),
    (Form::Split, Run(
        Given(Source::Led, 0, b"", "main", Some(b"rvcfi-policy 1\nsite main+14 f+0 inner+0\nend\n")),
        412, 8208, RunEnd::Exit(3), 116, 35,
    )),
    (Form::Plain, Run(
        Given(Source::Led, 0, b"", "inner", None),
        400, 8208, RunEnd::Handler(Handler::BadReturn), 106, 29,
    )),
    // Stores whose offsets come from relocations.
    (Form::Plain, Run(
        Given(Source::Patched, 0, b"", "main", None),
        200, 8224, RunEnd::Exit(0), 44, 11,
    )),
    (Form::Harts, Run(
        Given(Source::Patched, 0, b"", "main", None),
        216, 8224, RunEnd::Exit(0), 48, 11,
    )),
    // A branch over as many stores as leave it short, and over one more, which it is taken over or not; and as many stores as there
    // is room for, were each behind a mask of its own.
    (Form::Plain, Run(
        Given(Source::Storing(0x56050ae3, 860), 0, b"", "main", None),
        4180, 12_288, RunEnd::Exit(0), 17, 4,
    )),
    (Form::Plain, Run(
        Given(Source::Storing(0x56050ce3, 861), 0, b"", "main", None),
        4188, 12_288, RunEnd::Exit(0), 18, 4,
    )),
    (Form::Plain, Run(
        Given(Source::Storing(0x56051ae3, 860), 0, b"", "main", None),
        4180, 12_288, RunEnd::Exit(0), 1039, 58,
    )),
    (Form::Plain, Run(
        Given(Source::Storing(0x56051ce3, 861), 0, b"", "main", None),
        4188, 12_288, RunEnd::Exit(0), 1040, 58,
    )),
    (Form::Harts, Run(
        Given(Source::Storing(0x56051ce3, 861), 0, b"", "main", None),
        4204, 12_288, RunEnd::Exit(0), 1044, 58,
    )),
    (Form::Plain, Run(
        Given(Source::Storing(0x00000013, 65_530), 0, b"", "main", None),
        311_364, 319_488, RunEnd::Exit(0), 77_835, 4100,
    )),
    (Form::Split, Run(
        Given(Source::Storing(0x00000013, 65_530), 0, b"", "main", None),
        311_364, 319_488, RunEnd::Exit(0), 77_835, 4100,
    )),
    (Form::Harts, Run(
        Given(Source::Storing(0x00000013, 65_529), 0, b"", "main", None),
        311_376, 319_488, RunEnd::Exit(0), 77_838, 4100,
    )),
    (Form::HartsSplit, Run(
        Given(Source::Storing(0x00000013, 65_529), 0, b"", "main", None),
        311_376, 319_488, RunEnd::Exit(0), 77_838, 4100,
    )),
];

/// As many instructions that do nothing as the region of code has room for, by form, and behind two targets.
#[rattlefmt::skip]
static FULL: [(Form, Run); 7] = [
    (Form::Plain, Run(
        Given(Source::Idle(262_127), 0, b"", "main", None),
        1_048_576, 1_052_672, RunEnd::Handler(Handler::BadTarget), 262_139, 262_130,
    )),
    (Form::Harts, Run(
        Given(Source::Idle(262_123), 0, b"", "main", None),
        1_048_576, 1_052_672, RunEnd::Handler(Handler::BadTarget), 262_139, 262_126,
    )),
    (Form::Split, Run(
        Given(Source::Idle(262_127), 0, b"", "main", None),
        1_048_576, 1_052_672, RunEnd::Handler(Handler::BadTarget), 262_139, 262_130,
    )),
    (Form::HartsSplit, Run(
        Given(Source::Idle(262_123), 0, b"", "main", None),
        1_048_576, 1_052_672, RunEnd::Handler(Handler::BadTarget), 262_139, 262_126,
    )),
    (Form::Plain, Run(
        Given(Source::Padded(262_073), 0, b"", "main", None),
        1_048_576, 1_052_688, RunEnd::Exit(1), 31, 8,
    )),
    (Form::Split, Run(
        Given(Source::Padded(262_071), 0, b"", "main", None),
        1_048_576, 1_052_688, RunEnd::Exit(1), 32, 9,
    )),
    (Form::HartsSplit, Run(
        Given(Source::Padded(262_067), 0, b"", "main", None),
        1_048_576, 1_052_688, RunEnd::Exit(1), 36, 9,
    )),
];

/// Whether the one hart of a run has a walk of so many addresses.
fn has_walked(report: &RunReport, addresses: u64) -> bool {
    match report.walks.as_slice() {
        [walk] => walk.walk == addresses,
        _ => false,
    }
}

/// Whether a run ended as its row says.
fn has_ended(report: &RunReport, row: &Run) -> bool {
    report.end == row.3
        && report.steps == row.4
        && has_walked(report, row.5)
        && report.output.is_empty()
}

/// Whether an accepted image runs as its row says.
fn runs_so(alloc: Global, checked: &Checked<'_>, row: &Run) -> bool {
    match run(alloc, checked, b"", 1, &mut Script::none(alloc), 1_000_000) {
        Ok(report) => has_ended(&report, row),
        Err(_) => false,
    }
}

/// Whether an image is accepted with a graph, and runs so.
fn is_accepted(alloc: Global, image: &Image<'_>, graph: &Graph, row: &Run) -> bool {
    match verify(alloc, image, graph) {
        Ok(checked) => runs_so(alloc, &checked, row),
        Err(_) => false,
    }
}

/// Whether the image that a file is is accepted with a graph, and runs so.
fn is_read(alloc: Global, file: &[u8], graph: &Graph, row: &Run) -> bool {
    match read_image(file) {
        Ok(image) => is_accepted(alloc, &image, graph, row),
        Err(_) => false,
    }
}

/// Whether a hardened program is as long as its row says, and runs so.
fn is_wanted(alloc: Global, hardened: &Hardened, row: &Run) -> bool {
    hardened.graph.code() == row.1
        && hardened.image.len() == row.2
        && is_read(alloc, hardened.image.as_slice(), &hardened.graph, row)
}

/// Whether a file becomes in a form a program that runs as its row says.
fn becomes(alloc: Global, form: Form, file: &[u8], row: &Run) -> bool {
    match answer(alloc, form, file, &row.0) {
        Ok(hardened) => is_wanted(alloc, &hardened, row),
        Err(_) => false,
    }
}

/// Whether an object becomes in a form a program that runs as its row says.
fn is_right(alloc: Global, form: Form, row: &Run) -> bool {
    match file(alloc, &row.0) {
        Some(file) => becomes(alloc, form, &file, row),
        None => false,
    }
}

#[test]
fn runs(rt: HostRuntime) {
    for (k, row) in RUNS.iter().enumerate() {
        assert!(rt;
            is_right(rt.alloc(), row.0, &row.1),
            "{}, run {k}",
            row.0.name()
        );
    }
}

#[test]
fn runs_stores(rt: HostRuntime) {
    for (k, row) in STORES.iter().enumerate() {
        assert!(rt;
            is_right(rt.alloc(), row.0, &row.1),
            "{}, run {k}",
            row.0.name()
        );
    }
}

#[test]
fn full_region(rt: HostRuntime) {
    for (k, row) in FULL.iter().enumerate() {
        assert!(rt;
            is_right(rt.alloc(), row.0, &row.1),
            "{}, {k}",
            row.0.name()
        );
    }
}
