//! Command lines, with the status and the text of each, and the lines of verdicts.

use crate::calls::check;
use cfi_tool::Verdict;
use cfi_verify::{Reject, Rule};
use elf_image::ImageRefusal;
use refusals::Refusal;
use std::alloc::Global;
use text_lines::Reason;

/// Command lines, with the status and the text of each, in the form of `sample_calls::first_wrong`.
const COMMANDS: &[u8] = b"\
    rvcfi,verify,image,graph = 0: accepted\n;\
    rvcfi,verify,graph,graph = 1: refused 22 Short 64\n;\
    rvcfi,verify,empty,empty = 1: refused 22 Short 0\n;\
    rvcfi,verify,byte,byte = 1: refused 22 Short 1\n;\
    rvcfi,verify,image,image = 1: refused 23 Graph 1 Form\n;\
    rvcfi,verify,image,empty = 1: refused 23 Graph 1 Form\n;\
    rvcfi,verify,image,capitals = 1: refused 23 Graph 3 Form\n;\
    rvcfi,verify,image = 2: usage: rvcfi rewrite|verify|run|compare|demo|harden|link|compare-link\n;\
    rvcfi,verify,image,graph,graph = 2: usage: rvcfi rewrite|verify|run|compare|demo|harden|link|compare-link\n;\
    rvcfi,run,image = 2: usage: rvcfi rewrite|verify|run|compare|demo|harden|link|compare-link\n;\
    rvcfi = 2: usage: rvcfi rewrite|verify|run|compare|demo|harden|link|compare-link\n;\
    rvcfi,verify,-image,graph = 2: usage: rvcfi rewrite|verify|run|compare|demo|harden|link|compare-link\n;\
    rvcfi,verify,--,-image,graph = 3: read fault -image\n;\
    rvcfi,verify,--,-h,graph = 3: read fault -h\n;\
    rvcfi,verify,--,image,graph = 0: accepted\n;\
    rvcfi,verify,image,-h = 2: usage: rvcfi rewrite|verify|run|compare|demo|harden|link|compare-link\n;\
    rvcfi,verify,--help,graph = 2: usage: rvcfi rewrite|verify|run|compare|demo|harden|link|compare-link\n;\
    rvcfi,verify,-V,--version = 2: usage: rvcfi rewrite|verify|run|compare|demo|harden|link|compare-link\n;\
    rvcfi,--help,verify,image,graph = 2: usage: rvcfi rewrite|verify|run|compare|demo|harden|link|compare-link\n;\
    rvcfi,--version = 0: rvcfi 1.0.0\n;\
    ,verify,image,graph = 0: accepted\n;\
    rvcfi,verify,absent,nothing = 3: read fault absent\n;\
    rvcfi,verify,image,nothing = 3: read fault nothing\n;\
    rvcfi,verify,harts.img,harts.graph = 0: accepted\n;\
    rvcfi,verify,harts.img,a.graph = 1: rejected Length 96 80\n;\
    rvcfi,verify,image,long = 6: too long long\n";

#[test]
fn commands(rt: HostRuntime) {
    check(&rt, rt.alloc(), COMMANDS, 26);
}

/// Verdicts, and the line of each.
const LINES: [(Verdict, &str); 14] = [
    (Verdict::Refused(Refusal::NoEntry), "refused 17 NoEntry\n"),
    (
        Verdict::Refused(Refusal::Policy(300)),
        "refused 18 Policy 300\n",
    ),
    (
        Verdict::Refused(Refusal::CodeTooLarge(1_048_580)),
        "refused 19 CodeTooLarge 1048580\n",
    ),
    (
        Verdict::Refused(Refusal::DataTooLarge(33_554_433, 65_537)),
        "refused 20 DataTooLarge 33554433 65537\n",
    ),
    (
        Verdict::Refused(Refusal::RelocRange(2, 24)),
        "refused 21 RelocRange 2 24\n",
    ),
    (
        Verdict::Refused(Refusal::Image(ImageRefusal::Byte(16))),
        "refused 22 Byte 16\n",
    ),
    (
        Verdict::Refused(Refusal::Image(ImageRefusal::Long(8192))),
        "refused 22 Long 8192\n",
    ),
    (
        Verdict::Refused(Refusal::Graph(3, Reason::Form)),
        "refused 23 Graph 3 Form\n",
    ),
    (
        Verdict::Refused(Refusal::Graph(12, Reason::Order)),
        "refused 23 Graph 12 Order\n",
    ),
    (
        Verdict::Refused(Refusal::Script(2, Reason::Range)),
        "refused 25 Script 2 Range\n",
    ),
    (Verdict::Refused(Refusal::Harts(8)), "refused 26 Harts 8\n"),
    (
        Verdict::Rejected(Reject::Length(80, 84)),
        "rejected Length 80 84\n",
    ),
    (
        Verdict::Rejected(Reject::At(Rule::Astray, 0x4000_0040)),
        "rejected Astray 40000040\n",
    ),
    (
        Verdict::Rejected(Reject::At(Rule::Unused, 0x4000_00e4)),
        "rejected Unused 400000e4\n",
    ),
];

/// Whether a verdict has its line.
fn has_line(alloc: Global, row: &(Verdict, &str)) -> bool {
    match row.0.text(alloc) {
        Ok(line) => line.as_slice() == row.1.as_bytes(),
        Err(_) => false,
    }
}

#[test]
fn lines(rt: HostRuntime) {
    for row in &LINES {
        assert!(rt; has_line(rt.alloc(), row), "{}", row.1);
    }
}
