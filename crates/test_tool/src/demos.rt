//! The command `demo`: the lines that another generator, hardener and interpreter gave for three numbers.

use sample_calls::{ends_with, first_wrong};
use std::alloc::Global;
use tool_io::{MemFiles, MemSink};

/// Command lines, each with its status and its text, in the form of `sample_calls::first_wrong`. A number may have zeros before it.
const ZERO: &[u8] =
    b"rvcfi,demo,0 = 0: object 229600 functions 2000\nimage 196224 code 172432 classes 1 sites 474\nrun exit 148 steps 112252 walk 38660\ncompare same 1\n";

const ONE: &[u8] =
    b"rvcfi,demo,0000000001 = 0: object 228872 functions 2000\nimage 192128 code 170928 classes 1 sites 455\nrun exit 198 steps 111335 walk 38359\ncompare same 1\n";

const OTHER: &[u8] =
    b"rvcfi,demo,12345 = 0: object 228936 functions 2000\nimage 192128 code 171720 classes 1 sites 468\nrun exit 143 steps 110744 walk 38058\ncompare same 1\n";

const LINES: &[u8] = b"\
    rvcfi,demo = 2: usage: rvcfi rewrite|verify|run|compare|demo|harden|link|compare-link\n;\
    rvcfi,demo,1,2 = 2: usage: rvcfi rewrite|verify|run|compare|demo|harden|link|compare-link\n;\
    rvcfi,demo,one = 2: usage: rvcfi rewrite|verify|run|compare|demo|harden|link|compare-link\n;\
    rvcfi,demo,1000000001 = 2: usage: rvcfi rewrite|verify|run|compare|demo|harden|link|compare-link\n;\
    rvcfi,demo,00000000001 = 2: usage: rvcfi rewrite|verify|run|compare|demo|harden|link|compare-link\n";

/// Whether the largest number's object has the size that another generator gave it, and nothing differs.
fn is_shown(alloc: Global, files: &mut MemFiles) -> bool {
    let mut out = MemSink::new(alloc, Vec::new(alloc));
    ends_with(alloc, "rvcfi,demo,1000000000", files, &mut out, 0)
        && out
            .bytes()
            .starts_with(b"object 228744 functions 2000\nimage ")
        && out.bytes().ends_with(b"\ncompare same 1\n")
}

#[test]
fn words(rt: HostRuntime) {
    let mut files = MemFiles::new(rt.alloc(), Vec::new(rt.alloc()));
    assert_eq!(rt; first_wrong(rt.alloc(), &mut files, LINES, 5), None);
}

#[test]
fn number_zero(rt: HostRuntime) {
    let mut files = MemFiles::new(rt.alloc(), Vec::new(rt.alloc()));
    assert_eq!(rt; first_wrong(rt.alloc(), &mut files, ZERO, 1), None);
}

#[test]
fn number_one(rt: HostRuntime) {
    let mut files = MemFiles::new(rt.alloc(), Vec::new(rt.alloc()));
    assert_eq!(rt; first_wrong(rt.alloc(), &mut files, ONE, 1), None);
}

#[test]
fn another_number(rt: HostRuntime) {
    let mut files = MemFiles::new(rt.alloc(), Vec::new(rt.alloc()));
    assert_eq!(rt; first_wrong(rt.alloc(), &mut files, OTHER, 1), None);
}

#[test]
fn largest_number(rt: HostRuntime) {
    let mut files = MemFiles::new(rt.alloc(), Vec::new(rt.alloc()));
    assert!(rt; is_shown(rt.alloc(), &mut files));
}
