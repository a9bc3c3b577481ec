//! Programs that run to their ends or to the reason against their next step, and maps that are not legal. Sizes, steps and lines are
//! worked out by hand.

use crate::rows::{Row, Shape, is_right};
use sample_source::{Asked, Given, Source, runs_as};
use std::alloc::Global;

/// Objects without a policy and an input.
#[rattlefmt::skip]
static ROWS: [Row; 39] = [
    Row(Given(Source::Returning, 0, b""), b"", Shape::Plain, b"15", b"", b"", "exit 7 after 3"),
    Row(Given(Source::Calling, 0, b""), b"", Shape::Plain, b"1411k1152525", b"", b"", "exit 1 after 11"),
    Row(Given(Source::Writing, 0, b""), b"", Shape::Plain, b"148.11151111115", b"", b"hi\n", "exit 0 after 15"),
    Row(Given(Source::Recursive, 0, b""), b"", Shape::Plain, b"11111418115", b"", b"", "exit 0 after 65526"),
    Row(Given(Source::Recursive, 0, b""), b"", Shape::Plain, b"11121418115", b"", b"", "exit 0 after 65526"),
    Row(Given(Source::Recursive, 68, b"1305f5ff"), b"", Shape::Plain, b"11111418115", b"", b"", "untame deep 1 28 after 40957"),
    Row(Given(Source::Returning, 64, b"a33f21fe67800000"), b"", Shape::Plain, b"45", b"", b"", "untame window 1 0 after 0"),
    Row(Given(Source::Returning, 64, b"233c21fe67800000"), b"", Shape::Plain, b"45", b"", b"", "exit 0 after 3"),
    Row(Given(Source::Recursive, 64, b"b702004023b0520067800000"), b"", Shape::Plain, b"14511418115", b"", b"", "untame window 1 4 after 1"),
    Row(Given(Source::Returning, 64, b"e780020067800000"), b"", Shape::Plain, b"k5", b"", b"", "untame graph 1 0 after 0"),
    Row(Given(Source::Returning, 64, b"1300000013000000"), b"", Shape::Plain, b"11", b"", b"", "untame end 1 8 after 2"),
    Row(Given(Source::Returning, 64, b"9380100067800000"), b"", Shape::Plain, b"15", b"", b"", "untame return 1 4 after 1"),
    Row(Given(Source::Recursive, 64, b"130570109308d00573000000"), b"", Shape::Plain, b"11111418115", b"", b"", "exit 7 after 3"),
    Row(Given(Source::Recursive, 64, b"130570109308e00573000000"), b"", Shape::Plain, b"11111418115", b"", b"", "exit 7 after 3"),
    Row(Given(Source::Recursive, 64, b"130570100f0000ff73001000"), b"", Shape::Plain, b"11111418115", b"", b"", "break 1 8 after 3"),
    Row(Given(Source::Calling, 80, b"e7801200"), b"", Shape::Plain, b"1411k1152525", b"", b"", "exit 1 after 11"),
    Row(Given(Source::Calling, 80, b"e7802200"), b"", Shape::Plain, b"1411k1152525", b"", b"", "untame graph 1 16 after 4"),
    Row(Given(Source::Calling, 80, b"e7804200"), b"", Shape::Plain, b"1411k1152525", b"", b"", "untame graph 1 16 after 4"),
    Row(Given(Source::Calling, 80, b"e780c201"), b"", Shape::Plain, b"1411k1152525", b"", b"", "exit 2 after 11"),
    Row(Given(Source::Returning, 64, b"833291ff67800000"), b"", Shape::Plain, b"15", b"", b"", "untame window 1 0 after 0"),
    Row(Given(Source::Returning, 64, b"833281ff67800000"), b"", Shape::Plain, b"15", b"", b"", "exit 0 after 3"),
    Row(Given(Source::Returning, 64, b"8342010067800000"), b"", Shape::Plain, b"15", b"", b"", "untame window 1 0 after 0"),
    Row(Given(Source::Returning, 64, b"8342f1ff67800000"), b"", Shape::Plain, b"15", b"", b"", "exit 0 after 3"),
    Row(Given(Source::Returning, 64, b"8332f0ff67800000"), b"", Shape::Plain, b"15", b"", b"", "untame window 1 0 after 0"),
    Row(Given(Source::Calling, 80, b"67800200"), b"", Shape::Plain, b"1411d1152525", b"", b"", "exit 1 after 8"),
    Row(Given(Source::Calling, 80, b"67801200"), b"", Shape::Plain, b"1411d1152525", b"", b"", "exit 1 after 8"),
    Row(Given(Source::Calling, 80, b"67802200"), b"", Shape::Plain, b"1411d1152525", b"", b"", "untame graph 1 16 after 4"),
    Row(Given(Source::Calling, 80, b"67804200"), b"", Shape::Plain, b"1411d1152525", b"", b"", "untame graph 1 16 after 4"),
    Row(Given(Source::Calling, 84, b"e7800200"), b"", Shape::Plain, b"1411kk152525", b"", b"", "untame return 1 28 after 11"),
    Row(Given(Source::Calling, 96, b"e7800200"), b"", Shape::Plain, b"1411k115l525", b"", b"", "untame deep 1 32 after 8194"),
    Row(Given(Source::Calling, 144, b"ffffff7f"), b"", Shape::Plain, b"1411k1152525", b"", b"", "range 1 8"),
    // A gate's word, a branch and a return of other sizes; an offset that is no place; a missing line, and one too many.
    Row(Given(Source::Calling, 0, b""), b"", Shape::Plain, b"1411k1151525", b"", b"", "line 11"),
    Row(Given(Source::Recursive, 0, b""), b"", Shape::Plain, b"11131418115", b"", b"", "line 6"),
    Row(Given(Source::Returning, 0, b""), b"", Shape::Plain, b"16", b"", b"", "line 4"),
    Row(Given(Source::Returning, 0, b""), b"", Shape::Plain, b"1.5", b"", b"", "line 3"),
    Row(Given(Source::Returning, 0, b""), b"", Shape::Plain, b"1", b"", b"", "line 4"),
    Row(Given(Source::Returning, 0, b""), b"", Shape::Plain, b"151", b"", b"", "line 5"),
    Row(Given(Source::Recursive, 0, b""), b"", Shape::Plain, b"15", b"", b"", "line 4"),
    // The address to which it returns, that of the closing, as its status.
    Row(Given(Source::Returning, 64, b"13850000"), b"", Shape::Plain, b"15", b"", b"", "exit 56 after 3"),
];

/// The same at maps of the form for several harts, whose units begin 16 bytes later.
#[rattlefmt::skip]
static HARTS: [Row; 19] = [
    Row(Given(Source::Returning, 0, b""), b"", Shape::Harts, b"15", b"", b"", "exit 7 after 3"),
    Row(Given(Source::Returning, 64, b"13850000"), b"", Shape::Harts, b"15", b"", b"", "exit 72 after 3"),
    Row(Given(Source::Calling, 0, b""), b"", Shape::Harts, b"1411k1152525", b"", b"", "exit 1 after 11"),
    Row(Given(Source::Writing, 0, b""), b"", Shape::Harts, b"148.11151111115", b"", b"hi\n", "exit 0 after 15"),
    Row(Given(Source::Recursive, 0, b""), b"", Shape::Harts, b"11111418115", b"", b"", "exit 0 after 65526"),
    Row(Given(Source::Recursive, 0, b""), b"", Shape::Harts, b"11121418115", b"", b"", "exit 0 after 65526"),
    Row(Given(Source::Recursive, 68, b"1305f5ff"), b"", Shape::Harts, b"11111418115", b"", b"", "untame deep 1 28 after 40957"),
    Row(Given(Source::Returning, 64, b"e780020067800000"), b"", Shape::Harts, b"k5", b"", b"", "untame graph 1 0 after 0"),
    Row(Given(Source::Returning, 64, b"9380100067800000"), b"", Shape::Harts, b"15", b"", b"", "untame return 1 4 after 1"),
    Row(Given(Source::Returning, 64, b"833291ff67800000"), b"", Shape::Harts, b"15", b"", b"", "untame window 1 0 after 0"),
    Row(Given(Source::Returning, 64, b"833281ff67800000"), b"", Shape::Harts, b"15", b"", b"", "exit 0 after 3"),
    Row(Given(Source::Calling, 80, b"e7802200"), b"", Shape::Harts, b"1411k1152525", b"", b"", "untame graph 1 16 after 4"),
    Row(Given(Source::Calling, 80, b"e780c201"), b"", Shape::Harts, b"1411k1152525", b"", b"", "exit 2 after 11"),
    Row(Given(Source::Calling, 144, b"ffffff7f"), b"", Shape::Harts, b"1411k1152525", b"", b"", "range 1 8"),
    Row(Given(Source::Calling, 0, b""), b"", Shape::Harts, b"1411k1152515", b"", b"", "line 13"),
    Row(Given(Source::Recursive, 0, b""), b"", Shape::Harts, b"15", b"", b"", "line 4"),
    // A return of 24 bytes; a missing line, and one too many.
    Row(Given(Source::Returning, 0, b""), b"", Shape::Harts, b"16", b"", b"", "line 4"),
    Row(Given(Source::Returning, 0, b""), b"", Shape::Harts, b"1", b"", b"", "line 4"),
    Row(Given(Source::Returning, 0, b""), b"", Shape::Harts, b"151", b"", b"", "line 5"),
];

/// The same where calls and jumps have labels of their own.
#[rattlefmt::skip]
static SPLIT: [Row; 8] = [
    Row(Given(Source::Calling, 0, b""), b"", Shape::Split, b"1411k1153535", b"", b"", "exit 1 after 11"),
    Row(Given(Source::Calling, 0, b""), b"", Shape::HartsSplit, b"1411k1153535", b"", b"", "exit 1 after 11"),
    Row(Given(Source::Calling, 80, b"67800200"), b"", Shape::Split, b"1411d1153535", b"", b"", "exit 1 after 8"),
    // To the second function, which is 32 bytes behind the first, and to where it would stand behind one word.
    Row(Given(Source::Calling, 80, b"e7800202"), b"", Shape::Split, b"1411k1153535", b"", b"", "exit 2 after 11"),
    Row(Given(Source::Calling, 80, b"e780c201"), b"", Shape::Split, b"1411k1153535", b"", b"", "untame graph 1 16 after 4"),
    Row(Given(Source::Calling, 80, b"e7804200"), b"", Shape::Split, b"1411k1153535", b"", b"", "untame graph 1 16 after 4"),
    // One word where there are to be two, and two where there is to be one.
    Row(Given(Source::Calling, 0, b""), b"", Shape::Split, b"1411k1152525", b"", b"", "line 11"),
    Row(Given(Source::Calling, 0, b""), b"", Shape::Plain, b"1411k1153535", b"", b"", "line 11"),
];

/// Maps of the object that returns of which a line is wrong, as texts.
#[rattlefmt::skip]
static TEXTS: [(&[u8], &str); 6] = [
    // A first gate that stands too far on.
    (b"rvcfi-map 1\nat 40000044 0001 00000000\nat 40000048 0001 00000004\nat 4000005c 0001 00000008\nend\n", "line 2"),
    // Places in a section without code.
    (b"rvcfi-map 1\nat 40000040 0002 00000000\nat 40000044 0002 00000004\nat 40000058 0002 00000008\nend\n", "line 2"),
    // No place.
    (b"rvcfi-map 1\nend\n", "line 2"),
    // For one hart, gates that stand where those for several do.
    (b"rvcfi-map 1\nat 40000050 0001 00000000\nat 40000054 0001 00000004\nat 40000068 0001 00000008\nend\n", "line 2"),
    // A first gate for several harts that stands too far on.
    (b"rvcfi-map 2 harts\nat 40000054 0001 00000000\nat 40000058 0001 00000004\nat 4000006c 0001 00000008\nend\n", "line 2"),
    // No place, for several harts.
    (b"rvcfi-map 2 harts\nend\n", "line 2"),
];

/// The first of two computed calls may go to the one function, the second to the other.
const APART: &[u8] = b"rvcfi-policy 1\n\
    site main+10 f+0\n\
    site main+14 g+0\n\
    end\n";

/// A computed call may go to the first of two functions alone.
const FIRST_ALONE: &[u8] = b"rvcfi-policy 1\n\
    site main+10 f+0\n\
    end\n";

/// Asks for four bytes, writes those that came and ends with their count.
const READING: &[u8] = b"\
    130640009308f0037300000013060500130510009308000473000000\
    130506009308d0057300000067800000";

/// The same of a file descriptor that is not read from.
const READING_ELSEWHERE: &[u8] = b"\
    130510009308f0037300000013060500130510009308000473000000\
    130506009308d0057300000067800000";

/// Asks for four bytes twice, writes those that came, and runs into the section's end.
const READING_TWICE: &[u8] = b"\
    130640009308f0037300000093050500130500007300000013064500\
    93050000130510009308000473000000";

/// Objects that are run under a policy or with an input.
#[rattlefmt::skip]
static FURTHER: [Row; 9] = [
    Row(Given(Source::Calling, 84, b"e7800200"), APART, Shape::Plain, b"1411kk152525", b"", b"", "untame graph 1 20 after 7"),
    Row(Given(Source::Calling, 80, b"e780c201"), FIRST_ALONE, Shape::Plain, b"1411k1152515", b"", b"", "untame graph 1 16 after 4"),
    Row(Given(Source::Recursive, 64, READING), b"", Shape::Plain, b"11111111115", b"ab", b"ab", "exit 2 after 10"),
    Row(Given(Source::Recursive, 64, READING), b"", Shape::Plain, b"11111111115", b"abcdef", b"abcd", "exit 4 after 10"),
    Row(Given(Source::Recursive, 64, READING), b"", Shape::Plain, b"11111111115", b"", b"", "exit 0 after 10"),
    Row(Given(Source::Recursive, 64, READING_ELSEWHERE), b"", Shape::Plain, b"11111111115", b"ab", b"", "exit 247 after 10"),
    Row(Given(Source::Recursive, 64, READING_TWICE), b"", Shape::Plain, b"11111111111", b"abcdef", b"abcdef", "untame end 1 44 after 11"),
    Row(Given(Source::Calling, 0, b""), FIRST_ALONE, Shape::Harts, b"1411k1152515", b"", b"", "exit 1 after 11"),
    Row(Given(Source::Calling, 80, b"e780c201"), FIRST_ALONE, Shape::Harts, b"1411k1152515", b"", b"", "untame graph 1 16 after 4"),
];

/// Whether what is told of the object that returns at a map is so.
fn is_told_at(alloc: Global, row: &(&[u8], &str)) -> bool {
    let asked = Asked {
        entry: b"main",
        policy: b"",
        map: row.0,
        input: b"",
        output: b"",
        told: row.1,
    };
    runs_as(alloc, &Given(Source::Returning, 0, b""), &asked)
}

#[test]
fn runs_programs(rt: HostRuntime) {
    for (k, row) in ROWS.iter().enumerate() {
        assert!(rt; is_right(rt.alloc(), row), "row {k}");
    }
}

#[test]
fn runs_programs_for_harts(rt: HostRuntime) {
    for (k, row) in HARTS.iter().enumerate() {
        assert!(rt; is_right(rt.alloc(), row), "row {k}");
    }
}

#[test]
fn runs_programs_with_labels_apart(rt: HostRuntime) {
    for (k, row) in SPLIT.iter().enumerate() {
        assert!(rt; is_right(rt.alloc(), row), "row {k}");
    }
}

#[test]
fn runs_programs_further(rt: HostRuntime) {
    for (k, row) in FURTHER.iter().enumerate() {
        assert!(rt; is_right(rt.alloc(), row), "row {k}");
    }
}

#[test]
fn wrong_lines(rt: HostRuntime) {
    for (k, row) in TEXTS.iter().enumerate() {
        assert!(rt; is_told_at(rt.alloc(), row), "row {k}");
    }
}
