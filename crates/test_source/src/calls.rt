//! Programs under lists of system calls: which calls go on, and which are told by the reason against them; how many bytes stand
//! for an `ecall` under a list of 1, 2, 3 and 8 numbers, and which line of a map is wrong where it has others. Sizes, steps and
//! lines are worked out by hand.

use crate::rows::{Row, Shape, is_right};
use sample_source::{Given, Source};

const NO_LIST: &[u8] = b"rvcfi-policy 1\nend\n";

const ZERO: &[u8] = b"rvcfi-policy 2\ncalls 0\nend\n";

const READ: &[u8] = b"rvcfi-policy 2\ncalls 63\nend\n";

const WRITE: &[u8] = b"rvcfi-policy 2\ncalls 64\nend\n";

const ALL_BUT_LAST: &[u8] = b"rvcfi-policy 2\ncalls 2046\nend\n";

const LAST: &[u8] = b"rvcfi-policy 2\ncalls 2047\nend\n";

const READ_WRITE: &[u8] = b"rvcfi-policy 2\ncalls 63 64\nend\n";

const THREE: &[u8] = b"rvcfi-policy 2\ncalls 63 64 93\nend\n";

const EIGHT: &[u8] = b"rvcfi-policy 2\ncalls 0 1 2 3 63 64 93 2047\nend\n";

/// Asks for four bytes, writes those that came and ends with their count: calls 63, 64 and 93, of the third, the seventh and the
/// tenth instruction.
const READING: &[u8] = b"\
    130640009308f0037300000013060500130510009308000473000000\
    130506009308d0057300000067800000";

/// Reads the number of its call from data that are 0: `lui x5, 16; ld x17, 0(x5); ecall; ret`.
const FROM_DATA: &[u8] = b"b702010083b802007300000067800000";

/// The number is 4096 + 64.
const BEYOND: &[u8] = b"b7180000938808047300000067800000";

/// The number is 2047, and the greatest of 64 bits.
const OF_LAST: &[u8] = b"9308f07f7300000067800000";

const OF_GREATEST: &[u8] = b"9308f0ff7300000067800000";

/// An `ebreak`.
const BREAKING: &[u8] = b"130570100f0000ff73001000";

#[rattlefmt::skip]
static ROWS: [Row; 40] = [
    // Each call in the list, and the first, the second and the third not there.
    Row(Given(Source::Recursive, 64, READING), NO_LIST, Shape::Plain, b"11111111115", b"ab", b"ab", "exit 2 after 10"),
    Row(Given(Source::Recursive, 64, READING), WRITE, Shape::Plain, b"11411141145", b"ab", b"", "untame call 1 8 after 2"),
    Row(Given(Source::Recursive, 64, READING), READ, Shape::Plain, b"11411141145", b"ab", b"", "untame call 1 24 after 6"),
    Row(Given(Source::Recursive, 64, READING), READ_WRITE, Shape::Plain, b"11611161165", b"ab", b"ab", "untame call 1 36 after 9"),
    Row(Given(Source::Recursive, 64, READING), THREE, Shape::Plain, b"11811181185", b"ab", b"ab", "exit 2 after 10"),
    Row(Given(Source::Recursive, 64, READING), EIGHT, Shape::Plain, b"11i111i11i5", b"ab", b"ab", "exit 2 after 10"),
    Row(Given(Source::Recursive, 64, READING), THREE, Shape::Harts, b"11811181185", b"ab", b"ab", "exit 2 after 10"),
    Row(Given(Source::Recursive, 64, READING), EIGHT, Shape::Split, b"11i111i11i5", b"ab", b"ab", "exit 2 after 10"),
    Row(Given(Source::Recursive, 64, READING), READ_WRITE, Shape::HartsSplit, b"11611161165", b"ab", b"ab", "untame call 1 36 after 9"),
    // Another size: without a list, and with one more or less number, at each of the three.
    Row(Given(Source::Recursive, 64, READING), NO_LIST, Shape::Plain, b"11411141145", b"ab", b"", "line 5"),
    Row(Given(Source::Recursive, 64, READING), READ, Shape::Plain, b"11111111115", b"ab", b"", "line 5"),
    Row(Given(Source::Recursive, 64, READING), READ, Shape::Plain, b"11611161165", b"ab", b"", "line 5"),
    Row(Given(Source::Recursive, 64, READING), READ_WRITE, Shape::Plain, b"11411141145", b"ab", b"", "line 5"),
    Row(Given(Source::Recursive, 64, READING), READ_WRITE, Shape::Plain, b"11611181165", b"ab", b"", "line 9"),
    Row(Given(Source::Recursive, 64, READING), THREE, Shape::Plain, b"11811161185", b"ab", b"", "line 9"),
    Row(Given(Source::Recursive, 64, READING), THREE, Shape::Plain, b"11811181165", b"ab", b"", "line 12"),
    Row(Given(Source::Recursive, 64, READING), THREE, Shape::Plain, b"11811181115", b"ab", b"", "line 12"),
    Row(Given(Source::Recursive, 64, READING), EIGHT, Shape::Plain, b"11i111i11h5", b"ab", b"", "line 12"),
    Row(Given(Source::Recursive, 64, READING), EIGHT, Shape::Plain, b"11k111i11i5", b"ab", b"", "line 5"),
    Row(Given(Source::Recursive, 64, READING), THREE, Shape::Harts, b"11811181115", b"ab", b"", "line 12"),
    // Other places keep their sizes.
    Row(Given(Source::Recursive, 64, READING), READ, Shape::Plain, b"41411141145", b"ab", b"", "line 3"),
    Row(Given(Source::Recursive, 64, READING), READ, Shape::Plain, b"11411141144", b"ab", b"", "line 13"),
    Row(Given(Source::Recursive, 64, BREAKING), WRITE, Shape::Plain, b"11111418115", b"", b"", "break 1 8 after 3"),
    Row(Given(Source::Recursive, 64, BREAKING), WRITE, Shape::Plain, b"11411418115", b"", b"", "line 5"),
    Row(Given(Source::Recursive, 64, BREAKING), EIGHT, Shape::Plain, b"11111418115", b"", b"", "break 1 8 after 3"),
    // The number is all of x17.
    Row(Given(Source::Recursive, 64, FROM_DATA), WRITE, Shape::Plain, b"11451418115", b"", b"", "untame call 1 8 after 2"),
    Row(Given(Source::Recursive, 64, FROM_DATA), ZERO, Shape::Plain, b"11451418115", b"", b"", "exit 218 after 5"),
    Row(Given(Source::Recursive, 64, FROM_DATA), EIGHT, Shape::Plain, b"11i51418115", b"", b"", "exit 218 after 5"),
    Row(Given(Source::Recursive, 64, FROM_DATA), THREE, Shape::Plain, b"11851418115", b"", b"", "untame call 1 8 after 2"),
    Row(Given(Source::Recursive, 64, BEYOND), WRITE, Shape::Plain, b"11451418115", b"", b"", "untame call 1 8 after 2"),
    Row(Given(Source::Recursive, 64, BEYOND), NO_LIST, Shape::Plain, b"11151418115", b"", b"", "exit 218 after 5"),
    Row(Given(Source::Recursive, 64, OF_LAST), LAST, Shape::Plain, b"14511418115", b"", b"", "exit 218 after 4"),
    Row(Given(Source::Recursive, 64, OF_LAST), EIGHT, Shape::Plain, b"1i511418115", b"", b"", "exit 218 after 4"),
    Row(Given(Source::Recursive, 64, OF_LAST), ALL_BUT_LAST, Shape::Plain, b"14511418115", b"", b"", "untame call 1 4 after 1"),
    Row(Given(Source::Recursive, 64, OF_GREATEST), LAST, Shape::Plain, b"14511418115", b"", b"", "untame call 1 4 after 1"),
    // A function that a pointer calls begins with an `ecall`, behind the words of its gate.
    Row(Given(Source::Calling, 96, b"73000000"), ZERO, Shape::Plain, b"1411k1155525", b"", b"", "exit 218 after 11"),
    Row(Given(Source::Calling, 96, b"73000000"), WRITE, Shape::Plain, b"1411k1155525", b"", b"", "untame call 1 32 after 5"),
    Row(Given(Source::Calling, 96, b"73000000"), WRITE, Shape::Plain, b"1411k1152525", b"", b"", "line 11"),
    Row(Given(Source::Calling, 96, b"73000000"), ZERO, Shape::Split, b"1411k1156535", b"", b"", "exit 218 after 11"),
    Row(Given(Source::Calling, 96, b"73000000"), WRITE, Shape::Split, b"1411k1156535", b"", b"", "untame call 1 32 after 5"),
];

/// What writes a text. The closing's call is in no list.
#[rattlefmt::skip]
static WRITING: [Row; 7] = [
    Row(Given(Source::Writing, 0, b""), WRITE, Shape::Plain, b"148.11151111145", b"", b"hi\n", "exit 0 after 15"),
    Row(Given(Source::Writing, 0, b""), READ, Shape::Plain, b"148.11151111145", b"", b"", "untame call 1 52 after 8"),
    Row(Given(Source::Writing, 0, b""), WRITE, Shape::Plain, b"148.11151111115", b"", b"", "line 15"),
    Row(Given(Source::Writing, 0, b""), NO_LIST, Shape::Plain, b"148.11151111145", b"", b"", "line 15"),
    Row(Given(Source::Writing, 0, b""), WRITE, Shape::Harts, b"148.11151111145", b"", b"hi\n", "exit 0 after 15"),
    Row(Given(Source::Writing, 0, b""), READ, Shape::Harts, b"148.11151111145", b"", b"", "untame call 1 52 after 8"),
    Row(Given(Source::Writing, 0, b""), READ, Shape::Harts, b"148.11151111115", b"", b"", "line 15"),
];

#[test]
fn runs_under_lists(rt: HostRuntime) {
    for (k, row) in ROWS.iter().enumerate() {
        assert!(rt; is_right(rt.alloc(), row), "row {k}");
    }
}

#[test]
fn writes_under_lists(rt: HostRuntime) {
    for (k, row) in WRITING.iter().enumerate() {
        assert!(rt; is_right(rt.alloc(), row), "row {k}");
    }
}
