//! Images whose system calls are guarded, and their graphs: what is put of each. tests/model/lists_tables.py at the top of the repository
//! prints this, by its model of the rules.

use crate::pairs::verifies;
use rv_image::ImageVersion;
use rv_image::ImageVersion::{EightHarts, OneHart};
use rv_word::NoMemory;
use sample_calls::{image_as, put};
use sample_programs::{code, code_of_harts};
use std::alloc::Global;

#[rattlefmt::skip]
const GUARDED: [u32; 19] = [
    0x00001037, 0x00100513, 0x000105b7, 0x00300613, 0x04000893, 0x04000f93, 0x011f8863, 0x05d00f93,
    0x011f8463, 0xf9dff06f, 0x00000073, 0x00000513, 0xff1502e3, 0xff81bf83, 0xff818193, 0x001f8463,
    0xf85ff06f, 0x000f8067, 0xf79ff06f,
];

#[rattlefmt::skip]
const BARE: [u32; 14] = [
    0x00001037, 0x00100513, 0x000105b7, 0x00300613, 0x04000893, 0x00000073, 0x00000513, 0xff150ce3,
    0xff81bf83, 0xff818193, 0x001f8463, 0xf99ff06f, 0x000f8067, 0xf8dff06f,
];

#[rattlefmt::skip]
const EIGHT: [u32; 31] = [
    0x00001037, 0x00100513, 0x000105b7, 0x00300613, 0x04000893, 0x00000f93, 0x051f8063, 0x00100f93,
    0x031f8c63, 0x03e00f93, 0x031f8863, 0x03f00f93, 0x031f8463, 0x04000f93, 0x031f8063, 0x05d00f93,
    0x011f8c63, 0x05e00f93, 0x011f8863, 0x7ff00f93, 0x011f8463, 0xf6dff06f, 0x00000073, 0x00000513,
    0xfb150ae3, 0xff81bf83, 0xff818193, 0x001f8463, 0xf55ff06f, 0x000f8067, 0xf49ff06f,
];

#[rattlefmt::skip]
const GUARDED_OF_HARTS: [u32; 19] = [
    0x00001037, 0x00100513, 0x000105b7, 0x00300613, 0x04000893, 0x04000f93, 0x011f8863, 0x05d00f93,
    0x011f8463, 0xf8dff06f, 0x00000073, 0x00000513, 0xff1502e3, 0xff81bf83, 0xff818193, 0x001f8463,
    0xf75ff06f, 0x000f8067, 0xf69ff06f,
];

#[rattlefmt::skip]
const BARE_OF_HARTS: [u32; 14] = [
    0x00001037, 0x00100513, 0x000105b7, 0x00300613, 0x04000893, 0x00000073, 0x00000513, 0xff150ce3,
    0xff81bf83, 0xff818193, 0x001f8463, 0xf89ff06f, 0x000f8067, 0xf7dff06f,
];

#[rattlefmt::skip]
const EIGHT_OF_HARTS: [u32; 31] = [
    0x00001037, 0x00100513, 0x000105b7, 0x00300613, 0x04000893, 0x00000f93, 0x051f8063, 0x00100f93,
    0x031f8c63, 0x03e00f93, 0x031f8863, 0x03f00f93, 0x031f8463, 0x04000f93, 0x031f8063, 0x05d00f93,
    0x011f8c63, 0x05e00f93, 0x011f8863, 0x7ff00f93, 0x011f8463, 0xf5dff06f, 0x00000073, 0x00000513,
    0xfb150ae3, 0xff81bf83, 0xff818193, 0x001f8463, 0xf45ff06f, 0x000f8067, 0xf39ff06f,
];

/// The version of the image, its units, the offsets of words in its code with what is put there, the graph, and what is told.
struct Case(
    ImageVersion,
    &'static [u32],
    &'static [(usize, u32)],
    &'static [u8],
    &'static str,
);

#[rattlefmt::skip]
static CASES: [Case; 64] = [
    // accepted as it is
    Case(OneHart, &GUARDED, &[],
        b"rvcfi-graph 1\ncode 40000000 0000008c\ncalls 64 93\nclass 00001 40000040\ncall 4000000c 40000040\nedge 40000070 40000054\nend\n",
        "accepted\n"),
    // a bare call in place of the jump
    Case(OneHart, &GUARDED, &[(0x64, 0x00000073)],
        b"rvcfi-graph 1\ncode 40000000 0000008c\ncalls 64 93\nclass 00001 40000040\ncall 4000000c 40000040\nedge 40000070 40000054\nend\n",
        "rejected Unit 40000054\n"),
    // a number that is not listed
    Case(OneHart, &GUARDED, &[(0x54, 0x04100f93)],
        b"rvcfi-graph 1\ncode 40000000 0000008c\ncalls 64 93\nclass 00001 40000040\ncall 4000000c 40000040\nedge 40000070 40000054\nend\n",
        "rejected Unit 40000054\n"),
    // the number of another register
    Case(OneHart, &GUARDED, &[(0x54, 0x04088f93)],
        b"rvcfi-graph 1\ncode 40000000 0000008c\ncalls 64 93\nclass 00001 40000040\ncall 4000000c 40000040\nedge 40000070 40000054\nend\n",
        "rejected Unit 40000054\n"),
    // a negative number
    Case(OneHart, &GUARDED, &[(0x5c, 0xfa300f93)],
        b"rvcfi-graph 1\ncode 40000000 0000008c\ncalls 64 93\nclass 00001 40000040\ncall 4000000c 40000040\nedge 40000070 40000054\nend\n",
        "rejected Unit 40000054\n"),
    // x16 is tested
    Case(OneHart, &GUARDED, &[(0x58, 0x010f8863)],
        b"rvcfi-graph 1\ncode 40000000 0000008c\ncalls 64 93\nclass 00001 40000040\ncall 4000000c 40000040\nedge 40000070 40000054\nend\n",
        "rejected Unit 40000054\n"),
    // the other condition
    Case(OneHart, &GUARDED, &[(0x58, 0x011f9863)],
        b"rvcfi-graph 1\ncode 40000000 0000008c\ncalls 64 93\nclass 00001 40000040\ncall 4000000c 40000040\nedge 40000070 40000054\nend\n",
        "rejected Unit 40000054\n"),
    // the test goes past the call
    Case(OneHart, &GUARDED, &[(0x58, 0x011f8a63)],
        b"rvcfi-graph 1\ncode 40000000 0000008c\ncalls 64 93\nclass 00001 40000040\ncall 4000000c 40000040\nedge 40000070 40000054\nend\n",
        "rejected Unit 40000054\n"),
    // the test goes to the jump
    Case(OneHart, &GUARDED, &[(0x60, 0x011f8263)],
        b"rvcfi-graph 1\ncode 40000000 0000008c\ncalls 64 93\nclass 00001 40000040\ncall 4000000c 40000040\nedge 40000070 40000054\nend\n",
        "rejected Unit 40000054\n"),
    // to the other handler
    Case(OneHart, &GUARDED, &[(0x64, 0xfa1ff06f)],
        b"rvcfi-graph 1\ncode 40000000 0000008c\ncalls 64 93\nclass 00001 40000040\ncall 4000000c 40000040\nedge 40000070 40000054\nend\n",
        "rejected Unit 40000054\n"),
    // a jump that saves
    Case(OneHart, &GUARDED, &[(0x64, 0xf9dff0ef)],
        b"rvcfi-graph 1\ncode 40000000 0000008c\ncalls 64 93\nclass 00001 40000040\ncall 4000000c 40000040\nedge 40000070 40000054\nend\n",
        "rejected Unit 40000054\n"),
    // a break in place of the call
    Case(OneHart, &GUARDED, &[(0x68, 0x00100073)],
        b"rvcfi-graph 1\ncode 40000000 0000008c\ncalls 64 93\nclass 00001 40000040\ncall 4000000c 40000040\nedge 40000070 40000054\nend\n",
        "rejected Unit 40000054\n"),
    // nothing in place of the call
    Case(OneHart, &GUARDED, &[(0x68, 0x00000013)],
        b"rvcfi-graph 1\ncode 40000000 0000008c\ncalls 64 93\nclass 00001 40000040\ncall 4000000c 40000040\nedge 40000070 40000054\nend\n",
        "rejected Unit 40000054\n"),
    // a second call
    Case(OneHart, &GUARDED, &[(0x6c, 0x00000073)],
        b"rvcfi-graph 1\ncode 40000000 0000008c\ncalls 64 93\nclass 00001 40000040\ncall 4000000c 40000040\nedge 40000070 40000054\nend\n",
        "rejected Unit 4000006c\n"),
    // a call before it
    Case(OneHart, &GUARDED, &[(0x50, 0x00000073)],
        b"rvcfi-graph 1\ncode 40000000 0000008c\ncalls 64 93\nclass 00001 40000040\ncall 4000000c 40000040\nedge 40000070 40000054\nend\n",
        "rejected Unit 40000050\n"),
    // the other order
    Case(OneHart, &GUARDED, &[(0x54, 0x05d00f93), (0x5c, 0x04000f93)],
        b"rvcfi-graph 1\ncode 40000000 0000008c\ncalls 64 93\nclass 00001 40000040\ncall 4000000c 40000040\nedge 40000070 40000054\nend\n",
        "rejected Unit 40000054\n"),
    // the graph has `calls 64`
    Case(OneHart, &GUARDED, &[],
        b"rvcfi-graph 1\ncode 40000000 0000008c\ncalls 64\nclass 00001 40000040\ncall 4000000c 40000040\nedge 40000070 40000054\nend\n",
        "rejected Unit 40000054\n"),
    // the graph has `calls 93`
    Case(OneHart, &GUARDED, &[],
        b"rvcfi-graph 1\ncode 40000000 0000008c\ncalls 93\nclass 00001 40000040\ncall 4000000c 40000040\nedge 40000070 40000054\nend\n",
        "rejected Unit 40000054\n"),
    // the graph has `calls 63 64 93`
    Case(OneHart, &GUARDED, &[],
        b"rvcfi-graph 1\ncode 40000000 0000008c\ncalls 63 64 93\nclass 00001 40000040\ncall 4000000c 40000040\nedge 40000070 40000054\nend\n",
        "rejected Unit 40000054\n"),
    // the graph has `calls 64 94`
    Case(OneHart, &GUARDED, &[],
        b"rvcfi-graph 1\ncode 40000000 0000008c\ncalls 64 94\nclass 00001 40000040\ncall 4000000c 40000040\nedge 40000070 40000054\nend\n",
        "rejected Unit 40000054\n"),
    // the graph has `calls 0 64 93`
    Case(OneHart, &GUARDED, &[],
        b"rvcfi-graph 1\ncode 40000000 0000008c\ncalls 0 64 93\nclass 00001 40000040\ncall 4000000c 40000040\nedge 40000070 40000054\nend\n",
        "rejected Unit 40000054\n"),
    // the graph has `calls 64 93 2047`
    Case(OneHart, &GUARDED, &[],
        b"rvcfi-graph 1\ncode 40000000 0000008c\ncalls 64 93 2047\nclass 00001 40000040\ncall 4000000c 40000040\nedge 40000070 40000054\nend\n",
        "rejected Unit 40000054\n"),
    // the graph has `calls 0 1 2 3 4 5 6 7`
    Case(OneHart, &GUARDED, &[],
        b"rvcfi-graph 1\ncode 40000000 0000008c\ncalls 0 1 2 3 4 5 6 7\nclass 00001 40000040\ncall 4000000c 40000040\nedge 40000070 40000054\nend\n",
        "rejected Unit 40000054\n"),
    // the graph has no list
    Case(OneHart, &GUARDED, &[],
        b"rvcfi-graph 1\ncode 40000000 0000008c\nclass 00001 40000040\ncall 4000000c 40000040\nedge 40000070 40000054\nend\n",
        "rejected Unit 40000054\n"),
    // a branch to the call
    Case(OneHart, &GUARDED, &[(0x70, 0xff150ce3)],
        b"rvcfi-graph 1\ncode 40000000 0000008c\ncalls 64 93\nclass 00001 40000040\ncall 4000000c 40000040\nedge 40000070 40000068\nend\n",
        "rejected Target 40000070\n"),
    // a target at the call
    Case(OneHart, &GUARDED, &[],
        b"rvcfi-graph 1\ncode 40000000 0000008c\ncalls 64 93\nclass 00001 40000068\ncall 4000000c 40000040\nedge 40000070 40000054\nend\n",
        "rejected Gate 40000068\n"),
    // the opening calls the call
    Case(OneHart, &GUARDED, &[(0x34, 0x034000ef)],
        b"rvcfi-graph 1\ncode 40000000 0000008c\ncalls 64 93\nclass 00001 40000040\ncall 4000000c 40000068\nedge 40000070 40000054\nend\n",
        "rejected Target 4000000c\n"),
    // an edge of a guarded call
    Case(OneHart, &GUARDED, &[],
        b"rvcfi-graph 1\ncode 40000000 0000008c\ncalls 64 93\nclass 00001 40000040\ncall 4000000c 40000040\nedge 40000054 4000006c\nedge 40000070 40000054\nend\n",
        "rejected Unused 40000054\n"),
    // bare calls under a list
    Case(OneHart, &BARE, &[],
        b"rvcfi-graph 1\ncode 40000000 00000078\ncalls 64 93\nclass 00001 40000040\ncall 4000000c 40000040\nedge 4000005c 40000054\nend\n",
        "rejected Unit 40000054\n"),
    // bare calls without a list
    Case(OneHart, &BARE, &[],
        b"rvcfi-graph 1\ncode 40000000 00000078\nclass 00001 40000040\ncall 4000000c 40000040\nedge 4000005c 40000054\nend\n",
        "accepted\n"),
    // eight numbers
    Case(OneHart, &EIGHT, &[],
        b"rvcfi-graph 1\ncode 40000000 000000bc\ncalls 0 1 62 63 64 93 94 2047\nclass 00001 40000040\ncall 4000000c 40000040\nedge 400000a0 40000054\nend\n",
        "accepted\n"),
    // eight numbers and one of the two
    Case(OneHart, &EIGHT, &[],
        b"rvcfi-graph 1\ncode 40000000 000000bc\ncalls 0 1 62 63 64 93 94 2046\nclass 00001 40000040\ncall 4000000c 40000040\nedge 400000a0 40000054\nend\n",
        "rejected Unit 40000054\n"),
    // accepted as it is
    Case(EightHarts, &GUARDED_OF_HARTS, &[],
        b"rvcfi-graph 1\ncode 40000000 0000009c\ncalls 64 93\nclass 00001 40000050\ncall 4000000c 40000050\nedge 40000080 40000064\nend\n",
        "accepted\n"),
    // a bare call in place of the jump
    Case(EightHarts, &GUARDED_OF_HARTS, &[(0x74, 0x00000073)],
        b"rvcfi-graph 1\ncode 40000000 0000009c\ncalls 64 93\nclass 00001 40000050\ncall 4000000c 40000050\nedge 40000080 40000064\nend\n",
        "rejected Unit 40000064\n"),
    // a number that is not listed
    Case(EightHarts, &GUARDED_OF_HARTS, &[(0x64, 0x04100f93)],
        b"rvcfi-graph 1\ncode 40000000 0000009c\ncalls 64 93\nclass 00001 40000050\ncall 4000000c 40000050\nedge 40000080 40000064\nend\n",
        "rejected Unit 40000064\n"),
    // the number of another register
    Case(EightHarts, &GUARDED_OF_HARTS, &[(0x64, 0x04088f93)],
        b"rvcfi-graph 1\ncode 40000000 0000009c\ncalls 64 93\nclass 00001 40000050\ncall 4000000c 40000050\nedge 40000080 40000064\nend\n",
        "rejected Unit 40000064\n"),
    // a negative number
    Case(EightHarts, &GUARDED_OF_HARTS, &[(0x6c, 0xfa300f93)],
        b"rvcfi-graph 1\ncode 40000000 0000009c\ncalls 64 93\nclass 00001 40000050\ncall 4000000c 40000050\nedge 40000080 40000064\nend\n",
        "rejected Unit 40000064\n"),
    // x16 is tested
    Case(EightHarts, &GUARDED_OF_HARTS, &[(0x68, 0x010f8863)],
        b"rvcfi-graph 1\ncode 40000000 0000009c\ncalls 64 93\nclass 00001 40000050\ncall 4000000c 40000050\nedge 40000080 40000064\nend\n",
        "rejected Unit 40000064\n"),
    // the other condition
    Case(EightHarts, &GUARDED_OF_HARTS, &[(0x68, 0x011f9863)],
        b"rvcfi-graph 1\ncode 40000000 0000009c\ncalls 64 93\nclass 00001 40000050\ncall 4000000c 40000050\nedge 40000080 40000064\nend\n",
        "rejected Unit 40000064\n"),
    // the test goes past the call
    Case(EightHarts, &GUARDED_OF_HARTS, &[(0x68, 0x011f8a63)],
        b"rvcfi-graph 1\ncode 40000000 0000009c\ncalls 64 93\nclass 00001 40000050\ncall 4000000c 40000050\nedge 40000080 40000064\nend\n",
        "rejected Unit 40000064\n"),
    // the test goes to the jump
    Case(EightHarts, &GUARDED_OF_HARTS, &[(0x70, 0x011f8263)],
        b"rvcfi-graph 1\ncode 40000000 0000009c\ncalls 64 93\nclass 00001 40000050\ncall 4000000c 40000050\nedge 40000080 40000064\nend\n",
        "rejected Unit 40000064\n"),
    // to the other handler
    Case(EightHarts, &GUARDED_OF_HARTS, &[(0x74, 0xf91ff06f)],
        b"rvcfi-graph 1\ncode 40000000 0000009c\ncalls 64 93\nclass 00001 40000050\ncall 4000000c 40000050\nedge 40000080 40000064\nend\n",
        "rejected Unit 40000064\n"),
    // a jump that saves
    Case(EightHarts, &GUARDED_OF_HARTS, &[(0x74, 0xf8dff0ef)],
        b"rvcfi-graph 1\ncode 40000000 0000009c\ncalls 64 93\nclass 00001 40000050\ncall 4000000c 40000050\nedge 40000080 40000064\nend\n",
        "rejected Unit 40000064\n"),
    // a break in place of the call
    Case(EightHarts, &GUARDED_OF_HARTS, &[(0x78, 0x00100073)],
        b"rvcfi-graph 1\ncode 40000000 0000009c\ncalls 64 93\nclass 00001 40000050\ncall 4000000c 40000050\nedge 40000080 40000064\nend\n",
        "rejected Unit 40000064\n"),
    // nothing in place of the call
    Case(EightHarts, &GUARDED_OF_HARTS, &[(0x78, 0x00000013)],
        b"rvcfi-graph 1\ncode 40000000 0000009c\ncalls 64 93\nclass 00001 40000050\ncall 4000000c 40000050\nedge 40000080 40000064\nend\n",
        "rejected Unit 40000064\n"),
    // a second call
    Case(EightHarts, &GUARDED_OF_HARTS, &[(0x7c, 0x00000073)],
        b"rvcfi-graph 1\ncode 40000000 0000009c\ncalls 64 93\nclass 00001 40000050\ncall 4000000c 40000050\nedge 40000080 40000064\nend\n",
        "rejected Unit 4000007c\n"),
    // a call before it
    Case(EightHarts, &GUARDED_OF_HARTS, &[(0x60, 0x00000073)],
        b"rvcfi-graph 1\ncode 40000000 0000009c\ncalls 64 93\nclass 00001 40000050\ncall 4000000c 40000050\nedge 40000080 40000064\nend\n",
        "rejected Unit 40000060\n"),
    // the other order
    Case(EightHarts, &GUARDED_OF_HARTS, &[(0x64, 0x05d00f93), (0x6c, 0x04000f93)],
        b"rvcfi-graph 1\ncode 40000000 0000009c\ncalls 64 93\nclass 00001 40000050\ncall 4000000c 40000050\nedge 40000080 40000064\nend\n",
        "rejected Unit 40000064\n"),
    // the graph has `calls 64`
    Case(EightHarts, &GUARDED_OF_HARTS, &[],
        b"rvcfi-graph 1\ncode 40000000 0000009c\ncalls 64\nclass 00001 40000050\ncall 4000000c 40000050\nedge 40000080 40000064\nend\n",
        "rejected Unit 40000064\n"),
    // the graph has `calls 93`
    Case(EightHarts, &GUARDED_OF_HARTS, &[],
        b"rvcfi-graph 1\ncode 40000000 0000009c\ncalls 93\nclass 00001 40000050\ncall 4000000c 40000050\nedge 40000080 40000064\nend\n",
        "rejected Unit 40000064\n"),
    // the graph has `calls 63 64 93`
    Case(EightHarts, &GUARDED_OF_HARTS, &[],
        b"rvcfi-graph 1\ncode 40000000 0000009c\ncalls 63 64 93\nclass 00001 40000050\ncall 4000000c 40000050\nedge 40000080 40000064\nend\n",
        "rejected Unit 40000064\n"),
    // the graph has `calls 64 94`
    Case(EightHarts, &GUARDED_OF_HARTS, &[],
        b"rvcfi-graph 1\ncode 40000000 0000009c\ncalls 64 94\nclass 00001 40000050\ncall 4000000c 40000050\nedge 40000080 40000064\nend\n",
        "rejected Unit 40000064\n"),
    // the graph has `calls 0 64 93`
    Case(EightHarts, &GUARDED_OF_HARTS, &[],
        b"rvcfi-graph 1\ncode 40000000 0000009c\ncalls 0 64 93\nclass 00001 40000050\ncall 4000000c 40000050\nedge 40000080 40000064\nend\n",
        "rejected Unit 40000064\n"),
    // the graph has `calls 64 93 2047`
    Case(EightHarts, &GUARDED_OF_HARTS, &[],
        b"rvcfi-graph 1\ncode 40000000 0000009c\ncalls 64 93 2047\nclass 00001 40000050\ncall 4000000c 40000050\nedge 40000080 40000064\nend\n",
        "rejected Unit 40000064\n"),
    // the graph has `calls 0 1 2 3 4 5 6 7`
    Case(EightHarts, &GUARDED_OF_HARTS, &[],
        b"rvcfi-graph 1\ncode 40000000 0000009c\ncalls 0 1 2 3 4 5 6 7\nclass 00001 40000050\ncall 4000000c 40000050\nedge 40000080 40000064\nend\n",
        "rejected Unit 40000064\n"),
    // the graph has no list
    Case(EightHarts, &GUARDED_OF_HARTS, &[],
        b"rvcfi-graph 1\ncode 40000000 0000009c\nclass 00001 40000050\ncall 4000000c 40000050\nedge 40000080 40000064\nend\n",
        "rejected Unit 40000064\n"),
    // a branch to the call
    Case(EightHarts, &GUARDED_OF_HARTS, &[(0x80, 0xff150ce3)],
        b"rvcfi-graph 1\ncode 40000000 0000009c\ncalls 64 93\nclass 00001 40000050\ncall 4000000c 40000050\nedge 40000080 40000078\nend\n",
        "rejected Target 40000080\n"),
    // a target at the call
    Case(EightHarts, &GUARDED_OF_HARTS, &[],
        b"rvcfi-graph 1\ncode 40000000 0000009c\ncalls 64 93\nclass 00001 40000078\ncall 4000000c 40000050\nedge 40000080 40000064\nend\n",
        "rejected Gate 40000078\n"),
    // the opening calls the call
    Case(EightHarts, &GUARDED_OF_HARTS, &[(0x44, 0x034000ef)],
        b"rvcfi-graph 1\ncode 40000000 0000009c\ncalls 64 93\nclass 00001 40000050\ncall 4000000c 40000078\nedge 40000080 40000064\nend\n",
        "rejected Target 4000000c\n"),
    // an edge of a guarded call
    Case(EightHarts, &GUARDED_OF_HARTS, &[],
        b"rvcfi-graph 1\ncode 40000000 0000009c\ncalls 64 93\nclass 00001 40000050\ncall 4000000c 40000050\nedge 40000064 4000007c\nedge 40000080 40000064\nend\n",
        "rejected Unused 40000064\n"),
    // bare calls under a list
    Case(EightHarts, &BARE_OF_HARTS, &[],
        b"rvcfi-graph 1\ncode 40000000 00000088\ncalls 64 93\nclass 00001 40000050\ncall 4000000c 40000050\nedge 4000006c 40000064\nend\n",
        "rejected Unit 40000064\n"),
    // bare calls without a list
    Case(EightHarts, &BARE_OF_HARTS, &[],
        b"rvcfi-graph 1\ncode 40000000 00000088\nclass 00001 40000050\ncall 4000000c 40000050\nedge 4000006c 40000064\nend\n",
        "accepted\n"),
    // eight numbers
    Case(EightHarts, &EIGHT_OF_HARTS, &[],
        b"rvcfi-graph 1\ncode 40000000 000000cc\ncalls 0 1 62 63 64 93 94 2047\nclass 00001 40000050\ncall 4000000c 40000050\nedge 400000b0 40000064\nend\n",
        "accepted\n"),
    // eight numbers and one of the two
    Case(EightHarts, &EIGHT_OF_HARTS, &[],
        b"rvcfi-graph 1\ncode 40000000 000000cc\ncalls 0 1 62 63 64 93 94 2046\nclass 00001 40000050\ncall 4000000c 40000050\nedge 400000b0 40000064\nend\n",
        "rejected Unit 40000064\n"),
];

/// The code of a case.
fn code_of(alloc: Global, case: &Case) -> Result<Vec<u8>, NoMemory> {
    let mut bytes = match case.0 {
        OneHart => code(alloc, case.1)?,
        EightHarts => code_of_harts(alloc, case.1)?,
    };
    for change in case.2 {
        put(&mut bytes, change.0, &change.1.to_le_bytes());
    }
    Ok(bytes)
}

/// The image of a case.
fn image(alloc: Global, case: &Case) -> Result<Vec<u8>, NoMemory> {
    image_as(alloc, case.0, &code_of(alloc, case)?, b"")
}

/// Whether a case is told as it says.
fn is_right(alloc: Global, case: &Case) -> bool {
    match image(alloc, case) {
        Ok(image) => verifies(alloc, &image, case.3, case.4),
        Err(_) => false,
    }
}

#[test]
fn guarded_calls(rt: HostRuntime) {
    for (k, case) in CASES.iter().enumerate() {
        assert!(rt; is_right(rt.alloc(), case), "{k}");
    }
}
