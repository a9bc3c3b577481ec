//! What small objects become that call, jump, branch or write: tests/model/forms.py at the top of the repository prints this.

use crate::forms::{Program, Units};
use crate::given::{Given, Source};
use sample_programs::{APART, B, H, JOINED, NARROW, NOWHERE, P, Q, RELABELLED};

#[rattlefmt::skip]
pub(crate) const P_APART: [u32; 51] = [
    0xff010113, 0x00810f93, 0x024f9f93, 0x024fdf93, 0x001fb023, 0x000102b7, 0x0002b283, 0x00028f93, 0xffcfff93, 0x40000f37,
    0x41ef8f33, 0x014f5f13, 0x000f0463, 0xf8dff06f, 0x000faf03, 0x00001237, 0x03720213, 0x004f0463, 0xf79ff06f, 0x03019f13,
    0x000f1463, 0xf75ff06f, 0x00000f17, 0x014f0f13, 0x01e1b023, 0x00818193, 0x000f80e7, 0x00813083, 0x01010113, 0xff81bf83,
    0xff818193, 0x001f8463, 0xf45ff06f, 0x000f8067, 0x00001037, 0x00000013, 0x00100513, 0xff81bf83, 0xff818193, 0x001f8463,
    0xf25ff06f, 0x000f8067, 0x00001037, 0x00000013, 0x00200513, 0xff81bf83, 0xff818193, 0x001f8463, 0xf05ff06f, 0x000f8067,
    0xef9ff06f,
];

#[rattlefmt::skip]
pub(crate) const R: [u32; 26] = [
    0x00002537, 0xffe50513, 0x0040006f, 0x04050263, 0xff010113, 0x00810f93, 0x024f9f93, 0x024fdf93, 0x001fb023, 0xfff50513,
    0x03019f13, 0x000f1463, 0xf99ff06f, 0x00000f17, 0x014f0f13, 0x01e1b023, 0x00818193, 0xfc9ff0ef, 0x00813083, 0x01010113,
    0xff81bf83, 0xff818193, 0x001f8463, 0xf69ff06f, 0x000f8067, 0xf5dff06f,
];

#[rattlefmt::skip]
pub(crate) const NARROW_APART: [u32; 49] = [
    0xff010113, 0x00810f93, 0x024f9f93, 0x024fdf93, 0x001fb023, 0x000102b7, 0x0002b283, 0x00028f93, 0xffcfff93, 0x40000f37,
    0x41ef8f33, 0x014f5f13, 0x000f0463, 0xf8dff06f, 0x000faf03, 0x00001237, 0x03720213, 0x004f0463, 0xf79ff06f, 0x03019f13,
    0x000f1463, 0xf75ff06f, 0x00000f17, 0x014f0f13, 0x01e1b023, 0x00818193, 0x000f80e7, 0x00813083, 0x01010113, 0xff81bf83,
    0xff818193, 0x001f8463, 0xf45ff06f, 0x000f8067, 0x00001037, 0x00000013, 0x00100513, 0xff81bf83, 0xff818193, 0x001f8463,
    0xf25ff06f, 0x000f8067, 0x00200513, 0xff81bf83, 0xff818193, 0x001f8463, 0xf0dff06f, 0x000f8067, 0xf01ff06f,
];

/// The objects, and what they become. By this call a proof of a test does not go over each row.
pub fn hardened_programs() -> &'static [Program] {
    &ROWS
}

#[rattlefmt::skip]
static ROWS: [Program; 20] = [
    // b
    Program(
        Given(Source::Returning, 0, b"", "main", None),
        Units(&B, 0x00c000ef, &[], b"", 0, 0,
            "call 4000000c 40000040\nend\n",
            b"15"),
        None,
    ),
    // p
    Program(
        Given(Source::Calling, 0, b"", "main", None),
        Units(&P, 0x00c000ef, &[0x400000c8, 0x400000e4], b"", 1, 1,
            "class 00001 400000c8 400000e4\ncall 4000000c 40000040\nsite 4000005c call 00001\nend\n",
            b"1411k1152525"),
        Some(Units(&P_APART, 0x00c000ef, &[0x400000c8, 0x400000e8], b"", 1, 1,
            "callclass 00001 400000c8 400000e8\ncall 4000000c 40000040\nsite 4000005c call 00001\nend\n",
            b"1411k1153535")),
    ),
    // h
    Program(
        Given(Source::Writing, 0, b"", "main", None),
        Units(&H, 0x00c000ef, &[], b"hi\n", 0, 0,
            "call 4000000c 40000040\ncall 40000054 40000094\nend\n",
            b"148.11151111115"),
        None,
    ),
    // r
    Program(
        Given(Source::Recursive, 0, b"", "main", None),
        Units(&R, 0x00c000ef, &[], b"", 0, 0,
            "call 4000000c 40000040\nedge 40000048 4000004c\nedge 4000004c 40000090\ncall 40000068 4000004c\nend\n",
            b"11111418115"),
        None,
    ),
    // over
    Program(
        Given(Source::Recursive, 64, b"630405001305100067800000", "main", None),
        Units(&[
            0x00050463, 0x00100513, 0xff81bf83, 0xff818193, 0x001f8463, 0xfb1ff06f, 0x000f8067, 0x04050263, 0xff010113, 0x00810f93,
            0x024f9f93, 0x024fdf93, 0x001fb023, 0xfff50513, 0x03019f13, 0x000f1463, 0xf89ff06f, 0x00000f17, 0x014f0f13, 0x01e1b023,
            0x00818193, 0xfc9ff0ef, 0x00813083, 0x01010113, 0xff81bf83, 0xff818193, 0x001f8463, 0xf59ff06f, 0x000f8067, 0xf4dff06f,
        ], 0x00c000ef, &[], b"", 0, 0,
            "call 4000000c 40000040\nedge 40000040 40000048\nedge 4000005c 400000a0\ncall 40000078 4000005c\nend\n",
            b"11511418115"),
        None,
    ),
    // kept
    Program(
        Given(Source::Recursive, 64, b"630405006f00400067800000", "main", None),
        Units(&[
            0x00051463, 0x0080006f, 0x0040006f, 0xff81bf83, 0xff818193, 0x001f8463, 0xfadff06f, 0x000f8067, 0x04050263, 0xff010113,
            0x00810f93, 0x024f9f93, 0x024fdf93, 0x001fb023, 0xfff50513, 0x03019f13, 0x000f1463, 0xf85ff06f, 0x00000f17, 0x014f0f13,
            0x01e1b023, 0x00818193, 0xfc9ff0ef, 0x00813083, 0x01010113, 0xff81bf83, 0xff818193, 0x001f8463, 0xf55ff06f, 0x000f8067,
            0xf49ff06f,
        ], 0x00c000ef, &[], b"", 0, 0,
            "call 4000000c 40000040\nedge 40000040 4000004c\nedge 40000048 4000004c\nedge 40000060 400000a4\ncall 4000007c 40000060\n\
            end\n",
            b"21511418115"),
        None,
    ),
    // nowhere
    Program(
        Given(Source::Returning, 64, b"e780020067800000", "main", None),
        Units(&NOWHERE, 0x00c000ef, &[], b"", 1, 1,
            "class 00001\ncall 4000000c 40000040\nsite 40000040 call 00001\nend\n",
            b"k5"),
        Some(Units(&NOWHERE, 0x00c000ef, &[], b"", 1, 1,
            "callclass 00001\ncall 4000000c 40000040\nsite 40000040 call 00001\nend\n",
            b"k5")),
    ),
    // relabelled
    Program(
        Given(Source::Calling, 104, b"37100000", "main", None),
        Units(&RELABELLED, 0x00c000ef, &[0x400000c8, 0x400000e4], b"", 1, 1,
            "class 00002 400000c8 400000e4\ncall 4000000c 40000040\nsite 4000005c call 00002\nend\n",
            b"1411k1152525"),
        Some(Units(&[
            0xff010113, 0x00810f93, 0x024f9f93, 0x024fdf93, 0x001fb023, 0x000102b7, 0x0002b283, 0x00028f93, 0xffcfff93, 0x40000f37,
            0x41ef8f33, 0x014f5f13, 0x000f0463, 0xf8dff06f, 0x000faf03, 0x00002237, 0x03720213, 0x004f0463, 0xf79ff06f, 0x03019f13,
            0x000f1463, 0xf75ff06f, 0x00000f17, 0x014f0f13, 0x01e1b023, 0x00818193, 0x000f80e7, 0x00813083, 0x01010113, 0xff81bf83,
            0xff818193, 0x001f8463, 0xf45ff06f, 0x000f8067, 0x00002037, 0x00000013, 0x00100513, 0xff81bf83, 0xff818193, 0x001f8463,
            0xf25ff06f, 0x000f8067, 0x00002037, 0x00000013, 0x00001037, 0xff81bf83, 0xff818193, 0x001f8463, 0xf05ff06f, 0x000f8067,
            0xef9ff06f,
        ], 0x00c000ef, &[0x400000c8, 0x400000e8], b"", 1, 1,
            "callclass 00002 400000c8 400000e8\ncall 4000000c 40000040\nsite 4000005c call 00002\nend\n",
            b"1411k1153535")),
    ),
    // narrow
    Program(
        Given(Source::Calling, 0, b"", "main", Some(b"rvcfi-policy 1\nsite main+10 f+0\nend\n")),
        Units(&NARROW, 0x00c000ef, &[0x400000c8, 0x400000e4], b"", 1, 1,
            "class 00001 400000c8\ncall 4000000c 40000040\nsite 4000005c call 00001\nend\n",
            b"1411k1152515"),
        Some(Units(&NARROW_APART, 0x00c000ef, &[0x400000c8, 0x400000e8], b"", 1, 1,
            "callclass 00001 400000c8\ncall 4000000c 40000040\nsite 4000005c call 00001\nend\n",
            b"1411k1153515")),
    ),
    // f
    Program(
        Given(Source::Calling, 0, b"", "f", None),
        Units(&P, 0x094000ef, &[0x400000c8, 0x400000e4], b"", 1, 1,
            "class 00001 400000c8 400000e4\ncall 4000000c 400000c8\nsite 4000005c call 00001\nend\n",
            b"1411k1152525"),
        Some(Units(&P_APART, 0x094000ef, &[0x400000c8, 0x400000e8], b"", 1, 1,
            "callclass 00001 400000c8 400000e8\ncall 4000000c 400000c8\nsite 4000005c call 00001\nend\n",
            b"1411k1153535")),
    ),
    // turned
    Program(
        Given(Source::Coded, 0, b"67000300e7800200", "main", None),
        Units(&[
            0x00030f93, 0xffcfff93, 0x40000f37, 0x41ef8f33, 0x014f5f13, 0x000f0463, 0xfa9ff06f, 0x000faf03, 0x00001237, 0x03720213,
            0x004f0463, 0xf95ff06f, 0x000f8067, 0x00028f93, 0xffcfff93, 0x40000f37, 0x41ef8f33, 0x014f5f13, 0x000f0463, 0xf75ff06f,
            0x000faf03, 0x00002237, 0x03720213, 0x004f0463, 0xf61ff06f, 0x03019f13, 0x000f1463, 0xf5dff06f, 0x00000f17, 0x014f0f13,
            0x01e1b023, 0x00818193, 0x000f80e7, 0xf3dff06f,
        ], 0x00c000ef, &[], b"", 2, 2,
            "class 00001\nclass 00002\ncall 4000000c 40000040\nsite 40000040 jump 00001\nsite 40000074 call 00002\nend\n",
            b"dk"),
        Some(Units(&[
            0x00030f93, 0xffcfff93, 0x40000f37, 0x41ef8f33, 0x014f5f13, 0x000f0463, 0xfa9ff06f, 0x004faf03, 0x00002237, 0x03720213,
            0x004f0463, 0xf95ff06f, 0x000f8067, 0x00028f93, 0xffcfff93, 0x40000f37, 0x41ef8f33, 0x014f5f13, 0x000f0463, 0xf75ff06f,
            0x000faf03, 0x00001237, 0x03720213, 0x004f0463, 0xf61ff06f, 0x03019f13, 0x000f1463, 0xf5dff06f, 0x00000f17, 0x014f0f13,
            0x01e1b023, 0x00818193, 0x000f80e7, 0xf3dff06f,
        ], 0x00c000ef, &[], b"", 2, 2,
            "callclass 00001\njumpclass 00002\ncall 4000000c 40000040\nsite 40000040 jump 00002\nsite 40000074 call 00001\nend\n",
            b"dk")),
    ),
    // q
    Program(
        Given(Source::Jumping, 0, b"", "main", Some(b"rvcfi-policy 1\nsite h+0 g+0\nend\n")),
        Units(&[
            0x000102b7, 0x0002b283, 0x00028f93, 0xffcfff93, 0x40000f37, 0x41ef8f33, 0x014f5f13, 0x000f0463, 0xfa1ff06f, 0x000faf03,
            0x00001237, 0x03720213, 0x004f0463, 0xf8dff06f, 0x000f8067, 0x00001037, 0x00100513, 0xff81bf83, 0xff818193, 0x001f8463,
            0xf75ff06f, 0x000f8067, 0x00001037, 0x00200513, 0xff81bf83, 0xff818193, 0x001f8463, 0xf59ff06f, 0x000f8067, 0x00028f93,
            0xffcfff93, 0x40000f37, 0x41ef8f33, 0x014f5f13, 0x000f0463, 0xf35ff06f, 0x000faf03, 0x00001237, 0x03720213, 0x004f0463,
            0xf21ff06f, 0x03019f13, 0x000f1463, 0xf1dff06f, 0x00000f17, 0x014f0f13, 0x01e1b023, 0x00818193, 0x000f80e7, 0xff81bf83,
            0xff818193, 0x001f8463, 0xef5ff06f, 0x000f8067, 0xee9ff06f,
        ], 0x00c000ef, &[0x4000007c, 0x40000098], b"", 1, 2,
            "class 00001 4000007c 40000098\ncall 4000000c 40000040\nsite 40000048 jump 00001\nsite 400000b4 call 00001\nend\n",
            b"11d2525k5"),
        Some(Units(&Q, 0x00c000ef, &[0x4000007c, 0x4000009c], b"", 2, 2,
            "callclass 00001 4000009c\njumpclass 00002 4000007c 4000009c\ncall 4000000c 40000040\nsite 40000048 jump 00002\n\
            site 400000bc call 00001\nend\n",
            b"11d3535k5")),
    ),
    // uncalled
    Program(
        Given(Source::Jumping, 0, b"", "main", Some(b"rvcfi-policy 1\nsite h+0\nend\n")),
        Units(&[
            0x000102b7, 0x0002b283, 0x00028f93, 0xffcfff93, 0x40000f37, 0x41ef8f33, 0x014f5f13, 0x000f0463, 0xfa1ff06f, 0x000faf03,
            0x00001237, 0x03720213, 0x004f0463, 0xf8dff06f, 0x000f8067, 0x00001037, 0x00100513, 0xff81bf83, 0xff818193, 0x001f8463,
            0xf75ff06f, 0x000f8067, 0x00001037, 0x00200513, 0xff81bf83, 0xff818193, 0x001f8463, 0xf59ff06f, 0x000f8067, 0x00028f93,
            0xffcfff93, 0x40000f37, 0x41ef8f33, 0x014f5f13, 0x000f0463, 0xf35ff06f, 0x000faf03, 0x00002237, 0x03720213, 0x004f0463,
            0xf21ff06f, 0x03019f13, 0x000f1463, 0xf1dff06f, 0x00000f17, 0x014f0f13, 0x01e1b023, 0x00818193, 0x000f80e7, 0xff81bf83,
            0xff818193, 0x001f8463, 0xef5ff06f, 0x000f8067, 0xee9ff06f,
        ], 0x00c000ef, &[0x4000007c, 0x40000098], b"", 2, 2,
            "class 00001 4000007c 40000098\nclass 00002\ncall 4000000c 40000040\nsite 40000048 jump 00001\nsite 400000b4 call 00002\n\
            end\n",
            b"11d2525k5"),
        Some(Units(&[
            0x000102b7, 0x0002b283, 0x00028f93, 0xffcfff93, 0x40000f37, 0x41ef8f33, 0x014f5f13, 0x000f0463, 0xfa1ff06f, 0x004faf03,
            0x00002237, 0x03720213, 0x004f0463, 0xf8dff06f, 0x000f8067, 0x00000013, 0x00002037, 0x00100513, 0xff81bf83, 0xff818193,
            0x001f8463, 0xf71ff06f, 0x000f8067, 0x00000013, 0x00002037, 0x00200513, 0xff81bf83, 0xff818193, 0x001f8463, 0xf51ff06f,
            0x000f8067, 0x00028f93, 0xffcfff93, 0x40000f37, 0x41ef8f33, 0x014f5f13, 0x000f0463, 0xf2dff06f, 0x000faf03, 0x00001237,
            0x03720213, 0x004f0463, 0xf19ff06f, 0x03019f13, 0x000f1463, 0xf15ff06f, 0x00000f17, 0x014f0f13, 0x01e1b023, 0x00818193,
            0x000f80e7, 0xff81bf83, 0xff818193, 0x001f8463, 0xeedff06f, 0x000f8067, 0xee1ff06f,
        ], 0x00c000ef, &[0x4000007c, 0x4000009c], b"", 2, 2,
            "callclass 00001\njumpclass 00002 4000007c 4000009c\ncall 4000000c 40000040\nsite 40000048 jump 00002\n\
            site 400000bc call 00001\nend\n",
            b"11d3535k5")),
    ),
    // apart
    Program(
        Given(Source::Apart, 0, b"", "main", Some(b"rvcfi-policy 1\nsite main+10 called+0 both+0\nsite main+24 jumped+0 both+0\nend\n")),
        Units(&JOINED, 0x00c000ef, &[0x400000f0, 0x4000010c], b"", 1, 2,
            "class 00001 400000f0 4000010c 40000128\ncall 4000000c 40000040\nsite 4000005c call 00001\nsite 400000bc jump 00001\nend\n",
            b"1411k1111d252525"),
        Some(Units(&APART, 0x00c000ef, &[0x400000f0, 0x40000110], b"", 2, 2,
            "callclass 00001 400000f0 40000130\njumpclass 00002 40000110 40000130\ncall 4000000c 40000040\nsite 4000005c call 00001\n\
            site 400000bc jump 00002\nend\n",
            b"1411k1111d353535")),
    ),
    // alike
    Program(
        Given(Source::Apart, 0, b"", "main", None),
        Units(&[
            0xff010113, 0x00810f93, 0x024f9f93, 0x024fdf93, 0x001fb023, 0x000102b7, 0x0002b283, 0x00028f93, 0xffcfff93, 0x40000f37,
            0x41ef8f33, 0x014f5f13, 0x000f0463, 0xf8dff06f, 0x000faf03, 0x00001237, 0x03720213, 0x004f0463, 0xf79ff06f, 0x03019f13,
            0x000f1463, 0xf75ff06f, 0x00000f17, 0x014f0f13, 0x01e1b023, 0x00818193, 0x000f80e7, 0x00813083, 0x01010113, 0x000102b7,
            0x0082b283, 0x00028f93, 0xffcfff93, 0x40000f37, 0x41ef8f33, 0x014f5f13, 0x000f0463, 0xf2dff06f, 0x000faf03, 0x00001237,
            0x03720213, 0x004f0463, 0xf19ff06f, 0x000f8067, 0x00001037, 0x00150513, 0xff81bf83, 0xff818193, 0x001f8463, 0xf01ff06f,
            0x000f8067, 0x00001037, 0x00250513, 0xff81bf83, 0xff818193, 0x001f8463, 0xee5ff06f, 0x000f8067, 0x00450513, 0xff81bf83,
            0xff818193, 0x001f8463, 0xecdff06f, 0x000f8067, 0xec1ff06f,
        ], 0x00c000ef, &[0x400000f0, 0x4000010c], b"", 1, 2,
            "class 00001 400000f0 4000010c\ncall 4000000c 40000040\nsite 4000005c call 00001\nsite 400000bc jump 00001\nend\n",
            b"1411k1111d252515"),
        Some(Units(&[
            0xff010113, 0x00810f93, 0x024f9f93, 0x024fdf93, 0x001fb023, 0x000102b7, 0x0002b283, 0x00028f93, 0xffcfff93, 0x40000f37,
            0x41ef8f33, 0x014f5f13, 0x000f0463, 0xf8dff06f, 0x000faf03, 0x00001237, 0x03720213, 0x004f0463, 0xf79ff06f, 0x03019f13,
            0x000f1463, 0xf75ff06f, 0x00000f17, 0x014f0f13, 0x01e1b023, 0x00818193, 0x000f80e7, 0x00813083, 0x01010113, 0x000102b7,
            0x0082b283, 0x00028f93, 0xffcfff93, 0x40000f37, 0x41ef8f33, 0x014f5f13, 0x000f0463, 0xf2dff06f, 0x004faf03, 0x00002237,
            0x03720213, 0x004f0463, 0xf19ff06f, 0x000f8067, 0x00001037, 0x00002037, 0x00150513, 0xff81bf83, 0xff818193, 0x001f8463,
            0xefdff06f, 0x000f8067, 0x00001037, 0x00002037, 0x00250513, 0xff81bf83, 0xff818193, 0x001f8463, 0xeddff06f, 0x000f8067,
            0x00450513, 0xff81bf83, 0xff818193, 0x001f8463, 0xec5ff06f, 0x000f8067, 0xeb9ff06f,
        ], 0x00c000ef, &[0x400000f0, 0x40000110], b"", 2, 2,
            "callclass 00001 400000f0 40000110\njumpclass 00002 400000f0 40000110\ncall 4000000c 40000040\nsite 4000005c call 00001\n\
            site 400000bc jump 00002\nend\n",
            b"1411k1111d353515")),
    ),
    // sorts
    Program(
        Given(Source::Sorts, 0, b"", "main", Some(b"rvcfi-policy 1\nsite main+8 f+0\nsite main+c\nsite main+10 g+0\nsite f+0\nend\n")),
        Units(&[
            0x000102b7, 0x0002b283, 0x00028f93, 0xffcfff93, 0x40000f37, 0x41ef8f33, 0x014f5f13, 0x000f0463, 0xfa1ff06f, 0x000faf03,
            0x00001237, 0x03720213, 0x004f0463, 0xf8dff06f, 0x03019f13, 0x000f1463, 0xf89ff06f, 0x00000f17, 0x014f0f13, 0x01e1b023,
            0x00818193, 0x000f80e7, 0x00030f93, 0xffcfff93, 0x40000f37, 0x41ef8f33, 0x014f5f13, 0x000f0463, 0xf51ff06f, 0x000faf03,
            0x00004237, 0x03720213, 0x004f0463, 0xf3dff06f, 0x03019f13, 0x000f1463, 0xf39ff06f, 0x00000f17, 0x014f0f13, 0x01e1b023,
            0x00818193, 0x000f80e7, 0x00028f93, 0xffcfff93, 0x40000f37, 0x41ef8f33, 0x014f5f13, 0x000f0463, 0xf01ff06f, 0x000faf03,
            0x00003237, 0x03720213, 0x004f0463, 0xeedff06f, 0x000f8067, 0x00001037, 0x00030f93, 0xffcfff93, 0x40000f37, 0x41ef8f33,
            0x014f5f13, 0x000f0463, 0xec9ff06f, 0x000faf03, 0x00005237, 0x03720213, 0x004f0463, 0xeb5ff06f, 0x000f8067, 0x00003037,
            0x00002037, 0xff81bf83, 0xff818193, 0x001f8463, 0xe9dff06f, 0x000f8067, 0xe91ff06f,
        ], 0x00c000ef, &[0x4000011c, 0x40000154], b"", 4, 4,
            "class 00001 4000011c\nclass 00003 40000154\nclass 00004\nclass 00005\ncall 4000000c 40000040\nsite 40000048 call 00001\n\
            site 40000098 call 00004\nsite 400000e8 jump 00003\nsite 40000120 jump 00005\nend\n",
            b"11kkde25"),
        Some(Units(&[
            0x000102b7, 0x0002b283, 0x00028f93, 0xffcfff93, 0x40000f37, 0x41ef8f33, 0x014f5f13, 0x000f0463, 0xfa1ff06f, 0x000faf03,
            0x00001237, 0x03720213, 0x004f0463, 0xf8dff06f, 0x03019f13, 0x000f1463, 0xf89ff06f, 0x00000f17, 0x014f0f13, 0x01e1b023,
            0x00818193, 0x000f80e7, 0x00030f93, 0xffcfff93, 0x40000f37, 0x41ef8f33, 0x014f5f13, 0x000f0463, 0xf51ff06f, 0x000faf03,
            0x00003237, 0x03720213, 0x004f0463, 0xf3dff06f, 0x03019f13, 0x000f1463, 0xf39ff06f, 0x00000f17, 0x014f0f13, 0x01e1b023,
            0x00818193, 0x000f80e7, 0x00028f93, 0xffcfff93, 0x40000f37, 0x41ef8f33, 0x014f5f13, 0x000f0463, 0xf01ff06f, 0x004faf03,
            0x00004237, 0x03720213, 0x004f0463, 0xeedff06f, 0x000f8067, 0x00001037, 0x00000013, 0x00030f93, 0xffcfff93, 0x40000f37,
            0x41ef8f33, 0x014f5f13, 0x000f0463, 0xec5ff06f, 0x004faf03, 0x00005237, 0x03720213, 0x004f0463, 0xeb1ff06f, 0x000f8067,
            0x00000013, 0x00004037, 0x00002037, 0xff81bf83, 0xff818193, 0x001f8463, 0xe95ff06f, 0x000f8067, 0xe89ff06f,
        ], 0x00c000ef, &[0x4000011c, 0x40000158], b"", 4, 4,
            "callclass 00001 4000011c\ncallclass 00003\njumpclass 00004 40000158\njumpclass 00005\ncall 4000000c 40000040\n\
            site 40000048 call 00001\nsite 40000098 call 00003\nsite 400000e8 jump 00004\nsite 40000124 jump 00005\nend\n",
            b"11kkdf35")),
    ),
    // table
    Program(
        Given(Source::Switching, 0, b"", "main", None),
        Units(&[
            0xff010113, 0x00810f93, 0x024f9f93, 0x024fdf93, 0x001fb023, 0x03019f13, 0x000f1463, 0xfadff06f, 0x00000f17, 0x014f0f13,
            0x01e1b023, 0x00818193, 0x098000ef, 0x03019f13, 0x000f1463, 0xf8dff06f, 0x00000f17, 0x014f0f13, 0x01e1b023, 0x00818193,
            0x078000ef, 0x000102b7, 0x0182b283, 0x00028f93, 0xffcfff93, 0x40000f37, 0x41ef8f33, 0x014f5f13, 0x000f0463, 0xf4dff06f,
            0x000faf03, 0x00001237, 0x03720213, 0x004f0463, 0xf39ff06f, 0x03019f13, 0x000f1463, 0xf35ff06f, 0x00000f17, 0x014f0f13,
            0x01e1b023, 0x00818193, 0x000f80e7, 0x00813083, 0x01010113, 0xff81bf83, 0xff818193, 0x001f8463, 0xf05ff06f, 0x000f8067,
            0x00351293, 0x00010337, 0x006282b3, 0x0002b283, 0x00028f93, 0xffcfff93, 0x40000f37, 0x41ef8f33, 0x014f5f13, 0x000f0463,
            0xed1ff06f, 0x000faf03, 0x00001237, 0x03720213, 0x004f0463, 0xebdff06f, 0x000f8067, 0x00001037, 0x00150513, 0xff81bf83,
            0xff818193, 0x001f8463, 0xea5ff06f, 0x000f8067, 0x00001037, 0x000102b7, 0x0102b283, 0x00028f93, 0xffcfff93, 0x40000f37,
            0x41ef8f33, 0x014f5f13, 0x000f0463, 0xe75ff06f, 0x000faf03, 0x00001237, 0x03720213, 0x004f0463, 0xe61ff06f, 0x000f8067,
            0x00001037, 0x00a50513, 0xff81bf83, 0xff818193, 0x001f8463, 0xe49ff06f, 0x000f8067, 0x00001037, 0x00550513, 0xff81bf83,
            0xff818193, 0x001f8463, 0xe2dff06f, 0x000f8067, 0xe21ff06f,
        ], 0x00c000ef, &[0x4000014c, 0x40000168, 0x400001a8, 0x400001c4], b"", 1, 3,
            "class 00001 4000014c 40000168 400001a8 400001c4\ncall 4000000c 40000040\ncall 40000054 40000108\ncall 40000074 40000108\n\
            site 4000009c call 00001\nsite 40000118 jump 00001\nsite 40000174 jump 00001\nend\n",
            b"148811k1151111d2521d2525"),
        Some(Units(&[
            0xff010113, 0x00810f93, 0x024f9f93, 0x024fdf93, 0x001fb023, 0x03019f13, 0x000f1463, 0xfadff06f, 0x00000f17, 0x014f0f13,
            0x01e1b023, 0x00818193, 0x098000ef, 0x03019f13, 0x000f1463, 0xf8dff06f, 0x00000f17, 0x014f0f13, 0x01e1b023, 0x00818193,
            0x078000ef, 0x000102b7, 0x0182b283, 0x00028f93, 0xffcfff93, 0x40000f37, 0x41ef8f33, 0x014f5f13, 0x000f0463, 0xf4dff06f,
            0x000faf03, 0x00001237, 0x03720213, 0x004f0463, 0xf39ff06f, 0x03019f13, 0x000f1463, 0xf35ff06f, 0x00000f17, 0x014f0f13,
            0x01e1b023, 0x00818193, 0x000f80e7, 0x00813083, 0x01010113, 0xff81bf83, 0xff818193, 0x001f8463, 0xf05ff06f, 0x000f8067,
            0x00351293, 0x00010337, 0x006282b3, 0x0002b283, 0x00028f93, 0xffcfff93, 0x40000f37, 0x41ef8f33, 0x014f5f13, 0x000f0463,
            0xed1ff06f, 0x004faf03, 0x00002237, 0x03720213, 0x004f0463, 0xebdff06f, 0x000f8067, 0x00000013, 0x00002037, 0x00150513,
            0xff81bf83, 0xff818193, 0x001f8463, 0xea1ff06f, 0x000f8067, 0x00000013, 0x00002037, 0x000102b7, 0x0102b283, 0x00028f93,
            0xffcfff93, 0x40000f37, 0x41ef8f33, 0x014f5f13, 0x000f0463, 0xe6dff06f, 0x004faf03, 0x00002237, 0x03720213, 0x004f0463,
            0xe59ff06f, 0x000f8067, 0x00001037, 0x00002037, 0x00a50513, 0xff81bf83, 0xff818193, 0x001f8463, 0xe3dff06f, 0x000f8067,
            0x00001037, 0x00002037, 0x00550513, 0xff81bf83, 0xff818193, 0x001f8463, 0xe1dff06f, 0x000f8067, 0xe11ff06f,
        ], 0x00c000ef, &[0x4000014c, 0x4000016c, 0x400001b0, 0x400001d0], b"", 2, 3,
            "callclass 00001 400001b0 400001d0\njumpclass 00002 4000014c 4000016c 400001b0 400001d0\ncall 4000000c 40000040\n\
            call 40000054 40000108\ncall 40000074 40000108\nsite 4000009c call 00001\nsite 40000118 jump 00002\n\
            site 4000017c jump 00002\nend\n",
            b"148811k1151111d3531d3535")),
    ),
    // no line
    Program(
        Given(Source::Calling, 0, b"", "main", Some(b"rvcfi-policy 1\nend\n")),
        Units(&P, 0x00c000ef, &[0x400000c8, 0x400000e4], b"", 1, 1,
            "class 00001 400000c8 400000e4\ncall 4000000c 40000040\nsite 4000005c call 00001\nend\n",
            b"1411k1152525"),
        Some(Units(&P_APART, 0x00c000ef, &[0x400000c8, 0x400000e8], b"", 1, 1,
            "callclass 00001 400000c8 400000e8\ncall 4000000c 40000040\nsite 4000005c call 00001\nend\n",
            b"1411k1153535")),
    ),
    // rec
    Program(
        Given(Source::Recursive, 0, b"", "rec", None),
        Units(&R, 0x018000ef, &[], b"", 0, 0,
            "call 4000000c 4000004c\nedge 40000048 4000004c\nedge 4000004c 40000090\ncall 40000068 4000004c\nend\n",
            b"11111418115"),
        None,
    ),
    // no bytes
    Program(
        Given(Source::Writing, 556, b"080000000200000000000000000000000000000080000000000000000000ef0f00000000", "main", None),
        Units(&H, 0x00c000ef, &[], b"", 0, 0,
            "call 4000000c 40000040\ncall 40000054 40000094\nend\n",
            b"148.11151111115"),
        None,
    ),
];
