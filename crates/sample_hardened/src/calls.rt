//! What small objects become that may make the system calls of a list: tests/model/forms.py at the top of the repository prints this.

use crate::forms::{Program, Units};
use crate::given::{Given, Source};
use crate::programs::NARROW_APART;
use sample_programs::NARROW;

/// The objects, and what they become. By this call a proof of a test does not go over each row.
pub fn listed_programs() -> &'static [Program] {
    &ROWS
}

#[rattlefmt::skip]
static ROWS: [Program; 10] = [
    // listed
    Program(
        Given(Source::Writing, 0, b"", "main", Some(b"rvcfi-policy 2\ncalls 64\nend\n")),
        Units(&[
            0xff010113, 0x00810f93, 0x024f9f93, 0x024fdf93, 0x001fb023, 0x03019f13, 0x000f1463, 0xfadff06f, 0x00000f17, 0x014f0f13,
            0x01e1b023, 0x00818193, 0x024000ef, 0x00000513, 0x00813083, 0x01010113, 0xff81bf83, 0xff818193, 0x001f8463, 0xf79ff06f,
            0x000f8067, 0xc0010597, 0xf6c58593, 0x00100513, 0x00300613, 0x04000893, 0x04000f93, 0x011f8463, 0xf51ff06f, 0x00000073,
            0xff81bf83, 0xff818193, 0x001f8463, 0xf41ff06f, 0x000f8067, 0xf35ff06f,
        ], 0x00c000ef, &[], b"hi\n", 0, 0,
            "calls 64\ncall 4000000c 40000040\ncall 40000054 40000094\nend\n",
            b"148.11151111145"),
        None,
    ),
    // unlisted
    Program(
        Given(Source::Writing, 0, b"", "main", Some(b"rvcfi-policy 2\ncalls 63\nend\n")),
        Units(&[
            0xff010113, 0x00810f93, 0x024f9f93, 0x024fdf93, 0x001fb023, 0x03019f13, 0x000f1463, 0xfadff06f, 0x00000f17, 0x014f0f13,
            0x01e1b023, 0x00818193, 0x024000ef, 0x00000513, 0x00813083, 0x01010113, 0xff81bf83, 0xff818193, 0x001f8463, 0xf79ff06f,
            0x000f8067, 0xc0010597, 0xf6c58593, 0x00100513, 0x00300613, 0x04000893, 0x03f00f93, 0x011f8463, 0xf51ff06f, 0x00000073,
            0xff81bf83, 0xff818193, 0x001f8463, 0xf41ff06f, 0x000f8067, 0xf35ff06f,
        ], 0x00c000ef, &[], b"hi\n", 0, 0,
            "calls 63\ncall 4000000c 40000040\ncall 40000054 40000094\nend\n",
            b"148.11151111145"),
        None,
    ),
    // two
    Program(
        Given(Source::Writing, 0, b"", "main", Some(b"rvcfi-policy 2\ncalls 63 64\nend\n")),
        Units(&[
            0xff010113, 0x00810f93, 0x024f9f93, 0x024fdf93, 0x001fb023, 0x03019f13, 0x000f1463, 0xfadff06f, 0x00000f17, 0x014f0f13,
            0x01e1b023, 0x00818193, 0x024000ef, 0x00000513, 0x00813083, 0x01010113, 0xff81bf83, 0xff818193, 0x001f8463, 0xf79ff06f,
            0x000f8067, 0xc0010597, 0xf6c58593, 0x00100513, 0x00300613, 0x04000893, 0x03f00f93, 0x011f8863, 0x04000f93, 0x011f8463,
            0xf49ff06f, 0x00000073, 0xff81bf83, 0xff818193, 0x001f8463, 0xf39ff06f, 0x000f8067, 0xf2dff06f,
        ], 0x00c000ef, &[], b"hi\n", 0, 0,
            "calls 63 64\ncall 4000000c 40000040\ncall 40000054 40000094\nend\n",
            b"148.11151111165"),
        None,
    ),
    // eight
    Program(
        Given(Source::Writing, 0, b"", "main", Some(b"rvcfi-policy 2\ncalls 0 1 62 63 64 93 94 2047\nend\n")),
        Units(&[
            0xff010113, 0x00810f93, 0x024f9f93, 0x024fdf93, 0x001fb023, 0x03019f13, 0x000f1463, 0xfadff06f, 0x00000f17, 0x014f0f13,
            0x01e1b023, 0x00818193, 0x024000ef, 0x00000513, 0x00813083, 0x01010113, 0xff81bf83, 0xff818193, 0x001f8463, 0xf79ff06f,
            0x000f8067, 0xc0010597, 0xf6c58593, 0x00100513, 0x00300613, 0x04000893, 0x00000f93, 0x051f8063, 0x00100f93, 0x031f8c63,
            0x03e00f93, 0x031f8863, 0x03f00f93, 0x031f8463, 0x04000f93, 0x031f8063, 0x05d00f93, 0x011f8c63, 0x05e00f93, 0x011f8863,
            0x7ff00f93, 0x011f8463, 0xf19ff06f, 0x00000073, 0xff81bf83, 0xff818193, 0x001f8463, 0xf09ff06f, 0x000f8067, 0xefdff06f,
        ], 0x00c000ef, &[], b"hi\n", 0, 0,
            "calls 0 1 62 63 64 93 94 2047\ncall 4000000c 40000040\ncall 40000054 40000094\nend\n",
            b"148.111511111i5"),
        None,
    ),
    // asking
    Program(
        Given(Source::Coded, 0, b"b702010083b802007300000067800000", "main", Some(b"rvcfi-policy 2\ncalls 0 2047\nend\n")),
        Units(&[
            0x000102b7, 0x0002b883, 0x00000f93, 0x011f8863, 0x7ff00f93, 0x011f8463, 0xfa9ff06f, 0x00000073, 0xff81bf83, 0xff818193,
            0x001f8463, 0xf99ff06f, 0x000f8067, 0xf8dff06f,
        ], 0x00c000ef, &[], b"", 0, 0,
            "calls 0 2047\ncall 4000000c 40000040\nend\n",
            b"1165"),
        None,
    ),
    // ending
    Program(
        Given(Source::Coded, 0, b"9308e00513053000730000007300100073000000", "main", Some(b"rvcfi-policy 2\ncalls 94\nend\n")),
        Units(&[
            0x05e00893, 0x00300513, 0x05e00f93, 0x011f8463, 0xfb1ff06f, 0x00000073, 0x00100073, 0x05e00f93, 0x011f8463, 0xf9dff06f,
            0x00000073, 0xf95ff06f,
        ], 0x00c000ef, &[], b"", 0, 0,
            "calls 94\ncall 4000000c 40000040\nend\n",
            b"11414"),
        None,
    ),
    // around
    Program(
        Given(Source::Coded, 0, b"9308000413052000630e0500233c61fe233871fe73000000233461fe233071fee30a05fe67800000", "main", Some(b"rvcfi-policy 2\ncalls 64 93\nend\n")),
        Units(&[
            0x04000893, 0x00200513, 0x04050463, 0xff010f93, 0x024f9f93, 0x024fdf93, 0x006fb423, 0x007fb023, 0x04000f93, 0x011f8863,
            0x05d00f93, 0x011f8463, 0xf91ff06f, 0x00000073, 0xfe010f93, 0x024f9f93, 0x024fdf93, 0x006fb423, 0x007fb023, 0xfc050ae3,
            0xff81bf83, 0xff818193, 0x001f8463, 0xf69ff06f, 0x000f8067, 0xf5dff06f,
        ], 0x00c000ef, &[], b"", 0, 0,
            "calls 64 93\ncall 4000000c 40000040\nedge 40000048 40000090\nedge 4000008c 40000060\nend\n",
            b"1114164115"),
        None,
    ),
    // product
    Program(
        Given(Source::Coded, 0, b"9302900013037000b38862027300000067800000", "main", Some(b"rvcfi-policy 2\ncalls 63\nend\n")),
        Units(&[
            0x00900293, 0x00700313, 0x026288b3, 0x03f00f93, 0x011f8463, 0xfadff06f, 0x00000073, 0xff81bf83, 0xff818193, 0x001f8463,
            0xf9dff06f, 0x000f8067, 0xf91ff06f,
        ], 0x00c000ef, &[], b"", 0, 0,
            "calls 63\ncall 4000000c 40000040\nend\n",
            b"11145"),
        None,
    ),
    // asked
    Program(
        Given(Source::Calling, 104, b"73000000", "main", Some(b"rvcfi-policy 2\ncalls 2047\nend\n")),
        Units(&[
            0xff010113, 0x00810f93, 0x024f9f93, 0x024fdf93, 0x001fb023, 0x000102b7, 0x0002b283, 0x00028f93, 0xffcfff93, 0x40000f37,
            0x41ef8f33, 0x014f5f13, 0x000f0463, 0xf8dff06f, 0x000faf03, 0x00001237, 0x03720213, 0x004f0463, 0xf79ff06f, 0x03019f13,
            0x000f1463, 0xf75ff06f, 0x00000f17, 0x014f0f13, 0x01e1b023, 0x00818193, 0x000f80e7, 0x00813083, 0x01010113, 0xff81bf83,
            0xff818193, 0x001f8463, 0xf45ff06f, 0x000f8067, 0x00001037, 0x00100513, 0xff81bf83, 0xff818193, 0x001f8463, 0xf29ff06f,
            0x000f8067, 0x00001037, 0x7ff00f93, 0x011f8463, 0xf11ff06f, 0x00000073, 0xff81bf83, 0xff818193, 0x001f8463, 0xf01ff06f,
            0x000f8067, 0xef5ff06f,
        ], 0x00c000ef, &[0x400000c8, 0x400000e4], b"", 1, 1,
            "calls 2047\nclass 00001 400000c8 400000e4\ncall 4000000c 40000040\nsite 4000005c call 00001\nend\n",
            b"1411k1152555"),
        Some(Units(&[
            0xff010113, 0x00810f93, 0x024f9f93, 0x024fdf93, 0x001fb023, 0x000102b7, 0x0002b283, 0x00028f93, 0xffcfff93, 0x40000f37,
            0x41ef8f33, 0x014f5f13, 0x000f0463, 0xf8dff06f, 0x000faf03, 0x00001237, 0x03720213, 0x004f0463, 0xf79ff06f, 0x03019f13,
            0x000f1463, 0xf75ff06f, 0x00000f17, 0x014f0f13, 0x01e1b023, 0x00818193, 0x000f80e7, 0x00813083, 0x01010113, 0xff81bf83,
            0xff818193, 0x001f8463, 0xf45ff06f, 0x000f8067, 0x00001037, 0x00000013, 0x00100513, 0xff81bf83, 0xff818193, 0x001f8463,
            0xf25ff06f, 0x000f8067, 0x00001037, 0x00000013, 0x7ff00f93, 0x011f8463, 0xf09ff06f, 0x00000073, 0xff81bf83, 0xff818193,
            0x001f8463, 0xef9ff06f, 0x000f8067, 0xeedff06f,
        ], 0x00c000ef, &[0x400000c8, 0x400000e8], b"", 1, 1,
            "calls 2047\ncallclass 00001 400000c8 400000e8\ncall 4000000c 40000040\nsite 4000005c call 00001\nend\n",
            b"1411k1153565")),
    ),
    // no call
    Program(
        Given(Source::Calling, 0, b"", "main", Some(b"rvcfi-policy 2\ncalls 0\nsite main+10 f+0\nend\n")),
        Units(&NARROW, 0x00c000ef, &[0x400000c8, 0x400000e4], b"", 1, 1,
            "calls 0\nclass 00001 400000c8\ncall 4000000c 40000040\nsite 4000005c call 00001\nend\n",
            b"1411k1152515"),
        Some(Units(&NARROW_APART, 0x00c000ef, &[0x400000c8, 0x400000e8], b"", 1, 1,
            "calls 0\ncallclass 00001 400000c8\ncall 4000000c 40000040\nsite 4000005c call 00001\nend\n",
            b"1411k1153515")),
    ),
];
