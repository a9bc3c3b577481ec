//! Objects as one program in each form of hardening: the words of their units, their data, their graphs and their maps,
//! as tests/objects/make_links.py at the top of the repository prints them.

use crate::given::Objects;
use rv_image::Form;

/// How a run by one hart ends: its steps, the length of its walk and its exit.
#[derive(Clone, Copy)]
pub struct Run(pub u64, pub u64, pub u8);

/// What objects become: the form, the objects, the words of the units, the call of the entry in the prologue, the data,
/// the graph and the map, and a run.
pub struct Worked(
    pub Form,
    pub Objects,
    pub &'static [u32],
    pub u32,
    pub &'static [u8],
    pub &'static [u8],
    pub &'static [u8],
    pub Run,
);

/// The texts of the two objects of the pair.
pub(crate) const PAIR: &str = "\
    code,4,ff010113.00113423.00000097.000080e7.00813083.01010113.00008067;main,GLOBAL,FUNC,1,0,28 \
    f,GLOBAL,NOTYPE,0,0,0;1,8,CALL_PLT,f,0/code,4,00300513.00008067;f,GLOBAL,FUNC,1,0,8;";

/// The units of `PAIR_PLAIN`.
#[rattlefmt::skip]
pub const PAIR_PLAIN: [u32; 28] = [
    0xff010113, 0x00810f93, 0x024f9f93, 0x024fdf93, 0x001fb023, 0x03019f13, 0x000f1463, 0xfadff06f,
    0x00000f17, 0x014f0f13, 0x01e1b023, 0x00818193, 0x024000ef, 0x00813083, 0x01010113, 0xff81bf83,
    0xff818193, 0x001f8463, 0xf7dff06f, 0x000f8067, 0xf71ff06f, 0x00300513, 0xff81bf83, 0xff818193,
    0x001f8463, 0xf61ff06f, 0x000f8067, 0xf55ff06f,
];

#[rattlefmt::skip]
pub(crate) const PAIR_PLAIN_GRAPH: &[u8] = b"rvcfi-graph 1\n\
    code 40000000 000000b0\n\
    call 4000000c 40000040\n\
    call 40000054 40000094\n\
    end\n";

#[rattlefmt::skip]
pub(crate) const PAIR_PLAIN_MAP: &[u8] = b"rvcfi-map 1\n\
    at 40000040 0001 00000000\nat 40000044 0001 00000004\nat 40000054 0001 00000008\n\
    at 40000074 0001 00000010\nat 40000078 0001 00000014\nat 4000007c 0001 00000018\n\
    at 40000090 0001 0000001c\nat 40000094 0007 00000000\nat 40000098 0007 00000004\n\
    at 400000ac 0007 00000008\n\
    end\n";

/// The units of `PAIR_HARTS`.
#[rattlefmt::skip]
pub const PAIR_HARTS: [u32; 28] = [
    0xff010113, 0x00810f93, 0x024f9f93, 0x024fdf93, 0x001fb023, 0x03019f13, 0x000f1463, 0xf9dff06f,
    0x00000f17, 0x014f0f13, 0x01e1b023, 0x00818193, 0x024000ef, 0x00813083, 0x01010113, 0xff81bf83,
    0xff818193, 0x001f8463, 0xf6dff06f, 0x000f8067, 0xf61ff06f, 0x00300513, 0xff81bf83, 0xff818193,
    0x001f8463, 0xf51ff06f, 0x000f8067, 0xf45ff06f,
];

#[rattlefmt::skip]
pub(crate) const PAIR_HARTS_GRAPH: &[u8] = b"rvcfi-graph 1\n\
    code 40000000 000000c0\n\
    call 4000000c 40000050\n\
    call 40000064 400000a4\n\
    end\n";

#[rattlefmt::skip]
pub(crate) const PAIR_HARTS_MAP: &[u8] = b"rvcfi-map 2 harts\n\
    at 40000050 0001 00000000\nat 40000054 0001 00000004\nat 40000064 0001 00000008\n\
    at 40000084 0001 00000010\nat 40000088 0001 00000014\nat 4000008c 0001 00000018\n\
    at 400000a0 0001 0000001c\nat 400000a4 0007 00000000\nat 400000a8 0007 00000004\n\
    at 400000bc 0007 00000008\n\
    end\n";

#[rattlefmt::skip]
pub(crate) const PAIR_SPLIT_GRAPH: &[u8] = b"rvcfi-graph 2\n\
    code 40000000 000000b0\n\
    call 4000000c 40000040\n\
    call 40000054 40000094\n\
    end\n";

#[rattlefmt::skip]
pub(crate) const PAIR_SPLIT_MAP: &[u8] = b"rvcfi-map 2 split\n\
    at 40000040 0001 00000000\nat 40000044 0001 00000004\nat 40000054 0001 00000008\n\
    at 40000074 0001 00000010\nat 40000078 0001 00000014\nat 4000007c 0001 00000018\n\
    at 40000090 0001 0000001c\nat 40000094 0007 00000000\nat 40000098 0007 00000004\n\
    at 400000ac 0007 00000008\n\
    end\n";

#[rattlefmt::skip]
pub(crate) const PAIR_HARTS_SPLIT_GRAPH: &[u8] = b"rvcfi-graph 2\n\
    code 40000000 000000c0\n\
    call 4000000c 40000050\n\
    call 40000064 400000a4\n\
    end\n";

#[rattlefmt::skip]
pub(crate) const PAIR_HARTS_SPLIT_MAP: &[u8] = b"rvcfi-map 2 harts-split\n\
    at 40000050 0001 00000000\nat 40000054 0001 00000004\nat 40000064 0001 00000008\n\
    at 40000084 0001 00000010\nat 40000088 0001 00000014\nat 4000008c 0001 00000018\n\
    at 400000a0 0001 0000001c\nat 400000a4 0007 00000000\nat 400000a8 0007 00000004\n\
    at 400000bc 0007 00000008\n\
    end\n";

/// The units of `TABLE_PLAIN`.
#[rattlefmt::skip]
pub const TABLE_PLAIN: [u32; 23] = [
    0xc0010297, 0xfc02b283, 0x00028f93, 0xffcfff93, 0x40000f37, 0x41ef8f33, 0x014f5f13, 0x000f0463,
    0xfa1ff06f, 0x000faf03, 0x00001237, 0x03720213, 0x004f0463, 0xf8dff06f, 0x000f8067, 0x00001037,
    0x00400513, 0xff81bf83, 0xff818193, 0x001f8463, 0xf75ff06f, 0x000f8067, 0xf69ff06f,
];

#[rattlefmt::skip]
pub(crate) const TABLE_PLAIN_GRAPH: &[u8] = b"rvcfi-graph 1\n\
    code 40000000 0000009c\n\
    class 00001 4000007c\n\
    call 4000000c 40000040\n\
    site 40000048 jump 00001\n\
    end\n";

#[rattlefmt::skip]
pub(crate) const TABLE_PLAIN_MAP: &[u8] = b"rvcfi-map 1\n\
    at 40000040 0001 00000000\nat 40000044 0001 00000004\nat 40000048 0001 00000008\n\
    at 4000007c 0001 0000000c\nat 40000084 0001 00000010\nat 40000098 0001 00000014\n\
    end\n";

/// The units of `TABLE_HARTS`.
#[rattlefmt::skip]
pub const TABLE_HARTS: [u32; 23] = [
    0xc0010297, 0xfb02b283, 0x00028f93, 0xffcfff93, 0x40000f37, 0x41ef8f33, 0x014f5f13, 0x000f0463,
    0xf91ff06f, 0x000faf03, 0x00001237, 0x03720213, 0x004f0463, 0xf7dff06f, 0x000f8067, 0x00001037,
    0x00400513, 0xff81bf83, 0xff818193, 0x001f8463, 0xf65ff06f, 0x000f8067, 0xf59ff06f,
];

#[rattlefmt::skip]
pub(crate) const TABLE_HARTS_GRAPH: &[u8] = b"rvcfi-graph 1\n\
    code 40000000 000000ac\n\
    class 00001 4000008c\n\
    call 4000000c 40000050\n\
    site 40000058 jump 00001\n\
    end\n";

#[rattlefmt::skip]
pub(crate) const TABLE_HARTS_MAP: &[u8] = b"rvcfi-map 2 harts\n\
    at 40000050 0001 00000000\nat 40000054 0001 00000004\nat 40000058 0001 00000008\n\
    at 4000008c 0001 0000000c\nat 40000094 0001 00000010\nat 400000a8 0001 00000014\n\
    end\n";

/// The units of `TABLE_SPLIT`.
#[rattlefmt::skip]
pub const TABLE_SPLIT: [u32; 24] = [
    0xc0010297, 0xfc02b283, 0x00028f93, 0xffcfff93, 0x40000f37, 0x41ef8f33, 0x014f5f13, 0x000f0463,
    0xfa1ff06f, 0x004faf03, 0x00001237, 0x03720213, 0x004f0463, 0xf8dff06f, 0x000f8067, 0x00000013,
    0x00001037, 0x00400513, 0xff81bf83, 0xff818193, 0x001f8463, 0xf71ff06f, 0x000f8067, 0xf65ff06f,
];

#[rattlefmt::skip]
pub(crate) const TABLE_SPLIT_GRAPH: &[u8] = b"rvcfi-graph 2\n\
    code 40000000 000000a0\n\
    jumpclass 00001 4000007c\n\
    call 4000000c 40000040\n\
    site 40000048 jump 00001\n\
    end\n";

#[rattlefmt::skip]
pub(crate) const TABLE_SPLIT_MAP: &[u8] = b"rvcfi-map 2 split\n\
    at 40000040 0001 00000000\nat 40000044 0001 00000004\nat 40000048 0001 00000008\n\
    at 4000007c 0001 0000000c\nat 40000088 0001 00000010\nat 4000009c 0001 00000014\n\
    end\n";

/// The units of `TABLE_HARTS_SPLIT`.
#[rattlefmt::skip]
pub const TABLE_HARTS_SPLIT: [u32; 24] = [
    0xc0010297, 0xfb02b283, 0x00028f93, 0xffcfff93, 0x40000f37, 0x41ef8f33, 0x014f5f13, 0x000f0463,
    0xf91ff06f, 0x004faf03, 0x00001237, 0x03720213, 0x004f0463, 0xf7dff06f, 0x000f8067, 0x00000013,
    0x00001037, 0x00400513, 0xff81bf83, 0xff818193, 0x001f8463, 0xf61ff06f, 0x000f8067, 0xf55ff06f,
];

#[rattlefmt::skip]
pub(crate) const TABLE_HARTS_SPLIT_GRAPH: &[u8] = b"rvcfi-graph 2\n\
    code 40000000 000000b0\n\
    jumpclass 00001 4000008c\n\
    call 4000000c 40000050\n\
    site 40000058 jump 00001\n\
    end\n";

#[rattlefmt::skip]
pub(crate) const TABLE_HARTS_SPLIT_MAP: &[u8] = b"rvcfi-map 2 harts-split\n\
    at 40000050 0001 00000000\nat 40000054 0001 00000004\nat 40000058 0001 00000008\n\
    at 4000008c 0001 0000000c\nat 40000098 0001 00000010\nat 400000ac 0001 00000014\n\
    end\n";

/// Programs in each form.
#[rattlefmt::skip]
pub static WORKED: [Worked; 8] = [
    Worked(
        Form::Plain, Objects::Pair, &PAIR_PLAIN, 0x00c000ef,
        b"", PAIR_PLAIN_GRAPH, PAIR_PLAIN_MAP, Run(35, 10, 3),
    ),
    Worked(
        Form::Harts, Objects::Pair, &PAIR_HARTS, 0x00c000ef,
        b"", PAIR_HARTS_GRAPH, PAIR_HARTS_MAP, Run(39, 10, 3),
    ),
    Worked(
        Form::Split, Objects::Pair, &PAIR_PLAIN, 0x00c000ef,
        b"", PAIR_SPLIT_GRAPH, PAIR_SPLIT_MAP, Run(35, 10, 3),
    ),
    Worked(
        Form::HartsSplit, Objects::Pair, &PAIR_HARTS, 0x00c000ef,
        b"", PAIR_HARTS_SPLIT_GRAPH, PAIR_HARTS_SPLIT_MAP, Run(39, 10, 3),
    ),
    Worked(
        Form::Plain, Objects::Table, &TABLE_PLAIN, 0x00c000ef,
        b"\x7c\x00\x00\x40\x00\x00\x00\x00", TABLE_PLAIN_GRAPH, TABLE_PLAIN_MAP, Run(31, 8, 4),
    ),
    Worked(
        Form::Harts, Objects::Table, &TABLE_HARTS, 0x00c000ef,
        b"\x8c\x00\x00\x40\x00\x00\x00\x00", TABLE_HARTS_GRAPH, TABLE_HARTS_MAP, Run(35, 8, 4),
    ),
    Worked(
        Form::Split, Objects::Table, &TABLE_SPLIT, 0x00c000ef,
        b"\x7c\x00\x00\x40\x00\x00\x00\x00", TABLE_SPLIT_GRAPH, TABLE_SPLIT_MAP, Run(32, 9, 4),
    ),
    Worked(
        Form::HartsSplit, Objects::Table, &TABLE_HARTS_SPLIT, 0x00c000ef,
        b"\x8c\x00\x00\x40\x00\x00\x00\x00", TABLE_HARTS_SPLIT_GRAPH, TABLE_HARTS_SPLIT_MAP, Run(36, 9, 4),
    ),
];
