//! Images of graphs of version 3, whole codes with their prologues.

/// One of the programs below.
#[derive(Clone, Copy)]
pub(crate) enum Program {
    Leaf,
    Enter,
    CallsLeaf,
    CallsByPointer,
    JumpsByPointer,
}

impl Program {
    /// The words of its code.
    pub(crate) fn words(self) -> &'static [u32] {
        match self {
            Program::Leaf => &LEAF,
            Program::Enter => &ENTER,
            Program::CallsLeaf => &CALLS_LEAF,
            Program::CallsByPointer => &CALLS_BY_POINTER,
            Program::JumpsByPointer => &JUMPS_BY_POINTER,
        }
    }

    /// The bytes of its graph.
    pub(crate) fn graph(self) -> &'static [u8] {
        match self {
            Program::Leaf => LEAF_GRAPH,
            Program::Enter => ENTER_GRAPH,
            Program::CallsLeaf => CALLS_LEAF_GRAPH,
            Program::CallsByPointer => CALLS_BY_POINTER_GRAPH,
            Program::JumpsByPointer => JUMPS_BY_POINTER_GRAPH,
        }
    }
}

/// Exits with 7 from a function that calls nothing.
#[rattlefmt::skip]
pub(crate) static LEAF: [u32; 15] = [
    0x00100073, 0x00100073, 0x00100073, 0x10000137, 0x10000237, 0xfff20213, 0x600001b7, 0x00818193,
    0x00c000ef, 0x05d00893, 0x00000073, 0x00700513, 0x05d00893, 0x00000073, 0xfc9ff06f,
];

/// Its graph.
pub(crate) const LEAF_GRAPH: &[u8] =
    b"rvcfi-graph 3\ncode 40000000 0000003c\nleaf 4000002c 4000003c\ncall 4000000c 4000002c\nend\n";

/// For several harts: exits with 7 from a function that saves its site.
#[rattlefmt::skip]
pub(crate) static ENTER: [u32; 24] = [
    0x00100073, 0x00100073, 0x00100073, 0x10000137, 0x10000237, 0xfff20213, 0x01451f93, 0x41f10133,
    0x600001b7, 0x01051f93, 0x01f181b3, 0x00818193, 0x00c000ef, 0x05d00893, 0x00000073, 0x03019f13,
    0x000f1463, 0xfc5ff06f, 0x0011b023, 0x00818193, 0x00700513, 0x05d00893, 0x00000073, 0xfa5ff06f,
];

/// Its graph.
pub(crate) const ENTER_GRAPH: &[u8] =
    b"rvcfi-graph 3\ncode 40000000 00000060\ncall 4000000c 4000003c\nend\n";

/// Calls a function that calls nothing, which writes three bytes by a system call.
#[rattlefmt::skip]
pub(crate) static CALLS_LEAF: [u32; 37] = [
    0x00100073, 0x00100073, 0x00100073, 0x10000137, 0x10000237, 0xfff20213, 0x600001b7, 0x00818193,
    0x010000ef, 0x05d00893, 0x00000073, 0x0180006f, 0x03019f13, 0x000f1463, 0xfd1ff06f, 0x0011b023,
    0x00818193, 0xff010113, 0x00417fb3, 0x001fb423, 0x024000ef, 0x00000513, 0x00813083, 0x01010113,
    0xff81bf83, 0xff818193, 0x001f8463, 0xf99ff06f, 0x000f8067, 0xc0010597, 0xf8c58593, 0x00100513,
    0x00300613, 0x04000893, 0x00000073, 0x00008067, 0xf71ff06f,
];

/// Its graph.
pub(crate) const CALLS_LEAF_GRAPH: &[u8] =
    b"rvcfi-graph 3\ncode 40000000 00000094\nleaf 40000074 40000090\ncall 4000000c 40000030\nedge 4000002c 40000044\ncall 40000050 40000074\nend\n";

/// Its data.
pub(crate) const CALLS_LEAF_DATA: &[u8] = b"\x68\x69\x0a";

/// Calls one of two functions through a pointer.
#[rattlefmt::skip]
pub(crate) static CALLS_BY_POINTER: [u32; 73] = [
    0x00100073, 0x00100073, 0x00100073, 0x10000137, 0x10000237, 0xfff20213, 0x600001b7, 0x00818193,
    0x010000ef, 0x05d00893, 0x00000073, 0x0180006f, 0x03019f13, 0x000f1463, 0xfd1ff06f, 0x0011b023,
    0x00818193, 0xff010113, 0x00417fb3, 0x001fb423, 0x000102b7, 0x0002b283, 0x00028f93, 0xffcfff93,
    0x40000f37, 0x41ef8f33, 0x014f5f13, 0x000f0463, 0xf91ff06f, 0x008faf03, 0x00001237, 0x03720213,
    0x004f0463, 0xf7dff06f, 0x10000237, 0xfff20213, 0x008f80e7, 0x00813083, 0x01010113, 0xff81bf83,
    0xff818193, 0x001f8463, 0xf5dff06f, 0x000f8067, 0x00000013, 0x01c0006f, 0x00001037, 0x03019f13,
    0x000f1463, 0xf45ff06f, 0x0011b023, 0x00818193, 0x00100513, 0xff81bf83, 0xff818193, 0x001f8463,
    0xf25ff06f, 0x000f8067, 0x00000013, 0x01c0006f, 0x00001037, 0x03019f13, 0x000f1463, 0xf0dff06f,
    0x0011b023, 0x00818193, 0x00200513, 0xff81bf83, 0xff818193, 0x001f8463, 0xeedff06f, 0x000f8067,
    0xee1ff06f,
];

/// Its graph.
pub(crate) const CALLS_BY_POINTER_GRAPH: &[u8] =
    b"rvcfi-graph 3\ncode 40000000 00000124\ncallclass 00001 400000b0 400000e8\ncall 4000000c 40000030\nedge 4000002c 40000044\nsite 40000058 call 00001\nedge 400000b4 400000d0\nedge 400000ec 40000108\nend\n";

/// Its data.
pub(crate) const CALLS_BY_POINTER_DATA: &[u8] =
    b"\xb0\x00\x00\x40\x00\x00\x00\x00\xe8\x00\x00\x40\x00\x00\x00\x00";

/// Jumps through a pointer to one of two functions, one of which is called through another pointer too.
#[rattlefmt::skip]
pub(crate) static JUMPS_BY_POINTER: [u32; 76] = [
    0x00100073, 0x00100073, 0x00100073, 0x10000137, 0x10000237, 0xfff20213, 0x600001b7, 0x00818193,
    0x010000ef, 0x05d00893, 0x00000073, 0x0180006f, 0x03019f13, 0x000f1463, 0xfd1ff06f, 0x0011b023,
    0x00818193, 0x000102b7, 0x0002b283, 0x00028f93, 0xffcfff93, 0x40000f37, 0x41ef8f33, 0x014f5f13,
    0x000f0463, 0xf9dff06f, 0x000faf03, 0x00002237, 0x03720213, 0x004f0463, 0xf89ff06f, 0x10000237,
    0xfff20213, 0x000f8067, 0x00002037, 0x00100513, 0xff81bf83, 0xff818193, 0x001f8463, 0xf69ff06f,
    0x000f8067, 0x00002037, 0x01c0006f, 0x00001037, 0x03019f13, 0x000f1463, 0xf51ff06f, 0x0011b023,
    0x00818193, 0x00200513, 0xff81bf83, 0xff818193, 0x001f8463, 0xf31ff06f, 0x000f8067, 0x00028f93,
    0xffcfff93, 0x40000f37, 0x41ef8f33, 0x014f5f13, 0x000f0463, 0xf0dff06f, 0x008faf03, 0x00001237,
    0x03720213, 0x004f0463, 0xef9ff06f, 0x10000237, 0xfff20213, 0x008f80e7, 0xff81bf83, 0xff818193,
    0x001f8463, 0xee1ff06f, 0x000f8067, 0xed5ff06f,
];

/// Its graph.
pub(crate) const JUMPS_BY_POINTER_GRAPH: &[u8] =
    b"rvcfi-graph 3\ncode 40000000 00000130\ncallclass 00001 400000a4\njumpclass 00002 40000088 400000a4\ncall 4000000c 40000030\nedge 4000002c 40000044\nsite 4000004c jump 00002\nedge 400000a8 400000c4\nsite 400000dc call 00001\nend\n";

/// Its data.
pub(crate) const JUMPS_BY_POINTER_DATA: &[u8] =
    b"\x88\x00\x00\x40\x00\x00\x00\x00\xa4\x00\x00\x40\x00\x00\x00\x00";
