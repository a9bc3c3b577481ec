//! The graphs of the programs, as texts.

/// The graph of `A`.
pub const A_GRAPH: &[u8] = b"rvcfi-graph 1\ncode 40000000 00000050\ncall 4000000c 40000040\nend\n";

/// A graph of `A` or `ASTRAY`, with a class that has no target.
pub const A_CLASS_GRAPH: &[u8] =
    b"rvcfi-graph 1\ncode 40000000 00000050\nclass 00001\ncall 4000000c 40000040\nend\n";

/// The graph of `B`.
pub const B_GRAPH: &[u8] = b"rvcfi-graph 1\ncode 40000000 0000005c\ncall 4000000c 40000040\nend\n";

/// The graph of `H`.
pub const H_GRAPH: &[u8] =
    b"rvcfi-graph 1\ncode 40000000 000000c4\ncall 4000000c 40000040\ncall 40000054 40000094\n\
end\n";

/// The graph of `P`.
pub const P_GRAPH: &[u8] = b"rvcfi-graph 1\ncode 40000000 00000104\nclass 00001 400000c8 400000e4\n\
call 4000000c 40000040\nsite 4000005c call 00001\nend\n";

/// The graph of `RELABELLED`.
pub const RELABELLED_GRAPH: &[u8] =
    b"rvcfi-graph 1\ncode 40000000 00000104\nclass 00002 400000c8 400000e4\n\
call 4000000c 40000040\nsite 4000005c call 00002\nend\n";

/// The graph of `NARROW`.
pub const NARROW_GRAPH: &[u8] =
    b"rvcfi-graph 1\ncode 40000000 00000100\nclass 00001 400000c8\ncall 4000000c 40000040\n\
site 4000005c call 00001\nend\n";

/// The graph of `NOWHERE`.
pub const NOWHERE_GRAPH: &[u8] =
    b"rvcfi-graph 1\ncode 40000000 000000a8\nclass 00001\ncall 4000000c 40000040\n\
site 40000040 call 00001\nend\n";

/// The graph of `JUMP`.
pub const JUMP_GRAPH: &[u8] =
    b"rvcfi-graph 1\ncode 40000000 000000b8\nclass 00001 4000007c 40000098\n\
call 4000000c 40000040\nsite 40000048 jump 00001\nend\n";

/// The graph of `ECHO`.
pub const ECHO_GRAPH: &[u8] =
    b"rvcfi-graph 1\ncode 40000000 00000088\ncall 4000000c 40000040\nedge 40000058 40000070\n\
edge 4000006c 40000044\nend\n";

/// The graph of `EDGE`.
pub const EDGE_GRAPH: &[u8] =
    b"rvcfi-graph 1\ncode 40000000 00000068\ncall 4000000c 40000040\nend\n";

/// The graph of `AIMED`.
pub const AIMED_GRAPH: &[u8] =
    b"rvcfi-graph 1\ncode 40000000 0000006c\ncall 4000000c 40000040\nend\n";

/// The graph of `DEEP`.
pub const DEEP_GRAPH: &[u8] =
    b"rvcfi-graph 1\ncode 40000000 000000ac\ncall 4000000c 40000040\nedge 40000048 4000004c\n\
edge 4000004c 40000094\ncall 4000006c 4000004c\nend\n";

/// The graph of `LOOP`.
pub const LOOP_GRAPH: &[u8] =
    b"rvcfi-graph 1\ncode 40000000 00000060\ncall 4000000c 40000040\nedge 40000048 40000044\n\
end\n";

/// The graph of `BREAK`.
pub const BREAK_GRAPH: &[u8] =
    b"rvcfi-graph 1\ncode 40000000 00000048\ncall 4000000c 40000040\nend\n";

/// The graph of `LOAD`.
pub const LOAD_GRAPH: &[u8] =
    b"rvcfi-graph 1\ncode 40000000 0000004c\ncall 4000000c 40000040\nend\n";

/// The graph of `STATUS`.
pub const STATUS_GRAPH: &[u8] =
    b"rvcfi-graph 1\ncode 40000000 00000054\ncall 4000000c 40000040\nend\n";

/// The graph of `B_OF_HARTS`.
pub const B_OF_HARTS_GRAPH: &[u8] =
    b"rvcfi-graph 1\ncode 40000000 0000006c\ncall 4000000c 40000050\nend\n";

/// The graph of `A_OF_HARTS`.
pub const A_OF_HARTS_GRAPH: &[u8] =
    b"rvcfi-graph 1\ncode 40000000 00000060\ncall 4000000c 40000050\nend\n";

/// The graph of `SHARED`.
pub const SHARED_GRAPH: &[u8] = b"rvcfi-graph 1\ncode 40000000 00000098\ncall 4000000c 40000050\n\
edge 40000054 40000070\nend\n";

/// The graph of `JOBS`.
pub const JOBS_GRAPH: &[u8] = b"rvcfi-graph 1\ncode 40000000 00000264\n\
class 00001 40000094 4000017c 400001a8 400001d4 40000224 40000230 40000258\n\
class 00002 40000144 40000160\ncall 4000000c 40000050\nsite 40000060 jump 00001\n\
site 400000d8 call 00002\nedge 400001a4 4000018c\nedge 400001fc 40000210\n\
edge 4000020c 400001e8\ncall 40000234 40000234\nedge 4000025c 4000025c\nend\n";

/// The graph of `BEHIND`.
pub const BEHIND_GRAPH: &[u8] =
    b"rvcfi-graph 1\ncode 40000000 00000070\ncall 4000000c 40000040\nend\n";

/// The graph of `Q`.
pub const Q_GRAPH: &[u8] = b"rvcfi-graph 2\ncode 40000000 00000124\ncallclass 00001 4000009c\n\
jumpclass 00002 4000007c 4000009c\ncall 4000000c 40000040\nsite 40000048 jump 00002\n\
site 400000bc call 00001\nend\n";

/// The graph of `Q_OF_HARTS`.
pub const Q_OF_HARTS_GRAPH: &[u8] =
    b"rvcfi-graph 2\ncode 40000000 00000134\ncallclass 00001 400000ac\n\
jumpclass 00002 4000008c 400000ac\ncall 4000000c 40000050\nsite 40000058 jump 00002\n\
site 400000cc call 00001\nend\n";

/// The graph of `APART`.
pub const APART_GRAPH: &[u8] =
    b"rvcfi-graph 2\ncode 40000000 00000154\ncallclass 00001 400000f0 40000130\n\
jumpclass 00002 40000110 40000130\ncall 4000000c 40000040\nsite 4000005c call 00001\n\
site 400000bc jump 00002\nend\n";

/// The graph of `APART_OF_HARTS`.
pub const APART_OF_HARTS_GRAPH: &[u8] =
    b"rvcfi-graph 2\ncode 40000000 00000164\ncallclass 00001 40000100 40000140\n\
jumpclass 00002 40000120 40000140\ncall 4000000c 40000050\nsite 4000006c call 00001\n\
site 400000cc jump 00002\nend\n";

/// The graph of `JOINED`.
pub const JOINED_GRAPH: &[u8] =
    b"rvcfi-graph 1\ncode 40000000 00000148\nclass 00001 400000f0 4000010c 40000128\n\
call 4000000c 40000040\nsite 4000005c call 00001\nsite 400000bc jump 00001\nend\n";

/// The graph of `STORES`.
pub const STORES_GRAPH: &[u8] =
    b"rvcfi-graph 1\ncode 40000000 00000094\ncall 4000000c 40000040\nend\n";

/// The graph of `GROUPS`.
pub const GROUPS_GRAPH: &[u8] =
    b"rvcfi-graph 1\ncode 40000000 000000b4\ncall 4000000c 40000040\nedge 40000070 4000004c\n\
edge 40000074 4000004c\nend\n";
