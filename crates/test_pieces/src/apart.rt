//! Codes that come in pieces under graphs of version 2, in which calls and jumps have classes of their own. The rules and addresses
//! are those that the definitions of the rules give.

use crate::pieces::{Row, is_right};
use rv_image::ImageVersion::OneHart;
use sample_programs::{JUMP, P, Q, Q_GRAPH};
use sample_runs::SAME;

/// A graph of the same code whose version is 1.
const FIRST: &[u8] = b"rvcfi-graph 1\ncode 40000000 00000124\ncall 4000000c 40000040\nend\n";

/// The graph of `JUMP` in version 2.
const JUMP_OF_2: &[u8] =
    b"rvcfi-graph 2\ncode 40000000 000000b8\njumpclass 00001 4000007c 40000098\n\
call 4000000c 40000040\nsite 40000048 jump 00001\nend\n";

/// That of `P`, and the same with a class of jumps.
const P_OF_2: &[u8] = b"rvcfi-graph 2\ncode 40000000 00000104\ncallclass 00001 400000c8 400000e4\n\
call 4000000c 40000040\nsite 4000005c call 00001\nend\n";

const P_BY_JUMPS: &[u8] =
    b"rvcfi-graph 2\ncode 40000000 00000104\njumpclass 00001 400000c8 400000e4\n\
call 4000000c 40000040\nsite 4000005c call 00001\nend\n";

/// The graph of `Q` with the label of the other class for the jump, and for the call.
const JUMP_BY_CALLS: &[u8] = b"rvcfi-graph 2\ncode 40000000 00000124\ncallclass 00001 4000009c\n\
jumpclass 00002 4000007c 4000009c\ncall 4000000c 40000040\nsite 40000048 jump 00001\n\
site 400000bc call 00001\nend\n";

const CALL_BY_JUMPS: &[u8] = b"rvcfi-graph 2\ncode 40000000 00000124\ncallclass 00001 4000009c\n\
jumpclass 00002 4000007c 4000009c\ncall 4000000c 40000040\nsite 40000048 jump 00002\n\
site 400000bc call 00002\nend\n";

/// With a call in place of the jump.
const CALL_FOR_JUMP: &[u8] = b"rvcfi-graph 2\ncode 40000000 00000124\ncallclass 00001 4000009c\n\
jumpclass 00002 4000007c 4000009c\ncall 4000000c 40000040\nsite 40000048 call 00002\n\
site 400000bc call 00001\nend\n";

/// With the first function as a target of calls, with the second as none, and with the first as no target of jumps.
const CALL_OF_BOTH: &[u8] =
    b"rvcfi-graph 2\ncode 40000000 00000124\ncallclass 00001 4000007c 4000009c\n\
jumpclass 00002 4000007c 4000009c\ncall 4000000c 40000040\nsite 40000048 jump 00002\n\
site 400000bc call 00001\nend\n";

const CALL_OF_NONE: &[u8] = b"rvcfi-graph 2\ncode 40000000 00000124\ncallclass 00001\n\
jumpclass 00002 4000007c 4000009c\ncall 4000000c 40000040\nsite 40000048 jump 00002\n\
site 400000bc call 00001\nend\n";

const JUMP_TO_ONE: &[u8] = b"rvcfi-graph 2\ncode 40000000 00000124\ncallclass 00001 4000009c\n\
jumpclass 00002 4000009c\ncall 4000000c 40000040\nsite 40000048 jump 00002\n\
site 400000bc call 00001\nend\n";

/// With the last word of the jump as its target.
const JUMP_INSIDE: &[u8] = b"rvcfi-graph 2\ncode 40000000 00000124\ncallclass 00001 4000009c\n\
jumpclass 00002 40000078 4000007c 4000009c\ncall 4000000c 40000040\nsite 40000048 jump 00002\n\
site 400000bc call 00001\nend\n";

#[rattlefmt::skip]
static ROWS: [Row; 26] = [
    Row(OneHart, &Q, Q_GRAPH, 0, SAME, ""),
    Row(OneHart, &P, P_OF_2, 0, SAME, ""),
    // A jump that reads the word that its graph's version has not, and a call that reads the second.
    Row(OneHart, &Q, FIRST, 0, SAME, "Unit 40000048"),
    Row(OneHart, &JUMP, JUMP_OF_2, 0, SAME, "Unit 40000048"),
    Row(OneHart, &Q, Q_GRAPH, 0x64, 0x000f_af03, "Unit 40000048"),
    Row(OneHart, &Q, Q_GRAPH, 0xd8, 0x004f_af03, "Unit 400000bc"),
    // A label that is no line's, and one of a class that does not serve the transfer.
    Row(OneHart, &Q, Q_GRAPH, 0x68, 0x0000_1237, "Site 40000048"),
    Row(OneHart, &Q, Q_GRAPH, 0xdc, 0x0000_2237, "Site 400000bc"),
    Row(OneHart, &Q, JUMP_BY_CALLS, 0x68, 0x0000_1237, "Site 40000048"),
    Row(OneHart, &Q, CALL_BY_JUMPS, 0xdc, 0x0000_2237, "Site 400000bc"),
    Row(OneHart, &Q, CALL_FOR_JUMP, 0, SAME, "Site 40000048"),
    Row(OneHart, &P, P_BY_JUMPS, 0, SAME, "Site 4000005c"),
    // A target of jumps without its second word, or with another one, and one of calls without its first.
    Row(OneHart, &Q, Q_GRAPH, 0x80, 0x0000_0013, "Gate 4000007c"),
    Row(OneHart, &Q, Q_GRAPH, 0x80, 0x0000_1037, "Gate 4000007c"),
    Row(OneHart, &Q, Q_GRAPH, 0xa0, 0x0000_0013, "Gate 4000009c"),
    Row(OneHart, &Q, Q_GRAPH, 0x9c, 0x0000_0013, "Gate 4000009c"),
    Row(OneHart, &Q, CALL_OF_BOTH, 0, SAME, "Gate 4000007c"),
    // A target of jumps that is no unit's start, with the gate behind it.
    Row(OneHart, &Q, JUMP_INSIDE, 0x7c, 0x0000_2037, "Gate 40000078"),
    // A gate at the wrong word of a target, and at none; one of no class may stand at each.
    Row(OneHart, &Q, Q_GRAPH, 0x7c, 0x0000_2037, "Astray 4000007c"),
    Row(OneHart, &Q, Q_GRAPH, 0x7c, 0x0000_1037, "Astray 4000007c"),
    Row(OneHart, &Q, Q_GRAPH, 0x84, 0x0000_2037, "Astray 40000084"),
    Row(OneHart, &Q, Q_GRAPH, 0x84, 0x0000_1037, "Astray 40000084"),
    Row(OneHart, &Q, JUMP_TO_ONE, 0, SAME, "Astray 40000080"),
    Row(OneHart, &Q, CALL_OF_NONE, 0, SAME, "Astray 4000009c"),
    Row(OneHart, &Q, Q_GRAPH, 0x7c, 0x0000_3037, ""),
    Row(OneHart, &Q, Q_GRAPH, 0x84, 0x0000_3037, ""),
];

#[test]
fn pairs(rt: HostRuntime) {
    for row in &ROWS {
        assert!(rt; is_right(rt.alloc(), row), "{} at {}", row.5, row.3);
    }
}
