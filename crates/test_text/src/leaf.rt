//! Lines of leaves, which graphs of version 3 have.

use crate::graph::{is_made_and_written, is_right};
use cfi_graph::{Graph, GraphLine, GraphLines, Sort, read_graph};
use rv_image::GraphVersion;
use rv_word::{NoMemory, Numbers, Places};
use sample_programs::rows;
use std::alloc::Global;

/// Texts of a program whose second function is a leaf: where its line stands, its numbers, and its words.
const TEXTS: &[u8] = b"\
    3 from 4|leaf 40000074 4000009c/call 4000000c 40000030/edge 4000002c 40000044/call 40000050 40000074/end/|a graph\n\
    3 from 4|leaf 40000074 40000074/call 4000000c 40000030/edge 4000002c 40000044/call 40000050 40000074/end/|line 4: Order\n\
    3 from 4|leaf 4000009c 40000074/call 4000000c 40000030/edge 4000002c 40000044/call 40000050 40000074/end/|line 4: Order\n\
    3 from 4|leaf 40000074 4000009c/leaf 40000074 4000009c/call 4000000c 40000030/edge 4000002c 40000044/call 40000050 40000074/end/|line 5: Order\n\
    3 from 4|leaf 40000074 40000088/leaf 40000084 4000009c/call 4000000c 40000030/edge 4000002c 40000044/call 40000050 40000074/end/|line 5: Order\n\
    3 from 4|leaf 40000076 4000009c/call 4000000c 40000030/edge 4000002c 40000044/call 40000050 40000074/end/|line 4: Range\n\
    3 from 4|leaf 40000074 4000009e/call 4000000c 40000030/edge 4000002c 40000044/call 40000050 40000074/end/|line 4: Range\n\
    3 from 4|leaf 40000074 400000a4/call 4000000c 40000030/edge 4000002c 40000044/call 40000050 40000074/end/|line 4: Range\n\
    3 from 4|leaf 400000a0 400000a4/call 4000000c 40000030/edge 4000002c 40000044/call 40000050 40000074/end/|line 4: Range\n\
    3 from 4|leaf 3ffffffc 4000009c/call 4000000c 40000030/edge 4000002c 40000044/call 40000050 40000074/end/|line 4: Range\n\
    3 from 4|leaf 40000074/call 4000000c 40000030/edge 4000002c 40000044/call 40000050 40000074/end/|line 4: Form\n\
    3 from 4|leaf 40000074 4000009C/call 4000000c 40000030/edge 4000002c 40000044/call 40000050 40000074/end/|line 4: Form\n\
    3 from 4|callclass 00001/leaf 40000074 4000009c/call 4000000c 40000030/edge 4000002c 40000044/call 40000050 40000074/end/|line 5: Order\n\
    3 from 4|call 4000000c 40000030/leaf 40000074 4000009c/edge 4000002c 40000044/call 40000050 40000074/end/|line 5: Order\n\
    3 from 3|leaf 40000074 4000009c/calls 64/call 4000000c 40000030/edge 4000002c 40000044/call 40000050 40000074/end/|line 4: Form\n\
    2 from 3|calls 64/leaf 40000074 4000009c/end/|line 4: Form\n\
    3 from 4|leaf 40000074 400000a0/call 4000000c 40000030/edge 4000002c 40000044/call 40000050 40000074/end/|a graph\n\
    2 from 3|leaf 40000074 4000009c/end/|line 3: Form\n\
    from 3|leaf 40000074 4000009c/end/|line 3: Form\n\
    3 from 3|leaf 40000074 4000009c/call 4000000c 40000030/edge 4000002c 40000044/call 40000050 40000074/end/|a graph\n\
    3 from 3|leaf 40000000 40000004/call 4000000c 40000030/edge 4000002c 40000044/call 40000050 40000074/end/|a graph\n\
    3 from 3|leaf 40000000 40000000/call 4000000c 40000030/edge 4000002c 40000044/call 40000050 40000074/end/|line 3: Order\n\
    3 from 3|leaf 40000074 40000088/leaf 40000088 4000009c/call 4000000c 40000030/edge 4000002c 40000044/call 40000050 40000074/end/|a graph\n\
    3 from 3|leaf 40000074 40000088/leaf 4000008c 4000009c/callclass 00001 4000002c/jumpclass 00002/call 4000000c 40000030/edge 4000002c 40000044/call 40000050 40000074/end/|a graph\n\
    3 from 3|leaf 40000088 4000009c/leaf 40000074 40000088/call 4000000c 40000030/edge 4000002c 40000044/call 40000050 40000074/end/|line 4: Order\n\
    3 from 3|leaf 40000074 40000088/leaf 40000088 40000088/call 4000000c 40000030/edge 4000002c 40000044/call 40000050 40000074/end/|line 4: Order\n\
    3 from 3|leaf 40000074 40000088 40000090/call 4000000c 40000030/edge 4000002c 40000044/call 40000050 40000074/end/|line 3: Form\n\
    3 from 3|leaf/call 4000000c 40000030/edge 4000002c 40000044/call 40000050 40000074/end/|line 3: Form\n\
    3 from 3|leaf  40000074 40000088/call 4000000c 40000030/edge 4000002c 40000044/call 40000050 40000074/end/|line 3: Form\n\
    3 from 3|leaf 40000074 40000088 /call 4000000c 40000030/edge 4000002c 40000044/call 40000050 40000074/end/|line 3: Form\n\
    3 from 3|Leaf 40000074 40000088/call 4000000c 40000030/edge 4000002c 40000044/call 40000050 40000074/end/|line 3: Form\n\
    3 from 3|leaf 0000000 40000088/call 4000000c 40000030/edge 4000002c 40000044/call 40000050 40000074/end/|line 3: Form\n\
    3 from 3|leaf 40000074 140000088/call 4000000c 40000030/edge 4000002c 40000044/call 40000050 40000074/end/|line 3: Form\n\
    3 from 3|leaves 40000074 40000088/call 4000000c 40000030/edge 4000002c 40000044/call 40000050 40000074/end/|line 3: Form\n\
    3 from 3|leaf 40000074 ffffffff/call 4000000c 40000030/edge 4000002c 40000044/call 40000050 40000074/end/|line 3: Range\n\
    3 from 3|leaf 00000000 40000088/call 4000000c 40000030/edge 4000002c 40000044/call 40000050 40000074/end/|line 3: Range\n\
    3 from 3|class 00001 4000002c/call 4000000c 40000030/edge 4000002c 40000044/call 40000050 40000074/end/|line 3: Form\n\
    3 from 3|jumpclass 00001/leaf 40000074 40000088/call 4000000c 40000030/edge 4000002c 40000044/call 40000050 40000074/end/|line 4: Order\n\
    3 from 3|edge 4000002c 40000044/leaf 40000074 4000009c/end/|line 4: Order\n\
    3 from 3|site 4000002c call 00001/leaf 40000074 4000009c/end/|line 4: Order\n\
";

#[test]
fn leaves(rt: HostRuntime) {
    for row in rows(TEXTS, 40).lines() {
        assert!(rt; is_right(rt.alloc(), row), "{row}");
    }
}

/// A graph of each sort of lines.
const WHOLE: &[u8] =
    b"rvcfi-graph 3\ncode 40000000 000000a0\ncalls 64\nleaf 40000074 40000080\nleaf 40000080 400000a0\n\
    callclass 00001 4000002c\ncall 4000000c 40000030\nend\n";

/// The same graph, made of its parts.
fn made(alloc: Global) -> Result<Graph, NoMemory> {
    let mut numbers = Numbers::new();
    numbers.push(64);
    let mut targets = Vec::new(alloc);
    targets.push(0x4000_002c)?;
    let mut lines = Vec::new(alloc);
    lines.push(GraphLine::Calls(numbers))?;
    lines.push(GraphLine::Leaf(0x4000_0074, 0x4000_0080))?;
    lines.push(GraphLine::Leaf(0x4000_0080, 0x4000_00a0))?;
    lines.push(GraphLine::Class(Sort::Calls, 1, Places::of(targets)))?;
    lines.push(GraphLine::Call(0x4000_000c, 0x4000_0030))?;
    Graph::of(
        alloc,
        GraphVersion::CalleeSaves,
        0xa0,
        GraphLines::of(lines),
    )
}

/// Whether a graph has the parts of this one.
fn has_parts(graph: &Graph) -> bool {
    graph.version() == GraphVersion::CalleeSaves
        && graph.code() == 0xa0
        && graph.classes() == 1
        && graph.sites() == 0
        && graph.lines() == 5
        && matches!(graph.line(1), GraphLine::Leaf(0x4000_0074, 0x4000_0080))
        && matches!(graph.line(2), GraphLine::Leaf(0x4000_0080, 0x4000_00a0))
}

fn is_read_with_parts(alloc: Global) -> bool {
    match read_graph(alloc, WHOLE) {
        Ok(graph) => has_parts(&graph),
        Err(_) => false,
    }
}

#[test]
fn parts(rt: HostRuntime) {
    assert!(rt; is_read_with_parts(rt.alloc()));
    assert!(rt; is_made_and_written(rt.alloc(), made(rt.alloc()), WHOLE));
}
