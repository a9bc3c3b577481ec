//! The files that the tool reads in the tests.

use rv_word::NoMemory;
use sample_calls::{add_image, add_image_of_harts, add_texts};
use sample_programs::{
    A, A_CLASS_GRAPH, A_GRAPH, A_OF_HARTS, A_OF_HARTS_GRAPH, AIMED, AIMED_GRAPH, APART, APART_DATA,
    APART_GRAPH, ASTRAY, B, B_GRAPH, BEHIND, BEHIND_GRAPH, BREAK, BREAK_GRAPH, DEEP, DEEP_GRAPH,
    ECHO, ECHO_GRAPH, EDGE, EDGE_GRAPH, GROUPS, GROUPS_DATA, GROUPS_GRAPH, H, H_GRAPH, JOINED,
    JOINED_DATA, JOINED_GRAPH, LOAD, LOAD_GRAPH, LOOP, LOOP_GRAPH, NARROW, NARROW_GRAPH, NOWHERE,
    NOWHERE_GRAPH, P, P_DATA, P_GRAPH, Q, Q_DATA, Q_GRAPH, Q_OF_HARTS, Q_OF_HARTS_DATA,
    Q_OF_HARTS_GRAPH, RELABELLED, RELABELLED_GRAPH, STATUS, STATUS_GRAPH,
};
use std::alloc::Global;
use tool_io::MemFiles;

/// Names of images, each with the units of its code and its data.
static IMAGES: [(&str, &[u32], &[u8]); 22] = [
    ("image", &A, b""),
    ("a.img", &A, b""),
    ("b.img", &B, b""),
    ("class.img", &ASTRAY, b""),
    ("p.img", &P, P_DATA),
    ("relabelled.img", &RELABELLED, P_DATA),
    ("narrow.img", &NARROW, P_DATA),
    ("nowhere.img", &NOWHERE, b""),
    ("h.img", &H, b"hi\n"),
    ("echo.img", &ECHO, b""),
    ("edge.img", &EDGE, b""),
    ("aimed.img", &AIMED, b""),
    ("deep.img", &DEEP, b""),
    ("loop.img", &LOOP, b""),
    ("break.img", &BREAK, b""),
    ("load.img", &LOAD, b""),
    ("status.img", &STATUS, b""),
    ("behind.img", &BEHIND, b""),
    ("groups.img", &GROUPS, GROUPS_DATA),
    ("q.img", &Q, Q_DATA),
    ("apart.img", &APART, APART_DATA),
    ("joined.img", &JOINED, JOINED_DATA),
];

/// The same of images for several harts.
static IMAGES_OF_HARTS: [(&str, &[u32], &[u8]); 2] = [
    ("harts.img", &A_OF_HARTS, b""),
    ("qs.img", &Q_OF_HARTS, Q_OF_HARTS_DATA),
];

/// Graphs of both versions, and texts that are none, by their names.
static GRAPHS: [(&str, &[u8]); 14] = [
    ("behind.graph", BEHIND_GRAPH),
    ("groups.graph", GROUPS_GRAPH),
    ("q.graph", Q_GRAPH),
    ("qs.graph", Q_OF_HARTS_GRAPH),
    ("apart.graph", APART_GRAPH),
    ("joined.graph", JOINED_GRAPH),
    (
        "a2.graph",
        b"rvcfi-graph 2\ncode 40000000 00000050\ncall 4000000c 40000040\nend\n",
    ),
    (
        "harts2.graph",
        b"rvcfi-graph 2\ncode 40000000 00000060\ncall 4000000c 40000050\nend\n",
    ),
    (
        "q1.graph",
        b"rvcfi-graph 1\ncode 40000000 00000124\nclass 00001 4000009c\nclass 00002 4000007c 4000009c\ncall 4000000c 40000040\nsite 40000048 jump 00002\nsite 400000bc call 00001\nend\n",
    ),
    (
        "joined2.graph",
        b"rvcfi-graph 2\ncode 40000000 00000148\ncallclass 00001 400000f0 4000010c 40000128\ncall 4000000c 40000040\nsite 4000005c call 00001\nsite 400000bc jump 00001\nend\n",
    ),
    (
        "fewer.graph",
        b"rvcfi-graph 2\ncode 40000000 00000124\ncallclass 00001 4000009c\njumpclass 00002 4000007c\ncall 4000000c 40000040\nsite 40000048 jump 00002\nsite 400000bc call 00001\nend\n",
    ),
    (
        "third.graph",
        b"rvcfi-graph 3\ncode 40000000 00000124\ncall 4000000c 40000040\nend\n",
    ),
    (
        "mixed.graph",
        b"rvcfi-graph 2\ncode 40000000 00000124\nclass 00001 4000009c\njumpclass 00002 4000007c 4000009c\nend\n",
    ),
    (
        "sorts.graph",
        b"rvcfi-graph 2\ncode 40000000 00000124\ncallclass 00002 4000009c\njumpclass 00002 4000007c 4000009c\nend\n",
    ),
];

/// Scripts that turn the pointers of programs whose calls and jumps have labels of their own: to the other function, to a function's
/// second word, to a place of which no address is taken, to a function of jumps or of calls.
static SCRIPTS: [(&str, &[u8]); 6] = [
    ("to_g", b"rvcfi-script 1\nat 0 00010000 9c000040\nend\n"),
    (
        "to_second",
        b"rvcfi-script 1\nat 0 00010000 80000040\nend\n",
    ),
    ("to_h", b"rvcfi-script 1\nat 0 00010000 bc000040\nend\n"),
    (
        "to_jumped",
        b"rvcfi-script 1\nat 0 00010000 10010040\nend\n",
    ),
    (
        "to_called",
        b"rvcfi-script 1\nat 0 00010008 f0000040\nend\n",
    ),
    (
        "joined_jumped",
        b"rvcfi-script 1\nat 0 00010000 0c010040\nend\n",
    ),
];

/// Scripts that change what `GROUPS` stores, where to, and what it has stored, before its mask and between its stores.
static STORES: [(&str, &[u8]); 4] = [
    (
        "to_shadow",
        b"rvcfi-script 1\nat 12 00010008 0c00006000000000\nend\n",
    ),
    (
        "masked",
        b"rvcfi-script 1\nat 13 00010000 616263646566676800000060\nat 14 00010020 2d2d2d2d2d2d2d2d2d2d2d2d2d2d2d2d2d2d2d2d2d2d2d2d\nend\n",
    ),
    (
        "between_stores",
        b"rvcfi-script 1\nat 17 00010020 2d2d2d2d\nat 18 00010020 2a2a\nat 18 00010030 5f\nat 20 00010024 5f\nat 21 00010028 5f\nend\n",
    ),
    (
        "stored",
        b"rvcfi-script 1\nat 22 00010020 2d2d2d2d2d2d2d2d2d2d2d2d2d2d2d2d2d2d2d2d2d2d2d2d\nat 30 0001081f 07\nend\n",
    ),
];

/// Graphs, scripts, inputs and files that are none of these, by their names.
static TEXTS: [(&str, &[u8]); 36] = [
    ("graph", A_GRAPH),
    ("a.graph", A_GRAPH),
    ("b.graph", B_GRAPH),
    ("class.graph", A_CLASS_GRAPH),
    ("p.graph", P_GRAPH),
    ("relabelled.graph", RELABELLED_GRAPH),
    ("narrow.graph", NARROW_GRAPH),
    ("nowhere.graph", NOWHERE_GRAPH),
    ("h.graph", H_GRAPH),
    ("echo.graph", ECHO_GRAPH),
    ("edge.graph", EDGE_GRAPH),
    ("aimed.graph", AIMED_GRAPH),
    ("deep.graph", DEEP_GRAPH),
    ("loop.graph", LOOP_GRAPH),
    ("break.graph", BREAK_GRAPH),
    ("load.graph", LOAD_GRAPH),
    ("status.graph", STATUS_GRAPH),
    ("harts.graph", A_OF_HARTS_GRAPH),
    ("saved", b"rvcfi-script 1\nat 40 0ffffff8 e4000040\nend\n"),
    ("nowhere", b"rvcfi-script 1\nat 0 00010000 40000040\nend\n"),
    ("other", b"rvcfi-script 1\nat 0 00010000 e4000040\nend\n"),
    ("between", b"rvcfi-script 1\nat 27 00010000 00000000\nend\n"),
    ("odd", b"rvcfi-script 1\nat 0 00010000 ca000040\nend\n"),
    ("five", b"rvcfi-script 1\nat 11 00010000 05\nend\n"),
    ("late", b"rvcfi-script 1\nat 12 00010000 05\nend\n"),
    (
        "twice",
        b"rvcfi-script 1\nat 11 00010000 05\nat 11 00010000 06\nend\n",
    ),
    ("range", b"rvcfi-script 1\nat 1 10001000 00\nend\n"),
    ("./none", b"rvcfi-script 1\nat 11 00010000 09\nend\n"),
    ("alone", b"rvcfi-script 2\nharts 1\nend\n"),
    ("two", b"rvcfi-script 2\nharts 2\nturn 1 20\nend\n"),
    (
        "turns",
        b"rvcfi-script 2\nharts 2\nturn 0 3\nturn 1 2\nturn 0 14\nend\n",
    ),
    ("nine", b"rvcfi-script 2\nharts 9\nend\n"),
    ("digits", b"0123456789"),
    ("empty", b""),
    ("byte", b"r"),
    (
        "capitals",
        b"rvcfi-graph 1\ncode 40000000 00000050\nclass 0000A\nend\n",
    ),
];

/// Adds all images and texts, and a file that is longer than a file may be.
pub(crate) fn add_files(alloc: Global, files: &mut MemFiles) -> Result<(), NoMemory> {
    for image in &IMAGES {
        add_image(alloc, files, image)?;
    }
    for image in &IMAGES_OF_HARTS {
        add_image_of_harts(alloc, files, image)?;
    }
    add_texts(files, &TEXTS)?;
    add_texts(files, &GRAPHS)?;
    add_texts(files, &SCRIPTS)?;
    add_texts(files, &STORES)?;
    let zeros = vec![in alloc; 0; 67_108_865]?;
    Ok(files.insert("long", &zeros)?)
}
