//! Pairs of an image and a graph, and the line that is printed of each.

use rv_image::ImageVersion;
use rv_word::NoMemory;
use sample_calls::{answers, image_as, image_of, image_of_harts, put};
use sample_programs::{
    A, A_CLASS_GRAPH, A_GRAPH, A_OF_HARTS, A_OF_HARTS_GRAPH, B, B_GRAPH, GROUPS, GROUPS_GRAPH,
    JOBS, JOBS_GRAPH, P, P_GRAPH, Q, Q_GRAPH, Q_OF_HARTS, Q_OF_HARTS_GRAPH, SHARED, SHARED_GRAPH,
    STORES, STORES_GRAPH, code, code_of_harts,
};
use std::alloc::Global;
use std::process::Abort;
use tool_io::MemFiles;

const A_SHORT: &[u8] = b"rvcfi-graph 1\ncode 40000000 0000004c\ncall 4000000c 40000040\nend\n";

const B_EDGE: &[u8] = b"rvcfi-graph 1\ncode 40000000 0000005c\ncall 4000000c 40000040\n\
edge 40000040 40000044\nend\n";

/// Graphs of `GROUPS` whose line leads into the middle of the stores, or whose class has a target there.
const MIDDLE_EDGE: &[u8] = b"rvcfi-graph 1\ncode 40000000 000000b4\ncall 4000000c 40000040\n\
edge 40000070 40000060\nedge 40000074 4000004c\nend\n";

const MIDDLE_CLASS: &[u8] = b"rvcfi-graph 1\ncode 40000000 000000b4\nclass 00001 40000058\n\
call 4000000c 40000040\nedge 40000070 4000004c\nedge 40000074 4000004c\nend\n";

const MIDDLE_CALL: &[u8] = b"rvcfi-graph 1\ncode 40000000 000000b4\ncall 4000000c 40000058\n\
edge 40000070 4000004c\nedge 40000074 4000004c\nend\n";

/// The units of a code, a word at an offset in the code, a graph, and the line that is put.
struct Case(&'static [u32], usize, u32, &'static [u8], &'static str);

static CASES: [Case; 27] = [
    Case(&A, 0x00, 0x00100073, A_GRAPH, "accepted\n"),
    Case(&B, 0x00, 0x00100073, B_GRAPH, "accepted\n"),
    Case(&P, 0x00, 0x00100073, P_GRAPH, "accepted\n"),
    Case(
        &A,
        0x40,
        0x00001037,
        A_CLASS_GRAPH,
        "rejected Astray 40000040\n",
    ),
    Case(&B, 0x00, 0x00100073, B_EDGE, "rejected Unused 40000040\n"),
    Case(&B, 0x40, 0x0080006f, B_GRAPH, "rejected Target 40000040\n"),
    Case(
        &A,
        0x08,
        0x00000013,
        A_GRAPH,
        "rejected Prologue 40000008\n",
    ),
    Case(
        &A,
        0x38,
        0x05e00893,
        A_GRAPH,
        "rejected Prologue 40000038\n",
    ),
    Case(&A, 0x00, 0x00100073, A_SHORT, "rejected Length 80 76\n"),
    Case(&A, 0x40, 0x00100f13, A_GRAPH, "rejected Unit 40000040\n"),
    Case(&A, 0x40, 0x0052b023, A_GRAPH, "rejected Unit 40000040\n"),
    Case(&A, 0x40, 0x00028067, A_GRAPH, "rejected Unit 40000040\n"),
    Case(&A, 0x34, 0x004000ef, A_GRAPH, "rejected Target 4000000c\n"),
    Case(
        &A,
        0x40,
        0x0080006f,
        A_GRAPH,
        "rejected Unlisted 40000040\n",
    ),
    Case(&A, 0x4c, 0x00000013, A_GRAPH, "rejected End 4000004c\n"),
    Case(&B, 0x54, 0x00008067, B_GRAPH, "rejected Unit 40000044\n"),
    Case(&P, 0x48, 0x022f9f93, P_GRAPH, "rejected Unit 40000044\n"),
    Case(&P, 0x78, 0x0002af03, P_GRAPH, "rejected Unit 4000005c\n"),
    Case(&P, 0x90, 0x00000013, P_GRAPH, "rejected Unit 4000005c\n"),
    Case(&P, 0x7c, 0x00002237, P_GRAPH, "rejected Site 4000005c\n"),
    Case(&P, 0xe4, 0x00002037, P_GRAPH, "rejected Gate 400000e4\n"),
    Case(&P, 0xcc, 0x00001037, P_GRAPH, "rejected Astray 400000cc\n"),
    // A graph of version 2: the second word of a target is missing, a check reads the first, a call's label stands beside its target,
    // a jump asks for it.
    Case(&Q, 0x00, 0x00100073, Q_GRAPH, "accepted\n"),
    Case(&Q, 0x80, 0x00000013, Q_GRAPH, "rejected Gate 4000007c\n"),
    Case(&Q, 0x64, 0x000faf03, Q_GRAPH, "rejected Unit 40000048\n"),
    Case(&Q, 0x84, 0x00001037, Q_GRAPH, "rejected Astray 40000084\n"),
    Case(&Q, 0x68, 0x00001237, Q_GRAPH, "rejected Site 40000048\n"),
];

/// The same of images for several harts.
static CASES_OF_HARTS: [Case; 16] = [
    Case(
        &A_OF_HARTS,
        0x00,
        0x00100073,
        A_OF_HARTS_GRAPH,
        "accepted\n",
    ),
    Case(&SHARED, 0x00, 0x00100073, SHARED_GRAPH, "accepted\n"),
    Case(&JOBS, 0x00, 0x00100073, JOBS_GRAPH, "accepted\n"),
    // The stack of each hart where that of hart 0 is, and the shadow part of each where that of hart 0 is.
    Case(
        &A_OF_HARTS,
        0x10,
        0x00001f93,
        A_OF_HARTS_GRAPH,
        "rejected Prologue 40000010\n",
    ),
    Case(
        &A_OF_HARTS,
        0x20,
        0x00018193,
        A_OF_HARTS_GRAPH,
        "rejected Prologue 40000020\n",
    ),
    Case(
        &A_OF_HARTS,
        0x48,
        0x05e00893,
        A_OF_HARTS_GRAPH,
        "rejected Prologue 40000048\n",
    ),
    Case(
        &A_OF_HARTS,
        0x4c,
        0x00100073,
        A_OF_HARTS_GRAPH,
        "rejected Prologue 4000004c\n",
    ),
    Case(
        &A_OF_HARTS,
        0x00,
        0x00100073,
        A_GRAPH,
        "rejected Length 96 80\n",
    ),
    Case(
        &A_OF_HARTS,
        0x50,
        0x00100f13,
        A_OF_HARTS_GRAPH,
        "rejected Unit 40000050\n",
    ),
    Case(
        &A_OF_HARTS,
        0x44,
        0x004000ef,
        A_OF_HARTS_GRAPH,
        "rejected Target 4000000c\n",
    ),
    Case(
        &A_OF_HARTS,
        0x5c,
        0x00000013,
        A_OF_HARTS_GRAPH,
        "rejected End 4000005c\n",
    ),
    Case(
        &SHARED,
        0x54,
        0x00051c63,
        SHARED_GRAPH,
        "rejected Target 40000054\n",
    ),
    Case(
        &SHARED,
        0x7c,
        0x00a2b023,
        SHARED_GRAPH,
        "rejected Unit 40000070\n",
    ),
    // A graph of version 2.
    Case(
        &Q_OF_HARTS,
        0x00,
        0x00100073,
        Q_OF_HARTS_GRAPH,
        "accepted\n",
    ),
    Case(
        &Q_OF_HARTS,
        0x90,
        0x00000013,
        Q_OF_HARTS_GRAPH,
        "rejected Gate 4000008c\n",
    ),
    Case(
        &Q_OF_HARTS,
        0x74,
        0x000faf03,
        Q_OF_HARTS_GRAPH,
        "rejected Unit 40000058\n",
    ),
];

/// Stores behind one mask. What is right follows from the rules: what begins no unit meets Unit where it stands, and what leads to an
/// address at which none begins meets Target, whatever the graph says, before Unlisted.
#[rattlefmt::skip]
static GROUPED: [Case; 24] = [
    Case(&GROUPS, 0x00, 0x00100073, GROUPS_GRAPH, "accepted\n"),
    // A distance of -2040 or -2048, or another register, as the first store and as a later one: the last, or one in the middle.
    Case(&GROUPS, 0x58, 0x800fb423, GROUPS_GRAPH, "rejected Unit 4000004c\n"),
    Case(&GROUPS, 0x60, 0x800fb423, GROUPS_GRAPH, "rejected Unit 40000060\n"),
    Case(&GROUPS, 0x6c, 0x800fb423, GROUPS_GRAPH, "rejected Unit 4000006c\n"),
    Case(&GROUPS, 0x58, 0x800fb023, GROUPS_GRAPH, "rejected Unit 4000004c\n"),
    Case(&GROUPS, 0x6c, 0x800fb023, GROUPS_GRAPH, "rejected Unit 4000006c\n"),
    Case(&GROUPS, 0x58, 0x006f2223, GROUPS_GRAPH, "rejected Unit 4000004c\n"),
    Case(&GROUPS, 0x64, 0x006f2223, GROUPS_GRAPH, "rejected Unit 40000064\n"),
    // No store behind the mask; one behind another instruction; a mask of its own, which is not whole.
    Case(&GROUPS, 0x58, 0x00000013, GROUPS_GRAPH, "rejected Unit 4000004c\n"),
    Case(&GROUPS, 0x60, 0x00000013, GROUPS_GRAPH, "rejected Unit 40000064\n"),
    Case(&GROUPS, 0x60, 0xffc28f93, GROUPS_GRAPH, "rejected Unit 40000060\n"),
    Case(&GROUPS, 0x6c, 0x00000013, GROUPS_GRAPH, "accepted\n"),
    // Branches of one word and of two, jumps and the first call to the first store, a later one, the last, and into the mask.
    Case(&GROUPS, 0x70, 0xfe02e4e3, GROUPS_GRAPH, "rejected Target 40000070\n"),
    Case(&GROUPS, 0x70, 0xfe02e8e3, GROUPS_GRAPH, "rejected Target 40000070\n"),
    Case(&GROUPS, 0x70, 0xfe02e8e3, MIDDLE_EDGE, "rejected Target 40000070\n"),
    Case(&GROUPS, 0x78, 0xff5ff06f, GROUPS_GRAPH, "rejected Target 40000074\n"),
    Case(&GROUPS, 0x78, 0xfd9ff06f, GROUPS_GRAPH, "rejected Target 40000074\n"),
    Case(&GROUPS, 0x70, 0xff1ff06f, MIDDLE_EDGE, "rejected Target 40000070\n"),
    Case(&GROUPS, 0x34, 0x024000ef, MIDDLE_CALL, "rejected Target 4000000c\n"),
    // A line that leads there, which nothing starts, and a target of a class.
    Case(&GROUPS, 0x00, 0x00100073, MIDDLE_EDGE, "rejected Unlisted 40000070\n"),
    Case(&GROUPS, 0x00, 0x00100073, MIDDLE_CLASS, "rejected Gate 40000058\n"),
    // Seventeen stores, sixteen, and eight before another instruction and eight behind it.
    Case(&STORES, 0x00, 0x00100073, STORES_GRAPH, "rejected Unit 4000008c\n"),
    Case(&STORES, 0x8c, 0x00000013, STORES_GRAPH, "accepted\n"),
    Case(&STORES, 0x6c, 0x00000013, STORES_GRAPH, "rejected Unit 40000070\n"),
];

/// Code with one word in place of that at an offset.
fn code_with(mut bytes: Vec<u8>, at: usize, word: u32) -> Vec<u8> {
    put(&mut bytes, at, &word.to_le_bytes());
    bytes
}

/// The image of a case.
fn image_with(alloc: Global, case: &Case) -> Result<Vec<u8>, NoMemory> {
    image_as(
        alloc,
        ImageVersion::OneHart,
        &code_with(code(alloc, case.0)?, case.1, case.2),
        b"",
    )
}

/// The image for several harts of a case.
fn image_of_harts_with(alloc: Global, case: &Case) -> Result<Vec<u8>, NoMemory> {
    image_as(
        alloc,
        ImageVersion::EightHarts,
        &code_with(code_of_harts(alloc, case.0)?, case.1, case.2),
        b"",
    )
}

/// Whether the tool puts a text of an image and a graph, and ends with its status.
pub(crate) fn verifies(alloc: Global, image: &[u8], graph: &[u8], text: &str) -> bool {
    let mut files = MemFiles::new(alloc, Vec::new(alloc));
    let status = u8::from(text != "accepted\n");
    files.insert("image", image).is_ok()
        && files.insert("graph", graph).is_ok()
        && answers(alloc, "rvcfi,verify,image,graph", &mut files, status, text)
}

/// Whether the line of a case is put of an image.
fn is_right(alloc: Global, image: &Result<Vec<u8>, NoMemory>, case: &Case) -> bool {
    match image {
        Ok(image) => verifies(alloc, image, case.3, case.4),
        Err(_) => false,
    }
}

/// Each case of a table is right.
fn are_right(rt: &impl Abort, alloc: Global, cases: &[Case]) {
    for case in cases {
        let image = image_with(alloc, case);
        assert!(rt; is_right(alloc, &image, case), "{:x} {:x}", case.1, case.2);
    }
}

#[test]
fn pairs(rt: HostRuntime) {
    are_right(&rt, rt.alloc(), &CASES);
}

#[test]
fn grouped_stores(rt: HostRuntime) {
    are_right(&rt, rt.alloc(), &GROUPED);
}

#[test]
fn pairs_of_harts(rt: HostRuntime) {
    for case in &CASES_OF_HARTS {
        let image = image_of_harts_with(rt.alloc(), case);
        assert!(rt;
            is_right(rt.alloc(), &image, case),
            "{:x} {:x}",
            case.1,
            case.2
        );
    }
}

/// Whether a line is put of an image of a version that has some code and this graph.
fn is_answered(
    alloc: Global,
    version: ImageVersion,
    code: &[u8],
    graph: &[u8],
    text: &str,
) -> bool {
    match image_as(alloc, version, code, b"") {
        Ok(image) => verifies(alloc, &image, graph, text),
        Err(_) => false,
    }
}

/// Whether code that begins with the prologue of one version is rejected in an image of the other.
fn other_version_is_rejected(alloc: Global) -> bool {
    let (Ok(lone), Ok(several)) = (code(alloc, &A), code_of_harts(alloc, &A_OF_HARTS)) else {
        return false;
    };
    let text = "rejected Prologue 40000010\n";
    is_answered(alloc, ImageVersion::EightHarts, &lone, A_GRAPH, text)
        && is_answered(
            alloc,
            ImageVersion::OneHart,
            &several,
            A_OF_HARTS_GRAPH,
            text,
        )
}

#[test]
fn versions(rt: HostRuntime) {
    assert!(rt; other_version_is_rejected(rt.alloc()));
}

/// Sizes of a shadow stack that no version has, the lowest byte first.
static SIZES: [[u8; 8]; 6] = [
    [0, 0, 0, 0, 0, 0, 0, 0],
    [0, 0, 2, 0, 0, 0, 0, 0],
    [0, 0, 9, 0, 0, 0, 0, 0],
    [1, 0, 8, 0, 0, 0, 0, 0],
    [0, 0, 8, 0, 0, 0, 0, 1],
    [0, 0, 16, 0, 0, 0, 0, 0],
];

/// Whether an image that names this size is refused at its field.
fn size_is_refused(alloc: Global, size: &[u8]) -> bool {
    let Ok(mut image) = image_of_harts(alloc, &A_OF_HARTS, b"") else {
        return false;
    };
    put(&mut image, 216, size) && verifies(alloc, &image, A_OF_HARTS_GRAPH, "refused 22 Byte 216\n")
}

#[test]
fn sizes(rt: HostRuntime) {
    for size in &SIZES {
        assert!(rt; size_is_refused(rt.alloc(), size), "{size:?}");
    }
}

/// Whether an image that is cut to this length is refused by it.
fn is_refused(alloc: Global, image: &[u8], cut: usize) -> bool {
    let Ok(line) = format!(in alloc; "refused 22 Short {cut}\n") else {
        return false;
    };
    verifies(alloc, image, A_GRAPH, line.as_str())
}

/// Whether an image of two pages is refused where only its first bytes are left.
fn cut_is_refused(alloc: Global, image: &Result<Vec<u8>, NoMemory>, cut: usize) -> bool {
    let Ok(image) = image else {
        return false;
    };
    image.len() == 8192 && is_refused(alloc, image.get(..cut).unwrap_or(image), cut)
}

/// Every image that is cut short is refused, by its length alone.
#[test]
fn cut_images(rt: HostRuntime) {
    let image = image_of(rt.alloc(), &A, b"");
    let image_of_harts = image_of_harts(rt.alloc(), &A_OF_HARTS, b"");
    for cut in 0..300_usize {
        assert!(rt; cut_is_refused(rt.alloc(), &image, cut), "{cut}");
        assert!(rt;
            cut_is_refused(rt.alloc(), &image_of_harts, cut),
            "{cut} of harts"
        );
    }
}
