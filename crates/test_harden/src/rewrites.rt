//! The command `rewrite`: what it puts, refuses and finds wrong with its words; `forms` has what it writes.

use rv_word::NoMemory;
use sample_calls::{Given, Source, add_image, add_object, add_texts, first_wrong};
use sample_programs::A;
use std::alloc::Global;
use tool_io::MemFiles;

const POLICY: &[u8] = b"rvcfi-policy 1\nsite main+10 f+0\nend\n";

/// Objects by their names: the first are named by the number of the refusal of their one fault.
#[rattlefmt::skip]
static OBJECTS: [(&str, Given); 12] = [
    // Ten sections from an offset after the file's end.
    ("5", Given(Source::Returning, 40, b"00020000000000000000000040000000000040000a00")),
    ("9", Given(Source::Returning, 64, b"130f100000000000")),
    ("10", Given(Source::Returning, 64, b"130f100067800000")),
    // A relocation of a kind that is for data, and of one that is for branches.
    ("13", Given(Source::Calling, 136, b"02")),
    ("14", Given(Source::Calling, 136, b"10")),
    // The symbol of the table is undefined.
    ("15", Given(Source::Calling, 326, b"0000")),
    // A pointer between two instructions.
    ("16", Given(Source::Calling, 192, b"02")),
    // Data without bytes in the file that end one byte too far.
    (
        "20",
        Given(Source::Writing, 556, b"080000000200000000000000000000000000000080000000000000000100ef0f00000000"),
    ),
    // An AUIPC that is to reach four gigabytes further.
    ("21", Given(Source::Writing, 200, b"0000000001000000")),
    ("b.o", Given(Source::Returning, 0, b"")),
    ("p.o", Given(Source::Calling, 0, b"")),
    ("own", Given(Source::Returning, 0, b"")),
];

/// Policies: the second names no computed transfer as a site.
static POLICIES: [(&str, &[u8]); 2] = [
    ("policy", POLICY),
    ("place", b"rvcfi-policy 1\nsite main+14 f+0\nend\n"),
];

/// Command lines, with the status and the text of each, in the form of `sample_calls::first_wrong`. The last ones make an object's file its
/// image.
pub(crate) const LINES: &[u8] = b"\
    rvcfi,rewrite,empty,main,none,i,g,m = 1: refused 1 NotElf\n;\
    rvcfi,rewrite,5,main,none,i,g,m = 1: refused 5 Truncated 512\n;\
    rvcfi,rewrite,9,main,none,i,g,m = 1: refused 9 Undecodable 1 4 0\n;\
    rvcfi,rewrite,10,main,none,i,g,m = 1: refused 10 ReservedRegister 1 0\n;\
    rvcfi,rewrite,10,nain,empty,i,g,m = 1: refused 10 ReservedRegister 1 0\n;\
    rvcfi,rewrite,13,main,none,i,g,m = 1: refused 13 RelocKind 1 8 2\n;\
    rvcfi,rewrite,14,main,none,i,g,m = 1: refused 14 RelocPlace 1 8\n;\
    rvcfi,rewrite,15,main,none,i,g,m = 1: refused 15 Undefined 4\n;\
    rvcfi,rewrite,16,main,none,i,g,m = 1: refused 16 BadCodePointer 2 0\n;\
    rvcfi,rewrite,b.o,nain,none,i,g,m = 1: refused 17 NoEntry\n;\
    rvcfi,rewrite,p.o,nain,empty,i,g,m = 1: refused 17 NoEntry\n;\
    rvcfi,rewrite,p.o,main,empty,i,g,m = 1: refused 18 Policy 1\n;\
    rvcfi,rewrite,p.o,main,place,i,g,m = 1: refused 18 Policy 2\n;\
    rvcfi,rewrite,20,main,none,i,g,m = 1: refused 20 DataTooLarge 0 267386881\n;\
    rvcfi,rewrite,21,main,none,i,g,m = 1: refused 21 RelocRange 1 32\n;\
    rvcfi,rewrite,absent,main,none,i,i,m = 2: usage: rvcfi rewrite|verify|run|compare|demo|harden|link|compare-link\n;\
    rvcfi,rewrite,b.o,main,none,i,g,i = 2: usage: rvcfi rewrite|verify|run|compare|demo|harden|link|compare-link\n;\
    rvcfi,rewrite,b.o,main,none,i,g,g = 2: usage: rvcfi rewrite|verify|run|compare|demo|harden|link|compare-link\n;\
    rvcfi,rewrite,b.o,main,none,i,g = 2: usage: rvcfi rewrite|verify|run|compare|demo|harden|link|compare-link\n;\
    rvcfi,rewrite,b.o,main,none,i,g,m,m = 2: usage: rvcfi rewrite|verify|run|compare|demo|harden|link|compare-link\n;\
    rvcfi,rewrite,absent,main,nothing,i,g,m = 3: read fault absent\n;\
    rvcfi,rewrite,9,main,nothing,i,g,m = 3: read fault nothing\n;\
    rvcfi,rewrite,long,main,nothing,i,g,m = 6: too long long\n;\
    rvcfi,rewrite,9,main,long,i,g,m = 6: too long long\n;\
    rvcfi,verify,i,g = 3: read fault i\n;\
    rvcfi,verify,a.img,g = 3: read fault g\n;\
    rvcfi,verify,a.img,m = 3: read fault m\n;\
    rvcfi,rewrite,p.o,main,policy,i,g,m = 0: rewritten code 256 data 16 classes 1 sites 1\n;\
    rvcfi,rewrite,p.o,f,none,i,g,m = 0: rewritten code 260 data 16 classes 1 sites 1\n;\
    rvcfi,verify,i,g = 0: accepted\n;\
    rvcfi,rewrite,own,main,none,own,g,m = 0: rewritten code 92 data 0 classes 0 sites 0\n;\
    rvcfi,verify,own,g = 0: accepted\n;\
    rvcfi,rewrite,own,main,none,i,g,m = 1: refused 2 NotRelocatable 2\n";

/// Adds the objects, the policies, an image, an empty file, and one that is longer than a file may be.
pub(crate) fn add_all(alloc: Global, files: &mut MemFiles) -> Result<(), NoMemory> {
    for object in &OBJECTS {
        add_object(alloc, files, object.0, &object.1)?;
    }
    add_texts(files, &POLICIES)?;
    add_image(alloc, files, &("a.img", &A, b""))?;
    files.insert("empty", b"")?;
    let zeros = vec![in alloc; 0; 67_108_865]?;
    Ok(files.insert("long", &zeros)?)
}

#[test]
fn lines(rt: HostRuntime) {
    let mut files = MemFiles::new(rt.alloc(), Vec::new(rt.alloc()));
    assert!(rt; add_all(rt.alloc(), &mut files).is_ok());
    assert_eq!(rt; first_wrong(rt.alloc(), &mut files, LINES, 33), None);
}
