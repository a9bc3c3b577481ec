//! The command `compare`: programs against images, theirs and others', and what is refused.

use rv_word::NoMemory;
use sample_calls::{
    Given, Source, add_image, add_image_of_harts, add_object, add_texts, first_wrong,
};
use sample_programs::{A_OF_HARTS, SHARED};
use std::alloc::Global;
use tool_io::MemFiles;

/// Objects by their names. Some are refused with the number that they have as a name.
#[rattlefmt::skip]
static OBJECTS: [(&str, Given); 21] = [
    ("b.o", Given(Source::Returning, 0, b"")),
    ("p.o", Given(Source::Calling, 0, b"")),
    ("h.o", Given(Source::Writing, 0, b"")),
    ("r.o", Given(Source::Recursive, 0, b"")),
    ("m.o", Given(Source::Dividing, 0, b"")),
    // One call more than may be pending.
    ("deep", Given(Source::Recursive, 68, b"1305f5ff")),
    // A store whose last bytes are past the window, and one into code.
    ("window", Given(Source::Returning, 64, b"a33f21fe")),
    ("store", Given(Source::Recursive, 64, b"b702004023b0520067800000")),
    ("nowhere", Given(Source::Returning, 64, b"e780020067800000")),
    ("five", Given(Source::Returning, 64, b"13055000")),
    ("break", Given(Source::Returning, 64, b"73001000")),
    ("loop", Given(Source::Returning, 64, b"6f000000")),
    // Another exit, and another text.
    ("one", Given(Source::Writing, 80, b"13051000")),
    ("ho", Given(Source::Writing, 129, b"6f")),
    ("10", Given(Source::Returning, 64, b"130f100067800000")),
    (
        "20",
        Given(Source::Writing, 556, b"080000000200000000000000000000000000000080000000000000000100ef0f00000000"),
    ),
    ("range", Given(Source::Calling, 144, b"ffffff7f")),
    // Words between those of products and quotients of 32 bits, which are no instructions.
    ("word1", Given(Source::Returning, 64, b"bb103102")),
    ("word2", Given(Source::Returning, 64, b"bb203102")),
    ("word3", Given(Source::Returning, 64, b"bb303102")),
    // Two stores that may stand behind one mask.
    ("s.o", Given(Source::Coded, 0, b"130101fe233c110023388100833081011301010267800000")),
];

/// Maps that are wrong at the first line and at the line `end`; an object that is none, and an empty file; and maps of two stores: each
/// behind a mask of its own, the first behind none, the second of eight bytes, and a load behind a mask.
#[rattlefmt::skip]
static TEXTS: [(&str, &[u8]); 8] = [
    (
        "first",
        b"rvcfi-map 1\nat 40000044 0001 00000000\nat 40000048 0001 00000004\nat 4000005c 0001 00000008\nend\n",
    ),
    ("short", b"rvcfi-map 1\nat 40000040 0001 00000000\nend\n"),
    ("1", b"none"),
    ("empty", b""),
    (
        "alone",
        b"rvcfi-map 1\nat 40000040 0001 00000000\nat 40000044 0001 00000004\nat 40000054 0001 00000008\nat 40000064 0001 0000000c\nat 40000068 0001 00000010\nat 4000006c 0001 00000014\nat 40000080 0001 00000018\nend\n",
    ),
    (
        "bare",
        b"rvcfi-map 1\nat 40000040 0001 00000000\nat 40000044 0001 00000004\nat 40000048 0001 00000008\nat 40000058 0001 0000000c\nat 4000005c 0001 00000010\nat 40000060 0001 00000014\nat 40000074 0001 00000018\nend\n",
    ),
    (
        "eight",
        b"rvcfi-map 1\nat 40000040 0001 00000000\nat 40000044 0001 00000004\nat 40000054 0001 00000008\nat 4000005c 0001 0000000c\nat 40000060 0001 00000010\nat 40000064 0001 00000014\nat 40000078 0001 00000018\nend\n",
    ),
    (
        "load",
        b"rvcfi-map 1\nat 40000040 0001 00000000\nat 40000044 0001 00000004\nat 40000054 0001 00000008\nat 40000058 0001 0000000c\nat 40000068 0001 00000010\nat 4000006c 0001 00000014\nat 40000080 0001 00000018\nend\n",
    ),
];

/// Units that load from the second hart's part of the shadow stack, add 7 and exit with the sum.
const FAR: [u32; 6] = [
    0x600102b7, 0x0002b503, 0x00750513, 0x05d00893, 0x00000073, 0xf9dff06f,
];

/// The units of two stores that stand behind a mask each.
#[rattlefmt::skip]
const ALONE: [u32; 17] = [
    0xfe010113, 0x01810f93, 0x024f9f93, 0x024fdf93, 0x001fb023, 0x01010f93, 0x024f9f93, 0x024fdf93,
    0x008fb023, 0x01813083, 0x02010113, 0xff81bf83, 0xff818193, 0x001f8463, 0xf8dff06f, 0x000f8067,
    0xf81ff06f,
];

/// Names of images for several harts, of whose harts one runs alone.
static IMAGES_OF_HARTS: [(&str, &[u32], &[u8]); 3] = [
    ("seven.img", &A_OF_HARTS, b""),
    ("shared.img", &SHARED, b""),
    ("far.img", &FAR, b""),
];

/// Command lines, with the status and the text of each, in the form of `sample_calls::first_wrong`.
const LINES: &[u8] = b"\
    rvcfi,rewrite,b.o,main,none,b.img,b.graph,b.map = 0: rewritten code 92 data 0 classes 0 sites 0\n;\
    rvcfi,rewrite,p.o,main,none,p.img,p.graph,p.map = 0: rewritten code 260 data 16 classes 1 sites 1\n;\
    rvcfi,rewrite,h.o,main,none,h.img,h.graph,h.map = 0: rewritten code 196 data 3 classes 0 sites 0\n;\
    rvcfi,rewrite,r.o,main,none,r.img,r.graph,r.map = 0: rewritten code 168 data 0 classes 0 sites 0\n;\
    rvcfi,rewrite,m.o,main,none,m.img,m.graph,m.map = 0: rewritten code 100 data 0 classes 0 sites 0\n;\
    rvcfi,verify,m.img,m.graph = 0: accepted\n;\
    rvcfi,run,m.img,m.graph,none,none,100 = 0: output 0\n\nstop exit 2\nsteps 19\nwalk 6\ntrail 4000000c 40000040 40000044 40000048 4000004c 40000038\n;\
    rvcfi,compare,m.o,main,none,m.img,m.map,none,100 = 0: same 1\n;\
    rvcfi,rewrite,word1,main,none,i,g,m = 1: refused 9 Undecodable 1 0 36769979\n;\
    rvcfi,rewrite,word2,main,none,i,g,m = 1: refused 9 Undecodable 1 0 36774075\n;\
    rvcfi,rewrite,word3,main,none,i,g,m = 1: refused 9 Undecodable 1 0 36778171\n;\
    rvcfi,compare,b.o,main,none,b.img,b.map,none,100 = 0: same 1\n;\
    rvcfi,compare,p.o,main,none,p.img,p.map,none,100 = 0: same 1\n;\
    rvcfi,compare,h.o,main,none,h.img,h.map,none,100 = 0: same 2\n;\
    rvcfi,compare,r.o,main,none,r.img,r.map,none,100000 = 0: same 1\n;\
    rvcfi,compare,b.o,main,none,b.img,b.map,none,3 = 0: same 1\n;\
    rvcfi,compare,b.o,main,none,b.img,b.map,none,2 = 12: limit\n;\
    rvcfi,compare,b.o,main,none,b.img,b.map,none,0 = 12: limit\n;\
    rvcfi,compare,b.o,main,none,seven.img,b.map,none,100 = 0: same 1\n;\
    rvcfi,compare,b.o,main,none,seven.img,b.map,none,2 = 12: limit\n;\
    rvcfi,compare,b.o,main,none,shared.img,b.map,none,100 = 1: differs 0\nsource 000000000000005d 0000000000000007 0000000000000000 0000000000000000 0000000000000000 0000000000000000 0000000000000000 0000000000000000 -\nimage 000000000000005d 0000000000000000 0000000000000000 0000000000000000 0000000000000000 0000000000000000 0000000000000000 0000000000000000 -\n;\
    rvcfi,compare,b.o,main,none,far.img,b.map,none,100 = 0: same 1\n;\
    rvcfi,compare,b.o,main,none,near.img,b.map,none,100 = 1: differs 0\nsource 000000000000005d 0000000000000007 0000000000000000 0000000000000000 0000000000000000 0000000000000000 0000000000000000 0000000000000000 -\nimage stop\n;\
    rvcfi,rewrite,deep,main,none,i,g,m = 0: rewritten code 168 data 0 classes 0 sites 0\n;\
    rvcfi,compare,deep,main,none,i,m,none,100000 = 13: untame deep 1 28\n;\
    rvcfi,rewrite,window,main,none,i,g,m = 0: rewritten code 104 data 0 classes 0 sites 0\n;\
    rvcfi,compare,window,main,none,i,m,none,100 = 13: untame window 1 0\n;\
    rvcfi,rewrite,store,main,none,i,g,m = 0: rewritten code 196 data 0 classes 0 sites 0\n;\
    rvcfi,compare,store,main,none,i,m,none,100 = 13: untame window 1 4\n;\
    rvcfi,rewrite,nowhere,main,none,nowhere.img,g,m = 0: rewritten code 168 data 0 classes 1 sites 1\n;\
    rvcfi,compare,nowhere,main,none,nowhere.img,m,none,100 = 13: untame graph 1 0\n;\
    rvcfi,rewrite,five,main,none,five.img,g,m = 0: rewritten code 92 data 0 classes 0 sites 0\n;\
    rvcfi,compare,b.o,main,none,five.img,b.map,none,100 = 1: differs 0\nsource 000000000000005d 0000000000000007 0000000000000000 0000000000000000 0000000000000000 0000000000000000 0000000000000000 0000000000000000 -\nimage 000000000000005d 0000000000000005 0000000000000000 0000000000000000 0000000000000000 0000000000000000 0000000000000000 0000000000000000 -\n;\
    rvcfi,rewrite,break,main,none,break.img,g,m = 0: rewritten code 92 data 0 classes 0 sites 0\n;\
    rvcfi,compare,break,main,none,break.img,m,none,100 = 0: same 0\n;\
    rvcfi,compare,break,main,none,b.img,b.map,none,100 = 1: differs 0\nsource break\nimage 000000000000005d 0000000000000007 0000000000000000 0000000000000000 0000000000000000 0000000000000000 0000000000000000 0000000000000000 -\n;\
    rvcfi,compare,b.o,main,none,break.img,b.map,none,100 = 1: differs 0\nsource 000000000000005d 0000000000000007 0000000000000000 0000000000000000 0000000000000000 0000000000000000 0000000000000000 0000000000000000 -\nimage break\n;\
    rvcfi,compare,b.o,main,none,nowhere.img,b.map,none,100 = 1: differs 0\nsource 000000000000005d 0000000000000007 0000000000000000 0000000000000000 0000000000000000 0000000000000000 0000000000000000 0000000000000000 -\nimage stop\n;\
    rvcfi,rewrite,loop,main,none,loop.img,g,m = 0: rewritten code 92 data 0 classes 0 sites 0\n;\
    rvcfi,compare,loop,main,none,loop.img,m,none,100 = 12: limit\n;\
    rvcfi,compare,b.o,main,none,loop.img,b.map,none,100 = 1: differs 0\nsource 000000000000005d 0000000000000007 0000000000000000 0000000000000000 0000000000000000 0000000000000000 0000000000000000 0000000000000000 -\nimage running\n;\
    rvcfi,rewrite,one,main,none,one.img,g,m = 0: rewritten code 196 data 3 classes 0 sites 0\n;\
    rvcfi,compare,h.o,main,none,one.img,h.map,none,100 = 1: differs 1\nsource 000000000000005d 0000000000000000 0000000000010000 0000000000000003 0000000000000000 0000000000000000 0000000000000000 0000000000000000 -\nimage 000000000000005d 0000000000000001 0000000000010000 0000000000000003 0000000000000000 0000000000000000 0000000000000000 0000000000000000 -\n;\
    rvcfi,rewrite,ho,main,none,ho.img,g,m = 0: rewritten code 196 data 3 classes 0 sites 0\n;\
    rvcfi,compare,h.o,main,none,ho.img,h.map,none,100 = 1: differs 0\nsource 0000000000000040 0000000000000001 0000000000010000 0000000000000003 0000000000000000 0000000000000000 0000000000000000 0000000000000003 68690a\nimage 0000000000000040 0000000000000001 0000000000010000 0000000000000003 0000000000000000 0000000000000000 0000000000000000 0000000000000003 686f0a\n;\
    rvcfi,compare,10,nain,empty,empty,empty,none,9 = 1: refused 10 ReservedRegister 1 0\n;\
    rvcfi,compare,b.o,nain,empty,empty,empty,none,9 = 1: refused 17 NoEntry\n;\
    rvcfi,compare,b.o,main,empty,empty,empty,none,9 = 1: refused 18 Policy 1\n;\
    rvcfi,compare,20,main,none,empty,empty,none,9 = 1: refused 20 DataTooLarge 0 267386881\n;\
    rvcfi,compare,range,main,none,empty,p.map,none,9 = 1: refused 21 RelocRange 1 8\n;\
    rvcfi,compare,range,main,none,p.img,empty,none,9 = 1: refused 24 Map 1 Form\n;\
    rvcfi,compare,b.o,main,none,b.o,b.map,none,9 = 1: refused 22 Byte 16\n;\
    rvcfi,compare,b.o,main,none,b.o,empty,none,9 = 1: refused 22 Byte 16\n;\
    rvcfi,compare,b.o,main,none,b.img,p.map,none,9 = 1: refused 24 Map 4 Place\n;\
    rvcfi,compare,b.o,main,none,b.img,first,none,9 = 1: refused 24 Map 2 Place\n;\
    rvcfi,compare,b.o,main,none,b.img,short,none,9 = 1: refused 24 Map 3 Place\n;\
    rvcfi,rewrite,s.o,main,none,s.img,s.graph,s.map = 0: rewritten code 120 data 0 classes 0 sites 0\n;\
    rvcfi,verify,s.img,s.graph = 0: accepted\n;\
    rvcfi,run,s.img,s.graph,none,none,100 = 0: output 0\n\nstop exit 0\nsteps 24\nwalk 7\ntrail 4000000c 40000040 40000044 40000058 4000005c 40000060 40000038\n;\
    rvcfi,compare,s.o,main,none,s.img,s.map,none,100 = 0: same 1\n;\
    rvcfi,compare,s.o,main,none,alone.img,alone,none,100 = 0: same 1\n;\
    rvcfi,compare,s.o,main,none,s.img,alone,none,100 = 0: same 1\n;\
    rvcfi,compare,s.o,main,none,s.img,bare,none,100 = 1: refused 24 Map 4 Place\n;\
    rvcfi,compare,s.o,main,none,s.img,eight,none,100 = 1: refused 24 Map 5 Place\n;\
    rvcfi,compare,s.o,main,none,s.img,load,none,100 = 1: refused 24 Map 6 Place\n;\
    rvcfi,compare,b.o,main,none,b.img,b.map,none,1000000001 = 2: usage: rvcfi rewrite|verify|run|compare|demo|harden|link|compare-link\n;\
    rvcfi,compare,b.o,main,none,b.img,b.map,none = 2: usage: rvcfi rewrite|verify|run|compare|demo|harden|link|compare-link\n;\
    rvcfi,compare,b.o,main,b.img,b.map,none,9 = 2: usage: rvcfi rewrite|verify|run|compare|demo|harden|link|compare-link\n;\
    rvcfi,compare,absent,main,none,b.img,b.map,none,9 = 3: read fault absent\n;\
    rvcfi,compare,b.o,main,absent,nothing,b.map,none,9 = 3: read fault absent\n;\
    rvcfi,compare,1,main,none,absent,nothing,none,9 = 3: read fault absent\n;\
    rvcfi,compare,1,main,none,b.img,absent,nothing,9 = 3: read fault absent\n;\
    rvcfi,compare,1,main,none,b.img,b.map,absent,9 = 3: read fault absent\n";

/// Adds the objects, the images and the texts.
fn add_all(alloc: Global, files: &mut MemFiles) -> Result<(), NoMemory> {
    for object in &OBJECTS {
        add_object(alloc, files, object.0, &object.1)?;
    }
    for image in &IMAGES_OF_HARTS {
        add_image_of_harts(alloc, files, image)?;
    }
    add_image(alloc, files, &("near.img", &FAR, b""))?;
    add_image(alloc, files, &("alone.img", &ALONE, b""))?;
    add_texts(files, &TEXTS)
}

#[test]
fn compared(rt: HostRuntime) {
    let mut files = MemFiles::new(rt.alloc(), Vec::new(rt.alloc()));
    assert!(rt; add_all(rt.alloc(), &mut files).is_ok());
    assert_eq!(rt; first_wrong(rt.alloc(), &mut files, LINES, 73), None);
}
