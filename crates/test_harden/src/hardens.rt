//! The command `harden`: in the form `plain` it does what `rewrite` does; in the form `harts` what it writes is accepted, runs
//! and compares. The reports of runs are what a model of the machine, tests/model at the top of the repository, answers.

use crate::rewrites;
use crate::waiting::add_waiting;
use rv_word::NoMemory;
use sample_calls::{
    Given, Source, add_image_of_harts, add_object, add_texts, ends_with, first_wrong, is_answered,
    rows,
};
use sample_programs::{SHARED, SHARED_GRAPH};
use std::alloc::Global;
use tool_io::{MemFiles, MemSink};

/// Objects by their names: the one whose entry has hart 0 load what the others store, and one that returns the address to which
/// it returns.
#[rattlefmt::skip]
static OBJECTS: [(&str, Given); 7] = [
    ("b.o", Given(Source::Returning, 0, b"")),
    ("p.o", Given(Source::Calling, 0, b"")),
    ("h.o", Given(Source::Writing, 0, b"")),
    ("r.o", Given(Source::Recursive, 0, b"")),
    ("deep", Given(Source::Recursive, 68, b"1305f5ff")),
    ("shared.o", Given(Source::Coded, 0, b"b70201006316050003b502006780000023b0a20067800000")),
    ("closing.o", Given(Source::Coded, 0, b"1385000067800000")),
];

/// Scripts, and maps of an object that returns 7 that are wrong: a first gate where the form has none, gates too far on, a return
/// of 24 bytes, a missing line, a first line that is none, and gates of the other form.
static TEXTS: [(&str, &[u8]); 8] = [
    ("turn20", b"rvcfi-script 2\nharts 2\nturn 1 20\nend\n"),
    ("turn19", b"rvcfi-script 2\nharts 2\nturn 1 19\nend\n"),
    (
        "early",
        b"rvcfi-map 2 harts\nat 40000040 0001 00000000\nat 40000044 0001 00000004\nat 40000058 0001 00000008\nend\n",
    ),
    (
        "late",
        b"rvcfi-map 2 harts\nat 40000054 0001 00000000\nat 40000058 0001 00000004\nat 4000006c 0001 00000008\nend\n",
    ),
    (
        "wide",
        b"rvcfi-map 2 harts\nat 40000050 0001 00000000\nat 40000054 0001 00000004\nat 4000006c 0001 00000008\nend\n",
    ),
    (
        "short",
        b"rvcfi-map 2 harts\nat 40000050 0001 00000000\nat 40000054 0001 00000004\nend\n",
    ),
    (
        "two",
        b"rvcfi-map 2\nat 40000050 0001 00000000\nat 40000054 0001 00000004\nat 40000068 0001 00000008\nend\n",
    ),
    (
        "later",
        b"rvcfi-map 1\nat 40000050 0001 00000000\nat 40000054 0001 00000004\nat 40000068 0001 00000008\nend\n",
    ),
];

/// Names of images that exit with 7 after so many steps as the name says, and how many instructions they have for that before the
/// last three; an opening has 10 steps, and one for several harts 14.
static IMAGES: [(&str, u32, bool); 8] = [
    ("76.img", 63, false),
    ("77.img", 64, false),
    ("80.img", 67, false),
    ("81.img", 68, false),
    ("76_of_harts.img", 59, true),
    ("77_of_harts.img", 60, true),
    ("80_of_harts.img", 63, true),
    ("81_of_harts.img", 64, true),
];

/// Command lines, with the status and the text of each, in the form of `sample_calls::first_wrong`. A program that takes three steps has an
/// image that takes 76 at most, or 80 where its map is for several harts.
const LINES: &[u8] = b"\
    rvcfi,harden,harts,b.o,main,none,b.img,b.graph,b.map = 0: rewritten code 108 data 0 classes 0 sites 0\n;\
    rvcfi,verify,b.img,b.graph = 0: accepted\n;\
    rvcfi,run,b.img,b.graph,none,none,1000000 = 0: output 0\n\nharts 1\nstop hart 0 exit 7\nsteps 21\nwalk 0 4\ntrail 0 4000000c 40000050 40000054 40000048\n;\
    rvcfi,compare,b.o,main,none,b.img,b.map,none,100000 = 0: same 1\n;\
    rvcfi,harden,harts,p.o,main,none,p.img,p.graph,p.map = 0: rewritten code 276 data 16 classes 1 sites 1\n;\
    rvcfi,verify,p.img,p.graph = 0: accepted\n;\
    rvcfi,run,p.img,p.graph,none,none,1000000 = 0: output 0\n\nharts 1\nstop hart 0 exit 1\nsteps 52\nwalk 0 13\ntrail 0 4000000c 40000050 40000054 40000064 40000068 4000006c 400000d8 400000dc 400000e0 400000bc 400000c0 400000c4 40000048\n;\
    rvcfi,compare,p.o,main,none,p.img,p.map,none,100000 = 0: same 1\n;\
    rvcfi,harden,harts,h.o,main,none,h.img,h.graph,h.map = 0: rewritten code 212 data 3 classes 0 sites 0\n;\
    rvcfi,verify,h.img,h.graph = 0: accepted\n;\
    rvcfi,run,h.img,h.graph,none,none,1000000 = 0: output 3\nhi\n\nharts 1\nstop hart 0 exit 0\nsteps 45\nwalk 0 16\ntrail 0 4000000c 40000050 40000054 40000064 400000a4 400000a8 400000ac 400000b0 400000b4 400000b8 400000bc 40000084 40000088 4000008c 40000090 40000048\n;\
    rvcfi,compare,h.o,main,none,h.img,h.map,none,100000 = 0: same 2\n;\
    rvcfi,harden,harts,r.o,main,none,r.img,r.graph,r.map = 0: rewritten code 184 data 0 classes 0 sites 0\n;\
    rvcfi,verify,r.img,r.graph = 0: accepted\n;\
    rvcfi,run,r.img,r.graph,none,none,1000000 = 0: output 0\n\nharts 1\nstop hart 0 exit 0\nsteps 163824\nwalk 0 65527\ntrail 0 40000098 4000009c 400000a0 40000098 4000009c 400000a0 40000098 4000009c 400000a0 40000098 4000009c 400000a0 40000098 4000009c 400000a0 40000048\n;\
    rvcfi,compare,r.o,main,none,r.img,r.map,none,100000 = 0: same 1\n;\
    rvcfi,harden,harts,shared.o,main,none,shared.img,shared.graph,shared.map = 0: rewritten code 152 data 0 classes 0 sites 0\n;\
    rvcfi,verify,shared.img,shared.graph = 0: accepted\n;\
    rvcfi,run,shared.img,shared.graph,turn20,none,1000 = 0: output 0\n\nharts 2\nstop hart 0 exit 1\nsteps 43\nwalk 0 6\ntrail 0 4000000c 40000050 40000054 40000058 4000005c 40000048\nwalk 1 4\ntrail 1 4000000c 40000050 40000054 40000070\n;\
    rvcfi,run,shared.img,shared.graph,turn19,none,1000 = 0: output 0\n\nharts 2\nstop hart 0 exit 0\nsteps 42\nwalk 0 6\ntrail 0 4000000c 40000050 40000054 40000058 4000005c 40000048\nwalk 1 4\ntrail 1 4000000c 40000050 40000054 40000070\n;\
    rvcfi,compare,shared.o,main,none,shared.img,shared.map,none,100 = 0: same 1\n;\
    rvcfi,harden,plain,shared.o,main,none,one.img,one.graph,one.map = 0: rewritten code 136 data 0 classes 0 sites 0\n;\
    rvcfi,run,one.img,one.graph,turn20,none,1000 = 1: refused 26 Harts 2\n;\
    rvcfi,verify,one.img,shared.graph = 1: rejected Length 136 152\n;\
    rvcfi,verify,shared.img,one.graph = 1: rejected Length 152 136\n;\
    rvcfi,harden,harts,closing.o,main,none,closing.img,i.graph,closing.map = 0: rewritten code 108 data 0 classes 0 sites 0\n;\
    rvcfi,run,closing.img,i.graph,none,none,100 = 0: output 0\n\nharts 1\nstop hart 0 exit 72\nsteps 21\nwalk 0 4\ntrail 0 4000000c 40000050 40000054 40000048\n;\
    rvcfi,compare,closing.o,main,none,closing.img,closing.map,none,100 = 0: same 1\n;\
    rvcfi,harden,plain,closing.o,main,none,low.img,i.graph,low.map = 0: rewritten code 92 data 0 classes 0 sites 0\n;\
    rvcfi,compare,closing.o,main,none,low.img,low.map,none,100 = 0: same 1\n;\
    rvcfi,compare,closing.o,main,none,low.img,closing.map,none,100 = 1: differs 0\nsource 000000000000005d 0000000040000048 0000000000000000 0000000000000000 0000000000000000 0000000000000000 0000000000000000 0000000000000000 -\nimage 000000000000005d 0000000040000038 0000000000000000 0000000000000000 0000000000000000 0000000000000000 0000000000000000 0000000000000000 -\n;\
    rvcfi,compare,closing.o,main,none,closing.img,low.map,none,100 = 1: differs 0\nsource 000000000000005d 0000000040000038 0000000000000000 0000000000000000 0000000000000000 0000000000000000 0000000000000000 0000000000000000 -\nimage 000000000000005d 0000000040000048 0000000000000000 0000000000000000 0000000000000000 0000000000000000 0000000000000000 0000000000000000 -\n;\
    rvcfi,compare,b.o,main,none,b.img,b.map,none,3 = 0: same 1\n;\
    rvcfi,compare,b.o,main,none,b.img,b.map,none,2 = 12: limit\n;\
    rvcfi,compare,b.o,main,none,b.img,b.map,none,0 = 12: limit\n;\
    rvcfi,harden,harts,deep,main,none,deep.img,i.graph,i.map = 0: rewritten code 184 data 0 classes 0 sites 0\n;\
    rvcfi,compare,deep,main,none,deep.img,i.map,none,100000 = 13: untame deep 1 28\n;\
    rvcfi,compare,b.o,main,none,80_of_harts.img,b.map,none,100 = 0: same 1\n;\
    rvcfi,compare,b.o,main,none,80.img,b.map,none,100 = 0: same 1\n;\
    rvcfi,compare,b.o,main,none,81_of_harts.img,b.map,none,100 = 1: differs 0\nsource 000000000000005d 0000000000000007 0000000000000000 0000000000000000 0000000000000000 0000000000000000 0000000000000000 0000000000000000 -\nimage running\n;\
    rvcfi,compare,b.o,main,none,81.img,b.map,none,100 = 1: differs 0\nsource 000000000000005d 0000000000000007 0000000000000000 0000000000000000 0000000000000000 0000000000000000 0000000000000000 0000000000000000 -\nimage running\n;\
    rvcfi,rewrite,b.o,main,none,i.img,i.graph,plain.map = 0: rewritten code 92 data 0 classes 0 sites 0\n;\
    rvcfi,compare,b.o,main,none,76_of_harts.img,plain.map,none,100 = 0: same 1\n;\
    rvcfi,compare,b.o,main,none,76.img,plain.map,none,100 = 0: same 1\n;\
    rvcfi,compare,b.o,main,none,77_of_harts.img,plain.map,none,100 = 1: differs 0\nsource 000000000000005d 0000000000000007 0000000000000000 0000000000000000 0000000000000000 0000000000000000 0000000000000000 0000000000000000 -\nimage running\n;\
    rvcfi,compare,b.o,main,none,77_of_harts.img,b.map,none,100 = 0: same 1\n;\
    rvcfi,compare,b.o,main,none,77.img,plain.map,none,100 = 1: differs 0\nsource 000000000000005d 0000000000000007 0000000000000000 0000000000000000 0000000000000000 0000000000000000 0000000000000000 0000000000000000 -\nimage running\n;\
    rvcfi,compare,b.o,main,none,77.img,b.map,none,100 = 0: same 1\n;\
    rvcfi,compare,b.o,main,none,b.img,early,none,100 = 1: refused 24 Map 2 Range\n;\
    rvcfi,compare,b.o,main,none,b.img,late,none,100 = 1: refused 24 Map 2 Place\n;\
    rvcfi,compare,b.o,main,none,b.img,wide,none,100 = 1: refused 24 Map 4 Place\n;\
    rvcfi,compare,b.o,main,none,b.img,short,none,100 = 1: refused 24 Map 4 Place\n;\
    rvcfi,compare,b.o,main,none,b.img,two,none,100 = 1: refused 24 Map 1 Form\n;\
    rvcfi,compare,b.o,main,none,b.img,later,none,100 = 1: refused 24 Map 2 Place\n;\
    rvcfi,compare,b.o,main,none,b.o,early,none,100 = 1: refused 22 Byte 16\n;\
    rvcfi,compare,b.o,nain,none,b.o,early,none,100 = 1: refused 17 NoEntry\n;\
    rvcfi,compare,p.o,main,b.o,b.o,early,none,100 = 1: refused 18 Policy 1\n;\
    rvcfi,harden,hart,absent,main,none,i,g,m = 2: usage: rvcfi rewrite|verify|run|compare|demo|harden|link|compare-link\n;\
    rvcfi,harden,Harts,absent,main,none,i,g,m = 2: usage: rvcfi rewrite|verify|run|compare|demo|harden|link|compare-link\n;\
    rvcfi,harden,harts ,absent,main,none,i,g,m = 2: usage: rvcfi rewrite|verify|run|compare|demo|harden|link|compare-link\n;\
    rvcfi,harden,,absent,main,none,i,g,m = 2: usage: rvcfi rewrite|verify|run|compare|demo|harden|link|compare-link\n;\
    rvcfi,harden,none,absent,main,none,i,g,m = 2: usage: rvcfi rewrite|verify|run|compare|demo|harden|link|compare-link\n;\
    rvcfi,harden,plain1,absent,main,none,i,g,m = 2: usage: rvcfi rewrite|verify|run|compare|demo|harden|link|compare-link\n;\
    rvcfi,harden,2,absent,main,none,i,g,m = 2: usage: rvcfi rewrite|verify|run|compare|demo|harden|link|compare-link\n;\
    rvcfi,harden,2 split,absent,main,none,i,g,m = 2: usage: rvcfi rewrite|verify|run|compare|demo|harden|link|compare-link\n;\
    rvcfi,harden = 2: usage: rvcfi rewrite|verify|run|compare|demo|harden|link|compare-link\n;\
    rvcfi,harden,harts = 2: usage: rvcfi rewrite|verify|run|compare|demo|harden|link|compare-link\n;\
    rvcfi,harden,b.o,main,none,i,g,m = 2: usage: rvcfi rewrite|verify|run|compare|demo|harden|link|compare-link\n;\
    rvcfi,harden,harts,b.o,main,none,i,g = 2: usage: rvcfi rewrite|verify|run|compare|demo|harden|link|compare-link\n;\
    rvcfi,harden,harts,b.o,main,none,i,g,m,m = 2: usage: rvcfi rewrite|verify|run|compare|demo|harden|link|compare-link\n;\
    rvcfi,harden,harts,absent,main,none,i,i,m = 2: usage: rvcfi rewrite|verify|run|compare|demo|harden|link|compare-link\n;\
    rvcfi,harden,plain,absent,main,none,i,g,i = 2: usage: rvcfi rewrite|verify|run|compare|demo|harden|link|compare-link\n;\
    rvcfi,harden,harts,absent,main,none,i,g,g = 2: usage: rvcfi rewrite|verify|run|compare|demo|harden|link|compare-link\n;\
    rvcfi,rewrite,harts,b.o,main,none,i,g,m = 2: usage: rvcfi rewrite|verify|run|compare|demo|harden|link|compare-link\n;\
    rvcfi,harden,harts,absent,main,nothing,i,g,m = 3: read fault absent\n;\
    rvcfi,harden,plain,absent,main,nothing,i,g,m = 3: read fault absent\n;\
    rvcfi,harden,harts,b.o,main,nothing,i,g,m = 3: read fault nothing\n;\
    rvcfi,harden,harts,b.o,nain,none,i,g,m = 1: refused 17 NoEntry\n;\
    rvcfi,verify,i,g = 3: read fault i\n;\
    rvcfi,harden,harts,--,b.o,main,none,i,g,m = 0: rewritten code 108 data 0 classes 0 sites 0\n";

/// Adds the objects, the scripts, the maps and the images.
fn add_all(alloc: Global, files: &mut MemFiles) -> Result<(), NoMemory> {
    for object in &OBJECTS {
        add_object(alloc, files, object.0, &object.1)?;
    }
    for row in &IMAGES {
        add_waiting(alloc, files, row)?;
    }
    add_image_of_harts(alloc, files, &("wanted", &SHARED, b""))?;
    add_texts(files, &TEXTS)
}

#[test]
fn lines(rt: HostRuntime) {
    let mut files = MemFiles::new(rt.alloc(), Vec::new(rt.alloc()));
    assert!(rt; add_all(rt.alloc(), &mut files).is_ok());
    assert_eq!(rt; first_wrong(rt.alloc(), &mut files, LINES, 80), None);
    // The one whose harts share a double word, unit by unit.
    assert!(rt; files.get("shared.img") == files.get("wanted"));
    assert!(rt; files.get("shared.graph") == Some(SHARED_GRAPH));
}

/// Whether a command ends well.
fn ends_well(alloc: Global, line: &str, files: &mut MemFiles) -> bool {
    let mut out = MemSink::new(alloc, Vec::new(alloc));
    ends_with(alloc, line, files, &mut out, 0)
}

/// A command line with `harden` and a form in place of `rewrite`, if it has that.
fn hardening(alloc: Global, form: &str, row: &str) -> Option<String> {
    let rest = row.strip_prefix("rvcfi,rewrite,")?;
    format!(in alloc; "rvcfi,harden,{form},{rest}").ok()
}

/// Whether a row of `rewrite` is answered alike by `harden` in a form. What is written in another form than `plain` may have more
/// code.
fn is_alike(alloc: Global, form: &str, row: &str, files: &mut MemFiles) -> bool {
    let Some(asked) = hardening(alloc, form, row) else {
        return is_answered(alloc, row, files);
    };
    match asked.as_str().split_once(" = 0: ") {
        Some((line, _)) if form != "plain" => ends_well(alloc, line, files),
        _ => is_answered(alloc, asked.as_str(), files),
    }
}

/// Whether all rows of `rewrite` are answered alike in a form.
fn are_alike(alloc: Global, form: &str) -> bool {
    let mut files = MemFiles::new(alloc, Vec::new(alloc));
    if rewrites::add_all(alloc, &mut files).is_err() {
        return false;
    }
    for row in rows(rewrites::LINES) {
        if !is_alike(alloc, form, row, &mut files) {
            return false;
        }
    }
    true
}

#[test]
fn refused_alike(rt: HostRuntime) {
    for form in ["plain", "harts", "split", "harts-split"] {
        assert!(rt; are_alike(rt.alloc(), form), "{form}");
    }
}

/// The commands that make the same files of an object.
static SAME: [(&str, &str); 5] = [
    (
        "rvcfi,rewrite,b.o,main,none,i,g,m",
        "rvcfi,harden,plain,b.o,main,none,j,h,n",
    ),
    (
        "rvcfi,rewrite,p.o,main,none,i,g,m",
        "rvcfi,harden,plain,p.o,main,none,j,h,n",
    ),
    (
        "rvcfi,rewrite,h.o,main,none,i,g,m",
        "rvcfi,harden,plain,h.o,main,none,j,h,n",
    ),
    (
        "rvcfi,rewrite,r.o,main,none,i,g,m",
        "rvcfi,harden,plain,r.o,main,none,j,h,n",
    ),
    (
        "rvcfi,rewrite,shared.o,main,none,i,g,m",
        "rvcfi,harden,plain,shared.o,main,none,j,h,n",
    ),
];

/// Whether two commands write the same three files.
fn are_same(alloc: Global, files: &mut MemFiles, lines: &(&str, &str)) -> bool {
    ends_well(alloc, lines.0, files)
        && ends_well(alloc, lines.1, files)
        && files.get("i") == files.get("j")
        && files.get("g") == files.get("h")
        && files.get("m") == files.get("n")
}

#[test]
fn plain_is_rewrite(rt: HostRuntime) {
    let mut files = MemFiles::new(rt.alloc(), Vec::new(rt.alloc()));
    assert!(rt; add_all(rt.alloc(), &mut files).is_ok());
    for lines in &SAME {
        assert!(rt; are_same(rt.alloc(), &mut files, lines), "{}", lines.1);
    }
}
