//! The command `harden` in the forms where calls and jumps have labels of their own: what it writes is accepted, runs and compares.
//! The reports of runs are what a model of the machine, tests/model at the top of the repository, answers.

use crate::waiting::add_waiting;
use rv_word::NoMemory;
use sample_calls::{Given, Source, add_object, add_texts, first_wrong};
use sample_programs::{APART_GRAPH, APART_OF_HARTS_GRAPH, Q_GRAPH, Q_OF_HARTS_GRAPH};
use std::alloc::Global;
use tool_io::MemFiles;

/// Objects by their names. The pointer through which `crossed.o` calls leads to the function that is jumped to.
static OBJECTS: [(&str, Given); 11] = [
    ("b.o", Given(Source::Returning, 0, b"")),
    ("p.o", Given(Source::Calling, 0, b"")),
    ("r.o", Given(Source::Recursive, 0, b"")),
    ("deep", Given(Source::Recursive, 68, b"1305f5ff")),
    ("q.o", Given(Source::Jumping, 0, b"")),
    ("apart.o", Given(Source::Apart, 0, b"")),
    ("crossed.o", Given(Source::Apart, 252, b"03")),
    ("table.o", Given(Source::Switching, 0, b"")),
    ("sorts.o", Given(Source::Sorts, 0, b"")),
    ("turned.o", Given(Source::Coded, 0, b"67000300e7800200")),
    ("closing.o", Given(Source::Coded, 0, b"1385000067800000")),
];

/// Policies, and scripts that turn the pointer of `q.o` to a function and to one of which no address is taken, in either form.
static TEXTS: [(&str, &[u8]); 8] = [
    ("q.policy", b"rvcfi-policy 1\nsite h+0 g+0\nend\n"),
    (
        "apart.policy",
        b"rvcfi-policy 1\nsite main+10 called+0 both+0\nsite main+24 jumped+0 both+0\nend\n",
    ),
    (
        "sorts.policy",
        b"rvcfi-policy 1\nsite main+8 f+0\nsite main+c\nsite main+10 g+0\nsite f+0\nend\n",
    ),
    ("to_g", b"rvcfi-script 1\nat 0 00010000 9c000040\nend\n"),
    ("to_h", b"rvcfi-script 1\nat 0 00010000 bc000040\nend\n"),
    (
        "to_g_of_harts",
        b"rvcfi-script 1\nat 0 00010000 ac000040\nend\n",
    ),
    (
        "to_h_of_harts",
        b"rvcfi-script 1\nat 0 00010000 cc000040\nend\n",
    ),
    ("turn20", b"rvcfi-script 2\nharts 2\nturn 1 20\nend\n"),
];

/// Maps of the object that calls through a table whose gates are those of another form.
const PLAIN_OF_SPLIT: &[u8] = b"rvcfi-map 1\n\
    at 40000040 0001 00000000\nat 40000044 0001 00000004\nat 40000054 0001 00000008\n\
    at 40000058 0001 0000000c\nat 4000005c 0001 00000010\nat 400000ac 0001 00000014\n\
    at 400000b0 0001 00000018\nat 400000b4 0001 0000001c\nat 400000c8 0001 00000020\n\
    at 400000d4 0001 00000024\nat 400000e8 0001 00000028\nat 400000f4 0001 0000002c\n\
    at 40000108 0001 00000030\n\
    end\n";

const SPLIT_OF_PLAIN: &[u8] = b"rvcfi-map 2 split\n\
    at 40000040 0001 00000000\nat 40000044 0001 00000004\nat 40000054 0001 00000008\n\
    at 40000058 0001 0000000c\nat 4000005c 0001 00000010\nat 400000ac 0001 00000014\n\
    at 400000b0 0001 00000018\nat 400000b4 0001 0000001c\nat 400000c8 0001 00000020\n\
    at 400000d0 0001 00000024\nat 400000e4 0001 00000028\nat 400000ec 0001 0000002c\n\
    at 40000100 0001 00000030\n\
    end\n";

const HARTS_OF_SPLIT: &[u8] = b"rvcfi-map 2 harts-split\n\
    at 40000040 0001 00000000\nat 40000044 0001 00000004\nat 40000054 0001 00000008\n\
    at 40000058 0001 0000000c\nat 4000005c 0001 00000010\nat 400000ac 0001 00000014\n\
    at 400000b0 0001 00000018\nat 400000b4 0001 0000001c\nat 400000c8 0001 00000020\n\
    at 400000d4 0001 00000024\nat 400000e8 0001 00000028\nat 400000f4 0001 0000002c\n\
    at 40000108 0001 00000030\n\
    end\n";

const SPLIT_OF_HARTS: &[u8] = b"rvcfi-map 2 split\n\
    at 40000050 0001 00000000\nat 40000054 0001 00000004\nat 40000064 0001 00000008\n\
    at 40000068 0001 0000000c\nat 4000006c 0001 00000010\nat 400000bc 0001 00000014\n\
    at 400000c0 0001 00000018\nat 400000c4 0001 0000001c\nat 400000d8 0001 00000020\n\
    at 400000e4 0001 00000024\nat 400000f8 0001 00000028\nat 40000104 0001 0000002c\n\
    at 40000118 0001 00000030\n\
    end\n";

/// Maps of other forms, and maps of an object that returns 7 that are wrong: first lines that are none, a first gate where the form
/// has none, a return of 24 bytes, a missing line, and gates of the other form.
static MAPS: [(&str, &[u8]); 11] = [
    ("plain_of_split", PLAIN_OF_SPLIT),
    ("split_of_plain", SPLIT_OF_PLAIN),
    ("harts_of_split", HARTS_OF_SPLIT),
    ("split_of_harts", SPLIT_OF_HARTS),
    (
        "splits",
        b"rvcfi-map 2 splits\nat 40000050 0001 00000000\nat 40000054 0001 00000004\nat 40000068 0001 00000008\nend\n",
    ),
    (
        "split1",
        b"rvcfi-map 1 split\nat 40000050 0001 00000000\nat 40000054 0001 00000004\nat 40000068 0001 00000008\nend\n",
    ),
    (
        "harts_split",
        b"rvcfi-map 2 harts split\nat 40000050 0001 00000000\nat 40000054 0001 00000004\nat 40000068 0001 00000008\nend\n",
    ),
    (
        "early",
        b"rvcfi-map 2 harts-split\nat 40000040 0001 00000000\nat 40000044 0001 00000004\nat 40000058 0001 00000008\nend\n",
    ),
    (
        "wide",
        b"rvcfi-map 2 harts-split\nat 40000050 0001 00000000\nat 40000054 0001 00000004\nat 4000006c 0001 00000008\nend\n",
    ),
    (
        "short",
        b"rvcfi-map 2 harts-split\nat 40000050 0001 00000000\nat 40000054 0001 00000004\nend\n",
    ),
    (
        "later",
        b"rvcfi-map 2 split\nat 40000050 0001 00000000\nat 40000054 0001 00000004\nat 40000068 0001 00000008\nend\n",
    ),
];

/// Names of images that exit with 7 after so many steps as the name says, and how many instructions they have for that before the
/// last three; an opening has 10 steps, and one for several harts 14.
static IMAGES: [(&str, u32, bool); 8] = [
    ("79.img", 66, false),
    ("80.img", 67, false),
    ("83.img", 70, false),
    ("84.img", 71, false),
    ("79_of_harts.img", 62, true),
    ("80_of_harts.img", 63, true),
    ("83_of_harts.img", 66, true),
    ("84_of_harts.img", 67, true),
];

/// Command lines, with the status and the text of each, in the form of `sample_calls::first_wrong`: objects in the form `split`.
const SPLIT: &[u8] = b"\
    rvcfi,harden,split,b.o,main,none,sb.img,sb.graph,sb.map = 0: rewritten code 92 data 0 classes 0 sites 0\n;\
    rvcfi,verify,sb.img,sb.graph = 0: accepted\n;\
    rvcfi,run,sb.img,sb.graph,none,none,1000 = 0: output 0\n\nstop exit 7\nsteps 17\nwalk 4\ntrail 4000000c 40000040 40000044 40000038\n;\
    rvcfi,compare,b.o,main,none,sb.img,sb.map,none,100 = 0: same 1\n;\
    rvcfi,harden,split,p.o,main,none,sp.img,sp.graph,sp.map = 0: rewritten code 268 data 16 classes 1 sites 1\n;\
    rvcfi,verify,sp.img,sp.graph = 0: accepted\n;\
    rvcfi,run,sp.img,sp.graph,none,none,1000 = 0: output 0\n\nstop exit 1\nsteps 49\nwalk 14\ntrail 4000000c 40000040 40000044 40000054 40000058 4000005c 400000c8 400000cc 400000d0 400000d4 400000ac 400000b0 400000b4 40000038\n;\
    rvcfi,compare,p.o,main,none,sp.img,sp.map,none,100 = 0: same 1\n;\
    rvcfi,harden,split,q.o,main,q.policy,sq.img,sq.graph,sq.map = 0: rewritten code 292 data 16 classes 2 sites 2\n;\
    rvcfi,verify,sq.img,sq.graph = 0: accepted\n;\
    rvcfi,run,sq.img,sq.graph,none,none,1000 = 0: output 0\n\nstop exit 1\nsteps 32\nwalk 9\ntrail 4000000c 40000040 40000044 40000048 4000007c 40000080 40000084 40000088 40000038\n;\
    rvcfi,run,sq.img,sq.graph,to_g,none,1000 = 0: output 0\n\nstop exit 2\nsteps 32\nwalk 9\ntrail 4000000c 40000040 40000044 40000048 4000009c 400000a0 400000a4 400000a8 40000038\n;\
    rvcfi,run,sq.img,sq.graph,to_h,none,1000 = 10: output 0\n\nstop handler __cfi_bad_target\nsteps 24\nwalk 5\ntrail 4000000c 40000040 40000044 40000048 40000000\n;\
    rvcfi,compare,q.o,main,q.policy,sq.img,sq.map,none,100 = 0: same 1\n;\
    rvcfi,harden,split,apart.o,main,apart.policy,sa.img,sa.graph,sa.map = 0: rewritten code 340 data 16 classes 2 sites 2\n;\
    rvcfi,verify,sa.img,sa.graph = 0: accepted\n;\
    rvcfi,run,sa.img,sa.graph,none,none,1000 = 0: output 0\n\nstop exit 3\nsteps 65\nwalk 20\ntrail 40000058 4000005c 400000f0 400000f4 400000f8 400000fc 400000ac 400000b0 400000b4 400000b8 400000bc 40000110 40000114 40000118 4000011c 40000038\n;\
    rvcfi,compare,apart.o,main,apart.policy,sa.img,sa.map,none,100 = 0: same 1\n;\
    rvcfi,harden,split,crossed.o,main,apart.policy,sc.img,sc.graph,sc.map = 0: rewritten code 340 data 16 classes 2 sites 2\n;\
    rvcfi,verify,sc.img,sc.graph = 0: accepted\n;\
    rvcfi,run,sc.img,sc.graph,none,none,1000 = 10: output 0\n\nstop handler __cfi_bad_target\nsteps 29\nwalk 7\ntrail 4000000c 40000040 40000044 40000054 40000058 4000005c 40000000\n;\
    rvcfi,compare,crossed.o,main,apart.policy,sc.img,sc.map,none,100 = 13: untame graph 1 16\n;\
    rvcfi,harden,split,apart.o,main,none,sn.img,sn.graph,sn.map = 0: rewritten code 332 data 16 classes 2 sites 2\n;\
    rvcfi,verify,sn.img,sn.graph = 0: accepted\n;\
    rvcfi,compare,apart.o,main,none,sn.img,sn.map,none,100 = 0: same 1\n;\
    rvcfi,harden,split,table.o,main,none,st.img,st.graph,st.map = 0: rewritten code 500 data 32 classes 2 sites 3\n;\
    rvcfi,verify,st.img,st.graph = 0: accepted\n;\
    rvcfi,run,st.img,st.graph,none,none,1000 = 0: output 0\n\nstop exit 16\nsteps 122\nwalk 39\ntrail 4000017c 400001b0 400001b4 400001b8 400001bc 40000094 40000098 4000009c 400001d0 400001d4 400001d8 400001dc 400000ec 400000f0 400000f4 40000038\n;\
    rvcfi,compare,table.o,main,none,st.img,st.map,none,100 = 0: same 1\n;\
    rvcfi,harden,split,sorts.o,main,sorts.policy,ss.img,ss.graph,ss.map = 0: rewritten code 380 data 16 classes 4 sites 4\n;\
    rvcfi,verify,ss.img,ss.graph = 0: accepted\n;\
    rvcfi,run,ss.img,ss.graph,none,none,1000 = 10: output 0\n\nstop handler __cfi_bad_target\nsteps 39\nwalk 8\ntrail 4000000c 40000040 40000044 40000048 4000011c 40000120 40000124 40000000\n;\
    rvcfi,compare,sorts.o,main,sorts.policy,ss.img,ss.map,none,100 = 13: untame graph 1 20\n;\
    rvcfi,harden,split,turned.o,main,none,su.img,su.graph,su.map = 0: rewritten code 200 data 0 classes 2 sites 2\n;\
    rvcfi,verify,su.img,su.graph = 0: accepted\n;\
    rvcfi,run,su.img,su.graph,none,none,1000 = 10: output 0\n\nstop handler __cfi_bad_target\nsteps 18\nwalk 3\ntrail 4000000c 40000040 40000000\n;\
    rvcfi,compare,turned.o,main,none,su.img,su.map,none,100 = 13: untame graph 1 0\n;\
    rvcfi,harden,split,closing.o,main,none,se.img,se.graph,se.map = 0: rewritten code 92 data 0 classes 0 sites 0\n;\
    rvcfi,verify,se.img,se.graph = 0: accepted\n;\
    rvcfi,run,se.img,se.graph,none,none,1000 = 0: output 0\n\nstop exit 56\nsteps 17\nwalk 4\ntrail 4000000c 40000040 40000044 40000038\n;\
    rvcfi,compare,closing.o,main,none,se.img,se.map,none,100 = 0: same 1\n;\
    rvcfi,harden,split,r.o,main,none,sr.img,sr.graph,sr.map = 0: rewritten code 168 data 0 classes 0 sites 0\n;\
    rvcfi,verify,sr.img,sr.graph = 0: accepted\n;\
    rvcfi,compare,r.o,main,none,sr.img,sr.map,none,100000 = 0: same 1\n;\
    rvcfi,harden,split,deep,main,none,deep.img,i.graph,i.map = 0: rewritten code 168 data 0 classes 0 sites 0\n;\
    rvcfi,compare,deep,main,none,deep.img,i.map,none,100000 = 13: untame deep 1 28\n;\
    rvcfi,compare,b.o,main,none,sb.img,sb.map,none,3 = 0: same 1\n;\
    rvcfi,compare,b.o,main,none,sb.img,sb.map,none,2 = 12: limit\n";

/// The same in the form `harts-split`.
const HARTS_SPLIT: &[u8] = b"\
    rvcfi,harden,harts-split,b.o,main,none,tb.img,tb.graph,tb.map = 0: rewritten code 108 data 0 classes 0 sites 0\n;\
    rvcfi,verify,tb.img,tb.graph = 0: accepted\n;\
    rvcfi,run,tb.img,tb.graph,none,none,1000 = 0: output 0\n\nharts 1\nstop hart 0 exit 7\nsteps 21\nwalk 0 4\ntrail 0 4000000c 40000050 40000054 40000048\n;\
    rvcfi,compare,b.o,main,none,tb.img,tb.map,none,100 = 0: same 1\n;\
    rvcfi,harden,harts-split,p.o,main,none,tp.img,tp.graph,tp.map = 0: rewritten code 284 data 16 classes 1 sites 1\n;\
    rvcfi,verify,tp.img,tp.graph = 0: accepted\n;\
    rvcfi,run,tp.img,tp.graph,none,none,1000 = 0: output 0\n\nharts 1\nstop hart 0 exit 1\nsteps 53\nwalk 0 14\ntrail 0 4000000c 40000050 40000054 40000064 40000068 4000006c 400000d8 400000dc 400000e0 400000e4 400000bc 400000c0 400000c4 40000048\n;\
    rvcfi,compare,p.o,main,none,tp.img,tp.map,none,100 = 0: same 1\n;\
    rvcfi,harden,harts-split,q.o,main,q.policy,tq.img,tq.graph,tq.map = 0: rewritten code 308 data 16 classes 2 sites 2\n;\
    rvcfi,verify,tq.img,tq.graph = 0: accepted\n;\
    rvcfi,run,tq.img,tq.graph,none,none,1000 = 0: output 0\n\nharts 1\nstop hart 0 exit 1\nsteps 36\nwalk 0 9\ntrail 0 4000000c 40000050 40000054 40000058 4000008c 40000090 40000094 40000098 40000048\n;\
    rvcfi,run,tq.img,tq.graph,to_g_of_harts,none,1000 = 0: output 0\n\nharts 1\nstop hart 0 exit 2\nsteps 36\nwalk 0 9\ntrail 0 4000000c 40000050 40000054 40000058 400000ac 400000b0 400000b4 400000b8 40000048\n;\
    rvcfi,run,tq.img,tq.graph,to_h_of_harts,none,1000 = 10: output 0\n\nharts 1\nstop hart 0 handler __cfi_bad_target\nsteps 28\nwalk 0 5\ntrail 0 4000000c 40000050 40000054 40000058 40000000\n;\
    rvcfi,run,tq.img,tq.graph,turn20,none,1000 = 0: output 0\n\nharts 2\nstop hart 0 exit 1\nsteps 56\nwalk 0 9\ntrail 0 4000000c 40000050 40000054 40000058 4000008c 40000090 40000094 40000098 40000048\nwalk 1 4\ntrail 1 4000000c 40000050 40000054 40000058\n;\
    rvcfi,compare,q.o,main,q.policy,tq.img,tq.map,none,100 = 0: same 1\n;\
    rvcfi,harden,harts-split,apart.o,main,apart.policy,ta.img,ta.graph,ta.map = 0: rewritten code 356 data 16 classes 2 sites 2\n;\
    rvcfi,verify,ta.img,ta.graph = 0: accepted\n;\
    rvcfi,run,ta.img,ta.graph,none,none,1000 = 0: output 0\n\nharts 1\nstop hart 0 exit 3\nsteps 69\nwalk 0 20\ntrail 0 40000068 4000006c 40000100 40000104 40000108 4000010c 400000bc 400000c0 400000c4 400000c8 400000cc 40000120 40000124 40000128 4000012c 40000048\n;\
    rvcfi,compare,apart.o,main,apart.policy,ta.img,ta.map,none,100 = 0: same 1\n;\
    rvcfi,harden,harts-split,crossed.o,main,apart.policy,tc.img,tc.graph,tc.map = 0: rewritten code 356 data 16 classes 2 sites 2\n;\
    rvcfi,verify,tc.img,tc.graph = 0: accepted\n;\
    rvcfi,run,tc.img,tc.graph,none,none,1000 = 10: output 0\n\nharts 1\nstop hart 0 handler __cfi_bad_target\nsteps 33\nwalk 0 7\ntrail 0 4000000c 40000050 40000054 40000064 40000068 4000006c 40000000\n;\
    rvcfi,compare,crossed.o,main,apart.policy,tc.img,tc.map,none,100 = 13: untame graph 1 16\n;\
    rvcfi,harden,harts-split,apart.o,main,none,tn.img,tn.graph,tn.map = 0: rewritten code 348 data 16 classes 2 sites 2\n;\
    rvcfi,verify,tn.img,tn.graph = 0: accepted\n;\
    rvcfi,compare,apart.o,main,none,tn.img,tn.map,none,100 = 0: same 1\n;\
    rvcfi,harden,harts-split,table.o,main,none,tt.img,tt.graph,tt.map = 0: rewritten code 516 data 32 classes 2 sites 3\n;\
    rvcfi,verify,tt.img,tt.graph = 0: accepted\n;\
    rvcfi,run,tt.img,tt.graph,none,none,1000 = 0: output 0\n\nharts 1\nstop hart 0 exit 16\nsteps 126\nwalk 0 39\ntrail 0 4000018c 400001c0 400001c4 400001c8 400001cc 400000a4 400000a8 400000ac 400001e0 400001e4 400001e8 400001ec 400000fc 40000100 40000104 40000048\n;\
    rvcfi,compare,table.o,main,none,tt.img,tt.map,none,100 = 0: same 1\n;\
    rvcfi,harden,harts-split,sorts.o,main,sorts.policy,ts.img,ts.graph,ts.map = 0: rewritten code 396 data 16 classes 4 sites 4\n;\
    rvcfi,verify,ts.img,ts.graph = 0: accepted\n;\
    rvcfi,run,ts.img,ts.graph,none,none,1000 = 10: output 0\n\nharts 1\nstop hart 0 handler __cfi_bad_target\nsteps 43\nwalk 0 8\ntrail 0 4000000c 40000050 40000054 40000058 4000012c 40000130 40000134 40000000\n;\
    rvcfi,compare,sorts.o,main,sorts.policy,ts.img,ts.map,none,100 = 13: untame graph 1 20\n;\
    rvcfi,harden,harts-split,turned.o,main,none,tu.img,tu.graph,tu.map = 0: rewritten code 216 data 0 classes 2 sites 2\n;\
    rvcfi,verify,tu.img,tu.graph = 0: accepted\n;\
    rvcfi,run,tu.img,tu.graph,none,none,1000 = 10: output 0\n\nharts 1\nstop hart 0 handler __cfi_bad_target\nsteps 22\nwalk 0 3\ntrail 0 4000000c 40000050 40000000\n;\
    rvcfi,compare,turned.o,main,none,tu.img,tu.map,none,100 = 13: untame graph 1 0\n;\
    rvcfi,harden,harts-split,closing.o,main,none,te.img,te.graph,te.map = 0: rewritten code 108 data 0 classes 0 sites 0\n;\
    rvcfi,verify,te.img,te.graph = 0: accepted\n;\
    rvcfi,run,te.img,te.graph,none,none,1000 = 0: output 0\n\nharts 1\nstop hart 0 exit 72\nsteps 21\nwalk 0 4\ntrail 0 4000000c 40000050 40000054 40000048\n;\
    rvcfi,compare,closing.o,main,none,te.img,te.map,none,100 = 0: same 1\n;\
    rvcfi,harden,harts-split,r.o,main,none,tr.img,tr.graph,tr.map = 0: rewritten code 184 data 0 classes 0 sites 0\n;\
    rvcfi,verify,tr.img,tr.graph = 0: accepted\n;\
    rvcfi,compare,r.o,main,none,tr.img,tr.map,none,100000 = 0: same 1\n;\
    rvcfi,harden,harts-split,deep,main,none,deep.img,i.graph,i.map = 0: rewritten code 184 data 0 classes 0 sites 0\n;\
    rvcfi,compare,deep,main,none,deep.img,i.map,none,100000 = 13: untame deep 1 28\n;\
    rvcfi,compare,b.o,main,none,tb.img,tb.map,none,3 = 0: same 1\n;\
    rvcfi,compare,b.o,main,none,tb.img,tb.map,none,2 = 12: limit\n";

/// Maps of one form under images and objects of another, and bounds: a program that takes three steps has an image that takes 79 at
/// most, or 83 where its map is for several harts. The run of `crossed.o` keeps to its graph where labels are shared. Then words that
/// are no form, and other faults.
const OTHERS: &[u8] = b"\
    rvcfi,harden,plain,crossed.o,main,apart.policy,pc.img,pc.graph,pc.map = 0: rewritten code 328 data 16 classes 1 sites 2\n;\
    rvcfi,verify,pc.img,pc.graph = 0: accepted\n;\
    rvcfi,run,pc.img,pc.graph,none,none,1000 = 0: output 0\n\nstop exit 4\nsteps 63\nwalk 18\ntrail 40000044 40000054 40000058 4000005c 4000010c 40000110 40000114 400000ac 400000b0 400000b4 400000b8 400000bc 4000010c 40000110 40000114 40000038\n;\
    rvcfi,compare,crossed.o,main,apart.policy,pc.img,pc.map,none,100 = 0: same 1\n;\
    rvcfi,harden,harts,crossed.o,main,apart.policy,hc.img,hc.graph,hc.map = 0: rewritten code 344 data 16 classes 1 sites 2\n;\
    rvcfi,verify,hc.img,hc.graph = 0: accepted\n;\
    rvcfi,run,hc.img,hc.graph,none,none,1000 = 0: output 0\n\nharts 1\nstop hart 0 exit 4\nsteps 67\nwalk 0 18\ntrail 0 40000054 40000064 40000068 4000006c 4000011c 40000120 40000124 400000bc 400000c0 400000c4 400000c8 400000cc 4000011c 40000120 40000124 40000048\n;\
    rvcfi,compare,crossed.o,main,apart.policy,hc.img,hc.map,none,100 = 0: same 1\n;\
    rvcfi,harden,plain,p.o,main,none,pp.img,pp.graph,pp.map = 0: rewritten code 260 data 16 classes 1 sites 1\n;\
    rvcfi,verify,pp.img,pp.graph = 0: accepted\n;\
    rvcfi,harden,harts,p.o,main,none,hp.img,hp.graph,hp.map = 0: rewritten code 276 data 16 classes 1 sites 1\n;\
    rvcfi,verify,hp.img,hp.graph = 0: accepted\n;\
    rvcfi,harden,plain,closing.o,main,none,pe.img,pe.graph,pe.map = 0: rewritten code 92 data 0 classes 0 sites 0\n;\
    rvcfi,verify,pe.img,pe.graph = 0: accepted\n;\
    rvcfi,compare,p.o,main,none,sp.img,pp.map,none,100 = 0: same 1\n;\
    rvcfi,compare,p.o,main,none,pp.img,sp.map,none,100 = 0: same 1\n;\
    rvcfi,compare,p.o,main,none,tp.img,hp.map,none,100 = 0: same 1\n;\
    rvcfi,compare,p.o,main,none,hp.img,tp.map,none,100 = 0: same 1\n;\
    rvcfi,compare,closing.o,main,none,pe.img,se.map,none,100 = 0: same 1\n;\
    rvcfi,compare,closing.o,main,none,te.img,se.map,none,100 = 1: differs 0\nsource 000000000000005d 0000000040000038 0000000000000000 0000000000000000 0000000000000000 0000000000000000 0000000000000000 0000000000000000 -\nimage 000000000000005d 0000000040000048 0000000000000000 0000000000000000 0000000000000000 0000000000000000 0000000000000000 0000000000000000 -\n;\
    rvcfi,compare,closing.o,main,none,se.img,te.map,none,100 = 1: differs 0\nsource 000000000000005d 0000000040000048 0000000000000000 0000000000000000 0000000000000000 0000000000000000 0000000000000000 0000000000000000 -\nimage 000000000000005d 0000000040000038 0000000000000000 0000000000000000 0000000000000000 0000000000000000 0000000000000000 0000000000000000 -\n;\
    rvcfi,compare,crossed.o,main,apart.policy,pc.img,sc.map,none,100 = 13: untame graph 1 16\n;\
    rvcfi,compare,crossed.o,main,apart.policy,sc.img,pc.map,none,100 = 1: differs 0\nsource 000000000000005d 0000000000000004 0000000000000000 0000000000000000 0000000000000000 0000000000000000 0000000000000000 0000000000000000 -\nimage stop\n;\
    rvcfi,compare,p.o,main,none,sp.img,plain_of_split,none,100 = 1: refused 24 Map 11 Place\n;\
    rvcfi,compare,p.o,main,none,sp.img,split_of_plain,none,100 = 1: refused 24 Map 11 Place\n;\
    rvcfi,compare,p.o,main,none,sp.img,harts_of_split,none,100 = 1: refused 24 Map 2 Range\n;\
    rvcfi,compare,p.o,main,none,sp.img,split_of_harts,none,100 = 1: refused 24 Map 2 Place\n;\
    rvcfi,compare,b.o,main,none,tb.img,splits,none,100 = 1: refused 24 Map 1 Form\n;\
    rvcfi,compare,b.o,main,none,tb.img,split1,none,100 = 1: refused 24 Map 1 Form\n;\
    rvcfi,compare,b.o,main,none,tb.img,harts_split,none,100 = 1: refused 24 Map 1 Form\n;\
    rvcfi,compare,b.o,main,none,tb.img,early,none,100 = 1: refused 24 Map 2 Range\n;\
    rvcfi,compare,b.o,main,none,tb.img,wide,none,100 = 1: refused 24 Map 4 Place\n;\
    rvcfi,compare,b.o,main,none,tb.img,short,none,100 = 1: refused 24 Map 4 Place\n;\
    rvcfi,compare,b.o,main,none,tb.img,later,none,100 = 1: refused 24 Map 2 Place\n;\
    rvcfi,compare,p.o,main,none,sp.img,tp.map,none,100 = 0: same 1\n;\
    rvcfi,compare,q.o,main,q.policy,sq.img,sp.map,none,100 = 1: refused 24 Map 4 Place\n;\
    rvcfi,compare,b.o,main,none,79.img,sb.map,none,100 = 0: same 1\n;\
    rvcfi,compare,b.o,main,none,80.img,sb.map,none,100 = 1: differs 0\nsource 000000000000005d 0000000000000007 0000000000000000 0000000000000000 0000000000000000 0000000000000000 0000000000000000 0000000000000000 -\nimage running\n;\
    rvcfi,compare,b.o,main,none,79_of_harts.img,sb.map,none,100 = 0: same 1\n;\
    rvcfi,compare,b.o,main,none,80_of_harts.img,sb.map,none,100 = 1: differs 0\nsource 000000000000005d 0000000000000007 0000000000000000 0000000000000000 0000000000000000 0000000000000000 0000000000000000 0000000000000000 -\nimage running\n;\
    rvcfi,compare,b.o,main,none,83.img,tb.map,none,100 = 0: same 1\n;\
    rvcfi,compare,b.o,main,none,84.img,tb.map,none,100 = 1: differs 0\nsource 000000000000005d 0000000000000007 0000000000000000 0000000000000000 0000000000000000 0000000000000000 0000000000000000 0000000000000000 -\nimage running\n;\
    rvcfi,compare,b.o,main,none,83_of_harts.img,tb.map,none,100 = 0: same 1\n;\
    rvcfi,compare,b.o,main,none,84_of_harts.img,tb.map,none,100 = 1: differs 0\nsource 000000000000005d 0000000000000007 0000000000000000 0000000000000000 0000000000000000 0000000000000000 0000000000000000 0000000000000000 -\nimage running\n;\
    rvcfi,harden,split1,absent,main,none,i,g,m = 2: usage: rvcfi rewrite|verify|run|compare|demo|harden|link|compare-link\n;\
    rvcfi,harden,Split,absent,main,none,i,g,m = 2: usage: rvcfi rewrite|verify|run|compare|demo|harden|link|compare-link\n;\
    rvcfi,harden,harts_split,absent,main,none,i,g,m = 2: usage: rvcfi rewrite|verify|run|compare|demo|harden|link|compare-link\n;\
    rvcfi,harden,harts-Split,absent,main,none,i,g,m = 2: usage: rvcfi rewrite|verify|run|compare|demo|harden|link|compare-link\n;\
    rvcfi,harden,split-harts,absent,main,none,i,g,m = 2: usage: rvcfi rewrite|verify|run|compare|demo|harden|link|compare-link\n;\
    rvcfi,harden,harts-split ,absent,main,none,i,g,m = 2: usage: rvcfi rewrite|verify|run|compare|demo|harden|link|compare-link\n;\
    rvcfi,harden, split,absent,main,none,i,g,m = 2: usage: rvcfi rewrite|verify|run|compare|demo|harden|link|compare-link\n;\
    rvcfi,harden,plain-split,absent,main,none,i,g,m = 2: usage: rvcfi rewrite|verify|run|compare|demo|harden|link|compare-link\n;\
    rvcfi,harden,split = 2: usage: rvcfi rewrite|verify|run|compare|demo|harden|link|compare-link\n;\
    rvcfi,harden,split,b.o,main,none,i,g = 2: usage: rvcfi rewrite|verify|run|compare|demo|harden|link|compare-link\n;\
    rvcfi,harden,harts-split,b.o,main,none,i,g,m,m = 2: usage: rvcfi rewrite|verify|run|compare|demo|harden|link|compare-link\n;\
    rvcfi,harden,split,absent,main,none,i,i,m = 2: usage: rvcfi rewrite|verify|run|compare|demo|harden|link|compare-link\n;\
    rvcfi,harden,harts-split,absent,main,none,i,g,g = 2: usage: rvcfi rewrite|verify|run|compare|demo|harden|link|compare-link\n;\
    rvcfi,harden,split,absent,main,nothing,i,g,m = 3: read fault absent\n;\
    rvcfi,harden,harts-split,b.o,main,nothing,i,g,m = 3: read fault nothing\n;\
    rvcfi,harden,split,b.o,nain,none,i,g,m = 1: refused 17 NoEntry\n;\
    rvcfi,harden,harts-split,q.o,main,b.o,i,g,m = 1: refused 18 Policy 1\n;\
    rvcfi,harden,split,--,b.o,main,none,i,g,m = 0: rewritten code 92 data 0 classes 0 sites 0\n";

/// Adds the objects, the texts and the images.
fn add_all(alloc: Global, files: &mut MemFiles) -> Result<(), NoMemory> {
    for object in &OBJECTS {
        add_object(alloc, files, object.0, &object.1)?;
    }
    for row in &IMAGES {
        add_waiting(alloc, files, row)?;
    }
    add_texts(files, &TEXTS)?;
    add_texts(files, &MAPS)
}

#[test]
fn lines(rt: HostRuntime) {
    let mut files = MemFiles::new(rt.alloc(), Vec::new(rt.alloc()));
    assert!(rt; add_all(rt.alloc(), &mut files).is_ok());
    assert_eq!(rt; first_wrong(rt.alloc(), &mut files, SPLIT, 48), None);
    assert!(rt; files.get("sq.graph") == Some(Q_GRAPH));
    assert!(rt; files.get("sa.graph") == Some(APART_GRAPH));
    assert_eq!(rt; first_wrong(rt.alloc(), &mut files, HARTS_SPLIT, 49), None);
    assert!(rt; files.get("tq.graph") == Some(Q_OF_HARTS_GRAPH));
    assert!(rt; files.get("ta.graph") == Some(APART_OF_HARTS_GRAPH));
    assert_eq!(rt; first_wrong(rt.alloc(), &mut files, OTHERS, 62), None);
}
