//! The commands `link` and `compare-link`: objects that are joined, in each form, and what is refused of them. The objects and
//! the table of links are those of tests/model/links_table.py, by models of the join, of hardening and of the machine.

use rv_word::NoMemory;
use sample_calls::{add_texts, answers, decoded, ends_with, first_wrong};
use sample_objects::T;
use std::alloc::Global;
use tool_io::{MemFiles, MemSink};

pub(crate) const MAIN: &[u8] = b"\
    7f454c460201010000000000000000000100f3000100000000000000000000000000000000000000c8000000000000\
    0000000000400000000000400005000400130101ff2334110097000000e78000008330810013010101678000000000\
    0000080000000000000013000000020000000000000000000000000000000000000000000000000000000000000000\
    000000010000001200010000000000000000001c000000000000000600000010000000000000000000000000000000\
    00000000006d61696e0066000000000000000000000000000000000000000000000000000000000000000000000000\
    0000000000000000000000000000000000000000000000000000000000000000000100000006000000000000000000\
    00000000000040000000000000001c0000000000000000000000000000000400000000000000000000000000000000\
    0000000400000000000000000000000000000000000000600000000000000018000000000000000300000001000000\
    0800000000000000180000000000000000000000020000000000000000000000000000000000000078000000000000\
    0048000000000000000400000001000000080000000000000018000000000000000000000003000000000000000000\
    00000000000000000000c0000000000000000800000000000000000000000000000001000000000000000000000000\
    000000";

const F: &[u8] = b"\
    7f454c460201010000000000000000000100f300010000000000000000000000000000000000000080000000000000\
    0000000000400000000000400004000300130530006780000000000000000000000000000000000000000000000000\
    0000010000001200010000000000000000000800000000000000006600000000000000000000000000000000000000\
    0000000000000000000000000000000000000000000000000000000000000000000000000000000000000000000000\
    0000000000000000010000000600000000000000000000000000000040000000000000000800000000000000000000\
    0000000000040000000000000000000000000000000000000002000000000000000000000000000000000000004800\
    0000000000003000000000000000030000000100000008000000000000001800000000000000000000000300000000\
    0000000000000000000000000000007800000000000000030000000000000000000000000000000100000000000000\
    0000000000000000";

const QUIET: &[u8] = b"\
    7f454c460201010000000000000000000100f300010000000000000000000000000000000000000080000000000000\
    0000000000400000000000400004000300130530006780000000000000000000000000000000000000000000000000\
    0000000000000300010000000000000000000000000000000000000000000000000000000000000000000000000000\
    0000000000000000000000000000000000000000000000000000000000000000000000000000000000000000000000\
    0000000000000000010000000600000000000000000000000000000040000000000000000800000000000000000000\
    0000000000040000000000000000000000000000000000000002000000000000000000000000000000000000004800\
    0000000000003000000000000000030000000200000008000000000000001800000000000000000000000300000000\
    0000000000000000000000000000007800000000000000010000000000000000000000000000000100000000000000\
    0000000000000000";

const ENDS: &[u8] = b"\
    7f454c460201010000000000000000000100f3000100000000000000000000000000000000000000d8000000000000\
    0000000000400000000000400005000400130101ff233411002330810097000000e780000003340100833081001301\
    0101678000002330610023346100000000000c00000000000000130000000200000000000000000000000000000000\
    0000000000000000000000000000000000000001000000120001000000000000000000240000000000000006000000\
    1000000000000000000000000000000000000000006d61696e00660000000000000000000000000000000000000000\
    0000000000000000000000000000000000000000000000000000000000000000000000000000000000000000000000\
    0000010000000600000000000000000000000000000040000000000000002c00000000000000000000000000000004\
    0000000000000000000000000000000000000004000000000000000000000000000000000000007000000000000000\
    1800000000000000030000000100000008000000000000001800000000000000000000000200000000000000000000\
    0000000000000000008800000000000000480000000000000004000000010000000800000000000000180000000000\
    0000000000000300000000000000000000000000000000000000d00000000000000008000000000000000000000000\
    00000001000000000000000000000000000000";

const BEGINS: &[u8] = b"\
    7f454c460201010000000000000000000100f300010000000000000000000000000000000000000088000000000000\
    0000000000400000000000400004000300233071002334710013053000678000000000000000000000000000000000\
    0000000000000000000001000000120001000800000000000000080000000000000000660000000000000000000000\
    0000000000000000000000000000000000000000000000000000000000000000000000000000000000000000000000\
    0000000000000000000000000000000001000000060000000000000000000000000000004000000000000000100000\
    0000000000000000000000000004000000000000000000000000000000000000000200000000000000000000000000\
    0000000000005000000000000000300000000000000003000000010000000800000000000000180000000000000000\
    0000000300000000000000000000000000000000000000800000000000000003000000000000000000000000000000\
    01000000000000000000000000000000";

const ODD: &[u8] = b"\
    7f454c460201010000000000000000000100f300010000000000000000000000000000000000000080000000000000\
    0000000000400000000000400004000300130530006780000000000000000000000000000000000000000000000000\
    000001000000120001000000000000000000080000000000000000fffe000000000000000000000000000000000000\
    0000000000000000000000000000000000000000000000000000000000000000000000000000000000000000000000\
    0000000000000000010000000600000000000000000000000000000040000000000000000800000000000000000000\
    0000000000040000000000000000000000000000000000000002000000000000000000000000000000000000004800\
    0000000000003000000000000000030000000100000008000000000000001800000000000000000000000300000000\
    0000000000000000000000000000007800000000000000060000000000000000000000000000000100000000000000\
    0000000000000000";

/// Objects that the rows name, in hexadecimal.
static OBJECTS: [(&str, &[u8]); 6] = [
    ("main.o", MAIN),
    ("f.o", F),
    ("quiet.o", QUIET),
    ("odd.o", ODD),
    ("ends.o", ENDS),
    ("begins.o", BEGINS),
];

/// Files of other kinds.
static TEXTS: [(&str, &[u8]); 3] = [
    ("empty", b""),
    ("long", b"rvcfi-map 1\nat 40000040 0001 00000000\n"),
    ("words", b"no policy\n"),
];

#[rattlefmt::skip]
static LINKS: &[u8] = b"\
    rvcfi,link,plain,main,none,image,graph,map,main.o,f.o = 0: rewritten code 176 data 0 classes 0 sites 0\n;\
    rvcfi,verify,image,graph = 0: accepted\n;\
    rvcfi,run,image,graph,none,none,1000 = 0: output 0\n\nstop exit 3\nsteps 35\nwalk 10\ntrail 4000000c 40000040 40000044 40000054 40000094 40000098 40000074 40000078 4000007c 40000038\n;\
    rvcfi,compare-link,main,none,image,map,none,1000,main.o,f.o = 0: same 1\n;\
    rvcfi,link,plain,main,none,image,graph,map,f.o,main.o = 0: rewritten code 176 data 0 classes 0 sites 0\n;\
    rvcfi,verify,image,graph = 0: accepted\n;\
    rvcfi,run,image,graph,none,none,1000 = 0: output 0\n\nstop exit 3\nsteps 35\nwalk 10\ntrail 4000000c 4000005c 40000060 40000070 40000040 40000044 40000090 40000094 40000098 40000038\n;\
    rvcfi,compare-link,main,none,image,map,none,1000,f.o,main.o = 0: same 1\n;\
    rvcfi,link,plain,main,none,image,graph,map,main.o,quiet.o,f.o = 0: rewritten code 204 data 0 classes 0 sites 0\n;\
    rvcfi,verify,image,graph = 0: accepted\n;\
    rvcfi,run,image,graph,none,none,1000 = 0: output 0\n\nstop exit 3\nsteps 35\nwalk 10\ntrail 4000000c 40000040 40000044 40000054 400000b0 400000b4 40000074 40000078 4000007c 40000038\n;\
    rvcfi,compare-link,main,none,image,map,none,1000,main.o,quiet.o,f.o = 0: same 1\n;\
    rvcfi,link,plain,main,none,image,graph,map,main.o,t.o = 1: refused 27 Duplicate main\n;\
    rvcfi,link,plain,main,none,image,graph,map,t.o = 0: rewritten code 156 data 8 classes 1 sites 1\n;\
    rvcfi,verify,image,graph = 0: accepted\n;\
    rvcfi,run,image,graph,none,none,1000 = 0: output 0\n\nstop exit 4\nsteps 31\nwalk 8\ntrail 4000000c 40000040 40000044 40000048 4000007c 40000080 40000084 40000038\n;\
    rvcfi,compare-link,main,none,image,map,none,1000,t.o = 0: same 1\n;\
    rvcfi,link,plain,main,none,image,graph,map,t.o,quiet.o = 0: rewritten code 184 data 8 classes 1 sites 1\n;\
    rvcfi,verify,image,graph = 0: accepted\n;\
    rvcfi,run,image,graph,none,none,1000 = 0: output 0\n\nstop exit 4\nsteps 31\nwalk 8\ntrail 4000000c 40000040 40000044 40000048 4000007c 40000080 40000084 40000038\n;\
    rvcfi,compare-link,main,none,image,map,none,1000,t.o,quiet.o = 0: same 1\n;\
    rvcfi,link,plain,main,none,image,graph,map,main.o,f.o,f.o = 1: refused 27 Duplicate f\n;\
    rvcfi,link,plain,main,none,image,graph,map,main.o = 1: refused 15 Undefined 2 in 1\n;\
    rvcfi,link,plain,main,none,image,graph,map,quiet.o,main.o = 1: refused 15 Undefined 2 in 2\n;\
    rvcfi,link,plain,main,none,image,graph,map,quiet.o,t.o,t.o = 1: refused 27 Duplicate main\n;\
    rvcfi,link,plain,main,none,image,graph,map,ends.o,begins.o = 0: rewritten code 224 data 0 classes 0 sites 0\n;\
    rvcfi,verify,image,graph = 0: accepted\n;\
    rvcfi,run,image,graph,none,none,1000 = 0: output 0\n\nstop exit 3\nsteps 37\nwalk 11\ntrail 4000000c 40000040 40000044 40000058 400000c4 400000c8 40000078 4000007c 40000080 40000084 40000038\n;\
    rvcfi,compare-link,main,none,image,map,none,1000,ends.o,begins.o = 0: same 1\n;\
    rvcfi,link,plain,main,none,image,graph,map,begins.o,ends.o = 0: rewritten code 224 data 0 classes 0 sites 0\n;\
    rvcfi,verify,image,graph = 0: accepted\n;\
    rvcfi,run,image,graph,none,none,1000 = 0: output 0\n\nstop exit 3\nsteps 37\nwalk 11\ntrail 4000000c 40000070 40000074 40000088 40000054 40000058 400000a8 400000ac 400000b0 400000b4 40000038\n;\
    rvcfi,compare-link,main,none,image,map,none,1000,begins.o,ends.o = 0: same 1\n;\
    rvcfi,link,harts,main,none,image,graph,map,main.o,f.o = 0: rewritten code 192 data 0 classes 0 sites 0\n;\
    rvcfi,verify,image,graph = 0: accepted\n;\
    rvcfi,run,image,graph,none,none,1000 = 0: output 0\n\nharts 1\nstop hart 0 exit 3\nsteps 39\nwalk 0 10\ntrail 0 4000000c 40000050 40000054 40000064 400000a4 400000a8 40000084 40000088 4000008c 40000048\n;\
    rvcfi,compare-link,main,none,image,map,none,1000,main.o,f.o = 0: same 1\n;\
    rvcfi,link,harts,main,none,image,graph,map,f.o,main.o = 0: rewritten code 192 data 0 classes 0 sites 0\n;\
    rvcfi,verify,image,graph = 0: accepted\n;\
    rvcfi,run,image,graph,none,none,1000 = 0: output 0\n\nharts 1\nstop hart 0 exit 3\nsteps 39\nwalk 0 10\ntrail 0 4000000c 4000006c 40000070 40000080 40000050 40000054 400000a0 400000a4 400000a8 40000048\n;\
    rvcfi,compare-link,main,none,image,map,none,1000,f.o,main.o = 0: same 1\n;\
    rvcfi,link,harts,main,none,image,graph,map,main.o,quiet.o,f.o = 0: rewritten code 220 data 0 classes 0 sites 0\n;\
    rvcfi,verify,image,graph = 0: accepted\n;\
    rvcfi,run,image,graph,none,none,1000 = 0: output 0\n\nharts 1\nstop hart 0 exit 3\nsteps 39\nwalk 0 10\ntrail 0 4000000c 40000050 40000054 40000064 400000c0 400000c4 40000084 40000088 4000008c 40000048\n;\
    rvcfi,compare-link,main,none,image,map,none,1000,main.o,quiet.o,f.o = 0: same 1\n;\
    rvcfi,link,harts,main,none,image,graph,map,main.o,t.o = 1: refused 27 Duplicate main\n;\
    rvcfi,link,harts,main,none,image,graph,map,t.o = 0: rewritten code 172 data 8 classes 1 sites 1\n;\
    rvcfi,verify,image,graph = 0: accepted\n;\
    rvcfi,run,image,graph,none,none,1000 = 0: output 0\n\nharts 1\nstop hart 0 exit 4\nsteps 35\nwalk 0 8\ntrail 0 4000000c 40000050 40000054 40000058 4000008c 40000090 40000094 40000048\n;\
    rvcfi,compare-link,main,none,image,map,none,1000,t.o = 0: same 1\n;\
    rvcfi,link,harts,main,none,image,graph,map,t.o,quiet.o = 0: rewritten code 200 data 8 classes 1 sites 1\n;\
    rvcfi,verify,image,graph = 0: accepted\n;\
    rvcfi,run,image,graph,none,none,1000 = 0: output 0\n\nharts 1\nstop hart 0 exit 4\nsteps 35\nwalk 0 8\ntrail 0 4000000c 40000050 40000054 40000058 4000008c 40000090 40000094 40000048\n;\
    rvcfi,compare-link,main,none,image,map,none,1000,t.o,quiet.o = 0: same 1\n;\
    rvcfi,link,harts,main,none,image,graph,map,main.o,f.o,f.o = 1: refused 27 Duplicate f\n;\
    rvcfi,link,harts,main,none,image,graph,map,main.o = 1: refused 15 Undefined 2 in 1\n;\
    rvcfi,link,harts,main,none,image,graph,map,quiet.o,main.o = 1: refused 15 Undefined 2 in 2\n;\
    rvcfi,link,harts,main,none,image,graph,map,quiet.o,t.o,t.o = 1: refused 27 Duplicate main\n;\
    rvcfi,link,harts,main,none,image,graph,map,ends.o,begins.o = 0: rewritten code 240 data 0 classes 0 sites 0\n;\
    rvcfi,verify,image,graph = 0: accepted\n;\
    rvcfi,run,image,graph,none,none,1000 = 0: output 0\n\nharts 1\nstop hart 0 exit 3\nsteps 41\nwalk 0 11\ntrail 0 4000000c 40000050 40000054 40000068 400000d4 400000d8 40000088 4000008c 40000090 40000094 40000048\n;\
    rvcfi,compare-link,main,none,image,map,none,1000,ends.o,begins.o = 0: same 1\n;\
    rvcfi,link,harts,main,none,image,graph,map,begins.o,ends.o = 0: rewritten code 240 data 0 classes 0 sites 0\n;\
    rvcfi,verify,image,graph = 0: accepted\n;\
    rvcfi,run,image,graph,none,none,1000 = 0: output 0\n\nharts 1\nstop hart 0 exit 3\nsteps 41\nwalk 0 11\ntrail 0 4000000c 40000080 40000084 40000098 40000064 40000068 400000b8 400000bc 400000c0 400000c4 40000048\n;\
    rvcfi,compare-link,main,none,image,map,none,1000,begins.o,ends.o = 0: same 1\n;\
    rvcfi,link,split,main,none,image,graph,map,main.o,f.o = 0: rewritten code 176 data 0 classes 0 sites 0\n;\
    rvcfi,verify,image,graph = 0: accepted\n;\
    rvcfi,run,image,graph,none,none,1000 = 0: output 0\n\nstop exit 3\nsteps 35\nwalk 10\ntrail 4000000c 40000040 40000044 40000054 40000094 40000098 40000074 40000078 4000007c 40000038\n;\
    rvcfi,compare-link,main,none,image,map,none,1000,main.o,f.o = 0: same 1\n;\
    rvcfi,link,split,main,none,image,graph,map,f.o,main.o = 0: rewritten code 176 data 0 classes 0 sites 0\n;\
    rvcfi,verify,image,graph = 0: accepted\n;\
    rvcfi,run,image,graph,none,none,1000 = 0: output 0\n\nstop exit 3\nsteps 35\nwalk 10\ntrail 4000000c 4000005c 40000060 40000070 40000040 40000044 40000090 40000094 40000098 40000038\n;\
    rvcfi,compare-link,main,none,image,map,none,1000,f.o,main.o = 0: same 1\n;\
    rvcfi,link,split,main,none,image,graph,map,main.o,quiet.o,f.o = 0: rewritten code 204 data 0 classes 0 sites 0\n;\
    rvcfi,verify,image,graph = 0: accepted\n;\
    rvcfi,run,image,graph,none,none,1000 = 0: output 0\n\nstop exit 3\nsteps 35\nwalk 10\ntrail 4000000c 40000040 40000044 40000054 400000b0 400000b4 40000074 40000078 4000007c 40000038\n;\
    rvcfi,compare-link,main,none,image,map,none,1000,main.o,quiet.o,f.o = 0: same 1\n;\
    rvcfi,link,split,main,none,image,graph,map,main.o,t.o = 1: refused 27 Duplicate main\n;\
    rvcfi,link,split,main,none,image,graph,map,t.o = 0: rewritten code 160 data 8 classes 1 sites 1\n;\
    rvcfi,verify,image,graph = 0: accepted\n;\
    rvcfi,run,image,graph,none,none,1000 = 0: output 0\n\nstop exit 4\nsteps 32\nwalk 9\ntrail 4000000c 40000040 40000044 40000048 4000007c 40000080 40000084 40000088 40000038\n;\
    rvcfi,compare-link,main,none,image,map,none,1000,t.o = 0: same 1\n;\
    rvcfi,link,split,main,none,image,graph,map,t.o,quiet.o = 0: rewritten code 188 data 8 classes 1 sites 1\n;\
    rvcfi,verify,image,graph = 0: accepted\n;\
    rvcfi,run,image,graph,none,none,1000 = 0: output 0\n\nstop exit 4\nsteps 32\nwalk 9\ntrail 4000000c 40000040 40000044 40000048 4000007c 40000080 40000084 40000088 40000038\n;\
    rvcfi,compare-link,main,none,image,map,none,1000,t.o,quiet.o = 0: same 1\n;\
    rvcfi,link,split,main,none,image,graph,map,main.o,f.o,f.o = 1: refused 27 Duplicate f\n;\
    rvcfi,link,split,main,none,image,graph,map,main.o = 1: refused 15 Undefined 2 in 1\n;\
    rvcfi,link,split,main,none,image,graph,map,quiet.o,main.o = 1: refused 15 Undefined 2 in 2\n;\
    rvcfi,link,split,main,none,image,graph,map,quiet.o,t.o,t.o = 1: refused 27 Duplicate main\n;\
    rvcfi,link,split,main,none,image,graph,map,ends.o,begins.o = 0: rewritten code 224 data 0 classes 0 sites 0\n;\
    rvcfi,verify,image,graph = 0: accepted\n;\
    rvcfi,run,image,graph,none,none,1000 = 0: output 0\n\nstop exit 3\nsteps 37\nwalk 11\ntrail 4000000c 40000040 40000044 40000058 400000c4 400000c8 40000078 4000007c 40000080 40000084 40000038\n;\
    rvcfi,compare-link,main,none,image,map,none,1000,ends.o,begins.o = 0: same 1\n;\
    rvcfi,link,split,main,none,image,graph,map,begins.o,ends.o = 0: rewritten code 224 data 0 classes 0 sites 0\n;\
    rvcfi,verify,image,graph = 0: accepted\n;\
    rvcfi,run,image,graph,none,none,1000 = 0: output 0\n\nstop exit 3\nsteps 37\nwalk 11\ntrail 4000000c 40000070 40000074 40000088 40000054 40000058 400000a8 400000ac 400000b0 400000b4 40000038\n;\
    rvcfi,compare-link,main,none,image,map,none,1000,begins.o,ends.o = 0: same 1\n;\
    rvcfi,link,harts-split,main,none,image,graph,map,main.o,f.o = 0: rewritten code 192 data 0 classes 0 sites 0\n;\
    rvcfi,verify,image,graph = 0: accepted\n;\
    rvcfi,run,image,graph,none,none,1000 = 0: output 0\n\nharts 1\nstop hart 0 exit 3\nsteps 39\nwalk 0 10\ntrail 0 4000000c 40000050 40000054 40000064 400000a4 400000a8 40000084 40000088 4000008c 40000048\n;\
    rvcfi,compare-link,main,none,image,map,none,1000,main.o,f.o = 0: same 1\n;\
    rvcfi,link,harts-split,main,none,image,graph,map,f.o,main.o = 0: rewritten code 192 data 0 classes 0 sites 0\n;\
    rvcfi,verify,image,graph = 0: accepted\n;\
    rvcfi,run,image,graph,none,none,1000 = 0: output 0\n\nharts 1\nstop hart 0 exit 3\nsteps 39\nwalk 0 10\ntrail 0 4000000c 4000006c 40000070 40000080 40000050 40000054 400000a0 400000a4 400000a8 40000048\n;\
    rvcfi,compare-link,main,none,image,map,none,1000,f.o,main.o = 0: same 1\n;\
    rvcfi,link,harts-split,main,none,image,graph,map,main.o,quiet.o,f.o = 0: rewritten code 220 data 0 classes 0 sites 0\n;\
    rvcfi,verify,image,graph = 0: accepted\n;\
    rvcfi,run,image,graph,none,none,1000 = 0: output 0\n\nharts 1\nstop hart 0 exit 3\nsteps 39\nwalk 0 10\ntrail 0 4000000c 40000050 40000054 40000064 400000c0 400000c4 40000084 40000088 4000008c 40000048\n;\
    rvcfi,compare-link,main,none,image,map,none,1000,main.o,quiet.o,f.o = 0: same 1\n;\
    rvcfi,link,harts-split,main,none,image,graph,map,main.o,t.o = 1: refused 27 Duplicate main\n;\
    rvcfi,link,harts-split,main,none,image,graph,map,t.o = 0: rewritten code 176 data 8 classes 1 sites 1\n;\
    rvcfi,verify,image,graph = 0: accepted\n;\
    rvcfi,run,image,graph,none,none,1000 = 0: output 0\n\nharts 1\nstop hart 0 exit 4\nsteps 36\nwalk 0 9\ntrail 0 4000000c 40000050 40000054 40000058 4000008c 40000090 40000094 40000098 40000048\n;\
    rvcfi,compare-link,main,none,image,map,none,1000,t.o = 0: same 1\n;\
    rvcfi,link,harts-split,main,none,image,graph,map,t.o,quiet.o = 0: rewritten code 204 data 8 classes 1 sites 1\n;\
    rvcfi,verify,image,graph = 0: accepted\n;\
    rvcfi,run,image,graph,none,none,1000 = 0: output 0\n\nharts 1\nstop hart 0 exit 4\nsteps 36\nwalk 0 9\ntrail 0 4000000c 40000050 40000054 40000058 4000008c 40000090 40000094 40000098 40000048\n;\
    rvcfi,compare-link,main,none,image,map,none,1000,t.o,quiet.o = 0: same 1\n;\
    rvcfi,link,harts-split,main,none,image,graph,map,main.o,f.o,f.o = 1: refused 27 Duplicate f\n;\
    rvcfi,link,harts-split,main,none,image,graph,map,main.o = 1: refused 15 Undefined 2 in 1\n;\
    rvcfi,link,harts-split,main,none,image,graph,map,quiet.o,main.o = 1: refused 15 Undefined 2 in 2\n;\
    rvcfi,link,harts-split,main,none,image,graph,map,quiet.o,t.o,t.o = 1: refused 27 Duplicate main\n;\
    rvcfi,link,harts-split,main,none,image,graph,map,ends.o,begins.o = 0: rewritten code 240 data 0 classes 0 sites 0\n;\
    rvcfi,verify,image,graph = 0: accepted\n;\
    rvcfi,run,image,graph,none,none,1000 = 0: output 0\n\nharts 1\nstop hart 0 exit 3\nsteps 41\nwalk 0 11\ntrail 0 4000000c 40000050 40000054 40000068 400000d4 400000d8 40000088 4000008c 40000090 40000094 40000048\n;\
    rvcfi,compare-link,main,none,image,map,none,1000,ends.o,begins.o = 0: same 1\n;\
    rvcfi,link,harts-split,main,none,image,graph,map,begins.o,ends.o = 0: rewritten code 240 data 0 classes 0 sites 0\n;\
    rvcfi,verify,image,graph = 0: accepted\n;\
    rvcfi,run,image,graph,none,none,1000 = 0: output 0\n\nharts 1\nstop hart 0 exit 3\nsteps 41\nwalk 0 11\ntrail 0 4000000c 40000080 40000084 40000098 40000064 40000068 400000b8 400000bc 400000c0 400000c4 40000048\n;\
    rvcfi,compare-link,main,none,image,map,none,1000,begins.o,ends.o = 0: same 1\n";

/// What is told first: of the words, of the files in their order, of each object in turn, of all together.
#[rattlefmt::skip]
static REFUSALS: &[u8] = b"\
    rvcfi,link = 2: usage: rvcfi rewrite|verify|run|compare|demo|harden|link|compare-link\n;\
    rvcfi,link,plain,main,none,i,g,m = 2: usage: rvcfi rewrite|verify|run|compare|demo|harden|link|compare-link\n;\
    rvcfi,link,plain,main,none,i,i,m,absent = 2: usage: rvcfi rewrite|verify|run|compare|demo|harden|link|compare-link\n;\
    rvcfi,link,plain,main,none,i,g,i,absent = 2: usage: rvcfi rewrite|verify|run|compare|demo|harden|link|compare-link\n;\
    rvcfi,link,plain,main,none,i,g,g,absent = 2: usage: rvcfi rewrite|verify|run|compare|demo|harden|link|compare-link\n;\
    rvcfi,link,one,main,none,i,g,m,absent = 2: usage: rvcfi rewrite|verify|run|compare|demo|harden|link|compare-link\n;\
    rvcfi,link,plain,main,none,i,g,m,-absent = 2: usage: rvcfi rewrite|verify|run|compare|demo|harden|link|compare-link\n;\
    rvcfi,compare-link = 2: usage: rvcfi rewrite|verify|run|compare|demo|harden|link|compare-link\n;\
    rvcfi,compare-link,main,none,i,m,none,9 = 2: usage: rvcfi rewrite|verify|run|compare|demo|harden|link|compare-link\n;\
    rvcfi,compare-link,main,none,i,m,none,x,absent = 2: usage: rvcfi rewrite|verify|run|compare|demo|harden|link|compare-link\n;\
    rvcfi,compare-link,main,none,i,m,none,1000000001,absent = 2: usage: rvcfi rewrite|verify|run|compare|demo|harden|link|compare-link\n;\
    rvcfi,link,plain,main,absent,i,g,m,gone = 3: read fault absent\n;\
    rvcfi,link,plain,main,words,i,g,m,gone = 3: read fault gone\n;\
    rvcfi,link,plain,main,words,i,g,m,empty,gone,lost = 3: read fault gone\n;\
    rvcfi,link,plain,main,none,i,g,m,none = 3: read fault none\n;\
    rvcfi,compare-link,main,policy,image,map,input,9,one,two = 3: read fault policy\n;\
    rvcfi,compare-link,main,words,image,map,input,9,one,two = 3: read fault image\n;\
    rvcfi,compare-link,main,words,words,map,input,9,one,two = 3: read fault map\n;\
    rvcfi,compare-link,main,words,words,words,input,9,one,two = 3: read fault input\n;\
    rvcfi,compare-link,main,words,words,words,words,9,one,two = 3: read fault one\n;\
    rvcfi,compare-link,main,words,words,words,words,9,empty,two = 3: read fault two\n;\
    rvcfi,link,plain,main,none,i,g,m,empty = 1: refused 1 NotElf in 1\n;\
    rvcfi,link,plain,main,none,i,g,m,main.o,empty = 1: refused 1 NotElf in 2\n;\
    rvcfi,link,plain,main,none,i,g,m,f.o,f.o,empty,long = 1: refused 1 NotElf in 3\n;\
    rvcfi,link,plain,nain,words,i,g,m,f.o,f.o,main.o = 1: refused 27 Duplicate f\n;\
    rvcfi,link,plain,nain,words,i,g,m,main.o,quiet.o = 1: refused 15 Undefined 2 in 1\n;\
    rvcfi,link,plain,nain,words,i,g,m,main.o,f.o = 1: refused 17 NoEntry\n;\
    rvcfi,link,plain,main,words,i,g,m,main.o,f.o = 1: refused 18 Policy 1\n;\
    rvcfi,compare-link,main,none,words,words,none,9,f.o,empty = 1: refused 1 NotElf in 2\n;\
    rvcfi,compare-link,nain,words,words,words,none,9,main.o,f.o,f.o = 1: refused 27 Duplicate f\n;\
    rvcfi,compare-link,nain,words,words,words,none,9,quiet.o,main.o = 1: refused 15 Undefined 2 in 2\n;\
    rvcfi,compare-link,nain,words,words,words,none,9,main.o,f.o = 1: refused 17 NoEntry\n;\
    rvcfi,compare-link,main,words,words,words,none,9,main.o,f.o = 1: refused 18 Policy 1\n;\
    rvcfi,compare-link,main,none,words,words,none,9,main.o,f.o = 1: refused 22 Short 10\n;\
    rvcfi,link,plain,main,none,i,g,m,--,main.o,f.o = 0: rewritten code 176 data 0 classes 0 sites 0\n;\
    rvcfi,compare-link,main,none,i,words,none,9,main.o,f.o = 1: refused 24 Map 1 Form\n;\
    rvcfi,compare-link,main,none,i,long,none,9,main.o,f.o = 1: refused 24 Map 3 Form\n;\
    rvcfi,compare-link,main,none,i,m,none,2,main.o,f.o = 12: limit\n;\
    rvcfi,compare-link,main,none,i,m,none,90,main.o,f.o = 0: same 1\n";

/// Adds the objects and the texts.
fn add_all(alloc: Global, files: &mut MemFiles) -> Result<(), NoMemory> {
    for object in &OBJECTS {
        files.insert(object.0, &decoded(alloc, object.1)?)?;
    }
    files.insert("t.o", &decoded(alloc, T)?)?;
    add_texts(files, &TEXTS)
}

#[test]
fn links(rt: HostRuntime) {
    let mut files = MemFiles::new(rt.alloc(), Vec::new(rt.alloc()));
    assert!(rt; add_all(rt.alloc(), &mut files).is_ok());
    assert_eq!(rt; first_wrong(rt.alloc(), &mut files, LINKS, 132), None);
}

#[test]
fn refusals(rt: HostRuntime) {
    let mut files = MemFiles::new(rt.alloc(), Vec::new(rt.alloc()));
    assert!(rt; add_all(rt.alloc(), &mut files).is_ok());
    assert_eq!(rt; first_wrong(rt.alloc(), &mut files, REFUSALS, 39), None);
}

/// A command line that links so many objects: one that calls, one that is called, and others that nothing names.
fn many(alloc: Global, count: usize) -> Option<String> {
    let mut line = String::from_str(alloc, "rvcfi,link,plain,main,none,i,g,m,main.o").ok()?;
    for _ in 0..count {
        line.push_str(",quiet.o").ok()?;
    }
    line.push_str(",f.o").ok()?;
    Some(line)
}

/// Whether a line of many objects puts a text.
fn many_answer(alloc: Global, files: &mut MemFiles, count: usize, text: &str) -> bool {
    match many(alloc, count) {
        Some(line) => answers(alloc, line.as_str(), files, 0, text),
        None => false,
    }
}

#[test]
fn three_hundred_objects(rt: HostRuntime) {
    let mut files = MemFiles::new(rt.alloc(), Vec::new(rt.alloc()));
    assert!(rt; add_all(rt.alloc(), &mut files).is_ok());
    let text = "rewritten code 8520 data 0 classes 0 sites 0\n";
    assert!(rt; many_answer(rt.alloc(), &mut files, 298, text));
}

#[test]
fn tells_a_name_by_its_bytes(rt: HostRuntime) {
    let mut files = MemFiles::new(rt.alloc(), Vec::new(rt.alloc()));
    assert!(rt; add_all(rt.alloc(), &mut files).is_ok());
    let mut out = MemSink::new(rt.alloc(), Vec::new(rt.alloc()));
    let line = "rvcfi,link,plain,main,none,i,g,m,odd.o,odd.o";
    assert!(rt; ends_with(rt.alloc(), line, &mut files, &mut out, 1));
    assert!(rt; out.bytes() == b"refused 27 Duplicate \xff\xfe\n".as_slice());
}
