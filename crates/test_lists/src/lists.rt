//! Objects that are hardened under lists of system calls, in each form: what is put, that it is accepted, its runs and what comparing
//! tells. tests/model/lists_tables.py at the top of the repository prints this, by its models of the join, of hardening and of the machine.

use crate::links::MAIN;
use rv_word::NoMemory;
use sample_calls::{Given, Source, add_object, add_texts, decoded, first_wrong};
use std::alloc::Global;
use tool_io::MemFiles;

const WRITES: &[u8] = b"\
    7f454c460201010000000000000000000100f300010000000000000000000000000000000000000088000000000000\
    0000000000400000000000400004000300930800047300000067800000000000000000000000000000000000000000\
    00000000000000000000010000001200010000000000000000000c0000000000000000660000000000000000000000\
    0000000000000000000000000000000000000000000000000000000000000000000000000000000000000000000000\
    00000000000000000000000000000000010000000600000000000000000000000000000040000000000000000c0000\
    0000000000000000000000000004000000000000000000000000000000000000000200000000000000000000000000\
    0000000000005000000000000000300000000000000003000000010000000800000000000000180000000000000000\
    0000000300000000000000000000000000000000000000800000000000000003000000000000000000000000000000\
    01000000000000000000000000000000";

const EXITS: &[u8] = b"\
    7f454c460201010000000000000000000100f300010000000000000000000000000000000000000088000000000000\
    0000000000400000000000400004000300130550009308d00573000000000000000000000000000000000000000000\
    00000000000000000000010000001200010000000000000000000c0000000000000000660000000000000000000000\
    0000000000000000000000000000000000000000000000000000000000000000000000000000000000000000000000\
    00000000000000000000000000000000010000000600000000000000000000000000000040000000000000000c0000\
    0000000000000000000000000004000000000000000000000000000000000000000200000000000000000000000000\
    0000000000005000000000000000300000000000000003000000010000000800000000000000180000000000000000\
    0000000300000000000000000000000000000000000000800000000000000003000000000000000000000000000000\
    01000000000000000000000000000000";

/// Objects by their names; some load the number of their system call from data, read and write, or store what they write.
#[rattlefmt::skip]
static OBJECTS: [(&str, Given); 7] = [
    ("h.o", Given(Source::Writing, 0, b"")),
    ("asking.o", Given(Source::Coded, 0, b"b702010083b802007300000067800000")),
    ("ending.o", Given(Source::Coded, 0, b"9308e00513053000730000007300100073000000")),
    ("around.o", Given(Source::Coded, 0, b"9308000413052000630e0500233c61fe233871fe73000000233461fe233071fee30a05fe67800000")),
    ("echo.o", Given(Source::Coded, 0, b"13050000b7050100130620009308f00373000000630c0500130605001305100093080004730000006ff09ffd67800000")),
    ("stored.o", Given(Source::Coded, 0, b"b705010093021006a380550023805500238155001305100013063000930800047300000023b4550023b855001305400067800000")),
    ("product.o", Given(Source::Coded, 0, b"9302900013037000b38862027300000067800000")),
];

/// Objects that are joined.
static JOINED: [(&str, &[u8]); 3] = [("main.o", MAIN), ("writes.o", WRITES), ("exits.o", EXITS)];

/// Policies, scripts that change the number of a system call, and an input.
#[rattlefmt::skip]
static TEXTS: [(&str, &[u8]); 21] = [
    ("c0", b"rvcfi-policy 2\ncalls 0\nend\n"),
    ("c63", b"rvcfi-policy 2\ncalls 63\nend\n"),
    ("c64", b"rvcfi-policy 2\ncalls 64\nend\n"),
    ("c93", b"rvcfi-policy 2\ncalls 93\nend\n"),
    ("c94", b"rvcfi-policy 2\ncalls 94\nend\n"),
    ("c2047", b"rvcfi-policy 2\ncalls 2047\nend\n"),
    ("c63_64", b"rvcfi-policy 2\ncalls 63 64\nend\n"),
    ("most", b"rvcfi-policy 2\ncalls 0 1 62 63 64 93 94 2047\nend\n"),
    ("s0", b"rvcfi-script 1\nat 0 00010000 5d00000000000000\nend\n"),
    ("s1", b"rvcfi-script 1\nat 0 00010000 4000000000000000\nend\n"),
    ("s2", b"rvcfi-script 1\nat 0 00010000 0000000000000000\nend\n"),
    ("s3", b"rvcfi-script 1\nat 0 00010000 0008000000000000\nend\n"),
    ("s4", b"rvcfi-script 1\nat 0 00010000 ff07000000000000\nend\n"),
    ("s5", b"rvcfi-script 1\nat 0 00010000 fe07000000000000\nend\n"),
    ("s6", b"rvcfi-script 1\nat 0 00010000 5e00000000000000\nend\n"),
    ("s7", b"rvcfi-script 1\nat 0 00010000 0100000000000000\nend\n"),
    ("s8", b"rvcfi-script 1\nat 0 00010000 3e00000000000000\nend\n"),
    ("s9", b"rvcfi-script 1\nat 0 00010000 3f00000000000000\nend\n"),
    ("s10", b"rvcfi-script 1\nat 0 00010000 0200000000000000\nend\n"),
    ("s11", b"rvcfi-script 1\nat 0 00010000 ffffffffffffffff\nend\n"),
    ("input", b"abcde"),
];

/// Command lines, with the status and the text of each.
const LINES: &[u8] = b"\
    rvcfi,harden,plain,h.o,main,c64,i,g,m = 0: rewritten code 208 data 3 classes 0 sites 0\n;\
    rvcfi,verify,i,g = 0: accepted\n;\
    rvcfi,run,i,g,none,input,1000 = 0: output 3\nhi\n\nstop exit 0\nsteps 43\nwalk 16\ntrail 4000000c 40000040 40000044 40000054 40000094 40000098 4000009c 400000a0 400000a4 400000a8 400000b8 40000074 40000078 4000007c 40000080 40000038\n;\
    rvcfi,compare,h.o,main,c64,i,m,input,1000 = 0: same 2\n;\
    rvcfi,harden,harts,h.o,main,c64,i,g,m = 0: rewritten code 224 data 3 classes 0 sites 0\n;\
    rvcfi,verify,i,g = 0: accepted\n;\
    rvcfi,run,i,g,none,input,1000 = 0: output 3\nhi\n\nharts 1\nstop hart 0 exit 0\nsteps 47\nwalk 0 16\ntrail 0 4000000c 40000050 40000054 40000064 400000a4 400000a8 400000ac 400000b0 400000b4 400000b8 400000c8 40000084 40000088 4000008c 40000090 40000048\n;\
    rvcfi,compare,h.o,main,c64,i,m,input,1000 = 0: same 2\n;\
    rvcfi,harden,split,h.o,main,c64,i,g,m = 0: rewritten code 208 data 3 classes 0 sites 0\n;\
    rvcfi,verify,i,g = 0: accepted\n;\
    rvcfi,run,i,g,none,input,1000 = 0: output 3\nhi\n\nstop exit 0\nsteps 43\nwalk 16\ntrail 4000000c 40000040 40000044 40000054 40000094 40000098 4000009c 400000a0 400000a4 400000a8 400000b8 40000074 40000078 4000007c 40000080 40000038\n;\
    rvcfi,compare,h.o,main,c64,i,m,input,1000 = 0: same 2\n;\
    rvcfi,harden,harts-split,h.o,main,c64,i,g,m = 0: rewritten code 224 data 3 classes 0 sites 0\n;\
    rvcfi,verify,i,g = 0: accepted\n;\
    rvcfi,run,i,g,none,input,1000 = 0: output 3\nhi\n\nharts 1\nstop hart 0 exit 0\nsteps 47\nwalk 0 16\ntrail 0 4000000c 40000050 40000054 40000064 400000a4 400000a8 400000ac 400000b0 400000b4 400000b8 400000c8 40000084 40000088 4000008c 40000090 40000048\n;\
    rvcfi,compare,h.o,main,c64,i,m,input,1000 = 0: same 2\n;\
    rvcfi,harden,plain,h.o,main,c63,i,g,m = 0: rewritten code 208 data 3 classes 0 sites 0\n;\
    rvcfi,verify,i,g = 0: accepted\n;\
    rvcfi,run,i,g,none,input,1000 = 10: output 0\n\nstop handler __cfi_bad_target\nsteps 31\nwalk 11\ntrail 4000000c 40000040 40000044 40000054 40000094 40000098 4000009c 400000a0 400000a4 400000a8 40000000\n;\
    rvcfi,compare,h.o,main,c63,i,m,input,1000 = 13: untame call 1 52\n;\
    rvcfi,harden,harts,h.o,main,c63,i,g,m = 0: rewritten code 224 data 3 classes 0 sites 0\n;\
    rvcfi,verify,i,g = 0: accepted\n;\
    rvcfi,run,i,g,none,input,1000 = 10: output 0\n\nharts 1\nstop hart 0 handler __cfi_bad_target\nsteps 35\nwalk 0 11\ntrail 0 4000000c 40000050 40000054 40000064 400000a4 400000a8 400000ac 400000b0 400000b4 400000b8 40000000\n;\
    rvcfi,compare,h.o,main,c63,i,m,input,1000 = 13: untame call 1 52\n;\
    rvcfi,harden,split,h.o,main,c63,i,g,m = 0: rewritten code 208 data 3 classes 0 sites 0\n;\
    rvcfi,verify,i,g = 0: accepted\n;\
    rvcfi,run,i,g,none,input,1000 = 10: output 0\n\nstop handler __cfi_bad_target\nsteps 31\nwalk 11\ntrail 4000000c 40000040 40000044 40000054 40000094 40000098 4000009c 400000a0 400000a4 400000a8 40000000\n;\
    rvcfi,compare,h.o,main,c63,i,m,input,1000 = 13: untame call 1 52\n;\
    rvcfi,harden,harts-split,h.o,main,c63,i,g,m = 0: rewritten code 224 data 3 classes 0 sites 0\n;\
    rvcfi,verify,i,g = 0: accepted\n;\
    rvcfi,run,i,g,none,input,1000 = 10: output 0\n\nharts 1\nstop hart 0 handler __cfi_bad_target\nsteps 35\nwalk 0 11\ntrail 0 4000000c 40000050 40000054 40000064 400000a4 400000a8 400000ac 400000b0 400000b4 400000b8 40000000\n;\
    rvcfi,compare,h.o,main,c63,i,m,input,1000 = 13: untame call 1 52\n;\
    rvcfi,harden,plain,h.o,main,most,i,g,m = 0: rewritten code 264 data 3 classes 0 sites 0\n;\
    rvcfi,verify,i,g = 0: accepted\n;\
    rvcfi,run,i,g,none,input,1000 = 0: output 3\nhi\n\nstop exit 0\nsteps 51\nwalk 16\ntrail 4000000c 40000040 40000044 40000054 40000094 40000098 4000009c 400000a0 400000a4 400000a8 400000f0 40000074 40000078 4000007c 40000080 40000038\n;\
    rvcfi,compare,h.o,main,most,i,m,input,1000 = 0: same 2\n;\
    rvcfi,harden,harts,h.o,main,most,i,g,m = 0: rewritten code 280 data 3 classes 0 sites 0\n;\
    rvcfi,verify,i,g = 0: accepted\n;\
    rvcfi,run,i,g,none,input,1000 = 0: output 3\nhi\n\nharts 1\nstop hart 0 exit 0\nsteps 55\nwalk 0 16\ntrail 0 4000000c 40000050 40000054 40000064 400000a4 400000a8 400000ac 400000b0 400000b4 400000b8 40000100 40000084 40000088 4000008c 40000090 40000048\n;\
    rvcfi,compare,h.o,main,most,i,m,input,1000 = 0: same 2\n;\
    rvcfi,harden,split,h.o,main,most,i,g,m = 0: rewritten code 264 data 3 classes 0 sites 0\n;\
    rvcfi,verify,i,g = 0: accepted\n;\
    rvcfi,run,i,g,none,input,1000 = 0: output 3\nhi\n\nstop exit 0\nsteps 51\nwalk 16\ntrail 4000000c 40000040 40000044 40000054 40000094 40000098 4000009c 400000a0 400000a4 400000a8 400000f0 40000074 40000078 4000007c 40000080 40000038\n;\
    rvcfi,compare,h.o,main,most,i,m,input,1000 = 0: same 2\n;\
    rvcfi,harden,harts-split,h.o,main,most,i,g,m = 0: rewritten code 280 data 3 classes 0 sites 0\n;\
    rvcfi,verify,i,g = 0: accepted\n;\
    rvcfi,run,i,g,none,input,1000 = 0: output 3\nhi\n\nharts 1\nstop hart 0 exit 0\nsteps 55\nwalk 0 16\ntrail 0 4000000c 40000050 40000054 40000064 400000a4 400000a8 400000ac 400000b0 400000b4 400000b8 40000100 40000084 40000088 4000008c 40000090 40000048\n;\
    rvcfi,compare,h.o,main,most,i,m,input,1000 = 0: same 2\n;\
    rvcfi,harden,plain,asking.o,main,c64,i,g,m = 0: rewritten code 112 data 0 classes 0 sites 0\n;\
    rvcfi,verify,i,g = 0: accepted\n;\
    rvcfi,run,i,g,s0,input,1000 = 10: output 0\n\nstop handler __cfi_bad_target\nsteps 16\nwalk 5\ntrail 4000000c 40000040 40000044 40000048 40000000\n;\
    rvcfi,run,i,g,s1,input,1000 = 0: output 0\n\nstop exit 247\nsteps 21\nwalk 6\ntrail 4000000c 40000040 40000044 40000048 40000058 40000038\n;\
    rvcfi,run,i,g,s1,input,1000 = 0: output 0\n\nstop exit 247\nsteps 21\nwalk 6\ntrail 4000000c 40000040 40000044 40000048 40000058 40000038\n;\
    rvcfi,compare,asking.o,main,c64,i,m,input,1000 = 13: untame call 1 8\n;\
    rvcfi,harden,harts,asking.o,main,c64,i,g,m = 0: rewritten code 128 data 0 classes 0 sites 0\n;\
    rvcfi,verify,i,g = 0: accepted\n;\
    rvcfi,run,i,g,s0,input,1000 = 10: output 0\n\nharts 1\nstop hart 0 handler __cfi_bad_target\nsteps 20\nwalk 0 5\ntrail 0 4000000c 40000050 40000054 40000058 40000000\n;\
    rvcfi,run,i,g,s1,input,1000 = 0: output 0\n\nharts 1\nstop hart 0 exit 247\nsteps 25\nwalk 0 6\ntrail 0 4000000c 40000050 40000054 40000058 40000068 40000048\n;\
    rvcfi,run,i,g,s1,input,1000 = 0: output 0\n\nharts 1\nstop hart 0 exit 247\nsteps 25\nwalk 0 6\ntrail 0 4000000c 40000050 40000054 40000058 40000068 40000048\n;\
    rvcfi,compare,asking.o,main,c64,i,m,input,1000 = 13: untame call 1 8\n;\
    rvcfi,harden,split,asking.o,main,c64,i,g,m = 0: rewritten code 112 data 0 classes 0 sites 0\n;\
    rvcfi,verify,i,g = 0: accepted\n;\
    rvcfi,run,i,g,s0,input,1000 = 10: output 0\n\nstop handler __cfi_bad_target\nsteps 16\nwalk 5\ntrail 4000000c 40000040 40000044 40000048 40000000\n;\
    rvcfi,run,i,g,s1,input,1000 = 0: output 0\n\nstop exit 247\nsteps 21\nwalk 6\ntrail 4000000c 40000040 40000044 40000048 40000058 40000038\n;\
    rvcfi,run,i,g,s1,input,1000 = 0: output 0\n\nstop exit 247\nsteps 21\nwalk 6\ntrail 4000000c 40000040 40000044 40000048 40000058 40000038\n;\
    rvcfi,compare,asking.o,main,c64,i,m,input,1000 = 13: untame call 1 8\n;\
    rvcfi,harden,harts-split,asking.o,main,c64,i,g,m = 0: rewritten code 128 data 0 classes 0 sites 0\n;\
    rvcfi,verify,i,g = 0: accepted\n;\
    rvcfi,run,i,g,s0,input,1000 = 10: output 0\n\nharts 1\nstop hart 0 handler __cfi_bad_target\nsteps 20\nwalk 0 5\ntrail 0 4000000c 40000050 40000054 40000058 40000000\n;\
    rvcfi,run,i,g,s1,input,1000 = 0: output 0\n\nharts 1\nstop hart 0 exit 247\nsteps 25\nwalk 0 6\ntrail 0 4000000c 40000050 40000054 40000058 40000068 40000048\n;\
    rvcfi,run,i,g,s1,input,1000 = 0: output 0\n\nharts 1\nstop hart 0 exit 247\nsteps 25\nwalk 0 6\ntrail 0 4000000c 40000050 40000054 40000058 40000068 40000048\n;\
    rvcfi,compare,asking.o,main,c64,i,m,input,1000 = 13: untame call 1 8\n;\
    rvcfi,harden,plain,asking.o,main,c0,i,g,m = 0: rewritten code 112 data 0 classes 0 sites 0\n;\
    rvcfi,verify,i,g = 0: accepted\n;\
    rvcfi,run,i,g,s2,input,1000 = 0: output 0\n\nstop exit 218\nsteps 21\nwalk 6\ntrail 4000000c 40000040 40000044 40000048 40000058 40000038\n;\
    rvcfi,run,i,g,s3,input,1000 = 10: output 0\n\nstop handler __cfi_bad_target\nsteps 16\nwalk 5\ntrail 4000000c 40000040 40000044 40000048 40000000\n;\
    rvcfi,compare,asking.o,main,c0,i,m,input,1000 = 0: same 2\n;\
    rvcfi,harden,harts,asking.o,main,c0,i,g,m = 0: rewritten code 128 data 0 classes 0 sites 0\n;\
    rvcfi,verify,i,g = 0: accepted\n;\
    rvcfi,run,i,g,s2,input,1000 = 0: output 0\n\nharts 1\nstop hart 0 exit 218\nsteps 25\nwalk 0 6\ntrail 0 4000000c 40000050 40000054 40000058 40000068 40000048\n;\
    rvcfi,run,i,g,s3,input,1000 = 10: output 0\n\nharts 1\nstop hart 0 handler __cfi_bad_target\nsteps 20\nwalk 0 5\ntrail 0 4000000c 40000050 40000054 40000058 40000000\n;\
    rvcfi,compare,asking.o,main,c0,i,m,input,1000 = 0: same 2\n;\
    rvcfi,harden,split,asking.o,main,c0,i,g,m = 0: rewritten code 112 data 0 classes 0 sites 0\n;\
    rvcfi,verify,i,g = 0: accepted\n;\
    rvcfi,run,i,g,s2,input,1000 = 0: output 0\n\nstop exit 218\nsteps 21\nwalk 6\ntrail 4000000c 40000040 40000044 40000048 40000058 40000038\n;\
    rvcfi,run,i,g,s3,input,1000 = 10: output 0\n\nstop handler __cfi_bad_target\nsteps 16\nwalk 5\ntrail 4000000c 40000040 40000044 40000048 40000000\n;\
    rvcfi,compare,asking.o,main,c0,i,m,input,1000 = 0: same 2\n;\
    rvcfi,harden,harts-split,asking.o,main,c0,i,g,m = 0: rewritten code 128 data 0 classes 0 sites 0\n;\
    rvcfi,verify,i,g = 0: accepted\n;\
    rvcfi,run,i,g,s2,input,1000 = 0: output 0\n\nharts 1\nstop hart 0 exit 218\nsteps 25\nwalk 0 6\ntrail 0 4000000c 40000050 40000054 40000058 40000068 40000048\n;\
    rvcfi,run,i,g,s3,input,1000 = 10: output 0\n\nharts 1\nstop hart 0 handler __cfi_bad_target\nsteps 20\nwalk 0 5\ntrail 0 4000000c 40000050 40000054 40000058 40000000\n;\
    rvcfi,compare,asking.o,main,c0,i,m,input,1000 = 0: same 2\n;\
    rvcfi,harden,plain,asking.o,main,c2047,i,g,m = 0: rewritten code 112 data 0 classes 0 sites 0\n;\
    rvcfi,verify,i,g = 0: accepted\n;\
    rvcfi,run,i,g,s4,input,1000 = 0: output 0\n\nstop exit 218\nsteps 21\nwalk 6\ntrail 4000000c 40000040 40000044 40000048 40000058 40000038\n;\
    rvcfi,run,i,g,s3,input,1000 = 10: output 0\n\nstop handler __cfi_bad_target\nsteps 16\nwalk 5\ntrail 4000000c 40000040 40000044 40000048 40000000\n;\
    rvcfi,run,i,g,s5,input,1000 = 10: output 0\n\nstop handler __cfi_bad_target\nsteps 16\nwalk 5\ntrail 4000000c 40000040 40000044 40000048 40000000\n;\
    rvcfi,compare,asking.o,main,c2047,i,m,input,1000 = 13: untame call 1 8\n;\
    rvcfi,harden,harts,asking.o,main,c2047,i,g,m = 0: rewritten code 128 data 0 classes 0 sites 0\n;\
    rvcfi,verify,i,g = 0: accepted\n;\
    rvcfi,run,i,g,s4,input,1000 = 0: output 0\n\nharts 1\nstop hart 0 exit 218\nsteps 25\nwalk 0 6\ntrail 0 4000000c 40000050 40000054 40000058 40000068 40000048\n;\
    rvcfi,run,i,g,s3,input,1000 = 10: output 0\n\nharts 1\nstop hart 0 handler __cfi_bad_target\nsteps 20\nwalk 0 5\ntrail 0 4000000c 40000050 40000054 40000058 40000000\n;\
    rvcfi,run,i,g,s5,input,1000 = 10: output 0\n\nharts 1\nstop hart 0 handler __cfi_bad_target\nsteps 20\nwalk 0 5\ntrail 0 4000000c 40000050 40000054 40000058 40000000\n;\
    rvcfi,compare,asking.o,main,c2047,i,m,input,1000 = 13: untame call 1 8\n;\
    rvcfi,harden,split,asking.o,main,c2047,i,g,m = 0: rewritten code 112 data 0 classes 0 sites 0\n;\
    rvcfi,verify,i,g = 0: accepted\n;\
    rvcfi,run,i,g,s4,input,1000 = 0: output 0\n\nstop exit 218\nsteps 21\nwalk 6\ntrail 4000000c 40000040 40000044 40000048 40000058 40000038\n;\
    rvcfi,run,i,g,s3,input,1000 = 10: output 0\n\nstop handler __cfi_bad_target\nsteps 16\nwalk 5\ntrail 4000000c 40000040 40000044 40000048 40000000\n;\
    rvcfi,run,i,g,s5,input,1000 = 10: output 0\n\nstop handler __cfi_bad_target\nsteps 16\nwalk 5\ntrail 4000000c 40000040 40000044 40000048 40000000\n;\
    rvcfi,compare,asking.o,main,c2047,i,m,input,1000 = 13: untame call 1 8\n;\
    rvcfi,harden,harts-split,asking.o,main,c2047,i,g,m = 0: rewritten code 128 data 0 classes 0 sites 0\n;\
    rvcfi,verify,i,g = 0: accepted\n;\
    rvcfi,run,i,g,s4,input,1000 = 0: output 0\n\nharts 1\nstop hart 0 exit 218\nsteps 25\nwalk 0 6\ntrail 0 4000000c 40000050 40000054 40000058 40000068 40000048\n;\
    rvcfi,run,i,g,s3,input,1000 = 10: output 0\n\nharts 1\nstop hart 0 handler __cfi_bad_target\nsteps 20\nwalk 0 5\ntrail 0 4000000c 40000050 40000054 40000058 40000000\n;\
    rvcfi,run,i,g,s5,input,1000 = 10: output 0\n\nharts 1\nstop hart 0 handler __cfi_bad_target\nsteps 20\nwalk 0 5\ntrail 0 4000000c 40000050 40000054 40000058 40000000\n;\
    rvcfi,compare,asking.o,main,c2047,i,m,input,1000 = 13: untame call 1 8\n;\
    rvcfi,harden,plain,asking.o,main,c93,i,g,m = 0: rewritten code 112 data 0 classes 0 sites 0\n;\
    rvcfi,verify,i,g = 0: accepted\n;\
    rvcfi,run,i,g,s0,input,1000 = 0: output 0\n\nstop exit 0\nsteps 15\nwalk 4\ntrail 4000000c 40000040 40000044 40000048\n;\
    rvcfi,run,i,g,s6,input,1000 = 10: output 0\n\nstop handler __cfi_bad_target\nsteps 16\nwalk 5\ntrail 4000000c 40000040 40000044 40000048 40000000\n;\
    rvcfi,compare,asking.o,main,c93,i,m,input,1000 = 13: untame call 1 8\n;\
    rvcfi,harden,harts,asking.o,main,c93,i,g,m = 0: rewritten code 128 data 0 classes 0 sites 0\n;\
    rvcfi,verify,i,g = 0: accepted\n;\
    rvcfi,run,i,g,s0,input,1000 = 0: output 0\n\nharts 1\nstop hart 0 exit 0\nsteps 19\nwalk 0 4\ntrail 0 4000000c 40000050 40000054 40000058\n;\
    rvcfi,run,i,g,s6,input,1000 = 10: output 0\n\nharts 1\nstop hart 0 handler __cfi_bad_target\nsteps 20\nwalk 0 5\ntrail 0 4000000c 40000050 40000054 40000058 40000000\n;\
    rvcfi,compare,asking.o,main,c93,i,m,input,1000 = 13: untame call 1 8\n;\
    rvcfi,harden,split,asking.o,main,c93,i,g,m = 0: rewritten code 112 data 0 classes 0 sites 0\n;\
    rvcfi,verify,i,g = 0: accepted\n;\
    rvcfi,run,i,g,s0,input,1000 = 0: output 0\n\nstop exit 0\nsteps 15\nwalk 4\ntrail 4000000c 40000040 40000044 40000048\n;\
    rvcfi,run,i,g,s6,input,1000 = 10: output 0\n\nstop handler __cfi_bad_target\nsteps 16\nwalk 5\ntrail 4000000c 40000040 40000044 40000048 40000000\n;\
    rvcfi,compare,asking.o,main,c93,i,m,input,1000 = 13: untame call 1 8\n;\
    rvcfi,harden,harts-split,asking.o,main,c93,i,g,m = 0: rewritten code 128 data 0 classes 0 sites 0\n;\
    rvcfi,verify,i,g = 0: accepted\n;\
    rvcfi,run,i,g,s0,input,1000 = 0: output 0\n\nharts 1\nstop hart 0 exit 0\nsteps 19\nwalk 0 4\ntrail 0 4000000c 40000050 40000054 40000058\n;\
    rvcfi,run,i,g,s6,input,1000 = 10: output 0\n\nharts 1\nstop hart 0 handler __cfi_bad_target\nsteps 20\nwalk 0 5\ntrail 0 4000000c 40000050 40000054 40000058 40000000\n;\
    rvcfi,compare,asking.o,main,c93,i,m,input,1000 = 13: untame call 1 8\n;\
    rvcfi,harden,plain,asking.o,main,most,i,g,m = 0: rewritten code 168 data 0 classes 0 sites 0\n;\
    rvcfi,verify,i,g = 0: accepted\n;\
    rvcfi,run,i,g,s2,input,1000 = 0: output 0\n\nstop exit 218\nsteps 21\nwalk 6\ntrail 4000000c 40000040 40000044 40000048 40000090 40000038\n;\
    rvcfi,run,i,g,s7,input,1000 = 0: output 0\n\nstop exit 218\nsteps 23\nwalk 6\ntrail 4000000c 40000040 40000044 40000048 40000090 40000038\n;\
    rvcfi,run,i,g,s8,input,1000 = 0: output 0\n\nstop exit 218\nsteps 25\nwalk 6\ntrail 4000000c 40000040 40000044 40000048 40000090 40000038\n;\
    rvcfi,run,i,g,s9,input,1000 = 0: output 0\n\nstop exit 0\nsteps 27\nwalk 6\ntrail 4000000c 40000040 40000044 40000048 40000090 40000038\n;\
    rvcfi,run,i,g,s1,input,1000 = 0: output 0\n\nstop exit 247\nsteps 29\nwalk 6\ntrail 4000000c 40000040 40000044 40000048 40000090 40000038\n;\
    rvcfi,run,i,g,s0,input,1000 = 0: output 0\n\nstop exit 0\nsteps 25\nwalk 4\ntrail 4000000c 40000040 40000044 40000048\n;\
    rvcfi,run,i,g,s6,input,1000 = 0: output 0\n\nstop exit 0\nsteps 27\nwalk 4\ntrail 4000000c 40000040 40000044 40000048\n;\
    rvcfi,run,i,g,s4,input,1000 = 0: output 0\n\nstop exit 218\nsteps 35\nwalk 6\ntrail 4000000c 40000040 40000044 40000048 40000090 40000038\n;\
    rvcfi,run,i,g,s10,input,1000 = 10: output 0\n\nstop handler __cfi_bad_target\nsteps 30\nwalk 5\ntrail 4000000c 40000040 40000044 40000048 40000000\n;\
    rvcfi,run,i,g,s11,input,1000 = 10: output 0\n\nstop handler __cfi_bad_target\nsteps 30\nwalk 5\ntrail 4000000c 40000040 40000044 40000048 40000000\n;\
    rvcfi,compare,asking.o,main,most,i,m,input,1000 = 0: same 2\n;\
    rvcfi,harden,harts,asking.o,main,most,i,g,m = 0: rewritten code 184 data 0 classes 0 sites 0\n;\
    rvcfi,verify,i,g = 0: accepted\n;\
    rvcfi,run,i,g,s2,input,1000 = 0: output 0\n\nharts 1\nstop hart 0 exit 218\nsteps 25\nwalk 0 6\ntrail 0 4000000c 40000050 40000054 40000058 400000a0 40000048\n;\
    rvcfi,run,i,g,s7,input,1000 = 0: output 0\n\nharts 1\nstop hart 0 exit 218\nsteps 27\nwalk 0 6\ntrail 0 4000000c 40000050 40000054 40000058 400000a0 40000048\n;\
    rvcfi,run,i,g,s8,input,1000 = 0: output 0\n\nharts 1\nstop hart 0 exit 218\nsteps 29\nwalk 0 6\ntrail 0 4000000c 40000050 40000054 40000058 400000a0 40000048\n;\
    rvcfi,run,i,g,s9,input,1000 = 0: output 0\n\nharts 1\nstop hart 0 exit 0\nsteps 31\nwalk 0 6\ntrail 0 4000000c 40000050 40000054 40000058 400000a0 40000048\n;\
    rvcfi,run,i,g,s1,input,1000 = 0: output 0\n\nharts 1\nstop hart 0 exit 247\nsteps 33\nwalk 0 6\ntrail 0 4000000c 40000050 40000054 40000058 400000a0 40000048\n;\
    rvcfi,run,i,g,s0,input,1000 = 0: output 0\n\nharts 1\nstop hart 0 exit 0\nsteps 29\nwalk 0 4\ntrail 0 4000000c 40000050 40000054 40000058\n;\
    rvcfi,run,i,g,s6,input,1000 = 0: output 0\n\nharts 1\nstop hart 0 exit 0\nsteps 31\nwalk 0 4\ntrail 0 4000000c 40000050 40000054 40000058\n;\
    rvcfi,run,i,g,s4,input,1000 = 0: output 0\n\nharts 1\nstop hart 0 exit 218\nsteps 39\nwalk 0 6\ntrail 0 4000000c 40000050 40000054 40000058 400000a0 40000048\n;\
    rvcfi,run,i,g,s10,input,1000 = 10: output 0\n\nharts 1\nstop hart 0 handler __cfi_bad_target\nsteps 34\nwalk 0 5\ntrail 0 4000000c 40000050 40000054 40000058 40000000\n;\
    rvcfi,run,i,g,s11,input,1000 = 10: output 0\n\nharts 1\nstop hart 0 handler __cfi_bad_target\nsteps 34\nwalk 0 5\ntrail 0 4000000c 40000050 40000054 40000058 40000000\n;\
    rvcfi,compare,asking.o,main,most,i,m,input,1000 = 0: same 2\n;\
    rvcfi,harden,split,asking.o,main,most,i,g,m = 0: rewritten code 168 data 0 classes 0 sites 0\n;\
    rvcfi,verify,i,g = 0: accepted\n;\
    rvcfi,run,i,g,s2,input,1000 = 0: output 0\n\nstop exit 218\nsteps 21\nwalk 6\ntrail 4000000c 40000040 40000044 40000048 40000090 40000038\n;\
    rvcfi,run,i,g,s7,input,1000 = 0: output 0\n\nstop exit 218\nsteps 23\nwalk 6\ntrail 4000000c 40000040 40000044 40000048 40000090 40000038\n;\
    rvcfi,run,i,g,s8,input,1000 = 0: output 0\n\nstop exit 218\nsteps 25\nwalk 6\ntrail 4000000c 40000040 40000044 40000048 40000090 40000038\n;\
    rvcfi,run,i,g,s9,input,1000 = 0: output 0\n\nstop exit 0\nsteps 27\nwalk 6\ntrail 4000000c 40000040 40000044 40000048 40000090 40000038\n;\
    rvcfi,run,i,g,s1,input,1000 = 0: output 0\n\nstop exit 247\nsteps 29\nwalk 6\ntrail 4000000c 40000040 40000044 40000048 40000090 40000038\n;\
    rvcfi,run,i,g,s0,input,1000 = 0: output 0\n\nstop exit 0\nsteps 25\nwalk 4\ntrail 4000000c 40000040 40000044 40000048\n;\
    rvcfi,run,i,g,s6,input,1000 = 0: output 0\n\nstop exit 0\nsteps 27\nwalk 4\ntrail 4000000c 40000040 40000044 40000048\n;\
    rvcfi,run,i,g,s4,input,1000 = 0: output 0\n\nstop exit 218\nsteps 35\nwalk 6\ntrail 4000000c 40000040 40000044 40000048 40000090 40000038\n;\
    rvcfi,run,i,g,s10,input,1000 = 10: output 0\n\nstop handler __cfi_bad_target\nsteps 30\nwalk 5\ntrail 4000000c 40000040 40000044 40000048 40000000\n;\
    rvcfi,run,i,g,s11,input,1000 = 10: output 0\n\nstop handler __cfi_bad_target\nsteps 30\nwalk 5\ntrail 4000000c 40000040 40000044 40000048 40000000\n;\
    rvcfi,compare,asking.o,main,most,i,m,input,1000 = 0: same 2\n;\
    rvcfi,harden,harts-split,asking.o,main,most,i,g,m = 0: rewritten code 184 data 0 classes 0 sites 0\n;\
    rvcfi,verify,i,g = 0: accepted\n;\
    rvcfi,run,i,g,s2,input,1000 = 0: output 0\n\nharts 1\nstop hart 0 exit 218\nsteps 25\nwalk 0 6\ntrail 0 4000000c 40000050 40000054 40000058 400000a0 40000048\n;\
    rvcfi,run,i,g,s7,input,1000 = 0: output 0\n\nharts 1\nstop hart 0 exit 218\nsteps 27\nwalk 0 6\ntrail 0 4000000c 40000050 40000054 40000058 400000a0 40000048\n;\
    rvcfi,run,i,g,s8,input,1000 = 0: output 0\n\nharts 1\nstop hart 0 exit 218\nsteps 29\nwalk 0 6\ntrail 0 4000000c 40000050 40000054 40000058 400000a0 40000048\n;\
    rvcfi,run,i,g,s9,input,1000 = 0: output 0\n\nharts 1\nstop hart 0 exit 0\nsteps 31\nwalk 0 6\ntrail 0 4000000c 40000050 40000054 40000058 400000a0 40000048\n;\
    rvcfi,run,i,g,s1,input,1000 = 0: output 0\n\nharts 1\nstop hart 0 exit 247\nsteps 33\nwalk 0 6\ntrail 0 4000000c 40000050 40000054 40000058 400000a0 40000048\n;\
    rvcfi,run,i,g,s0,input,1000 = 0: output 0\n\nharts 1\nstop hart 0 exit 0\nsteps 29\nwalk 0 4\ntrail 0 4000000c 40000050 40000054 40000058\n;\
    rvcfi,run,i,g,s6,input,1000 = 0: output 0\n\nharts 1\nstop hart 0 exit 0\nsteps 31\nwalk 0 4\ntrail 0 4000000c 40000050 40000054 40000058\n;\
    rvcfi,run,i,g,s4,input,1000 = 0: output 0\n\nharts 1\nstop hart 0 exit 218\nsteps 39\nwalk 0 6\ntrail 0 4000000c 40000050 40000054 40000058 400000a0 40000048\n;\
    rvcfi,run,i,g,s10,input,1000 = 10: output 0\n\nharts 1\nstop hart 0 handler __cfi_bad_target\nsteps 34\nwalk 0 5\ntrail 0 4000000c 40000050 40000054 40000058 40000000\n;\
    rvcfi,run,i,g,s11,input,1000 = 10: output 0\n\nharts 1\nstop hart 0 handler __cfi_bad_target\nsteps 34\nwalk 0 5\ntrail 0 4000000c 40000050 40000054 40000058 40000000\n;\
    rvcfi,compare,asking.o,main,most,i,m,input,1000 = 0: same 2\n;\
    rvcfi,harden,plain,ending.o,main,c94,i,g,m = 0: rewritten code 112 data 0 classes 0 sites 0\n;\
    rvcfi,verify,i,g = 0: accepted\n;\
    rvcfi,run,i,g,none,input,1000 = 0: output 0\n\nstop exit 3\nsteps 15\nwalk 4\ntrail 4000000c 40000040 40000044 40000048\n;\
    rvcfi,compare,ending.o,main,c94,i,m,input,1000 = 0: same 1\n;\
    rvcfi,harden,harts,ending.o,main,c94,i,g,m = 0: rewritten code 128 data 0 classes 0 sites 0\n;\
    rvcfi,verify,i,g = 0: accepted\n;\
    rvcfi,run,i,g,none,input,1000 = 0: output 0\n\nharts 1\nstop hart 0 exit 3\nsteps 19\nwalk 0 4\ntrail 0 4000000c 40000050 40000054 40000058\n;\
    rvcfi,compare,ending.o,main,c94,i,m,input,1000 = 0: same 1\n;\
    rvcfi,harden,split,ending.o,main,c94,i,g,m = 0: rewritten code 112 data 0 classes 0 sites 0\n;\
    rvcfi,verify,i,g = 0: accepted\n;\
    rvcfi,run,i,g,none,input,1000 = 0: output 0\n\nstop exit 3\nsteps 15\nwalk 4\ntrail 4000000c 40000040 40000044 40000048\n;\
    rvcfi,compare,ending.o,main,c94,i,m,input,1000 = 0: same 1\n;\
    rvcfi,harden,harts-split,ending.o,main,c94,i,g,m = 0: rewritten code 128 data 0 classes 0 sites 0\n;\
    rvcfi,verify,i,g = 0: accepted\n;\
    rvcfi,run,i,g,none,input,1000 = 0: output 0\n\nharts 1\nstop hart 0 exit 3\nsteps 19\nwalk 0 4\ntrail 0 4000000c 40000050 40000054 40000058\n;\
    rvcfi,compare,ending.o,main,c94,i,m,input,1000 = 0: same 1\n;\
    rvcfi,harden,plain,ending.o,main,c93,i,g,m = 0: rewritten code 112 data 0 classes 0 sites 0\n;\
    rvcfi,verify,i,g = 0: accepted\n;\
    rvcfi,run,i,g,none,input,1000 = 10: output 0\n\nstop handler __cfi_bad_target\nsteps 16\nwalk 5\ntrail 4000000c 40000040 40000044 40000048 40000000\n;\
    rvcfi,compare,ending.o,main,c93,i,m,input,1000 = 13: untame call 1 8\n;\
    rvcfi,harden,harts,ending.o,main,c93,i,g,m = 0: rewritten code 128 data 0 classes 0 sites 0\n;\
    rvcfi,verify,i,g = 0: accepted\n;\
    rvcfi,run,i,g,none,input,1000 = 10: output 0\n\nharts 1\nstop hart 0 handler __cfi_bad_target\nsteps 20\nwalk 0 5\ntrail 0 4000000c 40000050 40000054 40000058 40000000\n;\
    rvcfi,compare,ending.o,main,c93,i,m,input,1000 = 13: untame call 1 8\n;\
    rvcfi,harden,split,ending.o,main,c93,i,g,m = 0: rewritten code 112 data 0 classes 0 sites 0\n;\
    rvcfi,verify,i,g = 0: accepted\n;\
    rvcfi,run,i,g,none,input,1000 = 10: output 0\n\nstop handler __cfi_bad_target\nsteps 16\nwalk 5\ntrail 4000000c 40000040 40000044 40000048 40000000\n;\
    rvcfi,compare,ending.o,main,c93,i,m,input,1000 = 13: untame call 1 8\n;\
    rvcfi,harden,harts-split,ending.o,main,c93,i,g,m = 0: rewritten code 128 data 0 classes 0 sites 0\n;\
    rvcfi,verify,i,g = 0: accepted\n;\
    rvcfi,run,i,g,none,input,1000 = 10: output 0\n\nharts 1\nstop hart 0 handler __cfi_bad_target\nsteps 20\nwalk 0 5\ntrail 0 4000000c 40000050 40000054 40000058 40000000\n;\
    rvcfi,compare,ending.o,main,c93,i,m,input,1000 = 13: untame call 1 8\n;\
    rvcfi,harden,plain,around.o,main,c64,i,g,m = 0: rewritten code 160 data 0 classes 0 sites 0\n;\
    rvcfi,verify,i,g = 0: accepted\n;\
    rvcfi,run,i,g,none,input,1000 = 0: output 0\n\nstop exit 247\nsteps 42\nwalk 13\ntrail 4000000c 40000040 40000044 40000048 4000004c 40000060 40000070 40000084 40000060 40000070 40000084 40000088 40000038\n;\
    rvcfi,compare,around.o,main,c64,i,m,input,1000 = 0: same 3\n;\
    rvcfi,harden,harts,around.o,main,c64,i,g,m = 0: rewritten code 176 data 0 classes 0 sites 0\n;\
    rvcfi,verify,i,g = 0: accepted\n;\
    rvcfi,run,i,g,none,input,1000 = 0: output 0\n\nharts 1\nstop hart 0 exit 247\nsteps 46\nwalk 0 13\ntrail 0 4000000c 40000050 40000054 40000058 4000005c 40000070 40000080 40000094 40000070 40000080 40000094 40000098 40000048\n;\
    rvcfi,compare,around.o,main,c64,i,m,input,1000 = 0: same 3\n;\
    rvcfi,harden,split,around.o,main,c64,i,g,m = 0: rewritten code 160 data 0 classes 0 sites 0\n;\
    rvcfi,verify,i,g = 0: accepted\n;\
    rvcfi,run,i,g,none,input,1000 = 0: output 0\n\nstop exit 247\nsteps 42\nwalk 13\ntrail 4000000c 40000040 40000044 40000048 4000004c 40000060 40000070 40000084 40000060 40000070 40000084 40000088 40000038\n;\
    rvcfi,compare,around.o,main,c64,i,m,input,1000 = 0: same 3\n;\
    rvcfi,harden,harts-split,around.o,main,c64,i,g,m = 0: rewritten code 176 data 0 classes 0 sites 0\n;\
    rvcfi,verify,i,g = 0: accepted\n;\
    rvcfi,run,i,g,none,input,1000 = 0: output 0\n\nharts 1\nstop hart 0 exit 247\nsteps 46\nwalk 0 13\ntrail 0 4000000c 40000050 40000054 40000058 4000005c 40000070 40000080 40000094 40000070 40000080 40000094 40000098 40000048\n;\
    rvcfi,compare,around.o,main,c64,i,m,input,1000 = 0: same 3\n;\
    rvcfi,harden,plain,around.o,main,c63,i,g,m = 0: rewritten code 160 data 0 classes 0 sites 0\n;\
    rvcfi,verify,i,g = 0: accepted\n;\
    rvcfi,run,i,g,none,input,1000 = 10: output 0\n\nstop handler __cfi_bad_target\nsteps 22\nwalk 7\ntrail 4000000c 40000040 40000044 40000048 4000004c 40000060 40000000\n;\
    rvcfi,compare,around.o,main,c63,i,m,input,1000 = 13: untame call 1 20\n;\
    rvcfi,harden,harts,around.o,main,c63,i,g,m = 0: rewritten code 176 data 0 classes 0 sites 0\n;\
    rvcfi,verify,i,g = 0: accepted\n;\
    rvcfi,run,i,g,none,input,1000 = 10: output 0\n\nharts 1\nstop hart 0 handler __cfi_bad_target\nsteps 26\nwalk 0 7\ntrail 0 4000000c 40000050 40000054 40000058 4000005c 40000070 40000000\n;\
    rvcfi,compare,around.o,main,c63,i,m,input,1000 = 13: untame call 1 20\n;\
    rvcfi,harden,split,around.o,main,c63,i,g,m = 0: rewritten code 160 data 0 classes 0 sites 0\n;\
    rvcfi,verify,i,g = 0: accepted\n;\
    rvcfi,run,i,g,none,input,1000 = 10: output 0\n\nstop handler __cfi_bad_target\nsteps 22\nwalk 7\ntrail 4000000c 40000040 40000044 40000048 4000004c 40000060 40000000\n;\
    rvcfi,compare,around.o,main,c63,i,m,input,1000 = 13: untame call 1 20\n;\
    rvcfi,harden,harts-split,around.o,main,c63,i,g,m = 0: rewritten code 176 data 0 classes 0 sites 0\n;\
    rvcfi,verify,i,g = 0: accepted\n;\
    rvcfi,run,i,g,none,input,1000 = 10: output 0\n\nharts 1\nstop hart 0 handler __cfi_bad_target\nsteps 26\nwalk 0 7\ntrail 0 4000000c 40000050 40000054 40000058 4000005c 40000070 40000000\n;\
    rvcfi,compare,around.o,main,c63,i,m,input,1000 = 13: untame call 1 20\n;\
    rvcfi,harden,plain,product.o,main,c63,i,g,m = 0: rewritten code 116 data 0 classes 0 sites 0\n;\
    rvcfi,verify,i,g = 0: accepted\n;\
    rvcfi,run,i,g,none,input,1000 = 0: output 0\n\nstop exit 0\nsteps 22\nwalk 7\ntrail 4000000c 40000040 40000044 40000048 4000004c 4000005c 40000038\n;\
    rvcfi,compare,product.o,main,c63,i,m,input,1000 = 0: same 2\n;\
    rvcfi,harden,harts,product.o,main,c63,i,g,m = 0: rewritten code 132 data 0 classes 0 sites 0\n;\
    rvcfi,verify,i,g = 0: accepted\n;\
    rvcfi,run,i,g,none,input,1000 = 0: output 0\n\nharts 1\nstop hart 0 exit 0\nsteps 26\nwalk 0 7\ntrail 0 4000000c 40000050 40000054 40000058 4000005c 4000006c 40000048\n;\
    rvcfi,compare,product.o,main,c63,i,m,input,1000 = 0: same 2\n;\
    rvcfi,harden,split,product.o,main,c63,i,g,m = 0: rewritten code 116 data 0 classes 0 sites 0\n;\
    rvcfi,verify,i,g = 0: accepted\n;\
    rvcfi,run,i,g,none,input,1000 = 0: output 0\n\nstop exit 0\nsteps 22\nwalk 7\ntrail 4000000c 40000040 40000044 40000048 4000004c 4000005c 40000038\n;\
    rvcfi,compare,product.o,main,c63,i,m,input,1000 = 0: same 2\n;\
    rvcfi,harden,harts-split,product.o,main,c63,i,g,m = 0: rewritten code 132 data 0 classes 0 sites 0\n;\
    rvcfi,verify,i,g = 0: accepted\n;\
    rvcfi,run,i,g,none,input,1000 = 0: output 0\n\nharts 1\nstop hart 0 exit 0\nsteps 26\nwalk 0 7\ntrail 0 4000000c 40000050 40000054 40000058 4000005c 4000006c 40000048\n;\
    rvcfi,compare,product.o,main,c63,i,m,input,1000 = 0: same 2\n;\
    rvcfi,harden,plain,product.o,main,c64,i,g,m = 0: rewritten code 116 data 0 classes 0 sites 0\n;\
    rvcfi,verify,i,g = 0: accepted\n;\
    rvcfi,run,i,g,none,input,1000 = 10: output 0\n\nstop handler __cfi_bad_target\nsteps 17\nwalk 6\ntrail 4000000c 40000040 40000044 40000048 4000004c 40000000\n;\
    rvcfi,compare,product.o,main,c64,i,m,input,1000 = 13: untame call 1 12\n;\
    rvcfi,harden,harts,product.o,main,c64,i,g,m = 0: rewritten code 132 data 0 classes 0 sites 0\n;\
    rvcfi,verify,i,g = 0: accepted\n;\
    rvcfi,run,i,g,none,input,1000 = 10: output 0\n\nharts 1\nstop hart 0 handler __cfi_bad_target\nsteps 21\nwalk 0 6\ntrail 0 4000000c 40000050 40000054 40000058 4000005c 40000000\n;\
    rvcfi,compare,product.o,main,c64,i,m,input,1000 = 13: untame call 1 12\n;\
    rvcfi,harden,split,product.o,main,c64,i,g,m = 0: rewritten code 116 data 0 classes 0 sites 0\n;\
    rvcfi,verify,i,g = 0: accepted\n;\
    rvcfi,run,i,g,none,input,1000 = 10: output 0\n\nstop handler __cfi_bad_target\nsteps 17\nwalk 6\ntrail 4000000c 40000040 40000044 40000048 4000004c 40000000\n;\
    rvcfi,compare,product.o,main,c64,i,m,input,1000 = 13: untame call 1 12\n;\
    rvcfi,harden,harts-split,product.o,main,c64,i,g,m = 0: rewritten code 132 data 0 classes 0 sites 0\n;\
    rvcfi,verify,i,g = 0: accepted\n;\
    rvcfi,run,i,g,none,input,1000 = 10: output 0\n\nharts 1\nstop hart 0 handler __cfi_bad_target\nsteps 21\nwalk 0 6\ntrail 0 4000000c 40000050 40000054 40000058 4000005c 40000000\n;\
    rvcfi,compare,product.o,main,c64,i,m,input,1000 = 13: untame call 1 12\n;\
    rvcfi,harden,plain,echo.o,main,c63_64,i,g,m = 0: rewritten code 172 data 0 classes 0 sites 0\n;\
    rvcfi,verify,i,g = 0: accepted\n;\
    rvcfi,run,i,g,none,input,1000 = 0: output 5\nabcde\nstop exit 0\nsteps 75\nwalk 42\ntrail 4000004c 40000050 40000068 4000006c 40000070 40000074 40000078 40000090 40000040 40000044 40000048 4000004c 40000050 40000068 40000094 40000038\n;\
    rvcfi,compare,echo.o,main,c63_64,i,m,input,1000 = 0: same 8\n;\
    rvcfi,harden,harts,echo.o,main,c63_64,i,g,m = 0: rewritten code 188 data 0 classes 0 sites 0\n;\
    rvcfi,verify,i,g = 0: accepted\n;\
    rvcfi,run,i,g,none,input,1000 = 0: output 5\nabcde\nharts 1\nstop hart 0 exit 0\nsteps 79\nwalk 0 42\ntrail 0 4000005c 40000060 40000078 4000007c 40000080 40000084 40000088 400000a0 40000050 40000054 40000058 4000005c 40000060 40000078 400000a4 40000048\n;\
    rvcfi,compare,echo.o,main,c63_64,i,m,input,1000 = 0: same 8\n;\
    rvcfi,harden,split,echo.o,main,c63_64,i,g,m = 0: rewritten code 172 data 0 classes 0 sites 0\n;\
    rvcfi,verify,i,g = 0: accepted\n;\
    rvcfi,run,i,g,none,input,1000 = 0: output 5\nabcde\nstop exit 0\nsteps 75\nwalk 42\ntrail 4000004c 40000050 40000068 4000006c 40000070 40000074 40000078 40000090 40000040 40000044 40000048 4000004c 40000050 40000068 40000094 40000038\n;\
    rvcfi,compare,echo.o,main,c63_64,i,m,input,1000 = 0: same 8\n;\
    rvcfi,harden,harts-split,echo.o,main,c63_64,i,g,m = 0: rewritten code 188 data 0 classes 0 sites 0\n;\
    rvcfi,verify,i,g = 0: accepted\n;\
    rvcfi,run,i,g,none,input,1000 = 0: output 5\nabcde\nharts 1\nstop hart 0 exit 0\nsteps 79\nwalk 0 42\ntrail 0 4000005c 40000060 40000078 4000007c 40000080 40000084 40000088 400000a0 40000050 40000054 40000058 4000005c 40000060 40000078 400000a4 40000048\n;\
    rvcfi,compare,echo.o,main,c63_64,i,m,input,1000 = 0: same 8\n;\
    rvcfi,harden,plain,echo.o,main,c63,i,g,m = 0: rewritten code 156 data 0 classes 0 sites 0\n;\
    rvcfi,verify,i,g = 0: accepted\n;\
    rvcfi,run,i,g,none,input,1000 = 10: output 0\n\nstop handler __cfi_bad_target\nsteps 25\nwalk 12\ntrail 4000000c 40000040 40000044 40000048 4000004c 40000050 40000060 40000064 40000068 4000006c 40000070 40000000\n;\
    rvcfi,compare,echo.o,main,c63,i,m,input,1000 = 13: untame call 1 36\n;\
    rvcfi,harden,harts,echo.o,main,c63,i,g,m = 0: rewritten code 172 data 0 classes 0 sites 0\n;\
    rvcfi,verify,i,g = 0: accepted\n;\
    rvcfi,run,i,g,none,input,1000 = 10: output 0\n\nharts 1\nstop hart 0 handler __cfi_bad_target\nsteps 29\nwalk 0 12\ntrail 0 4000000c 40000050 40000054 40000058 4000005c 40000060 40000070 40000074 40000078 4000007c 40000080 40000000\n;\
    rvcfi,compare,echo.o,main,c63,i,m,input,1000 = 13: untame call 1 36\n;\
    rvcfi,harden,split,echo.o,main,c63,i,g,m = 0: rewritten code 156 data 0 classes 0 sites 0\n;\
    rvcfi,verify,i,g = 0: accepted\n;\
    rvcfi,run,i,g,none,input,1000 = 10: output 0\n\nstop handler __cfi_bad_target\nsteps 25\nwalk 12\ntrail 4000000c 40000040 40000044 40000048 4000004c 40000050 40000060 40000064 40000068 4000006c 40000070 40000000\n;\
    rvcfi,compare,echo.o,main,c63,i,m,input,1000 = 13: untame call 1 36\n;\
    rvcfi,harden,harts-split,echo.o,main,c63,i,g,m = 0: rewritten code 172 data 0 classes 0 sites 0\n;\
    rvcfi,verify,i,g = 0: accepted\n;\
    rvcfi,run,i,g,none,input,1000 = 10: output 0\n\nharts 1\nstop hart 0 handler __cfi_bad_target\nsteps 29\nwalk 0 12\ntrail 0 4000000c 40000050 40000054 40000058 4000005c 40000060 40000070 40000074 40000078 4000007c 40000080 40000000\n;\
    rvcfi,compare,echo.o,main,c63,i,m,input,1000 = 13: untame call 1 36\n;\
    rvcfi,harden,plain,echo.o,main,c64,i,g,m = 0: rewritten code 156 data 0 classes 0 sites 0\n;\
    rvcfi,verify,i,g = 0: accepted\n;\
    rvcfi,run,i,g,none,input,1000 = 10: output 0\n\nstop handler __cfi_bad_target\nsteps 18\nwalk 7\ntrail 4000000c 40000040 40000044 40000048 4000004c 40000050 40000000\n;\
    rvcfi,compare,echo.o,main,c64,i,m,input,1000 = 13: untame call 1 16\n;\
    rvcfi,harden,harts,echo.o,main,c64,i,g,m = 0: rewritten code 172 data 0 classes 0 sites 0\n;\
    rvcfi,verify,i,g = 0: accepted\n;\
    rvcfi,run,i,g,none,input,1000 = 10: output 0\n\nharts 1\nstop hart 0 handler __cfi_bad_target\nsteps 22\nwalk 0 7\ntrail 0 4000000c 40000050 40000054 40000058 4000005c 40000060 40000000\n;\
    rvcfi,compare,echo.o,main,c64,i,m,input,1000 = 13: untame call 1 16\n;\
    rvcfi,harden,split,echo.o,main,c64,i,g,m = 0: rewritten code 156 data 0 classes 0 sites 0\n;\
    rvcfi,verify,i,g = 0: accepted\n;\
    rvcfi,run,i,g,none,input,1000 = 10: output 0\n\nstop handler __cfi_bad_target\nsteps 18\nwalk 7\ntrail 4000000c 40000040 40000044 40000048 4000004c 40000050 40000000\n;\
    rvcfi,compare,echo.o,main,c64,i,m,input,1000 = 13: untame call 1 16\n;\
    rvcfi,harden,harts-split,echo.o,main,c64,i,g,m = 0: rewritten code 172 data 0 classes 0 sites 0\n;\
    rvcfi,verify,i,g = 0: accepted\n;\
    rvcfi,run,i,g,none,input,1000 = 10: output 0\n\nharts 1\nstop hart 0 handler __cfi_bad_target\nsteps 22\nwalk 0 7\ntrail 0 4000000c 40000050 40000054 40000058 4000005c 40000060 40000000\n;\
    rvcfi,compare,echo.o,main,c64,i,m,input,1000 = 13: untame call 1 16\n;\
    rvcfi,harden,plain,stored.o,main,c64,i,g,m = 0: rewritten code 172 data 0 classes 0 sites 0\n;\
    rvcfi,verify,i,g = 0: accepted\n;\
    rvcfi,run,i,g,none,input,1000 = 0: output 3\naaa\nstop exit 4\nsteps 36\nwalk 12\ntrail 4000000c 40000040 40000044 40000048 40000060 40000064 40000068 4000006c 4000007c 40000090 40000094 40000038\n;\
    rvcfi,compare,stored.o,main,c64,i,m,input,1000 = 0: same 2\n;\
    rvcfi,harden,harts,stored.o,main,c64,i,g,m = 0: rewritten code 188 data 0 classes 0 sites 0\n;\
    rvcfi,verify,i,g = 0: accepted\n;\
    rvcfi,run,i,g,none,input,1000 = 0: output 3\naaa\nharts 1\nstop hart 0 exit 4\nsteps 40\nwalk 0 12\ntrail 0 4000000c 40000050 40000054 40000058 40000070 40000074 40000078 4000007c 4000008c 400000a0 400000a4 40000048\n;\
    rvcfi,compare,stored.o,main,c64,i,m,input,1000 = 0: same 2\n;\
    rvcfi,harden,split,stored.o,main,c64,i,g,m = 0: rewritten code 172 data 0 classes 0 sites 0\n;\
    rvcfi,verify,i,g = 0: accepted\n;\
    rvcfi,run,i,g,none,input,1000 = 0: output 3\naaa\nstop exit 4\nsteps 36\nwalk 12\ntrail 4000000c 40000040 40000044 40000048 40000060 40000064 40000068 4000006c 4000007c 40000090 40000094 40000038\n;\
    rvcfi,compare,stored.o,main,c64,i,m,input,1000 = 0: same 2\n;\
    rvcfi,harden,harts-split,stored.o,main,c64,i,g,m = 0: rewritten code 188 data 0 classes 0 sites 0\n;\
    rvcfi,verify,i,g = 0: accepted\n;\
    rvcfi,run,i,g,none,input,1000 = 0: output 3\naaa\nharts 1\nstop hart 0 exit 4\nsteps 40\nwalk 0 12\ntrail 0 4000000c 40000050 40000054 40000058 40000070 40000074 40000078 4000007c 4000008c 400000a0 400000a4 40000048\n;\
    rvcfi,compare,stored.o,main,c64,i,m,input,1000 = 0: same 2\n;\
    rvcfi,harden,plain,stored.o,main,c2047,i,g,m = 0: rewritten code 172 data 0 classes 0 sites 0\n;\
    rvcfi,verify,i,g = 0: accepted\n;\
    rvcfi,run,i,g,none,input,1000 = 10: output 0\n\nstop handler __cfi_bad_target\nsteps 25\nwalk 9\ntrail 4000000c 40000040 40000044 40000048 40000060 40000064 40000068 4000006c 40000000\n;\
    rvcfi,compare,stored.o,main,c2047,i,m,input,1000 = 13: untame call 1 32\n;\
    rvcfi,harden,harts,stored.o,main,c2047,i,g,m = 0: rewritten code 188 data 0 classes 0 sites 0\n;\
    rvcfi,verify,i,g = 0: accepted\n;\
    rvcfi,run,i,g,none,input,1000 = 10: output 0\n\nharts 1\nstop hart 0 handler __cfi_bad_target\nsteps 29\nwalk 0 9\ntrail 0 4000000c 40000050 40000054 40000058 40000070 40000074 40000078 4000007c 40000000\n;\
    rvcfi,compare,stored.o,main,c2047,i,m,input,1000 = 13: untame call 1 32\n;\
    rvcfi,harden,split,stored.o,main,c2047,i,g,m = 0: rewritten code 172 data 0 classes 0 sites 0\n;\
    rvcfi,verify,i,g = 0: accepted\n;\
    rvcfi,run,i,g,none,input,1000 = 10: output 0\n\nstop handler __cfi_bad_target\nsteps 25\nwalk 9\ntrail 4000000c 40000040 40000044 40000048 40000060 40000064 40000068 4000006c 40000000\n;\
    rvcfi,compare,stored.o,main,c2047,i,m,input,1000 = 13: untame call 1 32\n;\
    rvcfi,harden,harts-split,stored.o,main,c2047,i,g,m = 0: rewritten code 188 data 0 classes 0 sites 0\n;\
    rvcfi,verify,i,g = 0: accepted\n;\
    rvcfi,run,i,g,none,input,1000 = 10: output 0\n\nharts 1\nstop hart 0 handler __cfi_bad_target\nsteps 29\nwalk 0 9\ntrail 0 4000000c 40000050 40000054 40000058 40000070 40000074 40000078 4000007c 40000000\n;\
    rvcfi,compare,stored.o,main,c2047,i,m,input,1000 = 13: untame call 1 32\n;\
    rvcfi,link,plain,main,c64,i,g,m,main.o,writes.o = 0: rewritten code 192 data 0 classes 0 sites 0\n;\
    rvcfi,verify,i,g = 0: accepted\n;\
    rvcfi,run,i,g,none,input,1000 = 0: output 0\n\nstop exit 247\nsteps 38\nwalk 11\ntrail 4000000c 40000040 40000044 40000054 40000094 40000098 400000a8 40000074 40000078 4000007c 40000038\n;\
    rvcfi,compare-link,main,c64,i,m,input,1000,main.o,writes.o = 0: same 2\n;\
    rvcfi,link,harts,main,c64,i,g,m,main.o,writes.o = 0: rewritten code 208 data 0 classes 0 sites 0\n;\
    rvcfi,verify,i,g = 0: accepted\n;\
    rvcfi,run,i,g,none,input,1000 = 0: output 0\n\nharts 1\nstop hart 0 exit 247\nsteps 42\nwalk 0 11\ntrail 0 4000000c 40000050 40000054 40000064 400000a4 400000a8 400000b8 40000084 40000088 4000008c 40000048\n;\
    rvcfi,compare-link,main,c64,i,m,input,1000,main.o,writes.o = 0: same 2\n;\
    rvcfi,link,split,main,c64,i,g,m,main.o,writes.o = 0: rewritten code 192 data 0 classes 0 sites 0\n;\
    rvcfi,verify,i,g = 0: accepted\n;\
    rvcfi,run,i,g,none,input,1000 = 0: output 0\n\nstop exit 247\nsteps 38\nwalk 11\ntrail 4000000c 40000040 40000044 40000054 40000094 40000098 400000a8 40000074 40000078 4000007c 40000038\n;\
    rvcfi,compare-link,main,c64,i,m,input,1000,main.o,writes.o = 0: same 2\n;\
    rvcfi,link,harts-split,main,c64,i,g,m,main.o,writes.o = 0: rewritten code 208 data 0 classes 0 sites 0\n;\
    rvcfi,verify,i,g = 0: accepted\n;\
    rvcfi,run,i,g,none,input,1000 = 0: output 0\n\nharts 1\nstop hart 0 exit 247\nsteps 42\nwalk 0 11\ntrail 0 4000000c 40000050 40000054 40000064 400000a4 400000a8 400000b8 40000084 40000088 4000008c 40000048\n;\
    rvcfi,compare-link,main,c64,i,m,input,1000,main.o,writes.o = 0: same 2\n;\
    rvcfi,link,plain,main,most,i,g,m,writes.o,main.o = 0: rewritten code 248 data 0 classes 0 sites 0\n;\
    rvcfi,verify,i,g = 0: accepted\n;\
    rvcfi,run,i,g,none,input,1000 = 0: output 0\n\nstop exit 247\nsteps 46\nwalk 11\ntrail 4000000c 400000a4 400000a8 400000b8 40000040 40000044 4000008c 400000d8 400000dc 400000e0 40000038\n;\
    rvcfi,compare-link,main,most,i,m,input,1000,writes.o,main.o = 0: same 2\n;\
    rvcfi,link,harts,main,most,i,g,m,writes.o,main.o = 0: rewritten code 264 data 0 classes 0 sites 0\n;\
    rvcfi,verify,i,g = 0: accepted\n;\
    rvcfi,run,i,g,none,input,1000 = 0: output 0\n\nharts 1\nstop hart 0 exit 247\nsteps 50\nwalk 0 11\ntrail 0 4000000c 400000b4 400000b8 400000c8 40000050 40000054 4000009c 400000e8 400000ec 400000f0 40000048\n;\
    rvcfi,compare-link,main,most,i,m,input,1000,writes.o,main.o = 0: same 2\n;\
    rvcfi,link,split,main,most,i,g,m,writes.o,main.o = 0: rewritten code 248 data 0 classes 0 sites 0\n;\
    rvcfi,verify,i,g = 0: accepted\n;\
    rvcfi,run,i,g,none,input,1000 = 0: output 0\n\nstop exit 247\nsteps 46\nwalk 11\ntrail 4000000c 400000a4 400000a8 400000b8 40000040 40000044 4000008c 400000d8 400000dc 400000e0 40000038\n;\
    rvcfi,compare-link,main,most,i,m,input,1000,writes.o,main.o = 0: same 2\n;\
    rvcfi,link,harts-split,main,most,i,g,m,writes.o,main.o = 0: rewritten code 264 data 0 classes 0 sites 0\n;\
    rvcfi,verify,i,g = 0: accepted\n;\
    rvcfi,run,i,g,none,input,1000 = 0: output 0\n\nharts 1\nstop hart 0 exit 247\nsteps 50\nwalk 0 11\ntrail 0 4000000c 400000b4 400000b8 400000c8 40000050 40000054 4000009c 400000e8 400000ec 400000f0 40000048\n;\
    rvcfi,compare-link,main,most,i,m,input,1000,writes.o,main.o = 0: same 2\n;\
    rvcfi,link,plain,main,c64,i,g,m,main.o,exits.o = 0: rewritten code 176 data 0 classes 0 sites 0\n;\
    rvcfi,verify,i,g = 0: accepted\n;\
    rvcfi,run,i,g,none,input,1000 = 10: output 0\n\nstop handler __cfi_bad_target\nsteps 28\nwalk 8\ntrail 4000000c 40000040 40000044 40000054 40000094 40000098 4000009c 40000000\n;\
    rvcfi,compare-link,main,c64,i,m,input,1000,main.o,exits.o = 13: untame call 6 8\n;\
    rvcfi,link,harts,main,c64,i,g,m,main.o,exits.o = 0: rewritten code 192 data 0 classes 0 sites 0\n;\
    rvcfi,verify,i,g = 0: accepted\n;\
    rvcfi,run,i,g,none,input,1000 = 10: output 0\n\nharts 1\nstop hart 0 handler __cfi_bad_target\nsteps 32\nwalk 0 8\ntrail 0 4000000c 40000050 40000054 40000064 400000a4 400000a8 400000ac 40000000\n;\
    rvcfi,compare-link,main,c64,i,m,input,1000,main.o,exits.o = 13: untame call 6 8\n;\
    rvcfi,link,split,main,c64,i,g,m,main.o,exits.o = 0: rewritten code 176 data 0 classes 0 sites 0\n;\
    rvcfi,verify,i,g = 0: accepted\n;\
    rvcfi,run,i,g,none,input,1000 = 10: output 0\n\nstop handler __cfi_bad_target\nsteps 28\nwalk 8\ntrail 4000000c 40000040 40000044 40000054 40000094 40000098 4000009c 40000000\n;\
    rvcfi,compare-link,main,c64,i,m,input,1000,main.o,exits.o = 13: untame call 6 8\n;\
    rvcfi,link,harts-split,main,c64,i,g,m,main.o,exits.o = 0: rewritten code 192 data 0 classes 0 sites 0\n;\
    rvcfi,verify,i,g = 0: accepted\n;\
    rvcfi,run,i,g,none,input,1000 = 10: output 0\n\nharts 1\nstop hart 0 handler __cfi_bad_target\nsteps 32\nwalk 0 8\ntrail 0 4000000c 40000050 40000054 40000064 400000a4 400000a8 400000ac 40000000\n;\
    rvcfi,compare-link,main,c64,i,m,input,1000,main.o,exits.o = 13: untame call 6 8\n;\
    rvcfi,link,plain,main,c93,i,g,m,main.o,exits.o = 0: rewritten code 176 data 0 classes 0 sites 0\n;\
    rvcfi,verify,i,g = 0: accepted\n;\
    rvcfi,run,i,g,none,input,1000 = 0: output 0\n\nstop exit 5\nsteps 27\nwalk 7\ntrail 4000000c 40000040 40000044 40000054 40000094 40000098 4000009c\n;\
    rvcfi,compare-link,main,c93,i,m,input,1000,main.o,exits.o = 0: same 1\n;\
    rvcfi,link,harts,main,c93,i,g,m,main.o,exits.o = 0: rewritten code 192 data 0 classes 0 sites 0\n;\
    rvcfi,verify,i,g = 0: accepted\n;\
    rvcfi,run,i,g,none,input,1000 = 0: output 0\n\nharts 1\nstop hart 0 exit 5\nsteps 31\nwalk 0 7\ntrail 0 4000000c 40000050 40000054 40000064 400000a4 400000a8 400000ac\n;\
    rvcfi,compare-link,main,c93,i,m,input,1000,main.o,exits.o = 0: same 1\n;\
    rvcfi,link,split,main,c93,i,g,m,main.o,exits.o = 0: rewritten code 176 data 0 classes 0 sites 0\n;\
    rvcfi,verify,i,g = 0: accepted\n;\
    rvcfi,run,i,g,none,input,1000 = 0: output 0\n\nstop exit 5\nsteps 27\nwalk 7\ntrail 4000000c 40000040 40000044 40000054 40000094 40000098 4000009c\n;\
    rvcfi,compare-link,main,c93,i,m,input,1000,main.o,exits.o = 0: same 1\n;\
    rvcfi,link,harts-split,main,c93,i,g,m,main.o,exits.o = 0: rewritten code 192 data 0 classes 0 sites 0\n;\
    rvcfi,verify,i,g = 0: accepted\n;\
    rvcfi,run,i,g,none,input,1000 = 0: output 0\n\nharts 1\nstop hart 0 exit 5\nsteps 31\nwalk 0 7\ntrail 0 4000000c 40000050 40000054 40000064 400000a4 400000a8 400000ac\n;\
    rvcfi,compare-link,main,c93,i,m,input,1000,main.o,exits.o = 0: same 1\n";

/// Adds the objects and the texts.
fn add_all(alloc: Global, files: &mut MemFiles) -> Result<(), NoMemory> {
    for object in &OBJECTS {
        add_object(alloc, files, object.0, &object.1)?;
    }
    for object in &JOINED {
        files.insert(object.0, &decoded(alloc, object.1)?)?;
    }
    add_texts(files, &TEXTS)
}

#[test]
fn lists(rt: HostRuntime) {
    let mut files = MemFiles::new(rt.alloc(), Vec::new(rt.alloc()));
    assert!(rt; add_all(rt.alloc(), &mut files).is_ok());
    assert_eq!(rt; first_wrong(rt.alloc(), &mut files, LINES, 428), None);
}
