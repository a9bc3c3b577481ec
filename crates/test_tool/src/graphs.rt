//! Graphs of version 2 through the tool, under images of either version. The counts of steps and the walks are worked out by hand,
//! and are those of a model of the machine, tests/model at the top of the repository.

use crate::calls::check;

/// Command lines with the status and the text of each, in the form of `sample_calls::first_wrong`. A call to what may only be jumped to, and a jump
/// to what may only be called, go through where one class serves both.
const GRAPHS: &[u8] = b"\
    rvcfi,verify,q.img,q.graph = 0: accepted\n;\
    rvcfi,verify,qs.img,qs.graph = 0: accepted\n;\
    rvcfi,verify,apart.img,apart.graph = 0: accepted\n;\
    rvcfi,verify,joined.img,joined.graph = 0: accepted\n;\
    rvcfi,verify,a.img,a2.graph = 0: accepted\n;\
    rvcfi,verify,harts.img,harts2.graph = 0: accepted\n;\
    rvcfi,verify,q.img,qs.graph = 1: rejected Length 292 308\n;\
    rvcfi,verify,q.img,q1.graph = 1: rejected Unit 40000048\n;\
    rvcfi,verify,joined.img,joined2.graph = 1: rejected Unit 400000bc\n;\
    rvcfi,verify,q.img,fewer.graph = 1: rejected Astray 400000a0\n;\
    rvcfi,verify,q.img,third.graph = 1: rejected Prologue 40000010\n;\
    rvcfi,verify,q.img,mixed.graph = 1: refused 23 Graph 3 Form\n;\
    rvcfi,verify,q.img,sorts.graph = 1: refused 23 Graph 4 Order\n;\
    rvcfi,run,q.img,q1.graph,none,none,100 = 1: rejected Unit 40000048\n;\
    rvcfi,run,q.img,mixed.graph,none,none,100 = 1: refused 23 Graph 3 Form\n;\
    rvcfi,run,q.img,q.graph,none,none,100 = 0: output 0\n\nstop exit 1\nsteps 32\nwalk 9\ntrail 4000000c 40000040 40000044 40000048 4000007c 40000080 40000084 40000088 40000038\n;\
    rvcfi,run,q.img,q.graph,to_g,none,100 = 0: output 0\n\nstop exit 2\nsteps 32\nwalk 9\ntrail 4000000c 40000040 40000044 40000048 4000009c 400000a0 400000a4 400000a8 40000038\n;\
    rvcfi,run,q.img,q.graph,to_second,none,100 = 10: output 0\n\nstop handler __cfi_bad_target\nsteps 24\nwalk 5\ntrail 4000000c 40000040 40000044 40000048 40000000\n;\
    rvcfi,run,q.img,q.graph,to_h,none,100 = 10: output 0\n\nstop handler __cfi_bad_target\nsteps 24\nwalk 5\ntrail 4000000c 40000040 40000044 40000048 40000000\n;\
    rvcfi,run,q.img,q.graph,none,none,23 = 12: output 0\n\nstop limit\nsteps 23\nwalk 4\ntrail 4000000c 40000040 40000044 40000048\n;\
    rvcfi,run,q.img,q.graph,two,none,100 = 1: refused 26 Harts 2\n;\
    rvcfi,run,qs.img,qs.graph,none,none,100 = 0: output 0\n\nharts 1\nstop hart 0 exit 1\nsteps 36\nwalk 0 9\ntrail 0 4000000c 40000050 40000054 40000058 4000008c 40000090 40000094 40000098 40000048\n;\
    rvcfi,run,qs.img,qs.graph,two,none,100 = 0: output 0\n\nharts 2\nstop hart 0 exit 1\nsteps 56\nwalk 0 9\ntrail 0 4000000c 40000050 40000054 40000058 4000008c 40000090 40000094 40000098 40000048\nwalk 1 4\ntrail 1 4000000c 40000050 40000054 40000058\n;\
    rvcfi,run,apart.img,apart.graph,none,none,100 = 0: output 0\n\nstop exit 3\nsteps 65\nwalk 20\ntrail 40000058 4000005c 400000f0 400000f4 400000f8 400000fc 400000ac 400000b0 400000b4 400000b8 400000bc 40000110 40000114 40000118 4000011c 40000038\n;\
    rvcfi,run,apart.img,apart.graph,to_jumped,none,100 = 10: output 0\n\nstop handler __cfi_bad_target\nsteps 29\nwalk 7\ntrail 4000000c 40000040 40000044 40000054 40000058 4000005c 40000000\n;\
    rvcfi,run,apart.img,apart.graph,to_called,none,100 = 10: output 0\n\nstop handler __cfi_bad_target\nsteps 57\nwalk 16\ntrail 4000000c 40000040 40000044 40000054 40000058 4000005c 400000f0 400000f4 400000f8 400000fc 400000ac 400000b0 400000b4 400000b8 400000bc 40000000\n;\
    rvcfi,run,joined.img,joined.graph,none,none,100 = 0: output 0\n\nstop exit 3\nsteps 63\nwalk 18\ntrail 40000044 40000054 40000058 4000005c 400000f0 400000f4 400000f8 400000ac 400000b0 400000b4 400000b8 400000bc 4000010c 40000110 40000114 40000038\n;\
    rvcfi,run,joined.img,joined.graph,joined_jumped,none,100 = 0: output 0\n\nstop exit 4\nsteps 63\nwalk 18\ntrail 40000044 40000054 40000058 4000005c 4000010c 40000110 40000114 400000ac 400000b0 400000b4 400000b8 400000bc 4000010c 40000110 40000114 40000038\n;\
    rvcfi,run,joined.img,joined.graph,to_called,none,100 = 0: output 0\n\nstop exit 2\nsteps 63\nwalk 18\ntrail 40000044 40000054 40000058 4000005c 400000f0 400000f4 400000f8 400000ac 400000b0 400000b4 400000b8 400000bc 400000f0 400000f4 400000f8 40000038\n;\
    rvcfi,run,behind.img,behind.graph,none,none,100 = 0: output 0\n\nstop exit 9\nsteps 21\nwalk 12\ntrail 4000000c 40000040 40000044 40000048 4000004c 40000050 40000054 40000058 4000005c 40000060 40000064 40000068\n";

#[test]
fn graphs(rt: HostRuntime) {
    check(&rt, rt.alloc(), GRAPHS, 30);
}
