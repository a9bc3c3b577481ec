//! Runs of whole programs, and the text that is put of each. The counts of steps and the walks are worked
//! out by hand.

use crate::calls::check;

/// Command lines of runs, with the status and the text of each, in the form of `sample_calls::first_wrong`.
const RUNS: &[u8] = b"\
    rvcfi,run,a.img,a.graph,none,none,100 = 0: output 0\n\nstop exit 7\nsteps 13\nwalk 4\ntrail 4000000c 40000040 40000044 40000048\n;\
    rvcfi,run,a.img,a.graph,none,none,0 = 12: output 0\n\nstop limit\nsteps 0\nwalk 0\ntrail\n;\
    rvcfi,run,a.img,a.graph,none,none,12 = 12: output 0\n\nstop limit\nsteps 12\nwalk 3\ntrail 4000000c 40000040 40000044\n;\
    rvcfi,run,a.img,a.graph,none,none,0000000013 = 0: output 0\n\nstop exit 7\nsteps 13\nwalk 4\ntrail 4000000c 40000040 40000044 40000048\n;\
    rvcfi,run,b.img,b.graph,none,none,1000000 = 0: output 0\n\nstop exit 7\nsteps 17\nwalk 4\ntrail 4000000c 40000040 40000044 40000038\n;\
    rvcfi,run,h.img,h.graph,none,none,1000000000 = 0: output 3\nhi\n\nstop exit 0\nsteps 41\nwalk 16\ntrail 4000000c 40000040 40000044 40000054 40000094 40000098 4000009c 400000a0 400000a4 400000a8 400000ac 40000074 40000078 4000007c 40000080 40000038\n;\
    rvcfi,run,p.img,p.graph,none,none,100 = 0: output 0\n\nstop exit 1\nsteps 48\nwalk 13\ntrail 4000000c 40000040 40000044 40000054 40000058 4000005c 400000c8 400000cc 400000d0 400000ac 400000b0 400000b4 40000038\n;\
    rvcfi,run,p.img,p.graph,saved,none,100 = 10: output 0\n\nstop handler __cfi_bad_return\nsteps 47\nwalk 13\ntrail 4000000c 40000040 40000044 40000054 40000058 4000005c 400000c8 400000cc 400000d0 400000ac 400000b0 400000b4 40000004\n;\
    rvcfi,run,p.img,p.graph,nowhere,none,100 = 10: output 0\n\nstop handler __cfi_bad_target\nsteps 29\nwalk 7\ntrail 4000000c 40000040 40000044 40000054 40000058 4000005c 40000000\n;\
    rvcfi,run,p.img,p.graph,other,none,100 = 0: output 0\n\nstop exit 2\nsteps 48\nwalk 13\ntrail 4000000c 40000040 40000044 40000054 40000058 4000005c 400000e4 400000e8 400000ec 400000ac 400000b0 400000b4 40000038\n;\
    rvcfi,run,p.img,p.graph,between,none,100 = 0: output 0\n\nstop exit 1\nsteps 48\nwalk 13\ntrail 4000000c 40000040 40000044 40000054 40000058 4000005c 400000c8 400000cc 400000d0 400000ac 400000b0 400000b4 40000038\n;\
    rvcfi,run,p.img,p.graph,odd,none,100 = 0: output 0\n\nstop exit 1\nsteps 48\nwalk 13\ntrail 4000000c 40000040 40000044 40000054 40000058 4000005c 400000c8 400000cc 400000d0 400000ac 400000b0 400000b4 40000038\n;\
    rvcfi,run,status.img,status.graph,none,none,100 = 0: output 0\n\nstop exit 0\nsteps 14\nwalk 5\ntrail 4000000c 40000040 40000044 40000048 4000004c\n;\
    rvcfi,run,status.img,status.graph,five,none,100 = 0: output 0\n\nstop exit 5\nsteps 14\nwalk 5\ntrail 4000000c 40000040 40000044 40000048 4000004c\n;\
    rvcfi,run,status.img,status.graph,late,none,100 = 0: output 0\n\nstop exit 0\nsteps 14\nwalk 5\ntrail 4000000c 40000040 40000044 40000048 4000004c\n;\
    rvcfi,run,status.img,status.graph,twice,none,100 = 0: output 0\n\nstop exit 6\nsteps 14\nwalk 5\ntrail 4000000c 40000040 40000044 40000048 4000004c\n;\
    rvcfi,run,status.img,status.graph,./none,none,100 = 0: output 0\n\nstop exit 9\nsteps 14\nwalk 5\ntrail 4000000c 40000040 40000044 40000048 4000004c\n;\
    rvcfi,run,loop.img,loop.graph,none,none,100 = 0: output 0\n\nstop exit 7\nsteps 37\nwalk 21\ntrail 40000048 40000044 40000048 40000044 40000048 40000044 40000048 40000044 40000048 40000044 40000048 40000044 40000048 40000050 40000054 40000058\n;\
    rvcfi,run,deep.img,deep.graph,none,none,1000000 = 10: output 0\n\nstop handler __cfi_deep\nsteps 114684\nwalk 40960\ntrail 4000004c 40000054 40000058 40000068 4000006c 4000004c 40000054 40000058 40000068 4000006c 4000004c 40000054 40000058 40000068 4000006c 40000008\n;\
    rvcfi,run,break.img,break.graph,none,none,100 = 11: output 0\n\nstop break 40000040\nsteps 11\nwalk 2\ntrail 4000000c 40000040\n;\
    rvcfi,run,load.img,load.graph,none,none,100 = 11: output 0\n\nstop load 40000044 0000000020000000\nsteps 12\nwalk 3\ntrail 4000000c 40000040 40000044\n;\
    rvcfi,run,edge.img,edge.graph,none,none,100 = 0: output 0\n\nstop exit 0\nsteps 20\nwalk 4\ntrail 4000000c 40000040 40000050 40000038\n;\
    rvcfi,run,aimed.img,aimed.graph,none,none,100 = 0: output 0\n\nstop exit 0\nsteps 21\nwalk 5\ntrail 4000000c 40000040 40000044 40000054 40000038\n;\
    rvcfi,run,relabelled.img,relabelled.graph,none,none,100 = 0: output 0\n\nstop exit 1\nsteps 48\nwalk 13\ntrail 4000000c 40000040 40000044 40000054 40000058 4000005c 400000c8 400000cc 400000d0 400000ac 400000b0 400000b4 40000038\n;\
    rvcfi,run,nowhere.img,nowhere.graph,none,none,100 = 10: output 0\n\nstop handler __cfi_bad_target\nsteps 18\nwalk 3\ntrail 4000000c 40000040 40000000\n;\
    rvcfi,run,narrow.img,narrow.graph,none,none,100 = 0: output 0\n\nstop exit 1\nsteps 48\nwalk 13\ntrail 4000000c 40000040 40000044 40000054 40000058 4000005c 400000c8 400000cc 400000d0 400000ac 400000b0 400000b4 40000038\n;\
    rvcfi,run,narrow.img,narrow.graph,other,none,100 = 10: output 0\n\nstop handler __cfi_bad_target\nsteps 29\nwalk 7\ntrail 4000000c 40000040 40000044 40000054 40000058 4000005c 40000000\n;\
    rvcfi,run,echo.img,echo.graph,none,digits,100 = 0: output 10\n0123456789\nstop exit 0\nsteps 54\nwalk 40\ntrail 4000004c 40000050 40000054 40000058 40000060 40000064 40000068 4000006c 40000044 40000048 4000004c 40000050 40000054 40000058 40000070 40000038\n;\
    rvcfi,run,echo.img,echo.graph,none,none,100 = 0: output 0\n\nstop exit 0\nsteps 24\nwalk 10\ntrail 4000000c 40000040 40000044 40000048 4000004c 40000050 40000054 40000058 40000070 40000038\n;\
    rvcfi,run,class.img,class.graph,none,none,100 = 1: rejected Astray 40000040\n;\
    rvcfi,run,a.img,a.graph,empty,none,100 = 1: refused 25 Script 1 Form\n;\
    rvcfi,run,a.img,b.graph,range,none,100 = 1: refused 25 Script 2 Range\n;\
    rvcfi,run,a.img,b.graph,none,none,100 = 1: rejected Length 80 92\n;\
    rvcfi,run,a.img,empty,range,none,100 = 1: refused 23 Graph 1 Form\n;\
    rvcfi,run,empty,empty,range,none,100 = 1: refused 22 Short 0\n;\
    rvcfi,run,a.img,a.graph,none,none = 2: usage: rvcfi rewrite|verify|run|compare|demo|harden|link|compare-link\n;\
    rvcfi,run,a.img,a.graph,none,none,1,1 = 2: usage: rvcfi rewrite|verify|run|compare|demo|harden|link|compare-link\n;\
    rvcfi,run,a.img,a.graph,none,none, = 2: usage: rvcfi rewrite|verify|run|compare|demo|harden|link|compare-link\n;\
    rvcfi,run,a.img,a.graph,none,none,x = 2: usage: rvcfi rewrite|verify|run|compare|demo|harden|link|compare-link\n;\
    rvcfi,run,a.img,a.graph,none,none,+1 = 2: usage: rvcfi rewrite|verify|run|compare|demo|harden|link|compare-link\n;\
    rvcfi,run,a.img,a.graph,none,none,1  = 2: usage: rvcfi rewrite|verify|run|compare|demo|harden|link|compare-link\n;\
    rvcfi,run,a.img,a.graph,none,none,1000000001 = 2: usage: rvcfi rewrite|verify|run|compare|demo|harden|link|compare-link\n;\
    rvcfi,run,a.img,a.graph,none,none,00000000007 = 2: usage: rvcfi rewrite|verify|run|compare|demo|harden|link|compare-link\n;\
    rvcfi,run,absent,nothing,gone,lost,1 = 3: read fault absent\n;\
    rvcfi,run,a.img,nothing,gone,lost,1 = 3: read fault nothing\n;\
    rvcfi,run,a.img,a.graph,gone,lost,1 = 3: read fault gone\n;\
    rvcfi,run,empty,empty,none,lost,1 = 3: read fault lost\n;\
    rvcfi,run,a.img,a.graph,none,long,1 = 6: too long long\n;\
    rvcfi,run,a.img,a.graph,long,lost,1 = 6: too long long\n";

#[test]
fn runs(rt: HostRuntime) {
    check(&rt, rt.alloc(), RUNS, 49);
}

/// The same of scripts for several harts, and of an image for several: what a model of the machine, tests/model at the top of the
/// repository, answers. Of refusals the first stands, and each goes before a reject.
const HARTS: &[u8] = b"\
    rvcfi,run,a.img,a.graph,alone,none,100 = 0: output 0\n\nstop exit 7\nsteps 13\nwalk 4\ntrail 4000000c 40000040 40000044 40000048\n;\
    rvcfi,run,a.img,a.graph,two,none,100 = 1: refused 26 Harts 2\n;\
    rvcfi,run,a.img,a.graph,two,none,0 = 1: refused 26 Harts 2\n;\
    rvcfi,run,harts.img,harts.graph,none,none,100 = 0: output 0\n\nharts 1\nstop hart 0 exit 7\nsteps 17\nwalk 0 4\ntrail 0 4000000c 40000050 40000054 40000058\n;\
    rvcfi,run,harts.img,harts.graph,late,none,100 = 0: output 0\n\nharts 1\nstop hart 0 exit 7\nsteps 17\nwalk 0 4\ntrail 0 4000000c 40000050 40000054 40000058\n;\
    rvcfi,run,harts.img,harts.graph,two,none,100 = 0: output 0\n\nharts 2\nstop hart 1 exit 7\nsteps 17\nwalk 0 0\ntrail 0\nwalk 1 4\ntrail 1 4000000c 40000050 40000054 40000058\n;\
    rvcfi,run,harts.img,harts.graph,turns,none,100 = 0: output 0\n\nharts 2\nstop hart 0 exit 7\nsteps 19\nwalk 0 4\ntrail 0 4000000c 40000050 40000054 40000058\nwalk 1 1\ntrail 1 4000000c\n;\
    rvcfi,run,harts.img,harts.graph,two,none,5 = 12: output 0\n\nharts 2\nstop limit\nsteps 5\nwalk 0 0\ntrail 0\nwalk 1 1\ntrail 1 4000000c\n;\
    rvcfi,run,empty,empty,two,none,100 = 1: refused 22 Short 0\n;\
    rvcfi,run,a.img,empty,two,none,100 = 1: refused 23 Graph 1 Form\n;\
    rvcfi,run,a.img,b.graph,nine,none,100 = 1: refused 25 Script 2 Range\n;\
    rvcfi,run,a.img,b.graph,two,none,100 = 1: refused 26 Harts 2\n;\
    rvcfi,run,a.img,b.graph,alone,none,100 = 1: rejected Length 80 92\n;\
    rvcfi,run,harts.img,b.graph,two,none,100 = 1: rejected Length 96 92\n;\
    rvcfi,run,harts.img,harts.graph,nine,none,100 = 1: refused 25 Script 2 Range\n;\
    rvcfi,run,a.img,a.graph,two,lost,100 = 3: read fault lost\n";

#[test]
fn harts(rt: HostRuntime) {
    check(&rt, rt.alloc(), HARTS, 16);
}

/// Runs of stores of each width behind one mask, one of them of x31, while a script changes data between their words. What the first puts
/// out, its status and its steps are qemu's; the others were worked out by hand from it.
const STORES: &[u8] = b"\
    rvcfi,run,groups.img,groups.graph,none,none,100 = 0: output 24\nA.ABABCDABCDEFGH\x20\x00\x01\x00\x00\x00\x00\x00\nstop exit 65\nsteps 38\nwalk 17\ntrail 40000040 40000044 40000048 4000004c 40000070 40000074 4000007c 40000080 40000084 40000088 4000008c 40000090 40000094 40000098 4000009c 40000038\n;\
    rvcfi,run,groups.img,groups.graph,to_shadow,none,100 = 0: output 24\n........................\nstop exit 0\nsteps 38\nwalk 17\ntrail 40000040 40000044 40000048 4000004c 40000070 40000074 4000007c 40000080 40000084 40000088 4000008c 40000090 40000094 40000098 4000009c 40000038\n;\
    rvcfi,run,groups.img,groups.graph,masked,none,100 = 0: output 24\nA-ABABCDABCDEFGH\x20\x00\x01\x00\x00\x00\x00\x00\nstop exit 65\nsteps 38\nwalk 17\ntrail 40000040 40000044 40000048 4000004c 40000070 40000074 4000007c 40000080 40000084 40000088 4000008c 40000090 40000094 40000098 4000009c 40000038\n;\
    rvcfi,run,groups.img,groups.graph,between_stores,none,100 = 0: output 24\n**AB_BCDABCDEFGH_\x00\x01\x00\x00\x00\x00\x00\nstop exit 65\nsteps 38\nwalk 17\ntrail 40000040 40000044 40000048 4000004c 40000070 40000074 4000007c 40000080 40000084 40000088 4000008c 40000090 40000094 40000098 4000009c 40000038\n;\
    rvcfi,run,groups.img,groups.graph,stored,none,100 = 0: output 24\n------------------------\nstop exit 7\nsteps 38\nwalk 17\ntrail 40000040 40000044 40000048 4000004c 40000070 40000074 4000007c 40000080 40000084 40000088 4000008c 40000090 40000094 40000098 4000009c 40000038\n";

#[test]
fn stores(rt: HostRuntime) {
    check(&rt, rt.alloc(), STORES, 5);
}
