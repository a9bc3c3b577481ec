//! Runs of lean images, under scripts that change what their pointers hold.

use crate::pairs::image_with;
use crate::samples::{CALLS_BY_POINTER_DATA, CALLS_LEAF_DATA, JUMPS_BY_POINTER_DATA, Program};
use rv_image::ImageVersion;
use rv_word::NoMemory;
use sample_calls::first_wrong;
use std::alloc::Global;
use std::process::Abort;
use tool_io::MemFiles;

/// A program with the name and version of its image, its data, and its graph's name.
struct Sample(
    Program,
    &'static str,
    ImageVersion,
    &'static [u8],
    &'static str,
);

#[rattlefmt::skip]
static SAMPLES: [Sample; 5] = [
    Sample(Program::Leaf, "leaf.img", ImageVersion::OneHart, b"", "leaf.graph"),
    Sample(Program::Enter, "enter.img", ImageVersion::EightHarts, b"", "enter.graph"),
    Sample(Program::CallsLeaf, "calls_leaf.img", ImageVersion::OneHart, CALLS_LEAF_DATA, "calls_leaf.graph"),
    Sample(Program::CallsByPointer, "calls.img", ImageVersion::OneHart, CALLS_BY_POINTER_DATA, "calls.graph"),
    Sample(Program::JumpsByPointer, "jumps.img", ImageVersion::OneHart, JUMPS_BY_POINTER_DATA, "jumps.graph"),
];

/// A script that changes the first pointer, by its name, and what the pointer holds then.
#[rattlefmt::skip]
static SCRIPTS: [(&str, &[u8]); 9] = [
    ("second", b"rvcfi-script 1\nat 0 00010000 e8000040\nend\n"),
    ("low_bits", b"rvcfi-script 1\nat 0 00010000 b3000040\nend\n"),
    ("enter", b"rvcfi-script 1\nat 0 00010000 bc000040\nend\n"),
    ("gate", b"rvcfi-script 1\nat 0 00010000 b8000040\nend\n"),
    ("main", b"rvcfi-script 1\nat 0 00010000 30000040\nend\n"),
    ("closing", b"rvcfi-script 1\nat 0 00010000 24000040\nend\n"),
    ("called", b"rvcfi-script 1\nat 0 00010000 a4000040\nend\n"),
    ("over", b"rvcfi-script 1\nat 0 00010000 a8000040\nend\n"),
    ("two", b"rvcfi-script 2\nharts 2\nturn 1 100\nend\n"),
];

const RUNS: &[u8] = b"\
    rvcfi,run,leaf.img,leaf.graph,none,none,100 = 0: output 0\n\nstop exit 7\nsteps 9\nwalk 4\ntrail 4000000c 4000002c 40000030 40000034\n;\
    rvcfi,run,enter.img,enter.graph,none,none,100 = 0: output 0\n\nharts 1\nstop hart 0 exit 7\nsteps 17\nwalk 0 5\ntrail 0 4000000c 4000003c 40000050 40000054 40000058\n;\
    rvcfi,run,enter.img,enter.graph,two,none,100 = 0: output 0\n\nharts 2\nstop hart 1 exit 7\nsteps 17\nwalk 0 0\ntrail 0\nwalk 1 5\ntrail 1 4000000c 4000003c 40000050 40000054 40000058\n;\
    rvcfi,run,calls_leaf.img,calls_leaf.graph,none,none,100 = 0: output 3\nhi\n\nstop exit 0\nsteps 30\nwalk 17\ntrail 40000030 40000044 40000048 40000050 40000074 40000078 4000007c 40000080 40000084 40000088 4000008c 40000054 40000058 4000005c 40000060 40000024\n;\
    rvcfi,run,calls.img,calls.graph,none,none,100 = 0: output 0\n\nstop exit 1\nsteps 46\nwalk 15\ntrail 4000000c 40000030 40000044 40000048 40000050 40000054 40000058 400000b8 400000bc 400000d0 400000d4 40000094 40000098 4000009c 40000024\n;\
    rvcfi,run,calls.img,calls.graph,second,none,100 = 0: output 0\n\nstop exit 2\nsteps 46\nwalk 15\ntrail 4000000c 40000030 40000044 40000048 40000050 40000054 40000058 400000f0 400000f4 40000108 4000010c 40000094 40000098 4000009c 40000024\n;\
    rvcfi,run,calls.img,calls.graph,low_bits,none,100 = 0: output 0\n\nstop exit 1\nsteps 46\nwalk 15\ntrail 4000000c 40000030 40000044 40000048 40000050 40000054 40000058 400000b8 400000bc 400000d0 400000d4 40000094 40000098 4000009c 40000024\n;\
    rvcfi,run,calls.img,calls.graph,enter,none,100 = 10: output 0\n\nstop handler __cfi_bad_target\nsteps 27\nwalk 8\ntrail 4000000c 40000030 40000044 40000048 40000050 40000054 40000058 40000000\n;\
    rvcfi,run,calls.img,calls.graph,gate,none,100 = 10: output 0\n\nstop handler __cfi_bad_target\nsteps 27\nwalk 8\ntrail 4000000c 40000030 40000044 40000048 40000050 40000054 40000058 40000000\n;\
    rvcfi,run,calls.img,calls.graph,main,none,100 = 10: output 0\n\nstop handler __cfi_bad_target\nsteps 27\nwalk 8\ntrail 4000000c 40000030 40000044 40000048 40000050 40000054 40000058 40000000\n;\
    rvcfi,run,calls.img,calls.graph,closing,none,100 = 10: output 0\n\nstop handler __cfi_bad_target\nsteps 27\nwalk 8\ntrail 4000000c 40000030 40000044 40000048 40000050 40000054 40000058 40000000\n;\
    rvcfi,run,jumps.img,jumps.graph,none,none,100 = 0: output 0\n\nstop exit 1\nsteps 33\nwalk 9\ntrail 4000000c 40000030 40000044 40000048 4000004c 40000088 4000008c 40000090 40000024\n;\
    rvcfi,run,jumps.img,jumps.graph,called,none,100 = 0: output 0\n\nstop exit 2\nsteps 34\nwalk 10\ntrail 4000000c 40000030 40000044 40000048 4000004c 400000a4 400000a8 400000c4 400000c8 40000024\n;\
    rvcfi,run,jumps.img,jumps.graph,over,none,100 = 10: output 0\n\nstop handler __cfi_bad_target\nsteps 24\nwalk 6\ntrail 4000000c 40000030 40000044 40000048 4000004c 40000000\n";

/// The files of the samples and the scripts.
fn files(alloc: Global) -> Result<MemFiles, NoMemory> {
    let mut files = MemFiles::new(alloc, Vec::new(alloc));
    for sample in &SAMPLES {
        let image = image_with(alloc, sample.2, sample.0.words(), 0, 0x0010_0073, sample.3)?;
        files.insert(sample.1, &image)?;
        files.insert(sample.4, sample.0.graph())?;
    }
    for script in &SCRIPTS {
        files.insert(script.0, script.1)?;
    }
    Ok(files)
}

#[test]
fn runs(rt: HostRuntime) {
    let mut wrong = Some("no memory");
    if let Ok(mut files) = files(rt.alloc()) {
        wrong = first_wrong(rt.alloc(), &mut files, RUNS, 14);
    }
    assert!(rt; wrong.is_none(), "{}", wrong.unwrap_or(""));
}
