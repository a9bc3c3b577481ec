//! Accesses where the region of code ends: loads reach eight bytes past it, which are zero; stores do not.
use crate::memory::read_of;
use rv_image::{Image, ImageVersion};
use rv_mem::{Memory, StoreFault, region};
use rv_word::End;
use sample_programs::numbers::{number, rows};
use std::alloc::{AllocError, Global};

/// Loads, a line each: the code, `full` where it is as long as its region and ends in the bytes a1, b2, c3, d4, and
/// `short` where it has four bytes; the address and the size; what is read, or - where the load faults.
const LOADS: &[u8] = b"\
    full 400ffff9 8 d4c3b2a1000000\n\
    full 400ffffc 1 a1\n\
    full 400ffffc 2 b2a1\n\
    full 400ffffc 4 d4c3b2a1\n\
    full 400ffffc 8 d4c3b2a1\n\
    full 400ffffd 1 b2\n\
    full 400ffffd 2 c3b2\n\
    full 400ffffd 4 d4c3b2\n\
    full 400ffffd 8 d4c3b2\n\
    full 400ffffe 1 c3\n\
    full 400ffffe 2 d4c3\n\
    full 400ffffe 4 d4c3\n\
    full 400ffffe 8 d4c3\n\
    full 400fffff 1 d4\n\
    full 400fffff 2 d4\n\
    full 400fffff 4 d4\n\
    full 400fffff 8 d4\n\
    full 40100000 1 0\n\
    full 40100000 2 0\n\
    full 40100000 4 0\n\
    full 40100000 8 0\n\
    full 40100001 4 0\n\
    full 40100001 8 -\n\
    full 40100003 4 0\n\
    full 40100004 1 0\n\
    full 40100004 2 0\n\
    full 40100004 4 0\n\
    full 40100004 8 -\n\
    full 40100005 2 0\n\
    full 40100005 4 -\n\
    full 40100006 2 0\n\
    full 40100006 4 -\n\
    full 40100007 1 0\n\
    full 40100007 2 -\n\
    full 40100007 4 -\n\
    full 40100007 8 -\n\
    full 40100008 1 -\n\
    full 40100008 2 -\n\
    full 40100008 4 -\n\
    full 40100008 8 -\n\
    short 400ffffc 8 0\n\
    short 400fffff 2 0\n\
    short 40100000 8 0\n\
    short 40100001 8 -\n\
    short 40100007 1 0\n\
    short 40100008 1 -\n\
";

/// Code as long as its region.
fn full_code(alloc: Global) -> Result<Vec<u8>, AllocError> {
    let mut code = vec![in alloc; 0; 0x10_0000]?;
    code[0xf_fffc] = 0xa1;
    code[0xf_fffd] = 0xb2;
    code[0xf_fffe] = 0xc3;
    code[0xf_ffff] = 0xd4;
    Ok(code)
}

/// The memory of an image of a version.
fn memory_of(alloc: Global, version: ImageVersion, code: &[u8]) -> Option<Memory> {
    if code.len() < 4 || code.len() > 0x10_0000 || code.len() % 4 != 0 {
        return None;
    }
    Memory::load(alloc, &Image::of_version(version, code, &[])).ok()
}

/// Whether no store of a size is taken at an address.
fn stores_fault(memory: &mut Memory, addr: u64, n: u64) -> bool {
    let end = match n {
        1 => memory.write(addr, 1, 0x5a),
        2 => memory.write(addr, 2, 0x5a5a),
        4 => memory.write(addr, 4, 0x5a5a_5a5a),
        _ => memory.write(addr, 8, 0x5a5a_5a5a_5a5a_5a5a),
    };
    matches!(end, Err(End::Fault(StoreFault)))
}

/// Whether a row holds: no store is taken there, and the load reads what it says.
fn row_holds(memory: &mut Memory, row: &str) -> bool {
    match (number(row, 1), number(row, 2)) {
        (Some(addr), Some(n)) => stores_fault(memory, addr, n)
            && read_of(memory, addr, n) == number(row, 3),
        _ => false,
    }
}

/// The first row of a code that does not hold in a version.
fn first_wrong(
    alloc: Global,
    version: ImageVersion,
    code: &[u8],
    name: &str,
) -> Option<&'static str> {
    let Some(mut memory) = memory_of(alloc, version, code) else {
        return Some("the memory");
    };
    for row in rows(LOADS) {
        if row.starts_with(name) && !row_holds(&mut memory, row) {
            return Some(row);
        }
    }
    None
}

#[test]
fn loads_reach_eight_bytes_past_code(rt: HostRuntime) {
    let full = full_code(rt.alloc()).expect(&rt, "memory");
    assert!(rt; rows(LOADS).count() == 46);
    for version in [ImageVersion::OneHart, ImageVersion::EightHarts] {
        let wrong = first_wrong(rt.alloc(), version, &full, "full");
        assert_eq!(rt; wrong, None, "{}", version.number());
        let wrong = first_wrong(rt.alloc(), version, &[0x73, 0, 0x10, 0], "short");
        assert_eq!(rt; wrong, None, "{}", version.number());
    }
}

/// The bytes past code are of no region.
#[test]
fn no_region_is_longer(rt: HostRuntime) {
    for addr in 0x4010_0000..0x4010_0010_u64 {
        assert!(rt;
            region(addr, ImageVersion::OneHart).is_none()
                && region(addr, ImageVersion::EightHarts).is_none(),
            "{addr:x}"
        );
    }
}
