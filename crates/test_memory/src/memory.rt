use rv_image::{Image, ImageVersion, Region};
use rv_mem::{Change, LoadFault, Memory, StoreFault, region};
use rv_word::End;
use sample_programs::numbers::{name, number, rows};
use std::alloc::{AllocError, Global};
use std::process::Abort;

type Access = (u64, u8, bool, bool, u64);

/// An access, and what the memory map says of it: its address and size, whether a load and whether
/// a store of it are taken, the number that a load reads after 1122334455667788h was stored.
static ACCESSES: [Access; 34] = [
    (0, 8, true, true, 0x1122_3344_5566_7788),
    (1, 8, true, true, 0x1122_3344_5566_7788),
    (0xffff, 4, true, true, 0x5566_7788),
    (0x1_0003, 2, true, true, 0x7788),
    (0x1000_0ff8, 8, true, true, 0x1122_3344_5566_7788),
    (0x1000_0ff9, 8, false, false, 0),
    (0x1000_0fff, 1, true, true, 0x88),
    (0x1000_0fff, 2, false, false, 0),
    (0x1000_1000, 1, false, false, 0),
    (0x3fff_ffff, 1, false, false, 0),
    (0x3fff_fffc, 8, false, false, 0),
    (0x4000_0000, 8, true, false, 0x0000_00d1_00c0_b0a0),
    (0x4000_0001, 4, true, false, 0xd100_c0b0),
    (0x4000_0004, 2, true, false, 0xd1),
    (0x4000_0003, 1, true, false, 0),
    (0x400f_fff8, 8, true, false, 0),
    (0x400f_fffd, 4, true, false, 0),
    (0x400f_ffff, 1, true, false, 0),
    (0x4010_0000, 1, true, false, 0),
    (0x4010_0000, 8, true, false, 0),
    (0x4010_0001, 8, false, false, 0),
    (0x4010_0007, 1, true, false, 0),
    (0x4010_0008, 1, false, false, 0),
    (0x5fff_ffff, 1, false, false, 0),
    (0x5fff_fffe, 4, false, false, 0),
    (0x6000_0000, 8, true, true, 0x1122_3344_5566_7788),
    (0x6000_0005, 4, true, true, 0x5566_7788),
    (0x6000_fff8, 8, true, true, 0x1122_3344_5566_7788),
    (0x6000_fff9, 8, false, false, 0),
    (0x6000_ffff, 1, true, true, 0x88),
    (0x6000_ffff, 2, false, false, 0),
    (0x6001_0000, 4, false, false, 0),
    (0xffff_ffff_ffff_ffff, 2, false, false, 0),
    (0xffff_ffff_ffff_fff8, 8, false, false, 0),
];

/// Whether a store is taken as its row says.
fn stores(memory: &mut Memory, row: &Access) -> bool {
    let (addr, n, _, store, _) = *row;
    if n != 1 && n != 2 && n != 4 && n != 8 {
        return false;
    }
    match memory.write(addr, n, 0x1122_3344_5566_7788) {
        Ok(()) => store,
        Err(end) => !store && matches!(end, End::Fault(StoreFault)),
    }
}

/// Whether a load is taken as its row says, and reads its number.
fn loads(memory: &Memory, row: &Access) -> bool {
    let (addr, n, load, _, value) = *row;
    if n != 1 && n != 2 && n != 4 && n != 8 {
        return false;
    }
    match memory.read(addr, n) {
        Ok(read) => load && read == value,
        Err(LoadFault) => !load,
    }
}

/// A memory with some code and data.
fn memory(alloc: Global) -> Option<Memory> {
    let code = [0xa0, 0xb0, 0xc0, 0, 0xd1, 0, 0, 0];
    Memory::load(alloc, &Image::of(&code, &[7, 8])).ok()
}

/// Whether the four bytes at an address are these.
fn holds(memory: &Memory, addr: u64, value: u64) -> bool {
    memory.read(addr, 4) == Ok(value)
}

/// Makes the store and then the load of each row.
fn check_accesses(rt: &impl Abort, memory: &mut Memory) {
    for row in &ACCESSES {
        assert!(rt; stores(memory, row), "store at {:x}", row.0);
        assert!(rt; loads(memory, row), "load at {:x}", row.0);
    }
}

#[test]
fn accesses_are_the_memory_map(rt: HostRuntime) {
    let mut memory = memory(rt.alloc()).expect(&rt, "memory");
    assert!(rt; holds(&memory, 0xffff, 0x0008_0700), "initialised data");
    check_accesses(&rt, &mut memory);
}

/// Addresses, and the region of each in an image of version 1 and of version 2.
static REGIONS: [(u64, Option<Region>, Option<Region>); 14] = [
    (0, Some(Region::Data), Some(Region::Data)),
    (0x1000_0fff, Some(Region::Data), Some(Region::Data)),
    (0x1000_1000, None, None),
    (0x3fff_ffff, None, None),
    (0x4000_0000, Some(Region::Code), Some(Region::Code)),
    (0x400f_ffff, Some(Region::Code), Some(Region::Code)),
    (0x4010_0000, None, None),
    (0x5fff_ffff, None, None),
    (0x6000_0000, Some(Region::Shadow), Some(Region::Shadow)),
    (0x6000_ffff, Some(Region::Shadow), Some(Region::Shadow)),
    (0x6001_0000, None, Some(Region::Shadow)),
    (0x6007_ffff, None, Some(Region::Shadow)),
    (0x6008_0000, None, None),
    (u64::MAX, None, None),
];

/// Whether an address has the regions of its row.
fn has_regions(row: &(u64, Option<Region>, Option<Region>)) -> bool {
    region(row.0, ImageVersion::OneHart) == row.1
        && region(row.0, ImageVersion::EightHarts) == row.2
}

#[test]
fn regions(rt: HostRuntime) {
    for row in &REGIONS {
        assert!(rt; has_regions(row), "{:x}", row.0);
    }
}

/// Whether a byte of code can be changed.
fn changes_code() -> bool {
    Change::new(0x4000_0000, 1).is_some()
}

/// Whether the last byte of data is changed.
fn changes_data(memory: &mut Memory) -> bool {
    match Change::new(0x1000_0fff, 0x5a) {
        Some(change) => memory.change(change).is_ok(),
        None => false,
    }
}

/// Whether a change and what is written before it are read, and nothing after the data.
fn shows_changes(alloc: Global) -> bool {
    let Ok(mut memory) = Memory::new(alloc) else {
        return false;
    };
    changes_data(&mut memory)
        && memory.write_bytes(0x1000_0ffd, &[1, 2]).is_ok()
        && holds(&memory, 0x1000_0ffc, 0x5a02_0100)
        && memory.byte(0x1000_1000) == 0
}

#[test]
fn changes(rt: HostRuntime) {
    assert!(rt; !changes_code());
    assert!(rt; shows_changes(rt.alloc()));
}

/// Whether room changes nothing that is read, and bytes can be set in it, in data and in shadow.
fn sets_in_room(memory: &mut Memory, addr: u64) -> bool {
    if addr > 0x1_0000 && addr != 0x6000_0000 {
        return false;
    }
    if memory.reserve_pages(addr, 3).is_err() || !holds(memory, addr, 0) {
        return false;
    }
    memory.set_all(addr, &[0xa1, 0xb2, 0xc3]);
    holds(memory, addr, 0x00c3_b2a1)
}

#[test]
fn bytes_are_set_where_room_was_made(rt: HostRuntime) {
    let mut memory = Memory::new(rt.alloc()).ok().expect(&rt, "memory");
    for addr in [0, 0xfff, 0x1_0000, 0x6000_0000] {
        assert!(rt; sets_in_room(&mut memory, addr), "{addr:x}");
    }
}

/// Accesses at the edges of pages and regions, a line each: the name; a write (address, size and
/// number; of size 0, none), a range to reserve, and another write; then a read, and what it reads,
/// or - where it faults. All numbers are hexadecimal, and stand lowest byte first in memory.
const EDGES: &[u8] = b"\
    never-written 0 0 0 0 0 0 0 0 ff8 8 0\n\
    never-written 0 0 0 0 0 0 0 0 ffd 8 0\n\
    never-written 0 0 0 0 0 0 0 0 ffe 4 0\n\
    never-written 0 0 0 0 0 0 0 0 fff 2 0\n\
    never-written 0 0 0 0 0 0 0 0 fff 1 0\n\
    never-written 0 0 0 0 0 0 0 0 1000 1 0\n\
    below fff 1 88 0 0 0 0 0 fff 1 88\n\
    below fff 1 88 0 0 0 0 0 fff 2 88\n\
    below fff 1 88 0 0 0 0 0 ffe 2 8800\n\
    below fff 1 88 0 0 0 0 0 ffe 4 8800\n\
    below fff 1 88 0 0 0 0 0 ffd 4 880000\n\
    below fff 1 88 0 0 0 0 0 ff9 8 88000000000000\n\
    below fff 1 88 0 0 0 0 0 ff8 8 8800000000000000\n\
    below fff 1 88 0 0 0 0 0 1000 8 0\n\
    above 1000 1 99 0 0 0 0 0 1000 1 99\n\
    above 1000 1 99 0 0 0 0 0 fff 1 0\n\
    above 1000 1 99 0 0 0 0 0 fff 2 9900\n\
    above 1000 1 99 0 0 0 0 0 ffe 4 990000\n\
    above 1000 1 99 0 0 0 0 0 ffc 8 9900000000\n\
    above 1000 1 99 0 0 0 0 0 ff8 8 0\n\
    both ff8 8 1122334455667788 0 0 1000 8 99aabbccddeeff00 fff 2 11\n\
    both ff8 8 1122334455667788 0 0 1000 8 99aabbccddeeff00 ffe 4 ff001122\n\
    both ff8 8 1122334455667788 0 0 1000 8 99aabbccddeeff00 ffd 4 112233\n\
    both ff8 8 1122334455667788 0 0 1000 8 99aabbccddeeff00 fff 4 eeff0011\n\
    both ff8 8 1122334455667788 0 0 1000 8 99aabbccddeeff00 ff9 8 11223344556677\n\
    both ff8 8 1122334455667788 0 0 1000 8 99aabbccddeeff00 ffc 8 ddeeff0011223344\n\
    both ff8 8 1122334455667788 0 0 1000 8 99aabbccddeeff00 fff 8 aabbccddeeff0011\n\
    one-side ff8 8 1122334455667788 0 0 0 0 0 ff8 8 1122334455667788\n\
    one-side ff8 8 1122334455667788 0 0 0 0 0 1000 8 0\n\
    one-side 1000 8 1122334455667788 0 0 0 0 0 1000 8 1122334455667788\n\
    one-side 1000 8 1122334455667788 0 0 0 0 0 ff8 8 0\n\
    over fff 2 aabb 0 0 0 0 0 fff 1 bb\n\
    over fff 2 aabb 0 0 0 0 0 1000 1 aa\n\
    over fff 2 aabb 0 0 0 0 0 fff 2 aabb\n\
    over ffd 4 aabbccdd 0 0 0 0 0 1000 1 aa\n\
    over ffe 4 aabbccdd 0 0 0 0 0 ffe 2 ccdd\n\
    over ffe 4 aabbccdd 0 0 0 0 0 1000 2 aabb\n\
    over fff 4 aabbccdd 0 0 0 0 0 1000 4 aabbcc\n\
    over ff9 8 1122334455667788 0 0 0 0 0 1000 1 11\n\
    over ff9 8 1122334455667788 0 0 0 0 0 ff9 4 55667788\n\
    over ffc 8 1122334455667788 0 0 0 0 0 1000 4 11223344\n\
    over ffc 8 1122334455667788 0 0 0 0 0 ffc 4 55667788\n\
    over ffc 8 1122334455667788 0 0 0 0 0 ffa 4 77880000\n\
    over ffc 8 1122334455667788 0 0 0 0 0 1002 4 1122\n\
    over ffc 8 1122334455667788 0 0 0 0 0 fff 2 4455\n\
    over fff 8 1122334455667788 0 0 0 0 0 fff 1 88\n\
    over fff 8 1122334455667788 0 0 0 0 0 1000 8 11223344556677\n\
    over fff 8 1122334455667788 0 0 ffe 4 aabbccdd ffe 8 22334455aabbccdd\n\
    over-what-stands 1000 8 1122334455667788 0 0 fff 2 aabb 1000 8 11223344556677aa\n\
    reserved 0 0 0 ffc 8 ffc 8 1122334455667788 1000 4 11223344\n\
    reserved 0 0 0 ffc 8 ffc 8 1122334455667788 ffc 4 55667788\n\
    reserved 0 0 0 ffc 8 0 0 0 ffc 8 0\n\
    reserved 0 0 0 1000 0 0 0 0 1000 1 0\n\
    reserved 0 0 0 10001000 0 0 0 0 10000fff 1 0\n\
    reserved 0 0 0 fff 3002 3ffc 8 1122334455667788 4000 4 11223344\n\
    reserved-over-what-stands 1000 8 1122334455667788 ffc 8 0 0 0 1000 8 1122334455667788\n\
    reserved-over-what-stands ff8 8 1122334455667788 ffc 8 0 0 0 ff8 8 1122334455667788\n\
    data-first 0 1 5a 0 0 0 0 0 0 8 5a\n\
    data-first 0 8 1122334455667788 0 0 0 0 0 0 4 55667788\n\
    data-first 0 8 1122334455667788 0 0 0 0 0 1 2 6677\n\
    data-last 10000fff 1 5a 0 0 0 0 0 10000ff8 8 5a00000000000000\n\
    data-last 10000ff8 8 1122334455667788 0 0 0 0 0 10000fff 1 11\n\
    data-last 10000ff8 8 1122334455667788 0 0 0 0 0 10000ffe 2 1122\n\
    data-last 10000ffc 4 aabbccdd 0 0 0 0 0 10000ff8 8 aabbccdd00000000\n\
    data-last 0 0 0 10000ff8 8 10000ff8 8 1122334455667788 10000ff8 8 1122334455667788\n\
    data-last ffffffc 8 1122334455667788 0 0 0 0 0 10000000 4 11223344\n\
    data-last 10000ff8 8 1122334455667788 0 0 0 0 0 60000000 8 0\n\
    shadow-first 60000000 1 5a 0 0 0 0 0 60000000 8 5a\n\
    shadow-first 60000000 8 1122334455667788 0 0 0 0 0 60000004 4 11223344\n\
    shadow-first 60000000 8 1122334455667788 0 0 0 0 0 10000ff8 8 0\n\
    shadow-over 60000ffc 8 1122334455667788 0 0 0 0 0 60001000 4 11223344\n\
    shadow-over 60000ffc 8 1122334455667788 0 0 0 0 0 60000fff 2 4455\n\
    shadow-last 6000fff8 8 1122334455667788 0 0 0 0 0 6000ffff 1 11\n\
    shadow-last 6000ffff 1 5a 0 0 0 0 0 6000fffe 2 5a00\n\
    shadow-last 0 0 0 6000fff8 8 6000fffc 4 aabbccdd 6000fff8 8 aabbccdd00000000\n\
    shadow-last 6000fff8 8 1122334455667788 0 0 0 0 0 0 8 0\n\
    code-first 0 0 0 0 0 0 0 0 40000000 1 a0\n\
    code-first 0 0 0 0 0 0 0 0 40000000 8 d100c0b0a0\n\
    code-first 0 0 0 0 0 0 0 0 40000001 8 d100c0b0\n\
    code-end 0 0 0 0 0 0 0 0 40000004 8 d1\n\
    code-end 0 0 0 0 0 0 0 0 40000007 2 0\n\
    code-end 0 0 0 0 0 0 0 0 40000ffc 8 0\n\
    code-last 0 0 0 0 0 0 0 0 400ffff8 8 0\n\
    code-last 0 0 0 0 0 0 0 0 400fffff 1 0\n\
    code-past 0 0 0 0 0 0 0 0 400fffff 2 0\n\
    code-past 0 0 0 0 0 0 0 0 400ffffd 4 0\n\
    code-past 0 0 0 0 0 0 0 0 400ffff9 8 0\n\
    code-past 0 0 0 0 0 0 0 0 40100000 8 0\n\
    loaded 0 0 0 0 0 0 0 0 ffff 4 80700\n\
    loaded 0 0 0 0 0 0 0 0 fffc 8 80700000000\n\
    loaded ffff 1 99 0 0 0 0 0 fffe 4 8079900\n\
    fault 0 0 0 0 0 0 0 0 10000fff 2 -\n\
    fault 0 0 0 0 0 0 0 0 10000ffd 4 -\n\
    fault 0 0 0 0 0 0 0 0 10000ff9 8 -\n\
    fault 0 0 0 0 0 0 0 0 10001000 1 -\n\
    fault 0 0 0 0 0 0 0 0 3fffffff 1 -\n\
    fault 0 0 0 0 0 0 0 0 3ffffffc 8 -\n\
    fault 0 0 0 0 0 0 0 0 40100007 2 -\n\
    fault 0 0 0 0 0 0 0 0 40100005 4 -\n\
    fault 0 0 0 0 0 0 0 0 40100001 8 -\n\
    fault 0 0 0 0 0 0 0 0 40100008 1 -\n\
    fault 0 0 0 0 0 0 0 0 5fffffff 1 -\n\
    fault 0 0 0 0 0 0 0 0 5ffffffc 8 -\n\
    fault 0 0 0 0 0 0 0 0 6000ffff 2 -\n\
    fault 0 0 0 0 0 0 0 0 6000fffd 4 -\n\
    fault 0 0 0 0 0 0 0 0 6000fff9 8 -\n\
    fault 0 0 0 0 0 0 0 0 60010000 1 -\n\
";

/// Whether a store of a size is taken at an address; none is of another size than 1, 2, 4 and 8.
fn is_stored(memory: &mut Memory, addr: u64, size: u64, value: u64) -> bool {
    let n = u8::try_from(size).unwrap_or(0);
    if n != 1 && n != 2 && n != 4 && n != 8 {
        return false;
    }
    memory.write(addr, n, value).is_ok()
}

/// Whether a row's write is done, whose numbers stand from a place on.
fn is_written(memory: &mut Memory, row: &str, at: [usize; 3]) -> bool {
    let [addr, size, value] = at;
    match (number(row, addr), number(row, size), number(row, value)) {
        (Some(_), Some(0), Some(_)) => true,
        (Some(addr), Some(size), Some(value)) => is_stored(memory, addr, size, value),
        _ => false,
    }
}

/// Whether the pages of a range of data or shadow are reserved.
fn reserves(memory: &mut Memory, addr: u64, len: u64) -> bool {
    let in_data = addr <= 0x1000_1000 && len <= 0x1000_1000 - addr;
    if in_data {
        return memory.reserve_pages(addr, len).is_ok();
    }
    if addr < 0x6000_0000 || addr > 0x6001_0000 || len > 0x6001_0000 - addr {
        return false;
    }
    memory.reserve_pages(addr, len).is_ok()
}

/// Whether a row's range is reserved.
fn is_reserved(memory: &mut Memory, row: &str) -> bool {
    match (number(row, 4), number(row, 5)) {
        (Some(addr), Some(len)) => reserves(memory, addr, len),
        _ => false,
    }
}

/// What is read at an address, if such a load is taken.
pub(crate) fn read_of(memory: &Memory, addr: u64, size: u64) -> Option<u64> {
    let n = u8::try_from(size).unwrap_or(0);
    if n != 1 && n != 2 && n != 4 && n != 8 {
        return None;
    }
    memory.read(addr, n).ok()
}

/// Whether a row's read, whose numbers stand from a place on, reads what it says.
fn is_read(memory: &Memory, row: &str, at: [usize; 3]) -> bool {
    let [addr, size, value] = at;
    match (number(row, addr), number(row, size)) {
        (Some(addr), Some(n)) => read_of(memory, addr, n) == number(row, value),
        _ => false,
    }
}

/// Whether the accesses of a row do what it says.
fn edge_holds(memory: Option<Memory>, row: &str) -> bool {
    let Some(mut memory) = memory else {
        return false;
    };
    is_written(&mut memory, row, [1, 2, 3])
        && is_reserved(&mut memory, row)
        && is_written(&mut memory, row, [6, 7, 8])
        && is_read(&memory, row, [9, 10, 11])
}

#[test]
fn accesses_at_edges(rt: HostRuntime) {
    let table = EDGES;
    assert!(rt; rows(table).count() == 107);
    for row in rows(table) {
        assert!(rt; edge_holds(memory(rt.alloc()), row), "{row}");
    }
}

/// The same where the memory is that of an image of version 2: at the edges of its shadow stack, and of
/// the parts in it.
const EDGES_OF_HARTS: &[u8] = b"\
    never-written 0 0 0 0 0 0 0 0 6000fffc 8 0\n\
    never-written 0 0 0 0 0 0 0 0 6007fff8 8 0\n\
    first 60000000 8 1122334455667788 0 0 0 0 0 60000004 4 11223344\n\
    first 60000000 8 1122334455667788 0 0 0 0 0 60010000 8 0\n\
    between-parts 6000fffc 8 1122334455667788 0 0 0 0 0 60010000 4 11223344\n\
    between-parts 6000fffc 8 1122334455667788 0 0 0 0 0 6000fffe 2 5566\n\
    between-parts 6003ffff 2 aabb 0 0 0 0 0 60040000 1 aa\n\
    second 60010000 8 1122334455667788 0 0 0 0 0 60010000 8 1122334455667788\n\
    second 60010000 8 1122334455667788 0 0 0 0 0 60000000 8 0\n\
    second 60010000 8 1122334455667788 0 0 0 0 0 60020000 8 0\n\
    last 6007fff8 8 1122334455667788 0 0 0 0 0 6007ffff 1 11\n\
    last 6007ffff 1 5a 0 0 0 0 0 6007fffe 2 5a00\n\
    last 6007fff8 8 1122334455667788 0 0 0 0 0 6006fff8 8 0\n\
    last 6007fff8 8 1122334455667788 0 0 0 0 0 0 8 0\n\
    last 6007fff8 8 1122334455667788 0 0 0 0 0 10000ff8 8 0\n\
    data-last 10000ff8 8 1122334455667788 0 0 0 0 0 60000000 8 0\n\
    data-last 10000ff8 8 1122334455667788 0 0 60070000 1 5a 10000ff8 8 1122334455667788\n\
    code-first 0 0 0 0 0 60070000 8 1122334455667788 40000000 8 d100c0b0a0\n\
    fault 0 0 0 0 0 0 0 0 6007ffff 2 -\n\
    fault 0 0 0 0 0 0 0 0 6007fffd 4 -\n\
    fault 0 0 0 0 0 0 0 0 6007fff9 8 -\n\
    fault 0 0 0 0 0 0 0 0 60080000 1 -\n\
    fault 0 0 0 0 0 0 0 0 5ffffffc 8 -\n\
";

/// A memory of version 2 with some code and data.
fn memory_of_harts(alloc: Global) -> Option<Memory> {
    let code = [0xa0, 0xb0, 0xc0, 0, 0xd1, 0, 0, 0];
    Memory::load(
        alloc,
        &Image::of_version(ImageVersion::EightHarts, &code, &[7, 8]),
    )
    .ok()
}

#[test]
fn accesses_at_edges_of_parts(rt: HostRuntime) {
    let table = EDGES_OF_HARTS;
    assert!(rt; rows(table).count() == 23);
    for row in rows(table) {
        assert!(rt; edge_holds(memory_of_harts(rt.alloc()), row), "{row}");
    }
}

/// The number that is written to the double-word with an index.
fn mixed(index: u64) -> u64 {
    index.wrapping_add(1).wrapping_mul(0x9e37_79b9_7f4a_7c15)
}

/// Whether a number is written to each double-word of the 2^19 bytes, and none past them.
fn fills(memory: &mut Memory) -> bool {
    for k in 0..0x1_0000_u64 {
        if memory.write(0x6000_0000 + 8 * k, 8, mixed(k)).is_err() {
            return false;
        }
    }
    for n in [0x6007_fff9, 0x6008_0000, 0x6008_fff8, 0x600f_0000] {
        if memory.write(n, 8, u64::MAX).is_ok() {
            return false;
        }
    }
    true
}

/// Whether each byte of the 2^19 is that of its double-word's number.
fn is_filled(memory: &Memory) -> bool {
    for k in 0..0x8_0000_u64 {
        let byte = mixed(k / 8) >> (k % 8 * 8) & 0xff;
        if memory.read(0x6000_0000 + k, 1) != Ok(byte) {
            return false;
        }
    }
    true
}

/// Whether a shadow stack of version 2 whose pages were made is zeros, and then what is written into all
/// of it.
fn holds_a_shadow(alloc: Global) -> bool {
    let code = [0x73, 0, 0x10, 0];
    let Ok(mut memory) = Memory::load(
        alloc,
        &Image::of_version(ImageVersion::EightHarts, &code, &[]),
    ) else {
        return false;
    };
    memory.reserve_pages(0x6000_0000, 0x8_0000).is_ok()
        && holds(&memory, 0x6007_fffc, 0)
        && fills(&mut memory)
        && is_filled(&memory)
        && holds(&memory, 0, 0)
        && holds(&memory, 0x1000_0ffc, 0)
        && holds(&memory, 0x4000_0000, 0x0010_0073)
}

#[test]
fn all_of_the_shadow_is_written_and_read(rt: HostRuntime) {
    assert!(rt; holds_a_shadow(rt.alloc()));
}

/// Where 8,200 bytes stand over three pages, loaded from 10000h on or written from 1ffeh on: a read,
/// and what it reads. Byte k is the remainder of k by 251.
const SPANS: &[u8] = b"\
    loaded fff8 8 0\n\
    loaded 10000 8 706050403020100\n\
    loaded 10ffe 4 51504f4e\n\
    loaded 10ffc 8 535251504f4e4d4c\n\
    loaded 11ffe 4 a1a09f9e\n\
    loaded 12004 8 a7a6a5a4\n\
    loaded 12008 8 0\n\
    written 1ff6 8 0\n\
    written 1ffe 8 706050403020100\n\
    written 2ffe 4 53525150\n\
    written 2ffc 8 5554535251504f4e\n\
    written 3ffe 4 a3a2a1a0\n\
    written 4002 8 a7a6a5a4\n\
    written 4006 8 0\n\
";

/// The bytes that are loaded or written.
fn many_bytes(alloc: Global) -> Result<Vec<u8>, AllocError> {
    let mut bytes = Vec::new(alloc);
    for k in 0..8200_u32 {
        bytes.push((k % 251) as u8)?;
    }
    Ok(bytes)
}

/// The memory into which these bytes were loaded or written.
fn spanned(alloc: Global, bytes: &[u8], how: &str) -> Option<Memory> {
    if bytes.len() > 0x1_0000 {
        return None;
    }
    if how == "loaded" {
        return Memory::with_data(alloc, ImageVersion::OneHart, bytes).ok();
    }
    let mut memory = Memory::new(alloc).ok()?;
    memory.write_bytes(0x1ffe, bytes).ok()?;
    Some(memory)
}

/// Whether a row's read reads what it says.
fn span_holds(alloc: Global, row: &str) -> bool {
    let Ok(bytes) = many_bytes(alloc) else {
        return false;
    };
    match spanned(alloc, &bytes, name(row)) {
        Some(memory) => is_read(&memory, row, [1, 2, 3]),
        None => false,
    }
}

#[test]
fn bytes_over_pages(rt: HostRuntime) {
    let table = SPANS;
    assert!(rt; rows(table).count() == 14);
    for row in rows(table) {
        assert!(rt; span_holds(rt.alloc(), row), "{row}");
    }
}
