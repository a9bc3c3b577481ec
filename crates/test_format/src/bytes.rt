use elf_bytes::{bytes_at, i64_at, name_at, u16_at, u32_at, u64_at};

const FILE: &[u8] = b"\x7fELF\x02\x01\x00\xff.text\x00\xfe\xff\xff\xff\xff\xff\xff\xff";

const NAMES: &[u8] = b"\x00.text\x00.rela.text\x00.bss";

/// An offset in the file, and the numbers of two, of four and of eight bytes there, the last with a sign.
type NumberRow = (u64, Option<u16>, Option<u32>, Option<u64>, Option<i64>);

#[rattlefmt::skip]
static NUMBERS: [NumberRow; 9] = [
    (0, Some(0x457f), Some(0x464c457f), Some(0xff000102464c457f), Some(-0xfffefdb9b3ba81)),
    (3, Some(0x0246), Some(0x00010246), Some(0x65742eff00010246), Some(0x65742eff00010246)),
    (14, Some(0xfffe), Some(0xfffffffe), Some(0xfffffffffffffffe), Some(-2)),
    (15, Some(0xffff), Some(0xffffffff), None, None),
    (18, Some(0xffff), Some(0xffffffff), None, None),
    (19, Some(0xffff), None, None, None),
    (20, Some(0xffff), None, None, None),
    (21, None, None, None, None),
    (u64::MAX, None, None, None, None),
];

/// An offset in the names, how many bytes are read there, where this is none up to the next NUL, and what
/// is read.
type PartRow = (u64, Option<u64>, Option<&'static [u8]>);

static PARTS: [PartRow; 11] = [
    (0, None, Some(b"")),
    (1, None, Some(b".text")),
    (6, None, Some(b"")),
    (11, None, Some(b"a.text")),
    (18, None, None),
    (22, None, None),
    (u64::MAX, None, None),
    (1, Some(5), Some(b".text")),
    (22, Some(0), Some(b"")),
    (22, Some(1), None),
    (1, Some(u64::MAX), None),
];

/// Whether these numbers are at their offset.
fn has_numbers(row: &NumberRow) -> bool {
    u16_at(FILE, row.0) == row.1
        && u32_at(FILE, row.0) == row.2
        && u64_at(FILE, row.0) == row.3
        && i64_at(FILE, row.0) == row.4
}

#[test]
fn reads_up_to_the_end(rt: HostRuntime) {
    for row in &NUMBERS {
        assert!(rt; has_numbers(row), "offset {}", row.0);
    }
}

/// Whether this part is at its offset.
fn has_part(row: &PartRow) -> bool {
    match row.1 {
        Some(len) => bytes_at(NAMES, row.0, len) == row.2,
        None => name_at(NAMES, row.0) == row.2,
    }
}

#[test]
fn names_end_at_their_nul(rt: HostRuntime) {
    for k in 0..PARTS.len() {
        assert!(rt; has_part(&PARTS[k]), "part {k}");
    }
}
