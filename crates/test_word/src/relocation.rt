use rv_reloc::laws::{high_and_low, low_is_small, parts_add_up};
use rv_reloc::{CodePatch, DataPatch, high, low, patch, patch_data};

/// A kind, the word before, the value, and the word after, or `None` for a refusal. A value is a symbol's
/// address, and of the relative kinds its distance from the AUIPC.
#[rattlefmt::skip]
static WORDS: [(CodePatch, u32, i128, Option<u32>); 36] = [
    // Words that GNU ld 2.40 patched. `tests/relocations/rows.py` of the repository prints them
    // anew.
    (CodePatch::Hi20, 0x0000_02b7, 0x1_0000, Some(0x0001_02b7)),
    (CodePatch::Hi20, 0xffff_f537, 0x1234_5fff, Some(0x1234_6537)),
    (CodePatch::Hi20, 0x0000_02b7, 0x1234_57ff, Some(0x1234_52b7)),
    (CodePatch::Hi20, 0x0000_02b7, 0x1234_5800, Some(0x1234_62b7)),
    (CodePatch::Hi20, 0x0000_0fb7, 0x7fff_f7ff, Some(0x7fff_ffb7)),
    (CodePatch::Hi20, 0x0000_0fb7, -0x8000_0800, Some(0x8000_0fb7)),
    (CodePatch::Hi20, 0x0000_0fb7, -0x1, Some(0x0000_0fb7)),
    (CodePatch::Hi20, 0x0000_0fb7, -0x801, Some(0xffff_ffb7)),
    (CodePatch::Lo12I, 0x0002_b283, 0x1_0008, Some(0x0082_b283)),
    (CodePatch::Lo12I, 0xfff5_8593, 0x1234_57ff, Some(0x7ff5_8593)),
    (CodePatch::Lo12I, 0x0005_8593, 0x1234_5800, Some(0x8005_8593)),
    (CodePatch::Lo12I, 0x0005_8593, -0x801, Some(0x7ff5_8593)),
    (CodePatch::Lo12S, 0x00a3_3023, 0x1234_5fff, Some(0xfea3_3fa3)),
    (CodePatch::Lo12S, 0xfea3_3fa3, 0x1234_5800, Some(0x80a3_3023)),
    (CodePatch::Lo12S, 0x00a3_3023, 0x1_0018, Some(0x00a3_3c23)),
    (CodePatch::Lo12S, 0xfff3_3023, -0x8000_0000, Some(0x01f3_3023)),
    (CodePatch::PcrelHi20, 0x0000_0597, -0x3fff_0094, Some(0xc001_0597)),
    (CodePatch::PcrelHi20, 0xabcd_e597, 0x7fff_f7ff, Some(0x7fff_f597)),
    (CodePatch::PcrelHi20, 0x0000_0597, 0x800, Some(0x0000_1597)),
    (CodePatch::PcrelHi20, 0x0000_0597, -0x800, Some(0x0000_0597)),
    (CodePatch::Lo12I, 0x0005_8593, -0x3fff_0094, Some(0xf6c5_8593)),
    (CodePatch::Lo12S, 0x00b5_a023, -0x3fff_0094, Some(0xf6b5_a623)),
    // Values at both ends of the ranges, by hand. The linker too refuses 7ffff800h of both kinds and
    // -80000801h of HI20.
    (CodePatch::Hi20, 0x0000_0fb7, 0x7fff_f7ff, Some(0x7fff_ffb7)),
    (CodePatch::Hi20, 0x0000_0fb7, 0x7fff_f800, None),
    (CodePatch::Hi20, 0x0000_0fb7, -0x8000_0800, Some(0x8000_0fb7)),
    (CodePatch::Hi20, 0x0000_0fb7, -0x8000_0801, None),
    (CodePatch::PcrelHi20, 0x0000_0597, 0x7fff_f7ff, Some(0x7fff_f597)),
    (CodePatch::PcrelHi20, 0x0000_0597, 0x7fff_f800, None),
    (CodePatch::PcrelHi20, 0x0000_0597, -0x8000_0800, Some(0x8000_0597)),
    (CodePatch::PcrelHi20, 0x0000_0597, -0x8000_0801, None),
    (CodePatch::Hi20, 0, i128::MAX, None),
    (CodePatch::PcrelHi20, 0, i128::MIN, None),
    (CodePatch::Lo12I, 0x0005_8593, i128::MAX, Some(0xfff5_8593)),
    (CodePatch::Lo12I, 0xfff5_8593, i128::MIN, Some(0x0005_8593)),
    (CodePatch::Lo12S, 0x00a3_3023, i128::MAX, Some(0xfea3_3fa3)),
    (CodePatch::Lo12S, 0xfea3_3fa3, i128::MIN, Some(0x00a3_3023)),
];

/// A kind, eight bytes before, the first in the highest place of the number, the value, and the bytes after,
/// or `None` for a refusal.
#[rattlefmt::skip]
static DATA: [(DataPatch, u64, i128, Option<u64>); 34] = [
    // Data that GNU ld 2.40 patched.
    (DataPatch::Abs32, 0x0123_4567_89ab_cdef, 0x4000_00c8, Some(0xc800_0040_89ab_cdef)),
    (DataPatch::Abs32, 0x0123_4567_89ab_cdef, 0xffff_ffff, Some(0xffff_ffff_89ab_cdef)),
    (DataPatch::Abs32, 0x0123_4567_89ab_cdef, -0x8000_0000, Some(0x0000_0080_89ab_cdef)),
    (DataPatch::Abs64, 0x0123_4567_89ab_cdef, 0x4000_00c8, Some(0xc800_0040_0000_0000)),
    (DataPatch::Abs64, 0x0123_4567_89ab_cdef, -0x2, Some(0xfeff_ffff_ffff_ffff)),
    (DataPatch::Abs64, 0x0123_4567_89ab_cdef, 0xfedc_ba98_7654_3210, Some(0x1032_5476_98ba_dcfe)),
    (DataPatch::Add8, 0xffff_ffff_ffff_ffff, 0x1, Some(0x00ff_ffff_ffff_ffff)),
    (DataPatch::Add8, 0x0123_4567_89ab_cdef, 0x1ff, Some(0x0023_4567_89ab_cdef)),
    (DataPatch::Add16, 0xffff_ffff_ffff_ffff, 0x2, Some(0x0100_ffff_ffff_ffff)),
    (DataPatch::Add16, 0x0123_4567_89ab_cdef, -0x2302, Some(0xffff_4567_89ab_cdef)),
    (DataPatch::Add32, 0xffff_ffff_ffff_ffff, 0x3, Some(0x0200_0000_ffff_ffff)),
    (DataPatch::Add32, 0x0123_4567_89ab_cdef, 0x4000_00c8, Some(0xc923_45a7_89ab_cdef)),
    (DataPatch::Add64, 0xffff_ffff_ffff_ffff, 0x10, Some(0x0f00_0000_0000_0000)),
    (DataPatch::Add64, 0x0123_4567_89ab_cdef, -0x10, Some(0xf122_4567_89ab_cdef)),
    (DataPatch::Sub8, 0x0123_4567_89ab_cdef, 0x2, Some(0xff23_4567_89ab_cdef)),
    (DataPatch::Sub8, 0x0000_0000_0000_0000, 0x1, Some(0xff00_0000_0000_0000)),
    (DataPatch::Sub16, 0x0123_4567_89ab_cdef, 0x2302, Some(0xffff_4567_89ab_cdef)),
    (DataPatch::Sub16, 0x0000_0000_0000_0000, 0x1, Some(0xffff_0000_0000_0000)),
    (DataPatch::Sub32, 0x0123_4567_89ab_cdef, 0x4000_00c8, Some(0x3922_4527_89ab_cdef)),
    (DataPatch::Sub32, 0x0000_0000_0000_0000, 0x1, Some(0xffff_ffff_0000_0000)),
    (DataPatch::Sub64, 0x0000_0000_0000_0000, 0x1, Some(0xffff_ffff_ffff_ffff)),
    (DataPatch::Sub64, 0x0123_4567_89ab_cdef, -0x10, Some(0x1123_4567_89ab_cdef)),
    // Values at both ends of the ranges, by hand.
    (DataPatch::Abs32, 0, 0xffff_ffff, Some(0xffff_ffff_0000_0000)),
    (DataPatch::Abs32, 0, 0x1_0000_0000, None),
    (DataPatch::Abs32, 0, -0x8000_0000, Some(0x0000_0080_0000_0000)),
    (DataPatch::Abs32, 0, -0x8000_0001, None),
    (DataPatch::Abs32, 1, i128::MAX, None),
    (DataPatch::Abs32, 1, i128::MIN, None),
    (DataPatch::Abs64, 0, i128::MAX, Some(u64::MAX)),
    (DataPatch::Abs64, 7, i128::MIN, Some(0)),
    (DataPatch::Add64, 0x0100_0000_0000_0000, i128::MAX, Some(0)),
    (DataPatch::Sub64, 0x0100_0000_0000_0000, i128::MAX, Some(0x0200_0000_0000_0000)),
    (DataPatch::Add16, 0xff00_ff00_0000_0000, i128::MAX, Some(0xfe00_ff00_0000_0000)),
    (DataPatch::Sub8, 0xff00_0000_0000_0000, i128::MIN, Some(0xff00_0000_0000_0000)),
];

/// A value, the 20 bits of its high part, or `None` where they do not reach it, and the 12 bits of its low part: what GNU
/// ld put into the words above, and both ends of the ranges.
static PARTS: [(i128, Option<u32>, u32); 12] = [
    (0, Some(0), 0),
    (0x1234_57ff, Some(0x1_2345), 0x7ff),
    (0x1234_5800, Some(0x1_2346), 0x800),
    (0x1234_5fff, Some(0x1_2346), 0xfff),
    (-0x801, Some(0xf_ffff), 0x7ff),
    (-0x3fff_0094, Some(0xc_0010), 0xf6c),
    (0x7fff_f7ff, Some(0x7_ffff), 0x7ff),
    (0x7fff_f800, None, 0x800),
    (-0x8000_0800, Some(0x8_0000), 0x800),
    (-0x8000_0801, None, 0x7ff),
    (i128::MAX, None, 0xfff),
    (i128::MIN, None, 0),
];

/// How many bytes each width of relocation changes.
static SIZES: [(DataPatch, usize); 4] = [
    (DataPatch::Add8, 1),
    (DataPatch::Sub16, 2),
    (DataPatch::Abs32, 4),
    (DataPatch::Abs64, 8),
];

/// Whether a word is patched as a row says.
fn is_patched(row: &(CodePatch, u32, i128, Option<u32>)) -> bool {
    patch(row.0, row.1, row.2).ok() == row.3
}

#[test]
fn words_are_patched(rt: HostRuntime) {
    for k in 0..WORDS.len() {
        assert!(rt; is_patched(&WORDS[k]), "word {k}");
    }
    high_and_low();
    low_is_small();
    parts_add_up();
}

/// Whether a value has the parts that a row says.
fn has_parts(row: &(i128, Option<u32>, u32)) -> bool {
    high(row.0).ok() == row.1 && low(row.0) == row.2
}

#[test]
fn values_have_two_parts(rt: HostRuntime) {
    for k in 0..PARTS.len() {
        assert!(rt; has_parts(&PARTS[k]), "value {k}");
    }
}

/// Nine bytes: a number's, the first of them from its highest place, and 5ah.
fn lend(number: u64) -> [u8; 9] {
    let mut bytes = [0x5a; 9];
    bytes[..8].copy_from_slice(&number.to_be_bytes());
    bytes
}

/// Whether data are patched as a row says. Nine bytes are lent, the last of which stays, and all where the
/// value is refused.
fn are_patched(row: &(DataPatch, u64, i128, Option<u64>)) -> bool {
    let mut bytes = lend(row.1);
    patch_data(row.0, &mut bytes, row.2).is_ok() == row.3.is_some()
        && bytes == lend(row.3.unwrap_or(row.1))
}

#[test]
fn data_are_patched(rt: HostRuntime) {
    for k in 0..DATA.len() {
        assert!(rt; are_patched(&DATA[k]), "data {k}");
    }
}

#[test]
fn sizes(rt: HostRuntime) {
    for (kind, size) in &SIZES {
        assert!(rt; kind.size() == *size, "{size} bytes");
    }
}
