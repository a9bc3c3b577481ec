//! The generated objects, against those that a second program makes of the same rules.
use cfi_gen::object_of;
use std::alloc::Global;

/// A number, and of the object's bytes how many they are and their hash, as `tests/demo/object_of.py` prints them.
static SUMS: [(u32, usize, u64); 4] = [
    (0, 229_600, 0x903d_d2e3_589b_1104),
    (1, 228_872, 0xcdd2_2e7d_d582_544c),
    (12345, 228_936, 0x0307_3f05_647c_4100),
    (1_000_000_000, 228_744, 0x1192_aa8e_251b_d2ba),
];

/// The FNV-1a hash of bytes, with 64 bits.
fn hash(bytes: &[u8]) -> u64 {
    let mut hash: u64 = 0xcbf2_9ce4_8422_2325;
    for byte in bytes {
        hash = (hash ^ u64::from(*byte)).wrapping_mul(0x0000_0100_0000_01b3);
    }
    hash
}

/// Whether the object of a number is as its row says.
fn is_as_told(alloc: Global, row: &(u32, usize, u64)) -> bool {
    let Ok(bytes) = object_of(alloc, row.0) else {
        return false;
    };
    bytes.len() == row.1 && hash(&bytes) == row.2
}

#[test]
fn objects_of_numbers(rt: HostRuntime) {
    let alloc = rt.alloc();
    for row in &SUMS {
        assert!(rt; is_as_told(alloc, row), "{}", row.0);
    }
}
