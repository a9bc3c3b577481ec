use rv_word::{div32, div64, low32, mul_high, rem32, rem64};

/// Numbers, a line each, in hexadecimal: a and b, the upper half of their product with both signs, with that of a
/// and with none; the quotient with signs and without, the remainder; then these four of the low 32 bits. All are as
/// qemu executes the instructions (tests/machine/steps.py).
const RESULTS: &[u8] = b"\
    0 0 0 0 0 ffffffffffffffff ffffffffffffffff 0 0 ffffffff ffffffff 0 0\n\
    fedcba9876543210 0 0 0 0 ffffffffffffffff ffffffffffffffff fedcba9876543210 fedcba9876543210 ffffffff ffffffff 76543210 76543210\n\
    1 ffffffffffffffff ffffffffffffffff 0 0 ffffffffffffffff 0 0 1 ffffffff 0 0 1\n\
    ffffffffffffffff 1 ffffffffffffffff ffffffffffffffff 0 ffffffffffffffff ffffffffffffffff 0 0 ffffffff ffffffff 0 0\n\
    ffffffffffffffff ffffffffffffffff 0 ffffffffffffffff fffffffffffffffe 1 1 0 0 1 1 0 0\n\
    8000000000000000 ffffffffffffffff 0 8000000000000000 7fffffffffffffff 8000000000000000 0 0 8000000000000000 0 0 0 0\n\
    ffffffffffffffff 8000000000000000 0 ffffffffffffffff 7fffffffffffffff 0 1 ffffffffffffffff 7fffffffffffffff ffffffff ffffffff ffffffff ffffffff\n\
    8000000000000000 8000000000000000 4000000000000000 c000000000000000 4000000000000000 1 1 0 0 ffffffff ffffffff 0 0\n\
    80000000 ffffffffffffffff ffffffffffffffff 7fffffff 7fffffff ffffffff80000000 0 0 80000000 80000000 0 0 80000000\n\
    ffffffff80000000 ffffffff ffffffffffffffff ffffffffffffffff fffffffe 0 100000000 ffffffff80000000 80000000 80000000 0 0 80000000\n\
    180000000 100000000 1 1 1 1 1 80000000 80000000 ffffffff ffffffff 80000000 80000000\n\
    ffb1e0079e58218 ce766f77a1560927 fce858d91638d041 ce376d9901e5259 ce376d9901e5259 0 0 ffb1e0079e58218 ffb1e0079e58218 ffffffff 0 1b3b8b3f 79e58218\n\
    c4a0cfc96769fc6f eb86b fffffffffffc9606 fffffffffffc9606 b4e71 fffffbf779296d76 d5b880d8e85 fffffffffff86c1d 9d2d8 706 706 6bced 6bced\n\
    822831a8afd60b62 800000fc34194e29 3eebe6afae0995f3 c11418585ddfa155 4114195491f8ef7e 0 1 822831a8afd60b62 22830ac7bbcbd39 ffffffff 3 e3ef598b 138a20e7\n\
";

/// The number at a place of a row; none where no number stands there.
fn number(row: &str, at: usize) -> Option<u64> {
    u64::from_str_radix(row.split(' ').nth(at)?, 16).ok()
}

/// Whether the upper halves of the product are as a row has them.
fn is_product(row: &str, a: u64, b: u64) -> bool {
    number(row, 2) == Some(mul_high(a, true, b, true))
        && number(row, 3) == Some(mul_high(a, true, b, false))
        && number(row, 3) == Some(mul_high(b, false, a, true))
        && number(row, 4) == Some(mul_high(a, false, b, false))
}

/// Whether quotients and remainders are.
fn is_quotient(row: &str, a: u64, b: u64) -> bool {
    number(row, 5) == Some(div64(a, b, true))
        && number(row, 6) == Some(div64(a, b, false))
        && number(row, 7) == Some(rem64(a, b, true))
        && number(row, 8) == Some(rem64(a, b, false))
}

/// Whether those of 32 bits are.
fn is_short_quotient(row: &str, a: u32, b: u32) -> bool {
    number(row, 9) == Some(u64::from(div32(a, b, true)))
        && number(row, 10) == Some(u64::from(div32(a, b, false)))
        && number(row, 11) == Some(u64::from(rem32(a, b, true)))
        && number(row, 12) == Some(u64::from(rem32(a, b, false)))
}

/// Whether all that a row has is so.
fn is_right(row: &str) -> bool {
    match (number(row, 0), number(row, 1)) {
        (Some(a), Some(b)) => {
            is_product(row, a, b)
                && is_quotient(row, a, b)
                && is_short_quotient(row, low32(a), low32(b))
        }
        _ => false,
    }
}

#[test]
fn products_and_quotients(rt: HostRuntime) {
    let rows = str::from_utf8(RESULTS).unwrap_or("");
    assert!(rt; rows.lines().count() == 14);
    for row in rows.lines() {
        assert!(rt; is_right(row), "{row}");
    }
}
