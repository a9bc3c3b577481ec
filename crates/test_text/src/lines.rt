use rv_word::End;
use sample_programs::is_told_as;
use std::alloc::Global;
use text_lines::{
    Address, Case, LineFault, LongAddress, Reason, after_one_of, capped_number, decimal_of, hex_of,
    short_hex_of,
};

/// A word, and what it is as eight digits in lower case, as 1 to 8 digits of lower and of either case, and
/// in decimal.
struct Word(
    &'static str,
    Option<u32>,
    Option<u32>,
    Option<u32>,
    Option<u64>,
);

static WORDS: [Word; 14] = [
    Word("", None, None, None, None),
    Word("0", None, Some(0), Some(0), Some(0)),
    Word("00", None, None, None, None),
    Word("7", None, Some(7), Some(7), Some(7)),
    Word("1c", None, Some(0x1c), Some(0x1c), None),
    Word("1C", None, None, Some(0x1c), None),
    Word("01", None, None, None, None),
    Word("g", None, None, None, None),
    Word("+1", None, None, None, None),
    Word(
        "40000010",
        Some(0x4000_0010),
        Some(0x4000_0010),
        Some(0x4000_0010),
        Some(40_000_010),
    ),
    Word("0000001f", Some(0x1f), None, None, None),
    Word(
        "ffffffff",
        Some(0xffff_ffff),
        Some(0xffff_ffff),
        Some(0xffff_ffff),
        None,
    ),
    Word("DeadBeef", None, None, Some(0xdead_beef), None),
    Word("1000000001", None, None, None, Some(1_000_000_001)),
];

/// Whether a word is read as its row says.
fn is_read_so(row: &Word) -> bool {
    let word = row.0.as_bytes();
    hex_of(word, 8) == row.1
        && short_hex_of(word, Case::Lower) == row.2
        && short_hex_of(word, Case::Either) == row.3
        && decimal_of(word) == row.4
}

#[test]
fn words(rt: HostRuntime) {
    for row in &WORDS {
        assert!(rt; is_read_so(row), "{}", row.0);
    }
}

#[test]
fn large_numbers(rt: HostRuntime) {
    assert!(rt; capped_number(b"007") == Some(7));
    assert!(rt; decimal_of(b"340282366920938463463374607431768211457") == Some(1_000_000_001));
}

/// An address, and how its last eight digits and all sixteen are printed.
static PRINTED: [(u64, &str, &str); 3] = [
    (0, "00000000", "0000000000000000"),
    (0x4000_010c, "4000010c", "000000004000010c"),
    (0xfedc_ba98_7654_3210, "76543210", "fedcba9876543210"),
];

/// Whether an address is printed as its row says.
fn is_printed_so(alloc: Global, row: &(u64, &'static str, &'static str)) -> bool {
    is_told_as(alloc, &Address(row.0), row.1) && is_told_as(alloc, &LongAddress(row.0), row.2)
}

#[test]
fn addresses(rt: HostRuntime) {
    for row in &PRINTED {
        assert!(rt; is_printed_so(rt.alloc(), row), "{}", row.1);
    }
}

#[test]
fn reasons(rt: HostRuntime) {
    assert!(rt; is_told_as(rt.alloc(), &Reason::Form, "Form"));
    assert!(rt; is_told_as(rt.alloc(), &Reason::Range, "Range"));
    assert!(rt; is_told_as(rt.alloc(), &Reason::Order, "Order"));
}

/// A text, and if one of the names of `is_begun_so` is its first line, which of them, from 0, and what
/// stands after it.
static BEGUN: [(&[u8], Option<(usize, &[u8])>); 8] = [
    (b"form 1\nend\n", Some((0, b"end\n"))),
    (b"form 2 odd\nend\n", Some((1, b"end\n"))),
    (b"form 2 odd\n", Some((1, b""))),
    (b"form 2\nend\n", None),
    (b"form 2  odd\nend\n", None),
    (b"\nform 1\nend\n", None),
    (b"form 1", None),
    (b"", None),
];

/// Whether the first line of a text is told as its row says.
fn is_begun_so(row: &(&'static [u8], Option<(usize, &'static [u8])>)) -> bool {
    let names: [&[u8]; 2] = [b"form 1", b"form 2 odd"];
    match (after_one_of(row.0, &names), row.1) {
        (Ok((which, rest)), Some((place, after))) => which == place && rest == after,
        (Err(End::Fault(LineFault(1, Reason::Form))), None) => true,
        _ => false,
    }
}

#[test]
fn first_lines(rt: HostRuntime) {
    for row in &BEGUN {
        assert!(rt; is_begun_so(row));
    }
}
