use cfi_layout::laws::least_code;
use cfi_layout::{Placement, Short, are_shorts, place, shorten};
use rv_image::Form;
use rv_word::End;
use std::alloc::Global;

/// Where the first unit stands.
fn units_start(form: Form) -> u64 {
    match form {
        Form::Plain | Form::Split => 0x4000_0040,
        Form::Harts | Form::HartsSplit => 0x4000_0050,
        Form::Lean => 0x4000_002c,
        Form::HartsLean => 0x4000_003c,
    }
}

static FORMS: [Form; 6] = [
    Form::Plain,
    Form::Harts,
    Form::Split,
    Form::HartsSplit,
    Form::Lean,
    Form::HartsLean,
];

/// Sizes of parts, and where they start and the last ends, from the first unit on.
static PLACED: [([u32; 3], [u64; 4]); 3] = [
    ([4, 12, 12], [0, 4, 16, 28]),
    ([0, 0, 0], [0, 0, 0, 0]),
    ([1_048_492, 0, 4], [0, 1_048_492, 1_048_492, 1_048_496]),
];

/// Those that have room in the forms for one hart alone, where they are placed.
static NARROW: ([u32; 3], [u64; 4]) = ([1_048_508, 0, 4], [0, 1_048_508, 1_048_508, 1_048_512]);

/// Sizes that are too large in a form, and the bytes of the code.
static TOO_LARGE: [(Form, [u32; 3], u128); 9] = [
    (Form::Plain, [1_048_508, 4, 4], 1_048_580),
    (Form::Plain, [u32::MAX, u32::MAX, u32::MAX], 12_884_901_949),
    (Form::Harts, [1_048_492, 4, 4], 1_048_580),
    (Form::Harts, [1_048_508, 0, 4], 1_048_592),
    (Form::Harts, [u32::MAX, u32::MAX, u32::MAX], 12_884_901_965),
    (Form::Split, [1_048_508, 4, 4], 1_048_580),
    (Form::HartsSplit, [1_048_508, 0, 4], 1_048_592),
    (Form::Lean, [1_048_528, 4, 4], 1_048_580),
    (Form::HartsLean, [1_048_512, 4, 4], 1_048_580),
];

/// A branch's part, its target's part, the bytes before it in its part, and whether it is kept long.
type Branch = (u32, u32, u32, bool);

/// Sizes of parts, two branches, where parts start and the last ends, and whether each branch is long.
type Row = ([u32; 5], Branch, Branch, [u64; 6], bool, bool);

/// Worked out by hand.
#[rattlefmt::skip]
static SHORTENED: [Row; 13] = [
    // Both reach, 4092 bytes ahead.
    ([8, 4084, 8, 4088, 4], (0, 3, 0, false), (2, 4, 0, false), [0, 4, 4088, 4092, 8180, 8184], false, false),
    // The second would have 4096 bytes to go, and being long it leaves as many to the first.
    ([8, 4084, 8, 4092, 4], (0, 3, 0, false), (2, 4, 0, false), [0, 8, 4092, 4100, 8192, 8196], true, true),
    // The second would, and the first reaches all the same.
    ([8, 4080, 8, 4092, 4], (0, 3, 0, false), (2, 4, 0, false), [0, 4, 4084, 4092, 8184, 8188], false, true),
    // The second reaches, but is kept long, and the first does not reach by that.
    ([8, 4084, 8, 4, 4], (0, 3, 0, false), (2, 4, 0, true), [0, 8, 4092, 4100, 4104, 4108], true, true),
    // From the first's word, after its gate word, 4092 bytes and 4096.
    ([12, 4088, 8, 4, 4], (0, 2, 4, false), (2, 4, 0, false), [0, 8, 4096, 4100, 4104, 4108], false, false),
    ([12, 4092, 8, 4, 4], (0, 2, 4, false), (2, 4, 0, false), [0, 12, 4104, 4108, 4112, 4116], true, false),
    // From the second's word, after its gate word, 4096 bytes behind and 4100.
    ([8, 4088, 12, 4, 4], (0, 0, 0, false), (2, 0, 4, false), [0, 4, 4092, 4100, 4104, 4108], false, false),
    ([8, 4092, 12, 4, 4], (0, 0, 0, false), (2, 0, 4, false), [0, 4, 4096, 4108, 4112, 4116], false, true),
    // The same behind two words of eight bytes.
    ([16, 4088, 8, 4, 4], (0, 2, 8, false), (2, 4, 0, false), [0, 12, 4100, 4104, 4108, 4112], false, false),
    ([16, 4092, 8, 4, 4], (0, 2, 8, false), (2, 4, 0, false), [0, 16, 4108, 4112, 4116, 4120], true, false),
    ([8, 4084, 16, 4, 4], (0, 0, 0, false), (2, 0, 8, false), [0, 4, 4088, 4100, 4104, 4108], false, false),
    ([8, 4088, 16, 4, 4], (0, 0, 0, false), (2, 0, 8, false), [0, 4, 4092, 4108, 4112, 4116], false, true),
    // The first is kept long, and the second does not reach behind it by that.
    ([8, 4088, 12, 4, 4], (0, 0, 0, true), (2, 0, 4, false), [0, 8, 4096, 4108, 4112, 4116], true, true),
];

/// Whether parts start, and the last ends, so many bytes after where the first unit of a form stands.
fn stand(form: Form, placement: &Placement, offsets: &[u64]) -> bool {
    let starts = placement.starts();
    if starts.len() != offsets.len() {
        return false;
    }
    for k in 0..starts.len() {
        if starts[k].wrapping_sub(units_start(form)) != offsets[k] {
            return false;
        }
    }
    true
}

/// Whether parts are placed in a form as a row says.
fn is_placed(alloc: Global, form: Form, row: &([u32; 3], [u64; 4])) -> bool {
    match place(alloc, form, &row.0) {
        Ok(placement) => stand(form, &placement, &row.1) && placement.is_long(0),
        Err(_) => false,
    }
}

/// Whether parts are too large as a row says.
fn is_too_large(alloc: Global, row: &(Form, [u32; 3], u128)) -> bool {
    match place(alloc, row.0, &row.1) {
        Err(End::Fault(fault)) => fault.bytes == row.2,
        _ => false,
    }
}

#[test]
fn parts_are_placed(rt: HostRuntime) {
    for form in FORMS {
        for row in &PLACED {
            assert!(rt;
                is_placed(rt.alloc(), form, row),
                "{} {}",
                form.name(),
                row.0[0]
            );
        }
    }
    assert!(rt; is_placed(rt.alloc(), Form::Plain, &NARROW));
    assert!(rt; is_placed(rt.alloc(), Form::Split, &NARROW));
    least_code();
}

#[test]
fn parts_are_too_large(rt: HostRuntime) {
    for row in &TOO_LARGE {
        assert!(rt; is_too_large(rt.alloc(), row), "{} {}", row.0.name(), row.2);
    }
}

/// The branch that a row says.
fn short(row: Branch) -> Short {
    Short {
        at: row.0,
        target: row.1,
        lead: row.2,
        keep: row.3,
    }
}

/// Where parts stand in a form with each branch short that can be, if they can be placed.
fn shortened(alloc: Global, form: Form, sizes: &[u32], branches: &[Short]) -> Option<Placement> {
    if !are_shorts(sizes, branches) {
        return None;
    }
    match place(alloc, form, sizes) {
        Ok(_) => shorten(alloc, form, sizes, branches).ok(),
        Err(_) => None,
    }
}

/// Whether branches are short and long in a form as a row says.
fn is_shortened(alloc: Global, form: Form, row: &Row) -> bool {
    let branches = [short(row.1), short(row.2)];
    match shortened(alloc, form, &row.0, &branches) {
        Some(placement) => {
            stand(form, &placement, &row.3)
                && placement.is_long(0) == row.4
                && placement.is_long(1)
                && placement.is_long(2) == row.5
        }
        None => false,
    }
}

#[test]
fn layouts(rt: HostRuntime) {
    for form in FORMS {
        for row in &SHORTENED {
            assert!(rt;
                is_shortened(rt.alloc(), form, row),
                "{} {}",
                form.name(),
                row.3[5]
            );
        }
    }
}
