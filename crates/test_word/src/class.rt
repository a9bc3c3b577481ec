use cfi_class::{classes, labels};
use rv_word::{NoMemory, Places};
use std::alloc::{AllocError, Global};

const MAX: u64 = u64::MAX;

/// What stands after each list of numbers.
const END: u64 = 0xe0d;

/// Sets, and the classes of their members.
static CLASSES: [(&[u64], &[u64]); 25] = [
    (&[], &[]),
    (&[END], &[]),
    (&[END, END, END], &[]),
    (&[7, END], &[7, END]),
    (&[0, END], &[0, END]),
    (
        &[1, 2, END, 2, 3, END, END, 5, END],
        &[1, 2, 3, END, 5, END],
    ),
    (&[1, 2, END, 3, 4, END], &[1, 2, END, 3, 4, END]),
    (&[3, 4, END, 1, 2, END], &[1, 2, END, 3, 4, END]),
    (&[1, 9, END, 1, 9, END, 1, 9, END], &[1, 9, END]),
    (
        &[1, 2, END, 2, 3, END, 3, 4, END, 4, 5, END],
        &[1, 2, 3, 4, 5, END],
    ),
    (
        &[4, 5, END, 3, 4, END, 2, 3, END, 1, 2, END],
        &[1, 2, 3, 4, 5, END],
    ),
    (
        &[
            1, 10, END, 2, 10, END, 3, 10, END, 4, 20, END, 5, 20, END, 3, 4, END,
        ],
        &[1, 2, 3, 4, 5, 10, 20, END],
    ),
    (
        &[1, 10, END, 2, 10, END, 4, 20, END, 5, 20, END],
        &[1, 2, 10, END, 4, 5, 20, END],
    ),
    (
        &[0, MAX, END, 1, MAX - 1, END, 1 << 63, END],
        &[0, MAX, END, 1, MAX - 1, END, 1 << 63, END],
    ),
    (&[MAX - 1, MAX, END, 0, MAX, END], &[0, MAX - 1, MAX, END]),
    (&[1, 3, 5, END, 2, 4, 6, END], &[1, 3, 5, END, 2, 4, 6, END]),
    (
        &[5, 6, END, 7, 8, END, 1, 7, END],
        &[1, 7, 8, END, 5, 6, END],
    ),
    (
        &[1, 2, 3, END, 4, 5, 6, END, 3, 4, END],
        &[1, 2, 3, 4, 5, 6, END],
    ),
    (&[3, END, 1, END, 2, END], &[1, END, 2, END, 3, END]),
    (&[1, END, 2, END, 3, END, 1, 2, 3, END], &[1, 2, 3, END]),
    (&[END, 1, 2, END, END, END, 2, 3, END, END], &[1, 2, 3, END]),
    (&[3, 1, 1, END, 2, 3, END], &[1, 2, 3, END]),
    (&[1, 2, 3, 4, END, 2, 3, END, 1, 4, END], &[1, 2, 3, 4, END]),
    (
        &[
            1, 2, END, 3, 4, END, 5, 6, END, 7, 8, END, 4, 5, END, 2, 7, END,
        ],
        &[1, 2, 7, 8, END, 3, 4, 5, 6, END],
    ),
    (
        &[
            0x4000_0040,
            0x4000_0048,
            END,
            0x4000_0044,
            END,
            0x4000_0044,
            0x4000_0050,
            END,
        ],
        &[0x4000_0040, 0x4000_0048, END, 0x4000_0044, 0x4000_0050, END],
    ),
];

/// How many labels, the numbers in use, and the labels.
static LABELS: [(usize, &[u32], &[u32]); 22] = [
    (0, &[], &[]),
    (0, &[1, 2], &[]),
    (1, &[], &[1]),
    (3, &[], &[1, 2, 3]),
    (3, &[1, 3], &[2, 4, 5]),
    (1, &[1], &[2]),
    (1, &[2], &[1]),
    (2, &[1, 2, 3], &[4, 5]),
    (3, &[3, 2, 1], &[4, 5, 6]),
    (2, &[2, 2, 2, 2], &[1, 3]),
    (4, &[5, 3, 5, 3], &[1, 2, 4, 6]),
    (2, &[0], &[1, 2]),
    (2, &[u32::MAX], &[1, 2]),
    (3, &[0, u32::MAX, 2], &[1, 3, 4]),
    (2, &[7, 1], &[2, 3]),
    (5, &[2, 4, 6, 8], &[1, 3, 5, 7, 9]),
    (3, &[4], &[1, 2, 3]),
    (3, &[1, 1, 2, 2, 3, 3], &[4, 5, 6]),
    (1, &[0x8000_0000, 0xf_ffff], &[1]),
    (2, &[3, 1, 2, 6, 5], &[4, 7]),
    (2, &[0x10_0000, 0xf_ffff, 1], &[2, 3]),
    (1, &[5, 4, 3, 2, 1, 0], &[6]),
];

/// The sets of a row.
fn sets_of(alloc: Global, row: &[u64]) -> Result<Vec<Places>, AllocError> {
    let mut sets = Vec::new(alloc);
    let mut set = Vec::new(alloc);
    for number in row {
        if *number == END {
            sets.push(Places::of(set))?;
            set = Vec::new(alloc);
        } else {
            set.push(*number)?;
        }
    }
    Ok(sets)
}

#[test]
fn classes_by_hand(rt: HostRuntime) {
    for row in &CLASSES {
        let right = is_right(rt.alloc(), row);
        assert!(rt; matches!(right, Ok(true)), "{:?}", row.0);
    }
}

/// Whether a row's sets have its classes.
fn is_right(alloc: Global, row: &(&[u64], &[u64])) -> Result<bool, NoMemory> {
    let sets = sets_of(alloc, row.0)?;
    are_classes(alloc, &sets, row.1)
}

/// Whether some sets have these classes.
fn are_classes(alloc: Global, sets: &[Places], wanted: &[u64]) -> Result<bool, NoMemory> {
    Ok(are_sets(&classes(alloc, sets)?, wanted))
}

/// Whether some sets are those of a row.
fn are_sets(sets: &[Places], row: &[u64]) -> bool {
    let mut rest = row;
    for set in sets {
        match after(rest, set.as_slice()) {
            Some(more) => rest = more,
            None => return false,
        }
    }
    rest.is_empty()
}

/// What comes after a set at the start of a row.
fn after<'a>(row: &'a [u64], set: &[u64]) -> Option<&'a [u64]> {
    row.strip_prefix(set)?.strip_prefix(&[END])
}

#[test]
fn labels_by_hand(rt: HostRuntime) {
    for row in &LABELS {
        let right = has_labels(rt.alloc(), row);
        assert!(rt; matches!(right, Ok(true)), "{} {:?}", row.0, row.1);
    }
}

/// Whether a row's labels are so.
fn has_labels(alloc: Global, row: &(usize, &[u32], &[u32])) -> Result<bool, NoMemory> {
    are_labels(alloc, row.0, row.1, row.2)
}

/// Whether so many labels beside some numbers in use are these.
fn are_labels(alloc: Global, count: usize, used: &[u32], wanted: &[u32]) -> Result<bool, NoMemory> {
    if count > 1000 || used.len() > 1_000_000 {
        return Ok(false);
    }
    Ok(labels(alloc, count, used)?.as_slice() == wanted)
}

/// 2000 sets of numbers that follow each other: where the first begins, how far each begins from the one before,
/// and how many numbers each has. Then how many classes they have, and of how many members.
struct Large(&'static str, u64, i64, u64, usize, usize);

static LARGE: [Large; 4] = [
    Large("rising chain", 0, 1, 2, 1, 2001),
    Large("falling chain", 1999, -1, 2, 1, 2001),
    Large("same sets", 0, 0, 2000, 1, 2000),
    Large("single targets", 0, 1, 1, 2000, 1),
];

/// The 2000 sets of a row.
fn sets_from(alloc: Global, row: &Large) -> Result<Vec<Places>, AllocError> {
    let mut sets = Vec::new(alloc);
    let mut first = row.1;
    for _ in 0..2000 {
        sets.push(set_from(alloc, first, row.3)?)?;
        first = first.saturating_add_signed(row.2);
    }
    Ok(sets)
}

/// The set of so many numbers from one on.
fn set_from(alloc: Global, first: u64, count: u64) -> Result<Places, AllocError> {
    let all: Vec<u64> = (first..first.saturating_add(count)).collect(alloc)?;
    Ok(Places::of(all))
}

/// Whether the sets of a row have its classes.
fn has_classes(alloc: Global, row: &Large) -> Result<bool, NoMemory> {
    let sets = sets_from(alloc, row)?;
    Ok(have_size(&classes(alloc, &sets)?, row.4, row.5))
}

/// Whether so many classes have so many members each.
fn have_size(classes: &[Places], count: usize, members: usize) -> bool {
    for class in classes {
        if class.len() != members {
            return false;
        }
    }
    classes.len() == count
}

#[test]
fn large_sets(rt: HostRuntime) {
    for row in &LARGE {
        assert!(rt;
            matches!(has_classes(rt.alloc(), row), Ok(true)),
            "{}",
            row.0
        );
    }
}

/// Whether, where of the remainders by the prime 1000003 all but those of -3, -2 and -1 times 7919 are in
/// use, the first labels are these three.
fn finds_the_unused(alloc: Global) -> Result<bool, NoMemory> {
    let mut used: Vec<u32> = Vec::new(alloc);
    for k in 0..1_000_000u64 {
        used.push((k * 7919 % 1_000_003) as u32)?;
    }
    let wanted = [976_246, 984_165, 992_084, 1_000_003, 1_000_004];
    Ok(used.len() == 1_000_000 && are_labels(alloc, 5, &used, &wanted)?)
}

#[test]
fn a_million_numbers_in_use(rt: HostRuntime) {
    assert!(rt; matches!(finds_the_unused(rt.alloc()), Ok(true)));
}
