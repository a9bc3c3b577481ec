use least::laws::{nearer_in_any_grouping, nearest_is_first, nearest_of_parts};
use least::{
    Found, Place, first_below, first_below_u64, least_below, least_below_u64, nearer, nearest,
    nearest_below,
};

/// What was found, by its section, its offset and its number.
static FOUND: [(u32, u64, u8); 6] = [
    (2, 0, 0),
    (1, u64::MAX, 1),
    (1, 8, 2),
    (1, 8, 3),
    (3, 0, 4),
    (1, 9, 5),
];

/// A finding of the table, none where there is no such row.
fn found_in(row: u32) -> Option<Found<u8>> {
    found(*FOUND.get(row as usize)?)
}

/// A finding, none where its number is 4.
fn found(row: (u32, u64, u8)) -> Option<Found<u8>> {
    let place = Place {
        section: row.0,
        offset: row.1,
    };
    let what = row.2;
    if what == 4 {
        return None;
    }
    Some(Found { place, what })
}

/// Whether this is what was found.
fn is_number(found: Option<Found<u8>>, number: u8) -> bool {
    match found {
        Some(found) => found.what == number,
        None => false,
    }
}

#[test]
fn first_and_least_are_found(rt: HostRuntime) {
    assert!(rt; first_below(9, |n| n % 4 == 3) == Some(3));
    assert!(rt; first_below(3, |n| n % 4 == 3).is_none());
    assert!(rt; first_below_u64(1 << 40, |n| n > 0x1_0001) == Some(0x1_0002));
    assert!(rt; least_below(4, |n| Some(u64::from(9 - n.min(9)))) == Some(6));
    assert!(rt; least_below_u64(4, |_| None).is_none());
}

#[test]
fn nearest_is_found(rt: HostRuntime) {
    assert!(rt; is_number(nearest(&FOUND, found), 2));
    assert!(rt; is_number(nearest_below(6, found_in), 2));
    assert!(rt; is_number(nearest_below(2, found_in), 1));
    assert!(rt; nearest_below(0, found_in).is_none());
    assert!(rt; is_number(nearer(found_in(3), found_in(2)), 3));
    assert!(rt; is_number(nearer(found_in(4), found_in(0)), 0));
    nearest_is_first::<u8>();
    nearest_of_parts::<u8>();
    nearer_in_any_grouping::<u8>();
}
