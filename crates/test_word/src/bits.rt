use rv_image::Image;
use rv_word::{Bytes, Places, add64, field, low32, sext};
use std::alloc::Global;

/// A number, how many bits of it count, and these sign-extended.
static EXTENDED: [(u64, u32, u64); 8] = [
    (0xff8, 12, 0xffff_ffff_ffff_fff8),
    (0x7ff, 12, 0x7ff),
    (0xf_f800, 12, 0xffff_ffff_ffff_f800),
    (1, 1, u64::MAX),
    (0, 1, 0),
    (0x8000_0000, 32, 0xffff_ffff_8000_0000),
    (0x1_7fff_ffff, 32, 0x7fff_ffff),
    (u64::MAX, 64, u64::MAX),
];

/// A word, the first bit of a field of it, how many bits the field has, and the field.
static FIELDS: [(u32, u32, u32, u32); 7] = [
    (0xff81_bf83, 0, 7, 0x03),
    (0xff81_bf83, 7, 5, 31),
    (0xff81_bf83, 12, 3, 3),
    (0xff81_bf83, 15, 5, 3),
    (0xff81_bf83, 20, 12, 0xff8),
    (0xff81_bf83, 0, 32, 0xff81_bf83),
    (0xff81_bf83, 32, 0, 0),
];

/// The list of the bytes.
static BYTES: [u8; 3] = [1, 2, 3];

/// The list of the places.
static PLACES: [u64; 3] = [4, 8, u64::MAX];

/// The code and the data of an image.
static CODE: [u8; 4] = [0x73, 0, 0x10, 0];

static INIT: [u8; 2] = [7, 8];

/// Whether a number is sign-extended as a row says.
fn is_extended(row: &(u64, u32, u64)) -> bool {
    let &(value, bits, want) = row;
    1 <= bits && bits <= 64 && sext(value, bits) == want
}

#[test]
fn signs_are_extended(rt: HostRuntime) {
    for row in &EXTENDED {
        assert!(rt; is_extended(row), "{:x}", row.0);
    }
}

/// Whether a word has the field that a row says.
fn has_field(row: &(u32, u32, u32, u32)) -> bool {
    let &(word, lo, len, want) = row;
    lo <= 32 && len <= 32 - lo && field(word, lo, len) == want
}

#[test]
fn fields_of_a_word(rt: HostRuntime) {
    for k in 0..FIELDS.len() {
        assert!(rt; has_field(&FIELDS[k]), "field {k}");
    }
}

#[test]
fn sums_and_low_halves(rt: HostRuntime) {
    assert!(rt; add64(8, -16) == 0xffff_ffff_ffff_fff8);
    assert!(rt; add64(u64::MAX, 1) == 0);
    assert!(rt; low32(0x1234_5678_9abc_def0) == 0x9abc_def0);
}

/// Whether bytes hold the list.
fn hold_the_list(bytes: &Bytes) -> bool {
    bytes.as_slice() == BYTES.as_slice() && bytes.len() == 3 && !bytes.is_empty()
}

/// Whether bytes hold the list, and give it as a vector.
fn give_the_list(bytes: Bytes) -> bool {
    hold_the_list(&bytes) && bytes.into_vec().as_slice() == BYTES.as_slice()
}

/// Whether the bytes that are made of the list hold and give it.
fn are_made_of_the_list(alloc: Global) -> bool {
    match BYTES.to_vec(alloc) {
        Ok(list) => give_the_list(Bytes::of(list)),
        Err(_) => false,
    }
}

#[test]
fn bytes_are_a_list(rt: HostRuntime) {
    assert!(rt; are_made_of_the_list(rt.alloc()));
}

/// Whether places hold the list.
fn hold_all_places(places: &Places) -> bool {
    places.as_slice() == PLACES.as_slice() && places.len() == 3
}

/// Whether places hold the list once its last is pushed.
fn take_the_last(places: &mut Places) -> bool {
    places.push(u64::MAX).is_ok() && hold_all_places(places)
}

/// Whether the places that are made of the first two take the last.
fn are_made_of_the_first(alloc: Global) -> bool {
    match [4, 8].to_vec(alloc) {
        Ok(list) => {
            let mut places = Places::of(list);
            take_the_last(&mut places)
        }
        Err(_) => false,
    }
}

#[test]
fn places_are_a_list(rt: HostRuntime) {
    assert!(rt; are_made_of_the_first(rt.alloc()));
}

/// Whether an image has the bytes of which it is made.
fn has_its_bytes() -> bool {
    let image = Image::of(&CODE, &INIT);
    image.code() == CODE.as_slice() && image.init() == INIT.as_slice()
}

#[test]
fn an_image_has_its_bytes(rt: HostRuntime) {
    assert!(rt; has_its_bytes());
}
