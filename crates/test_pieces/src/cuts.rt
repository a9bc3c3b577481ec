//! What is listed of codes that come in pieces, wherever they are cut: units, their entries and the prologue.
ghost use Rattle.std.specs.Prelude.{◌≡◌, ◌<◌, ◌≤◌, ◌^◌};

use crate::near::{FIRST, NEAR, SKIPS};
use cfi_emit::recognise;
use cfi_scan::{Entry, Feeder, Listing, Steps};
use cfi_unit::{Mask, SystemOp, TargetWord, Unit};
use rv_image::{GraphVersion, ImageVersion, Versions};
use rv_word::Numbers;
use sample_programs::{
    A, A_OF_HARTS, AIMED, B, BREAK, DEEP, ECHO, EDGE, H, JOBS, JUMP, LOAD, LOOP, NOWHERE, OTHER, P,
    PROLOGUE, PROLOGUE_OF_HARTS, SECOND, SHARED, STATUS, code, code_of_harts,
};
use std::alloc::Global;
use std::marker::Brand;
use std::sync::ledger::{Blank, Ledger};

/// System calls behind tests of their numbers, as the rules for units give their words: of 64, and of 0, 93 and
/// 2047. A system call that tests nothing and the first word of another unit follow.
const GUARDS: [u32; 14] = [
    0x04000f93, 0x011f8463, 0xfb9ff06f, 0x00000073, 0x00000f93, 0x011f8c63, 0x05d00f93, 0x011f8863,
    0x7ff00f93, 0x011f8463, 0xf99ff06f, 0x00000073, 0x00000073, 0x04000f93,
];

/// One of the numbers 1 to 8.
const EIGHT: [u32; 18] = [
    0x00100f93, 0x051f8063, 0x00200f93, 0x031f8c63, 0x00300f93, 0x031f8863, 0x00400f93, 0x031f8463,
    0x00500f93, 0x031f8063, 0x00600f93, 0x011f8c63, 0x00700f93, 0x011f8863, 0x00800f93, 0x011f8463,
    0xf81ff06f, 0x00000073,
];

/// A list of system calls, whose numbers these are.
fn list(numbers: &[u16]) -> Option<Numbers> {
    let mut calls = Numbers::new();
    for number in numbers {
        if calls.len() >= 8 || *number >= 2048 {
            return None;
        }
        calls.push(*number);
    }
    Some(calls)
}

/// The code of an image of a version, in pieces of a size, with room for so many words, under a list of system
/// calls if it has a number.
fn fed<L: Ledger>(
    alloc: Global,
    blank: Blank,
    version: ImageVersion,
    calls: &[u16],
    bytes: &[u8],
    room: usize,
    size: usize,
) -> Option<Listing>
    requires name { blank.name ≡ L.name }
    requires parts { blank.parts ≡ L.parts }
    requires some { 0 < L.parts }
    requires size { 0 < size }
{
    if room > 1000 {
        return None;
    }
    let numbers = if calls.is_empty() {
        None
    } else {
        Some(list(calls)?)
    };
    let mut steps = Steps::<L>::new(blank);
    let versions = Versions {
        image: version,
        graph: GraphVersion::OneLabel,
    };
    let mut feeder = Feeder::new(alloc, versions, numbers, room).ok()?;
    for piece in bytes.chunks(size) {
        if feeder.fed() > 1_000_000 || piece.len() > 1_000_000 {
            return None;
        }
        feeder.feed(piece, &mut steps);
    }
    Some(feeder.finish())
}

/// The same under a ledger of its own.
fn listed(
    alloc: Global,
    version: ImageVersion,
    calls: &[u16],
    bytes: &[u8],
    room: usize,
    size: usize,
) -> Option<Listing>
    requires { 0 < size }
{
    fed::<Brand>(alloc, Blank::new(1), version, calls, bytes, room, size)
}

/// Where the first unit of a version's images stands.
fn first(version: ImageVersion) -> u64
    ensures { result ≤ 0x40000050 }
{
    match version {
        ImageVersion::OneHart => FIRST,
        ImageVersion::EightHarts => 0x4000_0050,
    }
}

/// Where a field leads from an address, whose offsets are below a bound each way.
fn target(from: u64, field: u32, bound: u64) -> u64
    requires from { from < 2 ^ 33 }
    requires bound { bound < 2 ^ 33 }
{
    let there = from + 2 * field as u64;
    if 2 * field as u64 >= bound {
        there.wrapping_sub(2 * bound)
    } else {
        there
    }
}

/// The number of the kind of a computed jump, by the word that its check reads.
fn jump_kind(which: TargetWord) -> u8 {
    match which {
        TargetWord::First => 6,
        TargetWord::Second => 10,
        TargetWord::Third => 13,
    }
}

/// An entry at an address by the number of its kind, and its label or target.
fn told(entry: Entry, at: u64) -> (u8, u64)
    requires { at < 2 ^ 32 }
{
    match entry {
        Entry::Inside => (0, 0),
        Entry::Near(field) => (1, target(at, field.bits(), 0x1000)),
        Entry::Branch(field) => (2, target(at + 4, field.bits(), 0x10_0000)),
        Entry::Jump(field) => (3, target(at, field.bits(), 0x10_0000)),
        Entry::Stop => (4, 0),
        Entry::Call(field) => (5, target(at + 28, field.bits(), 0x10_0000)),
        Entry::Ijump(which, label) => (jump_kind(which), label.bits() as u64),
        Entry::Icall(label) => (7, label.bits() as u64),
        Entry::Gate(label) => (8, label.bits() as u64),
        Entry::Other => (9, 0),
        Entry::Ecall => (11, 0),
        Entry::Guarded(same) => (12, u64::from(same)),
        Entry::LeanStores => (14, 0),
        Entry::LinkCall(field) => (15, target(at, field.bits(), 0x10_0000)),
        Entry::Enter => (16, 0),
        Entry::LeanIjump(label) => (17, label.bits() as u64),
        Entry::LeanIcall(label) => (18, label.bits() as u64),
        Entry::LeafReturn => (19, 0),
        Entry::WritesLink => (20, 0),
        Entry::Return => (21, 0),
        Entry::Break => (22, 0),
        Entry::Stores => (23, 0),
    }
}

/// The number of a plain unit's kind, by whether its instruction writes x1: bits 7 to 11 of its word, where it writes a register at all.
fn plain_kind(word: u32) -> u8 {
    if word / 128 % 32 == 1 && word % 128 != 0x0f {
        20
    } else {
        9
    }
}

/// A unit, whose first word is given, by the number of its entry's kind, and its label or target.
fn of_unit(unit: &Unit, word: u32, calls: &[u16]) -> (u8, u64) {
    match unit {
        Unit::Gate(label) => (8, label.bits() as u64),
        Unit::Branch(_, _, _, target) => (2, *target),
        Unit::Near(_, _, _, target) => (1, *target),
        Unit::Jump(target) => (3, *target),
        Unit::Stop => (4, 0),
        Unit::Call(target) => (5, *target),
        Unit::Ijump(which, _, _, label) => (jump_kind(*which), label.bits() as u64),
        Unit::Icall(_, _, label) => (7, label.bits() as u64),
        Unit::Plain(_) => (plain_kind(word), 0),
        Unit::System(SystemOp::Ecall) => (11, 0),
        Unit::System(SystemOp::Ebreak) => (22, 0),
        Unit::Guarded(numbers) => (12, u64::from(numbers.as_slice() == calls)),
        Unit::Stores(Mask::Shifts, ..) => (23, 0),
        Unit::Return => (21, 0),
        Unit::Stores(..) => (14, 0),
        Unit::LinkCall(target) => (15, *target),
        Unit::Enter => (16, 0),
        Unit::LeanIjump(_, _, label) => (17, label.bits() as u64),
        Unit::LeanIcall(_, _, label) => (18, label.bits() as u64),
        Unit::LeafReturn => (19, 0),
    }
}

/// How many words the unit at an index has, if the listing has its entry there: none where no unit
/// begins and none is listed.
fn count_at(listing: &Listing, calls: &[u16], words: &[u32], k: usize) -> Option<usize> {
    if k >= words.len() || k > 10_000 {
        return None;
    }
    let at = first(listing.versions().image) + 4 * k as u64;
    let entry = listing.entry(k)?;
    let Some((unit, count)) = recognise(&words[k..], at) else {
        return if entry == Entry::Inside {
            Some(0)
        } else {
            None
        };
    };
    if told(entry, at) == of_unit(&unit, words[k], calls) {
        Some(count as usize)
    } else {
        None
    }
}

/// Whether the listing of a code says of each word what its units are.
fn is_listed(listing: &Listing, calls: &[u16], words: &[u32]) -> bool {
    let mut next = 0;
    let mut last = 0;
    for k in 0..words.len() {
        if k == next {
            let Some(count) = count_at(listing, calls, words, k) else {
                return false;
            };
            if count > 0 {
                last = k;
                next = k.saturating_add(count);
            }
        } else if listing.entry(k) != Some(Entry::Inside) {
            return false;
        }
    }
    listing.done() == next && listing.last() == last
}

/// The code of the prologue of a version and some units.
fn code_in(alloc: Global, version: ImageVersion, words: &[u32]) -> Option<Vec<u8>> {
    match version {
        ImageVersion::OneHart => code(alloc, words).ok(),
        ImageVersion::EightHarts => code_of_harts(alloc, words).ok(),
    }
}

/// Whether a listing has the prologue of its version.
fn has_prologue(listing: &Listing) -> bool {
    match listing.versions().image {
        ImageVersion::OneHart => listing.prologue() == PROLOGUE.as_slice(),
        ImageVersion::EightHarts => listing.prologue() == PROLOGUE_OF_HARTS.as_slice(),
    }
}

/// Whether the code of a version's image is listed as its units are, in pieces of a size.
fn is_right_under(
    alloc: Global,
    version: ImageVersion,
    calls: &[u16],
    words: &[u32],
    size: usize,
) -> bool
    requires { 0 < size }
{
    if words.len() > 900 {
        return false;
    }
    let Some(bytes) = code_in(alloc, version, words) else {
        return false;
    };
    let Some(listing) = listed(alloc, version, calls, &bytes, bytes.len() / 4, size) else {
        return false;
    };
    listing.versions().image == version
        && has_prologue(&listing)
        && listing.fed() as usize == bytes.len()
        && is_listed(&listing, calls, words)
}

/// The same without a list.
fn is_right_in(alloc: Global, version: ImageVersion, words: &[u32], size: usize) -> bool
    requires { 0 < size }
{
    is_right_under(alloc, version, &[], words, size)
}

/// The same in images for one hart.
fn is_right(alloc: Global, words: &[u32], size: usize) -> bool
    requires { 0 < size }
{
    is_right_in(alloc, ImageVersion::OneHart, words, size)
}

/// Whether it is so of the code with each bit of each word turned.
fn are_right(alloc: Global, words: &[u32]) -> bool {
    are_right_under(alloc, &[], words)
}

/// The same under a list of system calls.
fn are_right_under(alloc: Global, calls: &[u16], words: &[u32]) -> bool {
    let Ok(mut turned) = Vec::from_slice(alloc, words) else {
        return false;
    };
    for k in 0..turned.len() {
        for bit in 0..32_u32 {
            turned[k] ^= 1 << bit;
            if !is_right_under(alloc, ImageVersion::OneHart, calls, &turned, 4096) {
                return false;
            }
            turned[k] ^= 1 << bit;
        }
    }
    true
}

/// Whether a code with room for less, or cut off in a word, keeps what it has room for and counts its bytes.
fn is_kept(alloc: Global, bytes: &[u8], room: usize, prologue: usize, done: usize) -> bool {
    let Some(listing) = listed(alloc, ImageVersion::OneHart, &[], bytes, room, 7) else {
        return false;
    };
    listing.prologue().len() == prologue
        && listing.fed() as usize == bytes.len()
        && listing.done() == done
        && listing.entry(room.saturating_sub(16)).is_none()
}

#[test]
fn cut_anywhere(rt: HostRuntime) {
    for size in 1..9 {
        assert!(rt; is_right(rt.alloc(), &A, size), "A {size}");
        assert!(rt; is_right(rt.alloc(), &B, size), "B {size}");
        assert!(rt; is_right(rt.alloc(), &H, size), "H {size}");
        assert!(rt; is_right(rt.alloc(), &P, size), "P {size}");
        assert!(rt; is_right(rt.alloc(), &SKIPS, size), "skips.s {size}");
        assert!(rt; is_right(rt.alloc(), &NEAR, size), "near.s {size}");
        assert!(rt; is_right(rt.alloc(), &SECOND, size), "SECOND {size}");
    }
}

#[test]
fn in_one_piece(rt: HostRuntime) {
    assert!(rt; is_right(rt.alloc(), &AIMED, 4096), "AIMED");
    assert!(rt; is_right(rt.alloc(), &BREAK, 4096), "BREAK");
    assert!(rt; is_right(rt.alloc(), &DEEP, 4096), "DEEP");
    assert!(rt; is_right(rt.alloc(), &ECHO, 4096), "ECHO");
    assert!(rt; is_right(rt.alloc(), &EDGE, 4096), "EDGE");
    assert!(rt; is_right(rt.alloc(), &JUMP, 4096), "JUMP");
    assert!(rt; is_right(rt.alloc(), &LOAD, 4096), "LOAD");
    assert!(rt; is_right(rt.alloc(), &LOOP, 4096), "LOOP");
    assert!(rt; is_right(rt.alloc(), &NOWHERE, 4096), "NOWHERE");
    assert!(rt; is_right(rt.alloc(), &OTHER, 4096), "OTHER");
    assert!(rt; is_right(rt.alloc(), &STATUS, 4096), "STATUS");
}

#[test]
fn for_several_harts(rt: HostRuntime) {
    for size in 1..9 {
        assert!(rt;
            is_right_in(rt.alloc(), ImageVersion::EightHarts, &A_OF_HARTS, size),
            "A_OF_HARTS {size}"
        );
        assert!(rt;
            is_right_in(rt.alloc(), ImageVersion::EightHarts, &SHARED, size),
            "SHARED {size}"
        );
        assert!(rt;
            is_right_in(rt.alloc(), ImageVersion::EightHarts, &JOBS, size),
            "JOBS {size}"
        );
    }
}

#[test]
fn with_a_bit_turned(rt: HostRuntime) {
    assert!(rt; are_right(rt.alloc(), &P), "P");
    assert!(rt; are_right(rt.alloc(), &H), "H");
    assert!(rt; are_right(rt.alloc(), &SKIPS), "skips.s");
    assert!(rt; are_right(rt.alloc(), &NEAR), "near.s");
    assert!(rt; are_right(rt.alloc(), &SECOND), "SECOND");
}

/// Whether the entry of the unit at an index under a list tells whether its numbers are the list's.
fn tells(alloc: Global, calls: &[u16], words: &[u32], index: usize, same: bool) -> bool {
    let Some(bytes) = code_in(alloc, ImageVersion::OneHart, words) else {
        return false;
    };
    let Some(listing) = listed(
        alloc,
        ImageVersion::OneHart,
        calls,
        &bytes,
        bytes.len() / 4,
        7,
    ) else {
        return false;
    };
    listing.entry(index) == Some(Entry::Guarded(same)) && is_listed(&listing, calls, words)
}

#[test]
fn under_a_list(rt: HostRuntime) {
    let alloc = rt.alloc();
    assert!(rt; tells(alloc, &[64], &GUARDS, 0, true), "64");
    assert!(rt; tells(alloc, &[64], &GUARDS, 4, false), "64 for three");
    assert!(rt; tells(alloc, &[63], &GUARDS, 0, false), "63");
    assert!(rt; tells(alloc, &[64, 65], &GUARDS, 0, false), "one more");
    assert!(rt; tells(alloc, &[0, 93, 2047], &GUARDS, 4, true), "three");
    assert!(rt; tells(alloc, &[0, 93], &GUARDS, 4, false), "one less");
    assert!(rt;
        tells(alloc, &[0, 93, 2046], &GUARDS, 4, false),
        "another last"
    );
    assert!(rt;
        tells(alloc, &[1, 93, 2047], &GUARDS, 4, false),
        "another first"
    );
    assert!(rt;
        tells(alloc, &[0, 94, 2047], &GUARDS, 4, false),
        "another middle"
    );
    assert!(rt;
        tells(alloc, &[93, 0, 2047], &GUARDS, 4, false),
        "another order"
    );
    assert!(rt;
        tells(alloc, &[1, 2, 3, 4, 5, 6, 7, 8], &EIGHT, 0, true),
        "eight"
    );
    assert!(rt;
        tells(alloc, &[1, 2, 3, 4, 5, 6, 7, 9], &EIGHT, 0, false),
        "another eighth"
    );
    assert!(rt;
        tells(alloc, &[1, 2, 3, 4, 5, 6, 7], &EIGHT, 0, false),
        "seven"
    );
}

#[test]
fn system_calls_cut_anywhere(rt: HostRuntime) {
    for size in 1..9 {
        assert!(rt; is_right(rt.alloc(), &GUARDS, size), "no list {size}");
        assert!(rt;
            is_right_under(rt.alloc(), ImageVersion::OneHart, &[64], &GUARDS, size),
            "GUARDS {size}"
        );
        assert!(rt;
            is_right_under(rt.alloc(), ImageVersion::OneHart, &[64], &EIGHT, size),
            "EIGHT {size}"
        );
    }
}

#[test]
fn system_calls_with_a_bit_turned(rt: HostRuntime) {
    assert!(rt; are_right(rt.alloc(), &GUARDS), "no list");
    assert!(rt; are_right_under(rt.alloc(), &[64], &GUARDS), "64");
    assert!(rt;
        are_right_under(rt.alloc(), &[0, 93, 2047], &GUARDS),
        "three"
    );
    assert!(rt;
        are_right_under(rt.alloc(), &[1, 2, 3, 4, 5, 6, 7, 8], &EIGHT),
        "eight"
    );
}

#[test]
fn with_room_for_less(rt: HostRuntime) {
    let zeros = [0; 100];
    assert!(rt; is_kept(rt.alloc(), &zeros[..0], 0, 0, 0), "nothing");
    assert!(rt;
        is_kept(rt.alloc(), &zeros[..63], 16, 15, 0),
        "a byte less than a prologue"
    );
    assert!(rt; is_kept(rt.alloc(), &zeros[..64], 16, 16, 0), "a prologue");
    assert!(rt; is_kept(rt.alloc(), &zeros, 17, 16, 0), "past the room");
}
