ghost use Rattle.std.specs.Prelude.{◌≡◌, length};

use crate::common::put;
use elf_image::{ImageRefusal, read_image, write_image, write_image_as};
use rv_image::{Image, ImageVersion};
use rv_word::NoMemory;
use sample_programs::{A, code, is_told_as};
use std::alloc::Global;

/// The headers of the image of version 1 of a program that exits with 7, by hand, 8 bytes a line.
static HEADERS: [[u8; 8]; 29] = [
    [0x7f, 0x45, 0x4c, 0x46, 2, 1, 1, 0],
    [0, 0, 0, 0, 0, 0, 0, 0],
    [2, 0, 243, 0, 1, 0, 0, 0],
    [0x0c, 0, 0, 0x40, 0, 0, 0, 0],
    [64, 0, 0, 0, 0, 0, 0, 0],
    [0, 0, 0, 0, 0, 0, 0, 0],
    [0, 0, 0, 0, 64, 0, 56, 0],
    [3, 0, 0, 0, 0, 0, 0, 0],
    [1, 0, 0, 0, 6, 0, 0, 0],
    [0, 0x20, 0, 0, 0, 0, 0, 0],
    [0, 0, 1, 0, 0, 0, 0, 0],
    [0, 0, 1, 0, 0, 0, 0, 0],
    [0, 0, 0, 0, 0, 0, 0, 0],
    [0, 0x10, 0xff, 0x0f, 0, 0, 0, 0],
    [0, 0x10, 0, 0, 0, 0, 0, 0],
    [1, 0, 0, 0, 5, 0, 0, 0],
    [0, 0x10, 0, 0, 0, 0, 0, 0],
    [0, 0, 0, 0x40, 0, 0, 0, 0],
    [0, 0, 0, 0x40, 0, 0, 0, 0],
    [80, 0, 0, 0, 0, 0, 0, 0],
    [0, 0, 0x10, 0, 0, 0, 0, 0],
    [0, 0x10, 0, 0, 0, 0, 0, 0],
    [1, 0, 0, 0, 6, 0, 0, 0],
    [0, 0, 0, 0, 0, 0, 0, 0],
    [0, 0, 0, 0x60, 0, 0, 0, 0],
    [0, 0, 0, 0x60, 0, 0, 0, 0],
    [0, 0, 0, 0, 0, 0, 0, 0],
    [0, 0, 1, 0, 0, 0, 0, 0],
    [0, 0x10, 0, 0, 0, 0, 0, 0],
];

/// Where the size of the shadow stack stands in the headers, by which the versions differ.
const SHADOW_LENGTH: usize = 216;

/// That size in version 1, and in version 2.
static SHADOW_OF_1: [u8; 8] = [0, 0, 1, 0, 0, 0, 0, 0];

static SHADOW_OF_2: [u8; 8] = [0, 0, 8, 0, 0, 0, 0, 0];

type Change = (usize, usize, &'static [u8], Option<ImageRefusal>);

/// How long the image of the code and 4 bytes of data is made, with zeros past its own end, what is put in
/// place of its bytes, and where, and what the reader says.
#[rattlefmt::skip]
static CHANGES: [Change; 37] = [
    (8196, 0, &[0x7e], Some(ImageRefusal::Byte(0))),
    (8196, 6, &[2], Some(ImageRefusal::Byte(0))),
    (8196, 15, &[1], Some(ImageRefusal::Byte(0))),
    (8196, 17, &[1], Some(ImageRefusal::Byte(16))),
    (8196, 18, &[62], Some(ImageRefusal::Byte(18))),
    (8196, 24, &[0], Some(ImageRefusal::Byte(24))),
    (8196, 31, &[1], Some(ImageRefusal::Byte(24))),
    (8196, 48, &[1], Some(ImageRefusal::Byte(48))),
    (8196, 63, &[1], Some(ImageRefusal::Byte(62))),
    (8196, 64, &[2], Some(ImageRefusal::Byte(64))),
    (8196, 68, &[7], Some(ImageRefusal::Byte(68))),
    (8196, 72, &[0, 0x30], Some(ImageRefusal::Byte(72))),
    (8196, 96, &[5], Some(ImageRefusal::Short(8196))),
    (8196, 96, &[3], Some(ImageRefusal::Long(8196))),
    (8196, 96, &[1, 0, 0, 2], Some(ImageRefusal::Byte(96))),
    (8196, 104, &[1], Some(ImageRefusal::Byte(104))),
    (8196, 120, &[2], Some(ImageRefusal::Byte(120))),
    (8196, 124, &[7], Some(ImageRefusal::Byte(124))),
    (8196, 152, &[0], Some(ImageRefusal::Byte(72))),
    (8196, 152, &[82], Some(ImageRefusal::Byte(152))),
    (8196, 152, &[0xfc, 0xff, 0xff, 0xff, 0xff, 0xff, 0xff, 0xff], Some(ImageRefusal::Byte(72))),
    (8196, 160, &[1], Some(ImageRefusal::Byte(160))),
    (8196, 218, &[2], Some(ImageRefusal::Byte(216))),
    (8196, 231, &[1], Some(ImageRefusal::Byte(224))),
    (8196, 232, &[1], Some(ImageRefusal::Byte(232))),
    (8196, 4095, &[1], Some(ImageRefusal::Byte(4095))),
    (8196, 4176, &[1], Some(ImageRefusal::Byte(4176))),
    (8196, 8191, &[1], Some(ImageRefusal::Byte(8191))),
    (8197, 8192, &[0, 0, 0, 0, 0], Some(ImageRefusal::Long(8197))),
    (8196, 4175, &[0], None),
    (0, 0, &[], Some(ImageRefusal::Short(0))),
    (1, 1, &[], Some(ImageRefusal::Short(1))),
    (231, 231, &[], Some(ImageRefusal::Short(231))),
    (232, 232, &[], Some(ImageRefusal::Short(232))),
    (4096, 4096, &[], Some(ImageRefusal::Short(4096))),
    (8192, 8192, &[], Some(ImageRefusal::Short(8192))),
    (8195, 8195, &[], Some(ImageRefusal::Short(8195))),
];

/// The fields of the headers: where the last byte of each stands, and which byte the reader tells where
/// that is another. It tells the field, but where the length of the code is another: by that it knows where
/// the data begin, which a field before it names.
static FIELDS: [(usize, u64); 38] = [
    (15, 0),
    (17, 16),
    (19, 18),
    (23, 20),
    (31, 24),
    (39, 32),
    (47, 40),
    (51, 48),
    (53, 52),
    (55, 54),
    (57, 56),
    (59, 58),
    (61, 60),
    (63, 62),
    (67, 64),
    (71, 68),
    (79, 72),
    (87, 80),
    (95, 88),
    (103, 96),
    (111, 104),
    (119, 112),
    (123, 120),
    (127, 124),
    (135, 128),
    (143, 136),
    (151, 144),
    (159, 72),
    (167, 160),
    (175, 168),
    (179, 176),
    (183, 180),
    (191, 184),
    (199, 192),
    (207, 200),
    (215, 208),
    (223, 216),
    (231, 224),
];

/// Sizes of the shadow stack, and the version whose size each is.
static SHADOWS: [([u8; 8], Option<ImageVersion>); 16] = [
    ([0, 0, 1, 0, 0, 0, 0, 0], Some(ImageVersion::OneHart)),
    ([0, 0, 8, 0, 0, 0, 0, 0], Some(ImageVersion::EightHarts)),
    ([0, 0, 0, 0, 0, 0, 0, 0], None),
    ([1, 0, 0, 0, 0, 0, 0, 0], None),
    ([0xff, 0xff, 0, 0, 0, 0, 0, 0], None),
    ([1, 0, 1, 0, 0, 0, 0, 0], None),
    ([0, 0, 2, 0, 0, 0, 0, 0], None),
    ([0, 0, 7, 0, 0, 0, 0, 0], None),
    ([0xff, 0xff, 7, 0, 0, 0, 0, 0], None),
    ([1, 0, 8, 0, 0, 0, 0, 0], None),
    ([0, 0, 9, 0, 0, 0, 0, 0], None),
    ([0, 0, 16, 0, 0, 0, 0, 0], None),
    ([0, 0, 1, 0, 1, 0, 0, 0], None),
    ([0, 0, 8, 0, 1, 0, 0, 0], None),
    ([0, 0, 8, 0, 0, 0, 0, 0x80], None),
    ([0xff, 0xff, 0xff, 0xff, 0xff, 0xff, 0xff, 0xff], None),
];

/// Whether a file has the headers of version 1, the code, and zeros up to the end of each page.
fn has_code_alone(alloc: Global, code: &[u8], file: &[u8]) -> bool {
    let headers = HEADERS.as_flattened();
    match [headers, &[0; 4096 - 232], code, &[0; 4096 - 80]].concat(alloc) {
        Ok(expected) => file == &*expected,
        Err(_) => false,
    }
}

/// Whether an image has these parts.
fn has_parts(image: &Image, version: ImageVersion, code: &[u8], init: &[u8]) -> bool {
    image.version() == version && image.code() == code && image.init() == init
}

/// Whether a file is read as the image of these parts.
fn is_read_back(version: ImageVersion, code: &[u8], init: &[u8], file: &[u8]) -> bool {
    match read_image(file) {
        Ok(image) => has_parts(&image, version, code, init),
        Err(_) => false,
    }
}

/// Whether the code alone is written as its file of version 1, which is read back.
fn is_file_of_1(alloc: Global, code: &[u8]) -> bool
    requires { length code.now ≡ 80 }
{
    match write_image(alloc, code, &[]) {
        Ok(file) => has_code_alone(alloc, code, &file)
            && is_read_back(ImageVersion::OneHart, code, &[], &file),
        Err(_) => false,
    }
}

/// Whether a file is that of version 1 but for the size of the shadow stack.
fn is_2_beside_1(alloc: Global, code: &[u8], file: &mut [u8]) -> bool {
    file.get(SHADOW_LENGTH..SHADOW_LENGTH + 8) == Some(SHADOW_OF_2.as_slice())
        && put(file, SHADOW_LENGTH, &SHADOW_OF_1)
        && has_code_alone(alloc, code, file)
}

/// Whether the code alone is written as its file of version 2, which is read back.
fn is_file_of_2(alloc: Global, code: &[u8]) -> bool
    requires { length code.now ≡ 80 }
{
    match write_image_as(alloc, ImageVersion::EightHarts, code, &[]) {
        Ok(mut file) => {
            is_read_back(ImageVersion::EightHarts, code, &[], &file)
                && is_2_beside_1(alloc, code, &mut file)
        }
        Err(_) => false,
    }
}

/// Whether the program is written and read so, in each version.
fn is_written_and_read(alloc: Global) -> bool {
    match code(alloc, &A) {
        Ok(code) => is_file_of_1(alloc, &code) && is_file_of_2(alloc, &code),
        Err(_) => false,
    }
}

#[test]
fn has_these_bytes(rt: HostRuntime) {
    assert!(rt; is_written_and_read(rt.alloc()));
}

/// Whether the reader refuses a file so, or takes it.
fn ends_so(file: &[u8], refusal: Option<ImageRefusal>) -> bool {
    read_image(file).err() == refusal
}

/// Whether a row says what the reader says of a file of its length with its change; one that has bytes
/// puts others than stand there.
fn is_right_of(file: &mut [u8], row: &Change) -> bool {
    put(file, row.1, row.2) != row.2.is_empty() && ends_so(file, row.3)
}

/// Whether a row is right of the image of a version, the code and 4 bytes of data.
fn is_right_with(alloc: Global, version: ImageVersion, code: &[u8], row: &Change) -> bool
    requires { length code.now ≡ 80 }
{
    match write_image_as(alloc, version, code, b"data") {
        Ok(mut file) => {
            file.len() == 8196 && file.resize(row.0, 0).is_ok() && is_right_of(&mut file, row)
        }
        Err(_) => false,
    }
}

/// The same of the program's code, in each version.
fn is_right(alloc: Global, row: &Change) -> bool {
    match code(alloc, &A) {
        Ok(code) => is_right_with(alloc, ImageVersion::OneHart, &code, row)
            && is_right_with(alloc, ImageVersion::EightHarts, &code, row),
        Err(_) => false,
    }
}

#[test]
fn takes_one_spelling(rt: HostRuntime) {
    for row in &CHANGES {
        assert!(rt; is_right(rt.alloc(), row), "changed at {}", row.1);
    }
}

/// The image of a version, the program's code and 4 bytes of data.
fn image_of(alloc: Global, version: ImageVersion) -> Result<Vec<u8>, NoMemory> {
    let code = code(alloc, &A)?;
    write_image_as(alloc, version, &code, b"data")
}

/// Whether a file with another byte in this place is refused for the byte `told`.
fn is_refused_for(file: &mut [u8], place: usize, told: u64) -> bool {
    let Some(byte) = file.get_mut(place) else {
        return false;
    };
    *byte ^= 0x80;
    ends_so(file, Some(ImageRefusal::Byte(told)))
}

/// Whether a row of the fields is right of the image of a version.
fn is_right_field(alloc: Global, version: ImageVersion, row: &(usize, u64)) -> bool {
    match image_of(alloc, version) {
        Ok(mut file) => is_refused_for(&mut file, row.0, row.1),
        Err(_) => false,
    }
}

#[test]
fn compares_each_field(rt: HostRuntime) {
    for row in &FIELDS {
        assert!(rt;
            is_right_field(rt.alloc(), ImageVersion::OneHart, row),
            "version 1, byte {}",
            row.0
        );
        assert!(rt;
            is_right_field(rt.alloc(), ImageVersion::EightHarts, row),
            "version 2, byte {}",
            row.0
        );
    }
}

/// Whether a file is read as an image of this version, or refused for the size of its shadow stack.
fn has_version(file: &[u8], version: Option<ImageVersion>) -> bool {
    match read_image(file) {
        Ok(image) => Some(image.version()) == version,
        Err(refusal) => version.is_none() && refusal == ImageRefusal::Byte(216),
    }
}

/// Whether a row of the sizes is right of the image that was written in a version.
fn is_right_shadow(
    alloc: Global,
    version: ImageVersion,
    row: &([u8; 8], Option<ImageVersion>),
) -> bool {
    match image_of(alloc, version) {
        Ok(mut file) => {
            put(&mut file, SHADOW_LENGTH, &row.0) != (row.1 == Some(version))
                && has_version(&file, row.1)
        }
        Err(_) => false,
    }
}

#[test]
fn tells_the_version(rt: HostRuntime) {
    for row in &SHADOWS {
        assert!(rt;
            is_right_shadow(rt.alloc(), ImageVersion::OneHart, row),
            "version 1, {:?}",
            row.0
        );
        assert!(rt;
            is_right_shadow(rt.alloc(), ImageVersion::EightHarts, row),
            "version 2, {:?}",
            row.0
        );
    }
}

/// Whether images that are made of these bytes have them, and the version that was asked.
fn are_made_so() -> bool {
    has_parts(
        &Image::of(b"code", b"data"),
        ImageVersion::OneHart,
        b"code",
        b"data",
    ) && has_parts(
        &Image::of_version(ImageVersion::OneHart, b"code", b"data"),
        ImageVersion::OneHart,
        b"code",
        b"data",
    ) && has_parts(
        &Image::of_version(ImageVersion::EightHarts, b"code", b"data"),
        ImageVersion::EightHarts,
        b"code",
        b"data",
    )
}

#[test]
fn makes_images_of_each_version(rt: HostRuntime) {
    assert!(rt; are_made_so());
}

#[test]
fn tells_its_refusal(rt: HostRuntime) {
    assert!(rt; is_told_as(rt.alloc(), &ImageRefusal::Byte(16), "Byte 16"));
}
