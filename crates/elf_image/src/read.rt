ghost use Rattle.std.specs.Prelude.{◌≡◌, ◌+◌, ◌<◌, ◌≤◌, ◌^◌, List, ℕ, IsTrue, IsOkAnd, IfOk, OnOk, IfErr, None, Some, IfSome, option_map, length, position, not, ◌==◌};
ghost use Rattle.std.specs.List.{list_all};
ghost use Rattle.std.specs.Option.{option_or};
ghost use Rattle.rv_image.specs.Image.{IsImageSize};
ghost use Rattle.elf_bytes.specs.Fields.{number_at};
ghost use Rattle.elf_image.specs.Header.{headers_size, fields_of, data_start, is_inside};
ghost use Rattle.elf_image.specs.Spelling.{spelling};
ghost use Rattle.elf_image.specs.Fault.{first_wrong, first_nonzero, version_in, code_of, init_of, length_fault, fault_of};

use super::field::Field;
use super::header::{
    CODE_HEADER, DATA_HEADER, HEADERS, PAGE, SHADOW_HEADER, code_segment, data_offset,
    data_segment, elf_header, program_header, shadow_segment,
};
use super::refusal::ImageRefusal;
use byteorder::{ByteOrder, LittleEndian};
use elf_bytes::places::{P_FILESZ, P_MEMSZ};
use elf_bytes::u64_at;
use rv_image::{Image, ImageVersion};

/// Where the headers name the length of the code and of the data: `p_filesz` of their segments.
const CODE_LENGTH: u64 = CODE_HEADER + P_FILESZ;

const INIT_LENGTH: u64 = DATA_HEADER + P_FILESZ;

/// Where they name the size of the shadow stack, by which versions differ: `p_memsz` of its segment.
const SHADOW_LENGTH: u64 = SHADOW_HEADER + P_MEMSZ;

/// What a file is made of: its version, where its code ends and where its data begin.
#[derive(Clone, Copy)]
struct Parts {
    version: ImageVersion,
    end: usize,
    start: usize,
}

/// The image that a file is, borrowed from it. `Short`, a wrong field, `Short` or `Long`, and wrong
/// padding are looked for in this order, and the first that there is is told.
pub fn read_image<'a>(bytes: &'a [u8]) -> Result<Image<'a>, ImageRefusal>
    ensures spelled { IfOk result (λ i. bytes.now ≡ spelling i.version i.code i.init) }
    ensures refused { IfErr result (λ e. fault_of bytes.now ≡ Some e) }
    ensures read { OnOk result (fault_of bytes.now ≡ None) }
    ensures only { (version : ImageVersion) (code init : List ℕ) → IsImageSize (length code) (length init) → bytes.now ≡ spelling version code init
        → IsOkAnd result (λ i. i ≡ record { version = version; code = code; init = init }) }
{
    let parts = parts_of(bytes)?;
    let code = &bytes[PAGE as usize..parts.end];
    Ok(Image::of_version(parts.version, code, &bytes[parts.start..]))
}

/// The parts of a file, if it is an image.
#[tactic(auto, unfolding(crate::specs::Fault::fault_of))]
fn parts_of(bytes: &[u8]) -> Result<Parts, ImageRefusal>
    ensures refused { IfErr result (λ e. fault_of bytes.now ≡ Some e) }
    ensures read { OnOk result (fault_of bytes.now ≡ None) }
    ensures version { IfOk result (λ parts. parts.version ≡ version_in bytes.now) }
    ensures end { IfOk result (λ parts. parts.end ≡ 0x1000 + code_of bytes.now) }
    ensures start { IfOk result (λ parts. parts.start ≡ data_start (code_of bytes.now)) }
    ensures order { IfOk result (λ parts. parts.end ≤ parts.start) }
    ensures inside { IfOk result (λ parts. parts.start ≤ length bytes.now) }
{
    let (code, init) = named_lengths(bytes)?;
    let version = named_version(bytes);
    if let Some(at) = first_wrong_field(bytes, version, code, init) {
        return Err(ImageRefusal::Byte(at));
    }
    let start = data_place(bytes, code, init)?;
    let end = PAGE as usize + code as usize;
    if let Some(at) = first_wrong_padding(bytes, end, start) {
        return Err(ImageRefusal::Byte(at as u64));
    }
    Ok(Parts {
        version,
        end,
        start,
    })
}

/// The lengths of code and data that the program headers name.
fn named_lengths(bytes: &[u8]) -> Result<(u64, u64), ImageRefusal>
    ensures long { OnOk result (headers_size ≤ length bytes.now) }
    ensures code { IfOk result (λ lengths. lengths.0 ≡ code_of bytes.now) }
    ensures init { IfOk result (λ lengths. lengths.1 ≡ init_of bytes.now) }
    ensures short { IfErr result (λ e. (length bytes.now < headers_size) × (e ≡ ImageRefusal.Short (length bytes.now))) }
{
    let len = bytes.len() as u64;
    match (u64_at(bytes, CODE_LENGTH), u64_at(bytes, INIT_LENGTH)) {
        (Some(code), Some(init)) if len >= HEADERS as u64 => Ok((code, init)),
        _ => Err(ImageRefusal::Short(len)),
    }
}

/// The version whose shadow stack has the size that the program headers name, and version 1 where neither has.
fn named_version(bytes: &[u8]) -> ImageVersion
    requires { headers_size ≤ length bytes.now }
    ensures { result ≡ version_in bytes.now }
{
    if number(bytes, SHADOW_LENGTH, 8) == u128::from(ImageVersion::EightHarts.shadow_size()) {
        ImageVersion::EightHarts
    } else {
        ImageVersion::OneHart
    }
}

/// The offset of the first field of the headers that is not as this version and these lengths want it.
fn first_wrong_field(bytes: &[u8], version: ImageVersion, code: u64, init: u64) -> Option<u64>
    requires { headers_size ≤ length bytes.now }
    ensures { result ≡ first_wrong bytes.now (fields_of version code init) }
{
    let (code, init) = (u128::from(code), u128::from(init));
    let of_data = program_header(DATA_HEADER, data_segment(code, init));
    let of_code = program_header(CODE_HEADER, code_segment(code));
    let of_shadow = program_header(SHADOW_HEADER, shadow_segment(version));
    first_fault(bytes, &elf_header())
        .or(first_fault(bytes, &of_data))
        .or(first_fault(bytes, &of_code))
        .or(first_fault(bytes, &of_shadow))
}

/// The offset of the first of these fields that has another value.
#[tactic(auto, unfolding(crate::specs::Fault::first_wrong))]
fn first_fault(bytes: &[u8], fields: &[Field]) -> Option<u64>
    requires long { headers_size ≤ length bytes.now }
    requires inside { IsTrue (list_all is_inside fields.now) }
    ensures { result ≡ first_wrong bytes.now fields.now }
{
    for field in fields {
        if number(bytes, field.at, field.size) != field.value {
            return Some(field.at);
        }
    }
    None
}

/// The number in the `size` bytes at `at`.
#[tactic(auto, unfolding(elf_bytes::specs::Fields::number_at))]
fn number(bytes: &[u8], at: u64, size: usize) -> u128
    requires some { 1 ≤ size }
    requires most { size ≤ 16 }
    requires inside { at + size ≤ length bytes.now }
    ensures { result ≡ number_at bytes.now at size }
{
    LittleEndian::read_uint128(&bytes[at as usize..], size)
}

/// Where the data begin, if the file ends with them.
fn data_place(bytes: &[u8], code: u64, init: u64) -> Result<usize, ImageRefusal>
    ensures start { IfOk result (λ start. start ≡ data_start code) }
    ensures end { OnOk result (length bytes.now ≡ data_start code + init) }
    ensures ok { OnOk result (length_fault bytes.now code init ≡ None) }
    ensures err { IfErr result (λ e. length_fault bytes.now code init ≡ Some e) }
{
    let len = bytes.len() as u64;
    let start = data_offset(u128::from(code));
    let end = start + u128::from(init);
    if u128::from(len) < end {
        return Err(ImageRefusal::Short(len));
    }
    if u128::from(len) > end {
        return Err(ImageRefusal::Long(len));
    }
    Ok(start as usize)
}

/// The offset of the first byte that is not zero, after the headers or from `end`, where the code
/// ends, up to `start`, where the data begin.
fn first_wrong_padding(bytes: &[u8], end: usize, start: usize) -> Option<usize>
    requires order { 0x1000 ≤ end }
    requires room { end ≤ start }
    requires inside { start ≤ length bytes.now }
    ensures { result ≡ option_or (first_nonzero bytes.now headers_size 0x1000) (first_nonzero bytes.now end start) }
{
    nonzero_within(bytes, HEADERS, PAGE as usize).or_else(|| nonzero_within(bytes, end, start))
}

/// The offset of the first byte from `from` up to `to` that is not zero.
#[tactic(auto, unfolding(crate::specs::Fault::first_nonzero))]
fn nonzero_within(bytes: &[u8], from: usize, to: usize) -> Option<usize>
    requires order { from ≤ to }
    requires inside { to ≤ length bytes.now }
    ensures { result ≡ first_nonzero bytes.now from to }
{
    Some(from + nonzero(&bytes[from..to])?)
}

/// How many bytes stand before the first that is not zero.
fn nonzero(bytes: &[u8]) -> Option<usize>
    ensures bound { IfSome result (λ k. k < length bytes.now) }
    ensures value { result ≡ position (λ b. not (b == 0)) bytes.now }
{
    bytes.iter().position(|b| *b != 0)
}
