ghost use Rattle.std.specs.Prelude.{◌≡◌, ◌≤◌, ◌<◌, ◌^◌, ◌+◌, ◌++◌, IsTrue, IfOk, OnOk, length};
ghost use Rattle.std.specs.List.{flat_map, list_all};
ghost use Rattle.rv_image.specs.Image.{IsImageSize};
ghost use Rattle.rv_image.specs.declared.version.ImageVersion.TheVariants.{OneHart};
ghost use Rattle.elf_image.specs.Header.{is_inside};
ghost use Rattle.elf_image.specs.Spelling.{field_bytes, headers, zeros, spelling};

use super::field::Field;
use super::header::{
    CODE_HEADER, DATA_HEADER, HEADERS, PAGE, SHADOW_HEADER, code_segment, data_offset,
    data_segment, elf_header, program_header, shadow_segment,
};
use rv_image::ImageVersion;
use rv_word::NoMemory;
use std::alloc::{AllocError, Global};

/// The file of an image of version 1 with this code and these data.
pub fn write_image(alloc: Global, code: &[u8], init: &[u8]) -> Result<Vec<u8>, NoMemory>
    requires { IsImageSize (length code.now) (length init.now) }
    ensures { IfOk result (λ file. file.items ≡ spelling OneHart code.now init.now) }
{
    write_image_as(alloc, ImageVersion::OneHart, code, init)
}

/// The file of an image of a version with this code and these data.
#[tactic(auto, unfolding(crate::specs::Spelling::spelling))]
pub fn write_image_as(
    alloc: Global,
    version: ImageVersion,
    code: &[u8],
    init: &[u8],
) -> Result<Vec<u8>, NoMemory>
    requires { IsImageSize (length code.now) (length init.now) }
    ensures { IfOk result (λ file. file.items ≡ spelling version code.now init.now) }
{
    let start = data_offset(code.len() as u128) as usize;
    let mut file = Vec::with_capacity(alloc, start + init.len())?;
    put_headers(&mut file, version, code.len() as u128, init.len() as u128)?;
    put_zeros(&mut file, PAGE as usize - HEADERS)?;
    file.extend_from_slice(code)?;
    put_zeros(&mut file, start - PAGE as usize - code.len())?;
    file.extend_from_slice(init)?;
    Ok(file)
}

/// Appends the headers of a file of a version with these lengths.
#[tactic(auto, unfolding(crate::specs::Spelling::headers))]
fn put_headers(
    file: &mut Vec<u8>,
    version: ImageVersion,
    code: u128,
    init: u128,
) -> Result<(), AllocError>
    requires { code < 2 ^ 64 }
    ensures { OnOk result (file.new.items ≡ file.old.items ++ headers version code init) }
{
    put_fields(file, &elf_header())?;
    put_fields(file, &program_header(DATA_HEADER, data_segment(code, init)))?;
    put_fields(file, &program_header(CODE_HEADER, code_segment(code)))?;
    put_fields(
        file,
        &program_header(SHADOW_HEADER, shadow_segment(version)),
    )
}

/// Appends the values of these fields.
fn put_fields(file: &mut Vec<u8>, fields: &[Field]) -> Result<(), AllocError>
    requires { IsTrue (list_all is_inside fields.now) }
    ensures { OnOk result (file.new.items ≡ file.old.items ++ flat_map field_bytes fields.now) }
{
    for field in fields {
        put_field(file, *field)?;
    }
    Ok(())
}

/// Appends the value of a field.
#[tactic(auto, using(crate::proofs::Written::first_bytes))]
fn put_field(file: &mut Vec<u8>, field: Field) -> Result<(), AllocError>
    requires { field.size ≤ 16 }
    ensures { OnOk result (file.new.items ≡ file.old.items ++ field_bytes field) }
{
    file.extend_from_slice(&field.value.to_le_bytes()[..field.size])
}

/// Appends `count` zeros.
#[tactic(auto, unfolding(crate::specs::Spelling::zeros))]
fn put_zeros(file: &mut Vec<u8>, count: usize) -> Result<(), AllocError>
    requires { count ≤ 0x1000 }
    ensures { OnOk result (file.new.items ≡ file.old.items ++ zeros count) }
{
    file.resize(file.len() + count, 0)
}
