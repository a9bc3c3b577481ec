use elf_image::write_image_as;
use rv_image::ImageVersion;
use rv_word::NoMemory;
use sample_programs::{code, code_of_harts};
use std::alloc::Global;
use tool_io::MemFiles;

/// The image of a version of some code and data; no bytes where no image may have such code.
pub fn image_as(
    alloc: Global,
    version: ImageVersion,
    code: &[u8],
    data: &[u8],
) -> Result<Vec<u8>, NoMemory> {
    let (len, init) = (code.len(), data.len());
    if len < 4 || len > 0x10_0000 || len % 4 != 0 || init > 0x200_0000 {
        return Ok(Vec::new(alloc));
    }
    write_image_as(alloc, version, code, data)
}

/// The image for one hart of the prologue, some units and data.
pub fn image_of(alloc: Global, units: &[u32], data: &[u8]) -> Result<Vec<u8>, NoMemory> {
    image_as(alloc, ImageVersion::OneHart, &code(alloc, units)?, data)
}

/// The image for several harts of their prologue, some units and data.
pub fn image_of_harts(alloc: Global, units: &[u32], data: &[u8]) -> Result<Vec<u8>, NoMemory> {
    image_as(
        alloc,
        ImageVersion::EightHarts,
        &code_of_harts(alloc, units)?,
        data,
    )
}

/// Adds the image of its units and data under a name.
pub fn add_image(
    alloc: Global,
    files: &mut MemFiles,
    image: &(&str, &[u32], &[u8]),
) -> Result<(), NoMemory> {
    let bytes = image_of(alloc, image.1, image.2)?;
    Ok(files.insert(image.0, &bytes)?)
}

/// Adds the image for several harts of its units and data under a name.
pub fn add_image_of_harts(
    alloc: Global,
    files: &mut MemFiles,
    image: &(&str, &[u32], &[u8]),
) -> Result<(), NoMemory> {
    let bytes = image_of_harts(alloc, image.1, image.2)?;
    Ok(files.insert(image.0, &bytes)?)
}

/// Adds files by their names and bytes.
pub fn add_texts(files: &mut MemFiles, texts: &[(&str, &[u8])]) -> Result<(), NoMemory> {
    for text in texts {
        files.insert(text.0, text.1)?;
    }
    Ok(())
}
