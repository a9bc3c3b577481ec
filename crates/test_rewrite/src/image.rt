use elf_image::write_image_as;
use rv_image::Form;
use rv_word::NoMemory;
use sample_hardened::{Program, code_in, data_in, data_size};
use std::alloc::Global;

/// The image of a form of some code and data; none of code that no image may have.
fn image(alloc: Global, form: Form, code: &[u8], data: &[u8]) -> Result<Vec<u8>, NoMemory> {
    let (len, init) = (code.len(), data.len());
    if len < 4 || len > 0x10_0000 || len % 4 != 0 || init > 0x200_0000 {
        return Ok(Vec::new(alloc));
    }
    write_image_as(alloc, form.image_version(), code, data)
}

/// The image of a program in a form.
fn image_of(alloc: Global, form: Form, program: &Program) -> Result<Vec<u8>, NoMemory> {
    let code = code_in(alloc, form, program)?;
    let data = data_in(alloc, form, program)?;
    image(alloc, form, &code, &data)
}

/// Whether a file is the image of a program in a form.
pub(crate) fn is_image_of(alloc: Global, form: Form, file: &[u8], program: &Program) -> bool {
    let size = data_size(form, program).saturating_add(8192);
    match image_of(alloc, form, program) {
        Ok(image) => image.as_slice() == file && file.len() == size,
        Err(_) => false,
    }
}
