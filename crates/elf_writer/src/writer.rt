ghost use Rattle.std.specs.Prelude.{◌≡◌, ◌<◌, ◌^◌, ◌++◌, IfOk, OnOk, length, drop};
ghost use Rattle.elf_writer.specs.Header.{header_bytes, null_heading};
ghost use Rattle.elf_writer.specs.File.{entry};
ghost use Rattle.elf_writer.specs.FileLayout.{padded, up8};
ghost use Rattle.elf_writer.specs.Writing.{added, begun, finished, own_names, room, view_of};

use crate::heading::{Heading, elf_numbers, names_heading, null_heading, section_numbers};
use crate::number::{put_numbers, zeros};
use crate::tables::{no_names, put_name};
use elf_bytes::places::ELF_HEADER_SIZE;
use std::alloc::{AllocError, Global};

/// The name of the table of the sections' names.
const NAMES: &[u8] = b".shstrtab";

/// A file that is being written: room for the ELF header and the contents after it, the section headers,
/// and the sections' names.
#[derive(Drop)]
pub(crate) struct Writer {
    pub(crate) body: Vec<u8>,
    pub(crate) headers: Vec<u8>,
    pub(crate) names: Vec<u8>,
}

/// Appends zeros up to the next multiple of 8.
fn pad(body: &mut Vec<u8>) -> Result<(), AllocError>
    ensures { OnOk result (body.new.items ≡ padded body.old.items) }
{
    let end = (body.len() + 7) / 8 * 8;
    body.resize(end, 0)
}

/// Appends a section header.
fn put_header(
    headers: &mut Vec<u8>,
    name: usize,
    offset: usize,
    heading: &Heading,
) -> Result<(), AllocError>
    ensures { OnOk result (headers.new.items ≡ headers.old.items ++ header_bytes name offset heading.now) }
{
    put_numbers(
        headers,
        &section_numbers(name as u64, offset as u64, heading),
    )
}

/// Appends a section's bytes and its header. Its name begins at `name`.
fn put_section(
    body: &mut Vec<u8>,
    headers: &mut Vec<u8>,
    name: usize,
    heading: &Heading,
    content: &[u8],
) -> Result<(), AllocError>
    ensures body { OnOk result (body.new.items ≡ padded body.old.items ++ content.now) }
    ensures headers { OnOk result (headers.new.items ≡ headers.old.items ++ header_bytes name (up8 (length body.old.items)) heading.now) }
{
    pad(body)?;
    put_header(headers, name, body.len(), heading)?;
    body.extend_from_slice(content)
}

/// Section headers with that of section 0 alone.
fn no_headers(alloc: Global) -> Result<Vec<u8>, AllocError>
    ensures { IfOk result (λ headers. headers.items ≡ header_bytes 0 0 null_heading) }
{
    let mut headers = Vec::new(alloc);
    put_header(&mut headers, 0, 0, &null_heading())?;
    Ok(headers)
}

/// Room for the ELF header.
#[tactic(auto, unfolding(crate::specs::Writing::room))]
fn no_contents(alloc: Global) -> Result<Vec<u8>, AllocError>
    ensures { IfOk result (λ body. body.items ≡ room) }
{
    zeros(alloc, ELF_HEADER_SIZE as usize)
}

/// The bytes from `at` on, none where there are fewer.
fn after<'a>(bytes: &'a [u8], at: usize) -> &'a [u8]
    ensures { result.now ≡ drop at bytes.now }
{
    bytes.get(at..).unwrap_or(&[])
}

impl Writer {
    /// A file with section 0 alone.
    pub(crate) fn new(alloc: Global) -> Result<Writer, AllocError>
        ensures { IfOk result (λ w. view_of w ≡ begun) }
    {
        Ok(Writer {
            body: no_contents(alloc)?,
            headers: no_headers(alloc)?,
            names: no_names(alloc)?,
        })
    }

    /// Adds a section with this name, heading and content.
    pub(crate) fn add(
        &mut self,
        name: &[u8],
        heading: &Heading,
        content: &[u8],
    ) -> Result<(), AllocError>
        ensures { OnOk result (view_of self.new ≡ added (view_of self.old) (entry name.now heading.now content.now)) }
    {
        let at = self.names.len();
        put_section(&mut self.body, &mut self.headers, at, heading, content)?;
        put_name(&mut self.names, name)
    }

    /// Adds the section with the names of all, its own among them.
    pub(crate) fn add_names(&mut self) -> Result<(), AllocError>
        ensures { OnOk result (view_of self.new ≡ added (view_of self.old) (own_names (view_of self.old).names)) }
    {
        let at = self.names.len();
        put_name(&mut self.names, NAMES)?;
        let heading = names_heading(self.names.len());
        put_section(&mut self.body, &mut self.headers, at, &heading, &self.names)
    }

    /// The file, with this many sections beside section 0.
    #[tactic(auto, unfolding(crate::specs::Header::elf_header))]
    pub(crate) fn finish(
        mut self,
        alloc: Global,
        flags: u32,
        sections: u64,
    ) -> Result<Vec<u8>, AllocError>
        requires { sections < 2 ^ 16 }
        ensures { IfOk result (λ file. file.items ≡ finished flags sections (view_of self)) }
    {
        pad(&mut self.body)?;
        let at = self.body.len() as u64;
        self.body.extend_from_slice(&self.headers)?;
        let mut file = Vec::new(alloc);
        put_numbers(&mut file, &elf_numbers(flags, at, sections))?;
        file.extend_from_slice(after(&self.body, ELF_HEADER_SIZE as usize))?;
        Ok(file)
    }
}
