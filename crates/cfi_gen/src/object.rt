ghost use Rattle.std.specs.Prelude.{◌≡◌, IfOk, length, map};
ghost use Rattle.elf_writer.specs.Parts.{relocations_of, section_of, symbol_of};
ghost use Rattle.elf_writer.specs.Object.{object_bytes};
ghost use Rattle.elf_writer.specs.Holds.{Holds};
ghost use Rattle.cfi_gen.specs.Demo.{demo_parts};
ghost use Rattle.cfi_gen.specs.Writing.{parts_from, written_in};

use crate::constants::FUNCTIONS;
use crate::drawing::draw_functions;
use crate::routines::program_text;
use crate::symbols::program_symbols;
use crate::table::{table_bytes, table_relocs};
use crate::text::Text;
use elf_tables::Reloc;
use elf_tables::constants::{SHF_ALLOC, SHF_EXECINSTR, SHF_WRITE, SHT_PROGBITS};
use elf_writer::{Parts, Relocations, Section, Symbol, write_object};
use rv_word::NoMemory;
use std::alloc::Global;

/// The bytes of the object of a number: a program that is drawn from it, of `main`, which calls each of 2,000
/// functions by a table of their addresses, and of these functions. A function adds a number to its argument,
/// and some call one of the eight functions after them. The file has no fault and each part is found in it by
/// its number. The only refusal is want of memory.
pub fn object_of(alloc: Global, number: u32) -> Result<Vec<u8>, NoMemory>
    ensures bytes { IfOk result (λ file. file.items ≡ object_bytes (demo_parts number)) }
    ensures holds { IfOk result (λ file. Holds (demo_parts number) file.items) }
{
    let file = drawn_object(alloc, number)?;
    Ok(file)
}

/// The bytes of the object of a number.
fn drawn_object(alloc: Global, number: u32) -> Result<Vec<u8>, NoMemory>
    ensures { IfOk result (λ file. file.items ≡ object_bytes (demo_parts number)) }
{
    let functions = draw_functions(alloc, FUNCTIONS, number)?;
    let text = program_text(alloc, &functions)?;
    let pointers = table_relocs(alloc, FUNCTIONS)?;
    let symbols = program_symbols(alloc, &functions)?;
    let file = written_object(alloc, &text, &pointers, &symbols)?;
    Ok(file)
}

/// The bytes of an object of this code, with these relocations of the table and these symbols.
fn written_object<'a>(
    alloc: Global,
    text: &'a Text,
    pointers: &'a [Reloc],
    symbols: &'a [Symbol],
) -> Result<Vec<u8>, NoMemory>
    ensures { IfOk result (λ file. file.items ≡ object_bytes (parts_from (written_in text.now) pointers.now (map symbol_of symbols.now))) }
{
    let table = table_bytes(alloc)?;
    let parts = Parts {
        flags: 0,
        sections: &[
            section(b".text", SHF_ALLOC | SHF_EXECINSTR, 4, &text.code),
            section(b".data", SHF_ALLOC | SHF_WRITE, 8, &table),
        ],
        relocations: &[
            relocations(b".rela.text", 1, &text.relocs),
            relocations(b".rela.data", 2, pointers),
        ],
        symbols,
    };
    write_object(alloc, &parts)
}

/// A section of bytes.
fn section<'a>(name: &'a [u8], flags: u64, align: u64, content: &'a [u8]) -> Section<'a>
    ensures { section_of result ≡ record { name = name.now; kind = 1; flags = flags; size = length content.now; align = align; content = content.now } }
{
    Section {
        name,
        kind: SHT_PROGBITS,
        flags,
        size: content.len() as u64,
        align,
        content,
    }
}

/// The relocations of the section with an index.
fn relocations<'a>(name: &'a [u8], target: u32, entries: &'a [Reloc]) -> Relocations<'a>
    ensures { relocations_of result ≡ record { name = name.now; target = target; entries = entries.now } }
{
    Relocations {
        name,
        target,
        entries,
    }
}
