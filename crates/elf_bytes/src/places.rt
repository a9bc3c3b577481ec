//! Where the fields of headers and entries begin and how long these are, by the names of the System V
//! gABI ("ELF Header", "Program Header", "Section Header", "Symbol Table", "Relocation"). Definitions
//! have them from here.

/// The object file's type.
pub const E_TYPE: u64 = 16;
/// The architecture.
pub const E_MACHINE: u64 = 18;
/// The version of the format.
pub const E_VERSION: u64 = 20;
/// The address where a run starts.
pub const E_ENTRY: u64 = 24;
/// Where the program headers begin.
pub const E_PHOFF: u64 = 32;
/// Where the section headers begin.
pub const E_SHOFF: u64 = 40;
/// The flags of the processor.
pub const E_FLAGS: u64 = 48;
/// The size of the ELF header.
pub const E_EHSIZE: u64 = 52;
/// The size of a program header.
pub const E_PHENTSIZE: u64 = 54;
/// How many program headers there are.
pub const E_PHNUM: u64 = 56;
/// The size of a section header.
pub const E_SHENTSIZE: u64 = 58;
/// How many section headers there are.
pub const E_SHNUM: u64 = 60;
/// The index of the section with the sections' names.
pub const E_SHSTRNDX: u64 = 62;
/// The size of the ELF header, `Elf64_Ehdr`.
pub const ELF_HEADER_SIZE: u64 = 64;

/// Whether the segment is read, written and executed.
pub const P_FLAGS: u64 = 4;
/// Where the segment's bytes begin in the file.
pub const P_OFFSET: u64 = 8;
/// The segment's address.
pub const P_VADDR: u64 = 16;
/// The segment's physical address.
pub const P_PADDR: u64 = 24;
/// How many bytes the segment has in the file.
pub const P_FILESZ: u64 = 32;
/// How many bytes the segment has in memory.
pub const P_MEMSZ: u64 = 40;
/// The segment's alignment.
pub const P_ALIGN: u64 = 48;
/// The size of a program header, `Elf64_Phdr`.
pub const PROGRAM_HEADER_SIZE: u64 = 56;

/// The section's type.
pub const SH_TYPE: u64 = 4;
/// The section's attributes.
pub const SH_FLAGS: u64 = 8;
/// The section's address.
pub const SH_ADDR: u64 = 16;
/// Where the section's bytes begin in the file.
pub const SH_OFFSET: u64 = 24;
/// The section's size.
pub const SH_SIZE: u64 = 32;
/// The index of the section that this one is linked to.
pub const SH_LINK: u64 = 40;
/// What else there is to say, by the section's type.
pub const SH_INFO: u64 = 44;
/// The section's alignment.
pub const SH_ADDRALIGN: u64 = 48;
/// The size of an entry, if the section is a table.
pub const SH_ENTSIZE: u64 = 56;
/// The size of a section header, `Elf64_Shdr`.
pub const SECTION_HEADER_SIZE: u64 = 64;

/// The symbol's type and binding.
pub const ST_INFO: u64 = 4;
/// The symbol's visibility.
pub const ST_OTHER: u64 = 5;
/// The index of the symbol's section.
pub const ST_SHNDX: u64 = 6;
/// The symbol's value.
pub const ST_VALUE: u64 = 8;
/// The symbol's size.
pub const ST_SIZE: u64 = 16;

/// The relocation's symbol and type.
pub const R_INFO: u64 = 8;
/// The relocation's addend.
pub const R_ADDEND: u64 = 16;

/// The size of a symbol, `Elf64_Sym`, and of a relocation with an addend, `Elf64_Rela`.
pub const ENTRY_SIZE: u64 = 24;
