//! Numbers of object files, by the names of the System V gABI and the RISC-V ELF psABI.

/// The `e_type` of a relocatable file.
pub const ET_REL: u16 = 1;

/// The bit of `e_flags` that asks for the memory order RVTSO (RISC-V ELF psABI, "File Header").
pub const EF_RISCV_TSO: u32 = 0x10;

/// The `sh_type` of a section header that stands for no section.
pub const SHT_NULL: u32 = 0;

/// The `sh_type` of bytes whose meaning is the program's alone.
pub const SHT_PROGBITS: u32 = 1;

/// The `sh_type` of the symbol table.
pub const SHT_SYMTAB: u32 = 2;

/// The `sh_type` of a string table.
pub const SHT_STRTAB: u32 = 3;

/// The `sh_type` of relocations with addends.
pub const SHT_RELA: u32 = 4;

/// The `sh_type` of notes.
pub const SHT_NOTE: u32 = 7;

/// The `sh_type` of a section without bytes in the file.
pub const SHT_NOBITS: u32 = 8;

/// The `sh_type` of relocations without addends.
pub const SHT_REL: u32 = 9;

/// The `sh_type` of a group of sections.
pub const SHT_GROUP: u32 = 17;

/// The bit of `sh_flags` of a section that may be written while the program runs.
pub const SHF_WRITE: u64 = 1;

/// The bit of `sh_flags` of a section that is in memory while the program runs.
pub const SHF_ALLOC: u64 = 2;

/// The bit of `sh_flags` of a section with instructions.
pub const SHF_EXECINSTR: u64 = 4;

/// The bit of `sh_flags` of a section of which each thread has its own copy.
pub const SHF_TLS: u64 = 0x400;

/// The section index that means no section: the symbol is not defined in this file.
pub const SHN_UNDEF: u16 = 0;

/// The least of the section indexes that are reserved.
pub const SHN_LORESERVE: u16 = 0xff00;

/// The section index that means that the symbol's value does not change by relocation.
pub const SHN_ABS: u16 = 0xfff1;

/// The section index of a common block without a place yet: the symbol's value is its alignment.
pub const SHN_COMMON: u16 = 0xfff2;

/// The type of a symbol of which no type is told.
pub const STT_NOTYPE: u8 = 0;

/// The type of a symbol of data.
pub const STT_OBJECT: u8 = 1;

/// The type of a symbol of a function.
pub const STT_FUNC: u8 = 2;

/// The type of a symbol that stands for its section.
pub const STT_SECTION: u8 = 3;

/// The type of a symbol that names the source file.
pub const STT_FILE: u8 = 4;

/// The type of a symbol of a common block.
pub const STT_COMMON: u8 = 5;

/// The type of a symbol of a thread's own storage.
pub const STT_TLS: u8 = 6;

/// The type of a function that is chosen when the program starts, one that the gABI leaves to systems.
pub const STT_GNU_IFUNC: u8 = 10;

/// The binding of a symbol that other files do not see.
pub const STB_LOCAL: u8 = 0;

/// The binding of a symbol that all files see.
pub const STB_GLOBAL: u8 = 1;

/// The binding of a symbol that yields to a global one of its name.
pub const STB_WEAK: u8 = 2;
