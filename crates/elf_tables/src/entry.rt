ghost use Rattle.std.specs.Prelude.{◌≡◌, ◌+◌, ◌*◌, ◌≤◌, length};
ghost use Rattle.elf_bytes.specs.declared.places.TheConstants.{ENTRY_SIZE};
ghost use Rattle.elf_tables.specs.Symbol.{symbol_binding, symbol_in, symbol_type};
ghost use Rattle.elf_tables.specs.Relocation.{relocation_in};

use crate::field::{half, long, word};
use elf_bytes::places::{ENTRY_SIZE, R_ADDEND, R_INFO, ST_INFO, ST_SHNDX, ST_SIZE, ST_VALUE};

/// A symbol as it stands in the symbol table (System V gABI, "Symbol Table"): where its name begins
/// in the table of names, and its `st_info`, `st_shndx`, `st_value` and `st_size`.
#[derive(Clone, Copy)]
pub struct SymbolEntry {
    pub name: u32,
    pub info: u8,
    pub section: u16,
    pub value: u64,
    pub size: u64,
}

impl SymbolEntry {
    /// The symbol with this number in the bytes of a symbol table.
    #[tactic(auto, unfolding(crate::specs::Symbol::symbol_in))]
    pub fn read(table: &[u8], number: u64) -> SymbolEntry
        requires { ENTRY_SIZE * number + ENTRY_SIZE ≤ length table.now }
        ensures { result ≡ symbol_in table.now number }
    {
        let at = ENTRY_SIZE * number;
        SymbolEntry {
            name: word(table, at),
            info: table[(at + ST_INFO) as usize],
            section: half(table, at + ST_SHNDX),
            value: long(table, at + ST_VALUE),
            size: long(table, at + ST_SIZE),
        }
    }

    /// The type of the symbol.
    pub fn kind(&self) -> u8
        ensures { result ≡ symbol_type self.now.info }
    {
        self.info & 0xf
    }

    /// The binding of the symbol.
    pub fn binding(&self) -> u8
        ensures { result ≡ symbol_binding self.now.info }
    {
        self.info >> 4
    }
}

/// A relocation (System V gABI, "Relocation"): the offset in its section, the number of its symbol,
/// its type by the RISC-V ELF psABI, and its addend.
#[derive(Clone, Copy, PartialEq, Eq)]
pub struct Reloc {
    pub offset: u64,
    pub symbol: u32,
    pub kind: u32,
    pub addend: i64,
}

impl Reloc {
    /// The relocation with this index in the bytes of an `SHT_RELA` section.
    #[tactic(auto, unfolding(crate::specs::Relocation::relocation_in))]
    pub fn read(table: &[u8], index: u64) -> Reloc
        requires { ENTRY_SIZE * index + ENTRY_SIZE ≤ length table.now }
        ensures { result ≡ relocation_in table.now index }
    {
        let at = ENTRY_SIZE * index;
        let info = long(table, at + R_INFO);
        Reloc {
            offset: long(table, at),
            symbol: (info >> 32) as u32,
            kind: (info & 0xffff_ffff) as u32,
            addend: long(table, at + R_ADDEND).cast_signed(),
        }
    }
}
