//! One place of a program.

ghost use Rattle.std.specs.Prelude.{◌≡◌};
ghost use Rattle.obj_program.specs.Program.{is_spot};

use obj_input::ItemKind;
use rv_reloc::DataPatch;

/// What a relocation refers to: its symbol with the addend.
#[derive(Clone, Copy)]
pub enum Value {
    /// A number: an address in data, or an absolute one.
    Number(i128),
    /// The gate of the place with this index.
    GateOf(u64),
}

/// What a relocation does to the immediate of an instruction (RISC-V ELF psABI, "Relocations").
#[derive(Clone, Copy)]
pub enum Patch {
    /// Nothing: the word has its own.
    Own,
    /// The high part of a value.
    High(Value),
    /// The low part of a value.
    Low(Value),
    /// The high part of the distance from the instruction's own word to a value.
    RelativeHigh(Value),
    /// The low part of the distance of the AUIPC at the place with this index.
    RelativeLow(u64),
}

/// A place: an instruction's start, or the end of a section of code. (Its larger fields stand first, so that none is padded.)
#[derive(Clone, Copy)]
pub struct Item {
    pub patch: Patch,
    /// The index of the place that a direct transfer goes to.
    pub target: Option<u64>,
    /// Where it stands in its section, in bytes.
    pub offset: u64,
    /// The index of its section.
    pub section: u32,
    /// The instruction's word; of a pair that of its JALR, of an end 0.
    pub word: u32,
    pub kind: ItemKind,
    /// Whether a relocation takes the instruction's address.
    pub taken: bool,
}

impl Item {
    /// Whether it stands at this offset, in bytes, of the section with this index.
    pub fn is_at(&self, section: u32, offset: u64) -> bool
        ensures { result ≡ is_spot section offset self.now }
    {
        self.section == section && self.offset == offset
    }
}

/// A relocation of initialised data.
#[derive(Clone, Copy)]
pub struct DataReloc {
    /// The index of its section.
    pub section: u32,
    /// Where it stands in its section, in bytes.
    pub at: u64,
    /// Where it stands in initialised data, in bytes from their start.
    pub offset: u64,
    pub patch: DataPatch,
    pub value: Value,
}
