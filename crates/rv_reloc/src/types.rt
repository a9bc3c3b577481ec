//! Types of relocations, by the names of the RISC-V ELF psABI ("Relocations").

/// The relocation that does nothing.
pub const R_RISCV_NONE: u32 = 0;

/// An address of 32 bits.
pub const R_RISCV_32: u32 = 1;

/// An address of 64 bits.
pub const R_RISCV_64: u32 = 2;

/// The target of a branch.
pub const R_RISCV_BRANCH: u32 = 16;

/// The target of a JAL.
pub const R_RISCV_JAL: u32 = 17;

/// The target of an AUIPC and the JALR after it.
pub const R_RISCV_CALL: u32 = 18;

/// The same, by the table of procedures where the target is not in the program.
pub const R_RISCV_CALL_PLT: u32 = 19;

/// The high part of the distance to an address's slot of the table of addresses, in an AUIPC.
pub const R_RISCV_GOT_HI20: u32 = 20;

/// The high part of a distance, in an AUIPC.
pub const R_RISCV_PCREL_HI20: u32 = 23;

/// The low part of the distance of the AUIPC that the symbol names, in an I form.
pub const R_RISCV_PCREL_LO12_I: u32 = 24;

/// The same in a store.
pub const R_RISCV_PCREL_LO12_S: u32 = 25;

/// The high part of an address, in a LUI.
pub const R_RISCV_HI20: u32 = 26;

/// The low part of an address, in an I form.
pub const R_RISCV_LO12_I: u32 = 27;

/// The low part of an address, in a store.
pub const R_RISCV_LO12_S: u32 = 28;

/// A sum of 8 bits.
pub const R_RISCV_ADD8: u32 = 33;

/// A sum of 16 bits.
pub const R_RISCV_ADD16: u32 = 34;

/// A sum of 32 bits.
pub const R_RISCV_ADD32: u32 = 35;

/// A sum of 64 bits.
pub const R_RISCV_ADD64: u32 = 36;

/// A difference of 8 bits.
pub const R_RISCV_SUB8: u32 = 37;

/// A difference of 16 bits.
pub const R_RISCV_SUB16: u32 = 38;

/// A difference of 32 bits.
pub const R_RISCV_SUB32: u32 = 39;

/// A difference of 64 bits.
pub const R_RISCV_SUB64: u32 = 40;

/// Space that a linker may remove to align what follows it.
pub const R_RISCV_ALIGN: u32 = 43;

/// A mark of instructions that a linker may shorten.
pub const R_RISCV_RELAX: u32 = 51;
