//! What each file that is read or written here has in its ELF header (System V gABI, "ELF Header"; RISC-V ELF
//! psABI, "File Header"). Definitions have it from here.

/// The first 8 bytes of `e_ident` as a number: 7f "ELF", `ELFCLASS64`, `ELFDATA2LSB`, `EV_CURRENT` and a zero.
pub const IDENT: u64 = 0x01_01_02_46_4c_45_7f;
/// The `e_machine` of RISC-V.
pub const EM_RISCV: u16 = 243;
/// The `e_version` of the format.
pub const EV_CURRENT: u32 = 1;
