//! Names and numbers of object files (gABI, "Object Files"; RISC-V ELF psABI).

/// The first bytes of a file (gABI, "ELF Identification").
pub const MAGIC: [u8; 4] = [0x7f, b'E', b'L', b'F'];

/// The class of 64-bit objects (gABI, "ELF Identification").
pub const ELFCLASS64: u8 = 2;

/// Numbers have the lowest byte first (gABI, "ELF Identification").
pub const ELFDATA2LSB: u8 = 1;

/// The version of the format (gABI, "ELF Identification").
pub const EV_CURRENT: u8 = 1;

/// A relocatable file (gABI, "ELF Header").
pub const ET_REL: u16 = 1;

/// The machine RISC-V (RISC-V ELF psABI, "File Header").
pub const EM_RISCV: u16 = 243;

/// The flag of a file whose accesses are in total store order (RISC-V ELF psABI, "File Header").
pub(crate) const EF_RISCV_TSO: u32 = 0x10;

/// Section numbers are below this one (gABI, "Sections").
pub const SHN_LORESERVE: u16 = 0xff00;

/// The section of a symbol that isn't defined (gABI, "Sections").
pub const SHN_UNDEF: u16 = 0;

/// The section of a symbol that is a number (gABI, "Sections").
pub const SHN_ABS: u16 = 0xfff1;

/// The type of a header that describes no section (gABI, "Sections").
pub const SHT_NULL: u32 = 0;

/// The type of a section with a part of the program.
pub const SHT_PROGBITS: u32 = 1;

/// The type of a section with symbols.
pub const SHT_SYMTAB: u32 = 2;

/// The type of a section with strings.
pub const SHT_STRTAB: u32 = 3;

/// The type of a section with relocations that have addends.
pub const SHT_RELA: u32 = 4;

/// The type of a section with notes.
pub const SHT_NOTE: u32 = 7;

/// The type of a section of zeros, which has no bytes in the file.
pub const SHT_NOBITS: u32 = 8;

/// The type of a section with relocations that have no addends.
pub const SHT_REL: u32 = 9;

/// The flag of a section that is written (gABI, "Sections").
pub const SHF_WRITE: u64 = 1;

/// The flag of a section that is loaded.
pub const SHF_ALLOC: u64 = 2;

/// The flag of a section that is executed.
pub const SHF_EXECINSTR: u64 = 4;

/// The flag of a section that each thread has its own of.
pub const SHF_TLS: u64 = 0x400;

/// The flag of a section that is compressed.
pub const SHF_COMPRESSED: u64 = 0x800;

/// The binding of a symbol that other objects see (gABI, "Symbol Table").
pub const STB_GLOBAL: u8 = 1;

/// The type of a symbol that has none (gABI, "Symbol Table").
pub const STT_NOTYPE: u8 = 0;

/// The type of a symbol that is a function.
pub const STT_FUNC: u8 = 2;

/// Bytes of the header of a file (gABI, "ELF Header").
pub const FILE_HEADER_BYTES: u64 = 64;

/// Bytes of the header of a section (gABI, "Sections").
pub const SECTION_HEADER_BYTES: u64 = 64;

/// Bytes of a symbol (gABI, "Symbol Table").
pub const SYMBOL_BYTES: u64 = 24;

/// Bytes of a relocation with an addend (gABI, "Relocation").
pub const RELA_BYTES: u64 = 24;

/// Bytes of a name at most.
pub const NAME_BYTES: u64 = 4096;

/// Bytes of a section of zeros at most.
pub const ZERO_BYTES: u64 = 1 << 32;

/// The types of relocations (RISC-V ELF psABI, "Relocations").
pub const R_RISCV_32: u32 = 1;

pub const R_RISCV_64: u32 = 2;

pub const R_RISCV_BRANCH: u32 = 16;

pub const R_RISCV_JAL: u32 = 17;

pub const R_RISCV_CALL: u32 = 18;

pub const R_RISCV_CALL_PLT: u32 = 19;

pub const R_RISCV_GOT_HI20: u32 = 20;

pub const R_RISCV_PCREL_HI20: u32 = 23;

pub const R_RISCV_PCREL_LO12_I: u32 = 24;

pub const R_RISCV_PCREL_LO12_S: u32 = 25;

pub const R_RISCV_ADD32: u32 = 35;

pub const R_RISCV_ADD64: u32 = 36;

pub const R_RISCV_SUB32: u32 = 39;

pub const R_RISCV_SUB64: u32 = 40;

pub const R_RISCV_RELAX: u32 = 51;

pub const R_RISCV_32_PCREL: u32 = 57;
