//! The reader of object files: ELF64, relocatable, for RISC-V.
#![tactic(auto)]

mod elf;
mod file;
mod header;
mod laws;
mod object;
mod read;
mod refusal;
mod relas;
mod relocation;
mod sections;
mod strings;
mod symbols;
mod table;
#[cfg(test)]
mod tests;

pub use elf::{
    ELFCLASS64, ELFDATA2LSB, EM_RISCV, ET_REL, EV_CURRENT, FILE_HEADER_BYTES, MAGIC, NAME_BYTES,
    R_RISCV_32, R_RISCV_32_PCREL, R_RISCV_64, R_RISCV_ADD32, R_RISCV_ADD64, R_RISCV_BRANCH,
    R_RISCV_CALL, R_RISCV_CALL_PLT, R_RISCV_GOT_HI20, R_RISCV_JAL, R_RISCV_PCREL_HI20,
    R_RISCV_PCREL_LO12_I, R_RISCV_PCREL_LO12_S, R_RISCV_RELAX, R_RISCV_SUB32, R_RISCV_SUB64,
    RELA_BYTES, SECTION_HEADER_BYTES, SHF_ALLOC, SHF_COMPRESSED, SHF_EXECINSTR, SHF_TLS, SHF_WRITE,
    SHN_ABS, SHN_LORESERVE, SHN_UNDEF, SHT_NOBITS, SHT_NOTE, SHT_NULL, SHT_PROGBITS, SHT_REL,
    SHT_RELA, SHT_STRTAB, SHT_SYMTAB, STB_GLOBAL, STT_FUNC, STT_NOTYPE, SYMBOL_BYTES, ZERO_BYTES,
};
pub use laws::{law_in_range, law_one_answer, law_worked_file};
pub use object::{Object, Rela, Section, Symbol};
pub use read::read_object;
pub use refusal::ElfRefusal;
pub use relocation::width;
