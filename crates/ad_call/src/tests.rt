//! Calls of a small module at places that are given, with the instruction words of the standard. The words are those that
//! clang's assembler makes of the text beside them, `clang --target=riscv64 -march=rv64im -c`.

mod accesses;
mod ends;
mod module;
mod noted;
mod services;
