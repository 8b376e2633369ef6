//! The headers of a file.

ghost use Rattle.std.specs.Prelude.{◌≡◌, ◌+◌, ◌++◌, ◌<◌, ◌^◌, OnOk};
ghost use Rattle.byteorder.specs.Endian.{little_bytes};
ghost use Rattle.ad_kit.specs.ObjectFile.{file_header, header, i64, identification, rela};
ghost use Rattle.ad_kit.specs.ReadBack.{IsRelaFit};
ghost use Rattle.ad_kit.specs.Private.Written.{IsHeaderFit};

use crate::object::KitRela;
use ad_base::OutOfMemory;
use ad_elf::{
    ELFCLASS64, ELFDATA2LSB, EM_RISCV, ET_REL, EV_CURRENT, FILE_HEADER_BYTES, SECTION_HEADER_BYTES,
};

/// The header of a section, field by field (gABI, "Sections"). Its address is 0.
#[derive(Clone, Copy, Debug)]
pub(crate) struct Header {
    /// Where the name begins among the names of the sections.
    pub name: u32,
    pub typ: u32,
    pub flags: u64,
    pub offset: u64,
    pub size: u64,
    pub link: u32,
    pub info: u32,
    pub align: u64,
    pub entry_size: u64,
}

/// The first bytes of a file (gABI, "ELF Identification").
const IDENTIFICATION: [u8; 16] = [
    0x7f,
    b'E',
    b'L',
    b'F',
    ELFCLASS64,
    ELFDATA2LSB,
    EV_CURRENT,
    0,
    0,
    0,
    0,
    0,
    0,
    0,
    0,
    0,
];

/// The version of the format, as the header has it.
const VERSION: u32 = EV_CURRENT as u32;

/// Bytes of the header of a file, and of a section.
const HEADER_BYTES: u16 = FILE_HEADER_BYTES as u16;

const SECTION_BYTES: u16 = SECTION_HEADER_BYTES as u16;

/// Appends a number of one byte.
pub(crate) fn put_u8(file: &mut Vec<u8>, number: u8) -> Result<(), OutOfMemory>
    ensures { OnOk result (file.new.items ≡ file.old.items ++ little_bytes 1 number) }
{
    file.push(number)?;
    Ok(())
}

/// Appends a number of two bytes.
pub(crate) fn put_u16(file: &mut Vec<u8>, number: u16) -> Result<(), OutOfMemory>
    ensures { OnOk result (file.new.items ≡ file.old.items ++ little_bytes 2 number) }
{
    file.extend_from_slice(&number.to_le_bytes())?;
    Ok(())
}

/// Appends a number of four bytes.
pub(crate) fn put_u32(file: &mut Vec<u8>, number: u32) -> Result<(), OutOfMemory>
    ensures { OnOk result (file.new.items ≡ file.old.items ++ little_bytes 4 number) }
{
    file.extend_from_slice(&number.to_le_bytes())?;
    Ok(())
}

/// Appends a number of eight bytes.
pub(crate) fn put_u64(file: &mut Vec<u8>, number: u64) -> Result<(), OutOfMemory>
    ensures { OnOk result (file.new.items ≡ file.old.items ++ little_bytes 8 number) }
{
    file.extend_from_slice(&number.to_le_bytes())?;
    Ok(())
}

/// Appends a signed number of eight bytes.
fn put_i64(file: &mut Vec<u8>, number: i64) -> Result<(), OutOfMemory>
    ensures { OnOk result (file.new.items ≡ file.old.items ++ i64 number) }
{
    file.extend_from_slice(&number.to_le_bytes())?;
    Ok(())
}

/// Appends a relocation.
pub(crate) fn put_rela(file: &mut Vec<u8>, made: KitRela) -> Result<(), OutOfMemory>
    requires { made.symbol < 2 ^ 32 }
    ensures bytes { OnOk result (file.new.items ≡ file.old.items ++ rela made) }
    ensures fit { OnOk result (IsRelaFit made) }
{
    put_u64(file, made.offset)?;
    put_u64(file, made.symbol * (1 << 32) + u64::from(made.typ))?;
    put_i64(file, made.addend)?;
    Ok(())
}

/// Appends the header of a section.
pub(crate) fn put_header(file: &mut Vec<u8>, made: Header) -> Result<(), OutOfMemory>
    ensures bytes { OnOk result (file.new.items ≡ file.old.items ++ header made) }
    ensures fit { OnOk result (IsHeaderFit made) }
{
    put_u32(file, made.name)?;
    put_u32(file, made.typ)?;
    put_u64(file, made.flags)?;
    put_u64(file, 0)?;
    put_u64(file, made.offset)?;
    put_u64(file, made.size)?;
    put_u32(file, made.link)?;
    put_u32(file, made.info)?;
    put_u64(file, made.align)?;
    put_u64(file, made.entry_size)?;
    Ok(())
}

/// Appends the first bytes of a file.
fn put_identification(file: &mut Vec<u8>) -> Result<(), OutOfMemory>
    ensures { OnOk result (file.new.items ≡ file.old.items ++ identification) }
{
    file.extend_from_slice(&IDENTIFICATION)?;
    Ok(())
}

/// Appends the header of a file, whose section table of so many headers begins at a place.
pub(crate) fn put_file_header(
    file: &mut Vec<u8>,
    table_at: u64,
    sections: u16,
) -> Result<(), OutOfMemory>
    requires { 0 < sections }
    ensures { OnOk result (file.new.items ≡ file.old.items ++ file_header table_at sections) }
{
    put_identification(file)?;
    put_u16(file, ET_REL)?;
    put_u16(file, EM_RISCV)?;
    put_u32(file, VERSION)?;
    put_u64(file, 0)?;
    put_u64(file, 0)?;
    put_u64(file, table_at)?;
    put_u32(file, 0)?;
    put_u16(file, HEADER_BYTES)?;
    put_u16(file, 0)?;
    put_u16(file, 0)?;
    put_u16(file, SECTION_BYTES)?;
    put_u16(file, sections)?;
    put_u16(file, sections - 1)?;
    Ok(())
}
