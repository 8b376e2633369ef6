//! The writer of object files.

ghost use Rattle.std.specs.Prelude.{◌≡◌, IfOk, OnOk};
ghost use Rattle.ad_elf.specs.Refusals.{IsObject};
ghost use Rattle.ad_kit.specs.ObjectFile.{object_file};
ghost use Rattle.ad_kit.specs.ReadBack.{AreFit, IsReadable, object_of};
ghost use Rattle.ad_kit.specs.Writable.{IsWritable};

use crate::body::{end_of, put_body};
use crate::header::put_file_header;
use crate::object::{KitSection, KitSymbol};
use crate::strings::{header_names, strings_of, symbol_names};
use crate::table::{headers, put_headers};
use ad_base::OutOfMemory;
use std::alloc::Global;

/// The object file of these sections and symbols (gABI, "Object Files"): the header of the file, the
/// sections, the relocations, the table of symbols, the two sections of strings, and the section table. What
/// was written is read back as the object of these sections and symbols where they are readable.
pub fn write_object(
    alloc: Global,
    sections: &[KitSection],
    symbols: &[KitSymbol],
) -> Result<Vec<u8>, OutOfMemory>
    requires { IsWritable sections.now symbols.now }
    ensures bytes { IfOk result (λ file. file.items ≡ object_file sections.now symbols.now) }
    ensures fit { OnOk result (AreFit sections.now symbols.now) }
    ensures read { IfOk result (λ file. IsReadable sections.now symbols.now → IsObject file.items (object_of sections.now symbols.now)) }
{
    let all_names = header_names(alloc, sections)?;
    let names = strings_of(alloc, all_names.as_slice())?;
    let all_strings = symbol_names(alloc, symbols)?;
    let strings = strings_of(alloc, all_strings.as_slice())?;
    let mut body = Vec::new(alloc);
    let places = put_body(&mut body, alloc, sections, symbols, &names, &strings)?;
    let headers = headers(alloc, sections, symbols, &names, &strings, &places)?;
    let mut file = Vec::new(alloc);
    put_file_header(&mut file, end_of(body.as_slice()), headers.len() as u16)?;
    file.append(&mut body)?;
    put_headers(&mut file, headers.as_slice())?;
    Ok(file)
}
