//! Laws of written files.

ghost use Rattle.std.specs.Prelude.{◌≡◌, List};
ghost use Rattle.ad_elf.specs.declared.object.Object.{Object};
ghost use Rattle.ad_elf.specs.Refusals.{IsObject};
ghost use Rattle.ad_elf.specs.Worked.{sum_file, sum_object};
ghost use Rattle.ad_kit.specs.declared.object.KitSection.{KitSection};
ghost use Rattle.ad_kit.specs.declared.object.KitSymbol.{KitSymbol};
ghost use Rattle.ad_kit.specs.ObjectFile.{object_file};
ghost use Rattle.ad_kit.specs.ReadBack.{AreFit, IsReadable, object_of};
ghost use Rattle.ad_kit.specs.Worked.{sum_sections, sum_symbols};
ghost use Rattle.ad_kit.specs.Writable.{IsWritable};

/// The worked file is that of its section and its symbol, byte for byte, they can be written, and what was
/// written is read as the object that has them.
pub fn law_worked_object()
    ensures file { object_file sum_sections sum_symbols ≡ sum_file }
    ensures read { IsObject (object_file sum_sections sum_symbols) sum_object }
    ensures writable { IsWritable sum_sections sum_symbols }
    ensures fit { AreFit sum_sections sum_symbols }
    ensures readable { IsReadable sum_sections sum_symbols }
{}

/// What was written is read back: the file of sections and symbols is the file of the object that has
/// them, exactly where they are readable. That their numbers fit their fields holds of all that
/// `write_object` writes.
///
/// Of the files that can be written the reader refuses, row by row: a section of zeros of more than
/// 2^32 bytes (`SectionBounds`); a section of the type of relocations without addends, and one that is
/// loaded and isn't of the program, of zeros or of notes, or is each thread's own, or is compressed
/// (`SectionType`); a section whose name, or that of its relocations, has more than 4,096 bytes
/// (`StringIndex`); a second table of symbols, and a symbol with such a name (`SymbolTable`); a symbol in
/// a section that isn't there, or past its end (`SymbolSection`); a section of relocations that was
/// given as a section, and relocations of a section of zeros that is kept (`RelaTarget`); a relocation
/// of a symbol that isn't there (`RelaSymbol`), and one whose field isn't in its section
/// (`RelaOffset`). Nothing else is refused, and the first seven rows never hold.
pub fn law_round_trip()
    ensures read { (sections : List KitSection) (symbols : List KitSymbol) → IsWritable sections symbols → AreFit sections symbols → IsReadable sections symbols → IsObject (object_file sections symbols) (object_of sections symbols) }
    ensures no_other { (sections : List KitSection) (symbols : List KitSymbol) (o : Object) → IsWritable sections symbols → AreFit sections symbols → IsObject (object_file sections symbols) o → IsReadable sections symbols }
{}
