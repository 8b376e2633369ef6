//! Laws of the files and of the script.

ghost use Rattle.std.specs.Prelude.{◌≡◌, ℕ, ◌≤◌, All, Ok, Some, length, map};
ghost use Rattle.ad_base.specs.declared.layout.TheConstants.{WORKERS};
ghost use Rattle.ad_elf.specs.Refusals.{IsObject};
ghost use Rattle.ad_elf.specs.Worked.{sum_file};
ghost use Rattle.ad_kit.specs.ReadBack.{IsReadable};
ghost use Rattle.ad_kit.specs.Writable.{IsWritable};
ghost use Rattle.ad_script.specs.declared.script.Load.{Load};
ghost use Rattle.ad_script.specs.Script.{script_of};
ghost use Rattle.ad_generator.specs.Generated.{IsOfBuilt, generated_script, module_in, worked_steps};
ghost use Rattle.ad_generator.specs.Instructions.{AreWordsOf, cnt_instructions, dev_instructions, sum_instructions, tab_instructions};
ghost use Rattle.ad_generator.specs.Linked.{HasImages, IsPlanned};
ghost use Rattle.ad_generator.specs.Modules.{Module, built_file, cnt_words, dev_words, file, modules, object, sum_words, tab_words};
ghost use Rattle.ad_generator.specs.Script.{script_text, worked_script};

use ad_base::FILE_BYTES;
use ad_words::MOST_GENERATED;

/// The words of the texts are those of their instructions.
pub fn law_instructions()
    ensures sum { AreWordsOf sum_instructions sum_words }
    ensures cnt { AreWordsOf cnt_instructions cnt_words }
    ensures dev { AreWordsOf dev_instructions dev_words }
    ensures tab { AreWordsOf tab_instructions tab_words }
{}

/// The file of module 0 is the worked file of the reader, byte for byte, and the script of eight lines is the worked one: it
/// has seven calls and a move.
pub fn law_worked_modules()
    ensures sum { built_file 0 ≡ sum_file }
    ensures script { script_text 8 ≡ worked_script }
    ensures steps { (generated_script 8).steps ≡ worked_steps }
{}

/// The file of each module can be written and is read, is that of the module's object, and isn't too long to be read.
pub fn law_files()
    ensures writable { All (λ (m : Module). IsWritable m.sections m.symbols) modules }
    ensures readable { All (λ (m : Module). IsReadable m.sections m.symbols) modules }
    ensures object { All (λ (m : Module). IsObject (file m) (object m)) modules }
    ensures short { All (λ (m : Module). length (file m) ≤ FILE_BYTES) modules }
{}

/// The file of each module has a plan and isn't refused, and the function of the module is the one export, at the start of
/// the movable part.
pub fn law_plans()
    ensures { All IsPlanned modules }
{}

/// With the immovable part at any place, the plan of each module's file has an image and isn't refused, and in each image the
/// function of the module is the one export.
pub fn law_images()
    ensures { All HasImages modules }
{}

/// The script that is built is read as what it is to say. The number of its workers is in range, its loads are of the files
/// of the modules, in order, and a call is of the export of its module.
pub fn law_script()
    ensures read { (n : ℕ) → 1 ≤ n → n ≤ MOST_GENERATED → script_of (script_text n) ≡ Ok (generated_script n) }
    ensures some_worker { (n : ℕ) → 1 ≤ (generated_script n).workers }
    ensures few_workers { (n : ℕ) → (generated_script n).workers ≤ WORKERS }
    ensures loads { (n : ℕ) → map (λ (l : Load). module_in l.file) (generated_script n).loads ≡ map Some modules }
    ensures steps { (n : ℕ) → All IsOfBuilt (generated_script n).steps }
{}
