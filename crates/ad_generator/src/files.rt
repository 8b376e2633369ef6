//! The object files of the modules that are built.

ghost use Rattle.std.specs.Prelude.{◌≡◌, ◌<◌, IfOk};
ghost use Rattle.ad_generator.specs.Generated.{built_named};
ghost use Rattle.ad_generator.specs.Modules.{built_file, file};
ghost use Rattle.ad_generator.specs.Private.Named.{module_of};

use crate::names::{BUILT_MODULES, BuiltModule};
use ad_base::OutOfMemory;
use ad_kit::write_object;
use std::alloc::Global;

/// The object file of a module, by its number: 0 `sum`, whose function adds two arguments; 1 `cnt`, which counts in a word of
/// data; 2 `dev`, which writes to the queue of its device and reads from there; 3 `tab`, which jumps by a table of addresses.
/// The one error is want of memory.
///
/// Instructions are in `.text`, which is aligned to 4 bytes, the word of
/// `cnt` in `.bss` and the table of `tab` in `.data.rel.ro`, both aligned to 8 and written to. Local symbols come first: the
/// object of data, the label of the `auipc` that a low half refers to, and local functions. Then come the function that is
/// exported and the services. Symbols of functions and of data have their size in bytes; addends are 0.
pub fn built(alloc: Global, number: u64) -> Result<Vec<u8>, OutOfMemory>
    requires { number < BUILT_MODULES }
    ensures { IfOk result (λ file. file.items ≡ built_file number) }
{
    BuiltModule::of(number).file(alloc)
}

/// The object file of this name, as `built` gives it: that of a module is named for the module, with `.o` at the end. A name of
/// no such file gives no byte. The one error is want of memory.
pub fn built_named(alloc: Global, name: &str) -> Result<Vec<u8>, OutOfMemory>
    ensures { IfOk result (λ file. file.items ≡ built_named name.now) }
{
    match BuiltModule::in_file(name) {
        Some(module) => module.file(alloc),
        None => Ok(Vec::new(alloc)),
    }
}

impl BuiltModule {
    /// Its object file.
    fn file(self, alloc: Global) -> Result<Vec<u8>, OutOfMemory>
        ensures { IfOk result (λ v. v.items ≡ file (module_of self)) }
    {
        let sections = self.sections(alloc)?;
        let symbols = self.symbols(alloc)?;
        write_object(alloc, sections.as_slice(), symbols.as_slice())
    }
}
