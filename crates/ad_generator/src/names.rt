//! The modules that are built, and what a script says of them.

ghost use Rattle.std.specs.Prelude.{◌≡◌, ◌<◌, Some, option_map};
ghost use Rattle.std.specs.List.{slice_get};
ghost use Rattle.ad_generator.specs.Generated.{module_in};
ghost use Rattle.ad_generator.specs.Modules.{modules};
ghost use Rattle.ad_generator.specs.Private.Named.{module_of};

/// How many modules are built.
pub const BUILT_MODULES: u64 = 4;

/// A module that is built.
#[derive(Clone, Copy, Debug, PartialEq, Eq)]
pub(crate) enum BuiltModule {
    /// Its function adds its two arguments.
    Sum,
    /// Its function adds its argument to a word of data.
    Counter,
    /// Its function writes its argument to the queue of the device, and reads from there.
    Device,
    /// Its function jumps to one of two functions, by a table of addresses.
    Table,
}

impl BuiltModule {
    /// The module of a number.
    pub fn of(number: u64) -> BuiltModule
        requires { number < BUILT_MODULES }
        ensures { slice_get modules number ≡ Some (module_of result) }
    {
        match number {
            0 => BuiltModule::Sum,
            1 => BuiltModule::Counter,
            2 => BuiltModule::Device,
            3 => BuiltModule::Table,
            _ => unreachable!(),
        }
    }

    /// The module whose file has this name.
    pub fn in_file(name: &str) -> Option<BuiltModule>
        ensures { option_map module_of result ≡ module_in name.now }
    {
        if "sum.o" == name {
            Some(BuiltModule::Sum)
        } else if "cnt.o" == name {
            Some(BuiltModule::Counter)
        } else if "dev.o" == name {
            Some(BuiltModule::Device)
        } else if "tab.o" == name {
            Some(BuiltModule::Table)
        } else {
            None
        }
    }

    /// What scripts call it.
    pub fn name(self) -> &'static str
        ensures { result.now ≡ (module_of self).name }
    {
        match self {
            BuiltModule::Sum => "sum",
            BuiltModule::Counter => "cnt",
            BuiltModule::Device => "dev",
            BuiltModule::Table => "tab",
        }
    }

    /// The name of the function that it exports.
    pub fn export(self) -> &'static str
        ensures { result.now ≡ (module_of self).export }
    {
        match self {
            BuiltModule::Sum => "sum",
            BuiltModule::Counter => "add",
            BuiltModule::Device => "echo",
            BuiltModule::Table => "pick",
        }
    }

    /// The second argument of its function, if that takes one.
    pub fn second(self) -> Option<u64>
        ensures { result ≡ (module_of self).second }
    {
        match self {
            BuiltModule::Sum => Some(1),
            _ => None,
        }
    }
}
