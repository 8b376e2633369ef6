//! Why a script is refused.

use ad_base::OutOfMemory;
use std::alloc::AllocFailed;
use std::fmt;

/// Why a line is refused.
#[derive(Clone, Copy, Debug, PartialEq, Eq)]
pub enum Cause {
    /// The first word is unknown, a word is missing or too many, or a name isn't spelled as names are.
    Word,
    /// A number isn't spelled as numbers are, or the number of workers isn't 1 to 64.
    Number,
    /// No module of this name was loaded.
    Module,
    /// There is no such worker.
    Worker,
    /// The workers were counted before, a module of this name was loaded before, or a line moves a module twice.
    Duplicate,
    /// Workers are counted, or a module is loaded, behind a call, a move or a fresh stack.
    LateLoad,
    /// There are more lines, or more modules, than there may be.
    TooMany,
    /// A byte is no text.
    NotText,
    /// What is called isn't named as the export of a module.
    Export,
    /// There are more arguments, or more modules are moved, than there may be.
    Args,
}

impl fmt::Display for Cause {
    ghost use Rattle.std.specs.Prelude.{Some};
    ghost use Rattle.ad_script.specs.Script.{cause_text};

    ghost output = { λ c. Some (cause_text c) };

    fn fmt<W: fmt::Write>(&self, f: &mut fmt::Formatter<W>) -> fmt::Result {
        match self {
            Cause::Word => write!(f, "word"),
            Cause::Number => write!(f, "number"),
            Cause::Module => write!(f, "module"),
            Cause::Worker => write!(f, "worker"),
            Cause::Duplicate => write!(f, "duplicate"),
            Cause::LateLoad => write!(f, "late load"),
            Cause::TooMany => write!(f, "too many"),
            Cause::NotText => write!(f, "not text"),
            Cause::Export => write!(f, "export"),
            Cause::Args => write!(f, "args"),
        }
    }
}

/// Why a script can't be had.
#[derive(Clone, Copy, Debug, PartialEq, Eq)]
pub enum ScriptRefusal {
    /// This line, counted from 1, is the first that is refused, and this is the first cause.
    At { line: u64, cause: Cause },
    /// There was no memory.
    OutOfMemory,
}

impl From<OutOfMemory> for ScriptRefusal {
    ghost use Rattle.std.specs.Prelude.{◌≡◌};
    ghost use Rattle.ad_script.specs.declared.refusal.ScriptRefusal.TheVariants.{OutOfMemory};

    ghost from_gives = { λ _ r. r ≡ OutOfMemory };

    fn from(_error: OutOfMemory) -> ScriptRefusal {
        ScriptRefusal::OutOfMemory
    }
}

/// Why a line can't be read.
#[derive(Clone, Copy)]
pub(crate) enum LineFault {
    Refused(Cause),
    OutOfMemory,
}

impl LineFault {
    ghost use Rattle.std.specs.Prelude.{◌≡◌};
    ghost use Rattle.ad_script.specs.Private.Seen.{refusal_at};

    /// The refusal of the script, where this is the fault of the line of this number.
    pub fn at(self, line: u64) -> ScriptRefusal
        ensures { result ≡ refusal_at line self }
    {
        match self {
            LineFault::Refused(cause) => ScriptRefusal::At { line, cause },
            LineFault::OutOfMemory => ScriptRefusal::OutOfMemory,
        }
    }
}

impl From<OutOfMemory> for LineFault {
    ghost use Rattle.std.specs.Prelude.{◌≡◌};
    ghost use Rattle.ad_script.specs.declared.refusal.LineFault.TheVariants.{OutOfMemory};

    ghost from_gives = { λ _ r. r ≡ OutOfMemory };

    fn from(_error: OutOfMemory) -> LineFault {
        LineFault::OutOfMemory
    }
}

impl<T: Drop> From<AllocFailed<T>> for LineFault {
    ghost use Rattle.std.specs.Prelude.{◌≡◌};
    ghost use Rattle.ad_script.specs.declared.refusal.LineFault.TheVariants.{OutOfMemory};

    ghost from_gives = { λ _ r. r ≡ OutOfMemory };

    fn from(_error: AllocFailed<T>) -> LineFault {
        LineFault::OutOfMemory
    }
}
