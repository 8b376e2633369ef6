//! Why a command did not do what was asked.

ghost use Rattle.std.specs.Prelude.{◌≡◌, ◌++◌, ◌⊎◌, ℕ, List, Some, IsUtf8, codes};
ghost use Rattle.std.specs.Fmt.{decimal};
ghost use Rattle.ad_link.specs.Reason.{stage_text};
ghost use Rattle.ad_link.specs.declared.reason.Stage.{Stage};
ghost use Rattle.ad_command.specs.Trouble.{fault_text, refused_module, status_of};

use ad_base::{Name, OutOfMemory};
use ad_link::{LinkRefusal, Stage};
use ad_script::{Cause, ScriptRefusal};
use std::alloc::{AllocFailed, Global};
use std::error::Error;
use std::fmt;
use std::io::ErrorKind;

/// A fault, with its names.
#[derive(Debug, Drop)]
pub enum Trouble {
    /// The command words aren't of the grammar.
    Usage,
    /// This line of the script, counted from 1, is the first that is refused, and this is the first cause.
    Script {
        line: u64,
        cause: Cause,
    },
    /// The link refuses this file: at this stage, for the reason of this number in the stage's list, counted from 1.
    Module {
        file: Name,
        stage: Stage,
        number: u64,
    },
    /// This line of the script calls an export that its module hasn't.
    NoExport {
        line: u64,
    },
    /// The file of this name couldn't be read.
    Read {
        name: Name,
    },
    /// The file of this name has too many bytes.
    TooLarge {
        name: Name,
    },
    /// The report couldn't be written.
    Write,
    /// There was no memory.
    Memory,
}

impl Trouble {
    /// The status that the process ends with.
    pub fn status(&self) -> u8
        ensures { result ≡ status_of (Some self.now) }
    {
        match self {
            Trouble::Usage => 1,
            Trouble::Script { .. } => 2,
            Trouble::Module { .. } | Trouble::NoExport { .. } => 3,
            Trouble::Read { .. } | Trouble::TooLarge { .. } => 4,
            Trouble::Write => 5,
            Trouble::Memory => 6,
        }
    }
}

/// The status that the process ends with: 0 where there is no fault.
pub fn exit_status(fault: &Option<Trouble>) -> u8
    ensures { result ≡ status_of fault.now }
{
    match fault {
        None => 0,
        Some(trouble) => trouble.status(),
    }
}

/// The fault of the file of this name, which a link refuses so. It is want of memory where the link wanted it, or where there
/// is none for the name.
pub fn refused_module(alloc: Global, name: &str, refusal: &LinkRefusal) -> Trouble
    ensures { (result ≡ refused_module name.now refusal.now) ⊎ (result ≡ Trouble.Memory) }
{
    let Ok(file) = Name::of(alloc, name.as_bytes()) else {
        return Trouble::Memory;
    };
    match refusal.reason() {
        Some(reason) => Trouble::Module {
            file,
            stage: reason.stage,
            number: reason.number,
        },
        None => Trouble::Memory,
    }
}

/// Why the command words couldn't be read: words that aren't UTF-8 are none of the grammar, and else memory was wanting.
pub fn unread_words(kind: ErrorKind) -> Trouble
    ensures text { kind ≡ ErrorKind.InvalidData → result ≡ Trouble.Usage }
    ensures memory { (kind ≡ ErrorKind.InvalidData → ⊥) → result ≡ Trouble.Memory }
{
    match kind {
        ErrorKind::InvalidData => Trouble::Usage,
        _ => Trouble::Memory,
    }
}

impl From<ScriptRefusal> for Trouble {
    ghost use Rattle.std.specs.Prelude.{◌≡◌};
    ghost use Rattle.ad_command.specs.Trouble.{refused_script};

    ghost from_gives = { λ r t. t ≡ refused_script r };

    fn from(refusal: ScriptRefusal) -> Trouble {
        match refusal {
            ScriptRefusal::At { line, cause } => Trouble::Script { line, cause },
            ScriptRefusal::OutOfMemory => Trouble::Memory,
        }
    }
}

impl From<OutOfMemory> for Trouble {
    ghost use Rattle.std.specs.Prelude.{◌≡◌};
    ghost use Rattle.ad_command.specs.declared.trouble.Trouble.TheVariants.{Memory};

    ghost from_gives = { λ _ t. t ≡ Memory };

    fn from(_error: OutOfMemory) -> Trouble {
        Trouble::Memory
    }
}

impl<T: Drop> From<AllocFailed<T>> for Trouble {
    ghost use Rattle.std.specs.Prelude.{◌≡◌};
    ghost use Rattle.ad_command.specs.declared.trouble.Trouble.TheVariants.{Memory};

    ghost from_gives = { λ _ t. t ≡ Memory };

    fn from(_error: AllocFailed<T>) -> Trouble {
        Trouble::Memory
    }
}

impl fmt::Display for Trouble {
    ghost use Rattle.std.specs.Prelude.{Some};
    ghost use Rattle.ad_command.specs.Trouble.{fault_text};

    ghost output = { λ t. Some (fault_text t) };

    fn fmt<W: fmt::Write>(&self, f: &mut fmt::Formatter<W>) -> fmt::Result {
        match self {
            Trouble::Usage => write!(f, "adelie: usage"),
            Trouble::Script { line, cause } => write!(f, "adelie: script line {line}: {cause}"),
            Trouble::Module {
                file,
                stage,
                number,
            } => write!(f, "adelie: module {file}: {stage} {number}"),
            Trouble::NoExport { line } => write!(f, "adelie: line {line}: no export"),
            Trouble::Read { name } => write!(f, "adelie: read {name}"),
            Trouble::TooLarge { name } => write!(f, "adelie: read {name}: too large"),
            Trouble::Write => write!(f, "adelie: write"),
            Trouble::Memory => write!(f, "adelie: memory"),
        }
    }
}

impl Error for Trouble {}

/// A name that is UTF-8 is printed as it is.
pub fn law_names_are_printed()
    ensures refused { (name : List ℕ) (stage : Stage) (number : ℕ) → IsUtf8 name
        → fault_text (Trouble.Module name stage number) ≡ codes "adelie: module " ++ name ++ codes ": " ++ stage_text stage ++ codes " " ++ decimal number }
    ensures read { (name : List ℕ) → IsUtf8 name
        → fault_text (Trouble.Read name) ≡ codes "adelie: read " ++ name }
    ensures too_large { (name : List ℕ) → IsUtf8 name
        → fault_text (Trouble.TooLarge name) ≡ codes "adelie: read " ++ name ++ codes ": too large" }
{}
