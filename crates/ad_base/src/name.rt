//! Names: of files, of modules and of exports.

ghost use Rattle.std.specs.Prelude.{◌≡◌, IfOk};

use crate::memory::OutOfMemory;
use crate::sequence::Sequence;
use bstr::BStr;
use std::alloc::Global;
use std::fmt;
use std::marker::Model;

/// A name, which is a list of bytes. It is printed as text, with U+FFFD for what isn't UTF-8.
#[derive(Debug, Drop)]
pub struct Name {
    bytes: Sequence<u8>,
}

impl Model for Name {
    ghost use Rattle.std.specs.Prelude.{List, ℕ};

    ghost Value = { List ℕ };

    ghost view = { λ n. n.bytes };
}

impl Name {
    /// The name with these bytes.
    pub fn of(alloc: Global, bytes: &[u8]) -> Result<Name, OutOfMemory>
        ensures { IfOk result (λ name. name ≡ bytes.now) }
    {
        Ok(Name {
            bytes: Sequence::of(Vec::from_slice(alloc, bytes)?),
        })
    }

    /// The bytes.
    pub fn bytes(&self) -> &[u8]
        ensures { result.now ≡ self.now }
    {
        self.bytes.as_slice()
    }
}

impl fmt::Display for Name {
    ghost use Rattle.std.specs.Prelude.{Some};
    ghost use Rattle.std.specs.Str.Lossy.{utf8_lossy};

    ghost output = { λ n. Some (utf8_lossy n) };

    fn fmt<W: fmt::Write>(&self, f: &mut fmt::Formatter<W>) -> fmt::Result {
        let text = BStr::new(self.bytes());
        write!(f, "{text}")
    }
}
