//! The group and the part that a section goes to.

ghost use Rattle.std.specs.Prelude.{◌≡◌};
ghost use Rattle.ad_parts.specs.Area.{area_of, group_of, is_fixed_name, is_movable};

use crate::layout::Group;
use ad_elf::{SHF_EXECINSTR, SHF_WRITE, Section};

/// A group of one of the two parts.
#[derive(Clone, Copy, Debug)]
pub(crate) enum Area {
    /// The text of the movable part.
    Text,
    /// The read-only data of the movable part.
    ReadOnly,
    /// The local area, which is in the movable part.
    Local,
    /// The data of the movable part.
    Writable,
    /// The text of the immovable part.
    FixedText,
    /// The read-only data of the immovable part.
    FixedReadOnly,
    /// The data of the immovable part.
    FixedWritable,
}

/// The area that a section goes to, by its name and its flags.
#[tactic(auto, unfolding(crate::specs::Area::area_of))]
pub(crate) fn area_of(section: &Section) -> Area
    ensures { result ≡ area_of section.now }
{
    let name = section.name.bytes();
    let is_written = section.flags & SHF_WRITE != 0;
    let is_executed = section.flags & SHF_EXECINSTR != 0;
    if name.starts_with(b".data.rel.ro") {
        Area::Local
    } else if is_fixed_name(name) {
        if is_written {
            Area::FixedWritable
        } else if is_executed {
            Area::FixedText
        } else {
            Area::FixedReadOnly
        }
    } else if is_written {
        Area::Writable
    } else if is_executed {
        Area::Text
    } else {
        Area::ReadOnly
    }
}

/// Tests for the name of a section of the immovable part.
#[tactic(auto, unfolding(crate::specs::Area::is_fixed_name))]
fn is_fixed_name(name: &[u8]) -> bool
    ensures { result ≡ is_fixed_name name.now }
{
    name.starts_with(b".fixed")
        || name.starts_with(b".text.fixed")
        || name.starts_with(b".rodata.fixed")
        || name.starts_with(b".data.fixed")
        || name.starts_with(b".bss.fixed")
}

impl Area {
    /// Whether its part is the movable one.
    pub(crate) fn is_movable(self) -> bool
        ensures { result ≡ is_movable self }
    {
        match self {
            Area::Text | Area::ReadOnly | Area::Local | Area::Writable => true,
            Area::FixedText | Area::FixedReadOnly | Area::FixedWritable => false,
        }
    }

    /// Its group.
    pub(crate) fn group(self) -> Group
        ensures { result ≡ group_of self }
    {
        match self {
            Area::Text | Area::FixedText => Group::Text,
            Area::ReadOnly | Area::FixedReadOnly => Group::ReadOnly,
            Area::Local => Group::Local,
            Area::Writable | Area::FixedWritable => Group::Writable,
        }
    }
}
