//! Where an access of the symbolic machine reaches.

ghost use Rattle.std.specs.Prelude.{◌≡◌, ◌≤◌, ◌<◌, ◌+◌, ◌-◌, ◌*◌, ◌%◌, ◌^◌, ◌==◌, ◌&&◌, nat_le, nat_lt, Some, None, Ok};
ghost use Rattle.ad_base.specs.Image.{movable_pages};
ghost use Rattle.ad_base.specs.Place.{base_of};
ghost use Rattle.ad_base.specs.Segments.{Use, holding, service_number};
ghost use Rattle.ad_isa.specs.Words.{IsSize};
ghost use Rattle.ad_symbolic.specs.AddressSpace.{fetched_value, is_beside, loaded_value, part_bytes, reach_value, segments_in, stored_value};
ghost use Rattle.ad_symbolic.specs.Private.Reached.{allowed, fetched_as, held_in, piece_in, space_in, role_reached, stored_as, IfReached, IsOfImage, LiesIn, PutsIn};
ghost use Rattle.ad_symbolic.specs.Value.{offset_of};
ghost use Rattle.ad_symbolic.specs.declared.value.Value.TheVariants.{At, Num};

use crate::arithmetic::{STACK_BYTES, is_outside};
use crate::memory::Memory;
use crate::piece::Piece;
use crate::value::{Part, Reason, Value};
use ad_base::{End, PAGE_BYTES, Role};

impl Memory<'_> {
    /// The bytes of a part.
    fn part_bytes(&self, part: Part) -> u64
        ensures found { result ≡ part_bytes self.now.image.now part }
        ensures low { result < 2 ^ 32 }
    {
        match part {
            Part::Movable => self.movable_bytes,
            Part::Stack => STACK_BYTES,
        }
    }

    /// The role of the piece of a part in which an offset lies.
    fn in_part(&self, part: Part, offset: u64) -> Option<Role>
        ensures held { holding (segments_in (space_in self.now) part) offset ≡ held_in self.now result }
        ensures inside { LiesIn self.now offset result }
        ensures puts { PutsIn self.now (At part offset) result }
    {
        match part {
            Part::Movable => self.in_movable(offset),
            Part::Stack => self.in_stack(offset),
        }
    }

    /// The role of the piece of the movable part in which an offset lies.
    fn in_movable(&self, offset: u64) -> Option<Role>
        ensures held { holding (space_in self.now).movable offset ≡ held_in self.now result }
        ensures inside { LiesIn self.now offset result }
        ensures puts { PutsIn self.now (At Part.Movable offset) result }
    {
        if self.code.holds(offset) {
            Some(Role::Code)
        } else if self.constants.holds(offset) {
            Some(Role::Constants)
        } else if self.table.holds(offset) {
            Some(Role::Table)
        } else if self.cells.holds(offset) {
            Some(Role::Cells)
        } else if self.writable.holds(offset) {
            Some(Role::Data)
        } else {
            None
        }
    }

    /// The role of the stack, if an offset lies in it.
    fn in_stack(&self, offset: u64) -> Option<Role>
        ensures held { holding (space_in self.now).stack offset ≡ held_in self.now result }
        ensures inside { LiesIn self.now offset result }
        ensures puts { PutsIn self.now (At Part.Stack offset) result }
    {
        if self.stack.holds(offset) {
            Some(Role::Stack)
        } else {
            None
        }
    }

    /// The role of the piece of the immovable part in which an address lies.
    fn in_fixed(&self, at: u64) -> Option<Role>
        ensures held { holding (space_in self.now).fixed at ≡ held_in self.now result }
        ensures inside { LiesIn self.now at result }
        ensures puts { PutsIn self.now (Num at) result }
    {
        if self.fixed_code.holds(at) {
            Some(Role::FixedCode)
        } else if self.fixed_constants.holds(at) {
            Some(Role::FixedConstants)
        } else if self.fixed_table.holds(at) {
            Some(Role::FixedTable)
        } else if self.fixed_data.holds(at) {
            Some(Role::FixedData)
        } else {
            None
        }
    }

    /// The role of the piece that an access of so many bytes reaches, how the call ends there, or why neither is clear.
    pub fn reach(&self, size: u8, at: Value) -> Result<Result<Role, End>, Reason>
        requires { IsSize size }
        ensures reached { (wanted : Use) → reach_value wanted size (space_in self.now) at ≡ allowed self.now wanted result }
        ensures aligned { IfReached result (offset_of at % size ≡ 0) }
        ensures inside { LiesIn self.now (offset_of at) (role_reached result) }
        ensures puts { PutsIn self.now at (role_reached result) }
    {
        match at {
            Value::At(part, offset) => self.reach_offset(size, part, offset),
            Value::Num(number) => self.reach_number(size, number),
        }
    }

    /// The same at an offset of a part.
    fn reach_offset(&self, size: u8, part: Part, offset: u64) -> Result<Result<Role, End>, Reason>
        requires { IsSize size }
        ensures reached { (wanted : Use) → reach_value wanted size (space_in self.now) (At part offset) ≡ allowed self.now wanted result }
        ensures aligned { IfReached result (offset % size ≡ 0) }
        ensures inside { LiesIn self.now offset (role_reached result) }
        ensures puts { PutsIn self.now (At part offset) (role_reached result) }
    {
        if !is_aligned(size, offset) {
            return Ok(Err(End::Misaligned));
        }
        let bytes = self.part_bytes(part);
        if offset < bytes {
            match self.in_part(part, offset) {
                Some(role) => Ok(Ok(role)),
                None => Ok(Err(End::Fault)),
            }
        } else if is_beside(bytes, offset) {
            Ok(Err(End::Fault))
        } else {
            Err(Reason::Address)
        }
    }

    /// The same at a number.
    fn reach_number(&self, size: u8, number: u64) -> Result<Result<Role, End>, Reason>
        requires { IsSize size }
        ensures reached { (wanted : Use) → reach_value wanted size (space_in self.now) (Num number) ≡ allowed self.now wanted result }
        ensures aligned { IfReached result (number % size ≡ 0) }
        ensures inside { LiesIn self.now number (role_reached result) }
        ensures puts { PutsIn self.now (Num number) (role_reached result) }
    {
        if !is_aligned(size, number) {
            return Ok(Err(End::Misaligned));
        }
        if is_outside(number) {
            return Ok(Err(End::Fault));
        }
        if !self.is_fixed(number) {
            return Err(Reason::Address);
        }
        match self.in_fixed(number) {
            Some(role) => Ok(Ok(role)),
            None => Ok(Err(End::Fault)),
        }
    }

    /// Whether a number is an address of the immovable part.
    fn is_fixed(&self, number: u64) -> bool
        ensures { result ≡ (nat_le (base_of self.now.image.now.fixed) number
            && nat_lt number (base_of self.now.image.now.fixed + self.now.image.now.fixed.pages * PAGE_BYTES)) }
    {
        let base = self.image.fixed.base();
        number >= base && number - base < u64::from(self.image.fixed.pages) * PAGE_BYTES
    }

    /// The piece of a role.
    pub fn piece(&self, role: Role) -> &Piece
        ensures { result.now ≡ piece_in self.now role }
    {
        match role {
            Role::Stack => &self.stack,
            Role::FixedCode => &self.fixed_code,
            Role::FixedConstants => &self.fixed_constants,
            Role::FixedTable => &self.fixed_table,
            Role::FixedData => &self.fixed_data,
            Role::Code => &self.code,
            Role::Constants => &self.constants,
            Role::Table => &self.table,
            Role::Cells => &self.cells,
            Role::Data => &self.writable,
        }
    }
}

/// Whether an offset is at most a page before a part of so many bytes, or less than a page behind it.
fn is_beside(bytes: u64, offset: u64) -> bool
    requires { bytes < 2 ^ 32 }
    ensures { result ≡ is_beside bytes offset }
{
    offset >= 0u64.wrapping_sub(PAGE_BYTES) || offset < bytes + PAGE_BYTES
}

/// Whether an offset or an address is a multiple of a size. The sizes are constants here, so that no division is made.
fn is_aligned(size: u8, at: u64) -> bool
    requires { IsSize size }
    ensures { result ≡ (at % size == 0) }
{
    match size {
        1 => true,
        2 => at % 2 == 0,
        4 => at % 4 == 0,
        _ => at % 8 == 0,
    }
}
