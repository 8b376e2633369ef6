//! The bytes that a call may change.

ghost use Rattle.ad_call.specs.Private.Stored.{IsPut};
ghost use Rattle.ad_core.specs.Image.{fresh_stack};
ghost use Rattle.ad_isa.specs.Words.{IsSize};
ghost use Rattle.ad_base.specs.declared.layout.TheConstants.{PAGE_BYTES, STACK_PAGES};
ghost use Rattle.ad_base.specs.Image.{zeros};
ghost use Rattle.std.specs.Prelude.{◌≡◌, ◌≤◌, ◌+◌, ◌*◌, length};

use crate::bytes::put_at;
use crate::spot::Spot;
use ad_base::{Role, Sequence};
use ad_core::Refusal;
use std::marker::Model;

/// The stack, and the data of the immovable and of the movable part.
#[derive(Drop)]
pub struct CallBytes {
    stack: Vec<u8>,
    fixed: Vec<u8>,
    writable: Vec<u8>,
}

impl Model for CallBytes {
    ghost use Rattle.ad_call.specs.Private.Held.{Held};

    ghost Value = { Held };

    ghost view = { λ b. record { stack = b.stack.items; fixed = b.fixed.items; writable = b.writable.items } };
}

/// Sets these bytes to zero.
#[tactic(auto, unfolding(ad_base::specs::Image::zeros))]
fn clear(bytes: &mut [u8])
    ensures { bytes.new ≡ zeros (length bytes.old) }
{
    bytes.fill(0);
}

impl CallBytes {
    /// The bytes of a stack, all set to zero, beside these data.
    pub fn fresh(stack: Vec<u8>, fixed: Sequence<u8>, writable: Sequence<u8>) -> CallBytes
        requires { length stack.items ≡ STACK_PAGES * PAGE_BYTES }
        ensures { result ≡ record { stack = fresh_stack; fixed = fixed; writable = writable } }
    {
        let mut stack = stack;
        clear(stack.as_mut_slice());
        CallBytes {
            stack,
            fixed: fixed.into_vec(),
            writable: writable.into_vec(),
        }
    }

    /// The bytes of the stack.
    pub fn stack(&self) -> &[u8]
        ensures { result.now ≡ self.now.stack }
    {
        self.stack.as_slice()
    }

    /// The data of the immovable part.
    pub fn fixed(&self) -> &[u8]
        ensures { result.now ≡ self.now.fixed }
    {
        self.fixed.as_slice()
    }

    /// The data of the movable part.
    pub fn writable(&self) -> &[u8]
        ensures { result.now ≡ self.now.writable }
    {
        self.writable.as_slice()
    }

    /// The bytes of the stack, and the data of the immovable and of the movable part again.
    pub fn into_parts(self) -> (Vec<u8>, Sequence<u8>, Sequence<u8>)
        ensures stack { result.0.items ≡ self.stack }
        ensures fixed { result.1 ≡ self.fixed }
        ensures writable { result.2 ≡ self.writable }
    {
        (
            self.stack,
            Sequence::of(self.fixed),
            Sequence::of(self.writable),
        )
    }

    /// Puts so many low bytes of a value at a byte of a piece, if the piece may be stored to.
    #[inline(always)]
    pub fn put(&mut self, spot: Spot, size: u8, value: u64) -> Result<(), Refusal>
        requires size { IsSize size }
        requires stack { spot.role ≡ Role.Stack → spot.offset + size ≤ length self.old.stack }
        requires fixed { spot.role ≡ Role.FixedData → spot.offset + size ≤ length self.old.fixed }
        requires writable { spot.role ≡ Role.Data → spot.offset + size ≤ length self.old.writable }
        ensures { IsPut spot size value result self.old self.new }
    {
        match spot.role {
            Role::Stack => put_at(self.stack.as_mut_slice(), spot.offset, size, value),
            Role::FixedData => put_at(self.fixed.as_mut_slice(), spot.offset, size, value),
            Role::Data => put_at(self.writable.as_mut_slice(), spot.offset, size, value),
            _ => return Err(Refusal::Denied),
        }
        Ok(())
    }
}
