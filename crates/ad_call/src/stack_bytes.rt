//! The bytes of a stack.

ghost use Rattle.std.specs.Prelude.{◌≡◌, ◌*◌, length, IfOk};
ghost use Rattle.ad_base.specs.declared.layout.TheConstants.{PAGE_BYTES, STACK_PAGES};
ghost use Rattle.ad_base.specs.Image.{zeros};

use ad_base::{OutOfMemory, PAGE_BYTES, STACK_PAGES};
use std::alloc::Global;
use std::marker::Model;

/// How many bytes a stack has.
const STACK_BYTES: usize = STACK_PAGES as usize * PAGE_BYTES as usize;

/// The bytes of a stack: those of its pages. A call sets them to zero before it runs.
#[derive(Drop)]
pub struct StackBytes {
    pub(crate) bytes: Vec<u8>,
}

impl Model for StackBytes {
    ghost use Rattle.std.specs.Prelude.{List, ℕ, ◌≡◌, ◌*◌, length};
    ghost use Rattle.ad_base.specs.declared.layout.TheConstants.{PAGE_BYTES, STACK_PAGES};

    ghost Value = { List ℕ };

    ghost view = { λ b. b.bytes.items };

    ghost invariant = { λ b. length b.bytes.items ≡ STACK_PAGES * PAGE_BYTES };
}

impl StackBytes {
    /// The bytes of a stack, all zero. The one error is want of memory.
    pub fn new(alloc: Global) -> Result<StackBytes, OutOfMemory>
        ensures { IfOk result (λ bytes. bytes ≡ zeros (STACK_PAGES * PAGE_BYTES)) }
    {
        let mut bytes = Vec::new(alloc);
        bytes.resize(STACK_BYTES, 0)?;
        Ok(StackBytes { bytes })
    }
}
