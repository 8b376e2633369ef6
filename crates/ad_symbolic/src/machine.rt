//! The symbolic machine.

use crate::memory::Memory;
use crate::value::Value;
use arrayvec::ArrayVec;

/// What the machine keeps beside its registers: its memory, the notes of the call and the device queue.
#[derive(Drop)]
pub struct Machine<'a> {
    pub memory: Memory<'a>,
    pub notes: ArrayVec<Value, 16>,
    pub queue: ArrayVec<Value, 256>,
}
