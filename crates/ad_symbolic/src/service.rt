//! The services, over notes and a device queue of values.

ghost use Rattle.std.specs.Prelude.{◌≡◌, ◌<◌, ℕ, List, Ok};
ghost use Rattle.ad_isa.specs.Services.{noted, sent, served, taken};
ghost use Rattle.ad_symbolic.specs.Private.Made.{answer_of};
ghost use Rattle.ad_symbolic.specs.Value.{values};
ghost use Rattle.ad_symbolic.specs.declared.value.Part.{Part};
ghost use Rattle.ad_symbolic.specs.declared.value.Value.{Value};

use crate::finish::Finish;
use crate::value::Value;
use ad_base::{End, K_ABORT, K_NOTE, K_OUT, NOTES, QUEUE_WORDS, SERVICES};
use arrayvec::ArrayVec;

/// Makes the service of a number.
pub fn make_service(
    number: u8,
    a0: Value,
    notes: &mut ArrayVec<Value, 16>,
    queue: &mut ArrayVec<Value, 256>,
) -> Result<Value, Finish>
    requires { number < SERVICES }
    ensures { (size : Part → ℕ) → (answer_of result, record { notes = notes.new.items; queue = queue.new.items })
        ≡ served (values size) number a0 (record { notes = notes.old.items; queue = queue.old.items }) }
{
    match number {
        K_NOTE => note(notes, a0),
        K_ABORT => Err(Finish::Aborts(a0)),
        K_OUT => Ok(send(queue, a0)),
        _ => Ok(take(queue)),
    }
}

/// Makes a note, if there is room.
fn note(notes: &mut ArrayVec<Value, 16>, a0: Value) -> Result<Value, Finish>
    ensures { (size : Part → ℕ) (queue : List Value) → (answer_of result, record { notes = notes.new.items; queue = queue })
        ≡ noted (values size) a0 (record { notes = notes.old.items; queue = queue }) }
{
    if notes.len() as u64 >= NOTES {
        return Err(Finish::Ends(End::NotesFull));
    }
    notes.push(a0);
    Ok(a0)
}

/// Puts a word into the device queue, if there is room.
fn send(queue: &mut ArrayVec<Value, 256>, a0: Value) -> Value
    ensures { (size : Part → ℕ) (notes : List Value) → (Ok result, record { notes = notes; queue = queue.new.items })
        ≡ sent (values size) a0 (record { notes = notes; queue = queue.old.items }) }
{
    if queue.len() as u64 >= QUEUE_WORDS {
        return Value::Num(0);
    }
    queue.push(a0);
    Value::Num(1)
}

/// Takes a word out of the device queue, if there is one.
fn take(queue: &mut ArrayVec<Value, 256>) -> Value
    ensures { (size : Part → ℕ) (notes : List Value) → (Ok result, record { notes = notes; queue = queue.new.items })
        ≡ taken (values size) queue.old.items (record { notes = notes; queue = queue.old.items }) }
{
    if queue.is_empty() {
        return Value::Num(0);
    }
    queue.remove(0)
}
