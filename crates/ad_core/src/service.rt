//! The services, over notes and a device queue.

ghost use Rattle.ad_base.specs.Segments.{service_number};
ghost use Rattle.ad_core.specs.Bus.{answer_of};
ghost use Rattle.ad_core.specs.Memory.{service_or};
ghost use Rattle.ad_isa.specs.Numbers.{numbers};
ghost use Rattle.ad_isa.specs.Services.{noted, sent, served, taken};
ghost use Rattle.std.specs.Prelude.{◌≡◌, ◌<◌, ◌/◌, List, ℕ};

use crate::bus::{Fetched, Served};
use ad_base::{
    Device, FIRST_SERVICE, K_ABORT, K_NOTE, K_OUT, NOTES, Notes, QUEUE_WORDS, REGION_BYTES,
    SERVICE_BYTES, SERVICES,
};

/// Makes the service of a number, for a bus that keeps these notes and this device queue.
pub fn make_service(number: u8, a0: u64, notes: &mut Notes, device: &mut Device) -> Served
    requires { number < SERVICES }
    ensures { (answer_of result, record { notes = notes.new; queue = device.new })
        ≡ served numbers number a0 (record { notes = notes.old; queue = device.old }) }
{
    match number {
        K_NOTE => note(notes, a0),
        K_ABORT => Served::Abort(a0),
        K_OUT => send(device, a0),
        _ => take(device),
    }
}

/// What is fetched at an address of region 1 that isn't the gate: a service, or a fault.
pub fn service_at(at: u64) -> Fetched
    requires { at / REGION_BYTES ≡ 1 }
    ensures { result ≡ service_or (service_number at) Fetched.Fault }
{
    if at < FIRST_SERVICE {
        return Fetched::Fault;
    }
    let number = (at - FIRST_SERVICE) / SERVICE_BYTES;
    if number >= u64::from(SERVICES) || at % SERVICE_BYTES != 0 {
        return Fetched::Fault;
    }
    Fetched::Service(number as u8)
}

/// Makes a note, if there is room.
fn note(notes: &mut Notes, a0: u64) -> Served
    ensures { (queue : List ℕ) → (answer_of result, record { notes = notes.new; queue = queue })
        ≡ noted numbers a0 (record { notes = notes.old; queue = queue }) }
{
    if notes.len() >= NOTES {
        return Served::NotesFull;
    }
    notes.push(a0);
    Served::Answer(a0)
}

/// Puts a word into the device queue, if there is room.
fn send(device: &mut Device, a0: u64) -> Served
    ensures { (notes : List ℕ) → (answer_of result, record { notes = notes; queue = device.new })
        ≡ sent numbers a0 (record { notes = notes; queue = device.old }) }
{
    if device.len() >= QUEUE_WORDS {
        return Served::Answer(0);
    }
    device.push(a0);
    Served::Answer(1)
}

/// Takes a word out of the device queue, if there is one.
fn take(device: &mut Device) -> Served
    ensures { (notes : List ℕ) → (answer_of result, record { notes = notes; queue = device.new })
        ≡ taken numbers device.old (record { notes = notes; queue = device.old }) }
{
    if device.len() == 0 {
        return Served::Answer(0);
    }
    Served::Answer(device.pop())
}
