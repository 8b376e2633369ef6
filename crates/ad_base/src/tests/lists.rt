//! Field readers, words, queues, names and histories.

use crate::{
    Args, Book, Device, End, Entry, History, Name, Notes, Place, Sequence, field_i64, field_u16,
    field_u32, field_u64,
};
use std::alloc::Global;
use std::test::Fail;

#[test]
fn reads_numbers_lowest_byte_first(rt: HostRuntime) {
    let bytes = [
        0x7f, 0x45, 0x4c, 0x46, 2, 1, 1, 0, 0xfe, 0xff, 0xff, 0xff, 0xff, 0xff, 0xff, 0xff,
    ];
    assert_eq!(rt; field_u16(&bytes, 0), 0x457f);
    assert_eq!(rt; field_u16(&bytes, 7), 0xfe00);
    assert_eq!(rt; field_u32(&bytes, 1), 0x0246_4c45);
    assert_eq!(rt; field_u32(&bytes, 12), 0xffff_ffff);
    assert_eq!(rt; field_u64(&bytes, 0), 0x0001_0102_464c_457f);
    assert_eq!(rt; field_i64(&bytes, 0), 0x0001_0102_464c_457f);
    assert_eq!(rt; field_i64(&bytes, 8), -2);
}

#[test]
fn words_keep_their_order(rt: HostRuntime) {
    let mut args = Args::new();
    args.push(7);
    args.push(u64::MAX);
    assert_eq!(rt; args.len(), 2);
    assert_eq!(rt; args.get(1), u64::MAX);
    let copy = args.copy();
    args.push(9);
    assert_eq!(rt; copy.as_slice(), [7, u64::MAX].as_slice());
    assert_eq!(rt; args.as_slice(), [7, u64::MAX, 9].as_slice());
    assert_eq!(rt; Notes::new().len(), 0);
}

#[test]
fn a_device_goes_on_behind_its_end(rt: HostRuntime) {
    let mut device = Device::new();
    for word in 0..256u64 {
        assert!(rt; device.len() < 256);
        device.push(word);
    }
    for word in 0..200u64 {
        assert!(rt; 0 < device.len());
        assert_eq!(rt; device.pop(), word);
    }
    for word in 256..400u64 {
        assert!(rt; device.len() < 256);
        device.push(word);
    }
    assert!(rt; device.len() == 200);
    assert_eq!(rt; device.get(199), 399);
    let mut copy = device.copy();
    for word in 200..400u64 {
        assert!(rt; 0 < copy.len());
        assert_eq!(rt; copy.pop(), word);
    }
    assert_eq!(rt; copy.len(), 0);
    assert_eq!(rt; device.len(), 200);
}

fn entry(line: u64) -> Entry {
    let place = Place {
        region: 2,
        start: 3,
        pages: 4,
        mapping: 5,
        frame: 6,
    };
    Entry {
        line,
        worker: 0,
        export: 0,
        args: Args::new(),
        under: place,
        stack: place,
        notes: Notes::new(),
        end: End::Fuel,
    }
}

#[test]
fn a_history_keeps_its_calls(rt: HostRuntime) -> Result<(), Fail> {
    let mut history = History::with_room(rt.alloc(), 2)?;
    history.push(entry(1));
    history.push(entry(2));
    let book = Book {
        writable: Sequence::of(Vec::new(rt.alloc())),
        fixed: Sequence::of(Vec::new(rt.alloc())),
        device: Device::new(),
        history,
    };
    let entries = book.history.as_slice();
    assert_eq!(rt; entries.len(), 2);
    assert_eq!(rt; entries[0].line, 1);
    assert_eq!(rt; entries[1].line, 2);
    assert_eq!(rt; entries[1].end, End::Fuel);
    assert_eq!(rt; entries[1].under.base(), 0x83000);
    assert_eq!(rt; book.history.len(), 2);
    Ok(())
}

fn three(alloc: Global) -> Result<Sequence<u8>, Fail> {
    Ok(Sequence::of(Vec::from_slice(alloc, &[1, 2, 3])?))
}

#[test]
fn a_sequence_gives_its_vector_back(rt: HostRuntime) -> Result<(), Fail> {
    let sequence = three(rt.alloc())?;
    assert_eq!(rt; sequence.len(), 3);
    assert_eq!(rt; sequence.as_slice(), [1, 2, 3].as_slice());
    assert_eq!(rt; sequence.into_vec().as_slice(), [1, 2, 3].as_slice());
    let name = Name::of(rt.alloc(), b"gate")?;
    assert_eq!(rt; name.bytes(), b"gate".as_slice());
    Ok(())
}
