//! What every other crate speaks of: want of memory, places, images, books, and the traits of the
//! outside.
#![tactic(auto)]

mod book;
mod device;
mod disk_files;
mod end;
mod export_name;
mod fields;
mod files;
mod gate;
mod image;
mod laws;
mod layout;
mod ledger;
mod mem_files;
mod mem_sink;
mod memory;
mod name;
mod numbers;
mod out_sink;
mod place;
mod role;
mod sequence;
mod sink;
#[cfg(test)]
mod tests;
mod words;

pub use book::{Book, Entry, History};
pub use device::Device;
pub use disk_files::DiskFiles;
pub use end::End;
pub use export_name::{is_export_name, is_name_byte};
pub use fields::{field_i64, field_u16, field_u32, field_u64};
pub use files::{Fetch, Files};
pub use gate::{Gate, NoGate, Point};
pub use image::{Cell, Export, Image};
pub use laws::{law_layout, law_packing, law_place_of_a_part};
pub use layout::{
    FETCH_BYTES, FILE_BYTES, FIRST_SERVICE, FRAMES, GATE, INSTRUCTION_BYTES, K_ABORT, K_IN, K_NOTE,
    K_OUT, LOCAL_PAGES, LOCAL_WORDS, MAPPINGS, MODULE_REGION, MODULE_REGIONS, MODULES, NOTES,
    PAGE_BYTES, PART_PAGES, QUEUE_WORDS, REGION_BYTES, REGION_PAGES, REGIONS, SERVICE_BYTES,
    SERVICES, STACK_PAGES, STACK_REGION, STACK_REGIONS, STUB_PAGES, TABLE_PAGES, TABLE_WORDS,
    WORD_BYTES, WORKERS,
};
pub use ledger::{Kind, MoveEnd, Moved, Row};
pub use mem_files::{MemFile, MemFiles};
pub use mem_sink::MemSink;
pub use memory::{OutOfMemory, zero_words};
pub use name::Name;
pub use out_sink::OutSink;
pub use place::Place;
pub use role::Role;
pub use sequence::Sequence;
pub use sink::{Failed, Sink, write_all};
pub use words::{Args, Notes, Words};
