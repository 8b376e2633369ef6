//! Numbers of the address layout. A region begins at each multiple of its size; region 0 is never
//! mapped, and region 1 is kept for the gate, the services and the wrappers.

/// Bytes of a page.
pub const PAGE_BYTES: u64 = 4096;

/// Bytes of a region, which is 64 pages.
pub const REGION_BYTES: u64 = 0x40000;

/// The address that a call returns to: the first one of region 1.
pub const GATE: u64 = 0x40000;

/// The address of the first service, in region 1.
pub const FIRST_SERVICE: u64 = 0x40010;

/// Bytes from one service's address to the next one's.
pub const SERVICE_BYTES: u64 = 16;

/// Services. They are numbered from 0.
pub const SERVICES: u8 = 4;

/// The number of the service `k_note`.
pub const K_NOTE: u8 = 0;

/// The number of the service `k_abort`.
pub const K_ABORT: u8 = 1;

/// The number of the service `k_out`.
pub const K_OUT: u8 = 2;

/// The number of the service `k_in`.
pub const K_IN: u8 = 3;

/// Notes that a call makes at most.
pub const NOTES: u64 = 16;

/// Words that a device queue holds at most.
pub const QUEUE_WORDS: u64 = 256;

/// Bytes that one fetch reads. The address of a fetch, and so an entry and a target, is a multiple of
/// them.
pub const FETCH_BYTES: u64 = 4;

/// Bytes of an instruction.
pub const INSTRUCTION_BYTES: u64 = 4;

/// Pages of a region. The first and the last of them are never mapped.
pub const REGION_PAGES: u64 = 64;

/// All regions: a place's region is below this number.
pub const REGIONS: u64 = 65_536;

/// The first region for modules.
pub const MODULE_REGION: u64 = 2;

/// Regions for modules, from the first one on.
pub const MODULE_REGIONS: u64 = 32_766;

/// The first region for stacks.
pub const STACK_REGION: u64 = 32_768;

/// Regions for stacks, from the first one on.
pub const STACK_REGIONS: u64 = 32_768;

/// Mappings of a run at most. They are numbered from 1.
pub const MAPPINGS: u64 = 4_095;

/// Table frames: a place's frame is below this number.
pub const FRAMES: u64 = 256;

/// Modules of a run at most.
pub const MODULES: u64 = 8;

/// Workers of a run at most.
pub const WORKERS: u64 = 64;

/// Pages that a part of a module has at most.
pub const PART_PAGES: u16 = 62;

/// Pages of a stack.
pub const STACK_PAGES: u16 = 4;

/// Bytes of a word.
pub const WORD_BYTES: u64 = 8;

/// Pages of the stubs of a part.
pub const STUB_PAGES: u16 = 1;

/// Pages of a fixed table.
pub const TABLE_PAGES: u16 = 1;

/// Pages of a local area.
pub const LOCAL_PAGES: u16 = 1;

/// Words of a local area, and so of its pages, at most.
pub const LOCAL_WORDS: u64 = 512;

/// Words of a fixed table at most.
pub const TABLE_WORDS: u64 = 256;

/// Bytes that a file which is read by name has at most.
pub const FILE_BYTES: u64 = 1_048_576;
