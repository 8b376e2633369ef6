//! A module that is made by hand, with something in each of its pieces.

ghost use Rattle.std.specs.Prelude.{◌≡◌, ◌==◌, ◌&&◌, ◌<◌, ◌+◌, nat_lt, IfOk, length};
ghost use Rattle.ad_base.specs.declared.layout.TheConstants.{STACK_PAGES};
ghost use Rattle.ad_base.specs.Image.{movable_pages, IsWhole};
ghost use Rattle.ad_call.specs.Call.{HasData};

use crate::tests::noted::{NotedPages, Question};
use crate::{Call, Pages, PlainMapping, StackBytes, run_call};
use ad_base::{
    Args, Book, Cell, Device, End, Export, History, Image, Name, OutOfMemory, PAGE_BYTES, Place,
    STACK_PAGES, Sequence, field_u64,
};
use std::alloc::Global;

/// `ret`.
pub const RETURN: u32 = 0x0000_8067;

/// `li a0, 9` and `ret`: the code of the immovable part.
pub const NINE: [u32; 2] = [0x0090_0513, RETURN];

/// Where the movable part lies: from 3 * 262,144 + 5 * 4,096 = 806,912 on.
pub const UNDER: Place = Place {
    region: 3,
    start: 5,
    pages: 6,
    mapping: 3,
    frame: 0,
};

/// Where the stack lies: its 16,384 bytes begin at 40,000 * 262,144 + 9 * 4,096 = 10,485,796,864.
pub const STACK: Place = Place {
    region: 40_000,
    start: 9,
    pages: 4,
    mapping: 1,
    frame: 0,
};

/// Where the immovable part lies: from 2 * 262,144 + 4,096 = 528,384 on.
pub const FIXED: Place = Place {
    region: 2,
    start: 1,
    pages: 5,
    mapping: 2,
    frame: 0,
};

/// The pieces of the movable part, each of a page.
pub const CODE: u64 = 0xc_5000;

pub const STUB: u64 = 0xc_6000;

pub const CONSTANTS: u64 = 0xc_7000;

pub const TABLE: u64 = 0xc_8000;

pub const CELLS: u64 = 0xc_9000;

pub const DATA: u64 = 0xc_a000;

pub const DATA_END: u64 = 0xc_b000;

/// The pieces of the immovable part, each of a page.
pub const FIXED_CODE: u64 = 0x8_1000;

pub const FIXED_STUB: u64 = 0x8_2000;

pub const FIXED_CONSTANTS: u64 = 0x8_3000;

pub const FIXED_TABLE: u64 = 0x8_4000;

pub const FIXED_DATA: u64 = 0x8_5000;

pub const FIXED_DATA_END: u64 = 0x8_6000;

/// The first byte of the stack, and the first one behind it.
pub const STACK_BASE: u64 = 0x2_7100_9000;

pub const STACK_END: u64 = 0x2_7100_d000;

/// The first words of the pieces.
pub const CONSTANT: u64 = 0x0123_4567_89ab_cdef;

pub const TABLE_WORD: u64 = 0xfedc_ba98_7654_3210;

pub const NUMBER: u64 = 0x1122_3344_5566_7788;

pub const DATUM: u64 = 0xf1e2_d3c4_b5a6_9788;

pub const FIXED_CONSTANT: u64 = 0x7766_5544_3322_1100;

pub const FIXED_DATUM: u64 = 0x0807_0605_0403_0201;

/// A page of text, a page of stubs, and a page of read-only data that begins with this constant.
fn code(alloc: Global, words: &[u32], constant: u64) -> Result<Vec<u8>, OutOfMemory>
    ensures { IfOk result (λ code. length code.items ≡ 12_288) }
{
    let mut code = Vec::new(alloc);
    for word in words {
        code.extend_from_slice(&word.to_le_bytes())?;
    }
    code.resize(2 * PAGE_BYTES as usize, 0)?;
    code.extend_from_slice(&constant.to_le_bytes())?;
    code.resize(3 * PAGE_BYTES as usize, 0)?;
    Ok(code)
}

/// A page of data that begins with this word.
fn page(alloc: Global, word: u64) -> Result<Vec<u8>, OutOfMemory>
    ensures { IfOk result (λ page. length page.items ≡ PAGE_BYTES) }
{
    let mut page = Vec::new(alloc);
    page.extend_from_slice(&word.to_le_bytes())?;
    page.resize(PAGE_BYTES as usize, 0)?;
    Ok(page)
}

/// Exports of the second word, and of the first.
fn exports(alloc: Global) -> Result<Sequence<Export>, OutOfMemory>
    ensures { IfOk result (λ exports. length exports ≡ 2) }
{
    let mut exports = Vec::new(alloc);
    exports.push(Export {
        name: Name::of(alloc, b"b")?,
        offset: 4,
    })?;
    exports.push(Export {
        name: Name::of(alloc, b"a")?,
        offset: 0,
    })?;
    Ok(Sequence::of(exports))
}

/// The words of the local area: addresses 16 bytes behind the base and one byte before it, and a number.
fn cells(alloc: Global) -> Result<Sequence<Cell>, OutOfMemory>
    ensures { IfOk result (λ cells. length cells ≡ 3) }
{
    let mut cells = Vec::new(alloc);
    cells.push(Cell::Off(16))?;
    cells.push(Cell::Num(NUMBER))?;
    cells.push(Cell::Off(u64::MAX))?;
    Ok(Sequence::of(cells))
}

/// A module of these words.
fn image(alloc: Global, words: &[u32]) -> Result<Image, OutOfMemory>
    ensures whole { IfOk result IsWhole }
    ensures exports { IfOk result (λ i. length i.exports ≡ 2) }
    ensures pages { IfOk result (λ i. movable_pages i ≡ 6) }
    ensures writable { IfOk result (λ i. length i.writable ≡ PAGE_BYTES) }
    ensures fixed { IfOk result (λ i. length i.fixed_data ≡ PAGE_BYTES) }
{
    let mut table = Vec::new(alloc);
    table.push(TABLE_WORD)?;
    Ok(Image {
        text_pages: 1,
        read_pages: 1,
        data_pages: 1,
        code: Sequence::of(code(alloc, words, CONSTANT)?),
        cells: cells(alloc)?,
        writable: Sequence::of(page(alloc, DATUM)?),
        table: Sequence::of(table),
        fixed_text_pages: 1,
        fixed_read_pages: 1,
        fixed_data_pages: 1,
        fixed_code: Sequence::of(code(alloc, &NINE, FIXED_CONSTANT)?),
        fixed_data: Sequence::of(page(alloc, FIXED_DATUM)?),
        fixed: FIXED,
        exports: exports(alloc)?,
    })
}

/// What is kept from call to call before the first, with room for so many.
fn book(alloc: Global, room: u64) -> Result<Book, OutOfMemory>
    ensures writable { IfOk result (λ book. length book.writable ≡ PAGE_BYTES) }
    ensures fixed { IfOk result (λ book. length book.fixed ≡ PAGE_BYTES) }
    ensures room { IfOk result (λ book. book.history.room ≡ room) }
{
    Ok(Book {
        writable: Sequence::of(page(alloc, DATUM)?),
        fixed: Sequence::of(page(alloc, FIXED_DATUM)?),
        device: Device::new(),
        history: History::with_room(alloc, room)?,
    })
}

/// The call of the first word at the usual places.
pub const USUAL: Call = Call {
    line: 7,
    worker: 1,
    export: 1,
    under: UNDER,
    stack: STACK,
};

/// The words of three arguments.
fn words_of(args: [u64; 3]) -> Args {
    let mut words = Args::new();
    words.push(args[0]);
    words.push(args[1]);
    words.push(args[2]);
    words
}

/// Makes a call with these arguments, of 4,000 steps at most, if the places are of as many pages as the parts. It gives
/// the pages back.
pub fn make<P: Pages>(
    pages: P,
    bytes: &mut StackBytes,
    image: &Image,
    book: &mut Book,
    call: Call,
    args: [u64; 3],
) -> P
    requires whole { IsWhole image.now }
    requires exports { length image.now.exports ≡ 2 }
    requires data { HasData image.now book.old.writable book.old.fixed }
    requires export { call.export < 2 }
    requires room { 0 < book.old.history.room }
    requires under { (P.view pages).place ≡ call.under }
    requires under_pages { call.under.pages ≡ movable_pages image.now }
    requires cells { (P.view pages).cells ≡ image.now.cells }
    requires stack { call.stack.pages ≡ STACK_PAGES }
    ensures data { HasData image.now book.new.writable book.new.fixed }
    ensures room { book.new.history.room + 1 ≡ book.old.history.room }
    ensures place { (P.view result).place ≡ (P.view pages).place }
    ensures cells { (P.view result).cells ≡ (P.view pages).cells }
{
    run_call(pages, bytes, image, book, call, &words_of(args), 4_000)
}

/// Tests whether a call may be made: of one of two exports, with places of as many pages as the parts.
fn is_possible(call: Call) -> bool
    ensures { result ≡ (nat_lt call.export 2 && (call.under.pages == 6) && (call.stack.pages == STACK_PAGES)) }
{
    call.export < 2 && call.under.pages == 6 && call.stack.pages == STACK_PAGES
}

/// The book of a module of these words once it was called with these arguments.
pub fn called(
    alloc: Global,
    words: &[u32],
    call: Call,
    args: [u64; 3],
) -> Result<Book, OutOfMemory> {
    let image = image(alloc, words)?;
    let mut book = book(alloc, 1)?;
    let mut bytes = StackBytes::new(alloc)?;
    if is_possible(call) {
        let pages = PlainMapping::new(call.under, image.cells.as_slice());
        make(pages, &mut bytes, &image, &mut book, call, args);
    }
    Ok(book)
}

/// The same, of a module that was called before with other arguments, on the same stack.
pub fn called_twice(
    alloc: Global,
    words: &[u32],
    before: [u64; 3],
    args: [u64; 3],
) -> Result<Book, OutOfMemory> {
    let image = image(alloc, words)?;
    let mut book = book(alloc, 2)?;
    let mut bytes = StackBytes::new(alloc)?;
    let pages = PlainMapping::new(UNDER, image.cells.as_slice());
    let pages = make(pages, &mut bytes, &image, &mut book, USUAL, before);
    make(pages, &mut bytes, &image, &mut book, USUAL, args);
    Ok(book)
}

/// What a call of a module of these words asked of the pages of its movable part.
pub fn asked(alloc: Global, words: &[u32], args: [u64; 3]) -> Result<Vec<Question>, OutOfMemory> {
    let image = image(alloc, words)?;
    let mut book = book(alloc, 1)?;
    let mut bytes = StackBytes::new(alloc)?;
    let pages = NotedPages {
        mapping: PlainMapping::new(UNDER, image.cells.as_slice()),
        questions: Vec::with_capacity(alloc, 64)?,
    };
    let pages = make(pages, &mut bytes, &image, &mut book, USUAL, args);
    Ok(pages.questions)
}

/// How the last call of a book ended.
pub fn end_of(book: &Book) -> Option<End> {
    let entry = book.history.as_slice().last()?;
    Some(entry.end)
}

/// The word at a byte of these, or 0 where there are fewer.
pub fn word_at(bytes: &[u8], at: u64) -> u64 {
    if at <= 4_088 && bytes.len() as u64 >= at + 8 {
        field_u64(bytes, at)
    } else {
        0
    }
}
