//! Calls of small modules with the instruction words of the standard. The words are those that clang's assembler makes of
//! the text beside them, `clang --target=riscv64 -march=rv64im -c`.

ghost use Rattle.std.specs.Prelude.{◌≡◌, ◌≤◌, ◌*◌, IfOk, length};
ghost use Rattle.ad_base.specs.Image.{IsWhole};

mod accesses;
mod comparisons;
mod operations;

use crate::{SymEnd, SymbolicModule};
use ad_base::{Args, End, Export, Image, Name, OutOfMemory, PAGE_BYTES, Place, Sequence};
use std::alloc::Global;
use std::test::Fail;

/// Where the immovable part lies.
const FIXED: Place = Place {
    region: 29_432,
    start: 1,
    pages: 2,
    mapping: 2,
    frame: 0,
};

/// `ret`.
const RETURN: u32 = 0x0000_8067;

/// So many pages of zero bytes, behind these words.
fn pages(alloc: Global, words: &[u32], pages: usize) -> Result<Vec<u8>, OutOfMemory>
    requires { pages ≤ 2 }
    ensures { IfOk result (λ code. length code.items ≡ pages * PAGE_BYTES) }
{
    let mut bytes = Vec::new(alloc);
    for word in words {
        bytes.extend_from_slice(&word.to_le_bytes())?;
    }
    bytes.resize(pages * PAGE_BYTES as usize, 0)?;
    Ok(bytes)
}

/// A module of these words and a page of data, which is the fifth page of the movable part.
fn image(alloc: Global, words: &[u32]) -> Result<Image, OutOfMemory>
    ensures whole { IfOk result IsWhole }
    ensures exports { IfOk result (λ i. length i.exports ≡ 1) }
{
    let mut exports = Vec::new(alloc);
    exports.push(Export {
        name: Name::of(alloc, b"f")?,
        offset: 0,
    })?;
    Ok(Image {
        text_pages: 1,
        read_pages: 0,
        data_pages: 1,
        code: Sequence::of(pages(alloc, words, 2)?),
        cells: Sequence::of(Vec::new(alloc)),
        writable: Sequence::of(pages(alloc, &[], 1)?),
        table: Sequence::of(Vec::new(alloc)),
        fixed_text_pages: 0,
        fixed_read_pages: 0,
        fixed_data_pages: 0,
        fixed_code: Sequence::of(pages(alloc, &[], 1)?),
        fixed_data: Sequence::of(Vec::new(alloc)),
        fixed: FIXED,
        exports: Sequence::of(exports),
    })
}

/// What is said of a call with two arguments, of 100 steps at most.
fn end_of(module: &mut SymbolicModule, a0: u64, a1: u64) -> SymEnd
    requires { length module.old.image.exports ≡ 1 }
    ensures { length module.new.image.exports ≡ 1 }
{
    let mut args = Args::new();
    args.push(a0);
    args.push(a1);
    module.call(0, &args, 100).end
}

/// A case of a table: the words of a module, what a0 holds at first, and what is said of the call.
type Case = ([u32; 8], u64, SymEnd);

/// What is said of a call of a module of these words, with this argument.
fn told(alloc: Global, words: &[u32; 8], a0: u64) -> Result<SymEnd, OutOfMemory> {
    let image = image(alloc, words)?;
    let mut module = SymbolicModule::new(alloc, &image)?;
    Ok(end_of(&mut module, a0, 0))
}

/// What is said of three calls of a module of these words, with 5, with 2 and 3, and with 5.
fn ends_of(alloc: Global, words: &[u32; 6]) -> Result<[SymEnd; 3], OutOfMemory> {
    let image = image(alloc, words)?;
    let mut module = SymbolicModule::new(alloc, &image)?;
    let first = end_of(&mut module, 5, 0);
    let second = end_of(&mut module, 2, 3);
    let third = end_of(&mut module, 5, 0);
    Ok([first, second, third])
}

#[test]
fn calls_are_told_wherever_the_parts_lie(rt: HostRuntime) -> Result<(), Fail> {
    const FAULT: SymEnd = SymEnd::Clear(End::Fault);
    const FAR: SymEnd = SymEnd::Unclear { reason: 3, step: 3 };
    for (words, first, second, third) in [
        // add a0, a0, a1
        (
            [0x00b5_0533, RETURN, 0, 0, 0, 0],
            SymEnd::Clear(End::Returned(5)),
            SymEnd::Clear(End::Returned(5)),
            SymEnd::Clear(End::Returned(5)),
        ),
        // auipc a0, 0
        (
            [0x0000_0517, RETURN, 0, 0, 0, 0],
            SymEnd::Keeps,
            SymEnd::Lost,
            SymEnd::Lost,
        ),
        // auipc t0, 4; mv t0, t0; ld t1, (t0); add a0, a0, t1; sd a0, (t0)
        (
            [
                0x0000_4297,
                0x0002_8293,
                0x0002_b303,
                0x0065_0533,
                0x00a2_b023,
                RETURN,
            ],
            SymEnd::Clear(End::Returned(5)),
            SymEnd::Clear(End::Returned(7)),
            SymEnd::Clear(End::Returned(12)),
        ),
        // lui t0, -4; addi t0, t0, -8; add t0, t0, sp; sd zero, (t0)
        (
            [
                0xffff_c2b7,
                0xff82_8293,
                0x0022_82b3,
                0x0002_b023,
                RETURN,
                0,
            ],
            FAULT,
            FAULT,
            FAULT,
        ),
        // lui t0, -5; addi t0, t0, -904; add t0, t0, sp; sd zero, (t0)
        (
            [
                0xffff_b2b7,
                0xc782_8293,
                0x0022_82b3,
                0x0002_b023,
                RETURN,
                0,
            ],
            FAR,
            SymEnd::Lost,
            SymEnd::Lost,
        ),
        // auipc t0, 4; mv t0, t0; auipc a0, 0; sd a0, (t0); li a0, 0
        (
            [
                0x0000_4297,
                0x0002_8293,
                0x0000_0517,
                0x00a2_b023,
                0x0000_0513,
                RETURN,
            ],
            SymEnd::Keeps,
            SymEnd::Lost,
            SymEnd::Lost,
        ),
    ] {
        let ends = ends_of(rt.alloc(), &words)?;
        assert_eq!(rt; ends, [first, second, third], "{words:?}");
    }
    Ok(())
}
