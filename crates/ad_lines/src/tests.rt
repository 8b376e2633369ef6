//! A run of two modules and two workers, and steps that call an export which their module hasn't. The places are those
//! of the words of ChaCha20 at the key 0, in the order of the draws.

ghost use Rattle.std.specs.Prelude.{◌≡◌, ◌≤◌, ◌<◌, ◌+◌, ◌^◌, ◌++◌, ◌∷◌, [], List, ℕ, IfOk, All, length};
ghost use Rattle.ad_base.specs.declared.image.Export.{Export};
ghost use Rattle.ad_base.specs.declared.image.Image.{Image};
ghost use Rattle.ad_base.specs.Image.{fixed_pages, movable_pages, IsWhole};
ghost use Rattle.ad_base.specs.Place.{IsModulePlace};
ghost use Rattle.ad_lines.specs.Opening.{opening_drawn, AreLoaded};
ghost use Rattle.ad_lines.specs.Ready.{IsRunnable};
ghost use Rattle.ad_relate.specs.ClearHistory.{AreOffsets};

use crate::{Finished, LineRun, Missing, ReadyStep, ready_steps};
use ad_base::{
    Args, End, Entry, Export, Image, Kind, MAPPINGS, MODULES, Name, OutOfMemory, Place, Row,
    Sequence,
};
use ad_place::Placer;
use ad_script::{Members, Step};
use byteorder::{ByteOrder, LittleEndian};
use std::alloc::Global;
use std::process::Abort;
use std::test::Fail;

/// `jalr x0, 0(ra)`.
const RETURN: u32 = 0x0000_8067;

/// `add a0, a0, a1`, and a function that returns its own address: `auipc a0, 0`.
const FIRST: [u32; 4] = [0x00b5_0533, RETURN, 0x0000_0517, RETURN];

/// A function that returns its own address, and one that returns the end of its stack: `addi a0, sp, 0`.
const SECOND: [u32; 4] = [0x0000_0517, RETURN, 0x0001_0513, RETURN];

/// The bytes of these words.
fn text(alloc: Global, words: [u32; 4]) -> Result<Vec<u8>, OutOfMemory>
    ensures { IfOk result (λ text. length text.items ≡ 16) }
{
    let mut text = Vec::from_elem(alloc, 0, 16)?;
    LittleEndian::write_u32_into(&words, &mut text);
    Ok(text)
}

/// The exports `a` of the first word, and `b` of the third.
fn exports(alloc: Global) -> Result<Sequence<Export>, OutOfMemory>
    ensures count { IfOk result (λ es. length es ≡ 2) }
    ensures offsets { IfOk result (All (λ (e : Export). e.offset < 2 ^ 64)) }
{
    let mut exports = Vec::new(alloc);
    exports.push(Export {
        name: Name::of(alloc, b"a")?,
        offset: 0,
    })?;
    exports.push(Export {
        name: Name::of(alloc, b"b")?,
        offset: 8,
    })?;
    Ok(Sequence::of(exports))
}

/// A module of these words, without data, whose immovable part lies at this place.
fn image(alloc: Global, fixed: Place, words: [u32; 4]) -> Result<Image, OutOfMemory>
    requires place { IsModulePlace fixed }
    requires pages { fixed.pages ≡ 2 }
    ensures whole { IfOk result IsWhole }
    ensures offsets { IfOk result AreOffsets }
    ensures exports { IfOk result (λ i. length i.exports ≡ 2) }
    ensures fixed { IfOk result (λ i. i.fixed ≡ fixed) }
    ensures fixed_pages { IfOk result (λ i. fixed_pages i ≡ 2) }
    ensures movable_pages { IfOk result (λ i. movable_pages i ≡ 4) }
{
    Image::of_text(alloc, text(alloc, words)?, exports(alloc)?, fixed)
}

/// Draws the places of a module of these words, and makes its image.
fn load(alloc: Global, placer: &mut Placer, words: [u32; 4]) -> Result<Image, OutOfMemory>
    requires room { length placer.old.places + 2 ≤ MAPPINGS }
    ensures exports { IfOk result (λ i. length i.exports ≡ 2) }
    ensures loaded { IfOk result (λ i. (seed workers : ℕ) (before : List Image) → AreLoaded seed workers before → length before < MODULES
        → placer.old ≡ opening_drawn seed workers before
        → AreLoaded seed workers (before ++ i ∷ []) × (placer.new ≡ opening_drawn seed workers (before ++ i ∷ []))) }
{
    let fixed = placer.next(Kind::Fixed, 2);
    let image = image(alloc, fixed, words)?;
    let _movable = placer.next(Kind::Code, 4);
    Ok(image)
}

/// The places that are drawn at seed 0 for two workers.
fn stacks(alloc: Global) -> Result<Placer, OutOfMemory>
    ensures { IfOk result (λ placer. placer ≡ opening_drawn 0 2 []) }
{
    let mut placer = Placer::new(alloc, 0)?;
    let _first = placer.next(Kind::Stack, 4);
    let _second = placer.next(Kind::Stack, 4);
    Ok(placer)
}

/// The images of two modules, and the places that were drawn for them and for two workers.
#[derive(Drop)]
struct Loaded {
    first: Image,
    second: Image,
    placer: Placer,
}

/// Loads both modules at seed 0.
fn load_both(alloc: Global) -> Result<Loaded, OutOfMemory>
    ensures loaded { IfOk result (λ l. AreLoaded l.placer.seed 2 (l.first ∷ l.second ∷ [])) }
    ensures drawn { IfOk result (λ l. l.placer ≡ opening_drawn l.placer.seed 2 (l.first ∷ l.second ∷ [])) }
    ensures first { IfOk result (λ l. length l.first.exports ≡ 2) }
    ensures second { IfOk result (λ l. length l.second.exports ≡ 2) }
{
    let mut placer = stacks(alloc)?;
    let first = load(alloc, &mut placer, FIRST)?;
    let second = load(alloc, &mut placer, SECOND)?;
    Ok(Loaded {
        first,
        second,
        placer,
    })
}

/// A call with the arguments 2 and 3.
fn call(line: u64, worker: u64, module: u64, export: u64) -> ReadyStep
    requires worker { worker < 2 }
    requires called { «module» < 2 }
    requires export { export < 2 }
    ensures { (a b : Image) → length a.exports ≡ 2 → length b.exports ≡ 2 → IsRunnable (a ∷ b ∷ []) 2 result }
{
    let mut args = Args::new();
    args.push(2);
    args.push(3);
    ReadyStep::Call {
        line,
        worker,
        module,
        export,
        args,
    }
}

/// A move of the second module.
fn move_second(line: u64) -> ReadyStep
    ensures { (a b : Image) → IsRunnable (a ∷ b ∷ []) 2 result }
{
    let mut modules = Members::new();
    modules.push(1);
    ReadyStep::Move { line, modules }
}

/// Runs lines of both workers on both modules.
fn finished(alloc: Global) -> Result<Finished, OutOfMemory> {
    let steps = [
        call(3, 0, 0, 0),
        call(4, 1, 1, 0),
        move_second(5),
        call(6, 0, 1, 0),
        call(7, 0, 0, 1),
        ReadyStep::Stack { line: 8, worker: 1 },
        call(9, 1, 1, 1),
        call(10, 0, 1, 1),
    ];
    let Loaded {
        first,
        second,
        placer,
    } = load_both(alloc)?;
    let mut images = Vec::new(alloc);
    images.push(first)?;
    images.push(second)?;
    let mut run = LineRun::open(alloc, images, 2, placer, &steps, 100)?;
    run.run(&steps);
    run.finish(alloc)
}

/// A mapping's kind and owner, the region and the start page of its place, and the line that retired it.
type Mapped = (Kind, u64, u16, u16, u64);

const ROWS: [Mapped; 8] = [
    (Kind::Stack, 0, 47222, 24, 0),
    (Kind::Stack, 1, 56640, 55, 8),
    (Kind::Fixed, 0, 13105, 23, 0),
    (Kind::Code, 0, 27250, 53, 0),
    (Kind::Fixed, 1, 13128, 40, 0),
    (Kind::Code, 1, 9213, 40, 5),
    (Kind::Code, 1, 5724, 38, 0),
    (Kind::Stack, 1, 34755, 56, 0),
];

/// Of each call of the first module the line, the mappings of the module and of the stack, and the end.
const FIRST_CALLS: [(u64, u16, u16, u64); 2] = [(3, 4, 1, 5), (7, 4, 1, 7_143_641_096)];

/// And of the second module. A stack ends 16,384 bytes behind its first.
const SECOND_CALLS: [(u64, u16, u16, u64); 4] = [
    (4, 6, 2, 2_415_296_512),
    (6, 7, 1, 1_500_667_904),
    (9, 7, 8, 9_111_060_480),
    (10, 7, 1, 12_379_078_656),
];

/// Asserts that these calls were made, and returned.
fn expect_calls(rt: &impl Abort, entries: &[Entry], calls: &[(u64, u16, u16, u64)]) {
    assert_eq!(rt; entries.len(), calls.len());
    for (entry, (line, under, stack, value)) in entries.iter().zip(calls) {
        assert_eq!(rt; entry.line, *line);
        assert_eq!(rt;
            (entry.under.mapping, entry.stack.mapping),
            (*under, *stack),
            "at line {line}"
        );
        assert_eq!(rt; entry.end, End::Returned(*value), "at line {line}");
    }
}

/// Asserts that these are the rows, which are numbered from 1.
fn expect_rows(rt: &impl Abort, rows: &[Row], mapped: &[Mapped]) {
    assert_eq!(rt; rows.len(), mapped.len());
    for (number, (row, (kind, who, region, start, line))) in rows.iter().zip(mapped).enumerate() {
        assert_eq!(rt; usize::from(row.mapping), number + 1);
        assert_eq!(rt; (row.kind, row.who), (*kind, *who), "row {number}");
        assert_eq!(rt;
            (row.place.region, row.place.start),
            (*region, *start),
            "row {number}"
        );
        assert_eq!(rt;
            (row.line, row.unmaps),
            (*line, u64::from(*line > 0)),
            "row {number}"
        );
    }
}

#[test]
fn two_modules_and_two_workers(rt: HostRuntime) -> Result<(), Fail> {
    let end = finished(rt.alloc())?;
    assert_eq!(rt; end.books.len(), 2);
    expect_calls(&rt, end.books[0].history.as_slice(), &FIRST_CALLS);
    expect_calls(&rt, end.books[1].history.as_slice(), &SECOND_CALLS);
    expect_rows(&rt, &end.rows, &ROWS);
    assert_eq!(rt; end.moves.len(), 2);
    for (moved, (line, kind, number)) in end
        .moves
        .iter()
        .zip([(5, Kind::Code, 7), (8, Kind::Stack, 8)])
    {
        assert_eq!(rt; (moved.line, moved.kind, moved.who), (line, kind, 1));
        let mapping = moved.end.place().map(|place| place.mapping);
        assert_eq!(rt; mapping, Some(number));
    }
    Ok(())
}

/// A call of an export of the second module, by its name.
fn named(alloc: Global, line: u64, name: &[u8]) -> Result<Step, OutOfMemory> {
    Ok(Step::Call {
        line,
        worker: 0,
        module: 1,
        export: Name::of(alloc, name)?,
        args: Args::new(),
    })
}

/// The numbers of the exports that these names are resolved to.
fn resolved(alloc: Global, names: &[&[u8]]) -> Result<Result<Vec<u64>, Missing>, OutOfMemory> {
    let loaded = load_both(alloc)?;
    let mut images = Vec::new(alloc);
    images.push(loaded.first)?;
    images.push(loaded.second)?;
    let mut steps = Vec::new(alloc);
    for name in names {
        steps.push(named(alloc, steps.len() as u64 + 3, name)?)?;
    }
    let mut numbers = Vec::new(alloc);
    match ready_steps(alloc, &images, &steps) {
        Ok(ready) => {
            for step in &ready {
                if let ReadyStep::Call { export, .. } = step {
                    numbers.push(*export)?;
                }
            }
            Ok(Ok(numbers))
        }
        Err(missing) => Ok(Err(missing)),
    }
}

#[test]
fn names_of_exports(rt: HostRuntime) -> Result<(), Fail> {
    let ready = resolved(rt.alloc(), &[b"b", b"a", b"b"])?.map_err(|_| "each export is there")?;
    assert_eq!(rt; ready.as_slice(), [1, 0, 1].as_slice());
    let missing = resolved(rt.alloc(), &[b"b", b"c", b"a", b"d"])?.err();
    assert_eq!(rt; missing, Some(Missing::Export { line: 4 }));
    Ok(())
}
