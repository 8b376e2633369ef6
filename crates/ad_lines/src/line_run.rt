//! The run of a script's lines.

ghost use Rattle.std.specs.Prelude.{◌≡◌, ℕ, ◌+◌, ◌-◌, ◌*◌, ◌<◌, ◌≤◌, ◌∷◌, [], List, fold, length, map, slice_get, slice_index, slice_set, sum_by, vec_len, All, IfOk, IfSome, Some};
ghost use Rattle.ad_base.specs.Book.{contents_of};
ghost use Rattle.ad_lines.specs.declared.ready.ReadyStep.{ReadyStep};
ghost use Rattle.ad_lines.specs.LineRun.{after_step, line_run, with_call, with_fresh_stack, with_module_moved};
ghost use Rattle.ad_lines.specs.Opening.{opening_drawn, opening_modules, opening_run, AreLoaded};
ghost use Rattle.ad_lines.specs.Ready.{IsRunnable};
ghost use Rattle.ad_lines.specs.Room.{HasRoom, calls_of, images_of, module_state, moves_of};

use crate::mappings::MappingList;
use crate::ready::ReadyStep;
use crate::room::{calls_of, moves_of, open_book};
use ad_base::{Args, Book, Image, Kind, Moved, OutOfMemory, Place, Row};
use ad_call::{Call, PlainMapping, StackBytes, run_call};
use ad_place::Placer;
use ad_script::SCRIPT_LINES;
use std::alloc::Global;
use std::marker::Model;

/// A module in a run.
#[derive(Drop)]
pub struct ModuleRun {
    pub image: Image,
    /// Where the movable part lies.
    pub movable: Place,
    pub book: Book,
}

/// What came of a run.
#[derive(Debug, Drop)]
pub struct Finished {
    /// The books of the modules, in order of their numbers.
    pub books: Vec<Book>,
    /// What came of the lines that move something, in their order.
    pub moves: Vec<Moved>,
    /// A row for each mapping, in order of number.
    pub rows: Vec<Row>,
}

/// The run of lines on one thread: what the lines so far have come to, and the room for the others. All memory that
/// the lines need is taken before the first one; only `finish` takes memory after them, for the list of the books.
#[derive(Drop)]
pub struct LineRun {
    modules: Vec<ModuleRun>,
    /// Where the stack of each worker lies.
    stacks: Vec<Place>,
    mappings: MappingList,
    /// The bytes of the stack that each call runs on.
    bytes: StackBytes,
    /// Steps that a call may make at most.
    fuel: u64,
}

impl Model for LineRun {
    ghost use Rattle.std.specs.Prelude.{length, map};
    ghost use Rattle.ad_lines.specs.Room.{Running, module_state};
    ghost use Rattle.ad_lines.specs.Private.Places.{IsSound};

    ghost Value = { Running };

    ghost view = { λ r. record {
      state = record { modules = map module_state r.modules.items; stacks = r.stacks.items; placement = r.mappings.placement };
      fuel = r.fuel;
      call_room = map (λ m. m.book.history.room) r.modules.items;
      move_room = r.mappings.room;
    } };

    ghost invariant = { λ r. IsSound (length r.mappings.placement.rows) r.modules.items r.stacks.items };
}

impl LineRun {
    /// The run before its first line, of so many workers, on modules of these images, at the places that were drawn
    /// for them. It takes all memory that these steps need.
    #[tactic(auto, unfolding(crate::specs::Opening::opening_run))]
    pub fn open(
        alloc: Global,
        images: Vec<Image>,
        workers: u64,
        placer: Placer,
        steps: &[ReadyStep],
        fuel: u64,
    ) -> Result<LineRun, OutOfMemory>
        requires loaded { AreLoaded placer.seed workers images.items }
        requires drawn { placer ≡ opening_drawn placer.seed workers images.items }
        requires lines { length steps.now ≤ SCRIPT_LINES }
        ensures state { IfOk result (λ run. run.state ≡ opening_run workers images.items placer) }
        ensures fuel { IfOk result (λ run. run.fuel ≡ fuel) }
        ensures room { IfOk result (HasRoom steps.now) }
    {
        let bytes = StackBytes::new(alloc)?;
        let mappings = MappingList::open(alloc, placer, workers, &images, moves_of(steps))?;
        let stacks = mappings.places_of_kind(alloc, Kind::Stack)?;
        let parts = mappings.places_of_kind(alloc, Kind::Code)?;
        let modules = open_modules(alloc, images, &parts, steps)?;
        Ok(LineRun {
            modules,
            stacks,
            mappings,
            bytes,
            fuel,
        })
    }

    /// What the lines have come to. It takes memory for the list of the books.
    pub fn finish(self, alloc: Global) -> Result<Finished, OutOfMemory>
        ensures books { IfOk result (λ end. map contents_of end.books.items ≡ map (λ m. m.book) self.state.modules) }
        ensures moves { IfOk result (λ end. end.moves.items ≡ self.state.placement.moves) }
        ensures rows { IfOk result (λ end. end.rows.items ≡ self.state.placement.rows) }
    {
        let books = books_of(alloc, self.modules)?;
        let (moves, rows) = self.mappings.finish();
        Ok(Finished { books, moves, rows })
    }

    /// Runs steps, in order.
    pub fn run(&mut self, steps: &[ReadyStep])
        requires runnable { All (IsRunnable (images_of self.old.state) (length self.old.state.stacks)) steps.now }
        requires room { HasRoom steps.now self.old }
        ensures state { self.new.state ≡ line_run self.old.fuel self.old.state steps.now }
        ensures fuel { self.new.fuel ≡ self.old.fuel }
    {
        for step in steps {
            self.step(step);
        }
    }

    /// Runs one step.
    #[tactic(auto, unfolding(crate::specs::LineRun::after_step))]
    fn step(&mut self, step: &ReadyStep)
        requires runnable { IsRunnable (images_of self.old.state) (length self.old.state.stacks) step.now }
        requires room { HasRoom (step.now ∷ []) self.old }
        ensures state { self.new.state ≡ after_step self.old.fuel self.old.state step.now }
        ensures fuel { self.new.fuel ≡ self.old.fuel }
        ensures room { (rest : List ReadyStep) → HasRoom (step.now ∷ rest) self.old → HasRoom rest self.new }
    {
        match step {
            ReadyStep::Call {
                line,
                worker,
                module,
                export,
                args,
            } => self.call(*line, *worker, *module, *export, args),
            ReadyStep::Move { line, modules } => self.move_modules(*line, modules.as_slice()),
            ReadyStep::Stack { line, worker } => self.fresh_stack(*line, *worker),
        }
    }

    /// Makes the call of a worker, of an export of a module.
    fn call(&mut self, line: u64, worker: u64, module: u64, export: u64, args: &Args)
        requires worker { worker < length self.old.state.stacks }
        requires called { «module» < length (images_of self.old.state) }
        requires export { IfSome (slice_get (images_of self.old.state) «module») (λ i. export < length i.exports) }
        requires room { IfSome (slice_get self.old.call_room «module») (λ room. 0 < room) }
        ensures state { self.new.state ≡ with_call self.old.fuel self.old.state line worker «module» export args.now }
        ensures fuel { self.new.fuel ≡ self.old.fuel }
        ensures move_room { self.new.move_room ≡ self.old.move_room }
        ensures call_room { self.new.call_room ≡ slice_set self.old.call_room «module» (slice_index self.old.call_room «module» - 1) }
    {
        let stack = self.stacks[worker as usize];
        let called = &mut self.modules[module as usize];
        let call = Call {
            line,
            worker,
            export,
            under: called.movable,
            stack,
        };
        let image = &called.image;
        let pages = PlainMapping::new(called.movable, image.cells.as_slice());
        let book = &mut called.book;
        run_call(pages, &mut self.bytes, image, book, call, args, self.fuel);
    }

    /// Moves modules, in order.
    fn move_modules(&mut self, line: u64, modules: &[u64])
        requires moved { All (λ m. m < length (images_of self.old.state)) modules.now }
        requires room { length modules.now ≤ self.old.move_room }
        ensures state { self.new.state ≡ fold (with_module_moved line) self.old.state modules.now }
        ensures fuel { self.new.fuel ≡ self.old.fuel }
        ensures move_room { self.new.move_room + length modules.now ≡ self.old.move_room }
        ensures call_room { self.new.call_room ≡ self.old.call_room }
    {
        for module in modules {
            self.move_module(line, *module);
        }
    }

    /// Gives the movable part of a module another place, if a mapping number is left.
    fn move_module(&mut self, line: u64, module: u64)
        requires moved { «module» < length (images_of self.old.state) }
        requires room { 0 < self.old.move_room }
        ensures state { self.new.state ≡ with_module_moved line self.old.state «module» }
        ensures fuel { self.new.fuel ≡ self.old.fuel }
        ensures move_room { self.new.move_room + 1 ≡ self.old.move_room }
        ensures call_room { self.new.call_room ≡ self.old.call_room }
    {
        let old = self.modules[module as usize].movable;
        let end = self.mappings.replace(line, Kind::Code, module, old);
        let moved = &mut self.modules[module as usize];
        moved.movable = end.place().unwrap_or(old);
    }

    /// Gives a worker a stack at another place, if a mapping number is left.
    fn fresh_stack(&mut self, line: u64, worker: u64)
        requires worker { worker < length self.old.state.stacks }
        requires room { 0 < self.old.move_room }
        ensures state { self.new.state ≡ with_fresh_stack line self.old.state worker }
        ensures fuel { self.new.fuel ≡ self.old.fuel }
        ensures move_room { self.new.move_room + 1 ≡ self.old.move_room }
        ensures call_room { self.new.call_room ≡ self.old.call_room }
    {
        let old = self.stacks[worker as usize];
        let end = self.mappings.replace(line, Kind::Stack, worker, old);
        self.stacks[worker as usize] = end.place().unwrap_or(old);
    }
}

/// The modules of these images before their first calls, with their movable parts at these places, and with room for the
/// calls of these steps.
fn open_modules(
    alloc: Global,
    images: Vec<Image>,
    parts: &[Place],
    steps: &[ReadyStep],
) -> Result<Vec<ModuleRun>, OutOfMemory>
    requires { length parts.now ≡ vec_len images }
    ensures modules { IfOk result (λ modules. map module_state modules.items ≡ opening_modules images.items parts.now) }
    ensures room { IfOk result (λ modules. (m room : ℕ) → slice_get (map (λ m. m.book.history.room) modules.items) m ≡ Some room → room ≡ sum_by (calls_of m) steps.now) }
{
    let mut modules = Vec::new(alloc);
    for image in images {
        let number = modules.len();
        let movable = parts[number];
        let book = open_book(alloc, &image, calls_of(number as u64, steps))?;
        modules.push(ModuleRun {
            image,
            movable,
            book,
        })?;
    }
    Ok(modules)
}

/// The books of modules.
fn books_of(alloc: Global, modules: Vec<ModuleRun>) -> Result<Vec<Book>, OutOfMemory>
    ensures { IfOk result (λ books. books.items ≡ map (λ m. m.book) modules.items) }
{
    let mut books = Vec::new(alloc);
    for module in modules {
        books.push(module.book)?;
    }
    Ok(books)
}
