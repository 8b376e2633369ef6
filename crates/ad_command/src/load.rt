//! The script of a command, and the modules that it loads: those of files, or those that are built.

ghost use Rattle.std.specs.Prelude.{◌≡◌, ◌⊎◌, ◌+◌, ◌++◌, ◌<◌, ◌≤◌, List, ℕ, [], ◌∷◌, length, true, IfOk, IfErr, Ok, Err};
ghost use Rattle.ad_base.specs.declared.image.Image.{Image};
ghost use Rattle.ad_base.specs.Image.{IsWhole, movable_pages};
ghost use Rattle.ad_base.specs.Outside.{Outside};
ghost use Rattle.ad_base.specs.Place.{IsModulePlace};
ghost use Rattle.ad_link.specs.declared.refusal.LinkRefusal.{LinkRefusal};
ghost use Rattle.ad_link.specs.Plan.{IsPlan, IsRefused, IsRefusedAt, fixed_pages};
ghost use Rattle.ad_link.specs.Plan as planned;
ghost use Rattle.ad_relate.specs.ClearHistory.{AreOffsets};
ghost use Rattle.ad_reloc.specs.Image.{IsImage};
ghost use Rattle.ad_lines.specs.Opening.{opening_drawn, AreLoaded};
ghost use Rattle.ad_script.specs.declared.refusal.ScriptRefusal.{ScriptRefusal};
ghost use Rattle.ad_script.specs.declared.script.Script.{Script};
ghost use Rattle.ad_script.specs.Forms.{is_file_name};
ghost use Rattle.ad_script.specs.Range.{IsInRange};
ghost use Rattle.ad_script.specs.Script.{script_of};
ghost use Rattle.ad_command.specs.Chain.{Serves};
ghost use Rattle.ad_command.specs.Private.Asked.{IsThere, module_from, script_from, source_of};
ghost use Rattle.ad_command.specs.Private.Seen.{seen};
ghost use Rattle.ad_command.specs.Command.{shown_at, shown_in};
ghost use Rattle.ad_command.specs.Loading.{built_of, file_of, image_at, loaded_image, loaded_images, module_of, script_built, script_in};
ghost use Rattle.ad_command.specs.Trouble.{refused_module, refused_script};

use crate::trouble::{Trouble, refused_module};
use ad_base::{
    Fetch, Files, Image, Kind, MAPPINGS, MODULE_REGION, MODULES, Name, OutOfMemory, Place,
    STACK_PAGES, WORKERS,
};
use ad_generator::{built_named, built_script};
use ad_link::{LinkPlan, plan};
use ad_place::Placer;
use ad_script::{Load, Script, file_text, law_in_range, read_script};
use ad_words::MOST_GENERATED;
use std::alloc::Global;

/// Where a script is had from.
#[derive(Clone, Copy)]
pub enum Origin<'a> {
    /// It is in the file of this name.
    File(&'a str),
    /// It is built of so many calls and moves.
    Built(u64),
}

/// Where the modules that a script loads are had from.
#[derive(Clone, Copy)]
pub enum Source {
    /// Each is in the file that its load names.
    Files,
    /// They are built.
    Built,
}

impl Origin<'_> {
    /// Where the modules of such a script are had from.
    pub fn modules(self) -> Source
        ensures { result ≡ source_of self.entry }
    {
        match self {
            Origin::File(_) => Source::Files,
            Origin::Built(_) => Source::Built,
        }
    }
}

/// The script of this origin.
pub fn script_from<F: Files>(
    alloc: Global,
    files: &mut F,
    origin: Origin<'_>,
) -> Result<Script, Trouble>
    requires { IsThere origin }
    ensures serves { Serves (F.outside files.old) (F.outside files.new) (script_from origin.entry) result }
    ensures range { IfOk result IsInRange }
{
    match origin {
        Origin::File(name) => script_in(alloc, files, name),
        Origin::Built(number) => script_built(alloc, number),
    }
}

/// The script of so many calls and moves over the modules that are built.
fn script_built(alloc: Global, number: u64) -> Result<Script, Trouble>
    requires some { 1 ≤ number }
    requires few { number ≤ MOST_GENERATED }
    ensures serves { (outside : Outside) → Serves outside outside (script_built number) result }
    ensures range { IfOk result IsInRange }
{
    let text = built_script(alloc, number)?;
    parse_script(alloc, &text)
}

/// The script in the file of this name.
fn script_in<F: Files>(alloc: Global, files: &mut F, name: &str) -> Result<Script, Trouble>
    ensures serves { Serves (F.outside files.old) (F.outside files.new) (script_in name.now) result }
    ensures range { IfOk result IsInRange }
{
    let text = file_of(alloc, files, name)?;
    parse_script(alloc, &text)
}

/// The images of the modules that a script loads, and the places that were drawn for them and for the stacks.
#[derive(Drop)]
pub struct Loaded {
    pub images: Vec<Image>,
    pub placer: Placer,
}

/// Loads the modules of a script, in order, from this source.
pub fn load_images<F: Files>(
    alloc: Global,
    files: &mut F,
    source: Source,
    script: &Script,
    seed: u64,
) -> Result<Loaded, Trouble>
    requires { IsInRange script.now }
    ensures serves { Serves (F.outside files.old) (F.outside files.new) (loaded_images (module_from source) seed script.now)
        (seen (λ l. l.images.items) result) }
    ensures seed { IfOk result (λ l. l.placer.seed ≡ seed) }
    ensures drawn { IfOk result (λ l. l.placer ≡ opening_drawn seed script.now.workers l.images.items) }
    ensures loaded { IfOk result (λ l. AreLoaded seed script.now.workers l.images.items) }
    ensures each { IfOk result (λ l. length script.now.loads ≡ length l.images.items) }
{
    let mut placer = draw_stacks(alloc, seed, script.workers)?;
    let mut images = Vec::new(alloc);
    for load in script.loads.as_slice() {
        let image = load_image(alloc, files, source, &mut placer, load)?;
        images.push(image)?;
    }
    Ok(Loaded { images, placer })
}

/// The bytes of a file.
fn file_of<F: Files>(alloc: Global, files: &mut F, name: &str) -> Result<Vec<u8>, Trouble>
    ensures { Serves (F.outside files.old) (F.outside files.new) (file_of name.now) (seen (λ v. v.items) result) }
{
    let named = Name::of(alloc, name.as_bytes())?;
    let mut file = Vec::new(alloc);
    match files.fetch(alloc, name, &mut file) {
        Ok(()) => Ok(file),
        Err(Fetch::Failed) => Err(Trouble::Read { name: named }),
        Err(Fetch::TooLarge) => Err(Trouble::TooLarge { name: named }),
        Err(Fetch::OutOfMemory) => Err(Trouble::Memory),
    }
}

/// What the text of a script says.
fn parse_script(alloc: Global, text: &[u8]) -> Result<Script, Trouble>
    ensures script { IfOk result (λ s. script_of text.now ≡ Ok s) }
    ensures range { IfOk result IsInRange }
    ensures fault { IfErr result (λ t. ((r : ScriptRefusal) × (script_of text.now ≡ Err r) × (t ≡ refused_script r)) ⊎ (t ≡ Trouble.Memory)) }
{
    law_in_range();
    let script = read_script(alloc, text)?;
    Ok(script)
}

/// Draws the places of so many workers' stacks.
fn draw_stacks(alloc: Global, seed: u64, workers: u64) -> Result<Placer, OutOfMemory>
    requires { workers ≤ WORKERS }
    ensures { IfOk result (λ placer. placer ≡ opening_drawn seed workers []) }
{
    let mut placer = Placer::new(alloc, seed)?;
    for _ in 0..workers {
        placer.next(Kind::Stack, STACK_PAGES);
    }
    Ok(placer)
}

/// Loads a module behind others: draws the place of its immovable part, makes its image, and draws the place of its
/// movable part.
fn load_image<F: Files>(
    alloc: Global,
    files: &mut F,
    source: Source,
    placer: &mut Placer,
    load: &Load,
) -> Result<Image, Trouble>
    requires name { is_file_name load.now.file ≡ true }
    requires room { length placer.old.places + 2 ≤ MAPPINGS }
    ensures serves { (workers : ℕ) (before : List Image) → placer.old ≡ opening_drawn placer.old.seed workers before
        → Serves (F.outside files.old) (F.outside files.new) (loaded_image (module_from source) placer.old.seed workers before load.now) result }
    ensures loaded { IfOk result (λ i. (workers : ℕ) (before : List Image) → AreLoaded placer.old.seed workers before → length before < MODULES
        → placer.old ≡ opening_drawn placer.old.seed workers before
        → AreLoaded placer.old.seed workers (before ++ i ∷ []) × (placer.new ≡ opening_drawn placer.old.seed workers (before ++ i ∷ []))) }
{
    let name = file_text(&load.file);
    let plan = plan_from(alloc, files, source, name)?;
    let movable_pages = plan.movable_pages();
    let fixed = placer.next(Kind::Fixed, plan.fixed_pages());
    let image = image_at(alloc, name, plan, fixed)?;
    placer.next(Kind::Code, movable_pages);
    Ok(image)
}

/// The image of the module in the file of this name, with its immovable part where a module's is shown.
pub fn shown_image<F: Files>(alloc: Global, files: &mut F, name: &str) -> Result<Image, Trouble>
    ensures serves { Serves (F.outside files.old) (F.outside files.new) (shown_in name.now) result }
    ensures whole { IfOk result IsWhole }
{
    let plan = plan_of(alloc, files, name)?;
    let fixed = shown_at(plan.fixed_pages());
    image_at(alloc, name, plan, fixed)
}

/// Where an immovable part of so many pages lies while its module is shown: at the start of the first region for modules.
fn shown_at(pages: u16) -> Place
    ensures { result ≡ shown_at pages }
{
    Place {
        region: MODULE_REGION as u16,
        start: 1,
        pages,
        mapping: 1,
        frame: 0,
    }
}

/// What the link of the module in the file of this name finds, where that is from this source.
fn plan_from<F: Files>(
    alloc: Global,
    files: &mut F,
    source: Source,
    name: &str,
) -> Result<LinkPlan, Trouble>
    ensures { Serves (F.outside files.old) (F.outside files.new) (module_from source name.now) result }
{
    match source {
        Source::Files => plan_of(alloc, files, name),
        Source::Built => plan_built(alloc, name),
    }
}

/// What the link of the built file of this name finds before the immovable part has a place.
fn plan_built(alloc: Global, name: &str) -> Result<LinkPlan, Trouble>
    ensures { (outside : Outside) → Serves outside outside (built_of name.now) result }
{
    let file = built_named(alloc, name)?;
    parse_module(alloc, &file, name)
}

/// What the link of the file of this name finds before the immovable part has a place.
fn plan_of<F: Files>(alloc: Global, files: &mut F, name: &str) -> Result<LinkPlan, Trouble>
    ensures { Serves (F.outside files.old) (F.outside files.new) (module_of name.now) result }
{
    let file = file_of(alloc, files, name)?;
    parse_module(alloc, &file, name)
}

/// What the link of a file finds, whose name is this.
fn parse_module(alloc: Global, file: &[u8], name: &str) -> Result<LinkPlan, Trouble>
    ensures planned { IfOk result (IsPlan file.now) }
    ensures fault { IfErr result (λ t. ((r : LinkRefusal) × IsRefused file.now r × (t ≡ refused_module name.now r)) ⊎ (t ≡ Trouble.Memory)) }
{
    match plan(alloc, file) {
        Ok(plan) => Ok(plan),
        Err(refusal) => Err(refused_module(alloc, name, &refusal)),
    }
}

/// The image of a plan, with the immovable part at this place. The plan is of the file of this name.
fn image_at(alloc: Global, name: &str, plan: LinkPlan, fixed: Place) -> Result<Image, Trouble>
    requires place { IsModulePlace fixed }
    requires pages { fixed.pages ≡ fixed_pages plan.layout.sizes }
    ensures image { IfOk result (λ i. IsImage plan.object plan.layout plan.tables fixed i) }
    ensures whole { IfOk result IsWhole }
    ensures fixed { IfOk result (λ i. i.fixed ≡ fixed) }
    ensures movable_pages { IfOk result (λ i. movable_pages i ≡ planned.movable_pages plan.layout.sizes) }
    ensures offsets { IfOk result AreOffsets }
    ensures fault { IfErr result (λ t. ((r : LinkRefusal) × IsRefusedAt fixed plan r × (t ≡ refused_module name.now r)) ⊎ (t ≡ Trouble.Memory)) }
{
    match plan.finish(alloc, fixed) {
        Ok(image) => Ok(image),
        Err(refusal) => Err(refused_module(alloc, name, &refusal)),
    }
}
