//! The second half of a link: the image, once the immovable part has a place.

ghost use Rattle.std.specs.Prelude.{◌≡◌, ◌<◌, ◌^◌, ◌⊎◌, All, IfErr, IfOk};
ghost use Rattle.ad_base.specs.Image.{movable_pages, IsWhole};
ghost use Rattle.ad_base.specs.Place.{IsModulePlace};
ghost use Rattle.ad_reloc.specs.Image.{IsImage};
ghost use Rattle.ad_base.specs.declared.image.Export.{Export};
ghost use Rattle.ad_link.specs.Plan.{fixed_pages, IsRefusedAt};
ghost use Rattle.ad_link.specs.Plan as plan;
ghost use Rattle.ad_link.specs.declared.refusal.LinkRefusal.TheVariants.{OutOfMemory as MemoryWanted};

use crate::planning::LinkPlan;
use crate::refusal::LinkRefusal;
use ad_base::{Image, Place};
use ad_reloc::{RelocRefusal, relocate};
use std::alloc::Global;

impl LinkPlan {
    /// The image of the module, with its immovable part at a place that has the pages of this part; or the first reason why
    /// a relocation can't be applied there.
    pub fn finish(self, alloc: Global, fixed: Place) -> Result<Image, LinkRefusal>
        requires place { IsModulePlace fixed }
        requires pages { fixed.pages ≡ fixed_pages self.layout.sizes }
        ensures image { IfOk result (λ i. IsImage self.object self.layout self.tables fixed i) }
        ensures whole { IfOk result IsWhole }
        ensures fixed { IfOk result (λ i. i.fixed ≡ fixed) }
        ensures movable_pages { IfOk result (λ i. movable_pages i ≡ plan.movable_pages self.layout.sizes) }
        ensures exports { IfOk result (λ i. All (λ (x : Export). x.offset < 2 ^ 64) i.exports) }
        ensures refused { IfErr result (λ r. (r ≡ MemoryWanted) ⊎ IsRefusedAt fixed self r) }
    {
        match relocate(alloc, &self.object, &self.layout, &self.tables, fixed) {
            Ok(image) => Ok(image),
            Err(RelocRefusal::OutOfMemory) => Err(LinkRefusal::OutOfMemory),
            Err(refusal) => Err(LinkRefusal::Reloc(refusal)),
        }
    }
}
