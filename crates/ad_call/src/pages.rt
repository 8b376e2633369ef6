//! How a call reaches the movable part that it runs in.

ghost use Rattle.std.specs.Prelude.{◌≡◌, ◌<◌, [], ◌∷◌, map, slice_index, IfNone, IfSome};
ghost use Rattle.ad_base.specs.declared.layout.TheConstants.{LOCAL_WORDS};
ghost use Rattle.ad_base.specs.Layout.{local_word};
ghost use Rattle.ad_base.specs.Place.{base_of, page_number, IsInside};
ghost use Rattle.ad_call.specs.declared.asked.Asked.TheVariants as asked;
ghost use Rattle.ad_call.specs.Asked.{page_asked};
ghost use Rattle.ad_call.specs.View.{View, with_asked};

/// The pages of a movable part at a place, and the words of its local area.
///
/// A call asks them at each access of the movable part. Where what they were asked is told, it is told as a list, to the
/// end of which each call of these two adds its part.
pub trait Pages {
    /// What the pages were made with. It is plain data of the implementation's own choice.
    type Origin;

    /// What the pages are.
    ghost view: { Self → View Self.Origin };

    /// The number of the page that an address is in, counted from 0, or `None` exactly where the address isn't in the
    /// place.
    fn page(&mut self, va: u64) -> Option<u64>
        ensures inside { IfSome result (λ page. IsInside (view self.old).place va) }
        ensures page { IfSome result (λ page. page ≡ page_number (view self.old).place va) }
        ensures none { IfNone result (IsInside (view self.old).place va → ⊥) }
        ensures asked { view self.new ≡ with_asked (view self.old) (page_asked va) };

    /// The word at an entry of the local area: for the part's own base, or the number, and 0 past the last.
    fn cell(&mut self, entry: u64) -> u64
        requires { entry < LOCAL_WORDS }
        ensures word { result ≡ slice_index (map (local_word (base_of (view self.old).place)) (view self.old).cells) entry }
        ensures asked { view self.new ≡ with_asked (view self.old) (asked.Cell entry ∷ []) };
}
