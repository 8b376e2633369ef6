//! Where the sections of each area end.

ghost use Rattle.std.specs.Prelude.{◌≡◌, ◌+◌, ◌*◌, ◌^◌, ◌<◌, ◌≤◌, All, find, not, sum_by, true};
ghost use Rattle.std.specs.Option.{option_map};
ghost use Rattle.ad_elf.specs.declared.object.Section.{Section};
ghost use Rattle.ad_parts.specs.Area.{area_of};
ghost use Rattle.ad_parts.specs.Ends.{AreEnds, AreShort, area_end, align_of, end_at, ends_behind, is_aligned, next, with_end};

use crate::area::{Area, area_of};
use ad_elf::Section;

/// Where the sections of each area end, in bytes from the start of the area.
#[derive(Clone, Copy, Debug)]
pub(crate) struct Ends {
    pub text: u128,
    pub read: u128,
    pub local: u128,
    pub data: u128,
    pub fixed_text: u128,
    pub fixed_read: u128,
    pub fixed_data: u128,
}

impl Ends {
    /// Where the sections of an area end.
    pub(crate) fn at(self, area: Area) -> u128
        ensures { result ≡ end_at self area }
    {
        match area {
            Area::Text => self.text,
            Area::ReadOnly => self.read,
            Area::Local => self.local,
            Area::Writable => self.data,
            Area::FixedText => self.fixed_text,
            Area::FixedReadOnly => self.fixed_read,
            Area::FixedWritable => self.fixed_data,
        }
    }

    /// The same, with another end of one area.
    fn with(self, area: Area, end: u128) -> Ends
        ensures { result ≡ with_end self area end }
    {
        let mut ends = self;
        match area {
            Area::Text => ends.text = end,
            Area::ReadOnly => ends.read = end,
            Area::Local => ends.local = end,
            Area::Writable => ends.data = end,
            Area::FixedText => ends.fixed_text = end,
            Area::FixedReadOnly => ends.fixed_read = end,
            Area::FixedWritable => ends.fixed_data = end,
        }
        ends
    }

    /// Where a section begins in its area, which comes next.
    #[tactic(auto, using(crate::proofs::Laid::begin_le))]
    pub(crate) fn begin(self, section: &Section) -> u128
        requires aligned { is_aligned section.now ≡ true }
        requires small { end_at self (area_of section.now) < 2 ^ 127 }
        ensures value { result ≡ next (align_of section.now) (end_at self (area_of section.now)) }
        ensures near { result ≤ end_at self (area_of section.now) + 4095 }
    {
        next(align_of(section), self.at(area_of(section)))
    }

    /// The ends behind a section, which comes next in its area.
    pub(crate) fn behind(self, section: &Section) -> Ends
        requires aligned { is_aligned section.now ≡ true }
        requires small { end_at self (area_of section.now) < 2 ^ 127 }
        ensures { result ≡ ends_behind self section.now }
    {
        let end = self.begin(section) + u128::from(section.size);
        self.with(area_of(section), end)
    }
}

/// The alignment of a section, of which 0 counts as 1.
pub(crate) fn align_of(section: &Section) -> u64
    ensures { result ≡ align_of section.now }
{
    if section.align == 0 { 1 } else { section.align }
}

/// The least multiple of an alignment that isn't below a number.
#[tactic(auto, unfolding(crate::specs::Ends::next))]
pub(crate) fn next(align: u64, number: u128) -> u128
    requires some { 0 < align }
    requires small { number < 2 ^ 127 }
    ensures { result ≡ next align number }
{
    let align = u128::from(align);
    (number + (align - 1)) / align * align
}

/// The first section whose alignment isn't taken.
pub(crate) fn first_misaligned(sections: &[Section]) -> Option<u64>
    ensures { result ≡ option_map (λ (s : Section). s.index) (find (λ s. not (is_aligned s)) sections.now) }
{
    sections
        .iter()
        .find(|section| !is_aligned(section))
        .map(|section| section.index)
}

/// Tests whether the alignment of a section is taken.
#[tactic(auto, unfolding(crate::specs::Ends::is_aligned))]
fn is_aligned(section: &Section) -> bool
    ensures { result ≡ is_aligned section.now }
{
    matches!(
        section.align,
        0 | 1 | 2 | 4 | 8 | 16 | 32 | 64 | 128 | 256 | 512 | 1024 | 2048 | 4096
    )
}

/// Where the sections of each area end.
pub(crate) fn ends_of(sections: &[Section]) -> Ends
    requires aligned { All (λ s. is_aligned s ≡ true) sections.now }
    requires short { sum_by (λ s. s.size) sections.now < 2 ^ 65 }
    ensures ends { AreEnds sections.now result }
    ensures short { AreShort sections.now result }
{
    let mut ends = NO_ENDS;
    for k in 0..sections.len() {
        ends = ends.behind(&sections[k]);
    }
    ends
}

/// The ends before any section.
pub(crate) const NO_ENDS: Ends = Ends {
    text: 0,
    read: 0,
    local: 0,
    data: 0,
    fixed_text: 0,
    fixed_read: 0,
    fixed_data: 0,
};
