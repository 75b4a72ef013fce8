//! The sections of a sheet, as parts of its bytes.

ghost use Rattle.std.specs.Prelude.{◌≡◌, ◌+◌, ◌≤◌, ◌<◌, Ok};
ghost use Rattle.layout.specs.Layout.{layout_check};

use crate::{Section, length_of, offset_of, width_of};
use little_endian::u32_at;

/// The bytes of a sheet without a layout fault.
#[derive(Clone, Copy)]
pub struct Sections<'a> {
    pub bytes: &'a [u8],
    pub ghost laid_out: { layout_check bytes.now ≡ Ok tt },
}

impl<'a> Sections<'a> {
    ghost use Rattle.layout.specs.Layout.{root_of, width, section_of, row_count, field, field64};

    /// The root that the header names.
    #[tactic(auto, using(crate::proofs::LayoutLaws::size_least), unfolding(crate::specs::Layout::root_of))]
    pub fn root(self) -> u32
        ensures { result ≡ root_of self.entry.bytes.now }
    {
        u32_at(self.bytes, 8)
    }

    /// The bytes of a section.
    #[tactic(auto, using(crate::proofs::LayoutLaws::size_least, crate::proofs::LayoutLaws::section_fits), unfolding(crate::specs::Layout::section_of))]
    pub fn bytes_of(self, section: Section) -> &'a [u8]
        ensures { result.now ≡ section_of self.entry.bytes.now section }
    {
        let from = offset_of(self.bytes, section);
        let len = length_of(self.bytes, section);
        &self.bytes[from..from + len]
    }

    /// How many rows a section has.
    #[tactic(auto, unfolding(crate::specs::Layout::row_count))]
    pub fn row_count(self, section: Section) -> usize
        ensures { result ≡ row_count self.entry.bytes.now section }
    {
        rows::count(self.bytes_of(section), width_of(self.bytes, section))
    }

    /// The u32 at byte f of row i of a section.
    #[tactic(auto, unfolding(crate::specs::Layout::row_count, crate::specs::Layout::field))]
    pub fn u32_field(self, section: Section, i: usize, f: usize) -> u32
        requires row { i < row_count self.bytes.now section }
        requires within { f + 4 ≤ width self.bytes.now section }
        ensures { result ≡ field self.entry.bytes.now section i f }
    {
        rows::field(self.bytes_of(section), width_of(self.bytes, section), i, f)
    }

    // A reader for each width, as rows has.
    /// The u64 at byte f of row i of a section.
    #[tactic(auto, unfolding(crate::specs::Layout::row_count, crate::specs::Layout::field64))]
    pub fn u64_field(self, section: Section, i: usize, f: usize) -> u64
        requires row { i < row_count self.bytes.now section }
        requires within { f + 8 ≤ width self.bytes.now section }
        ensures { result ≡ field64 self.entry.bytes.now section i f }
    {
        rows::field64(self.bytes_of(section), width_of(self.bytes, section), i, f)
    }
}
