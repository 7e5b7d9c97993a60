//! Legacy back-references: 7.8 and 8.4 write a chunk and an offset, or a number in the map and
//! large-object spaces; 6.x packs these in one integer (docs/FORMAT.md, "Legacy back-references").
//!
//! The integers are read by the crate `readers`, whose `legacy_backref` has the Rust's name; here
//! stands what they refer to.
ghost use Rattle.std.specs.Prelude.{true, ◌≡◌, ◌^◌, ◌<◌, ◌≤◌};
ghost use Rattle.sheet.specs.Sheet.{usable};
ghost use Rattle.sheet.specs.Tests.{unless_zero};
ghost use Rattle.backref.specs.Legacy.{numbered_as, is_single, index_of, number_in, word_bits, unpacked};

use address_index::resolve::AddressIndex;
use alloc::resolve::{LARGE_OBJECT_SPACE, MAP_SPACE, Place};
use sheet::numbers::{lo_space, map_space, page_size_bits, six_x, space_tag_size, word_bytes};
use tables::values::Ref;

/// What is needed to find what a back-reference to `space` refers to: a usable sheet, the address
/// records, and the alignment that is pending.
#[derive(Clone, Copy)]
pub struct LegacyReader<'a> {
    pub sheet: &'a [u16],
    pub addresses: AddressIndex<'a>,
    pub alignment: u64,
    pub space: u64,
    ghost usable: { usable sheet.now ≡ true },
}

// 2 ^ bits.
fn power(bits: u64) -> u64
    requires { bits < 64 }
    ensures { result ≡ 2 ^ bits }
{
    1 << bits
}

// The space whose objects this space numbers.
fn numbered_as(sheet: &[u16], space: u64) -> Option<u64>
    ensures { result ≡ unless_zero (numbered_as sheet.now space) }
{
    if space == map_space(sheet) {
        Some(MAP_SPACE)
    } else if space == lo_space(sheet) {
        Some(LARGE_OBJECT_SPACE)
    } else {
        None
    }
}

/// A back-reference to this space has one integer: in 6.x, and where the space is numbered. Else it
/// has two, the chunk and the offset of a place.
#[inline(always)]
pub fn is_single(sheet: &[u16], space: u64) -> bool
    ensures { result ≡ is_single sheet.now space }
{
    six_x(sheet) || numbered_as(sheet, space).is_some()
}

impl<'a> LegacyReader<'a> {
    ghost use Rattle.backref.specs.Reader.{numbered_by, placed_by, single_by};

    // The index that 6.x writes.
    #[tactic(auto, using(crate::proofs::BackrefLaws::tag_small))]
    fn index_of(self, value: u32) -> u64
        ensures { result ≡ index_of self.entry.sheet.now value }
    {
        u64::from(value) % power(32 - space_tag_size(self.sheet))
    }

    // So many bits of a place are below a word.
    fn word_bits(self) -> u64
        ensures { result ≡ word_bits self.entry.sheet.now }
    {
        if word_bytes(self.sheet) == 4 { 2 } else { 3 }
    }

    // The place that 6.x packs in an index.
    #[tactic(auto, using(crate::proofs::BackrefLaws::page_low, crate::proofs::BackrefLaws::page_high, crate::proofs::BackrefLaws::offset_small))]
    fn unpack(self, index: u64) -> Place
        requires { index < 2 ^ 32 }
        ensures { (result ≡ unpacked self.entry.sheet.now index) × (result.offset < 2 ^ 32) }
    {
        let size = power(page_size_bits(self.sheet) - self.word_bits());
        Place {
            chunk: index / size,
            offset: index % size * word_bytes(self.sheet),
        }
    }

    // The object with a number among those of a space.
    #[inline(always)]
    fn by_number(self, space: u64, number: u64) -> Option<Ref>
        ensures { result ≡ numbered_by self.entry space number }
    {
        let object = self.addresses.resolve_ordinal(space, number)?;
        Some(Ref::Object(object))
    }

    /// The object at a place, or the place itself in the read-only heap.
    #[tactic(auto, using(crate::proofs::BackrefLaws::word_small), unfolding(crate::specs::Legacy::placed))]
    #[inline(always)]
    pub fn by_place(self, place: Place) -> Ref
        requires { place.offset < 2 ^ 32 }
        ensures { result ≡ placed_by self.entry place }
    {
        let word = word_bytes(self.sheet);
        match self
            .addresses
            .resolve(self.space, place, self.alignment, word)
        {
            Some(o) => Ref::Object(o),
            None => Ref::RoRef(place.chunk, place.offset),
        }
    }

    // The number that an integer gives.
    fn number_in(self, value: u32) -> u64
        ensures { result ≡ number_in self.entry.sheet.now value }
    {
        if six_x(self.sheet) {
            self.index_of(value)
        } else {
            u64::from(value)
        }
    }

    /// What the integer of a back-reference that has one refers to; none where no object has the
    /// number.
    #[tactic(auto, using(crate::proofs::BackrefLaws::index_small), unfolding(crate::specs::Legacy::single))]
    #[inline(always)]
    pub fn by_value(self, value: u32) -> Option<Ref>
        ensures { result ≡ single_by self.entry value }
    {
        match numbered_as(self.sheet, self.space) {
            Some(space) => self.by_number(space, self.number_in(value)),
            None => Some(self.by_place(self.unpack(self.index_of(value)))),
        }
    }
}
