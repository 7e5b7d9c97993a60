//! Which object a legacy back-reference stands for: through the index, or by the plain search where
//! the index lacks the room.
ghost use Rattle.std.specs.Prelude.{◌≡◌, ℕ, ◌^◌, ◌<◌, ◌≤◌, IfSome};
ghost use Rattle.tables.specs.Records.{room};
ghost use Rattle.alloc.specs.Resolve.{resolve_of, ordinal_from};
ghost use Rattle.address_index.specs.Links.{Linked};
ghost use Rattle.address_index.specs.Sorted.{Sorted, Sorted-prop};

use crate::layout::{LISTED_SPACES, capacity};
use crate::search::Search;
use alloc::resolve::{Place, resolve_by};

/// The first `count` records of the address table and their index, in the order of their addresses
/// in each space.
#[derive(Clone, Copy)]
pub struct AddressIndex<'a> {
    pub table: &'a [u64],
    pub index: &'a [u64],
    pub count: usize,
    ghost within: { count ≤ room 5 table.now },
    ghost linked: { Linked table.now count index.now },
    ghost sorted: { Sorted table.now count } by { Sorted-prop table.now count },
}

impl<'a> AddressIndex<'a> {
    ghost use Rattle.address_index.specs.Searches.{Searches};

    // The search, where the index has room for all records.
    fn search(self) -> Option<Search<'a>>
        ensures { IfSome result (Searches self.entry.table.now self.entry.count) }
    {
        let most = capacity(self.index.len());
        if 0 < most && self.count <= most {
            Some(Search {
                table: self.table,
                index: self.index,
                count: self.count,
                most,
            })
        } else {
            None
        }
    }

    /// The object at an address; where there is none and an alignment is pending, the one after the
    /// filler, under words of `word` bytes (the Rust's `resolve`).
    #[inline(always)]
    pub fn resolve(self, space: u64, place: Place, alignment: u64, word: u64) -> Option<u64>
        requires { (place.offset < 2 ^ 32) × (word ≤ 8) }
        ensures { result ≡ resolve_of self.entry.table.now self.entry.count space place.chunk place.offset alignment word }
    {
        match self.search() {
            Some(search) => resolve_by(|p| search.find(space, p), place, alignment, word),
            None => alloc::resolve::resolve(self.table, self.count, space, place, alignment, word),
        }
    }

    /// The object whose number, from 0, among the records of a space is `number` (the Rust's
    /// `resolve_ordinal`).
    pub fn resolve_ordinal(self, space: u64, number: u64) -> Option<u64>
        ensures { result ≡ ordinal_from self.entry.table.now space number 0 self.entry.count }
    {
        match self.search() {
            Some(search) if space < LISTED_SPACES => search.numbered(space, number),
            _ => alloc::resolve::resolve_ordinal(self.table, self.count, space, number),
        }
    }
}
