//! Which object a legacy back-reference stands for: by address, or by its number among the objects
//! of a space. A `table` is the address table, of which the first `n` records count.
ghost use Rattle.std.specs.Prelude.{◌≡◌, ℕ, ◌+◌, ◌^◌, ◌<◌, ◌≤◌, length, Option};
ghost use Rattle.tables.specs.Records.{room};
ghost use Rattle.alloc.specs.Resolve.{is_address, addressed, resolve_by, resolve_of, Finds, ordinal_from};

use crate::fill::fill_to_align;
use tables::records::{Address, address_at};

/// The space of the address records whose objects are the maps that back-references give by number,
/// whatever kMapSpace is in a version.
pub const MAP_SPACE: u64 = 4;

/// The same for large objects and kLoSpace.
pub const LARGE_OBJECT_SPACE: u64 = 5;

/// A place in a space: a chunk, and an offset in it in bytes. Places are ordered by chunk, then
/// offset.
#[derive(Clone, Copy, PartialEq, Eq, PartialOrd, Ord)]
pub struct Place {
    pub chunk: u64,
    pub offset: u64,
}

impl Place {
    /// The place so many bytes further on in the chunk.
    pub fn after(self, bytes: u64) -> Place
        requires { self.offset + bytes < 2 ^ 64 }
        ensures { result ≡ record { chunk = self.chunk; offset = self.offset + bytes } }
    {
        Place {
            chunk: self.chunk,
            offset: self.offset + bytes,
        }
    }
}

// The place of an address.
impl From<Address> for Place {
    ghost from_gives = { λ a p. p ≡ record { chunk = a.chunk; offset = a.offset } };

    fn from(a: Address) -> Place {
        Place {
            chunk: a.chunk,
            offset: a.offset,
        }
    }
}

/// Whether record i is placed at this address.
pub fn is_address(table: &[u64], i: usize, space: u64, place: Place) -> bool
    requires { i < room 5 table.now }
    ensures { result ≡ is_address table.now space place.chunk place.offset i }
{
    let a = address_at(table, i);
    a.space == space && Place::from(a) == place && a.placed == 1
}

/// The object of the newest of n records that is placed at this address, by a plain search; none
/// where no record is.
pub fn find_address(table: &[u64], n: usize, space: u64, place: Place) -> Option<u64>
    requires { n ≤ room 5 table.now }
    ensures { result ≡ addressed table.now space place.chunk place.offset n }
{
    let newest = (0..n).rev().find(|i| is_address(table, *i, space, place))?;
    Some(address_at(table, newest).object)
}

/// The object at an address, as `find` finds it; where there is none and an alignment is pending,
/// the one after the filler (the Rust's `resolve`). The plain search and the one through an index
/// (`address_index`) both go by these steps.
#[tactic(auto, using(crate::proofs::Laws::fill_bound))]
pub fn resolve_by<F: Fn(Place) -> Option<u64>>(
    find: F,
    place: Place,
    alignment: u64,
    word: u64,
) -> Option<u64>
    requires callable { F.IsAlwaysCallable find }
    requires low { (place.offset < 2 ^ 32) × (word ≤ 8) }
    ensures { (at : ℕ → ℕ → Option ℕ) → Finds at (F.post find) → result ≡ resolve_by at place.chunk place.offset alignment word }
{
    let found = find(place);
    if found.is_some() {
        return found;
    }
    let pad = fill_to_align(place.offset, alignment, word);
    if pad == 0 {
        return None;
    }
    find(place.after(pad))
}

/// The same among n records, by the plain search.
pub fn resolve(
    table: &[u64],
    n: usize,
    space: u64,
    place: Place,
    alignment: u64,
    word: u64,
) -> Option<u64>
    requires { (n ≤ room 5 table.now) × (place.offset < 2 ^ 32) × (word ≤ 8) }
    ensures { result ≡ resolve_of table.now n space place.chunk place.offset alignment word }
{
    resolve_by(|p| find_address(table, n, space, p), place, alignment, word)
}

/// The object whose number, from 0, among those of the n records that are of a space is `index`
/// (the Rust's `resolve_ordinal`); none where there are no more.
pub fn resolve_ordinal(table: &[u64], n: usize, space: u64, index: u64) -> Option<u64>
    requires { n ≤ room 5 table.now }
    ensures { result ≡ ordinal_from table.now space index 0 n }
{
    let i = (0..n)
        .filter(|i| address_at(table, *i).space == space)
        .nth(index as usize)?;
    Some(address_at(table, i).object)
}
