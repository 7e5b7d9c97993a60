//! Search in the index of legacy addresses: along the links of an address's bucket, or by binary
//! search in the list of its space; and a number in that list.
ghost use Rattle.std.specs.Prelude.{◌≡◌, ◌+◌, ◌*◌, ◌^◌, ◌<◌, ◌≤◌, length, get_or};
ghost use Rattle.tables.specs.Records.{room};
ghost use Rattle.alloc.specs.Resolve.{addressed, ordinal_from};
ghost use Rattle.address_index.specs.Layout.{capacity};
ghost use Rattle.address_index.specs.Links.{count_in, bucket_of as bucketOf, Names, Links};
ghost use Rattle.address_index.specs.Numbered.{Numbered, Parts};
ghost use Rattle.address_index.specs.Sorted.{is_after, Sorted, Sorted-prop};

use crate::layout::{LISTED_SPACES, SEED, bucket, bucket_cell, link_cell, list_cell};
use crate::links::{bucket_of, listed};
use alloc::resolve::{Place, find_address, is_address};
use tables::records::address_at;

// After so many records of a bucket the list is searched, whose binary search bounds the time.
const LOOKS: usize = 8;

/// The first `count` records of the address table, and their index, which has room for `most`
/// records and so for all of them.
#[derive(Clone, Copy)]
pub struct Search<'a> {
    pub table: &'a [u64],
    pub index: &'a [u64],
    pub count: usize,
    pub most: usize,
    ghost within: { count ≤ room 5 table.now },
    ghost is_most: { most ≡ capacity (length index.now) },
    ghost some: { 0 < most },
    ghost small: { 9 + most * 8 < 2 ^ 64 },
    ghost fits: { count ≤ most },
    ghost links: { Links table.now count index.now },
    ghost sorted: { Sorted table.now count } by { Sorted-prop table.now count },
}

impl<'a> Search<'a> {
    // The number that names the newest record of a bucket.
    fn newest(self, b: usize) -> u64
        requires { b < self.most * 3 }
        ensures { Names (bucketOf self.entry.table.now self.entry.most (get_or self.entry.index.now 8 0)) b self.entry.count result }
    {
        self.index[bucket_cell(self.most, b)]
    }

    // The number that names the record before record i in its bucket.
    fn older(self, i: usize) -> u64
        requires { i < self.count }
        ensures { Names (bucketOf self.entry.table.now self.entry.most (get_or self.entry.index.now 8 0)) (bucketOf self.entry.table.now self.entry.most (get_or self.entry.index.now 8 0) i) i result }
    {
        self.index[link_cell(self.most, i)]
    }

    /// The object of the newest record at an address; none where there is no record. A number that
    /// was left in scratch can name a record of another bucket: then there is none at the address.
    #[inline(never)]
    pub fn find(self, space: u64, place: Place) -> Option<u64>
        ensures { result ≡ addressed self.entry.table.now space place.chunk place.offset self.entry.count }
    {
        let b = bucket(self.most, self.index[SEED], space, place);
        let mut below = self.count;
        let mut link = self.newest(b);
        let mut looks = 0;
        while 0 < link && link <= below as u64 {
            below = link as usize - 1;
            if is_address(self.table, below, space, place) {
                return Some(address_at(self.table, below).object);
            }
            if bucket_of(self.table, self.index, below) != b {
                return None;
            }
            looks += 1;
            if looks == LOOKS {
                return self.find_listed(space, place);
            }
            link = self.older(below);
        }
        None
    }

    // How many records a space has.
    fn count_of(self, space: u64) -> usize
        requires { space < 8 }
        ensures { result ≡ count_in self.entry.table.now space self.entry.count }
    {
        listed(self.index, space)
    }

    // The record that has number k in a space.
    fn record(self, space: u64, k: usize) -> usize
        requires { (space < 8) × (k < count_in self.table.now space self.count) }
        ensures { Numbered self.entry.table.now self.entry.count space k result }
    {
        self.index[list_cell(self.most, space, k)] as usize
    }

    /// The object of the record that has a number, from 0, in a space below 8; none where there are
    /// no more.
    pub fn numbered(self, space: u64, number: u64) -> Option<u64>
        requires { space < 8 }
        ensures { result ≡ ordinal_from self.entry.table.now space number 0 self.entry.count }
    {
        let k = number as usize;
        if self.count_of(space) <= k {
            return None;
        }
        Some(address_at(self.table, self.record(space, k)).object)
    }

    // The address of record i is higher than this one.
    fn is_higher(self, i: usize, place: Place) -> bool
        requires { i < room 5 self.table.now }
        ensures { result ≡ is_after self.entry.table.now i place.chunk place.offset }
    {
        place < address_at(self.table, i).into()
    }

    // How many records of a space are not at a higher address: they are the first ones of its list.
    fn count_up_to(self, space: u64, place: Place) -> usize
        requires { space < 8 }
        ensures { Parts self.entry.table.now self.entry.count space place.chunk place.offset result }
    {
        let mut low = 0;
        let mut high = self.count_of(space);
        while low < high {
            let middle = low + (high - low) / 2;
            if self.is_higher(self.record(space, middle), place) {
                high = middle;
            } else {
                low = middle + 1;
            }
        }
        low
    }

    // The object of the newest record at an address by the list of the space; where it has no list
    // by the plain search.
    fn find_listed(self, space: u64, place: Place) -> Option<u64>
        ensures { result ≡ addressed self.entry.table.now space place.chunk place.offset self.entry.count }
    {
        if LISTED_SPACES <= space {
            return find_address(self.table, self.count, space, place);
        }
        let last = self.count_up_to(space, place).checked_sub(1)?;
        let i = self.record(space, last);
        if !is_address(self.table, i, space, place) {
            return None;
        }
        Some(address_at(self.table, i).object)
    }
}
