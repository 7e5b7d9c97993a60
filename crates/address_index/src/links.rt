//! A record enters the index of legacy addresses: at the end of its space's list, and as the newest
//! of its bucket. In buckets and links records are counted from 1. A `table` is the address table.
ghost use Rattle.std.specs.Prelude.{◌≡◌, ℕ, ◌+◌, ◌*◌, ◌<◌, ◌≤◌, length, get_or, List, IsTrue, ◌↔◌};
ghost use Rattle.tables.specs.Records.{room};
ghost use Rattle.address_index.specs.Layout.{capacity, Roomy};
ghost use Rattle.address_index.specs.Links.{bucket_of, Linked};
ghost use Rattle.address_index.specs.Entries.{EntryFits, IsEntry, in_list, in_bucket, OthersStay};

use crate::layout::{LISTED_SPACES, SEED, bucket, bucket_cell, capacity, link_cell, list_cell};
use tables::records::address_at;

/// Whether the index has room for record n.
pub fn has_room(index: &[u64], n: usize) -> bool
    ensures { IsTrue result ↔ Roomy n index.now }
{
    n < capacity(index.len())
}

/// What the index is to keep of a record: its space; its number in it, from 0, where the space has
/// a list, else 0; and its bucket.
#[derive(Clone, Copy)]
pub struct Entry {
    pub space: u64,
    pub number: usize,
    pub bucket: usize,
}

/// How many records the list of a space holds: 0 for a space without one.
pub fn listed(index: &[u64], space: u64) -> usize
    requires { 8 ≤ length index.now }
    ensures is { space < 8 → result ≡ get_or index.now space 0 }
    ensures none { 8 ≤ space → result ≡ 0 }
{
    if space < LISTED_SPACES {
        index[space as usize] as usize
    } else {
        0
    }
}

/// The bucket of address record i.
pub fn bucket_of(table: &[u64], index: &[u64], i: usize) -> usize
    requires { (i < room 5 table.now) × (0 < capacity (length index.now)) }
    ensures { (result ≡ bucket_of table.now (capacity (length index.now)) (get_or index.now 8 0) i) × (result < capacity (length index.now) * 3) }
{
    let a = address_at(table, i);
    bucket(capacity(index.len()), index[SEED], a.space, a.into())
}

/// The entry of record n of the address table, where the index holds the n records before it.
pub fn entry_of(table: &[u64], index: &[u64], n: usize) -> Entry
    requires { (n < room 5 table.now) × Roomy n index.now × Linked table.now n index.now }
    ensures { IsEntry table.now n index.now result }
{
    let space = address_at(table, n).space;
    Entry {
        space,
        number: listed(index, space),
        bucket: bucket_of(table, index, n),
    }
}

// Record n enters the list of its space.
fn add_to_list(index: &mut [u64], n: usize, space: u64, number: usize)
    requires { Roomy n index.old × (space < 8) × (number ≤ n) }
    ensures { index.new ≡ in_list index.old n space number }
{
    let cell = list_cell(capacity(index.len()), space, number);
    index[cell] = n as u64;
    index[space as usize] = number as u64 + 1;
}

// Record n enters its bucket.
fn add_to_bucket(index: &mut [u64], n: usize, bucket: usize)
    requires { Roomy n index.old × (bucket < capacity (length index.old) * 3) }
    ensures { index.new ≡ in_bucket index.old n bucket }
{
    let r = capacity(index.len());
    let cell = bucket_cell(r, bucket);
    index[link_cell(r, n)] = index[cell];
    index[cell] = n as u64 + 1;
}

/// Record n enters the index. It changes no more than the bucket and the link, and where the space
/// has a list the place in it and the count; so the seed stays.
pub fn add_entry(index: &mut [u64], n: usize, entry: Entry)
    requires { Roomy n index.old × EntryFits n index.old entry }
    ensures linked { (t : List ℕ) → IsEntry t n index.old entry → Linked t n index.old → Linked t (n + 1) index.new }
    ensures seed { get_or index.new 8 0 ≡ get_or index.old 8 0 }
    ensures others { OthersStay n entry index.old index.new }
{
    add_to_bucket(index, n, entry.bucket);
    if entry.space < LISTED_SPACES {
        add_to_list(index, n, entry.space, entry.number);
    }
}
