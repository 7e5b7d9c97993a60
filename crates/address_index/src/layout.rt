//! Where the index of legacy addresses keeps what, in numbers of 64 bits: first how many records
//! each of the spaces 0 to 7 has, and the seed; then, with room for `r` records, the lists of these
//! spaces, `r` places for each two of them; three buckets for each record; and a link for each.
ghost use Rattle.std.specs.Prelude.{◌≡◌, ◌+◌, ◌*◌, ◌^◌, ◌<◌, ◌≤◌};
ghost use Rattle.address_index.specs.Layout.{capacity, list_cell, bucket_cell, link_cell, block, block_start, in_block, bucket};

use alloc::resolve::Place;

/// How many spaces have lists: as many as a tag of V8 can name, whose mask is 7. A sheet may name
/// more: the records of such a space have buckets alone.
pub const LISTED_SPACES: u64 = 8;

/// The place of the seed, from which the buckets follow. No call writes it (include/dawichko.h).
pub const SEED: usize = 8;

/// For how many records an index of this length has room: nine numbers are kept for all, and eight
/// for each record.
pub fn capacity(length: usize) -> usize
    ensures is { result ≡ capacity length }
    ensures fits { 0 < result → 9 + result * 8 ≤ length }
    ensures small { 9 + result * 8 < 2 ^ 64 }
{
    length.saturating_sub(9) / 8
}

/// The place of number `k` in the list of a space below 8, with room for `r` records. Two spaces
/// share `r` places: the even one takes them from the first on, the odd one from the last.
pub fn list_cell(r: usize, space: u64, k: usize) -> usize
    requires { (space < 8) × (k < r) × (9 + r * 8 < 2 ^ 64) }
    ensures is { result ≡ list_cell r space k }
    ensures low { (9 ≤ result) × (result < 9 + r * 4) }
{
    let shared = 9 + (space / 2) as usize * r;
    if space % 2 == 0 {
        shared + k
    } else {
        shared + (r - 1 - k)
    }
}

/// The place of bucket `b`, with room for `r` records.
pub fn bucket_cell(r: usize, b: usize) -> usize
    requires { (9 + r * 8 < 2 ^ 64) × (b < r * 3) }
    ensures { result ≡ bucket_cell r b }
{
    9 + r * 4 + b
}

/// The place of the link of record `i`, with room for `r` records.
pub fn link_cell(r: usize, i: usize) -> usize
    requires { (9 + r * 8 < 2 ^ 64) × (i < r) }
    ensures { result ≡ link_cell r i }
{
    9 + r * 7 + i
}

// A block, 32,768 bytes of a chunk, as one number.
fn block(space: u64, place: Place) -> u64
    ensures { result ≡ block space place.chunk place.offset }
{
    let chunk = place.chunk.wrapping_mul(131072);
    space
        .wrapping_mul(72057594037927936)
        .wrapping_add(chunk)
        .wrapping_add(place.offset / 32768)
}

// Where the buckets of a block begin: the upper half of a product, scaled to the number of buckets,
// which takes less time than a remainder.
fn block_start(r: usize, seed: u64, block: u64) -> u64
    requires { 9 + r * 8 < 2 ^ 64 }
    ensures { (result ≡ block_start r seed block) × (result < 2 ^ 32) }
{
    let odd = seed.wrapping_mul(2).wrapping_add(11400714819323198485);
    let mixed = block.wrapping_mul(odd) / 4294967296;
    mixed.wrapping_mul((r * 3) as u64) / 4294967296
}

// Which of a block's buckets is that of an offset. They lie as words do, so that objects that are
// near each other have buckets near each other; where words have 4 bytes, those of even words
// before those of odd ones.
fn in_block(offset: u64) -> u64
    ensures { (result ≡ in_block offset) × (result < 8192) }
{
    offset / 8 % 4096 + offset / 4 % 2 * 4096
}

/// The bucket of an address, with room for `r` records, under a seed: a number below `r * 3`.
pub fn bucket(r: usize, seed: u64, space: u64, place: Place) -> usize
    requires { (0 < r) × (9 + r * 8 < 2 ^ 64) }
    ensures { (result ≡ bucket r seed space place.chunk place.offset) × (result < r * 3) }
{
    let buckets = (r * 3) as u64;
    let b = block_start(r, seed, block(space, place)) + in_block(place.offset);
    if b < buckets {
        b as usize
    } else {
        ((b - buckets) % buckets) as usize
    }
}
