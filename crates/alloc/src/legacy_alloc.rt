//! The chunk counters of legacy spaces, and allocation.
ghost use Rattle.std.specs.Prelude.{◌≡◌, ◌-◌, ◌^◌, ◌<◌, ◌≤◌, length, get_or, OnErr, IfErr, MatchResult};
ghost use Rattle.refusals.specs.declared.refusal.Refusal.TheVariants.{AddressTooLarge};
ghost use Rattle.refusals.specs.Numbers.{number_of};
ghost use Rattle.alloc.specs.Allocation.{zero_counters, spaces_of, next_chunk, advance_of, outcome, allocate_of, seen, Places};

use crate::fill::{fill_to_align, max_fill_to_align};
use refusals::refusal::Refusal;
use tables::records::{ADDRESS_FIELDS, Address, add_address, has_room};

/// The counters of 256 spaces (the Rust's `LegacyAlloc`): in `cur` the current chunk of each, and
/// in `used` the next free offset in it, in bytes.
#[derive(Drop)]
pub struct LegacyAlloc {
    pub cur: [u32; 256],
    pub used: [u32; 256],
}

/// What is to be allocated: object number `object` of `size` bytes in a space, with the alignment
/// that is pending (`fill`), under words of `word` bytes.
#[derive(Clone, Copy)]
pub struct Request {
    pub space: u64,
    pub size: u64,
    pub object: u64,
    pub alignment: u64,
    pub word: u64,
}

impl Request {
    // The record of its object's address.
    fn address(self, chunk: u64, offset: u64, placed: u64) -> Address
        ensures { result ≡ record { space = self.space; chunk = chunk; offset = offset; object = self.object; placed = placed } }
    {
        Address {
            space: self.space,
            chunk,
            offset,
            object: self.object,
            placed,
        }
    }
}

/// What `allocate` answers: the alignment that is pending now or a refusal, and the counters.
#[derive(Drop)]
pub struct Allocated {
    pub alignment: Result<u64, Refusal>,
    pub alloc: LegacyAlloc,
}

/// What an allocation does in its space: the alignment that is pending now, and the next free
/// offset.
#[derive(Clone, Copy)]
pub struct Placed {
    pub alignment: u64,
    pub free: u32,
}

/// How many spaces a reservation list gives counters: as many as its numbers have top bits, and one
/// more (the Rust's `from_reservations`; chunk sizes are not used).
#[tactic(auto, using(crate::proofs::Laws::spaces_counted))]
pub fn spaces(reservations: &[u32]) -> u64
    ensures { result ≡ spaces_of reservations.now }
{
    reservations.iter().filter(|r| 2147483648 <= **r).count() as u64 + 1
}

impl LegacyAlloc {
    /// Every space begins at offset 0 of chunk 0.
    pub fn new() -> LegacyAlloc
        ensures { result ≡ zero_counters }
    {
        LegacyAlloc {
            cur: [0; 256],
            used: [0; 256],
        }
    }

    /// Address record n of an object: the alignment that is pending then (the Rust's `allocate`).
    ///
    /// A space without counters gets a record that is not placed, and the alignment stays pending.
    /// Refused, nothing changes: with `NoRoom` where the table has no room for record n, and with
    /// `AddressTooLarge` where the size, the address or the next free offset passes 2^32 - 1.
    pub fn allocate(mut self, table: &mut [u64], n: usize, spaces: u64, want: Request) -> Allocated
        requires { (want.space < 256) × (want.word ≤ 8) }
        ensures is { seen want.alignment result.alignment result.alloc table.new ≡ allocate_of table.old n spaces want self }
        ensures some { IfErr result.alignment (λ r. 0 < number_of r) }
    {
        let i = want.space as usize;
        let placed = place(table, n, spaces, want, self.used[i], self.cur[i]);
        if let Ok(p) = placed {
            self.used[i] = p.free;
        }
        Allocated {
            alignment: placed.map(|p| p.alignment),
            alloc: self,
        }
    }

    /// A chunk change: the space goes on at offset 0 of its next chunk (the Rust's `next_chunk`). A
    /// space without counters stays.
    #[tactic(auto, unfolding(crate::specs::Allocation::next_chunk))]
    pub fn next_chunk(&mut self, spaces: u64, space: u64)
        requires { (space < 256) × (get_or self.old.cur space 0 < 2 ^ 32 - 1) }
        ensures { self.new ≡ next_chunk self.old spaces space }
    {
        if spaces <= space {
            return;
        }
        let i = space as usize;
        self.cur[i] += 1;
        self.used[i] = 0;
    }
}

/// The tests of an allocation and its record, in a space whose next free offset is `used` and whose
/// chunk is `chunk`. Refused, nothing changes; the refusals are those of `allocate`. A missing room
/// is told before a size that is too large, so the room is asked first; `add_address` then has it.
#[tactic(auto, using(crate::proofs::Laws::fill_bound, crate::proofs::Laws::advance_bound), unfolding(crate::specs::Allocation::allocate_of))]
pub fn place(
    table: &mut [u64],
    n: usize,
    spaces: u64,
    want: Request,
    used: u32,
    chunk: u32,
) -> Result<Placed, Refusal>
    requires { want.word ≤ 8 }
    ensures is { Places table.old n spaces want used chunk result table.new }
    ensures refused { OnErr result (table.new ≡ table.old) }
    ensures some { IfErr result (λ r. 0 < number_of r) }
{
    if !has_room(table, ADDRESS_FIELDS, n) {
        return Err(Refusal::NoRoom);
    }
    narrow(want.size)?;
    if spaces <= want.space {
        add_address(table, n, want.address(0, 0, 0));
        return Ok(Placed {
            alignment: want.alignment,
            free: used,
        });
    }
    let next = u64::from(used);
    let offset = u64::from(narrow(next + fill_to_align(next, want.alignment, want.word))?);
    let free = narrow(next + advance(want.size, want.alignment, want.word))?;
    add_address(table, n, want.address(u64::from(chunk), offset, 1));
    Ok(Placed { alignment: 0, free })
}

// A size or an offset of at most 2^32 - 1; a higher one is refused.
fn narrow(offset: u64) -> Result<u32, Refusal>
    ensures { MatchResult result (λ n. n ≡ offset) (λ r. (r ≡ AddressTooLarge) × (2 ^ 32 ≤ offset)) }
{
    u32::try_from(offset).map_err(|_| Refusal::AddressTooLarge)
}

// How far the next free offset moves: by the size, and with an alignment pending by the most that a
// filler can take as well.
#[tactic(auto, unfolding(crate::specs::Allocation::advance_of, crate::specs::Fill::max_fill_to_align))]
fn advance(size: u64, alignment: u64, word: u64) -> u64
    requires { size < 2 ^ 33 }
    ensures { result ≡ advance_of size alignment word }
{
    if alignment == 0 {
        size
    } else {
        size + max_fill_to_align(word)
    }
}
