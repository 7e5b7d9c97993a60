//! Which raw range covers a payload byte.
ghost use Rattle.std.specs.Prelude.{◌≡◌, ◌≢◌, ◌≤◌, ◌↔◌, ◌⊎◌, replicate};
ghost use Rattle.std.specs.Option.{unwrap_or};
ghost use Rattle.dawichko.specs.Part.{asked_of, Listed};
ghost use Rattle.dawichko.specs.Covered.{no_slot, covering_numbers, IsCovering};

use crate::part::part_of;
use filled::covering::{Covering, range_at};

/// Stands for no slot.
const NO_SLOT: u64 = 18446744073709551615;

/// What covers a byte, as three numbers.
fn numbers_of(covering: Covering) -> [u64; 3]
    ensures { result ≡ covering_numbers covering }
{
    match covering {
        Covering::Slot(k) => [k, NO_SLOT, NO_SLOT],
        Covering::Gap(low, high) => [NO_SLOT, low.unwrap_or(NO_SLOT), high.unwrap_or(NO_SLOT)],
    }
}

/// What covers the payload byte at an offset, in a part's raw slots: 0, or 17 where the counts do
/// not fit the tables, or 18 where the offset is not below the payload's length. The answer is the
/// covering slot, the slot that ends nearest before the byte and the one that begins nearest after
/// it, 2^64 - 1 for none; the last two are none where a slot covers. It is zero after a refusal.
#[unsafe(no_mangle)]
pub extern "C" fn dawichko_range_at(
    objects: &[u64],
    slots: &[u64],
    values: &[u64],
    addresses: &[u64],
    starts: &[u64; 4],
    counts: &[u64; 4],
    payload_length: u64,
    offset: u64,
    answer: &mut [u64; 3],
) -> u64
    ensures listed { result ≢ 17
        ↔ Listed (asked_of objects.now slots.now values.now addresses.now starts.now counts.now) }
    ensures past { Listed (asked_of objects.now slots.now values.now addresses.now starts.now counts.now)
        → result ≡ 18 ↔ payload_length ≤ offset }
    ensures numbered { result ≡ 0 ⊎ result ≡ 17 ⊎ result ≡ 18 }
    ensures found { result ≡ 0
        → IsCovering (asked_of objects.now slots.now values.now addresses.now starts.now counts.now)
        offset answer.new }
    ensures cleared { result ≢ 0 → answer.new ≡ replicate 3 0 }
{
    *answer = [0; 3];
    match part_of(objects, slots, values, addresses, starts, counts) {
        Ok(part) => match range_at(part, payload_length, offset) {
            Ok(covering) => {
                *answer = numbers_of(covering);
                0
            }
            Err(e) => e.refusal.number(),
        },
        Err(e) => e.refusal.number(),
    }
}
