//! What the top object keeps.
ghost use Rattle.std.specs.Prelude.{◌≡◌, ◌≢◌, ◌↔◌, replicate};
ghost use Rattle.dawichko.specs.Part.{asked_of, Listed};
ghost use Rattle.dawichko.specs.Told.{IsKeeping};

use crate::part::part_of;
use kept::keep::keep;

/// Marks each object that the part's first object keeps, and sums their bytes (`kept::keep::keep`):
/// 0, or 17 where the counts do not fit the tables, or 19 where there are fewer marks than objects,
/// or all byte sizes of the part add up past 2^64 - 1. The sums are those through any reference,
/// and through references under no weak value. After a refusal they are zero, and the marks stay.
#[unsafe(no_mangle)]
pub extern "C" fn dawichko_kept(
    objects: &[u64],
    slots: &[u64],
    values: &[u64],
    addresses: &[u64],
    starts: &[u64; 4],
    counts: &[u64; 4],
    marks: &mut [u8],
    scratch: &mut [u64],
    sums: &mut [u64; 2],
) -> u64
    ensures listed { result ≢ 17
        ↔ Listed (asked_of objects.now slots.now values.now addresses.now starts.now counts.now) }
    ensures kept { result ≢ 17
        → IsKeeping (asked_of objects.now slots.now values.now addresses.now starts.now counts.now)
        marks.old marks.new sums.new result }
    ensures untouched { result ≢ 0 → marks.new ≡ marks.old }
    ensures cleared { result ≢ 0 → sums.new ≡ replicate 2 0 }
{
    *sums = [0; 2];
    match part_of(objects, slots, values, addresses, starts, counts) {
        Ok(part) => match keep(part, marks, scratch) {
            Ok(kept) => {
                *sums = [kept.bytes, kept.strong_bytes];
                0
            }
            Err(e) => e.refusal.number(),
        },
        Err(e) => e.refusal.number(),
    }
}
