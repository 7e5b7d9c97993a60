//! Filled tables as the exported functions take them.
ghost use Rattle.std.specs.Prelude.{◌≡◌, ◌↔◌, IsOk, IfOk, IfErr};
ghost use Rattle.refusals.specs.declared.refusal.Refusal.TheVariants.{NoView};
ghost use Rattle.filled.specs.Refused.{refused};
ghost use Rattle.dawichko.specs.Part.{asked_of, counts_of, Listed, IsPart};

use filled::filled::{Counts, Filled, Tables};
use filled::refused::Refused;

/// Four numbers as counts: of objects, slots, values and addresses.
fn counts_of(numbers: &[u64; 4]) -> Counts
    ensures { result ≡ counts_of numbers.now }
{
    Counts {
        objects: numbers[0],
        slots: numbers[1],
        values: numbers[2],
        addresses: numbers[3],
    }
}

/// The part that is asked of; refused with 17 where a count is above its table's room, or a start
/// above its count.
pub fn part_of<'a>(
    objects: &'a [u64],
    slots: &'a [u64],
    values: &'a [u64],
    addresses: &'a [u64],
    starts: &[u64; 4],
    counts: &[u64; 4],
) -> Result<Filled<'a>, Refused>
    ensures listed { IsOk result
        ↔ Listed (asked_of objects.now slots.now values.now addresses.now starts.now counts.now) }
    ensures part { IfOk result
        (IsPart (asked_of objects.now slots.now values.now addresses.now starts.now counts.now)) }
    ensures refused { IfErr result (λ e. e ≡ refused NoView) }
{
    let tables = Tables {
        objects,
        slots,
        values,
        addresses,
    };
    Filled::new(tables, counts_of(starts), counts_of(counts))
}
