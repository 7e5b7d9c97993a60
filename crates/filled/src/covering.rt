//! A search over the raw slots of a part, for the range that covers a payload byte.
ghost use Rattle.std.specs.Prelude.{◌≡◌, ◌+◌, ◌<◌, ◌≤◌, ◌↔◌, IfOk, IfErr, IsErr};
ghost use Rattle.refusals.specs.declared.refusal.Refusal.TheVariants.{OffsetPastEnd};
ghost use Rattle.std.specs.Option.{option_map};
ghost use Rattle.filled.specs.Refused.{refused};
ghost use Rattle.filled.specs.Ranges.{Covers};

use crate::filled::Filled;
use crate::nearest::{Near, nearer};
use crate::refused::Refused;
use refusals::refusal::Refusal;

/// What covers a payload byte. Slots are told by their numbers in the table.
#[derive(Clone, Copy, Debug, PartialEq, Eq)]
pub enum Covering {
    /// The lowest slot whose range contains the byte.
    Slot(u64),
    /// No range contains it: the slot whose range ends nearest at or before it, and the slot
    /// whose range begins nearest after it, the lower number among equally near ones.
    Gap(Option<u64>, Option<u64>),
}

/// The slot of the nearest.
fn slot_of(best: Option<Near>) -> Option<u64>
    ensures { result ≡ option_map (λ near. near.slot) best }
{
    best.map(|near| near.slot)
}

/// What covers the payload byte at an offset, in a payload of `length` bytes. Refusal 18 where
/// the offset is not below the length.
pub fn range_at(filled: Filled<'_>, length: u64, offset: u64) -> Result<Covering, Refused>
    ensures past { IsErr result ↔ (length ≤ offset) }
    ensures refused { IfErr result (λ e. e ≡ refused OffsetPastEnd) }
    ensures found { IfOk result (Covers filled.entry.tables.slots.now filled.entry.starts.slots
        filled.entry.counts.slots offset) }
{
    if length <= offset {
        return Err(Refused::new(Refusal::OffsetPastEnd));
    }
    let mut before: Option<Near> = None;
    let mut after: Option<Near> = None;
    for k in filled.starts.slots..filled.counts.slots {
        let Some(range) = filled.raw_slot(k) else {
            continue;
        };
        if range.contains(offset) {
            return Ok(Covering::Slot(k));
        }
        before = nearer(before, k, range.distance_before(offset));
        after = nearer(after, k, range.distance_after(offset));
    }
    Ok(Covering::Gap(slot_of(before), slot_of(after)))
}
