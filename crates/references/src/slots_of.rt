//! The slots of each object, in slot order. In the table those of nested objects stand between.
ghost use Rattle.std.specs.Prelude.{◌≡◌, ◌+◌, ◌-◌, ◌<◌, ◌≤◌, length};
ghost use Rattle.references.specs.SlotsOf.{HasLists};

use crate::held::lists_object;
use filled::filled::Filled;
use tables::records::slot_at;

/// Slot `slot` enters the list of its object, if the part lists that, as its first.
fn list_slot(filled: Filled<'_>, first: &mut [u64], next: &mut [u64], slot: u64)
    requires from_start { filled.starts.slots ≤ slot }
    requires listed { slot < filled.counts.slots }
    requires first_room { filled.counts.objects - filled.starts.objects ≤ length first.old }
    requires next_room { filled.counts.slots - filled.starts.slots ≤ length next.old }
    requires later { HasLists filled (slot + 1) first.old next.old }
    ensures { HasLists filled.entry slot first.new next.new }
{
    let object = slot_at(filled.tables.slots, slot as usize).object;
    if lists_object(filled, object) {
        let place = (object - filled.starts.objects) as usize;
        next[(slot - filled.starts.slots) as usize] = first[place];
        first[place] = slot;
    }
}

/// Lists the slots of each object of the part: `first` has its first one, and `next` for each
/// slot the one that follows; the slot count stands for none.
pub fn list_slots(filled: Filled<'_>, first: &mut [u64], next: &mut [u64])
    requires first_room { filled.counts.objects - filled.starts.objects ≤ length first.old }
    requires next_room { filled.counts.slots - filled.starts.slots ≤ length next.old }
    ensures { HasLists filled.entry filled.entry.starts.slots first.new next.new }
{
    first.fill(filled.counts.slots);
    let mut slot = filled.counts.slots;
    while filled.starts.slots < slot {
        slot -= 1;
        list_slot(filled, first, next, slot);
    }
}
