//! Marks what is reached without scratch: the part's slots are looked at again and again until no
//! object is marked any more.
ghost use Rattle.std.specs.Prelude.{◌≡◌, ◌<◌, ◌≤◌, length};
ghost use Rattle.std.specs.Bool.{OnTrue, OnFalse};
ghost use Rattle.kept.specs.Kept.{Reached, Marks};
ghost use Rattle.kept.specs.Marking.{Marking, Closed, IsClosedAtSlot, HasMore};

use crate::marks::{begin, counted, is_marked, meet};
use filled::filled::Filled;
use references::reference::slot_reference;
use tables::records::slot_at;

/// If the slot's object is marked, marks the object that the slot leads to. Whether that was not
/// marked before.
fn look(filled: Filled<'_>, through_weak: bool, marks: &mut [u8], slot: u64) -> bool
    requires from_start { filled.starts.slots ≤ slot }
    requires listed { slot < filled.counts.slots }
    requires marking { Marking filled through_weak marks.old }
    ensures marking { Marking filled.entry through_weak marks.new }
    ensures closed { IsClosedAtSlot filled.entry through_weak marks.new slot }
    ensures changed { OnTrue result (HasMore filled.entry marks.old marks.new) }
    ensures same { OnFalse result (marks.new ≡ marks.old) }
{
    let owner = slot_at(filled.tables.slots, slot as usize).object;
    if !is_marked(marks, owner) {
        return false;
    }
    meet(marks, counted(slot_reference(filled, slot), through_weak)).is_some()
}

/// Looks at each slot of the part once. Whether an object was marked that was not before.
fn sweep(filled: Filled<'_>, through_weak: bool, marks: &mut [u8]) -> bool
    requires { Marking filled through_weak marks.old }
    ensures marking { Marking filled.entry through_weak marks.new }
    ensures changed { OnTrue result (HasMore filled.entry marks.old marks.new) }
    ensures closed { OnFalse result (Closed filled.entry through_weak marks.new) }
{
    let mut changed = false;
    for slot in filled.starts.slots..filled.counts.slots {
        if look(filled, through_weak, marks, slot) {
            changed = true;
        }
    }
    changed
}

/// Marks what is reached, and clears all other marks.
pub fn mark_by_sweeps(filled: Filled<'_>, through_weak: bool, marks: &mut [u8])
    requires { filled.counts.objects ≤ length marks.old }
    ensures { Marks (Reached filled.entry through_weak) marks.new }
{
    begin(filled, marks);
    'sweeps: loop {
        if !sweep(filled, through_weak, marks) {
            return;
        }
    }
}
