//! Marks what is reached in one walk, with what scratch has of the part: each object is met once
//! and each slot looked at once.
ghost use Rattle.std.specs.Prelude.{◌≡◌, ◌+◌, ◌-◌, ◌<◌, ◌≤◌, length};
ghost use Rattle.kept.specs.Kept.{Reached, Marks};
ghost use Rattle.kept.specs.Marking.{IsTarget};
ghost use Rattle.kept.specs.Walk.{Indexed, Walk, Roomy};

use crate::marks::{begin, counted, meet};
use filled::filled::Filled;
use references::found::reference_found;

/// A part, with the references of its value records and the lists of its objects' slots.
#[derive(Clone, Copy)]
pub struct Index<'a> {
    pub filled: Filled<'a>,
    pub found: &'a [u64],
    pub first: &'a [u64],
    pub next: &'a [u64],
}

/// The object that slot `slot` of the part leads to.
fn target(index: Index<'_>, through_weak: bool, slot: u64) -> Option<u64>
    requires indexed { Indexed index }
    requires from_start { index.filled.starts.slots ≤ slot }
    requires listed { slot < index.filled.counts.slots }
    ensures { IsTarget index.entry.filled through_weak slot result }
{
    counted(
        reference_found(index.filled, index.found, slot),
        through_weak,
    )
}

/// Marks the objects that the slots of the `done`th object met lead to, and puts those that were
/// not marked at the queue's end, at `met`. Gives where it ends then.
fn expand(
    index: Index<'_>,
    through_weak: bool,
    queue: &mut [u64],
    marks: &mut [u8],
    done: usize,
    met: usize,
) -> usize
    requires indexed { Indexed index }
    requires waiting { done < met }
    requires room { Roomy index.filled queue.old }
    requires walk { Walk index.filled through_weak marks.old queue.old done met }
    ensures { Walk index.entry.filled through_weak marks.new queue.new (done + 1) result }
{
    let object = queue[done];
    let end = index.filled.counts.slots;
    let mut met = met;
    let mut slot = index.first[(object - index.filled.starts.objects) as usize];
    while slot < end {
        if let Some(reached) = meet(marks, target(index, through_weak, slot)) {
            queue[met] = reached;
            met += 1;
        }
        slot = index.next[(slot - index.filled.starts.slots) as usize];
    }
    met
}

/// Marks what is reached, and clears all other marks.
pub fn mark_by_walk(index: Index<'_>, through_weak: bool, queue: &mut [u64], marks: &mut [u8])
    requires indexed { Indexed index }
    requires marks { index.filled.counts.objects ≤ length marks.old }
    requires room { Roomy index.filled queue.old }
    ensures { Marks (Reached index.entry.filled through_weak) marks.new }
{
    let mut met = begin(index.filled, marks);
    if 0 < met {
        queue[0] = index.filled.starts.objects;
    }
    let mut done = 0;
    while done < met {
        met = expand(index, through_weak, queue, marks, done, met);
        done += 1;
    }
}
