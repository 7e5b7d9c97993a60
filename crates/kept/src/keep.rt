//! The call: marks and sums.
ghost use Rattle.std.specs.Prelude.{◌≡◌, ◌+◌, ◌-◌, ◌*◌, ◌^◌, ◌<◌, ◌≤◌, ◌⊎◌, ◌↔◌, length, IsTrue, IsErr, OnErr, IfErr, IfOk};
ghost use Rattle.refusals.specs.declared.refusal.Refusal.TheVariants.{NoMarks};
ghost use Rattle.filled.specs.Refused.{refused};
ghost use Rattle.kept.specs.Bytes.{all_bytes};

/// How many bytes the part's first object keeps.
#[derive(Clone, Copy, Debug, PartialEq, Eq)]
pub struct Kept {
    /// The byte sizes of the objects that it reaches through any reference.
    pub bytes: u64,
    /// Of those that it reaches through references that stand under no weak value.
    pub strong_bytes: u64,
}

ghost use Rattle.kept.specs.Kept.{IsKept};
ghost use Rattle.kept.specs.Walk.{scratch_of};

use crate::bytes::{bytes_fit, sum_marked};
use crate::sweep::mark_by_sweeps;
use crate::walk::{Index, mark_by_walk};
use filled::filled::Filled;
use filled::refused::Refused;
use references::found::find_references;
use references::slots_of::list_slots;
use refusals::refusal::Refusal;

/// Scratch of so many numbers has room for what the walk keeps of the part.
fn has_room(filled: Filled<'_>, numbers: usize) -> bool
    ensures { IsTrue result ↔ (scratch_of filled.entry ≤ numbers) }
{
    let values = (filled.counts.values - filled.starts.values) as usize;
    let slots = (filled.counts.slots - filled.starts.slots) as usize;
    let objects = (filled.counts.objects - filled.starts.objects) as usize;
    values <= numbers && slots <= numbers - values && objects <= (numbers - values - slots) / 2
}

/// Marks and sums by two walks, in linear time.
fn keep_by_walks(filled: Filled<'_>, marks: &mut [u8], scratch: &mut [u64]) -> Kept
    requires marks { filled.counts.objects ≤ length marks.old }
    requires bytes { all_bytes filled < 2 ^ 64 }
    requires room { scratch_of filled ≤ length scratch.old }
    ensures { IsKept filled.entry marks.new result }
{
    let values = (filled.counts.values - filled.starts.values) as usize;
    let slots = (filled.counts.slots - filled.starts.slots) as usize;
    let objects = (filled.counts.objects - filled.starts.objects) as usize;
    let (found, rest) = scratch.split_at_mut(values);
    let (next, rest) = rest.split_at_mut(slots);
    let (first, queue) = rest.split_at_mut(objects);
    find_references(filled, found);
    list_slots(filled, first, next);
    let index = Index {
        filled,
        found,
        first,
        next,
    };
    mark_by_walk(index, false, queue, marks);
    let strong_bytes = sum_marked(filled, marks);
    mark_by_walk(index, true, queue, marks);
    let bytes = sum_marked(filled, marks);
    Kept {
        bytes,
        strong_bytes,
    }
}

/// The same without scratch, by sweeps, in more than linear time.
fn keep_by_sweeps(filled: Filled<'_>, marks: &mut [u8]) -> Kept
    requires marks { filled.counts.objects ≤ length marks.old }
    requires bytes { all_bytes filled < 2 ^ 64 }
    ensures { IsKept filled.entry marks.new result }
{
    mark_by_sweeps(filled, false, marks);
    let strong_bytes = sum_marked(filled, marks);
    mark_by_sweeps(filled, true, marks);
    let bytes = sum_marked(filled, marks);
    Kept {
        bytes,
        strong_bytes,
    }
}

/// Marks each object that the part's first object keeps with 1, by any reference, and clears every
/// other mark; and sums the bytes of what it keeps, and of what it keeps by strong references
/// alone. Refusal 19 where there are fewer marks than objects, or all byte sizes of the part add
/// up past 2^64 - 1; marks and scratch stay then.
///
/// In linear time where scratch has a number for each value record and each slot of the part and
/// two for each object. It may hold anything before, and what it holds after is left open.
pub fn keep(filled: Filled<'_>, marks: &mut [u8], scratch: &mut [u64]) -> Result<Kept, Refused>
    ensures refused { IsErr result
        ↔ ((length marks.old < filled.entry.counts.objects) ⊎ (2 ^ 64 ≤ all_bytes filled.entry)) }
    ensures error { IfErr result (λ e. e ≡ refused NoMarks) }
    ensures same_marks { OnErr result (marks.new ≡ marks.old) }
    ensures same_scratch { OnErr result (scratch.new ≡ scratch.old) }
    ensures kept { IfOk result (IsKept filled.entry marks.new) }
{
    if (marks.len() as u64) < filled.counts.objects || !bytes_fit(filled) {
        return Err(Refused::new(Refusal::NoMarks));
    }
    if has_room(filled, scratch.len()) {
        Ok(keep_by_walks(filled, marks, scratch))
    } else {
        Ok(keep_by_sweeps(filled, marks))
    }
}

#[cfg(test)]
mod tests {
    use super::*;
    use filled::filled::{Counts, Tables};
    use std::test::Fail;

    const OBJECTS: [u64; 20] = [
        16, 0, 0, 4, 8, 0, 0, 1, 24, 0, 0, 1, 32, 0, 0, 1, 40, 0, 0, 0,
    ];

    // Object 0 names object 2 and one that is not listed; 2 names value 0 weakly; 1 has a repeat of
    // value 2; 3 names object 0; and a slot belongs to an object that is not listed.
    const SLOTS: [u64; 36] = [
        0, 0, 1, 2, 0, 0, 2, 0, 12, 0, 0, 0, 1, 0, 7, 5, 2, 0, 3, 0, 1, 0, 0, 0, 0, 1, 1, 9, 0, 0,
        7, 0, 1, 3, 0, 0,
    ];

    // Value 0 is object 1, 1 repeats it no time, 2 names weakly the later value 3, which is object 4.
    const VALUES: [u64; 12] = [1, 1, 0, 7, 0, 0, 12, 3, 0, 1, 4, 0];

    fn filled(starts: Counts) -> Result<Filled<'static>, Refused> {
        let tables = Tables {
            objects: &OBJECTS,
            slots: &SLOTS,
            values: &VALUES,
            addresses: &[],
        };
        let counts = Counts {
            objects: 5,
            slots: 6,
            values: 4,
            addresses: 0,
        };
        Filled::new(tables, starts, counts)
    }

    #[test]
    fn keeps_what_is_reached(rt: HostRuntime) -> Result<(), Fail> {
        let starts = Counts {
            objects: 0,
            slots: 0,
            values: 0,
            addresses: 0,
        };
        let whole = filled(starts)?;
        let mut marks = [9; 6];
        let kept = keep(whole, &mut marks, &mut [7; 20])?;
        assert_eq!(rt; kept.bytes, 48);
        assert_eq!(rt; kept.strong_bytes, 40);
        assert_eq!(rt; marks, [1, 1, 1, 0, 0, 0]);
        let mut marks = [9; 5];
        let kept = keep(whole, &mut marks, &mut [7; 19])?;
        assert_eq!(rt; kept.bytes, 48);
        assert_eq!(rt; kept.strong_bytes, 40);
        assert_eq!(rt; marks, [1, 1, 1, 0, 0]);
        assert_eq!(rt;
            keep(whole, &mut [9; 4], &mut []),
            Err(Refused::new(Refusal::NoMarks))
        );
        Ok(())
    }

    #[test]
    fn keeps_within_a_part(rt: HostRuntime) -> Result<(), Fail> {
        let starts = Counts {
            objects: 1,
            slots: 1,
            values: 1,
            addresses: 0,
        };
        let part = filled(starts)?;
        let mut marks = [9; 5];
        let kept = keep(part, &mut marks, &mut [7; 20])?;
        assert_eq!(rt; kept.bytes, 8);
        assert_eq!(rt; marks, [0, 1, 0, 0, 0]);
        Ok(())
    }
}
