//! The marks that the caller lends: one byte for each object, 1 where it is marked.
ghost use Rattle.std.specs.Prelude.{◌≡◌, Bool, ℕ, ◌==◌, ◌<◌, ◌≤◌, length, replicate, slice_index};
ghost use Rattle.std.specs.Option.{ForSome};
ghost use Rattle.kept.specs.Marking.{Marking, OnlyFirst, Meets, counted_of};

use filled::filled::Filled;
use references::reference::Reference;

/// The object is marked.
pub fn is_marked(marks: &[u8], object: u64) -> bool
    ensures { result ≡ (slice_index marks.now object == 1) }
{
    object < marks.len() as u64 && marks[object as usize] == 1
}

/// Every mark is 0.
fn clear(marks: &mut [u8])
    ensures { marks.new ≡ replicate (length marks.old) 0 }
{
    marks.fill(0);
}

/// Marks the part's first object alone, if it has one, and gives how many that is.
pub fn begin(filled: Filled<'_>, marks: &mut [u8]) -> usize
    requires { filled.counts.objects ≤ length marks.old }
    ensures marked { (through_weak : Bool) → Marking filled.entry through_weak marks.new }
    ensures first { OnlyFirst filled.entry marks.new result }
{
    clear(marks);
    if filled.counts.objects <= filled.starts.objects {
        return 0;
    }
    marks[filled.starts.objects as usize] = 1;
    1
}

/// The object that a slot leads to, if it refers to one, and strongly where weak references do
/// not count.
pub fn counted(reference: Option<Reference>, through_weak: bool) -> Option<u64>
    ensures { result ≡ counted_of through_weak reference }
{
    match reference {
        Some(reference) if through_weak || !reference.weak => Some(reference.object),
        _ => None,
    }
}

/// Marks an object, and gives it, unless there is none or it is marked already.
pub fn meet(marks: &mut [u8], object: Option<u64>) -> Option<u64>
    requires { ForSome object (λ o. o < length marks.old) }
    ensures { Meets marks.old object result marks.new }
{
    let object = object?;
    if is_marked(marks, object) {
        return None;
    }
    marks[object as usize] = 1;
    Some(object)
}
