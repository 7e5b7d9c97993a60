//! Sums of byte sizes over the objects of a part.
ghost use Rattle.std.specs.Prelude.{◌≡◌, ◌^◌, ◌<◌, ◌↔◌, IsTrue};
ghost use Rattle.kept.specs.Bytes.{size_of, all_bytes, marked_bytes};

use crate::marks::is_marked;
use filled::filled::Filled;
use tables::records::{OBJECT_FIELDS, field};

/// The byte size of an object.
fn size(filled: Filled<'_>, object: u64) -> u64
    ensures { result ≡ size_of filled.entry object }
{
    field(filled.tables.objects, OBJECT_FIELDS as u64, object, 0)
}

/// All byte sizes of the part add up to at most 2^64 - 1.
pub fn bytes_fit(filled: Filled<'_>) -> bool
    ensures { IsTrue result ↔ (all_bytes filled.entry < 2 ^ 64) }
{
    let mut sum: u64 = 0;
    for object in filled.starts.objects..filled.counts.objects {
        match sum.checked_add(size(filled, object)) {
            Some(more) => sum = more,
            None => return false,
        }
    }
    true
}

/// The byte sizes of the marked objects of the part, added up.
pub fn sum_marked(filled: Filled<'_>, marks: &[u8]) -> u64
    requires { all_bytes filled < 2 ^ 64 }
    ensures { result ≡ marked_bytes filled.entry marks.now }
{
    let mut sum: u64 = 0;
    for object in filled.starts.objects..filled.counts.objects {
        if is_marked(marks, object) {
            sum += size(filled, object);
        }
    }
    sum
}
