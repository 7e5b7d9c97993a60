//! What a value itself holds.
ghost use Rattle.std.specs.Prelude.{◌≡◌};
ghost use Rattle.references.specs.Held.{lists_object, value_held, held_of};

use filled::filled::Filled;
use tables::values::{Fields, ValueKind};

/// What a value itself holds, of what is listed in the part.
#[derive(Clone, Copy, Debug, PartialEq, Eq)]
pub enum Held {
    /// An object, by its number.
    Object(u64),
    /// A value record, by its number, and whether it is held weakly.
    Value(u64, bool),
    /// Neither.
    Nothing,
}

/// The part lists this object.
pub fn lists_object(filled: Filled<'_>, object: u64) -> bool
    ensures { result ≡ lists_object filled.entry object }
{
    filled.starts.objects <= object && object < filled.counts.objects
}

/// The value record of this number, if the part lists it and it is earlier than `bound`.
fn value_held(filled: Filled<'_>, bound: u64, number: u64, weak: bool) -> Held
    ensures { result ≡ value_held filled.entry bound number weak }
{
    if filled.starts.values <= number && number < bound {
        Held::Value(number, weak)
    } else {
        Held::Nothing
    }
}

/// What a value holds: of the objects those that the part lists, of the value records those that
/// it lists before `bound`, which is the value record's own number, or for a slot their count.
pub fn value_holds(filled: Filled<'_>, bound: u64, value: Fields) -> Held
    ensures { result ≡ held_of filled.entry bound value }
{
    if value.kind == ValueKind::Object as u64 && lists_object(filled, value.a) {
        Held::Object(value.a)
    } else if value.kind == ValueKind::Repeat as u64 {
        value_held(filled, bound, value.b, false)
    } else if value.kind == ValueKind::Weak as u64 {
        value_held(filled, bound, value.a, true)
    } else {
        Held::Nothing
    }
}
