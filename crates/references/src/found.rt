//! What each value record of the part refers to, found once for all of them.
ghost use Rattle.std.specs.Prelude.{◌≡◌, ◌+◌, ◌-◌, ◌*◌, ◌^◌, ◌<◌, ◌≤◌, length};
ghost use Rattle.std.specs.Option.{option_map, ForSome};
ghost use Rattle.tables.specs.Records.{slot_of};
ghost use Rattle.references.specs.References.{IsReference, under};
ghost use Rattle.references.specs.Found.{unpacked_of, HasFound};

use crate::held::{Held, value_holds};
use crate::reference::Reference;
use filled::filled::Filled;
use tables::records::{slot_at, value_fields};
use tables::values::Fields;

/// A reference or none as one number, since scratch has one for each value record.
fn packed(reference: Option<Reference>) -> u64
    requires { ForSome reference (λ r. r.object < 2 ^ 62) }
    ensures { unpacked_of result ≡ reference }
{
    match reference {
        Some(reference) => (reference.object + 1) * 2 + reference.weak as u64,
        None => 0,
    }
}

/// The reference that such a number stands for.
fn unpacked(number: u64) -> Option<Reference>
    ensures { result ≡ unpacked_of number }
{
    if number < 2 {
        return None;
    }
    Some(Reference {
        object: number / 2 - 1,
        weak: number % 2 == 1,
    })
}

/// The reference of a value that holds the one that has this, weakly or not.
fn under(reference: Option<Reference>, weak: bool) -> Option<Reference>
    ensures { result ≡ option_map (under weak) reference }
{
    reference.map(|reference| reference.under(weak))
}

/// What a value refers to that may name the value records below `bound`.
fn value_reference(
    filled: Filled<'_>,
    found: &[u64],
    bound: u64,
    value: Fields,
) -> Option<Reference>
    requires room { filled.counts.values - filled.starts.values ≤ length found.now }
    requires within { bound ≤ filled.counts.values }
    requires found { HasFound filled bound found.now }
    ensures { IsReference filled.entry bound value result }
{
    match value_holds(filled, bound, value) {
        Held::Object(object) => Some(Reference {
            object,
            weak: false,
        }),
        Held::Value(number, weak) => {
            under(
                unpacked(found[(number - filled.starts.values) as usize]),
                weak,
            )
        }
        Held::Nothing => None,
    }
}

/// Finds what each value record of the part refers to, in ascending order.
pub fn find_references(filled: Filled<'_>, found: &mut [u64])
    requires { filled.counts.values - filled.starts.values ≤ length found.old }
    ensures { HasFound filled.entry filled.entry.counts.values found.new }
{
    // An object's number is below its table's length, so a packed reference is a number.
    let fits = filled.tables.objects.len() < 1 << 62;
    prove!(fits);
    for number in filled.starts.values..filled.counts.values {
        let value = value_fields(filled.tables.values, number);
        found[(number - filled.starts.values) as usize] = packed(value_reference(
            filled, found, number, value,
        ));
    }
}

/// What slot `slot` of the part refers to, in one step.
pub fn reference_found(filled: Filled<'_>, found: &[u64], slot: u64) -> Option<Reference>
    requires listed { slot < filled.counts.slots }
    requires room { filled.counts.values - filled.starts.values ≤ length found.now }
    requires found { HasFound filled filled.counts.values found.now }
    ensures { IsReference filled.entry filled.entry.counts.values
        (slot_of filled.entry.tables.slots.now slot).value result }
{
    let value = slot_at(filled.tables.slots, slot as usize).value;
    value_reference(filled, found, filled.counts.values, value)
}
