//! The object that a value refers to, through value records that are each earlier than the one
//! that names them.
ghost use Rattle.std.specs.Prelude.{◌≡◌, ◌<◌, ◌≤◌};
ghost use Rattle.std.specs.Option.{option_map};
ghost use Rattle.tables.specs.Records.{slot_of};
ghost use Rattle.references.specs.References.{IsReference, under};

use crate::held::{Held, value_holds};
use filled::filled::Filled;
use tables::records::{slot_at, value_fields};

/// An object that is referred to, and whether a weak value stands on the way to it.
#[derive(Clone, Copy, Debug, PartialEq, Eq)]
pub struct Reference {
    pub object: u64,
    pub weak: bool,
}

impl Reference {
    /// The same reference, of a value that holds the one that has it, weakly or not.
    pub fn under(self, weak: bool) -> Reference
        ensures { result ≡ under weak self }
    {
        Reference {
            object: self.object,
            weak: self.weak || weak,
        }
    }
}

/// What slot `slot` of the part refers to: one value record after the other, without scratch.
pub fn slot_reference(filled: Filled<'_>, slot: u64) -> Option<Reference>
    requires { slot < filled.counts.slots }
    ensures { IsReference filled.entry filled.entry.counts.values
        (slot_of filled.entry.tables.slots.now slot).value result }
{
    let mut value = slot_at(filled.tables.slots, slot as usize).value;
    let mut bound = filled.counts.values;
    let mut weak = false;
    'chain: loop {
        match value_holds(filled, bound, value) {
            Held::Object(object) => return Some(Reference { object, weak }),
            Held::Value(number, held_weakly) => {
                value = value_fields(filled.tables.values, number);
                bound = number;
                weak = weak || held_weakly;
            }
            Held::Nothing => return None,
        }
    }
}
