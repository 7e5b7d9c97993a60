//! The tables, their record counts, and the part that is looked at.
ghost use Rattle.std.specs.Prelude.{◌≡◌, ◌≤◌, ◌↔◌, IsTrue, IsOk, IfOk, IfErr};
ghost use Rattle.tables.specs.Records.{room};
ghost use Rattle.refusals.specs.declared.refusal.Refusal.TheVariants.{NoView};
ghost use Rattle.filled.specs.Counts.{Within};
ghost use Rattle.filled.specs.Refused.{refused};

use crate::range::Range;
use crate::refused::Refused;
use refusals::refusal::Refusal;
use tables::records::{ADDRESS_FIELDS, OBJECT_FIELDS, SLOT_FIELDS, VALUE_FIELDS, slot_at};
use tables::values::ValueKind;

/// A number of records of each of the four tables.
#[derive(Clone, Copy, Debug, PartialEq, Eq)]
pub struct Counts {
    pub objects: u64,
    pub slots: u64,
    pub values: u64,
    pub addresses: u64,
}

impl Counts {
    /// Each of these numbers is at most the other's.
    fn is_within(self, most: Counts) -> bool
        ensures { IsTrue result ↔ Within self most }
    {
        self.objects <= most.objects
            && self.slots <= most.slots
            && self.values <= most.values
            && self.addresses <= most.addresses
    }
}

/// The four tables that were lent to the call, at their full length.
#[derive(Clone, Copy)]
pub struct Tables<'a> {
    pub objects: &'a [u64],
    pub slots: &'a [u64],
    pub values: &'a [u64],
    pub addresses: &'a [u64],
}

impl Tables<'_> {
    ghost use Rattle.filled.specs.Rooms.{rooms_of};

    /// How many records each table has room for.
    fn rooms(self) -> Counts
        ensures { result ≡ rooms_of self.entry }
    {
        Counts {
            objects: (self.objects.len() / OBJECT_FIELDS) as u64,
            slots: (self.slots.len() / SLOT_FIELDS) as u64,
            values: (self.values.len() / VALUE_FIELDS) as u64,
            addresses: (self.addresses.len() / ADDRESS_FIELDS) as u64,
        }
    }
}

/// The four tables as a call left them, of which `counts` records are listed. What a call over
/// them looks at is the part from `starts` on: the whole graph where these are zero, or a book
/// that was read after its app.
#[derive(Clone, Copy)]
pub struct Filled<'a> {
    pub tables: Tables<'a>,
    pub starts: Counts,
    pub counts: Counts,
    ghost started: { Within starts counts },
    ghost objects_fit: { counts.objects ≤ room 4 tables.objects.now },
    ghost slots_fit: { counts.slots ≤ room 6 tables.slots.now },
    ghost values_fit: { counts.values ≤ room 3 tables.values.now },
    ghost addresses_fit: { counts.addresses ≤ room 5 tables.addresses.now },
}

impl<'a> Filled<'a> {
    ghost use Rattle.filled.specs.Rooms.{rooms_of};
    ghost use Rattle.filled.specs.RawSlots.{raw_slot};

    /// The one test of counts: refusal 17 where a count is above its table's room, or a start
    /// above its count.
    pub fn new(tables: Tables<'a>, starts: Counts, counts: Counts) -> Result<Self, Refused>
        ensures listed { IsOk result ↔ (Within starts counts × Within counts (rooms_of tables.entry)) }
        ensures tables { IfOk result (λ f. f.tables ≡ tables.entry) }
        ensures starts { IfOk result (λ f. f.starts ≡ starts) }
        ensures counts { IfOk result (λ f. f.counts ≡ counts) }
        ensures refused { IfErr result (λ e. e ≡ refused NoView) }
    {
        if !starts.is_within(counts) || !counts.is_within(tables.rooms()) {
            return Err(Refused::new(Refusal::NoView));
        }
        Ok(Self {
            tables,
            starts,
            counts,
        })
    }

    /// The range of slot `k` of the table, if the slot is listed and raw.
    pub fn raw_slot(self, k: u64) -> Option<Range>
        ensures { result ≡ raw_slot self.entry k }
    {
        if self.counts.slots <= k {
            return None;
        }
        let value = slot_at(self.tables.slots, k as usize).value;
        let raw = value.kind == ValueKind::Raw as u64 || value.kind == ValueKind::RawInPlace as u64;
        raw.then_some(Range {
            begin: value.a,
            len: value.b,
        })
    }
}
