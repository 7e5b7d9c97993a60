//! One case: its call, and what is frozen of the answer.
ghost use Rattle.std.specs.Prelude.{◌≡◌, ◌≢◌, ◌≤◌, ◌↔◌, [], ◌∷◌, IsTrue, IfOk, vec_len};
ghost use Rattle.std.specs.Option.{unwrap_or};
ghost use Rattle.cache_graph.specs.Promise.{entered, rooms_of, answer, Reads};
ghost use Rattle.vectors.specs.Answered.{numbers_of, Called};
ghost use Rattle.vectors.specs.Numbers.{IsFrozen, after_numbers, after_table, first_number, numbers, places};

use crate::numbers::Numbers;
use crate::report::Differences;
use cache_graph::parse::{Call, Graph, Refused, Tables, parse_with};
use std::alloc::{AllocError, Global};
use std::iter::repeat;

/// What a case enters and lends.
#[derive(Drop)]
pub struct Case {
    /// The number of its family.
    pub family: u64,
    sheet: Vec<u16>,
    payload: Vec<u8>,
    reservations: Vec<u32>,
    trusted: Vec<u8>,
    objects: Vec<u64>,
    slots: Vec<u64>,
    values: Vec<u64>,
    addresses: Vec<u64>,
}

/// The outcome of a call, as the file of cases has it.
#[derive(Clone, Copy, PartialEq, Eq)]
pub struct Outcome {
    /// The refusal's number, or 0.
    pub number: u64,
    /// The four record counts; 0 after a refusal.
    pub objects: u64,
    pub slots: u64,
    pub values: u64,
    pub addresses: u64,
    /// The cursor at the finish; 0 after a refusal.
    pub end: u64,
    /// The refusal's place; 0 where the call accepted.
    pub place: u64,
    /// How many integers were longer than their values need; 0 after a refusal.
    pub long_integers: u64,
}

impl From<Result<Graph, Refused>> for Outcome {
    ghost from_gives = { λ r o. numbers_of o ≡ answer r };

    fn from(answered: Result<Graph, Refused>) -> Outcome {
        match answered {
            Ok(g) => Outcome {
                number: 0,
                objects: g.objects,
                slots: g.slots,
                values: g.values,
                addresses: g.addresses,
                end: g.end,
                place: 0,
                long_integers: g.long_integers,
            },
            Err(e) => Outcome {
                number: e.refusal.number(),
                objects: 0,
                slots: 0,
                values: 0,
                addresses: 0,
                end: 0,
                place: e.place,
                long_integers: 0,
            },
        }
    }
}

// So many numbers of a sheet in the file of sheets, which has 59 of two bytes for each; zeros where
// it ends. Sheet 500 and later are read as sheet 0.
fn sheet(alloc: Global, sheets: &[u8], which: u64, len: usize) -> Result<Vec<u16>, AllocError>
    ensures { IfOk result (λ v. vec_len v ≡ len) }
{
    let start = if which < 500 { which as usize * 118 } else { 0 };
    let (pairs, _) = sheets.get(start..).unwrap_or(&[]).as_chunks::<2>();
    pairs
        .iter()
        .map(|x| u16::from_le_bytes(*x))
        .chain(repeat(0))
        .take(len)
        .collect(alloc)
}

// A table with the frozen room, full of numbers that the call has to clear.
fn table(alloc: Global, numbers: &mut Numbers<'_>) -> Result<Vec<u64>, AllocError> {
    vec![in alloc; 7u64; numbers.length(2048)]
}

/// Reads the frozen outcome.
pub fn read_outcome(cases: &mut Numbers<'_>) -> Outcome
    ensures fields { result.number ∷ result.objects ∷ result.slots ∷ result.values ∷ result.addresses ∷ result.end ∷ result.place ∷ result.long_integers ∷ [] ≡ numbers 8 cases.old.0.now }
    ensures rest { cases.new.0.now ≡ after_numbers 8 cases.old.0.now }
{
    Outcome {
        number: cases.number(),
        objects: cases.number(),
        slots: cases.number(),
        values: cases.number(),
        addresses: cases.number(),
        end: cases.number(),
        place: cases.number(),
        long_integers: cases.number(),
    }
}

// A call, with scratch of 512 numbers. What that holds before could be the number of a slot or of a
// record.
fn called(
    call: Call<'_>,
    objects: &mut [u64],
    slots: &mut [u64],
    values: &mut [u64],
    addresses: &mut [u64],
) -> Outcome
    ensures { Reads (entered call.entry) (rooms_of objects.old slots.old values.old addresses.old) (numbers_of result) objects.new slots.new values.new addresses.new }
{
    let mut scratch = [7u64; 512];
    let mut tables = Tables {
        objects,
        slots,
        values,
        addresses,
        scratch: &mut scratch,
    };
    Outcome::from(parse_with(call, &mut tables))
}

impl Case {
    /// Reads what stands before the frozen outcome. An error is memory that was refused.
    pub fn read(numbers: &mut Numbers<'_>, alloc: Global, sheets: &[u8]) -> Result<Case, AllocError>
        ensures family { IfOk result (λ c. c.family ≡ unwrap_or (first_number numbers.old.0.now) 0) }
        ensures sheet { IfOk result (λ c. vec_len c.sheet ≤ 59) }
        ensures payload { IfOk result (λ c. vec_len c.payload ≤ 512) }
        ensures reservations { IfOk result (λ c. vec_len c.reservations ≤ 16) }
        ensures trusted { IfOk result (λ c. vec_len c.trusted ≤ 64) }
    {
        let family = numbers.number();
        let which = numbers.number();
        let len = numbers.length(59);
        Ok(Case {
            family,
            sheet: sheet(alloc, sheets, which, len)?,
            payload: numbers.list(alloc, 512)?,
            reservations: numbers.list(alloc, 16)?,
            trusted: numbers.list(alloc, 64)?,
            objects: table(alloc, numbers)?,
            slots: table(alloc, numbers)?,
            values: table(alloc, numbers)?,
            addresses: table(alloc, numbers)?,
        })
    }

    /// Calls the reader on the case's tables.
    pub fn call(&mut self) -> Outcome
        ensures { Called self.old result self.new }
    {
        let call = Call {
            sheet: &self.sheet,
            payload: &self.payload,
            reservations: &self.reservations,
            trusted: &self.trusted,
        };
        called(
            call,
            &mut self.objects,
            &mut self.slots,
            &mut self.values,
            &mut self.addresses,
        )
    }

    /// Compares what the call gave with what is frozen, whose tables are read from `numbers`.
    pub fn differences(&self, o: Outcome, frozen: Outcome, numbers: &mut Numbers<'_>) -> Differences
        ensures outcome { IsTrue result.outcome ↔ (o ≢ frozen) }
        ensures objects { IsTrue result.objects ↔ ¬ IsFrozen numbers.old.0.now (places frozen.objects 4) self.now.objects.items }
        ensures slots { let a = after_table numbers.old.0.now (places frozen.objects 4) self.now.objects.items in
            IsTrue result.slots ↔ ¬ IsFrozen a (places frozen.slots 6) self.now.slots.items }
        ensures values { let a = after_table numbers.old.0.now (places frozen.objects 4) self.now.objects.items in
            let b = after_table a (places frozen.slots 6) self.now.slots.items in
            IsTrue result.values ↔ ¬ IsFrozen b (places frozen.values 3) self.now.values.items }
        ensures addresses { let a = after_table numbers.old.0.now (places frozen.objects 4) self.now.objects.items in
            let b = after_table a (places frozen.slots 6) self.now.slots.items in
            let c = after_table b (places frozen.values 3) self.now.values.items in
            IsTrue result.addresses ↔ ¬ IsFrozen c (places frozen.addresses 5) self.now.addresses.items }
    {
        // How wide the records are is said by number, as C knows the tables.
        Differences {
            outcome: o != frozen,
            objects: !numbers.is_frozen(&self.objects, frozen.objects, 4),
            slots: !numbers.is_frozen(&self.slots, frozen.slots, 6),
            values: !numbers.is_frozen(&self.values, frozen.values, 3),
            addresses: !numbers.is_frozen(&self.addresses, frozen.addresses, 5),
        }
    }
}
