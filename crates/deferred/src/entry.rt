//! A deferred entry: slots of an object that was opened before.

ghost use Rattle.std.specs.Prelude.{true, ◌≡◌, ℕ, ◌+◌, ◌^◌, ◌<◌, ◌≤◌, max};
ghost use Rattle.sheet.specs.Sheet.{is_legacy};
ghost use Rattle.tables.specs.Records.{room, field as field_of};
ghost use Rattle.definition.specs.Memory.{Input, table, word as word_of};
ghost use Rattle.definition.specs.Closing as Closing;
ghost use Rattle.readers.specs.Views.{mem, seen, Counts};
ghost use Rattle.readers.specs.Lent.{input_of, lent_of, Kept, Addressed};
ghost use Rattle.objects.specs.Index.{Indexed, IndexedAfter};
ghost use Rattle.walker.specs.Ready.{Ready, After};
ghost use Rattle.deferred.specs.Entry.{Named, entry_object};

use objects::item::push_slot;
use readers::ints::{read_byte, read_int};
use readers::simple::legacy_backref;
use readers::state::{Answer, State};
use readers::walker::Walker;
use refusals::refusal::Refusal;
use sheet::numbers::word_bytes;
use tables::records::{slot_count, value_fields};
use tables::values::{Fields, Ref, SlotValue, width};
use walker::walk::parse_ref;

// A slot's value in an entry: what a repeat holds, else the value itself.
fn entry_fields(w: &Walker, v: SlotValue) -> Fields
    ensures { (n : ℕ) → result ≡ Closing.entry_fields (table w.now.values.now n) v }
{
    match v {
        SlotValue::Repeat(_, k) => value_fields(w.values, k),
        _ => Fields::from(v),
    }
}

// How many slots an item makes.
fn entry_slots(v: SlotValue, word: u64) -> u64
    requires { (0 < word) × (word ≤ 8) }
    ensures { (x : Input) → word_of x ≡ word → result ≡ Closing.entry_slots x v }
{
    match v {
        SlotValue::Skip(_) => 0,
        _ => (width(v, word) / word).max(1),
    }
}

// How much an item adds to the count.
fn entry_count(v: SlotValue, word: u64) -> u64
    requires { (0 < word) × (word ≤ 8) }
    ensures { (x : Input) → word_of x ≡ word → result ≡ Closing.entry_count x v }
{
    let n = width(v, word);
    match v {
        SlotValue::Skip(_) => n,
        _ => n.max(word),
    }
}

// n slots of object o with the same value, from an index on.
fn add_slots(w: &mut Walker, s: State, o: u64, f: Fields, index: u64, n: u64) -> Answer<()>
    requires { (field_of 4 w.old.objects.now o 3 ≤ s.slots) × (s.slots ≤ room 6 w.old.slots.now) × (s.waiting < 2 ^ 63) × (index ≤ s.slots + 1) }
    ensures is { seen result (lent_of w.new) ≡ Closing.add_slots o f index n (mem s (lent_of w.old)) }
    ensures index { Indexed w.old.slots.now s.slots w.old.pending.now → IndexedAfter result w.new.slots.now w.new.pending.now }
    ensures kept { Kept w.old w.new }
{
    let mut t = s;
    for i in 0..n {
        let (_, u) = push_slot(w, t, o, index + i, f, false)?;
        t = u;
    }
    Ok(((), t))
}

// The index of the first slot that an entry gives object o: its slots go on, after the map's at
// least.
fn first_index(w: &Walker, o: u64) -> u64
    ensures { result ≡ max (field_of 4 w.now.objects.now o 3) 1 }
{
    slot_count(w.objects, o).max(1)
}

// The items of an entry of object o, while the count is below the size.
fn entry_items(w: &mut Walker, s: State, o: u64, size: u64) -> Answer<()>
    requires ready { Ready w.old s }
    requires legacy { (is_legacy w.old.sheet.now ≡ true) × (size < 2 ^ 30) }
    ensures is { seen result (lent_of w.new) ≡ Closing.entry_body (input_of w.old) o size (mem s (lent_of w.old)) }
    ensures after { After w.old result w.new }
{
    let word = word_bytes(w.sheet);
    let mut index = first_index(w, o);
    let mut done: u64 = 1;
    let mut t = s;
    while done < size {
        let (value, u) = parse_ref(w, t, 1)?;
        let n = entry_slots(value, word);
        let f = entry_fields(w, value);
        let ((), y) = add_slots(w, u, o, f, index, n)?;
        t = y;
        index += n;
        done += entry_count(value, word);
    }
    Ok(((), t))
}

// The object that a slot's value is; none where it is anything else.
fn object_of(v: SlotValue) -> Option<u64>
    ensures { Named v result }
{
    match v {
        SlotValue::Ref(Ref::Object(o)) => Some(o),
        _ => None,
    }
}

// The object that an entry names: a new-object byte, then a back-reference of its space. Where that
// names no object, the refusal `NoEntry` has the number 0, as the definition has it there: it only
// ends a legacy closing section, and no call answers it.
fn entry_object(w: &mut Walker, s: State, space: u64) -> Answer<u64>
    requires { Addressed w.old s.addresses × Counts s }
    ensures is { seen result (lent_of w.new) ≡ entry_object (input_of w.old) space (mem s (lent_of w.old)) }
    ensures kept { Kept w.old w.new }
{
    let (_, t) = read_byte(w.payload, s)?;
    let (value, u) = legacy_backref(w, t, space)?;
    let o = object_of(value).ok_or(u.refused(Refusal::NoEntry))?;
    Ok((o, u))
}

/// Reads a deferred entry of a space, at the cursor in a legacy closing section: the slots that it
/// gives an object are added. What it refuses only ends the section, but for a table without room
/// and an address that is too large.
pub fn entry(w: &mut Walker, s: State, space: u64) -> Answer<()>
    requires ready { Ready w.old s }
    requires legacy { is_legacy w.old.sheet.now ≡ true }
    ensures is { seen result (lent_of w.new) ≡ Closing.entry (input_of w.old) space (mem s (lent_of w.old)) }
    ensures after { After w.old result w.new }
{
    let (o, t) = entry_object(w, s, space)?;
    let (size, u) = read_int(w.payload, t)?;
    entry_items(w, u, o, size)
}
