//! Slots and items of an object (docs/FORMAT.md, "Slot items").

ghost use Rattle.std.specs.Prelude.{◌≡◌, ◌^◌, ◌<◌, ◌≤◌, IsTrue};
ghost use Rattle.std.specs.Int.{from_bool};
ghost use Rattle.tables.specs.Records.{room, Countable};
ghost use Rattle.definition.specs.Memory.{table};
ghost use Rattle.definition.specs.Slots.{waits_of, previous, repeat_previous, keep_item, place_item};
ghost use Rattle.readers.specs.Views.{mem, seen};
ghost use Rattle.readers.specs.Lent.{input_of, lent_of, IndexKept, Kept};
ghost use Rattle.objects.specs.Index.{Indexed, IndexedAfter};
ghost use Rattle.objects.specs.Item.{slot_of, ItemFits};

use crate::pending::note;
use readers::prefix::push_value;
use readers::state::{Answer, State};
use readers::walker::Walker;
use refusals::refusal::Refusal;
use sheet::numbers::{word_bytes, words_in};
use tables::records::{Slot, append_slot, slot_at};
use tables::values::{Fields, SlotValue, width};

/// An object that is being read.
#[derive(Clone, Copy, Default)]
pub struct Level {
    /// Its number, the place of its record among the objects.
    pub object: usize,
    /// Its declared bytes.
    pub size: u64,
    /// How many of them have been read.
    pub done: u64,
    /// The place of its head in the payload.
    pub tag: usize,
}

/// Appends a slot record of object `o`, at an index in words, and counts it in the object's slot
/// count: the record's number. Refused where there is no room for the record.
#[tactic(auto, unfolding(definition::specs::Slots::add_slot))]
pub fn push_slot(
    w: &mut Walker,
    s: State,
    o: u64,
    index: u64,
    value: Fields,
    waits: bool,
) -> Answer<usize>
    requires { Countable w.old.objects.now o × (IsTrue waits → s.waiting < 2 ^ 63) }
    ensures is { seen result (lent_of w.new) ≡ slot_of o index value (from_bool waits) (mem s (lent_of w.old)) }
    ensures kept { Kept w.old w.new }
{
    let n = s.slots;
    let waits = u64::from(waits);
    let slot = Slot {
        object: o,
        index,
        value,
        waits,
    };
    append_slot(w.slots, w.objects, n, slot).ok_or(s.refused(Refusal::NoRoom))?;
    let t = State {
        slots: n + 1,
        waiting: s.waiting + waits,
        ..s
    };
    Ok((n, t))
}

// The value of the previous slot. The walker is only read here: of a table that a call was lent,
// the proof knows the length alone.
fn previous(w: &Walker, s: State) -> Fields
    requires { (0 < s.slots) × (s.slots ≤ room 6 w.now.slots.now) }
    ensures { result ≡ previous (table w.now.slots.now s.slots) }
{
    slot_at(w.slots, s.slots - 1).value
}

// The previous slot's value as a value record, for a 6.x repeat: its number.
fn keep_previous(w: &mut Walker, s: State) -> Answer<u64>
    requires { (0 < s.slots) × (s.slots ≤ room 6 w.old.slots.now) }
    ensures is { seen result (lent_of w.new) ≡ repeat_previous (mem s (lent_of w.old)) }
    ensures kept { Kept w.old w.new }
{
    let value = previous(w, s);
    push_value(w, s, value)
}

// An item that becomes a slot, after the with-skip amount that stands: the bytes of the object that
// have been read then.
#[tactic(auto, unfolding(definition::specs::Slots::keep_item))]
#[inline(always)]
fn keep_item(w: &mut Walker, s: State, level: Level, v: SlotValue) -> Answer<u64>
    requires fits { ItemFits w.old s level v }
    requires indexed { Indexed w.old.slots.now s.slots w.old.pending.now }
    ensures is { seen result (lent_of w.new) ≡ keep_item (input_of w.old) level.object level.done v (mem s (lent_of w.old)) }
    ensures index { IndexedAfter result w.new.slots.now w.new.pending.now }
    ensures rest { IndexKept w.old w.new }
{
    let word = word_bytes(w.sheet);
    let start = level.done + s.skip;
    let end = start + width(v, word);
    let o = level.object as u64;
    let index = words_in(w.sheet, start);
    let (k, t) = push_slot(w, s, o, index, Fields::from(v), waits_of(v))?;
    if let SlotValue::PendingRef(number) = v {
        note(w.pending, number, k as u64 + 1);
    }
    Ok((end, State { skip: 0, ..t }))
}

// A value that waits as a slot.
fn waits_of(v: SlotValue) -> bool
    ensures { from_bool result ≡ waits_of v }
{
    matches!(v, SlotValue::PendingRef(_))
}

/// An item of an object, from the value that was read: the bytes of the object that have been read
/// then. A skip moves on by its bytes, stream bytes by none, a repeat of the previous slot becomes
/// a value record first, and every other value becomes a slot. Refused where a record has no room.
#[tactic(auto, unfolding(definition::specs::Slots::place_item))]
pub fn place_item(w: &mut Walker, s: State, level: Level, v: SlotValue) -> Answer<u64>
    requires fits { ItemFits w.old s level v }
    requires slots_nonzero { (0 < s.slots) × (s.slots ≤ room 6 w.old.slots.now) }
    requires indexed { Indexed w.old.slots.now s.slots w.old.pending.now }
    ensures is { seen result (lent_of w.new) ≡ place_item (input_of w.old) level.object level.done v (mem s (lent_of w.old)) }
    ensures index { IndexedAfter result w.new.slots.now w.new.pending.now }
    ensures rest { IndexKept w.old w.new }
{
    let passed = State { skip: 0, ..s };
    match v {
        SlotValue::Skip(n) => Ok((level.done + n as u64, passed)),
        SlotValue::StreamBytes(_) => Ok((level.done, passed)),
        SlotValue::RepeatPrev(n) => {
            let (k, t) = keep_previous(w, s)?;
            keep_item(w, t, level, SlotValue::Repeat(n, k))
        }
        _ => keep_item(w, s, level, v),
    }
}
