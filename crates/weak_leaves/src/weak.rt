//! Weak references to a leaf, as items of an object.

ghost use Rattle.std.specs.Prelude.{◌≡◌, ◌+◌, ◌^◌, ◌<◌, IfSome, IsNone};
ghost use Rattle.tables.specs.declared.values.SlotValue.{SlotValue};
ghost use Rattle.tables.specs.Records.{room, Countable};
ghost use Rattle.definition.specs.Reference.{reference};
ghost use Rattle.readers.specs.Lent.{input_of, Kept};
ghost use Rattle.readers.specs.Views.{Counts};
ghost use Rattle.leaves.specs.Leaf.{slot_in, item_of, NoLeafAt, ReadAs, ReadByHeads, RefusedAs, lent_reference, RoomyItem, StaysInOrder};
ghost use Rattle.weak_leaves.specs.Weak.{WeakAt, WeakByte};

use heads::kinds::Kind;
use leaves::leaf::{Leaf, enter, leaf_at};
use objects::item::Level;
use readers::state::State;
use readers::walker::{DEEPEST, Walker};
use sheet::numbers::{word_bytes, words_in};
use tables::records::{SLOT_FIELDS, Slot, add_value, append_slot, has_room};
use tables::values::{Fields, SlotValue};

// The leaf after a weak prefix at the cursor, where a slot record has room. A weak reference in an
// object at depth d is one level below it, and the leaf two. The room is tested here, where the
// walker is only read: of a table that a call was lent, the proof knows the length alone.
fn weak_leaf(w: &Walker, s: State, d: usize) -> Option<Leaf>
    ensures there { IfSome result (λ _. WeakByte w.now s.at) }
    ensures is { IfSome result (WeakAt w.now s d) }
    ensures roomy { IfSome result (λ _. s.slots < room 6 w.now.slots.now) }
    ensures none { IsNone result → d < 63 → WeakByte w.now s.at → s.slots < room 6 w.now.slots.now
        → NoLeafAt w.now (s.at + 1) s.objects }
{
    if DEEPEST - 1 <= d {
        return None;
    }
    let head = w.head_at(s.at)?;
    if head.kind != Kind::WeakPrefix || !has_room(w.slots, SLOT_FIELDS, s.slots) {
        return None;
    }
    leaf_at(w, s.at + 1, s.objects)
}

/// Reads a weak reference to a leaf at the cursor as an item, one word wide, of the object that is
/// read at depth `d`: the bytes of the object that have been read then, and the state after it. The
/// leaf becomes a value record.
///
/// `None` only from depth 63 on, where no weak prefix with a leaf's head after it stands at the
/// cursor, where a record has no room, where the definition refuses the item, and where the sum of
/// its bytes could pass 2^64; then nothing is changed.
pub fn place_weak(w: &mut Walker, s: State, d: usize, level: Level) -> Option<(u64, State)>
    requires { Countable w.old.objects.now level.object × Counts s }
    ensures there { IfSome result (λ _. WeakByte w.old s.at) }
    ensures by_heads { IfSome result (ReadByHeads w.old s w.new (λ inner.
        slot_in (input_of w.old) (lent_reference w.old (lent_reference w.old inner))
        level.object level.done)) }
    ensures read { IfSome result (λ r. (d < 63) × ReadAs w.old s w.new (λ inner. slot_in (input_of w.old) (reference (input_of w.old) (reference (input_of w.old) inner)) level.object level.done) r) }
    ensures none { IsNone result → d < 63 → WeakByte w.old s.at → s.slots < room 6 w.old.slots.now
        → RoomyItem w.old s level
        → RefusedAs w.old s (λ inner. item_of w.old level (reference (input_of w.old) inner)) }
    ensures order { StaysInOrder w.old s result w.new }
    ensures kept { Kept w.old w.new }
{
    let leaf = weak_leaf(w, s, d)?;
    let word = word_bytes(w.sheet);
    let start = level.done.checked_add(s.skip)?;
    let end = start.checked_add(word)?;
    let k = s.values;
    let slot = Slot {
        object: level.object as u64,
        index: words_in(w.sheet, start),
        value: Fields::from(SlotValue::WeakRef(k as u64)),
        waits: 0,
    };
    add_value(w.values, k, Fields::from(leaf.value))?;
    append_slot(w.slots, w.objects, s.slots, slot)?;
    enter(&mut w.hot, leaf);
    let t = State {
        at: leaf.next,
        slots: s.slots + 1,
        values: k + 1,
        skip: 0,
        long_integers: s.long_integers + leaf.long_integers,
        ..s
    };
    Some((end, t))
}
