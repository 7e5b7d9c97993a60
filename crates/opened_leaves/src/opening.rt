//! Objects whose map is a leaf, with their head, their map and their address.

ghost use Rattle.std.specs.Prelude.{true, false, ℕ, ◌≡◌, ◌+◌, ◌*◌, ◌^◌, ◌<◌, ◌≤◌, IfSome, IsNone};
ghost use Rattle.sheet.specs.Sheet.{usable};
ghost use Rattle.tables.specs.Records.{room};
ghost use Rattle.address_index.specs.Links.{Linked};
ghost use Rattle.definition.specs.Reference.{reference};
ghost use Rattle.readers.specs.Views.{Counts};
ghost use Rattle.readers.specs.Lent.{input_of, PendingKept, Untouched};
ghost use Rattle.objects.specs.Index.{Indexed};
ghost use Rattle.leaves.specs.Leaf.{NoLeafAt, ReadAs, ReadByHeads, RefusedAs, lent_reference};
ghost use Rattle.opened_leaves.specs.Opening.{opened, object_of, MapAt, MapByte, OpenedAt, RoomyTables, AddressGiven};

use leaves::leaf::{Leaf, enter, leaf_at};
use objects::head::NewObject;
use objects::map::{allocate_object, is_flagged};
use readers::state::State;
use readers::walker::{DEEPEST, Walker};
use sheet::numbers::{legacy, map_first, six_x, word_bytes};
use stream::putint::{Int, putint};
use tables::records::{OBJECT_FIELDS, SLOT_FIELDS, Slot, add_object, append_slot, has_room};
use tables::values::Fields;

// The size and the map of an object after whose head the cursor stands, where the map is a
// leaf that the trusted list does not flag. Sheets in which a large object has a byte after its
// size or the map comes before the address are left to the readers of every object.
#[inline(always)]
fn map_at(w: &Walker, s: State) -> Option<(Int, Leaf)>
    requires { s.objects < 2 ^ 63 }
    ensures some { IfSome result (λ r. MapAt w.now s r.0 r.1) }
    ensures none { IsNone result → (count : ℕ) → MapByte w.now s count
        → NoLeafAt w.now (s.at + count) (s.objects + 1) }
{
    if six_x(w.sheet) || map_first(w.sheet) {
        return None;
    }
    let size = putint(w.payload, s.at)?;
    let map = leaf_at(w, s.at + size.count, s.objects + 1)?;
    if is_flagged(w.trusted, map.value) {
        return None;
    }
    Some((size, map))
}

// In a legacy sheet an address record of object o of so many bytes; in others an object has none.
// Where it is refused, nothing is changed, and the readers of every object say which refusal it is.
fn give_address(w: &mut Walker, s: State, space: u64, bytes: u64, o: u64) -> Option<State>
    requires { (usable w.old.sheet.now ≡ true) × (space < 256) × (bytes < 2 ^ 33) × Linked w.old.addresses.now s.addresses w.old.index.now }
    ensures { AddressGiven w.old s space bytes o result w.new }
{
    if !legacy(w.sheet) {
        return Some(s);
    }
    let ((), t) = allocate_object(w, s, space, bytes, o).ok()?;
    Some(t)
}

// There is room for one more object and one more slot. The walker is only read here: of a table
// that a call was lent, the proof knows the length alone.
#[inline(always)]
fn records_fit(w: &Walker, s: State) -> bool
    ensures fit { result ≡ true → RoomyTables w.now s }
    ensures full { result ≡ false → RoomyTables w.now s → ⊥ }
{
    has_room(w.objects, OBJECT_FIELDS, s.objects) && has_room(w.slots, SLOT_FIELDS, s.slots)
}

/// Opens the object after whose head the cursor stands, at depth `d`, where its map is a leaf: its
/// record, its map in slot 0 and its address. Gives its declared bytes, and the state after its
/// map; resolves that follow are the caller's.
///
/// `None` only at depth 64, where no size with a leaf's head after it stands there, where a root is
/// flagged, where a record has no room, where the definition refuses, and in legacy sheets; then
/// nothing is changed. What the function finds in a legacy sheet is left free: there an address is
/// given too, and the walk's answer is the same either way.
#[inline(always)]
pub fn open_leaf(w: &mut Walker, s: State, d: usize, new: NewObject) -> Option<(u64, State)>
    requires usable { (usable w.old.sheet.now ≡ true) × (new.space < 256) × (s.objects < 2 ^ 63) × Counts s }
    requires linked_before { Linked w.old.addresses.now s.addresses w.old.index.now }
    ensures there { IfSome result (λ _. OpenedAt w.old s) }
    ensures by_heads { IfSome result (ReadByHeads w.old s w.new (λ inner.
        opened (input_of w.old) (lent_reference w.old inner) new.space new.tag s.objects)) }
    ensures read { IfSome result (λ r. (d < 64) × (r.0 < 2 ^ 33) × (s.objects < r.1.objects) × ReadAs w.old s w.new (λ inner. opened (input_of w.old) (reference (input_of w.old) inner) new.space new.tag s.objects) r) }
    ensures linked { IfSome result (λ r. Linked w.new.addresses.now r.1.addresses w.new.index.now) }
    ensures indexed { IfSome result (λ r. Indexed w.old.slots.now s.slots w.old.pending.now → Indexed w.new.slots.now r.1.slots w.new.pending.now) }
    ensures none { IsNone result → Untouched w.old w.new }
    ensures found { IsNone result → d < 64 → (count : ℕ) → MapByte w.old s count → RoomyTables w.old s
        → RefusedAs w.old s (object_of w.old s new) }
    ensures rest { PendingKept w.old w.new }
{
    if DEEPEST <= d {
        return None;
    }
    let o = s.objects;
    let (size, map) = map_at(w, s)?;
    if !records_fit(w, s) {
        return None;
    }
    let words = size.value as u64;
    let bytes = words * word_bytes(w.sheet);
    let t = give_address(w, s, new.space, bytes, o as u64)?;
    let slot = Slot {
        object: o as u64,
        index: 0,
        value: Fields::from(map.value),
        waits: 0,
    };
    add_object(w.objects, o, bytes, new.tag as u64)?;
    append_slot(w.slots, w.objects, s.slots, slot)?;
    enter(&mut w.hot, map);
    let u = State {
        at: map.next,
        objects: o + 1,
        slots: s.slots + 1,
        long_integers: s.long_integers + u64::from(size.is_long()) + map.long_integers,
        ..t
    };
    Some((bytes, u))
}
