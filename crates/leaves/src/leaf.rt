//! Leaves: the commonest references that hold no other, read so that a slot with one of them costs
//! little. They are a root, a hot place, a back-reference by plain index (as an item of an object a
//! legacy one too), a read-only reference and fixed raw data.
//!
//! Where one of these is refused there is no leaf, with nothing changed: the readers of every
//! reference then read it again, and say which refusal it is and where the cursor stands. Leaves
//! are read by places alone, since real payloads took several times as long when each step passed
//! on a whole state (docs/BENCHMARKS.md).

ghost use Rattle.std.specs.Prelude.{◌≡◌, List, ℕ, ◌+◌, ◌*◌, ◌^◌, ◌<◌, length, get_or, true, IfSome, IsNone};
ghost use Rattle.sheet.specs.Sheet.{word_bytes};
ghost use Rattle.heads.specs.Heads.{head_at};
ghost use Rattle.heads.specs.declared.kinds.Kind.TheVariants.{Backref, Hot, RootArray, ReadOnly, FixedRaw, LegacyBackref};
ghost use Rattle.tables.specs.Records.{Countable};
ghost use Rattle.tables.specs.declared.values.SlotValue.{SlotValue};
ghost use Rattle.tables.specs.declared.values.SlotValue.TheVariants.{Ref as IsRef};
ghost use Rattle.backref.specs.declared.hot_ring.HotRing.{HotRing};
ghost use Rattle.definition.specs.Reference.{reference as referenceOf};
ghost use Rattle.readers.specs.Lent.{input_of, Kept, Addressed};
ghost use Rattle.leaves.specs.Leaf.{Found, Missing, LeafAt, LeafByte, NoLeafAt, begins_leaf, begins_item, RefusedAs, ItemByte, RoomyItem, item_of, kind_at, argument_at, FoundIn, MissingIn, StaysInOrder, ReadAs, ReadByHeads, lent_reference, slot_in, ring_with};
ghost use Rattle.readers.specs.Views.{Counts};

use backref::hot_ring::HotRing;
use backref::legacy::is_single;
use heads::heads::Head;
use heads::kinds::Kind;
use objects::item::Level;
use readers::simple::{find_place, find_single};
use readers::state::State;
use readers::walker::{DEEPEST, Walker};
use sheet::numbers::{word_bytes, words_in};
use stream::bytes::raw;
use stream::putint::putint;
use tables::records::{Slot, append_slot};
use tables::values::{Fields, Raw, Ref, SlotValue};

/// A reference that was read at a place.
#[derive(Clone, Copy)]
pub struct Leaf {
    /// What it is.
    pub value: SlotValue,
    /// Its bytes as an item of an object.
    pub width: u64,
    /// The place after it in the payload.
    pub next: usize,
    /// It enters the hot ring.
    pub enters: bool,
    /// How many of its integers are longer than their values need.
    pub long_integers: u64,
}

// A reference, which is one word wide.
fn reference(r: Ref, next: usize, word: u64, enters: bool, long_integers: u64) -> Leaf
    ensures { result ≡ record { value = IsRef r; width = word; next = next; enters = enters; long_integers = long_integers } }
{
    Leaf {
        value: SlotValue::Ref(r),
        width: word,
        next,
        enters,
        long_integers,
    }
}

// A reference at a place of the hot ring.
#[tactic(auto, unfolding(backref::specs::HotRing::hot_at))]
#[inline(always)]
fn hot_leaf(hot: &HotRing, place: usize, next: usize, word: u64) -> Option<Leaf>
    ensures some { (p : List ℕ) (objects : ℕ)
        → Found p hot.now objects word next Hot place result }
    ensures none { IsNone result → (p : List ℕ) (objects : ℕ)
        → Missing p hot.now objects word next Hot place }
{
    let r = (*hot.places.get(place)?)?;
    Some(reference(r, next, word, false, 0))
}

// An object by plain index, which enters the ring.
#[inline(always)]
fn back_leaf(p: &[u8], at: usize, objects: usize, word: u64) -> Option<Leaf>
    ensures some { (hot : HotRing) (i : ℕ) → Found p.now hot objects word at Backref i result }
    ensures none { IsNone result → (hot : HotRing) (i : ℕ)
        → Missing p.now hot objects word at Backref i }
{
    let i = putint(p, at)?;
    if objects as u64 <= i.value as u64 {
        return None;
    }
    let long = u64::from(i.is_long());
    Some(reference(Ref::Object(i.value as u64), at + i.count, word, true, long))
}

// A root by integer, which enters the ring.
#[inline(always)]
fn root_array_leaf(p: &[u8], at: usize, word: u64) -> Option<Leaf>
    ensures some { (hot : HotRing) (objects i : ℕ)
        → Found p.now hot objects word at RootArray i result }
    ensures none { IsNone result → (hot : HotRing) (objects i : ℕ)
        → Missing p.now hot objects word at RootArray i }
{
    let i = putint(p, at)?;
    let long = u64::from(i.is_long());
    Some(reference(Ref::Root(i.value as u64), at + i.count, word, true, long))
}

// A read-only reference.
#[inline(always)]
fn read_only_leaf(p: &[u8], at: usize, word: u64) -> Option<Leaf>
    ensures some { (hot : HotRing) (objects i : ℕ)
        → Found p.now hot objects word at ReadOnly i result }
    ensures none { IsNone result → (hot : HotRing) (objects i : ℕ)
        → Missing p.now hot objects word at ReadOnly i }
{
    let chunk = putint(p, at)?;
    let next = at + chunk.count;
    let offset = putint(p, next)?;
    let end = next + offset.count;
    let long = u64::from(chunk.is_long()) + u64::from(offset.is_long());
    let r = Ref::RoRef(chunk.value as u64, offset.value as u64);
    Some(reference(r, end, word, false, long))
}

// Fixed raw data of n words.
#[inline(always)]
fn raw_leaf(p: &[u8], at: usize, n: u64, word: u64) -> Option<Leaf>
    requires { (n < 65536) × (word < 65536) }
    ensures some { (hot : HotRing) (objects : ℕ)
        → Found p.now hot objects word at FixedRaw n result }
    ensures none { IsNone result → (hot : HotRing) (objects : ℕ)
        → Missing p.now hot objects word at FixedRaw n }
{
    let bytes = n * word;
    let next = raw(p, at, bytes as usize)?;
    Some(Leaf {
        value: SlotValue::Raw(Raw {
            off: at as u64,
            len: bytes,
            advances: true,
        }),
        width: bytes,
        next,
        enters: false,
        long_integers: 0,
    })
}

// The leaf that a head begins; `at` is the place after the head.
#[inline(always)]
fn leaf_of(w: &Walker, head: Head, at: usize, objects: usize) -> Option<Leaf>
    ensures kind { IfSome result (λ _. begins_leaf head.kind ≡ true) }
    ensures some { Found w.now.payload.now w.now.hot objects (word_bytes w.now.sheet.now) at
        head.kind head.argument result }
    ensures none { IsNone result → begins_leaf head.kind ≡ true
        → Missing w.now.payload.now w.now.hot objects (word_bytes w.now.sheet.now) at
        head.kind head.argument }
{
    let p = w.payload;
    let word = word_bytes(w.sheet);
    let a = head.argument as u64;
    match head.kind {
        Kind::Backref => back_leaf(p, at, objects, word),
        Kind::Hot => hot_leaf(&w.hot, a as usize, at, word),
        Kind::RootArray => root_array_leaf(p, at, word),
        Kind::RootConstant => Some(reference(Ref::Root(a), at, word, false, 0)),
        Kind::ReadOnly => read_only_leaf(p, at, word),
        Kind::FixedRaw => raw_leaf(p, at, a, word),
        _ => None,
    }
}

/// The leaf whose head stands at place `at`, where so many objects are listed; no legacy
/// back-reference is looked for. `None` only where the payload has ended, where the head is of no
/// leaf's kind, and where the definition refuses the reference (the clause `none`).
#[inline(always)]
pub fn leaf_at(w: &Walker, at: usize, objects: usize) -> Option<Leaf>
    ensures some { LeafAt w.now at objects result }
    ensures there { IfSome result (λ _. LeafByte w.now at) }
    ensures none { IsNone result → LeafByte w.now at → NoLeafAt w.now at objects }
{
    leaf_of(w, w.head_at(at)?, at + 1, objects)
}

// A legacy back-reference to a space, which enters the ring; `at` is the place after its head.
#[inline(always)]
fn legacy_leaf(w: &Walker, s: State, at: usize, space: u64) -> Option<Leaf>
    requires addressed { Addressed w.now s.addresses }
    ensures some { FoundIn w.now s at LegacyBackref space result }
    ensures none { IsNone result → MissingIn w.now s at LegacyBackref space }
{
    let word = word_bytes(w.sheet);
    let first = putint(w.payload, at)?;
    let next = at + first.count;
    let long = u64::from(first.is_long());
    if is_single(w.sheet, space) {
        let r = find_single(w, s, space, first.value)?;
        return Some(reference(r, next, word, true, long));
    }
    let second = putint(w.payload, next)?;
    let r = find_place(w, s, space, first.value, second.value);
    let longs = long + u64::from(second.is_long());
    Some(reference(r, next + second.count, word, true, longs))
}

// The leaf at the cursor, a legacy back-reference too.
fn any_leaf(w: &Walker, s: State) -> Option<Leaf>
    requires addressed { Addressed w.now s.addresses }
    ensures there { IfSome result (λ _. (s.at < length w.now.payload.now) × (get_or w.now.payload.now s.at 0 < 256)) }
    ensures kind { IfSome result (λ _. begins_item (kind_at w.now s.at) ≡ true) }
    ensures found { FoundIn w.now s (s.at + 1) (kind_at w.now s.at)
        (argument_at w.now s.at) result }
    ensures none { IsNone result → ItemByte w.now s.at
        → MissingIn w.now s (s.at + 1) (kind_at w.now s.at) (argument_at w.now s.at) }
{
    let head = w.head_at(s.at)?;
    match head.kind {
        Kind::NewObject => None,
        Kind::LegacyBackref => legacy_leaf(w, s, s.at + 1, head.argument as u64),
        _ => leaf_of(w, head, s.at + 1, s.objects),
    }
}

/// Puts the leaf into the hot ring, if it is one that enters it.
#[inline(always)]
pub fn enter(hot: &mut HotRing, leaf: Leaf)
    ensures { hot.new ≡ ring_with leaf.enters leaf.value hot.old }
{
    if leaf.enters {
        if let SlotValue::Ref(r) = leaf.value {
            hot.add(r);
        }
    }
}

/// Reads the leaf at the cursor as a reference: its value, and the state after it. `None` as in
/// `leaf_at` (`no_leaf`, `none`); then nothing is changed.
pub fn take_leaf(w: &mut Walker, s: State) -> Option<(SlotValue, State)>
    requires { Counts s }
    ensures there { IfSome result (λ _. LeafByte w.old s.at) }
    ensures by_heads { IfSome result (ReadByHeads w.old s w.new (lent_reference w.old)) }
    ensures read { IfSome result (ReadAs w.old s w.new (referenceOf (input_of w.old))) }
    ensures no_leaf { IsNone result → LeafByte w.old s.at → NoLeafAt w.old s.at s.objects }
    ensures none { IsNone result → LeafByte w.old s.at
        → RefusedAs w.old s (referenceOf (input_of w.old)) }
    ensures order { StaysInOrder w.old s result w.new }
    ensures kept { Kept w.old w.new }
{
    let leaf = leaf_at(w, s.at, s.objects)?;
    enter(&mut w.hot, leaf);
    let t = State {
        at: leaf.next,
        long_integers: s.long_integers + leaf.long_integers,
        ..s
    };
    Some((leaf.value, t))
}

/// Reads the leaf at the cursor as an item of the object that is read at depth `d`: the bytes of
/// the object that have been read then, and the state after the item. Legacy back-references are
/// leaves here.
///
/// `None` only at depth 64, where no head of these kinds stands at the cursor, where the definition
/// refuses the item (its slot's room included), and where the sum of its bytes could pass 2^64;
/// then nothing is changed.
pub fn place_leaf(w: &mut Walker, s: State, d: usize, level: Level) -> Option<(u64, State)>
    requires { Countable w.old.objects.now level.object × Addressed w.old s.addresses × Counts s }
    ensures there { IfSome result (λ _. ItemByte w.old s.at) }
    ensures by_heads { IfSome result (ReadByHeads w.old s w.new
        (λ inner. slot_in (input_of w.old) (lent_reference w.old inner) level.object level.done)) }
    ensures read { IfSome result (λ r. (d < 64) × ReadAs w.old s w.new (λ inner. slot_in (input_of w.old) (referenceOf (input_of w.old) inner) level.object level.done) r) }
    ensures none { IsNone result → d < 64 → ItemByte w.old s.at → RoomyItem w.old s level
        → RefusedAs w.old s (item_of w.old level) }
    ensures order { StaysInOrder w.old s result w.new }
    ensures kept { Kept w.old w.new }
{
    if DEEPEST <= d {
        return None;
    }
    let leaf = any_leaf(w, s)?;
    let start = level.done.checked_add(s.skip)?;
    let end = start.checked_add(leaf.width)?;
    let slot = Slot {
        object: level.object as u64,
        index: words_in(w.sheet, start),
        value: Fields::from(leaf.value),
        waits: 0,
    };
    append_slot(w.slots, w.objects, s.slots, slot)?;
    enter(&mut w.hot, leaf);
    let t = State {
        at: leaf.next,
        slots: s.slots + 1,
        skip: 0,
        long_integers: s.long_integers + leaf.long_integers,
        ..s
    };
    Some((end, t))
}
