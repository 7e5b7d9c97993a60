//! A reference, its object and the items of that object. The depth of a reference is at most 64;
//! a deeper one is refused.
//!
//! The commonest references are read by `leaves`, `weak_leaves` and `opened_leaves`, with no call
//! of the cycle. A state that is handed to a function which stays a call is copied for it, and what
//! that function answers is taken apart: else the state would stand in memory where no such call is
//! made.

ghost use Rattle.std.specs.Prelude.{◌≡◌, ◌-◌, ◌^◌, ◌%◌, ◌<◌, ◌≤◌, IfOk};
ghost use Rattle.sheet.specs.Sheet.{word_bytes};
ghost use Rattle.definition.specs.Object.{object};
ghost use Rattle.definition.specs.Reference.{ref_at};
ghost use Rattle.readers.specs.Views.{mem, seen};
ghost use Rattle.readers.specs.Lent.{input_of, lent_of};
ghost use Rattle.leaves.specs.Leaf.{slot_in};
ghost use Rattle.walker.specs.Ready.{Ready, After, InItem, mapped, headed, items_of, Opened};

use arrayvec::ArrayVec;
use leaves::leaf::{place_leaf, take_leaf};
use levels::level::{LEVELS, begins_object, put_object};
use objects::head::{NewObject, open_object};
use objects::item::{Level, place_item};
use objects::map::{after_map, keep_map};
use objects::pending::resolves;
use opened_leaves::opening::open_leaf;
use readers::prefix::{Prefix, begin, hold};
use readers::simple::simple_ref;
use readers::state::{Answer, State};
use readers::walker::{DEEPEST, Walker};
use refusals::refusal::Refusal;
use sheet::names::{K_DEFERRED, K_RESOLVE_PENDING_FORWARD_REF};
use sheet::numbers::word_bytes;
use sheet::tests::is_tag;
use stream::bytes::peek;
use tables::values::{Ref, SlotValue};
use weak_leaves::weak::place_weak;

/// Reads the reference at the cursor, at depth `d` (0 for one that no object holds): its value.
/// Refused as docs/FORMAT.md, "Refusals", says, with the state that was reached. It is `parse_ref`
/// of the Rust.
#[cycle(walk)]
pub fn parse_ref(w: &mut Walker, s: State, d: usize) -> Answer<SlotValue>
    requires ready { Ready w.old s }
    requires depth { d ≤ 65 }
    ensures is { seen result (lent_of w.new) ≡ ref_at (input_of w.old) (65 - d) (mem s (lent_of w.old)) }
    ensures after { After w.old result w.new }
{
    let at = s.at;
    if DEEPEST < d {
        return Err(s.refused(Refusal::TooDeep));
    }
    let head = w.head_at(at).ok_or(s.cut(w.payload))?;
    let t = State { at: at + 1, ..s };
    if let Some(new) = NewObject::of(at, head) {
        return parse_object(w, t, d, new);
    }
    let (prefix, u) = begin(w, t, head)?;
    match prefix {
        Prefix::Other => simple_ref(w, u, at, head),
        Prefix::Root(held, i) => hold(w, u, held, SlotValue::Ref(Ref::Root(i))),
        Prefix::Inner(held) => {
            let (value, y) = parse_inner(w, u, d)?;
            hold(w, y, held, value)
        }
    }
}

// A reference below one at depth d. The commonest need no call of the cycle; what a reference at
// the last level would be is left to it.
#[cycle(walk)]
fn parse_inner(w: &mut Walker, s: State, d: usize) -> Answer<SlotValue>
    requires ready { Ready w.old s }
    requires depth { d ≤ 64 }
    ensures is { seen result (lent_of w.new) ≡ ref_at (input_of w.old) (64 - d) (mem s (lent_of w.old)) }
    ensures after { After w.old result w.new }
{
    if d < DEEPEST {
        if let Some(read) = take_leaf(w, s) {
            return Ok(read);
        }
    }
    parse_ref(w, s, d + 1)
}

/// Reads the new object after whose head the cursor stands, at depth `d`: a reference to it.
/// Refused as docs/FORMAT.md, "Refusals", says, with the state that was reached. It is
/// `parse_new_object_space` of the Rust.
#[inline(always)]
#[cycle(walk)]
pub fn parse_object(w: &mut Walker, s: State, d: usize, new: NewObject) -> Answer<SlotValue>
    requires ready { Ready w.old s }
    requires depth { (d ≤ 64) × (new.space < 256) }
    ensures is { seen result (lent_of w.new) ≡ object (input_of w.old) (ref_at (input_of w.old) (64 - d)) new.space new.tag (mem s (lent_of w.old)) }
    ensures after { After w.old result w.new }
{
    let (level, t) = parse_head(w, s, d, new)?;
    if level.done == level.size {
        return Ok((SlotValue::Ref(Ref::Object(level.object as u64)), t));
    }
    let (u, whole) = (t, level);
    let (object, y) = parse_items(w, u, d, whole)?;
    Ok((object, y))
}

// The items of an object at depth d whose head has been read: the object then. Objects within it
// are read in the same loop, as many levels down as `outer` has room for: it has the objects around
// the current one, the outermost first.
#[cycle(walk)]
fn parse_items(w: &mut Walker, s: State, d: usize, whole: Level) -> Answer<SlotValue>
    requires ready { Ready w.old s }
    requires opened { (d ≤ 64) × Opened whole s }
    ensures is { seen result (lent_of w.new) ≡ items_of (input_of w.old) (ref_at (input_of w.old) (64 - d)) whole (mem s (lent_of w.old)) }
    ensures after { After w.old result w.new }
{
    let (mut level, mut t) = (whole, s);
    let mut outer: ArrayVec<Level, LEVELS> = ArrayVec::new();
    loop {
        let e = d + outer.len();
        if level.size <= level.done {
            if level.done != level.size {
                return Err(t.refused_at(level.tag, Refusal::SizeDiffers));
            }
            let o = level.object;
            let Some(around) = outer.pop() else {
                return Ok((SlotValue::Ref(Ref::Object(o as u64)), t));
            };
            let (done, y) = put_object(w, t, around, o)?;
            level = Level { done, ..around };
            t = y;
        } else if is_tag(w.sheet, K_DEFERRED, peek(w.payload, t.at)) {
            level.done = level.size;
            t = State { at: t.at + 1, ..t };
        } else if let Some(child) = begins_object(w, t.at, e, outer.len()) {
            outer.push(level);
            let u = State { at: t.at + 1, ..t };
            (level, t) = parse_head(w, u, e + 1, child)?;
        } else {
            let (done, y) = parse_item(w, t, e, level)?;
            level.done = done;
            t = y;
        }
    }
}

// The head of a new object at depth d, its map and its resolves: the object then. Where the map is
// one of the commonest references, this needs no call of the cycle, and where no resolve follows
// it, none of `resolves`.
#[inline(always)]
#[cycle(walk)]
fn parse_head(w: &mut Walker, s: State, d: usize, new: NewObject) -> Answer<Level>
    requires ready { Ready w.old s }
    requires depth { (d ≤ 64) × (new.space < 256) }
    ensures is { seen result (lent_of w.new) ≡ headed (input_of w.old) (ref_at (input_of w.old) (64 - d)) new.space new.tag (mem s (lent_of w.old)) }
    ensures after { After w.old result w.new }
    ensures small { IfOk result (λ r. r.0.size < 2 ^ 33) }
{
    if let Some((bytes, t)) = open_leaf(w, s, d, new) {
        let level = Level {
            object: s.objects,
            size: bytes,
            done: word_bytes(w.sheet),
            tag: new.tag,
        };
        if !is_tag(
            w.sheet,
            K_RESOLVE_PENDING_FORWARD_REF,
            peek(w.payload, t.at),
        ) {
            return Ok((level, t));
        }
        let y = t;
        let ((), u) = resolves(w, y, level.object as u64)?;
        return Ok((level, u));
    }
    let t = s;
    let (level, u) = parse_long_head(w, t, d, new)?;
    Ok((level, u))
}

// The same where the map may be any reference.
#[cycle(walk)]
fn parse_long_head(w: &mut Walker, s: State, d: usize, new: NewObject) -> Answer<Level>
    requires ready { Ready w.old s }
    requires depth { (d ≤ 64) × (new.space < 256) }
    ensures is { seen result (lent_of w.new) ≡ headed (input_of w.old) (ref_at (input_of w.old) (64 - d)) new.space new.tag (mem s (lent_of w.old)) }
    ensures after { After w.old result w.new }
    ensures small { IfOk result (λ r. r.0.size < 2 ^ 33) }
{
    let word = word_bytes(w.sheet);
    let object = s.objects;
    let (words, t) = open_object(w, s, new)?;
    let level = Level {
        object,
        size: words * word,
        done: word,
        tag: new.tag,
    };
    let ((), u) = parse_map(w, t, d, new, level)?;
    Ok((level, u))
}

// The map of a new object, what follows it, and its resolves.
#[cycle(walk)]
fn parse_map(w: &mut Walker, s: State, d: usize, new: NewObject, level: Level) -> Answer<()>
    requires ready { Ready w.old s }
    requires depth { (d ≤ 64) × (new.space < 256) × (level.size < 2 ^ 33) × (level.object < s.objects) × (level.size % word_bytes w.old.sheet.now ≡ 0) }
    ensures is { seen result (lent_of w.new) ≡ mapped (input_of w.old) (ref_at (input_of w.old) (64 - d)) new.space level.size level.object (mem s (lent_of w.old)) }
    ensures after { After w.old result w.new }
{
    let o = level.object;
    let (map, t) = parse_inner(w, s, d)?;
    let ((), u) = after_map(w, t, s.alignment, new.space, level.size, o as u64)?;
    let ((), y) = keep_map(w, u, o, map)?;
    resolves(w, y, o as u64)
}

// An item of an object at depth d: the bytes of the object that have been read then. The commonest
// need no call of the cycle.
#[cycle(walk)]
fn parse_item(w: &mut Walker, s: State, d: usize, level: Level) -> Answer<u64>
    requires ready { Ready w.old s }
    requires item { (d ≤ 64) × InItem level s }
    ensures is { seen result (lent_of w.new) ≡ slot_in (input_of w.old) (ref_at (input_of w.old) (64 - d)) level.object level.done (mem s (lent_of w.old)) }
    ensures after { After w.old result w.new }
{
    if let Some(read) = place_leaf(w, s, d, level) {
        return Ok(read);
    }
    let t = s;
    let (done, u) = parse_slot(w, t, d, level)?;
    Ok((done, u))
}

// The same where no leaf stands at the cursor. A weak reference to a leaf needs no call of the
// cycle.
#[cycle(walk)]
fn parse_slot(w: &mut Walker, s: State, d: usize, level: Level) -> Answer<u64>
    requires ready { Ready w.old s }
    requires item { (d ≤ 64) × InItem level s }
    ensures is { seen result (lent_of w.new) ≡ slot_in (input_of w.old) (ref_at (input_of w.old) (64 - d)) level.object level.done (mem s (lent_of w.old)) }
    ensures after { After w.old result w.new }
{
    if let Some(read) = place_weak(w, s, d, level) {
        return Ok(read);
    }
    let (value, t) = parse_ref(w, s, d + 1)?;
    place_item(w, t, level, value)
}
