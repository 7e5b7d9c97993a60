//! References that hold no other (docs/FORMAT.md, "Head bytes").
ghost use Rattle.std.specs.Prelude.{◌≡◌, List, ℕ, ◌^◌, ◌<◌};
ghost use Rattle.heads.specs.declared.kinds.Kind.TheVariants.{HotWithSkip};
ghost use Rattle.definition.specs.Memory.{Reader};
ghost use Rattle.backref.specs.Legacy.{placed, single};
ghost use Rattle.definition.specs.Reference.{refers_hot, legacy_reference, raw_data, pending_reference, hot_place, by_head};
ghost use Rattle.readers.specs.Views.{Lent, input, mem, seen, Counts};
ghost use Rattle.readers.specs.Lent.{input_of, lent_of, Kept, Addressed};
ghost use Rattle.readers.specs.Simple.{Makes, MakesOfTwo, read_backref, read_root, read_int, read_ints, read_raw, read_skipped, Simple};

use crate::ints::{read_int, read_skip};
use crate::state::{Answer, State};
use crate::walker::Walker;
use address_index::resolve::AddressIndex;
use alloc::resolve::Place;
use backref::legacy::{LegacyReader, is_single};
use heads::heads::Head;
use heads::kinds::Kind;
use refusals::refusal::Refusal;
use sheet::numbers::{legacy, raw_advances, word_bytes};
use stream::bytes::raw;
use tables::values::{Raw, Ref, SlotValue};

// A reference that enters the ring.
fn enter(w: &mut Walker, s: State, r: Ref) -> Answer<SlotValue>
    ensures is { seen result (lent_of w.new) ≡ refers_hot r (mem s (lent_of w.old)) }
    ensures kept { Kept w.old w.new }
{
    w.hot.add(r);
    Ok((SlotValue::Ref(r), s))
}

// kBackref: an object by plain index, which enters the ring.
fn back_ref(w: &mut Walker, s: State) -> Answer<SlotValue>
    requires { Counts s }
    ensures is { seen result (lent_of w.new) ≡ read_backref (input_of w.old) (mem s (lent_of w.old)) }
    ensures kept { Kept w.old w.new }
{
    let (i, t) = read_int(w.payload, s)?;
    if t.objects as u64 <= i {
        return Err(t.refused(Refusal::NoSuchObject));
    }
    enter(w, t, Ref::Object(i))
}

// kRootArray: a root by integer, which enters the ring.
fn root_array(w: &mut Walker, s: State) -> Answer<SlotValue>
    requires { Counts s }
    ensures is { seen result (lent_of w.new) ≡ read_root (input_of w.old) (mem s (lent_of w.old)) }
    ensures kept { Kept w.old w.new }
{
    let (i, t) = read_int(w.payload, s)?;
    enter(w, t, Ref::Root(i))
}

// A place of the hot ring.
fn hot_ref(w: &Walker, s: State, place: usize) -> Answer<SlotValue>
    requires { place < 8 }
    ensures { seen result (lent_of w.now) ≡ hot_place place (mem s (lent_of w.now)) }
{
    let r = w.hot.get(place).ok_or(s.refused(Refusal::EmptyHotPlace))?;
    Ok((SlotValue::Ref(r), s))
}

/// What the integer of a back-reference to a space that has one refers to; none where no object has
/// the number.
#[inline(always)]
pub fn find_single(w: &Walker, s: State, space: u64, value: u32) -> Option<Ref>
    requires { Addressed w.now s.addresses }
    ensures { result ≡ single w.now.sheet.now w.now.addresses.now s.addresses s.alignment space value }
{
    let addresses = AddressIndex {
        table: w.addresses,
        index: w.index,
        count: s.addresses,
    };
    let reader = LegacyReader {
        sheet: w.sheet,
        addresses,
        alignment: s.alignment,
        space,
    };
    reader.by_value(value)
}

/// What a back-reference to a space of two integers refers to: an object at this place, or the
/// place itself in the read-only heap.
#[inline(always)]
pub fn find_place(w: &Walker, s: State, space: u64, chunk: u32, offset: u32) -> Ref
    requires { Addressed w.now s.addresses }
    ensures { result ≡ placed w.now.sheet.now w.now.addresses.now s.addresses s.alignment space (record { chunk = chunk; offset = offset }) }
{
    let addresses = AddressIndex {
        table: w.addresses,
        index: w.index,
        count: s.addresses,
    };
    let reader = LegacyReader {
        sheet: w.sheet,
        addresses,
        alignment: s.alignment,
        space,
    };
    let place = Place {
        chunk: u64::from(chunk),
        offset: u64::from(offset),
    };
    reader.by_place(place)
}

/// A legacy back-reference to a space, which enters the ring (the Rust's `legacy_backref`). Refused
/// as cut off where the payload ends in it, and with `NoSuchNumber` at the place after it where no
/// object has its number.
pub fn legacy_backref(w: &mut Walker, s: State, space: u64) -> Answer<SlotValue>
    requires { Addressed w.old s.addresses × Counts s }
    ensures is { seen result (lent_of w.new) ≡ legacy_reference (input_of w.old) space (mem s (lent_of w.old)) }
    ensures kept { Kept w.old w.new }
{
    let (first, t) = read_int(w.payload, s)?;
    if is_single(w.sheet, space) {
        let Some(r) = find_single(w, s, space, first as u32) else {
            return Err(t.refused(Refusal::NoSuchNumber));
        };
        return enter(w, t, r);
    }
    let (second, u) = read_int(w.payload, t)?;
    let r = find_place(w, s, space, first as u32, second as u32);
    enter(w, u, r)
}

// Raw data of n bytes.
#[tactic(auto, unfolding(definition::specs::Reference::raw_data))]
fn raw_data(p: &[u8], s: State, n: u64, advances: bool) -> Answer<SlotValue>
    ensures { (v tr : List ℕ) (sp : ℕ) (l : Lent) → seen result l ≡ raw_data (input v p.now sp tr) n advances (mem s l) }
{
    let at = s.at;
    let end = raw(p, at, n as usize).ok_or(s.refused(Refusal::RawPastEnd))?;
    let value = Raw {
        off: at as u64,
        len: n,
        advances,
    };
    Ok((SlotValue::Raw(value), State { at: end, ..s }))
}

// kVariableRawData: a length in words, in legacy in bytes; a length of 0 reads one byte.
#[tactic(auto, using(crate::proofs::SimpleLaws::product_small))]
fn variable_raw(sheet: &[u16], p: &[u8], s: State) -> Answer<SlotValue>
    requires { Counts s }
    ensures { (tr : List ℕ) (sp : ℕ) (l : Lent) → seen result l ≡ read_raw (input sheet.now p.now sp tr) (mem s l) }
{
    let (n, t) = read_int(p, s)?;
    let bytes = if legacy(sheet) {
        n
    } else {
        n * word_bytes(sheet)
    };
    raw_data(p, t, bytes.max(1), raw_advances(sheet))
}

// What stands off the heap is given as a read-only reference with one of these chunks (`outside` in
// crates/definition/specs/Reference.antt).
const CACHE: u64 = 4294967295;

const BUILTIN: u64 = 4294967294;

const EXTERNAL: u64 = 4294967293;

const API: u64 = 4294967292;

const OFF_HEAP_TARGET: u64 = 4294967291;

// A reference into the read-only heap, or to something off the heap.
fn ro_ref(chunk: u64, n: u32) -> SlotValue
    ensures { result ≡ SlotValue.Ref (Ref.RoRef chunk n) }
{
    SlotValue::Ref(Ref::RoRef(chunk, u64::from(n)))
}

// A head with one integer, of which its value is made.
fn one_int<F: FnOnce(u32) -> SlotValue>(p: &[u8], s: State, make: F) -> Answer<SlotValue>
    requires counts { Counts s }
    requires callable { F.IsAlwaysCallable make }
    ensures { (f : ℕ → SlotValue) → Makes f (F.post make) → (v tr : List ℕ) (sp : ℕ) (l : Lent) → seen result l ≡ read_int f (input v p.now sp tr) (mem s l) }
{
    let (n, t) = read_int(p, s)?;
    Ok((make(n as u32), t))
}

// A head with two integers, of which its value is made.
fn two_ints<F: FnOnce(u32, u32) -> SlotValue>(p: &[u8], s: State, make: F) -> Answer<SlotValue>
    requires counts { Counts s }
    requires callable { F.IsAlwaysCallable make }
    ensures { (f : ℕ → ℕ → SlotValue) → MakesOfTwo f (F.post make) → (v tr : List ℕ) (sp : ℕ) (l : Lent) → seen result l ≡ read_ints f (input v p.now sp tr) (mem s l) }
{
    let (a, t) = read_int(p, s)?;
    let (b, u) = read_int(p, t)?;
    Ok((make(a as u32, b as u32), u))
}

// A pending forward reference: it gets the next number.
#[tactic(auto, unfolding(definition::specs::Reference::pending_reference))]
fn pending_ref(s: State) -> Answer<SlotValue>
    requires { s.pending < 2 ^ 63 }
    ensures { (l : Lent) → seen result l ≡ pending_reference (mem s l) }
{
    let t = State {
        pending: s.pending + 1,
        ..s
    };
    Ok((SlotValue::PendingRef(s.pending), t))
}

// A head with a with-skip amount before what it is. Which of five it is, is asked after the amount.
fn with_skip(w: &mut Walker, s: State, head: Head) -> Answer<SlotValue>
    requires counts { Counts s }
    requires addressed { Addressed w.old s.addresses × (s.skip < 2 ^ 63) }
    requires place { head.kind ≡ HotWithSkip → head.argument < 8 }
    ensures is { seen result (lent_of w.new) ≡ read_skipped (input_of w.old) head.kind head.argument (mem s (lent_of w.old)) }
    ensures kept { Kept w.old w.new }
{
    let p = w.payload;
    let ((), t) = read_skip(p, s)?;
    let a = head.argument as u64;
    match head.kind {
        Kind::LegacyBackrefWithSkip => legacy_backref(w, t, a),
        Kind::HotWithSkip => hot_ref(w, t, a as usize),
        Kind::RootConstantWithSkip => Ok((SlotValue::Ref(Ref::Root(a)), t)),
        Kind::Api => one_int(p, t, |n| ro_ref(API, n)),
        // kOffHeapTarget is left.
        _ => one_int(p, t, |_| ro_ref(OFF_HEAP_TARGET, 0)),
    }
}

/// A reference by its head, which holds no other reference and stands at the place `tag`: its value
/// (the branches of the Rust's `parse_ref_inner` that call no reader of references).
#[tactic(auto, using(crate::proofs::SimpleLaws::target_grouped, crate::proofs::SimpleLaws::product_small), unfolding(definition::specs::Reference::by_head))]
pub fn simple_ref(w: &mut Walker, s: State, tag: usize, head: Head) -> Answer<SlotValue>
    requires counts { Counts s }
    requires addressed { Addressed w.old s.addresses × (s.skip < 2 ^ 63) × (s.pending < 2 ^ 63) }
    requires simple { Simple head.kind head.argument }
    ensures is { (inner : Reader SlotValue) → seen result (lent_of w.new) ≡ by_head (input_of w.old) inner tag head.kind head.argument (mem s (lent_of w.old)) }
    ensures kept { Kept w.old w.new }
{
    let p = w.payload;
    let a = head.argument as u64;
    match head.kind {
        Kind::Backref => back_ref(w, s),
        Kind::LegacyBackref => legacy_backref(w, s, a),
        Kind::Hot => hot_ref(w, s, a as usize),
        Kind::RootArray => root_array(w, s),
        Kind::RootConstant => Ok((SlotValue::Ref(Ref::Root(a)), s)),
        Kind::ReadOnly => two_ints(p, s, |a, b| ro_ref(u64::from(a), b)),
        Kind::Attached => one_int(p, s, |n| SlotValue::Ref(Ref::Attached(u64::from(n)))),
        Kind::Builtin => one_int(p, s, |n| ro_ref(BUILTIN, n)),
        Kind::External => one_int(p, s, |n| ro_ref(EXTERNAL, n)),
        Kind::Internal => two_ints(p, s, |_, _| SlotValue::Skip(0)),
        Kind::Deoptimizer => one_int(p, s, |_| SlotValue::Skip(0)),
        Kind::StreamBytes => one_int(p, s, SlotValue::StreamBytes),
        Kind::EmbedderFields => two_ints(p, s, |_, n| SlotValue::StreamBytes(n)),
        Kind::Cache => one_int(p, s, |n| ro_ref(CACHE, n)),
        Kind::RegisterPending => pending_ref(s),
        Kind::ClearedWeak => Ok((SlotValue::ClearedWeak, s)),
        Kind::DispatchEntry => one_int(p, s, |_| SlotValue::ClearedWeak),
        Kind::FixedRaw => raw_data(p, s, a * word_bytes(w.sheet), true),
        Kind::VariableRaw => variable_raw(w.sheet, p, s),
        Kind::Skip => one_int(p, s, SlotValue::Skip),
        Kind::RepeatPrevious => Ok((SlotValue::RepeatPrev(a as u32), s)),
        Kind::VariableRepeatPrevious => one_int(p, s, SlotValue::RepeatPrev),
        Kind::MetaMap => Err(s.refused_at(tag, Refusal::MetaMap)),
        Kind::NoMeaning => Err(s.refused_at(tag, Refusal::NoMeaning)),
        _ => with_skip(w, s, head),
    }
}
