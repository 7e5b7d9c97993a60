//! What follows an object's map: legacy allocation (docs/FORMAT.md, "Legacy allocation"), the flag
//! of a trusted map, and slot 0.

ghost use Rattle.std.specs.Prelude.{true, ◌≡◌, List, ℕ, ◌+◌, ◌-◌, ◌*◌, ◌^◌, ◌<◌, ◌≤◌, length, get_or, OnOk, OnErr, IfErr, IfSome, IsNone};
ghost use Rattle.sheet.specs.Sheet.{usable};
ghost use Rattle.tables.specs.Records.{room, field};
ghost use Rattle.alloc.specs.Allocation.{allocate_of, seen as allocated};
ghost use Rattle.address_index.specs.Layout.{capacity, Roomy};
ghost use Rattle.address_index.specs.Links.{Linked};
ghost use Rattle.address_index.specs.Entries.{IsEntry};
ghost use Rattle.refusals.specs.Numbers.{number_of};
ghost use Rattle.definition.specs.Memory.{got, aligned};
ghost use Rattle.definition.specs.Object.{alignment_byte, chunk_changes, allocate, flag_object};
ghost use Rattle.readers.specs.Views.{Lent, input, mem, seen};
ghost use Rattle.readers.specs.Lent.{input_of, lent_of, Kept, PendingKept, Untouched};
ghost use Rattle.objects.specs.Index.{LinkedAfter};
ghost use Rattle.objects.specs.Map.{after_map, is_flagged, map_kept, AddressAlone};

use crate::item::push_slot;
use address_index::links::{Entry, add_entry, entry_of, has_room};
use alloc::legacy_alloc::{Request, place};
use readers::state::{Answer, State};
use readers::walker::Walker;
use refusals::refusal::Refusal;
use sheet::names::K_NEXT_CHUNK;
use sheet::numbers::{legacy, map_first, word_bytes};
use sheet::tests::{alignment, is_tag};
use stream::bytes::peek;
use tables::records::set_raw_len;
use tables::values::{Fields, Ref, SlotValue};

// What the index keeps of address record n, where it has room for it.
fn new_entry(w: &Walker, n: usize) -> Option<Entry>
    requires { (n < room 5 w.now.addresses.now) × Linked w.now.addresses.now n w.now.index.now }
    ensures some { IfSome result (λ e. Roomy n w.now.index.now × IsEntry w.now.addresses.now n w.now.index.now e) }
    ensures none { IsNone result → capacity (length w.now.index.now) ≤ n }
{
    has_room(w.index, n).then(|| entry_of(w.addresses, w.index, n))
}

// Address record n enters the index, where the index has room for it.
fn enter_record(w: &mut Walker, n: usize)
    requires { (n < room 5 w.old.addresses.now) × Linked w.old.addresses.now n w.old.index.now }
    ensures linked { Linked w.new.addresses.now (n + 1) w.new.index.now }
    ensures lent { lent_of w.new ≡ lent_of w.old }
    ensures rest { PendingKept w.old w.new }
{
    if let Some(entry) = new_entry(w, n) {
        add_entry(w.index, n, entry);
    }
}

/// Appends address record `n` and its entry in the index of legacy addresses: the alignment that is
/// pending then, in bytes. Where it is refused (no room, or an address too large), nothing changes.
/// `LegacyAlloc::allocate` does the same with counters by value; the walk lends its own
/// (docs/DECISIONS.md).
pub fn allocate_record(w: &mut Walker, n: usize, want: Request) -> Result<u64, Refusal>
    requires { (want.space < 256) × (want.word ≤ 8) × Linked w.old.addresses.now n w.old.index.now }
    ensures is { allocated want.alignment result w.new.alloc w.new.addresses.now ≡ allocate_of w.old.addresses.now n w.old.spaces want w.old.alloc }
    ensures linked { OnOk result (Linked w.new.addresses.now (n + 1) w.new.index.now) }
    ensures refused { OnErr result (Untouched w.old w.new) }
    ensures some { IfErr result (λ r. 0 < number_of r) }
    ensures rest { AddressAlone w.old w.new }
{
    let i = want.space as usize;
    let spaces = w.spaces;
    let used = w.alloc.used[i];
    let chunk = w.alloc.cur[i];
    let placed = place(w.addresses, n, spaces, want, used, chunk)?;
    w.alloc.used[i] = placed.free;
    enter_record(w, n);
    Ok(placed.alignment)
}

/// Appends an address record of object `o` of so many bytes in a space, and its entry in the index,
/// and takes the alignment that is pending. Where it is refused, nothing changes.
#[inline(always)]
pub fn allocate_object(w: &mut Walker, s: State, space: u64, bytes: u64, o: u64) -> Answer<()>
    requires sheet_value { (usable w.old.sheet.now ≡ true) × (space < 256) × (bytes < 2 ^ 33) }
    requires linked_before { Linked w.old.addresses.now s.addresses w.old.index.now }
    ensures is { seen result (lent_of w.new) ≡ allocate (input_of w.old) space bytes o (mem s (lent_of w.old)) }
    ensures linked { LinkedAfter result w.new.addresses.now w.new.index.now }
    ensures refused { OnErr result (Untouched w.old w.new) }
    ensures rest { AddressAlone w.old w.new }
{
    let want = Request {
        space,
        size: bytes,
        object: o,
        alignment: s.alignment,
        word: word_bytes(w.sheet),
    };
    let alignment = allocate_record(w, s.addresses, want).map_err(|r| s.refused(r))?;
    let t = State {
        addresses: s.addresses + 1,
        alignment,
        ..s
    };
    Ok(((), t))
}

// Chunk changes at the cursor, as long as they name this space.
fn chunk_changes(w: &mut Walker, s: State, space: u64) -> State
    requires { (space < 256) × (s.at ≤ length w.old.payload.now) × (get_or w.old.alloc.cur space 0 ≤ s.at) × (length w.old.payload.now ≤ 16777216) }
    ensures is { got tt (mem result (lent_of w.new)) ≡ chunk_changes (input_of w.old) space (length w.old.payload.now - s.at) (mem s (lent_of w.old)) }
    ensures records { result.addresses ≡ s.addresses }
    ensures kept { Kept w.old w.new }
    ensures addresses { w.new.addresses.now ≡ w.old.addresses.now }
{
    let p = w.payload;
    let spaces = w.spaces;
    let mut t = s;
    while is_tag(w.sheet, K_NEXT_CHUNK, peek(p, t.at)) && peek(p, t.at + 1) == space {
        w.alloc.next_chunk(spaces, space);
        t.at += 2;
    }
    t
}

// After a map that comes first: the alignment of a prefix at the cursor, or the one that stood
// before the map.
#[tactic(auto, using(crate::proofs::MapLaws::prefix_there))]
fn pass_prefix(w: &Walker, s: State, before: u64) -> State
    requires { (usable w.now.sheet.now ≡ true) × (s.at ≤ length w.now.payload.now) }
    ensures is { (l : Lent) → got tt (mem result l) ≡ alignment_byte (input_of w.now) (aligned before (mem s l)) }
    ensures place { (s.at ≤ result.at) × (result.at ≤ length w.now.payload.now) × (result.addresses ≡ s.addresses) }
{
    match alignment(w.sheet, peek(w.payload, s.at)) {
        Some(a) => State {
            at: s.at + 1,
            alignment: a,
            ..s
        },
        None => State {
            alignment: before,
            ..s
        },
    }
}

/// What follows the map of object `o`, of so many bytes in a space: where the map comes first, an
/// alignment prefix, chunk changes and allocation; in other legacy sheets allocation; else nothing.
/// `before` is the alignment that was pending before the map: where the map comes first it is the
/// object's. Refused as an allocation is.
pub fn after_map(
    w: &mut Walker,
    s: State,
    before: u64,
    space: u64,
    bytes: u64,
    o: u64,
) -> Answer<()>
    requires sheet_value { (usable w.old.sheet.now ≡ true) × (space < 256) × (bytes < 2 ^ 33) × (s.at ≤ length w.old.payload.now) × (length w.old.payload.now ≤ 16777216) }
    requires linked_before { (get_or w.old.alloc.cur space 0 ≤ s.at) × Linked w.old.addresses.now s.addresses w.old.index.now }
    ensures is { seen result (lent_of w.new) ≡ after_map (input_of w.old) before space bytes o (mem s (lent_of w.old)) }
    ensures linked { LinkedAfter result w.new.addresses.now w.new.index.now }
    ensures rest { PendingKept w.old w.new }
{
    if !legacy(w.sheet) {
        return Ok(((), s));
    }
    if !map_first(w.sheet) {
        return allocate_object(w, s, space, bytes, o);
    }
    let t = pass_prefix(w, s, before);
    let u = chunk_changes(w, t, space);
    allocate_object(w, u, space, bytes, o)
}

/// `v` is a root that the trusted list flags: its place in the list is not 0.
pub fn is_flagged(trusted: &[u8], v: SlotValue) -> bool
    ensures { (sh p : List ℕ) (sp : ℕ) → result ≡ is_flagged (input sh p sp trusted.now) v }
{
    let SlotValue::Ref(Ref::Root(i)) = v else {
        return false;
    };
    trusted.get(i as usize).is_some_and(|t| *t != 0)
}

// The object is flagged where its map is trusted.
#[tactic(auto, unfolding(definition::specs::Object::flag_object))]
fn flag_object(w: &mut Walker, o: usize, v: SlotValue)
    requires { o < room 4 w.old.objects.now }
    ensures is { (s : State) → got tt (mem s (lent_of w.new)) ≡ flag_object (input_of w.old) o v (mem s (lent_of w.old)) }
    ensures count { field 4 w.new.objects.now o 3 ≡ field 4 w.old.objects.now o 3 }
    ensures kept { Kept w.old w.new }
{
    if is_flagged(w.trusted, v) {
        set_raw_len(w.objects, o);
    }
}

/// Keeps the map of object `o` as its slot 0, and flags the object where the map is trusted.
/// Refused where the slot has no room.
#[tactic(auto, unfolding(definition::specs::Object::keep_map, definition::specs::Slots::add_slot))]
pub fn keep_map(w: &mut Walker, s: State, o: usize, v: SlotValue) -> Answer<()>
    requires { (o < room 4 w.old.objects.now) × (field 4 w.old.objects.now o 3 < 2 ^ 62) × (s.waiting < 2 ^ 63) }
    ensures is { seen result (lent_of w.new) ≡ map_kept (input_of w.old) o v (mem s (lent_of w.old)) }
    ensures kept { Kept w.old w.new }
{
    flag_object(w, o, v);
    let (_, t) = push_slot(w, s, o as u64, 0, Fields::from(v), false)?;
    Ok(((), t))
}
