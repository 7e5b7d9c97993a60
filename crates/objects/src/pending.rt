//! Pending forward references: their places in scratch, the search, and the resolves after an
//! object's map (docs/FORMAT.md, "Pending forward references"). The places for pending numbers name
//! the slot that waits under each number; a number past them is searched for in the slots.

ghost use Rattle.std.specs.Prelude.{true, ◌≡◌, ℕ, ◌-◌, ◌<◌, ◌≤◌, length, set};
ghost use Rattle.sheet.specs.Sheet.{usable};
ghost use Rattle.tables.specs.Records.{room};
ghost use Rattle.definition.specs.Memory.{with_pending};
ghost use Rattle.definition.specs.Slots.{waits_for, waiter, renumbered, resolved};
ghost use Rattle.definition.specs.Object.{resolves as resolvesFrom};
ghost use Rattle.readers.specs.Views.{Lent, mem, seen, Counts};
ghost use Rattle.readers.specs.Lent.{input_of, lent_of, Kept};
ghost use Rattle.objects.specs.Index.{counted, Entry, Indexed, IndexedAfter, Waiting};

use readers::ints::read_int;
use readers::state::{Answer, State};
use readers::walker::Walker;
use sheet::names::K_RESOLVE_PENDING_FORWARD_REF;
use sheet::tests::is_tag;
use stream::bytes::peek;
use tables::records::{fill_slot, slot_at};

/// Puts `x` at place `i` of the places for pending numbers; nothing where there is no such place.
pub fn note(pending: &mut [u64], i: u64, x: u64)
    ensures { pending.new ≡ set pending.old i x }
{
    if i < pending.len() as u64 {
        pending[i as usize] = x;
    }
}

// Slot k waits under a number.
fn waits_for(slots: &[u64], number: u64, k: usize) -> bool
    requires { k < room 6 slots.now }
    ensures { result ≡ waits_for slots.now number k }
{
    let slot = slot_at(slots, k);
    slot.waits == 1 && slot.value.a == number
}

// The newest of n slots that waits under a number: a search.
fn find_waiter(slots: &[u64], number: u64, n: usize) -> Option<usize>
    requires { n ≤ room 6 slots.now }
    ensures { counted result ≡ waiter slots.now number n }
{
    (0..n).rev().find(|k| waits_for(slots, number, *k))
}

// The same, from k, which stands under the number in scratch. Where no slot waits under the number,
// k may be anything, so it counts only if the slot that it names waits.
#[tactic(auto, using(crate::proofs::WaiterLaws::waiter_low, crate::proofs::WaiterLaws::confirmed_test))]
fn confirmed(slots: &[u64], number: u64, n: usize, k: u64) -> Option<usize>
    requires { (n ≤ room 6 slots.now) × Entry slots.now n number k }
    ensures { counted result ≡ waiter slots.now number n }
{
    let slot = k.checked_sub(1)?;
    if n as u64 <= slot {
        return None;
    }
    let slot = slot as usize;
    waits_for(slots, number, slot).then_some(slot)
}

// The same, by scratch where it has a place for the number, and with no search where the number was
// not given out or no slot waits.
fn lookup(w: &Walker, s: State, number: u64) -> Option<usize>
    requires { Waiting w.now s }
    ensures { counted result ≡ waiter w.now.slots.now number s.slots }
{
    if s.pending <= number {
        return None;
    }
    if number < w.pending.len() as u64 {
        return confirmed(w.slots, number, s.slots, w.pending[number as usize]);
    }
    if s.waiting == 0 {
        return None;
    }
    find_waiter(w.slots, number, s.slots)
}

// The state with so many slots that wait: where none does, numbering returns to 0.
fn with_waiting(s: State, waiting: u64) -> State
    ensures { (l : Lent) → mem result l ≡ with_pending (renumbered s.pending waiting) waiting (mem s l) }
{
    let pending = if waiting == 0 { 0 } else { s.pending };
    State {
        pending,
        waiting,
        ..s
    }
}

// A resolve of a number, after the map of object o.
#[inline(always)]
fn resolve(w: &mut Walker, s: State, number: u64, o: u64) -> State
    requires { Waiting w.old s }
    ensures is { mem result (lent_of w.new) ≡ resolved number o (mem s (lent_of w.old)) }
    ensures index { Indexed w.new.slots.now result.slots w.new.pending.now }
    ensures kept { Kept w.old w.new }
{
    let Some(k) = lookup(w, s, number) else {
        return with_waiting(s, s.waiting);
    };
    fill_slot(w.slots, k, o);
    with_waiting(s, s.waiting - 1)
}

/// Resolves, as long as they stand at the cursor after the map of object `o`: the slot that waits
/// under each number becomes a reference to `o`. Refused where the payload ends in a number.
#[inline(always)]
pub fn resolves(w: &mut Walker, s: State, o: u64) -> Answer<()>
    requires usable { (usable w.old.sheet.now ≡ true) × (s.at ≤ length w.old.payload.now) × Counts s }
    requires waits { Waiting w.old s }
    ensures is { seen result (lent_of w.new) ≡ resolvesFrom (input_of w.old) o (length w.old.payload.now - s.at) (mem s (lent_of w.old)) }
    ensures index { IndexedAfter result w.new.slots.now w.new.pending.now }
    ensures kept { Kept w.old w.new }
{
    let p = w.payload;
    let mut t = s;
    while is_tag(w.sheet, K_RESOLVE_PENDING_FORWARD_REF, peek(p, t.at)) {
        let (number, u) = read_int(p, State { at: t.at + 1, ..t })?;
        t = resolve(w, u, number, o);
    }
    Ok(((), t))
}
