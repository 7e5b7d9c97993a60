//! What stands before another reference: chunk changes, alignment, weak and pointer prefixes,
//! repeats (docs/FORMAT.md, "Head bytes" and "Repeats").
ghost use Rattle.std.specs.Prelude.{◌≡◌, List, ℕ, ◌-◌, ◌^◌, ◌<◌, get_or};
ghost use Rattle.definition.specs.Slots.{add_value as addValue};
ghost use Rattle.readers.specs.Views.{Lent, input, mem, seen, Counts};
ghost use Rattle.readers.specs.Lent.{input_of, lent_of, Kept};
ghost use Rattle.readers.specs.Prefix.{held as heldAs, Begins, RepeatsRoot};

use crate::ints::{read_byte, read_int};
use crate::state::{Answer, State};
use crate::walker::Walker;
use heads::heads::Head;
use heads::kinds::Kind;
use refusals::refusal::Refusal;
use tables::records::add_value;
use tables::values::{Fields, SlotValue};

/// How the value of a reference is held: as it is, weak, or repeated so many times.
#[derive(Clone, Copy)]
pub enum Held {
    Plain,
    Weak,
    Repeated(u32),
}

/// What a prefix asks: that the value of the next reference is held, or that of this root, given by
/// number; or a head that is no prefix.
#[derive(Clone, Copy)]
pub enum Prefix {
    Inner(Held),
    Root(Held, u64),
    Other,
}

/// What stands after the head of a reference that holds another, or of a repeated root: what it
/// asks. With any other head nothing is read.
#[tactic(auto, unfolding(definition::specs::Reference::by_head))]
pub fn begin(w: &mut Walker, s: State, head: Head) -> Answer<Prefix>
    requires { ((i : ℕ) → get_or w.old.alloc.cur i 0 < 2 ^ 32 - 1) × Counts s }
    ensures begins { (tag : ℕ) → Begins (input_of w.old) tag head.kind head.argument s (lent_of w.old) result (lent_of w.new) }
    ensures kept { Kept w.old w.new }
{
    let p = w.payload;
    let n = head.argument as u32;
    match head.kind {
        Kind::NextChunk => {
            let (space, t) = read_byte(p, s)?;
            let spaces = w.spaces;
            w.alloc.next_chunk(spaces, space);
            Ok((Prefix::Inner(Held::Plain), t))
        }
        Kind::Alignment => {
            let t = State {
                alignment: head.argument as u64,
                ..s
            };
            Ok((Prefix::Inner(Held::Plain), t))
        }
        Kind::WeakPrefix => Ok((Prefix::Inner(Held::Weak), s)),
        Kind::PointerPrefix => Ok((Prefix::Inner(Held::Plain), s)),
        Kind::FixedRepeat => Ok((Prefix::Inner(Held::Repeated(n)), s)),
        Kind::FixedRepeatRoot => repeat_root(p, s, n),
        Kind::VariableRepeat => {
            let (n, t) = read_int(p, s)?;
            Ok((Prefix::Inner(Held::Repeated(n as u32 + 18)), t))
        }
        Kind::VariableRepeatRoot => {
            let (n, t) = read_int(p, s)?;
            repeat_root(p, t, n as u32 + 18)
        }
        _ => Ok((Prefix::Other, s)),
    }
}

// A root that is repeated n times: one plain byte.
fn repeat_root(p: &[u8], s: State, n: u32) -> Answer<Prefix>
    ensures { (v tr : List ℕ) (sp : ℕ) (l : Lent) → RepeatsRoot (input v p.now sp tr) n s l result }
{
    let (i, t) = read_byte(p, s)?;
    Ok((Prefix::Root(Held::Repeated(n), i), t))
}

/// A value record, whose number is the answer. Refused with `NoRoom` where the table has no room
/// for it.
#[tactic(auto, unfolding(definition::specs::Slots::add_value))]
pub fn push_value(w: &mut Walker, s: State, f: Fields) -> Answer<u64>
    ensures is { seen result (lent_of w.new) ≡ addValue f (mem s (lent_of w.old)) }
    ensures kept { Kept w.old w.new }
{
    let n = s.values;
    add_value(w.values, n, f).ok_or(s.refused(Refusal::NoRoom))?;
    let t = State { values: n + 1, ..s };
    Ok((n as u64, t))
}

/// The value of a reference as it is held: itself, or the number of a value record. Refused with
/// `NoRoom` where the table has no room for one.
#[tactic(auto, using(crate::proofs::ViewLaws::then_no, crate::proofs::ViewLaws::then_got))]
#[inline(always)]
pub fn hold(w: &mut Walker, s: State, held: Held, v: SlotValue) -> Answer<SlotValue>
    ensures holds { seen result (lent_of w.new) ≡ heldAs held v (mem s (lent_of w.old)) }
    ensures kept { Kept w.old w.new }
{
    match held {
        Held::Plain => Ok((v, s)),
        Held::Weak => {
            let (k, t) = push_value(w, s, Fields::from(v))?;
            Ok((SlotValue::WeakRef(k), t))
        }
        Held::Repeated(n) => {
            let (k, t) = push_value(w, s, Fields::from(v))?;
            Ok((SlotValue::Repeat(n, k), t))
        }
    }
}
