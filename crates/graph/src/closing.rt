//! The closing section (docs/FORMAT.md, "The closing section").

ghost use Rattle.std.specs.Prelude.{◌≡◌, List, ℕ, ◌+◌, ◌-◌, length};
ghost use Rattle.refusals.specs.Numbers.{number_of};
ghost use Rattle.definition.specs.Closing.{ends_legacy, drop_reference, entries as entriesFrom, closing as closingSection};
ghost use Rattle.readers.specs.Views.{input, mem, seen};
ghost use Rattle.readers.specs.Lent.{input_of, lent_of, Fixed};
ghost use Rattle.walker.specs.Ready.{Ready, After};

use crate::padding::padding;
use deferred::entry::entry;
use objects::head::new_object_at;
use readers::state::{Answer, Refused, State};
use readers::walker::Walker;
use refusals::refusal::Refusal;
use sheet::numbers::legacy;
use sheet::tests::{Closing, closing_entry};
use stream::bytes::peek;
use walker::walk::{parse_object, parse_ref};

// In a legacy closing section any fault but two only ends it.
fn ends_legacy(sheet: &[u16], e: Refusal) -> bool
    ensures { (p tr : List ℕ) (sp : ℕ) → result ≡ ends_legacy (input sheet.now p sp tr) (number_of e) }
{
    legacy(sheet) && e != Refusal::NoRoom && e != Refusal::AddressTooLarge
}

// A reference at depth 0, whose value is dropped. A new object, the commonest, needs no call of
// `parse_ref`.
#[inline(always)]
fn drop_ref(w: &mut Walker, s: State) -> Answer<()>
    requires ready { Ready w.old s }
    ensures is { seen result (lent_of w.new) ≡ drop_reference (input_of w.old) (mem s (lent_of w.old)) }
    ensures after { After w.old result w.new }
{
    let Some(new) = new_object_at(w, s.at) else {
        let u = s;
        let (_, t) = parse_ref(w, u, 0)?;
        return Ok(((), t));
    };
    let (_, t) = parse_object(w, State { at: s.at + 1, ..s }, 0, new)?;
    Ok(((), t))
}

// Entries until the first kSynchronize. There is no `?`, since most faults of an entry only end a
// legacy section.
#[tactic(auto, using(crate::proofs::ClosingLaws::loop_synchronize, crate::proofs::ClosingLaws::loop_end, crate::proofs::ClosingLaws::loop_cut, laws::specs::Leaves::deferred_legacy))]
fn entries(w: &mut Walker, s: State) -> Answer<()>
    requires ready { Ready w.old s }
    ensures is { seen result (lent_of w.new) ≡ entriesFrom (input_of w.old) (length w.old.payload.now - s.at + 1) (mem s (lent_of w.old)) }
    ensures fixed { Fixed w.old w.new }
{
    let p = w.payload;
    let mut t = s;
    while t.at < p.len() {
        let at = t.at;
        let done = match closing_entry(w.sheet, peek(p, at)) {
            Closing::Synchronize => return Ok(((), State { at: at + 1, ..t })),
            Closing::Alignment(alignment) => {
                t = State {
                    at: at + 1,
                    alignment,
                    ..t
                };
                continue;
            }
            Closing::Deferred(space) => entry(w, t, space),
            Closing::Reference => drop_ref(w, t),
        };
        match done {
            Ok(((), u)) => t = u,
            Err(e) if ends_legacy(w.sheet, e.refusal) => return Ok(((), e.state)),
            Err(e) => return Err(e),
        }
    }
    if legacy(w.sheet) {
        Ok(((), t))
    } else {
        Err(t.refused_at(p.len(), Refusal::NoSynchronize))
    }
}

/// Reads the closing section at the cursor, and the padding after it. Refused as docs/FORMAT.md,
/// "Refusals", says; in a legacy sheet most faults only end the section.
pub fn closing(w: &mut Walker, s: State) -> Answer<()>
    requires ready { Ready w.old s }
    ensures is { seen result (lent_of w.new) ≡ closingSection (input_of w.old) (mem s (lent_of w.old)) }
    ensures fixed { Fixed w.old w.new }
{
    let ((), t) = entries(w, s)?;
    padding(w.sheet, w.payload, t)
}
