//! The walk of a whole payload.

ghost use Rattle.std.specs.Prelude.{true, ◌≡◌, List, ℕ, ◌≤◌};
ghost use Rattle.sheet.specs.Tests as Tests;
ghost use Rattle.definition.specs.Call as Call;
ghost use Rattle.readers.specs.Views.{input, mem, seen};
ghost use Rattle.readers.specs.Lent.{input_of, lent_of, Fixed};
ghost use Rattle.walker.specs.Ready.{Ready};
ghost use Rattle.graph.specs.Driver.{top_object, ReadyAfter};

use crate::closing::closing;
use objects::head::NewObject;
use readers::ints::read_byte;
use readers::state::{Answer, State};
use readers::walker::Walker;
use refusals::refusal::Refusal;
use sheet::names::K_NEW_OBJECT;
use sheet::numbers::{legacy, number};
use sheet::tests::opens;
use tables::values::SlotValue;
use walker::walk::parse_object;

// The space of the top object, whose head is byte b.
fn top_space(sheet: &[u16], b: u64) -> u64
    requires { Tests.opens sheet.now b ≡ true }
    ensures space { (p tr : List ℕ) (sp : ℕ) → result ≡ Call.top_space (input sheet.now p sp tr) b }
    ensures low { result ≤ b }
{
    if legacy(sheet) {
        b - number(sheet, K_NEW_OBJECT)
    } else {
        0
    }
}

// The top object, whose head is the payload's first byte.
fn top_object(w: &mut Walker, s: State) -> Answer<SlotValue>
    requires ready { Ready w.old s }
    ensures is { seen result (lent_of w.new) ≡ top_object (input_of w.old) (mem s (lent_of w.old)) }
    ensures fixed { Fixed w.old w.new }
    ensures ready { ReadyAfter result w.new }
{
    let (b, t) = read_byte(w.payload, s)?;
    if !opens(w.sheet, b) {
        return Err(t.refused_at(0, Refusal::NoObjectFirst));
    }
    let new = NewObject {
        tag: 0,
        space: top_space(w.sheet, b),
    };
    parse_object(w, t, 0, new)
}

/// Walks a whole payload from its first byte: the top object, then the closing section and the
/// padding. The tables are left in the walker; the state has the counts and the place where the
/// reading ended. It is what `parse_with` of the Rust does once its input is tested.
pub fn walk(w: &mut Walker, s: State) -> Answer<()>
    requires ready { Ready w.old s }
    ensures is { seen result (lent_of w.new) ≡ Call.walk (input_of w.old) (mem s (lent_of w.old)) }
    ensures fixed { Fixed w.old w.new }
{
    let (_, t) = top_object(w, s)?;
    closing(w, t)
}
