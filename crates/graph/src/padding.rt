//! What may follow the closing section.

ghost use Rattle.std.specs.Prelude.{◌≡◌, List, ℕ, ◌-◌, length};
ghost use Rattle.definition.specs.Closing as Closing;
ghost use Rattle.readers.specs.Views.{Lent, input, mem, seen};

use readers::state::{Answer, State};
use refusals::refusal::Refusal;
use sheet::names::K_NOP;
use sheet::numbers::legacy;
use sheet::tests::is_tag;

/// Passes kNop bytes up to the payload's end. At another byte a legacy reading ends, and else the
/// payload is refused there (`NoPadding`, 14).
pub fn padding(sheet: &[u16], p: &[u8], s: State) -> Answer<()>
    ensures { (tr : List ℕ) (sp : ℕ) (l : Lent) → seen result l ≡ Closing.padding (input sheet.now p.now sp tr) (length p.now - s.at) (mem s l) }
{
    let rest = &p[s.at.min(p.len())..];
    let nops = rest
        .iter()
        .position(|b| !is_tag(sheet, K_NOP, u64::from(*b)))
        .unwrap_or(rest.len());
    let t = State {
        at: s.at + nops,
        ..s
    };
    if nops == rest.len() || legacy(sheet) {
        return Ok(((), t));
    }
    Err(t.refused(Refusal::NoPadding))
}
