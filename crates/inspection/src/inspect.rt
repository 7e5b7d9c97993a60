//! The inspection of a version sheet.

ghost use Rattle.std.specs.Prelude.{◌≡◌, Some, IfOk, IfErr, is_ok, replicate};
ghost use Rattle.sheet.specs.Sheet.{usable as isUsable};
ghost use Rattle.heads.specs.Heads.{order, claims as rowClaims};
ghost use Rattle.refusals.specs.declared.refusal.Refusal.TheVariants.{UnusableSheet};
ghost use Rattle.inspection.specs.Inspection.{Inspection};
ghost use Rattle.inspection.specs.Rows.{joined, Found as FoundBy};

use heads::heads::{span_of, tested};
use heads::order::{Claim, ORDER};
use refusals::refusal::Refusal;
use sheet::names::ABSENT;
use sheet::numbers::{number, present};
use usable_sheets::usable::usable;

// Whether a row's name lays hold of a byte.
fn claims(sheet: &[u16], row: Claim, b: u64) -> bool
    ensures { result ≡ rowClaims sheet.now row b }
{
    let first = number(sheet, row.name);
    present(sheet, row.name)
        && tested(sheet, row.family)
        && first <= b
        && b - first < span_of(sheet, row.span)
}

// The name that a byte obeys, and whether another lays hold of it.
#[derive(Clone, Copy)]
struct Found {
    name: Option<u16>,
    shared: bool,
}

// With one more row that lays hold of the byte, before those so far.
fn with_row(found: Found, name: u16) -> Found
    ensures name { result.name ≡ Some name }
    ensures shared { result.shared ≡ joined found.name found.shared name }
{
    let shared = match found.name {
        None => false,
        Some(other) => other != name || found.shared,
    };
    Found {
        name: Some(name),
        shared,
    }
}

// What lays hold of a byte. The rows are taken from the last to the first, so that the first that
// lays hold of it stays.
fn find(sheet: &[u16], b: u64) -> Found
    ensures { FoundBy sheet.now order b result.name result.shared }
{
    let mut found = Found {
        name: None,
        shared: false,
    };
    for c in ORDER.iter().rev() {
        if claims(sheet, *c, b) {
            found = with_row(found, c.name as u16);
        }
    }
    found
}

/// Writes for each of the 256 head bytes which name it obeys where a reference is read, and whether
/// another name lays hold of it too.
///
/// `names` gets the name's place in the sheet (docs/SHEET.md), 65535 where the byte has no meaning.
/// `shared` gets 1 where another present name lays hold of the byte, too, else 0. A name counts by
/// its span at a reference's head, and where this sheet tests it there.
///
/// A sheet that is not usable is refused with `Refusal::UnusableSheet`, and both are zero then.
pub fn inspect(sheet: &[u16], names: &mut [u16; 256], shared: &mut [u8; 256]) -> Result<(), Refusal>
    ensures usable { is_ok result ≡ isUsable sheet.now }
    ensures refusal { IfErr result (λ refusal. refusal ≡ UnusableSheet) }
    ensures inspected { IfOk result (λ done. Inspection sheet.now names.new shared.new) }
    ensures names_zero { IfErr result (λ refusal. names.new ≡ replicate 256 0) }
    ensures shared_zero { IfErr result (λ refusal. shared.new ≡ replicate 256 0) }
{
    *names = [0; 256];
    *shared = [0; 256];
    if !usable(sheet) {
        return Err(Refusal::UnusableSheet);
    }
    for b in 0..256 {
        let found = find(sheet, b as u64);
        names[b] = found.name.unwrap_or(ABSENT);
        shared[b] = u8::from(found.shared);
    }
    Ok(())
}
