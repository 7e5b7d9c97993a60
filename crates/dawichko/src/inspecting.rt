//! The inspection of a version sheet.
ghost use Rattle.std.specs.Prelude.{◌≡◌, ◌≢◌, ◌↔◌, replicate, true};
ghost use Rattle.sheet.specs.Sheet.{usable as isUsable};
ghost use Rattle.inspection.specs.Inspection.{Inspection};

use inspection::inspect::inspect;

/// For each of the 256 head bytes the place of the name that it obeys where a reference is read,
/// 65535 for none, and whether another name lays hold of it (`inspection::inspect::inspect`): 0, or
/// 1 where the sheet is not usable, and both are zero then.
#[unsafe(no_mangle)]
pub extern "C" fn dawichko_inspect(
    sheet: &[u16],
    names: &mut [u16; 256],
    shared: &mut [u8; 256],
) -> u64
    ensures usable { result ≡ 0 ↔ isUsable sheet.now ≡ true }
    ensures refused { result ≢ 0 → result ≡ 1 }
    ensures inspected { result ≡ 0 → Inspection sheet.now names.new shared.new }
    ensures names_zero { result ≢ 0 → names.new ≡ replicate 256 0 }
    ensures shared_zero { result ≢ 0 → shared.new ≡ replicate 256 0 }
{
    match inspect(sheet, names, shared) {
        Ok(()) => 0,
        Err(refusal) => refusal.number(),
    }
}
