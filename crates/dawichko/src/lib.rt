//! The entry points for C and Rust; include/dawichko.h declares them.
#![tactic(auto)]

pub mod covering;
pub mod inspecting;
pub mod keeping;
pub mod numbers;
pub mod part;

ghost use Rattle.std.specs.Prelude.{true, ◌≡◌, ◌≢◌, ◌≤◌};
ghost use Rattle.sheet.specs.Sheet as Sheet;
ghost use Rattle.cache_graph.specs.Promise.{call_of, rooms_of, IsAccepted, IsRefused, RefusalNumber, Reads, Assures, Cleared};
ghost use Rattle.cache_graph.specs.SecondCall.{SecondCalls};
ghost use Rattle.dawichko.specs.Export.{outcome_of};

use cache_graph::parse::{Call, Tables, parse_with};

/// The object graph of a payload, in the four tables: 0, or a refusal's number, 1 to 16, after
/// which every table is zero. What is given and lent is as for `cache_graph::parse::parse_with`.
/// The outcome is the four record counts, the cursor at the finish, the refusal's place and the
/// number of long integers; of a refusal all but the sixth are 0, of an accepted payload the sixth.
#[unsafe(no_mangle)]
pub extern "C" fn dawichko_graph(
    sheet: &[u16],
    payload: &[u8],
    reservations: &[u32],
    trusted: &[u8],
    objects: &mut [u64],
    slots: &mut [u64],
    values: &mut [u64],
    addresses: &mut [u64],
    scratch: &mut [u64],
    outcome: &mut [u64; 7],
) -> u64
    ensures reads { Reads (call_of sheet.now payload.now reservations.now trusted.now) (rooms_of objects.old slots.old values.old addresses.old) (outcome_of result outcome.new) objects.new slots.new values.new addresses.new }
    ensures accepted { IsAccepted (call_of sheet.now payload.now reservations.now trusted.now)
        (rooms_of objects.old slots.old values.old addresses.old) → result ≡ 0 }
    ensures refused { IsRefused (call_of sheet.now payload.now reservations.now trusted.now)
        (rooms_of objects.old slots.old values.old addresses.old) → RefusalNumber result }
    ensures numbered { result ≤ 16 }
    ensures cleared { result ≢ 0 → Cleared (rooms_of objects.old slots.old values.old addresses.old)
        objects.new slots.new values.new addresses.new }
    ensures second { Sheet.plain sheet.now ≡ true → result ≡ 0 →
        SecondCalls (call_of sheet.now payload.now reservations.now trusted.now)
        (rooms_of objects.old slots.old values.old addresses.old) (outcome_of result outcome.new)
        objects.new slots.new values.new addresses.new }
    ensures assured { Sheet.plain sheet.now ≡ true → result ≡ 0 → Assures (call_of sheet.now payload.now reservations.now trusted.now) (rooms_of objects.old slots.old values.old addresses.old) (outcome_of result outcome.new) objects.new slots.new values.new addresses.new }
{
    let call = Call {
        sheet,
        payload,
        reservations,
        trusted,
    };
    let mut tables = Tables {
        objects,
        slots,
        values,
        addresses,
        scratch,
    };
    match parse_with(call, &mut tables) {
        Ok(g) => {
            *outcome = [
                g.objects,
                g.slots,
                g.values,
                g.addresses,
                g.end,
                0,
                g.long_integers,
            ];
            0
        }
        Err(e) => {
            *outcome = [0, 0, 0, 0, 0, e.place, 0];
            e.refusal.number()
        }
    }
}
