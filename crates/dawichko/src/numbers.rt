//! Raw data: its bytes, and the numbers in it.
ghost use Rattle.std.specs.Prelude.{◌≡◌, ◌≢◌, ◌↔◌, length, replicate};
ghost use Rattle.stream.specs.Smi.{smi_of};
ghost use Rattle.dawichko.specs.Part.{whole_of, Listed};
ghost use Rattle.dawichko.specs.Told.{wish_of, number_bits, smi_bits, smi_number, IsNumber, IsView};

use crate::part::part_of;
use filled::number::{Number, Wish, number_at};
use filled::view::raw_range;
use stream::smi::decode_smi_bytes;

/// What a number asks for.
fn wish_of(wish: u64) -> Wish
    ensures { result ≡ wish_of wish }
{
    if wish == 0 {
        Wish::Double
    } else {
        Wish::Smi(wish)
    }
}

/// Kind and bits of a number.
fn bits_of(number: Number) -> [u64; 2]
    ensures { result ≡ number_bits number }
{
    match number {
        Number::Empty => [0, 0],
        Number::Smi(value) => [1, i64::from(value).cast_unsigned()],
        Number::Double(double) => [2, double.bits],
    }
}

/// The number at a byte of raw slot `slot`, counted from its range's first byte: 0, or 17 where the
/// counts do not fit the tables, or the slot has no view (`dawichko_view`). A wish of 0 asks for a
/// double, any other for a Smi in a word of so many bytes. The answer is a kind and bits: 0 and 0
/// where there is no number, 1 and a small integer, sign-extended, 2 and the bits of a double. It
/// is zero after a refusal.
#[unsafe(no_mangle)]
pub extern "C" fn dawichko_number(
    objects: &[u64],
    slots: &[u64],
    values: &[u64],
    addresses: &[u64],
    counts: &[u64; 4],
    payload: &[u8],
    slot: u64,
    at: u64,
    wish: u64,
    answer: &mut [u64; 2],
) -> u64
    ensures number { Listed (whole_of objects.now slots.now values.now addresses.now counts.now)
        → IsNumber (whole_of objects.now slots.now values.now addresses.now counts.now)
        payload.now slot at wish result answer.new }
    ensures listed { result ≢ 17
        → Listed (whole_of objects.now slots.now values.now addresses.now counts.now) }
    ensures cleared { result ≢ 0 → answer.new ≡ replicate 2 0 }
{
    *answer = [0; 2];
    match part_of(objects, slots, values, addresses, &[0; 4], counts) {
        Ok(part) => match number_at(part, payload, slot, at, wish_of(wish)) {
            Ok(number) => {
                *answer = bits_of(number);
                0
            }
            Err(e) => e.refusal.number(),
        },
        Err(e) => e.refusal.number(),
    }
}

/// Where the bytes of raw slot `slot` lie in a payload of so many bytes: 0, or 17 where the counts
/// do not fit the tables, or the slot is not listed, is not raw, or has a range that is not in the
/// payload. The range is offset and length, zero after a refusal.
#[unsafe(no_mangle)]
pub extern "C" fn dawichko_view(
    objects: &[u64],
    slots: &[u64],
    values: &[u64],
    addresses: &[u64],
    counts: &[u64; 4],
    payload: &[u8],
    slot: u64,
    range: &mut [u64; 2],
) -> u64
    ensures view { Listed (whole_of objects.now slots.now values.now addresses.now counts.now)
        → IsView (whole_of objects.now slots.now values.now addresses.now counts.now)
        (length payload.now) slot result range.new }
    ensures listed { result ≢ 17
        → Listed (whole_of objects.now slots.now values.now addresses.now counts.now) }
    ensures cleared { result ≢ 0 → range.new ≡ replicate 2 0 }
{
    *range = [0; 2];
    match part_of(objects, slots, values, addresses, &[0; 4], counts) {
        Ok(part) => match raw_range(part, payload, slot) {
            Ok(r) => {
                *range = [r.begin, r.len];
                0
            }
            Err(e) => e.refusal.number(),
        },
        Err(e) => e.refusal.number(),
    }
}

/// The small integer in the bytes of a word (`stream::smi::decode_smi_bytes`): 1 where they are
/// one, and the answer is its bits, sign-extended; else 0, and the answer is zero.
#[unsafe(no_mangle)]
pub extern "C" fn dawichko_smi(bytes: &[u8], answer: &mut [u64; 1]) -> u64
    ensures number { result ≡ smi_number (smi_of bytes.now) }
    ensures bits { answer.new ≡ smi_bits (smi_of bytes.now) }
{
    match decode_smi_bytes(bytes) {
        Some(value) => {
            *answer = [value.cast_unsigned()];
            1
        }
        None => {
            *answer = [0];
            0
        }
    }
}
