//! The number at a byte of a raw slot.
ghost use Rattle.std.specs.Prelude.{◌≡◌, ◌+◌, ◌≤◌, ◌↔◌, length, take, drop, IsSome, IfSome};
ghost use Rattle.filled.specs.Numbers.{number_in, number_at};

use crate::filled::Filled;
use crate::refused::Refused;
use crate::view::{raw_bytes, raw_range};
use stream::bytes::little_endian;
use stream::smi::decode_smi_bytes;

/// What is asked for.
#[derive(Clone, Copy, Debug, PartialEq, Eq)]
pub enum Wish {
    /// A small integer, in a word of so many bytes.
    Smi(u64),
    /// A double, in eight bytes.
    Double,
}

/// A double by its 64 bits, a NaN's too: Rattle makes no `f64` of the bits of a NaN.
#[derive(Clone, Copy, Debug, PartialEq, Eq)]
pub struct Double {
    pub bits: u64,
}

/// The answer.
#[derive(Clone, Copy, Debug, PartialEq, Eq)]
pub enum Number {
    Smi(i32),
    Double(Double),
    /// No number: too few bytes are left, or the word is no small integer, as no word of another
    /// size than 4 or 8 is.
    Empty,
}

/// The n bytes from a place on, if so many are left there.
fn part_of(bytes: &[u8], at: u64, n: u64) -> Option<&[u8]>
    ensures left { IsSome result ↔ (at + n ≤ length bytes.now) }
    ensures part { IfSome result (λ part. part.now ≡ take n (drop at bytes.now)) }
{
    let end = at.checked_add(n)?;
    if (bytes.len() as u64) < end {
        return None;
    }
    Some(&bytes[at as usize..end as usize])
}

/// The number at a place in some bytes.
pub fn number_in(bytes: &[u8], at: u64, wish: Wish) -> Number
    ensures { result ≡ number_in bytes.now at wish }
{
    match wish {
        Wish::Double => match part_of(bytes, at, 8) {
            Some(part) => Number::Double(Double {
                bits: little_endian(part, 0, 8),
            }),
            None => Number::Empty,
        },
        Wish::Smi(size) => match part_of(bytes, at, size) {
            Some(word) => match decode_smi_bytes(word) {
                Some(value) => Number::Smi(value as i32),
                None => Number::Empty,
            },
            None => Number::Empty,
        },
    }
}

/// The number at a place in the range of raw slot `k`, counted from the range's first byte.
/// Refused as the view of the slot is.
pub fn number_at(
    filled: Filled<'_>,
    payload: &[u8],
    k: u64,
    at: u64,
    wish: Wish,
) -> Result<Number, Refused>
    ensures { result ≡ number_at filled.entry payload.now k at wish }
{
    raw_range(filled, payload, k)?;
    Ok(number_in(raw_bytes(filled, payload, k), at, wish))
}
