//! Small integers (Smi) as V8 keeps them in a tagged word (docs/FORMAT.md, "Small integers").
ghost use Rattle.std.specs.Prelude.{◌≡◌, ◌<◌, ◌^◌, length, IfSome, FitsSigned};
ghost use Rattle.std.specs.Int.{w32};
ghost use Rattle.stream.specs.Smi.{signed, smi_of};

use crate::bytes::little_endian;

// The signed number whose 32 bits are n.
#[tactic(auto, using(crate::proofs::SmiLaws::signed_is))]
fn signed32(n: u64) -> i64
    requires { n < 2 ^ 32 }
    ensures is { result ≡ signed n }
    ensures small { FitsSigned w32 result }
{
    i64::from((n as u32).cast_signed())
}

/// The small integer in the bytes of a word, which are little-endian.
///
/// Eight bytes whose lower half is zero give the upper half as a signed number. Four bytes that
/// are an even number give half of it, signed. `None` for all other bytes.
pub fn decode_smi_bytes(d: &[u8]) -> Option<i64>
    ensures is { result ≡ smi_of d.now }
    ensures small { IfSome result (FitsSigned w32) }
{
    if d.len() == 8 {
        let raw = little_endian(d, 0, 8);
        if raw % 4294967296 == 0 {
            return Some(signed32(raw / 4294967296));
        }
        return None;
    }
    if d.len() == 4 {
        let raw = little_endian(d, 0, 4);
        if raw % 2 == 0 {
            return Some(signed32(raw) >> 1);
        }
    }
    None
}
