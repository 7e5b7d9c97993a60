//! Bytes, little-endian numbers and raw ranges at a place of a payload.
//!
//! Payload and place are two parameters, since the walk keeps its place in a state that it passes
//! by value. `Reader` of crate `reader` holds both.
ghost use Rattle.std.specs.Prelude.{◌≡◌, ℕ, ◌+◌, ◌<◌, ◌≤◌, length, get_or};
ghost use Rattle.stream.specs.Bytes.{little_endian, peek_at, raw_at};

/// The byte at a place below the payload's length, as a number from 0 to 255.
pub fn byte(p: &[u8], at: usize) -> u64
    requires { at < length p.now }
    ensures { (result ≡ get_or p.now at 0) × (result < 256) }
{
    u64::from(p[at])
}

/// The byte at a place, or 256 where none is left. No tag has the value 256, so a test for a tag
/// needs no test for the payload's end.
#[tactic(auto, unfolding(crate::specs::Bytes::peek_at))]
pub fn peek(p: &[u8], at: usize) -> u64
    ensures { result ≡ peek_at p.now at }
{
    p.get(at).map_or(256, |b| u64::from(*b))
}

/// The `n` bytes from a place on as one number, the first byte lowest; `n` is at most 8.
pub fn little_endian(p: &[u8], at: usize, n: usize) -> u64
    requires { (at + n ≤ length p.now) × (n ≤ 8) }
    ensures { result ≡ little_endian p.now at n }
{
    let mut raw: u64 = 0;
    for i in 0..n {
        raw |= byte(p, at + i) << (8 * i);
    }
    raw
}

/// The place where a raw range of `n` bytes that begins at `at` ends; `None` where it passes the
/// payload's end.
pub fn raw(p: &[u8], at: usize, n: usize) -> Option<usize>
    ensures { result ≡ raw_at p.now at n }
{
    if p.len() < at || p.len() - at < n {
        return None;
    }
    Some(at + n)
}
