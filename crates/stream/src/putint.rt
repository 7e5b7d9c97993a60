//! The integer of one to four bytes, written by V8's `PutUint30` (`PutInt` in older versions).
//!
//! The low two bits of the first byte plus 1 say how many bytes it has. These bytes are one
//! little-endian number, and the value is that number shifted right by 2 (docs/FORMAT.md,
//! "Integers").
ghost use Rattle.std.specs.Prelude.{◌≡◌, length};
ghost use Rattle.stream.specs.PutInt.{int_at, is_long as isLong, shortest, Small};

use crate::bytes::{byte, little_endian};

/// An integer's value and its byte count.
#[derive(Clone, Copy)]
pub struct Int {
    /// Below 2^30.
    pub value: u32,
    /// From 1 to 4.
    pub count: usize,
}

// The fewest bytes that a value needs.
#[tactic(auto, unfolding(crate::specs::PutInt::shortest))]
fn shortest(value: u32) -> usize
    ensures { result ≡ shortest value }
{
    if value < 64 {
        1
    } else if value < 16384 {
        2
    } else if value < 4194304 {
        3
    } else {
        4
    }
}

impl Int {
    /// It has more bytes than its value needs: a shorter integer has the same value. An integer of
    /// one byte is never long, and this is asked first.
    #[tactic(auto, using(crate::proofs::IntegerLaws::one_is_short), unfolding(crate::specs::PutInt::is_long))]
    #[inline(always)]
    pub fn is_long(self) -> bool
        ensures { result ≡ isLong self }
    {
        1 < self.count && shortest(self.value) < self.count
    }
}

/// The integer at a place; `None` where the payload ends before it does.
pub fn putint(p: &[u8], at: usize) -> Option<Int>
    ensures value { result ≡ int_at p.now at }
    ensures small { Small result }
{
    if p.len() <= at {
        return None;
    }
    let count = ((byte(p, at) & 3) + 1) as usize;
    if p.len() - at < count {
        return None;
    }
    let value = (little_endian(p, at, count) >> 2) as u32;
    Some(Int { value, count })
}
