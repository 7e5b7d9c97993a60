//! A byte, an integer and a with-skip amount at the cursor, of the payload `p`. Each is refused as
//! cut off where the payload ends in it.
ghost use Rattle.std.specs.Prelude.{List, ◌≡◌, ℕ, ◌^◌, ◌<◌};
ghost use Rattle.definition.specs.Memory as Memory;
ghost use Rattle.definition.specs.Reference.{skip_amount};
ghost use Rattle.readers.specs.Views.{Lent, input, mem, seen, Below, Counts, CountsAfter};

use crate::state::{Answer, State};
use stream::putint::putint;

/// A byte (the Rust's `byte`).
#[tactic(auto, unfolding(definition::specs::Memory::byte))]
pub fn read_byte(p: &[u8], s: State) -> Answer<u64>
    ensures by_index { (v tr : List ℕ) (sp : ℕ) (l : Lent) → seen result l ≡ Memory.byte (input v p.now sp tr) (mem s l) }
    ensures small { Below 256 result }
{
    let byte = *p.get(s.at).ok_or(s.cut(p))?;
    Ok((u64::from(byte), State { at: s.at + 1, ..s }))
}

/// An integer, which is below 2 ^ 30 (the Rust's `putint`; docs/FORMAT.md, "Integers"). One that is
/// longer than its value needs is counted.
#[tactic(auto, using(crate::proofs::IntLaws::int_ends), unfolding(definition::specs::Memory::int))]
pub fn read_int(p: &[u8], s: State) -> Answer<u64>
    requires { Counts s }
    ensures by_index { (v tr : List ℕ) (sp : ℕ) (l : Lent) → seen result l ≡ Memory.int (input v p.now sp tr) (mem s l) }
    ensures small { Below (2 ^ 30) result }
    ensures counts { CountsAfter result }
{
    let at = s.at;
    let i = putint(p, at).ok_or(s.cut(p))?;
    let t = State {
        at: at + i.count,
        long_integers: s.long_integers + u64::from(i.is_long()),
        ..s
    };
    Ok((i.value as u64, t))
}

/// A with-skip amount, in bytes: it is added to the state's, which stands until the next slot item
/// has been read.
#[tactic(auto, using(crate::proofs::IntLaws::skip_is))]
pub fn read_skip(p: &[u8], s: State) -> Answer<()>
    requires { (s.skip < 2 ^ 63) × Counts s }
    ensures counts { CountsAfter result }
    ensures is { (v tr : List ℕ) (sp : ℕ) (l : Lent) → seen result l ≡ skip_amount (input v p.now sp tr) (mem s l) }
{
    let (n, t) = read_int(p, s)?;
    let u = State {
        skip: s.skip + n,
        ..t
    };
    Ok(((), u))
}
