//! Fillers that an alignment asks for, in bytes.
//!
//! An alignment is 0 for none, 1 for double-aligned and 2 for double-unaligned. It is a number and
//! no enum, since a payload can give any of them: another, as the 3 of the third alignment byte,
//! asks for no filler but moves the next free offset as the two do.
ghost use Rattle.std.specs.Prelude.{◌≡◌, ◌≤◌};
ghost use Rattle.alloc.specs.Fill.{fill_to_align, max_fill_to_align};

/// The most bytes that a filler can take, under words of `word` bytes: 8 less a word, at least 0
/// (the Rust's `max_fill_to_align`).
#[tactic(auto, unfolding(crate::specs::Fill::max_fill_to_align))]
pub fn max_fill_to_align(word: u64) -> u64
    ensures { result ≡ max_fill_to_align word }
{
    8u64.saturating_sub(word)
}

/// The bytes of filler before an object at an address, an offset in bytes (the Rust's
/// `fill_to_align`): a word for 1 where the address is no multiple of 8, the most that a filler can
/// take for 2 where it is one, else 0.
#[tactic(auto, unfolding(crate::specs::Fill::fill_to_align))]
pub fn fill_to_align(address: u64, alignment: u64, word: u64) -> u64
    ensures { result ≡ fill_to_align address alignment word }
{
    match alignment {
        1 if address % 8 != 0 => word,
        2 if address % 8 == 0 => max_fill_to_align(word),
        _ => 0,
    }
}
