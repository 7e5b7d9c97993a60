//! Why a call over filled tables is refused.
ghost use Rattle.std.specs.Prelude.{◌≡◌};

use refusals::refusal::Refusal;

/// A refusal and its place, which is 0: no byte of the payload is meant.
#[derive(Clone, Copy, Debug, PartialEq, Eq)]
pub struct Refused {
    pub refusal: Refusal,
    pub place: u64,
}

impl Refused {
    ghost use Rattle.filled.specs.Refused.{refused};

    /// A refusal of a call over filled tables.
    pub fn new(refusal: Refusal) -> Refused
        ensures { result ≡ refused refusal }
    {
        Refused { refusal, place: 0 }
    }
}
