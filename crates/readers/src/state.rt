//! What a reader has, in numbers, and what it answers. What is lent beside it stands in a `Walker`.
ghost use Rattle.std.specs.Prelude.{◌≡◌, length};
ghost use Rattle.readers.specs.Views.{refused_at, cut_at};

use refusals::refusal::Refusal;

/// The cursor `at`, as a place in the payload; how many records each of the four tables has; the
/// next pending number and how many slots wait for one; the with-skip amount that stands, in bytes;
/// the alignment that is pending (crates/alloc/src/fill.rt); and how many of the integers that were
/// read whole were longer than their values need.
#[derive(Clone, Copy, Default)]
pub struct State {
    pub at: usize,
    pub objects: usize,
    pub slots: usize,
    pub values: usize,
    pub addresses: usize,
    pub pending: u64,
    pub waiting: u64,
    pub skip: u64,
    pub alignment: u64,
    pub long_integers: u64,
}

/// A refusal with its place in the payload and the state that it left.
#[derive(Clone, Copy)]
pub struct Refused {
    pub refusal: Refusal,
    pub place: usize,
    pub state: State,
}

/// What a reader answers: a value and the state after it, or a refusal.
pub type Answer<T> = Result<(T, State), Refused>;

impl State {
    /// A refusal at a place.
    pub fn refused_at(self, place: usize, refusal: Refusal) -> Refused
        ensures { result ≡ refused_at refusal place self }
    {
        Refused {
            refusal,
            place,
            state: self,
        }
    }

    /// A refusal at the cursor.
    pub fn refused(self, refusal: Refusal) -> Refused
        ensures { result ≡ refused_at refusal self.at self }
    {
        self.refused_at(self.at, refusal)
    }

    /// The refusal of a payload that ends where a byte is needed: the cursor moves to its end.
    pub fn cut(self, p: &[u8]) -> Refused
        ensures { result ≡ cut_at (length p.now) self }
    {
        State {
            at: p.len(),
            ..self
        }
        .refused(Refusal::PayloadEnds)
    }
}
