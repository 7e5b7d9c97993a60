//! The ring of hot objects (docs/FORMAT.md, "The hot ring").
ghost use Rattle.std.specs.Prelude.{◌≡◌, ◌<◌};
ghost use Rattle.backref.specs.HotRing.{empty_ring, entered, hot_at};

use tables::values::Ref;

/// The ring of hot objects (the Rust's `HotRing`): eight places, each of which holds a reference or
/// is empty, and the place to fill next.
#[derive(Clone, Copy)]
pub struct HotRing {
    pub places: [Option<Ref>; 8],
    pub next: usize,
}

impl HotRing {
    /// A ring whose every place is empty.
    pub fn new() -> HotRing
        ensures { result ≡ empty_ring }
    {
        HotRing {
            places: [None; 8],
            next: 0,
        }
    }

    /// A reference enters the ring at the place to fill next, and the ring moves on (the Rust's
    /// `add`).
    #[tactic(auto, unfolding(crate::specs::HotRing::entered))]
    pub fn add(&mut self, r: Ref)
        ensures { self.new ≡ entered self.old r }
    {
        let i = self.next % 8;
        self.places[i] = Some(r);
        self.next = (i + 1) % 8;
    }

    /// What stands at a place below 8; none where it is empty (the Rust's `get`).
    #[tactic(auto, unfolding(crate::specs::HotRing::hot_at))]
    pub fn get(&self, place: usize) -> Option<Ref>
        requires { place < 8 }
        ensures { result ≡ hot_at self.now place }
    {
        self.places[place]
    }
}
