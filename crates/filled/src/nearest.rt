//! The nearest slot so far, in a pass over the slots from the lowest on.
ghost use Rattle.std.specs.Prelude.{◌≡◌, ℕ, ◌+◌, ◌≤◌, Option, Some};

/// A slot, and how far its range is from the byte that is asked for.
#[derive(Clone, Copy)]
pub struct Near {
    pub slot: u64,
    pub distance: u64,
}

ghost use Rattle.filled.specs.Nearest.{Tracks};

/// The nearest slot when this one has been seen too, which may have no distance: of equally near
/// ones the lower number stays.
pub fn nearer(best: Option<Near>, slot: u64, distance: Option<u64>) -> Option<Near>
    ensures { (distance_of : ℕ → Option ℕ) (start : ℕ) → start ≤ slot → distance_of slot ≡ distance
        → Tracks distance_of start slot best
        → Tracks distance_of start (slot + 1) result }
{
    let Some(distance) = distance else {
        return best;
    };
    match best {
        Some(near) if near.distance <= distance => best,
        _ => Some(Near { slot, distance }),
    }
}
