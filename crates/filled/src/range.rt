//! A raw range, seen from a payload byte.
ghost use Rattle.std.specs.Prelude.{◌≡◌, ◌≤◌, ◌↔◌, IsTrue};

/// A range of a payload. Any two numbers are one: their sum may pass 2^64 - 1.
#[derive(Clone, Copy, Debug, PartialEq, Eq)]
pub struct Range {
    pub begin: u64,
    pub len: u64,
}

impl Range {
    ghost use Rattle.filled.specs.Sides.{end_of, contains, distance_before, distance_after};

    /// It lies in a payload of so many bytes.
    pub fn lies_in(self, bytes: u64) -> bool
        ensures { IsTrue result ↔ (end_of self ≤ bytes) }
    {
        self.begin <= bytes && self.len <= bytes - self.begin
    }

    /// The byte lies in it.
    pub fn contains(self, offset: u64) -> bool
        ensures { result ≡ contains self offset }
    {
        self.begin <= offset && offset - self.begin < self.len
    }

    /// How far before the byte it ends, if it ends at the byte or before it.
    pub fn distance_before(self, offset: u64) -> Option<u64>
        ensures { result ≡ distance_before self offset }
    {
        offset.checked_sub(self.begin)?.checked_sub(self.len)
    }

    /// How far after the byte it begins, if it begins after it.
    pub fn distance_after(self, offset: u64) -> Option<u64>
        ensures { result ≡ distance_after self offset }
    {
        (offset < self.begin).then(|| self.begin - offset)
    }
}
