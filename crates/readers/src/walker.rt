//! What is lent to the readers of a walk.
ghost use Rattle.std.specs.Prelude.{◌≡◌, ◌≤◌, length, IfSome, IsNone};
ghost use Rattle.readers.specs.Lent.{HeadAt};

use alloc::legacy_alloc::LegacyAlloc;
use backref::hot_ring::HotRing;
use heads::heads::Head;

/// How deep a reference may stand: one deeper is refused.
pub const DEEPEST: usize = 64;

/// What a walk reads and what it writes, beside the `State` (the Rust's `Walker`).
///
/// Read: the version sheet, what each head byte means under it, the trusted list, the payload, and
/// how many spaces have counters. Written: the four tables; a place for each pending number; the
/// index of legacy addresses; the hot ring; and the counters of each space.
///
/// What has to be known of these stands in the clauses that need it, and in no ghost field: the
/// counts of the tables' records are the state's. Most readers stand in the crates above, where a
/// type of this crate has no methods, so all but `head_at` are functions.
#[derive(Drop)]
pub struct Walker<'a> {
    pub sheet: &'a [u16],
    pub heads: &'a [Head; 256],
    pub trusted: &'a [u8],
    pub payload: &'a [u8],
    pub spaces: u64,
    pub objects: &'a mut [u64],
    pub slots: &'a mut [u64],
    pub values: &'a mut [u64],
    pub addresses: &'a mut [u64],
    pub pending: &'a mut [u64],
    pub index: &'a mut [u64],
    pub hot: HotRing,
    pub alloc: LegacyAlloc,
}

impl Walker<'_> {
    /// What the byte at a place means as a head; none where the payload has ended.
    pub fn head_at(&self, at: usize) -> Option<Head>
        ensures some { IfSome result (HeadAt self.now at) }
        ensures none { IsNone result → length self.now.payload.now ≤ at }
    {
        let byte = *self.payload.get(at)?;
        Some(self.heads[byte as usize])
    }
}
