//! The numbers of the file of cases (docs/VECTORS.md).
ghost use Rattle.std.specs.Prelude.{◌≡◌, ◌≤◌, ◌↔◌, min, IsTrue, IfOk, length, vec_len};
ghost use Rattle.std.specs.Int.{from_le_bytes};
ghost use Rattle.std.specs.Iterator.{at_most};
ghost use mir.Syntax.{w64};
ghost use Rattle.std.specs.Option.{unwrap_or};
ghost use Rattle.vectors.specs.Numbers.{IsFrozen, after_number, after_numbers, after_table, first_number, numbers, places};

use std::alloc::{AllocError, Global};

/// The bytes that are not read yet.
#[derive(Drop)]
pub struct Numbers<'a>(pub &'a [u8]);

// The bytes as a number, the first byte lowest.
fn little_endian(bytes: &[u8]) -> u64
    requires { length bytes.now ≤ 8 }
    ensures { result ≡ from_le_bytes w64 bytes.now }
{
    let mut word = [0u8; 8];
    word[..bytes.len()].copy_from_slice(bytes);
    u64::from_le_bytes(word)
}

impl Iterator for Numbers<'_> {
    type Item = u64;

    ghost next_gives = { λ s r t. (r ≡ first_number s.0.now) × (t.0.now ≡ after_number s.0.now) };

    ghost remaining = { λ s. at_most (length s.0.now) };

    // One byte below 248; else 247 and the number of bytes, which follow, the lowest first.
    fn next(&mut self) -> Option<u64> {
        let (first, rest) = self.0.split_first()?;
        let n = usize::from(first.saturating_sub(247));
        if n == 0 {
            self.0 = rest;
            return Some(u64::from(*first));
        }
        if rest.len() < n {
            self.0 = &[];
            return None;
        }
        let (bytes, rest) = rest.split_at(n);
        self.0 = rest;
        Some(little_endian(bytes))
    }
}

impl Numbers<'_> {
    /// The next number; 0 where none is left, so a file that is cut short has cases that differ.
    pub fn number(&mut self) -> u64
        ensures value { result ≡ unwrap_or (first_number self.old.0.now) 0 }
        ensures rest { self.new.0.now ≡ after_number self.old.0.now }
    {
        self.next().unwrap_or(0)
    }

    /// The next number, or `most` where it is greater.
    pub fn length(&mut self, most: usize) -> usize
        ensures value { result ≡ min (unwrap_or (first_number self.old.0.now) 0) most }
        ensures rest { self.new.0.now ≡ after_number self.old.0.now }
    {
        usize::try_from(self.number()).unwrap_or(most).min(most)
    }

    /// Numbers with their length before them. At most `most` are read, and one that `T` can't hold
    /// counts as 0.
    pub fn list<T: TryFrom<u64> + Default>(
        &mut self,
        alloc: Global,
        most: usize,
    ) -> Result<Vec<T>, AllocError>
    where
        T: Drop,
        T::Error: Drop,
        ensures { IfOk result (λ v. vec_len v ≡ min (unwrap_or (first_number self.old.0.now) 0) most) }
    {
        let len = self.length(most);
        let mut list = Vec::new(alloc);
        list.resize_with(len, || T::try_from(self.number()).unwrap_or_default())?;
        Ok(list)
    }

    // Whether the next numbers are these.
    fn next_are(&mut self, those: &[u64]) -> bool
        ensures same { IsTrue result ↔ (those.now ≡ numbers (length those.now) self.old.0.now) }
        ensures rest { self.new.0.now ≡ after_numbers (length those.now) self.old.0.now }
    {
        let mut same = true;
        for n in those {
            same &= *n == self.number();
        }
        same
    }

    /// Whether a table has the frozen records, `count` of so many fields, and zeros after them. A
    /// count of 100,000 or more is read as 0.
    pub fn is_frozen(&mut self, table: &[u64], count: u64, fields: u64) -> bool
        ensures same { IsTrue result ↔ IsFrozen self.old.0.now (places count fields) table.now }
        ensures rest { self.new.0.now ≡ after_table self.old.0.now (places count fields) table.now }
    {
        let count = if count < 100000 { count } else { 0 };
        let len = usize::try_from(count.saturating_mul(fields)).unwrap_or(usize::MAX);
        let (records, rest) = table.split_at(len.min(table.len()));
        (len <= table.len()) & self.next_are(records) & rest.iter().all(|n| *n == 0)
    }
}
