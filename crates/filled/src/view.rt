//! The view of a raw slot: that part of the payload itself (docs/FORMAT.md, "Raw data").
//!
//! A view is asked with the payload of the call that filled the slot: of another payload it gives
//! other bytes, and no number can tell. It is refused with number 17 at place 0 in this order: the
//! slot is not listed; it is not raw, of kind 5 or 6; its range is not in the payload.
ghost use Rattle.std.specs.Prelude.{◌≡◌, length, IfOk};
ghost use Rattle.stream.specs.Bytes.{LiesAt};
ghost use Rattle.filled.specs.View.{view_of, viewed};

use crate::filled::Filled;
use crate::range::Range;
use crate::refused::Refused;
use refusals::refusal::Refusal;

/// Where the bytes of slot `k` lie in the payload.
pub fn raw_range(filled: Filled<'_>, payload: &[u8], k: u64) -> Result<Range, Refused>
    ensures { result ≡ view_of (length payload.now) filled.entry k }
{
    let no_view = Refused::new(Refusal::NoView);
    let range = filled.raw_slot(k).ok_or(no_view)?;
    if range.lies_in(payload.len() as u64) {
        Ok(range)
    } else {
        Err(no_view)
    }
}

/// The bytes of slot `k`: that part of the payload itself, in its memory.
///
/// Where `raw_range` refuses the slice is empty, and its memory is not said.
pub fn raw_bytes<'p>(filled: Filled<'_>, payload: &'p [u8], k: u64) -> &'p [u8]
    ensures bytes { result.now ≡ viewed payload.now (view_of (length payload.now) filled.entry k) }
    ensures memory { IfOk (view_of (length payload.now) filled.entry k)
        (λ range. LiesAt result payload.entry range.begin) }
{
    match raw_range(filled, payload, k) {
        Ok(range) => &payload[range.begin as usize..(range.begin + range.len) as usize],
        Err(_) => &[],
    }
}
