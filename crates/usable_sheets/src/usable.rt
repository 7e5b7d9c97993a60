//! Which sheets are usable and plain (docs/FORMAT.md, "The version sheet").
ghost use Rattle.std.specs.Prelude.{◌≡◌, ◌<◌};
ghost use Rattle.sheet.specs.Sheet as Sheet;

use sheet::names::{
    ABSENT, K_ALIGNMENT_PREFIX, K_BACKREF, K_BACKREF_WITH_SKIP, K_DEFERRED, K_FIXED_RAW_DATA,
    K_FIXED_REPEAT, K_FIXED_REPEAT_ROOT, K_HOT_OBJECT, K_HOT_OBJECT_WITH_SKIP, K_NEW_OBJECT,
    K_ROOT_ARRAY_CONSTANTS, K_ROOT_ARRAY_CONSTANTS_WITH_SKIP, K_SKIP, K_SPACE_MASK, NAMED,
    REQUIRED, SHEET_LENGTH,
};
use sheet::numbers::{
    legacy, number, number_of_spaces, page_size_bits, present, root_mask, six_x, space_tag_size,
    word_bytes,
};

// At most so much, or absent where that may be.
fn within(most: u64, absent: bool, x: u64) -> bool
    ensures { result ≡ Sheet.within most absent x }
{
    x <= most || (absent && x == u64::from(ABSENT))
}

// n numbers from the first on are within.
fn all_within(sheet: &[u16], most: u64, absent: bool, n: usize) -> bool
    ensures { result ≡ Sheet.all_within sheet.now most absent 0 n }
{
    (0..n).all(|i| within(most, absent, number(sheet, i)))
}

fn between(low: u64, high: u64, x: u64) -> bool
    ensures { result ≡ Sheet.between low high x }
{
    (low..=high).contains(&x)
}

// The first byte after a present name's span is at most 255.
fn span_fits(sheet: &[u16], k: usize, n: u64) -> bool
    requires { n < 65537 }
    ensures { result ≡ Sheet.span_fits sheet.now k n }
{
    !present(sheet, k) || number(sheet, k) + n <= 255
}

// The spans of every family.
fn spans_fit(sheet: &[u16]) -> bool
    ensures { result ≡ Sheet.spans_fit sheet.now }
{
    let constants = root_mask(sheet) + 1;
    span_fits(sheet, K_HOT_OBJECT, 8)
        && span_fits(sheet, K_HOT_OBJECT_WITH_SKIP, 8)
        && span_fits(sheet, K_ROOT_ARRAY_CONSTANTS, constants)
        && span_fits(sheet, K_ROOT_ARRAY_CONSTANTS_WITH_SKIP, constants)
        && span_fits(sheet, K_FIXED_RAW_DATA, 32)
        && span_fits(sheet, K_FIXED_REPEAT, 16)
        && span_fits(sheet, K_FIXED_REPEAT_ROOT, 16)
        && span_fits(sheet, K_ALIGNMENT_PREFIX, 3)
}

// The spans of legacy sheets.
fn legacy_spans_fit(sheet: &[u16]) -> bool
    ensures { result ≡ Sheet.legacy_spans_fit sheet.now }
{
    let spaces = number_of_spaces(sheet);
    !legacy(sheet)
        || (span_fits(sheet, K_NEW_OBJECT, spaces)
            && span_fits(sheet, K_BACKREF, spaces)
            && span_fits(sheet, K_BACKREF_WITH_SKIP, spaces))
}

/// Whether a sheet is usable: 58 numbers, words of 4 or 8 bytes, the nine required names, present
/// tags and constants of at most 255, kSpaceTagSize and kPageSizeBits in their bounds, 6.x only
/// with legacy, and each span's end at most 255. A call with another sheet is refused with 1.
#[tactic(auto, unfolding(sheet::specs::Sheet::usable))]
pub fn usable(sheet: &[u16]) -> bool
    ensures { result ≡ Sheet.usable sheet.now }
{
    let word = word_bytes(sheet);
    sheet.len() == SHEET_LENGTH
        && (word == 4 || word == 8)
        && all_within(sheet, 65534, false, REQUIRED)
        && all_within(sheet, 255, true, NAMED)
        && between(1, 16, space_tag_size(sheet))
        && between(3, 28, page_size_bits(sheet))
        && (!six_x(sheet) || legacy(sheet))
        && spans_fit(sheet)
        && legacy_spans_fit(sheet)
}

/// Whether a sheet is plain: usable, and without kSpaceMask, kBackrefWithSkip, kHotObjectWithSkip,
/// kRootArrayConstantsWithSkip, kSkip and kDeferred.
#[tactic(auto, unfolding(sheet::specs::Sheet::plain))]
pub fn plain(sheet: &[u16]) -> bool
    ensures { result ≡ Sheet.plain sheet.now }
{
    usable(sheet)
        && !present(sheet, K_SPACE_MASK)
        && !present(sheet, K_BACKREF_WITH_SKIP)
        && !present(sheet, K_HOT_OBJECT_WITH_SKIP)
        && !present(sheet, K_ROOT_ARRAY_CONSTANTS_WITH_SKIP)
        && !present(sheet, K_SKIP)
        && !present(sheet, K_DEFERRED)
}
