//! The numbers of a version sheet, with the defaults of those that are absent, and what they make
//! the sheet.
//!
//! A sheet is a slice, as C lends it. A number is a `u64` below 65536, since all that is made of it
//! has 64 bits.
ghost use Rattle.std.specs.Prelude.{◌≡◌, ◌/◌, ◌<◌, IfSome};
ghost use Rattle.sheet.specs.Sheet as Sheet;

use crate::names::{
    ABSENT, K_BACKREF_WITH_SKIP, K_LO_SPACE, K_MAP_SPACE, K_NEW_META_MAP, K_NEW_OBJECT,
    K_NUMBER_OF_SPACES, K_PAGE_SIZE_BITS, K_ROOT_ARRAY, K_ROOT_ARRAY_CONSTANTS_MASK, K_SPACE_MASK,
    K_SPACE_TAG_SIZE, TAGGED_SIZE, VAR_RAW_ADVANCES,
};

/// The number at place `k` of the sheet; 65535 where it is absent, as is every place past the
/// sheet's end.
pub fn number(sheet: &[u16], k: usize) -> u64
    ensures { (result ≡ Sheet.number sheet.now k) × (result < 65536) }
{
    u64::from(sheet.get(k).copied().unwrap_or(ABSENT))
}

/// The number at place `k`; `None` where it is absent.
pub fn present_number(sheet: &[u16], k: usize) -> Option<u64>
    ensures { (result ≡ Sheet.present_number sheet.now k) × IfSome result (λ n. n < 65536) }
{
    present(sheet, k).then_some(number(sheet, k))
}

/// Whether the number at place `k` is present.
pub fn present(sheet: &[u16], k: usize) -> bool
    ensures { result ≡ Sheet.present sheet.now k }
{
    number(sheet, k) != u64::from(ABSENT)
}

// A constant, or its default where it is absent.
fn constant(sheet: &[u16], k: usize, default: u64) -> u64
    requires { default < 65536 }
    ensures { (result ≡ Sheet.constant sheet.now k default) × (result < 65536) }
{
    present_number(sheet, k).unwrap_or(default)
}

/// kNumberOfSpaces: how many bytes the back-reference tags of legacy sheets span, and the new-object
/// tag in the test of a usable sheet (see `new_object_span`).
pub fn number_of_spaces(sheet: &[u16]) -> u64
    ensures { (result ≡ Sheet.number_of_spaces sheet.now) × (result < 65536) }
{
    constant(sheet, K_NUMBER_OF_SPACES, 6)
}

/// kMapSpace: the space whose legacy back-references are map numbers.
pub fn map_space(sheet: &[u16]) -> u64
    ensures { (result ≡ Sheet.map_space sheet.now) × (result < 65536) }
{
    constant(sheet, K_MAP_SPACE, 4)
}

/// kLoSpace: the space whose legacy back-references are large-object numbers.
pub fn lo_space(sheet: &[u16]) -> u64
    ensures { (result ≡ Sheet.lo_space sheet.now) × (result < 65536) }
{
    constant(sheet, K_LO_SPACE, 5)
}

/// kRootArrayConstantsMask: a root constant's index is its head byte AND this.
pub fn root_mask(sheet: &[u16]) -> u64
    ensures { (result ≡ Sheet.root_mask sheet.now) × (result < 65536) }
{
    constant(sheet, K_ROOT_ARRAY_CONSTANTS_MASK, 31)
}

/// kSpaceTagSize: how many bits the space takes in a packed back-reference (6.x).
pub fn space_tag_size(sheet: &[u16]) -> u64
    ensures { (result ≡ Sheet.space_tag_size sheet.now) × (result < 65536) }
{
    constant(sheet, K_SPACE_TAG_SIZE, 3)
}

/// kPageSizeBits: the size of a page is 2 to the power of this (6.x).
pub fn page_size_bits(sheet: &[u16]) -> u64
    ensures { (result ≡ Sheet.page_size_bits sheet.now) × (result < 65536) }
{
    constant(sheet, K_PAGE_SIZE_BITS, 19)
}

/// The bytes of a tagged word; 4 or 8 in a usable sheet.
pub fn word_bytes(sheet: &[u16]) -> u64
    ensures { (result ≡ Sheet.word_bytes sheet.now) × (result < 65536) }
{
    number(sheet, TAGGED_SIZE)
}

/// How many whole words so many bytes are; 0 where the sheet's words have no bytes.
pub fn words_in(sheet: &[u16], bytes: u64) -> u64
    ensures { result ≡ bytes / Sheet.word_bytes sheet.now }
{
    // Division by a constant takes less time than by a number that is not known.
    match word_bytes(sheet) {
        4 => bytes / 4,
        8 => bytes / 8,
        word => bytes.checked_div(word).unwrap_or(0),
    }
}

/// Whether variable raw data takes bytes of its object.
pub fn raw_advances(sheet: &[u16]) -> bool
    ensures { result ≡ Sheet.raw_advances sheet.now }
{
    number(sheet, VAR_RAW_ADVANCES) != 0
}

/// Whether the sheet is legacy: kSpaceMask is present.
pub fn legacy(sheet: &[u16]) -> bool
    ensures { result ≡ Sheet.is_legacy sheet.now }
{
    present(sheet, K_SPACE_MASK)
}

/// Whether the sheet is of V8 6.x: kBackrefWithSkip is present.
pub fn six_x(sheet: &[u16]) -> bool
    ensures { result ≡ Sheet.is_six_x sheet.now }
{
    present(sheet, K_BACKREF_WITH_SKIP)
}

/// Whether an object's map stands before its allocation: legacy, and kNewMetaMap is present.
pub fn map_first(sheet: &[u16]) -> bool
    ensures { result ≡ Sheet.is_map_first sheet.now }
{
    legacy(sheet) && present(sheet, K_NEW_META_MAP)
}

// kRootArray is among the bytes of kNewObject, in a legacy sheet without kNumberOfSpaces.
fn root_array_inside(sheet: &[u16]) -> bool
    ensures { result ≡ Sheet.root_array_inside sheet.now }
{
    let first = number(sheet, K_NEW_OBJECT);
    legacy(sheet)
        && !present(sheet, K_NUMBER_OF_SPACES)
        && (first..first + number_of_spaces(sheet)).contains(&number(sheet, K_ROOT_ARRAY))
}

/// How many bytes from kNewObject on open an object in legacy sheets: kNumberOfSpaces. Where it is
/// absent, the span of its default ends below kRootArray if kRootArray lies in it.
#[tactic(auto, unfolding(crate::specs::Sheet::new_object_span))]
pub fn new_object_span(sheet: &[u16]) -> u64
    ensures { (result ≡ Sheet.new_object_span sheet.now) × (result < 65536) }
{
    if root_array_inside(sheet) {
        number(sheet, K_ROOT_ARRAY) - number(sheet, K_NEW_OBJECT)
    } else {
        number_of_spaces(sheet)
    }
}
