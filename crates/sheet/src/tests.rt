//! What objects and the closing section test a byte for, before a reference's head.
//!
//! A byte is a number from 0 to 255, or 256 where the payload has ended (`peek` of `stream`).
ghost use Rattle.std.specs.Prelude.{◌≡◌, ◌≤◌, eqb};
ghost use Rattle.sheet.specs.Sheet as Sheet;
ghost use Rattle.sheet.specs.Tests as Tests;

use crate::names::{K_ALIGNMENT_PREFIX, K_BACKREF, K_NEW_META_MAP, K_NEW_OBJECT, K_SYNCHRONIZE};
use crate::numbers::{legacy, new_object_span, number, number_of_spaces, present};

/// What the closing section takes a byte for.
#[derive(Clone, Copy)]
pub enum Closing {
    /// kSynchronize, which ends the section.
    Synchronize,
    /// An alignment prefix, from 1 to 3.
    Alignment(u64),
    /// A deferred entry of a legacy payload, with its space.
    Deferred(u64),
    /// Any other byte: a reference begins.
    Reference,
}

/// Whether a byte is the tag at place `k` of the sheet.
pub fn is_tag(sheet: &[u16], k: usize, b: u64) -> bool
    ensures { result ≡ eqb (Sheet.number sheet.now k) b }
{
    number(sheet, k) == b
}

// A byte lies in a span of n bytes from a name's value on.
fn in_span(sheet: &[u16], k: usize, n: u64, b: u64) -> bool
    requires { n ≤ 65536 }
    ensures { result ≡ Tests.in_span sheet.now k n b }
{
    let first = number(sheet, k);
    (first..first + n).contains(&b)
}

// A byte of the full new-object span that opens no object, since the span ends below kRootArray.
fn past_new_objects(sheet: &[u16], b: u64) -> bool
    ensures { result ≡ Tests.past_new_objects sheet.now b }
{
    let first = number(sheet, K_NEW_OBJECT);
    (first + new_object_span(sheet)..first + number_of_spaces(sheet)).contains(&b)
}

/// Whether the payload's first byte opens an object: kNewObject up to below kBackref, but no byte of
/// the span of kNumberOfSpaces that is past `new_object_span`.
pub fn opens(sheet: &[u16], b: u64) -> bool
    ensures { result ≡ Tests.opens sheet.now b }
{
    (number(sheet, K_NEW_OBJECT)..number(sheet, K_BACKREF)).contains(&b)
        && !past_new_objects(sheet, b)
}

/// The alignment of an alignment prefix, from 1 to 3; `None` where the byte is no such prefix.
#[tactic(auto, unfolding(crate::specs::Tests::alignment_of))]
pub fn alignment(sheet: &[u16], b: u64) -> Option<u64>
    ensures { result ≡ Tests.unless_zero (Tests.alignment_of sheet.now b) }
{
    in_span(sheet, K_ALIGNMENT_PREFIX, 3, b).then(|| b - number(sheet, K_ALIGNMENT_PREFIX) + 1)
}

// A deferred entry of a legacy closing section.
fn is_entry(sheet: &[u16], b: u64) -> bool
    ensures { result ≡ Tests.is_entry sheet.now b }
{
    legacy(sheet)
        && !present(sheet, K_NEW_META_MAP)
        && in_span(sheet, K_NEW_OBJECT, new_object_span(sheet), b)
}

/// What the closing section takes a byte for: kSynchronize, alignment prefix, deferred entry and
/// reference are tested in this order.
#[tactic(auto, unfolding(crate::specs::Tests::alignment_of, crate::specs::Tests::closing_of))]
pub fn closing_entry(sheet: &[u16], b: u64) -> Closing
    ensures { result ≡ Tests.closing_of sheet.now b }
{
    if is_tag(sheet, K_SYNCHRONIZE, b) {
        return Closing::Synchronize;
    }
    if let Some(a) = alignment(sheet, b) {
        return Closing::Alignment(a);
    }
    if is_entry(sheet, b) {
        return Closing::Deferred(b - number(sheet, K_NEW_OBJECT));
    }
    Closing::Reference
}
